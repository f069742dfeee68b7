//! Runs over lists of events.

ghost use Rattle.std.specs.Prelude.{IfOk, IsTrue};
ghost use Rattle.ynl_core.specs.Isolated.{AreIsolated};
ghost use Rattle.ynl_core.specs.Runs.{Answered, AreSure, IsRun, IsRunFrom, has_reply};
ghost use Rattle.ynl_core.specs.Sure.{takes_no_memory};
ghost use Rattle.ynl_core.specs.World.{opened};

use crate::cluster::Core;
use crate::memory::NoMemory;
use crate::runs::{Answer, Run};
use std::alloc::Global;
use ynl_model::{Event, Items};
use ynl_queues::Config;

fn answer_one(core: &mut Core, event: Event) -> Answer
    ensures answered { Answered core.old event core.new result }
    ensures sure { IsTrue (takes_no_memory core.old event) → IsTrue (has_reply result) }
{
    match core.apply(event) {
        Ok(reply) => Answer::Replied(reply),
        Err(NoMemory) => Answer::NoMemory,
    }
}

/// Answers the events in order from this cluster on, one answer to each. An event for which memory is
/// refused changes nothing, and the run goes on; an event that takes no memory, as the cluster is when its
/// turn comes, is answered whatever memory there is. Memory for the answers is taken first, and where that
/// is refused there is no run.
pub fn run_from(alloc: Global, core: Core, events: &[Event]) -> Result<Run, NoMemory>
    ensures run { IfOk result (λ run. IsRunFrom core events.now run.answers run.core) }
    ensures sure { IfOk result (λ run. AreSure core events.now run.answers) }
{
    let mut core = core;
    let mut answers = Vec::with_capacity(alloc, events.len())?;
    for event in events {
        answers.push_reserved(answer_one(&mut core, *event));
    }
    Ok(Run {
        answers: Items::new(answers),
        core,
    })
}

/// Answers the events as `run_from`, from a cluster of this configuration that is just opened. Where no
/// event was refused memory, each tenant that alone may use an exclusive partition of an accepted
/// configuration is answered there as its own cluster would answer. Memory for the cluster and for the
/// answers is taken first, and where that is refused there is no run.
pub fn run(alloc: Global, config: Config, events: &[Event]) -> Result<Run, NoMemory>
    ensures run { IfOk result (λ run. IsRun config events.now run.answers run.core) }
    ensures sure { IfOk result (λ run. AreSure (opened config) events.now run.answers) }
    ensures isolated { IfOk result (λ run. AreIsolated config events.now run.answers run.core) }
{
    run_from(alloc, Core::open(alloc, config)?, events)
}
