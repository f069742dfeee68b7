//! What a tenant sees, the answers that are picked, and a cluster without queues.

ghost use Rattle.std.specs.Prelude.{◌≡◌, length};

use crate::values::{
    NODE, configured, event_of, events_of, id, label, name, one, size, tell_refused, two,
};
use std::alloc::Global;
use std::process::Abort;
use ynl_core::{Answer, NoMemory, run};
use ynl_model::{Event, Items, Placed, Reply, What};
use ynl_queues::Config;
use ynl_resource::{Label, Name, Refusal};
use ynl_view::{pick, restrict, sole, view};

const UNLABELLED: &str =
    r#"{"event":"register","label":"","memory":10000,"node":"d1","vcores":10}"#;

/// An application comes to root.
const TO_ROOT: &str =
    r#"{"app":"j1","event":"submit","memory":1,"queue":"root","user":"ann","vcores":1}"#;

/// Whether the answer is a list of containers that were placed.
fn is_placed(answer: &Answer) -> bool {
    matches!(answer, Answer::Replied(Reply::Placed(_)))
}

fn seen_of(
    alloc: Global,
    config: &Config,
    events: &[Event],
    answers: &[Answer],
    tenant: &Name,
    gpu: &Label,
) -> Result<Vec<Answer>, NoMemory>
    requires { length events.now ≡ length answers.now }
{
    let alone = restrict(alloc, config, tenant)?;
    let seen = view(alloc, &alone, events, tenant, gpu)?;
    pick(alloc, answers, &seen.places)
}

/// A list of one container of the tenant's.
fn container<R: Abort>(rt: &R, alloc: Global, tenant: Name) -> Items<Placed> {
    let placed = Placed {
        id: id(rt, "gpu#2"),
        node: tenant,
        tenant,
        app: tenant,
        what: What::Master,
        size: size(rt, 1000, 1),
    };
    Items::new(one(rt, alloc, placed))
}

// Run with each allocation failing in turn: where memory is refused at the first try, which a line
// tells, the second picks.
fn picked<R: Print + Abort>(
    rt: &R,
    alloc: Global,
    config: &Config,
    tenant: &Name,
    gpu: &Label,
) -> Vec<Answer> {
    let events = [event_of(rt, alloc, UNLABELLED), event_of(rt, alloc, NODE)];
    let placed = Reply::Placed(container(rt, alloc, *tenant));
    let answers = two(rt, alloc, Answer::NoMemory, Answer::Replied(placed));
    match seen_of(alloc, config, &events, &answers, tenant, gpu) {
        Ok(picked) => picked,
        Err(NoMemory) => {
            tell_refused(rt);
            seen_of(alloc, config, &events, &answers, tenant, gpu).expect(rt, "memory")
        }
    }
}

#[test]
fn picks_at_the_second_try(rt: HostRuntime) {
    let alloc = rt.alloc();
    let (eng, gpu) = (name(&rt, "eng"), label(&rt, "gpu"));
    let config = configured(&rt, alloc);
    let picked = picked(&rt, alloc, &config, &eng, &gpu);
    assert!(rt; sole(&config, &eng, &gpu) && picked.len() == 1 && picked.iter().all(is_placed));
}

// No text of a configuration leaves root without a queue.
#[test]
fn nobody_submits_to_root(rt: HostRuntime) {
    let alloc = rt.alloc();
    let config = configured(&rt, alloc);
    let nobody = restrict(alloc, &config, &name(&rt, "mkt")).expect(&rt, "memory");
    assert!(rt; nobody.queues().is_empty());
    let ran = run(alloc, nobody, &events_of(&rt, alloc, &[TO_ROOT])).expect(&rt, "memory");
    assert!(rt; ran.answers.as_slice().iter().all(is_no_leaf));
}

fn is_no_leaf(answer: &Answer) -> bool {
    matches!(answer, Answer::Replied(Reply::Refused(Refusal::NotALeaf)))
}
