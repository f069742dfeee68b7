//! The cluster that a journal begins with.

ghost use Rattle.std.specs.Prelude.{◌≡◌, IfOk};
ghost use Rattle.ynl_journal.specs.StartFields.{led_to};

use crate::replaying::replay_history;
use std::alloc::Global;
use std::marker::Model;
use std::sync::Arc;
use ynl_core::{Core, NoMemory};
use ynl_model::Node;
use ynl_packed::{Entries, Events};
use ynl_queues::Config;

/// How a journal's first cluster comes about.
#[derive(Drop)]
enum Beginning {
    /// It is opened, and these events are applied to it.
    Opened(Config, Events),
    /// It has a state already.
    Resumed(Core),
}

/// The cluster that a journal begins with: a second one like it can be had at any time.
pub struct Start {
    at: Beginning,
}

// By hand, so that crates above call it: one that is derived is proved anew in each of them, with all that it holds.
impl Drop for Start {
    fn drop(self) {
        let Start { at: _ } = self;
    }
}

impl Model for Start {
    ghost use Rattle.ynl_core.specs.World.{World};
    ghost use Rattle.ynl_journal.specs.StartFields.{cluster_of, IsCopied};

    ghost Value = { World };

    ghost view = { cluster_of };

    ghost invariant = { IsCopied };
}

/// The cluster that these events lead to, from one that is just opened.
fn led_to(alloc: Global, config: Config, events: &Events) -> Result<Core, NoMemory>
    ensures { IfOk result (λ core. core ≡ led_to config events.now) }
{
    let mut core = Core::open(alloc, config)?;
    let _ = replay_history(alloc, &mut core, events)?;
    Ok(core)
}

impl Start {
    ghost use Rattle.std.specs.Prelude.{◌≡◌, IfOk, IsTrue};
    ghost use Rattle.ynl_model.specs.Accepted.{is_accepted};
    ghost use Rattle.ynl_laws.specs.Working.{IsWorking};
    ghost use Rattle.ynl_core.specs.World.{opened};
    ghost use Rattle.ynl_journal.specs.Journal.{IsHistoryFrom, events_in, replayed_from};

    /// A cluster without nodes, applications or containers.
    pub fn opened(alloc: Global, config: Config) -> Start
        ensures { result ≡ opened config }
    {
        Start {
            at: Beginning::Opened(config, Events::new(alloc)),
        }
    }

    /// This cluster, which is kept as it is. As for `Core::copy`, its configuration is accepted.
    pub fn resumed(core: Core) -> Start
        requires { IsTrue (is_accepted core.config) }
        ensures { result ≡ core }
    {
        Start {
            at: Beginning::Resumed(core),
        }
    }

    /// The cluster that these events lead to from here, and their history. `Err` only if memory is refused.
    ///
    /// A cluster whose configuration is not known to be accepted cannot be copied: the next one like it is led
    /// there by all its events.
    pub fn after(self, alloc: Global, events: &Events) -> Result<(Start, Entries), NoMemory>
        ensures events { IfOk result (λ made. events_in made.1 ≡ events.now) }
        ensures closed { IfOk result (λ made. IsHistoryFrom self.config self.state made.1) }
        ensures start { IfOk result (λ made. made.0 ≡ replayed_from self.config self.state made.1) }
    {
        let Start { at } = self;
        match at {
            Beginning::Opened(config, before) => {
                let mut core = led_to(alloc, config.copy(alloc)?, &before)?;
                let history = replay_history(alloc, &mut core, events)?;
                let mut all = before;
                all.append(events)?;
                let at = Beginning::Opened(config, all);
                Ok((Start { at }, history))
            }
            Beginning::Resumed(core) => {
                let mut core = core;
                let history = replay_history(alloc, &mut core, events)?;
                let at = Beginning::Resumed(core);
                Ok((Start { at }, history))
            }
        }
    }

    /// A second cluster like it. `Err` only if memory is refused.
    pub fn cluster(&self, alloc: Global) -> Result<Core, NoMemory>
        ensures { IfOk result (λ core. core ≡ self.now) }
    {
        match &self.at {
            Beginning::Opened(config, events) => led_to(alloc, config.copy(alloc)?, events),
            Beginning::Resumed(core) => core.copy(),
        }
    }

    /// This cluster itself, if it has a state and nobody else shares the start, else a second one like it. `Err` only if
    /// memory is refused.
    pub fn into_cluster(start: Arc<Start>, alloc: Global) -> Result<Core, NoMemory>
        ensures { IfOk result (λ core. core ≡ start.value) }
    {
        match Arc::try_unwrap(start) {
            Ok(start) => start.own_cluster(alloc),
            Err(shared) => shared.cluster(alloc),
        }
    }

    fn own_cluster(self, alloc: Global) -> Result<Core, NoMemory>
        ensures { IfOk result (λ core. core ≡ self) }
    {
        let Start { at } = self;
        match at {
            Beginning::Opened(config, events) => led_to(alloc, config, &events),
            Beginning::Resumed(core) => Ok(core),
        }
    }

    /// Its nodes, in the order of joining; it keeps what every state keeps. `Err` only if memory is refused.
    pub fn nodes(&self, alloc: Global) -> Result<Vec<Node>, NoMemory>
        ensures nodes { IfOk result (λ nodes. nodes.items ≡ self.now.state.nodes) }
        ensures works { IfOk result (λ _. IsWorking self.now.config self.now.state) }
    {
        match &self.at {
            Beginning::Opened(_, _) => self.cluster(alloc)?.nodes(alloc),
            Beginning::Resumed(core) => core.nodes(alloc),
        }
    }
}
