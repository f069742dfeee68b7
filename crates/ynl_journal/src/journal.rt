//! The book of a cluster: all that it was told, and what it answered.

ghost use Rattle.std.specs.Prelude.{◌≡◌, ◌+◌, ◌^◌, ◌<◌, [], ◌∷◌, ◌++◌, length, vec_len, vec_capacity, IfOk, IsTrue, OnOk, OnErr, Some};
ghost use Rattle.ynl_core.specs.Sightings.{IsSighting, reply_by, reply_before};
ghost use Rattle.ynl_model.specs.Accepted.{is_accepted};
ghost use Rattle.ynl_model.specs.Cluster.{opening};
ghost use Rattle.ynl_model.specs.Events.{after, step};
ghost use Rattle.ynl_model.specs.declared.events.Event.TheVariants.{Propose};
ghost use Rattle.ynl_journal.specs.Journal.{AgreesFrom, IsHistoryFrom, Journal, entry, events_in, replayed_from};

use crate::replaying::entries_of;
use crate::start::Start;
use std::alloc::{AllocError, Global};
use std::marker::Model;
use std::sync::Arc;
use ynl_core::{Core, NoMemory, Sighted};
use ynl_model::{Entry, Event, Reply};
use ynl_packed::Events;
use ynl_queues::Config;
use ynl_resource::Name;

/// A cluster with its journal. Each event that comes is entered with its reply, and the state is at all
/// times what the entries' events lead to.
///
/// A reply is the cluster's, and can be worked out again; so only events are kept, each as its bytes.
pub struct Book {
    // The cluster that the events began with.
    start: Arc<Start>,
    core: Core,
    events: Events,
    // Of each event, whether its reply was left to be planned.
    planned: Vec<bool>,
}

// By hand, so that crates above call it: one that is derived is proved anew in each of them, with all that it holds.
impl Drop for Book {
    fn drop(self) {
        let Book {
            start: _,
            core: _,
            events: _,
            planned: _,
        } = self;
    }
}

impl Model for Book {
    ghost use Rattle.ynl_journal.specs.BookFields.{IsReplay, journal_of};
    ghost use Rattle.ynl_journal.specs.Journal.{Journal};

    ghost Value = { Journal };

    ghost view = { journal_of };

    ghost invariant = { IsReplay };
}

impl Book {
    /// A book without entries, of a cluster that has just been opened.
    pub fn open(alloc: Global, config: Config) -> Result<Book, NoMemory>
        ensures { IfOk result (λ book. book ≡ record { config = config; begun = opening config; entries = [] }) }
    {
        Book::begin(alloc, Arc::new(alloc, Start::opened(alloc, config))?)
    }

    /// A book without entries, of a cluster that has a state already: it goes on from there. As for
    /// `Start::resumed`, its configuration is accepted.
    pub fn resume(alloc: Global, core: Core) -> Result<Book, NoMemory>
        requires { IsTrue (is_accepted core.config) }
        ensures { IfOk result (λ book. book ≡ record { config = core.config; begun = core.state; entries = [] }) }
    {
        Book::begin(alloc, Arc::new(alloc, Start::resumed(core))?)
    }

    /// A book without entries, of a second cluster like that of the start.
    pub fn begin(alloc: Global, start: Arc<Start>) -> Result<Book, NoMemory>
        ensures { IfOk result (λ book. book
            ≡ record { config = start.value.config; begun = start.value.state; entries = [] }) }
    {
        let core = start.cluster(alloc)?;
        Ok(Book {
            start,
            core,
            events: Events::new(alloc),
            planned: Vec::new(alloc),
        })
    }

    /// How many entries there are.
    pub fn len(&self) -> usize
        ensures value { result ≡ length self.now.entries }
        ensures counted { result + 1 < 2 ^ 64 }
    {
        self.events.len()
    }

    /// The events of the entries, in the order in which they came.
    pub fn events(&self) -> &Events
        ensures { result.now ≡ events_in self.now.entries }
    {
        &self.events
    }

    /// The events alone. The cluster goes.
    pub fn into_events(self) -> Events
        ensures { result ≡ events_in self.entries }
    {
        let Book {
            start: _,
            core: _,
            events,
            planned: _,
        } = self;
        events
    }

    /// The entries, in the order in which their events came. Each reply that is there is the cluster's: a second
    /// cluster like the one that the book began with answers the events once more.
    pub fn entries(&self, alloc: Global) -> Result<Vec<Entry>, NoMemory>
        ensures entries { IfOk result (λ entries. entries.items ≡ self.now.entries) }
        ensures agrees { AgreesFrom self.now.config self.now.begun self.now.entries }
    {
        let mut again = self.start.cluster(alloc)?;
        entries_of(alloc, &mut again, &self.events, &self.planned)
    }

    /// Takes an event, and answers its place, counted from 0, and the cluster's reply. Where memory is
    /// refused nothing has changed: the event is kept before it is applied, and is given up where it is not.
    pub fn enter(&mut self, event: &Event) -> Result<(u64, Reply), NoMemory>
        ensures place { IfOk result (λ told. told.0 ≡ length self.old.entries) }
        ensures reply { IfOk result (λ told. told.1 ≡ (step self.old.config (after self.old.config self.old.begun (events_in self.old.entries)) event.now).reply) }
        ensures entry { IfOk result (λ told. self.new ≡ record self.old { entries = self.old.entries ++ entry event.now (Some told.1) ∷ [] }) }
        ensures closed { IfOk result (λ _. IsHistoryFrom self.old.config self.old.begun self.old.entries → IsHistoryFrom self.new.config self.new.begun self.new.entries) }
        ensures err { OnErr result (self.new ≡ self.old) }
    {
        let place = self.events.len();
        keep(&mut self.events, &mut self.planned, event)?;
        match self.core.answer(event) {
            Ok(reply) => {
                self.planned.push_reserved(false);
                Ok((place as u64, reply))
            }
            Err(refused) => {
                self.events.truncate(place);
                Err(refused)
            }
        }
    }

    /// Enters a propose on a node, and answers its place with what is seen of the cluster, from which the reply can be worked
    /// out at any time. Only a refusal is entered as the reply; otherwise the entry has none. `Err` only if memory is refused;
    /// nothing has changed then.
    pub fn enter_propose(&mut self, node: &Name) -> Result<(u64, Sighted), NoMemory>
        ensures place { IfOk result (λ told. told.0 ≡ length self.old.entries) }
        ensures sighting { IfOk result (λ told. IsSighting (replayed_from self.old.config self.old.begun self.old.entries) node.now told.1) }
        ensures reply { IfOk result (λ told. reply_by told.1 ≡ (step self.old.config (after self.old.config self.old.begun (events_in self.old.entries)) (Propose node.now)).reply) }
        ensures entry { IfOk result (λ told. self.new ≡ record self.old { entries = self.old.entries ++ entry (Propose node.now) (reply_before told.1) ∷ [] }) }
        ensures err { OnErr result (self.new ≡ self.old) }
    {
        let place = self.events.len();
        let event = Event::Propose { node: *node };
        keep(&mut self.events, &mut self.planned, &event)?;
        match self.core.see(node) {
            Ok(sighted) => {
                self.planned.push_reserved(true);
                Ok((place as u64, sighted))
            }
            Err(refused) => {
                self.events.truncate(place);
                Err(refused)
            }
        }
    }
}

/// Keeps an event, with memory for what is said of it.
fn keep(events: &mut Events, planned: &mut Vec<bool>, event: &Event) -> Result<(), AllocError>
    ensures events { OnOk result (events.new ≡ events.old ++ event.now ∷ []) }
    ensures planned { planned.new.items ≡ planned.old.items }
    ensures room { OnOk result (vec_len planned.new < vec_capacity planned.new) }
    ensures err { OnErr result (events.new ≡ events.old) }
{
    planned.reserve(1)?;
    events.push(event)
}
