//! Events read from the front of what is kept. An event is large, so each is read into a place that the caller keeps.

ghost use Rattle.ynl_packed.specs.Reading.{Gives, choice_at, register_at, relabel_at, exited_at, submit_at, ask_at, release_at, finish_at, poll_at, usage_at, maximum_at, short_at, event_of, event_at, mapped, name_at, path_at, proposal_at};
ghost use Rattle.ynl_model.specs.declared.events.Event.TheVariants.{Lost, Heartbeat, Stop, Start, Propose, Commit};

use crate::cursor::Cursor;
use ynl_model::Event;
use ynl_resource::{Hundredths, Label, Name};

/// Any event: what stands in a place before one is read into it.
#[tactic(auto, unfolding(ynl_resource::specs::Texts::read_name))]
pub fn any_event() -> Event {
    match Name::parse("none") {
        Ok(node) => Event::Lost { node },
        Err(_) => unreachable!(),
    }
}

/// The label that may not be there.
#[tactic(auto, unfolding(crate::specs::Reading::choice_at))]
fn choice_at(c: &mut Cursor) -> Option<Option<Label>>
    ensures { Gives (λ x. (x, c.new.rest.now)) result (choice_at c.old.rest.now) }
{
    match c.kind()? {
        0 => Some(None),
        _ => {
            let label = c.label()?;
            Some(Some(label))
        }
    }
}

#[tactic(auto, unfolding(crate::specs::Reading::register_at))]
fn register_at(c: &mut Cursor, into: &mut Event) -> Option<()>
    ensures { Gives (λ _. (into.new, c.new.rest.now)) result (register_at c.old.rest.now) }
{
    let node = c.name()?;
    let label = c.label()?;
    let size = c.size()?;
    *into = Event::Register { node, label, size };
    Some(())
}

#[tactic(auto, unfolding(crate::specs::Reading::relabel_at))]
fn relabel_at(c: &mut Cursor, into: &mut Event) -> Option<()>
    ensures { Gives (λ _. (into.new, c.new.rest.now)) result (relabel_at c.old.rest.now) }
{
    let node = c.name()?;
    let label = c.label()?;
    *into = Event::Relabel { node, label };
    Some(())
}

#[tactic(auto, unfolding(crate::specs::Reading::exited_at))]
fn exited_at(c: &mut Cursor, into: &mut Event) -> Option<()>
    ensures { Gives (λ _. (into.new, c.new.rest.now)) result (exited_at c.old.rest.now) }
{
    let node = c.name()?;
    let id = c.id()?;
    *into = Event::Exited { node, id };
    Some(())
}

#[tactic(auto, unfolding(crate::specs::Reading::submit_at))]
fn submit_at(c: &mut Cursor, into: &mut Event) -> Option<()>
    ensures { Gives (λ _. (into.new, c.new.rest.now)) result (submit_at c.old.rest.now) }
{
    let queue = c.path()?;
    let app = c.name()?;
    let user = c.name()?;
    let label = choice_at(c)?;
    let master = c.size()?;
    *into = Event::Submit {
        queue,
        app,
        user,
        label,
        master,
    };
    Some(())
}

#[tactic(auto, unfolding(crate::specs::Reading::ask_at))]
fn ask_at(c: &mut Cursor, into: &mut Event) -> Option<()>
    ensures { Gives (λ _. (into.new, c.new.rest.now)) result (ask_at c.old.rest.now) }
{
    let tenant = c.name()?;
    let app = c.name()?;
    let label = c.label()?;
    let priority = c.small()?;
    let count = c.small()?;
    let size = c.size()?;
    *into = Event::Ask {
        tenant,
        app,
        label,
        priority,
        count,
        size,
    };
    Some(())
}

#[tactic(auto, unfolding(crate::specs::Reading::release_at))]
fn release_at(c: &mut Cursor, into: &mut Event) -> Option<()>
    ensures { Gives (λ _. (into.new, c.new.rest.now)) result (release_at c.old.rest.now) }
{
    let tenant = c.name()?;
    let id = c.id()?;
    *into = Event::Release { tenant, id };
    Some(())
}

#[tactic(auto, unfolding(crate::specs::Reading::finish_at))]
fn finish_at(c: &mut Cursor, into: &mut Event) -> Option<()>
    ensures { Gives (λ _. (into.new, c.new.rest.now)) result (finish_at c.old.rest.now) }
{
    let tenant = c.name()?;
    let app = c.name()?;
    *into = Event::Finish { tenant, app };
    Some(())
}

#[tactic(auto, unfolding(crate::specs::Reading::poll_at))]
fn poll_at(c: &mut Cursor, into: &mut Event) -> Option<()>
    ensures { Gives (λ _. (into.new, c.new.rest.now)) result (poll_at c.old.rest.now) }
{
    let tenant = c.name()?;
    let app = c.name()?;
    let label = c.label()?;
    *into = Event::Poll { tenant, app, label };
    Some(())
}

#[tactic(auto, unfolding(crate::specs::Reading::usage_at))]
fn usage_at(c: &mut Cursor, into: &mut Event) -> Option<()>
    ensures { Gives (λ _. (into.new, c.new.rest.now)) result (usage_at c.old.rest.now) }
{
    let queue = c.path()?;
    let label = c.label()?;
    *into = Event::Usage { queue, label };
    Some(())
}

#[tactic(auto, unfolding(crate::specs::Reading::maximum_at))]
fn maximum_at(c: &mut Cursor, into: &mut Event) -> Option<()>
    ensures { Gives (λ _. (into.new, c.new.rest.now)) result (maximum_at c.old.rest.now) }
{
    let queue = c.path()?;
    let label = c.label()?;
    let number = c.small()?;
    let maximum = Hundredths::new(u64::from(number))?;
    *into = Event::Maximum {
        queue,
        label,
        maximum,
    };
    Some(())
}

fn lost_at(c: &mut Cursor, into: &mut Event) -> Option<()>
    ensures { Gives (λ _. (into.new, c.new.rest.now)) result (mapped Lost (name_at c.old.rest.now)) }
{
    let node = c.name()?;
    *into = Event::Lost { node };
    Some(())
}

fn heartbeat_at(c: &mut Cursor, into: &mut Event) -> Option<()>
    ensures { Gives (λ _. (into.new, c.new.rest.now)) result (mapped Heartbeat (name_at c.old.rest.now)) }
{
    let node = c.name()?;
    *into = Event::Heartbeat { node };
    Some(())
}

fn stop_at(c: &mut Cursor, into: &mut Event) -> Option<()>
    ensures { Gives (λ _. (into.new, c.new.rest.now)) result (mapped Stop (path_at c.old.rest.now)) }
{
    let queue = c.path()?;
    *into = Event::Stop { queue };
    Some(())
}

fn start_at(c: &mut Cursor, into: &mut Event) -> Option<()>
    ensures { Gives (λ _. (into.new, c.new.rest.now)) result (mapped Start (path_at c.old.rest.now)) }
{
    let queue = c.path()?;
    *into = Event::Start { queue };
    Some(())
}

fn propose_at(c: &mut Cursor, into: &mut Event) -> Option<()>
    ensures { Gives (λ _. (into.new, c.new.rest.now)) result (mapped Propose (name_at c.old.rest.now)) }
{
    let node = c.name()?;
    *into = Event::Propose { node };
    Some(())
}

fn commit_at(c: &mut Cursor, into: &mut Event) -> Option<()>
    ensures { Gives (λ _. (into.new, c.new.rest.now)) result (mapped Commit (proposal_at c.old.rest.now)) }
{
    let proposal = c.proposal()?;
    *into = Event::Commit { proposal };
    Some(())
}

/// An event that names a node alone, a queue alone, or a proposal.
#[tactic(auto, unfolding(crate::specs::Reading::short_at))]
fn short_at(kind: u8, c: &mut Cursor, into: &mut Event) -> Option<()>
    ensures { Gives (λ _. (into.new, c.new.rest.now)) result (short_at kind c.old.rest.now) }
{
    match kind {
        1 => lost_at(c, into),
        3 => heartbeat_at(c, into),
        9 => stop_at(c, into),
        10 => start_at(c, into),
        13 => propose_at(c, into),
        14 => commit_at(c, into),
        _ => None,
    }
}

/// The fields of an event of this kind.
#[tactic(auto, unfolding(crate::specs::Reading::event_of))]
fn event_of(kind: u8, c: &mut Cursor, into: &mut Event) -> Option<()>
    ensures { Gives (λ _. (into.new, c.new.rest.now)) result (event_of kind c.old.rest.now) }
{
    match kind {
        0 => register_at(c, into),
        2 => relabel_at(c, into),
        4 => exited_at(c, into),
        5 => submit_at(c, into),
        6 => ask_at(c, into),
        7 => release_at(c, into),
        8 => finish_at(c, into),
        11 => poll_at(c, into),
        12 => usage_at(c, into),
        15 => maximum_at(c, into),
        _ => short_at(kind, c, into),
    }
}

/// An event: its kind, and its fields.
#[tactic(auto, unfolding(crate::specs::Reading::event_at))]
pub(crate) fn event_at(c: &mut Cursor, into: &mut Event) -> Option<()>
    ensures { Gives (λ _. (into.new, c.new.rest.now)) result (event_at c.old.rest.now) }
{
    let kind = c.kind()?;
    event_of(kind, c, into)
}
