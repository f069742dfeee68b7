//! The cluster that a journal leads to, and the history that its events make.

ghost use Rattle.std.specs.Prelude.{◌≡◌, ◌<◌, ℕ, length, take, IfOk, OnErr, OnOk};
ghost use Rattle.ynl_journal.specs.BookFields.{written, entries_from};
ghost use Rattle.ynl_journal.specs.Journal.{IsHistoryFrom, entry, events_in, replayed_from};

use std::alloc::Global;
use ynl_core::{Core, NoMemory};
use ynl_model::{Entry, Event, Reply};
use ynl_packed::{Entries, Events, any_event};

/// Applies the entries' events to the cluster. Their replies are not looked at. `Err` only if memory is
/// refused: the cluster is then the one that the events before the refusal lead to.
pub fn replay(core: &mut Core, entries: &[Entry]) -> Result<(), NoMemory>
    ensures ok { OnOk result (core.new ≡ replayed_from core.old.config core.old.state entries.now) }
    ensures err { OnErr result ((n : ℕ) × (n < length entries.now)
        × (core.new ≡ replayed_from core.old.config core.old.state (take n entries.now))) }
{
    for entry in entries {
        core.answer(&entry.event)?;
    }
    Ok(())
}

fn entry_with(event: &Event, reply: Option<Reply>) -> Entry
    ensures { result ≡ entry event.now reply }
{
    Entry {
        event: *event,
        reply,
    }
}

/// Events once more, each with the reply of the cluster that they are applied to in order.
pub fn replay_history(alloc: Global, core: &mut Core, events: &Events) -> Result<Entries, NoMemory>
    ensures events { IfOk result (λ history. events_in history ≡ events.now) }
    ensures closed { IfOk result (λ history. IsHistoryFrom core.old.config core.old.state history) }
    ensures core { IfOk result (λ history. core.new ≡ replayed_from core.old.config core.old.state history) }
{
    let mut history = Entries::new(alloc);
    let mut event = any_event();
    for i in 0..events.len() {
        events.read(i, &mut event);
        let reply = core.answer(&event)?;
        history.push_kept(events, i, &reply)?;
    }
    Ok(history)
}

/// What is written down of a reply: all of it, or, where it is left to be planned, a refusal alone.
fn written(planned: bool, reply: Reply) -> Option<Reply>
    ensures { result ≡ written planned reply }
{
    if planned && !matches!(&reply, Reply::Refused(_)) {
        return None;
    }
    Some(reply)
}

/// The entries of events, each with what is written down of the reply of the cluster that they are applied to.
pub(crate) fn entries_of(
    alloc: Global,
    core: &mut Core,
    events: &Events,
    planned: &[bool],
) -> Result<Vec<Entry>, NoMemory>
    requires { length planned.now ≡ length events.now }
    ensures { IfOk result (λ entries. entries.items ≡ entries_from core.old.config core.old.state events.now planned.now) }
{
    let mut entries = Vec::new(alloc);
    let mut event = any_event();
    for (i, planned) in planned.iter().enumerate() {
        events.read(i, &mut event);
        let reply = core.answer(&event)?;
        entries.push(entry_with(&event, written(*planned, reply)))?;
    }
    Ok(entries)
}
