//! From the lines of a journal to its entries.

ghost use Rattle.std.specs.Prelude.{◌≡◌, IfOk, IfSome, OnErr, OnOk, IsOk, IsSome, IsTrue, IsUtf8, None, Ok};
ghost use Rattle.ynl_fields.specs.Trees.{data_at};
ghost use Rattle.ynl_lines.specs.Reading.{Gives, IsRanged};
ghost use Rattle.ynl_lines.specs.ReadingReplies.{MayBeTold, IsRead};
ghost use Rattle.ynl_lines.specs.ReadingReplies as spec;

use crate::compact_events::cut_event;
use crate::compact_replies::cut_reply;
use crate::faults::{BadLine, LineFault};
use crate::read::{any_event, event_at};
use crate::read_replies::{reply_at, value_under};
use crate::write::put_line;
use std::alloc::{AllocError, Global};
use std::marker::Model;
use ynl_fields::{Cursor, Fields, keys_are, number_at, parse};
use ynl_model::{Entry, Event, Reply};

/// The place of a line, and its event.
#[tactic(auto, unfolding(crate::specs::ReadingReplies::placed_event_at))]
fn placed_event_at(line: &Fields<'_, '_>) -> Result<(u64, Event), LineFault>
    ensures event { result ≡ spec.placed_event_at (data_at line.now.stands) }
    ensures ranged { IfOk result (λ read. IsRanged read.1) }
{
    let place = number_at(line, "place", LineFault::Field)?;
    let value = value_under(line, "event")?;
    let mut event = any_event();
    event_at(&value, &mut event)?;
    Ok((place, event))
}

/// The reply of a line that has none: that of a propose alone may have none.
fn unanswered(line: &Fields<'_, '_>, event: &Event) -> Result<Option<Reply>, LineFault>
    ensures reply { result ≡ spec.unanswered event.now (data_at line.now.stands) }
    ensures told { IfOk result (λ reply. MayBeTold event.now reply) }
{
    match event {
        Event::Propose { .. } => {
            keys_are(line, 2, LineFault::Field)?;
            Ok(None)
        }
        _ => Err(LineFault::Field),
    }
}

/// The reply of a line, from the value that stands under its key.
fn answered(
    alloc: Global,
    line: &Fields<'_, '_>,
    reply: &Fields<'_, '_>,
) -> Result<Result<Option<Reply>, LineFault>, AllocError>
    ensures reply { IfOk result (λ read. read ≡ spec.answered (data_at reply.now.stands) (data_at line.now.stands)) }
    ensures some { IfOk result (λ read. IfOk read (λ reply. IsSome reply)) }
{
    if let Err(fault) = keys_are(line, 3, LineFault::Field) {
        return Ok(Err(fault));
    }
    match reply_at(alloc, reply)? {
        Ok(reply) => Ok(Ok(Some(reply))),
        Err(fault) => Ok(Err(fault)),
    }
}

/// The reply of a line with this event, if it may be without one.
#[tactic(auto, unfolding(crate::specs::ReadingReplies::answer_at))]
fn answer_at(
    alloc: Global,
    line: &Fields<'_, '_>,
    event: &Event,
) -> Result<Result<Option<Reply>, LineFault>, AllocError>
    ensures reply { IfOk result (λ read. read ≡ spec.answer_at event.now (data_at line.now.stands)) }
    ensures told { IfOk result (λ read. IfOk read (λ reply. MayBeTold event.now reply)) }
{
    match line.get("reply") {
        Some(value) => answered(alloc, line, &value),
        None => Ok(unanswered(line, event)),
    }
}

/// The place and the entry of an object.
#[tactic(auto, unfolding(crate::specs::ReadingReplies::line_at))]
fn line_at(
    alloc: Global,
    line: &Fields<'_, '_>,
) -> Result<Result<(u64, Entry), BadLine>, AllocError>
    ensures entry { IfOk result (λ read. read ≡ spec.or_bad (spec.line_at (data_at line.now.stands))) }
    ensures ranged { IfOk result (λ read. IfOk read (λ line. IsRanged line.1.event)) }
    ensures told { IfOk result (λ read. IfOk read (λ line. MayBeTold line.1.event line.1.reply)) }
    ensures event { OnErr result (IsOk (spec.placed_event_at (data_at line.now.stands))) }
{
    let Ok((place, event)) = placed_event_at(line) else {
        return Ok(Err(BadLine));
    };
    match answer_at(alloc, line, &event)? {
        Ok(reply) => Ok(Ok((place, Entry { event, reply }))),
        Err(_) => Ok(Err(BadLine)),
    }
}

/// Whether an event may stand in a line with no reply: a propose alone may.
fn may_lack_reply(event: &Event) -> bool
    ensures { IsTrue result → MayBeTold event.now None }
{
    matches!(event, Event::Propose { .. })
}

/// Reads what a line in the compact form is taken to say, and returns its place, if it has that form.
fn read_compact(alloc: Global, line: &[u8], into: &mut Entry) -> Result<Option<u64>, AllocError>
    ensures { IfOk result (λ found. IfSome found (λ _. IsRead into.new)) }
{
    let mut rest = Cursor::new(line);
    if !rest.skips(b"{\"event\":") || cut_event(&mut rest, &mut into.event).is_none() {
        return Ok(None);
    }
    let Some(place) = rest.number(b",\"place\":") else {
        return Ok(None);
    };
    if rest.skips(b",\"reply\":") {
        let found = cut_reply(alloc, &mut rest, &mut into.reply)?;
        return Ok(if found.is_some() && into.reply.is_some() {
            Some(place)
        } else {
            None
        });
    }
    into.reply = None;
    Ok(if may_lack_reply(&into.event) {
        Some(place)
    } else {
        None
    })
}

/// Reads the lines of a journal one after another, with memory that is kept from line to line. An entry is large, so it is
/// read into one place, and lent from there. A contract sees the place and the entry of the line that was read last.
#[derive(Drop)]
pub struct LineReader {
    text: Vec<u8>,
    place: u64,
    entry: Entry,
}

impl Model for LineReader {
    ghost use Rattle.std.specs.Prelude.{ℕ};
    ghost use Rattle.ynl_model.specs.declared.entries.Entry.{Entry};

    ghost Value = { ℕ × Entry };

    ghost view = { λ r. (r.place, r.entry) };
}

impl LineReader {
    /// One that keeps no memory yet, and has read no line.
    pub fn new(alloc: Global) -> LineReader {
        LineReader {
            text: Vec::new(alloc),
            place: 0,
            entry: Entry {
                event: any_event(),
                reply: None,
            },
        }
    }

    /// The place of the line that was read last.
    pub fn place(&self) -> u64
        ensures { result ≡ self.now.0 }
    {
        self.place
    }

    /// The entry of the line that was read last.
    pub fn entry(&self) -> &Entry
        ensures { result.now ≡ self.now.1 }
    {
        &self.entry
    }

    /// Reads the line as JSON.
    fn read_any(&mut self, alloc: Global, line: &[u8]) -> Result<Result<(), BadLine>, AllocError>
        ensures entry { IfOk result (λ read. Gives (λ _. self.new) read (spec.line_of_text line.now)) }
        ensures ranged { IfOk result (λ read. OnOk read (IsRanged self.new.1.event)) }
        ensures told { IfOk result (λ read. OnOk read (MayBeTold self.new.1.event self.new.1.reply)) }
        ensures text { OnErr result (IsUtf8 line.now) }
    {
        match read_line(alloc, line)? {
            Ok((place, entry)) => {
                self.place = place;
                self.entry = entry;
                Ok(Ok(()))
            }
            Err(bad) => Ok(Err(bad)),
        }
    }

    /// Reads the line if it is just the text that is written for what it is taken to say, and returns whether it is.
    fn read_guess(&mut self, alloc: Global, line: &[u8]) -> Result<bool, AllocError>
        ensures entry { IfOk result (λ read. IsTrue read → spec.line_of_text line.now ≡ Ok self.new) }
        ensures ranged { IfOk result (λ read. IsTrue read → IsRanged self.new.1.event) }
        ensures told { IfOk result (λ read. IsTrue read → MayBeTold self.new.1.event self.new.1.reply) }
    {
        let Some(place) = read_compact(alloc, line, &mut self.entry)? else {
            return Ok(false);
        };
        put_line(place, &self.entry.event, &self.entry.reply, &mut self.text)?;
        if self.text.as_slice() != line {
            return Ok(false);
        }
        self.place = place;
        Ok(true)
    }

    /// Reads the place of a line and its entry, as [`read_line`] tells them. A line that is just the text that is written for
    /// what it is taken to say says that; any other is read as JSON.
    pub fn read(&mut self, alloc: Global, line: &[u8]) -> Result<Result<(), BadLine>, AllocError>
        ensures entry { IfOk result (λ read. Gives (λ _. self.new) read (spec.line_of_text line.now)) }
        ensures ranged { IfOk result (λ read. OnOk read (IsRanged self.new.1.event)) }
        ensures told { IfOk result (λ read. OnOk read (MayBeTold self.new.1.event self.new.1.reply)) }
        ensures text { OnErr result (IsUtf8 line.now) }
    {
        match self.read_guess(alloc, line) {
            Ok(true) => return Ok(Ok(())),
            Ok(false) => {}
            // Other bytes than those of a text are no line, whatever they seem to tell, and take no memory.
            Err(error) => {
                if str::from_utf8(line).is_ok() {
                    return Err(error);
                }
            }
        }
        self.read_any(alloc, line)
    }
}

/// The place of a line of a journal, counted from 0, and its entry; the line is without its newline.
///
/// The line is a JSON object with just `event`, an event as a script's line has it, `place`, a whole
/// number below 2^64, and `reply`, the object that [`write_reply`](crate::write_reply) writes; where the
/// event is `propose` the line may be without `reply`. Anything else is a bad line, and bytes that are no
/// text are one that takes no memory.
pub fn read_line(alloc: Global, line: &[u8]) -> Result<Result<(u64, Entry), BadLine>, AllocError>
    ensures entry { IfOk result (λ read. read ≡ spec.line_of_text line.now) }
    ensures ranged { IfOk result (λ read. IfOk read (λ line. IsRanged line.1.event)) }
    ensures told { IfOk result (λ read. IfOk read (λ line. MayBeTold line.1.event line.1.reply)) }
    ensures text { OnErr result (IsUtf8 line.now) }
{
    match parse(alloc, line)? {
        Some(value) => line_at(alloc, &Fields::value(&value)),
        None => Ok(Err(BadLine)),
    }
}
