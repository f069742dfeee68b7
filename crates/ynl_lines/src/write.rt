//! From replies, faults and events to texts.

ghost use Rattle.std.specs.Prelude.{◌≡◌, ◌++◌, IfOk, IfSome, OnOk, Ok};
ghost use Rattle.ynl_lines.specs.Reading.{event_of_line, IsInRange};
ghost use Rattle.ynl_lines.specs.ReadingReplies.{line_of_text, IsEntryInRange, MayBeTold};
ghost use Rattle.ynl_lines.specs.Sound.{IsReply};
ghost use Rattle.ynl_lines.specs.Writing as spec;

use crate::faults::InputFault;
use crate::write_events::add_event;
use crate::write_replies::{add_reply, put_reply};
use std::alloc::{AllocError, Global};
use ynl_fields::{add, add_number, add_text};
use ynl_model::{Entry, Event, Reply};

/// Puts the text of an event in the place of what `text` holds, in memory that is kept from line to line; it is without
/// the newline of its line. Where the numbers that it names are in range, it reads as that event. Where memory is refused
/// `text` may hold anything.
pub fn put_event(event: &Event, text: &mut Vec<u8>) -> Result<(), AllocError>
    ensures text { OnOk result (text.new.items ≡ spec.event_text event.now) }
    ensures reads { IsInRange event.now → OnOk result (event_of_line text.new.items ≡ Ok event.now) }
{
    text.clear();
    add_event(text, event)
}

/// The same text, in memory of its own.
pub fn write_event(alloc: Global, event: &Event) -> Result<Vec<u8>, AllocError>
    ensures text { IfOk result (λ text. text.items ≡ spec.event_text event.now) }
    ensures reads { IsInRange event.now → IfOk result (λ text. event_of_line text.items ≡ Ok event.now) }
{
    let mut text = Vec::new(alloc);
    put_event(event, &mut text)?;
    Ok(text)
}

/// The text of a reply, with memory in MB, without the newline of its line.
pub fn write_reply(alloc: Global, reply: &Reply) -> Result<Vec<u8>, AllocError>
    ensures text { IfOk result (λ text. text.items ≡ spec.reply_text reply.now) }
{
    let mut text = Vec::new(alloc);
    put_reply(reply, &mut text)?;
    Ok(text)
}

/// The text of the line that tells a fault, without its newline; `line` is the number of the faulty
/// line, from 1.
pub fn write_fault(alloc: Global, fault: InputFault, line: u64) -> Result<Vec<u8>, AllocError>
    ensures text { IfOk result (λ text. text.items ≡ spec.fault_text fault line) }
{
    let mut text = Vec::new(alloc);
    add_text(&mut text, b"{\"fault\":\"", fault.word().as_bytes())?;
    add_number(&mut text, b"\",\"line\":", line)?;
    add(&mut text, b"}")?;
    Ok(text)
}

/// The text of the line that tells that a journal of so many entries passes its audit, without its
/// newline.
pub fn write_audit(alloc: Global, entries: u64) -> Result<Vec<u8>, AllocError>
    ensures text { IfOk result (λ text. text.items ≡ spec.audit_text entries) }
{
    let mut text = Vec::new(alloc);
    add_number(&mut text, b"{\"audit\":\"ok\",\"entries\":", entries)?;
    add(&mut text, b"}")?;
    Ok(text)
}

/// Adds the reply of a line, if it has one, and the brace that ends the line.
fn add_end(text: &mut Vec<u8>, reply: &Option<Reply>) -> Result<(), AllocError>
    ensures added { OnOk result (text.new.items ≡ text.old.items ++ spec.line_end reply.now) }
    ensures sound { OnOk result (IfSome reply.now IsReply) }
{
    if let Some(reply) = reply {
        add(text, b",\"reply\":")?;
        add_reply(text, reply)?;
    }
    add(text, b"}")
}

/// Puts the text of an event, its place in a list, counted from 0, and its reply in the place of what `text` holds, in
/// memory that is kept from line to line; it is without the newline of its line. Where the numbers that it names are in
/// range, it reads as these. A propose alone may be without its reply. Where memory is refused `text` may hold anything.
pub fn put_line(
    place: u64,
    event: &Event,
    reply: &Option<Reply>,
    text: &mut Vec<u8>,
) -> Result<(), AllocError>
    requires { MayBeTold event.now reply.now }
    ensures text { OnOk result (text.new.items ≡ spec.line_text place (record { event = event.now; reply = reply.now })) }
    ensures reads { IsEntryInRange (record { event = event.now; reply = reply.now }) → OnOk result (line_of_text text.new.items ≡ Ok (place, record { event = event.now; reply = reply.now })) }
{
    text.clear();
    add(text, b"{\"event\":")?;
    add_event(text, event)?;
    add_number(text, b",\"place\":", place)?;
    add_end(text, reply)
}

/// The same text, in memory of its own.
pub fn write_line(alloc: Global, place: u64, entry: &Entry) -> Result<Vec<u8>, AllocError>
    requires { MayBeTold entry.now.event entry.now.reply }
    ensures text { IfOk result (λ text. text.items ≡ spec.line_text place entry.now) }
    ensures reads { IsEntryInRange entry.now → IfOk result (λ text. line_of_text text.items ≡ Ok (place, entry.now)) }
{
    let mut text = Vec::new(alloc);
    put_line(place, &entry.event, &entry.reply, &mut text)?;
    Ok(text)
}
