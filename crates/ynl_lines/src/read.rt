//! From lines to events.

ghost use Rattle.std.specs.Prelude.{◌≡◌, IfOk, OnErr, OnOk, IsTrue, IsUtf8, Ok, Err, Some, None};
ghost use Rattle.serde_json.specs.View.{view};
ghost use Rattle.ynl_fields.specs.Trees.{data_at};
ghost use Rattle.ynl_model.specs.declared.events.Event.TheVariants.{Heartbeat};
ghost use Rattle.ynl_lines.specs.Reading.{Gives, IsRanged};
ghost use Rattle.ynl_lines.specs.Reading as spec;

use crate::compact::heartbeat_of;
use crate::compact_events::cut_event;
use crate::faults::LineFault;
use crate::read_applications::{ask_at, finish_at, poll_at, release_at, submit_at};
use crate::read_nodes::{exited_at, heartbeat_at, lost_at, register_at, relabel_at};
use crate::read_proposals::{commit_at, propose_at};
use crate::read_queues::{maximum_at, start_at, stop_at, usage_at};
use crate::write::put_event;
use json::Scratch;
use std::alloc::{AllocError, Global};
use std::marker::Model;
use ynl_fields::{Cursor, Fields, find_word, is_plain, parse, tree_of};
use ynl_model::Event;
use ynl_resource::Name;

/// Which event a word names.
#[derive(Clone, Copy)]
pub enum Kind {
    Register,
    Lost,
    Relabel,
    Heartbeat,
    Exited,
    Submit,
    Ask,
    Release,
    Finish,
    Stop,
    Start,
    Poll,
    Usage,
    Propose,
    Commit,
    Maximum,
}

/// The word of each kind.
const KINDS: [(&str, Kind); 16] = [
    ("register", Kind::Register),
    ("lost", Kind::Lost),
    ("relabel", Kind::Relabel),
    ("heartbeat", Kind::Heartbeat),
    ("exited", Kind::Exited),
    ("submit", Kind::Submit),
    ("ask", Kind::Ask),
    ("release", Kind::Release),
    ("finish", Kind::Finish),
    ("stop", Kind::Stop),
    ("start", Kind::Start),
    ("poll", Kind::Poll),
    ("usage", Kind::Usage),
    ("propose", Kind::Propose),
    ("commit", Kind::Commit),
    ("maximum", Kind::Maximum),
];

fn kind_of(word: &str) -> Option<Kind>
    ensures { result ≡ spec.kind_of word.now }
{
    find_word(&KINDS, word)
}

/// Reads the event of an object.
#[tactic(auto, unfolding(crate::specs::Reading::event_at))]
pub fn event_at(event: &Fields<'_, '_>, into: &mut Event) -> Result<(), LineFault>
    ensures event { Gives (λ _. into.new) result (spec.event_at (data_at event.now.stands)) }
    ensures ranged { OnOk result (IsRanged into.new) }
{
    let word = match event.get("event") {
        Some(value) => value.as_str().ok_or(LineFault::Event)?,
        None => return Err(LineFault::Event),
    };
    match kind_of(word).ok_or(LineFault::Event)? {
        Kind::Register => register_at(event, into),
        Kind::Lost => lost_at(event, into),
        Kind::Relabel => relabel_at(event, into),
        Kind::Heartbeat => heartbeat_at(event, into),
        Kind::Exited => exited_at(event, into),
        Kind::Submit => submit_at(event, into),
        Kind::Ask => ask_at(event, into),
        Kind::Release => release_at(event, into),
        Kind::Finish => finish_at(event, into),
        Kind::Stop => stop_at(event, into),
        Kind::Start => start_at(event, into),
        Kind::Poll => poll_at(event, into),
        Kind::Usage => usage_at(event, into),
        Kind::Propose => propose_at(event, into),
        Kind::Commit => commit_at(event, into),
        Kind::Maximum => maximum_at(event, into),
    }
}

/// Reads the event that a line is, by the value that serde_json reads of it.
fn read_by_value(
    alloc: Global,
    line: &[u8],
    into: &mut Event,
) -> Result<Result<(), LineFault>, AllocError>
    ensures event { IfOk result (λ read. Gives (λ _. into.new) read (spec.event_of_line line.now)) }
    ensures text { OnErr result (IsUtf8 line.now) }
    ensures ranged { IfOk result (λ read. OnOk read (IsRanged into.new)) }
{
    match parse(alloc, line)? {
        Some(value) => Ok(event_at(&Fields::value(&value), into)),
        None => Ok(Err(LineFault::Syntax)),
    }
}

/// Reads the event of a line, if it is just the text of what it tells, as most are, and returns whether it is. No value of
/// JSON is made of it: what it seems to tell is put into `into`, and the text of that is made in `text`. Where memory for
/// that is refused, the line is one of text: other bytes are no compact line, whatever they seem to tell.
fn read_compact(text: &mut Vec<u8>, line: &[u8], into: &mut Event) -> Result<bool, AllocError>
    ensures event { IfOk result (λ read. IsTrue read → spec.event_of_line line.now ≡ Ok into.new) }
    ensures text { OnErr result (IsUtf8 line.now) }
    ensures ranged { IfOk result (λ read. IsTrue read → IsRanged into.new) }
{
    let mut rest = Cursor::new(line);
    if cut_event(&mut rest, into).is_none() || rest.ahead(0).is_some() {
        return Ok(false);
    }
    if let Err(error) = put_event(into, text) {
        return match str::from_utf8(line) {
            Ok(_) => Err(error),
            Err(_) => Ok(false),
        };
    }
    Ok(text.as_slice() == line)
}

/// Puts a heartbeat into a place. It stands alone, since a function clears the room of each event that it makes.
fn put_heartbeat(node: Name, into: &mut Event)
    ensures { into.new ≡ Heartbeat node }
{
    *into = Event::Heartbeat { node };
}

/// How deep a line nests at most to be taken as a tree: a proposal stands in an event.
const MOST_DEPTH: usize = 2;

/// Reads the event that a line is, or returns its first fault.
fn read_into(
    alloc: Global,
    scratch: &mut Scratch,
    text: &mut Vec<u8>,
    line: &[u8],
    into: &mut Event,
) -> Result<Result<(), LineFault>, AllocError>
    ensures event { IfOk result (λ read. Gives (λ _. into.new) read (spec.event_of_line line.now)) }
    ensures text { OnErr result (IsUtf8 line.now) }
    ensures ranged { IfOk result (λ read. OnOk read (IsRanged into.new)) }
{
    if let Some(node) = heartbeat_of(line) {
        put_heartbeat(node, into);
        return Ok(Ok(()));
    }
    if read_compact(text, line, into)? {
        return Ok(Ok(()));
    }
    let Some(tree) = tree_of(alloc, scratch, line)? else {
        return Ok(Err(LineFault::Syntax));
    };
    if is_plain(&tree, MOST_DEPTH) {
        return Ok(event_at(&Fields::tree(&tree), into));
    }
    // There is no room for two of a long line.
    drop(tree);
    read_by_value(alloc, line, into)
}

/// Any event.
#[tactic(auto, unfolding(ynl_resource::specs::Texts::read_name))]
pub fn any_event() -> Event {
    match Name::parse("none") {
        Ok(node) => Event::Lost { node },
        Err(_) => unreachable!(),
    }
}

/// Reads the events of lines one after another, with memory that is kept from line to line. An event is large, so it is
/// read into one place, and lent from there. A contract sees the event that was read last.
#[derive(Drop)]
pub struct EventReader {
    scratch: Scratch,
    text: Vec<u8>,
    event: Event,
}

impl Model for EventReader {
    ghost use Rattle.ynl_model.specs.declared.events.Event.{Event};

    ghost Value = { Event };

    ghost view = { λ r. r.event };
}

impl EventReader {
    /// One that keeps no memory yet, and has read no event.
    pub fn new(alloc: Global) -> EventReader {
        EventReader {
            scratch: Scratch::new(alloc),
            text: Vec::new(alloc),
            event: any_event(),
        }
    }

    /// The event that was read last.
    pub fn event(&self) -> &Event
        ensures { result.now ≡ self.now }
    {
        &self.event
    }

    /// Reads the event that a line is, or returns its first fault, as [`read_event`] tells them. Bytes that are no text take
    /// no memory.
    pub fn read(&mut self, alloc: Global, line: &[u8]) -> Result<Result<(), LineFault>, AllocError>
        ensures event { IfOk result (λ read. Gives (λ _. self.new) read (spec.event_of_line line.now)) }
        ensures text { OnErr result (IsUtf8 line.now) }
        ensures ranged { IfOk result (λ read. OnOk read (IsRanged self.new)) }
    {
        read_into(
            alloc,
            &mut self.scratch,
            &mut self.text,
            line,
            &mut self.event,
        )
    }
}

/// The event that a line is, or its first fault; the line is without its newline.
///
/// The line is a JSON object with `event` and exactly the keys of that event:
///
/// - `register` has `label`, `memory` (in MB), `node` and `vcores`; `relabel` has `label` and `node`;
///   `lost`, `heartbeat` and `propose` have `node`; `exited` has `id` and `node`.
/// - `submit` has `app`, `memory`, `queue`, `user` and `vcores`, and may have `label`; `ask` has `app`,
///   `count`, `label`, `memory`, `priority`, `tenant` and `vcores`; `release` has `id` and `tenant`;
///   `finish` has `app` and `tenant`; `poll` has `app`, `label` and `tenant`.
/// - `stop` and `start` have `queue`; `usage` has `label` and `queue`; `maximum` has `label`, `maximum`
///   (in hundredths of a percent) and `queue`.
/// - `commit` has `proposal`: an object with `app`, `memory`, `node`, `stamp`, `tenant`, `vcores` and
///   `what`, which is `master`, or `ask`, and then with `label` and `priority` too.
///
/// The faults come in the order of [`LineFault`], over all keys, those of a proposal among them: any
/// `field` before any `name`, and any `name` before any `range`. `size` is none of them, since one line
/// does not tell it.
pub fn read_event(alloc: Global, line: &[u8]) -> Result<Result<Event, LineFault>, AllocError>
    ensures event { IfOk result (λ read. read ≡ spec.event_of_line line.now) }
    ensures text { OnErr result (IsUtf8 line.now) }
    ensures ranged { IfOk result (λ read. IfOk read (λ event. IsRanged event)) }
{
    let mut reader = EventReader::new(alloc);
    match reader.read(alloc, line)? {
        Ok(()) => Ok(Ok(*reader.event())),
        Err(fault) => Ok(Err(fault)),
    }
}
