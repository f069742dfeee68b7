//! From lines to what they tell of a state.

ghost use Rattle.std.specs.Prelude.{◌≡◌, false, IfOk, OnErr, OnOk, IsTrue, IsUtf8, None, Ok, Some};
ghost use Rattle.std.specs.Option.{option_map_or};
ghost use Rattle.ynl_fields.specs.Reading.{Gives};
ghost use Rattle.ynl_fields.specs.Trees.{data_at};
ghost use Rattle.ynl_saved_text.specs.StateLines.{IsRanged};
ghost use Rattle.ynl_saved_text.specs.StateLines as spec;

use crate::compact::cut_line;
use crate::faults::StateFault;
use crate::kinds::{StateKind, is_end, kind_of, kind_of_line, may_follow};
use crate::read_applications::{ask_at, finished_at, live_at};
use crate::read_containers::container_at;
use crate::read_partitions::{begin_at, end_at, node_at, partition_at};
use crate::read_queues::{maximum_at, stopped_at};
use crate::write::put_state_line;
use json::Scratch;
use std::alloc::{AllocError, Global};
use std::marker::Model;
use ynl_fields::{Fields, is_plain, parse, tree_of};
use ynl_saved::StateLine;

/// The kind, if it may stand behind a line of another, or else be the first.
#[tactic(auto, unfolding(crate::specs::StateLines::in_order))]
fn in_order(before: Option<StateKind>, kind: StateKind) -> Result<StateKind, StateFault>
    ensures { result ≡ spec.in_order before kind }
{
    if may_follow(before, kind) {
        Ok(kind)
    } else {
        Err(StateFault::Kind)
    }
}

/// The line of a kind.
fn line_by(kind: StateKind, object: &Fields<'_, '_>) -> Result<StateLine, StateFault>
    ensures { result ≡ spec.line_by kind (data_at object.now.stands) }
{
    match kind {
        StateKind::Begin => begin_at(object),
        StateKind::Partition => partition_at(object),
        StateKind::Node => node_at(object),
        StateKind::Live => live_at(object),
        StateKind::Ask => ask_at(object),
        StateKind::Finished => finished_at(object),
        StateKind::Container => container_at(object),
        StateKind::Stopped => stopped_at(object),
        StateKind::Maximum => maximum_at(object),
        StateKind::End => end_at(object),
    }
}

/// Reads a line of a kind.
fn read_by(kind: StateKind, object: &Fields<'_, '_>, into: &mut StateLine) -> Result<(), StateFault>
    ensures line { Gives (λ _. into.new) result (spec.line_by kind (data_at object.now.stands)) }
    ensures kept { OnErr result (into.new ≡ into.old) }
{
    // No `?`, which gets no proof where the value has a name in it.
    match line_by(kind, object) {
        Ok(line) => {
            *into = line;
            Ok(())
        }
        Err(fault) => Err(fault),
    }
}

/// Reads the line of an object behind one of a kind.
#[tactic(auto, unfolding(crate::specs::StateLines::line_at))]
fn line_at(
    before: Option<StateKind>,
    object: &Fields<'_, '_>,
    into: &mut StateLine,
) -> Result<(), StateFault>
    ensures line { Gives (λ _. into.new) result (spec.line_at before (data_at object.now.stands)) }
    ensures kept { OnErr result (into.new ≡ into.old) }
{
    let word = match object.get("state") {
        Some(value) => value.as_str().ok_or(StateFault::Kind)?,
        None => return Err(StateFault::Kind),
    };
    let kind = kind_of(word).ok_or(StateFault::Kind)?;
    let kind = in_order(before, kind)?;
    read_by(kind, object, into)
}

/// Reads a line by the value that serde_json reads of it.
fn read_by_value(
    alloc: Global,
    before: Option<StateKind>,
    line: &[u8],
    into: &mut StateLine,
) -> Result<Result<(), StateFault>, AllocError>
    ensures line { IfOk result (λ read. Gives (λ _. into.new) read (spec.line_behind before line.now)) }
    ensures text { OnErr result (IsUtf8 line.now) }
    ensures kept { IfOk result (λ read. OnErr read (into.new ≡ into.old)) }
    ensures none { OnErr result (into.new ≡ into.old) }
{
    match parse(alloc, line)? {
        Some(value) => Ok(line_at(before, &Fields::value(&value), into)),
        None => Ok(Err(StateFault::Syntax)),
    }
}

/// How deep a line nests at most to be taken as a tree: none does.
const MOST_DEPTH: usize = 1;

/// Reads a line behind one of a kind, or as the first.
fn read_into(
    alloc: Global,
    scratch: &mut Scratch,
    before: Option<StateKind>,
    line: &[u8],
    into: &mut StateLine,
) -> Result<Result<(), StateFault>, AllocError>
    ensures line { IfOk result (λ read. Gives (λ _. into.new) read (spec.line_behind before line.now)) }
    ensures text { OnErr result (IsUtf8 line.now) }
    ensures kept { IfOk result (λ read. OnErr read (into.new ≡ into.old)) }
    ensures none { OnErr result (into.new ≡ into.old) }
{
    let Some(tree) = tree_of(alloc, scratch, line)? else {
        return Ok(Err(StateFault::Syntax));
    };
    if is_plain(&tree, MOST_DEPTH) {
        return Ok(line_at(before, &Fields::tree(&tree), into));
    }
    // There is no room for two of a long line.
    drop(tree);
    read_by_value(alloc, before, line, into)
}

/// Reads a line behind one of a kind, if it is just the text of what it tells, as most are, and returns whether it is.
/// No value of JSON is made of it: what it seems to tell is put into `guess`, and the text of that is made in `text`.
/// Where memory for that is refused, the line is one of text: other bytes are no compact line, whatever they seem to tell.
fn read_compact(
    text: &mut Vec<u8>,
    guess: &mut StateLine,
    before: Option<StateKind>,
    line: &[u8],
    into: &mut StateLine,
) -> Result<bool, AllocError>
    ensures line { IfOk result (λ read. IsTrue read → spec.line_behind before line.now ≡ Ok into.new) }
    ensures text { OnErr result (IsUtf8 line.now) }
    ensures kept { IfOk result (λ read. read ≡ false → into.new ≡ into.old) }
    ensures none { OnErr result (into.new ≡ into.old) }
{
    if cut_line(line, guess).is_none() || !may_follow(before, kind_of_line(guess)) {
        return Ok(false);
    }
    text.clear();
    if let Err(error) = put_state_line(text, guess) {
        return match str::from_utf8(line) {
            Ok(_) => Err(error),
            Err(_) => Ok(false),
        };
    }
    if text.as_slice() != line {
        return Ok(false);
    }
    *into = *guess;
    Ok(true)
}

/// The line that was read last, and its kind, once one was read.
#[derive(Clone, Copy)]
pub struct LastLine {
    before: Option<StateKind>,
    line: StateLine,
}

/// Reads the lines of a saved state one after another, with memory that is kept from line to line, and lends each.
#[derive(Drop)]
pub struct StateReader {
    scratch: Scratch,
    text: Vec<u8>,
    guess: StateLine,
    held: LastLine,
}

impl Model for StateReader {
    ghost use Rattle.ynl_saved_text.specs.declared.read.LastLine.{LastLine};

    ghost Value = { LastLine };

    ghost view = { λ r. r.held };
}

impl StateReader {
    /// One that keeps no memory yet, and has read no line.
    pub fn new(alloc: Global) -> StateReader
        ensures { result.before ≡ None }
    {
        StateReader {
            scratch: Scratch::new(alloc),
            text: Vec::new(alloc),
            guess: StateLine::Begin,
            held: LastLine {
                before: None,
                line: StateLine::Begin,
            },
        }
    }

    /// The line that was read last.
    pub fn line(&self) -> &StateLine
        ensures { result.now ≡ self.now.line }
    {
        &self.held.line
    }

    /// Whether the line that was read last is the end.
    pub fn has_ended(&self) -> bool
        ensures { result ≡ option_map_or spec.is_end self.now.before false }
    {
        match self.held.before {
            Some(kind) => is_end(kind),
            None => false,
        }
    }

    /// Reads a line, as `read` says. That its numbers are in range then follows from the line itself, whatever was called.
    fn take(&mut self, alloc: Global, line: &[u8]) -> Result<Result<(), StateFault>, AllocError>
        ensures line { IfOk result (λ read. Gives (λ _. self.new.line) read (spec.line_behind self.old.before line.now)) }
        ensures before { IfOk result (λ read. OnOk read (self.new.before ≡ Some (spec.kind_of_line self.new.line))) }
        ensures text { OnErr result (IsUtf8 line.now) }
        ensures kept { IfOk result (λ read. OnErr read (self.new ≡ self.old)) }
        ensures none { OnErr result (self.new ≡ self.old) }
    {
        let before = self.held.before;
        if read_compact(
            &mut self.text,
            &mut self.guess,
            before,
            line,
            &mut self.held.line,
        )? {
            self.held.before = Some(kind_of_line(&self.held.line));
            return Ok(Ok(()));
        }
        let read = read_into(alloc, &mut self.scratch, before, line, &mut self.held.line)?;
        if read.is_ok() {
            self.held.before = Some(kind_of_line(&self.held.line));
        }
        Ok(read)
    }

    /// Reads a line, without its newline, behind the one that was read last, or returns its first fault, and then holds
    /// what it held. So it does where memory is refused. Bytes that are no text take no memory.
    ///
    /// The line is a JSON object with `state` and exactly the keys of its kind:
    ///
    /// - `begin` has `version`; `partition` has `clock` and `label`; `node` has `label`, `memory` (in MB), `node`, `stamp`
    ///   and `vcores`.
    /// - `live` has `app`, `label`, `memory`, `queue`, `user` and `vcores`; `ask` has `app`, `count`, `label`, `memory`,
    ///   `priority`, `tenant` and `vcores`; `finished` has `app` and `queue`.
    /// - `container` has `app`, `id`, `memory`, `node`, `tenant`, `vcores` and `what`, which is `master`, or `ask`, and then
    ///   with `label` and `priority` too.
    /// - `stopped` has `queue`; `maximum` has `label`, `maximum` (in hundredths of a percent) and `queue`; `end` has `lines`.
    ///
    /// The kinds come in this order, with `live`, `ask` and `finished` as one; `begin` and `end` come once.
    pub fn read(&mut self, alloc: Global, line: &[u8]) -> Result<Result<(), StateFault>, AllocError>
        ensures line { IfOk result (λ read. Gives (λ _. self.new.line) read (spec.line_behind self.old.before line.now)) }
        ensures before { IfOk result (λ read. OnOk read (self.new.before ≡ Some (spec.kind_of_line self.new.line))) }
        ensures text { OnErr result (IsUtf8 line.now) }
        ensures ranged { IfOk result (λ read. OnOk read (IsRanged self.new.line)) }
        ensures kept { IfOk result (λ read. OnErr read (self.new ≡ self.old)) }
        ensures none { OnErr result (self.new ≡ self.old) }
    {
        self.take(alloc, line)
    }
}
