//! The run: events are read line by line, and the reply to each is written.

ghost use Rattle.std.specs.Prelude.{◌≡◌, ◌≢◌, ◌+◌, ◌++◌, ◌≤◌, false, IfOk, IfErr, OnOk, OnErr};
ghost use Rattle.ynl_commands.specs.declared.run.ToolFault.TheVariants.{Read};
ghost use Rattle.ynl_core.specs.World.{beaten};
ghost use Rattle.ynl_lines.specs.Writing.{reply_text};
ghost use Rattle.ynl_model.specs.declared.events.Event.TheVariants.{Heartbeat};
ghost use Rattle.ynl_commands.specs.Input.{between, limit};
ghost use Rattle.ynl_fields.specs.Reading.{is_blank};
ghost use Rattle.ynl_commands.specs.Run.{faulty, line_of};
ghost use Rattle.ynl_commands.specs.Running.{HoldsReply, Holds, GoesOn, ReadsOn, Writes, Runs, RunsWhole};

use crate::lines_in::{Lines, Next, ReadFault};
use crate::lines_out::{HELD, WriteFault, hold_text, write_held, write_text};
use std::alloc::{AllocError, Global};
use std::io::{BufRead, Write};
use thiserror::Error;
use ynl_core::{Core, NoMemory};
use ynl_fields::is_blank;
use ynl_lines::{
    EventReader, InputFault, LineFault, heartbeat_of, put_placed, put_reply, write_fault,
};
use ynl_model::{Placed, Reply};
use ynl_resource::{Name, Refusal};

/// Why a run ended before its input did.
#[derive(Clone, Copy, Debug, PartialEq, Eq, Error)]
pub enum ToolFault {
    /// The reader failed.
    #[error("read fault")]
    Read,
    /// The writer failed, or took nothing.
    #[error("write fault")]
    Write,
    /// Memory was refused.
    #[error("out of memory")]
    NoMemory,
    /// The journal of a live scheduler was not closed.
    #[error("not closed")]
    Unclosed,
}

impl From<AllocError> for ToolFault {
    ghost use Rattle.std.specs.Prelude.{◌≡◌};
    ghost use Rattle.ynl_commands.specs.declared.run.ToolFault.TheVariants.{NoMemory};

    ghost from_gives = { λ _ e. e ≡ NoMemory };

    fn from(_error: AllocError) -> ToolFault {
        ToolFault::NoMemory
    }
}

impl From<NoMemory> for ToolFault {
    ghost use Rattle.std.specs.Prelude.{◌≡◌};
    ghost use Rattle.ynl_commands.specs.declared.run.ToolFault.TheVariants.{NoMemory};

    ghost from_gives = { λ _ e. e ≡ NoMemory };

    fn from(_error: NoMemory) -> ToolFault {
        ToolFault::NoMemory
    }
}

impl From<WriteFault> for ToolFault {
    ghost use Rattle.std.specs.Prelude.{◌≡◌};
    ghost use Rattle.ynl_commands.specs.declared.run.ToolFault.TheVariants.{Write};

    ghost from_gives = { λ _ e. e ≡ Write };

    fn from(_error: WriteFault) -> ToolFault {
        ToolFault::Write
    }
}

impl From<ReadFault> for ToolFault {
    ghost use Rattle.std.specs.Prelude.{◌≡◌};
    ghost use Rattle.ynl_commands.specs.Lines.{tool_fault};

    ghost from_gives = { λ r e. e ≡ tool_fault r };

    fn from(error: ReadFault) -> ToolFault {
        match error {
            ReadFault::Read => ToolFault::Read,
            ReadFault::NoMemory => ToolFault::NoMemory,
        }
    }
}

/// What a job read: how many lines, and the fault that ended it, if one did.
#[derive(Clone, Copy, Debug, PartialEq, Eq)]
pub struct Summary {
    pub lines: u64,
    pub fault: Option<InputFault>,
}

/// A text and the newline that ends its line.
pub fn with_newline(mut text: Vec<u8>) -> Result<Vec<u8>, AllocError>
    ensures { IfOk result (λ line. line.items ≡ line_of text.items) }
{
    text.push(b'\n')?;
    Ok(text)
}

/// Adds the line of a reply to what is held back. Its text is made in `text` first, so that nothing is added where
/// there is no memory for it.
fn hold(reply: &Reply, text: &mut Vec<u8>, held: &mut Vec<u8>) -> Result<(), AllocError>
    ensures ok { OnOk result (held.new.items ≡ held.old.items ++ line_of (reply_text reply.now)) }
    ensures err { OnErr result (held.new.items ≡ held.old.items) }
{
    put_reply(reply, text)?;
    hold_text(text, held)
}

/// The same for what a heartbeat came to: why it is refused, or else what it placed.
fn hold_beat(
    refused: Option<Refusal>,
    placed: &[Placed],
    text: &mut Vec<u8>,
    held: &mut Vec<u8>,
) -> Result<(), AllocError>
    ensures ok { OnOk result (held.new.items ≡ held.old.items ++ line_of (reply_text (beaten refused placed.now))) }
    ensures err { OnErr result (held.new.items ≡ held.old.items) }
{
    match refused {
        Some(refusal) => hold(&Reply::Refused(refusal), text, held),
        None => {
            put_placed(placed, text)?;
            hold_text(text, held)
        }
    }
}

/// Answers a heartbeat. It stands alone, since a function clears the room of each event that it holds, and most lines
/// are heartbeats; what is placed comes into a list that is kept.
fn answer_heartbeat(
    core: &mut Core,
    node: Name,
    placed: &mut Vec<Placed>,
    text: &mut Vec<u8>,
    held: &mut Vec<u8>,
) -> Result<(), NoMemory>
    ensures { HoldsReply held.old.items held.new.items core.old.config core.old.state core.new (Heartbeat node) result }
{
    let refused = core.beat(&node, placed)?;
    hold_beat(refused, placed, text, held)?;
    Ok(())
}

/// Answers a line that is not blank.
fn answer_event(
    alloc: Global,
    events: &mut EventReader,
    core: &mut Core,
    line: &[u8],
    text: &mut Vec<u8>,
    held: &mut Vec<u8>,
) -> Result<Option<LineFault>, NoMemory>
    requires { is_blank line.now ≡ false }
    ensures { Holds held.old.items held.new.items core.old.config core.old.state core.new line.now result }
{
    if let Err(fault) = events.read(alloc, line)? {
        return Ok(Some(fault));
    }
    // A reply is large, and is not moved out of the result.
    match &core.answer(events.event()) {
        Ok(reply) => hold(reply, text, held)?,
        Err(NoMemory) => return Err(NoMemory),
    }
    Ok(None)
}

/// Answers one line, with the text added to what is held back, or gives its fault.
fn answer(
    alloc: Global,
    events: &mut EventReader,
    core: &mut Core,
    line: &[u8],
    placed: &mut Vec<Placed>,
    text: &mut Vec<u8>,
    held: &mut Vec<u8>,
) -> Result<Option<LineFault>, NoMemory>
    ensures { Holds held.old.items held.new.items core.old.config core.old.state core.new line.now result }
{
    if is_blank(line) {
        return Ok(None);
    }
    match heartbeat_of(line) {
        Some(node) => {
            answer_heartbeat(core, node, placed, text, held)?;
            Ok(None)
        }
        None => answer_event(alloc, events, core, line, text, held),
    }
}

/// Writes the text that is held back, and then reads the next line.
fn read_on<R: BufRead, W: Write>(
    input: &mut Lines,
    reader: &mut R,
    held: &mut Vec<u8>,
    writer: &mut W,
) -> Result<Next, ToolFault>
    requires { input.old.count + input.old.budget ≤ limit }
    ensures { ReadsOn (between (R.remaining reader.old) (R.remaining reader.new)) (between (W.contents writer.old) (W.contents writer.new)) input.old input.new held.old.items held.new.items result }
{
    write_held(writer, held)?;
    Ok(input.next(reader)?)
}

/// Reads the next line. Before more of the input is read the text that is held back is written, so that
/// nobody waits for a reply while the reader waits for input. It is also written before a fault of the
/// reader is told.
fn go_on<R: BufRead, W: Write>(
    input: &mut Lines,
    reader: &mut R,
    held: &mut Vec<u8>,
    writer: &mut W,
) -> Result<Next, ToolFault>
    requires { input.old.count + input.old.budget ≤ limit }
    ensures { GoesOn (between (R.remaining reader.old) (R.remaining reader.new)) (between (W.contents writer.old) (W.contents writer.new)) input.old input.new held.old.items held.new.items result }
{
    if held.len() >= HELD {
        return read_on(input, reader, held, writer);
    }
    match input.take_at_hand(reader) {
        Ok(true) => Ok(Next::Line),
        Ok(false) => read_on(input, reader, held, writer),
        Err(fault) => {
            write_text(writer, held)?;
            Err(ToolFault::from(fault))
        }
    }
}

/// Answers the lines of the reader, to its end or to the first line with a fault.
fn answer_lines<R: BufRead, W: Write>(
    alloc: Global,
    core: &mut Core,
    reader: &mut R,
    writer: &mut W,
) -> Result<Summary, ToolFault>
    ensures { Runs (between (R.remaining reader.old) (R.remaining reader.new)) (between (W.contents writer.old) (W.contents writer.new)) core.old.config core.old.state result }
{
    let mut input = Lines::new(alloc);
    let mut events = EventReader::new(alloc);
    let mut placed = Vec::new(alloc);
    let mut text = Vec::new(alloc);
    let mut held = Vec::new(alloc);
    'lines: loop {
        match go_on(&mut input, reader, &mut held, writer)? {
            Next::TooLong => {
                let fault = InputFault::Script(LineFault::Size);
                return report(alloc, writer, fault, input.count);
            }
            Next::End => return Ok(Summary {
                lines: input.count,
                fault: None,
            }),
            Next::Line => {}
        }
        match answer(
            alloc,
            &mut events,
            core,
            &input.line,
            &mut placed,
            &mut text,
            &mut held,
        ) {
            Ok(None) => {}
            Ok(Some(fault)) => {
                write_held(writer, &mut held)?;
                return report(alloc, writer, InputFault::Script(fault), input.count);
            }
            Err(NoMemory) => {
                write_held(writer, &mut held)?;
                return Err(ToolFault::NoMemory);
            }
        }
    }
}

/// Writes the line that reports the fault of a line, and gives what was read.
pub fn report<W: Write>(
    alloc: Global,
    writer: &mut W,
    fault: InputFault,
    lines: u64,
) -> Result<Summary, ToolFault>
    ensures text { Writes (W.contents writer.old) (W.contents writer.new) (faulty fault lines) result }
    ensures fault { IfErr result (λ e. e ≢ Read) }
{
    let line = with_newline(write_fault(alloc, fault, lines)?)?;
    write_text(writer, &line)?;
    Ok(Summary {
        lines,
        fault: Some(fault),
    })
}

/// Runs the cluster, from the state that it is in, on the events of the reader, and writes the reply to
/// each: to the end of the input, or to the first line with a fault, which is reported in the last line
/// written. Replies are held back while the reader shows whole lines, and written before more of its
/// input is read. An input of more than 67,108,864 bytes has a fault in the line where it gets too long.
///
/// After a read fault, or where memory is refused, what is written is the text of the lines before. After
/// a write fault it is a front of the text of all lines that were read, which may end before the last.
pub fn run_lines<R: BufRead, W: Write>(
    alloc: Global,
    mut core: Core,
    reader: &mut R,
    writer: &mut W,
) -> Result<Summary, ToolFault>
    ensures whole { RunsWhole (between (R.remaining reader.old) (R.remaining reader.new)) (between (W.contents writer.old) (W.contents writer.new)) core.config core.state result }
    ensures steps { Runs (between (R.remaining reader.old) (R.remaining reader.new)) (between (W.contents writer.old) (W.contents writer.new)) core.config core.state result }
{
    answer_lines(alloc, &mut core, reader, writer)
}
