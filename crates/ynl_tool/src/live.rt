//! Telling the closed journal of a live scheduler that is given a script.

ghost use Rattle.std.specs.Prelude.{◌≡◌, ◌<◌, ◌++◌, length, slice_index_or, IfOk, OnOk, OnErr};
ghost use Rattle.ynl_model.specs.declared.entries.Entry.{Entry};
ghost use Rattle.ynl_commands.specs.Input.{between};
ghost use Rattle.ynl_tool.specs.Living.{rounds_of, journal_line, journal_lines, session_lines, session_fault, Lives, LivesWhole, SumsUp};
ghost use Rattle.ynl_commands.specs.Run.{fault_lines};
ghost use Rattle.ynl_commands.specs.Script.{script_read};
ghost use Rattle.ynl_commands.specs.Telling.{SaysLines};

use std::alloc::{AllocError, Global};
use std::io::{BufRead, Write};
use std::sync::Wait;
use std::thread::Threads;
use ynl_commands::lines_out::{hold_text, write_held, write_on};
use ynl_commands::{Script, Summary, ToolFault, read_script, report};
use ynl_journal::Start;
use ynl_lines::{InputFault, put_line};
use ynl_model::Entry;
use ynl_packed::{Entries, any_entry};
use ynl_workers::session::{Gate, Go, SessionFault, Sight, run_session};

/// Lets each worker go on.
pub(crate) struct FreeGate;

impl Gate for FreeGate {
    ghost use Rattle.std.specs.Prelude.{⊤};

    ghost is_free = { λ _. ⊤ };

    fn before_plan(&self, _worker: u64, _turn: u64, _sight: &Sight) {}

    fn before_commit(&self, _worker: u64, _turn: u64) -> Go {
        Go::On
    }

    fn after_commit(&self, _worker: u64, _turn: u64) {}
}

/// What is told of a session that has no journal.
fn session_fault(error: SessionFault) -> ToolFault
    ensures { result ≡ session_fault error }
{
    match error {
        SessionFault::NoMemory => ToolFault::NoMemory,
        SessionFault::Unclosed => ToolFault::Unclosed,
    }
}

/// How many rounds are run: none where a line of the script has a fault.
fn rounds_of(script: &Script, rounds: u64) -> u64
    ensures { result ≡ rounds_of rounds (script_read script.now) }
{
    match script.fault {
        Some(_) => 0,
        None => rounds,
    }
}

/// Adds the line of an entry to what is held back.
fn hold_line(
    place: u64,
    entry: &Entry,
    text: &mut Vec<u8>,
    held: &mut Vec<u8>,
) -> Result<(), AllocError>
    ensures ok { OnOk result (held.new.items ≡ held.old.items ++ journal_line place entry.now) }
    ensures err { OnErr result (held.new.items ≡ held.old.items) }
{
    match entry.reply {
        Some(_) => {
            put_line(place, &entry.event, &entry.reply, text)?;
            hold_text(text, held)
        }
        // No history has such an entry.
        None => Ok(()),
    }
}

/// Adds the line of the entry of this number, which is read into a place, to what is held back.
fn hold_entry(
    entries: &Entries,
    i: usize,
    entry: &mut Entry,
    text: &mut Vec<u8>,
    held: &mut Vec<u8>,
) -> Result<(), AllocError>
    requires { i < length entries.now }
    ensures ok { (d : Entry) → OnOk result (held.new.items ≡ held.old.items ++ journal_line i (slice_index_or entries.now i d)) }
    ensures err { OnErr result (held.new.items ≡ held.old.items) }
{
    entries.read(i, entry)?;
    hold_line(i as u64, entry, text, held)
}

/// Writes the lines of the entries.
fn tell_entries<W: Write>(alloc: Global, entries: &Entries, writer: &mut W) -> Result<(), ToolFault>
    ensures { SaysLines (W.contents writer.old) (W.contents writer.new) (journal_lines 0 entries.now) result }
{
    let mut text = Vec::new(alloc);
    let mut held = Vec::new(alloc);
    let mut entry = any_entry();
    for i in 0..entries.len() {
        match hold_entry(entries, i, &mut entry, &mut text, &mut held) {
            Ok(()) => write_on(writer, &mut held)?,
            Err(AllocError) => {
                write_held(writer, &mut held)?;
                return Err(ToolFault::NoMemory);
            }
        }
    }
    write_held(writer, &mut held)?;
    Ok(())
}

/// Writes the line of the script's fault, if it has one, and gives what was read.
fn tell_end<W: Write>(alloc: Global, script: &Script, writer: &mut W) -> Result<Summary, ToolFault>
    ensures told { SaysLines (W.contents writer.old) (W.contents writer.new) (fault_lines (script_read script.now)) result }
    ensures summary { IfOk result (SumsUp (script_read script.now)) }
{
    match script.fault {
        Some(fault) => report(alloc, writer, InputFault::Script(fault), script.lines),
        None => Ok(Summary {
            lines: script.lines,
            fault: None,
        }),
    }
}

/// Writes what is told of a session.
fn tell_session<W: Write>(
    alloc: Global,
    entries: &Entries,
    script: &Script,
    writer: &mut W,
) -> Result<Summary, ToolFault>
    ensures told { SaysLines (W.contents writer.old) (W.contents writer.new) (session_lines entries.now (script_read script.now)) result }
    ensures summary { IfOk result (SumsUp (script_read script.now)) }
{
    tell_entries(alloc, entries, writer)?;
    tell_end(alloc, script, writer)
}

/// Reads the script, and only then applies its events to a cluster like the one of this start, runs so many rounds of
/// workers over the nodes that these leave, on a live scheduler that goes on from there, and closes the journal; then
/// writes each entry in a line with its place. A line with a fault ends the script, is reported in the last line
/// written, and no round is run.
///
/// Where the journal is not closed nothing is written, and that is told as `Unclosed`. After a read fault
/// nothing is written either; where memory was refused, whole lines from the front; after a write fault
/// a front of the text.
pub fn live_lines<T: Threads + Wait + Sync, R: BufRead, W: Write, G: Gate + Sync>(
    rt: &T,
    alloc: Global,
    start: Start,
    workers: usize,
    rounds: u64,
    gate: &G,
    reader: &mut R,
    writer: &mut W,
) -> Result<Summary, ToolFault>
    requires { 0 < workers }
    ensures whole { LivesWhole (G.is_free gate.now) (between (R.remaining reader.old) (R.remaining reader.new)) (between (W.contents writer.old) (W.contents writer.new)) start rounds result }
    ensures steps { Lives (G.is_free gate.now) (between (R.remaining reader.old) (R.remaining reader.new)) (between (W.contents writer.old) (W.contents writer.new)) start rounds result }
{
    let script = read_script(alloc, reader)?;
    let rounds = rounds_of(&script, rounds);
    match run_session(rt, alloc, start, &script.events, workers, rounds, gate) {
        Ok(entries) => tell_session(alloc, &entries, &script, writer),
        Err(error) => Err(session_fault(error)),
    }
}
