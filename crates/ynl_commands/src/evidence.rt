//! The evidence of a journal: what a tenant's view keeps of it.

ghost use Rattle.std.specs.Prelude.{◌≡◌, ◌≢◌, ◌+◌, ◌++◌, ◌<◌, ◌≤◌, [], IfErr, IfOk, IsTrue, OnOk};
ghost use Rattle.ynl_lines.specs.ReadingReplies.{MayBeTold};
ghost use Rattle.ynl_model.specs.View.{is_sole};
ghost use Rattle.ynl_commands.specs.declared.run.ToolFault.TheVariants.{Read};
ghost use Rattle.ynl_commands.specs.Answering.{Answers, AnswersWhole, Finds, StepsOn};
ghost use Rattle.ynl_commands.specs.Audit.{journal_way};
ghost use Rattle.ynl_commands.specs.Evidence.{evidence_answer, gathered_answer, IsGathering, NotesEntry, SeesEntry};
ghost use Rattle.ynl_commands.specs.Input.{between, limit};
ghost use Rattle.ynl_journal.specs.Journal.{entry};
ghost use Rattle.ynl_lines.specs.Writing.{line_text};
ghost use Rattle.ynl_commands.specs.Run.{line_of};
ghost use Rattle.ynl_commands.specs.Running.{Writes};

use crate::audit::says_entry;
use crate::lines_in::{Lines, Next};
use crate::lines_out::{hold_text, write_text};
use crate::run::{Summary, ToolFault, report};
use std::alloc::Global;
use std::io::{BufRead, Write};
use ynl_core::NoMemory;
use ynl_lines::{InputFault, JournalFault, LineReader, put_line};
use ynl_model::{Entry, Event, Reply};
use ynl_queues::Config;
use ynl_resource::{Label, Name};
use ynl_view::{Track, see_into};

/// A tenant and a partition of a cluster of this configuration.
#[derive(Drop)]
pub struct Tenancy {
    pub config: Config,
    pub tenant: Name,
    pub label: Label,
}

/// What was gathered of some entries: where the nodes are after them, how many they are, and the text of
/// what the view keeps of them. The entries are not kept.
#[derive(Drop)]
struct Gathering {
    track: Track,
    entries: u64,
    text: Vec<u8>,
    /// The line that is added.
    line: Vec<u8>,
}

/// Adds the line of an event and its reply to the text.
fn hold_seen(
    place: u64,
    event: &Event,
    reply: &Option<Reply>,
    line: &mut Vec<u8>,
    text: &mut Vec<u8>,
) -> Result<(), NoMemory>
    requires { MayBeTold event.now reply.now }
    ensures { OnOk result (text.new.items ≡ text.old.items ++ line_of (line_text place (entry event.now reply.now))) }
{
    put_line(place, event, reply, line)?;
    hold_text(line, text)?;
    Ok(())
}

impl Gathering {
    /// Before the first entry.
    fn new(alloc: Global, whose: &Tenancy) -> Gathering
        ensures { IsGathering whose.now [] result }
    {
        Gathering {
            track: Track::new(alloc),
            entries: 0,
            text: Vec::new(alloc),
            line: Vec::new(alloc),
        }
    }

    /// Adds the line of what is seen of the next entry, if the view keeps it.
    fn see_entry(&mut self, whose: &Tenancy, entry: &Entry) -> Result<(), NoMemory>
        requires { MayBeTold entry.now.event entry.now.reply }
        ensures { SeesEntry whose.now entry.now self.old self.new result }
    {
        let Tenancy {
            config,
            tenant,
            label,
        } = whose;
        let mut seen = entry.event;
        match see_into(
            config,
            tenant,
            label,
            &mut self.track,
            &entry.event,
            &mut seen,
        ) {
            Ok(true) => hold_seen(
                self.entries,
                &seen,
                &entry.reply,
                &mut self.line,
                &mut self.text,
            ),
            Ok(false) => Ok(()),
            Err(refused) => Err(refused),
        }
    }

    /// Takes the next entry.
    fn take(&mut self, whose: &Tenancy, entry: &Entry) -> Result<(), NoMemory>
        requires told { MayBeTold entry.now.event entry.now.reply }
        requires few { self.old.entries < limit }
        ensures { NotesEntry whose.now entry.now self.old self.new result }
    {
        self.see_entry(whose, entry)?;
        self.entries += 1;
        Ok(())
    }

    /// Takes the entry of a line, or gives the line's fault.
    fn take_line(
        &mut self,
        alloc: Global,
        whose: &Tenancy,
        lines: &mut LineReader,
        line: &[u8],
    ) -> Result<Option<JournalFault>, NoMemory>
        requires { self.old.entries < limit }
        ensures steps { StepsOn journal_way (IsGathering whose.now) self.old self.new line.now result }
        ensures few { IfOk result (λ _. self.new.entries ≤ self.old.entries + 1) }
    {
        match says_entry(alloc, lines, self.entries, line)? {
            Ok(true) => {
                self.take(whose, lines.entry())?;
                Ok(None)
            }
            Ok(false) => Ok(None),
            Err(fault) => Ok(Some(fault)),
        }
    }
}

/// What was gathered of an input: the text, how many lines were read for it, and the fault that ended them,
/// if one did.
#[derive(Drop)]
struct Gathered {
    text: Vec<u8>,
    lines: u64,
    fault: Option<JournalFault>,
}

/// Gathers the evidence of the reader's journal, to its end or to the first line with a fault.
fn gather_entries<R: BufRead>(
    alloc: Global,
    whose: &Tenancy,
    reader: &mut R,
) -> Result<Gathered, ToolFault>
    ensures { Finds journal_way (evidence_answer whose.now) gathered_answer (between (R.remaining reader.old) (R.remaining reader.new)) result }
{
    let mut gathering = Gathering::new(alloc, whose);
    let mut input = Lines::new(alloc);
    let mut lines = LineReader::new(alloc);
    'lines: loop {
        match input.next(reader)? {
            Next::TooLong => {
                return Ok(Gathered {
                    text: gathering.text,
                    lines: input.count,
                    fault: Some(JournalFault::Size),
                });
            }
            Next::End => {
                return Ok(Gathered {
                    text: gathering.text,
                    lines: input.count,
                    fault: None,
                });
            }
            Next::Line => {}
        }
        if let Some(fault) = gathering.take_line(alloc, whose, &mut lines, &input.line)? {
            return Ok(Gathered {
                text: gathering.text,
                lines: input.count,
                fault: Some(fault),
            });
        }
    }
}

/// Writes what was gathered, or the fault that ended it alone.
fn tell<W: Write>(alloc: Global, gathered: &Gathered, writer: &mut W) -> Result<Summary, ToolFault>
    ensures text { Writes (W.contents writer.old) (W.contents writer.new) (gathered_answer gathered.now) result }
    ensures fault { IfErr result (λ e. e ≢ Read) }
{
    if let Some(fault) = gathered.fault {
        return report(alloc, writer, InputFault::Journal(fault), gathered.lines);
    }
    write_text(writer, &gathered.text)?;
    Ok(Summary {
        lines: gathered.lines,
        fault: None,
    })
}

/// Reads the journal, and only then writes what the tenant's view keeps of its events: each in a line with
/// its place and the reply that it got, or without one where the journal has none. Nothing is replayed.
/// Of a journal with a fault nothing is written but that fault, in one line; the faults are those of
/// [`audit_lines`](crate::audit_lines), but that no reply differs. What is kept is the text that is
/// written, where the nodes are, and the longest line.
///
/// After a read fault nothing is written, nor where memory was refused; after a write fault a front of
/// the text.
pub fn evidence_lines<R: BufRead, W: Write>(
    alloc: Global,
    whose: &Tenancy,
    reader: &mut R,
    writer: &mut W,
) -> Result<Summary, ToolFault>
    requires { IsTrue (is_sole whose.now.config whose.now.tenant whose.now.label) }
    ensures whole { AnswersWhole journal_way (evidence_answer whose.now) (between (R.remaining reader.old) (R.remaining reader.new)) (between (W.contents writer.old) (W.contents writer.new)) result }
    ensures steps { Answers journal_way (evidence_answer whose.now) (between (R.remaining reader.old) (R.remaining reader.new)) (between (W.contents writer.old) (W.contents writer.new)) result }
{
    let gathered = gather_entries(alloc, whose, reader)?;
    tell(alloc, &gathered, writer)
}
