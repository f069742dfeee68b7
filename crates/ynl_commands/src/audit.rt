//! The audit of a journal: whether each line is its next entry, and each reply that is there the cluster's.

ghost use Rattle.std.specs.Prelude.{◌≡◌, ◌≢◌, ◌+◌, ◌<◌, ◌≤◌, [], IfOk, IfErr, OnErr, IsTrue, IsUtf8};
ghost use Rattle.ynl_lines.specs.Reading.{Gives};
ghost use Rattle.ynl_lines.specs.ReadingReplies.{MayBeTold};
ghost use Rattle.ynl_commands.specs.declared.run.ToolFault.TheVariants.{Read};
ghost use Rattle.ynl_commands.specs.Input.{between, limit};
ghost use Rattle.ynl_commands.specs.Audit.{answer_of, entry_if, entry_said};
ghost use Rattle.ynl_commands.specs.Auditing.{AuditsJournal, AuditsLine, AuditsWhole, Finds, IsAuditOf, TakesEntry};
ghost use Rattle.ynl_commands.specs.Running.{Writes};

use crate::lines_in::{Lines, Next};
use crate::lines_out::write_text;
use crate::run::{Summary, ToolFault, report, with_newline};
use std::alloc::{AllocError, Global};
use std::io::{BufRead, Write};
use ynl_core::{Core, NoMemory};
use ynl_fields::is_blank;
use ynl_journal::fits;
use ynl_lines::{InputFault, JournalFault, LineReader, write_audit};
use ynl_model::Entry;

/// Whether a line says the next entry after so many, which the reader then lends; a blank line says none. Or the line's
/// fault. Bytes that are no text take no memory.
pub(crate) fn says_entry(
    alloc: Global,
    lines: &mut LineReader,
    entries: u64,
    line: &[u8],
) -> Result<Result<bool, JournalFault>, AllocError>
    ensures said { IfOk result (λ said. Gives (entry_if lines.new) said (entry_said entries line.now)) }
    ensures told { IfOk result (λ said. IfOk said (λ found. IsTrue found → MayBeTold lines.new.1.event lines.new.1.reply)) }
    ensures text { OnErr result (IsUtf8 line.now) }
{
    if is_blank(line) {
        return Ok(Ok(false));
    }
    if lines.read(alloc, line)?.is_ok() && lines.place() == entries {
        Ok(Ok(true))
    } else {
        Ok(Err(JournalFault::Line))
    }
}

/// An audit that has come to the end of some entries: the cluster that they lead to, and how many they
/// are. The entries are not kept.
#[derive(Drop)]
struct Audit {
    core: Core,
    entries: u64,
}

impl Audit {
    /// Before the first entry.
    fn new(core: Core) -> Audit
        ensures { IsAuditOf core.config core.state [] result }
    {
        Audit { core, entries: 0 }
    }

    /// Takes the next entry, if its reply is the cluster's, where it has one, and gives whether it is. The
    /// cluster takes its event anyhow.
    fn take(&mut self, entry: &Entry) -> Result<bool, NoMemory>
        requires { self.old.entries < limit }
        ensures taken { IfOk result (λ fits. TakesEntry self.old entry.now self.new fits) }
        ensures err { OnErr result (self.new ≡ self.old) }
    {
        // A reply is large, and is not moved out of the result.
        match &self.core.answer(&entry.event) {
            Ok(reply) => {
                if !fits(entry, reply) {
                    return Ok(false);
                }
            }
            Err(NoMemory) => return Err(NoMemory),
        }
        self.entries += 1;
        Ok(true)
    }

    /// Takes the entry of a line, or gives the line's fault. Where memory was refused the audit is as before, so
    /// that is never told of an entry which the cluster took.
    fn take_line(
        &mut self,
        alloc: Global,
        lines: &mut LineReader,
        line: &[u8],
    ) -> Result<Option<JournalFault>, NoMemory>
        requires { self.old.entries < limit }
        ensures passes { AuditsLine self.old self.new line.now result }
        ensures err { OnErr result (self.new ≡ self.old) }
        ensures few { self.new.entries ≤ self.old.entries + 1 }
    {
        match says_entry(alloc, lines, self.entries, line)? {
            Ok(true) => {
                if self.take(lines.entry())? {
                    Ok(None)
                } else {
                    Ok(Some(JournalFault::Differs))
                }
            }
            Ok(false) => Ok(None),
            Err(fault) => Ok(Some(fault)),
        }
    }
}

/// What an audit found: how many entries pass, how many lines were read for them, and the fault that
/// ended them, if one did.
#[derive(Clone, Copy)]
pub(crate) struct Found {
    pub(crate) entries: u64,
    pub(crate) lines: u64,
    pub(crate) fault: Option<JournalFault>,
}

/// Audits the journal of the reader, to its end or to the first line with a fault.
fn audit_entries<R: BufRead>(alloc: Global, core: Core, reader: &mut R) -> Result<Found, ToolFault>
    ensures { Finds (between (R.remaining reader.old) (R.remaining reader.new)) core.config core.state result }
{
    let mut audit = Audit::new(core);
    let mut input = Lines::new(alloc);
    let mut lines = LineReader::new(alloc);
    'lines: loop {
        match input.next(reader)? {
            Next::TooLong => {
                return Ok(Found {
                    entries: audit.entries,
                    lines: input.count,
                    fault: Some(JournalFault::Size),
                });
            }
            Next::End => {
                return Ok(Found {
                    entries: audit.entries,
                    lines: input.count,
                    fault: None,
                });
            }
            Next::Line => {}
        }
        if let Some(fault) = audit.take_line(alloc, &mut lines, &input.line)? {
            return Ok(Found {
                entries: audit.entries,
                lines: input.count,
                fault: Some(fault),
            });
        }
    }
}

/// Writes what an audit found.
pub(crate) fn tell<W: Write>(
    alloc: Global,
    found: Found,
    writer: &mut W,
) -> Result<Summary, ToolFault>
    ensures text { Writes (W.contents writer.old) (W.contents writer.new) (answer_of found.entries found.lines found.fault) result }
    ensures fault { IfErr result (λ e. e ≢ Read) }
{
    if let Some(fault) = found.fault {
        return report(alloc, writer, InputFault::Journal(fault), found.lines);
    }
    let line = with_newline(write_audit(alloc, found.entries)?)?;
    write_text(writer, &line)?;
    Ok(Summary {
        lines: found.lines,
        fault: None,
    })
}

/// Audits the journal of the reader against the cluster, from the state that it is in, and only once
/// reading has ended writes one line: how many entries the journal has; or the fault of the first line
/// that does not pass, where reading ends. A line passes if it is a line of a journal, its place is the
/// number of the entries before it, and its reply, where it has one, is the cluster's. A blank line is
/// passed over. An input of more than 67,108,864 bytes has a fault in the line where it gets too long. What
/// is kept does not grow with the journal, but for its longest line.
///
/// After a read fault nothing is written, nor where memory was refused; after a write fault a front of
/// the line.
pub fn audit_lines<R: BufRead, W: Write>(
    alloc: Global,
    core: Core,
    reader: &mut R,
    writer: &mut W,
) -> Result<Summary, ToolFault>
    ensures whole { AuditsWhole (between (R.remaining reader.old) (R.remaining reader.new)) (between (W.contents writer.old) (W.contents writer.new)) core.config core.state result }
    ensures steps { AuditsJournal (between (R.remaining reader.old) (R.remaining reader.new)) (between (W.contents writer.old) (W.contents writer.new)) core.config core.state result }
{
    let found = audit_entries(alloc, core, reader)?;
    tell(alloc, found, writer)
}
