//! The audit of evidence that a tenant was handed.

ghost use Rattle.std.specs.Prelude.{◌≡◌, ◌+◌, ◌<◌, ◌≤◌, [], IfOk, IsTrue};
ghost use Rattle.ynl_lines.specs.Reading.{Gives};
ghost use Rattle.ynl_model.specs.View.{is_sole};
ghost use Rattle.ynl_commands.specs.Answering.{Answers, AnswersWhole, Finds, StepsOn};
ghost use Rattle.ynl_commands.specs.Evidence.{evidence_way, fault_of, found_answer, placed_answer, placed_if, placed_said, IsEvidenceAudit};
ghost use Rattle.ynl_commands.specs.Input.{between, limit};

use crate::audit::{Found, tell};
use crate::evidence::Tenancy;
use crate::lines_in::{Lines, Next};
use crate::run::{Summary, ToolFault};
use std::alloc::{AllocError, Global};
use std::io::{BufRead, Write};
use ynl_core::NoMemory;
use ynl_fields::is_blank;
use ynl_lines::{JournalFault, LineReader};
use ynl_view::evidence::{Flaw, Trial};

/// Whether a line says an entry with its place, which the reader then lends; a blank line says none. Or that it is bad.
fn says_placed(
    alloc: Global,
    lines: &mut LineReader,
    line: &[u8],
) -> Result<Result<bool, JournalFault>, AllocError>
    ensures { IfOk result (λ said. Gives (placed_if lines.new) said (placed_said line.now)) }
{
    if is_blank(line) {
        return Ok(Ok(false));
    }
    match lines.read(alloc, line)? {
        Ok(()) => Ok(Ok(true)),
        Err(_) => Ok(Err(JournalFault::Line)),
    }
}

fn fault_of(flaw: Flaw) -> JournalFault
    ensures { result ≡ fault_of flaw }
{
    match flaw {
        Flaw::NotKept => JournalFault::Line,
        Flaw::Differs => JournalFault::Differs,
    }
}

/// An audit of evidence that has come to the end of some entries, and how many they are. They are not kept.
#[derive(Drop)]
struct EvidenceAudit {
    trial: Trial,
    entries: u64,
}

impl EvidenceAudit {
    /// Before the first entry.
    fn open(alloc: Global, whose: &Tenancy) -> Result<EvidenceAudit, NoMemory>
        ensures { IfOk result (λ audit. IsEvidenceAudit whose.now [] audit) }
    {
        let trial = Trial::open(alloc, &whose.config, &whose.tenant)?;
        Ok(EvidenceAudit { trial, entries: 0 })
    }

    /// Takes the entry of a line, or gives the line's fault.
    fn take_line(
        &mut self,
        alloc: Global,
        whose: &Tenancy,
        lines: &mut LineReader,
        line: &[u8],
    ) -> Result<Option<JournalFault>, NoMemory>
        requires { self.old.entries < limit }
        ensures steps { StepsOn (evidence_way whose.now) (IsEvidenceAudit whose.now) self.old self.new line.now result }
        ensures few { IfOk result (λ _. self.new.entries ≤ self.old.entries + 1) }
    {
        match says_placed(alloc, lines, line)? {
            Ok(true) => {}
            Ok(false) => return Ok(None),
            Err(fault) => return Ok(Some(fault)),
        }
        let Tenancy {
            config,
            tenant,
            label,
        } = whose;
        let flaw = self
            .trial
            .take(config, tenant, label, lines.place(), lines.entry())?;
        if let Some(flaw) = flaw {
            return Ok(Some(fault_of(flaw)));
        }
        self.entries += 1;
        Ok(None)
    }
}

/// Audits the evidence of the reader, to its end or to the first line with a fault.
fn audit_placed<R: BufRead>(
    alloc: Global,
    whose: &Tenancy,
    reader: &mut R,
) -> Result<Found, ToolFault>
    ensures { Finds (evidence_way whose.now) placed_answer found_answer (between (R.remaining reader.old) (R.remaining reader.new)) result }
{
    let mut audit = EvidenceAudit::open(alloc, whose)?;
    let mut input = Lines::new(alloc);
    let mut lines = LineReader::new(alloc);
    'lines: loop {
        match input.next(reader)? {
            Next::TooLong => {
                return Ok(Found {
                    entries: audit.entries,
                    lines: input.count,
                    fault: Some(JournalFault::Size),
                });
            }
            Next::End => {
                return Ok(Found {
                    entries: audit.entries,
                    lines: input.count,
                    fault: None,
                });
            }
            Next::Line => {}
        }
        if let Some(fault) = audit.take_line(alloc, whose, &mut lines, &input.line)? {
            return Ok(Found {
                entries: audit.entries,
                lines: input.count,
                fault: Some(fault),
            });
        }
    }
}

/// Audits the evidence of the reader against a cluster that holds the tenant alone, and only once reading has
/// ended writes one line, as [`audit_lines`](crate::audit_lines) does. A line passes if it is a line of a
/// journal, its place is above the one before it, its event is one that the tenant's view of the evidence
/// keeps as it is, and its reply, where it has one, is the cluster's. What is kept does not grow with the
/// evidence, but for its longest line.
///
/// After a read fault nothing is written, nor where memory was refused; after a write fault a front of
/// the line.
pub fn audit_evidence_lines<R: BufRead, W: Write>(
    alloc: Global,
    whose: &Tenancy,
    reader: &mut R,
    writer: &mut W,
) -> Result<Summary, ToolFault>
    requires { IsTrue (is_sole whose.now.config whose.now.tenant whose.now.label) }
    ensures whole { AnswersWhole (evidence_way whose.now) placed_answer (between (R.remaining reader.old) (R.remaining reader.new)) (between (W.contents writer.old) (W.contents writer.new)) result }
    ensures steps { Answers (evidence_way whose.now) placed_answer (between (R.remaining reader.old) (R.remaining reader.new)) (between (W.contents writer.old) (W.contents writer.new)) result }
{
    let found = audit_placed(alloc, whose, reader)?;
    tell(alloc, found, writer)
}
