//! A text of a saved state is read line by line.

ghost use Rattle.std.specs.Prelude.{◌≡◌, ◌+◌, ◌<◌, ◌==◌, length, true, IfOk, OnOk};
ghost use Rattle.std.specs.List.{slice_split};
ghost use Rattle.ynl_model.specs.Accepted.{is_accepted};
ghost use Rattle.ynl_model.specs.Queues.{Config};
ghost use Rattle.ynl_saved_text.specs.Texts.{limit, line_read, lines_read, Progress};
ghost use Rattle.ynl_states.specs.Reading.{ComesTo, IsAt, Restores};

use crate::lines::first_line;
use std::alloc::{AllocError, Global};
use ynl_fields::is_blank;
use ynl_queues::Config;
use ynl_saved_text::{BadState, StateFault, StateReader};
use ynl_snapshots::Restoring;

/// How long a text may be, in bytes.
const MOST: usize = 268_435_456;

/// What was read of a text so far: what the lines told, the last line, and how many lines there were, blank
/// ones among them.
#[derive(Drop)]
struct Reading {
    told: Restoring,
    lines: StateReader,
    count: u64,
}

impl Reading {
    /// A fault of the line that was counted last.
    fn bad(&self, fault: StateFault) -> BadState
        ensures { result ≡ record { fault = fault; line = self.now.count } }
    {
        BadState {
            fault,
            line: self.count,
        }
    }

    /// Reads a line more, without its newline. A blank one is passed over.
    fn take(&mut self, alloc: Global, line: &[u8]) -> Result<Result<(), BadState>, AllocError>
        requires at { (p : Progress) × IsAt self.old.told.cluster.config self.old.told self.old.lines self.old.count p }
        requires few { self.old.count < limit + 1 }
        ensures counted { OnOk result (self.new.count ≡ self.old.count + 1) }
        ensures step { IfOk result (λ read. (c : Config) (p : Progress)
            → IsAt c self.old.told self.old.lines self.old.count p
            → ComesTo c self.new.told self.new.lines self.new.count read (line_read c p line.now)) }
    {
        self.count += 1;
        if is_blank(line) {
            return Ok(Ok(()));
        }
        if let Err(fault) = self.lines.read(alloc, line)? {
            return Ok(Err(self.bad(fault)));
        }
        if !self.told.take(self.lines.line())? {
            return Ok(Err(self.bad(StateFault::Unsound)));
        }
        Ok(Ok(()))
    }
}

/// Reads all lines of a text, one after another, to the first with a fault.
fn read_lines(
    alloc: Global,
    reading: &mut Reading,
    text: &[u8],
) -> Result<Result<(), BadState>, AllocError>
    requires at { (p : Progress) × IsAt reading.old.told.cluster.config reading.old.told reading.old.lines reading.old.count p }
    requires few { reading.old.count + length text.now < limit + 1 }
    ensures { IfOk result (λ read. (c : Config) (p : Progress)
        → IsAt c reading.old.told reading.old.lines reading.old.count p
        → ComesTo c reading.new.told reading.new.lines reading.new.count read
        (lines_read c p (slice_split (λ b. b == 10) text.now))) }
{
    let mut left = Some(text);
    while let Some(text) = left {
        let first = first_line(text);
        if let Err(bad) = reading.take(alloc, first.line)? {
            return Ok(Err(bad));
        }
        left = first.rest;
    }
    Ok(Ok(()))
}

/// What a text of a saved state told, or its first fault. It fails if memory is refused, and where there are more
/// labels or queues than numbers.
pub(crate) fn read_told(
    alloc: Global,
    config: Config,
    text: &[u8],
) -> Result<Result<Restoring, BadState>, AllocError>
    requires { is_accepted config ≡ true }
    ensures { IfOk result (Restores config text.now) }
{
    if text.len() > MOST {
        return Ok(Err(BadState {
            fault: StateFault::Size,
            line: 0,
        }));
    }
    let mut reading = Reading {
        told: Restoring::new(alloc, config)?,
        lines: StateReader::new(alloc),
        count: 0,
    };
    if let Err(bad) = read_lines(alloc, &mut reading, text)? {
        return Ok(Err(bad));
    }
    if !reading.lines.has_ended() {
        return Ok(Err(BadState {
            fault: StateFault::Cut,
            line: 0,
        }));
    }
    Ok(Ok(reading.told))
}
