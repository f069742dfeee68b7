//! What the text of a state takes, of which a line at a time is held.

ghost use Rattle.std.specs.Prelude.{◌≡◌, ◌<◌, length, IfErr, IfOk};
ghost use Rattle.ynl_saved_text.specs.declared.faults.StateFault.TheVariants.{Size};
ghost use Rattle.ynl_saved_text.specs.Texts.{limit, state_text};
ghost use Rattle.ynl_states.specs.Measure.{IsMeasured, MeasuresState};

use crate::text::{MOST, TextFault, add_line};
use std::alloc::Global;
use std::marker::Model;
use ynl_core::NoMemory;
use ynl_saved::{LineSink, StateLine};
use ynl_saved_text::StateFault;
use ynl_snapshots::Saving;

/// What the text of a state takes.
#[derive(Clone, Copy)]
pub struct StateSize {
    /// How many lines stand before the last.
    pub lines: u64,
    /// How long the longest line is, with its newline, in bytes.
    pub longest: usize,
}

/// Measures lines: it holds the text of the last one.
#[derive(Drop)]
struct Measure {
    line: Vec<u8>,
    length: usize,
    lines: u64,
    longest: usize,
}

impl Model for Measure {
    ghost use Rattle.ynl_states.specs.Measure.{Measured, measured_of};

    ghost Value = { Measured };

    ghost view = { measured_of };
}

impl Measure {
    /// No line yet.
    fn new(alloc: Global) -> Measure
        ensures length { result.length ≡ 0 }
        ensures lines { result.lines ≡ 0 }
        ensures longest { result.longest ≡ 0 }
    {
        Measure {
            line: Vec::new(alloc),
            length: 0,
            lines: 0,
            longest: 0,
        }
    }

    /// How many lines there were.
    fn lines(&self) -> u64
        ensures { result ≡ self.now.lines }
    {
        self.lines
    }

    /// How long the longest of them is.
    fn longest(&self) -> usize
        ensures { result ≡ self.now.longest }
    {
        self.longest
    }
}

impl LineSink for Measure {
    type Fault = TextFault;

    ghost use Rattle.ynl_states.specs.Measure.{Measures};

    ghost gives = { Measures };

    fn take(&mut self, line: &StateLine) -> Result<(), TextFault> {
        if self.lines == u64::MAX {
            return Err(TextFault::NoMemory);
        }
        self.line.clear();
        add_line(&mut self.line, line)?;
        let length = self.length.saturating_add(self.line.len());
        if length > MOST {
            return Err(TextFault::Size);
        }
        self.length = length;
        self.lines += 1;
        if self.longest < self.line.len() {
            self.longest = self.line.len();
        }
        Ok(())
    }
}

/// Measures all lines of a state, and says how many stand before the last.
fn measure_lines(saving: &Saving<'_>, measure: &mut Measure) -> Result<u64, TextFault>
    requires { measure.old.lines ≡ 0 }
    ensures { MeasuresState measure.old saving.now.config saving.now.state measure.new result }
{
    saving.tell(measure)?;
    let lines = measure.lines();
    measure.take(&StateLine::End { lines })?;
    Ok(lines)
}

/// What the text of a state takes, which is found out line by line. It has the fault `Size` where the text would be longer
/// than 268,435,456 bytes. `Err` only if memory is refused, for a line's text.
pub fn measure_state(
    alloc: Global,
    saving: &Saving<'_>,
) -> Result<Result<StateSize, StateFault>, NoMemory>
    ensures size { IfOk result (λ measured. IfOk measured (IsMeasured saving.now.config saving.now.state)) }
    ensures fault { IfOk result (λ measured. IfErr measured (λ fault. fault ≡ Size)) }
    ensures long { IfOk result (λ measured. IfErr measured (λ _.
        limit < length (state_text saving.now.config saving.now.state))) }
{
    let mut measure = Measure::new(alloc);
    match measure_lines(saving, &mut measure) {
        Ok(lines) => Ok(Ok(StateSize {
            lines,
            longest: measure.longest(),
        })),
        Err(TextFault::Size) => Ok(Err(StateFault::Size)),
        Err(TextFault::NoMemory) => Err(NoMemory),
    }
}
