//! All lines of a state are told.

ghost use Rattle.std.specs.Prelude.{◌≡◌, length};
ghost use Rattle.ynl_saved.specs.Handing.{Hands};
ghost use Rattle.ynl_saved.specs.Saving.{lines_before_end, state_lines};

use ynl_saved::{LineSink, StateLine};
use ynl_snapshots::Saving;

/// Tells all lines of a state, one after another, to where the sink fails: the last tells how many stand before it.
pub fn tell_state<S: LineSink>(
    saving: &Saving<'_>,
    lines: u64,
    sink: &mut S,
) -> Result<(), S::Fault>
    requires { lines ≡ length (lines_before_end saving.now.config saving.now.state) }
    ensures { Hands S.gives sink.old (state_lines saving.now.config saving.now.state) sink.new result }
{
    saving.tell(sink)?;
    sink.take(&StateLine::End { lines })
}
