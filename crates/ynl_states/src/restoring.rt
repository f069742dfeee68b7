//! The cluster of a saved state.

ghost use Rattle.std.specs.Prelude.{◌≡◌, true, IfOk};
ghost use Rattle.ynl_model.specs.Accepted.{is_accepted};
ghost use Rattle.ynl_states.specs.Reading.{Resumes};

use crate::reading::read_told;
use std::alloc::Global;
use ynl_core::{Core, NoMemory};
use ynl_queues::Config;
use ynl_saved_text::BadState;

/// The cluster of the state that a text tells, under a configuration, which may be another than the one that the
/// state was saved under; or the first fault of the text. The text is that of `write_state`: its lines are read as
/// `ynl_saved_text` has them, and each has to go with those before it. A blank line is passed over. A text of more
/// than 268,435,456 bytes has the fault `Size`, and one without its last line the fault `Cut`.
///
/// `Err` only if memory is refused.
// Inlined, its 28 KB would stand in the caller's frame until the job has ended.
#[inline(never)]
pub fn read_state(
    alloc: Global,
    config: Config,
    text: &[u8],
) -> Result<Result<Core, BadState>, NoMemory>
    requires { is_accepted config ≡ true }
    ensures { IfOk result (Resumes config text.now) }
{
    match read_told(alloc, config, text)? {
        Ok(told) => Ok(Ok(Core::resume(alloc, told)?)),
        Err(bad) => Ok(Err(bad)),
    }
}
