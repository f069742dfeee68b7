//! The state of a cluster is written.

ghost use Rattle.std.specs.Prelude.{◌≡◌, ◌<◌, ◌≤◌, length, IfErr, IfOk};
ghost use Rattle.ynl_saved_text.specs.declared.faults.StateFault.TheVariants.{Size};
ghost use Rattle.ynl_saved_text.specs.Texts.{limit, state_text};
ghost use Rattle.ynl_states.specs.Text.{AddsState, ReadsBack};

use crate::text::{StateText, TextFault};
use std::alloc::Global;
use ynl_core::{Core, NoMemory};
use ynl_saved::{LineSink, StateLine};
use ynl_saved_text::StateFault;
use ynl_snapshots::Saving;

/// Adds all lines of a state, the last of which tells how many stand before it.
fn add_state(saving: &Saving<'_>, text: &mut StateText) -> Result<(), TextFault>
    requires { text.old.lines ≡ 0 }
    ensures { AddsState text.old saving.now.config saving.now.state text.new result }
{
    saving.tell(text)?;
    let lines = text.lines();
    text.take(&StateLine::End { lines })
}

/// The text of a cluster's state: a line for each thing that a cluster needs to go on as this one would, as
/// `ynl_saved_text` has them. It has the fault `Size`, and no text, where that would be longer than
/// 268,435,456 bytes. Under an accepted configuration, where no ask counts more than an ask may, the text reads as what
/// the lines of the state tell: for each state that events reach, as the law `states_are_told` of `ynl_saved` has it,
/// that is the state itself. `Err` only if memory is refused.
pub fn write_state(alloc: Global, core: &Core) -> Result<Result<Vec<u8>, StateFault>, NoMemory>
    ensures text { IfOk result (λ written. IfOk written (λ text.
        text.items ≡ state_text core.now.config core.now.state)) }
    ensures within { IfOk result (λ written. IfOk written (λ text. length text.items ≤ limit)) }
    ensures reads { IfOk result (λ written. IfOk written (λ text.
        ReadsBack core.now.config core.now.state text.items)) }
    ensures fault { IfOk result (λ written. IfErr written (λ fault. fault ≡ Size)) }
    ensures long { IfOk result (λ written. IfErr written (λ _.
        limit < length (state_text core.now.config core.now.state))) }
{
    let mut text = StateText::new(alloc);
    match add_state(&core.saving(), &mut text) {
        Ok(()) => Ok(Ok(text.into_text())),
        Err(TextFault::Size) => Ok(Err(StateFault::Size)),
        Err(TextFault::NoMemory) => Err(NoMemory),
    }
}
