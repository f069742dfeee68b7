//! Telling what a configuration says.

ghost use Rattle.ynl_tool.specs.Checking.{ChecksText};
ghost use Rattle.ynl_commands.specs.Input.{between};

use std::alloc::Global;
use std::io::Write;
use ynl_check::{Form, Verdict, check};
use ynl_commands::ToolFault;
use ynl_commands::lines_out::write_text;

/// Writes what the text says as a configuration, and gives whether it is one: of one that is accepted the tree with
/// what each queue is given, and of any other text the first place of its fault.
///
/// All of it is made before anything is written. So where memory was refused nothing is written, and after a write
/// fault a front of it, and not all.
pub fn check_text<W: Write>(
    alloc: Global,
    form: Form,
    text: &[u8],
    writer: &mut W,
) -> Result<Verdict, ToolFault>
    ensures { ChecksText (between (W.contents writer.old) (W.contents writer.new)) form text.now result }
{
    let checked = check(alloc, form, text)?;
    write_text(writer, &checked.text)?;
    Ok(checked.verdict)
}
