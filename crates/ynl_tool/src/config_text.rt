//! The texts of a configuration and of a state.

ghost use Rattle.std.specs.Prelude.{◌≡◌, ◌≢◌, ◌++◌, IfSome, IfErr, OnOk, take};
ghost use Rattle.std.specs.IoError.{error_kind};
ghost use Rattle.ynl_tool.specs.Jobs.{most_read, most_read_of_state};
ghost use Rattle.ynl_commands.specs.Lines.{read_fault, tool_fault};
ghost use Rattle.ynl_commands.specs.declared.run.ToolFault.TheVariants.{Write, Unclosed};

use std::io;
use std::io::Read;
use ynl_commands::ToolFault;
use ynl_commands::lines_in::read_fault;

/// How many bytes of a configuration are read at most: one more than it may have, so that one that
/// is too long is told.
const MOST_READ: u64 = 1_048_577;

/// The same of a state.
const MOST_READ_OF_STATE: u64 = 268_435_457;

/// What is told of an error that was met in opening or reading: out of memory is told from all others.
pub fn fault_of(error: &io::Error) -> ToolFault
    ensures { result ≡ tool_fault (read_fault (error_kind error.now)) }
{
    ToolFault::from(read_fault(error))
}

/// Reads a text, of which no more than so many bytes.
fn read_front<F: Read>(file: &mut F, most: u64, text: &mut Vec<u8>) -> Result<(), ToolFault>
    ensures text { OnOk result (IfSome (F.remaining file.old) (λ bytes. text.new.items ≡ text.old.items ++ take most bytes)) }
    ensures fault { IfErr result (λ e. (e ≢ Write) × (e ≢ Unclosed)) }
{
    let mut front = file.take(most);
    match front.read_to_end(text) {
        Ok(_) => Ok(()),
        Err(error) => Err(fault_of(&error)),
    }
}

/// Reads the text of a configuration. Of a file that is too long for one no more is read than shows
/// that.
pub fn read_text<F: Read>(file: &mut F, text: &mut Vec<u8>) -> Result<(), ToolFault>
    ensures text { OnOk result (IfSome (F.remaining file.old) (λ bytes. text.new.items ≡ text.old.items ++ take most_read bytes)) }
    ensures fault { IfErr result (λ e. (e ≢ Write) × (e ≢ Unclosed)) }
{
    read_front(file, MOST_READ, text)
}

/// The same of the text of a state.
pub fn read_state_text<F: Read>(file: &mut F, text: &mut Vec<u8>) -> Result<(), ToolFault>
    ensures text { OnOk result (IfSome (F.remaining file.old) (λ bytes. text.new.items ≡ text.old.items ++ take most_read_of_state bytes)) }
    ensures fault { IfErr result (λ e. (e ≢ Write) × (e ≢ Unclosed)) }
{
    read_front(file, MOST_READ_OF_STATE, text)
}
