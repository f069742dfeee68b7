//! What a call came to, and its text.

ghost use Rattle.std.specs.Prelude.{◌≡◌, OnOk};
ghost use Rattle.ynl_lines.specs.Writing.{fault_text};
ghost use Rattle.ynl_lines.specs.declared.faults.InputFault.TheVariants.{Script};
ghost use Rattle.ynl_c.specs.desk.Standing.{config_text, outcome_text};

use std::alloc::{AllocError, Global};
use ynl_config::ConfigFault;
use ynl_lines::{InputFault, LineFault, put_placed, put_reply, write_fault};
use ynl_model::{Placed, Reply};
use ynl_resource::Refusal;

/// What the last call came to.
#[derive(Drop)]
pub enum Outcome {
    /// Nothing that has a text.
    Silent,
    /// This reply.
    Reply(Reply),
    /// A heartbeat was refused, or else placed the containers of a list that is kept beside this.
    Beat(Option<Refusal>),
    /// The line of this number is no event.
    Line(LineFault, u64),
    /// A text is no configuration.
    Config(ConfigFault),
}

/// Puts the line that tells why a text is no configuration, without its newline, in the place of what `text` holds.
fn put_config_fault(fault: ConfigFault, text: &mut Vec<u8>) -> Result<(), AllocError>
    ensures { OnOk result (text.new.items ≡ config_text fault) }
{
    text.clear();
    text.extend_from_slice(b"ynl: config: ")?;
    text.extend_from_slice(fault.word().as_bytes())
}

/// Puts the line that tells why a line is no event in the place of what `text` holds.
fn put_line_fault(
    alloc: Global,
    fault: LineFault,
    number: u64,
    text: &mut Vec<u8>,
) -> Result<(), AllocError>
    ensures { OnOk result (text.new.items ≡ fault_text (Script fault) number) }
{
    *text = write_fault(alloc, InputFault::Script(fault), number)?;
    Ok(())
}

/// Puts the text of an outcome in the place of what `text` holds, where `placed` is the list beside the outcome.
pub fn put_outcome(
    alloc: Global,
    outcome: &Outcome,
    placed: &[Placed],
    text: &mut Vec<u8>,
) -> Result<(), AllocError>
    ensures { OnOk result (text.new.items ≡ outcome_text outcome.now placed.now) }
{
    match outcome {
        Outcome::Silent => {
            text.clear();
            Ok(())
        }
        Outcome::Reply(reply) => put_reply(reply, text),
        Outcome::Beat(Some(refusal)) => put_reply(&Reply::Refused(*refusal), text),
        Outcome::Beat(None) => put_placed(placed, text),
        Outcome::Line(fault, number) => put_line_fault(alloc, *fault, *number, text),
        Outcome::Config(fault) => put_config_fault(*fault, text),
    }
}
