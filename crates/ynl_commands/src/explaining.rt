//! Explaining why an application waits, after a script.

ghost use Rattle.std.specs.Prelude.{◌≡◌, ◌≢◌, IfOk, IfErr, []};
ghost use Rattle.ynl_commands.specs.declared.run.ToolFault.TheVariants.{Read};
ghost use Rattle.ynl_commands.specs.Clusters.{rest_of};
ghost use Rattle.ynl_commands.specs.Explaining.{answer, explanation, waits_text, Explains, ExplainsWhole};
ghost use Rattle.ynl_commands.specs.Input.{between};
ghost use Rattle.ynl_commands.specs.Running.{Writes};

use crate::clusters::{AppliedScript, apply_script};
use crate::lines_out::write_text;
use crate::run::{Summary, ToolFault, report};
use std::alloc::{AllocError, Global};
use std::io::{BufRead, Write};
use ynl_check::Form;
use ynl_core::{Core, NoMemory};
use ynl_explain::{plain_text, told_text};
use ynl_lines::InputFault;
use ynl_waits::Explained;
use ynl_words::Question;

/// The text of what is explained.
fn answer(alloc: Global, question: &Question, explained: &Explained) -> Result<Vec<u8>, AllocError>
    ensures { IfOk result (λ text. text.items ≡ answer question.now explained.now) }
{
    let (tenant, app) = (&question.tenant, &question.app);
    match question.form {
        Form::Lines => told_text(alloc, tenant, app, explained),
        Form::Plain => plain_text(alloc, tenant, app, explained),
    }
}

/// The text of why the application waits.
fn waits_text(alloc: Global, core: &Core, question: &Question) -> Result<Vec<u8>, NoMemory>
    ensures { IfOk result (λ text. text.items ≡ waits_text core.now.config core.now.state question.now []) }
{
    let explained = core.explain(&question.tenant, &question.app)?;
    Ok(answer(alloc, question, &explained)?)
}

/// Writes what is told of a script: why the application waits in the cluster that it left, or its fault.
fn tell<W: Write>(
    alloc: Global,
    question: &Question,
    script: &AppliedScript,
    writer: &mut W,
) -> Result<Summary, ToolFault>
    ensures text { Writes (W.contents writer.old) (W.contents writer.new) (explanation script.now.core.config script.now.core.state question.now (rest_of script.now)) result }
    ensures fault { IfErr result (λ e. e ≢ Read) }
{
    if let Some(fault) = script.fault {
        return report(alloc, writer, InputFault::Script(fault), script.lines);
    }
    let text = waits_text(alloc, &script.core, question)?;
    write_text(writer, &text)?;
    Ok(Summary {
        lines: script.lines,
        fault: None,
    })
}

/// Reads the script, and applies each event as it is read, from the state that the cluster is in. Only then it writes
/// why the requests of the tenant's application wait: a line for each request, or the reply of a refusal where there is
/// no such application; or the same in sentences. Of a script with a fault nothing is told but that fault, in one line.
///
/// After a read fault nothing is written, nor where memory was refused; after a write fault a front of
/// the text.
pub fn explain_lines<R: BufRead, W: Write>(
    alloc: Global,
    core: Core,
    question: &Question,
    reader: &mut R,
    writer: &mut W,
) -> Result<Summary, ToolFault>
    ensures whole { ExplainsWhole (between (R.remaining reader.old) (R.remaining reader.new)) (between (W.contents writer.old) (W.contents writer.new)) core.config core.state question.now result }
    ensures steps { Explains (between (R.remaining reader.old) (R.remaining reader.new)) (between (W.contents writer.old) (W.contents writer.new)) core.config core.state question.now result }
{
    let script = apply_script(alloc, core, reader)?;
    tell(alloc, question, &script, writer)
}
