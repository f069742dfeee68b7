//! The text of a queue's path.

ghost use Rattle.std.specs.Prelude.{◌≡◌, ◌++◌, ◌∷◌, OnOk, IfOk, string_bytes};
ghost use Rattle.ynl_resource.specs.Texts.{path_text};
ghost use Rattle.ynl_waits.specs.Steps.{path_of};

use std::alloc::{AllocError, Global};
use ynl_resource::Name;
use ynl_waits::Step;

/// The name with a dot before it, put last.
fn push_name(text: &mut String, name: &Name) -> Result<(), AllocError>
    ensures { OnOk result (string_bytes text.new ≡ string_bytes text.old ++ (46 ∷ name.now)) }
{
    text.push('.')?;
    text.push_str(name.as_str())?;
    Ok(())
}

/// The text of a queue's path.
pub(crate) fn text_of(alloc: Global, queue: &Step) -> Result<String, AllocError>
    ensures { IfOk result (λ text. string_bytes text ≡ path_text (path_of queue.now)) }
{
    let mut text = String::from_str(alloc, "root")?;
    for name in queue.names() {
        push_name(&mut text, name)?;
    }
    Ok(text)
}
