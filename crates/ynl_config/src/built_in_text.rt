//! The configuration where no file is named, as a text.

ghost use Rattle.std.specs.Prelude.{◌≡◌, IfOk, Ok};
ghost use Rattle.ynl_model.specs.BuiltIn.{built_in};
ghost use Rattle.ynl_config.specs.Meaning.{config_of};

use crate::config::read_config;
use std::alloc::{AllocError, Global};
use ynl_queues::Config;

/// The configuration where no file is named: one queue, root.eng, which has all of each partition,
/// and one exclusive label, gpu.
pub const BUILT_IN: &str = "\
version = 1
[[label]]
name = \"gpu\"
[[queue]]
path = \"root.eng\"
capacity = 100
[queue.label.gpu]
capacity = 100
";

/// The text means the built-in configuration.
pub fn built_in_text_is_read()
    ensures { config_of BUILT_IN.now ≡ Ok built_in }
{}

/// The configuration where no file is named, read from its text.
pub fn built_in(alloc: Global) -> Result<Config, AllocError>
    ensures { IfOk result (λ config. config ≡ built_in) }
{
    built_in_text_is_read();
    match read_config(alloc, BUILT_IN.as_bytes())? {
        Ok(config) => Ok(config),
        // The text has no fault.
        Err(_) => unreachable!(),
    }
}
