//! The scheduler for programs in other languages: a static library whose calls C can make. `ynl.h`, beside this folder,
//! declares them and says what a caller owes.
#![tactic(auto)]

ghost use Rattle.std.specs.Prelude.{◌≡◌, None};
ghost use Rattle.ynl_c.specs.desk.Calls.{Opens, Tells, Lists};
ghost use Rattle.ynl_c.specs.Behind.{Came, Replies, behind};

mod calls;
pub mod desk;
mod handle;
mod loose;
mod status;

use crate::desk::{HashSeed, seed_of};
use handle::Handle;
use status::status_of;
use std::alloc::Global;

/// Opens a cluster of the configuration that a text means. A cluster that the handle had is let go then, and stays where
/// the text is none. Names are hashed with a fixed seed.
#[unsafe(no_mangle)]
pub extern "C" fn ynl_open(handle: &mut Handle, config: &[u8], alloc: Global) -> u32
    ensures { Came result (Opens (behind handle.old.value) (behind handle.new.value) config.now) }
{
    status_of(handle.open(alloc, HashSeed::fixed(), config))
}

/// The same, with names hashed with the seed that a caller's bytes make.
#[unsafe(no_mangle)]
pub extern "C" fn ynl_open_seeded(
    handle: &mut Handle,
    config: &[u8],
    seed: &[u8],
    alloc: Global,
) -> u32
    ensures { Came result (Opens (behind handle.old.value) (behind handle.new.value) config.now) }
{
    status_of(handle.open(alloc, seed_of(seed), config))
}

/// Takes the event that a line is, without its newline.
#[unsafe(no_mangle)]
pub extern "C" fn ynl_apply(handle: &mut Handle, line: &[u8], alloc: Global) -> u32
    ensures { Came result (Tells (behind handle.old.value) (behind handle.new.value) line.now) }
{
    status_of(handle.tell(alloc, line))
}

/// Lists the containers of the partition of a label.
#[unsafe(no_mangle)]
pub extern "C" fn ynl_containers(handle: &mut Handle, label: &[u8], alloc: Global) -> u32
    ensures { Came result (Lists (behind handle.old.value) (behind handle.new.value) label.now) }
{
    status_of(handle.list(alloc, label))
}

/// Puts the text of what the last call came to at the front of a block, and says how long it is.
#[unsafe(no_mangle)]
pub extern "C" fn ynl_reply(
    handle: &mut Handle,
    block: &mut [u8],
    length: &mut usize,
    alloc: Global,
) -> u32
    ensures { Came result (Replies handle.old.value handle.new.value block.old block.new length.new) }
{
    status_of(handle.copy(alloc, block, length))
}

/// Lets go what the handle has. A handle that is closed stays so.
#[unsafe(no_mangle)]
pub extern "C" fn ynl_close(handle: &mut Handle, alloc: Global)
    ensures { handle.new.value ≡ None }
{
    *handle = Handle::closed(alloc);
}

/// The version of these calls.
#[unsafe(no_mangle)]
pub extern "C" fn ynl_version() -> u32
    ensures { result ≡ 1 }
{
    1
}
