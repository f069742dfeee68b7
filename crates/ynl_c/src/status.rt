//! The numbers that calls return.

ghost use Rattle.std.specs.Prelude.{◌≡◌};
ghost use Rattle.ynl_c.specs.Behind as spec;

use crate::desk::DeskFault;

/// The number of how a call ended.
pub fn status_of(ended: Result<(), DeskFault>) -> u32
    ensures { result ≡ spec.status_of ended }
{
    match ended {
        Ok(()) => 0,
        Err(DeskFault::NoMemory) => 1,
        Err(DeskFault::Config(_)) => 2,
        Err(DeskFault::Line(_)) => 3,
        Err(DeskFault::NoRoom) => 4,
        Err(DeskFault::Closed) => 5,
        Err(DeskFault::Label) => 6,
    }
}
