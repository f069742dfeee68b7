//! Readings that are told together: each has its value, or all have the earliest fault.

ghost use Rattle.std.specs.Prelude.{◌≡◌, IfOk};
ghost use Rattle.ynl_config.specs.Earliest.{items_in};
ghost use Rattle.ynl_config.specs.Earliest as spec;

use crate::faults::ConfigFault;
use std::alloc::AllocError;

/// Both values, or the earlier fault.
pub(crate) fn both<A: Drop, B: Drop>(
    first: Result<A, ConfigFault>,
    second: Result<B, ConfigFault>,
) -> Result<(A, B), ConfigFault>
    ensures { result ≡ spec.both first second }
{
    match first {
        Ok(first) => match second {
            Ok(second) => Ok((first, second)),
            Err(fault) => Err(fault),
        },
        Err(fault) => match second {
            Ok(_) => Err(fault),
            Err(other) => Err(fault.earlier(other)),
        },
    }
}

/// The rows, and one more.
pub(crate) fn and_one<T: Drop>(
    rows: Result<Vec<T>, ConfigFault>,
    row: Result<T, ConfigFault>,
) -> Result<Result<Vec<T>, ConfigFault>, AllocError>
    ensures { IfOk result (λ new. items_in new ≡ spec.and_one (items_in rows) row) }
{
    match both(rows, row) {
        Ok((mut rows, row)) => {
            rows.push(row)?;
            Ok(Ok(rows))
        }
        Err(fault) => Ok(Err(fault)),
    }
}
