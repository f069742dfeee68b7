//! How far a full table grows.

ghost use Rattle.std.specs.Prelude.{◌<◌, ◌^◌};

/// A table of so many rows grows fourfold, a smaller one twofold.
const MANY: usize = 1024;

/// For how many more rows a full table of so many reserves room. The memory that a table moves out of is seldom of
/// use to another one, so a large table moves in few steps. What it reserves and does not touch is not resident.
pub(crate) fn grows_by(len: usize) -> usize
    requires { len < 2 ^ 32 }
    ensures { 0 < result }
{
    if len < MANY { 1 } else { 3 * len }
}
