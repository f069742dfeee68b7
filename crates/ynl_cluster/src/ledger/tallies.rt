//! How containers count.

ghost use Rattle.std.specs.Prelude.{◌≡◌};
ghost use Rattle.ynl_cluster.specs.ledger.Ledger.{counted_as, tally_of};

use crate::uses::{Counted, Tally};
use ynl_resource::Size;
use ynl_tables::containers::Role;

/// As what a container that stands on a partition counts there.
fn counted_as(partition: u8, role: Role) -> Counted
    ensures { result ≡ counted_as partition role }
{
    match role {
        Role::Master => Counted::Master,
        Role::Ask {
            partition: asked,
            ..
        } => {
            if asked == 0 && partition != 0 {
                Counted::Guest
            } else {
                Counted::Asked
            }
        }
    }
}

/// How a container of this role and size counts in the uses of the partition on which it stands.
pub fn tally_of(partition: u8, role: Role, size: Size) -> Tally
    ensures { result ≡ tally_of partition role size }
{
    Tally {
        counted: counted_as(partition, role),
        size,
    }
}
