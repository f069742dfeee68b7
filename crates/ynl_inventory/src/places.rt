//! Places for the chains of an application's containers.

ghost use Rattle.std.specs.Prelude.{◌≡◌, ◌<◌, nat_eq, IfSome, IsOk, IsTrue, OnOk};
ghost use Rattle.std.specs.Map.{lookup};
ghost use Rattle.ynl_slots.specs.Slots.{IsLive};
ghost use Rattle.ynl_inventory.specs.Parts.{HasGuestPlaces, HasMorePlaces};

use crate::partition::Partition;
use std::alloc::AllocError;
use ynl_tables::apps::{Apps, Ask};

/// How many numbers there are for partitions.
const NUMBERS: usize = 256;

/// Makes a place for the chain of a partition. It fails if memory is refused.
pub(crate) fn reserve_place(apps: &mut Apps, app: u32, p: u8) -> Result<(), AllocError>
    requires { IsLive app apps.old.entries }
    ensures more { HasMorePlaces app apps.old apps.new }
    ensures place { OnOk result (IfSome (lookup (nat_eq app) apps.new.entries) (λ row. IsLive p row.chains)) }
{
    apps.reserve_chain(app, p)?;
    Ok(())
}

/// Makes a place for the chain of a partition, if that takes guests.
fn reserve_guest(apps: &mut Apps, app: u32, p: u8, guests: bool) -> Result<(), AllocError>
    requires { IsLive app apps.old.entries }
    ensures more { HasMorePlaces app apps.old apps.new }
    ensures place { OnOk result (IsTrue guests
        → IfSome (lookup (nat_eq app) apps.new.entries) (λ row. IsLive p row.chains)) }
{
    if !guests {
        return Ok(());
    }
    reserve_place(apps, app, p)
}

/// Makes places for the chains of all partitions that take guests.
fn reserve_guests(apps: &mut Apps, partitions: &[Partition], app: u32) -> Result<(), AllocError>
    requires { IsLive app apps.old.entries }
    ensures more { HasMorePlaces app apps.old apps.new }
    ensures places { OnOk result (IfSome (lookup (nat_eq app) apps.new.entries)
        (λ row. HasGuestPlaces partitions.now row.chains)) }
{
    let count = partitions.len().min(NUMBERS);
    for p in 0..count {
        reserve_guest(apps, app, p as u8, partitions[p].guests)?;
    }
    Ok(())
}

/// Makes the places that an application needs to ask: for containers on DEFAULT, which may stand
/// elsewhere as guests. It fails if memory is refused.
pub(crate) fn reserve_for_ask(
    apps: &mut Apps,
    partitions: &[Partition],
    app: u32,
    ask: &Ask,
) -> Result<(), AllocError>
    requires { IsLive app apps.old.entries }
    ensures more { HasMorePlaces app apps.old apps.new }
    ensures places { OnOk result (0 < ask.now.count → ask.now.partition ≡ 0
        → IfSome (lookup (nat_eq app) apps.new.entries)
        (λ row. HasGuestPlaces partitions.now row.chains)) }
    ensures no_count { ask.now.count ≡ 0 → IsOk result }
{
    if ask.count == 0 || ask.partition != 0 {
        return Ok(());
    }
    reserve_guests(apps, partitions, app)?;
    Ok(())
}
