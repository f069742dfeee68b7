//! Containers come and go, and the lanes follow.

ghost use Rattle.std.specs.Prelude.{◌≡◌, Bool, false, true, IfSome, nat_eq};
ghost use Rattle.std.specs.Map.{lookup};
ghost use Rattle.ynl_resource.specs.Amounts.{plus};
ghost use Rattle.ynl_slots.specs.Slots.{IsLive};
ghost use Rattle.ynl_lanes.specs.lane.Rows.{IsUse};
ghost use Rattle.ynl_inventory.specs.Apps.{is_guest_role, is_master_role};
ghost use Rattle.ynl_inventory.specs.Changes.{partition_of_node};
ghost use Rattle.ynl_cluster.specs.seating.Seating.{AreSeated, user_use};
ghost use Rattle.ynl_cluster.specs.seating.Steps.{AreSeatedButFor, AreUsedBut, IsEnded, IsPlaced, OnlyIf, waits_anew};

use crate::seating::entries::enter;
use crate::seating::uses::{use_less, use_more};
use ynl_inventory::{Inventory, Placement};
use ynl_lanes::table::Lanes;
use ynl_tables::containers::{Container, Role};

/// Whether a container that stands on a partition is a guest there.
fn is_guest(p: u8, role: Role) -> bool
    ensures { result ≡ is_guest_role p role }
{
    match role {
        Role::Master => false,
        Role::Ask { partition, .. } => partition == 0 && p != 0,
    }
}

/// Whether a container is a master.
fn is_master(role: Role) -> bool
    ensures { result ≡ is_master_role role }
{
    match role {
        Role::Master => true,
        Role::Ask { .. } => false,
    }
}

/// The user of a container that was placed uses more, unless that is a guest.
fn count_more(inventory: &Inventory, lanes: &mut Lanes, p: u8, placed: &Placement)
    requires live { IsLive placed.now.app inventory.now.rows.apps }
    requires home { is_guest_role p placed.now.role ≡ false
        → AreUsedBut (OnlyIf true placed.now.app) placed.now.app p
        (λ before after. after ≡ plus before placed.now.size) inventory.now.rows lanes.old }
    requires small { IfSome (lookup (nat_eq placed.now.app) inventory.now.rows.apps)
        (λ row. IsUse (user_use inventory.now.rows p row.leaf row.user)) }
    ensures { (anew : Bool)
        → (is_guest_role p placed.now.role ≡ true
        → AreSeatedButFor (OnlyIf anew placed.now.app) inventory.now.rows lanes.old)
        → (is_guest_role p placed.now.role ≡ false
        → AreUsedBut (OnlyIf anew placed.now.app) placed.now.app p
        (λ before after. after ≡ plus before placed.now.size) inventory.now.rows lanes.old)
        → AreSeatedButFor (OnlyIf anew placed.now.app) inventory.now.rows lanes.new }
{
    if is_guest(p, placed.role) {
        return;
    }
    use_more(inventory, lanes, placed.app, p, placed.size);
}

/// Whether something else may wait of an application to which a container came, that asked in so many rows before.
fn waits_anew(inventory: &Inventory, placed: &Placement, asked: usize) -> bool
    requires { IsLive placed.now.app inventory.now.rows.apps }
    ensures { result ≡ waits_anew inventory.now.rows placed.now.app placed.now.role asked }
{
    is_master(placed.role) || inventory.app(placed.app).asks.as_slice().len() != asked
}

/// The lanes follow a container that was placed on a partition, when its application asked in so many rows.
pub fn follow_placement(
    inventory: &Inventory,
    lanes: &mut Lanes,
    p: u8,
    placed: &Placement,
    asked: usize,
)
    requires live { IsLive placed.now.app inventory.now.rows.apps }
    requires start { IsPlaced placed.now.node placed.now.app placed.now.role placed.now.size
        asked inventory.now.rows lanes.old }
    requires partition { p ≡ partition_of_node inventory.now.rows.nodes placed.now.node }
    requires small { IfSome (lookup (nat_eq placed.now.app) inventory.now.rows.apps)
        (λ row. IsUse (user_use inventory.now.rows p row.leaf row.user)) }
    ensures { AreSeated inventory.now.rows lanes.new }
{
    count_more(inventory, lanes, p, placed);
    // The lanes show sizes and no counts. So what an application asks for changes there with the last container of a row.
    if waits_anew(inventory, placed, asked) {
        enter(inventory, lanes, placed.app);
    }
}

/// The user of a container that ended uses less, unless that was a guest.
fn count_less(inventory: &Inventory, lanes: &mut Lanes, p: u8, ended: &Container)
    requires live { IsLive ended.now.app inventory.now.rows.apps }
    requires home { is_guest_role p ended.now.role ≡ false
        → AreUsedBut (OnlyIf true ended.now.app) ended.now.app p
        (λ before after. before ≡ plus after ended.now.size) inventory.now.rows lanes.old }
    requires small { IfSome (lookup (nat_eq ended.now.app) inventory.now.rows.apps)
        (λ row. IsUse (user_use inventory.now.rows p row.leaf row.user)) }
    ensures { (anew : Bool)
        → (is_guest_role p ended.now.role ≡ true
        → AreSeatedButFor (OnlyIf anew ended.now.app) inventory.now.rows lanes.old)
        → (is_guest_role p ended.now.role ≡ false
        → AreUsedBut (OnlyIf anew ended.now.app) ended.now.app p
        (λ before after. before ≡ plus after ended.now.size) inventory.now.rows lanes.old)
        → AreSeatedButFor (OnlyIf anew ended.now.app) inventory.now.rows lanes.new }
{
    if is_guest(p, ended.role) {
        return;
    }
    use_less(inventory, lanes, ended.app, p, ended.size);
}

/// The lanes follow a container that ended on a partition, or went with its node.
pub fn follow_end(inventory: &Inventory, lanes: &mut Lanes, p: u8, ended: &Container)
    requires live { IsLive ended.now.app inventory.now.rows.apps }
    requires start { IsEnded p ended.now inventory.now.rows lanes.old }
    requires small { IfSome (lookup (nat_eq ended.now.app) inventory.now.rows.apps)
        (λ row. IsUse (user_use inventory.now.rows p row.leaf row.user)) }
    ensures { AreSeated inventory.now.rows lanes.new }
{
    count_less(inventory, lanes, p, ended);
    // An application that lost its master waits for one, and for nothing that it asked for. Else as much waits as before.
    if is_master(ended.role) {
        enter(inventory, lanes, ended.app);
    }
}
