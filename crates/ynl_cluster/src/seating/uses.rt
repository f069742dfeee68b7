//! What the user of an application uses of a partition in its leaf.

ghost use Rattle.std.specs.Prelude.{◌≡◌, Bool, true, IfSome, IsSome, Some, nat_eq, option_map, unwrap_or};
ghost use Rattle.std.specs.Map.{lookup};
ghost use Rattle.ynl_resource.specs.Amounts.{plus};
ghost use Rattle.ynl_slots.specs.Slots.{IsLive};
ghost use Rattle.ynl_lanes.specs.lane.Rows.{IsUse};
ghost use Rattle.ynl_lanes.specs.lane.Seats.{IsSeat};
ghost use Rattle.ynl_lanes.specs.table.Lanes.{Changes, IsLaneAt, SetsUsed, lane_at};
ghost use Rattle.ynl_inventory.specs.Parts.{app_row};
ghost use Rattle.ynl_cluster.specs.seating.Seating.{ticket_on, user_use};
ghost use Rattle.ynl_cluster.specs.seating.Steps.{AreSeatedButFor, AreUsedBut, OnlyIf};

use crate::seating::waits::ticket_on;
use ynl_inventory::Inventory;
use ynl_lanes::table::Lanes;
use ynl_resource::{Resource, Size};
use ynl_tables::apps::AppRow;

/// What the user of an application's seat on a partition uses, as the seat shows it.
fn used_at(lanes: &Lanes, row: &AppRow, p: u8) -> Resource
    requires ticket { IsSome (ticket_on p (app_row row.now)) }
    requires lane { IsLaneAt p row.now.leaf lanes.now }
    requires seat { IsSeat (unwrap_or (ticket_on p (app_row row.now)) 0)
        (lane_at p row.now.leaf lanes.now).seats }
    ensures { option_map (λ seat. seat.used)
        (lookup (nat_eq (unwrap_or (ticket_on p (app_row row.now)) 0))
        (lane_at p row.now.leaf lanes.now).seats) ≡ Some result }
{
    let ticket = ticket_on(p, row);
    lanes.lane(p as usize, row.leaf as usize).used(ticket)
}

/// The same from now on.
fn set_used_at(lanes: &mut Lanes, row: &AppRow, p: u8, used: Resource)
    requires ticket { IsSome (ticket_on p (app_row row.now)) }
    requires lane { IsLaneAt p row.now.leaf lanes.old }
    requires seat { IsSeat (unwrap_or (ticket_on p (app_row row.now)) 0)
        (lane_at p row.now.leaf lanes.old).seats }
    requires used { IsUse used }
    ensures { Changes p row.now.leaf
        (SetsUsed (unwrap_or (ticket_on p (app_row row.now)) 0) used) lanes.old lanes.new }
{
    let ticket = ticket_on(p, row);
    lanes.set_used(p as usize, row.leaf as usize, ticket, used);
}

/// The user of an application uses so much more of a partition in its leaf, where the lanes are those of the rows but for that,
/// and perhaps for what waits of the application.
pub fn use_more(inventory: &Inventory, lanes: &mut Lanes, app: u32, p: u8, size: Size)
    requires live { IsLive app inventory.now.rows.apps }
    requires start { AreUsedBut (OnlyIf true app) app p (λ before after. after ≡ plus before size)
        inventory.now.rows lanes.old }
    requires small { IfSome (lookup (nat_eq app) inventory.now.rows.apps)
        (λ row. IsUse (user_use inventory.now.rows p row.leaf row.user)) }
    ensures { (anew : Bool) → AreUsedBut (OnlyIf anew app) app p
        (λ before after. after ≡ plus before size) inventory.now.rows lanes.old
        → AreSeatedButFor (OnlyIf anew app) inventory.now.rows lanes.new }
{
    let row = inventory.app(app);
    let used = used_at(lanes, row, p);
    set_used_at(lanes, row, p, used.add(size.amount()));
}

/// And so much less.
pub fn use_less(inventory: &Inventory, lanes: &mut Lanes, app: u32, p: u8, size: Size)
    requires live { IsLive app inventory.now.rows.apps }
    requires start { AreUsedBut (OnlyIf true app) app p (λ before after. before ≡ plus after size)
        inventory.now.rows lanes.old }
    requires small { IfSome (lookup (nat_eq app) inventory.now.rows.apps)
        (λ row. IsUse (user_use inventory.now.rows p row.leaf row.user)) }
    ensures { (anew : Bool) → AreUsedBut (OnlyIf anew app) app p
        (λ before after. before ≡ plus after size) inventory.now.rows lanes.old
        → AreSeatedButFor (OnlyIf anew app) inventory.now.rows lanes.new }
{
    let row = inventory.app(app);
    let used = used_at(lanes, row, p);
    set_used_at(lanes, row, p, used.sub(size.amount()));
}
