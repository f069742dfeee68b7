//! The seats of applications that come and go.

ghost use Rattle.std.specs.Prelude.{◌≡◌, IfSome, IsSome, OnOk, nat_eq, unwrap_or};
ghost use Rattle.std.specs.Map.{lookup};
ghost use Rattle.ynl_slots.specs.Slots.{IsLive};
ghost use Rattle.ynl_tables.specs.declared.apps.app.Tickets.{Tickets as TicketPair};
ghost use Rattle.ynl_lanes.specs.lane.Seats.{IsSeat};
ghost use Rattle.ynl_lanes.specs.table.Lanes.{Changes, IsLaneAt, Removes, lane_at};
ghost use Rattle.ynl_inventory.specs.Rows.{Rows};
ghost use Rattle.ynl_inventory.specs.Changes.{with_app_gone, with_tickets};
ghost use Rattle.ynl_inventory.specs.Sound.{OwnsNoContainers};
ghost use Rattle.ynl_inventory.specs.Parts.{app_row};
ghost use Rattle.ynl_cluster.specs.seating.Seating.{AreSeated, ticket_on};
ghost use Rattle.ynl_cluster.specs.seating.Steps.{AreSeatedBut, IsReserved, IsUnseated};

use crate::seating::entries::enter;
use crate::seating::waits::ticket_on;
use std::alloc::AllocError;
use ynl_inventory::Inventory;
use ynl_lanes::table::Lanes;
use ynl_slots::MaybeRow;
use ynl_tables::apps::{AppRow, Tickets};

/// Takes all memory that the seats of a user's next application of a leaf need, so `seat` takes none. It fails if memory is
/// refused, and where `Lanes::reserve` does.
pub fn reserve(lanes: &mut Lanes, home: u8, leaf: u32, user: u32) -> Result<(), AllocError>
    requires home { IsLaneAt home leaf lanes.old }
    requires default { IsLaneAt 0 leaf lanes.old }
    ensures seated { (v : Rows) → AreSeated v lanes.old → AreSeated v lanes.new }
    ensures ok { OnOk result (IsReserved home leaf user lanes.new) }
{
    lanes.reserve(home as usize, leaf as usize, user)?;
    if home == 0 {
        return Ok(());
    }
    lanes.reserve(0, leaf as usize, user)
}

/// The seats of an application that came last are added.
fn add_seats(inventory: &Inventory, lanes: &mut Lanes, app: u32) -> Tickets
    requires live { IsLive app inventory.now.rows.apps }
    requires start { IsUnseated app inventory.now.rows lanes.old }
    ensures { AreSeatedBut app (with_tickets app result inventory.now.rows) lanes.new }
{
    let row = inventory.app(app);
    let home = lanes.add(row.home as usize, row.leaf as usize, app);
    if row.home == 0 {
        return Tickets {
            home: MaybeRow::some(home),
            default: MaybeRow::NONE,
        };
    }
    let default = lanes.add(0, row.leaf as usize, app);
    Tickets {
        home: MaybeRow::some(home),
        default: MaybeRow::some(default),
    }
}

/// An application that came last, for which there is room, gets its seats and its tickets. It takes no memory.
pub fn seat(inventory: &mut Inventory, lanes: &mut Lanes, app: u32)
    requires live { IsLive app inventory.old.rows.apps }
    requires start { IsUnseated app inventory.old.rows lanes.old }
    ensures tickets { (tickets : TicketPair) × (inventory.new
        ≡ record inventory.old { rows = with_tickets app tickets inventory.old.rows }) }
    ensures seated { AreSeated inventory.new.rows lanes.new }
{
    let tickets = add_seats(inventory, lanes, app);
    inventory.set_tickets(app, tickets);
    enter(inventory, lanes, app);
}

/// The seat of an application on a partition goes.
fn remove_at(lanes: &mut Lanes, row: &AppRow, p: u8)
    requires ticket { IsSome (ticket_on p (app_row row.now)) }
    requires lane { IsLaneAt p row.now.leaf lanes.old }
    requires seat { IsSeat (unwrap_or (ticket_on p (app_row row.now)) 0)
        (lane_at p row.now.leaf lanes.old).seats }
    ensures { Changes p row.now.leaf (Removes (unwrap_or (ticket_on p (app_row row.now)) 0))
        lanes.old lanes.new }
{
    let ticket = ticket_on(p, row);
    lanes.remove(p as usize, row.leaf as usize, ticket);
}

/// The seats of an application without containers go, before it is live no more. It takes no memory.
pub fn unseat(inventory: &Inventory, lanes: &mut Lanes, app: u32)
    requires live { IsLive app inventory.now.rows.apps }
    requires empty { OwnsNoContainers inventory.now.rows app }
    requires start { AreSeated inventory.now.rows lanes.old }
    ensures { IfSome (lookup (nat_eq app) inventory.now.rows.apps)
        (λ row. AreSeated (with_app_gone app row.tenant row.turn inventory.now.rows) lanes.new) }
{
    let row = inventory.app(app);
    remove_at(lanes, row, row.home);
    if row.home == 0 {
        return;
    }
    remove_at(lanes, row, 0);
}
