//! What waits of an application is entered anew.

ghost use Rattle.std.specs.Prelude.{IsSome, unwrap_or};
ghost use Rattle.ynl_slots.specs.Slots.{IsLive};
ghost use Rattle.ynl_lanes.specs.lane.Seats.{IsSeat};
ghost use Rattle.ynl_lanes.specs.table.Lanes.{Changes, Enters, IsLaneAt, lane_at};
ghost use Rattle.ynl_inventory.specs.Parts.{app_row};
ghost use Rattle.ynl_cluster.specs.seating.Seating.{AreSeated, ticket_on, waits_if};
ghost use Rattle.ynl_cluster.specs.seating.Steps.{AreSeatedBut};

use crate::seating::waits::{ticket_on, waits_on};
use ynl_inventory::Inventory;
use ynl_lanes::table::Lanes;
use ynl_tables::apps::AppRow;

/// What waits at an application's seat on a partition is entered anew.
fn enter_at(lanes: &mut Lanes, row: &AppRow, p: u8, runs: bool)
    requires ticket { IsSome (ticket_on p (app_row row.now)) }
    requires lane { IsLaneAt p row.now.leaf lanes.old }
    requires seat { IsSeat (unwrap_or (ticket_on p (app_row row.now)) 0)
        (lane_at p row.now.leaf lanes.old).seats }
    ensures { Changes p row.now.leaf (Enters (unwrap_or (ticket_on p (app_row row.now)) 0)
        (waits_if runs p (app_row row.now))) lanes.old lanes.new }
{
    let ticket = ticket_on(p, row);
    let waits = waits_on(runs, p, row);
    lanes.enter(p as usize, row.leaf as usize, ticket, &waits);
}

/// What waits at the seats of an application is entered anew, where the lanes are those of the rows but for that.
pub fn enter(inventory: &Inventory, lanes: &mut Lanes, app: u32)
    requires live { IsLive app inventory.now.rows.apps }
    requires start { AreSeatedBut app inventory.now.rows lanes.old }
    ensures { AreSeated inventory.now.rows lanes.new }
{
    let row = inventory.app(app);
    let runs = inventory.runs(app);
    enter_at(lanes, row, row.home, runs);
    if row.home == 0 {
        return;
    }
    enter_at(lanes, row, 0, runs);
}
