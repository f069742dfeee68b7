//! The applications of a lane's seats.

ghost use Rattle.std.specs.Prelude.{◌≡◌, ◌+◌, map, OnOk};
ghost use Rattle.ynl_lanes.specs.lane.Apps.{apps_before};
ghost use Rattle.ynl_lanes.specs.lane.Rows.{IsSeated};

use crate::lane::levels::{Level, seat_at};
use crate::lane::rows::Rows;
use std::alloc::AllocError;

impl Rows {
    /// The application of the seat in a slot, if one stands there, comes last.
    fn add_app(&self, slot: usize, apps: &mut Vec<u32>) -> Result<(), AllocError>
        requires { IsSeated self.now }
        ensures { OnOk result (apps.old.items ≡ apps_before slot self.now.seats.entries → apps.new.items ≡ apps_before (slot + 1) self.now.seats.entries) }
    {
        if let Some((_ticket, row)) = seat_at(&self.seats, Level::Lane, &self.line, slot) {
            apps.push(row.app)?;
        }
        Ok(())
    }

    /// The list becomes that of the applications of all seats, in the order of the lane. It goes from slot to slot, so it
    /// needs no sort.
    pub(crate) fn list_apps(&self, apps: &mut Vec<u32>) -> Result<(), AllocError>
        requires { IsSeated self.now }
        ensures { OnOk result (apps.new.items ≡ map (λ e. e.1.app) self.now.seats.entries) }
    {
        apps.clear();
        apps.reserve(self.seats.len())?;
        for slot in 0..self.line.len() {
            self.add_app(slot, apps)?;
        }
        Ok(())
    }
}
