//! The first guest of a leaf.

ghost use Rattle.std.specs.Prelude.{◌≡◌, IsTrue};
ghost use Rattle.ynl_resource.specs.Amounts.{fits_in};
ghost use Rattle.ynl_search.specs.Guests.{first_guest, gives_guest};
ghost use Rattle.ynl_search.specs.notes.Lanes.{IsLaneOfSome};
ghost use Rattle.ynl_search.specs.limits.Raised.{guests-below};

use crate::found::Found;
use crate::lowest::{SizeTest, lowest};
use ynl_inventory::Inventory;
use ynl_lanes::firsts::Test;
use ynl_lanes::lane::{Kind, Lane, Request};
use ynl_lanes::lows::{UserLow, UserTest};
use ynl_resource::{Resource, Size};
use ynl_tables::containers::Role;

/// Whether a size fits in a room.
#[derive(Drop)]
struct FitsIn {
    room: Resource,
}

impl SizeTest for FitsIn {
    ghost passes = { λ t size. fits_in size t.room };

    fn passes(&self, size: &Size) -> bool {
        size.amount().fits_in(self.room)
    }
}

impl Test<UserLow> for FitsIn {
    ghost passes = { λ t user. IsTrue (fits_in user.low t.room) };

    ghost passes_below = { guests-below };

    fn passes(&self, value: &UserLow) -> bool {
        value.low.fits(&self.room)
    }
}

/// A guest has no limit, so only what waits of a user tells whether the user may have a guest.
impl UserTest for FitsIn {
    ghost may = { λ t used size. IsTrue (fits_in size t.room) };

    ghost passes_may = { λ test used size may. may };

    fn room(&self, _used: Resource) -> Option<Resource> {
        Some(self.room)
    }
}

/// The asks of a leaf for DEFAULT that fit in a room.
#[derive(Drop)]
struct Guests<'a> {
    inventory: &'a Inventory,
    room: Resource,
}

impl Request<Found> for Guests<'_> {
    ghost gives = { λ g n. gives_guest g.inventory.now.rows g.room n };

    fn of(&self, app: u32) -> Option<Found> {
        let row = self.inventory.live_app(app)?;
        let test = FitsIn { room: self.room };
        let ask = lowest(row.asks.as_slice(), 0, &test)?;
        Some(Found {
            app,
            role: Role::Ask {
                partition: ask.partition,
                priority: ask.priority,
            },
            size: ask.size,
        })
    }
}

/// The first ask of a leaf that a node with so much free may take as a guest, by the leaf's lane on DEFAULT.
pub(crate) fn first_guest(inventory: &Inventory, lane: &Lane, room: Resource) -> Option<Found>
    requires { IsLaneOfSome inventory.now.rows 0 lane.now.seats }
    ensures { result ≡ first_guest inventory.now.rows lane.now.seats room }
{
    let guests = Guests { inventory, room };
    let (_, found) = lane.first(Kind::Ask, &FitsIn { room }, &guests, None)?;
    Some(found)
}
