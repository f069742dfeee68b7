//! The first request of a leaf that may be placed.

ghost use Rattle.std.specs.Prelude.{◌≡◌, option_map};
ghost use Rattle.ynl_lanes.specs.lane.Rows.{IsUse};
ghost use Rattle.ynl_inventory.specs.Parts.{app_row};
ghost use Rattle.ynl_cluster.specs.seating.Seating.{ticket_on};
ghost use Rattle.ynl_search.specs.InLeaf.{first_own, gives_ask, gives_master};
ghost use Rattle.ynl_search.specs.Leaves.{passes_ask};
ghost use Rattle.ynl_search.specs.notes.Lanes.{IsLaneOfSome};

use crate::found::Found;
use crate::leaf::LeafTests;
use crate::lowest::{SizeTest, lowest};
use ynl_inventory::Inventory;
use ynl_lanes::lane::{Kind, Lane, Request};
use ynl_resource::{Resource, Size};
use ynl_tables::apps::AppRow;
use ynl_tables::containers::Role;

/// The ticket of an application on a partition, if it has one.
pub fn ticket_of(row: &AppRow, p: u8) -> Option<u32>
    ensures { result ≡ ticket_on p (app_row row.now) }
{
    let ticket = if row.home == p {
        row.tickets.home
    } else {
        row.tickets.default
    };
    ticket.get()
}

/// Whether an ask of a user that uses so much may be placed.
#[derive(Drop)]
struct OwnTest<'a> {
    tests: &'a LeafTests,
    used: Resource,
    ghost small: { IsUse used },
}

impl SizeTest for OwnTest<'_> {
    ghost passes = { λ t size. passes_ask t.tests.now t.used size };

    fn passes(&self, size: &Size) -> bool {
        self.tests.allows_ask(&self.used, size)
    }
}

/// The masters of a leaf on a partition.
#[derive(Drop)]
struct Masters<'a> {
    inventory: &'a Inventory,
    lane: &'a Lane,
    partition: u8,
    tests: &'a LeafTests,
}

impl Request<Found> for Masters<'_> {
    ghost gives = { λ m n. gives_master m.inventory.now.rows m.lane.now.seats m.partition
        m.tests.now n };

    fn of(&self, app: u32) -> Option<Found> {
        let row = self.inventory.live_app(app)?;
        let used = self.lane.find_used(ticket_of(row, self.partition)?)?;
        if self.tests.allows_master(&used, &row.master_size) {
            Some(Found {
                app,
                role: Role::Master,
                size: row.master_size,
            })
        } else {
            None
        }
    }
}

/// The asks of a leaf for a partition.
#[derive(Drop)]
struct Asks<'a> {
    inventory: &'a Inventory,
    lane: &'a Lane,
    partition: u8,
    tests: &'a LeafTests,
}

impl Request<Found> for Asks<'_> {
    ghost gives = { λ a n. gives_ask a.inventory.now.rows a.lane.now.seats a.partition
        a.tests.now n };

    fn of(&self, app: u32) -> Option<Found> {
        let row = self.inventory.live_app(app)?;
        let used = self.lane.find_used(ticket_of(row, self.partition)?)?;
        let test = OwnTest {
            tests: self.tests,
            used,
        };
        let ask = lowest(row.asks.as_slice(), self.partition, &test)?;
        Some(Found {
            app,
            role: Role::Ask {
                partition: ask.partition,
                priority: ask.priority,
            },
            size: ask.size,
        })
    }
}

/// The ticket of what was found.
fn ticket(found: &Option<(u32, Found)>) -> Option<u32>
    ensures { result ≡ option_map (λ e. e.0) found.now }
{
    match found {
        Some(found) => Some(found.0),
        None => None,
    }
}

/// The first request of a leaf that may be placed: of the first application in its lane of which one may. An application
/// waits for its master or for what it asks, and never for both.
pub(crate) fn first_own(
    inventory: &Inventory,
    lane: &Lane,
    partition: u8,
    tests: &LeafTests,
) -> Option<Found>
    requires { IsLaneOfSome inventory.now.rows partition lane.now.seats }
    ensures { result ≡ first_own inventory.now.rows lane.now.seats partition tests.now }
{
    let users = tests.user_limits()?;
    let masters = Masters {
        inventory,
        lane,
        partition,
        tests,
    };
    let master = lane.first(Kind::Master, &users, &masters, None);
    let before = ticket(&master);
    let asks = Asks {
        inventory,
        lane,
        partition,
        tests,
    };
    if let Some((_, ask)) = lane.first(Kind::Ask, &users, &asks, before) {
        return Some(ask);
    }
    let (_, found) = master?;
    Some(found)
}
