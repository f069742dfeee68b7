//! The row of a live application.

ghost use Rattle.std.specs.Prelude.{◌≡◌, [], None};
ghost use Rattle.ynl_tables.specs.apps.Apps.{no_tickets};

use crate::apps::asks::Asks;
use crate::apps::chains::Chains;
use std::alloc::Global;
use ynl_resource::Size;
use ynl_slots::MaybeRow;

/// The tickets of an application in the lanes of its leaf.
#[derive(Clone, Copy)]
pub struct Tickets {
    /// In the lane of its home partition.
    pub home: MaybeRow,
    /// In the lane of DEFAULT, where that is another.
    pub default: MaybeRow,
}

/// A live application. Its tenant has its name, at its turn.
#[derive(Drop)]
pub struct AppRow {
    /// The number of its tenant.
    pub tenant: u32,
    /// How many applications were submitted to the tenant before it.
    pub turn: u32,
    /// The number of its leaf.
    pub leaf: u32,
    /// The number of its user.
    pub user: u32,
    /// The number of the partition of its master.
    pub home: u8,
    pub master_size: Size,
    /// The number of its master, once that is placed, among the containers of the home partition.
    pub master: MaybeRow,
    pub tickets: Tickets,
    pub asks: Asks,
    pub chains: Chains,
}

/// What is known of an application when it is submitted, by numbers.
#[derive(Clone, Copy)]
pub struct NewApp {
    pub tenant: u32,
    pub turn: u32,
    pub leaf: u32,
    pub user: u32,
    pub home: u8,
    pub master_size: Size,
}

impl AppRow {
    /// A new application has no containers and asks for nothing yet. It takes no memory.
    pub fn new(alloc: Global, new: NewApp) -> AppRow
        ensures { result ≡ record {
          tenant = new.tenant;
          turn = new.turn;
          leaf = new.leaf;
          user = new.user;
          home = new.home;
          master_size = new.master_size;
          master = None;
          tickets = no_tickets;
          asks = [];
          chains = [];
        } }
    {
        AppRow {
            tenant: new.tenant,
            turn: new.turn,
            leaf: new.leaf,
            user: new.user,
            home: new.home,
            master_size: new.master_size,
            master: MaybeRow::NONE,
            tickets: Tickets {
                home: MaybeRow::NONE,
                default: MaybeRow::NONE,
            },
            asks: Asks::new(alloc),
            chains: Chains::new(alloc),
        }
    }
}
