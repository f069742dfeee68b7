//! A lane: the seats of a leaf's applications on one partition, their users, and the search of them.

ghost use Rattle.std.specs.Prelude.{◌≡◌, ◌↔◌, ◌<◌, ◌-◌, ◌^◌, [], ℕ, length, map, Option, Some, None, IsSome, IsTrue, OnOk, OnErr, IfSome, nat_eq, option_map};
ghost use Rattle.std.specs.Map.{lookup};
ghost use Rattle.ynl_lanes.specs.lows.Lows.{IsBelow};
ghost use Rattle.ynl_slots.specs.Slots.{without};
ghost use Rattle.ynl_lanes.specs.lane.Kinds.{of_kind};
ghost use Rattle.ynl_lanes.specs.lane.Rows.{IsUse};
ghost use Rattle.ynl_lanes.specs.lane.Waiting.{IsWaiting};
ghost use Rattle.ynl_lanes.specs.lane.Seats.{Seat, IsSeat, Adds, each_once, with_waits, with_used, given, first_given, seats_up_to, PassesGiven};

use crate::lane::kinds::{Both, Kind};
use crate::lane::line::Line;
use crate::lane::request::Request;
use crate::lane::rows::Rows;
use crate::lane::users::{close, make_room_for};
use crate::lows::{Low, UserTest};
use std::alloc::{AllocError, Global};
use std::collections::BTreeMap;
use std::marker::Model;
use ynl_resource::Resource;
use ynl_slots::Slots;

/// The applications of a leaf that may use a partition, each with a seat, in the order of their submission. Of a seat the
/// lane has what waits there, and of a user with seats what the user uses of the partition. A contract sees the seats under
/// their tickets, in that order, and the user for whose next seat there is room. A user is known by a number.
///
/// Only `reserve_for` takes memory. A search goes from user to user, as they stand at their first seats at which something
/// waits, and passes over all who cannot be given anything.
pub struct Lane {
    rows: Rows,
    /// The number of each user's row.
    numbers: BTreeMap<u32, u32>,
    /// The number of the row of the user for whose next seat there is room. Only this user may have no seat.
    ready: Option<u32>,
}

// By hand, so that crates above call it: one that is derived is proved anew in each of them, with all that it holds.
impl Drop for Lane {
    fn drop(self) {
        let Lane {
            rows: _,
            numbers: _,
            ready: _,
        } = self;
    }
}

impl Model for Lane {
    ghost use Rattle.ynl_lanes.specs.lane.Seats.{Seats};

    ghost Value = { Seats };

    ghost use Rattle.ynl_lanes.specs.lane.Fields.{seats_of, IsLane};

    ghost view = { seats_of };

    ghost invariant = { IsLane };
}

impl Lane {
    /// No seats. It takes no memory.
    pub fn new(alloc: Global) -> Lane
        ensures seats { result.seats ≡ [] }
        ensures ready { result.ready ≡ None }
    {
        Lane {
            rows: Rows {
                seats: Slots::new(alloc),
                users: Slots::new(alloc),
                line: Line::new(),
                stands: Vec::new(alloc),
            },
            numbers: BTreeMap::new(alloc),
            ready: None,
        }
    }

    /// Whether a seat has this ticket.
    pub fn is_seat(&self, ticket: u32) -> bool
        ensures { IsTrue result ↔ IsSeat ticket self.now.seats }
    {
        self.rows.seats.get(ticket).is_some()
    }

    /// How many seats there are.
    pub fn len(&self) -> usize
        ensures { result ≡ length self.now.seats }
    {
        self.rows.seats.len()
    }

    /// How many users have a seat.
    pub fn users(&self) -> usize
        ensures { result ≡ length (each_once (map (λ e. e.1.user) self.now.seats)) }
    {
        let count = self.rows.users.len();
        match self.ready {
            Some(user) => {
                if self.rows.users[user].live == 0 {
                    count - 1
                } else {
                    count
                }
            }
            None => count,
        }
    }

    /// What the user of a seat uses of the partition, in MB and virtual cores.
    pub fn used(&self, ticket: u32) -> Resource
        requires { IsSeat ticket self.now.seats }
        ensures value { option_map (λ seat. seat.used) (lookup (nat_eq ticket) self.now.seats) ≡ Some result }
        ensures small { IsUse result }
    {
        let user = self.rows.seats[ticket].user;
        self.rows.users[user].used
    }

    /// What the user of a seat uses of the partition, in MB and virtual cores, if a seat has this ticket.
    pub fn find_used(&self, ticket: u32) -> Option<Resource>
        ensures value { result ≡ option_map (λ seat. seat.used) (lookup (nat_eq ticket) self.now.seats) }
        ensures small { IfSome result IsUse }
    {
        if self.is_seat(ticket) {
            Some(self.used(ticket))
        } else {
            None
        }
    }

    /// The list becomes that of the applications of the seats, in the order of the seats. It fails if memory is refused.
    pub fn list_apps(&self, apps: &mut Vec<u32>) -> Result<(), AllocError>
        ensures { OnOk result (apps.new.items ≡ map (λ e. e.1.app) self.now.seats) }
    {
        self.rows.list_apps(apps)
    }

    /// A size, in MB and virtual cores, that no request of a kind that waits is below. It may be below all of them.
    pub fn least(&self, kind: Kind) -> Low
        ensures { (ticket : ℕ) (seat : Seat) → lookup (nat_eq ticket) self.now.seats ≡ Some seat → IsWaiting (of_kind kind seat.waits) → IsBelow result (of_kind kind seat.waits) }
    {
        self.rows.line.root(kind).low
    }

    /// The room for a user's next seat is given up.
    fn give_up_room(&mut self)
        ensures seats { self.new.seats ≡ self.old.seats }
        ensures ready { self.new.ready ≡ None }
    {
        let Some(user) = self.ready else {
            return;
        };
        self.ready = None;
        if self.rows.users[user].live == 0 {
            close(&mut self.rows, &mut self.numbers, user);
        }
    }

    /// Takes all memory that the next seat of a user needs, so `add` takes none. It fails if memory is refused, and if there
    /// are 2^32 - 1 seats or users. Lines that are full are packed, so it takes amortized constant time.
    pub fn reserve_for(&mut self, user: u32) -> Result<(), AllocError>
        ensures seats { self.new.seats ≡ self.old.seats }
        ensures ok { OnOk result (self.new.ready ≡ Some user) }
        ensures err { OnErr result (self.new.ready ≡ None) }
    {
        self.give_up_room();
        match make_room_for(&mut self.rows, &mut self.numbers, user) {
            Ok(number) => {
                self.ready = Some(number);
                Ok(())
            }
            Err(error) => Err(error),
        }
    }

    /// One more seat, for an application of the user for whom there is room. Nothing waits there yet. It returns the ticket,
    /// which a later seat may have once this one is gone.
    pub fn add(&mut self, app: u32) -> u32
        requires { IsSome self.old.ready }
        ensures seats { IfSome self.old.ready (λ user. Adds app result user self.old.seats self.new.seats) }
        ensures small { result < 2 ^ 32 - 1 }
        ensures ready { self.new.ready ≡ None }
    {
        let Some(user) = self.ready else {
            unreachable!();
        };
        self.ready = None;
        self.rows.push(user, app)
    }

    /// What waits at a seat from now on: of each kind the least of the sizes, or `Low::NONE`.
    pub fn enter(&mut self, ticket: u32, waits: &Both<Low>)
        requires { IsSeat ticket self.old.seats }
        ensures seats { self.new.seats ≡ with_waits ticket waits.now self.old.seats }
        ensures ready { self.new.ready ≡ None }
    {
        self.give_up_room();
        self.rows.enter(ticket, waits);
    }

    /// What the user of a seat uses of the partition from now on: at most 2^48 MB and virtual cores.
    pub fn set_used(&mut self, ticket: u32, used: Resource)
        requires seat { IsSeat ticket self.old.seats }
        requires used { IsUse used }
        ensures seats { IfSome (lookup (nat_eq ticket) self.old.seats) (λ seat. self.new.seats ≡ with_used seat.user used self.old.seats) }
        ensures ready { self.new.ready ≡ None }
    {
        self.give_up_room();
        let user = self.rows.seats[ticket].user;
        self.rows.use_other(user, used);
    }

    /// The seat goes. What its user uses is forgotten with the last seat.
    pub fn remove(&mut self, ticket: u32)
        requires { IsSeat ticket self.old.seats }
        ensures seats { self.new.seats ≡ without ticket self.old.seats }
        ensures ready { self.new.ready ≡ None }
    {
        self.give_up_room();
        let nothing = Both {
            master: Low::NONE,
            ask: Low::NONE,
        };
        self.rows.enter(ticket, &nothing);
        let user = self.rows.pull(ticket);
        if self.rows.users[user].live == 0 {
            close(&mut self.rows, &mut self.numbers, user);
        }
    }

    /// The first seat, before another if there is one, at which something of a kind waits and whose application is
    /// given something. It returns the ticket and what is given. Whatever is given passes the test, so users that fail
    /// it are passed over: the test makes the search fast, and is no part of what is found.
    pub fn first<F: Copy, R: Request<F>, T: UserTest>(
        &self,
        kind: Kind,
        test: &T,
        request: &R,
        before: Option<u32>,
    ) -> Option<(u32, F)>
        requires before { IfSome before (λ ticket. IsSeat ticket self.now.seats) }
        requires passes { PassesGiven kind (T.may test.now) (R.gives request.now) self.now.seats }
        ensures { result ≡ first_given (given kind (R.gives request.now)) (seats_up_to before self.now.seats) }
    {
        let end = match before {
            Some(ticket) => self.rows.seats[ticket].slot as usize,
            None => self.rows.line.len(),
        };
        match self.rows.first(kind, test, request, end) {
            Some(found) => Some((found.ticket, found.given)),
            None => None,
        }
    }
}
