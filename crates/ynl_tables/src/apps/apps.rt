//! The live applications of a cluster.

ghost use Rattle.std.specs.Prelude.{◌≡◌, ◌<◌, ◌≤◌, ◌+◌, ◌++◌, ◌∷◌, [], length, nat_eq, option_copied, Some, IsSome, IsOk, OnOk, OnErr, IfSome};
ghost use Rattle.std.specs.Map.{lookup};
ghost use Rattle.ynl_slots.specs.Slots.{IsLive, IsUnused, HasDistinctNumbers, without, with_row};
ghost use Rattle.ynl_tables.specs.apps.Asks.{find_ask, with_ask, with_one_taken};
ghost use Rattle.ynl_tables.specs.apps.Chains.{with_place};
ghost use Rattle.ynl_tables.specs.apps.Apps.{with_app};

use crate::apps::app::{AppRow, Tickets};
use crate::apps::asks::Ask;
use std::alloc::{AllocError, Global};
use std::marker::Model;
use std::ops::Index;
use ynl_slots::{Chain, MaybeRow, Slots};

/// The live applications of a cluster under numbers. An application is found by its number in constant time. A contract
/// sees the applications under their numbers, in the order in which they were added, and how many more take no memory.
#[derive(Drop)]
pub struct Apps {
    rows: Slots<AppRow>,
}

impl Model for Apps {
    ghost use Rattle.ynl_slots.specs.Slots.{Numbered, HasDistinctNumbers};
    ghost use Rattle.ynl_tables.specs.declared.apps.app.AppRow.{AppRow};

    ghost Value = { Numbered AppRow };

    ghost view = { λ a. a.rows };

    ghost invariant = { λ a. HasDistinctNumbers a.rows.entries };
}

impl Apps {
    /// No applications. It takes no memory.
    pub fn new(alloc: Global) -> Apps
        ensures { result.entries ≡ [] }
    {
        Apps {
            rows: Slots::new(alloc),
        }
    }

    /// How many applications there are.
    pub fn len(&self) -> usize
        ensures value { result ≡ length self.now.entries }
        ensures distinct { HasDistinctNumbers self.now.entries }
    {
        self.rows.len()
    }

    /// The application under a number, if there is one.
    pub fn get(&self, number: u32) -> Option<&AppRow>
        ensures { option_copied result ≡ lookup (nat_eq number) self.now.entries }
    {
        self.rows.get(number)
    }

    /// Reserves room for one more application. It fails if memory is refused, and if there are 2^32 - 1 applications.
    pub fn reserve_one(&mut self) -> Result<(), AllocError>
        ensures apps { self.new ≡ record self.old { room = self.new.room } }
        ensures ok { OnOk result (0 < self.new.room) }
        ensures had_room { 0 < self.old.room → IsOk result }
        ensures room { self.old.room ≤ self.new.room }
    {
        self.rows.reserve_one()
    }

    /// An application comes last. It returns the number.
    pub fn add(&mut self, app: AppRow) -> u32
        requires { 0 < self.old.room }
        ensures entries { self.new.entries ≡ self.old.entries ++ (result, app) ∷ [] }
        ensures unused { IsUnused result self.old.entries }
        ensures room { self.old.room ≡ self.new.room + 1 }
    {
        self.rows.push(app)
    }

    /// Takes out the application under a number. It takes no memory.
    pub fn remove(&mut self, number: u32) -> AppRow
        requires { IsLive number self.old.entries }
        ensures value { lookup (nat_eq number) self.old.entries ≡ Some result }
        ensures entries { self.new.entries ≡ without number self.old.entries }
        ensures room { self.old.room ≤ self.new.room }
    {
        self.rows.remove(number)
    }

    /// An ask takes the place of the one of its partition and priority, or comes last; with count 0 that one goes. It
    /// takes memory only for a new ask, and fails if that is refused.
    pub fn set_ask(&mut self, number: u32, ask: Ask) -> Result<(), AllocError>
        requires { IsLive number self.old.entries }
        ensures ok { OnOk result (self.new ≡ with_app number (λ app.
            record app { asks = with_ask ask app.asks }) self.old) }
        ensures err { OnErr result (self.new ≡ self.old) }
        ensures no_count { ask.count ≡ 0 → IsOk result }
        ensures there { IfSome (lookup (nat_eq number) self.old.entries) (λ app.
            IsSome (find_ask ask.partition ask.priority app.asks) → IsOk result) }
    {
        let row = &mut self.rows[number];
        row.asks.set(ask)
    }

    /// One container of the ask of a partition and a priority was placed: its count falls by 1, and at 0 it goes. It
    /// takes no memory.
    pub fn take_one(&mut self, number: u32, partition: u8, priority: u32)
        requires { IsLive number self.old.entries }
        ensures { self.new ≡ with_app number (λ app.
            record app { asks = with_one_taken partition priority app.asks }) self.old }
    {
        let row = &mut self.rows[number];
        row.asks.take_one(partition, priority);
    }

    /// Makes a place for the chain of a partition, if it has none. It fails if memory is refused.
    pub fn reserve_chain(&mut self, number: u32, partition: u8) -> Result<(), AllocError>
        requires { IsLive number self.old.entries }
        ensures ok { OnOk result (self.new ≡ with_app number (λ app.
            record app { chains = with_place partition app.chains }) self.old) }
        ensures err { OnErr result (self.new ≡ self.old) }
        ensures there { IfSome (lookup (nat_eq number) self.old.entries) (λ app.
            IsLive partition app.chains → IsOk result) }
        ensures place { OnOk result (IfSome (lookup (nat_eq number) self.new.entries) (λ app.
            IsLive partition app.chains)) }
    {
        let row = &mut self.rows[number];
        row.chains.reserve(partition)
    }

    /// Sets the chain of a partition that has a place. It takes no memory.
    pub fn set_chain(&mut self, number: u32, partition: u8, chain: Chain)
        requires live { IsLive number self.old.entries }
        requires place { IfSome (lookup (nat_eq number) self.old.entries) (λ app.
            IsLive partition app.chains) }
        ensures { self.new ≡ with_app number (λ app.
            record app { chains = with_row partition chain app.chains }) self.old }
    {
        let row = &mut self.rows[number];
        row.chains.set(partition, chain);
    }

    /// Sets the number of an application's master.
    pub fn set_master(&mut self, number: u32, master: MaybeRow)
        requires { IsLive number self.old.entries }
        ensures { self.new ≡ with_app number (λ app. record app { master = master }) self.old }
    {
        let row = &mut self.rows[number];
        row.master = master;
    }

    /// Sets an application's tickets.
    pub fn set_tickets(&mut self, number: u32, tickets: Tickets)
        requires { IsLive number self.old.entries }
        ensures { self.new ≡ with_app number (λ app. record app { tickets = tickets }) self.old }
    {
        let row = &mut self.rows[number];
        row.tickets = tickets;
    }
}

impl Index<u32> for Apps {
    type Output = AppRow;

    ghost can_index = { λ apps number. IsLive number apps.entries };

    ghost index_gives = { λ apps number app. lookup (nat_eq number) apps.entries ≡ Some app };

    fn index(&self, number: u32) -> &AppRow {
        &self.rows[number]
    }
}
