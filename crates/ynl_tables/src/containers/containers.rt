//! The containers of a partition.

ghost use Rattle.std.specs.Prelude.{◌≡◌, ◌<◌, ◌≤◌, ◌+◌, ◌-◌, ◌^◌, ◌++◌, ◌∷◌, [], length, map, nat_eq, option_copied, option_map, Some, IfOk, IsOk, OnOk, IfSome};
ghost use Rattle.std.specs.Map.{lookup};
ghost use Rattle.ynl_slots.specs.Slots.{number_in, IsAfter, IsLive, IsUnused, HasDistinctNumbers, without};
ghost use Rattle.ynl_slots.specs.declared.chain.Chain.{Chain};
ghost use Rattle.ynl_tables.specs.containers.Table.{IsAbove, IsRising, number_at};
ghost use Rattle.ynl_tables.specs.containers.Chains.{IsNodeChain, IsAppChain, KeepsNodes, KeepsApps, IsFirstOfNode, IsFirstOfApp, IsNextOfNode, IsNextOfApp};

use crate::containers::container::Container;
use crate::containers::row::{ByApp, ByNode, Row};
use std::alloc::{AllocError, Global};
use std::collections::HashMap;
use std::marker::Model;
use std::ops::Index;
use ynl_slots::{Chain, Links, MaybeRow, Slots};

/// The containers of a partition under numbers. A container is found by its number or its clock in constant time. Each node
/// and each application with containers has the ends of a chain of them, which stand with its own row. A contract sees the
/// containers under their numbers, in the order of placement, which is that of their clocks; their links, which it names
/// through chains; and how many placements take no memory.
#[derive(Drop)]
pub struct Containers {
    rows: Slots<Row>,
    numbers: HashMap<u64, u32>,
}

impl Model for Containers {
    ghost use Rattle.ynl_tables.specs.containers.Table.{Table};

    ghost Value = { Table };

    ghost use Rattle.ynl_tables.specs.containers.Fields.{table_of, IsKept};

    ghost view = { table_of };

    ghost invariant = { IsKept };
}

/// The links of a row that is in no chain yet.
const UNLINKED: Links = Links {
    prev: MaybeRow::NONE,
    next: MaybeRow::NONE,
};

impl Containers {
    /// No containers. It takes no memory.
    pub fn new(alloc: Global) -> Containers
        ensures { result.entries ≡ [] }
    {
        Containers {
            rows: Slots::new(alloc),
            numbers: HashMap::new(alloc),
        }
    }

    /// How many containers there are.
    pub fn len(&self) -> usize
        ensures value { result ≡ length self.now.entries }
        ensures distinct { HasDistinctNumbers self.now.entries }
        ensures rising { IsRising self.now.entries }
    {
        self.rows.len()
    }

    /// Reserves room for one more container. It fails if memory is refused, and if there are 2^32 - 1 containers.
    pub fn reserve_one(&mut self) -> Result<(), AllocError>
        ensures table { self.new ≡ record self.old { room = self.new.room } }
        ensures ok { OnOk result (0 < self.new.room) }
        ensures had_room { 0 < self.old.room → IsOk result }
        ensures room { self.old.room ≤ self.new.room }
    {
        self.numbers.reserve(1)?;
        self.rows.reserve_one()
    }

    /// Reserves room for so many more containers. It fails if memory is refused, and past 2^32 - 1 containers.
    pub fn reserve(&mut self, count: u32) -> Result<(), AllocError>
        ensures table { self.new ≡ record self.old { room = self.new.room } }
        ensures ok { OnOk result (count ≤ self.new.room) }
        ensures had_room { count ≤ self.old.room → IsOk result }
        ensures room { self.old.room ≤ self.new.room }
    {
        self.numbers.reserve(count as usize)?;
        self.rows.reserve(count)
    }

    /// A container comes last, also in the chains of its node and of its application. It returns the number.
    pub fn place(&mut self, container: Container, of_node: &mut Chain, of_app: &mut Chain) -> u32
        requires room { 0 < self.old.room }
        requires rises { IsAbove container.clock self.old.entries }
        requires of_node { IsNodeChain self.old of_node.old container.node }
        requires of_app { IsAppChain self.old of_app.old container.app }
        ensures entries { self.new.entries ≡ self.old.entries ++ (result, container) ∷ [] }
        ensures unused { IsUnused result self.old.entries }
        ensures small { result < 2 ^ 32 - 1 }
        ensures of_node { IsNodeChain self.new of_node.new container.node }
        ensures of_app { IsAppChain self.new of_app.new container.app }
        ensures nodes { KeepsNodes container.node self.old self.new }
        ensures apps { KeepsApps container.app self.old self.new }
        ensures room { self.old.room ≤ self.new.room + 1 }
    {
        let clock = container.clock;
        let number = self.rows.push(Row {
            container,
            of_node: UNLINKED,
            of_app: UNLINKED,
        });
        of_node.append::<ByNode, Row>(&mut self.rows, number);
        of_app.append::<ByApp, Row>(&mut self.rows, number);
        match self.numbers.insert(clock, number) {
            Ok(_) => number,
            Err(_) => unreachable!(),
        }
    }

    /// The container under a number, if there is one.
    pub fn get(&self, number: u32) -> Option<&Container>
        ensures { option_copied result ≡ lookup (nat_eq number) self.now.entries }
    {
        match self.rows.get(number) {
            Some(row) => Some(&row.container),
            None => None,
        }
    }

    /// The containers in the order of placement. It fails if memory is refused.
    pub fn copies(&self, alloc: Global) -> Result<Vec<Container>, AllocError>
        ensures { IfOk result (λ list. list.items ≡ map (λ e. e.1) self.now.entries) }
    {
        let rows = self.rows.copies(alloc)?;
        containers_of(alloc, &rows)
    }

    /// The container that was placed first, if there is one.
    pub fn first(&self) -> Option<u32>
        ensures { result ≡ number_in self.now.entries 0 }
    {
        self.rows.first()
    }

    /// The container that was placed next after one, if there is one.
    pub fn next(&self, number: u32) -> Option<u32>
        requires { IsLive number self.now.entries }
        ensures { IsAfter number self.now.entries result }
    {
        self.rows.next(number)
    }

    /// The number of the container with a clock, if there is one.
    pub fn find(&self, clock: u64) -> Option<u32>
        ensures value { result ≡ number_at clock self.now.entries }
        ensures own { IfSome result (λ n.
            option_map (λ c. c.clock) (lookup (nat_eq n) self.now.entries) ≡ Some clock) }
    {
        self.numbers.get(&clock).copied()
    }

    /// The first container of a node by the node's chain, if there is one.
    pub fn first_of_node(&self, chain: &Chain) -> Option<u32>
        ensures { IsFirstOfNode self.now chain.now result }
    {
        // Opens the table, in which no two containers have one number.
        let _ = &self.rows;
        chain.first()
    }

    /// The first container of an application by the application's chain, if there is one.
    pub fn first_of_app(&self, chain: &Chain) -> Option<u32>
        ensures { IsFirstOfApp self.now chain.now result }
    {
        // Opens the table, as for a node.
        let _ = &self.rows;
        chain.first()
    }

    /// The next container of the same node, if there is one.
    pub fn next_of_node(&self, number: u32) -> Option<u32>
        requires { IsLive number self.now.entries }
        ensures { IsNextOfNode self.now number result }
    {
        let links = self.rows[number].of_node;
        links.next.get()
    }

    /// The next container of the same application, if there is one.
    pub fn next_of_app(&self, number: u32) -> Option<u32>
        requires { IsLive number self.now.entries }
        ensures { IsNextOfApp self.now number result }
    {
        let links = self.rows[number].of_app;
        links.next.get()
    }

    /// Takes out the container under a number, also from the chains of its node and of its application. It takes no memory.
    pub fn remove(&mut self, number: u32, of_node: &mut Chain, of_app: &mut Chain) -> Container
        requires live { IsLive number self.old.entries }
        requires of_node { IfSome (lookup (nat_eq number) self.old.entries)
            (λ c. IsNodeChain self.old of_node.old c.node) }
        requires of_app { IfSome (lookup (nat_eq number) self.old.entries)
            (λ c. IsAppChain self.old of_app.old c.app) }
        ensures value { lookup (nat_eq number) self.old.entries ≡ Some result }
        ensures entries { self.new.entries ≡ without number self.old.entries }
        ensures of_node { IsNodeChain self.new of_node.new result.node }
        ensures of_app { IsAppChain self.new of_app.new result.app }
        ensures nodes { KeepsNodes result.node self.old self.new }
        ensures apps { KeepsApps result.app self.old self.new }
        ensures room { self.old.room ≤ self.new.room }
    {
        of_node.remove::<ByNode, Row>(&mut self.rows, number);
        of_app.remove::<ByApp, Row>(&mut self.rows, number);
        let row = self.rows.remove(number);
        let _number = self.numbers.remove(&row.container.clock);
        row.container
    }
}

impl Index<u32> for Containers {
    type Output = Container;

    ghost can_index = { λ t number. IsLive number t.entries };

    ghost index_gives = { λ t number container. lookup (nat_eq number) t.entries ≡ Some container };

    fn index(&self, number: u32) -> &Container {
        &self.rows[number].container
    }
}

/// The containers of rows.
fn containers_of(alloc: Global, rows: &[Row]) -> Result<Vec<Container>, AllocError>
    ensures { IfOk result (λ list. list.items ≡ map (λ row. row.container) rows.now) }
{
    rows.iter().map(|row| row.container).collect(alloc)
}
