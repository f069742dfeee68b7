//! The nodes of a cluster.

ghost use Rattle.std.specs.Prelude.{◌≡◌, [], length, nat_eq, false, true, option_copied, option_map, Some, None, IsTrue, IfOk, IfSome, OnErr, OnOk};
ghost use Rattle.std.specs.Map.{lookup};
ghost use Rattle.ynl_resource.specs.Amounts.{plus, less, fits_in, IsSmall};
ghost use Rattle.ynl_slots.specs.Slots.{number_in, IsAfter, IsLive, HasDistinctNumbers, without};
ghost use Rattle.ynl_tables.specs.nodes.Nodes.{HasDistinctNames, Joins, Rejoins, number_of, with_change};

use crate::nodes::numbers::Numbers;
use std::alloc::{AllocError, Global};
use std::marker::Model;
use std::ops::Index;
use ynl_resource::{HashSeed, Name, Resource, Size};
use ynl_slots::{Chain, Slots};

/// A node. Its partition is given by its number, as that of a container's request is.
#[derive(Clone, Copy)]
pub struct NodeRow {
    pub name: Name,
    pub partition: u8,
    /// In MB and virtual cores.
    pub size: Size,
    /// What no container uses of it.
    pub free: Resource,
    /// The clock of the partition after the node's last change.
    pub stamp: u64,
    /// The chain of its containers.
    pub containers: Chain,
}

/// The nodes of a cluster under numbers, no two of one name. A node is found by its number in constant time, and by its name
/// in few steps, whatever names there are. A contract sees the nodes under their numbers, in the order of joining, and
/// whether one may join again without memory.
#[derive(Drop)]
pub struct Nodes {
    rows: Slots<NodeRow>,
    numbers: Numbers,
    /// There is room for one more.
    ready: bool,
}

impl Model for Nodes {
    ghost use Rattle.ynl_tables.specs.nodes.Nodes.{NodesView};

    ghost Value = { NodesView };

    ghost use Rattle.ynl_tables.specs.nodes.Fields.{nodes_of, IsKept};

    ghost view = { nodes_of };

    ghost invariant = { IsKept };
}

impl Nodes {
    /// No nodes, whose names are hashed with this seed. It takes no memory.
    pub fn new(alloc: Global, seed: HashSeed) -> Nodes
        ensures entries { result.entries ≡ [] }
        ensures ready { result.ready ≡ false }
    {
        Nodes {
            rows: Slots::new(alloc),
            numbers: Numbers::new(alloc, seed),
            ready: false,
        }
    }

    /// How many nodes there are.
    pub fn len(&self) -> usize
        ensures value { result ≡ length self.now.entries }
        ensures distinct { HasDistinctNumbers self.now.entries }
        ensures names { HasDistinctNames self.now.entries }
    {
        self.rows.len()
    }

    /// The node that joined first, if there is one.
    pub fn first(&self) -> Option<u32>
        ensures { result ≡ number_in self.now.entries 0 }
    {
        self.rows.first()
    }

    /// The node that joined next after one, if there is one.
    pub fn next(&self, number: u32) -> Option<u32>
        requires { IsLive number self.now.entries }
        ensures { IsAfter number self.now.entries result }
    {
        self.rows.next(number)
    }

    /// The node under a number, if there is one.
    pub fn get(&self, number: u32) -> Option<&NodeRow>
        ensures { option_copied result ≡ lookup (nat_eq number) self.now.entries }
    {
        self.rows.get(number)
    }

    /// The number of the node of a name, if there is one.
    pub fn find(&self, name: &Name) -> Option<u32>
        ensures value { result ≡ number_of name.now self.now.entries }
        ensures own { IfSome result (λ n.
            option_map (λ node. node.name) (lookup (nat_eq n) self.now.entries) ≡ Some name.now) }
    {
        self.numbers.get(name)
    }

    /// A node comes last, with all of it free and no containers. It returns the number. It fails if memory is refused, and if
    /// there are 2^32 - 2 nodes.
    pub fn join(
        &mut self,
        name: &Name,
        partition: u8,
        size: Size,
        stamp: u64,
    ) -> Result<u32, AllocError>
        requires { number_of name.now self.old.entries ≡ None }
        ensures ok { IfOk result (λ n. Joins n name.now partition size stamp
            self.old.entries self.new.entries) }
        ensures ready { self.new.ready ≡ self.old.ready }
        ensures err { OnErr result (self.new ≡ self.old) }
    {
        self.rows.reserve(2)?;
        let number = self.rows.push(NodeRow {
            name: *name,
            partition,
            size,
            free: size.amount(),
            stamp,
            containers: Chain::new(),
        });
        match self.numbers.insert(name, number) {
            Ok(_) => Ok(number),
            Err(_) => {
                let _row = self.rows.remove(number);
                Err(AllocError)
            }
        }
    }

    /// Reserves room for a node that joins again. It fails if memory is refused, and if there are
    /// 2^32 - 1 nodes.
    pub fn reserve_one(&mut self) -> Result<(), AllocError>
        ensures ok { OnOk result (self.new ≡ record self.old { ready = true }) }
        ensures err { OnErr result (self.new ≡ self.old) }
    {
        self.rows.reserve_one()?;
        self.ready = true;
        Ok(())
    }

    /// A node comes last again, on another partition, with all of it free and no containers. It returns the number. It takes
    /// no memory.
    pub fn rejoin(&mut self, number: u32, partition: u8, stamp: u64) -> u32
        requires live { IsLive number self.old.entries }
        requires ready { self.old.ready ≡ true }
        ensures entries { Rejoins number result partition stamp
            self.old.entries self.new.entries }
        ensures ready { self.new.ready ≡ false }
    {
        let was = self.rows.remove(number);
        let last = self.rows.push(NodeRow {
            name: was.name,
            partition,
            size: was.size,
            free: was.size.amount(),
            stamp,
            containers: Chain::new(),
        });
        self.ready = false;
        match self.numbers.insert(&was.name, last) {
            Ok(_) => last,
            Err(_) => unreachable!(),
        }
    }

    /// Takes out the node under a number. It takes no memory.
    pub fn leave(&mut self, number: u32) -> NodeRow
        requires { IsLive number self.old.entries }
        ensures value { lookup (nat_eq number) self.old.entries ≡ Some result }
        ensures nodes { self.new ≡ record self.old { entries = without number self.old.entries } }
    {
        let row = self.rows.remove(number);
        self.numbers.remove(&row.name);
        row
    }

    /// Sets the stamp of a node.
    pub fn set_stamp(&mut self, number: u32, stamp: u64)
        requires { IsLive number self.old.entries }
        ensures { self.new ≡ record self.old {
          entries = with_change number (λ node.
              record node { stamp = stamp }) self.old.entries;
        } }
    {
        let row = &mut self.rows[number];
        row.stamp = stamp;
    }

    /// Sets the chain of a node's containers.
    pub fn set_containers(&mut self, number: u32, chain: Chain)
        requires { IsLive number self.old.entries }
        ensures { self.new ≡ record self.old {
          entries = with_change number (λ node.
              record node { containers = chain }) self.old.entries;
        } }
    {
        let row = &mut self.rows[number];
        row.containers = chain;
    }

    /// A container of this size takes free room of a node.
    pub fn take(&mut self, number: u32, size: Size)
        requires live { IsLive number self.old.entries }
        requires room { IfSome (lookup (nat_eq number) self.old.entries)
            (λ node. IsTrue (fits_in size node.free)) }
        ensures { self.new ≡ record self.old {
          entries = with_change number (λ node.
              record node { free = less node.free size }) self.old.entries;
        } }
    {
        let row = &mut self.rows[number];
        row.free = row.free.sub(size.amount());
    }

    /// A container of this size gives its room on a node back.
    pub fn give(&mut self, number: u32, size: Size)
        requires live { IsLive number self.old.entries }
        requires small { IfSome (lookup (nat_eq number) self.old.entries)
            (λ node. IsSmall (plus node.free size)) }
        ensures { self.new ≡ record self.old {
          entries = with_change number (λ node.
              record node { free = plus node.free size }) self.old.entries;
        } }
    {
        let row = &mut self.rows[number];
        row.free = row.free.add(size.amount());
    }
}

impl Index<u32> for Nodes {
    type Output = NodeRow;

    ghost can_index = { λ nodes number. IsLive number nodes.entries };

    ghost index_gives = { λ nodes number node. lookup (nat_eq number) nodes.entries ≡ Some node };

    fn index(&self, number: u32) -> &NodeRow {
        &self.rows[number]
    }
}
