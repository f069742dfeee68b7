//! A partition with its containers.

ghost use Rattle.std.specs.Map.{lookup};
ghost use Rattle.ynl_model.specs.Nodes.{rises};
ghost use Rattle.std.specs.Prelude.{nat_eq, Some, IfSome, OnOk, ◌≡◌, ◌<◌, ◌≤◌, ◌+◌, ◌-◌, ◌^◌, ◌++◌, ◌∷◌, []};
ghost use Rattle.ynl_slots.specs.Slots.{IsLive, IsUnused, without};
ghost use Rattle.ynl_tables.specs.containers.Table.{IsAbove};
ghost use Rattle.ynl_tables.specs.containers.Chains.{IsNodeChain, IsAppChain, KeepsNodes, KeepsApps};
ghost use Rattle.ynl_inventory.specs.Parts.{placed_on};

use std::alloc::AllocError;
use ynl_resource::{Label, Size};
use ynl_slots::Chain;
use ynl_tables::containers::{Container, Containers, Role};

/// A partition: whether it takes guests, its clock and how far that goes, and the containers there.
#[derive(Drop)]
pub(crate) struct Partition {
    pub(crate) label: Label,
    pub(crate) guests: bool,
    pub(crate) limit: u64,
    pub(crate) clock: u64,
    pub(crate) containers: Containers,
}

/// What is placed: on which node, of which application, for what, and how large.
#[derive(Clone, Copy)]
pub struct Placement {
    pub node: u32,
    pub app: u32,
    pub role: Role,
    pub size: Size,
}

impl Partition {
    /// Reserves room for so many more containers.
    pub(crate) fn reserve(&mut self, count: u32) -> Result<(), AllocError>
        ensures partition { self.new ≡ record self.old { containers = self.new.containers } }
        ensures containers { self.new.containers ≡ record self.old.containers {
          room = self.new.containers.room;
        } }
        ensures ok { OnOk result (count ≤ self.new.containers.room) }
        ensures room { self.old.containers.room ≤ self.new.containers.room }
    {
        self.containers.reserve(count)
    }

    /// A container of this clock comes last, also in the chains of its node and of its application. It returns the
    /// container's number.
    pub(crate) fn hold(
        &mut self,
        placed: &Placement,
        clock: u64,
        of_node: &mut Chain,
        of_app: &mut Chain,
    ) -> u32
        requires room { 0 < self.old.containers.room }
        requires above { IsAbove clock self.old.containers.entries }
        requires of_node { IsNodeChain self.old.containers of_node.old placed.now.node }
        requires of_app { IsAppChain self.old.containers of_app.old placed.now.app }
        ensures partition { self.new ≡ record self.old { containers = self.new.containers } }
        ensures entries { self.new.containers.entries ≡ self.old.containers.entries
            ++ (result, placed_on placed.now clock) ∷ [] }
        ensures unused { IsUnused result self.old.containers.entries }
        ensures small { result < 2 ^ 32 - 1 }
        ensures of_node { IsNodeChain self.new.containers of_node.new placed.now.node }
        ensures of_app { IsAppChain self.new.containers of_app.new placed.now.app }
        ensures nodes { KeepsNodes placed.now.node self.old.containers self.new.containers }
        ensures apps { KeepsApps placed.now.app self.old.containers self.new.containers }
        ensures room { self.old.containers.room ≤ self.new.containers.room + 1 }
    {
        let container = Container {
            clock,
            node: placed.node,
            app: placed.app,
            role: placed.role,
            size: placed.size,
        };
        self.containers.place(container, of_node, of_app)
    }

    /// The clock rises, and a container with it comes last, also in the chains of its node and of its application. It
    /// returns the container's number.
    pub(crate) fn place(
        &mut self,
        placed: &Placement,
        of_node: &mut Chain,
        of_app: &mut Chain,
    ) -> u32
        requires room { 0 < self.old.containers.room }
        requires rises { self.old.clock < self.old.limit }
        requires above { IsAbove (self.old.clock + 1) self.old.containers.entries }
        requires of_node { IsNodeChain self.old.containers of_node.old placed.now.node }
        requires of_app { IsAppChain self.old.containers of_app.old placed.now.app }
        ensures label { self.new.label ≡ self.old.label }
        ensures limit { self.new.limit ≡ self.old.limit }
        ensures guests { self.new.guests ≡ self.old.guests }
        ensures clock { self.new.clock ≡ self.old.clock + 1 }
        ensures entries { self.new.containers.entries ≡ self.old.containers.entries
            ++ (result, placed_on placed.now (self.old.clock + 1)) ∷ [] }
        ensures unused { IsUnused result self.old.containers.entries }
        ensures small { result < 2 ^ 32 - 1 }
        ensures of_node { IsNodeChain self.new.containers of_node.new placed.now.node }
        ensures of_app { IsAppChain self.new.containers of_app.new placed.now.app }
        ensures nodes { KeepsNodes placed.now.node self.old.containers self.new.containers }
        ensures apps { KeepsApps placed.now.app self.old.containers self.new.containers }
        ensures room { self.old.containers.room ≤ self.new.containers.room + 1 }
    {
        self.clock += 1;
        self.hold(placed, self.clock, of_node, of_app)
    }

    /// The clock rises, if it is not at its limit, and the container under a number goes, also from the chains of its node and
    /// of its application. It takes no memory.
    pub(crate) fn end(&mut self, number: u32, of_node: &mut Chain, of_app: &mut Chain) -> Container
        requires live { IsLive number self.old.containers.entries }
        requires of_node { IfSome (lookup (nat_eq number) self.old.containers.entries)
            (λ c. IsNodeChain self.old.containers of_node.old c.node) }
        requires of_app { IfSome (lookup (nat_eq number) self.old.containers.entries)
            (λ c. IsAppChain self.old.containers of_app.old c.app) }
        ensures label { self.new.label ≡ self.old.label }
        ensures limit { self.new.limit ≡ self.old.limit }
        ensures guests { self.new.guests ≡ self.old.guests }
        ensures clock { self.new.clock ≡ rises self.old.limit self.old.clock }
        ensures value { lookup (nat_eq number) self.old.containers.entries ≡ Some result }
        ensures entries { self.new.containers.entries ≡ without number self.old.containers.entries }
        ensures of_node { IsNodeChain self.new.containers of_node.new result.node }
        ensures of_app { IsAppChain self.new.containers of_app.new result.app }
        ensures nodes { KeepsNodes result.node self.old.containers self.new.containers }
        ensures apps { KeepsApps result.app self.old.containers self.new.containers }
        ensures room { self.old.containers.room ≤ self.new.containers.room }
    {
        self.clock = risen(self.clock, self.limit);
        self.containers.remove(number, of_node, of_app)
    }

    /// The container under a number goes with its node, as in `end`, but the clock stays.
    pub(crate) fn discard(
        &mut self,
        number: u32,
        of_node: &mut Chain,
        of_app: &mut Chain,
    ) -> Container
        requires live { IsLive number self.old.containers.entries }
        requires of_node { IfSome (lookup (nat_eq number) self.old.containers.entries)
            (λ c. IsNodeChain self.old.containers of_node.old c.node) }
        requires of_app { IfSome (lookup (nat_eq number) self.old.containers.entries)
            (λ c. IsAppChain self.old.containers of_app.old c.app) }
        ensures label { self.new.label ≡ self.old.label }
        ensures limit { self.new.limit ≡ self.old.limit }
        ensures guests { self.new.guests ≡ self.old.guests }
        ensures clock { self.new.clock ≡ self.old.clock }
        ensures value { lookup (nat_eq number) self.old.containers.entries ≡ Some result }
        ensures entries { self.new.containers.entries ≡ without number self.old.containers.entries }
        ensures of_node { IsNodeChain self.new.containers of_node.new result.node }
        ensures of_app { IsAppChain self.new.containers of_app.new result.app }
        ensures nodes { KeepsNodes result.node self.old.containers self.new.containers }
        ensures apps { KeepsApps result.app self.old.containers self.new.containers }
        ensures room { self.old.containers.room ≤ self.new.containers.room }
    {
        self.containers.remove(number, of_node, of_app)
    }
}

/// What a clock shows after one more change.
pub(crate) fn risen(clock: u64, limit: u64) -> u64
    ensures { result ≡ rises limit clock }
{
    if clock < limit { clock + 1 } else { clock }
}
