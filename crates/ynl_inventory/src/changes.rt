//! What a container that comes or goes changes of its node and of its application.

ghost use Rattle.std.specs.Prelude.{◌≡◌, ◌<◌, ◌-◌, ◌^◌, nat_eq, IfSome, IsTrue};
ghost use Rattle.std.specs.Map.{lookup};
ghost use Rattle.ynl_resource.specs.Amounts.{fits_in, less, plus, IsSmall};
ghost use Rattle.ynl_slots.specs.Slots.{IsLive, with_row};
ghost use Rattle.ynl_tables.specs.nodes.Nodes.{with_change};
ghost use Rattle.ynl_tables.specs.apps.Apps.{with_app};
ghost use Rattle.ynl_tables.specs.apps.Chains.{chain_of};
ghost use Rattle.ynl_inventory.specs.Parts.{owned_part, released_part, taken_part};

use crate::partition::Placement;
use ynl_resource::Size;
use ynl_slots::{Chain, MaybeRow};
use ynl_tables::apps::Apps;
use ynl_tables::containers::{Container, Role};
use ynl_tables::nodes::Nodes;

/// A node has one more container of this size: its chain, the clock that is its stamp, and what is free of it.
pub(crate) fn used(nodes: &mut Nodes, node: u32, chain: Chain, clock: u64, size: Size)
    requires live { IsLive node nodes.old.entries }
    requires room { IfSome (lookup (nat_eq node) nodes.old.entries)
        (λ row. IsTrue (fits_in size row.free)) }
    ensures { nodes.new ≡ record nodes.old {
      entries = with_change node (λ row.
          record row { containers = chain; stamp = clock; free = less row.free size })
          nodes.old.entries;
    } }
{
    nodes.set_containers(node, chain);
    nodes.set_stamp(node, clock);
    nodes.take(node, size);
}

/// An application has one more container: its chain in the partition, and its master.
pub(crate) fn owned(apps: &mut Apps, placed: &Placement, p: u8, chain: Chain, number: u32)
    requires live { IsLive placed.now.app apps.old.entries }
    requires place { IfSome (lookup (nat_eq placed.now.app) apps.old.entries)
        (λ row. IsLive p row.chains) }
    requires small { number < 2 ^ 32 - 1 }
    ensures apps { apps.new ≡ with_app placed.now.app (λ row.
        owned_part placed.now.role number
        (record row { chains = with_row p chain row.chains })) apps.old }
    ensures chain { IfSome (lookup (nat_eq placed.now.app) apps.new.entries)
        (λ row. chain_of p row.chains ≡ chain) }
{
    let app = placed.app;
    apps.set_chain(app, p, chain);
    match placed.role {
        Role::Master => apps.set_master(app, MaybeRow::some(number)),
        Role::Ask { .. } => {}
    }
}

/// An application has one more container, as in `owned`, and one less is asked for where that is no master.
pub(crate) fn taken(apps: &mut Apps, placed: &Placement, p: u8, chain: Chain, number: u32)
    requires live { IsLive placed.now.app apps.old.entries }
    requires place { IfSome (lookup (nat_eq placed.now.app) apps.old.entries)
        (λ row. IsLive p row.chains) }
    requires small { number < 2 ^ 32 - 1 }
    ensures apps { apps.new ≡ with_app placed.now.app (λ row.
        taken_part placed.now.role number
        (record row { chains = with_row p chain row.chains })) apps.old }
    ensures chain { IfSome (lookup (nat_eq placed.now.app) apps.new.entries)
        (λ row. chain_of p row.chains ≡ chain) }
{
    owned(apps, placed, p, chain, number);
    match placed.role {
        Role::Master => {}
        Role::Ask {
            partition,
            priority,
        } => apps.take_one(placed.app, partition, priority),
    }
}

/// A node has one container less: its chain, the clock that is its stamp, and what is free of it.
pub(crate) fn freed(nodes: &mut Nodes, ended: &Container, chain: Chain, clock: u64)
    requires live { IsLive ended.now.node nodes.old.entries }
    requires small { IfSome (lookup (nat_eq ended.now.node) nodes.old.entries)
        (λ row. IsSmall (plus row.free ended.now.size)) }
    ensures { nodes.new ≡ record nodes.old {
      entries = with_change ended.now.node (λ row.
          record row { containers = chain; stamp = clock; free = plus row.free ended.now.size })
          nodes.old.entries;
    } }
{
    nodes.set_containers(ended.node, chain);
    nodes.set_stamp(ended.node, clock);
    nodes.give(ended.node, ended.size);
}

/// An application has one container less: its chain in the partition, and its master.
pub(crate) fn released(apps: &mut Apps, ended: &Container, p: u8, chain: Chain)
    requires live { IsLive ended.now.app apps.old.entries }
    requires place { IfSome (lookup (nat_eq ended.now.app) apps.old.entries)
        (λ row. IsLive p row.chains) }
    ensures { apps.new ≡ with_app ended.now.app (λ row.
        released_part ended.now.role (record row { chains = with_row p chain row.chains }))
        apps.old }
{
    let app = ended.app;
    apps.set_chain(app, p, chain);
    match ended.role {
        Role::Master => apps.set_master(app, MaybeRow::NONE),
        Role::Ask { .. } => {}
    }
}
