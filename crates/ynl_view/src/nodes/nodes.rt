//! Nodes in the order of joining.

ghost use Rattle.std.specs.Prelude.{◌≡◌, ◌<◌, [], ◌∷◌, ◌++◌, Some, None, false, OnOk, OnErr, option_copied};
ghost use Rattle.std.specs.BTreeMap.{IsOrdered, IsUnchanged, Updates};
ghost use Rattle.std.specs.List.{AllByRecursion};
ghost use Rattle.std.specs.Ordering.{nat_cmp};
ghost use Rattle.ynl_resource.specs.Names.{name_order};
ghost use Rattle.ynl_model.specs.Nodes.{find_node, is_full, joined, left};

use crate::nodes::counts::{count_at, lower, open_row, raise};
use std::alloc::{AllocError, Global};
use std::collections::BTreeMap;
use std::marker::Model;
use ynl_model::Node;
use ynl_resource::{Label, MOST_NODES, Name};

/// Nodes in the order of joining, no two of one name. Each stands under a number, above those of the nodes before it;
/// its name leads to the number, so it is found in few steps; and the nodes of a label are counted. A contract sees the
/// list.
#[derive(Drop)]
pub struct Nodes {
    nodes: BTreeMap<u64, Node>,
    numbers: BTreeMap<Name, u64>,
    top: u64,
    counts: BTreeMap<Label, usize>,
}

impl Model for Nodes {
    ghost use Rattle.std.specs.Prelude.{List};
    ghost use Rattle.ynl_model.specs.declared.nodes.Node.{Node};
    ghost use Rattle.ynl_view.specs.nodes.Nodes.{nodes_in, AreKept};

    ghost Value = { List Node };

    ghost view = { nodes_in };

    ghost invariant = { AreKept };
}

impl Nodes {
    /// No node.
    pub fn new(alloc: Global) -> Nodes
        ensures { result ≡ [] }
    {
        Nodes {
            nodes: BTreeMap::new(alloc),
            numbers: BTreeMap::new(alloc),
            top: 0,
            counts: BTreeMap::new(alloc),
        }
    }

    /// The node of a name, which is lent.
    pub fn find(&self, name: &Name) -> Option<&Node>
        ensures { option_copied result ≡ find_node self.now name.now }
    {
        match self.numbers.get(name) {
            Some(number) => self.nodes.get(number),
            None => None,
        }
    }

    /// Whether a partition has no place for one more node.
    #[tactic(auto, unfolding(ynl_model::specs::Nodes::is_full))]
    pub fn is_full(&self, label: &Label) -> bool
        ensures { result ≡ is_full self.now label.now }
    {
        count_at(&self.counts, label) >= MOST_NODES
    }

    /// A node leaves, if it stands on the partition that it is said to stand on.
    #[tactic(auto, unfolding(ynl_model::specs::Nodes::left))]
    pub fn leave(&mut self, node: &Node)
        ensures { self.new ≡ left node.now self.old }
    {
        let Some(number) = self.numbers.get(&node.name) else {
            return;
        };
        let number = *number;
        let Some(found) = self.nodes.get(&number) else {
            return;
        };
        if found.label == node.label {
            lower(&mut self.counts, &found.label);
            let _node = self.nodes.remove(&number);
            let _number = self.numbers.remove(&node.name);
        }
    }

    /// A node comes last. Where memory is refused, nothing has changed.
    #[tactic(auto, unfolding(ynl_model::specs::Nodes::joined, ynl_model::specs::Nodes::is_full))]
    pub fn join(&mut self, node: Node) -> Result<(), AllocError>
        requires new { find_node self.old node.name ≡ None }
        requires room { is_full self.old node.label ≡ false }
        ensures ok { OnOk result (self.new ≡ joined node self.old) }
        ensures err { OnErr result (self.new ≡ self.old) }
    {
        let Some(number) = self.top.checked_add(1) else {
            return Err(AllocError);
        };
        open_row(&mut self.counts, &node.label)?;
        put(&mut self.nodes, &mut self.numbers, number, node.name, node)?;
        self.top = number;
        raise(&mut self.counts, &node.label);
        Ok(())
    }

    /// A node that is here leaves its place, and comes last on another partition, with another stamp.
    /// Where memory is refused, nothing has changed.
    #[tactic(auto, unfolding(ynl_model::specs::Nodes::joined, ynl_model::specs::Nodes::left, ynl_model::specs::Nodes::is_full))]
    pub fn rejoin(&mut self, node: &Node, label: &Label, stamp: u64) -> Result<(), AllocError>
        requires here { find_node self.old node.now.name ≡ Some node.now }
        requires room { is_full self.old label.now ≡ false }
        ensures ok { OnOk result (self.new ≡ joined (record { name = node.now.name; label = label.now; size = node.now.size; stamp = stamp }) (left node.now self.old)) }
        ensures err { OnErr result (self.new ≡ self.old) }
    {
        let Some(before) = self.numbers.get(&node.name) else {
            return Err(AllocError);
        };
        let before = *before;
        let Some(number) = self.top.checked_add(1) else {
            return Err(AllocError);
        };
        open_row(&mut self.counts, label)?;
        let moved = Node {
            name: node.name,
            label: *label,
            size: node.size,
            stamp,
        };
        put(&mut self.nodes, &mut self.numbers, number, node.name, moved)?;
        let _node = self.nodes.remove(&before);
        self.top = number;
        raise(&mut self.counts, label);
        lower(&mut self.counts, &node.label);
        Ok(())
    }
}

/// A thing comes last, under a number above all others, and the name leads there.
/// Where memory is refused, nothing has changed.
fn put<T: Copy>(
    things: &mut BTreeMap<u64, T>,
    numbers: &mut BTreeMap<Name, u64>,
    number: u64,
    name: Name,
    thing: T,
) -> Result<(), AllocError>
    requires { AllByRecursion (λ e. e.0 < number) things.old.entries }
    ensures things { OnOk result (things.new.entries ≡ things.old.entries ++ (number, thing) ∷ []) }
    ensures numbers { OnOk result (Updates name_order numbers.old numbers.new name (Some number)) }
    ensures things_err { OnErr result (IsUnchanged things.old things.new) }
    ensures numbers_err { OnErr result (IsUnchanged numbers.old numbers.new) }
    ensures ordered { IsOrdered nat_cmp things.new }
{
    things.insert(number, thing)?;
    match numbers.insert(name, number) {
        Ok(_) => Ok(()),
        Err(_) => {
            let _thing = things.remove(&number);
            Err(AllocError)
        }
    }
}
