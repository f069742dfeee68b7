//! Where the nodes are, told from node events alone.

ghost use Rattle.std.specs.Prelude.{◌≡◌, [], None, Some, true, false, OnOk, OnErr};
ghost use Rattle.std.specs.Option.{option_map_or};
ghost use Rattle.ynl_resource.specs.Names.{same_label};
ghost use Rattle.ynl_model.specs.Promises.{without_stamp};
ghost use Rattle.ynl_model.specs.View.{tracked, is_in, has_place, registers, relabels, dropped, joined, track_step};
ghost use Rattle.ynl_model.specs.declared.events.Event.TheVariants.{Register, Relabel};

use crate::nodes::Nodes;
use std::alloc::{AllocError, Global};
use std::marker::Model;
use ynl_model::{Event, Node, Tracked};
use ynl_queues::Config;
use ynl_resource::{Label, Name, Size};

/// The nodes, in the order of joining, as node events alone tell them. They are found by name and counted by
/// label, and none has a stamp. A contract sees their list.
#[derive(Drop)]
pub struct Track {
    nodes: Nodes,
}

impl Model for Track {
    ghost use Rattle.std.specs.Prelude.{List, map};
    ghost use Rattle.ynl_model.specs.Promises.{without_stamp};
    ghost use Rattle.ynl_model.specs.declared.nodes.Tracked.{Tracked};

    ghost Value = { List Tracked };

    ghost view = { λ t. map without_stamp t.nodes };
}

/// The stamp of each node here, which no contract sees.
const NO_STAMP: u64 = 0;

fn without_stamp(node: &Node) -> Tracked
    ensures { result ≡ without_stamp node.now }
{
    Tracked {
        name: node.name,
        label: node.label,
        size: node.size,
    }
}

fn is_on(node: &Node, label: &Label) -> bool
    ensures { result ≡ same_label node.now.label label.now }
{
    node.label == *label
}

impl Track {
    /// The track before the first event.
    pub fn new(alloc: Global) -> Track
        ensures { result ≡ [] }
    {
        Track {
            nodes: Nodes::new(alloc),
        }
    }

    /// The node of a name.
    pub(crate) fn node(&self, name: &Name) -> Option<Tracked>
        ensures { result ≡ tracked self.now name.now }
    {
        match self.nodes.find(name) {
            Some(node) => Some(without_stamp(node)),
            None => None,
        }
    }

    /// Whether the node is in the partition.
    pub(crate) fn has(&self, name: &Name, label: &Label) -> bool
        ensures { result ≡ is_in self.now name.now label.now }
    {
        match self.nodes.find(name) {
            Some(node) => is_on(node, label),
            None => false,
        }
    }

    fn has_place(&self, label: &Label) -> bool
        ensures { result ≡ has_place self.now label.now }
    {
        !self.nodes.is_full(label)
    }

    /// Whether the node may register: the label is configured, the name is new, and the partition has
    /// a place.
    pub(crate) fn registers(&self, config: &Config, name: &Name, label: &Label) -> bool
        ensures { result ≡ registers config.now self.now name.now label.now }
    {
        config.labels().has(label) && self.node(name).is_none() && self.has_place(label)
    }

    /// Whether the node may be relabelled: the label is configured, the node is there with another,
    /// and the partition has a place.
    pub(crate) fn relabels(&self, config: &Config, name: &Name, label: &Label) -> bool
        ensures { result ≡ relabels config.now self.now name.now label.now }
    {
        config.labels().has(label)
            && self.node(name).is_some()
            && !self.has(name, label)
            && self.has_place(label)
    }

    /// A node comes last. Where memory is refused, the track is as before.
    fn join(&mut self, name: &Name, label: &Label, size: &Size) -> Result<(), AllocError>
        requires new { tracked self.old name.now ≡ None }
        requires room { has_place self.old label.now ≡ true }
        ensures ok { OnOk result (self.new ≡ joined self.old name.now label.now size.now) }
        ensures err { OnErr result (self.new ≡ self.old) }
    {
        self.nodes.join(Node {
            name: *name,
            label: *label,
            size: *size,
            stamp: NO_STAMP,
        })
    }

    /// A node that is here goes to another partition, and comes last. Where memory is refused, the track is as before.
    fn rejoin(&mut self, name: &Name, label: &Label) -> Result<(), AllocError>
        requires { has_place self.old label.now ≡ true }
        ensures ok { OnOk result (self.new ≡ option_map_or (λ node. joined (dropped self.old node) name.now label.now node.size) (tracked self.old name.now) self.old) }
        ensures err { OnErr result (self.new ≡ self.old) }
    {
        match self.nodes.find(name).copied() {
            Some(node) => self.nodes.rejoin(&node, label, NO_STAMP),
            None => Ok(()),
        }
    }

    #[tactic(auto, unfolding(ynl_model::specs::View::track_step))]
    fn register(
        &mut self,
        config: &Config,
        name: &Name,
        label: &Label,
        size: &Size,
    ) -> Result<(), AllocError>
        ensures ok { OnOk result (self.new ≡ track_step config.now self.old (Register name.now label.now size.now)) }
        ensures err { OnErr result (self.new ≡ self.old) }
    {
        if self.registers(config, name, label) {
            self.join(name, label, size)?;
        }
        Ok(())
    }

    fn lose(&mut self, name: &Name)
        ensures { self.new ≡ option_map_or (dropped self.old) (tracked self.old name.now) self.old }
    {
        if let Some(node) = self.nodes.find(name).copied() {
            self.nodes.leave(&node);
        }
    }

    #[tactic(auto, unfolding(ynl_model::specs::View::track_step))]
    fn relabel(&mut self, config: &Config, name: &Name, label: &Label) -> Result<(), AllocError>
        ensures ok { OnOk result (self.new ≡ track_step config.now self.old (Relabel name.now label.now)) }
        ensures err { OnErr result (self.new ≡ self.old) }
    {
        if self.relabels(config, name, label) {
            self.rejoin(name, label)?;
        }
        Ok(())
    }

    /// The track after one more event: only an accepted Register, Lost or Relabel moves it. Where memory is
    /// refused it is as before.
    #[tactic(auto, unfolding(ynl_model::specs::View::track_step))]
    pub(crate) fn step(&mut self, config: &Config, event: &Event) -> Result<(), AllocError>
        ensures ok { OnOk result (self.new ≡ track_step config.now self.old event.now) }
        ensures err { OnErr result (self.new ≡ self.old) }
    {
        match event {
            Event::Register { node, label, size } => self.register(config, node, label, size),
            Event::Lost { node } => {
                self.lose(node);
                Ok(())
            }
            Event::Relabel { node, label } => self.relabel(config, node, label),
            _ => Ok(()),
        }
    }
}
