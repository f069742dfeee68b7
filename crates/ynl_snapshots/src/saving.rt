//! A state that is told line by line.

ghost use Rattle.std.specs.Prelude.{◌≡◌};
ghost use Rattle.ynl_cluster.specs.Cluster.{state_in};
ghost use Rattle.ynl_saved.specs.Handing.{Hands};
ghost use Rattle.ynl_saved.specs.Saving.{lines_before_end};

use crate::saving::applications::hand_leaves;
use crate::saving::containers::hand_containers;
use crate::saving::partitions::{hand_nodes, hand_partitions};
use crate::saving::queues::{hand_maxima, hand_stops};
use std::marker::Model;
use ynl_cluster::Cluster;
use ynl_saved::{LineSink, StateLine};

mod applications;
mod containers;
mod lines;
mod partitions;
mod queues;

/// A cluster whose state is told, which takes no memory. A contract sees the configuration and the state.
#[derive(Drop)]
pub struct Saving<'a> {
    cluster: &'a Cluster,
}

impl<'a> Model for Saving<'a> {
    ghost use Rattle.ynl_snapshots.specs.saving.Saved.{Saved, saved_of};

    ghost Value = { Saved };

    ghost view = { saved_of };
}

impl Saving<'_> {
    /// A cluster to be told.
    pub fn of(cluster: &Cluster) -> Saving<'_>
        ensures { result ≡ record { config = cluster.now.config; state = state_in cluster.now } }
    {
        Saving { cluster }
    }

    /// Tells all lines of the state but the last, one after another, to where the sink fails.
    pub fn tell<S: LineSink>(&self, sink: &mut S) -> Result<(), S::Fault>
        ensures { Hands S.gives sink.old (lines_before_end self.now.config self.now.state)
            sink.new result }
    {
        sink.take(&StateLine::Begin)?;
        hand_partitions(self.cluster, sink)?;
        hand_nodes(self.cluster, sink)?;
        hand_leaves(self.cluster, sink)?;
        hand_containers(self.cluster, sink)?;
        hand_stops(self.cluster, sink)?;
        hand_maxima(self.cluster, sink)
    }
}
