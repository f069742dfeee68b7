//! A cluster that the lines of a saved state tell, one after another.

ghost use Rattle.std.specs.Prelude.{◌≡◌, ◌+◌, ◌^◌, ◌<◌, replicate, IfOk, true};
ghost use Rattle.std.specs.List.{list_all, list_any};
ghost use Rattle.ynl_resource.specs.Names.{same_label};
ghost use Rattle.ynl_model.specs.Nodes.{partition_labels};
ghost use Rattle.ynl_saved.specs.declared.lines.StateLine.TheVariants.{End, Maximum, Node as NodeLine, Partition};
ghost use Rattle.ynl_resource.specs.declared.labels.Label.TheVariants.{Named};
ghost use Rattle.ynl_model.specs.Accepted.{is_accepted};
ghost use Rattle.ynl_saved.specs.Restoring.{is_sound_line, nothing_restored, Restored};
ghost use Rattle.ynl_snapshots.specs.restoring.Telling.{Tells, TakesKind, TakesLine};

use crate::restoring::applications::{take_finished, take_live};
use crate::restoring::asks::take_ask;
use crate::restoring::nodes::take_node;
use crate::restoring::partitions::take_partition;
use crate::restoring::placements::take_container;
use crate::restoring::queues::{take_maximum, take_stopped};
use crate::restoring::starting::nothing_restored;
use std::alloc::{AllocError, Global};
use std::marker::Model;
use ynl_cluster::Cluster;
use ynl_model::{LabelRow, Node};
use ynl_queues::Config;
use ynl_replies::admission::CellNumbers;
use ynl_resource::{Hundredths, Label, Path};
use ynl_saved::StateLine;

mod applications;
mod asks;
mod nodes;
mod partitions;
mod placements;
mod queues;
mod starting;

/// A cluster that the lines of a saved state tell, one after another, and what is kept of the lines besides.
#[derive(Drop)]
pub struct Restoring {
    cluster: Cluster,
    /// The partitions that had a line.
    partitions: Vec<Label>,
    /// The queues and partitions of which a maximum had a line.
    maxima: Vec<CellNumbers>,
    /// For each partition, the clock of the last container there.
    lasts: Vec<u64>,
    /// How many lines there were.
    lines: u64,
}

impl Model for Restoring {
    ghost use Rattle.ynl_snapshots.specs.restoring.Telling.{Telling, telling_of};

    ghost Value = { Telling };

    ghost view = { telling_of };
}

/// Whether a label is among some.
fn has_label(labels: &[Label], label: &Label) -> bool
    ensures { result ≡ list_any (same_label label.now) labels.now }
{
    labels.iter().any(|told| *label == *told)
}

/// Whether the label of each row is among some.
fn has_rows(labels: &[Label], rows: &[LabelRow]) -> bool
    ensures { result ≡ list_all (λ row. list_any (same_label (Named row.name)) labels.now) rows.now }
{
    rows.iter()
        .all(|row| has_label(labels, &Label::Named(row.name)))
}

/// So many clocks of partitions on which nothing stands.
fn no_lasts(alloc: Global, count: usize) -> Result<Vec<u64>, AllocError>
    ensures { IfOk result (λ lasts. lasts.items ≡ replicate count 0) }
{
    let mut lasts = Vec::new(alloc);
    lasts.resize(count, 0)?;
    Ok(lasts)
}

impl Restoring {
    /// The cluster before any line: as the configuration opens it, but with all queues running. It fails if memory
    /// is refused, and where there are more labels or queues than numbers.
    pub fn new(alloc: Global, config: Config) -> Result<Restoring, AllocError>
        requires { is_accepted config ≡ true }
        ensures config { IfOk result (λ told. told.cluster.config ≡ config) }
        ensures told { IfOk result (λ told. Tells told (nothing_restored config)) }
    {
        let cluster = nothing_restored(alloc, config)?;
        let lasts = no_lasts(alloc, cluster.inventory().partition_count())?;
        Ok(Restoring {
            cluster,
            partitions: Vec::new(alloc),
            maxima: Vec::new(alloc),
            lasts,
            lines: 0,
        })
    }

    /// Whether each partition had a line.
    fn has_all(&self) -> bool
        ensures { result ≡ list_all (λ label. list_any (same_label label) self.now.partitions) (partition_labels self.now.cluster.config.labels) }
    {
        if !has_label(&self.partitions, &Label::Unlabelled) {
            return false;
        }
        has_rows(&self.partitions, self.cluster.config().labels().rows())
    }

    /// Whether the last line goes with those before it: it says how many they are, and each partition had one.
    fn ends(&self, lines: u64) -> bool
        ensures { (r : Restored) → Tells self.now r → is_sound_line self.now.cluster.config r (End lines) ≡ result }
    {
        if lines != self.lines {
            return false;
        }
        self.has_all()
    }

    /// Takes the line of a partition.
    fn take_partition(&mut self, label: &Label, clock: u64) -> Result<bool, AllocError>
        requires { (r : Restored) × Tells self.old r }
        ensures { IfOk result (λ taken. (r : Restored) → Tells self.old r → TakesKind self.old r (Partition label.now clock) self.new taken) }
    {
        if has_label(&self.partitions, label) {
            return Ok(false);
        }
        if !take_partition(&mut self.cluster, label, clock) {
            return Ok(false);
        }
        self.partitions.push(*label)?;
        Ok(true)
    }

    /// Takes the line of a node.
    fn take_node(&mut self, node: &Node) -> Result<bool, AllocError>
        requires { (r : Restored) × Tells self.old r }
        ensures { IfOk result (λ taken. (r : Restored) → Tells self.old r → TakesKind self.old r (NodeLine node.now) self.new taken) }
    {
        // Opens the size, which is in range.
        let _ = node.size.amount();
        if !has_label(&self.partitions, &node.label) {
            return Ok(false);
        }
        take_node(&mut self.cluster, node)
    }

    /// Takes the line of a maximum.
    fn take_maximum(
        &mut self,
        queue: &Path,
        label: &Label,
        share: Hundredths,
    ) -> Result<bool, AllocError>
        requires { (r : Restored) × Tells self.old r }
        ensures { IfOk result (λ taken. (r : Restored) → Tells self.old r → TakesKind self.old r (Maximum queue.now label.now share) self.new taken) }
    {
        // Opens the inventory, whose rows are those of the configuration.
        let _ = self.cluster.inventory();
        let taken = take_maximum(&mut self.cluster, &self.maxima, queue, label, share);
        let Some(cell) = taken else {
            return Ok(false);
        };
        self.maxima.push(cell)?;
        Ok(true)
    }

    /// Takes a line, and does not count it yet.
    fn take_kind(&mut self, line: &StateLine) -> Result<bool, AllocError>
        requires { (r : Restored) × Tells self.old r }
        ensures { IfOk result (λ taken. (r : Restored) → Tells self.old r → TakesKind self.old r line.now self.new taken) }
    {
        match line {
            StateLine::Begin => Ok(true),
            StateLine::Partition { label, clock } => self.take_partition(label, *clock),
            StateLine::Node(node) => self.take_node(node),
            StateLine::Live {
                queue,
                app,
                user,
                label,
                master,
            } => take_live(&mut self.cluster, queue, app, user, label, master),
            StateLine::Ask { tenant, app, ask } => take_ask(&mut self.cluster, tenant, app, ask),
            StateLine::Finished { queue, app } => take_finished(&mut self.cluster, queue, app),
            StateLine::Container(placed) => {
                take_container(&mut self.cluster, placed, &mut self.lasts)
            }
            StateLine::Stopped { queue } => Ok(take_stopped(&mut self.cluster, queue)),
            StateLine::Maximum {
                queue,
                label,
                maximum,
            } => self.take_maximum(queue, label, *maximum),
            StateLine::End { lines } => Ok(self.ends(*lines)),
        }
    }

    /// Takes a line, if it goes with those before it, and returns whether it does; if not, nothing changes. It
    /// fails if memory is refused, and then nothing is told of the cluster.
    pub fn take(&mut self, line: &StateLine) -> Result<bool, AllocError>
        requires told { (r : Restored) × Tells self.old r }
        requires few { self.old.lines + 1 < 2 ^ 64 }
        ensures { IfOk result (λ taken. (r : Restored) → Tells self.old r → TakesLine self.old r line.now self.new taken) }
    {
        let taken = self.take_kind(line)?;
        if taken {
            self.lines += 1;
        }
        Ok(taken)
    }

    /// The cluster that the lines told.
    pub fn into_cluster(self) -> Cluster
        ensures { result ≡ self.cluster }
    {
        let Restoring {
            cluster,
            partitions: _,
            maxima: _,
            lasts: _,
            lines: _,
        } = self;
        cluster
    }
}
