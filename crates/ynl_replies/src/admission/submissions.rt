//! Applications that come to a leaf.

ghost use Rattle.std.specs.Prelude.{◌≡◌, ◌<◌, ℕ, List, None, Some, IfErr, IfOk};
ghost use Rattle.ynl_resource.specs.Names.{tenant_of, top_level};
ghost use Rattle.ynl_resource.specs.Refusals.{first_that_holds};
ghost use Rattle.ynl_model.specs.Events.{has_most_apps, home_of, reasons};
ghost use Rattle.ynl_model.specs.declared.events.Event.TheVariants as event;
ghost use Rattle.ynl_inventory.specs.layout.Paths.{HasNumber, path_at};
ghost use Rattle.ynl_inventory.specs.Sound.{IsLeaf};
ghost use Rattle.ynl_cluster.specs.Cluster.{path_of, state_in};
ghost use Rattle.ynl_replies.specs.admission.Admitted.{CanSubmitAs, IsTarget};

use crate::admission::applications::is_too_large;
use crate::admission::partitions::partition_of;
use crate::admission::queues::queue_of;
use ynl_cluster::Cluster;
use ynl_queues::Config;
use ynl_resource::{Label, Name, Path, Refusal, Size};

/// The numbers of an application that comes: of its tenant, of its leaf and of its home partition.
#[derive(Clone, Copy)]
pub struct SubmissionNumbers {
    pub tenant: u32,
    pub leaf: u32,
    pub home: u8,
}

/// The home label of an application that comes to a leaf: the one that it names, or else the
/// leaf's.
fn home_of(config: &Config, queue: &Path, label: &Option<Label>) -> Label
    ensures { result ≡ home_of config.now queue.now label.now }
{
    match label {
        Some(label) => *label,
        None => config.default_label(queue.names()),
    }
}

/// The tenant of a leaf: the second queue on the way to it.
pub fn tenant_of_leaf(cluster: &Cluster, leaf: usize) -> u32
    requires { IsLeaf cluster.now.rows leaf }
    ensures there { HasNumber cluster.now.rows.paths result }
    ensures path { path_at cluster.now.rows.paths result
        ≡ top_level (tenant_of (path_of cluster.now leaf)) }
{
    let line = cluster.inventory().layout().line(leaf);
    line[1] as u32
}

/// Whether a leaf has as many live applications as it may have. Each has a seat on DEFAULT.
pub fn has_most_apps(cluster: &Cluster, leaf: usize) -> bool
    requires { IsLeaf cluster.now.rows leaf }
    ensures { result ≡ has_most_apps cluster.now.config (state_in cluster.now)
        (path_of cluster.now leaf) }
{
    // Opens the inventory, whose rows are sound.
    let _ = cluster.inventory();
    let most = cluster.leaf_settings(leaf).maximum_applications;
    cluster.lane(0, leaf).len() >= most as usize
}

/// A leaf, and the home partition of an application that comes there.
#[derive(Clone, Copy)]
struct Target {
    leaf: usize,
    home: u8,
}

/// Where an application comes to, or the first reason for which it does not come, whatever its name
/// and whoever its user is.
#[tactic(auto, unfolding(ynl_model::specs::Events::reasons))]
fn target_of(
    cluster: &Cluster,
    queue: &Path,
    label: &Option<Label>,
    master: &Size,
) -> Result<Target, Refusal>
    ensures refused { IfErr result (λ refusal. (app user : List ℕ)
        → first_that_holds (reasons cluster.now.config (state_in cluster.now)
        (event.Submit queue.now app user label.now master.now)) ≡ Some refusal) }
    ensures target { IfOk result (IsTarget cluster.now queue.now label.now master.now) }
{
    let config = cluster.config();
    let Some(leaf) = queue_of(cluster, queue) else {
        return Err(Refusal::NoSuchQueue);
    };
    if !config.is_leaf(queue.names()) {
        return Err(Refusal::NotALeaf);
    }
    if !cluster.accepts(leaf) {
        return Err(Refusal::QueueStopped);
    }
    let home_label = home_of(config, queue, label);
    let Some(home) = partition_of(cluster, &home_label) else {
        return Err(Refusal::NoSuchLabel);
    };
    if !config.may_use(queue.names(), &home_label) {
        return Err(Refusal::LabelNotAccessible);
    }
    if is_too_large(cluster, master) {
        return Err(Refusal::TooLarge);
    }
    Ok(Target { leaf, home })
}

/// The numbers of an application that comes to a leaf, whoever its user is, or the first reason for
/// which it does not come.
pub fn submit(
    cluster: &Cluster,
    queue: &Path,
    app: &Name,
    label: &Option<Label>,
    master: &Size,
) -> Result<SubmissionNumbers, Refusal>
    ensures refused { IfErr result (λ refusal. (user : List ℕ)
        → first_that_holds (reasons cluster.now.config (state_in cluster.now)
        (event.Submit queue.now app.now user label.now master.now)) ≡ Some refusal) }
    ensures free { IfOk result (λ _. (user : List ℕ)
        → first_that_holds (reasons cluster.now.config (state_in cluster.now)
        (event.Submit queue.now app.now user label.now master.now)) ≡ None) }
    ensures comes { IfOk result (CanSubmitAs cluster.now queue.now app.now label.now) }
{
    let inventory = cluster.inventory();
    let target = target_of(cluster, queue, label, master)?;
    let tenant = tenant_of_leaf(cluster, target.leaf);
    if inventory.find_turn(tenant, app).is_some() {
        return Err(Refusal::NameUsed);
    }
    if has_most_apps(cluster, target.leaf) {
        return Err(Refusal::TooManyApplications);
    }
    Ok(SubmissionNumbers {
        tenant,
        leaf: target.leaf as u32,
        home: target.home,
    })
}
