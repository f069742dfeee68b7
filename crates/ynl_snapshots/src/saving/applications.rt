//! Applications are told, leaf by leaf.

ghost use Rattle.std.specs.Prelude.{◌≡◌, ◌<◌, ◌+◌, flat_map, length, map, nat_eq, slice_get, Some};
ghost use Rattle.std.specs.Map.{lookup};
ghost use Rattle.ynl_resource.specs.Names.{tenant_of};
ghost use Rattle.ynl_resource.specs.declared.names.Name.{Name};
ghost use Rattle.ynl_resource.specs.declared.paths.Path.{Path};
ghost use Rattle.ynl_slots.specs.Slots.{IsLive};
ghost use Rattle.ynl_tables.specs.declared.submissions.submissions.Submission.{Submission};
ghost use Rattle.ynl_inventory.specs.Rows.{AppRow};
ghost use Rattle.ynl_inventory.specs.Meaning.{app_of, leaf_of, submitted_to};
ghost use Rattle.ynl_inventory.specs.Sound.{IsLeaf};
ghost use Rattle.ynl_cluster.specs.Cluster.{state_in};
ghost use Rattle.ynl_saved.specs.declared.lines.StateLine.TheVariants.{Ask as AskLine};
ghost use Rattle.ynl_saved.specs.Handing.{Hands};
ghost use Rattle.ynl_saved.specs.Saving.{leaf_lines, live_lines};
ghost use Rattle.ynl_snapshots.specs.saving.Told.{queue_lines, submission_lines};

use crate::saving::lines::{ask_line, live_line};
use ynl_cluster::Cluster;
use ynl_replies::admission::tenant_of_leaf;
use ynl_replies::path_of;
use ynl_saved::{LineSink, StateLine};

/// What a live application asks for is told.
fn hand_asks<S: LineSink>(cluster: &Cluster, app: u32, sink: &mut S) -> Result<(), S::Fault>
    requires { IsLive app cluster.now.rows.apps }
    ensures { (row : AppRow) → lookup (nat_eq app) cluster.now.rows.apps ≡ Some row
        → Hands S.gives sink.old (map (AskLine (tenant_of (app_of cluster.now.rows (app, row)).leaf)
        (app_of cluster.now.rows (app, row)).name) (app_of cluster.now.rows (app, row)).asks)
        sink.new result }
{
    for i in 0..cluster.inventory().app(app).asks.as_slice().len() {
        sink.take(&ask_line(cluster, app, i))?;
    }
    Ok(())
}

/// A live application is told, and what it asks for.
fn hand_live<S: LineSink>(cluster: &Cluster, app: u32, sink: &mut S) -> Result<(), S::Fault>
    requires { IsLive app cluster.now.rows.apps }
    ensures { (row : AppRow) → lookup (nat_eq app) cluster.now.rows.apps ≡ Some row
        → Hands S.gives sink.old (live_lines (app_of cluster.now.rows (app, row))) sink.new result }
{
    sink.take(&live_line(cluster, app))?;
    hand_asks(cluster, app, sink)
}

/// An application is told that was submitted to the tenant of a leaf, if it was to this leaf.
fn hand_submission<S: LineSink>(
    cluster: &Cluster,
    leaf: usize,
    tenant: u32,
    turn: u32,
    sink: &mut S,
) -> Result<(), S::Fault>
    requires leaf { IsLeaf cluster.now.rows leaf }
    requires tenant { tenant < length cluster.now.rows.tenants }
    requires there { turn < length (submitted_to cluster.now.rows.tenants tenant) }
    ensures { (e : Name × Submission)
        → slice_get (submitted_to cluster.now.rows.tenants tenant) turn ≡ Some e
        → Hands S.gives sink.old (submission_lines cluster.now.rows leaf e) sink.new result }
{
    let submissions = cluster.inventory().submissions(tenant);
    let submission = submissions[turn];
    if submission.leaf as usize != leaf {
        return Ok(());
    }
    match submission.app {
        Some(app) => hand_live(cluster, app, sink),
        None => sink.take(&StateLine::Finished {
            queue: path_of(cluster, leaf),
            app: *submissions.name(turn),
        }),
    }
}

/// The applications of a leaf are told, in the order of submission.
fn hand_leaf<S: LineSink>(cluster: &Cluster, leaf: usize, sink: &mut S) -> Result<(), S::Fault>
    requires { IsLeaf cluster.now.rows leaf }
    ensures { Hands S.gives sink.old (leaf_lines (leaf_of cluster.now.rows leaf))
        sink.new result }
{
    let inventory = cluster.inventory();
    let tenant = tenant_of_leaf(cluster, leaf);
    for turn in 0..inventory.submissions(tenant).next_turn() {
        hand_submission(cluster, leaf, tenant, turn, sink)?;
    }
    Ok(())
}

/// The applications of a queue are told, if it is a leaf.
fn hand_queue<S: LineSink>(cluster: &Cluster, i: usize, sink: &mut S) -> Result<(), S::Fault>
    requires { i < length cluster.now.config.queues }
    ensures { (path : Path) → slice_get cluster.now.rows.paths i ≡ Some path
        → Hands S.gives sink.old (queue_lines cluster.now.rows (i + 1, path)) sink.new result }
{
    // Opens the inventory, whose rows are those of the configuration.
    let _ = cluster.inventory();
    let config = cluster.config();
    let row = &config.queues()[i];
    if config.is_leaf(row.path.names()) {
        hand_leaf(cluster, i + 1, sink)
    } else {
        Ok(())
    }
}

/// All applications are told, leaf by leaf.
pub(crate) fn hand_leaves<S: LineSink>(cluster: &Cluster, sink: &mut S) -> Result<(), S::Fault>
    ensures { Hands S.gives sink.old (flat_map leaf_lines (state_in cluster.now).leaves)
        sink.new result }
{
    // Opens the inventory, whose rows are those of the configuration.
    let _ = cluster.inventory();
    for i in 0..cluster.config().queues().len() {
        hand_queue(cluster, i, sink)?;
    }
    Ok(())
}
