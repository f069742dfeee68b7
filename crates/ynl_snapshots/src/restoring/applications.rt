//! What lines tell of applications: live ones, and the names of finished ones.

ghost use Rattle.std.specs.Prelude.{◌≡◌, is_some, true, IfOk, IfSome, Some};
ghost use Rattle.ynl_resource.specs.declared.names.Name.{Name as Named};
ghost use Rattle.ynl_model.specs.Accepted.{is_accepted};
ghost use Rattle.ynl_cluster.specs.Cluster.{state_in};
ghost use Rattle.ynl_saved.specs.declared.lines.StateLine.TheVariants.{Finished, Live};
ghost use Rattle.ynl_saved.specs.Restoring.{is_sound_line, may_come, Restored};
ghost use Rattle.ynl_replies.specs.admission.Admitted.{CanSubmitAs};
ghost use Rattle.ynl_snapshots.specs.restoring.Taking.{Comes, Takes};

use std::alloc::AllocError;
use ynl_cluster::Cluster;
use ynl_inventory::NewSubmission;
use ynl_replies::admission::{
    SubmissionNumbers, has_most_apps, is_too_large, partition_of, queue_of, tenant_of_leaf,
};
use ynl_resource::{Label, Name, Path, Size};

/// A leaf and its tenant, each by its number.
#[derive(Clone, Copy)]
pub(crate) struct Coming {
    pub(crate) leaf: usize,
    pub(crate) tenant: u32,
}

/// The leaf of a path, if there is one, and no application of its tenant had the name.
fn coming_to(cluster: &Cluster, queue: &Path, app: &Name) -> Option<Coming>
    ensures sound { may_come cluster.now.config (state_in cluster.now) queue.now app.now
        ≡ is_some result }
    ensures comes { IfSome result (Comes cluster.now queue.now app.now) }
{
    let inventory = cluster.inventory();
    let Some(leaf) = queue_of(cluster, queue) else {
        return None;
    };
    if !cluster.config().is_leaf(queue.names()) {
        return None;
    }
    let tenant = tenant_of_leaf(cluster, leaf);
    if inventory.find_turn(tenant, app).is_some() {
        return None;
    }
    Some(Coming { leaf, tenant })
}

/// The numbers of a line's live application, if the line goes with those before it.
fn live_numbers(
    cluster: &Cluster,
    queue: &Path,
    app: &Name,
    label: &Label,
    master: &Size,
) -> Option<SubmissionNumbers>
    requires { is_accepted cluster.now.config ≡ true }
    ensures sound { (r : Restored) (user : Named) → r.state ≡ state_in cluster.now
        → is_sound_line cluster.now.config r (Live queue.now app.now user label.now master.now)
        ≡ is_some result }
    ensures comes { IfSome result (CanSubmitAs cluster.now queue.now app.now (Some label.now)) }
{
    // Opens the inventory, whose queues have numbers of 32 bits.
    let _ = cluster.inventory();
    let Some(coming) = coming_to(cluster, queue, app) else {
        return None;
    };
    if !cluster.config().may_use(queue.names(), label) {
        return None;
    }
    let Some(home) = partition_of(cluster, label) else {
        return None;
    };
    if is_too_large(cluster, master) {
        return None;
    }
    if has_most_apps(cluster, coming.leaf) {
        return None;
    }
    Some(SubmissionNumbers {
        tenant: coming.tenant,
        leaf: coming.leaf as u32,
        home,
    })
}

/// Takes the line of a live application, if it goes with those before it. It fails if memory is refused.
pub(crate) fn take_live(
    cluster: &mut Cluster,
    queue: &Path,
    app: &Name,
    user: &Name,
    label: &Label,
    master: &Size,
) -> Result<bool, AllocError>
    requires { is_accepted cluster.old.config ≡ true }
    ensures { IfOk result (λ taken. (r : Restored) → r.state ≡ state_in cluster.old
        → Takes cluster.old r (Live queue.now app.now user.now label.now master.now)
        cluster.new taken) }
{
    let Some(numbers) = live_numbers(cluster, queue, app, label, master) else {
        return Ok(false);
    };
    let new = NewSubmission {
        tenant: numbers.tenant,
        leaf: numbers.leaf,
        user: cluster.user(user)?,
        home: numbers.home,
        master_size: *master,
    };
    cluster.submit(app, &new)?;
    Ok(true)
}

/// Takes the line of a finished application, if it goes with those before it: one comes to the leaf and
/// finishes at once, so that its name stays. It fails if memory is refused.
pub(crate) fn take_finished(
    cluster: &mut Cluster,
    queue: &Path,
    app: &Name,
) -> Result<bool, AllocError>
    ensures { IfOk result (λ taken. (r : Restored) → r.state ≡ state_in cluster.old
        → Takes cluster.old r (Finished queue.now app.now) cluster.new taken) }
{
    let Some(coming) = coming_to(cluster, queue, app) else {
        return Ok(false);
    };
    // Whose it was and how large its master was is not told, and of it nothing is seen.
    let user = cluster.inventory().tenant_name(coming.tenant);
    let new = NewSubmission {
        tenant: coming.tenant,
        leaf: coming.leaf as u32,
        user: cluster.user(&user)?,
        home: 0,
        master_size: cluster.config().maximum_allocation(),
    };
    let number = cluster.submit(app, &new)?;
    cluster.finish(number);
    Ok(true)
}
