//! Live applications by their names, and what they ask for.

ghost use Rattle.std.specs.Prelude.{◌≡◌, ◌<◌, nat_eq, option_map, IfOk, Some};
ghost use Rattle.std.specs.Map.{lookup};
ghost use Rattle.ynl_model.specs.Applications.{Application, find_app};
ghost use Rattle.ynl_model.specs.Cluster.{user_used};
ghost use Rattle.ynl_model.specs.Events.{pending_on};
ghost use Rattle.ynl_slots.specs.Slots.{IsLive};
ghost use Rattle.ynl_inventory.specs.Rows.{AppRow};
ghost use Rattle.ynl_inventory.specs.Meaning.{app_of};
ghost use Rattle.ynl_cluster.specs.Cluster.{path_of, state_in};
ghost use Rattle.ynl_service.specs.reading.reasons.Facts.{found_of, IsAsking};
ghost use Rattle.ynl_service.specs.reading.Readings.{IsAskerOf};

use crate::reading::cells::leaf_of;
use crate::reading::reasons::Found;
use crate::used_by;
use std::alloc::{AllocError, Global};
use ynl_cluster::Cluster;
use ynl_model::Pending;
use ynl_replies::admission::{app_named, partition_of};
use ynl_replies::{path_of, pending};
use ynl_resource::{Label, Name, Path, Resource};
use ynl_waits::Applicant;

/// A live application, with what is wanted for its master.
fn found_of(cluster: &Cluster, app: u32) -> Found
    requires { IsLive app cluster.now.rows.apps }
    ensures { (row : AppRow) → lookup (nat_eq app) cluster.now.rows.apps ≡ Some row
        → result ≡ found_of (state_in cluster.now) (app_of cluster.now.rows (app, row)) }
{
    let inventory = cluster.inventory();
    let row = inventory.app(app);
    Found {
        applicant: Applicant {
            leaf: path_of(cluster, row.leaf as usize),
            name: *inventory.app_name(app),
            user: *inventory.user_name(row.user),
            runs: inventory.runs(app),
        },
        home: *inventory.label(row.home),
        master: row.master_size,
    }
}

/// The live application of a tenant and a name, with what is wanted for its master.
pub(crate) fn found_in(cluster: &Cluster, tenant: &Name, name: &Name) -> Option<Found>
    ensures { result ≡ option_map (found_of (state_in cluster.now))
        (find_app (state_in cluster.now).leaves tenant.now name.now) }
{
    match app_named(cluster, tenant, name) {
        Some(app) => Some(found_of(cluster, app)),
        None => None,
    }
}

/// What a live application asks for under a label, by priority. It fails if memory is refused.
pub(crate) fn asks_in(
    alloc: Global,
    cluster: &Cluster,
    tenant: &Name,
    name: &Name,
    label: &Label,
) -> Result<Vec<Pending>, AllocError>
    ensures { IfOk result (λ asks. (app : Application)
        → find_app (state_in cluster.now).leaves tenant.now name.now ≡ Some app
        → asks.items ≡ pending_on label.now app) }
{
    // Opens the inventory, whose rows are sound.
    let _ = cluster.inventory();
    let Some(app) = app_named(cluster, tenant, name) else {
        return Ok(Vec::new(alloc));
    };
    let Some(p) = partition_of(cluster, label) else {
        return Ok(Vec::new(alloc));
    };
    pending(alloc, cluster, app, p)
}

/// The number of a live application that asks on a partition.
fn asker(cluster: &Cluster, app: &Applicant, label: &Label) -> u32
    requires { IsAsking (state_in cluster.now) app.now label.now }
    ensures { IsAskerOf cluster.now app.now label.now result }
{
    // Opens the inventory, whose rows are sound.
    let _ = cluster.inventory();
    let Some(tenant) = app.leaf.tenant() else {
        unreachable!()
    };
    let Some(number) = app_named(cluster, &tenant, &app.name) else {
        unreachable!()
    };
    number
}

/// What the user of an application uses of a partition where that asks, in its leaf.
pub(crate) fn user_used_at(cluster: &Cluster, app: &Applicant, label: &Label) -> Resource
    requires { IsAsking (state_in cluster.now) app.now label.now }
    ensures { result ≡ user_used (state_in cluster.now) app.now.leaf app.now.user label.now }
{
    // Opens the inventory, whose rows are sound.
    let _ = cluster.inventory();
    let leaf = leaf_of(cluster, app, label);
    let number = asker(cluster, app, label);
    used_by(cluster, leaf.partition, number)
}
