//! What lines tell of what live applications ask for.

ghost use Rattle.std.specs.Prelude.{◌≡◌, is_some, IfOk, IfSome};
ghost use Rattle.ynl_cluster.specs.Cluster.{state_in};
ghost use Rattle.ynl_saved.specs.declared.lines.StateLine.TheVariants.{Ask as AskLine};
ghost use Rattle.ynl_saved.specs.Restoring.{is_sound_line, Restored};
ghost use Rattle.ynl_snapshots.specs.restoring.Taking.{AsksAnew, Takes};

use std::alloc::AllocError;
use ynl_cluster::Cluster;
use ynl_model::AskRow;
use ynl_replies::admission::{Asking, app_named, ask};
use ynl_resource::Name;

/// The application that a line says asks, and for what, if the line goes with those before it.
fn new_asking(cluster: &Cluster, tenant: &Name, name: &Name, row: &AskRow) -> Option<Asking>
    ensures sound { (r : Restored) → r.state ≡ state_in cluster.now
        → is_sound_line cluster.now.config r (AskLine tenant.now name.now row.now)
        ≡ is_some result }
    ensures asks { IfSome result (AsksAnew cluster.now tenant.now name.now row.now) }
{
    // Opens the inventory, whose rows are sound.
    let inventory = cluster.inventory();
    let Some(_app) = app_named(cluster, tenant, name) else {
        return None;
    };
    let Ok(asking) = ask(cluster, tenant, name, row) else {
        return None;
    };
    if row.count == 0 {
        return None;
    }
    let asks = &inventory.app(asking.app).asks;
    if asks.find(asking.ask.partition, row.priority).is_some() {
        return None;
    }
    Some(asking)
}

/// Takes the line of an ask, if it goes with those before it. It fails if memory is refused.
pub(crate) fn take_ask(
    cluster: &mut Cluster,
    tenant: &Name,
    name: &Name,
    row: &AskRow,
) -> Result<bool, AllocError>
    ensures { IfOk result (λ taken. (r : Restored) → r.state ≡ state_in cluster.old
        → Takes cluster.old r (AskLine tenant.now name.now row.now) cluster.new taken) }
{
    let Some(asking) = new_asking(cluster, tenant, name, row) else {
        return Ok(false);
    };
    // Opens the inventory, whose rows are sound.
    let _ = cluster.inventory();
    cluster.ask(asking.app, asking.ask)?;
    Ok(true)
}
