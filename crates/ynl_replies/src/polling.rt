//! Answers to questions.

ghost use Rattle.std.specs.Prelude.{◌≡◌, nat_eq, IfOk, Some};
ghost use Rattle.std.specs.Map.{lookup};
ghost use Rattle.ynl_model.specs.Events.{held, usage};
ghost use Rattle.ynl_slots.specs.Slots.{IsLive};
ghost use Rattle.ynl_inventory.specs.Rows.{AppRow};
ghost use Rattle.ynl_inventory.specs.Sound.{HasPartition};
ghost use Rattle.ynl_cluster.specs.Cluster.{label_of, name_in, path_of, state_in, tenant_in, IsCell};

use crate::asking::pending;
use crate::listing::own_containers;
use std::alloc::{AllocError, Global};
use ynl_cluster::Cluster;
use ynl_model::{Items, Reply};

/// What an application holds on a partition, and what it asks for there. It fails if memory is
/// refused.
pub fn held(alloc: Global, cluster: &Cluster, app: u32, p: u8) -> Result<Reply, AllocError>
    requires live { IsLive app cluster.now.rows.apps }
    requires partition { HasPartition cluster.now.rows p }
    ensures { IfOk result (λ reply. (row : AppRow)
        → lookup (nat_eq app) cluster.now.rows.apps ≡ Some row
        → reply ≡ held (state_in cluster.now) (tenant_in cluster.now.rows row)
        (name_in cluster.now.rows row) (label_of cluster.now p)) }
{
    // Opens the inventory, whose rows are sound.
    let _ = cluster.inventory();
    let containers = own_containers(alloc, cluster, app, p)?;
    let asks = pending(alloc, cluster, app, p)?;
    Ok(Reply::Held {
        containers: Items::new(containers),
        asks: Items::new(asks),
    })
}

/// What a queue uses, is guaranteed and may use of a partition, and what its masters and its
/// guests use there.
pub fn usage(cluster: &Cluster, p: u8, queue: usize) -> Reply
    requires { IsCell cluster.now p queue }
    ensures { result ≡ usage cluster.now.config (state_in cluster.now)
        (path_of cluster.now queue) (label_of cluster.now p) }
{
    let used = cluster.used(p, queue);
    Reply::Usage {
        used: used.used,
        guaranteed: cluster.guaranteed(p, queue),
        maximum: cluster.maximum(p, queue),
        masters: used.masters,
        guests: used.guests,
    }
}
