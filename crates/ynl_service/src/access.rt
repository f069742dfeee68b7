//! Who may place what on a partition.

ghost use Rattle.std.specs.Prelude.{◌≡◌, is_some, IfSome};
ghost use Rattle.ynl_model.specs.Check.{comes_as_guest, has_access};
ghost use Rattle.ynl_inventory.specs.Meaning.{what_of};
ghost use Rattle.ynl_inventory.specs.Sound.{HasPartition, IsAskedThere};
ghost use Rattle.ynl_cluster.specs.Cluster.{label_of};
ghost use Rattle.ynl_service.specs.Checking.{is_for_at, is_known, is_on_default, IsRoleOf};

use ynl_cluster::Cluster;
use ynl_model::What;
use ynl_replies::admission::partition_of;
use ynl_resource::Name;
use ynl_tables::containers::Role;

/// What is wanted, by number, if its label is that of a partition.
fn role_of(cluster: &Cluster, what: &What) -> Option<Role>
    ensures some { IfSome result (IsRoleOf cluster.now what.now) }
    ensures known { is_some result ≡ is_known cluster.now.config what.now }
{
    match what {
        What::Master => Some(Role::Master),
        What::Ask(label, priority) => match partition_of(cluster, label) {
            Some(partition) => Some(Role::Ask {
                partition,
                priority: *priority,
            }),
            None => None,
        },
    }
}

/// Whether what is asked for was asked for on DEFAULT.
fn is_on_default(role: Role) -> bool
    ensures { result ≡ is_on_default role }
{
    match role {
        Role::Master => false,
        Role::Ask { partition, .. } => partition == 0,
    }
}

/// Whether what is wanted is wanted on a partition; where a master is wanted its application says.
fn is_for(p: u8, role: Role) -> bool
    ensures { result ≡ is_for_at p role }
{
    match role {
        Role::Master => true,
        Role::Ask { partition, .. } => partition == p,
    }
}

/// Whether what is asked for would come to a partition as a guest.
pub(crate) fn comes_as_guest(cluster: &Cluster, p: u8, role: Role) -> bool
    requires partition { HasPartition cluster.now.rows p }
    requires asked { IsAskedThere cluster.now.rows role }
    ensures { result ≡ comes_as_guest cluster.now.config (label_of cluster.now p)
        (what_of cluster.now.rows.partitions role) }
{
    let takes = cluster.inventory().takes_guests(p);
    is_on_default(role) && takes
}

/// Whether a tenant may place this on a partition.
#[tactic(auto, unfolding(ynl_model::specs::Check::has_access))]
fn has_access(cluster: &Cluster, p: u8, tenant: &Name, role: Role) -> bool
    requires partition { HasPartition cluster.now.rows p }
    requires asked { IsAskedThere cluster.now.rows role }
    ensures { result ≡ has_access cluster.now.config (label_of cluster.now p) tenant.now
        (what_of cluster.now.rows.partitions role) }
{
    let top = [*tenant];
    let inventory = cluster.inventory();
    let config = cluster.config();
    config.is_queue(&top)
        && (comes_as_guest(cluster, p, role)
            || (config.may_use(&top, inventory.label(p)) && is_for(p, role)))
}

/// What is wanted, by number, if a tenant may place it on a partition.
pub(crate) fn accessible(cluster: &Cluster, p: u8, tenant: &Name, what: &What) -> Option<Role>
    requires { HasPartition cluster.now.rows p }
    ensures some { IfSome result (IsRoleOf cluster.now what.now) }
    ensures access { is_some result ≡ has_access cluster.now.config
        (label_of cluster.now p) tenant.now what.now }
{
    // Opens the cluster, whose rows are sound.
    let _ = cluster.inventory();
    let Some(role) = role_of(cluster, what) else {
        return None;
    };
    if has_access(cluster, p, tenant, role) {
        Some(role)
    } else {
        None
    }
}
