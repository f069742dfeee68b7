//! What lines tell of containers: on which node each stands, and what it is to its application.

ghost use Rattle.std.specs.Prelude.{◌≡◌, ◌&&◌, ◌||◌, ℕ, false, is_some, nat_eq, nat_lt, IfOk, IfSome, IsTrue, OnOk, Some};
ghost use Rattle.std.specs.Map.{lookup};
ghost use Rattle.std.specs.Option.{option_map_or};
ghost use Rattle.ynl_resource.specs.Names.{same_label};
ghost use Rattle.ynl_model.specs.Cluster.{node_of};
ghost use Rattle.ynl_model.specs.declared.proposals.What.TheVariants.{Ask as Asked, Master};
ghost use Rattle.ynl_model.specs.declared.containers.Placed.{Placed as Container};
ghost use Rattle.ynl_inventory.specs.Apps.{runs_at};
ghost use Rattle.ynl_inventory.specs.Meaning.{app_of, label_at};
ghost use Rattle.ynl_inventory.specs.Rows.{AppRow};
ghost use Rattle.ynl_inventory.specs.Sound.{HasPartition};
ghost use Rattle.ynl_cluster.specs.Cluster.{label_of, state_in};
ghost use Rattle.ynl_slots.specs.Slots.{IsLive};
ghost use Rattle.ynl_saved.specs.declared.lines.StateLine.TheVariants.{Container as ContainerLine};
ghost use Rattle.ynl_saved.specs.Restoring.{is_given, is_sound_line, last_clock, may_have, may_stand, Restored};
ghost use Rattle.ynl_snapshots.specs.restoring.Placing.{AreLasts, IsAskedAs, IsPlacedAs, IsRoleOf, IsSteady, StandsOn};
ghost use Rattle.ynl_snapshots.specs.restoring.Taking.{Takes};

use std::alloc::AllocError;
use ynl_cluster::Cluster;
use ynl_inventory::{Inventory, Placement};
use ynl_model::{Placed, What};
use ynl_replies::admission::{app_named, is_too_large, node_named, partition_of};
use ynl_resource::{Label, Size};
use ynl_tables::containers::Role;

/// Whether a partition has a label.
fn is_labelled(inventory: &Inventory, p: u8, label: &Label) -> bool
    requires { HasPartition inventory.now.rows p }
    ensures { result ≡ same_label (label_at inventory.now.rows.partitions p) label.now }
{
    *inventory.label(p) == *label
}

/// The node on which a line says that a container stands, if it may stand there. For each partition there is
/// the clock of the last container that stands there.
fn standing_on(cluster: &Cluster, placed: &Placed, lasts: &[u64]) -> Option<u32>
    requires { AreLasts (state_in cluster.now) lasts.now }
    ensures sound { (option_map_or (may_stand (state_in cluster.now) placed.now)
        (node_of (state_in cluster.now) placed.now.node) false
        && nat_lt (last_clock (state_in cluster.now) placed.now.id.label) placed.now.id.clock
        && is_given cluster.now.config placed.now.size) ≡ is_some result }
    ensures stands { IfSome result (StandsOn cluster.now placed.now) }
{
    let inventory = cluster.inventory();
    let Some(node) = node_named(cluster, &placed.node) else {
        return None;
    };
    let row = inventory.node(node);
    if !is_labelled(inventory, row.partition, &placed.id.label) {
        return None;
    }
    if row.stamp < placed.id.clock {
        return None;
    }
    if !placed.size.amount().fits_in(inventory.free(node)) {
        return None;
    }
    if placed.id.clock <= lasts[row.partition as usize] {
        return None;
    }
    if is_too_large(cluster, &placed.size) {
        return None;
    }
    Some(node)
}

/// Whether a container of this size may be an application's master on a partition: at home, of the master's
/// size, and while it has none.
fn may_be_master(cluster: &Cluster, app: u32, p: u8, size: &Size) -> bool
    requires app { IsLive app cluster.now.rows.apps }
    requires partition { HasPartition cluster.now.rows p }
    ensures may { (placed : Container) (row : AppRow) → lookup (nat_eq app) cluster.now.rows.apps ≡ Some row
        → label_of cluster.now p ≡ placed.id.label → size.now ≡ placed.size
        → may_have cluster.now.config (state_in cluster.now) placed Master (app_of cluster.now.rows (app, row)) ≡ result }
    ensures master { IsTrue result → (row : AppRow) → lookup (nat_eq app) cluster.now.rows.apps ≡ Some row
        → (row.home ≡ p) × (runs_at cluster.now.rows app row ≡ false) }
{
    let inventory = cluster.inventory();
    let row = inventory.app(app);
    if row.home != p {
        return false;
    }
    if row.master_size != *size {
        return false;
    }
    !inventory.runs(app)
}

/// Whether an application of this home asks on a partition: at home, or on DEFAULT.
fn asks_at(asked: u8, home: u8) -> bool
    ensures { result ≡ (nat_eq asked 0 || nat_eq asked home) }
{
    asked == 0 || asked == home
}

/// Whether what is asked for on one partition may stand on another: on the same, or as a guest.
fn may_stand_on(asked: u8, p: u8, takes_guests: bool) -> bool
    ensures { result ≡ (nat_eq asked p || (nat_eq asked 0 && takes_guests)) }
{
    asked == p || (asked == 0 && takes_guests)
}

/// The partition on which an application asks under a label, if what it asks for there may stand on this one:
/// the same, or another than DEFAULT where DEFAULT's requests are taken as guests.
fn asked_on(cluster: &Cluster, app: u32, p: u8, label: &Label) -> Option<u8>
    requires app { IsLive app cluster.now.rows.apps }
    requires partition { HasPartition cluster.now.rows p }
    ensures may { (placed : Container) (priority : ℕ) (row : AppRow) → lookup (nat_eq app) cluster.now.rows.apps ≡ Some row
        → label_of cluster.now p ≡ placed.id.label
        → may_have cluster.now.config (state_in cluster.now) placed (Asked label.now priority) (app_of cluster.now.rows (app, row)) ≡ is_some result }
    ensures asked { IfSome result (IsAskedAs cluster.now app p label.now) }
{
    let inventory = cluster.inventory();
    let Some(asked) = partition_of(cluster, label) else {
        return None;
    };
    if !asks_at(asked, inventory.app(app).home) {
        return None;
    }
    if !may_stand_on(asked, p, inventory.takes_guests(p)) {
        return None;
    }
    Some(asked)
}

/// What a line's container is to an application on a partition, if it may be that.
fn role_on(cluster: &Cluster, app: u32, p: u8, placed: &Placed) -> Option<Role>
    requires app { IsLive app cluster.now.rows.apps }
    requires partition { HasPartition cluster.now.rows p }
    requires own { label_of cluster.now p ≡ placed.now.id.label }
    ensures may { (row : AppRow) → lookup (nat_eq app) cluster.now.rows.apps ≡ Some row
        → may_have cluster.now.config (state_in cluster.now) placed.now placed.now.what (app_of cluster.now.rows (app, row)) ≡ is_some result }
    ensures role { IfSome result (IsRoleOf cluster.now app p placed.now.what) }
{
    match placed.what {
        What::Master => {
            if may_be_master(cluster, app, p, &placed.size) {
                Some(Role::Master)
            } else {
                None
            }
        }
        What::Ask(label, priority) => match asked_on(cluster, app, p, &label) {
            Some(partition) => Some(Role::Ask {
                partition,
                priority,
            }),
            None => None,
        },
    }
}

/// As what a line's container is placed, if the line goes with those before it. For each partition there is
/// the clock of the last container that stands there.
fn placement_of(cluster: &Cluster, placed: &Placed, lasts: &[u64]) -> Option<Placement>
    requires steady { IsSteady (state_in cluster.now) }
    requires lasts { AreLasts (state_in cluster.now) lasts.now }
    ensures sound { (r : Restored) → r.state ≡ state_in cluster.now
        → is_sound_line cluster.now.config r (ContainerLine placed.now) ≡ is_some result }
    ensures placed { IfSome result (IsPlacedAs cluster.now placed.now) }
{
    let Some(node) = standing_on(cluster, placed, lasts) else {
        return None;
    };
    let Some(app) = app_named(cluster, &placed.tenant, &placed.app) else {
        return None;
    };
    let p = cluster.inventory().node(node).partition;
    let Some(role) = role_on(cluster, app, p, placed) else {
        return None;
    };
    Some(Placement {
        node,
        app,
        role,
        size: placed.size,
    })
}

/// Takes the line of a container, if it goes with those before it. For each partition there is the clock of
/// the last container that stands there. It fails if memory is refused.
pub(crate) fn take_container(
    cluster: &mut Cluster,
    placed: &Placed,
    lasts: &mut [u64],
) -> Result<bool, AllocError>
    requires steady { IsSteady (state_in cluster.old) }
    requires lasts { AreLasts (state_in cluster.old) lasts.old }
    ensures takes { IfOk result (λ taken. (r : Restored) → r.state ≡ state_in cluster.old
        → Takes cluster.old r (ContainerLine placed.now) cluster.new taken) }
    ensures lasts { OnOk result (AreLasts (state_in cluster.new) lasts.new) }
{
    let Some(placement) = placement_of(cluster, placed, lasts) else {
        return Ok(false);
    };
    let p = cluster.inventory().node(placement.node).partition;
    cluster.stand(&placement, placed.id.clock)?;
    lasts[p as usize] = placed.id.clock;
    Ok(true)
}
