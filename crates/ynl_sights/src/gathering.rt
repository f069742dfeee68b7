//! What is wanted of a leaf, as it is copied.

ghost use Rattle.std.specs.Prelude.{◌≡◌, [], ◌∷◌, ◌++◌, true, map, nat_eq, IfOk, IfSome, OnOk, Some};
ghost use Rattle.std.specs.Bool.{OnTrue};
ghost use Rattle.std.specs.Map.{lookup};
ghost use Rattle.ynl_slots.specs.Slots.{IsLive};
ghost use Rattle.ynl_inventory.specs.layout.Paths.{HasNumber};
ghost use Rattle.ynl_lanes.specs.lane.Rows.{IsUse};
ghost use Rattle.ynl_inventory.specs.Rows.{AppRow};
ghost use Rattle.ynl_inventory.specs.Sound.{HasPartition, IsAskedOn};
ghost use Rattle.ynl_cluster.specs.seating.Seating.{shares, user_use};
ghost use Rattle.ynl_cluster.specs.Cluster.{IsCell};
ghost use Rattle.ynl_sights.specs.Copying.{asked_shown, asks_shown, items_in, kind_wanted, master_shown, shown_as, AreAppsOf};
ghost use Rattle.ynl_sights.specs.Lists.{IsListOf};
ghost use Rattle.ynl_sights.specs.Rows.{shown};

use crate::rows::{LeafList, Offered, Wanted};
use std::alloc::{AllocError, Global};
use ynl_cluster::Cluster;
use ynl_lanes::lane::Kind;
use ynl_lanes::lows::Low;
use ynl_resource::{Resource, Size};
use ynl_search::ticket_of;
use ynl_tables::apps::Ask;

/// What the user of an application uses of its leaf's part of a partition that it shares.
fn used_by(cluster: &Cluster, p: u8, app: u32) -> Resource
    requires live { IsLive app cluster.now.rows.apps }
    requires partition { HasPartition cluster.now.rows p }
    requires shares { IfSome (lookup (nat_eq app) cluster.now.rows.apps)
        (λ row. shares p row ≡ true) }
    ensures value { (row : AppRow) → lookup (nat_eq app) cluster.now.rows.apps ≡ Some row
        → result ≡ user_use cluster.now.rows p row.leaf row.user }
    ensures small { IsUse result }
{
    let row = cluster.inventory().app(app);
    let lane = cluster.lane(p, row.leaf as usize);
    let Some(ticket) = ticket_of(row, p) else {
        unreachable!()
    };
    let Some(used) = lane.find_used(ticket) else {
        unreachable!()
    };
    used
}

/// Whether nothing of a kind waits in a leaf's lane on a partition, so that nothing of it is wanted.
pub(crate) fn none_waits(cluster: &Cluster, p: u8, leaf: usize, kind: Kind) -> bool
    requires { IsCell cluster.now p leaf }
    ensures { OnTrue result
        (items_in cluster.now.rows (kind_wanted kind cluster.now.rows p) leaf ≡ []) }
{
    let least = cluster.lane(p, leaf).least(kind);
    Low::NONE.fits(&least.amount())
}

/// A request of an application in this place, with what its user uses of
/// the leaf's part of a partition.
fn offered_of(cluster: &Cluster, p: u8, app: u32, place: u64, size: Size, priority: u32) -> Offered
    requires live { IsLive app cluster.now.rows.apps }
    requires partition { HasPartition cluster.now.rows p }
    requires shares { IfSome (lookup (nat_eq app) cluster.now.rows.apps)
        (λ row. shares p row ≡ true) }
    ensures { (row : AppRow) → lookup (nat_eq app) cluster.now.rows.apps ≡ Some row
        → shown result ≡ shown_as cluster.now.rows p place row size priority }
{
    let user_used = used_by(cluster, p, app);
    let inventory = cluster.inventory();
    let row = inventory.app(app);
    Offered {
        user_used,
        wanted: Wanted {
            place,
            size,
            priority,
            app: *inventory.app_name(app),
            user: *inventory.user_name(row.user),
        },
    }
}

/// Adds an application's master, if it is wanted on the partition.
fn add_master(
    cluster: &Cluster,
    p: u8,
    app: u32,
    place: u64,
    out: &mut Vec<Offered>,
) -> Result<(), AllocError>
    requires live { IsLive app cluster.now.rows.apps }
    requires partition { HasPartition cluster.now.rows p }
    ensures { OnOk result ((row : AppRow)
        → lookup (nat_eq app) cluster.now.rows.apps ≡ Some row
        → map shown out.new.items
        ≡ map shown out.old.items ++ master_shown cluster.now.rows p place app row) }
{
    let inventory = cluster.inventory();
    let row = inventory.app(app);
    if row.home == p && !inventory.runs(app) {
        out.push(offered_of(cluster, p, app, place, row.master_size, 0))?;
    }
    Ok(())
}

/// Adds an ask of an application, if it is for the partition.
fn add_ask(
    cluster: &Cluster,
    p: u8,
    app: u32,
    place: u64,
    ask: &Ask,
    out: &mut Vec<Offered>,
) -> Result<(), AllocError>
    requires live { IsLive app cluster.now.rows.apps }
    requires partition { HasPartition cluster.now.rows p }
    requires asked { IfSome (lookup (nat_eq app) cluster.now.rows.apps)
        (λ row. IsAskedOn row.home ask.now.partition) }
    ensures { OnOk result ((row : AppRow)
        → lookup (nat_eq app) cluster.now.rows.apps ≡ Some row
        → map shown out.new.items
        ≡ map shown out.old.items ++ asks_shown cluster.now.rows p place row (ask.now ∷ [])) }
{
    if ask.partition == p {
        out.push(offered_of(cluster, p, app, place, ask.size, ask.priority))?;
    }
    Ok(())
}

/// Adds what an application asks for on the partition, if it runs.
fn add_asks(
    cluster: &Cluster,
    p: u8,
    app: u32,
    place: u64,
    out: &mut Vec<Offered>,
) -> Result<(), AllocError>
    requires live { IsLive app cluster.now.rows.apps }
    requires partition { HasPartition cluster.now.rows p }
    ensures { OnOk result ((row : AppRow)
        → lookup (nat_eq app) cluster.now.rows.apps ≡ Some row
        → map shown out.new.items
        ≡ map shown out.old.items ++ asked_shown cluster.now.rows p place app row) }
{
    let inventory = cluster.inventory();
    if !inventory.runs(app) {
        return Ok(());
    }
    let asks = inventory.app(app).asks.as_slice();
    for ask in asks {
        add_ask(cluster, p, app, place, ask, out)?;
    }
    Ok(())
}

/// The list becomes that of the live applications of a leaf, in the order of submission. Each has a seat in
/// the leaf's lane on DEFAULT, wherever it is at home.
pub(crate) fn list_apps(
    cluster: &Cluster,
    leaf: usize,
    apps: &mut Vec<u32>,
) -> Result<(), AllocError>
    requires { HasNumber cluster.now.rows.paths leaf }
    ensures { OnOk result (AreAppsOf cluster.now.rows leaf apps.new.items) }
{
    // Opens the inventory, which has DEFAULT.
    let _ = cluster.inventory();
    cluster.lane(0, leaf).list_apps(apps)
}

/// What is wanted of a leaf on a partition.
pub(crate) fn list_of(
    alloc: Global,
    cluster: &Cluster,
    p: u8,
    leaf: usize,
) -> Result<LeafList, AllocError>
    requires { IsCell cluster.now p leaf }
    ensures { IfOk result (IsListOf cluster.now.rows p leaf) }
{
    // Opens the inventory, whose rows are sound.
    let _ = cluster.inventory();
    let mut listed = Vec::new(alloc);
    list_apps(cluster, leaf, &mut listed)?;
    let apps = listed.as_slice();
    let mut masters = Vec::new(alloc);
    let mut asks = Vec::with_capacity(alloc, apps.len())?;
    for i in 0..apps.len() {
        add_master(cluster, p, apps[i], i as u64, &mut masters)?;
        add_asks(cluster, p, apps[i], i as u64, &mut asks)?;
    }
    Ok(LeafList { masters, asks })
}
