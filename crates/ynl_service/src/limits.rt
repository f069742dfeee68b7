//! The limits that a request for the partition of a node may pass.

ghost use Rattle.std.specs.Prelude.{◌≡◌, ◌||◌, nat_eq, not, true, IfSome, Some};
ghost use Rattle.std.specs.Map.{lookup};
ghost use Rattle.ynl_resource.specs.Amounts.{fits_in};
ghost use Rattle.ynl_resource.specs.Refusals.{first_that_holds};
ghost use Rattle.ynl_model.specs.declared.nodes.Node.{Node};
ghost use Rattle.ynl_model.specs.Cluster.{free};
ghost use Rattle.ynl_inventory.specs.layout.Paths.{HasNumber};
ghost use Rattle.ynl_slots.specs.Slots.{IsLive};
ghost use Rattle.ynl_lanes.specs.lane.Rows.{IsUse};
ghost use Rattle.ynl_inventory.specs.Rows.{AppRow};
ghost use Rattle.ynl_inventory.specs.Apps.{is_master_role};
ghost use Rattle.ynl_inventory.specs.Meaning.{item_of};
ghost use Rattle.ynl_inventory.specs.Sound.{HasPartition};
ghost use Rattle.ynl_cluster.specs.seating.Seating.{shares, user_use};
ghost use Rattle.ynl_cluster.specs.Cluster.{label_of, state_in};
ghost use Rattle.ynl_search.specs.Leaves.{keeps_share};
ghost use Rattle.ynl_search.specs.Places.{IsSmallPlace};
ghost use Rattle.ynl_search.specs.Scenes.{IsPlaceOf};
ghost use Rattle.ynl_service.specs.Checking.{limit_reasons};

use ynl_cluster::Cluster;
use ynl_inventory::Placement;
use ynl_resource::{Refusal, Resource};
use ynl_search::notes::lane_of;
use ynl_search::{LeafTests, Place, child_at, root_at, tests_of, ticket_of};
use ynl_tables::containers::Role;

/// The place of a queue on a partition where so much is free: the queues on the way to it are gone
/// through from root.
pub fn place_of(cluster: &Cluster, p: u8, queue: usize, room: Resource) -> Place
    requires partition { HasPartition cluster.now.rows p }
    requires there { HasNumber cluster.now.rows.paths queue }
    ensures place { IsPlaceOf cluster.now p room result }
    ensures small { IsSmallPlace result }
    ensures queue { result.queue ≡ queue }
{
    let inventory = cluster.inventory();
    let line = inventory.layout().line(queue);
    let mut place = root_at(cluster, p, room);
    for at in 1..line.len() {
        place = child_at(cluster, p, &place, line[at]);
    }
    place
}

/// What the user of an application uses of its leaf's part of a partition that it shares.
pub fn used_by(cluster: &Cluster, p: u8, app: u32) -> Resource
    requires live { IsLive app cluster.now.rows.apps }
    requires partition { HasPartition cluster.now.rows p }
    requires shares { IfSome (lookup (nat_eq app) cluster.now.rows.apps)
        (λ row. shares p row ≡ true) }
    ensures value { (row : AppRow) → lookup (nat_eq app) cluster.now.rows.apps ≡ Some row
        → result ≡ user_use cluster.now.rows p row.leaf row.user }
    ensures small { IsUse result }
{
    let row = cluster.inventory().app(app);
    let lane = lane_of(cluster, p, row.leaf as usize);
    let Some(ticket) = ticket_of(row, p) else {
        unreachable!()
    };
    let Some(used) = lane.find_used(ticket) else {
        unreachable!()
    };
    used
}

/// Whether a request keeps its leaf's share for masters, which is tested for masters alone.
fn keeps_share(tests: &LeafTests, placed: &Placement) -> bool
    ensures { result ≡ (not (is_master_role placed.now.role)
        || keeps_share tests.now placed.now.size) }
{
    match placed.role {
        Role::Master => tests.keeps_share(&placed.size),
        Role::Ask { .. } => true,
    }
}

/// The first limit that a request would pass on a partition where it fits in what is free.
pub(crate) fn limit_refusal(
    cluster: &Cluster,
    p: u8,
    room: Resource,
    placed: &Placement,
) -> Option<Refusal>
    requires live { IsLive placed.now.app cluster.now.rows.apps }
    requires partition { HasPartition cluster.now.rows p }
    requires shares { IfSome (lookup (nat_eq placed.now.app) cluster.now.rows.apps)
        (λ row. shares p row ≡ true) }
    requires fits { fits_in placed.now.size room ≡ true }
    ensures { (node : Node) (row : AppRow) → node.label ≡ label_of cluster.now p
        → room ≡ free (state_in cluster.now) node
        → lookup (nat_eq placed.now.app) cluster.now.rows.apps ≡ Some row
        → result ≡ first_that_holds (limit_reasons cluster.now.config (state_in cluster.now)
        node.label (item_of cluster.now.rows row placed.now.role placed.now.size)) }
{
    let row = cluster.inventory().app(placed.app);
    let place = place_of(cluster, p, row.leaf as usize, room);
    let tests = tests_of(cluster, p, &place);
    let size = placed.size.amount();
    if !place.headroom.allows(&size) {
        return Some(Refusal::OverMaximum);
    }
    let used = used_by(cluster, p, placed.app);
    if !tests.keeps_limit(&used, &placed.size) {
        return Some(Refusal::OverUserLimit);
    }
    if !keeps_share(&tests, placed) {
        return Some(Refusal::OverMasterShare);
    }
    None
}
