//! What is told of the rows under a number.

ghost use Rattle.std.specs.Prelude.{◌≡◌, ◌<◌, length, nat_eq, slice_get, IfSome, Some};
ghost use Rattle.std.specs.Map.{lookup};
ghost use Rattle.ynl_resource.specs.Names.{tenant_of};
ghost use Rattle.ynl_slots.specs.Slots.{IsLive};
ghost use Rattle.ynl_tables.specs.declared.apps.asks.Ask.{Ask as AskPart};
ghost use Rattle.ynl_inventory.specs.Rows.{AppRow};
ghost use Rattle.ynl_inventory.specs.Meaning.{app_of, ask_of};
ghost use Rattle.ynl_inventory.specs.Sound.{HasPartition};
ghost use Rattle.ynl_cluster.specs.Cluster.{state_in};
ghost use Rattle.ynl_saved.specs.declared.lines.StateLine.TheVariants.{Ask as AskLine};
ghost use Rattle.ynl_saved.specs.Saving.{live_line, partition_line};

use ynl_cluster::Cluster;
use ynl_model::AskRow;
use ynl_replies::path_of;
use ynl_saved::StateLine;

/// The line of a partition.
pub(crate) fn partition_line(cluster: &Cluster, p: u8) -> StateLine
    requires { HasPartition cluster.now.rows p }
    ensures { IfSome (slice_get (state_in cluster.now).partitions p)
        (λ row. result ≡ partition_line row) }
{
    let inventory = cluster.inventory();
    StateLine::Partition {
        label: *inventory.label(p),
        clock: inventory.clock(p),
    }
}

/// The line of a live application.
pub(crate) fn live_line(cluster: &Cluster, app: u32) -> StateLine
    requires { IsLive app cluster.now.rows.apps }
    ensures { (row : AppRow) → lookup (nat_eq app) cluster.now.rows.apps ≡ Some row
        → result ≡ live_line (app_of cluster.now.rows (app, row)) }
{
    let inventory = cluster.inventory();
    let row = inventory.app(app);
    StateLine::Live {
        queue: path_of(cluster, row.leaf as usize),
        app: *inventory.app_name(app),
        user: *inventory.user_name(row.user),
        label: *inventory.label(row.home),
        master: row.master_size,
    }
}

/// The line of what a live application asks for, in this place among its asks.
pub(crate) fn ask_line(cluster: &Cluster, app: u32, place: usize) -> StateLine
    requires live { IsLive app cluster.now.rows.apps }
    requires there { IfSome (lookup (nat_eq app) cluster.now.rows.apps)
        (λ row. place < length row.asks) }
    ensures { (row : AppRow) (ask : AskPart) → lookup (nat_eq app) cluster.now.rows.apps ≡ Some row
        → slice_get row.asks place ≡ Some ask
        → result ≡ AskLine (tenant_of (app_of cluster.now.rows (app, row)).leaf)
        (app_of cluster.now.rows (app, row)).name (ask_of cluster.now.rows.partitions ask) }
{
    let inventory = cluster.inventory();
    let row = inventory.app(app);
    let ask = &row.asks.as_slice()[place];
    StateLine::Ask {
        tenant: inventory.tenant_name(row.tenant),
        app: *inventory.app_name(app),
        ask: AskRow {
            label: *inventory.label(ask.partition),
            priority: ask.priority,
            count: ask.count,
            size: ask.size,
        },
    }
}
