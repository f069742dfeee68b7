//! Applications by their names, and what they do: they ask, finish, and look at what they have.

ghost use Rattle.std.specs.Prelude.{◌≡◌, ◌≤◌, ◌^◌, ◌∷◌, ◌&&◌, not, nat_eq, count_by, length, None, Some, IfErr, IfNone, IfOk, IfSome};
ghost use Rattle.ynl_resource.specs.Amounts.{fits_in};
ghost use Rattle.ynl_resource.specs.Names.{root};
ghost use Rattle.ynl_resource.specs.Refusals.{first_that_holds};
ghost use Rattle.ynl_model.specs.Applications.{find_app};
ghost use Rattle.ynl_model.specs.Events.{reasons};
ghost use Rattle.ynl_model.specs.declared.events.Event.TheVariants as event;
ghost use Rattle.ynl_inventory.specs.layout.Paths.{HasNoChild, IsChildOf};
ghost use Rattle.ynl_cluster.specs.Cluster.{state_in};
ghost use Rattle.ynl_replies.specs.admission.Asks.{is_foreign_at, is_one_too_many_at};
ghost use Rattle.ynl_replies.specs.admission.Named.{IsAppNamed, IsPartitionOf};
ghost use Rattle.ynl_replies.specs.admission.Admitted.{CanAskAs};

use crate::admission::partitions::partition_of;
use ynl_cluster::Cluster;
use ynl_inventory::Inventory;
use ynl_model::AskRow;
use ynl_resource::{Label, MOST_ASKS, Name, Refusal, Size};
use ynl_tables::apps::{Ask, Asks};

/// An application by its number, and what it asks for.
#[derive(Clone, Copy)]
pub struct Asking {
    pub app: u32,
    pub ask: Ask,
}

/// An application and a partition, each by its number.
#[derive(Clone, Copy)]
pub struct Inquiry {
    pub app: u32,
    pub partition: u8,
}

/// The number of a tenant, if there is one of that name.
pub(crate) fn tenant_of(inventory: &Inventory, tenant: &Name) -> Option<u32>
    requires { length (root ∷ inventory.now.rows.paths) ≤ 2 ^ 32 }
    ensures some { IfSome result (IsChildOf inventory.now.rows.paths 0 tenant.now) }
    ensures none { IfNone result (HasNoChild inventory.now.rows.paths 0 tenant.now) }
{
    match inventory.layout().child(0, tenant) {
        Some(number) => Some(number as u32),
        None => None,
    }
}

/// The number of the live application of a tenant and a name, if there is one.
pub fn app_named(cluster: &Cluster, tenant: &Name, name: &Name) -> Option<u32>
    ensures some { IfSome result (IsAppNamed cluster.now tenant.now name.now) }
    ensures none { IfNone result (find_app (state_in cluster.now).leaves tenant.now name.now
        ≡ None) }
{
    let inventory = cluster.inventory();
    match tenant_of(inventory, tenant) {
        Some(number) => inventory.find_app(number, name),
        None => None,
    }
}

/// The application that finishes, or the first reason for which none does.
#[tactic(auto, unfolding(ynl_model::specs::Events::reasons))]
pub fn finish(cluster: &Cluster, tenant: &Name, name: &Name) -> Result<u32, Refusal>
    ensures refused { IfErr result (λ refusal.
        first_that_holds (reasons cluster.now.config (state_in cluster.now)
        (event.Finish tenant.now name.now)) ≡ Some refusal) }
    ensures free { IfOk result (λ _.
        first_that_holds (reasons cluster.now.config (state_in cluster.now)
        (event.Finish tenant.now name.now)) ≡ None) }
    ensures app { IfOk result (IsAppNamed cluster.now tenant.now name.now) }
{
    match app_named(cluster, tenant, name) {
        Some(app) => Ok(app),
        None => Err(Refusal::NoSuchApplication),
    }
}

/// The application and the partition of which it is told what it has there, or the first reason
/// for which it is not.
#[tactic(auto, unfolding(ynl_model::specs::Events::reasons))]
pub fn poll(
    cluster: &Cluster,
    tenant: &Name,
    name: &Name,
    label: &Label,
) -> Result<Inquiry, Refusal>
    ensures refused { IfErr result (λ refusal.
        first_that_holds (reasons cluster.now.config (state_in cluster.now)
        (event.Poll tenant.now name.now label.now)) ≡ Some refusal) }
    ensures free { IfOk result (λ _.
        first_that_holds (reasons cluster.now.config (state_in cluster.now)
        (event.Poll tenant.now name.now label.now)) ≡ None) }
    ensures app { IfOk result (λ inquiry.
        IsAppNamed cluster.now tenant.now name.now inquiry.app) }
    ensures partition { IfOk result (λ inquiry.
        IsPartitionOf cluster.now label.now inquiry.partition) }
{
    let Some(app) = app_named(cluster, tenant, name) else {
        return Err(Refusal::NoSuchApplication);
    };
    let Some(partition) = partition_of(cluster, label) else {
        return Err(Refusal::NoSuchLabel);
    };
    Ok(Inquiry { app, partition })
}

/// Whether a container of this size is larger than the largest that is given.
pub fn is_too_large(cluster: &Cluster, size: &Size) -> bool
    ensures { result ≡ not (fits_in size.now cluster.now.config.maximum_allocation) }
{
    let largest = cluster.config().maximum_allocation();
    !size.amount().fits_in(largest.amount())
}

/// Whether a partition is neither DEFAULT nor an application's home.
fn is_foreign(p: u8, home: u8) -> bool
    ensures { result ≡ is_foreign_at p home }
{
    p != 0 && home != p
}

fn count_asks_on(asks: &[Ask], p: u8) -> usize
    ensures { result ≡ count_by (λ ask. nat_eq ask.partition p) asks.now }
{
    asks.iter().filter(|ask| ask.partition == p).count()
}

/// Whether an ask would be one too many on its partition, beside those that an application has.
fn is_one_too_many(asks: &Asks, ask: &Ask) -> bool
    ensures { result ≡ is_one_too_many_at ask.now.partition
        ask.now.priority ask.now.count asks.now }
{
    ask.count > 0
        && asks.find(ask.partition, ask.priority).is_none()
        && count_asks_on(asks.as_slice(), ask.partition) >= MOST_ASKS
}

/// The application that asks, and for what, or the first reason for which the ask is refused.
#[tactic(auto, unfolding(ynl_model::specs::Events::reasons))]
pub fn ask(cluster: &Cluster, tenant: &Name, name: &Name, ask: &AskRow) -> Result<Asking, Refusal>
    ensures refused { IfErr result (λ refusal.
        first_that_holds (reasons cluster.now.config (state_in cluster.now)
        (event.Ask tenant.now name.now ask.now.label ask.now.priority ask.now.count ask.now.size))
        ≡ Some refusal) }
    ensures free { IfOk result (λ _.
        first_that_holds (reasons cluster.now.config (state_in cluster.now)
        (event.Ask tenant.now name.now ask.now.label ask.now.priority ask.now.count ask.now.size))
        ≡ None) }
    ensures asks { IfOk result (CanAskAs cluster.now tenant.now name.now ask.now) }
{
    let Some(app) = app_named(cluster, tenant, name) else {
        return Err(Refusal::NoSuchApplication);
    };
    let Some(partition) = partition_of(cluster, &ask.label) else {
        return Err(Refusal::NoSuchLabel);
    };
    let row = cluster.inventory().app(app);
    if is_foreign(partition, row.home) {
        return Err(Refusal::LabelMismatch);
    }
    if is_too_large(cluster, &ask.size) {
        return Err(Refusal::TooLarge);
    }
    let by_number = Ask {
        partition,
        priority: ask.priority,
        count: ask.count,
        size: ask.size,
    };
    if is_one_too_many(&row.asks, &by_number) {
        return Err(Refusal::TooManyAsks);
    }
    Ok(Asking {
        app,
        ask: by_number,
    })
}
