//! Partitions by their labels.

ghost use Rattle.std.specs.Prelude.{◌≡◌, ◌≢◌, ◌≤◌, ◌<◌, ◌^◌, ℕ, is_some, length, IfNone, IfSome};
ghost use Rattle.ynl_resource.specs.Names.{same_label};
ghost use Rattle.ynl_model.specs.Nodes.{has_label};
ghost use Rattle.ynl_inventory.specs.Meaning.{label_at};
ghost use Rattle.ynl_inventory.specs.Sound.{HasPartition};
ghost use Rattle.ynl_replies.specs.admission.Named.{IsPartitionOf};

use ynl_cluster::Cluster;
use ynl_inventory::Inventory;
use ynl_resource::Label;

/// Whether a partition has a label.
pub(crate) fn is_labelled(inventory: &Inventory, p: u8, label: &Label) -> bool
    requires { HasPartition inventory.now.rows p }
    ensures { result ≡ same_label (label_at inventory.now.rows.partitions p) label.now }
{
    *inventory.label(p) == *label
}

/// The number of the partition of a label, if there is one.
fn partition_with(inventory: &Inventory, label: &Label) -> Option<u8>
    requires { length inventory.now.rows.partitions ≤ 2 ^ 8 }
    ensures there { IfSome result (HasPartition inventory.now.rows) }
    ensures own { IfSome result (λ p. label_at inventory.now.rows.partitions p ≡ label.now) }
    ensures none { IfNone result ((p : ℕ) → p < length inventory.now.rows.partitions
        → label_at inventory.now.rows.partitions p ≢ label.now) }
{
    for number in 0..inventory.partition_count() {
        let p = number as u8;
        if is_labelled(inventory, p, label) {
            return Some(p);
        }
    }
    None
}

/// The number of the partition of a label, if there is one.
pub fn partition_of(cluster: &Cluster, label: &Label) -> Option<u8>
    ensures some { IfSome result (IsPartitionOf cluster.now label.now) }
    ensures known { is_some result ≡ has_label cluster.now.config.labels label.now }
{
    partition_with(cluster.inventory(), label)
}
