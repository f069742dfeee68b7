//! Tenants that alone may use an exclusive partition.

ghost use Rattle.std.specs.Prelude.{◌≡◌, ◌&&◌, ◌||◌, not};
ghost use Rattle.std.specs.List.{list_any, list_all};
ghost use Rattle.ynl_resource.specs.Names.{is_default, same_path, top_level};
ghost use Rattle.ynl_model.specs.Nodes.{has_label, is_exclusive};
ghost use Rattle.ynl_model.specs.Queues.{may_use};
ghost use Rattle.ynl_model.specs.View.{is_sole, top_levels};

use ynl_queues::Config;
use ynl_queues::labels::Labels;
use ynl_resource::{Label, Name};

/// Whether the label is configured by a name, as an exclusive one.
fn is_exclusive_name(labels: &Labels, label: &Label) -> bool
    ensures { result ≡ (not (is_default label.now) && has_label labels.now label.now && is_exclusive labels.now label.now) }
{
    match label {
        Label::Unlabelled => false,
        Label::Named(_) => labels.has(label) && labels.exclusive(label),
    }
}

/// Whether the tenant has a top-level queue.
fn has_top_level(config: &Config, tenant: &Name) -> bool
    ensures { result ≡ list_any (same_path (top_level tenant.now)) (top_levels config.now) }
{
    config
        .queues()
        .iter()
        .map(|row| row.path)
        .filter(|queue| queue.names().len() == 1)
        .any(|queue| [*tenant].as_slice() == queue.names())
}

/// Whether no top-level queue but the tenant's may use the label.
fn no_other_may_use(config: &Config, tenant: &Name, label: &Label) -> bool
    ensures { result ≡ list_all (λ queue. same_path queue (top_level tenant.now) || not (may_use config.now queue label.now)) (top_levels config.now) }
{
    config
        .queues()
        .iter()
        .map(|row| row.path)
        .filter(|queue| queue.names().len() == 1)
        .all(|queue| queue.names() == [*tenant].as_slice() || !config.may_use(queue.names(), label))
}

/// Whether the tenant alone may use the label, which is configured as an exclusive one: no top-level
/// queue but the tenant's may use it.
#[tactic(auto, unfolding(ynl_model::specs::View::is_sole))]
pub fn sole(config: &Config, tenant: &Name, label: &Label) -> bool
    ensures { result ≡ is_sole config.now tenant.now label.now }
{
    is_exclusive_name(config.labels(), label)
        && has_top_level(config, tenant)
        && config.may_use(&[*tenant], label)
        && no_other_may_use(config, tenant, label)
}
