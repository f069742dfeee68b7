//! The cluster of one tenant alone.

ghost use Rattle.std.specs.Prelude.{◌≡◌, IfOk};
ghost use Rattle.ynl_model.specs.View.{restrict};

use std::alloc::Global;
use ynl_core::NoMemory;
use ynl_queues::Config;
use ynl_resource::Name;

/// The configuration without the queues of other tenants. The labels and the limits stay, so that the
/// capacities below root need not come to the whole.
pub fn restrict(alloc: Global, config: &Config, tenant: &Name) -> Result<Config, NoMemory>
    ensures { IfOk result (λ alone. alone ≡ restrict config.now tenant.now) }
{
    Ok(config.only(alloc, tenant)?)
}
