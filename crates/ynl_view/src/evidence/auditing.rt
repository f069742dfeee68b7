//! The audit of evidence.

ghost use Rattle.std.specs.Prelude.{◌≡◌, [], None, IsTrue, OnOk, IfErr};
ghost use Rattle.ynl_model.specs.View.{is_sole};
ghost use Rattle.ynl_view.specs.evidence.Flaws.{flaw_of, IsFault};
ghost use Rattle.ynl_view.specs.evidence.Promises.{IsRight};
ghost use Rattle.ynl_view.specs.evidence.Trials.{IsTrialOf};

use crate::evidence::flaws::EvidenceFault;
use crate::evidence::trial::Trial;
use std::alloc::Global;
use ynl_model::Entry;
use ynl_queues::Config;
use ynl_resource::{Label, Name};

/// Takes the entries in order with a trial that was just opened.
fn audit_on(
    trial: &mut Trial,
    config: &Config,
    tenant: &Name,
    label: &Label,
    placed: &[(u64, Entry)],
) -> Result<(), EvidenceFault>
    requires { IsTrialOf config.now tenant.now [] trial.old }
    ensures ok { OnOk result (flaw_of config.now tenant.now label.now placed.now ≡ None) }
    ensures err { IfErr result (IsFault config.now tenant.now label.now placed.now) }
{
    for (i, (place, entry)) in placed.iter().enumerate() {
        if let Some(flaw) = trial.take(config, tenant, label, *place, entry)? {
            return Err(EvidenceFault::Flawed(i as u64 + 1, flaw));
        }
    }
    Ok(())
}

/// Applies the events in order to a cluster of this configuration that holds the tenant alone, and compares
/// each reply that is there. Before that each entry is tested: its place is above the one before, and its
/// event is one that the tenant's view of the evidence keeps as it is. So nobody else's journal is needed
/// to check that the tenant was served as if alone. Whether the evidence is whole it does not tell.
pub fn audit_evidence(
    alloc: Global,
    config: Config,
    tenant: &Name,
    label: &Label,
    placed: &[(u64, Entry)],
) -> Result<(), EvidenceFault>
    requires { IsTrue (is_sole config tenant.now label.now) }
    ensures ok { OnOk result (flaw_of config tenant.now label.now placed.now ≡ None) }
    ensures right { OnOk result (IsRight config tenant.now label.now placed.now) }
    ensures err { IfErr result (IsFault config tenant.now label.now placed.now) }
{
    match Trial::open(alloc, &config, tenant) {
        Ok(mut trial) => audit_on(&mut trial, &config, tenant, label, placed),
        Err(_) => Err(EvidenceFault::NoMemory),
    }
}
