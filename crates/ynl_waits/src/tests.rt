//! Tests of a request.

ghost use Rattle.std.specs.Prelude.{◌≡◌, ◌+◌, nat_le};
ghost use Rattle.ynl_resource.specs.Names.{same_name, tenant_of};
ghost use Rattle.ynl_resource.specs.Amounts.{plus, fits_in};
ghost use Rattle.ynl_waits.specs.Waits.{is_for, is_ready, same_what};

use crate::waits::{Applicant, Request};
use ynl_model::{Proposal, What};
use ynl_resource::{Name, Path, Resource};

fn fits_beside(used: u64, size: u64, limit: u64) -> bool
    ensures { result ≡ nat_le (used + size) limit }
{
    size <= limit && used <= limit - size
}

/// Whether a size, beside what is used, is within a limit.
pub fn fits_on_top(used: &Resource, size: &Resource, limit: &Resource) -> bool
    ensures { result ≡ fits_in (plus used.now size.now) limit.now }
{
    fits_beside(used.memory, size.memory, limit.memory)
        && fits_beside(used.vcores, size.vcores, limit.vcores)
}

/// Whether an application is ready for a request: while it waits for its master, and while it runs for what it asks for.
pub fn is_ready(app: &Applicant, what: &What) -> bool
    ensures { result ≡ is_ready app.now what.now }
{
    match what {
        What::Master => !app.runs,
        What::Ask(_, _) => app.runs,
    }
}

fn is_same_what(a: &What, b: &What) -> bool
    ensures { result ≡ same_what a.now b.now }
{
    match (a, b) {
        (What::Master, What::Master) => true,
        (What::Ask(label, priority), What::Ask(other, number)) => {
            *label == *other && *priority == *number
        }
        _ => false,
    }
}

fn is_tenant(tenant: &Name, leaf: &Path) -> bool
    ensures { result ≡ same_name tenant.now (tenant_of leaf.now) }
{
    match leaf.names().first() {
        Some(name) => *tenant == *name,
        None => tenant.as_bytes().is_empty(),
    }
}

/// Whether a proposal is for a request.
pub fn is_for(app: &Applicant, request: &Request, proposal: &Proposal) -> bool
    ensures { result ≡ is_for app.now request.now proposal.now }
{
    is_tenant(&proposal.tenant, &app.leaf)
        && proposal.app == app.name
        && is_same_what(&proposal.what, &request.what)
}
