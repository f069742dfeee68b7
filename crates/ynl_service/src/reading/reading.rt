//! What an explanation reads of a cluster.

ghost use Rattle.std.specs.Prelude.{◌≡◌, IfOk};
ghost use Rattle.ynl_cluster.specs.Cluster.{state_in};
ghost use Rattle.ynl_waits.specs.Waits.{explained_of};

use crate::reading::asking::{asks_in, found_in, user_used_at};
use crate::reading::cells::{leaf_guaranteed, leaf_used, maximum_at, used_at};
use crate::reading::gathering::{choice_on, is_spent, labels_of, spots_of, takes_guests};
use crate::reading::limits::{master_limit_of, user_limit_of};
use crate::reading::reasons::{Facts, Found, explain as explain_by};
use std::alloc::{AllocError, Global};
use std::marker::Model;
use ynl_cluster::Cluster;
use ynl_model::{Node, Pending, Proposal};
use ynl_resource::{Label, Name, Resource, Size};
use ynl_waits::{Applicant, Explained, Spot};

/// A cluster that is read. A contract sees the configuration and the state.
#[derive(Drop)]
struct Reading<'a> {
    alloc: Global,
    cluster: &'a Cluster,
}

impl<'a> Model for Reading<'a> {
    ghost use Rattle.ynl_service.specs.reading.Seen.{Seen, seen_of};

    ghost Value = { Seen };

    ghost view = { seen_of };
}

impl<'a> Facts for Reading<'a> {
    ghost config = { λ r. r.config };

    ghost state = { λ r. r.state };

    fn find(&self, tenant: &Name, name: &Name) -> Option<Found> {
        found_in(self.cluster, tenant, name)
    }

    fn asks(
        &self,
        alloc: Global,
        tenant: &Name,
        name: &Name,
        label: &Label,
    ) -> Result<Vec<Pending>, AllocError> {
        asks_in(alloc, self.cluster, tenant, name, label)
    }

    fn labels(&self, alloc: Global) -> Result<Vec<Label>, AllocError> {
        labels_of(alloc, self.cluster.config())
    }

    fn takes_guests(&self, label: &Label) -> bool {
        takes_guests(self.cluster.config(), label)
    }

    fn is_spent(&self, label: &Label) -> bool {
        is_spent(self.cluster, label)
    }

    fn spots(&self, alloc: Global) -> Result<Vec<Spot>, AllocError> {
        spots_of(alloc, self.cluster)
    }

    fn choice_on(&self, node: &Node) -> Option<Proposal> {
        choice_on(self.alloc, self.cluster, node)
    }

    fn used(&self, app: &Applicant, depth: usize, label: &Label) -> Resource {
        used_at(self.cluster, app, depth, label).used
    }

    fn maximum(&self, app: &Applicant, depth: usize, label: &Label) -> Resource {
        maximum_at(self.cluster, app, depth, label)
    }

    fn guaranteed(&self, app: &Applicant, label: &Label) -> Resource {
        leaf_guaranteed(self.cluster, app, label)
    }

    fn user_used(&self, app: &Applicant, label: &Label) -> Resource {
        user_used_at(self.cluster, app, label)
    }

    fn user_limit(&self, app: &Applicant, label: &Label, size: &Size) -> Resource {
        user_limit_of(self.cluster, &app.leaf, label, size)
    }

    fn masters_used(&self, app: &Applicant, label: &Label) -> Resource {
        leaf_used(self.cluster, app, label).masters
    }

    fn master_limit(&self, app: &Applicant, label: &Label) -> Resource {
        master_limit_of(self.cluster, &app.leaf, label)
    }

    fn has_no_master(&self, app: &Applicant, label: &Label) -> bool {
        leaf_used(self.cluster, app, label).master_count == 0
    }
}

/// Why the requests of a tenant's application wait. It fails if memory is refused.
pub fn explain(
    alloc: Global,
    cluster: &Cluster,
    tenant: &Name,
    app: &Name,
) -> Result<Explained, AllocError>
    ensures { IfOk result (λ explained.
        explained ≡ explained_of cluster.now.config (state_in cluster.now) tenant.now app.now) }
{
    let reading = Reading { alloc, cluster };
    explain_by(alloc, &reading, tenant, app)
}
