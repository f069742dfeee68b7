//! What an explanation reads of a cluster.

ghost use Rattle.std.specs.Prelude.{◌≡◌, ◌≤◌, IfOk, Some, length, option_map, take};
ghost use Rattle.std.specs.List.{Contains};
ghost use Rattle.ynl_model.specs.Applications.{Application, find_app};
ghost use Rattle.ynl_model.specs.Check.{proposed};
ghost use Rattle.ynl_model.specs.Cluster.{State, guaranteed, is_spent, masters_used, maximum, used, user_used};
ghost use Rattle.ynl_model.specs.Events.{pending_on};
ghost use Rattle.ynl_model.specs.Limits.{master_limit, user_limit};
ghost use Rattle.ynl_model.specs.Nodes.{partition_labels};
ghost use Rattle.ynl_model.specs.Queues.{Config};
ghost use Rattle.ynl_model.specs.Service.{no_master_in, takes_guests};
ghost use Rattle.ynl_waits.specs.Grounds.{all_spots};
ghost use Rattle.ynl_service.specs.reading.reasons.Facts.{found_of, IsAsking};

use std::alloc::{AllocError, Global};
use ynl_model::{Node, Pending, Proposal};
use ynl_resource::{Label, Name, Resource, Size};
use ynl_waits::{Applicant, Spot};

/// A live application, with what is wanted for its master.
#[derive(Clone, Copy)]
pub struct Found {
    pub applicant: Applicant,
    pub home: Label,
    pub master: Size,
}

/// A cluster, as an explanation reads it.
pub trait Facts {
    ghost config: { Self → Config };

    ghost state: { Self → State };

    /// The live application of a tenant and a name.
    fn find(&self, tenant: &Name, name: &Name) -> Option<Found>
        ensures { result ≡ option_map (found_of (state self.now)) (find_app (state self.now).leaves tenant.now name.now) };

    /// What a live application asks for under a label, by priority.
    fn asks(
        &self,
        alloc: Global,
        tenant: &Name,
        name: &Name,
        label: &Label,
    ) -> Result<Vec<Pending>, AllocError>
        ensures { IfOk result (λ asks. (app : Application) → find_app (state self.now).leaves tenant.now name.now ≡ Some app → asks.items ≡ pending_on label.now app) };

    /// The labels of all partitions, DEFAULT first and then as configured.
    fn labels(&self, alloc: Global) -> Result<Vec<Label>, AllocError>
        ensures { IfOk result (λ labels. labels.items ≡ partition_labels (config self.now).labels) };

    /// Whether a partition takes guests.
    fn takes_guests(&self, label: &Label) -> bool
        ensures { result ≡ takes_guests (config self.now) label.now };

    /// Whether the clock of a partition is spent.
    fn is_spent(&self, label: &Label) -> bool
        ensures { result ≡ is_spent (config self.now).labels (state self.now) label.now };

    /// All nodes, each with what is free on it.
    fn spots(&self, alloc: Global) -> Result<Vec<Spot>, AllocError>
        ensures { IfOk result (λ spots. spots.items ≡ all_spots (state self.now)) };

    /// The choice on one of the nodes, as a proposal.
    fn choice_on(&self, node: &Node) -> Option<Proposal>
        requires { Contains (state self.now).nodes node.now }
        ensures { result ≡ proposed (config self.now) (state self.now) node.now };

    /// What a queue on the way to an application's leaf uses of a partition.
    fn used(&self, app: &Applicant, depth: usize, label: &Label) -> Resource
        requires asks { IsAsking (state self.now) app.now label.now }
        requires depth { depth ≤ length app.now.leaf }
        ensures { result ≡ used (state self.now) (take depth app.now.leaf) label.now };

    /// The most that a queue on the way to an application's leaf may use of a partition.
    fn maximum(&self, app: &Applicant, depth: usize, label: &Label) -> Resource
        requires asks { IsAsking (state self.now) app.now label.now }
        requires depth { depth ≤ length app.now.leaf }
        ensures { result ≡ maximum (state self.now) (take depth app.now.leaf) label.now };

    /// What an application's leaf is guaranteed of a partition.
    fn guaranteed(&self, app: &Applicant, label: &Label) -> Resource
        requires { IsAsking (state self.now) app.now label.now }
        ensures { result ≡ guaranteed (config self.now) (state self.now) app.now.leaf label.now };

    /// What an application's user uses of a partition in its leaf.
    fn user_used(&self, app: &Applicant, label: &Label) -> Resource
        requires { IsAsking (state self.now) app.now label.now }
        ensures { result ≡ user_used (state self.now) app.now.leaf app.now.user label.now };

    /// The user limit of an application's leaf on a partition, for a request of a size.
    fn user_limit(&self, app: &Applicant, label: &Label, size: &Size) -> Resource
        requires { IsAsking (state self.now) app.now label.now }
        ensures { result ≡ user_limit (config self.now) (state self.now)
            app.now.leaf label.now size.now };

    /// What the masters of an application's leaf use of a partition.
    fn masters_used(&self, app: &Applicant, label: &Label) -> Resource
        requires { IsAsking (state self.now) app.now label.now }
        ensures { result ≡ masters_used (state self.now) app.now.leaf label.now };

    /// The master limit of an application's leaf on a partition.
    fn master_limit(&self, app: &Applicant, label: &Label) -> Resource
        requires { IsAsking (state self.now) app.now label.now }
        ensures { result ≡ master_limit (config self.now) (state self.now)
            app.now.leaf label.now };

    /// Whether no master of an application's leaf holds a container on a partition.
    fn has_no_master(&self, app: &Applicant, label: &Label) -> bool
        requires { IsAsking (state self.now) app.now label.now }
        ensures { result ≡ no_master_in (state self.now) app.now.leaf label.now };
}
