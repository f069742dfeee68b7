//! The cluster that takes one event after another.

ghost use Rattle.std.specs.Prelude.{◌≡◌, Some, None, Ok, IfOk, IfErr, OnErr, IsOk, IsTrue};
ghost use Rattle.std.specs.Option.{option_and_then};
ghost use Rattle.ynl_resource.specs.Refusals.{first_that_holds};
ghost use Rattle.ynl_model.specs.declared.events.Event.TheVariants.{Propose};
ghost use Rattle.ynl_model.specs.Check.{proposed, commit_reasons};
ghost use Rattle.ynl_model.specs.Cluster.{containers_on, node_of};
ghost use Rattle.ynl_model.specs.Limits.{user_limit, master_limit};
ghost use Rattle.ynl_cluster.specs.Cluster.{state_in};
ghost use Rattle.ynl_core.specs.Explaining.{OfRequests};
ghost use Rattle.ynl_core.specs.Reached.{WorksAndIsTold};
ghost use Rattle.ynl_core.specs.Sure.{takes_no_memory};
ghost use Rattle.ynl_core.specs.Sightings.{IsSighting, reply_by};
ghost use Rattle.ynl_core.specs.World.{opened, done_unless, Answers};
ghost use Rattle.ynl_laws.specs.Working.{IsWorking};
ghost use Rattle.ynl_waits.specs.Laws.{AreNextPlaced, IsNotCommitted, IsNotPlaced, IsTold, OfEach};
ghost use Rattle.ynl_waits.specs.Waits.{explained_of};

use crate::memory::NoMemory;
use crate::sightings::{Sighted, look};
use std::alloc::Global;
use std::marker::Model;
use ynl_cluster::Cluster;
use ynl_model::{AskRow, Event, Node, Placed, Proposal, Reply};
use ynl_queues::Config;
use ynl_replies::admission::{node_named, partition_of};
use ynl_replies::{containers, nodes};
use ynl_resource::{Label, Name, Path, Refusal, Resource, Size};
use ynl_search::notes::Shut;
use ynl_service::reading::{explain, master_limit_of, user_limit_of};
use ynl_service::{check, proposed};
use ynl_sights::LeafLists;
use ynl_snapshots::Saving;
use ynl_waits::Explained;

/// A cluster: what it is configured with, and its state. It keeps the rooms in which a search found
/// nothing below a queue, so that heartbeats search there no more until something is wanted, and the lists
/// of what is wanted of leaves, so that the next sight makes anew those alone that a change made wrong.
pub struct Core {
    pub(crate) alloc: Global,
    pub(crate) cluster: Cluster,
    pub(crate) shut: Shut,
    pub(crate) lists: LeafLists,
}

// By hand, so that crates above call it: one that is derived is proved anew in each of them, with all that it holds.
impl Drop for Core {
    fn drop(self) {
        let Core {
            alloc: _,
            cluster: _,
            shut: _,
            lists: _,
        } = self;
    }
}

impl Model for Core {
    ghost use Rattle.ynl_core.specs.World.{World};

    ghost Value = { World };

    ghost use Rattle.ynl_core.specs.CoreFields.{world_of, IsWorkingCore};

    ghost view = { world_of };

    ghost invariant = { IsWorkingCore };
}

/// What an event is answered that is told no more than why it is refused, or that it was done.
fn done(refused: Option<Refusal>) -> Result<Reply, NoMemory>
    ensures { result ≡ Ok (done_unless refused) }
{
    match refused {
        Some(refusal) => Ok(Reply::Refused(refusal)),
        None => Ok(Reply::Done),
    }
}

impl Core {
    /// A cluster without nodes, applications or containers.
    pub fn open(alloc: Global, config: Config) -> Result<Core, NoMemory>
        ensures { IfOk result (λ core. core ≡ opened config) }
    {
        let cluster = Cluster::new(alloc, config)?;
        Core::of(alloc, cluster)
    }

    /// A cluster of these rows. Nothing is noted of its queues yet.
    pub(crate) fn of(alloc: Global, cluster: Cluster) -> Result<Core, NoMemory>
        requires { WorksAndIsTold cluster.config (state_in cluster) }
        ensures { IfOk result (λ core. core ≡ record { config = cluster.config; state = state_in cluster }) }
    {
        let partitions = cluster.config().labels().rows().len() + 1;
        let queues = cluster.config().queues().len() + 1;
        let shut = Shut::new(alloc, partitions, queues)?;
        Ok(Core {
            alloc,
            cluster,
            shut,
            lists: LeafLists::none(alloc),
        })
    }

    /// The same as `apply`, of an event that is lent. Its parts are lent on, and each arm gives the result itself: an arm
    /// that moves parts or a reply has a place for them, which is set to zero for every event.
    #[inline(never)]
    pub fn answer(&mut self, event: &Event) -> Result<Reply, NoMemory>
        ensures ok { IfOk result (λ reply. Answers self.old event.now self.new reply) }
        ensures err { OnErr result (self.new ≡ self.old) }
        ensures sure { IsTrue (takes_no_memory self.old event.now) → IsOk result }
    {
        match event {
            Event::Heartbeat { node } => self.heartbeat(node),
            Event::Poll { tenant, app, label } => self.poll(tenant, app, label),
            Event::Usage { queue, label } => self.usage(queue, label),
            Event::Propose { node } => self.propose(node),
            Event::Commit { proposal } => self.commit(proposal),
            Event::Register { node, label, size } => done(self.register(node, label, size)?),
            Event::Submit {
                queue,
                app,
                user,
                label,
                master,
            } => done(self.submit(queue, app, user, label, master)?),
            Event::Lost { node } => done(self.lost(node)),
            Event::Relabel { node, label } => done(self.relabel(node, label)?),
            Event::Exited { node, id } => done(self.exited(node, id)),
            Event::Ask {
                tenant,
                app,
                label,
                priority,
                count,
                size,
            } => done(self.ask(
                tenant,
                app,
                &AskRow {
                    label: *label,
                    priority: *priority,
                    count: *count,
                    size: *size,
                },
            )?),
            Event::Release { tenant, id } => done(self.release(tenant, id)),
            Event::Finish { tenant, app } => done(self.finish(tenant, app)),
            Event::Stop { queue } => done(self.stop(queue)),
            Event::Start { queue } => done(self.start(queue)),
            Event::Maximum {
                queue,
                label,
                maximum,
            } => done(self.maximum(queue, label, *maximum)),
        }
    }

    /// One event is one step of the model. Where memory is refused, nothing has changed; a refused
    /// event changes nothing either. An event that takes no memory is answered whatever memory there
    /// is: one that is refused; one that ends something (`Lost`, `Exited`, `Release`, `Finish`), sets
    /// it (`Stop`, `Start`, `Maximum`), or takes it back (`Ask` of count 0); and one that asks for use
    /// or a proposal (`Usage`, `Propose`).
    pub fn apply(&mut self, event: Event) -> Result<Reply, NoMemory>
        ensures ok { IfOk result (λ reply. Answers self.old event self.new reply) }
        ensures err { OnErr result (self.new ≡ self.old) }
        ensures sure { IsTrue (takes_no_memory self.old event) → IsOk result }
    {
        self.answer(&event)
    }

    /// What the cluster is configured with.
    pub fn config(&self) -> &Config
        ensures { result.now ≡ self.now.config }
    {
        self.cluster.config()
    }

    /// The nodes, in the order of joining. Nothing changes; `Err` only if memory is refused. Clause `works` is of the
    /// state, so it holds then too: it keeps what every state keeps, so the names of its nodes differ, and no partition
    /// has more of them than it may.
    pub fn nodes(&self, alloc: Global) -> Result<Vec<Node>, NoMemory>
        ensures nodes { IfOk result (λ list. list.items ≡ self.now.state.nodes) }
        ensures works { IsWorking self.now.config self.now.state }
    {
        // Opens the rows, which are sound.
        let _ = self.cluster.inventory();
        Ok(nodes(alloc, &self.cluster)?)
    }

    /// The containers on a partition, in the order of placement, which is that of their ids.
    pub fn containers(&self, alloc: Global, label: &Label) -> Result<Vec<Placed>, NoMemory>
        ensures { IfOk result (λ list. list.items ≡ containers_on self.now.state label.now) }
    {
        // Opens the rows, whose partitions are the configured ones.
        let _ = self.cluster.inventory();
        match partition_of(&self.cluster, label) {
            Some(p) => Ok(containers(alloc, &self.cluster, p)?),
            None => Ok(Vec::new(alloc)),
        }
    }

    /// A copy of what a choice on the node reads, or the first reason for which nothing may be placed there. The choice from the
    /// copy is the reply to a propose on the node now. Nothing changes; `Err` only if memory is refused.
    #[inline(never)]
    pub fn sight(&self, node: &Name) -> Result<Sighted, NoMemory>
        ensures sighting { IfOk result (IsSighting self.now node.now) }
        ensures told { IfOk result (λ sighted. Answers self.now (Propose node.now) self.now (reply_by sighted)) }
    {
        let mut lists = LeafLists::none(self.alloc);
        look(self.alloc, &self.cluster, &mut lists, node)
    }

    /// The same as `sight`, which keeps its lists of what is wanted of leaves: the next one shares those that still hold.
    #[inline(never)]
    pub fn see(&mut self, node: &Name) -> Result<Sighted, NoMemory>
        ensures sighting { IfOk result (IsSighting self.old node.now) }
        ensures told { IfOk result (λ sighted. Answers self.old (Propose node.now) self.new (reply_by sighted)) }
        ensures same { self.new ≡ self.old }
    {
        look(self.alloc, &self.cluster, &mut self.lists, node)
    }

    /// What would be placed on the node next, with its stamp; nothing where there is no such node. It
    /// does not look at the clock.
    pub fn choose(&self, node: &Name) -> Option<Proposal>
        ensures { result ≡ option_and_then (proposed self.now.config self.now.state) (node_of self.now.state node.now) }
    {
        let mut shut = Shut::none(self.alloc);
        match node_named(&self.cluster, node) {
            Some(number) => proposed(&self.cluster, &mut shut, number),
            None => None,
        }
    }

    /// The first reason for which a proposal would not be committed.
    #[tactic(auto, unfolding(ynl_model::specs::Events::reasons))]
    pub fn check(&self, proposal: &Proposal) -> Result<(), Refusal>
        ensures refused { IfErr result (λ refusal. first_that_holds (commit_reasons self.now.config self.now.state proposal.now) ≡ Some refusal) }
        ensures free { IfOk result (λ _. first_that_holds (commit_reasons self.now.config self.now.state proposal.now) ≡ None) }
    {
        let mut shut = Shut::none(self.alloc);
        match check(&self.cluster, &mut shut, proposal) {
            Ok(_) => Ok(()),
            Err(refusal) => Err(refusal),
        }
    }

    /// Why the requests of a tenant's application wait: its master and what it asks for, each with all that keeps it from
    /// being placed, or that it is next. If it is next on a node, a heartbeat of that node as the very next event places it
    /// first. If it is not, no heartbeat does; if no other is ahead either, no commit places it. Nothing changes; `Err`
    /// only if memory is refused.
    #[inline(never)]
    pub fn explain(&self, tenant: &Name, app: &Name) -> Result<Explained, NoMemory>
        ensures waits { IfOk result (λ explained. explained ≡ explained_of self.now.config self.now.state tenant.now app.now) }
        ensures next { IfOk result (OfRequests AreNextPlaced self.now tenant.now app.now) }
        ensures others { IfOk result (OfRequests IsNotPlaced self.now tenant.now app.now) }
        ensures commits { IfOk result (OfRequests IsNotCommitted self.now tenant.now app.now) }
        ensures told { IfOk result (OfEach (IsTold self.now.config self.now.state)) }
    {
        // Opens the rows, which are sound.
        let _ = self.cluster.inventory();
        Ok(explain(self.alloc, &self.cluster, tenant, app)?)
    }

    /// The state, to be told line by line, which takes no memory.
    pub fn saving(&self) -> Saving<'_>
        ensures { result ≡ record { config = self.now.config; state = self.now.state } }
    {
        Saving::of(&self.cluster)
    }

    /// The most that one user may use of the leaf's part of a partition, where a container of this size
    /// is asked for.
    pub fn user_limit(&self, leaf: &Path, label: &Label, ask: &Size) -> Resource
        ensures { result ≡ user_limit self.now.config self.now.state leaf.now label.now ask.now }
    {
        user_limit_of(&self.cluster, leaf, label, ask)
    }

    /// The most that the masters of the leaf may use together on a partition.
    pub fn master_limit(&self, leaf: &Path, label: &Label) -> Resource
        ensures { result ≡ master_limit self.now.config self.now.state leaf.now label.now }
    {
        master_limit_of(&self.cluster, leaf, label)
    }
}
