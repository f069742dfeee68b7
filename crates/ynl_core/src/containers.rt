//! What happens to containers, and what is proposed and committed.

ghost use Rattle.std.specs.Prelude.{◌≡◌, IfOk, IsOk, IsSome, IsTrue, OnErr};
ghost use Rattle.ynl_model.specs.declared.events.Event.TheVariants.{Commit, Exited, Propose, Release};
ghost use Rattle.ynl_inventory.specs.Parts.{held_at};
ghost use Rattle.ynl_inventory.specs.Sound.{IsSound};
ghost use Rattle.ynl_core.specs.Ending.{IsOfLeaf};
ghost use Rattle.ynl_core.specs.Sure.{is_refused};
ghost use Rattle.ynl_core.specs.World.{done_unless, Answers};

use crate::cluster::Core;
use crate::memory::NoMemory;
use ynl_cluster::Cluster;
use ynl_model::{Proposal, Reply};
use ynl_replies::admission;
use ynl_replies::admission::Held;
use ynl_resource::{Id, Name, Refusal};
use ynl_search::notes::{end, place};
use ynl_service::{check, proposed};

/// The leaf of the application whose container this is.
fn leaf_of(cluster: &Cluster, held: &Held) -> usize
    requires { IsSome (held_at cluster.now.rows held.now.partition held.now.number) }
    ensures leaf { IsOfLeaf cluster.now.rows held.now.partition held.now.number result }
    ensures sound { IsSound cluster.now.rows }
{
    let inventory = cluster.inventory();
    let container = inventory.container(held.partition, held.number);
    inventory.app(container.app).leaf as usize
}

impl Core {
    /// A container ended by itself.
    #[tactic(auto, unfolding(ynl_model::specs::Events::step, ynl_model::specs::Events::accepted))]
    #[inline(never)]
    pub(crate) fn exited(&mut self, name: &Name, id: &Id) -> Option<Refusal>
        ensures { Answers self.old (Exited name.now id.now) self.new (done_unless result) }
    {
        let held = match admission::exited(&self.cluster, name, id) {
            Ok(held) => held,
            Err(refusal) => return Some(refusal),
        };
        let leaf = leaf_of(&self.cluster, &held);
        end(
            &mut self.cluster,
            &mut self.shut,
            held.partition,
            held.number,
        );
        self.lists.forget(leaf);
        None
    }

    /// A tenant gives a container back.
    #[tactic(auto, unfolding(ynl_model::specs::Events::step, ynl_model::specs::Events::accepted))]
    #[inline(never)]
    pub(crate) fn release(&mut self, tenant: &Name, id: &Id) -> Option<Refusal>
        ensures { Answers self.old (Release tenant.now id.now) self.new (done_unless result) }
    {
        let held = match admission::release(&self.cluster, tenant, id) {
            Ok(held) => held,
            Err(refusal) => return Some(refusal),
        };
        let leaf = leaf_of(&self.cluster, &held);
        end(
            &mut self.cluster,
            &mut self.shut,
            held.partition,
            held.number,
        );
        self.lists.forget(leaf);
        None
    }

    /// What would be placed next on a node is proposed. It takes no memory.
    #[tactic(auto, unfolding(ynl_model::specs::Events::step, ynl_model::specs::Events::accepted))]
    #[inline(never)]
    pub(crate) fn propose(&mut self, name: &Name) -> Result<Reply, NoMemory>
        ensures ok { IfOk result (λ reply. Answers self.old (Propose name.now) self.new reply) }
        ensures sure { IsOk result }
    {
        let node = match admission::placing(&self.cluster, name) {
            Ok(node) => node,
            Err(refusal) => return Ok(Reply::Refused(refusal)),
        };
        Ok(Reply::Proposed(proposed(&self.cluster, &mut self.shut, node)))
    }

    /// What was proposed is placed.
    #[tactic(auto, unfolding(ynl_model::specs::Events::step, ynl_model::specs::Events::accepted, ynl_model::specs::Events::reasons))]
    #[inline(never)]
    pub(crate) fn commit(&mut self, proposal: &Proposal) -> Result<Reply, NoMemory>
        ensures ok { IfOk result (λ reply. Answers self.old (Commit proposal.now) self.new reply) }
        ensures err { OnErr result (self.new ≡ self.old) }
        ensures sure { IsTrue (is_refused self.old (Commit proposal.now)) → IsOk result }
    {
        let placement = match check(&self.cluster, &mut self.shut, proposal) {
            Ok(placement) => placement,
            Err(refusal) => return Ok(Reply::Refused(refusal)),
        };
        let _sized = proposal.size.amount();
        let inventory = self.cluster.inventory();
        let p = inventory.node(placement.node).partition;
        let leaf = inventory.app(placement.app).leaf;
        self.cluster.reserve_for(p, 1)?;
        let placed = place(&mut self.cluster, &mut self.shut, &placement);
        self.lists.forget(leaf as usize);
        Ok(Reply::Committed(placed))
    }
}
