//! What happens to nodes, and what their heartbeats place.

ghost use Rattle.std.specs.Prelude.{◌≡◌, IfOk, IsOk, IsTrue, OnErr};
ghost use Rattle.ynl_model.specs.declared.events.Event.TheVariants.{Heartbeat, Lost, Register, Relabel};
ghost use Rattle.ynl_core.specs.Sure.{is_refused};
ghost use Rattle.ynl_core.specs.World.{beaten, done_unless, Answers};

use crate::cluster::Core;
use crate::memory::NoMemory;
use ynl_model::{Items, Placed, Reply};
use ynl_replies::admission;
use ynl_resource::{Label, Name, Refusal, Size};
use ynl_service::serve;

impl Core {
    /// A node joins a partition.
    #[tactic(auto, unfolding(ynl_model::specs::Events::step, ynl_model::specs::Events::accepted))]
    #[inline(never)]
    pub(crate) fn register(
        &mut self,
        name: &Name,
        label: &Label,
        size: &Size,
    ) -> Result<Option<Refusal>, NoMemory>
        ensures ok { IfOk result (λ refused. Answers self.old (Register name.now label.now size.now) self.new (done_unless refused)) }
        ensures err { OnErr result (self.new ≡ self.old) }
        ensures sure { IsTrue (is_refused self.old (Register name.now label.now size.now)) → IsOk result }
    {
        let p = match admission::register(&self.cluster, name, label) {
            Ok(p) => p,
            Err(refusal) => return Ok(Some(refusal)),
        };
        // A size is one that requests may have, so that the state works after it, here and below.
        let _sized = size.amount();
        // Opens the rows, before and after.
        let _ = self.cluster.inventory();
        self.cluster.join(name, p, *size)?;
        let _ = self.cluster.inventory();
        self.shut.forget(p);
        self.lists.forget_all();
        Ok(None)
    }

    /// A node is lost with its containers.
    #[tactic(auto, unfolding(ynl_model::specs::Events::step, ynl_model::specs::Events::accepted))]
    #[inline(never)]
    pub(crate) fn lost(&mut self, name: &Name) -> Option<Refusal>
        ensures { Answers self.old (Lost name.now) self.new (done_unless result) }
    {
        let node = match admission::lost(&self.cluster, name) {
            Ok(node) => node,
            Err(refusal) => return Some(refusal),
        };
        let p = self.cluster.inventory().node(node).partition;
        self.cluster.leave(node);
        // Opens the rows, which are sound.
        let _ = self.cluster.inventory();
        self.shut.forget(p);
        self.lists.forget_all();
        None
    }

    /// A node goes to another partition.
    #[tactic(auto, unfolding(ynl_model::specs::Events::step, ynl_model::specs::Events::accepted))]
    #[inline(never)]
    pub(crate) fn relabel(
        &mut self,
        name: &Name,
        label: &Label,
    ) -> Result<Option<Refusal>, NoMemory>
        ensures ok { IfOk result (λ refused. Answers self.old (Relabel name.now label.now) self.new (done_unless refused)) }
        ensures err { OnErr result (self.new ≡ self.old) }
        ensures sure { IsTrue (is_refused self.old (Relabel name.now label.now)) → IsOk result }
    {
        let moved = match admission::relabel(&self.cluster, name, label) {
            Ok(moved) => moved,
            Err(refusal) => return Ok(Some(refusal)),
        };
        let p = self.cluster.inventory().node(moved.node).partition;
        self.cluster.relabel(moved.node, moved.partition)?;
        // Opens the rows, which are sound.
        let _ = self.cluster.inventory();
        self.shut.forget(p);
        self.shut.forget(moved.partition);
        self.lists.forget_all();
        Ok(None)
    }

    /// The same as `heartbeat`, in parts: why it is refused, or else what it placed, in the place of
    /// what the list holds. A reply is large; the list is kept from heartbeat to heartbeat, and
    /// nothing large is moved.
    #[tactic(auto, unfolding(ynl_model::specs::Events::step, ynl_model::specs::Events::accepted))]
    #[inline(never)]
    pub fn beat(
        &mut self,
        name: &Name,
        placed: &mut Vec<Placed>,
    ) -> Result<Option<Refusal>, NoMemory>
        ensures ok { IfOk result (λ refused. Answers self.old (Heartbeat name.now) self.new (beaten refused placed.new.items)) }
        ensures err { OnErr result (self.new ≡ self.old) }
        ensures sure { IsTrue (is_refused self.old (Heartbeat name.now)) → IsOk result }
    {
        placed.clear();
        let node = match admission::placing(&self.cluster, name) {
            Ok(node) => node,
            Err(refusal) => return Ok(Some(refusal)),
        };
        let count = self.cluster.config().containers_per_heartbeat();
        let p = self.cluster.inventory().node(node).partition;
        placed.reserve(count as usize)?;
        self.cluster.reserve_for(p, count)?;
        serve(&mut self.cluster, &mut self.shut, node, count, placed);
        self.lists.forget_all();
        Ok(None)
    }

    /// The same as `apply` of a heartbeat, of which there are more than of all other events.
    #[inline(never)]
    pub fn heartbeat(&mut self, name: &Name) -> Result<Reply, NoMemory>
        ensures ok { IfOk result (λ reply. Answers self.old (Heartbeat name.now) self.new reply) }
        ensures err { OnErr result (self.new ≡ self.old) }
        ensures sure { IsTrue (is_refused self.old (Heartbeat name.now)) → IsOk result }
    {
        let mut placed = Vec::new(self.alloc);
        match self.beat(name, &mut placed)? {
            Some(refusal) => Ok(Reply::Refused(refusal)),
            None => Ok(Reply::Placed(Items::new(placed))),
        }
    }
}
