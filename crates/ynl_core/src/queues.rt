//! What is set of queues, and told of them.

ghost use Rattle.std.specs.Prelude.{IfOk, IsOk};
ghost use Rattle.ynl_model.specs.declared.events.Event.TheVariants.{Maximum, Start, Stop, Usage};
ghost use Rattle.ynl_core.specs.World.{done_unless, Answers};

use crate::cluster::Core;
use crate::memory::NoMemory;
use ynl_model::Reply;
use ynl_replies as replies;
use ynl_replies::admission;
use ynl_resource::{Hundredths, Label, Path, Refusal};

impl Core {
    /// A queue takes no more applications.
    #[tactic(auto, unfolding(ynl_model::specs::Events::step, ynl_model::specs::Events::accepted))]
    #[inline(never)]
    pub(crate) fn stop(&mut self, queue: &Path) -> Option<Refusal>
        ensures { Answers self.old (Stop queue.now) self.new (done_unless result) }
    {
        let number = match admission::set_stop(&self.cluster, queue) {
            Ok(number) => number,
            Err(refusal) => return Some(refusal),
        };
        self.cluster.set_stopped(number, true);
        self.lists.forget_all();
        None
    }

    /// A queue takes applications again.
    #[tactic(auto, unfolding(ynl_model::specs::Events::step, ynl_model::specs::Events::accepted))]
    #[inline(never)]
    pub(crate) fn start(&mut self, queue: &Path) -> Option<Refusal>
        ensures { Answers self.old (Start queue.now) self.new (done_unless result) }
    {
        let number = match admission::set_stop(&self.cluster, queue) {
            Ok(number) => number,
            Err(refusal) => return Some(refusal),
        };
        self.cluster.set_stopped(number, false);
        self.lists.forget_all();
        None
    }

    /// The most that a queue may use of a partition becomes another part of its parent's.
    #[tactic(auto, unfolding(ynl_model::specs::Events::step, ynl_model::specs::Events::accepted))]
    #[inline(never)]
    pub(crate) fn maximum(
        &mut self,
        queue: &Path,
        label: &Label,
        share: Hundredths,
    ) -> Option<Refusal>
        ensures { Answers self.old (Maximum queue.now label.now share) self.new (done_unless result) }
    {
        let cell = match admission::maximum(&self.cluster, queue, label, share) {
            Ok(cell) => cell,
            Err(refusal) => return Some(refusal),
        };
        self.cluster.set_maximum(cell.partition, cell.queue, share);
        self.shut.forget_all();
        self.lists.forget_all();
        None
    }

    /// It is told what a queue uses of a partition. It takes no memory.
    #[tactic(auto, unfolding(ynl_model::specs::Events::step, ynl_model::specs::Events::accepted))]
    #[inline(never)]
    pub(crate) fn usage(&self, queue: &Path, label: &Label) -> Result<Reply, NoMemory>
        ensures ok { IfOk result (λ reply. Answers self.now (Usage queue.now label.now) self.now reply) }
        ensures sure { IsOk result }
    {
        match admission::usage(&self.cluster, queue, label) {
            Ok(cell) => Ok(replies::usage(&self.cluster, cell.partition, cell.queue)),
            Err(refusal) => Ok(Reply::Refused(refusal)),
        }
    }
}
