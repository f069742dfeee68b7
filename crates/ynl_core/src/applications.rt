//! What happens to applications, and what they are told.

ghost use Rattle.std.specs.Prelude.{◌≡◌, IfOk, IsOk, IsTrue, OnErr};
ghost use Rattle.ynl_model.specs.declared.events.Event.TheVariants.{Finish, Poll, Submit};
ghost use Rattle.ynl_model.specs.declared.events.Event.TheVariants as event;
ghost use Rattle.ynl_core.specs.Sure.{is_refused, takes_no_memory};
ghost use Rattle.ynl_core.specs.World.{done_unless, Answers};

use crate::cluster::Core;
use crate::memory::NoMemory;
use ynl_inventory::NewSubmission;
use ynl_model::{AskRow, Reply};
use ynl_replies as replies;
use ynl_replies::admission;
use ynl_resource::{Label, Name, Path, Refusal, Size};
use ynl_search::notes::{ask, finish, submit};

impl Core {
    /// An application comes to a leaf.
    #[tactic(auto, unfolding(ynl_model::specs::Events::step, ynl_model::specs::Events::accepted))]
    #[inline(never)]
    pub(crate) fn submit(
        &mut self,
        queue: &Path,
        app: &Name,
        user: &Name,
        label: &Option<Label>,
        master: &Size,
    ) -> Result<Option<Refusal>, NoMemory>
        ensures ok { IfOk result (λ refused. Answers self.old (Submit queue.now app.now user.now label.now master.now) self.new (done_unless refused)) }
        ensures err { OnErr result (self.new ≡ self.old) }
        ensures sure { IsTrue (is_refused self.old (Submit queue.now app.now user.now label.now master.now)) → IsOk result }
    {
        let numbers = match admission::submit(&self.cluster, queue, app, label, master) {
            Ok(numbers) => numbers,
            Err(refusal) => return Ok(Some(refusal)),
        };
        let _sized = master.amount();
        // Opens the rows, which are sound, here and below.
        let _ = self.cluster.inventory();
        let new = NewSubmission {
            tenant: numbers.tenant,
            leaf: numbers.leaf,
            user: self.cluster.user(user)?,
            home: numbers.home,
            master_size: *master,
        };
        let _ = self.cluster.inventory();
        submit(&mut self.cluster, &mut self.shut, app, &new)?;
        self.lists.forget(numbers.leaf as usize);
        Ok(None)
    }

    /// An application asks.
    #[tactic(auto, unfolding(ynl_model::specs::Events::step, ynl_model::specs::Events::accepted))]
    #[inline(never)]
    pub(crate) fn ask(
        &mut self,
        tenant: &Name,
        name: &Name,
        row: &AskRow,
    ) -> Result<Option<Refusal>, NoMemory>
        ensures ok { IfOk result (λ refused. Answers self.old (event.Ask tenant.now name.now row.now.label row.now.priority row.now.count row.now.size) self.new (done_unless refused)) }
        ensures err { OnErr result (self.new ≡ self.old) }
        ensures sure { IsTrue (takes_no_memory self.old (event.Ask tenant.now name.now row.now.label row.now.priority row.now.count row.now.size)) → IsOk result }
    {
        let asking = match admission::ask(&self.cluster, tenant, name, row) {
            Ok(asking) => asking,
            Err(refusal) => return Ok(Some(refusal)),
        };
        let _sized = row.size.amount();
        let leaf = self.cluster.inventory().app(asking.app).leaf;
        ask(&mut self.cluster, &mut self.shut, asking.app, asking.ask)?;
        self.lists.forget(leaf as usize);
        Ok(None)
    }

    /// An application finishes with its containers.
    #[tactic(auto, unfolding(ynl_model::specs::Events::step, ynl_model::specs::Events::accepted))]
    #[inline(never)]
    pub(crate) fn finish(&mut self, tenant: &Name, name: &Name) -> Option<Refusal>
        ensures { Answers self.old (Finish tenant.now name.now) self.new (done_unless result) }
    {
        let app = match admission::finish(&self.cluster, tenant, name) {
            Ok(app) => app,
            Err(refusal) => return Some(refusal),
        };
        let leaf = self.cluster.inventory().app(app).leaf;
        finish(&mut self.cluster, &mut self.shut, app);
        // Opens the rows, which are sound.
        let _ = self.cluster.inventory();
        self.lists.forget(leaf as usize);
        None
    }

    /// It is told what an application has, and what it asks for.
    #[tactic(auto, unfolding(ynl_model::specs::Events::step, ynl_model::specs::Events::accepted))]
    #[inline(never)]
    pub(crate) fn poll(&self, tenant: &Name, name: &Name, label: &Label) -> Result<Reply, NoMemory>
        ensures ok { IfOk result (λ reply. Answers self.now (Poll tenant.now name.now label.now) self.now reply) }
        ensures sure { IsTrue (is_refused self.now (Poll tenant.now name.now label.now)) → IsOk result }
    {
        let inquiry = match admission::poll(&self.cluster, tenant, name, label) {
            Ok(inquiry) => inquiry,
            Err(refusal) => return Ok(Reply::Refused(refusal)),
        };
        // Opens the rows, which are sound.
        let _ = self.cluster.inventory();
        let held = replies::held(self.alloc, &self.cluster, inquiry.app, inquiry.partition)?;
        Ok(held)
    }
}
