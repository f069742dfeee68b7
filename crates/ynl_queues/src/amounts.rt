//! What a queue gets of a partition's total.

ghost use Rattle.std.specs.Prelude.{◌≡◌, ℕ, IsTrue, IfSome};
ghost use Rattle.ynl_queues.specs.Shares.{IsShareOf};
ghost use Rattle.ynl_resource.specs.declared.paths.Path.{Path};
ghost use Rattle.ynl_model.specs.Queues.{capacity_on, configured_maximum, nested_floor, guaranteed};
ghost use Rattle.ynl_resource.specs.Amounts.{scale_floor, fits_in, IsSmall};
ghost use Rattle.ynl_resource.specs.Ranges.{whole};

use crate::draft::Draft;
use crate::ways::step_at;
use ynl_resource::{Hundredths, Label, Name, Resource, WHOLE};

/// A share of an amount, each part rounded down.
#[tactic(auto, using(crate::proofs::Shares::share_small))]
pub fn share_of(amount: &Resource, share: &Hundredths) -> Resource
    requires { IsSmall amount.now }
    ensures value { result ≡ scale_floor amount.now share.now whole }
    ensures within { IsTrue (fits_in result amount.now) }
{
    let n = share.number();
    let memory = amount.memory;
    let vcores = amount.vcores;
    Resource {
        memory: memory * n / WHOLE,
        vcores: vcores * n / WHOLE,
    }
}

/// What reaches a queue of an amount at root, where each queue on the way gets its share of what its
/// parent has.
pub fn nested_floor<F: Fn(&[Name]) -> Hundredths>(
    share: F,
    queue: &[Name],
    amount: &Resource,
) -> Resource
    requires small { IsSmall amount.now }
    requires callable { F.IsAlwaysCallable share }
    ensures value { (f : Path → ℕ) → IsShareOf (F.post share) f → result ≡ nested_floor f queue.now amount.now }
    ensures within { IsTrue (fits_in result amount.now) }
{
    let mut above = *amount;
    for depth in 0..queue.len() {
        let part = share(step_at(queue, depth + 1));
        above = share_of(&above, &part);
    }
    above
}

impl Draft {
    /// The queue's capacity on a partition, where that is kept.
    fn kept_capacity(&self, queue: &[Name], label: &Label) -> Option<Hundredths>
        ensures { IfSome result (λ share. share ≡ capacity_on self.now queue.now label.now) }
    {
        let place = self.index().place(queue)?;
        let capacities = self.capacities(label)?;
        let share = capacities.get(place)?;
        Some(*share)
    }

    /// The queue's capacity on a partition, and nothing on a label that it may not use.
    pub fn capacity_on(&self, queue: &[Name], label: &Label) -> Hundredths
        ensures { result ≡ capacity_on self.now queue.now label.now }
    {
        if let Some(share) = self.kept_capacity(queue, label) {
            return share;
        }
        self.grant(queue).capacity_on(self.labels(), label)
    }

    /// The queue's configured maximum on a partition, and nothing on a label that it may not use.
    pub fn configured_maximum(&self, queue: &[Name], label: &Label) -> Hundredths
        ensures { result ≡ configured_maximum self.now queue.now label.now }
    {
        self.grant(queue).maximum_on(self.labels(), label)
    }

    /// What the queue is guaranteed of a partition's total.
    #[tactic(auto, unfolding(ynl_model::specs::Queues::guaranteed))]
    pub fn guaranteed(&self, queue: &[Name], label: &Label, total: &Resource) -> Resource
        requires { IsSmall total.now }
        ensures value { result ≡ guaranteed self.now queue.now label.now total.now }
        ensures within { IsTrue (fits_in result total.now) }
    {
        nested_floor(|step| self.capacity_on(step, label), queue, total)
    }
}
