//! The limits of a leaf on a partition.

ghost use Rattle.std.specs.Prelude.{◌≡◌, ◌≤◌, ◌<◌, ◌+◌, IfSome, IfNone};
ghost use Rattle.ynl_resource.specs.Amounts.{IsSmall};
ghost use Rattle.ynl_resource.specs.Ranges.{whole};

use crate::limits::shares::{is_within_share, share_of};
use ynl_resource::Resource;

/// The numbers of a leaf on a partition that its user limits are made of: what the leaf uses there, and
/// what it is guaranteed; how many users share it; the percentage that each of them may use at least, in
/// hundredths of a percent; and the most that one of them may use.
#[derive(Clone, Copy)]
pub struct Limits {
    pub used: Resource,
    pub guaranteed: Resource,
    pub users: u64,
    pub percent: u64,
    pub cap: Resource,
    ghost small: { (IsSmall used) × (IsSmall guaranteed) },
    ghost some_users: { 1 ≤ users },
    ghost at_most_whole: { percent ≤ whole },
}

/// Both numbers together, if that is at most so much.
fn sum_within(a: u64, b: u64, most: u64) -> Option<u64>
    ensures some { IfSome result (λ sum. (sum ≡ a + b) × (sum ≤ most)) }
    ensures none { IfNone result (most < a + b) }
{
    if b <= most && a <= most - b {
        Some(a + b)
    } else {
        None
    }
}

impl Limits {
    ghost use Rattle.std.specs.Prelude.{◌^◌, IsTrue};
    ghost use Rattle.ynl_resource.specs.declared.amounts.Resource.{Resource as Amount};
    ghost use Rattle.ynl_resource.specs.Amounts.{plus, greater_of, fits_in};
    ghost use Rattle.ynl_search.specs.limits.Shares.{IsAsk};
    ghost use Rattle.ynl_search.specs.limits.Limits.{limit_of, IsUserLimit, IsNoLess, KeepsWithin};

    /// What the users share: what the leaf is guaranteed, or what it would use with so much more, where that
    /// is more.
    fn base(&self, ask: &Resource) -> Resource
        requires { IsAsk ask.now }
        ensures value { result ≡ greater_of self.now.guaranteed (plus self.now.used ask.now) }
        ensures small { (result.memory ≤ 2 ^ 50) × (result.vcores ≤ 2 ^ 50) }
    {
        Resource {
            memory: self.guaranteed.memory.max(self.used.memory + ask.memory),
            vcores: self.guaranteed.vcores.max(self.used.vcores + ask.vcores),
        }
    }

    /// The most that a user may use with a request.
    #[tactic(auto, unfolding(crate::specs::limits::Limits::limit_of))]
    pub fn limit(&self, ask: &Resource) -> Resource
        requires { IsAsk ask.now }
        ensures value { result ≡ limit_of self.now ask.now }
        ensures meaning { IsUserLimit self.now ask.now result }
        ensures grows { IsNoLess self.now ask.now result }
    {
        let base = self.base(ask);
        let memory = share_of(base.memory, self.users, self.percent);
        let vcores = share_of(base.vcores, self.users, self.percent);
        Resource {
            memory: memory.min(self.cap.memory),
            vcores: vcores.min(self.cap.vcores),
        }
    }

    /// How much of a room is left to the requests of a user that uses so much. What is larger does not keep the limit.
    pub(crate) fn left(&self, used: &Resource, room: &Resource) -> Option<Resource>
        requires { IsAsk room.now }
        ensures some { IfSome result (λ left. (size : Amount) → KeepsWithin self.now used.now room.now size
            → IsTrue (fits_in size left)) }
        ensures none { IfNone result ((size : Amount) → ¬ (KeepsWithin self.now used.now room.now size)) }
    {
        let most = self.limit(room);
        if !used.fits_in(most) {
            return None;
        }
        let left = most.sub(*used);
        Some(Resource {
            memory: room.memory.min(left.memory),
            vcores: room.vcores.min(left.vcores),
        })
    }

    /// Whether a user may use so much with a request. It divides nothing.
    #[tactic(auto, unfolding(crate::specs::limits::Limits::limit_of))]
    pub fn keeps(&self, with: &Resource, ask: &Resource) -> bool
        requires { IsAsk ask.now }
        ensures { result ≡ fits_in with.now (limit_of self.now ask.now) }
    {
        let base = self.base(ask);
        with.fits_in(self.cap)
            && is_within_share(with.memory, base.memory, self.users, self.percent)
            && is_within_share(with.vcores, base.vcores, self.users, self.percent)
    }

    /// Whether a user that uses so much keeps the limit with a request.
    pub(crate) fn keeps_with(&self, used: &Resource, ask: &Resource) -> bool
        requires { IsAsk ask.now }
        ensures { result ≡ fits_in (plus used.now ask.now) (limit_of self.now ask.now) }
    {
        let Some(memory) = sum_within(used.memory, ask.memory, self.cap.memory) else {
            return false;
        };
        let Some(vcores) = sum_within(used.vcores, ask.vcores, self.cap.vcores) else {
            return false;
        };
        self.keeps(&Resource { memory, vcores }, ask)
    }
}
