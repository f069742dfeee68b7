//! What the requests of a leaf are tested against.

ghost use Rattle.std.specs.Prelude.{◌≡◌};
ghost use Rattle.ynl_resource.specs.Amounts.{scale_floor};
ghost use Rattle.ynl_lanes.specs.lane.Rows.{IsUse};
ghost use Rattle.ynl_cluster.specs.uses.Tallies.{IsTotal};

use crate::headroom::Headroom;
use crate::limits::Limits;
use crate::place::Place;
use crate::user_limits::UserLimits;
use ynl_model::{LeafSettings, Use};
use ynl_queues::share_of;
use ynl_resource::{Resource, Size};

/// What the requests of a leaf on a partition are tested against.
#[derive(Clone, Copy)]
pub struct LeafTests {
    headroom: Headroom,
    limits: Limits,
    masters: Resource,
    master_limit: Resource,
    has_master: bool,
    ghost small: { IsTotal masters },
}

/// No request is larger than this in memory or virtual cores.
const LARGEST: u64 = 0xffff_ffff;

/// The most that one user may take of a guarantee, as a multiple of it in hundredths.
fn cap_of(guaranteed: &Resource, factor: u16) -> Resource
    requires { IsTotal guaranteed.now }
    ensures { result ≡ scale_floor guaranteed.now factor 100 }
{
    let factor = u64::from(factor);
    Resource {
        memory: guaranteed.memory * factor / 100,
        vcores: guaranteed.vcores * factor / 100,
    }
}

impl LeafTests {
    ghost use Rattle.std.specs.Prelude.{◌≤◌, false, IfSome, IfNone};
    ghost use Rattle.ynl_resource.specs.declared.amounts.Resource.{Resource as Amount};
    ghost use Rattle.ynl_resource.specs.declared.labels.Label.{Label};
    ghost use Rattle.ynl_resource.specs.declared.paths.Path.{Path};
    ghost use Rattle.ynl_model.specs.Queues.{Config};
    ghost use Rattle.ynl_model.specs.Cluster.{State};
    ghost use Rattle.ynl_cluster.specs.uses.Tallies.{IsSmallUse};
    ghost use Rattle.ynl_search.specs.limits.Limits.{limit_of};
    ghost use Rattle.ynl_search.specs.Leaves.{AreLimits, AreTests, IsLeafKept, keeps_limit, keeps_share, passes_ask, passes_master};
    ghost use Rattle.ynl_search.specs.UserTests.{IsTestOf};
    ghost use Rattle.ynl_search.specs.Places.{HasAmounts, IsPlace, IsSmallPlace};

    /// Those of a leaf where it was reached, by its settings, what it uses, and how many users share it, which are 1 or
    /// more.
    pub fn new(place: &Place, settings: &LeafSettings, kept: &Use, users: u64) -> LeafTests
        requires place { IsSmallPlace place.now }
        requires kept { IsSmallUse kept.now }
        requires users { 1 ≤ users }
        ensures tests { (c : Config) (s : State) (label : Label) (free : Amount) (leaf : Path)
            → IsPlace c s label free leaf place.now
            → IsLeafKept c s label leaf settings.now kept.now users
            → AreTests c s label free leaf result }
        ensures headroom { result.headroom ≡ place.now.headroom }
        ensures limits { (c : Config) (s : State) (label : Label) (leaf : Path)
            → HasAmounts c s label leaf place.now
            → IsLeafKept c s label leaf settings.now kept.now users
            → AreLimits c s label leaf result }
    {
        LeafTests {
            headroom: place.headroom,
            limits: Limits {
                used: kept.used,
                guaranteed: place.guaranteed,
                users,
                percent: settings.minimum_user_limit_percent.number(),
                cap: cap_of(&place.guaranteed, settings.user_limit_factor),
            },
            masters: kept.masters,
            master_limit: share_of(&place.most, &settings.maximum_am_resource_percent),
            has_master: kept.master_count > 0,
        }
    }

    /// The test with which the users of the leaf are passed over, if there is headroom for any request.
    pub(crate) fn user_limits(&self) -> Option<UserLimits>
        ensures some { IfSome result (λ test. IsTestOf self.now test) }
        ensures none { IfNone result (self.now.headroom.is_open ≡ false) }
    {
        if !self.headroom.is_open {
            return None;
        }
        let room = self.headroom.room;
        Some(UserLimits {
            room: Resource {
                memory: room.memory.min(LARGEST),
                vcores: room.vcores.min(LARGEST),
            },
            limits: self.limits,
        })
    }

    /// The most that a user may use with a request of a size.
    pub fn limit(&self, size: &Size) -> Resource
        ensures { result ≡ limit_of self.now.limits size.now }
    {
        self.limits.limit(&size.amount())
    }

    /// What the limits of its users are made of.
    pub fn limits(&self) -> Limits
        ensures { result ≡ self.now.limits }
    {
        self.limits
    }

    /// What its masters use.
    pub fn masters(&self) -> Resource
        ensures value { result ≡ self.now.masters }
        ensures small { IsTotal result }
    {
        self.masters
    }

    /// Whether it has a master.
    pub fn has_master(&self) -> bool
        ensures { result ≡ self.now.has_master }
    {
        self.has_master
    }

    /// The most that the masters of the leaf may use together.
    pub fn master_limit(&self) -> Resource
        ensures { result ≡ self.now.master_limit }
    {
        self.master_limit
    }

    /// Whether a user that uses so much keeps the user limit with so much more.
    pub fn keeps_limit(&self, used: &Resource, size: &Size) -> bool
        requires { IsUse used.now }
        ensures { result ≡ keeps_limit self.now used.now size.now }
    {
        let size = size.amount();
        self.limits.keeps(&used.add(size), &size)
    }

    /// Whether one more master keeps the master limit of the leaf, or is its only one.
    pub fn keeps_share(&self, size: &Size) -> bool
        ensures { result ≡ keeps_share self.now size.now }
    {
        !self.has_master || self.masters.add(size.amount()).fits_in(self.master_limit)
    }

    /// Whether an ask of a user that uses so much may be placed.
    pub fn allows_ask(&self, used: &Resource, size: &Size) -> bool
        requires { IsUse used.now }
        ensures { result ≡ passes_ask self.now used.now size.now }
    {
        self.headroom.allows(&size.amount()) && self.keeps_limit(used, size)
    }

    /// Whether a master of a user that uses so much may be placed.
    pub fn allows_master(&self, used: &Resource, size: &Size) -> bool
        requires { IsUse used.now }
        ensures { result ≡ passes_master self.now used.now size.now }
    {
        self.allows_ask(used, size) && self.keeps_share(size)
    }
}
