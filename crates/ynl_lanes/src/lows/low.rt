//! The least of the sizes of some requests that wait.

ghost use Rattle.std.specs.Prelude.{◌≡◌, ◌↔◌, IsTrue};
ghost use Rattle.ynl_resource.specs.Amounts.{fits_in, smaller_of};
ghost use Rattle.ynl_lanes.specs.lows.Lows.{IsLow, IsBelow, no_size};
ghost use Rattle.ynl_lanes.specs.lows.Order.{below-refl, below-trans, below-no_size};

use crate::firsts::Least;
use std::marker::Model;
use ynl_resource::{Resource, Size};

/// The least, part by part, of the sizes of some requests: MB of memory, and virtual cores. It may be the
/// size of none of them. A contract sees it as an amount.
#[derive(Clone, Copy, PartialEq, Eq)]
pub struct Low {
    memory: u32,
    vcores: u32,
}

impl Model for Low {
    ghost use Rattle.ynl_resource.specs.declared.amounts.Resource.{Resource};

    ghost Value = { Resource };

    ghost view = { λ low. record { memory = low.memory; vcores = low.vcores } };

    ghost inverse = { λ a. record { memory = a.memory; vcores = a.vcores } };
}

impl Low {
    /// The least of no sizes: above each size.
    pub const NONE: Low = Low {
        memory: u32::MAX,
        vcores: u32::MAX,
    };

    /// The least of one size.
    pub fn of(size: &Size) -> Low
        ensures { result ≡ size.now }
    {
        let amount = size.amount();
        Low {
            memory: amount.memory as u32,
            vcores: amount.vcores as u32,
        }
    }

    /// The least as an amount.
    pub fn amount(&self) -> Resource
        ensures value { result ≡ self.now }
        ensures range { IsLow self.now }
    {
        Resource {
            memory: u64::from(self.memory),
            vcores: u64::from(self.vcores),
        }
    }

    /// Whether it is at most the room, in memory and in virtual cores.
    pub fn fits(&self, room: &Resource) -> bool
        ensures { result ≡ fits_in self.now room.now }
    {
        u64::from(self.memory) <= room.memory && u64::from(self.vcores) <= room.vcores
    }
}

impl Least for Low {
    ghost below = { IsBelow };

    ghost fits = { IsLow };

    ghost none = { no_size };

    ghost reflexive = { below-refl };

    ghost transitive = { below-trans };

    ghost none_above = { below-no_size };

    fn none() -> Low {
        Low::NONE
    }

    fn least(self, other: Low) -> Low
        ensures { result ≡ smaller_of self other }
    {
        Low {
            memory: self.memory.min(other.memory),
            vcores: self.vcores.min(other.vcores),
        }
    }

    fn same(self, other: Low) -> bool
        ensures { IsTrue result ↔ self ≡ other }
    {
        self == other
    }
}
