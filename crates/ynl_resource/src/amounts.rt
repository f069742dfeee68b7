//! Amounts of memory, in MB, and of virtual cores, and shares of them.

ghost use Rattle.std.specs.Prelude.{◌≡◌, ◌+◌, ◌≤◌, ◌<◌, ◌^◌, IsTrue};
ghost use Rattle.std.specs.Option.{SomeIff};
ghost use Rattle.ynl_resource.specs.Amounts.{amount, plus, less, fits_in, scale_floor, scale_ceil, IsSmall, IsSize};
ghost use Rattle.ynl_resource.specs.Ranges.{whole};

use crate::ranges::{MOST_MEMORY, MOST_VCORES};
use std::marker::Model;

/// An amount: MB of memory, and virtual cores. What is added or scaled stays at most 2^49 in each.
#[derive(Clone, Copy, Debug, PartialEq, Eq)]
pub struct Resource {
    pub memory: u64,
    pub vcores: u64,
}

impl Resource {
    /// Both together.
    pub fn add(self, other: Resource) -> Resource
        requires { IsSmall (plus self other) }
        ensures { result ≡ plus self other }
    {
        Resource {
            memory: self.memory + other.memory,
            vcores: self.vcores + other.vcores,
        }
    }

    /// What is left of this amount without the other.
    pub fn sub(self, other: Resource) -> Resource
        requires { IsTrue (fits_in other self) }
        ensures { result ≡ less self other }
    {
        Resource {
            memory: self.memory - other.memory,
            vcores: self.vcores - other.vcores,
        }
    }

    /// Whether it is at most the other, in memory and in virtual cores.
    pub fn fits_in(self, other: Resource) -> bool
        ensures { result ≡ fits_in self other }
    {
        self.memory <= other.memory && self.vcores <= other.vcores
    }

    /// `n / d` of the amount, each part rounded down.
    pub fn scale_floor(self, n: u64, d: u64) -> Resource
        requires small { IsSmall self }
        requires numerator { n ≤ 10000 }
        requires divisor { 1 ≤ d }
        requires result_small { IsSmall (scale_floor self n d) }
        ensures { result ≡ scale_floor self n d }
    {
        Resource {
            memory: self.memory * n / d,
            vcores: self.vcores * n / d,
        }
    }

    /// `n / d` of the amount, each part rounded up.
    pub fn scale_ceil(self, n: u64, d: u64) -> Resource
        requires small { IsSmall self }
        requires numerator { n ≤ 10000 }
        requires divisor { 1 ≤ d }
        requires divisor_small { d ≤ 1000000 }
        requires result_small { IsSmall (scale_ceil self n d) }
        ensures { result ≡ scale_ceil self n d }
    {
        Resource {
            memory: (self.memory * n + (d - 1)) / d,
            vcores: (self.vcores * n + (d - 1)) / d,
        }
    }
}

/// The size of a node or of a request: 1 to 4294967295 MB and 1 to 65536 virtual cores. A contract
/// sees it as its amount.
#[derive(Clone, Copy, PartialEq, Eq, PartialOrd, Ord)]
pub struct Size {
    memory: u32,
    vcores: u32,
}

impl Model for Size {
    ghost use Rattle.std.specs.Prelude.{◌≤◌};
    ghost use Rattle.ynl_resource.specs.declared.amounts.Resource.{Resource};

    ghost Value = { Resource };

    ghost view = { λ s. record { memory = s.memory; vcores = s.vcores } };

    ghost invariant = { λ s. (1 ≤ s.memory) × (1 ≤ s.vcores) × (s.vcores ≤ 65536) };

    ghost inverse = { λ r. record { memory = r.memory; vcores = r.vcores } };
}

impl Size {
    /// The size, if memory (MB) and virtual cores are in range.
    pub fn new(memory: u64, vcores: u64) -> Option<Size>
        ensures { SomeIff result (IsSize (amount memory vcores)) (amount memory vcores) }
    {
        if memory >= 1 && memory <= MOST_MEMORY && vcores >= 1 && vcores <= MOST_VCORES {
            return Some(Size {
                memory: memory as u32,
                vcores: vcores as u32,
            });
        }
        None
    }

    /// The size as an amount.
    pub fn amount(&self) -> Resource
        ensures value { result ≡ self.now }
        ensures range { IsSize self.now }
    {
        Resource {
            memory: u64::from(self.memory),
            vcores: u64::from(self.vcores),
        }
    }
}

/// A share, 0 to 10000 hundredths of a percent. A contract sees the number.
#[derive(Clone, Copy, PartialEq, Eq, PartialOrd, Ord)]
pub struct Hundredths {
    number: u16,
}

impl Model for Hundredths {
    ghost use Rattle.std.specs.Prelude.{ℕ, ◌≤◌};

    ghost Value = { ℕ };

    ghost view = { λ h. h.number };

    ghost invariant = { λ h. h.number ≤ 10000 };

    ghost inverse = { λ n. record { number = n } };
}

impl Hundredths {
    /// None of it.
    pub const NOTHING: Hundredths = Hundredths { number: 0 };

    /// The whole: 100 percent.
    pub const WHOLE: Hundredths = Hundredths { number: 10000 };

    /// The share, if it is at most the whole.
    pub fn new(number: u64) -> Option<Hundredths>
        ensures { SomeIff result (number ≤ whole) number }
    {
        if number <= 10000 {
            return Some(Hundredths {
                number: number as u16,
            });
        }
        None
    }

    /// The share in hundredths of a percent.
    pub fn number(&self) -> u64
        ensures value { result ≡ self.now }
        ensures range { self.now ≤ whole }
    {
        u64::from(self.number)
    }
}
