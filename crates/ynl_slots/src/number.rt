//! The number of a row, or of none.

ghost use Rattle.std.specs.Prelude.{◌≡◌, ◌<◌, ◌-◌, ◌^◌, Some};
ghost use Rattle.std.specs.Option.{option_or};
ghost use Rattle.ynl_slots.specs.Number.{number_of};

use std::marker::Model;

/// No slot has this number.
pub(crate) const END: u32 = u32::MAX;

/// The number of a row, or none. It takes four bytes, where an `Option<u32>` takes eight. A contract sees the option.
#[derive(Clone, Copy)]
pub struct MaybeRow {
    number: u32,
}

impl Model for MaybeRow {
    ghost use Rattle.std.specs.Prelude.{Option, ℕ};

    ghost Value = { Option ℕ };

    ghost use Rattle.ynl_slots.specs.Number.{shown, fields_of, fields_back};

    ghost view = { shown };

    ghost inverse = { fields_of };

    ghost inverse_ok = { λ a _. fields_back a };
}

impl MaybeRow {
    /// The number of no row.
    pub const NONE: MaybeRow = MaybeRow { number: END };

    /// The number of a row.
    pub fn some(number: u32) -> MaybeRow
        requires { number < 2 ^ 32 - 1 }
        ensures { result ≡ Some number }
    {
        MaybeRow { number }
    }

    /// The number, or none if no slot has it.
    pub(crate) fn of(number: u32) -> MaybeRow
        ensures { result ≡ number_of number }
    {
        MaybeRow { number }
    }

    /// The number, if there is one.
    pub fn get(self) -> Option<u32>
        ensures { result ≡ self }
    {
        if self.number == END {
            None
        } else {
            Some(self.number)
        }
    }

    /// This number if there is one, or else the other.
    pub(crate) fn or(self, other: MaybeRow) -> MaybeRow
        ensures { result ≡ option_or self other }
    {
        if self.number == END { other } else { self }
    }
}
