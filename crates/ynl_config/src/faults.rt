//! Why a text is no configuration.

ghost use Rattle.std.specs.Prelude.{◌≡◌};
ghost use Rattle.ynl_config.specs.Anywhere.{same_fault};
ghost use Rattle.ynl_config.specs.Earliest.{fault_word, rank, earlier, is_of_tables, is_of_rows};

use std::fmt;
use thiserror::Error;
use ynl_model::{LabelFault, TreeFault};

/// Why a text is no configuration, in the order in which the faults are told: each only where none
/// before it holds anywhere in the text.
#[derive(Clone, Copy, Debug, PartialEq, Eq, Error)]
pub enum ConfigFault {
    /// The text is longer than 1,048,576 bytes.
    Size,
    /// The bytes are no TOML text.
    Syntax,
    /// A table has a key that it cannot have.
    UnknownKey,
    /// The version, a label's name or a queue's path is not there.
    MissingKey,
    /// A value is of another kind.
    WrongKind,
    /// The version is neither 1 nor 2.
    Version,
    /// A number is out of its range, or a state is neither RUNNING nor STOPPED.
    Range,
    /// A text is no name of a label.
    BadLabel,
    /// There are more than 64 labels.
    TooManyLabels,
    /// Two labels have one name.
    DuplicateLabel,
    /// A path has more than eight names.
    TooDeep,
    /// There are more than 1,024 queues, or more than 64 just below one.
    TooMany,
    /// A path does not begin with `root.`, or has a part that is no name.
    BadPath,
    /// Two queues have one path.
    DuplicateQueue,
    /// A queue's parent is neither root nor configured.
    NoParent,
    /// A queue names a label that is not configured.
    NoSuchLabel,
    /// A queue's labels are not within its parent's, or it speaks of one that it may not use.
    NotSubset,
    /// A queue's maximum is below its capacity.
    MaximumBelowCapacity,
    /// The capacities just below a queue do not sum to the whole.
    SumNot100,
}

impl ConfigFault {
    /// The word that is printed.
    pub fn word(self) -> &'static str
        ensures { result.now ≡ fault_word self }
    {
        match self {
            ConfigFault::Size => "size",
            ConfigFault::Syntax => "syntax",
            ConfigFault::UnknownKey => "unknown-key",
            ConfigFault::MissingKey => "missing-key",
            ConfigFault::WrongKind => "wrong-kind",
            ConfigFault::Version => "version",
            ConfigFault::Range => "range",
            ConfigFault::BadLabel => "bad-label",
            ConfigFault::TooManyLabels => "too-many-labels",
            ConfigFault::DuplicateLabel => "duplicate-label",
            ConfigFault::TooDeep => "too-deep",
            ConfigFault::TooMany => "too-many",
            ConfigFault::BadPath => "bad-path",
            ConfigFault::DuplicateQueue => "duplicate-queue",
            ConfigFault::NoParent => "no-parent",
            ConfigFault::NoSuchLabel => "no-such-label",
            ConfigFault::NotSubset => "not-subset",
            ConfigFault::MaximumBelowCapacity => "maximum-below-capacity",
            ConfigFault::SumNot100 => "sum-not-100",
        }
    }

    /// Its place in the order of the faults.
    fn rank(self) -> u8
        ensures { result ≡ rank self }
    {
        self as u8
    }

    /// Whether it is the other.
    pub(crate) fn is(self, other: ConfigFault) -> bool
        ensures { result ≡ same_fault self other }
    {
        self.rank() == other.rank()
    }

    /// Whether single tables and values of a text have it.
    pub(crate) fn is_of_tables(self) -> bool
        ensures { result ≡ is_of_tables self }
    {
        2 <= self.rank() && self.rank() <= 7
    }

    /// Whether several rows have it together.
    pub(crate) fn is_of_rows(self) -> bool
        ensures { result ≡ is_of_rows self }
    {
        8 <= self.rank()
    }

    /// The one of two that is told.
    pub(crate) fn earlier(self, other: ConfigFault) -> ConfigFault
        ensures { result ≡ earlier self other }
    {
        if self.rank() <= other.rank() {
            self
        } else {
            other
        }
    }
}

impl fmt::Display for ConfigFault {
    ghost use Rattle.std.specs.Prelude.{Some};
    ghost use Rattle.ynl_config.specs.Earliest.{fault_word};

    ghost output = { λ fault. Some (fault_word fault) };

    fn fmt<W: fmt::Write>(&self, f: &mut fmt::Formatter<W>) -> fmt::Result {
        let word = self.word();
        write!(f, "{word}")
    }
}

impl From<LabelFault> for ConfigFault {
    ghost use Rattle.std.specs.Prelude.{◌≡◌};
    ghost use Rattle.ynl_config.specs.Meaning.{label_fault};

    ghost from_gives = { λ fault told. told ≡ label_fault fault };

    fn from(fault: LabelFault) -> ConfigFault {
        match fault {
            LabelFault::TooManyLabels => ConfigFault::TooManyLabels,
            LabelFault::DuplicateLabel => ConfigFault::DuplicateLabel,
            LabelFault::BadLimit => ConfigFault::Range,
        }
    }
}

impl From<TreeFault> for ConfigFault {
    ghost use Rattle.std.specs.Prelude.{◌≡◌};
    ghost use Rattle.ynl_config.specs.Meaning.{tree_fault};

    ghost from_gives = { λ fault told. told ≡ tree_fault fault };

    fn from(fault: TreeFault) -> ConfigFault {
        match fault {
            TreeFault::TooDeep => ConfigFault::TooDeep,
            TreeFault::TooMany => ConfigFault::TooMany,
            TreeFault::BadPath => ConfigFault::BadPath,
            TreeFault::DuplicateQueue => ConfigFault::DuplicateQueue,
            TreeFault::NoParent => ConfigFault::NoParent,
            TreeFault::NoSuchLabel => ConfigFault::NoSuchLabel,
            TreeFault::NotSubset => ConfigFault::NotSubset,
            TreeFault::MaximumBelowCapacity => ConfigFault::MaximumBelowCapacity,
            TreeFault::SumNot100 => ConfigFault::SumNot100,
        }
    }
}
