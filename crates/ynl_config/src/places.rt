//! Where a fault of a configuration is.

ghost use Rattle.std.specs.Prelude.{◌≡◌};
ghost use Rattle.ynl_config.specs.Places.{place_of, nowhere, row_word};

use crate::faults::ConfigFault;

/// What is told of a value: a text of at most 256 bytes, an integer, or how many there are.
#[derive(Drop)]
pub enum ToldValue {
    Text(String),
    Integer(i64),
    Count(usize),
}

/// The rows of a configuration.
#[derive(Clone, Copy)]
pub enum RowKind {
    Label,
    Queue,
}

impl RowKind {
    /// The key of the rows, in the text and where a place is told.
    pub fn word(self) -> &'static str
        ensures { result.now ≡ row_word self }
    {
        match self {
            RowKind::Label => "label",
            RowKind::Queue => "queue",
        }
    }
}

/// Where a fault is, and what is told of it; a part that says nothing of a fault is not there. Percentages are in
/// hundredths of a percent.
#[derive(Drop)]
pub struct Place {
    /// The rows to which the place belongs, where it is not the top level.
    pub table: Option<RowKind>,
    /// The number of the row among them, from 1.
    pub row: Option<u64>,
    /// The path of the queue, as it is written.
    pub queue: Option<ToldValue>,
    /// The label of the row, or the one that is at fault.
    pub label: Option<ToldValue>,
    pub key: Option<ToldValue>,
    pub value: Option<ToldValue>,
    /// The line of the text, from 1.
    pub line: Option<u64>,
    pub capacity: Option<u64>,
    pub maximum: Option<u64>,
    pub sum: Option<u64>,
}

/// Why a text is no configuration, and where the first such fault is.
pub struct Misplaced {
    pub fault: ConfigFault,
    pub place: Place,
}

// By hand, so that crates above call it: one that is derived is proved anew in each of them, with all that it holds.
impl Drop for Misplaced {
    fn drop(self) {
        let Misplaced { fault: _, place: _ } = self;
    }
}

impl Place {
    /// The place of which nothing is told.
    pub(crate) fn nowhere() -> Place
        ensures { place_of result ≡ nowhere }
    {
        Place {
            table: None,
            row: None,
            queue: None,
            label: None,
            key: None,
            value: None,
            line: None,
            capacity: None,
            maximum: None,
            sum: None,
        }
    }
}
