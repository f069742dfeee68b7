//! Why labels or a tree of queues are not accepted.

use thiserror::Error;

/// Why labels are not accepted, in the order of the tests.
#[derive(Clone, Copy, Debug, PartialEq, Eq, Error)]
pub enum LabelFault {
    /// There are more than 64.
    #[error("more than 64 labels")]
    TooManyLabels,
    /// Two have one name.
    #[error("two labels of one name")]
    DuplicateLabel,
    /// A clock limit is not from 1 to 9007199254740991.
    #[error("a clock limit out of range")]
    BadLimit,
}

/// Why a tree of queues is not accepted, in the order of the tests.
#[derive(Clone, Copy, Debug, PartialEq, Eq, Error)]
pub enum TreeFault {
    /// A path has more than eight names.
    #[error("a path of more than eight names")]
    TooDeep,
    /// There are more than 1,024 queues, or more than 64 just below one.
    #[error("too many queues")]
    TooMany,
    /// A path does not begin with `root.`, or has a part that is no name.
    #[error("not a path below root")]
    BadPath,
    /// Two rows have one path.
    #[error("two queues of one path")]
    DuplicateQueue,
    /// A queue's parent is neither root nor a row.
    #[error("a queue without its parent")]
    NoParent,
    /// A row names a label that is not configured.
    #[error("a label that is not configured")]
    NoSuchLabel,
    /// A queue's labels are not within its parent's, or its row speaks of one that it may not use.
    #[error("a label that the queue or its parent may not use")]
    NotSubset,
    /// A queue's maximum is below its capacity.
    #[error("a maximum below the capacity")]
    MaximumBelowCapacity,
    /// The capacities just below a queue do not sum to the whole.
    #[error("capacities that do not sum to 100")]
    SumNot100,
}
