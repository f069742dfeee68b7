//! How large a number may be, and how long a list: every limit that no configuration sets.

/// All of the parent's, in hundredths of a percent.
pub const WHOLE: u64 = 10000;

/// How far a clock goes at most: 2^53 - 1, up to which each reader of JSON has every number.
pub const MOST_CLOCK: u64 = 9007199254740991;

/// The most MB of a node or a request.
pub const MOST_MEMORY: u64 = 4294967295;

/// The most virtual cores of a node or a request.
pub const MOST_VCORES: u64 = 65536;

/// The most containers that one ask counts.
pub const MOST_COUNT: u32 = 1000000;

/// The most names of a path, `root` included.
pub const MOST_NAMES: usize = 8;

/// The most labels of a configuration.
pub const MOST_LABELS: usize = 64;

/// The most queues of a configuration.
pub const MOST_QUEUES: usize = 1024;

/// The most queues just below one.
pub const MOST_CHILDREN: usize = 64;

/// The most nodes of a partition.
pub const MOST_NODES: usize = 65536;

/// The most asks that an application has on a label.
pub const MOST_ASKS: usize = 64;
