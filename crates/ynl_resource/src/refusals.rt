//! Why an event is refused.

ghost use Rattle.std.specs.Prelude.{◌≡◌};
ghost use Rattle.ynl_resource.specs.Refusals.{number, word};

#[derive(Clone, Copy, Debug, PartialEq, Eq)]
pub enum Refusal {
    NoSuchLabel,
    NodeExists,
    NoSuchNode,
    SameLabel,
    PartitionFull,
    NoSuchQueue,
    NotALeaf,
    QueueStopped,
    RootQueue,
    LabelNotAccessible,
    TooLarge,
    NameUsed,
    TooManyApplications,
    NoSuchApplication,
    LabelMismatch,
    TooManyAsks,
    NoSuchContainer,
    IsMaster,
    ClockSpent,
    Stale,
    NotAccessible,
    NoSuchAsk,
    NoRoom,
    PartitionBusy,
    OverMaximum,
    OverUserLimit,
    OverMasterShare,
    BelowCapacity,
}

impl Refusal {
    /// The number of a refusal.
    pub fn number(self) -> u8
        ensures { result ≡ number self }
    {
        match self {
            Refusal::NoSuchLabel => 1,
            Refusal::NodeExists => 2,
            Refusal::NoSuchNode => 3,
            Refusal::SameLabel => 4,
            Refusal::PartitionFull => 5,
            Refusal::NoSuchQueue => 6,
            Refusal::NotALeaf => 7,
            Refusal::QueueStopped => 8,
            Refusal::RootQueue => 9,
            Refusal::LabelNotAccessible => 10,
            Refusal::TooLarge => 11,
            Refusal::NameUsed => 12,
            Refusal::TooManyApplications => 13,
            Refusal::NoSuchApplication => 14,
            Refusal::LabelMismatch => 15,
            Refusal::TooManyAsks => 16,
            Refusal::NoSuchContainer => 17,
            Refusal::IsMaster => 18,
            Refusal::ClockSpent => 19,
            Refusal::Stale => 20,
            Refusal::NotAccessible => 21,
            Refusal::NoSuchAsk => 22,
            Refusal::NoRoom => 23,
            Refusal::PartitionBusy => 24,
            Refusal::OverMaximum => 25,
            Refusal::OverUserLimit => 26,
            Refusal::OverMasterShare => 27,
            Refusal::BelowCapacity => 28,
        }
    }

    /// The word of a refusal, as it is printed.
    pub fn word(self) -> &'static str
        ensures { result.now ≡ word self }
    {
        match self {
            Refusal::NoSuchLabel => "NoSuchLabel",
            Refusal::NodeExists => "NodeExists",
            Refusal::NoSuchNode => "NoSuchNode",
            Refusal::SameLabel => "SameLabel",
            Refusal::PartitionFull => "PartitionFull",
            Refusal::NoSuchQueue => "NoSuchQueue",
            Refusal::NotALeaf => "NotALeaf",
            Refusal::QueueStopped => "QueueStopped",
            Refusal::RootQueue => "RootQueue",
            Refusal::LabelNotAccessible => "LabelNotAccessible",
            Refusal::TooLarge => "TooLarge",
            Refusal::NameUsed => "NameUsed",
            Refusal::TooManyApplications => "TooManyApplications",
            Refusal::NoSuchApplication => "NoSuchApplication",
            Refusal::LabelMismatch => "LabelMismatch",
            Refusal::TooManyAsks => "TooManyAsks",
            Refusal::NoSuchContainer => "NoSuchContainer",
            Refusal::IsMaster => "IsMaster",
            Refusal::ClockSpent => "ClockSpent",
            Refusal::Stale => "Stale",
            Refusal::NotAccessible => "NotAccessible",
            Refusal::NoSuchAsk => "NoSuchAsk",
            Refusal::NoRoom => "NoRoom",
            Refusal::PartitionBusy => "PartitionBusy",
            Refusal::OverMaximum => "OverMaximum",
            Refusal::OverUserLimit => "OverUserLimit",
            Refusal::OverMasterShare => "OverMasterShare",
            Refusal::BelowCapacity => "BelowCapacity",
        }
    }
}
