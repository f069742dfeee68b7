//! Refusals from their words.

ghost use Rattle.std.specs.Prelude.{◌≡◌};
ghost use Rattle.ynl_resource.specs.RefusalWords.{refusal_of};

use crate::refusals::Refusal;

/// All refusals, in the order of their numbers.
const REFUSALS: [Refusal; 28] = [
    Refusal::NoSuchLabel,
    Refusal::NodeExists,
    Refusal::NoSuchNode,
    Refusal::SameLabel,
    Refusal::PartitionFull,
    Refusal::NoSuchQueue,
    Refusal::NotALeaf,
    Refusal::QueueStopped,
    Refusal::RootQueue,
    Refusal::LabelNotAccessible,
    Refusal::TooLarge,
    Refusal::NameUsed,
    Refusal::TooManyApplications,
    Refusal::NoSuchApplication,
    Refusal::LabelMismatch,
    Refusal::TooManyAsks,
    Refusal::NoSuchContainer,
    Refusal::IsMaster,
    Refusal::ClockSpent,
    Refusal::Stale,
    Refusal::NotAccessible,
    Refusal::NoSuchAsk,
    Refusal::NoRoom,
    Refusal::PartitionBusy,
    Refusal::OverMaximum,
    Refusal::OverUserLimit,
    Refusal::OverMasterShare,
    Refusal::BelowCapacity,
];

impl Refusal {
    /// The refusal that is printed as this word, if one is.
    #[tactic(auto, unfolding(crate::specs::RefusalWords::refusal_of))]
    pub fn from_word(word: &str) -> Option<Refusal>
        ensures { result ≡ refusal_of word.now }
    {
        REFUSALS
            .iter()
            .copied()
            .find(|refusal| refusal.word() == word)
    }
}
