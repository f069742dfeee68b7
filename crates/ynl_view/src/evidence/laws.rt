//! What evidence shows: laws of the definitions of [`evidence`](crate::evidence::evidence) and of
//! [`audit_evidence`](crate::evidence::audit_evidence).

ghost use Rattle.ynl_view.specs.evidence.Promises.{EvidencePasses, FlawlessIsRight, HandsNoOthers, HasNoOthers};

/// In evidence that passes its audit the places rise, the events are what the tenant's view of them keeps,
/// and each reply that is there is that of a cluster which holds the tenant alone and is given these events.
pub fn passing_evidence_is_right()
    ensures { FlawlessIsRight }
{}

/// Of a journal in which each reply that is there is the cluster's, the evidence for each tenant that alone
/// may use an exclusive partition of an accepted configuration passes its audit.
pub fn evidence_of_right_journals_passes()
    ensures { EvidencePasses }
{}

/// Evidence that passes its audit has no event that names another tenant, but Commits on nodes that it has
/// in the partition.
pub fn passing_evidence_has_no_others()
    ensures { HasNoOthers }
{}

/// The evidence of any journal has no event that names another tenant, but Commits on nodes that the journal
/// has in the partition.
pub fn evidence_hands_no_others()
    ensures { HandsNoOthers }
{}
