//! Proposals.

ghost use Rattle.ynl_laws.specs.Proposed.{AreAccessibleChoicesCommitted, AreChoicesCommitted, AreProposalsCommitted};

/// In each state what is proposed for a node is placed where it is committed at once: where the clock of
/// the partition is not spent and the tenant has access there, no reason is against it.
pub fn accessible_choices_are_committed()
    ensures { AreAccessibleChoicesCommitted }
{}

/// In an accepted configuration what is proposed for a node is placed where it is committed at once, if
/// only the clock of the partition is not spent.
pub fn choices_are_committed()
    ensures { AreChoicesCommitted }
{}

/// In an accepted configuration, whatever events come, a proposal that is answered and comes back as the
/// very next event is committed: the reply is a container on its node, for what it asks for.
pub fn proposals_are_committed()
    ensures { AreProposalsCommitted }
{}
