//! What evidence tells: laws of the definitions of what [`evidence_lines`](crate::evidence_lines) and
//! [`audit_evidence_lines`](crate::audit_evidence_lines) write.

ghost use Rattle.ynl_commands.specs.Handed.{AuditedIsRight, PassingHandsRight};

/// Where the audit of a journal does not tell that a reply differs, its evidence for each tenant that alone
/// may use an exclusive partition of an accepted configuration has no flaw.
pub fn passing_journals_hand_right_evidence()
    ensures { PassingHandsRight }
{}

/// What passes the audit of evidence is right: its places rise, its events are what the tenant's view of them
/// keeps, and each reply that is there is that of a cluster which holds the tenant alone and is given these
/// events.
pub fn audited_evidence_is_right()
    ensures { AuditedIsRight }
{}
