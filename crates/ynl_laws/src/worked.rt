//! What one would ask to see beside the laws: that their premises can be met, and that what they speak of is not
//! empty.

ghost use Rattle.std.specs.Prelude.{◌≡◌, true};
ghost use Rattle.ynl_model.specs.Accepted.{is_accepted};
ghost use Rattle.ynl_model.specs.BuiltIn.{built_in};
ghost use Rattle.ynl_laws.specs.Examples.{PremisesAreMet, ViewIsShorter, BothArePlaced, ProposalIsCommitted, RestrictionIsNotAccepted};

/// The configuration that a cluster has where no other is given is accepted.
pub fn built_in_is_accepted()
    ensures accepted { is_accepted built_in ≡ true }
{}

/// A configuration of two tenants is accepted, and one of them alone may use an exclusive partition.
pub fn premises_are_met()
    ensures { PremisesAreMet }
{}

/// The view of a tenant leaves out what the other does.
pub fn view_is_shorter()
    ensures { ViewIsShorter }
{}

/// Containers of both tenants are placed, each on its partition.
pub fn both_are_placed()
    ensures { BothArePlaced }
{}

/// A proposal is answered, and as the next event it is committed.
pub fn proposal_is_committed()
    ensures { ProposalIsCommitted }
{}

/// The configuration with one tenant alone is not accepted by itself.
pub fn restriction_is_not_accepted()
    ensures { RestrictionIsNotAccepted }
{}
