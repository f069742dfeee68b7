//! What sights determine.

ghost use Rattle.ynl_sights.specs.Sights.{SightsDecide};

/// What is seen of a cluster for a node determines the choice there: the choice from it is what would be placed on the node,
/// with the node's stamp.
pub fn sights_decide()
    ensures { SightsDecide }
{}
