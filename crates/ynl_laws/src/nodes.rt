//! The nodes.

ghost use Rattle.ynl_model.specs.Promises.{IsTracked};

/// The track, which is told from node events alone, is the nodes of the cluster without their stamps.
pub fn nodes_are_tracked()
    ensures { IsTracked }
{}
