//! The copy of what a choice on a node reads.

use crate::rows::LeafSights;
use std::marker::Model;
use ynl_model::Node;
use ynl_resource::Resource;

/// An owned copy of what a choice on a node reads of a cluster: the node with its stamp, what is free there, the requests for
/// its partition, leaf by leaf, and, if that takes guests, the asks for DEFAULT. Each request has all that it is ordered by and
/// tested against. A sight stands for the state that it was copied from, whatever the cluster does after that.
pub struct Sight {
    pub(crate) node: Node,
    pub(crate) free: Resource,
    pub(crate) leaves: LeafSights,
    pub(crate) guests: Option<LeafSights>,
}

// By hand, so that crates above call it: one that is derived is proved anew in each of them, with all that it holds.
impl Drop for Sight {
    fn drop(self) {
        let Sight {
            node: _,
            free: _,
            leaves: _,
            guests: _,
        } = self;
    }
}

impl Model for Sight {
    ghost use Rattle.ynl_sights.specs.Sights.{Seen};
    ghost use Rattle.ynl_sights.specs.SightFields.{seen_of, IsSight};

    ghost Value = { Seen };

    ghost view = { seen_of };

    ghost invariant = { IsSight };
}
