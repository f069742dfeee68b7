//! The row of a container.

use crate::containers::container::Container;
use ynl_slots::{Linked, Links};

/// The containers of one node are in one chain.
pub(crate) struct ByNode;

/// The containers of one application are in one chain.
pub(crate) struct ByApp;

/// A container with its links to those of its node and of its application.
#[derive(Clone, Copy)]
pub(crate) struct Row {
    pub(crate) container: Container,
    pub(crate) of_node: Links,
    pub(crate) of_app: Links,
}

impl Linked<ByNode> for Row {
    ghost use Rattle.std.specs.Prelude.{refl};

    ghost links = { λ row. row.of_node };

    ghost with_links = { λ row to. record row { of_node = to } };

    fn links(&self) -> Links {
        self.of_node
    }

    fn set_links(&mut self, to: Links) {
        self.of_node = to;
    }

    ghost relinked = { λ _ _. refl };
}

impl Linked<ByApp> for Row {
    ghost use Rattle.std.specs.Prelude.{refl};

    ghost links = { λ row. row.of_app };

    ghost with_links = { λ row to. record row { of_app = to } };

    fn links(&self) -> Links {
        self.of_app
    }

    fn set_links(&mut self, to: Links) {
        self.of_app = to;
    }

    ghost relinked = { λ _ _. refl };
}
