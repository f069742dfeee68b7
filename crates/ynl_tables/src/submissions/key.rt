//! Names as the keys of a hash table.

ghost use Rattle.std.specs.Prelude.{◌∷◌, []};
ghost use Rattle.std.specs.Cmp.{partial_equiv_from_equiv};
ghost use Rattle.std.specs.Cmp.Lexicographic.{nat_list_eq_equiv, bytes_decides};
ghost use Rattle.std.proofs.Common.{ap};
ghost use Rattle.ynl_resource.specs.Names.{same_name};

use std::hash::{Hash, Hasher};
use std::marker::Model;
use ynl_resource::Name;

/// A name that can be hashed. A contract sees it as the name.
#[derive(Clone, Copy)]
pub(crate) struct Key {
    pub(crate) name: Name,
}

impl Model for Key {
    ghost use Rattle.std.specs.Prelude.{List, ℕ};

    ghost Value = { List ℕ };

    ghost view = { λ key. key.name };

    ghost inverse = { λ name. record { name = name } };
}

impl PartialEq for Key {
    ghost eq = { same_name };

    ghost laws = { partial_equiv_from_equiv nat_list_eq_equiv };

    fn eq(&self, other: &Key) -> bool {
        self.name == other.name
    }
}

impl Eq for Key {
    ghost laws = { nat_list_eq_equiv };
}

impl Hash for Key {
    ghost hash_input = { λ name. name ∷ [] };

    ghost respects_eq = { λ a b same. ap (λ name. name ∷ []) ((bytes_decides a b).0 same) };

    fn hash<H: Hasher>(&self, state: &mut H) {
        state.write(self.name.as_bytes());
    }
}
