//! The users of a cluster.

ghost use Rattle.std.specs.Prelude.{◌≡◌, ◌<◌, [], length, slice_get, Some, IfNone, IfOk, IfSome, OnErr};
ghost use Rattle.ynl_tables.specs.users.Users.{AreApart, IsLast, IsNew};

use std::alloc::{AllocError, Global};
use std::collections::BTreeMap;
use std::marker::Model;
use ynl_resource::Name;

/// The users of a cluster under numbers: a user's number is how many came before. It is kept for good. A user is found in few
/// steps, whatever names there are. A contract sees the list of the names.
#[derive(Drop)]
pub struct Users {
    names: Vec<Name>,
    numbers: BTreeMap<Name, u32>,
}

impl Model for Users {
    ghost use Rattle.std.specs.Prelude.{List};
    ghost use Rattle.ynl_resource.specs.declared.names.Name.{Name};
    ghost use Rattle.ynl_tables.specs.users.Fields.{IsKept};

    ghost Value = { List Name };

    ghost view = { λ a. a.names.items };

    ghost invariant = { IsKept };
}

impl Users {
    /// No users. It takes no memory.
    pub fn new(alloc: Global) -> Users
        ensures { result ≡ [] }
    {
        Users {
            names: Vec::new(alloc),
            numbers: BTreeMap::new(alloc),
        }
    }

    /// How many users there are.
    pub fn len(&self) -> usize
        ensures value { result ≡ length self.now }
        ensures apart { AreApart self.now }
    {
        self.names.len()
    }

    /// The number of the user of a name, if there is one.
    pub fn find(&self, name: &Name) -> Option<u32>
        ensures own { IfSome result (λ n. slice_get self.now n ≡ Some name.now) }
        ensures none { IfNone result (IsNew name.now self.now) }
    {
        self.numbers.get(name).copied()
    }

    /// The name of a user.
    pub fn name(&self, user: u32) -> &Name
        requires { user < length self.now }
        ensures { slice_get self.now user ≡ Some result.now }
    {
        &self.names[user as usize]
    }

    /// One more user, of a new name. It returns the number. It fails if memory is refused, and at 2^32 - 1 users.
    pub fn add(&mut self, name: &Name) -> Result<u32, AllocError>
        requires { IsNew name.now self.old }
        ensures ok { IfOk result (λ n. IsLast n name.now self.old self.new) }
        ensures err { OnErr result (self.new ≡ self.old) }
    {
        let count = self.names.len();
        if count >= u32::MAX as usize {
            return Err(AllocError);
        }
        self.names.reserve(1)?;
        let number = count as u32;
        match self.numbers.insert(*name, number) {
            Ok(_) => {
                self.names.push_reserved(*name);
                Ok(number)
            }
            Err(_) => Err(AllocError),
        }
    }
}
