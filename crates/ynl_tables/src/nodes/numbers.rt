//! Numbers under names.

ghost use Rattle.std.specs.Prelude.{◌≡◌, IsTrue, Some, None, OnOk, OnErr, if◌then◌else◌};
ghost use Rattle.ynl_resource.specs.declared.names.Name.{Name as NodeName};
ghost use Rattle.ynl_resource.specs.NameText.{is_name};
ghost use Rattle.ynl_resource.specs.Names.{same_name};
ghost use Rattle.ynl_tables.specs.nodes.Numbers.{number_in};

use std::alloc::{AllocError, Global};
use std::collections::{BTreeMap, HashMap};
use ynl_resource::{HashSeed, Name};

/// Numbers under names. A name takes 65 bytes, and most are far shorter: so a short one stands here as one number, which is
/// hashed with the run's own keys, since strangers choose names; and only a longer one in full.
#[derive(Drop)]
pub(crate) struct Numbers {
    short: HashMap<u128, u32, HashSeed>,
    long: BTreeMap<Name, u32>,
}

impl Numbers {
    /// No names, of which the short ones are hashed with this seed.
    pub(crate) fn new(alloc: Global, seed: HashSeed) -> Numbers
        ensures { (name : NodeName) → number_in result name ≡ None }
    {
        Numbers {
            short: HashMap::with_hasher(alloc, seed),
            long: BTreeMap::new(alloc),
        }
    }

    /// The number under a name, if there is one.
    pub(crate) fn get(&self, name: &Name) -> Option<u32>
        ensures value { result ≡ number_in self.now name.now }
        ensures name { IsTrue (is_name name.now) }
    {
        match name.code() {
            Some(code) => self.short.get(&code).copied(),
            None => self.long.get(name).copied(),
        }
    }

    /// Puts a number under a name. It fails if memory is refused, for a new name alone.
    pub(crate) fn insert(&mut self, name: &Name, number: u32) -> Result<(), AllocError>
        ensures ok { OnOk result ((other : NodeName) → IsTrue (is_name other) → number_in self.new other
            ≡ (if same_name name.now other then Some number else number_in self.old other)) }
        ensures err { OnErr result ((other : NodeName) → number_in self.new other ≡ number_in self.old other) }
        ensures absent { OnErr result (number_in self.old name.now ≡ None) }
        ensures name { IsTrue (is_name name.now) }
    {
        match name.code() {
            Some(code) => {
                self.short.insert(code, number)?;
            }
            None => {
                self.long.insert(*name, number)?;
            }
        }
        Ok(())
    }

    /// A name goes, with its number.
    pub(crate) fn remove(&mut self, name: &Name)
        ensures gone { (other : NodeName) → IsTrue (is_name other) → number_in self.new other
            ≡ (if same_name name.now other then None else number_in self.old other) }
        ensures name { IsTrue (is_name name.now) }
    {
        match name.code() {
            Some(code) => {
                let _number = self.short.remove(&code);
            }
            None => {
                let _number = self.long.remove(name);
            }
        }
    }
}
