//! The calls on a handle, and how each ends.

ghost use Rattle.ynl_c.specs.desk.Calls.{Opens, Tells, Lists};
ghost use Rattle.ynl_c.specs.Behind.{Replies, behind};

use crate::desk::{DeskFault, HashSeed};
use crate::handle::Handle;
use std::alloc::{AllocError, Global};

impl Handle {
    /// Opens a cluster of the configuration that a text means, in which names are hashed with the seed.
    pub fn open(&mut self, alloc: Global, seed: HashSeed, config: &[u8]) -> Result<(), DeskFault>
        ensures { Opens (behind self.old.value) (behind self.new.value) config.now result }
    {
        let mut desk = match self.take_or_new(alloc) {
            Ok(desk) => desk,
            Err(AllocError) => return Err(DeskFault::NoMemory),
        };
        let ended = desk.open(alloc, seed, config);
        self.put(desk);
        ended
    }

    /// Takes the event that a line is.
    pub fn tell(&mut self, alloc: Global, line: &[u8]) -> Result<(), DeskFault>
        ensures { Tells (behind self.old.value) (behind self.new.value) line.now result }
    {
        let Some(mut desk) = self.take(alloc) else {
            return Err(DeskFault::Closed);
        };
        let ended = desk.tell(alloc, line);
        self.put(desk);
        ended
    }

    /// Lists the containers of the partition of a label.
    pub fn list(&mut self, alloc: Global, label: &[u8]) -> Result<(), DeskFault>
        ensures { Lists (behind self.old.value) (behind self.new.value) label.now result }
    {
        let Some(mut desk) = self.take(alloc) else {
            return Err(DeskFault::Closed);
        };
        let ended = desk.list(alloc, label);
        self.put(desk);
        ended
    }

    /// Puts the text of what the last call came to at the front of a block.
    pub fn copy(
        &mut self,
        alloc: Global,
        block: &mut [u8],
        length: &mut usize,
    ) -> Result<(), DeskFault>
        ensures { Replies self.old.value self.new.value block.old block.new length.new result }
    {
        let Some(mut desk) = self.take(alloc) else {
            return Err(DeskFault::Closed);
        };
        let ended = desk.copy(alloc, block, length);
        self.put(desk);
        ended
    }
}
