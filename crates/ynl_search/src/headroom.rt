//! How much more queues can take.

ghost use Rattle.std.specs.Prelude.{◌≡◌, ◌&&◌};
ghost use Rattle.ynl_resource.specs.Amounts.{fits_in, plus};
ghost use Rattle.ynl_resource.specs.declared.amounts.Resource.{Resource as Amount};
ghost use Rattle.ynl_search.specs.Places.{allows};

use ynl_resource::Resource;

/// How much more some queues can take: whether anything at all, and how large it may be.
#[derive(Clone, Copy)]
pub struct Headroom {
    pub is_open: bool,
    pub room: Resource,
}

impl Headroom {
    /// The headroom of what is free, and of no queue.
    pub fn of_free(free: Resource) -> Headroom
        ensures { (size : Amount) → allows result size ≡ fits_in size free }
    {
        Headroom {
            is_open: true,
            room: free,
        }
    }

    /// The headroom of a queue that uses so much of so much.
    #[tactic(auto, using(crate::proofs::Rooms::opened_room))]
    pub fn of(used: &Resource, most: &Resource) -> Headroom
        ensures { (size : Amount) → allows result size ≡ fits_in (plus used.now size) most.now }
    {
        Headroom {
            is_open: used.fits_in(*most),
            room: Resource {
                memory: most.memory.saturating_sub(used.memory),
                vcores: most.vcores.saturating_sub(used.vcores),
            },
        }
    }

    /// The headroom of both.
    #[tactic(auto, using(crate::proofs::Rooms::both_rooms))]
    pub fn and(&self, other: &Headroom) -> Headroom
        ensures { (size : Amount) → allows result size
            ≡ (allows self.now size && allows other.now size) }
    {
        Headroom {
            is_open: self.is_open && other.is_open,
            room: Resource {
                memory: self.room.memory.min(other.room.memory),
                vcores: self.room.vcores.min(other.room.vcores),
            },
        }
    }

    /// Whether there is headroom for so much.
    pub fn allows(&self, size: &Resource) -> bool
        ensures { result ≡ allows self.now size.now }
    {
        self.is_open && size.fits_in(self.room)
    }
}
