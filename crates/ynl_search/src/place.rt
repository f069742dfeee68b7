//! A queue on the way of a search.

ghost use Rattle.std.specs.Prelude.{◌≡◌, ◌&&◌};
ghost use Rattle.ynl_resource.specs.Names.{root};
ghost use Rattle.ynl_resource.specs.declared.amounts.Resource.{Resource as Amount};
ghost use Rattle.ynl_resource.specs.declared.labels.Label.{Label};
ghost use Rattle.ynl_resource.specs.declared.names.Name.{Name};
ghost use Rattle.ynl_resource.specs.declared.paths.Path.{Path};
ghost use Rattle.ynl_model.specs.Queues.{Config};
ghost use Rattle.ynl_model.specs.Cluster.{State, maximum as maximum_of, total as total_of, used as used_of};
ghost use Rattle.ynl_cluster.specs.uses.Tallies.{IsTotal};
ghost use Rattle.ynl_laws.specs.Decided.{below};
ghost use Rattle.ynl_search.specs.notes.Shut.{keeps_maximum};
ghost use Rattle.ynl_search.specs.Places.{IsCell, IsPlace, IsSmallPlace, allows, in_any_room};

use crate::headroom::Headroom;
use ynl_queues::share_of;
use ynl_resource::{Hundredths, Resource};

/// A queue on the way of a search, by its number, with what was worked out on the way from root: how much more it and the
/// queues above it can take of what is free, what it is guaranteed, and what it may use at most.
#[derive(Clone, Copy)]
pub struct Place {
    pub queue: usize,
    pub headroom: Headroom,
    pub guaranteed: Resource,
    pub most: Resource,
}

/// More room than any request needs.
pub const ANY: Resource = Resource {
    memory: u64::MAX,
    vcores: u64::MAX,
};

/// A queue on a partition: its shares of what its parent has, and what it uses.
#[derive(Clone, Copy)]
pub struct Cell {
    pub capacity: Hundredths,
    pub maximum: Hundredths,
    pub used: Resource,
}

impl Place {
    /// Root, on a partition that has so much in total.
    pub fn root(total: Resource, used: &Resource, free: Resource) -> Place
        requires { IsTotal total }
        ensures place { (c : Config) (s : State) (label : Label) → total ≡ total_of s label
            → used.now ≡ used_of s root label → IsPlace c s label free root result }
        ensures small { IsSmallPlace result }
        ensures queue { result.queue ≡ 0 }
    {
        let own = Headroom::of(used, &total);
        Place {
            queue: 0,
            headroom: Headroom::of_free(free).and(&own),
            guaranteed: total,
            most: total,
        }
    }

    /// A queue just below.
    pub fn below(&self, queue: usize, cell: &Cell) -> Place
        requires { IsSmallPlace self.now }
        ensures place { (c : Config) (s : State) (label : Label) (free : Amount)
            (path : Path) (name : Name) → IsPlace c s label free path self.now
            → IsCell c s label (below path name) cell.now
            → IsPlace c s label free (below path name) result }
        ensures headroom { (c : Config) (s : State) (label : Label) (path : Path) (name : Name)
            → self.now.most ≡ maximum_of s path label
            → IsCell c s label (below path name) cell.now → (size : Amount)
            → allows result.headroom size
            ≡ (allows self.now.headroom size && keeps_maximum s label size (below path name)) }
        ensures small { IsSmallPlace result }
        ensures queue { result.queue ≡ queue }
    {
        let most = share_of(&self.most, &cell.maximum);
        let own = Headroom::of(&cell.used, &most);
        Place {
            queue,
            headroom: self.headroom.and(&own),
            guaranteed: share_of(&self.guaranteed, &cell.capacity),
            most,
        }
    }

    /// The same queue where there is room for all that its own requests ask for.
    pub fn in_any_room(&self) -> Place
        ensures { result ≡ in_any_room self.now }
    {
        Place {
            queue: self.queue,
            headroom: Headroom {
                is_open: true,
                room: ANY,
            },
            guaranteed: self.guaranteed,
            most: self.most,
        }
    }
}
