//! One container more or less in the use of a queue.

ghost use Rattle.std.specs.Prelude.{◌≡◌};
ghost use Rattle.ynl_resource.specs.Amounts.{less};
ghost use Rattle.ynl_cluster.specs.uses.Tallies.{IsSmallUse, raised, lowered};

use ynl_model::Use;
use ynl_resource::{Resource, Size};

/// As what a container counts in the use of a queue.
#[derive(Clone, Copy, PartialEq, Eq)]
pub enum Counted {
    Guest,
    Master,
    Asked,
}

/// A container as it counts: as what, and how large it is.
#[derive(Clone, Copy)]
pub struct Tally {
    pub counted: Counted,
    pub size: Size,
}

fn without(amount: &Resource, size: &Resource) -> Resource
    ensures { result ≡ less amount.now size.now }
{
    Resource {
        memory: amount.memory.saturating_sub(size.memory),
        vcores: amount.vcores.saturating_sub(size.vcores),
    }
}

/// The use with one container more.
pub(crate) fn raised(kept: &Use, tally: &Tally) -> Use
    requires { IsSmallUse kept.now }
    ensures { result ≡ raised tally.now kept.now }
{
    let size = tally.size.amount();
    let mut u = *kept;
    match tally.counted {
        Counted::Guest => u.guests = kept.guests.add(size),
        Counted::Master => {
            u.used = kept.used.add(size);
            u.masters = kept.masters.add(size);
            u.master_count = kept.master_count + 1;
        }
        Counted::Asked => u.used = kept.used.add(size),
    }
    u
}

/// The use with one container less.
pub(crate) fn lowered(kept: &Use, tally: &Tally) -> Use
    ensures { result ≡ lowered tally.now kept.now }
{
    let size = tally.size.amount();
    let mut u = *kept;
    match tally.counted {
        Counted::Guest => u.guests = without(&kept.guests, &size),
        Counted::Master => {
            u.used = without(&kept.used, &size);
            u.masters = without(&kept.masters, &size);
            u.master_count = kept.master_count.saturating_sub(1);
        }
        Counted::Asked => u.used = without(&kept.used, &size),
    }
    u
}
