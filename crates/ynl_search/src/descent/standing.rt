//! How the queues just below one stand among each other.

ghost use Rattle.std.specs.Prelude.{◌≡◌, ◌*◌};
ghost use Rattle.ynl_model.specs.Service.{ratio_order};
ghost use Rattle.ynl_search.specs.descent.Scenes.{Branch, HasPlace};
ghost use Rattle.ynl_search.specs.descent.Turns.{AreInOrder, comes_before, ratio_of};

use std::cmp::Ordering;

/// How a queue stands among its siblings: what it uses and is guaranteed, by memory, and its place among
/// them, which are in the order of their names.
#[derive(Clone, Copy)]
pub struct Standing {
    pub used: u64,
    pub guaranteed: u64,
    pub place: usize,
}

fn product(a: u64, b: u64) -> u128
    ensures { result ≡ a * b }
{
    u128::from(a) * u128::from(b)
}

impl Standing {
    /// The smaller ratio of use to guarantee first, compared as fractions; one over 0 comes last.
    fn ratio_order(&self, other: &Standing) -> Ordering
        ensures { result ≡ ratio_order (ratio_of self.now) (ratio_of other.now) }
    {
        if self.guaranteed == 0 {
            return if other.guaranteed == 0 {
                Ordering::Equal
            } else {
                Ordering::Greater
            };
        }
        if other.guaranteed == 0 {
            return Ordering::Less;
        }
        product(self.used, other.guaranteed).cmp(&product(other.used, self.guaranteed))
    }

    /// Whether the queue is served before another: its ratio is smaller, or they have one ratio, and its name
    /// comes first.
    pub fn comes_before(&self, other: &Standing) -> bool
        ensures { (b : Branch) → AreInOrder b.children → HasPlace b self.now.place
            → HasPlace b other.now.place → result ≡ comes_before b self.now other.now }
    {
        match self.ratio_order(other) {
            Ordering::Less => true,
            Ordering::Equal => self.place < other.place,
            Ordering::Greater => false,
        }
    }
}
