//! The ask of an application that comes first.

ghost use Rattle.std.specs.Prelude.{◌≡◌, ◌&&◌, nat_eq, Bool};
ghost use Rattle.ynl_resource.specs.declared.amounts.Resource.{Resource as Amount};
ghost use Rattle.ynl_search.specs.Lowest.{is_lower, lowest, with_one};

use ynl_resource::Size;
use ynl_tables::apps::Ask;

/// A test of sizes.
pub(crate) trait SizeTest {
    ghost passes: { Self → Amount → Bool };

    /// Whether a size passes.
    fn passes(&self, size: &Size) -> bool
        ensures { result ≡ passes self.now size.now };
}

/// Whether an ask has a lower priority number than the best so far, if there is one.
fn is_lower(best: &Option<Ask>, ask: &Ask) -> bool
    ensures { result ≡ is_lower best.now ask.now }
{
    match best {
        Some(held) => ask.priority < held.priority,
        None => true,
    }
}

/// The best so far, with one more ask, if that is for a partition and its size passes a test.
fn with_one<T: SizeTest>(best: Option<Ask>, ask: &Ask, p: u8, test: &T) -> Option<Ask>
    ensures { result ≡ with_one (λ ask. nat_eq ask.partition p && T.passes test.now ask.size)
        best ask.now }
{
    // A number is compared faster than a size is tested.
    if ask.partition == p && is_lower(&best, ask) && test.passes(&ask.size) {
        Some(*ask)
    } else {
        best
    }
}

/// Of the asks for a partition whose sizes pass a test that of the lowest priority number.
pub(crate) fn lowest<T: SizeTest>(asks: &[Ask], p: u8, test: &T) -> Option<Ask>
    ensures { result ≡ lowest (λ ask. nat_eq ask.partition p && T.passes test.now ask.size)
        asks.now }
{
    let mut best = None;
    for ask in asks {
        best = with_one(best, ask, p, test);
    }
    best
}
