//! Which values have places, and which tests find the first one.

ghost use Rattle.std.specs.Prelude.{◌≡◌, ◌↔◌, IsTrue};

/// Values that have an order in which two have one at or below both, and one of which stands for no value.
pub trait Least: Copy + Drop {
    // Whether the first is at or below the second.
    ghost below: { Self → Self → Type 0 };

    // Which values there are, as where numbers fit their types.
    ghost fits: { Self → Type 0 };

    // What `none` answers.
    ghost none: { Self };

    /// The value that stands for no value: it is above all others.
    fn none() -> Self
        ensures { result ≡ none };

    /// A value at or below both; the greater it is, the faster is a search.
    fn least(self, other: Self) -> Self
        ensures first { below result self }
        ensures second { below result other };

    /// Whether two values are equal. "No" is always right, and costs time.
    fn same(self, other: Self) -> bool
        ensures { IsTrue result → self ≡ other };

    ghost reflexive: { (x : Self) → below x x };

    ghost transitive: { (x y z : Self) → below x y → below y z → below x z };

    ghost none_above: { (x : Self) → fits x → below x none };
}

/// A test that passes a value wherever it passes one above it.
pub trait Test<T: Least> {
    // Whether a value passes.
    ghost passes: { Self → T → Type 0 };

    /// Whether a value passes.
    fn passes(&self, value: &T) -> bool
        ensures { IsTrue result ↔ passes self.now value.now };

    ghost passes_below: { (test : Self) (x y : T) → T.below x y → passes test y → passes test x };
}
