//! What a search of a lane asks of applications.

ghost use Rattle.std.specs.Prelude.{◌≡◌, ℕ, Option};

/// What an application is given, if anything.
pub trait Request<F: Copy> {
    // What an application is given, by its number.
    ghost gives: { Self → ℕ → Option F };

    /// What an application is given, by its number.
    fn of(&self, app: u32) -> Option<F>
        ensures { result ≡ gives self.now app };
}
