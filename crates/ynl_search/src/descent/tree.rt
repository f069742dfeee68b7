//! The tree of queues, as a descent sees it.

ghost use Rattle.std.specs.Prelude.{◌≡◌, ◌<◌, ℕ, IfNone, IfSome, None, false, length, option_map};
ghost use Rattle.ynl_model.specs.Service.{Item};
ghost use Rattle.ynl_search.specs.descent.Scenes.{AreAllBelow, Branch, HasNoneAt, HasPlace, IsChildAt, IsFirstOf};
ghost use Rattle.ynl_search.specs.descent.Turns.{AreInOrder, IsStanding};

use crate::descent::standing::Standing;

/// A tree of queues in which some requests stand, and notes of where there are none.
pub trait Tree {
    /// A queue, with what was worked out on the way to it.
    type Queue: Copy + Drop;

    /// A request that was found.
    type Found: Drop;

    /// What is noted of queues below which there is no request.
    type Notes;

    // Whether a value is a queue of this tree, and which.
    ghost is_queue: { Self → Self.Queue → Type 0 };

    ghost branch: { Self → Self.Queue → Branch };

    // How many levels there are below, or more.
    ghost height: { Self → Self.Queue → ℕ };

    ghost item: { Self → Self.Found → Item };

    // Whether what is noted is right.
    ghost are_notes: { Self → Self.Notes → Type 0 };

    /// How many queues are just below.
    fn children(&self, queue: &Self::Queue) -> usize
        requires { is_queue self.now queue.now }
        ensures count { result ≡ length (branch self.now queue.now).children }
        ensures order { AreInOrder (branch self.now queue.now).children }
        ensures all { 0 < result → AreAllBelow (branch self.now queue.now) };

    /// The queue in a place just below.
    fn child(&self, queue: &Self::Queue, place: usize) -> Self::Queue
        requires queue { is_queue self.now queue.now }
        requires place { HasPlace (branch self.now queue.now) place }
        ensures queue { is_queue self.now result }
        ensures child { IsChildAt (branch self.now queue.now) place (branch self.now result) }
        ensures height { height self.now result < height self.now queue.now };

    /// How the queue in a place just below stands, or nothing where there is known to be no request below it.
    fn look(&self, notes: &Self::Notes, queue: &Self::Queue, place: usize) -> Option<Standing>
        requires notes { are_notes self.now notes.now }
        requires queue { is_queue self.now queue.now }
        requires place { HasPlace (branch self.now queue.now) place }
        ensures place { IfSome result (λ s. s.place ≡ place) }
        ensures standing { IfSome result (IsStanding (branch self.now queue.now)) }
        ensures none { IfNone result (HasNoneAt (branch self.now queue.now) place) };

    /// Whether there may be a request below the queue in a place just below. It costs more than a look.
    fn is_open(&self, notes: &Self::Notes, queue: &Self::Queue, place: usize) -> bool
        requires notes { are_notes self.now notes.now }
        requires queue { is_queue self.now queue.now }
        requires place { HasPlace (branch self.now queue.now) place }
        ensures { result ≡ false → HasNoneAt (branch self.now queue.now) place };

    /// The first request of a leaf. What is found out on the way may be noted.
    fn first_in(&self, notes: &mut Self::Notes, leaf: &Self::Queue) -> Option<Self::Found>
        requires notes { are_notes self.now notes.old }
        requires queue { is_queue self.now leaf.now }
        requires leaf { length (branch self.now leaf.now).children ≡ 0 }
        ensures notes { are_notes self.now notes.new }
        ensures first { IsFirstOf (branch self.now leaf.now) (option_map (item self.now) result) };

    /// Notes that there is no request below a queue, which may be a leaf.
    fn note(&self, notes: &mut Self::Notes, queue: &Self::Queue)
        requires notes { are_notes self.now notes.old }
        requires queue { is_queue self.now queue.now }
        requires none { IsFirstOf (branch self.now queue.now) None }
        ensures { are_notes self.now notes.new };
}
