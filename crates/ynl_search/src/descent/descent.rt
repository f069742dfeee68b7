//! The descent: down to the child that is served first, and to the next one where nothing is found below.

ghost use Rattle.std.specs.Prelude.{◌≡◌, ◌≤◌, option_map, IfSome, IfNone};
ghost use Rattle.ynl_search.specs.descent.Scenes.{AreAllBelow, Branch, HasPlace, IsFirstOf};
ghost use Rattle.ynl_search.specs.descent.Turns.{AreInOrder, AreNoneLeft, HavePlaces, IsNext, IsStanding, is_before, is_left, told};

use crate::descent::standing::Standing;
use crate::descent::tree::Tree;

/// Whether a queue comes after the one that was tried last, if one was.
fn is_left(last: Option<Standing>, standing: &Standing) -> bool
    ensures { (b : Branch) → AreInOrder b.children → HavePlaces b last → HasPlace b standing.now.place
        → result ≡ is_left b last (told b standing.now) }
{
    match last {
        Some(last) => last.comes_before(standing),
        None => true,
    }
}

/// Whether a queue comes before the best so far, if there is one.
fn is_before(standing: &Standing, best: Option<Standing>) -> bool
    ensures { (b : Branch) → AreInOrder b.children → HavePlaces b best → HasPlace b standing.now.place
        → result ≡ is_before b (told b standing.now) best }
{
    match best {
        Some(best) => standing.comes_before(&best),
        None => true,
    }
}

/// Of the queues just below one that come after the last that was tried, the first below which there may be a
/// request.
fn next_child<T: Tree>(
    tree: &T,
    notes: &T::Notes,
    queue: &T::Queue,
    last: Option<Standing>,
) -> Option<Standing>
    requires notes { T.are_notes tree.now notes.now }
    requires queue { T.is_queue tree.now queue.now }
    requires last { IfSome last (IsStanding (T.branch tree.now queue.now)) }
    ensures some { IfSome result (IsNext (T.branch tree.now queue.now) last) }
    ensures none { IfNone result (AreNoneLeft (T.branch tree.now queue.now) last) }
{
    let mut best = None;
    for place in 0..tree.children(queue) {
        if let Some(standing) = tree.look(notes, queue, place) {
            if is_left(last, &standing)
                && is_before(&standing, best)
                && tree.is_open(notes, queue, place)
            {
                best = Some(standing);
            }
        }
    }
    best
}

/// The first request below a queue that has others just below it.
#[cycle(descent)]
fn first_below<T: Tree>(
    tree: &T,
    notes: &mut T::Notes,
    queue: &T::Queue,
    height: usize,
) -> Option<T::Found>
    requires notes { T.are_notes tree.now notes.old }
    requires queue { T.is_queue tree.now queue.now }
    requires height { T.height tree.now queue.now ≤ height }
    requires all { AreAllBelow (T.branch tree.now queue.now) }
    ensures notes { T.are_notes tree.now notes.new }
    ensures found { IsFirstOf (T.branch tree.now queue.now) (option_map (T.item tree.now) result) }
{
    let mut last = None;
    while let Some(next) = next_child(tree, notes, queue, last) {
        let child = tree.child(queue, next.place);
        let found = descend(tree, notes, &child, height - 1);
        if found.is_some() {
            return found;
        }
        last = Some(next);
    }
    None
}

/// The first request at or below a queue in the order of service, if there is one. Of each queue below which
/// there is none that is noted. There are at most `height` levels below the queue.
#[cycle(descent)]
pub fn descend<T: Tree>(
    tree: &T,
    notes: &mut T::Notes,
    queue: &T::Queue,
    height: usize,
) -> Option<T::Found>
    requires notes { T.are_notes tree.now notes.old }
    requires queue { T.is_queue tree.now queue.now }
    requires height { T.height tree.now queue.now ≤ height }
    ensures notes { T.are_notes tree.now notes.new }
    ensures found { IsFirstOf (T.branch tree.now queue.now) (option_map (T.item tree.now) result) }
{
    let found = if tree.children(queue) == 0 {
        tree.first_in(notes, queue)
    } else {
        first_below(tree, notes, queue, height)
    };
    if found.is_none() {
        tree.note(notes, queue);
    }
    found
}
