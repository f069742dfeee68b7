//! Ways from root down to a queue.

ghost use Rattle.std.specs.Prelude.{◌≡◌, ◌≤◌, length, take};
ghost use Rattle.ynl_resource.specs.Names.{is_within};
ghost use Rattle.ynl_model.specs.Accepted.{parent_of};

use ynl_resource::Name;

/// Whether the second queue is the first or stands below it, each given by its names below root.
pub fn is_within(queue: &[Name], path: &[Name]) -> bool
    ensures { result ≡ is_within queue.now path.now }
{
    match (queue.split_first(), path.split_first()) {
        (None, _) => true,
        (Some(_), None) => false,
        (Some((name, queue)), Some((step, path))) => name == step && is_within(queue, path),
    }
}

/// The queue on the way to a queue that is this many steps below root.
pub fn step_at(queue: &[Name], depth: usize) -> &[Name]
    requires { depth ≤ length queue.now }
    ensures { result.now ≡ take depth queue.now }
{
    &queue[..depth]
}

/// The queue just above a queue; root above itself.
pub fn parent_of(queue: &[Name]) -> &[Name]
    ensures { result.now ≡ parent_of queue.now }
{
    match queue.split_last() {
        Some((_, above)) => above,
        None => queue,
    }
}
