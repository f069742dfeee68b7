//! Nodes that are dealt out to workers.

ghost use Rattle.std.specs.Prelude.{◌≡◌, ◌<◌, [], IfOk, vec_len};
ghost use Rattle.ynl_workers.specs.session.Dealt.{AreDealt, AreInTurn};

use std::alloc::{AllocError, Global};
use ynl_resource::Name;

/// As many lists without a node.
fn empty_lists(alloc: Global, count: usize) -> Result<Vec<Vec<Name>>, AllocError>
    ensures count { IfOk result (λ lists. vec_len lists ≡ count) }
    ensures dealt { IfOk result (λ lists. AreDealt [] lists.items) }
    ensures turns { IfOk result (λ lists. AreInTurn [] lists.items) }
{
    let mut lists = Vec::with_capacity(alloc, count)?;
    for _ in 0..count {
        lists.push(Vec::new(alloc))?;
    }
    Ok(lists)
}

/// The nodes dealt out in turn: the first to the first list, and so on.
pub(crate) fn deal(
    alloc: Global,
    nodes: &[Name],
    count: usize,
) -> Result<Vec<Vec<Name>>, AllocError>
    requires { 0 < count }
    ensures count { IfOk result (λ lists. vec_len lists ≡ count) }
    ensures dealt { IfOk result (λ lists. AreDealt nodes.now lists.items) }
    ensures turns { IfOk result (λ lists. AreInTurn nodes.now lists.items) }
{
    let mut lists = empty_lists(alloc, count)?;
    for (i, node) in nodes.iter().enumerate() {
        lists[i % count].push(*node)?;
    }
    Ok(lists)
}
