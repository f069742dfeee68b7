//! How the numbers of queues are made.

ghost use Rattle.std.specs.Prelude.{◌≡◌, ◌<◌, ◌^◌, ◌↔◌, List, ℕ, suc, length, map, find, IfOk, IsTrue};
ghost use Rattle.ynl_resource.specs.declared.paths.Path.{Path as Names};
ghost use Rattle.ynl_model.specs.Service.{last_name};
ghost use Rattle.ynl_inventory.specs.layout.Paths.{AreChildren, AreLines, HasNumber, HaveChildren, IsChild, IsLine, IsTree, paths_of};
ghost use Rattle.ynl_inventory.specs.layout.Building.{is_named, name_in, paths_by};

use std::alloc::{AllocError, Global};
use ynl_queues::Config;
use ynl_resource::{Name, Path};

/// The last name of a path below root.
fn last_name(path: &Path) -> Name
    requires { 0 < length path.now }
    ensures { result ≡ last_name path.now }
{
    match path.names().last() {
        Some(name) => *name,
        None => unreachable!(),
    }
}

/// The last names of the queues below root.
pub(crate) fn last_names(alloc: Global, config: &Config) -> Result<Vec<Name>, AllocError>
    ensures { IfOk result (λ names. names.items ≡ map last_name (paths_of config.now)) }
{
    let rows = config.draft().queues();
    let mut names = Vec::with_capacity(alloc, rows.len())?;
    for row in rows {
        names.push(last_name(&row.path))?;
    }
    Ok(names)
}

/// The line of the queue at a place in the configuration.
fn line_to(alloc: Global, config: &Config, place: usize) -> Result<Vec<usize>, AllocError>
    requires place { place < length config.now.queues }
    requires few { length config.now.queues < 2 ^ 63 }
    ensures { IfOk result (λ line. IsLine (paths_of config.now) (suc place) line.items) }
{
    let steps = config.way(place);
    let mut line = Vec::with_capacity(alloc, steps.len() + 1)?;
    line.push(0)?;
    for step in steps {
        line.push(*step + 1)?;
    }
    Ok(line)
}

/// The lines of all queues, root's first.
pub(crate) fn all_lines(alloc: Global, config: &Config) -> Result<Vec<Vec<usize>>, AllocError>
    ensures { IfOk result (λ lines. AreLines (paths_of config.now) lines.items) }
{
    let count = config.draft().queues().len();
    let mut lines = Vec::with_capacity(alloc, count + 1)?;
    lines.push(vec![in alloc; 0; 1]?)?;
    for place in 0..count {
        lines.push(line_to(alloc, config, place)?)?;
    }
    Ok(lines)
}

/// Whether a queue with a line stands just below another.
fn is_just_below(line: &[usize], queue: usize) -> bool
    ensures { (paths : List Names) (child : ℕ) → IsTree paths → HasNumber paths queue → HasNumber paths child
        → IsLine paths child line.now → IsTrue result ↔ IsChild paths queue child }
{
    line.len() > 1 && line[line.len() - 2] == queue
}

/// The last name of a queue. What is given for root does not matter, since it is below no queue.
pub(crate) fn name_of(names: &[Name], queue: usize) -> Option<Name>
    ensures { result ≡ name_in names.now queue }
{
    names.get(queue.saturating_sub(1)).copied()
}

/// Whether a queue below root has this name.
fn is_named(names: &[Name], queue: usize, name: &Name) -> bool
    ensures { result ≡ is_named names.now name.now queue }
{
    match name_of(names, queue) {
        Some(other) => *name == other,
        None => false,
    }
}

/// Of some queues the first of a name, if there is one.
pub(crate) fn child_of(names: &[Name], children: &[usize], name: &Name) -> Option<usize>
    ensures { result ≡ find (is_named names.now name.now) children.now }
{
    children
        .iter()
        .copied()
        .find(|child| is_named(names, *child, name))
}

/// The numbers of the queues just below one, in the order of their names.
fn children_of(
    alloc: Global,
    names: &[Name],
    lines: &[Vec<usize>],
    queue: usize,
) -> Result<Vec<usize>, AllocError>
    requires lines { AreLines (paths_by lines.now names.now) lines.now }
    requires names { names.now ≡ map last_name (paths_by lines.now names.now) }
    requires queue { HasNumber (paths_by lines.now names.now) queue }
    ensures { IfOk result (λ children. AreChildren (paths_by lines.now names.now) queue children.items) }
{
    let mut children = Vec::new(alloc);
    for child in 0..lines.len() {
        if is_just_below(&lines[child], queue) {
            children.push(child)?;
        }
    }
    children.sort_by_key(|child| name_of(names, *child))?;
    Ok(children)
}

/// The children of all queues.
pub(crate) fn all_children(
    alloc: Global,
    names: &[Name],
    lines: &[Vec<usize>],
) -> Result<Vec<Vec<usize>>, AllocError>
    requires lines { AreLines (paths_by lines.now names.now) lines.now }
    requires names { names.now ≡ map last_name (paths_by lines.now names.now) }
    ensures { IfOk result (λ all. HaveChildren (paths_by lines.now names.now) all.items) }
{
    let mut all = Vec::with_capacity(alloc, lines.len())?;
    for queue in 0..lines.len() {
        all.push(children_of(alloc, names, lines, queue)?)?;
    }
    Ok(all)
}
