//! Paths of queues.

ghost use Rattle.std.specs.Prelude.{◌≡◌, ◌<◌, ◌≤◌, length, nat_eq, count_by, ◌++◌, ◌∷◌, [], false, IsTrue, OnOk, IfOk, Ok};
ghost use Rattle.std.specs.Bool.{OnTrue};
ghost use Rattle.std.specs.Option.{SomeIff};
ghost use Rattle.std.specs.String.{string_bytes};
ghost use Rattle.std.specs.Cmp.{partial_equiv_from_equiv};
ghost use Rattle.std.specs.Cmp.Lexicographic.{pointwise, lists_equiv, nat_list_eq_equiv};
ghost use Rattle.ynl_resource.specs.NameText.{is_name};
ghost use Rattle.ynl_resource.specs.Names.{same_path, tenant_of};
ghost use Rattle.ynl_resource.specs.Texts.{is_dot, read_path, path_text};

use crate::cuts::cut;
use crate::names::Name;
use std::alloc::{AllocError, Global};
use std::fmt;
use std::marker::Model;
use thiserror::Error;

/// The path of a queue: one to eight names, the first `root`. A contract sees the names below root.
#[derive(Clone, Copy)]
pub struct Path {
    names: [Name; 7],
    len: u8,
}

/// Why a text is no path, in the order of the tests.
#[derive(Clone, Copy, Debug, PartialEq, Eq, Error)]
pub enum PathFault {
    /// It has more than eight names.
    #[error("more than eight names")]
    TooDeep,
    /// It does not begin with `root`, or a part of it is no name.
    #[error("not a path")]
    BadPath,
}

impl Model for Path {
    ghost use Rattle.std.specs.Prelude.{List, ℕ};

    ghost Value = { List (List ℕ) };

    ghost use Rattle.ynl_resource.specs.PathFields.{names_of, fields_of, fields_back, IsKept};

    ghost view = { names_of };

    ghost invariant = { IsKept };

    ghost inverse = { fields_of };

    ghost inverse_ok = { fields_back };
}

fn dots(text: &str) -> usize
    ensures { result ≡ count_by is_dot text.now }
{
    text.as_bytes().iter().filter(|b| **b == b'.').count()
}

/// The name with a dot before it, put last.
fn push_name(text: &mut String, name: &Name) -> Result<(), AllocError>
    ensures text { OnOk result (string_bytes text.new ≡ string_bytes text.old ++ (46 ∷ name.now)) }
    ensures name { OnOk result (IsTrue (is_name name.now)) }
{
    text.push('.')?;
    text.push_str(name.as_str())?;
    Ok(())
}

impl Path {
    /// The path that the text is: one to eight names with dots between, the first `root`.
    #[tactic(auto, unfolding(crate::specs::Texts::read_path))]
    pub fn parse(text: &str) -> Result<Path, PathFault>
        ensures { result ≡ read_path text.now }
    {
        if dots(text) > 7 {
            return Err(PathFault::TooDeep);
        }
        let (first, below) = cut(text, '.');
        if first != "root" {
            return Err(PathFault::BadPath);
        }
        let Ok(root) = Name::parse(first) else {
            return Err(PathFault::BadPath);
        };
        let mut names = [root; 7];
        let mut len = 0;
        let mut rest = below;
        'parts: while let Some(parts) = rest {
            let (part, more) = cut(parts, '.');
            let Ok(name) = Name::parse(part) else {
                return Err(PathFault::BadPath);
            };
            names[len] = name;
            len += 1;
            rest = more;
        }
        Ok(Path {
            names,
            len: len as u8,
        })
    }

    /// The path of root.
    pub fn root() -> Path
        ensures { result ≡ [] }
    {
        let Ok(root) = Name::of_bytes(b"root") else {
            unreachable!();
        };
        Path {
            names: [root; 7],
            len: 0,
        }
    }

    /// The name comes last, if the path has room for one more: it has eight names at most, root among them.
    pub fn push(&mut self, name: &Name) -> bool
        ensures pushed { OnTrue result (self.new ≡ self.old ++ name.now ∷ []) }
        ensures full { result ≡ false → (self.new ≡ self.old) × (length self.old ≡ 7) }
    {
        let len = self.len as usize;
        if len >= self.names.len() {
            return false;
        }
        self.names[len] = *name;
        self.len += 1;
        true
    }

    /// The path's text.
    pub fn text(&self, alloc: Global) -> Result<String, AllocError>
        ensures text { IfOk result (λ t. string_bytes t ≡ path_text self.now) }
        ensures reads { IfOk result (λ t. read_path (string_bytes t) ≡ Ok self.now) }
    {
        let mut text = String::from_str(alloc, "root")?;
        for name in self.names() {
            push_name(&mut text, name)?;
        }
        Ok(text)
    }

    /// The tenant to which the queue belongs: the first name below root, and none for root itself.
    pub fn tenant(&self) -> Option<Name>
        ensures { SomeIff result (0 < length self.now) (tenant_of self.now) }
    {
        self.names().first().copied()
    }

    /// The names below root, from the top-level queue down.
    pub fn names(&self) -> &[Name]
        ensures names { result.now ≡ self.now }
        ensures depth { length self.now ≤ 7 }
    {
        &self.names[..self.len as usize]
    }
}

/// Whether two paths, given by their names below root, name the same queue. The last names are compared
/// first: queues that differ mostly differ there, and many share the first.
pub fn same_path(path: &[Name], other: &[Name]) -> bool
    ensures { result ≡ same_path path.now other.now }
{
    match (path.split_last(), other.split_last()) {
        (Some((name, above)), Some((end, over))) => name == end && above == over,
        (None, None) => true,
        _ => false,
    }
}

impl PartialEq for Path {
    ghost eq = { pointwise (pointwise nat_eq) };

    ghost laws = { partial_equiv_from_equiv (lists_equiv nat_list_eq_equiv) };

    fn eq(&self, other: &Path) -> bool {
        same_path(self.names(), other.names())
    }
}

impl Eq for Path {
    ghost laws = { lists_equiv nat_list_eq_equiv };
}

impl fmt::Display for Path {
    ghost use Rattle.std.specs.Prelude.{Some};
    ghost use Rattle.ynl_resource.specs.Texts.{path_text};

    ghost output = { λ path. Some (path_text path) };

    fn fmt<W: fmt::Write>(&self, f: &mut fmt::Formatter<W>) -> fmt::Result {
        write!(f, "root")?;
        for name in self.names() {
            let text = name.as_str();
            write!(f, ".{text}")?;
        }
        Ok(())
    }
}
