//! The labels that a queue may use, as a text lists them.

ghost use Rattle.std.specs.Prelude.{◌≡◌, IfOk, map, Ok, ◌==◌};
ghost use Rattle.std.specs.List.{slice_split};
ghost use Rattle.toml.specs.View.{view};
ghost use Rattle.ynl_config.specs.Access.{is_comma, skip_spaces, cut_spaces, trimmed, with_name, AreSeen};
ghost use Rattle.ynl_config.specs.Access as spec;
ghost use Rattle.ynl_config.specs.Earliest.{items_in};
ghost use Rattle.ynl_config.specs.Seen.{access_in};

use crate::faults::ConfigFault;
use crate::together::both;
use crate::values::{name_of, text_of};
use std::alloc::{AllocError, Global};
use std::collections::BTreeSet;
use toml::Value;
use ynl_queues::Access;
use ynl_resource::Name;

fn after_spaces(text: &str) -> &str
    ensures { result.now ≡ skip_spaces text.now }
{
    let mut rest = text;
    'spaces: while let Some(more) = rest.strip_prefix(' ') {
        rest = more;
    }
    rest
}

fn before_spaces(text: &str) -> &str
    ensures { result.now ≡ cut_spaces text.now }
{
    let mut rest = text;
    'spaces: while let Some(less) = rest.strip_suffix(' ') {
        rest = less;
    }
    rest
}

pub(crate) fn trimmed(text: &str) -> &str
    ensures { result.now ≡ trimmed text.now }
{
    before_spaces(after_spaces(text))
}

fn parts(alloc: Global, text: &str) -> Result<Vec<&str>, AllocError>
    ensures { IfOk result (λ parts. map (λ part. part.now) parts.items ≡ slice_split is_comma text.now) }
{
    text.split(',').collect(alloc)
}

/// The names, and one more unless it is there. The set has the same names: a text may list very many.
fn with_name(
    names: Vec<Name>,
    seen: &mut BTreeSet<Name>,
    name: Name,
) -> Result<Vec<Name>, AllocError>
    requires { AreSeen seen.old names.items }
    ensures names { IfOk result (λ more. more.items ≡ with_name names.items name) }
    ensures seen { IfOk result (λ more. AreSeen seen.new more.items) }
{
    let mut names = names;
    if seen.insert(name)? {
        names.push(name)?;
    }
    Ok(names)
}

#[tactic(auto, unfolding(crate::specs::Access::with_part))]
fn with_part(
    names: Result<Vec<Name>, ConfigFault>,
    seen: &mut BTreeSet<Name>,
    part: &str,
) -> Result<Result<Vec<Name>, ConfigFault>, AllocError>
    requires { IfOk names (λ names. AreSeen seen.old names.items) }
    ensures names { IfOk result (λ more. items_in more ≡ spec.with_part (items_in names) part.now) }
    ensures seen { IfOk result (λ more. IfOk more (λ names. AreSeen seen.new names.items)) }
{
    let name = name_of(trimmed(part));
    match both(names, name) {
        Ok((names, name)) => {
            let names = with_name(names, seen, name)?;
            Ok(Ok(names))
        }
        Err(fault) => Ok(Err(fault)),
    }
}

fn names_in(alloc: Global, parts: &[&str]) -> Result<Result<Vec<Name>, ConfigFault>, AllocError>
    ensures { IfOk result (λ names. items_in names ≡ spec.names_in (map (λ part. part.now) parts.now)) }
{
    let mut seen = BTreeSet::new(alloc);
    let mut names = Ok(Vec::new(alloc));
    for part in parts {
        names = with_part(names, &mut seen, part)?;
    }
    Ok(names)
}

#[tactic(auto, unfolding(crate::specs::Access::given_by))]
fn given_by(alloc: Global, text: &str) -> Result<Result<Access, ConfigFault>, AllocError>
    ensures { IfOk result (λ read. access_in read ≡ spec.given_by text.now) }
{
    if text.is_empty() {
        return Ok(Ok(Access::Listed(Vec::new(alloc))));
    }
    if text == "*" {
        return Ok(Ok(Access::AllLabels));
    }
    let parts = parts(alloc, text)?;
    match names_in(alloc, &parts)? {
        Ok(names) => Ok(Ok(Access::Listed(names))),
        Err(fault) => Ok(Err(fault)),
    }
}

/// The labels that the value gives: names with commas between, each counted once; `*` gives all,
/// and a blank text none. Spaces around the names and around `*` are dropped.
#[tactic(auto, unfolding(crate::specs::Access::access_of))]
pub(crate) fn access_of(
    alloc: Global,
    value: &Value,
) -> Result<Result<Access, ConfigFault>, AllocError>
    ensures { IfOk result (λ read. access_in read ≡ spec.access_of (view value.now)) }
{
    match text_of(value) {
        Ok(text) => given_by(alloc, trimmed(text)),
        Err(fault) => Ok(Err(fault)),
    }
}
