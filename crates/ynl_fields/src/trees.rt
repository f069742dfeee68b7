//! Lines as trees over their own text. A line is mostly an object of texts and whole numbers, and is read as that
//! with no memory for its keys and texts. Any other text is read by [serde_json].

ghost use Rattle.std.specs.Prelude.{◌≡◌, ◌≢◌, ◌<◌, ◌⊎◌, length, true, is_some, IfOk, IfErr, IsErr, OnErr, IsTrue, IsUtf8, Ok, Some, None, option_map};
ghost use Rattle.std.specs.Bool.{OnTrue};
ghost use Rattle.std.specs.Option.{option_and_then};
ghost use Rattle.std.specs.Str.{bytes_eq};
ghost use Rattle.json.specs.Find.{get, get_member};
ghost use Rattle.json.specs.Lex.{tokens};
ghost use Rattle.json.specs.Reads.{opens};
ghost use Rattle.json.specs.Scratch.{room};
ghost use Rattle.json.specs.declared.error.Error.TheVariants.{OutOfMemory};
ghost use Rattle.json.specs.Value.{value_view, members_view};
ghost use Rattle.serde_json.specs.Read.{of_json};
ghost use Rattle.ynl_fields.specs.Reading.{reading};
ghost use Rattle.ynl_fields.specs.Trees.{is_plain};

use crate::numbers::whole_of;
use json::{Error, Reader, Scratch, Value};
use std::alloc::{AllocError, Global};

/// Whether two keys are one. Most keys of a line are told apart by their lengths alone, which costs no call.
fn is_same_key(key: &str, other: &str) -> bool
    ensures { result ≡ bytes_eq key.now other.now }
{
    key.len() == other.len() && key == other
}

/// The value of the last member with a key.
fn find<'t, 'a>(members: &'t [(&'a str, Value<'a>)], key: &str) -> Option<&'t Value<'a>>
    ensures { option_map (λ v. value_view v.now) result ≡ get_member key.now (members_view members.now) }
{
    let mut left = members.len();
    while left > 0 {
        left -= 1;
        let member = &members[left];
        if is_same_key(member.0, key) {
            return Some(&member.1);
        }
    }
    None
}

/// What stands under a key, where the value is an object.
pub fn value_at<'t, 'a>(tree: &'t Value<'a>, key: &str) -> Option<&'t Value<'a>>
    ensures { option_map (λ v. value_view v.now) result ≡ get key.now (value_view tree.now) }
{
    match tree {
        Value::Object(members) => find(members, key),
        _ => None,
    }
}

/// Whether a key is among those of some members.
fn has_key<'a>(members: &[(&'a str, Value<'a>)], key: &str) -> bool
    ensures { result ≡ is_some (get_member key.now (members_view members.now)) }
{
    find(members, key).is_some()
}

/// The most keys of an object that is taken as a tree, since each of them is compared with all behind it.
const MOST_KEYS: usize = 16;

/// Whether a value is a text or a whole number.
fn is_scalar(value: &Value<'_>) -> bool
    ensures { OnTrue result (is_plain (value_view value.now) ≡ true) }
{
    match value {
        Value::String(_) => true,
        Value::Number(text) => whole_of(text).is_some(),
        _ => false,
    }
}

/// Whether a value is a text, a whole number, or an object of few such values with no key twice, and no deeper than
/// this.
pub fn is_plain(value: &Value<'_>, depth: usize) -> bool
    ensures { OnTrue result (is_plain (value_view value.now) ≡ true) }
{
    let Value::Object(members) = value else {
        return is_scalar(value);
    };
    if depth == 0 || members.len() > MOST_KEYS {
        return false;
    }
    let mut left = members.len();
    while left > 0 {
        left -= 1;
        let (key, member) = &members[left];
        if has_key(&members[left + 1..], key) {
            return false;
        }
        // Most members are no objects, and are worth no deeper call.
        if !is_scalar(member) && !is_plain(member, depth - 1) {
            return false;
        }
    }
    true
}

/// How deep serde_json reads.
const MAX_DEPTH: usize = 127;

/// What reading a tree told: the tree, or that the text is that of none. It takes no memory, so want of
/// memory is told only where reading met it.
fn told<'a>(read: Result<Value<'a>, Error>) -> Result<Option<Value<'a>>, AllocError>
    ensures tree { IfOk read.entry (λ tree. result ≡ Ok (Some tree)) }
    ensures none { IfErr read.entry (λ e. e ≢ OutOfMemory → result ≡ Ok None) }
    ensures memory { IfErr read.entry (λ e. e ≡ OutOfMemory → IsErr result) }
{
    match read {
        Ok(tree) => Ok(Some(tree)),
        Err(Error::OutOfMemory) => Err(AllocError),
        Err(_) => Ok(None),
    }
}

/// The value of some bytes as a tree, if they are the text of one. Only a text takes memory: to hold what it spells
/// with escapes, and for what stands in an array or an object.
pub fn tree_of<'a>(
    alloc: Global,
    scratch: &'a mut Scratch,
    bytes: &'a [u8],
) -> Result<Option<Value<'a>>, AllocError>
    ensures tree { IfOk result (λ found. reading bytes.now ≡ option_and_then (λ tree. of_json (value_view tree)) found) }
    ensures text { OnErr result (IsUtf8 bytes.now) }
    ensures memory { OnErr result (IsTrue (opens (tokens bytes.now)) ⊎ (room scratch.old < length bytes.now)) }
{
    let Ok(text) = str::from_utf8(bytes) else {
        return Ok(None);
    };
    let mut reader = Reader::new(text, scratch)?;
    let Some(tree) = told(Value::read(alloc, &mut reader, MAX_DEPTH))? else {
        return Ok(None);
    };
    if reader.next().is_some() {
        return Ok(None);
    }
    Ok(Some(tree))
}
