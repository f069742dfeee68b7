//! What stands under the keys of a line. A line is read as a tree over its own text where it is plain, and else as a
//! value of [serde_json]; whoever takes it apart need not know which.

ghost use Rattle.std.specs.Prelude.{◌≡◌, IsTrue, option_map};
ghost use Rattle.std.specs.Option.{option_and_then};
ghost use Rattle.json.specs.Value.{value_view};
ghost use Rattle.serde_json.specs.Events.{members_len};
ghost use Rattle.serde_json.specs.Find.{get, as_str, as_number, as_object, as_array};
ghost use Rattle.serde_json.specs.Find.{as_u64};
ghost use Rattle.serde_json.specs.View.{view, items_view};
ghost use Rattle.ynl_fields.specs.Trees.{is_plain, is_plain_at, data_at, data_of};

use crate::numbers::whole_of;
use crate::trees::value_at;

/// Where a value stands: in a plain tree, or in a value of serde_json's.
#[derive(Clone, Copy)]
pub(crate) enum Stands<'t, 'a> {
    Tree(&'t json::Value<'a>),
    Value(&'t serde_json::Value),
}

/// A value of a line. What a contract says of it, it says of the value that serde_json reads.
#[derive(Clone, Copy)]
pub struct Fields<'t, 'a> {
    stands: Stands<'t, 'a>,
    ghost plain: { IsTrue (is_plain_at stands) },
}

/// The number of members of a plain tree, where it is an object.
fn count_of(tree: &json::Value<'_>) -> Option<usize>
    requires { IsTrue (is_plain (value_view tree.now)) }
    ensures { result ≡ option_map members_len (as_object (data_of (value_view tree.now))) }
{
    match tree {
        json::Value::Object(members) => Some(members.len()),
        _ => None,
    }
}

impl<'t, 'a> Fields<'t, 'a> {
    /// The value that a plain tree is read as.
    pub fn tree(tree: &'t json::Value<'a>) -> Fields<'t, 'a>
        requires { IsTrue (is_plain (value_view tree.now)) }
        ensures { data_at result.stands ≡ data_of (value_view tree.now) }
    {
        Fields {
            stands: Stands::Tree(tree),
        }
    }

    /// A value of serde_json's.
    pub fn value(value: &'t serde_json::Value) -> Fields<'t, 'a>
        ensures { data_at result.stands ≡ view value.now }
    {
        Fields {
            stands: Stands::Value(value),
        }
    }

    /// What stands under a key, where this is an object.
    pub fn get(&self, key: &str) -> Option<Fields<'t, 'a>>
        ensures { option_map (λ f. data_at f.stands) result ≡ get key.now (data_at self.now.stands) }
    {
        match self.stands {
            Stands::Tree(tree) => match value_at(tree, key) {
                Some(found) => Some(Fields::tree(found)),
                None => None,
            },
            Stands::Value(value) => match value.get(key) {
                Some(found) => Some(Fields::value(found)),
                None => None,
            },
        }
    }

    /// The text, where this is one.
    pub fn as_str(&self) -> Option<&'t str>
        ensures { option_map (λ s. s.now) result ≡ as_str (data_at self.now.stands) }
    {
        match self.stands {
            Stands::Tree(tree) => tree.as_str(),
            Stands::Value(value) => value.as_str(),
        }
    }

    /// The whole number of 64 bits, where this is one.
    pub fn as_u64(&self) -> Option<u64>
        ensures { result ≡ option_and_then as_u64 (as_number (data_at self.now.stands)) }
    {
        match self.stands {
            Stands::Tree(tree) => whole_of(tree.as_number()?),
            Stands::Value(value) => value.as_u64(),
        }
    }

    /// The number of members, where this is an object.
    pub fn count(&self) -> Option<usize>
        ensures { result ≡ option_map members_len (as_object (data_at self.now.stands)) }
    {
        match self.stands {
            Stands::Tree(tree) => count_of(tree),
            Stands::Value(value) => match value.as_object() {
                Some(members) => Some(members.len()),
                None => None,
            },
        }
    }

    /// The list, where this is one.
    pub fn as_array(&self) -> Option<&'t Vec<serde_json::Value>>
        ensures { option_map (λ v. items_view v.now.items) result ≡ as_array (data_at self.now.stands) }
    {
        match self.stands {
            Stands::Tree(_) => None,
            Stands::Value(value) => value.as_array(),
        }
    }
}
