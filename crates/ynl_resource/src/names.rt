//! Names of nodes, users, applications, queues and labels.

ghost use Rattle.std.specs.Prelude.{◌≡◌, length, ◌≤◌, IsTrue, Some, Ok, refl, nat_eq, option_map};
ghost use Rattle.std.specs.Bool.{OnTrue};
ghost use Rattle.std.specs.Cmp.{partial_equiv_from_equiv};
ghost use Rattle.std.specs.Ordering.{nat_cmp};
ghost use Rattle.std.specs.Cmp.Lexicographic.{slice_cmp, pointwise, nat_list_eq_equiv, nat_list_cmp_total, texts_po, texts_ties};
ghost use Rattle.ynl_resource.specs.Heads.{code_of, head_of};
ghost use Rattle.ynl_resource.specs.NameText.{is_name, is_name_byte};
ghost use Rattle.ynl_resource.specs.Texts.{name_in_front, read_name};

use std::cmp::Ordering;
use std::fmt;
use std::marker::Model;
use thiserror::Error;

/// A name: 1 to 64 bytes, each an ASCII letter, a digit, `_` or `-`. A contract sees it as its
/// bytes, and names are ordered by them.
#[derive(Clone, Copy)]
pub struct Name {
    bytes: [u8; 64],
    len: u8,
}

/// The text is no name.
#[derive(Clone, Copy, Debug, PartialEq, Eq, Error)]
#[error("not a name")]
pub struct BadName;

impl Model for Name {
    ghost use Rattle.std.specs.Prelude.{List, ℕ};

    ghost Value = { List ℕ };

    ghost use Rattle.ynl_resource.specs.NameFields.{text_of, fields_of, fields_back, IsNamed};

    ghost view = { text_of };

    ghost invariant = { IsNamed };

    ghost inverse = { fields_of };

    ghost inverse_ok = { fields_back };
}

fn is_name_byte(byte: u8) -> bool
    ensures { result ≡ is_name_byte byte }
{
    byte.is_ascii_lowercase()
        || byte.is_ascii_uppercase()
        || byte.is_ascii_digit()
        || byte == b'_'
        || byte == b'-'
}

impl Name {
    /// The name in front of some bytes, as long as it can be, and what stands behind it: each byte is tested and kept
    /// in one pass.
    pub fn in_front(bytes: &[u8]) -> Option<(Name, &[u8])>
        ensures { option_map (λ p. (p.0, p.1.now)) result ≡ name_in_front bytes.now }
    {
        let mut kept = [0u8; 64];
        let mut len = 0;
        'bytes: while len < bytes.len() && is_name_byte(bytes[len]) {
            if len == 64 {
                return None;
            }
            kept[len] = bytes[len];
            len += 1;
        }
        if len == 0 {
            return None;
        }
        let name = Name {
            bytes: kept,
            len: len as u8,
        };
        Some((name, &bytes[len..]))
    }

    /// The name that all of the bytes are.
    pub fn of_bytes(bytes: &[u8]) -> Result<Name, BadName>
        ensures { result ≡ read_name bytes.now }
    {
        let Some((name, rest)) = Name::in_front(bytes) else {
            return Err(BadName);
        };
        if !rest.is_empty() {
            return Err(BadName);
        }
        Ok(name)
    }

    /// The name that the text is.
    pub fn parse(text: &str) -> Result<Name, BadName>
        ensures { result ≡ read_name text.now }
    {
        Name::of_bytes(text.as_bytes())
    }

    /// The name's bytes.
    pub fn as_bytes(&self) -> &[u8]
        ensures text { result.now ≡ self.now }
        ensures name { IsTrue (is_name self.now) }
    {
        &self.bytes[..self.len as usize]
    }

    /// The first eight bytes as one number.
    fn head(&self) -> u64
        ensures value { result ≡ head_of 8 self.now }
        ensures name { IsTrue (is_name self.now) }
    {
        let b = &self.bytes;
        u64::from_be_bytes([b[0], b[1], b[2], b[3], b[4], b[5], b[6], b[7]])
    }

    /// All of the name as one number, if it has at most sixteen bytes: they are the number's digits to the base 256, with
    /// zeros behind them. No byte of a name is 0, so no two names have one number.
    pub fn code(&self) -> Option<u128>
        ensures value { result ≡ code_of self.now }
        ensures name { IsTrue (is_name self.now) }
    {
        if self.len > 16 {
            return None;
        }
        let b = &self.bytes;
        Some(u128::from_be_bytes([
            b[0], b[1], b[2], b[3], b[4], b[5], b[6], b[7], b[8], b[9], b[10], b[11], b[12], b[13],
            b[14], b[15],
        ]))
    }

    /// Whether the number of its first bytes is all of it.
    fn is_short(&self) -> bool
        ensures { OnTrue result (length self.now ≤ 8) }
    {
        self.len <= 8
    }

    /// The name's text.
    #[tactic(auto, using(crate::proofs::Ascii::utf8_name), unfolding(crate::specs::Texts::read_name))]
    pub fn as_str(&self) -> &str
        ensures text { result.now ≡ self.now }
        ensures name { IsTrue (is_name self.now) }
        ensures reads { read_name self.now ≡ Ok self.now }
    {
        match str::from_utf8(self.as_bytes()) {
            Ok(text) => text,
            Err(_) => "",
        }
    }
}

impl fmt::Display for Name {
    ghost use Rattle.std.specs.Prelude.{Some};

    ghost output = { λ n. Some n };

    fn fmt<W: fmt::Write>(&self, f: &mut fmt::Formatter<W>) -> fmt::Result {
        let text = self.as_str();
        write!(f, "{text}")
    }
}

impl PartialEq for Name {
    ghost eq = { pointwise nat_eq };

    ghost laws = { partial_equiv_from_equiv nat_list_eq_equiv };

    fn eq(&self, other: &Name) -> bool {
        if self.head() != other.head() {
            return false;
        }
        if self.is_short() && other.is_short() {
            return true;
        }
        self.as_bytes() == other.as_bytes()
    }
}

impl Eq for Name {
    ghost laws = { nat_list_eq_equiv };
}

impl PartialOrd for Name {
    ghost partial_cmp = { λ x y. Some (slice_cmp nat_cmp x y) };

    ghost laws = { texts_po };

    fn partial_cmp(&self, other: &Name) -> Option<Ordering> {
        Some(self.cmp(other))
    }
}

impl Ord for Name {
    ghost cmp = { slice_cmp nat_cmp };

    ghost total = { nat_list_cmp_total };

    ghost matches_partial_cmp = { λ x y. refl };

    ghost matches_eq = { texts_ties };

    fn cmp(&self, other: &Name) -> Ordering {
        // Most names differ early, and the numbers are compared in one step.
        let (mine, theirs) = (self.head(), other.head());
        if mine != theirs {
            return mine.cmp(&theirs);
        }
        if self.is_short() && other.is_short() {
            return Ordering::Equal;
        }
        self.as_bytes().cmp(other.as_bytes())
    }
}
