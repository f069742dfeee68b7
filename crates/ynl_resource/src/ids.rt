//! Ids of containers.

ghost use Rattle.std.specs.Prelude.{◌≡◌, ◌==◌, ◌≤◌, IfOk, IsTrue, Ok, slice_index};
ghost use Rattle.std.specs.List.{list_all};
ghost use Rattle.std.specs.Char.{is_ascii_digit};
ghost use Rattle.std.specs.Str.{all_ascii_digits};
ghost use Rattle.std.specs.Option.{SomeIff};
ghost use Rattle.std.specs.String.{string_bytes};
ghost use Rattle.std.specs.Str.Parse.{digits_value};
ghost use Rattle.ynl_resource.specs.Texts.{read_id, id_text, is_clock};
ghost use Rattle.ynl_resource.specs.Ranges.{most_clock};

use crate::cuts::cut;
use crate::labels::Label;
use crate::names::BadName;
use crate::ranges::MOST_CLOCK;
use std::alloc::{AllocError, Global};
use std::fmt;

/// The id of a container: the partition of its node, and that partition's clock after the placement.
#[derive(Clone, Copy, PartialEq, Eq)]
pub struct Id {
    pub label: Label,
    pub clock: u64,
}

fn is_digit(byte: u8) -> bool
    ensures { result ≡ is_ascii_digit byte }
{
    byte.is_ascii_digit()
}

fn has_digits(bytes: &[u8]) -> bool
    ensures { result ≡ list_all is_ascii_digit bytes.now }
{
    bytes.iter().all(|b| is_digit(*b))
}

#[tactic(auto, using(crate::proofs::IdTexts::all_digits))]
fn is_digits(text: &str) -> bool
    ensures { result ≡ all_ascii_digits text.now }
{
    has_digits(text.as_bytes())
}

fn has_zero_in_front(text: &str) -> bool
    ensures { result ≡ (slice_index text.now 0 == 48) }
{
    matches!(text.as_bytes(), [b'0', ..])
}

/// The number that the digits are, if it is the number of a clock after a placement.
fn read_clock(digits: &str) -> Option<u64>
    ensures { SomeIff result (IsTrue (is_clock digits.now)) (digits_value 10 digits.now) }
{
    if has_zero_in_front(digits) || !is_digits(digits) {
        return None;
    }
    match digits.parse::<u64>() {
        Ok(clock) if clock >= 1 && clock <= MOST_CLOCK => Some(clock),
        _ => None,
    }
}

impl Id {
    /// The id that the text is: a label, `#`, and a clock's number with no zero in front.
    #[tactic(auto, unfolding(crate::specs::Texts::read_id))]
    pub fn parse(text: &str) -> Result<Id, BadName>
        ensures { result ≡ read_id text.now }
    {
        let (label, digits) = cut(text, '#');
        let label = Label::parse(label)?;
        let Some(digits) = digits else {
            return Err(BadName);
        };
        let Some(clock) = read_clock(digits) else {
            return Err(BadName);
        };
        Ok(Id { label, clock })
    }

    /// The id's text.
    pub fn text(&self, alloc: Global) -> Result<String, AllocError>
        ensures text { IfOk result (λ t. string_bytes t ≡ id_text self.now) }
        ensures reads { (1 ≤ self.now.clock) → (self.now.clock ≤ most_clock) → IfOk result (λ t. read_id (string_bytes t) ≡ Ok self.now) }
    {
        let label = self.label.as_str();
        let clock = self.clock;
        format!(in alloc; "{label}#{clock}")
    }
}

impl fmt::Display for Id {
    ghost use Rattle.std.specs.Prelude.{Some};
    ghost use Rattle.ynl_resource.specs.Texts.{id_text};

    ghost output = { λ id. Some (id_text id) };

    fn fmt<W: fmt::Write>(&self, f: &mut fmt::Formatter<W>) -> fmt::Result {
        let label = self.label.as_str();
        let clock = self.clock;
        write!(f, "{label}#{clock}")
    }
}
