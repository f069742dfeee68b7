//! Whole numbers, from their digits.

ghost use Rattle.std.specs.Prelude.{◌≡◌, ◌==◌, Some, IfSome, IfNone, ℕ, slice_index};
ghost use Rattle.serde_json.specs.Data.{unsigned};
ghost use Rattle.serde_json.specs.Read.{number_of};

use fast_float::Numeral;

fn has_minus(bytes: &[u8]) -> bool
    ensures { result ≡ (slice_index bytes.now 0 == 45) }
{
    !bytes.is_empty() && bytes[0] == b'-'
}

/// The whole number of 64 bits that a text writes, if it is one.
pub fn whole_of(text: &str) -> Option<u64>
    ensures some { IfSome result (λ n. number_of text.now ≡ Some (unsigned n)) }
    ensures none { IfNone result ((n : ℕ) → number_of text.now ≡ Some (unsigned n) → ⊥) }
{
    let bytes = text.as_bytes();
    if has_minus(bytes) {
        return None;
    }
    Numeral::scan(bytes).to_u64()
}
