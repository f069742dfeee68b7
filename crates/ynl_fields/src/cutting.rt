//! Numbers cut from lines in the compact form, by what stands before them in every such line.

ghost use Rattle.std.specs.Prelude.{◌≡◌, ◌≢◌, ◌≤◌, ◌<◌, ◌↔◌, ◌^◌, ◌++◌, ℕ, List, true, false, length, take, slice_index, decimal, IfSome, MatchOption, IsTrue};
ghost use Rattle.std.specs.List.{list_all};
ghost use Rattle.std.specs.Char.{is_ascii_digit};
ghost use Rattle.std.specs.Str.Parse.{digits_value};

/// What stands behind some bytes, if they are the front of a line.
fn behind<'a>(line: &'a [u8], front: &[u8]) -> Option<&'a [u8]>
    ensures { MatchOption result ((rest : List ℕ) → line.now ≢ front.now ++ rest) (λ rest. line.now ≡ front.now ++ rest.now) }
{
    line.strip_prefix(front)
}

/// A number of 64 bits has room for one more digit where it is at most this.
const MOST_TENTH: u64 = 1844674407370955160;

/// The number that the digits in front of other bytes are, and how many these are, unless it has no room.
fn digits_in(bytes: &[u8]) -> Option<(u64, usize)>
    ensures bound { IfSome result (λ p. p.1 ≤ length bytes.now) }
    ensures digits { IfSome result (λ p. list_all is_ascii_digit (take p.1 bytes.now) ≡ true) }
    ensures value { IfSome result (λ p. p.0 ≡ digits_value 10 (take p.1 bytes.now)) }
    ensures fits { IfSome result (λ p. p.0 < 2 ^ 64) }
    ensures at { IfSome result (λ p. p.1 < length bytes.now → is_ascii_digit (slice_index bytes.now p.1) ≡ false) }
{
    let mut number: u64 = 0;
    for (i, b) in bytes.iter().enumerate() {
        if !b.is_ascii_digit() {
            return Some((number, i));
        }
        if number > MOST_TENTH {
            return None;
        }
        number = number * 10 + u64::from(*b - b'0');
    }
    Some((number, bytes.len()))
}

/// Whether digits are those of a number as it is written: one at least, and no zero in front of others.
fn are_written(digits: &[u8]) -> bool
    ensures { IsTrue result ↔ (0 < length digits.now) × (slice_index digits.now 0 ≡ 48 → length digits.now ≡ 1) }
{
    match digits {
        [] => false,
        [b'0', more @ ..] => more.is_empty(),
        _ => true,
    }
}

/// The number behind `front`, and what stands behind its digits, which have no zero in front.
pub fn cut_number<'a>(line: &'a [u8], front: &[u8]) -> Option<(u64, &'a [u8])>
    ensures cut { IfSome result (λ p. line.now ≡ front.now ++ (decimal p.0 ++ p.1.now)) }
    ensures fits { IfSome result (λ p. p.0 < 2 ^ 64) }
{
    let Some(digits) = behind(line, front) else {
        return None;
    };
    let Some((number, count)) = digits_in(digits) else {
        return None;
    };
    if !are_written(&digits[..count]) {
        return None;
    }
    Some((number, &digits[count..]))
}
