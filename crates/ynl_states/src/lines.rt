//! The lines of a text that is at hand whole.

ghost use Rattle.std.specs.Prelude.{◌≡◌, ◌<◌, ◌==◌, ◌∷◌, [], length, IfSome};
ghost use Rattle.std.specs.List.{slice_split};
ghost use Rattle.std.specs.Option.{option_map_or};

use memchr::memchr;

/// The first line of a text, without its newline, and what follows the newline, if there is one.
#[derive(Clone, Copy)]
pub(crate) struct Cut<'a> {
    pub(crate) line: &'a [u8],
    pub(crate) rest: Option<&'a [u8]>,
}

/// Cuts a text behind its first line.
pub(crate) fn first_line(text: &[u8]) -> Cut<'_>
    ensures lines { slice_split (λ b. b == 10) text.now
        ≡ result.line.now ∷ option_map_or (λ rest. slice_split (λ b. b == 10) rest.now) result.rest [] }
    ensures shorter { IfSome result.rest (λ rest. length rest.now < length text.now) }
{
    match memchr(b'\n', text) {
        Some(at) => Cut {
            line: &text[..at],
            rest: Some(&text[at + 1..]),
        },
        None => Cut {
            line: text,
            rest: None,
        },
    }
}
