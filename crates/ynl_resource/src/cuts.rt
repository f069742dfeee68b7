//! Texts that are cut at a character.

ghost use Rattle.std.specs.Prelude.{◌≡◌, ◌<◌, ◌==◌, length, [], ◌∷◌};
ghost use Rattle.std.specs.Option.{IfSome, IfNone, option_map_or};
ghost use Rattle.std.specs.List.{before_first, after_first, slice_split};

/// What stands before the first `at`, and what stands after it if there is one.
pub(crate) fn cut(text: &str, at: char) -> (&str, Option<&str>)
    requires { at < 128 }
    ensures before { result.0.now ≡ before_first (λ x. x == at) text.now }
    ensures after { IfSome result.1 (λ rest. rest.now ≡ after_first (λ x. x == at) text.now) }
    ensures none_after { IfNone result.1 (after_first (λ x. x == at) text.now ≡ []) }
    ensures shorter { IfSome result.1 (λ rest. length rest.now < length text.now) }
    ensures split { slice_split (λ x. x == at) text.now ≡ result.0.now ∷ option_map_or (λ rest. slice_split (λ x. x == at) rest.now) result.1 [] }
{
    match text.split_once(at) {
        Some((before, after)) => (before, Some(after)),
        None => (text, None),
    }
}
