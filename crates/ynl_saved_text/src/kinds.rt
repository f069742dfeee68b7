//! The kinds of the lines of a saved state, and their order.

ghost use Rattle.std.specs.Prelude.{◌≡◌};
ghost use Rattle.ynl_saved_text.specs.StateLines as spec;

use ynl_fields::find_word;
use ynl_saved::StateLine;

/// Which line a word names.
#[derive(Clone, Copy)]
pub enum StateKind {
    Begin,
    Partition,
    Node,
    Live,
    Ask,
    Finished,
    Container,
    Stopped,
    Maximum,
    End,
}

/// The kind of a line, by which the lines of a text are in order.
pub fn kind_of_line(line: &StateLine) -> StateKind
    ensures { result ≡ spec.kind_of_line line.now }
{
    match line {
        StateLine::Begin => StateKind::Begin,
        StateLine::Partition { .. } => StateKind::Partition,
        StateLine::Node(_) => StateKind::Node,
        StateLine::Live { .. } => StateKind::Live,
        StateLine::Ask { .. } => StateKind::Ask,
        StateLine::Finished { .. } => StateKind::Finished,
        StateLine::Container(_) => StateKind::Container,
        StateLine::Stopped { .. } => StateKind::Stopped,
        StateLine::Maximum { .. } => StateKind::Maximum,
        StateLine::End { .. } => StateKind::End,
    }
}

/// The word of each kind.
const KINDS: [(&str, StateKind); 10] = [
    ("begin", StateKind::Begin),
    ("partition", StateKind::Partition),
    ("node", StateKind::Node),
    ("live", StateKind::Live),
    ("ask", StateKind::Ask),
    ("finished", StateKind::Finished),
    ("container", StateKind::Container),
    ("stopped", StateKind::Stopped),
    ("maximum", StateKind::Maximum),
    ("end", StateKind::End),
];

/// The kind that a word names, if it is a known one.
pub fn kind_of(word: &str) -> Option<StateKind>
    ensures { result ≡ spec.kind_of word.now }
{
    find_word(&KINDS, word)
}

/// The place of a kind in the order of the lines.
fn rank(kind: StateKind) -> u8
    ensures { result ≡ spec.rank kind }
{
    match kind {
        StateKind::Begin => 0,
        StateKind::Partition => 1,
        StateKind::Node => 2,
        StateKind::Live | StateKind::Ask | StateKind::Finished => 3,
        StateKind::Container => 4,
        StateKind::Stopped => 5,
        StateKind::Maximum => 6,
        StateKind::End => 7,
    }
}

fn is_begin(kind: StateKind) -> bool
    ensures { result ≡ spec.is_begin kind }
{
    matches!(kind, StateKind::Begin)
}

/// Whether it is the kind of the last line.
pub fn is_end(kind: StateKind) -> bool
    ensures { result ≡ spec.is_end kind }
{
    matches!(kind, StateKind::End)
}

/// Whether a line of a kind may stand behind one of another, or else be the first.
pub fn may_follow(before: Option<StateKind>, kind: StateKind) -> bool
    ensures { result ≡ spec.may_follow before kind }
{
    match before {
        None => is_begin(kind),
        Some(before) => !is_begin(kind) && !is_end(before) && rank(before) <= rank(kind),
    }
}
