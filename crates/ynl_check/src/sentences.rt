//! The sentence that tells a fault to a reader.

ghost use Rattle.std.specs.Prelude.{◌≡◌, ◌++◌, IfOk, option_map};
ghost use Rattle.ynl_config.specs.Places.{told_of as told, place_of};
ghost use Rattle.ynl_check.specs.Sentences as spec;

use crate::pieces::{Piece, put_pieces, put_word};
use std::alloc::AllocError;
use ynl_config::{ConfigFault, Misplaced, Place, RowKind, ToldValue};

/// The text with a row of this kind more, with its number and its name.
fn put_named_row<'a>(
    text: Vec<u8>,
    kind: &'a str,
    number: Option<u64>,
    name: &'a Option<ToldValue>,
) -> Result<Vec<u8>, AllocError>
    ensures { IfOk result (λ longer. longer.items ≡ text.items ++ spec.named_row kind.now number (option_map told name.now)) }
{
    put_pieces(
        text,
        &[
            Piece::Word(kind),
            Piece::Number(number),
            Piece::Word(" ("),
            Piece::Told(name),
            Piece::Word("): "),
        ],
    )
}

/// The text with the row of a place more, where it has one.
#[tactic(auto, unfolding(crate::specs::Sentences::row_text))]
fn put_row(text: Vec<u8>, place: &Place) -> Result<Vec<u8>, AllocError>
    ensures { IfOk result (λ longer. longer.items ≡ text.items ++ spec.row_text (place_of place.now)) }
{
    match place.table {
        Some(RowKind::Label) => put_named_row(text, "label row ", place.row, &place.label),
        Some(RowKind::Queue) => put_named_row(text, "queue row ", place.row, &place.queue),
        None => Ok(text),
    }
}

fn put_label(text: Vec<u8>, label: &Option<ToldValue>) -> Result<Vec<u8>, AllocError>
    ensures { IfOk result (λ longer. longer.items ≡ text.items ++ spec.share_of (option_map told label.now)) }
{
    match label {
        Some(_) => put_pieces(
            text,
            &[Piece::Word("label "), Piece::Told(label), Piece::Word(": ")],
        ),
        None => Ok(text),
    }
}

fn put_share(text: Vec<u8>, place: &Place) -> Result<Vec<u8>, AllocError>
    ensures { IfOk result (λ longer. longer.items ≡ text.items ++ spec.share_by place.now.table (option_map told place.now.label)) }
{
    match place.table {
        Some(RowKind::Queue) => put_label(text, &place.label),
        Some(RowKind::Label) => Ok(text),
        None => Ok(text),
    }
}

/// The text with the table of a place more: the row, or the share of a label in it.
#[tactic(auto, unfolding(crate::specs::Sentences::table_text))]
fn put_table(text: Vec<u8>, place: &Place) -> Result<Vec<u8>, AllocError>
    ensures { IfOk result (λ longer. longer.items ≡ text.items ++ spec.table_text (place_of place.now)) }
{
    let text = put_row(text, place)?;
    put_share(text, place)
}

fn put_front(text: Vec<u8>, fault: ConfigFault, place: &Place) -> Result<Vec<u8>, AllocError>
    ensures { IfOk result (λ longer. longer.items ≡ text.items ++ spec.front_of fault (place_of place.now)) }
{
    match fault {
        ConfigFault::UnknownKey
        | ConfigFault::MissingKey
        | ConfigFault::WrongKind
        | ConfigFault::Range => put_table(text, place),
        ConfigFault::BadLabel
        | ConfigFault::DuplicateLabel
        | ConfigFault::TooDeep
        | ConfigFault::BadPath
        | ConfigFault::DuplicateQueue
        | ConfigFault::NoParent
        | ConfigFault::NoSuchLabel
        | ConfigFault::NotSubset => put_row(text, place),
        ConfigFault::Size
        | ConfigFault::Syntax
        | ConfigFault::Version
        | ConfigFault::TooManyLabels
        | ConfigFault::TooMany
        | ConfigFault::MaximumBelowCapacity
        | ConfigFault::SumNot100 => Ok(text),
    }
}

fn put_crowd(text: Vec<u8>, place: &Place) -> Result<Vec<u8>, AllocError>
    ensures { IfOk result (λ longer. longer.items ≡ text.items ++ spec.crowd_by (option_map told place.now.queue) (place_of place.now)) }
{
    match &place.queue {
        Some(_) => put_pieces(
            text,
            &[
                Piece::Told(&place.value),
                Piece::Word(" queues just below "),
                Piece::Told(&place.queue),
                Piece::Word(" are too many: 64 may be there"),
            ],
        ),
        None => put_pieces(
            text,
            &[
                Piece::Told(&place.value),
                Piece::Word(" queues are too many: 1024 may be there, and 64 just below one"),
            ],
        ),
    }
}

fn put_low_maximum(text: Vec<u8>, place: &Place) -> Result<Vec<u8>, AllocError>
    ensures { IfOk result (λ longer. longer.items ≡ text.items ++ spec.told_of ConfigFault.MaximumBelowCapacity (place_of place.now)) }
{
    put_pieces(
        text,
        &[
            Piece::Plain(&place.queue),
            Piece::Word(" may use at most "),
            Piece::Percent(place.maximum),
            Piece::Word(" of "),
            Piece::Plain(&place.label),
            Piece::Word(" and is guaranteed "),
            Piece::Percent(place.capacity),
            Piece::Word(": maximum-capacity is below capacity"),
        ],
    )
}

fn put_wrong_sum(text: Vec<u8>, place: &Place) -> Result<Vec<u8>, AllocError>
    ensures { IfOk result (λ longer. longer.items ≡ text.items ++ spec.told_of ConfigFault.SumNot100 (place_of place.now)) }
{
    put_pieces(
        text,
        &[
            Piece::Word("the capacities just below "),
            Piece::Plain(&place.queue),
            Piece::Word(" sum to "),
            Piece::Percent(place.sum),
            Piece::Word(" of "),
            Piece::Plain(&place.label),
            Piece::Word(", and not to 100 %"),
        ],
    )
}

/// The text with a label at fault, where it stands, and what is wrong with it more.
fn put_wrong_label<'a>(
    text: Vec<u8>,
    place: &'a Place,
    wrong: &'a str,
) -> Result<Vec<u8>, AllocError>
    ensures { IfOk result (λ longer. longer.items ≡ text.items ++ spec.of_label (place_of place.now) wrong.now) }
{
    put_pieces(
        text,
        &[
            Piece::Told(&place.label),
            Piece::Word(" under "),
            Piece::Told(&place.key),
            Piece::Word(wrong),
        ],
    )
}

/// The text with a key, what is wrong with its value, and the value more.
fn put_wrong_value<'a>(
    text: Vec<u8>,
    place: &'a Place,
    wrong: &'a str,
) -> Result<Vec<u8>, AllocError>
    ensures { IfOk result (λ longer. longer.items ≡ text.items ++ spec.of_value (place_of place.now) wrong.now) }
{
    put_pieces(
        text,
        &[
            Piece::Told(&place.key),
            Piece::Word(wrong),
            Piece::Told(&place.value),
        ],
    )
}

fn put_told(text: Vec<u8>, fault: ConfigFault, place: &Place) -> Result<Vec<u8>, AllocError>
    ensures { IfOk result (λ longer. longer.items ≡ text.items ++ spec.told_of fault (place_of place.now)) }
{
    match fault {
        ConfigFault::Size => put_word(text, b"the text has more than 1048576 bytes"),
        ConfigFault::Syntax => put_pieces(
            text,
            &[
                Piece::Word("the text is no TOML from line "),
                Piece::Number(place.line),
                Piece::Word(" on"),
            ],
        ),
        ConfigFault::UnknownKey => put_pieces(
            text,
            &[Piece::Word("there is no key "), Piece::Told(&place.key)],
        ),
        ConfigFault::MissingKey => put_pieces(
            text,
            &[Piece::Told(&place.key), Piece::Word(" is missing")],
        ),
        ConfigFault::WrongKind => put_wrong_value(text, place, " is of another kind: "),
        ConfigFault::Version => put_wrong_value(text, place, " is neither 1 nor 2: "),
        ConfigFault::Range => put_wrong_value(text, place, " is out of range: "),
        ConfigFault::BadLabel => put_wrong_label(text, place, " is no name of a label"),
        ConfigFault::TooManyLabels => put_pieces(
            text,
            &[
                Piece::Told(&place.value),
                Piece::Word(" labels are too many: 64 may be there"),
            ],
        ),
        ConfigFault::DuplicateLabel => put_word(text, b"a row before has this name"),
        ConfigFault::TooDeep => put_word(text, b"the path has more than eight names"),
        ConfigFault::TooMany => put_crowd(text, place),
        ConfigFault::BadPath => put_word(
            text,
            b"the path does not begin with root., or a part of it is no name",
        ),
        ConfigFault::DuplicateQueue => put_word(text, b"a row before has this path"),
        ConfigFault::NoParent => put_word(text, b"the queue above it is not there"),
        ConfigFault::NoSuchLabel => put_wrong_label(text, place, " is not configured"),
        ConfigFault::NotSubset => put_wrong_label(
            text,
            place,
            " is beyond what the queue or its parent may use",
        ),
        ConfigFault::MaximumBelowCapacity => put_low_maximum(text, place),
        ConfigFault::SumNot100 => put_wrong_sum(text, place),
    }
}

/// The text with the sentence of a fault more.
#[tactic(auto, unfolding(crate::specs::Sentences::sentence))]
pub(crate) fn put_sentence(text: Vec<u8>, misplaced: &Misplaced) -> Result<Vec<u8>, AllocError>
    ensures { IfOk result (λ longer. longer.items ≡ text.items ++ spec.sentence misplaced.now.fault (place_of misplaced.now.place)) }
{
    let text = put_front(text, misplaced.fault, &misplaced.place)?;
    let text = put_told(text, misplaced.fault, &misplaced.place)?;
    put_word(text, b"\n")
}
