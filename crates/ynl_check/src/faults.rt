//! The line of a fault.

ghost use Rattle.std.specs.Prelude.{◌≡◌, ◌++◌, IfOk, option_map};
ghost use Rattle.ynl_config.specs.Places.{told_of, place_of};
ghost use Rattle.ynl_check.specs.Objects.{count, token_of};
ghost use Rattle.ynl_check.specs.Faults.{shown_token, kind_token, fault_line};

use crate::objects::{Content, put_object, text};
use std::alloc::AllocError;
use ynl_config::{Misplaced, RowKind, ToldValue};

/// What is told of a value.
#[tactic(auto, unfolding(crate::specs::Objects::count))]
pub(crate) fn content_of(value: &ToldValue) -> Content<'_>
    ensures { token_of result ≡ shown_token (told_of value.now) }
{
    match value {
        ToldValue::Text(text) => Content::Text(text.as_str()),
        ToldValue::Integer(integer) => Content::Integer(*integer),
        ToldValue::Count(count) => Content::Number(*count as u64),
    }
}

fn value(told: &Option<ToldValue>) -> Option<Content<'_>>
    ensures { option_map token_of result ≡ option_map shown_token (option_map told_of told.now) }
{
    match told {
        Some(value) => Some(content_of(value)),
        None => None,
    }
}

fn number<'a>(told: Option<u64>) -> Option<Content<'a>>
    ensures { option_map token_of result ≡ option_map count told }
{
    match told {
        Some(number) => Some(Content::Number(number)),
        None => None,
    }
}

fn kind<'a>(kind: Option<RowKind>) -> Option<Content<'a>>
    ensures { option_map token_of result ≡ option_map kind_token kind }
{
    match kind {
        Some(kind) => Some(Content::Text(kind.word())),
        None => None,
    }
}

/// The text with the line of a fault more.
#[tactic(auto, unfolding(crate::specs::Faults::fault_line))]
pub(crate) fn put_fault(line: Vec<u8>, misplaced: &Misplaced) -> Result<Vec<u8>, AllocError>
    ensures { IfOk result (λ longer. longer.items ≡ line.items ++ fault_line misplaced.now.fault (place_of misplaced.now.place)) }
{
    let place = &misplaced.place;
    put_object(
        line,
        &[
            ("capacity", number(place.capacity)),
            ("check", text(misplaced.fault.word())),
            ("key", value(&place.key)),
            ("label", value(&place.label)),
            ("line", number(place.line)),
            ("maximum", number(place.maximum)),
            ("queue", value(&place.queue)),
            ("row", number(place.row)),
            ("sum", number(place.sum)),
            ("table", kind(place.table)),
            ("value", value(&place.value)),
        ],
    )
}
