//! Texts for a reader, put together from pieces.

ghost use Rattle.std.specs.Prelude.{◌≡◌, ◌++◌, IfOk, replicate, decimal};
ghost use Rattle.std.specs.List.{flat_map};
ghost use Rattle.ynl_config.specs.Places.{told_of};
ghost use Rattle.ynl_check.specs.Pieces.{led, millionths, percent, places, plain, quoted, piece_text};

use crate::faults::content_of;
use crate::objects::put_alone;
use itoa::Buffer;
use std::alloc::AllocError;
use ynl_config::ToldValue;

/// A part of a text.
#[derive(Clone, Copy)]
pub(crate) enum Piece<'a> {
    Word(&'a str),
    /// A text, and blanks up to so many bytes.
    Filled(usize, &'a str),
    Blanks(usize),
    /// Millionths of the whole, as a percentage in a column.
    Millionths(u64),
    /// Hundredths of a percent.
    Percent(Option<u64>),
    Number(Option<u64>),
    /// A value in the form of JSON.
    Told(&'a Option<ToldValue>),
    /// The name of a queue or of a partition.
    Plain(&'a Option<ToldValue>),
}

fn put_bytes(mut text: Vec<u8>, byte: u8, count: usize) -> Result<Vec<u8>, AllocError>
    ensures { IfOk result (λ longer. longer.items ≡ text.items ++ replicate count byte) }
{
    for i in 0..count {
        text.push(byte)?;
    }
    Ok(text)
}

/// The text with a word more.
pub(crate) fn put_word(mut text: Vec<u8>, word: &[u8]) -> Result<Vec<u8>, AllocError>
    ensures { IfOk result (λ longer. longer.items ≡ text.items ++ word.now) }
{
    text.extend_from_slice(word)?;
    Ok(text)
}

fn put_number(text: Vec<u8>, number: u64) -> Result<Vec<u8>, AllocError>
    ensures { IfOk result (λ longer. longer.items ≡ text.items ++ decimal number) }
{
    let mut digits = Buffer::new();
    put_word(text, digits.format(number).as_bytes())
}

/// The number with others of a digit before it, up to so many digits.
fn put_led(text: Vec<u8>, width: usize, digit: u8, number: u64) -> Result<Vec<u8>, AllocError>
    ensures { IfOk result (λ longer. longer.items ≡ text.items ++ led width digit number) }
{
    let mut buffer = Buffer::new();
    let digits = buffer.format(number).as_bytes();
    let text = put_bytes(text, digit, width.saturating_sub(digits.len()))?;
    put_word(text, digits)
}

fn put_millionths(text: Vec<u8>, number: u64) -> Result<Vec<u8>, AllocError>
    ensures { IfOk result (λ longer. longer.items ≡ text.items ++ millionths number) }
{
    let text = put_led(text, 3, b' ', number / 10000)?;
    let text = put_word(text, b".")?;
    let text = put_led(text, 4, b'0', number % 10000)?;
    put_word(text, b" %")
}

fn put_places(text: Vec<u8>, number: u64) -> Result<Vec<u8>, AllocError>
    ensures { IfOk result (λ longer. longer.items ≡ text.items ++ places number) }
{
    if number % 100 == 0 {
        return Ok(text);
    }
    let text = put_word(text, b".")?;
    put_led(text, 2, b'0', number % 100)
}

fn put_percent(text: Vec<u8>, number: u64) -> Result<Vec<u8>, AllocError>
    ensures { IfOk result (λ longer. longer.items ≡ text.items ++ percent number) }
{
    let text = put_number(text, number / 100)?;
    let text = put_places(text, number)?;
    put_word(text, b" %")
}

fn put_told(text: Vec<u8>, value: &ToldValue) -> Result<Vec<u8>, AllocError>
    ensures { IfOk result (λ longer. longer.items ≡ text.items ++ quoted (told_of value.now)) }
{
    put_alone(text, &content_of(value))
}

fn put_plain(text: Vec<u8>, value: &ToldValue) -> Result<Vec<u8>, AllocError>
    ensures { IfOk result (λ longer. longer.items ≡ text.items ++ plain (told_of value.now)) }
{
    match value {
        ToldValue::Text(name) if name.is_empty() => put_word(text, b"DEFAULT"),
        ToldValue::Text(name) => put_word(text, name.as_bytes()),
        ToldValue::Integer(_) => put_told(text, value),
        ToldValue::Count(_) => put_told(text, value),
    }
}

fn put_piece(text: Vec<u8>, piece: &Piece<'_>) -> Result<Vec<u8>, AllocError>
    ensures { IfOk result (λ longer. longer.items ≡ text.items ++ piece_text piece.now) }
{
    match piece {
        Piece::Word(word) => put_word(text, word.as_bytes()),
        Piece::Filled(width, word) => {
            let text = put_word(text, word.as_bytes())?;
            put_bytes(text, b' ', width.saturating_sub(word.len()))
        }
        Piece::Blanks(count) => put_bytes(text, b' ', *count),
        Piece::Millionths(number) => put_millionths(text, *number),
        Piece::Percent(Some(number)) => put_percent(text, *number),
        Piece::Number(Some(number)) => put_number(text, *number),
        Piece::Told(Some(value)) => put_told(text, value),
        Piece::Plain(Some(value)) => put_plain(text, value),
        Piece::Percent(None) | Piece::Number(None) | Piece::Told(None) | Piece::Plain(None) => {
            put_word(text, b"..")
        }
    }
}

/// The text with all pieces more.
pub(crate) fn put_pieces(mut text: Vec<u8>, pieces: &[Piece<'_>]) -> Result<Vec<u8>, AllocError>
    ensures { IfOk result (λ longer. longer.items ≡ text.items ++ flat_map piece_text pieces.now) }
{
    for piece in pieces {
        text = put_piece(text, piece)?;
    }
    Ok(text)
}
