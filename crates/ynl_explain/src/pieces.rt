//! Texts for a reader, put together from pieces.

ghost use Rattle.std.specs.Prelude.{◌≡◌, ◌++◌, IfOk, decimal};
ghost use Rattle.std.specs.List.{flat_map};
ghost use Rattle.ynl_explain.specs.Pieces as spec;

use itoa::Buffer;
use std::alloc::AllocError;
use ynl_resource::{Label, Name, Resource, Size};

/// A part of a text.
#[derive(Clone, Copy)]
pub(crate) enum Piece<'a> {
    Word(&'a str),
    Named(&'a Name),
    /// The name of a partition.
    Partition(&'a Label),
    Number(u32),
    /// So many nodes.
    Nodes(usize),
    Amount(Resource),
    Size(&'a Size),
}

/// The text with a word more.
pub(crate) fn put_word(mut text: Vec<u8>, word: &[u8]) -> Result<Vec<u8>, AllocError>
    ensures { IfOk result (λ longer. longer.items ≡ text.items ++ word.now) }
{
    text.extend_from_slice(word)?;
    Ok(text)
}

fn put_number(text: Vec<u8>, number: u64) -> Result<Vec<u8>, AllocError>
    ensures { IfOk result (λ longer. longer.items ≡ text.items ++ decimal number) }
{
    let mut digits = Buffer::new();
    put_word(text, digits.format(number).as_bytes())
}

/// The word for one thing, or for so many of them.
fn word_for<'a>(count: u64, one: &'a str, more: &'a str) -> &'a str
    ensures { result.now ≡ spec.word_for count one.now more.now }
{
    if count == 1 { one } else { more }
}

fn put_nodes(text: Vec<u8>, count: u64) -> Result<Vec<u8>, AllocError>
    ensures { IfOk result (λ longer. longer.items ≡ text.items ++ spec.nodes_text count) }
{
    let text = put_number(text, count)?;
    put_word(text, word_for(count, " node", " nodes").as_bytes())
}

fn put_vcores(text: Vec<u8>, count: u64) -> Result<Vec<u8>, AllocError>
    ensures { IfOk result (λ longer. longer.items ≡ text.items ++ spec.vcores_text count) }
{
    let text = put_number(text, count)?;
    put_word(text, word_for(count, " vcore", " vcores").as_bytes())
}

fn put_amount(text: Vec<u8>, amount: &Resource) -> Result<Vec<u8>, AllocError>
    ensures { IfOk result (λ longer. longer.items ≡ text.items ++ spec.amount_text amount.now) }
{
    let text = put_number(text, amount.memory)?;
    let text = put_word(text, b" MB and ")?;
    put_vcores(text, amount.vcores)
}

fn put_partition(text: Vec<u8>, label: &Label) -> Result<Vec<u8>, AllocError>
    ensures { IfOk result (λ longer. longer.items ≡ text.items ++ spec.partition_name label.now) }
{
    match label {
        Label::Unlabelled => put_word(text, b"DEFAULT"),
        Label::Named(name) => put_word(text, name.as_bytes()),
    }
}

fn put_piece(text: Vec<u8>, piece: &Piece<'_>) -> Result<Vec<u8>, AllocError>
    ensures { IfOk result (λ longer. longer.items ≡ text.items ++ spec.piece_text piece.now) }
{
    match piece {
        Piece::Word(word) => put_word(text, word.as_bytes()),
        Piece::Named(name) => put_word(text, name.as_bytes()),
        Piece::Partition(label) => put_partition(text, label),
        Piece::Number(number) => put_number(text, u64::from(*number)),
        Piece::Nodes(count) => put_nodes(text, *count as u64),
        Piece::Amount(amount) => put_amount(text, amount),
        Piece::Size(size) => put_amount(text, &size.amount()),
    }
}

/// The text with all pieces more.
pub(crate) fn put_pieces(mut text: Vec<u8>, pieces: &[Piece<'_>]) -> Result<Vec<u8>, AllocError>
    ensures { IfOk result (λ longer.
        longer.items ≡ text.items ++ flat_map spec.piece_text pieces.now) }
{
    for piece in pieces {
        text = put_piece(text, piece)?;
    }
    Ok(text)
}
