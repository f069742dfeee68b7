//! Text, written by single writes, and lines that are held back until there is much to write.

ghost use Rattle.std.specs.Prelude.{◌≡◌, ◌<◌, [], OnOk, OnErr, ◌++◌, vec_capacity, vec_len};
ghost use Rattle.std.specs.Io.KnownBytes.{Appends};
ghost use Rattle.ynl_commands.specs.Lines.{AppendsPart, HoldsBack};
ghost use Rattle.ynl_commands.specs.Run.{line_of};
ghost use Rattle.ynl_commands.specs.Running.{held_limit};

use std::alloc::AllocError;
use std::io::Write;
use thiserror::Error;

/// A write failed, or took no byte.
#[derive(Clone, Copy, Debug, PartialEq, Eq, Error)]
#[error("write fault")]
pub struct WriteFault;

/// Writes the text by single writes. What a fault leaves written is a front of the text, and not all
/// of it.
pub fn write_text<W: Write>(writer: &mut W, text: &[u8]) -> Result<(), WriteFault>
    ensures ok { OnOk result (Appends (W.contents writer.old) (W.contents writer.new) text.now) }
    ensures err { OnErr result (AppendsPart (W.contents writer.old) (W.contents writer.new) text.now) }
{
    let mut written = 0;
    while written < text.len() {
        match writer.write(&text[written..]) {
            Ok(0) | Err(_) => return Err(WriteFault),
            Ok(n) => written += n,
        }
    }
    Ok(())
}

/// Writes three texts, one after another.
pub fn write_three<W: Write>(
    writer: &mut W,
    first: &[u8],
    second: &[u8],
    third: &[u8],
) -> Result<(), WriteFault>
    ensures ok { OnOk result (Appends (W.contents writer.old) (W.contents writer.new) (first.now ++ (second.now ++ third.now))) }
    ensures err { OnErr result (AppendsPart (W.contents writer.old) (W.contents writer.new) (first.now ++ (second.now ++ third.now))) }
{
    write_text(writer, first)?;
    write_text(writer, second)?;
    write_text(writer, third)
}

/// How long the text may get that is held back, in bytes, before it is written.
pub const HELD: usize = 65536;

/// Adds a text to what is held back, with the newline that ends its line.
pub fn hold_text(text: &mut Vec<u8>, held: &mut Vec<u8>) -> Result<(), AllocError>
    ensures ok { OnOk result (held.new.items ≡ held.old.items ++ line_of text.old.items) }
    ensures err { OnErr result (held.new.items ≡ held.old.items) }
{
    text.push(b'\n')?;
    held.extend_from_slice(text)
}

/// Writes the text that is held back, and holds none then.
pub fn write_held<W: Write>(writer: &mut W, held: &mut Vec<u8>) -> Result<(), WriteFault>
    ensures ok { OnOk result (Appends (W.contents writer.old) (W.contents writer.new) held.old.items) }
    ensures none { OnOk result (held.new.items ≡ []) }
    ensures err { OnErr result (AppendsPart (W.contents writer.old) (W.contents writer.new) held.old.items) }
    ensures capacity { vec_capacity held.new ≡ vec_capacity held.old }
{
    write_text(writer, held)?;
    held.clear();
    Ok(())
}

/// Writes the text that is held back where it has come to [`HELD`] bytes.
pub fn write_on<W: Write>(writer: &mut W, held: &mut Vec<u8>) -> Result<(), WriteFault>
    ensures ok { OnOk result (HoldsBack (W.contents writer.old) (W.contents writer.new) held.new.items held.old.items) }
    ensures err { OnErr result (AppendsPart (W.contents writer.old) (W.contents writer.new) held.old.items) }
    ensures short { OnOk result (vec_len held.new < held_limit) }
    ensures capacity { vec_capacity held.new ≡ vec_capacity held.old }
{
    if held.len() < HELD {
        return Ok(());
    }
    write_held(writer, held)
}
