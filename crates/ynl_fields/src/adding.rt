//! The pieces of a text that is kept, added one by one. Names, labels, ids and numbers need no escape, so each stands in
//! its text of JSON as it is. What is the same in every text comes as an array: its length is then known where it is
//! copied, and no `memcpy` is called for it. Memory is asked for only where a text has no room for a piece, so a text
//! that has room takes it without fail.

ghost use Rattle.std.specs.Prelude.{◌≡◌, ◌++◌, ◌+◌, ◌<◌, ◌≤◌, OnOk, OnErr, decimal, length, vec_len, vec_capacity};
ghost use Rattle.json.specs.Print.{escape};
ghost use Rattle.ynl_resource.specs.Texts.{label_text, id_text, path_text};
ghost use Rattle.ynl_fields.specs.Sound.{IsLabel, IsName, IsPath};

use itoa::Buffer;
use std::alloc::AllocError;
use ynl_resource::{Id, Label, Name, Path};

/// The bytes of a name.
#[tactic(auto, using(crate::proofs::Escapes::escape_name))]
fn name_bytes(name: &Name) -> &[u8]
    ensures text { result.now ≡ escape name.now }
    ensures sound { IsName name.now }
{
    name.as_bytes()
}

/// Adds bytes, however many.
// It stands in the program once: what a processor keeps of the program at hand is little.
#[inline(never)]
fn add_bytes(text: &mut Vec<u8>, more: &[u8]) -> Result<(), AllocError>
    ensures added { OnOk result (text.new.items ≡ text.old.items ++ more.now) }
    ensures len { OnOk result (vec_len text.new ≡ vec_len text.old + length more.now) }
    ensures capacity { vec_capacity text.old ≤ vec_capacity text.new }
    ensures full { OnErr result (vec_capacity text.old < vec_len text.old + length more.now) }
{
    text.extend_from_slice(more)
}

/// Adds bytes. What is to be done where there is no room for them does not stand beside each piece.
pub fn add<const N: usize>(text: &mut Vec<u8>, more: &[u8; N]) -> Result<(), AllocError>
    ensures added { OnOk result (text.new.items ≡ text.old.items ++ more.now) }
    ensures len { OnOk result (vec_len text.new ≡ vec_len text.old + length more.now) }
    ensures capacity { vec_capacity text.old ≤ vec_capacity text.new }
    ensures full { OnErr result (vec_capacity text.old < vec_len text.old + length more.now) }
{
    if text.capacity() - text.len() < N {
        return add_bytes(text, more);
    }
    text.extend_from_slice(more)
}

/// Adds what stands before a text, and the text.
pub fn add_text<const N: usize>(
    text: &mut Vec<u8>,
    front: &[u8; N],
    more: &[u8],
) -> Result<(), AllocError>
    ensures added { OnOk result (text.new.items ≡ text.old.items ++ (front.now ++ more.now)) }
    ensures len { OnOk result (vec_len text.new ≡ vec_len text.old + length (front.now ++ more.now)) }
    ensures capacity { vec_capacity text.old ≤ vec_capacity text.new }
    ensures full { OnErr result (vec_capacity text.old < vec_len text.old + length (front.now ++ more.now)) }
{
    add(text, front)?;
    add_bytes(text, more)
}

/// Adds what stands before a name, and the name.
pub fn add_name<const N: usize>(
    text: &mut Vec<u8>,
    front: &[u8; N],
    name: &Name,
) -> Result<(), AllocError>
    ensures added { OnOk result (text.new.items ≡ text.old.items ++ (front.now ++ escape name.now)) }
    ensures len { OnOk result (vec_len text.new ≡ vec_len text.old + length (front.now ++ escape name.now)) }
    ensures capacity { vec_capacity text.old ≤ vec_capacity text.new }
    ensures full { OnErr result (vec_capacity text.old < vec_len text.old + length (front.now ++ escape name.now)) }
    ensures sound { IsName name.now }
{
    add_text(text, front, name_bytes(name))
}

/// Adds what stands before a label, and its text.
pub fn add_label<const N: usize>(
    text: &mut Vec<u8>,
    front: &[u8; N],
    label: &Label,
) -> Result<(), AllocError>
    ensures added { OnOk result (text.new.items ≡ text.old.items ++ (front.now ++ escape (label_text label.now))) }
    ensures len { OnOk result (vec_len text.new ≡ vec_len text.old + length (front.now ++ escape (label_text label.now))) }
    ensures capacity { vec_capacity text.old ≤ vec_capacity text.new }
    ensures full { OnErr result (vec_capacity text.old < vec_len text.old + length (front.now ++ escape (label_text label.now))) }
    ensures sound { IsLabel label.now }
{
    match label {
        Label::Unlabelled => add(text, front),
        Label::Named(name) => add_name(text, front, name),
    }
}

/// Adds what stands before a number, and its digits.
#[tactic(auto, using(crate::proofs::Escapes::escape_number))]
pub fn add_number<const N: usize>(
    text: &mut Vec<u8>,
    front: &[u8; N],
    number: u64,
) -> Result<(), AllocError>
    ensures added { OnOk result (text.new.items ≡ text.old.items ++ (front.now ++ decimal number)) }
    ensures len { OnOk result (vec_len text.new ≡ vec_len text.old + length (front.now ++ decimal number)) }
    ensures capacity { vec_capacity text.old ≤ vec_capacity text.new }
    ensures full { OnErr result (vec_capacity text.old < vec_len text.old + length (front.now ++ decimal number)) }
    ensures plain { escape (decimal number) ≡ decimal number }
{
    add(text, front)?;
    add_digits(text, number)
}

/// Adds the digits of a number.
fn add_digits(text: &mut Vec<u8>, number: u64) -> Result<(), AllocError>
    ensures added { OnOk result (text.new.items ≡ text.old.items ++ decimal number) }
    ensures len { OnOk result (vec_len text.new ≡ vec_len text.old + length (decimal number)) }
    ensures capacity { vec_capacity text.old ≤ vec_capacity text.new }
    ensures full { OnErr result (vec_capacity text.old < vec_len text.old + length (decimal number)) }
{
    if number < 10 {
        return add(text, &[b'0' + number as u8]);
    }
    let mut digits = Buffer::new();
    add_bytes(text, digits.format(number).as_bytes())
}

/// Adds what stands before an id, and its text.
pub fn add_id<const N: usize>(
    text: &mut Vec<u8>,
    front: &[u8; N],
    id: &Id,
) -> Result<(), AllocError>
    ensures added { OnOk result (text.new.items ≡ text.old.items ++ (front.now ++ escape (id_text id.now))) }
    ensures len { OnOk result (vec_len text.new ≡ vec_len text.old + length (front.now ++ escape (id_text id.now))) }
    ensures capacity { vec_capacity text.old ≤ vec_capacity text.new }
    ensures full { OnErr result (vec_capacity text.old < vec_len text.old + length (front.now ++ escape (id_text id.now))) }
    ensures sound { IsLabel id.now.label }
{
    add_label(text, front, &id.label)?;
    add_number(text, b"#", id.clock)
}

/// Adds what stands before a path, and its text.
pub fn add_path<const N: usize>(
    text: &mut Vec<u8>,
    front: &[u8; N],
    path: &Path,
) -> Result<(), AllocError>
    ensures added { OnOk result (text.new.items ≡ text.old.items ++ (front.now ++ escape (path_text path.now))) }
    ensures len { OnOk result (vec_len text.new ≡ vec_len text.old + length (front.now ++ escape (path_text path.now))) }
    ensures capacity { vec_capacity text.old ≤ vec_capacity text.new }
    ensures full { OnErr result (vec_capacity text.old < vec_len text.old + length (front.now ++ escape (path_text path.now))) }
    ensures sound { OnOk result (IsPath path.now) }
{
    add_text(text, front, b"root")?;
    for name in path.names() {
        add_name(text, b".", name)?;
    }
    Ok(())
}
