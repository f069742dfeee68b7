//! Parts that the texts of several kinds of lines have, added piece by piece.

ghost use Rattle.std.specs.Prelude.{◌≡◌, ◌++◌, ◌+◌, ◌<◌, ◌≤◌, OnOk, OnErr, length, vec_capacity, vec_len};
ghost use Rattle.ynl_fields.specs.Sound.{IsLabel, IsName};
ghost use Rattle.ynl_saved_text.specs.Parts.{labelled, owned};

use std::alloc::AllocError;
use ynl_fields::{add, add_label, add_name, add_number};
use ynl_resource::{Label, Name};

/// Adds what stands before a label, the label, and the memory, which stands behind it.
pub fn add_labelled<const N: usize>(
    text: &mut Vec<u8>,
    front: &[u8; N],
    label: &Label,
    memory: u64,
) -> Result<(), AllocError>
    ensures added { OnOk result (text.new.items ≡ text.old.items ++ (front.now ++ labelled label.now memory)) }
    ensures len { OnOk result (vec_len text.new ≡ vec_len text.old + length (front.now ++ labelled label.now memory)) }
    ensures capacity { vec_capacity text.old ≤ vec_capacity text.new }
    ensures full { OnErr result (vec_capacity text.old < vec_len text.old + length (front.now ++ labelled label.now memory)) }
    ensures sound { OnOk result (IsLabel label.now) }
{
    add_label(text, front, label)?;
    add_number(text, b"\",\"memory\":", memory)
}

/// Adds what stands before the name of a user or a tenant, the name, and the cores and what ends the line behind it.
pub fn add_owned<const N: usize, const M: usize>(
    text: &mut Vec<u8>,
    front: &[u8; N],
    owner: &Name,
    vcores: u64,
    end: &[u8; M],
) -> Result<(), AllocError>
    ensures added { OnOk result (text.new.items ≡ text.old.items ++ (front.now ++ owned owner.now vcores end.now)) }
    ensures capacity { vec_capacity text.old ≤ vec_capacity text.new }
    ensures full { OnErr result (vec_capacity text.old < vec_len text.old + length (front.now ++ owned owner.now vcores end.now)) }
    ensures sound { OnOk result (IsName owner.now) }
{
    add_name(text, front, owner)?;
    add_number(text, b"\",\"vcores\":", vcores)?;
    add(text, end)
}
