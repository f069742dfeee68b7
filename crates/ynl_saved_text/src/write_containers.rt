//! The texts of the lines of containers, added piece by piece.

ghost use Rattle.std.specs.Prelude.{◌≡◌, ◌++◌, ◌+◌, ◌<◌, ◌≤◌, OnOk, OnErr, length, vec_capacity, vec_len};
ghost use Rattle.serde_json.specs.Written.{compact_text};
ghost use Rattle.ynl_fields.specs.Sound.{IsLabel};
ghost use Rattle.ynl_resource.specs.Ranges.{most_priority};
ghost use Rattle.ynl_saved_text.specs.Sound.{HasParts, IsWanted};
ghost use Rattle.ynl_saved_text.specs.StateLines as spec;

use crate::write_parts::{add_labelled, add_owned};
use std::alloc::AllocError;
use ynl_fields::{add_id, add_name, add_number};
use ynl_model::{Placed, What};
use ynl_resource::Label;

/// Adds a container that was asked for.
#[tactic(auto, unfolding(json::specs::Print::escape_byte))]
fn add_asked(
    text: &mut Vec<u8>,
    placed: &Placed,
    label: &Label,
    priority: u32,
) -> Result<(), AllocError>
    ensures added { OnOk result (text.new.items ≡ text.old.items ++ compact_text (spec.asked_data placed.now label.now priority)) }
    ensures capacity { vec_capacity text.old ≤ vec_capacity text.new }
    ensures full { OnErr result (vec_capacity text.old < vec_len text.old + length (compact_text (spec.asked_data placed.now label.now priority))) }
    ensures sound { OnOk result (HasParts placed.now × IsLabel label.now × (priority ≤ most_priority)) }
{
    let size = placed.size.amount();
    add_name(text, b"{\"app\":\"", &placed.app)?;
    add_id(text, b"\",\"id\":\"", &placed.id)?;
    add_labelled(text, b"\",\"label\":\"", label, size.memory)?;
    add_name(text, b",\"node\":\"", &placed.node)?;
    add_number(text, b"\",\"priority\":", u64::from(priority))?;
    add_owned(
        text,
        b",\"state\":\"container\",\"tenant\":\"",
        &placed.tenant,
        size.vcores,
        b",\"what\":\"ask\"}",
    )
}

/// Adds a container that is a master.
#[tactic(auto, unfolding(json::specs::Print::escape_byte))]
fn add_master(text: &mut Vec<u8>, placed: &Placed) -> Result<(), AllocError>
    ensures added { OnOk result (text.new.items ≡ text.old.items ++ compact_text (spec.master_data placed.now)) }
    ensures capacity { vec_capacity text.old ≤ vec_capacity text.new }
    ensures full { OnErr result (vec_capacity text.old < vec_len text.old + length (compact_text (spec.master_data placed.now))) }
    ensures sound { OnOk result (HasParts placed.now) }
{
    let size = placed.size.amount();
    add_name(text, b"{\"app\":\"", &placed.app)?;
    add_id(text, b"\",\"id\":\"", &placed.id)?;
    add_number(text, b"\",\"memory\":", size.memory)?;
    add_name(text, b",\"node\":\"", &placed.node)?;
    add_owned(
        text,
        b"\",\"state\":\"container\",\"tenant\":\"",
        &placed.tenant,
        size.vcores,
        b",\"what\":\"master\"}",
    )
}

pub fn add_container(text: &mut Vec<u8>, placed: &Placed) -> Result<(), AllocError>
    ensures added { OnOk result (text.new.items ≡ text.old.items ++ compact_text (spec.container_by placed.now.what placed.now)) }
    ensures capacity { vec_capacity text.old ≤ vec_capacity text.new }
    ensures full { OnErr result (vec_capacity text.old < vec_len text.old + length (compact_text (spec.container_by placed.now.what placed.now))) }
    ensures sound { OnOk result (HasParts placed.now × IsWanted placed.now.what) }
{
    match &placed.what {
        What::Master => add_master(text, placed),
        What::Ask(label, priority) => add_asked(text, placed, label, *priority),
    }
}
