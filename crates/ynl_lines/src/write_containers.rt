//! The texts of containers, of what is still asked for, and of lists of these, added piece by piece: most of what is
//! written are containers that heartbeats placed.

ghost use Rattle.std.specs.Prelude.{◌≡◌, ◌++◌, false, All, OnOk, map};
ghost use Rattle.serde_json.specs.Data.{Data};
ghost use Rattle.serde_json.specs.View.{items_of};
ghost use Rattle.serde_json.specs.Written.{compact_text, comma_if, items_text};
ghost use Rattle.ynl_resource.specs.Texts.{id_text};
ghost use Rattle.ynl_lines.specs.Sound.{IsContainer, IsLabel, IsPending, HasContainerParts as HasParts};
ghost use Rattle.ynl_lines.specs.Writing as spec;

use std::alloc::AllocError;
use ynl_fields::{add, add_id, add_label, add_name, add_number};
use ynl_model::{Pending, Placed, What};
use ynl_resource::Label;

/// Adds a container that was asked for.
fn add_asked(
    text: &mut Vec<u8>,
    placed: &Placed,
    label: &Label,
    priority: u32,
) -> Result<(), AllocError>
    ensures added { OnOk result (text.new.items ≡ text.old.items ++ compact_text (spec.asked_data (id_text placed.now.id) placed.now label.now priority)) }
    ensures sound { OnOk result (HasParts placed.now × IsLabel label.now) }
{
    let size = placed.size.amount();
    add_name(text, b"{\"app\":\"", &placed.app)?;
    add_id(text, b"\",\"id\":\"", &placed.id)?;
    add_label(text, b"\",\"label\":\"", label)?;
    add_number(text, b"\",\"memory\":", size.memory)?;
    add_name(text, b",\"node\":\"", &placed.node)?;
    add_number(text, b"\",\"priority\":", u64::from(priority))?;
    add_name(text, b",\"tenant\":\"", &placed.tenant)?;
    add_number(text, b"\",\"vcores\":", size.vcores)?;
    add(text, b",\"what\":\"ask\"}")
}

/// Adds a container that is a master.
fn add_master(text: &mut Vec<u8>, placed: &Placed) -> Result<(), AllocError>
    ensures added { OnOk result (text.new.items ≡ text.old.items ++ compact_text (spec.master_data (id_text placed.now.id) placed.now)) }
    ensures sound { OnOk result (HasParts placed.now) }
{
    let size = placed.size.amount();
    add_name(text, b"{\"app\":\"", &placed.app)?;
    add_id(text, b"\",\"id\":\"", &placed.id)?;
    add_number(text, b"\",\"memory\":", size.memory)?;
    add_name(text, b",\"node\":\"", &placed.node)?;
    add_name(text, b"\",\"tenant\":\"", &placed.tenant)?;
    add_number(text, b"\",\"vcores\":", size.vcores)?;
    add(text, b",\"what\":\"master\"}")
}

/// Adds a container.
pub fn add_placed(text: &mut Vec<u8>, placed: &Placed) -> Result<(), AllocError>
    ensures added { OnOk result (text.new.items ≡ text.old.items ++ compact_text (spec.placed_data placed.now)) }
    ensures sound { OnOk result (IsContainer placed.now) }
{
    match &placed.what {
        What::Master => add_master(text, placed),
        What::Ask(label, priority) => add_asked(text, placed, label, *priority),
    }
}

/// Adds what is still asked for.
fn add_pending(text: &mut Vec<u8>, pending: &Pending) -> Result<(), AllocError>
    ensures added { OnOk result (text.new.items ≡ text.old.items ++ compact_text (spec.pending_data pending.now)) }
    ensures sound { OnOk result (IsPending pending.now) }
{
    let size = pending.size.amount();
    add_number(text, b"{\"count\":", u64::from(pending.count))?;
    add_number(text, b",\"memory\":", size.memory)?;
    add_number(text, b",\"priority\":", u64::from(pending.priority))?;
    add_number(text, b",\"vcores\":", size.vcores)?;
    add(text, b"}")
}

/// What stands in the lists of replies.
pub trait Listed {
    ghost told: { Self → Data };

    /// What holds of each that is added.
    ghost is_sound: { Self → Type 0 };

    /// Adds one.
    fn add_to(&self, text: &mut Vec<u8>) -> Result<(), AllocError>
        ensures added { OnOk result (text.new.items ≡ text.old.items ++ compact_text (told self.now)) }
        ensures sound { OnOk result (is_sound self.now) };
}

impl Listed for Placed {
    ghost told = { spec.placed_data };

    ghost is_sound = { IsContainer };

    fn add_to(&self, text: &mut Vec<u8>) -> Result<(), AllocError> {
        add_placed(text, self)
    }
}

impl Listed for Pending {
    ghost told = { spec.pending_data };

    ghost is_sound = { IsPending };

    fn add_to(&self, text: &mut Vec<u8>) -> Result<(), AllocError> {
        add_pending(text, self)
    }
}

/// Adds one more of a list, with a comma before it where it is not the first.
fn add_one<T: Listed>(text: &mut Vec<u8>, later: bool, one: &T) -> Result<(), AllocError>
    ensures added { OnOk result (text.new.items ≡ text.old.items ++ (comma_if later ++ compact_text (T.told one.now))) }
    ensures sound { OnOk result (T.is_sound one.now) }
{
    if later {
        add(text, b",")?;
    }
    one.add_to(text)
}

/// Adds all of a list, and the bracket that ends it.
pub fn add_list<T: Listed>(text: &mut Vec<u8>, list: &[T]) -> Result<(), AllocError>
    ensures added { OnOk result (text.new.items ≡ text.old.items ++ items_text false (items_of (map T.told list.now))) }
    ensures sound { OnOk result (All T.is_sound list.now) }
{
    let mut later = false;
    for one in list {
        add_one(text, later, one)?;
        later = true;
    }
    add(text, b"]")
}
