//! The texts of the lines of applications, added piece by piece.

ghost use Rattle.std.specs.Prelude.{◌≡◌, ◌++◌, ◌+◌, ◌<◌, ◌≤◌, OnOk, OnErr, length, vec_capacity, vec_len};
ghost use Rattle.serde_json.specs.Written.{compact_text};
ghost use Rattle.ynl_fields.specs.Sound.{IsLabel, IsName, IsPath};
ghost use Rattle.ynl_resource.specs.Amounts.{IsSize};
ghost use Rattle.ynl_resource.specs.Ranges.{most_priority};
ghost use Rattle.ynl_saved_text.specs.StateLines as spec;

use crate::write_parts::{add_labelled, add_owned};
use std::alloc::AllocError;
use ynl_fields::{add, add_name, add_number, add_path};
use ynl_model::AskRow;
use ynl_resource::{Label, Name, Path, Size};

#[tactic(auto, unfolding(json::specs::Print::escape_byte))]
pub fn add_live(
    text: &mut Vec<u8>,
    queue: &Path,
    app: &Name,
    user: &Name,
    label: &Label,
    master: &Size,
) -> Result<(), AllocError>
    ensures added { OnOk result (text.new.items ≡ text.old.items ++ compact_text (spec.live_data queue.now app.now user.now label.now master.now)) }
    ensures capacity { vec_capacity text.old ≤ vec_capacity text.new }
    ensures full { OnErr result (vec_capacity text.old < vec_len text.old + length (compact_text (spec.live_data queue.now app.now user.now label.now master.now))) }
    ensures sound { OnOk result (IsPath queue.now × IsName app.now × IsName user.now × IsLabel label.now × IsSize master.now) }
{
    let size = master.amount();
    add_name(text, b"{\"app\":\"", app)?;
    add_labelled(text, b"\",\"label\":\"", label, size.memory)?;
    add_path(text, b",\"queue\":\"", queue)?;
    add_owned(
        text,
        b"\",\"state\":\"live\",\"user\":\"",
        user,
        size.vcores,
        b"}",
    )
}

#[tactic(auto, unfolding(json::specs::Print::escape_byte))]
pub fn add_ask(
    text: &mut Vec<u8>,
    tenant: &Name,
    app: &Name,
    ask: &AskRow,
) -> Result<(), AllocError>
    ensures added { OnOk result (text.new.items ≡ text.old.items ++ compact_text (spec.ask_data tenant.now app.now ask.now)) }
    ensures capacity { vec_capacity text.old ≤ vec_capacity text.new }
    ensures full { OnErr result (vec_capacity text.old < vec_len text.old + length (compact_text (spec.ask_data tenant.now app.now ask.now))) }
    ensures sound { OnOk result (IsName tenant.now × IsName app.now × IsLabel ask.now.label × IsSize ask.now.size × (ask.now.priority ≤ most_priority)) }
{
    let size = ask.size.amount();
    add_name(text, b"{\"app\":\"", app)?;
    add_number(text, b"\",\"count\":", u64::from(ask.count))?;
    add_labelled(text, b",\"label\":\"", &ask.label, size.memory)?;
    add_number(text, b",\"priority\":", u64::from(ask.priority))?;
    add_owned(
        text,
        b",\"state\":\"ask\",\"tenant\":\"",
        tenant,
        size.vcores,
        b"}",
    )
}

#[tactic(auto, unfolding(json::specs::Print::escape_byte))]
pub fn add_finished(text: &mut Vec<u8>, queue: &Path, app: &Name) -> Result<(), AllocError>
    ensures added { OnOk result (text.new.items ≡ text.old.items ++ compact_text (spec.finished_data queue.now app.now)) }
    ensures capacity { vec_capacity text.old ≤ vec_capacity text.new }
    ensures full { OnErr result (vec_capacity text.old < vec_len text.old + length (compact_text (spec.finished_data queue.now app.now))) }
    ensures sound { OnOk result (IsPath queue.now × IsName app.now) }
{
    add_name(text, b"{\"app\":\"", app)?;
    add_path(text, b"\",\"queue\":\"", queue)?;
    add(text, b"\",\"state\":\"finished\"}")
}
