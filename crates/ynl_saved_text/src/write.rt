//! From lines to their texts, added piece by piece.

ghost use Rattle.std.specs.Prelude.{◌≡◌, ◌++◌, ◌+◌, ◌<◌, ◌≤◌, ◌^◌, OnOk, OnErr, length, vec_capacity, vec_len};
ghost use Rattle.serde_json.specs.Written.{compact_text};
ghost use Rattle.ynl_fields.specs.Sound.{IsLabel, IsName, IsPath};
ghost use Rattle.ynl_resource.specs.Amounts.{IsSize};
ghost use Rattle.ynl_resource.specs.Ranges.{whole};
ghost use Rattle.ynl_saved_text.specs.Sound.{IsLine};
ghost use Rattle.ynl_saved_text.specs.StateLines.{IsClocked};
ghost use Rattle.ynl_saved_text.specs.StateLines as spec;
ghost use Rattle.ynl_saved_text.specs.Texts.{Reads};

use crate::write_applications::{add_ask, add_finished, add_live};
use crate::write_containers::add_container;
use crate::write_parts::add_labelled;
use std::alloc::AllocError;
use ynl_fields::{add, add_label, add_name, add_number, add_path};
use ynl_model::Node;
use ynl_resource::{Hundredths, Label, Path};
use ynl_saved::StateLine;

#[tactic(auto, unfolding(json::specs::Print::escape_byte))]
fn add_begin(text: &mut Vec<u8>) -> Result<(), AllocError>
    ensures added { OnOk result (text.new.items ≡ text.old.items ++ compact_text spec.begin_data) }
    ensures capacity { vec_capacity text.old ≤ vec_capacity text.new }
    ensures full { OnErr result (vec_capacity text.old < vec_len text.old + length (compact_text spec.begin_data)) }
{
    add(text, b"{\"state\":\"begin\",\"version\":1}")
}

#[tactic(auto, unfolding(json::specs::Print::escape_byte))]
fn add_partition(text: &mut Vec<u8>, label: &Label, clock: u64) -> Result<(), AllocError>
    ensures added { OnOk result (text.new.items ≡ text.old.items ++ compact_text (spec.partition_data label.now clock)) }
    ensures capacity { vec_capacity text.old ≤ vec_capacity text.new }
    ensures full { OnErr result (vec_capacity text.old < vec_len text.old + length (compact_text (spec.partition_data label.now clock))) }
    ensures sound { OnOk result (IsLabel label.now) }
{
    add_number(text, b"{\"clock\":", clock)?;
    add_label(text, b",\"label\":\"", label)?;
    add(text, b"\",\"state\":\"partition\"}")
}

#[tactic(auto, unfolding(json::specs::Print::escape_byte))]
fn add_node(text: &mut Vec<u8>, node: &Node) -> Result<(), AllocError>
    ensures added { OnOk result (text.new.items ≡ text.old.items ++ compact_text (spec.node_data node.now)) }
    ensures capacity { vec_capacity text.old ≤ vec_capacity text.new }
    ensures full { OnErr result (vec_capacity text.old < vec_len text.old + length (compact_text (spec.node_data node.now))) }
    ensures sound { OnOk result (IsName node.now.name × IsLabel node.now.label × IsSize node.now.size) }
{
    let size = node.size.amount();
    add_labelled(text, b"{\"label\":\"", &node.label, size.memory)?;
    add_name(text, b",\"node\":\"", &node.name)?;
    add_number(text, b"\",\"stamp\":", node.stamp)?;
    add_number(text, b",\"state\":\"node\",\"vcores\":", size.vcores)?;
    add(text, b"}")
}

#[tactic(auto, unfolding(json::specs::Print::escape_byte))]
fn add_stopped(text: &mut Vec<u8>, queue: &Path) -> Result<(), AllocError>
    ensures added { OnOk result (text.new.items ≡ text.old.items ++ compact_text (spec.stopped_data queue.now)) }
    ensures capacity { vec_capacity text.old ≤ vec_capacity text.new }
    ensures full { OnErr result (vec_capacity text.old < vec_len text.old + length (compact_text (spec.stopped_data queue.now))) }
    ensures sound { OnOk result (IsPath queue.now) }
{
    add_path(text, b"{\"queue\":\"", queue)?;
    add(text, b"\",\"state\":\"stopped\"}")
}

#[tactic(auto, unfolding(json::specs::Print::escape_byte))]
fn add_maximum(
    text: &mut Vec<u8>,
    queue: &Path,
    label: &Label,
    maximum: &Hundredths,
) -> Result<(), AllocError>
    ensures added { OnOk result (text.new.items ≡ text.old.items ++ compact_text (spec.maximum_data queue.now label.now maximum.now)) }
    ensures capacity { vec_capacity text.old ≤ vec_capacity text.new }
    ensures full { OnErr result (vec_capacity text.old < vec_len text.old + length (compact_text (spec.maximum_data queue.now label.now maximum.now))) }
    ensures sound { OnOk result (IsPath queue.now × IsLabel label.now × (maximum.now ≤ whole)) }
{
    add_label(text, b"{\"label\":\"", label)?;
    add_number(text, b"\",\"maximum\":", maximum.number())?;
    add_path(text, b",\"queue\":\"", queue)?;
    add(text, b"\",\"state\":\"maximum\"}")
}

#[tactic(auto, unfolding(json::specs::Print::escape_byte))]
fn add_end(text: &mut Vec<u8>, lines: u64) -> Result<(), AllocError>
    ensures added { OnOk result (text.new.items ≡ text.old.items ++ compact_text (spec.end_data lines)) }
    ensures capacity { vec_capacity text.old ≤ vec_capacity text.new }
    ensures full { OnErr result (vec_capacity text.old < vec_len text.old + length (compact_text (spec.end_data lines))) }
    ensures sound { lines < 2 ^ 64 }
{
    add_number(text, b"{\"lines\":", lines)?;
    add(text, b",\"state\":\"end\"}")
}

/// Adds the text of a line.
fn add_line(text: &mut Vec<u8>, line: &StateLine) -> Result<(), AllocError>
    ensures added { OnOk result (text.new.items ≡ text.old.items ++ spec.state_line line.now) }
    ensures capacity { vec_capacity text.old ≤ vec_capacity text.new }
    ensures full { OnErr result (vec_capacity text.old < vec_len text.old + length (spec.state_line line.now)) }
    ensures sound { OnOk result (IsLine line.now) }
{
    match line {
        StateLine::Begin => add_begin(text),
        StateLine::Partition { label, clock } => add_partition(text, label, *clock),
        StateLine::Node(node) => add_node(text, node),
        StateLine::Live {
            queue,
            app,
            user,
            label,
            master,
        } => add_live(text, queue, app, user, label, master),
        StateLine::Ask { tenant, app, ask } => add_ask(text, tenant, app, ask),
        StateLine::Finished { queue, app } => add_finished(text, queue, app),
        StateLine::Container(placed) => add_container(text, placed),
        StateLine::Stopped { queue } => add_stopped(text, queue),
        StateLine::Maximum {
            queue,
            label,
            maximum,
        } => add_maximum(text, queue, label, maximum),
        StateLine::End { lines } => add_end(text, *lines),
    }
}

/// Adds the text of a line, without its newline, to what `text` holds. Where the clocks, the stamps and the counts of asks
/// that the line tells are in range, the text reads as the line behind each line that it may follow. Memory is asked for
/// only where `text` has no room for the line; where it is refused `text` may hold a front of it.
pub fn put_state_line(text: &mut Vec<u8>, line: &StateLine) -> Result<(), AllocError>
    ensures text { OnOk result (text.new.items ≡ text.old.items ++ spec.state_line line.now) }
    ensures capacity { vec_capacity text.old ≤ vec_capacity text.new }
    ensures full { OnErr result (vec_capacity text.old < vec_len text.old + length (spec.state_line line.now)) }
    ensures reads { OnOk result (IsClocked line.now → Reads line.now) }
{
    add_line(text, line)
}
