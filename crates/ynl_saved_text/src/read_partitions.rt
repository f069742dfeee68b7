//! From objects to the lines of partitions and nodes, and to the first and the last line.

ghost use Rattle.std.specs.Prelude.{◌≡◌};
ghost use Rattle.ynl_fields.specs.Reading.{Gives};
ghost use Rattle.ynl_fields.specs.Trees.{data_at};
ghost use Rattle.ynl_saved_text.specs.StateLines as spec;

use crate::faults::StateFault;
use ynl_fields::{Fields, keys_are, label_at, name_at, number_at, size_at, text_at, within};
use ynl_model::Node;
use ynl_resource::MOST_CLOCK;
use ynl_saved::StateLine;

/// The only version of the text.
const VERSION: u64 = 1;

/// Whether a number is the version.
#[tactic(auto, unfolding(crate::specs::StateLines::version_at))]
fn version_at(number: u64) -> Result<(), StateFault>
    ensures { Gives (λ _. tt) result (spec.version_at number) }
{
    if number == VERSION {
        Ok(())
    } else {
        Err(StateFault::Range)
    }
}

/// `begin`: the version.
#[tactic(auto, unfolding(crate::specs::StateLines::begin_at))]
pub fn begin_at(object: &Fields<'_, '_>) -> Result<StateLine, StateFault>
    ensures { result ≡ spec.begin_at (data_at object.now.stands) }
{
    keys_are(object, 2, StateFault::Field)?;
    let number = number_at(object, "version", StateFault::Field)?;
    version_at(number)?;
    Ok(StateLine::Begin)
}

/// `partition`: its clock.
#[tactic(auto, unfolding(crate::specs::StateLines::partition_at))]
pub fn partition_at(object: &Fields<'_, '_>) -> Result<StateLine, StateFault>
    ensures { result ≡ spec.partition_at (data_at object.now.stands) }
{
    keys_are(object, 3, StateFault::Field)?;
    let clock = number_at(object, "clock", StateFault::Field)?;
    let label = text_at(object, "label", StateFault::Field)?;
    let label = label_at(label, StateFault::Name)?;
    let clock = within(MOST_CLOCK, clock, StateFault::Range)?;
    Ok(StateLine::Partition { label, clock })
}

/// `node`: its partition, its size and its stamp.
#[tactic(auto, unfolding(crate::specs::StateLines::node_at))]
pub fn node_at(object: &Fields<'_, '_>) -> Result<StateLine, StateFault>
    ensures { result ≡ spec.node_at (data_at object.now.stands) }
{
    keys_are(object, 6, StateFault::Field)?;
    let label = text_at(object, "label", StateFault::Field)?;
    let memory = number_at(object, "memory", StateFault::Field)?;
    let node = text_at(object, "node", StateFault::Field)?;
    let stamp = number_at(object, "stamp", StateFault::Field)?;
    let vcores = number_at(object, "vcores", StateFault::Field)?;
    node_of(label, memory, node, stamp, vcores)
}

/// A node, from what stands under its keys.
fn node_of(
    label: &str,
    memory: u64,
    node: &str,
    stamp: u64,
    vcores: u64,
) -> Result<StateLine, StateFault>
    ensures { result ≡ spec.node_of label.now memory node.now stamp vcores }
{
    let label = label_at(label, StateFault::Name)?;
    let name = name_at(node, StateFault::Name)?;
    let stamp = within(MOST_CLOCK, stamp, StateFault::Range)?;
    let size = size_at(memory, vcores, StateFault::Range)?;
    Ok(StateLine::Node(Node {
        name,
        label,
        size,
        stamp,
    }))
}

/// `end`: how many lines stand before it.
#[tactic(auto, unfolding(crate::specs::StateLines::end_at))]
pub fn end_at(object: &Fields<'_, '_>) -> Result<StateLine, StateFault>
    ensures { result ≡ spec.end_at (data_at object.now.stands) }
{
    keys_are(object, 2, StateFault::Field)?;
    let lines = number_at(object, "lines", StateFault::Field)?;
    Ok(StateLine::End { lines })
}
