//! From objects to the lines of queues.

ghost use Rattle.std.specs.Prelude.{◌≡◌};
ghost use Rattle.ynl_fields.specs.Trees.{data_at};
ghost use Rattle.ynl_saved_text.specs.StateLines as spec;

use crate::faults::StateFault;
use ynl_fields::{Fields, keys_are, label_at, number_at, path_at, share_at, text_at};
use ynl_saved::StateLine;

/// `stopped`: a queue that is stopped.
#[tactic(auto, unfolding(crate::specs::StateLines::stopped_at))]
pub fn stopped_at(object: &Fields<'_, '_>) -> Result<StateLine, StateFault>
    ensures { result ≡ spec.stopped_at (data_at object.now.stands) }
{
    keys_are(object, 2, StateFault::Field)?;
    let queue = text_at(object, "queue", StateFault::Field)?;
    let queue = path_at(queue, StateFault::Name)?;
    Ok(StateLine::Stopped { queue })
}

/// `maximum`: a maximum that is not the configured one, in hundredths of a percent.
#[tactic(auto, unfolding(crate::specs::StateLines::maximum_at))]
pub fn maximum_at(object: &Fields<'_, '_>) -> Result<StateLine, StateFault>
    ensures { result ≡ spec.maximum_at (data_at object.now.stands) }
{
    keys_are(object, 4, StateFault::Field)?;
    let label = text_at(object, "label", StateFault::Field)?;
    let maximum = number_at(object, "maximum", StateFault::Field)?;
    let queue = text_at(object, "queue", StateFault::Field)?;
    let label = label_at(label, StateFault::Name)?;
    let queue = path_at(queue, StateFault::Name)?;
    let maximum = share_at(maximum, StateFault::Range)?;
    Ok(StateLine::Maximum {
        queue,
        label,
        maximum,
    })
}
