//! From objects to the events of queues.

ghost use Rattle.std.specs.Prelude.{◌≡◌, OnOk};
ghost use Rattle.ynl_fields.specs.Trees.{data_at};
ghost use Rattle.ynl_lines.specs.Reading.{Gives, IsRanged};
ghost use Rattle.ynl_lines.specs.Reading as spec;

use crate::faults::LineFault;
use ynl_fields::{Fields, keys_are, label_at, number_at, path_at, share_at, text_at};
use ynl_model::Event;
use ynl_resource::Path;

/// The queue of an event that names nothing but a queue.
#[tactic(auto, unfolding(crate::specs::Reading::queue_at))]
fn queue_at(event: &Fields<'_, '_>) -> Result<Path, LineFault>
    ensures { result ≡ spec.queue_at (data_at event.now.stands) }
{
    keys_are(event, 2, LineFault::Field)?;
    let queue = text_at(event, "queue", LineFault::Field)?;
    path_at(queue, LineFault::Name)
}

/// `stop`: a queue is stopped.
#[tactic(auto, unfolding(crate::specs::Reading::stop_at))]
pub fn stop_at(event: &Fields<'_, '_>, into: &mut Event) -> Result<(), LineFault>
    ensures event { Gives (λ _. into.new) result (spec.stop_at (data_at event.now.stands)) }
    ensures ranged { OnOk result (IsRanged into.new) }
{
    let queue = queue_at(event)?;
    *into = Event::Stop { queue };
    Ok(())
}

/// `start`: a stopped queue takes applications again.
#[tactic(auto, unfolding(crate::specs::Reading::start_at))]
pub fn start_at(event: &Fields<'_, '_>, into: &mut Event) -> Result<(), LineFault>
    ensures event { Gives (λ _. into.new) result (spec.start_at (data_at event.now.stands)) }
    ensures ranged { OnOk result (IsRanged into.new) }
{
    let queue = queue_at(event)?;
    *into = Event::Start { queue };
    Ok(())
}

/// `usage`: what does a queue use?
#[tactic(auto, unfolding(crate::specs::Reading::usage_at))]
pub fn usage_at(event: &Fields<'_, '_>, into: &mut Event) -> Result<(), LineFault>
    ensures event { Gives (λ _. into.new) result (spec.usage_at (data_at event.now.stands)) }
    ensures ranged { OnOk result (IsRanged into.new) }
{
    keys_are(event, 3, LineFault::Field)?;
    let label = text_at(event, "label", LineFault::Field)?;
    let queue = text_at(event, "queue", LineFault::Field)?;
    let label = label_at(label, LineFault::Name)?;
    let queue = path_at(queue, LineFault::Name)?;
    *into = Event::Usage { queue, label };
    Ok(())
}

/// `maximum`: a queue's maximum is set, in hundredths of a percent.
#[tactic(auto, unfolding(crate::specs::Reading::maximum_at))]
pub fn maximum_at(event: &Fields<'_, '_>, into: &mut Event) -> Result<(), LineFault>
    ensures event { Gives (λ _. into.new) result (spec.maximum_at (data_at event.now.stands)) }
    ensures ranged { OnOk result (IsRanged into.new) }
{
    keys_are(event, 4, LineFault::Field)?;
    let label = text_at(event, "label", LineFault::Field)?;
    let maximum = number_at(event, "maximum", LineFault::Field)?;
    let queue = text_at(event, "queue", LineFault::Field)?;
    let label = label_at(label, LineFault::Name)?;
    let queue = path_at(queue, LineFault::Name)?;
    let maximum = share_at(maximum, LineFault::Range)?;
    *into = Event::Maximum {
        queue,
        label,
        maximum,
    };
    Ok(())
}
