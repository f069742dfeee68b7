//! From objects to the lines of applications.

ghost use Rattle.std.specs.Prelude.{◌≡◌};
ghost use Rattle.ynl_fields.specs.Trees.{data_at};
ghost use Rattle.ynl_saved_text.specs.StateLines as spec;

use crate::faults::StateFault;
use ynl_fields::{
    Fields, keys_are, label_at, name_at, number_at, path_at, size_at, text_at, within_small,
};
use ynl_model::AskRow;
use ynl_resource::MOST_COUNT;
use ynl_saved::StateLine;

/// `live`: an application that is not finished, with its home label and the size of its master.
#[tactic(auto, unfolding(crate::specs::StateLines::live_at))]
pub fn live_at(object: &Fields<'_, '_>) -> Result<StateLine, StateFault>
    ensures { result ≡ spec.live_at (data_at object.now.stands) }
{
    keys_are(object, 7, StateFault::Field)?;
    let app = text_at(object, "app", StateFault::Field)?;
    let label = text_at(object, "label", StateFault::Field)?;
    let memory = number_at(object, "memory", StateFault::Field)?;
    let queue = text_at(object, "queue", StateFault::Field)?;
    let user = text_at(object, "user", StateFault::Field)?;
    let vcores = number_at(object, "vcores", StateFault::Field)?;
    live_of(app, label, memory, queue, user, vcores)
}

/// A live application, from what stands under its keys.
fn live_of(
    app: &str,
    label: &str,
    memory: u64,
    queue: &str,
    user: &str,
    vcores: u64,
) -> Result<StateLine, StateFault>
    ensures { result ≡ spec.live_of app.now label.now memory queue.now user.now vcores }
{
    let app = name_at(app, StateFault::Name)?;
    let label = label_at(label, StateFault::Name)?;
    let queue = path_at(queue, StateFault::Name)?;
    let user = name_at(user, StateFault::Name)?;
    let master = size_at(memory, vcores, StateFault::Range)?;
    Ok(StateLine::Live {
        queue,
        app,
        user,
        label,
        master,
    })
}

/// `ask`: what an application asks for.
#[tactic(auto, unfolding(crate::specs::StateLines::ask_at))]
pub fn ask_at(object: &Fields<'_, '_>) -> Result<StateLine, StateFault>
    ensures { result ≡ spec.ask_at (data_at object.now.stands) }
{
    keys_are(object, 8, StateFault::Field)?;
    let app = text_at(object, "app", StateFault::Field)?;
    let count = number_at(object, "count", StateFault::Field)?;
    let label = text_at(object, "label", StateFault::Field)?;
    let memory = number_at(object, "memory", StateFault::Field)?;
    let priority = number_at(object, "priority", StateFault::Field)?;
    let tenant = text_at(object, "tenant", StateFault::Field)?;
    let vcores = number_at(object, "vcores", StateFault::Field)?;
    ask_of(app, count, label, memory, priority, tenant, vcores)
}

/// An ask, from what stands under its keys.
fn ask_of(
    app: &str,
    count: u64,
    label: &str,
    memory: u64,
    priority: u64,
    tenant: &str,
    vcores: u64,
) -> Result<StateLine, StateFault>
    ensures { result ≡ spec.ask_of app.now count label.now memory priority tenant.now vcores }
{
    let app = name_at(app, StateFault::Name)?;
    let label = label_at(label, StateFault::Name)?;
    let tenant = name_at(tenant, StateFault::Name)?;
    let count = within_small(MOST_COUNT, count, StateFault::Range)?;
    let priority = within_small(u32::MAX, priority, StateFault::Range)?;
    let size = size_at(memory, vcores, StateFault::Range)?;
    Ok(StateLine::Ask {
        tenant,
        app,
        ask: AskRow {
            label,
            priority,
            count,
            size,
        },
    })
}

/// `finished`: an application that is finished.
#[tactic(auto, unfolding(crate::specs::StateLines::finished_at))]
pub fn finished_at(object: &Fields<'_, '_>) -> Result<StateLine, StateFault>
    ensures { result ≡ spec.finished_at (data_at object.now.stands) }
{
    keys_are(object, 3, StateFault::Field)?;
    let app = text_at(object, "app", StateFault::Field)?;
    let queue = text_at(object, "queue", StateFault::Field)?;
    let app = name_at(app, StateFault::Name)?;
    let queue = path_at(queue, StateFault::Name)?;
    Ok(StateLine::Finished { queue, app })
}
