//! From objects to the events of applications.

ghost use Rattle.std.specs.Prelude.{◌≡◌, option_map, OnOk, Some};
ghost use Rattle.serde_json.specs.Find.{as_str};
ghost use Rattle.ynl_fields.specs.Trees.{data_at};
ghost use Rattle.ynl_lines.specs.declared.faults.LineFault.TheVariants as fault;
ghost use Rattle.ynl_lines.specs.Reading.{or_fault, Gives, IsRanged};
ghost use Rattle.ynl_lines.specs.Reading as spec;

use crate::faults::LineFault;
use ynl_fields::{
    Fields, id_at, keys_are, label_at, name_at, number_at, path_at, size_at, text_at, within_small,
};
use ynl_model::Event;
use ynl_resource::{Label, MOST_COUNT};

/// The text of a submit's label, from what stands under its key.
fn label_text_of<'v>(label: &Fields<'v, '_>) -> Result<Option<&'v str>, LineFault>
    ensures { Gives (λ o. option_map (λ s. s.now) o) result (or_fault fault.Field (option_map Some (as_str (data_at label.now.stands)))) }
{
    match label.as_str() {
        Some(text) => Ok(Some(text)),
        None => Err(LineFault::Field),
    }
}

/// The text of a submit's label, which may be absent.
#[tactic(auto, unfolding(crate::specs::Reading::label_text_at))]
fn label_text_at<'v>(event: &Fields<'v, '_>) -> Result<Option<&'v str>, LineFault>
    ensures { Gives (λ o. option_map (λ s. s.now) o) result (spec.label_text_at (data_at event.now.stands)) }
{
    match event.get("label") {
        None => {
            keys_are(event, 6, LineFault::Field)?;
            Ok(None)
        }
        Some(label) => {
            keys_are(event, 7, LineFault::Field)?;
            label_text_of(&label)
        }
    }
}

#[tactic(auto, unfolding(crate::specs::Reading::optional_label_at))]
fn optional_label_at(text: Option<&str>) -> Result<Option<Label>, LineFault>
    ensures { result ≡ spec.optional_label_at (option_map (λ s. s.now) text.entry) }
{
    match text {
        None => Ok(None),
        Some(text) => {
            let label = label_at(text, LineFault::Name)?;
            Ok(Some(label))
        }
    }
}

/// `submit`: an application comes to a leaf.
#[tactic(auto, unfolding(crate::specs::Reading::submit_at))]
pub fn submit_at(event: &Fields<'_, '_>, into: &mut Event) -> Result<(), LineFault>
    ensures event { Gives (λ _. into.new) result (spec.submit_at (data_at event.now.stands)) }
    ensures ranged { OnOk result (IsRanged into.new) }
{
    let label = label_text_at(event)?;
    let app = text_at(event, "app", LineFault::Field)?;
    let memory = number_at(event, "memory", LineFault::Field)?;
    let queue = text_at(event, "queue", LineFault::Field)?;
    let user = text_at(event, "user", LineFault::Field)?;
    let vcores = number_at(event, "vcores", LineFault::Field)?;
    submit_of(app, label, memory, queue, user, vcores, into)
}

/// A submit, from what stands under its keys.
fn submit_of(
    app: &str,
    label: Option<&str>,
    memory: u64,
    queue: &str,
    user: &str,
    vcores: u64,
    into: &mut Event,
) -> Result<(), LineFault>
    ensures event { Gives (λ _. into.new) result (spec.submit_of app.now (option_map (λ s. s.now) label.entry) memory queue.now user.now vcores) }
    ensures ranged { OnOk result (IsRanged into.new) }
{
    let app = name_at(app, LineFault::Name)?;
    let label = optional_label_at(label)?;
    let queue = path_at(queue, LineFault::Name)?;
    let user = name_at(user, LineFault::Name)?;
    let master = size_at(memory, vcores, LineFault::Range)?;
    *into = Event::Submit {
        queue,
        app,
        user,
        label,
        master,
    };
    Ok(())
}

/// `ask`: an application asks for containers.
#[tactic(auto, unfolding(crate::specs::Reading::ask_at))]
pub fn ask_at(event: &Fields<'_, '_>, into: &mut Event) -> Result<(), LineFault>
    ensures event { Gives (λ _. into.new) result (spec.ask_at (data_at event.now.stands)) }
    ensures ranged { OnOk result (IsRanged into.new) }
{
    keys_are(event, 8, LineFault::Field)?;
    let app = text_at(event, "app", LineFault::Field)?;
    let count = number_at(event, "count", LineFault::Field)?;
    let label = text_at(event, "label", LineFault::Field)?;
    let memory = number_at(event, "memory", LineFault::Field)?;
    let priority = number_at(event, "priority", LineFault::Field)?;
    let tenant = text_at(event, "tenant", LineFault::Field)?;
    let vcores = number_at(event, "vcores", LineFault::Field)?;
    ask_of(app, count, label, memory, priority, tenant, vcores, into)
}

/// An ask, from what stands under its keys.
fn ask_of(
    app: &str,
    count: u64,
    label: &str,
    memory: u64,
    priority: u64,
    tenant: &str,
    vcores: u64,
    into: &mut Event,
) -> Result<(), LineFault>
    ensures event { Gives (λ _. into.new) result (spec.ask_of app.now count label.now memory priority tenant.now vcores) }
    ensures ranged { OnOk result (IsRanged into.new) }
{
    let app = name_at(app, LineFault::Name)?;
    let label = label_at(label, LineFault::Name)?;
    let tenant = name_at(tenant, LineFault::Name)?;
    let count = within_small(MOST_COUNT, count, LineFault::Range)?;
    let priority = within_small(u32::MAX, priority, LineFault::Range)?;
    let size = size_at(memory, vcores, LineFault::Range)?;
    *into = Event::Ask {
        tenant,
        app,
        label,
        priority,
        count,
        size,
    };
    Ok(())
}

/// `release`: a container is given back.
#[tactic(auto, unfolding(crate::specs::Reading::release_at))]
pub fn release_at(event: &Fields<'_, '_>, into: &mut Event) -> Result<(), LineFault>
    ensures event { Gives (λ _. into.new) result (spec.release_at (data_at event.now.stands)) }
    ensures ranged { OnOk result (IsRanged into.new) }
{
    keys_are(event, 3, LineFault::Field)?;
    let id = text_at(event, "id", LineFault::Field)?;
    let tenant = text_at(event, "tenant", LineFault::Field)?;
    let id = id_at(id, LineFault::Name)?;
    let tenant = name_at(tenant, LineFault::Name)?;
    *into = Event::Release { tenant, id };
    Ok(())
}

/// `finish`: an application is finished.
#[tactic(auto, unfolding(crate::specs::Reading::finish_at))]
pub fn finish_at(event: &Fields<'_, '_>, into: &mut Event) -> Result<(), LineFault>
    ensures event { Gives (λ _. into.new) result (spec.finish_at (data_at event.now.stands)) }
    ensures ranged { OnOk result (IsRanged into.new) }
{
    keys_are(event, 3, LineFault::Field)?;
    let app = text_at(event, "app", LineFault::Field)?;
    let tenant = text_at(event, "tenant", LineFault::Field)?;
    let app = name_at(app, LineFault::Name)?;
    let tenant = name_at(tenant, LineFault::Name)?;
    *into = Event::Finish { tenant, app };
    Ok(())
}

/// `poll`: what does an application hold?
#[tactic(auto, unfolding(crate::specs::Reading::poll_at))]
pub fn poll_at(event: &Fields<'_, '_>, into: &mut Event) -> Result<(), LineFault>
    ensures event { Gives (λ _. into.new) result (spec.poll_at (data_at event.now.stands)) }
    ensures ranged { OnOk result (IsRanged into.new) }
{
    keys_are(event, 4, LineFault::Field)?;
    let app = text_at(event, "app", LineFault::Field)?;
    let label = text_at(event, "label", LineFault::Field)?;
    let tenant = text_at(event, "tenant", LineFault::Field)?;
    let app = name_at(app, LineFault::Name)?;
    let label = label_at(label, LineFault::Name)?;
    let tenant = name_at(tenant, LineFault::Name)?;
    *into = Event::Poll { tenant, app, label };
    Ok(())
}
