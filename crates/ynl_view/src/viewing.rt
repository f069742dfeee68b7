//! The view of a list of events, and of one event after another.

ghost use Rattle.std.specs.Prelude.{◌≡◌, ◌<◌, length, IfOk, OnOk, OnErr, All};
ghost use Rattle.ynl_model.specs.View.{view, events_of, kept_if, places_of, seen_of, track_step};

use crate::sights::narrow;
use crate::track::Track;
use crate::views::View;
use std::alloc::Global;
use ynl_core::NoMemory;
use ynl_model::Event;
use ynl_queues::Config;
use ynl_resource::{Label, Name};

/// Makes of one more event, which `seen` holds, what the tenant's partition sees of it, by the track before it, and tells
/// whether it sees anything. The track is then the one after it, or as before where memory is refused.
pub fn see_into(
    config: &Config,
    tenant: &Name,
    label: &Label,
    track: &mut Track,
    event: &Event,
    seen: &mut Event,
) -> Result<bool, NoMemory>
    requires { seen.old ≡ event.now }
    ensures seen { IfOk result (λ sees. kept_if sees seen.new ≡ seen_of tenant.now label.now config.now track.old event.now) }
    ensures track { OnOk result (track.new ≡ track_step config.now track.old event.now) }
    ensures err { OnErr result (track.new ≡ track.old) }
{
    let sees = narrow(tenant, label, config, track, event, seen);
    track.step(config, event)?;
    Ok(sees)
}

/// What the tenant's partition sees of one more event, by the track before it. The track is then the
/// one after it, or as before where memory is refused.
pub fn see(
    config: &Config,
    tenant: &Name,
    label: &Label,
    track: &mut Track,
    event: &Event,
) -> Result<Option<Event>, NoMemory>
    ensures seen { IfOk result (λ seen. seen ≡ seen_of tenant.now label.now config.now track.old event.now) }
    ensures track { OnOk result (track.new ≡ track_step config.now track.old event.now) }
    ensures err { OnErr result (track.new ≡ track.old) }
{
    let mut seen = *event;
    if see_into(config, tenant, label, track, event, &mut seen)? {
        Ok(Some(seen))
    } else {
        Ok(None)
    }
}

/// What the tenant's partition sees of the events, in order and with their places.
pub fn view(
    alloc: Global,
    config: &Config,
    events: &[Event],
    tenant: &Name,
    label: &Label,
) -> Result<View, NoMemory>
    ensures events { IfOk result (λ seen. seen.events.items ≡ events_of (view config.now events.now tenant.now label.now)) }
    ensures places { IfOk result (λ seen. seen.places.items ≡ places_of (view config.now events.now tenant.now label.now)) }
    ensures within { IfOk result (λ seen. All (λ place. place < length events.now) seen.places.items) }
{
    let mut track = Track::new(alloc);
    let mut seen = Vec::new(alloc);
    let mut places = Vec::new(alloc);
    for (i, event) in events.iter().enumerate() {
        if let Some(event) = see(config, tenant, label, &mut track, event)? {
            seen.push(event)?;
            places.push(i as u64)?;
        }
    }
    Ok(View {
        events: seen,
        places,
    })
}
