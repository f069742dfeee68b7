//! The audit of evidence, one entry after another.

ghost use Rattle.std.specs.Prelude.{◌≡◌, [], IfOk, OnOk};
ghost use Rattle.ynl_model.specs.View.{track_step};
ghost use Rattle.ynl_view.specs.evidence.Kept.{is_kept, is_relabel};
ghost use Rattle.ynl_view.specs.evidence.Trials.{IsTrialOf, TakesNext, is_behind};

use crate::evidence::flaws::Flaw;
use crate::{Track, restrict, see};
use std::alloc::Global;
use ynl_core::{Core, NoMemory};
use ynl_journal::fits;
use ynl_model::{Entry, Event};
use ynl_queues::Config;
use ynl_resource::{Label, Name};

/// How far an audit of evidence has come: the tenant's own cluster and the track after some entries, and the
/// place of the last of them. The entries are not kept.
#[derive(Drop)]
pub struct Trial {
    core: Core,
    track: Track,
    last: Option<u64>,
}

fn is_behind(last: Option<u64>, place: u64) -> bool
    ensures { result ≡ is_behind last place }
{
    match last {
        Some(last) => last < place,
        None => true,
    }
}

fn is_relabel(event: &Event) -> bool
    ensures { result ≡ is_relabel event.now }
{
    matches!(event, Event::Relabel { .. })
}

/// Whether the view keeps the next event as it is. The track is then the one after it.
fn keeps(
    config: &Config,
    tenant: &Name,
    label: &Label,
    track: &mut Track,
    event: &Event,
) -> Result<bool, NoMemory>
    ensures kept { IfOk result (λ kept. kept ≡ is_kept config.now tenant.now label.now track.old event.now) }
    ensures track { OnOk result (track.new ≡ track_step config.now track.old event.now) }
{
    match see(config, tenant, label, track, event) {
        Ok(Some(_)) => Ok(!is_relabel(event)),
        Ok(None) => Ok(false),
        Err(refused) => Err(refused),
    }
}

impl Trial {
    /// Before the first entry.
    pub fn open(alloc: Global, config: &Config, tenant: &Name) -> Result<Trial, NoMemory>
        ensures { IfOk result (λ trial. IsTrialOf config.now tenant.now [] trial) }
    {
        let alone = restrict(alloc, config, tenant)?;
        match Core::open(alloc, alone) {
            Ok(core) => Ok(Trial {
                core,
                track: Track::new(alloc),
                last: None,
            }),
            Err(refused) => Err(refused),
        }
    }

    /// Takes the next entry, or gives its flaw, with which the audit ends.
    pub fn take(
        &mut self,
        config: &Config,
        tenant: &Name,
        label: &Label,
        place: u64,
        entry: &Entry,
    ) -> Result<Option<Flaw>, NoMemory>
        ensures { TakesNext config.now tenant.now label.now self.old (place, entry.now) self.new result }
    {
        if !is_behind(self.last, place) {
            return Ok(Some(Flaw::NotKept));
        }
        if !keeps(config, tenant, label, &mut self.track, &entry.event)? {
            return Ok(Some(Flaw::NotKept));
        }
        let reply = self.core.answer(&entry.event)?;
        if !fits(entry, &reply) {
            return Ok(Some(Flaw::Differs));
        }
        self.last = Some(place);
        Ok(None)
    }
}
