//! The evidence of a journal for a tenant.

ghost use Rattle.std.specs.Prelude.{◌≡◌, [], ◌++◌, IfOk, IsTrue, None, OnOk};
ghost use Rattle.ynl_model.specs.Accepted.{is_accepted};
ghost use Rattle.ynl_model.specs.View.{is_sole};
ghost use Rattle.ynl_journal.specs.Journal.{Agrees};
ghost use Rattle.ynl_view.specs.evidence.Evidence.{evidence_of, noted};
ghost use Rattle.ynl_view.specs.evidence.Flaws.{flaw_of};

use crate::{Track, copy_reply, see};
use std::alloc::{AllocError, Global};
use ynl_core::NoMemory;
use ynl_model::{Entry, Event, Reply};
use ynl_queues::Config;
use ynl_resource::{Label, Name};

fn copy_written(alloc: Global, reply: &Option<Reply>) -> Result<Option<Reply>, AllocError>
    ensures { IfOk result (λ copy. copy ≡ reply.now) }
{
    match reply {
        Some(reply) => Ok(Some(copy_reply(alloc, reply)?)),
        None => Ok(None),
    }
}

/// Adds what was seen of an entry with its place and a copy of its reply.
fn keep(
    alloc: Global,
    found: &mut Vec<(u64, Entry)>,
    place: u64,
    seen: &Option<Event>,
    reply: &Option<Reply>,
) -> Result<(), AllocError>
    ensures { OnOk result (found.new.items ≡ found.old.items ++ noted place seen.now reply.now) }
{
    let Some(event) = seen else {
        return Ok(());
    };
    let event = *event;
    let reply = copy_written(alloc, reply)?;
    found.push((place, Entry { event, reply }))?;
    Ok(())
}

/// Gathers the evidence where nothing was found before.
fn gather(
    alloc: Global,
    config: &Config,
    entries: &[Entry],
    tenant: &Name,
    label: &Label,
    found: &mut Vec<(u64, Entry)>,
) -> Result<(), NoMemory>
    requires { found.old.items ≡ [] }
    ensures { OnOk result (found.new.items ≡ evidence_of config.now entries.now tenant.now label.now) }
{
    let mut track = Track::new(alloc);
    for (i, entry) in entries.iter().enumerate() {
        let seen = see(config, tenant, label, &mut track, &entry.event)?;
        keep(alloc, found, i as u64, &seen, &entry.reply)?;
    }
    Ok(())
}

/// What the tenant's view keeps of the events of a journal, each with its place there and the reply that it
/// got. Nothing is replayed: whether the replies are right is for [`audit_evidence`](crate::evidence::audit_evidence),
/// which finds them so, under an accepted configuration, if the journal's are the cluster's.
pub fn evidence(
    alloc: Global,
    config: &Config,
    entries: &[Entry],
    tenant: &Name,
    label: &Label,
) -> Result<Vec<(u64, Entry)>, NoMemory>
    requires { IsTrue (is_sole config.now tenant.now label.now) }
    ensures found { IfOk result (λ found.
        found.items ≡ evidence_of config.now entries.now tenant.now label.now) }
    ensures passes { IfOk result (λ found. IsTrue (is_accepted config.now) → Agrees config.now entries.now
        → flaw_of config.now tenant.now label.now found.items ≡ None) }
{
    let mut found = Vec::new(alloc);
    gather(alloc, config, entries, tenant, label, &mut found)?;
    Ok(found)
}
