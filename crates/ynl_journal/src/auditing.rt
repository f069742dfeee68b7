//! The audit of a journal.

ghost use Rattle.std.specs.Prelude.{◌≡◌, ◌↔◌, IsTrue, OnOk, IfErr};
ghost use Rattle.ynl_journal.specs.Journal.{AgreesFrom, FitsReply, replayed_from};
ghost use Rattle.ynl_journal.specs.Audits.{GivesUp, IsFault};
ghost use Rattle.ynl_journal.specs.Same.{fits_reply};

use crate::comparing::is_same_reply;
use thiserror::Error;
use ynl_core::Core;
use ynl_model::{Entry, Reply};

/// Why an audit does not pass.
#[derive(Clone, Copy, Debug, PartialEq, Eq, Error)]
pub enum AuditFault {
    /// The entry of this number, counted from 1, is the first whose reply is not the cluster's.
    #[error("entry {0} has another reply")]
    Differs(u64),
    /// Memory was refused before the end was reached.
    #[error("out of memory")]
    NoMemory,
}

/// Whether this is the reply that the entry has. An entry without a reply fits any.
pub fn fits(entry: &Entry, reply: &Reply) -> bool
    ensures fits { IsTrue result ↔ FitsReply entry.now reply.now }
    ensures test { result ≡ fits_reply entry.now reply.now }
{
    match &entry.reply {
        Some(given) => is_same_reply(given, reply),
        None => true,
    }
}

/// Applies the events in order to the cluster, and compares each reply that is there. An entry without a
/// reply is applied all the same. At the end the cluster is the one that the entries lead to.
pub fn audit(core: &mut Core, entries: &[Entry]) -> Result<(), AuditFault>
    ensures ok { OnOk result (AgreesFrom core.old.config core.old.state entries.now) }
    ensures core { OnOk result (core.new ≡ replayed_from core.old.config core.old.state entries.now) }
    ensures err { IfErr result (IsFault core.old entries.now) }
    ensures memory { IfErr result (GivesUp core.old entries.now core.new) }
{
    for (i, entry) in entries.iter().enumerate() {
        let Ok(reply) = core.answer(&entry.event) else {
            return Err(AuditFault::NoMemory);
        };
        if !fits(entry, &reply) {
            return Err(AuditFault::Differs(i as u64 + 1));
        }
    }
    Ok(())
}
