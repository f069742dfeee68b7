//! Evidence of a book, handed out and audited at the second try.

use crate::journals::{entered, entries_of, opened};
use crate::values::{HEARTBEAT, NODE, configured, event_of, label, name, tell_refused};
use std::alloc::Global;
use std::process::Abort;
use ynl_core::NoMemory;
use ynl_journal::Entry;
use ynl_view::evidence::{EvidenceFault, Flaw, audit_evidence, evidence};
use ynl_view::sole;

/// A node of the partition and one of DEFAULT, and a heartbeat of each.
const LINES: [&str; 4] = [
    NODE,
    r#"{"event":"register","label":"","memory":10000,"node":"d1","vcores":10}"#,
    r#"{"event":"heartbeat","node":"d1"}"#,
    HEARTBEAT,
];

/// The evidence of the configuration's tenant; where memory is refused, which a line tells, at the second try.
fn handed<R: Print + Abort>(rt: &R, alloc: Global, entries: &[Entry]) -> Vec<(u64, Entry)> {
    let (tenant, label) = (name(rt, "eng"), label(rt, "gpu"));
    let config = configured(rt, alloc);
    assert!(rt; sole(&config, &tenant, &label));
    match evidence(alloc, &config, entries, &tenant, &label) {
        Ok(found) => found,
        Err(NoMemory) => {
            tell_refused(rt);
            evidence(alloc, &config, entries, &tenant, &label).expect(rt, "memory")
        }
    }
}

fn audit_once<R: Abort>(
    rt: &R,
    alloc: Global,
    placed: &[(u64, Entry)],
) -> Result<(), EvidenceFault> {
    let (tenant, label) = (name(rt, "eng"), label(rt, "gpu"));
    let config = configured(rt, alloc);
    assert!(rt; sole(&config, &tenant, &label));
    audit_evidence(alloc, config, &tenant, &label, placed)
}

/// What its audit finds; where memory is refused, which a line tells, the second finds it.
fn audited<R: Print + Abort>(
    rt: &R,
    alloc: Global,
    placed: &[(u64, Entry)],
) -> Result<(), EvidenceFault> {
    match audit_once(rt, alloc, placed) {
        Err(EvidenceFault::NoMemory) => {
            tell_refused(rt);
            audit_once(rt, alloc, placed)
        }
        found => found,
    }
}

/// Whether evidence has the events on the node of the partition, with their places. Without the first the second is of
/// a node that is not there.
fn is_told<R: Print + Abort>(rt: &R, alloc: Global, placed: &[(u64, Entry)]) -> bool {
    match placed {
        [first, second] => {
            let are_placed = first.0 == 0 && second.0 == 3;
            let (_, later) = placed.split_at(1);
            let missing = Err(EvidenceFault::Flawed(1, Flaw::NotKept));
            are_placed && audited(rt, alloc, placed).is_ok() && audited(rt, alloc, later) == missing
        }
        _ => false,
    }
}

#[test]
fn checks_evidence_at_the_second_try(rt: HostRuntime) {
    let alloc = rt.alloc();
    let mut book = opened(&rt, alloc);
    for line in LINES {
        entered(&rt, &mut book, &event_of(&rt, alloc, line));
    }
    let entries = entries_of(&rt, alloc, &book);
    assert!(rt; is_told(&rt, alloc, &handed(&rt, alloc, &entries)));
}
