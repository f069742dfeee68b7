//! Sessions whose workers are halted, are more than there are nodes, or have more than a batch of them.

ghost use Rattle.std.specs.Prelude.{◌<◌};

use crate::events::worked;
use crate::values::{ASK, NODE, SUBMIT, event_of, name, numbered};
use crate::workers::{HaltsAt, open};
use std::alloc::Global;
use std::process::Abort;
use std::sync::Wait;
use std::thread::Threads;
use ynl_journal::Start;
use ynl_model::{Entry, Event};
use ynl_packed::Events;
use ynl_workers::Gate;
use ynl_workers::session::run_session;

/// Two nodes, and an application that waits for its master and asks for two containers.
const LINES: [&str; 4] = [
    r#"{"event":"register","label":"gpu","memory":10000,"node":"g2","vcores":10}"#,
    NODE,
    SUBMIT,
    ASK,
];

/// A node of DEFAULT.
const MORE: &str = r#"{"event":"register","label":"","memory":10000,"node":"g1x%","vcores":10}"#;

/// The lines, and so many nodes of DEFAULT more, by name between the two.
fn events_with<R: Abort>(rt: &R, alloc: Global, nodes: u64) -> Events {
    let mut events = Events::new(alloc);
    for line in LINES {
        events.push(&event_of(rt, alloc, line)).expect(rt, "memory");
    }
    for number in 0..nodes {
        let event = numbered(rt, alloc, MORE, number);
        events.push(&event).expect(rt, "memory");
    }
    events
}

/// The closed journal of the script, with so many nodes more, and so many rounds.
fn played<R: Threads + Wait + Abort + Sync, G: Gate + Sync>(
    rt: &R,
    alloc: Global,
    nodes: u64,
    workers: usize,
    rounds: u64,
    gate: &G,
) -> Vec<Entry>
    requires { 0 < workers }
{
    let events = events_with(rt, alloc, nodes);
    let start = Start::opened(alloc, worked(rt, alloc).expect(rt, "memory"));
    let ran = run_session(rt, alloc, start, &events, workers, rounds, gate);
    ran.expect(rt, "a journal").to_vec().expect(rt, "memory")
}

/// How often a node is asked about.
fn times_asked<R: Abort>(rt: &R, entries: &[Entry], node: &str) -> usize {
    let node = name(rt, node);
    let event = Event::Propose { node };
    entries.iter().filter(|entry| entry.event == event).count()
}

fn commits(entries: &[Entry]) -> usize {
    entries
        .iter()
        .filter(|entry| matches!(entry.event, Event::Commit { .. }))
        .count()
}

/// Each round begins anew with the first node, where the worker is halted.
#[test]
fn session_that_is_halted_commits_nothing(rt: HostRuntime) {
    let entries = played(&rt, rt.alloc(), 0, 1, 2, &HaltsAt::turn(0));
    assert!(rt; commits(&entries) == 0 && entries.len() == 6);
    assert!(rt; times_asked(&rt, &entries, "g1") == 2);
}

/// The first two workers have a turn each, of which the gate was asked and told.
#[test]
fn workers_may_be_more_than_nodes(rt: HostRuntime) {
    let gate = open();
    let entries = played(&rt, rt.alloc(), 0, 5, 1, &gate);
    assert!(rt; gate.noted() == (101, 101));
    assert!(rt; times_asked(&rt, &entries, "g1") == 1 && times_asked(&rt, &entries, "g2") == 1);
    assert!(rt; entries.len().saturating_sub(commits(&entries)) == 6);
}

/// A worker goes over 256 nodes in a batch. Turns are counted through the round, and where the worker is halted in its first
/// batch it gets no node of the second.
#[test]
fn batches_are_one_round(rt: HostRuntime) {
    let halted = played(&rt, rt.alloc(), 256, 1, 1, &HaltsAt::turn(0));
    assert!(rt; commits(&halted) == 0 && times_asked(&rt, &halted, "g2") == 0);
    let later = played(&rt, rt.alloc(), 256, 1, 1, &HaltsAt::turn(257));
    assert!(rt; commits(&later) == 1 && times_asked(&rt, &later, "g2") == 1);
}
