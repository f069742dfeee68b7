//! What is planned from a copy of a cluster is what the cluster would have chosen when it was copied.

use crate::cluster::answered;
use crate::values::{HEARTBEAT, SCRIPT, event_of, label, name, size, tell_refused};
use std::alloc::Global;
use std::process::Abort;
use ynl_config::read_config;
use ynl_core::{Core, NoMemory, Sighted};
use ynl_model::{Event, Proposal, Reply, What};
use ynl_resource::{Label, Name, Refusal};
use ynl_sights::plan;

/// Two labels, of which ssd may take guests, and leaves two and one below root.
const SHARED: &str = r#"version = 1
[[label]]
name = "gpu"
[[label]]
name = "ssd"
exclusive = false
[[queue]]
path = "root.eng"
capacity = 60
accessible-node-labels = "gpu"
[queue.label.gpu]
capacity = 100
[[queue]]
path = "root.eng.ml"
capacity = 50
[queue.label.gpu]
capacity = 70
[[queue]]
path = "root.eng.etl"
capacity = 50
[queue.label.gpu]
capacity = 30
maximum-capacity = 50
[[queue]]
path = "root.mkt"
capacity = 40
maximum-capacity = 50
accessible-node-labels = "ssd"
[queue.label.ssd]
capacity = 100
"#;

/// A leaf seven queues below root, whose masters may use all of DEFAULT.
const DEEP: &str = r#"version = 1
[[queue]]
path = "root.a"
capacity = 100
[[queue]]
path = "root.a.b"
capacity = 100
[[queue]]
path = "root.a.b.c"
capacity = 100
[[queue]]
path = "root.a.b.c.d"
capacity = 100
[[queue]]
path = "root.a.b.c.d.e"
capacity = 100
[[queue]]
path = "root.a.b.c.d.e.f"
capacity = 100
[[queue]]
path = "root.a.b.c.d.e.f.g"
capacity = 100
maximum-am-resource-percent = 100
"#;

/// An application on DEFAULT whose asks are guests of s1.
const GUESTS: [&str; 6] = [
    r#"{"event":"register","label":"","memory":10000,"node":"d1","vcores":10}"#,
    r#"{"event":"register","label":"ssd","memory":4000,"node":"s1","vcores":4}"#,
    r#"{"event":"register","label":"gpu","memory":10000,"node":"g1","vcores":10}"#,
    r#"{"app":"x1","event":"submit","label":"","memory":1000,"queue":"root.eng.ml","user":"ann","vcores":1}"#,
    r#"{"event":"heartbeat","node":"d1"}"#,
    r#"{"app":"x1","count":2,"event":"ask","label":"","memory":2000,"priority":1,"tenant":"eng","vcores":2}"#,
];

/// The proposal of a container that an application of eng asks for.
fn asked<R: Abort>(rt: &R, node: &str, stamp: u64, app: &str, label: Label) -> Proposal {
    Proposal {
        node: name(rt, node),
        stamp,
        tenant: name(rt, "eng"),
        app: name(rt, app),
        what: What::Ask(label, 1),
        size: size(rt, 2000, 2),
    }
}

fn opened<R: Abort>(rt: &R, alloc: Global, config: &str) -> Result<Core, NoMemory> {
    let read = read_config(alloc, config.as_bytes())?;
    Core::open(alloc, read.expect(rt, "a configuration"))
}

/// A cluster that was given the lines.
fn given<R: Print + Abort>(rt: &R, alloc: Global, config: &str, lines: &[&str]) -> Core {
    let mut core = match opened(rt, alloc, config) {
        Ok(core) => core,
        Err(NoMemory) => opened(rt, alloc, config).expect(rt, "memory"),
    };
    for line in lines {
        answered(rt, &mut core, &event_of(rt, alloc, line));
    }
    core
}

// Run with each allocation failing in turn: where memory is refused at the first try, which a line
// tells, the second copies.
fn seen<R: Print + Abort>(rt: &R, core: &Core, node: &Name) -> Sighted {
    match core.sight(node) {
        Ok(sighted) => sighted,
        Err(NoMemory) => {
            tell_refused(rt);
            core.sight(node).expect(rt, "memory")
        }
    }
}

/// The same, of a cluster that keeps its lists.
fn seen_again<R: Print + Abort>(rt: &R, core: &mut Core, node: &Name) -> Sighted {
    match core.see(node) {
        Ok(sighted) => sighted,
        Err(NoMemory) => {
            tell_refused(rt);
            core.see(node).expect(rt, "memory")
        }
    }
}

/// What is planned from what was seen; a refusal plans nothing.
fn planned(sighted: &Sighted) -> Option<Proposal> {
    match sighted {
        Sighted::Seen(sight) => plan(sight),
        Sighted::Refused(_) => None,
    }
}

/// The cluster goes on, the copy does not.
#[test]
fn a_copy_is_planned_from_at_the_second_try(rt: HostRuntime) {
    let alloc = rt.alloc();
    let mut core = given(&rt, alloc, SHARED, &SCRIPT);
    let sighted = seen(&rt, &core, &name(&rt, "g1"));
    answered(&rt, &mut core, &event_of(&rt, alloc, HEARTBEAT));
    let proposal = asked(&rt, "g1", 2, "j1", label(&rt, "gpu"));
    assert!(rt; planned(&sighted) == Some(proposal));
    let reply = answered(&rt, &mut core, &Event::Commit { proposal });
    assert!(rt; matches!(&reply, Reply::Refused(Refusal::Stale)));
}

#[test]
fn a_guest_is_planned_at_the_second_try(rt: HostRuntime) {
    let core = given(&rt, rt.alloc(), SHARED, &GUESTS);
    let sighted = seen(&rt, &core, &name(&rt, "s1"));
    let proposal = asked(&rt, "s1", 1, "x1", Label::Unlabelled);
    assert!(rt; planned(&sighted) == Some(proposal));
}

/// Gives the lines to a cluster, and answers whether what is planned for each node is what is chosen, after each line.
fn agrees<R: Print + Abort>(
    rt: &R,
    alloc: Global,
    config: &str,
    lines: &[&str],
    nodes: &[&str],
) -> bool {
    let mut core = given(rt, alloc, config, &[]);
    let mut as_chosen = true;
    for line in lines {
        answered(rt, &mut core, &event_of(rt, alloc, line));
        as_chosen = as_chosen && plans_as_it_chooses(rt, &mut core, nodes);
    }
    as_chosen
}

/// Whether what is planned for each node is what the cluster would choose there, with the lists that are kept and without.
fn plans_as_it_chooses<R: Print + Abort>(rt: &R, core: &mut Core, nodes: &[&str]) -> bool {
    let mut as_chosen = true;
    for node in nodes {
        let node = name(rt, node);
        let choice = core.choose(&node);
        as_chosen = as_chosen
            && planned(&seen(rt, core, &node)) == choice
            && planned(&seen_again(rt, core, &node)) == choice;
    }
    as_chosen
}

/// Leaves of two tenants on gpu and DEFAULT, users at their limits, masters over their share, maxima that are reached, guests,
/// and a leaf of which nothing is wanted.
const MORNING: [&str; 22] = [
    r#"{"event":"register","label":"gpu","memory":10000,"node":"g1","vcores":10}"#,
    r#"{"event":"register","label":"","memory":10000,"node":"d1","vcores":10}"#,
    r#"{"event":"register","label":"ssd","memory":4000,"node":"s1","vcores":4}"#,
    r#"{"app":"j1","event":"submit","label":"gpu","memory":700,"queue":"root.eng.ml","user":"ann","vcores":1}"#,
    r#"{"app":"j2","event":"submit","label":"gpu","memory":300,"queue":"root.eng.etl","user":"bob","vcores":1}"#,
    r#"{"app":"j3","event":"submit","label":"gpu","memory":200,"queue":"root.eng.etl","user":"ann","vcores":1}"#,
    r#"{"event":"heartbeat","node":"g1"}"#,
    r#"{"event":"heartbeat","node":"g1"}"#,
    r#"{"app":"j1","count":9,"event":"ask","label":"gpu","memory":900,"priority":2,"tenant":"eng","vcores":1}"#,
    r#"{"app":"j1","count":2,"event":"ask","label":"gpu","memory":800,"priority":1,"tenant":"eng","vcores":1}"#,
    r#"{"app":"j2","count":9,"event":"ask","label":"gpu","memory":700,"priority":1,"tenant":"eng","vcores":1}"#,
    r#"{"event":"heartbeat","node":"g1"}"#,
    r#"{"event":"heartbeat","node":"g1"}"#,
    r#"{"event":"heartbeat","node":"g1"}"#,
    r#"{"app":"x1","event":"submit","label":"","memory":1000,"queue":"root.eng.ml","user":"ann","vcores":1}"#,
    r#"{"app":"y1","event":"submit","label":"","memory":400,"queue":"root.mkt","user":"zoe","vcores":1}"#,
    r#"{"event":"heartbeat","node":"d1"}"#,
    r#"{"event":"heartbeat","node":"d1"}"#,
    r#"{"app":"x1","count":3,"event":"ask","label":"","memory":900,"priority":1,"tenant":"eng","vcores":1}"#,
    r#"{"app":"y1","count":3,"event":"ask","label":"","memory":900,"priority":1,"tenant":"mkt","vcores":1}"#,
    r#"{"app":"y1","count":1,"event":"ask","label":"ssd","memory":4000,"priority":3,"tenant":"mkt","vcores":4}"#,
    r#"{"event":"heartbeat","node":"s1"}"#,
];

/// What changes the lists of one leaf each.
const EVENING: [&str; 5] = [
    r#"{"event":"release","id":"gpu#7","tenant":"eng"}"#,
    r##"{"event":"exited","id":"#4","node":"d1"}"##,
    r#"{"app":"j2","event":"finish","tenant":"eng"}"#,
    r#"{"app":"j4","event":"submit","label":"gpu","memory":100,"queue":"root.eng.etl","user":"cat","vcores":1}"#,
    r#"{"app":"x1","count":1,"event":"ask","label":"","memory":100,"priority":1,"tenant":"eng","vcores":1}"#,
];

/// Names of 64 bytes.
const LONG: [&str; 5] = [
    r#"{"event":"register","label":"","memory":10000,"node":"d1","vcores":10}"#,
    r#"{"app":"b23456789012345678901234567890123456789012345678901234567890abcd","event":"submit","label":"","memory":1000,"queue":"root.a.b.c.d.e.f.g","user":"u23456789012345678901234567890123456789012345678901234567890abcd","vcores":1}"#,
    r#"{"app":"a23456789012345678901234567890123456789012345678901234567890abcd","event":"submit","label":"","memory":500,"queue":"root.a.b.c.d.e.f.g","user":"u23456789012345678901234567890123456789012345678901234567890abcd","vcores":1}"#,
    r#"{"event":"heartbeat","node":"d1"}"#,
    r#"{"app":"b23456789012345678901234567890123456789012345678901234567890abcd","count":2,"event":"ask","label":"","memory":2000,"priority":1,"tenant":"a","vcores":2}"#,
];

#[test]
fn plans_are_choices(rt: HostRuntime) {
    let alloc = rt.alloc();
    assert!(rt; agrees(&rt, alloc, SHARED, &MORNING, &["g1", "d1", "s1"]));
    assert!(rt; agrees(&rt, alloc, SHARED, &GUESTS, &["g1", "d1", "s1"]));
    assert!(rt; agrees(&rt, alloc, DEEP, &LONG, &["d1"]));
}

/// Each plan is committed, until nothing more is chosen, and then leaves change: what is kept of other leaves holds.
#[test]
fn kept_lists_hold(rt: HostRuntime) {
    let alloc = rt.alloc();
    let nodes = ["g1", "d1", "s1"];
    let mut core = given(&rt, alloc, SHARED, &MORNING);
    let mut last = 0;
    for turn in 0..20 {
        let node = name(&rt, nodes[turn % 3]);
        if let Some(proposal) = planned(&seen_again(&rt, &mut core, &node)) {
            let reply = answered(&rt, &mut core, &Event::Commit { proposal });
            assert!(rt; matches!(&reply, Reply::Committed(_)));
            last = turn;
        }
        assert!(rt; plans_as_it_chooses(&rt, &mut core, &nodes));
    }
    assert!(rt; last == 12);
    for line in EVENING {
        let reply = answered(&rt, &mut core, &event_of(&rt, alloc, line));
        assert!(rt; matches!(&reply, Reply::Done));
        assert!(rt; plans_as_it_chooses(&rt, &mut core, &nodes));
    }
}
