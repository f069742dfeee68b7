//! A script with every kind of event, answered at the second try; and what a cluster is asked beside events.

use crate::values::{
    HEARTBEAT, NODE, POLL, configured, event_of, label, name, path, size, tell_refused,
};
use std::alloc::Global;
use std::process::Abort;
use ynl_core::{Core, NoMemory};
use ynl_model::{Event, Proposal, Reply};
use ynl_resource::Refusal;

const SUBMIT: &str =
    r#"{"app":"j1","event":"submit","label":"gpu","memory":1000,"queue":"root.eng","user":"ann","vcores":1}"#;

/// A node, an application that asks for two containers, what is held, and what would be placed next.
const FIRST: [&str; 6] = [
    NODE,
    SUBMIT,
    HEARTBEAT,
    r#"{"app":"j1","count":2,"event":"ask","label":"gpu","memory":1000,"priority":1,"tenant":"eng","vcores":1}"#,
    POLL,
    r#"{"event":"propose","node":"g1"}"#,
];

/// What an operator asks and sets of a queue; then a container that is given back, one that exited, a node that goes to
/// DEFAULT and is lost, and an application that finishes.
const LATER: [&str; 9] = [
    r#"{"event":"usage","label":"gpu","queue":"root.eng"}"#,
    r#"{"event":"stop","queue":"root.eng"}"#,
    r#"{"event":"start","queue":"root.eng"}"#,
    r#"{"event":"maximum","label":"gpu","maximum":10000,"queue":"root.eng"}"#,
    r#"{"event":"release","id":"gpu#3","tenant":"eng"}"#,
    r#"{"event":"exited","id":"gpu#2","node":"g1"}"#,
    r#"{"event":"relabel","label":"","node":"g1"}"#,
    r#"{"event":"lost","node":"g1"}"#,
    r#"{"app":"j1","event":"finish","tenant":"eng"}"#,
];

// Run with each allocation failing in turn: where memory is refused at the first try, which a line
// tells, the second gives the answer.
pub(crate) fn opened<R: Print + Abort>(rt: &R, alloc: Global) -> Core {
    match Core::open(alloc, configured(rt, alloc)) {
        Ok(core) => core,
        Err(NoMemory) => {
            tell_refused(rt);
            Core::open(alloc, configured(rt, alloc)).expect(rt, "memory")
        }
    }
}

pub(crate) fn answered<R: Print + Abort>(rt: &R, core: &mut Core, event: &Event) -> Reply {
    match core.apply(*event) {
        Ok(reply) => reply,
        Err(NoMemory) => {
            tell_refused(rt);
            core.apply(*event).expect(rt, "memory")
        }
    }
}

/// Gives the lines to a cluster, of which none is refused.
pub(crate) fn play<R: Print + Abort>(rt: &R, alloc: Global, core: &mut Core, lines: &[&str]) {
    for line in lines {
        let reply = answered(rt, core, &event_of(rt, alloc, line));
        assert!(rt; !matches!(&reply, Reply::Refused(_)));
    }
}

/// How many containers are on gpu.
fn count<R: Print + Abort>(rt: &R, alloc: Global, core: &Core) -> usize {
    let gpu = label(rt, "gpu");
    match core.containers(alloc, &gpu) {
        Ok(list) => list.len(),
        Err(NoMemory) => {
            tell_refused(rt);
            core.containers(alloc, &gpu).expect(rt, "memory").len()
        }
    }
}

/// Whether one container is held, and one ask.
fn holds_one_of_each(reply: &Reply) -> bool {
    match reply {
        Reply::Held { containers, asks } => {
            containers.as_slice().len() == 1 && asks.as_slice().len() == 1
        }
        _ => false,
    }
}

/// What would be placed next.
fn chosen<R: Abort>(rt: &R, core: &Core) -> Proposal {
    core.choose(&name(rt, "g1")).expect(rt, "a proposal")
}

#[test]
fn second_try_answers_each_kind(rt: HostRuntime) {
    let alloc = rt.alloc();
    let mut core = opened(&rt, alloc);
    play(&rt, alloc, &mut core, &FIRST);
    let polled = answered(&rt, &mut core, &event_of(&rt, alloc, POLL));
    let proposal = chosen(&rt, &core);
    let committed = answered(&rt, &mut core, &Event::Commit { proposal });
    assert!(rt; holds_one_of_each(&polled) && matches!(&committed, Reply::Committed(_)));
    assert!(rt; count(&rt, alloc, &core) == 2);
    play(&rt, alloc, &mut core, &LATER);
    assert!(rt; count(&rt, alloc, &core) == 0);
}

/// Whether one user may have the whole partition, and masters a tenth of it.
fn has_limits<R: Abort>(rt: &R, core: &Core) -> bool {
    let leaf = path(rt, "root.eng");
    let gpu = label(rt, "gpu");
    let user = core.user_limit(&leaf, &gpu, &size(rt, 1000, 1));
    let masters = core.master_limit(&leaf, &gpu);
    user.memory == 10000 && user.vcores == 10 && masters.memory == 1000 && masters.vcores == 1
}

/// What would be placed next may be placed, until the node has changed.
#[test]
fn tells_limits_and_checks_proposals(rt: HostRuntime) {
    let alloc = rt.alloc();
    let mut core = opened(&rt, alloc);
    play(&rt, alloc, &mut core, &[NODE, SUBMIT]);
    let proposal = chosen(&rt, &core);
    assert!(rt; has_limits(&rt, &core) && core.check(&proposal).is_ok());
    play(&rt, alloc, &mut core, &[HEARTBEAT]);
    assert!(rt; core.check(&proposal) == Err(Refusal::Stale));
}
