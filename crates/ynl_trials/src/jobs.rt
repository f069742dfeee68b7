//! Jobs whose reader fails once, and that have as many workers as asked.

use crate::cluster::opened;
use crate::streams::{FailsOnce, Sink};
use crate::values::configured;
use crate::workers::open;
use std::alloc::Global;
use std::process::Abort;
use ynl_journal::Start;
use ynl_tool::{ToolFault, live_lines, run_lines};

/// The fault that ended a job, if one did.
type Ended = Option<ToolFault>;

/// An event of each kind, of which none is refused.
const ALL_KINDS: &[u8] =
    b"{\"event\":\"register\",\"label\":\"gpu\",\"memory\":10000,\"node\":\"g1\",\"vcores\":10}\n{\"app\":\"j1\",\"event\":\"submit\",\"label\":\"gpu\",\"memory\":1000,\"queue\":\"root.eng\",\"user\":\"ann\",\"vcores\":1}\n{\"event\":\"heartbeat\",\"node\":\"g1\"}\n{\"app\":\"j1\",\"count\":2,\"event\":\"ask\",\"label\":\"gpu\",\"memory\":1000,\"priority\":1,\"tenant\":\"eng\",\"vcores\":1}\n{\"event\":\"propose\",\"node\":\"g1\"}\n{\"event\":\"commit\",\"proposal\":{\"app\":\"j1\",\"label\":\"gpu\",\"memory\":1000,\"node\":\"g1\",\"priority\":1,\"stamp\":2,\"tenant\":\"eng\",\"vcores\":1,\"what\":\"ask\"}}\n{\"event\":\"heartbeat\",\"node\":\"g1\"}\n{\"app\":\"j1\",\"event\":\"poll\",\"label\":\"gpu\",\"tenant\":\"eng\"}\n{\"event\":\"usage\",\"label\":\"gpu\",\"queue\":\"root.eng\"}\n{\"event\":\"release\",\"id\":\"gpu#3\",\"tenant\":\"eng\"}\n{\"event\":\"exited\",\"id\":\"gpu#4\",\"node\":\"g1\"}\n{\"event\":\"maximum\",\"label\":\"gpu\",\"maximum\":10000,\"queue\":\"root.eng\"}\n{\"event\":\"stop\",\"queue\":\"root.eng\"}\n{\"event\":\"start\",\"queue\":\"root.eng\"}\n{\"app\":\"j1\",\"event\":\"finish\",\"tenant\":\"eng\"}\n{\"event\":\"relabel\",\"label\":\"\",\"node\":\"g1\"}\n{\"event\":\"lost\",\"node\":\"g1\"}\n";

/// Runs the events by a reader that fails at that look.
fn run_once<R: Print + Abort>(rt: &R, alloc: Global, looks: u64, writer: &mut Sink) -> Ended {
    let mut reader = FailsOnce {
        left: ALL_KINDS,
        looks,
    };
    run_lines(alloc, opened(rt, alloc), &mut reader, writer).err()
}

fn lines(text: &[u8]) -> usize {
    text.iter().filter(|byte| **byte == b'\n').count()
}

/// Whether a reader that fails at that look ends the run there, behind one write of the replies to the lines before it.
fn ends_at<R: Print + Abort>(rt: &R, alloc: Global, looks: usize, replies: &[u8]) -> bool {
    let mut writer = Sink::new(Vec::new(alloc));
    let ended = run_once(rt, alloc, looks as u64, &mut writer);
    let is_front = replies.starts_with(&writer.taken) && lines(&writer.taken) == looks;
    ended == Some(ToolFault::Read) && is_front && writer.calls == u64::from(looks > 0)
}

// Each look takes a line, the last one the end. That an error ends the run no contract says, since none names
// what a reader fails with: also an error that is met while replies are held back. Nor does one say that lines which
// come together cost one write.
#[test]
fn ends_where_a_reader_fails_once(rt: HostRuntime) {
    let alloc = rt.alloc();
    let mut replies = Sink::new(Vec::new(alloc));
    assert!(rt; run_once(&rt, alloc, u64::MAX, &mut replies).is_none());
    for looks in 0..=lines(ALL_KINDS) {
        assert!(rt; ends_at(&rt, alloc, looks, &replies.taken), "{looks}");
    }
}

/// Two nodes, and a master for each of them.
const TWO_NODES: &[u8] =
    b"{\"event\":\"register\",\"label\":\"gpu\",\"memory\":10000,\"node\":\"g1\",\"vcores\":10}\n{\"event\":\"register\",\"label\":\"gpu\",\"memory\":10000,\"node\":\"g2\",\"vcores\":10}\n{\"app\":\"j1\",\"event\":\"submit\",\"label\":\"gpu\",\"memory\":1000,\"queue\":\"root.eng\",\"user\":\"ann\",\"vcores\":1}\n{\"app\":\"j2\",\"event\":\"submit\",\"label\":\"gpu\",\"memory\":1000,\"queue\":\"root.eng\",\"user\":\"ann\",\"vcores\":1}\n";

// Two workers go over the nodes, once. Whichever comes first, each is answered a master, so that the second commits too.
#[test]
fn lives_with_as_many_workers_as_asked(rt: HostRuntime) {
    let alloc = rt.alloc();
    let mut reader = FailsOnce {
        left: TWO_NODES,
        looks: u64::MAX,
    };
    let mut writer = Sink::new(Vec::new(alloc));
    let gate = open();
    let start = Start::opened(alloc, configured(&rt, alloc));
    let ended = live_lines(&rt, alloc, start, 2, 1, &gate, &mut reader, &mut writer);
    assert!(rt; ended.is_ok() && gate.noted() == (101, 101));
}
