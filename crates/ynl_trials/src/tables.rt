//! Calls of tables and of a configuration's index that no command makes, and of which no contract says that they
//! succeed.

use crate::values::{configured, path};
use std::process::Abort;
use ynl_queues::Config;
use ynl_resource::Label;
use ynl_tables::containers::Containers;

#[test]
fn a_table_has_room(rt: HostRuntime) {
    let mut table = Containers::new(rt.alloc());
    assert!(rt; table.reserve_one().is_ok());
}

/// Whether root has just one queue, which is a leaf.
fn has_one_queue<R: Abort>(rt: &R, config: &Config) -> bool {
    let root = path(rt, "root");
    let eng = path(rt, "root.eng");
    let mut below = config.children(root.names());
    let is_one = below.next().is_some() && below.next().is_none();
    is_one && config.leaf(eng.names()).is_some()
}

/// Whether the one queue is found by its place, and what it has of DEFAULT.
fn has_its_place<R: Abort>(rt: &R, config: &Config) -> bool {
    let eng = path(rt, "root.eng");
    let is_step = config.steps(0, eng.names()) == Some([0].as_slice());
    let has_share = match config.capacities(&Label::Unlabelled) {
        Some(shares) => shares.len() == 1 && shares[0].number() == 10000,
        None => false,
    };
    is_step && has_share && config.steps(0, &[]).is_none()
}

#[test]
fn an_index_has_the_queues(rt: HostRuntime) {
    let config = configured(&rt, rt.alloc());
    assert!(rt; has_one_queue(&rt, &config) && has_its_place(&rt, &config));
}
