//! A live scheduler inside a program: four nodes call one cluster, each in a thread of its own, and the
//! journal of what they did is audited at the end.
#![tactic(auto)]

use anyhow::Context;
use std::alloc::Global;
use std::sync::Wait;
use std::thread;
use ynl_config::built_in;
use ynl_core::Core;
use ynl_journal::audit;
use ynl_live::{Closed, Live, Receipts, Seat, close};
use ynl_model::Event;
use ynl_resource::{HashSeed, Label, Name, Size};

/// A node with a seat of its own, the receipts of its calls, and why it gave up, if it did.
#[derive(Drop)]
struct Node {
    name: Name,
    seat: Seat,
    receipts: Receipts,
    work: anyhow::Result<()>,
}

impl Node {
    fn new(alloc: Global, name: &str, seat: Seat) -> anyhow::Result<Node> {
        Ok(Node {
            name: Name::parse(name)?,
            seat,
            receipts: Receipts::new(alloc),
            work: Ok(()),
        })
    }

    fn call<R: Wait>(&mut self, rt: &R, live: &Live, event: Event) -> anyhow::Result<()> {
        let receipt = live.call(rt, &mut self.seat, event)?;
        self.receipts.push(&receipt)?;
        Ok(())
    }

    /// Registers, and then tells again and again that it is there.
    fn register_and_beat<R: Wait>(&mut self, rt: &R, live: &Live) -> anyhow::Result<()> {
        let node = self.name;
        let label = Label::parse("gpu")?;
        let size = Size::new(10000, 10).context("no size")?;
        self.call(rt, live, Event::Register { node, label, size })?;
        for _ in 0..24 {
            self.call(rt, live, Event::Heartbeat { node })?;
        }
        Ok(())
    }
}

fn main(rt: HostRuntime) -> anyhow::Result<()> {
    let alloc = rt.alloc();
    let config = built_in(alloc)?.with_seed(HashSeed::random(&rt)?);
    let (live, seat) = Live::open(alloc, config)?;
    let mut nodes = Vec::new(alloc);
    for name in ["g1", "g2", "g3", "g4"] {
        nodes.push(Node::new(alloc, name, seat.split())?)?;
    }
    thread::for_each_mut(
        &rt,
        nodes.as_mut_slice(),
        4,
        &|_, node: &mut Node| {
            node.work = node.register_and_beat(&rt, &live);
        },
    );
    let mut seats = vec![in alloc; seat]?;
    let mut lists = vec![in alloc; Receipts::new(alloc)]?;
    for Node {
        seat,
        receipts,
        work,
        ..
    } in nodes {
        work?;
        seats.push(seat)?;
        lists.push(receipts)?;
    }
    match close(alloc, live, seats, &lists) {
        Ok(Closed { core, entries }) => {
            let mut again = Core::open(alloc, core.config().copy(alloc)?)?;
            audit(&mut again, &entries.to_vec()?)?;
            println!(rt; "{} entries", entries.len())?;
            Ok(())
        }
        Err(unclosed) => Err(unclosed.cause.into()),
    }
}
