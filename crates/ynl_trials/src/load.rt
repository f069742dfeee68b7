//! A live scheduler under load: a crew goes over its nodes in rounds, beside a caller that submits, asks,
//! finishes, and loses nodes.

use crate::cluster::opened;
use crate::crew::Crew;
use crate::events::handed_in;
use crate::values::{configured, keep};
use crate::writer::Writer;
use std::alloc::Global;
use std::io::{BufWriter, Eprint, Write};
use std::process::Abort;
use std::rt::Clock;
use std::sync::Wait;
use std::thread::{Threads, join_mut};
use std::time::Instant;
use std::{env, io};
use ynl_journal::audit;
use ynl_lines::write_line;
use ynl_live::{Live, close};
use ynl_model::Entry;
use ynl_packed::Entries;

/// How much is to be done.
#[derive(Clone, Copy)]
struct Load {
    workers: u64,
    nodes: u64,
    rounds: u64,
    steps: u64,
    waiting: u64,
}

/// What the gate does.
const LITTLE: Load = Load {
    workers: 2,
    nodes: 4,
    rounds: 2,
    steps: 10,
    waiting: 1,
};

/// What `bench/live` asks for: the numbers of the workers, the nodes, the rounds, the caller's steps, and the
/// applications that wait for good.
fn load_of<R: Abort>(rt: &R, alloc: Global, text: &str) -> Load {
    let mut numbers = Vec::new(alloc);
    for word in text.split(' ') {
        let number = word.parse::<u64>().expect(rt, "a number");
        keep(rt, &mut numbers, number);
    }
    match numbers.as_slice() {
        [workers, nodes, rounds, steps, waiting] => Load {
            workers: *workers,
            nodes: *nodes,
            rounds: *rounds,
            steps: *steps,
            waiting: *waiting,
        },
        _ => panic!(rt; "not five numbers"),
    }
}

/// Has the workers and the caller beside them at work at once, and answers how long that took, in
/// milliseconds.
fn put_to_work<R: Threads + Wait + Clock + Print + Abort + Sync>(
    rt: &R,
    live: &Live,
    load: Load,
    crew: &mut Crew,
    writer: &mut Writer,
) -> u128 {
    writer.begin(rt, live, load.nodes, load.waiting);
    let start = Instant::now(rt).expect(rt, "a clock");
    join_mut(
        rt,
        &mut || crew.run_rounds(rt, live, load.rounds),
        &mut || writer.take_steps(rt, live, load.steps, load.nodes),
    );
    start.elapsed(rt).expect(rt, "a clock").as_millis()
}

/// The closed journal of all callers.
fn closed<R: Abort>(rt: &R, alloc: Global, live: Live, crew: Crew, writer: Writer) -> Entries {
    let mut callers = crew.callers;
    keep(rt, &mut callers, writer.caller);
    let (seats, lists) = handed_in(rt, alloc, callers);
    match close(alloc, live, seats, &lists) {
        Ok(closed) => closed.entries,
        Err(unclosed) => panic!(rt; "{}", unclosed.cause),
    }
}

/// The entries of the load, with its figures on standard error.
fn played<R: Threads + Wait + Clock + Print + Eprint + Abort + Sync>(
    rt: &R,
    alloc: Global,
    load: Load,
) -> Entries {
    let (live, seat) = Live::open(alloc, configured(rt, alloc)).expect(rt, "memory");
    let mut crew = Crew::new(rt, alloc, seat.split(), load.workers, load.nodes);
    let mut writer = Writer::new(alloc, seat);
    let took = put_to_work(rt, &live, load, &mut crew, &mut writer);
    let (commit, call) = (crew.longest, writer.longest);
    let entries = closed(rt, alloc, live, crew, writer);
    let calls = (entries.len() as u64)
        .saturating_sub(load.nodes)
        .saturating_sub(load.waiting);
    tell_figures(rt, calls, took, commit, call);
    entries
}

fn tell_figures<R: Eprint + Abort>(rt: &R, calls: u64, took: u128, commit: u64, call: u64) {
    eprintln!(rt;
        "{calls} calls in {took} ms; longest commit of a worker {commit} us, longest call beside them {call} us"
    ).expect(rt, "standard error");
}

fn write_entry<R: Abort, W: Write>(rt: &R, alloc: Global, to: &mut W, place: usize, entry: &Entry) {
    assert!(rt; entry.reply.is_some());
    let line = write_line(alloc, place as u64, entry).expect(rt, "memory");
    to.write_all(line.as_slice()).expect(rt, "standard output");
    to.write_all(b"\n").expect(rt, "standard output");
}

fn write_journal<R: Abort, W: Write + Drop>(rt: &R, alloc: Global, to: W, entries: &Entries) {
    let mut writer = BufWriter::new(alloc, to).expect(rt, "memory");
    for place in 0..entries.len() {
        let entry = entries.get(place).expect(rt, "memory");
        write_entry(rt, alloc, &mut writer, place, &entry);
    }
    writer.flush().expect(rt, "standard output");
}

/// Whether each entry has a reply, and all of them pass their audit.
fn is_history<R: Print + Abort>(rt: &R, alloc: Global, entries: &[Entry]) -> bool {
    let has_all = entries.iter().all(|entry| entry.reply.is_some());
    has_all && audit(&mut opened(rt, alloc), entries).is_ok()
}

/// The journal of a crew and a caller closes, has each reply, and passes its audit. Where `LOAD` is set, it is written.
#[test]
fn crew_and_caller_leave_one_history(rt: HostRuntime) {
    let alloc = rt.alloc();
    if let Ok(text) = env::var(&rt, "LOAD") {
        let entries = played(&rt, alloc, load_of(&rt, alloc, &text));
        write_journal(&rt, alloc, io::writer(&rt), &entries);
        return;
    }
    let entries = played(&rt, alloc, LITTLE).to_vec().expect(&rt, "memory");
    assert!(rt; is_history(&rt, alloc, &entries));
}
