//! Events, lists and values that are right: a test ends where one is not. What refuses memory here is tried again, so
//! that a test tells only of the calls that it is for.

ghost use Rattle.std.specs.Prelude.{◌≡◌, ◌+◌, vec_len};

use std::alloc::Global;
use std::process::Abort;
use ynl_config::built_in;
use ynl_lines::read_event;
use ynl_model::Event;
use ynl_queues::Config;
use ynl_resource::{Id, Label, Name, Path, Size};

/// A node of gpu, and its heartbeat.
pub(crate) const NODE: &str =
    r#"{"event":"register","label":"gpu","memory":10000,"node":"g1","vcores":10}"#;

pub(crate) const HEARTBEAT: &str = r#"{"event":"heartbeat","node":"g1"}"#;

/// An application of the tenant eng that has its master there, and asks for two containers.
pub(crate) const SUBMIT: &str =
    r#"{"app":"j1","event":"submit","label":"gpu","memory":1000,"queue":"root.eng.ml","user":"ann","vcores":1}"#;

pub(crate) const ASK: &str =
    r#"{"app":"j1","count":2,"event":"ask","label":"gpu","memory":2000,"priority":1,"tenant":"eng","vcores":2}"#;

pub(crate) const SCRIPT: [&str; 4] = [NODE, SUBMIT, HEARTBEAT, ASK];

/// What it holds.
pub(crate) const POLL: &str = r#"{"app":"j1","event":"poll","label":"gpu","tenant":"eng"}"#;

/// The event of a line.
pub(crate) fn event_of<R: Abort>(rt: &R, alloc: Global, line: &str) -> Event {
    let read = match read_event(alloc, line.as_bytes()) {
        Ok(read) => read,
        Err(_) => read_event(alloc, line.as_bytes()).expect(rt, "memory"),
    };
    read.expect(rt, "an event")
}

/// The event of a line with this number in place of its `%`.
pub(crate) fn numbered<R: Abort>(rt: &R, alloc: Global, line: &str, number: u64) -> Event {
    let (front, back) = line.split_once('%').expect(rt, "a place for a number");
    let line = format!(in alloc; "{front}{number}{back}").expect(rt, "memory");
    event_of(rt, alloc, &line)
}

/// The events of lines.
pub(crate) fn events_of<R: Abort>(rt: &R, alloc: Global, lines: &[&str]) -> Vec<Event> {
    let mut events = Vec::new(alloc);
    for line in lines {
        keep(rt, &mut events, event_of(rt, alloc, line));
    }
    events
}

pub(crate) fn configured<R: Abort>(rt: &R, alloc: Global) -> Config {
    match built_in(alloc) {
        Ok(config) => config,
        Err(_) => built_in(alloc).expect(rt, "memory"),
    }
}

pub(crate) fn name<R: Abort>(rt: &R, text: &str) -> Name {
    Name::parse(text).expect(rt, "a name")
}

pub(crate) fn label<R: Abort>(rt: &R, text: &str) -> Label {
    Label::parse(text).expect(rt, "a label")
}

pub(crate) fn path<R: Abort>(rt: &R, text: &str) -> Path {
    Path::parse(text).expect(rt, "a path")
}

pub(crate) fn id<R: Abort>(rt: &R, text: &str) -> Id {
    Id::parse(text).expect(rt, "an id")
}

pub(crate) fn size<R: Abort>(rt: &R, memory: u64, vcores: u64) -> Size {
    Size::new(memory, vcores).expect(rt, "a size")
}

/// Puts an item behind all others.
pub(crate) fn keep<T: Drop, R: Abort>(rt: &R, list: &mut Vec<T>, item: T)
    ensures { vec_len list.new ≡ vec_len list.old + 1 }
{
    if let Err(failed) = list.push(item) {
        list.push(failed.value).expect(rt, "memory");
    }
}

/// A list of one. An array of values that are let go costs a proof of its own.
pub(crate) fn one<T: Drop, R: Abort>(rt: &R, alloc: Global, item: T) -> Vec<T>
    ensures { vec_len result ≡ 1 }
{
    let mut list = Vec::new(alloc);
    keep(rt, &mut list, item);
    list
}

/// A list of two.
pub(crate) fn two<T: Drop, R: Abort>(rt: &R, alloc: Global, first: T, second: T) -> Vec<T>
    ensures { vec_len result ≡ 2 }
{
    let mut list = one(rt, alloc, first);
    keep(rt, &mut list, second);
    list
}

/// Tells that memory was refused at the first try.
pub(crate) fn tell_refused<R: Print + Abort>(rt: &R) {
    println!(rt; "refused").expect(rt, "standard output");
}
