//! Lines that are read and written by the calls that give values, at the second try.

use crate::values::tell_refused;
use std::alloc::{AllocError, Global};
use ynl_lines::{read_event, read_line, write_event, write_line};

/// An event with spaces and in another order, and its text in the compact form.
const SPACED: &str =
    r#"{ "event": "submit", "app": "j1", "queue": "root.eng.ml", "user": "ann", "label": "gpu", "memory": 1000, "vcores": 1 }"#;

const COMPACT: &str =
    r#"{"app":"j1","event":"submit","label":"gpu","memory":1000,"queue":"root.eng.ml","user":"ann","vcores":1}"#;

/// Lines of a journal in the form in which they are written, with a reply of each kind, and without any.
const ENTRIES: [&str; 8] = [
    r#"{"event":{"event":"stop","queue":"root"},"place":0,"reply":{"reply":"done"}}"#,
    r#"{"event":{"event":"lost","node":"g1"},"place":1,"reply":{"refused":"NoSuchNode","reply":"refused"}}"#,
    r#"{"event":{"event":"heartbeat","node":"g1"},"place":2,"reply":{"placed":[{"app":"j1","id":"gpu#2","memory":1000,"node":"g1","tenant":"eng","vcores":1,"what":"master"},{"app":"j1","id":"gpu#3","label":"","memory":1000,"node":"g1","priority":4294967295,"tenant":"eng","vcores":1,"what":"ask"}],"reply":"placed"}}"#,
    r#"{"event":{"event":"propose","node":"g1"},"place":3,"reply":{"proposal":{"app":"j1","memory":1000,"node":"g1","stamp":7,"tenant":"eng","vcores":1,"what":"master"},"reply":"proposal"}}"#,
    r#"{"event":{"event":"propose","node":"g1"},"place":6}"#,
    r#"{"event":{"event":"commit","proposal":{"app":"j1","memory":1000,"node":"g1","stamp":7,"tenant":"eng","vcores":1,"what":"master"}},"place":8,"reply":{"container":{"app":"j1","id":"gpu#2","memory":1000,"node":"g1","tenant":"eng","vcores":1,"what":"master"},"reply":"committed"}}"#,
    r#"{"event":{"app":"j1","event":"poll","label":"gpu","tenant":"eng"},"place":5,"reply":{"asks":[{"count":1000000,"memory":1000,"priority":0,"vcores":1}],"containers":[],"reply":"held"}}"#,
    r#"{"event":{"event":"usage","label":"","queue":"root.eng"},"place":18446744073709551615,"reply":{"guaranteed":{"memory":0,"vcores":0},"guests":{"memory":0,"vcores":0},"masters":{"memory":1000,"vcores":1},"maximum":{"memory":562949953421312,"vcores":0},"reply":"usage","used":{"memory":1000,"vcores":1}}}"#,
];

/// Whether the line with spaces is the event that has its text.
fn is_event(alloc: Global) -> Result<bool, AllocError> {
    match read_event(alloc, SPACED.as_bytes()) {
        Ok(Ok(event)) => Ok(write_event(alloc, &event)?.as_slice() == COMPACT.as_bytes()),
        Ok(Err(_)) => Ok(false),
        Err(e) => Err(e),
    }
}

/// Whether a line of a journal is the entry that has this text.
fn is_entry(alloc: Global, line: &str) -> Result<bool, AllocError> {
    match read_line(alloc, line.as_bytes())? {
        Ok((place, entry)) => Ok(write_line(alloc, place, &entry)?.as_slice() == line.as_bytes()),
        Err(_) => Ok(false),
    }
}

/// Whether each line has its text.
fn have_their_texts(alloc: Global) -> Result<bool, AllocError> {
    for line in ENTRIES {
        if !is_entry(alloc, line)? {
            return Ok(false);
        }
    }
    is_event(alloc)
}

// Run with each allocation failing in turn: where memory is refused at the first try, which a line
// tells, the second reads and writes.
#[test]
fn are_read_and_written_at_the_second_try(rt: HostRuntime) {
    let have = match have_their_texts(rt.alloc()) {
        Ok(have) => have,
        Err(AllocError) => {
            tell_refused(&rt);
            have_their_texts(rt.alloc()).expect(&rt, "memory")
        }
    };
    assert!(rt; have);
}
