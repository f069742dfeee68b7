//! Lines of a saved state, which no command reads yet, at the second try.

use crate::values::tell_refused;
use std::alloc::{AllocError, Global};
use ynl_saved_text::{StateReader, put_state_line};

/// The lines of a state, one of each kind, and a container that was asked for, in the form in which they are written.
const STATE: [&str; 11] = [
    r#"{"state":"begin","version":1}"#,
    r#"{"clock":9007199254740991,"label":"","state":"partition"}"#,
    r#"{"label":"gpu","memory":10000,"node":"g1","stamp":5,"state":"node","vcores":10}"#,
    r#"{"app":"j1","label":"gpu","memory":1000,"queue":"root.eng.ml","state":"live","user":"ann","vcores":1}"#,
    r#"{"app":"j1","count":2,"label":"","memory":11,"priority":7,"state":"ask","tenant":"eng","vcores":1}"#,
    r#"{"app":"j2","queue":"root.eng.ml","state":"finished"}"#,
    r#"{"app":"j1","id":"gpu#2","memory":1000,"node":"g1","state":"container","tenant":"eng","vcores":1,"what":"master"}"#,
    r#"{"app":"j1","id":"gpu#3","label":"gpu","memory":2000,"node":"g1","priority":1,"state":"container","tenant":"eng","vcores":2,"what":"ask"}"#,
    r#"{"queue":"root.eng","state":"stopped"}"#,
    r#"{"label":"gpu","maximum":4000,"queue":"root.eng.etl","state":"maximum"}"#,
    r#"{"lines":10,"state":"end"}"#,
];

/// Lines that are none behind the first one, each with its word.
const FAULTY: [(&str, &str); 5] = [
    (r#"{"state":"begin","version":1"#, "syntax"),
    (r#"{"state":"begin","version":1}"#, "kind"),
    (r#"{"app":"j2","state":"finished"}"#, "field"),
    (r#"{"app":"j2","queue":"eng","state":"finished"}"#, "name"),
    (
        r#"{"clock":9007199254740992,"label":"","state":"partition"}"#,
        "range",
    ),
];

/// Whether a line is read, and has its own text.
fn has_its_text(alloc: Global, reader: &mut StateReader, line: &str) -> Result<bool, AllocError> {
    if reader.read(alloc, line.as_bytes())?.is_err() {
        return Ok(false);
    }
    let mut text = Vec::new(alloc);
    put_state_line(&mut text, reader.line())?;
    Ok(text.as_slice() == line.as_bytes())
}

/// Whether the first lines of a state, as many, have their texts.
fn have_their_texts(
    alloc: Global,
    reader: &mut StateReader,
    count: usize,
) -> Result<bool, AllocError> {
    for line in STATE.iter().take(count) {
        if !has_its_text(alloc, reader, line)? {
            return Ok(false);
        }
    }
    Ok(true)
}

/// Whether each line that is none has its fault behind the first one.
fn have_their_faults(alloc: Global, reader: &mut StateReader) -> Result<bool, AllocError> {
    for (line, word) in FAULTY {
        match reader.read(alloc, line.as_bytes())? {
            Err(fault) if fault.word() == word => {}
            _ => return Ok(false),
        }
    }
    Ok(true)
}

fn are_as_they_should(alloc: Global) -> Result<bool, AllocError> {
    let (mut whole, mut broken) = (StateReader::new(alloc), StateReader::new(alloc));
    Ok(
        have_their_texts(alloc, &mut whole, STATE.len())?
            && have_their_texts(alloc, &mut broken, 1)?
            && have_their_faults(alloc, &mut broken)?,
    )
}

#[test]
fn a_state_is_read_and_written_at_the_second_try(rt: HostRuntime) {
    let are = match are_as_they_should(rt.alloc()) {
        Ok(are) => are,
        Err(_) => {
            tell_refused(&rt);
            are_as_they_should(rt.alloc()).expect(&rt, "memory")
        }
    };
    assert!(rt; are);
}
