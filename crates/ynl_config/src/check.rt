//! From a text to the configuration, or to its first fault and the place of that.

ghost use Rattle.std.specs.Prelude.{◌≡◌, ◌<◌, length, IfOk, IfErr, true, unwrap_or, option_and_then};
ghost use Rattle.std.specs.Result.{IsOk, result_ok};
ghost use Rattle.toml.specs.View.{table_view};
ghost use Rattle.ynl_model.specs.Accepted.{is_accepted};
ghost use Rattle.ynl_config.specs.Meaning.{most_bytes, config_of};
ghost use Rattle.ynl_config.specs.Tables.{written_in};
ghost use Rattle.ynl_config.specs.Places.{place_of, nowhere};
ghost use Rattle.ynl_config.specs.Misplaced.{first_place, place_together, told_place, word_of};

use crate::config::{MOST_BYTES, config_in, parse};
use crate::faults::ConfigFault;
use crate::places::{Misplaced, Place};
use crate::row_places::place_together;
use crate::table_places::place_in_tables;
use crate::telling::keep;
use crate::written::written_in;
use std::alloc::{AllocError, Global};
use toml::Table;
use ynl_queues::Config;

/// The number of the line on which the byte of this index stands.
fn line_of(text: &[u8], index: usize) -> u64 {
    let mut line: u64 = 1;
    for byte in text.iter().take(index) {
        if *byte == b'\n' {
            line = line.saturating_add(1);
        }
    }
    line
}

/// The line on which reading found that the bytes are no TOML text.
fn syntax_line(alloc: Global, text: &[u8]) -> Result<Option<u64>, AllocError> {
    let error = match toml::table_from_slice(alloc, text) {
        Ok(_) => return Ok(None),
        Err(error) => error,
    };
    match error.span() {
        Some(span) => Ok(Some(line_of(text, span.start))),
        None => Err(AllocError),
    }
}

/// The first place of a fault that rows have together.
fn place_of_rows(alloc: Global, fault: ConfigFault, table: &Table) -> Result<Place, AllocError>
    ensures { IfOk result (λ p. place_of p ≡ unwrap_or (option_and_then (place_together fault) (result_ok (written_in (table_view table.now)))) nowhere) }
{
    match written_in(alloc, table)? {
        Ok(written) => place_together(alloc, fault, written),
        Err(_) => Ok(Place::nowhere()),
    }
}

/// The first place of a fault.
#[tactic(auto, unfolding(crate::specs::Misplaced::first_place))]
fn first_place(alloc: Global, fault: ConfigFault, table: &Table) -> Result<Place, AllocError>
    ensures { IfOk result (λ p. place_of p ≡ unwrap_or (first_place fault (table_view table.now)) nowhere) }
{
    if fault.is_of_tables() {
        keep(alloc, place_in_tables(alloc, fault, table)?)
    } else if fault.is_of_rows() {
        place_of_rows(alloc, fault, table)
    } else {
        Ok(Place::nowhere())
    }
}

/// What is told of a fault that the table has.
fn misplaced(alloc: Global, fault: ConfigFault, table: &Table) -> Result<Misplaced, AllocError>
    ensures fault { IfOk result (λ m. m.fault ≡ fault) }
    ensures place { IfOk result (λ m. place_of m.place ≡ unwrap_or (first_place fault (table_view table.now)) nowhere) }
{
    let place = first_place(alloc, fault, table)?;
    Ok(Misplaced { fault, place })
}

/// What is told of a text that is too long.
fn too_long() -> Misplaced
    ensures fault { result.fault ≡ ConfigFault.Size }
    ensures place { place_of result.place ≡ nowhere }
{
    Misplaced {
        fault: ConfigFault::Size,
        place: Place::nowhere(),
    }
}

/// What is told of bytes that are no TOML text.
fn bad_syntax(alloc: Global, text: &[u8]) -> Result<Misplaced, AllocError>
    ensures fault { IfOk result (λ m. m.fault ≡ ConfigFault.Syntax) }
    ensures place { IfOk result (λ m. place_of m.place ≡ record nowhere { line = m.place.line }) }
{
    let mut place = Place::nowhere();
    place.line = syntax_line(alloc, text)?;
    Ok(Misplaced {
        fault: ConfigFault::Syntax,
        place,
    })
}

/// The configuration that a text means, as [`read_config`](crate::read_config) gives it; or its first fault, with the
/// first place in the text where that holds.
///
/// Places come in the order of the text's tables: the top level, the labels, and the queues, each followed by its
/// shares of labels by their names. In a table they come by the bytes of the keys. That a text is too long is told
/// whatever memory there is.
#[tactic(auto, unfolding(crate::specs::Meaning::config_of))]
pub fn check_config(alloc: Global, text: &[u8]) -> Result<Result<Config, Misplaced>, AllocError>
    ensures word { IfOk result (λ read. word_of read ≡ config_of text.now) }
    ensures place { IfOk result (λ read. IfErr read (λ m. place_of m.place ≡ told_place m.place.line m.fault text.now)) }
    ensures accepted { IfOk result (λ read. IfOk read (λ config. is_accepted config ≡ true)) }
    ensures sure { most_bytes < length text.now → IsOk result }
{
    if text.len() > MOST_BYTES {
        return Ok(Err(too_long()));
    }
    let Some(table) = parse(alloc, text)? else {
        return Ok(Err(bad_syntax(alloc, text)?));
    };
    match config_in(alloc, &table)? {
        Ok(config) => Ok(Ok(config)),
        Err(fault) => Ok(Err(misplaced(alloc, fault, &table)?)),
    }
}
