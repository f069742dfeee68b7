//! The words of the subcommand `live`.

ghost use Rattle.std.specs.Prelude.{◌≡◌, ◌≤◌, IfOk, option_map, false};
ghost use Rattle.std.specs.Option.{option_and_then};
ghost use Rattle.clap.specs.Walk.{rule_of};
ghost use Rattle.clap.specs.Words.{found_of, rows_of};
ghost use Rattle.ynl_words.specs.Words.{IsApp};
ghost use Rattle.ynl_words.specs.Words as spec;

use crate::options::{bare, value_in, valued, with_options_and_files};
use crate::words::Kind;
use clap::builder::ValueParser;
use clap::{Arg, ArgMatches, Command};
use std::alloc::{AllocError, Global};
use std::marker::Model;

/// How many workers go over the nodes: 1 to 64. A contract sees the number.
#[derive(Clone, Copy)]
pub struct Workers {
    number: u8,
}

impl Model for Workers {
    ghost use Rattle.std.specs.Prelude.{ℕ, ◌≤◌};

    ghost Value = { ℕ };

    ghost view = { λ w. w.number };

    ghost invariant = { λ w. (1 ≤ w.number) × (w.number ≤ 64) };

    ghost inverse = { λ n. record { number = n } };
}

impl Workers {
    /// So many workers, if there may be so many.
    pub fn new(number: u64) -> Option<Workers>
        ensures { result ≡ spec.workers_of number }
    {
        if number >= 1 && number <= 64 {
            return Some(Workers {
                number: number as u8,
            });
        }
        None
    }

    /// How many they are.
    pub fn number(&self) -> usize
        ensures value { result ≡ self.now }
        ensures some { 1 ≤ self.now }
    {
        usize::from(self.number)
    }
}

const LIVE_ABOUT: &str =
    "Has workers go over the nodes that the events leave, and tells the closed journal";

const LIVE_AFTER: &str = "\
Standard input has an event on each line, as for run. Once it is read to its end, its events are called
on a live scheduler, one after another. Then workers go over the nodes that these leave, each in a thread
of its own where there is one to be had: on each node a worker asks what would be placed there, and where
something would be it commits just that. In each round the nodes, by name, are dealt out to the workers in
turn. At last standard output has the entries of the closed journal, each with its place and its reply, as
audit reads them:

  {\"event\":{\"event\":\"propose\",\"node\":\"g1\"},\"place\":2,\"reply\":{\"reply\":\"nothing\"}}

With one worker the journal is the same each time; with more their entries may come in another order. A
line that is no event ends the input: no round is run then, and the last line of the output tells its
fault, as for run.

With --from the cluster begins from the state in that file, as save wrote it, and not from its
opening state, and a fault of that text is told as for run. The workers go over the nodes that the
state and the input leave. The places of the journal begin at 0, and audit --from reads it.

Exit status:
  0  the journal was closed
  1  a line of the input is no event, or the input is too long; or the configuration or the state to
     begin from has a fault, as a line on standard error tells: nothing is read
  2  the words of the command line are wrong, or ask for help
  3  reading, writing or memory failed, or the journal was not closed, as a line on standard error tells

Examples:
  ynl live --workers 4 --config cluster.toml < events | ynl audit --config cluster.toml
  ynl live --from state < events | ynl audit --from state";

const WORKERS_HELP: &str = "How many workers there are, 1 to 64";

const ROUNDS_HELP: &str = "How often they go over the nodes, 0 to 1000";

fn workers_option<'a>(alloc: Global) -> Arg<'a>
    ensures rule { rule_of result ≡ spec.workers_rule }
    ensures local { result.global ≡ false }
{
    valued(alloc, "workers", "N", WORKERS_HELP)
        .value_parser(ValueParser::unsigned(1, 64))
        .default_value("2")
}

fn rounds_option<'a>(alloc: Global) -> Arg<'a>
    ensures rule { rule_of result ≡ spec.rounds_rule }
    ensures local { result.global ≡ false }
{
    valued(alloc, "rounds", "R", ROUNDS_HELP)
        .value_parser(ValueParser::unsigned(0, 1000))
        .default_value("1")
}

/// The subcommand `live`.
pub(crate) fn live_command<'a>(alloc: Global) -> Result<Command<'a>, AllocError>
    ensures { IfOk result (IsApp spec.live_command) }
{
    with_options_and_files(
        alloc,
        bare(alloc, "live", LIVE_ABOUT, LIVE_AFTER),
        workers_option(alloc),
        rounds_option(alloc),
    )
}

/// The number that a text is.
fn number_in(text: &str) -> Option<u64>
    ensures { result ≡ spec.number_in text.now }
{
    text.parse::<u64>().ok()
}

fn workers_in(text: Option<&str>) -> Option<Workers>
    ensures { result ≡ option_and_then spec.workers_in (option_map (λ s. s.now) text.entry) }
{
    Workers::new(number_in(text?)?)
}

fn rounds_in(text: Option<&str>) -> Option<u64>
    ensures { result ≡ option_and_then spec.rounds_in (option_map (λ s. s.now) text.entry) }
{
    match number_in(text?) {
        Some(rounds) if rounds <= 1000 => Some(rounds),
        _ => None,
    }
}

/// What `live` asks for with these options. Of numbers out of range `clap` has told before.
pub(crate) fn live_kind(options: &ArgMatches<'_>) -> Option<Kind>
    ensures { result ≡ spec.live_met (rows_of (found_of options.now)) }
{
    let workers = workers_in(value_in(options, "workers"));
    let rounds = rounds_in(value_in(options, "rounds"));
    let (workers, rounds) = workers.zip(rounds)?;
    Some(Kind::Live(workers, rounds))
}
