//! The words of the subcommand `check`.

ghost use Rattle.std.specs.Prelude.{◌≡◌, IfOk};
ghost use Rattle.clap.specs.Words.{found_of, rows_of};
ghost use Rattle.ynl_words.specs.Words.{IsApp};
ghost use Rattle.ynl_words.specs.Words as spec;

use crate::options::{bare, config_option, form_in, plain_option, value_in, with_option};
use crate::words::Kind;
use clap::{ArgMatches, Command};
use std::alloc::{AllocError, Global};

const CHECK_ABOUT: &str = "Tells what the configuration says, or where its fault is";

const CHECK_AFTER: &str = "\
Standard input is not read. Of a configuration that is accepted standard output has a line for each queue
but root and each partition that it may use, and a last line that tells how many there are:

  {\"capacity\":6000,\"label\":\"\",\"maximum\":10000,\"most\":1000000,\"queue\":\"root.eng\",\"share\":600000,\"state\":\"RUNNING\"}
  {\"check\":\"ok\",\"labels\":2,\"leaves\":3,\"queues\":4}

Capacity and maximum are in hundredths of a percent of the parent's. The share is what the queue is
guaranteed, and most is the most that it may use, in millionths of the partition. A leaf's lines have its
settings besides. Of any other text there is one line: the word of its fault, and the first place of it:

  {\"check\":\"sum-not-100\",\"label\":\"\",\"queue\":\"root\",\"sum\":9000}

With --plain the tree is drawn in columns, in percent of the whole, and a fault is told in a sentence.

Exit status:
  0  the configuration is accepted
  1  it has a fault
  2  the words of the command line are wrong, or ask for help
  3  reading, writing or memory failed, as a line on standard error tells

Example:
  ynl check --plain --config cluster.toml";

const PLAIN_HELP: &str = "Draw the tree in columns, and tell a fault in a sentence";

/// The subcommand `check`.
pub(crate) fn check_command<'a>(alloc: Global) -> Result<Command<'a>, AllocError>
    ensures { IfOk result (IsApp spec.check_command) }
{
    let command = bare(alloc, "check", CHECK_ABOUT, CHECK_AFTER);
    let command = with_option(command, plain_option(alloc, PLAIN_HELP));
    with_option(command, config_option(alloc))
}

/// What `check` asks for with these options.
pub(crate) fn check_kind(options: &ArgMatches<'_>) -> Kind
    ensures { result ≡ spec.check_met (rows_of (found_of options.now)) }
{
    Kind::Check(form_in(value_in(options, "plain")))
}
