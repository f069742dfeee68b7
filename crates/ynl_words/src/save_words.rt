//! The words of the subcommand `save`.

ghost use Rattle.std.specs.Prelude.{IfOk};
ghost use Rattle.ynl_words.specs.Words.{IsApp};
ghost use Rattle.ynl_words.specs.Words as spec;

use crate::options::{bare, with_files};
use clap::Command;
use std::alloc::{AllocError, Global};

const SAVE_ABOUT: &str = "Writes the state of a cluster after the events";

const SAVE_AFTER: &str = "\
Standard input has an event on each line, as for run. Once it is read to its end, standard output has the
state after the events, a JSON object on a line for each thing that there is:

  {\"state\":\"begin\",\"version\":1}
  {\"clock\":1,\"label\":\"gpu\",\"state\":\"partition\"}
  {\"label\":\"gpu\",\"memory\":10000,\"node\":\"g1\",\"stamp\":1,\"state\":\"node\",\"vcores\":10}
  {\"lines\":4,\"state\":\"end\"}

Behind the partitions and the nodes come the applications with what they ask for, leaf by leaf, then the
containers, the queues that are stopped, and the maxima that are not the configured ones. Of a finished
application there is the name, since that stays used.

A line that is no event ends the input: nothing is saved then, and the one line of the output tells its
fault, as for run.

With --from the cluster begins from the state in that file, as save wrote it, and not from its
opening state, and a fault of that text is told as for run. So an input can be cut in two: what is
saved after its second part, from the state after its first, is what is saved after the whole.

Exit status:
  0  the state was written
  1  a line of the input is no event, or the input is too long; or the state's text would be longer than
     268435456 bytes, or the configuration or the state to begin from has a fault, as a line on
     standard error tells
  2  the words of the command line are wrong, or ask for help
  3  reading, writing or memory failed, as a line on standard error tells

Examples:
  ynl save --config cluster.toml < events > state
  ynl save --from state --config cluster.toml < more > later";

/// The subcommand `save`.
pub(crate) fn save_command<'a>(alloc: Global) -> Result<Command<'a>, AllocError>
    ensures { IfOk result (IsApp spec.save_command) }
{
    with_files(alloc, bare(alloc, "save", SAVE_ABOUT, SAVE_AFTER))
}
