//! The words of the subcommand `explain`.

ghost use Rattle.std.specs.Prelude.{◌≡◌, IfOk, false};
ghost use Rattle.clap.specs.Walk.{rule_of};
ghost use Rattle.clap.specs.Words.{found_of, rows_of};
ghost use Rattle.ynl_words.specs.Words.{IsApp};
ghost use Rattle.ynl_words.specs.Words as spec;

use crate::options::{
    bare, form_in, name_in, plain_option, tenant_option, value_in, valued, with_option,
    with_options_and_files,
};
use crate::words::{Kind, Question, SequentialKind};
use clap::{Arg, ArgMatches, Command};
use std::alloc::{AllocError, Global};

const EXPLAIN_ABOUT: &str = "Tells why the requests of an application wait after the events";

const EXPLAIN_AFTER: &str = "\
Standard input has an event on each line, as for run. Once it is read to its end, standard output has a
line for each request of the application that waits: the one for its master, and those for its asks. The
reasons of each are all that keeps it from being placed, or that it is next on a node:

  {\"app\":\"j1\",\"label\":\"gpu\",\"memory\":1000,\"reasons\":[{\"reason\":\"nodes\"}],\"tenant\":\"eng\",\"vcores\":1,\"what\":\"master\"}

Where nothing waits there is no line. Where the tenant has no such application there is one:

  {\"refused\":\"NoSuchApplication\",\"reply\":\"refused\"}

With --plain each request has a line for a reader, and below it a sentence for each reason:

  eng/j1 asks for its master of 1000 MB and 1 vcore on gpu:
    gpu has no nodes

A line that is no event ends the input: nothing is explained then, and the one line of the output tells
its fault, as for run.

With --from the cluster begins from the state in that file, as save wrote it, and not from its
opening state, and a fault of that text is told as for run.

Exit status:
  0  all was told
  1  a line of the input is no event, or the input is too long; or the configuration or the state
     has a fault, as a line on standard error tells: nothing is read
  2  the words of the command line are wrong, or ask for help; or the tenant is no name, or the
     application
  3  reading, writing or memory failed, as a line on standard error tells

Example:
  ynl explain --plain --tenant eng --app j1 --config cluster.toml < events";

const APP_HELP: &str = "The application";

const PLAIN_HELP: &str = "Tell each reason in a sentence";

fn app_option<'a>(alloc: Global) -> Arg<'a>
    ensures rule { rule_of result ≡ spec.app_rule }
    ensures local { result.global ≡ false }
{
    valued(alloc, "app", "NAME", APP_HELP).required(true)
}

/// The subcommand `explain`.
pub(crate) fn explain_command<'a>(alloc: Global) -> Result<Command<'a>, AllocError>
    ensures { IfOk result (IsApp spec.explain_command) }
{
    let named = with_option(
        bare(alloc, "explain", EXPLAIN_ABOUT, EXPLAIN_AFTER),
        tenant_option(alloc),
    );
    with_options_and_files(
        alloc,
        named,
        app_option(alloc),
        plain_option(alloc, PLAIN_HELP),
    )
}

/// What `explain` asks for with these options, unless one of them is a bad name.
pub(crate) fn explain_kind(options: &ArgMatches<'_>) -> Option<Kind>
    ensures { result ≡ spec.explain_met (rows_of (found_of options.now)) }
{
    let tenant = name_in(value_in(options, "tenant"));
    let app = name_in(value_in(options, "app"));
    let form = form_in(value_in(options, "plain"));
    let (tenant, app) = tenant.zip(app)?;
    Some(Kind::Sequential(SequentialKind::Explain(Question { tenant, app, form })))
}
