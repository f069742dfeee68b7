//! The words of the subcommands `audit` and `evidence`.

ghost use Rattle.std.specs.Prelude.{◌≡◌, IfOk, false};
ghost use Rattle.clap.specs.Walk.{rule_of};
ghost use Rattle.clap.specs.Words.{found_of, rows_of};
ghost use Rattle.ynl_words.specs.Words.{IsApp};
ghost use Rattle.ynl_words.specs.Words as spec;

use crate::options::{
    bare, partition_in, value_in, valued, with_options_and_files, with_partition,
};
use crate::words::{Kind, SequentialKind};
use clap::{Arg, ArgMatches, Command};
use std::alloc::{AllocError, Global};

const AUDIT_ABOUT: &str =
    "Checks that the replies in a journal, or in a tenant's evidence, are those of a cluster";

const AUDIT_AFTER: &str = "\
Standard input has an entry of the journal on each line, a JSON object with an event as for run, its
place, counted from 0 over the entries, and the reply that it got. The entry of a propose may be without
its reply. A line of blanks is passed over.

  {\"event\":{\"event\":\"lost\",\"node\":\"g1\"},\"place\":6,\"reply\":{\"reply\":\"done\"}}

A cluster of the configuration is given the events one after another, and its replies are compared with
those in the journal. Once reading has ended, standard output has one line. Where all agree it tells how
many entries there are:

  {\"audit\":\"ok\",\"entries\":7}

Else it tells the first line that is bad, and reading ends there: with the fault line one that is no entry,
or whose place is not the number of the entries before it; with differs one whose reply is not the
cluster's; and with size the line with which the input gets longer than 67108864 bytes:

  {\"fault\":\"differs\",\"line\":4}

With --from the cluster begins from the state in that file, as save wrote it, and not from its
opening state, and a fault of that text is told as for run. The places in the journal begin at 0
then too. --from and --tenant do not go together.

With --tenant and --label standard input is what evidence writes for them. Its places rise, each of its
events is one that the tenant's own partition sees, by the events before it, and the replies are compared
with those of a cluster that holds the tenant alone. Any other line is bad.

Exit status:
  0  all replies agree
  1  a line is bad, or the input is too long; or the tenant is not alone on the partition, or the
     configuration or the state has a fault, as a line on standard error tells: nothing is read
  2  the words of the command line are wrong, or ask for help; or the tenant is no name, or the label
  3  reading, writing or memory failed, as a line on standard error tells

Examples:
  ynl audit --config cluster.toml < journal
  ynl audit --from state --config cluster.toml < journal
  ynl audit --tenant eng --label gpu --config cluster.toml < evidence";

const EVIDENCE_ABOUT: &str = "Hands a tenant what its own partition sees of a journal";

const EVIDENCE_AFTER: &str = "\
The tenant is a top-level queue that alone may use an exclusive label: --tenant eng names root.eng.
Standard input is a journal, as for audit. Once it is read to its end, standard output has those of its
events that bear on the tenant and the partition, in lines as tenant writes them, with the places and the
replies of the journal:

  {\"event\":{\"event\":\"lost\",\"node\":\"g1\"},\"place\":6,\"reply\":{\"reply\":\"done\"}}

Nothing is replayed: audit with --tenant and --label checks the replies. A line that is no entry, or whose
place is not the number of the entries before it, ends the input: the one line of the output tells its
fault, as for audit.

Exit status:
  0  all was written
  1  a line is bad, or the input is too long; or the tenant is not alone on the partition, or the
     configuration has a fault, as a line on standard error tells: nothing is read
  2  the words of the command line are wrong, or ask for help; or the tenant is no name, or the label
  3  reading, writing or memory failed, as a line on standard error tells

Example:
  ynl evidence --tenant eng --label gpu --config cluster.toml < journal > evidence";

const AUDIT_TENANT_HELP: &str =
    "The tenant whose evidence is audited, by the name of its top-level queue; with --label";

const AUDIT_LABEL_HELP: &str = "The label of its partition; with --tenant";

fn audit_tenant_option<'a>(alloc: Global) -> Arg<'a>
    ensures rule { rule_of result ≡ spec.audit_tenant_rule }
    ensures local { result.global ≡ false }
{
    valued(alloc, "tenant", "NAME", AUDIT_TENANT_HELP)
}

fn audit_label_option<'a>(alloc: Global) -> Arg<'a>
    ensures rule { rule_of result ≡ spec.audit_label_rule }
    ensures local { result.global ≡ false }
{
    valued(alloc, "label", "LABEL", AUDIT_LABEL_HELP)
}

/// The subcommand `audit`.
pub(crate) fn audit_command<'a>(alloc: Global) -> Result<Command<'a>, AllocError>
    ensures { IfOk result (IsApp spec.audit_command) }
{
    with_options_and_files(
        alloc,
        bare(alloc, "audit", AUDIT_ABOUT, AUDIT_AFTER),
        audit_tenant_option(alloc),
        audit_label_option(alloc),
    )
}

/// The subcommand `evidence`.
pub(crate) fn evidence_command<'a>(alloc: Global) -> Result<Command<'a>, AllocError>
    ensures { IfOk result (IsApp spec.evidence_command) }
{
    with_partition(
        alloc,
        bare(alloc, "evidence", EVIDENCE_ABOUT, EVIDENCE_AFTER),
    )
}

/// Whether an audit is given the tenant or the label alone.
pub(crate) fn is_unpaired(subcommand: &str, options: &ArgMatches<'_>) -> bool
    ensures { result ≡ spec.is_unpaired (subcommand.now, rows_of (found_of options.now)) }
{
    if subcommand != "audit" {
        return false;
    }
    let tenant = value_in(options, "tenant").is_some();
    let label = value_in(options, "label").is_some();
    (tenant && !label) || (!tenant && label)
}

/// Whether an audit of evidence is given a state to begin from.
pub(crate) fn is_from_with_tenant(subcommand: &str, options: &ArgMatches<'_>) -> bool
    ensures { result ≡ spec.is_from_with_tenant (subcommand.now, rows_of (found_of options.now)) }
{
    if subcommand != "audit" {
        return false;
    }
    let from = value_in(options, "from").is_some();
    let tenant = value_in(options, "tenant").is_some();
    from && tenant
}

/// What `audit` asks for with these options, unless one of them is a bad name, or they do not go together.
pub(crate) fn audit_kind(options: &ArgMatches<'_>) -> Option<Kind>
    ensures { result ≡ spec.audit_met (rows_of (found_of options.now)) }
{
    let tenant = value_in(options, "tenant").is_some();
    let label = value_in(options, "label").is_some();
    if !tenant && !label {
        return Some(Kind::Sequential(SequentialKind::Audit));
    }
    if value_in(options, "from").is_some() {
        return None;
    }
    let (tenant, label) = partition_in(options)?;
    Some(Kind::Sequential(SequentialKind::AuditEvidence(tenant, label)))
}

/// What `evidence` asks for with these options, unless one of them is a bad name.
pub(crate) fn evidence_kind(options: &ArgMatches<'_>) -> Option<Kind>
    ensures { result ≡ spec.evidence_met (rows_of (found_of options.now)) }
{
    let (tenant, label) = partition_in(options)?;
    Some(Kind::Sequential(SequentialKind::Evidence(tenant, label)))
}
