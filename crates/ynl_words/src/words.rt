//! The words of the command line.

ghost use Rattle.std.specs.Prelude.{◌≡◌, ◌∷◌, [], IfOk, IfErr, IsErr, Some, None, is_some, option_map, drop, map, codes, true};
ghost use Rattle.std.specs.String.{string_bytes};
ghost use Rattle.clap.specs.Simple.{App, with_subcommand};
ghost use Rattle.clap.specs.Faults.{fault_of};
ghost use Rattle.clap.specs.Kinds.{IsAmong};
ghost use Rattle.clap.specs.Takes.{takes};
ghost use Rattle.clap.specs.Values.{kind_of};
ghost use Rattle.clap.specs.declared.error.Error.{Error};
ghost use Rattle.clap.specs.Words.{found_of, rows_of};
ghost use Rattle.ynl_words.specs.Words.{IsApp};
ghost use Rattle.ynl_words.specs.Words as spec;
ghost use Rattle.ynl_words.specs.declared.words.WordsFault.TheVariants.{Words, BadName, Unpaired, FromWithTenant, NoMemory};

use crate::audit_words::{
    audit_command, audit_kind, evidence_command, evidence_kind, is_from_with_tenant, is_unpaired,
};
use crate::check_words::{check_command, check_kind};
use crate::explain_words::{explain_command, explain_kind};
use crate::live_words::{Workers, live_command, live_kind};
use crate::options::{bare, partition_in, value_in, with_files, with_partition};
use crate::save_words::save_command;
use clap::error::ErrorKind;
use clap::{ArgMatches, Command};
use std::alloc::{AllocError, Global};
use thiserror::Error;
use ynl_check::Form;
use ynl_resource::{Label, Name};

/// What is to be explained: why an application of a tenant waits, and in which form.
#[derive(Clone, Copy)]
pub struct Question {
    pub tenant: Name,
    pub app: Name,
    pub form: Form,
}

/// What the program is asked to do on one thread: such a job waits for nothing but its input.
#[derive(Clone, Copy)]
pub enum SequentialKind {
    /// To answer the events of an input.
    Run,
    /// To tell a tenant what the partition of a label sees of an input.
    Tenant(Name, Label),
    /// To audit the journal that an input is.
    Audit,
    /// To hand a tenant what the partition of a label keeps of the journal that an input is.
    Evidence(Name, Label),
    /// To audit an input as a tenant's evidence on the partition of a label.
    AuditEvidence(Name, Label),
    /// To explain why an application of a tenant waits after an input.
    Explain(Question),
    /// To write the state of the cluster after an input.
    Save,
}

/// What the program is asked to do.
#[derive(Clone, Copy)]
pub enum Kind {
    /// A job that needs one thread.
    Sequential(SequentialKind),
    /// To tell what the configuration says.
    Check(Form),
    /// To run so many workers over the nodes that an input leaves, for so many rounds.
    Live(Workers, u64),
}

/// A piece of work for the program.
#[derive(Clone, Copy)]
pub struct Job<'a> {
    pub kind: Kind,
    /// The file of the configuration, where one is named.
    pub config: Option<&'a str>,
    /// The file of the state that the cluster begins from, where one is named.
    pub from: Option<&'a str>,
}

/// Why the words give no job.
#[derive(Debug, Drop, Error)]
pub enum WordsFault {
    /// They are wrong, or ask for help. The error's text is what the user is to read.
    #[error(transparent)]
    Words(clap::Error),
    /// The tenant or the application is no name, or the label is none.
    #[error("the tenant or the application is no name, or the label is none")]
    BadName,
    /// Of the tenant and the label of an audit one is given alone.
    #[error("--tenant and --label go together")]
    Unpaired,
    /// An audit of evidence is given a state to begin from.
    #[error("--from and --tenant do not go together")]
    FromWithTenant,
    /// Memory was refused.
    #[error("out of memory")]
    NoMemory,
}

impl From<AllocError> for WordsFault {
    ghost use Rattle.std.specs.Prelude.{◌≡◌};
    ghost use Rattle.ynl_words.specs.declared.words.WordsFault.TheVariants.{NoMemory};

    ghost from_gives = { λ _ e. e ≡ NoMemory };

    fn from(_error: AllocError) -> WordsFault {
        WordsFault::NoMemory
    }
}

impl From<clap::Error> for WordsFault {
    ghost use Rattle.std.specs.Prelude.{◌≡◌, ◌≢◌, ◌⊎◌};
    ghost use Rattle.clap.specs.Values.{kind_of};
    ghost use Rattle.clap.specs.declared.error.kind.ErrorKind.TheVariants.{OutOfMemory};
    ghost use Rattle.ynl_words.specs.declared.words.WordsFault.TheVariants.{Words, NoMemory};

    ghost from_gives = { λ error e. ((kind_of error ≡ OutOfMemory) × (e ≡ NoMemory)) ⊎ ((kind_of error ≢ OutOfMemory) × (e ≡ Words error)) };

    fn from(error: clap::Error) -> WordsFault {
        if error.kind() == ErrorKind::OutOfMemory {
            return WordsFault::NoMemory;
        }
        WordsFault::Words(error)
    }
}

const ABOUT: &str = "Decides which containers of a cluster run on which node";

const AFTER: &str = "\
Exit status:
  0  the input was read to its end
  1  a line of the input is bad, or the input is too long: the last line of the output tells; or the
     configuration or a state has a fault, a tenant is not alone on its partition, or a state is too
     long: standard error tells, and of check the output
  2  the words of the command line are wrong, or ask for help
  3  reading, writing or memory failed, or a live scheduler's journal was not closed, as a line on
     standard error tells

Examples:
  ynl run < events > replies
  ynl tenant --tenant eng --label gpu < events
  ynl audit < journal
  ynl evidence --tenant eng --label gpu < journal
  ynl explain --tenant eng --app j1 < events
  ynl save < events > state
  ynl run --from state < events > replies
  ynl check --config cluster.toml
  ynl live --workers 4 < events > journal";

const RUN_ABOUT: &str = "Answers the events of standard input, one reply for each";

const RUN_AFTER: &str = "\
Standard input has an event on each line, a JSON object with just the keys of its kind. Memory is in
MB. A line of blanks is passed over.

  {\"event\":\"register\",\"label\":\"gpu\",\"memory\":10000,\"node\":\"g1\",\"vcores\":10}
  {\"app\":\"j1\",\"event\":\"submit\",\"label\":\"gpu\",\"memory\":1000,\"queue\":\"root.eng\",\"user\":\"ann\",\"vcores\":1}
  {\"event\":\"heartbeat\",\"node\":\"g1\"}

Standard output has a reply for each event, a JSON object on a line, as soon as the event is read:

  {\"reply\":\"done\"}
  {\"reply\":\"done\"}
  {\"placed\":[{\"app\":\"j1\",\"id\":\"gpu#2\", ..}],\"reply\":\"placed\"}

A line that is no event ends the run. The last line of the output tells its fault and its number, as
{\"fault\":\"syntax\",\"line\":4}; the faults are syntax, event, field, name and range, and size where the
input is longer than 67108864 bytes.

With --from the cluster begins from the state in that file, as save wrote it, and not from its
opening state. A fault of that text is told on standard error before the input is read, by its word
and its line:

  ynl: state: syntax, line 3

Exit status:
  0  every event was answered
  1  a line of the input is no event, or the input is too long; or the configuration or the state
     has a fault, as a line on standard error tells: nothing is read
  2  the words of the command line are wrong, or ask for help
  3  reading, writing or memory failed, as a line on standard error tells

Example:
  printf '{\"event\":\"heartbeat\",\"node\":\"g1\"}\\n' | ynl run";

const TENANT_ABOUT: &str = "Tells a tenant what its own partition sees of the events";

const TENANT_AFTER: &str = "\
The tenant is a top-level queue that alone may use an exclusive label: --tenant eng names root.eng.
Standard input has an event on each line, as for run. Once it is read to its end, standard output has
those events that bear on the tenant and the partition, each with its place, counted from 0 over the
events of the input, and the reply of a cluster that holds the tenant alone and is given only them:

  {\"event\":{\"event\":\"lost\",\"node\":\"g1\"},\"place\":6,\"reply\":{\"reply\":\"done\"}}

In the cluster of run each of these places has the very same reply. A line that is no event ends the
input: the events before it are told, and the last line of the output tells its fault, as for run.

Exit status:
  0  all was told
  1  a line of the input is no event, or the input is too long; or the tenant is not alone on the
     partition, or the configuration has a fault, as a line on standard error tells: nothing is read
  2  the words of the command line are wrong, or ask for help; or the tenant is no name, or the label
  3  reading, writing or memory failed, as a line on standard error tells

Example:
  ynl tenant --tenant eng --label gpu --config cluster.toml < events";

fn run<'a>(alloc: Global) -> Result<Command<'a>, AllocError>
    ensures { IfOk result (IsApp spec.run_command) }
{
    with_files(alloc, bare(alloc, "run", RUN_ABOUT, RUN_AFTER))
}

/// The subcommand `tenant`.
fn tenant<'a>(alloc: Global) -> Result<Command<'a>, AllocError>
    ensures { IfOk result (IsApp spec.tenant_command) }
{
    with_partition(alloc, bare(alloc, "tenant", TENANT_ABOUT, TENANT_AFTER))
}

/// The command without its subcommands.
fn bare_command<'a>(alloc: Global) -> Result<Command<'a>, AllocError>
    ensures { IfOk result (IsApp spec.bare_command) }
{
    bare(alloc, "ynl", ABOUT, AFTER)?
        .subcommand_required(true)
        .bin_name("ynl")
}

/// The command with a subcommand more.
fn with<'a>(
    command: Result<Command<'a>, AllocError>,
    subcommand: Result<Command<'a>, AllocError>,
) -> Result<Command<'a>, AllocError>
    ensures { (a b : App) → IfOk command.entry (IsApp a) → IfOk subcommand.entry (IsApp b) → IfOk result (IsApp (with_subcommand a b.top)) }
{
    let subcommand = subcommand?;
    command?.subcommand(subcommand)
}

/// The command `ynl`.
fn command<'a>(alloc: Global) -> Result<Command<'a>, AllocError>
    ensures { IfOk result (IsApp spec.command) }
{
    let command = with(bare_command(alloc), run(alloc));
    let command = with(command, tenant(alloc));
    let command = with(command, audit_command(alloc));
    let command = with(command, evidence_command(alloc));
    let command = with(command, explain_command(alloc));
    let command = with(command, save_command(alloc));
    let command = with(command, check_command(alloc));
    with(command, live_command(alloc))
}

/// What `tenant` asks for with these options, unless one of them is a bad name.
fn tenant_kind(options: &ArgMatches<'_>) -> Option<Kind>
    ensures { result ≡ spec.tenant_met (rows_of (found_of options.now)) }
{
    let (tenant, label) = partition_in(options)?;
    Some(Kind::Sequential(SequentialKind::Tenant(tenant, label)))
}

/// What a subcommand asks for with these options, unless one of them is a bad name.
fn kind_of(subcommand: &str, options: &ArgMatches<'_>) -> Option<Kind>
    ensures { result ≡ spec.kind_met (subcommand.now, rows_of (found_of options.now)) }
{
    if subcommand == "tenant" {
        return tenant_kind(options);
    }
    if subcommand == "audit" {
        return audit_kind(options);
    }
    if subcommand == "evidence" {
        return evidence_kind(options);
    }
    if subcommand == "explain" {
        return explain_kind(options);
    }
    if subcommand == "save" {
        return Some(Kind::Sequential(SequentialKind::Save));
    }
    if subcommand == "live" {
        return live_kind(options);
    }
    if subcommand == "check" {
        return Some(check_kind(options));
    }
    Some(Kind::Sequential(SequentialKind::Run))
}

/// The job that the words ask for, with the files that `--config` and `--from` name. The first word is the
/// program's name. Words that `clap` takes give their job, unless memory is refused, or the tenant or the
/// application is no name, or the label none, or of the two an audit is given one alone, or both and a state.
/// Of all others its error is told, which has one of the kinds that its definitions find.
// Inlined, its 36 KB would stand in the caller's frame until the job has ended.
#[inline(never)]
pub fn parse_words<'a>(alloc: Global, words: &'a [String]) -> Result<Job<'a>, WordsFault>
    ensures run { drop 1 (map string_bytes words.now) ≡ codes "run" ∷ [] → IfErr result (λ e. e ≡ NoMemory) }
    ensures kind { IfOk result (λ job. spec.kind_of (map string_bytes words.now) ≡ Some job.kind) }
    ensures good { takes spec.command (map string_bytes words.now) ≡ true → is_some (spec.kind_of (map string_bytes words.now)) ≡ true → IfErr result (λ e. e ≡ NoMemory) }
    ensures bad { IfErr result (λ e. e ≡ BadName → spec.HasBadName (map string_bytes words.now)) }
    ensures unpaired { IfErr result (λ e. e ≡ Unpaired → spec.IsUnpaired (map string_bytes words.now)) }
    ensures mixed { IfErr result (λ e. e ≡ FromWithTenant → spec.IsFromWithTenant (map string_bytes words.now)) }
    ensures words { IfErr result (λ e. (error : Error) → e ≡ Words error → IsAmong (kind_of error) (fault_of spec.command (map string_bytes words.now))) }
    ensures file { IfOk result (λ job. option_map (λ s. s.now) job.config ≡ spec.file_of (map string_bytes words.now)) }
    ensures from { IfOk result (λ job. option_map (λ s. s.now) job.from ≡ spec.from_of (map string_bytes words.now)) }
    ensures missing { drop 1 (map string_bytes words.now) ≡ [] → IsErr result }
{
    let matches = command(alloc)?.try_get_matches_from(words)?;
    match matches.subcommand() {
        Some((name, options)) => {
            if is_unpaired(name, options) {
                return Err(WordsFault::Unpaired);
            }
            if is_from_with_tenant(name, options) {
                return Err(WordsFault::FromWithTenant);
            }
            let Some(kind) = kind_of(name, options) else {
                return Err(WordsFault::BadName);
            };
            let config = value_in(options, "config");
            let from = value_in(options, "from");
            Ok(Job { kind, config, from })
        }
        // One is required.
        None => unreachable!(),
    }
}
