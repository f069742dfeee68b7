//! Doing a job.

ghost use Rattle.std.specs.Prelude.{◌≡◌, Ok, IfOk, IfErr, OnOk, OnErr, option_map, true};
ghost use Rattle.std.specs.Io.KnownBytes.{Appends};
ghost use Rattle.ynl_config.specs.Meaning.{config_of};
ghost use Rattle.ynl_model.specs.Accepted.{is_accepted};
ghost use Rattle.ynl_commands.specs.Input.{between};
ghost use Rattle.ynl_commands.specs.Lines.{AppendsFront, AppendsPart};
ghost use Rattle.ynl_tool.specs.Jobs.{error_line, config_line, place_text, refusal_line, state_line, status_by, status_of, tenancy, begins, AuditsEvidenceJob, AuditsJob, DoesSequentialJob, DoesText, EndsUnread, EndsWithoutConfig, EndsWithoutState, Executes, ExecutesUnread, ExplainsJob, HandsJob, LivesJob, RunsJob, SavesJob, Tells};
ghost use Rattle.ynl_tool.specs.Checking.{verdict_status, ExecutesCheck};

use crate::checking::check_text;
use crate::live::{FreeGate, live_lines};
use itoa::Buffer;
use std::alloc::Global;
use std::io::{BufRead, Write};
use std::sync::Wait;
use std::thread::Threads;
use thiserror::Error;
use ynl_check::{Form, Verdict};
use ynl_commands::lines_out::{WriteFault, write_text, write_three};
use ynl_commands::{
    Summary, Tenancy, ToolFault, audit_evidence_lines, audit_lines, evidence_lines, explain_lines,
    run_lines, save_lines, tenant_lines,
};
use ynl_config::{ConfigFault, read_config};
use ynl_core::Core;
use ynl_journal::Start;
use ynl_queues::Config;
use ynl_resource::{HashSeed, Label, Name};
use ynl_saved_text::BadState;
use ynl_states::read_state;
use ynl_view::sole;
use ynl_words::{Question, SequentialKind, Workers};

/// Why a job is not begun, or comes to nothing: nothing is written then.
#[derive(Clone, Copy, Debug, PartialEq, Eq, Error)]
pub enum JobRefusal {
    /// The text is no configuration.
    #[error("no configuration: {0}")]
    Config(ConfigFault),
    /// The tenant is not alone on an exclusive partition of that label.
    #[error("the tenant is not alone on the partition")]
    NotSole,
    /// The text of the state is none, or would be too long.
    #[error("no state: {}", .0.fault)]
    State(BadState),
}

/// The line that tells a fault.
fn error_line(fault: ToolFault) -> &'static str
    ensures { result.now ≡ error_line fault }
{
    match fault {
        ToolFault::Read => "ynl: read fault\n",
        ToolFault::Write => "ynl: write fault\n",
        ToolFault::NoMemory => "ynl: out of memory\n",
        ToolFault::Unclosed => "ynl: not closed\n",
    }
}

/// Writes the line that tells a fault. Where that fails too, the exit status alone tells it.
fn tell_fault<E: Write>(errors: &mut E, fault: ToolFault)
    ensures { AppendsFront (E.contents errors.old) (E.contents errors.new) (error_line fault) }
{
    let _told = write_text(errors, error_line(fault).as_bytes());
}

/// Writes the line that tells why a text is no configuration.
fn tell_config_fault<E: Write>(errors: &mut E, fault: ConfigFault)
    ensures { AppendsFront (E.contents errors.old) (E.contents errors.new) (config_line fault) }
{
    let _told = write_three(errors, b"ynl: config: ", fault.word().as_bytes(), b"\n");
}

/// Writes where a text has its fault, to the end of the line.
fn write_place<E: Write>(errors: &mut E, line: u64) -> Result<(), WriteFault>
    ensures ok { OnOk result (Appends (E.contents errors.old) (E.contents errors.new) (place_text line)) }
    ensures err { OnErr result (AppendsPart (E.contents errors.old) (E.contents errors.new) (place_text line)) }
{
    if line == 0 {
        return write_text(errors, b"\n");
    }
    let mut digits = Buffer::new();
    write_three(errors, b", line ", digits.format(line).as_bytes(), b"\n")
}

/// Writes the line that tells why there is no state.
fn write_bad_state<E: Write>(errors: &mut E, bad: BadState) -> Result<(), WriteFault>
    ensures ok { OnOk result (Appends (E.contents errors.old) (E.contents errors.new) (state_line bad)) }
    ensures err { OnErr result (AppendsPart (E.contents errors.old) (E.contents errors.new) (state_line bad)) }
{
    write_text(errors, b"ynl: state: ")?;
    write_text(errors, bad.fault.word().as_bytes())?;
    write_place(errors, bad.line)
}

/// Writes the line that tells why there is no state. Where that fails too, the exit status alone tells it.
fn tell_bad_state<E: Write>(errors: &mut E, bad: BadState)
    ensures { AppendsFront (E.contents errors.old) (E.contents errors.new) (state_line bad) }
{
    let _told = write_bad_state(errors, bad);
}

/// Writes the line that tells why a job is not begun, or comes to nothing.
fn tell_refusal<E: Write>(errors: &mut E, refusal: JobRefusal)
    ensures { AppendsFront (E.contents errors.old) (E.contents errors.new) (refusal_line refusal) }
{
    match refusal {
        JobRefusal::Config(fault) => tell_config_fault(errors, fault),
        JobRefusal::NotSole => {
            let _told = write_text(errors, b"ynl: not sole\n");
        }
        JobRefusal::State(bad) => tell_bad_state(errors, bad),
    }
}

/// How a job ends.
type Ending = Result<Result<Summary, JobRefusal>, ToolFault>;

fn tenancy(config: Config, tenant: Name, label: Label) -> Tenancy
    ensures { result ≡ tenancy config tenant label }
{
    Tenancy {
        config,
        tenant,
        label,
    }
}

/// Writes the evidence of a journal, if the tenant is alone on the partition.
fn hand_evidence<R: BufRead, W: Write>(
    alloc: Global,
    whose: &Tenancy,
    reader: &mut R,
    writer: &mut W,
) -> Ending
    ensures { HandsJob (between (R.remaining reader.old) (R.remaining reader.new)) (between (W.contents writer.old) (W.contents writer.new)) whose.now result }
{
    if !sole(&whose.config, &whose.tenant, &whose.label) {
        return Ok(Err(JobRefusal::NotSole));
    }
    match evidence_lines(alloc, whose, reader, writer) {
        Ok(summary) => Ok(Ok(summary)),
        Err(fault) => Err(fault),
    }
}

/// Audits evidence, if the tenant is alone on the partition.
fn audit_evidence<R: BufRead, W: Write>(
    alloc: Global,
    whose: &Tenancy,
    reader: &mut R,
    writer: &mut W,
) -> Ending
    ensures { AuditsEvidenceJob (between (R.remaining reader.old) (R.remaining reader.new)) (between (W.contents writer.old) (W.contents writer.new)) whose.now result }
{
    if !sole(&whose.config, &whose.tenant, &whose.label) {
        return Ok(Err(JobRefusal::NotSole));
    }
    match audit_evidence_lines(alloc, whose, reader, writer) {
        Ok(summary) => Ok(Ok(summary)),
        Err(fault) => Err(fault),
    }
}

/// The cluster that a job begins with: one that is just opened, or that of a text's state; or how a job ends that has none, since
/// it is not begun then.
fn begin(alloc: Global, config: Config, from: Option<&[u8]>) -> Result<Core, Ending>
    requires { is_accepted config ≡ true }
    ensures state { IfOk result (λ core. begins config (option_map (λ text. text.now) from.entry) ≡ Ok core.state) }
    ensures config { IfOk result (λ core. core.config ≡ config) }
    ensures none { IfErr result (EndsWithoutState config (option_map (λ text. text.now) from.entry)) }
{
    match from {
        None => match Core::open(alloc, config) {
            Ok(core) => Ok(core),
            Err(_) => Err(Err(ToolFault::NoMemory)),
        },
        Some(text) => match read_state(alloc, config, text) {
            Ok(Ok(core)) => Ok(core),
            Ok(Err(bad)) => Err(Ok(Err(JobRefusal::State(bad)))),
            Err(_) => Err(Err(ToolFault::NoMemory)),
        },
    }
}

/// Runs a cluster of this configuration, from the state that it begins from.
fn run_job<R: BufRead, W: Write>(
    alloc: Global,
    config: Config,
    from: Option<&[u8]>,
    reader: &mut R,
    writer: &mut W,
) -> Ending
    requires { is_accepted config ≡ true }
    ensures { RunsJob (between (R.remaining reader.old) (R.remaining reader.new)) (between (W.contents writer.old) (W.contents writer.new)) config (option_map (λ text. text.now) from.entry) result }
{
    let core = match begin(alloc, config, from) {
        Ok(core) => core,
        Err(ended) => return ended,
    };
    match run_lines(alloc, core, reader, writer) {
        Ok(summary) => Ok(Ok(summary)),
        Err(fault) => Err(fault),
    }
}

/// Audits a journal against a cluster of this configuration, from the state that it begins from.
fn audit_job<R: BufRead, W: Write>(
    alloc: Global,
    config: Config,
    from: Option<&[u8]>,
    reader: &mut R,
    writer: &mut W,
) -> Ending
    requires { is_accepted config ≡ true }
    ensures { AuditsJob (between (R.remaining reader.old) (R.remaining reader.new)) (between (W.contents writer.old) (W.contents writer.new)) config (option_map (λ text. text.now) from.entry) result }
{
    let core = match begin(alloc, config, from) {
        Ok(core) => core,
        Err(ended) => return ended,
    };
    match audit_lines(alloc, core, reader, writer) {
        Ok(summary) => Ok(Ok(summary)),
        Err(fault) => Err(fault),
    }
}

/// Saves the state of a cluster of this configuration after a script, from the state that it begins from.
fn save_job<R: BufRead, W: Write>(
    alloc: Global,
    config: Config,
    from: Option<&[u8]>,
    reader: &mut R,
    writer: &mut W,
) -> Ending
    requires { is_accepted config ≡ true }
    ensures { SavesJob (between (R.remaining reader.old) (R.remaining reader.new)) (between (W.contents writer.old) (W.contents writer.new)) config (option_map (λ text. text.now) from.entry) result }
{
    let core = match begin(alloc, config, from) {
        Ok(core) => core,
        Err(ended) => return ended,
    };
    match save_lines(alloc, core, reader, writer) {
        Ok(Ok(summary)) => Ok(Ok(summary)),
        Ok(Err(fault)) => Ok(Err(JobRefusal::State(BadState { fault, line: 0 }))),
        Err(fault) => Err(fault),
    }
}

/// Explains why an application waits in a cluster of this configuration after a script, from the state that it begins from.
fn explain_job<R: BufRead, W: Write>(
    alloc: Global,
    config: Config,
    from: Option<&[u8]>,
    question: &Question,
    reader: &mut R,
    writer: &mut W,
) -> Ending
    requires { is_accepted config ≡ true }
    ensures { ExplainsJob (between (R.remaining reader.old) (R.remaining reader.new)) (between (W.contents writer.old) (W.contents writer.new)) config (option_map (λ text. text.now) from.entry) question.now result }
{
    let core = match begin(alloc, config, from) {
        Ok(core) => core,
        Err(ended) => return ended,
    };
    match explain_lines(alloc, core, question, reader, writer) {
        Ok(summary) => Ok(Ok(summary)),
        Err(fault) => Err(fault),
    }
}

/// Runs a live scheduler of this configuration with so many workers and rounds, from the state that it begins from.
fn live_job<T: Threads + Wait + Sync, R: BufRead, W: Write>(
    rt: &T,
    alloc: Global,
    config: Config,
    from: Option<&[u8]>,
    workers: Workers,
    rounds: u64,
    reader: &mut R,
    writer: &mut W,
) -> Ending
    requires { is_accepted config ≡ true }
    ensures { LivesJob rounds (option_map (λ text. text.now) from.entry) (between (R.remaining reader.old) (R.remaining reader.new)) (between (W.contents writer.old) (W.contents writer.new)) config result }
{
    let core = match begin(alloc, config, from) {
        Ok(core) => core,
        Err(ended) => return ended,
    };
    let start = Start::resumed(core);
    let count = workers.number();
    match live_lines(rt, alloc, start, count, rounds, &FreeGate, reader, writer) {
        Ok(summary) => Ok(Ok(summary)),
        Err(fault) => Err(fault),
    }
}

/// Does the job with a cluster of this configuration.
fn do_job<R: BufRead, W: Write>(
    alloc: Global,
    kind: SequentialKind,
    config: Config,
    from: Option<&[u8]>,
    reader: &mut R,
    writer: &mut W,
) -> Ending
    requires { is_accepted config ≡ true }
    ensures { DoesSequentialJob (is_accepted config) kind (option_map (λ text. text.now) from.entry) (between (R.remaining reader.old) (R.remaining reader.new)) (between (W.contents writer.old) (W.contents writer.new)) config result }
{
    match kind {
        SequentialKind::Run => run_job(alloc, config, from, reader, writer),
        SequentialKind::Tenant(tenant, label) => {
            if !sole(&config, &tenant, &label) {
                return Ok(Err(JobRefusal::NotSole));
            }
            match tenant_lines(alloc, config, &tenant, &label, reader, writer) {
                Ok(summary) => Ok(Ok(summary)),
                Err(fault) => Err(fault),
            }
        }
        SequentialKind::Audit => audit_job(alloc, config, from, reader, writer),
        SequentialKind::Evidence(tenant, label) => {
            let whose = tenancy(config, tenant, label);
            hand_evidence(alloc, &whose, reader, writer)
        }
        SequentialKind::AuditEvidence(tenant, label) => {
            let whose = tenancy(config, tenant, label);
            audit_evidence(alloc, &whose, reader, writer)
        }
        SequentialKind::Save => save_job(alloc, config, from, reader, writer),
        SequentialKind::Explain(question) => {
            explain_job(alloc, config, from, &question, reader, writer)
        }
    }
}

/// The configuration that a text means, with this seed; or how a job ends that has none, since it is not begun then.
fn read_job_config(alloc: Global, seed: HashSeed, text: &[u8]) -> Result<Config, Ending>
    ensures config { IfOk result (λ config. config_of text.now ≡ Ok config) }
    ensures accepted { IfOk result (λ config. is_accepted config ≡ true) }
    ensures none { IfErr result (EndsWithoutConfig text.now) }
{
    match read_config(alloc, text) {
        Ok(Ok(config)) => Ok(config.with_seed(seed)),
        Ok(Err(fault)) => Err(Ok(Err(JobRefusal::Config(fault)))),
        Err(_) => Err(Err(ToolFault::NoMemory)),
    }
}

/// The texts that a job is given beside its input.
#[derive(Clone, Copy)]
pub struct JobTexts<'a> {
    /// The text of the configuration.
    pub config: &'a [u8],
    /// The text of the state that the job begins from, if that is not the opening state. Only the jobs that
    /// run, live, audit, save and explain begin from a state.
    pub from: Option<&'a [u8]>,
}

/// Does the job with the configuration that a text means. Where it means none nothing is done.
fn do_text<R: BufRead, W: Write>(
    alloc: Global,
    seed: HashSeed,
    kind: SequentialKind,
    texts: JobTexts<'_>,
    reader: &mut R,
    writer: &mut W,
) -> Ending
    ensures { DoesText (between (R.remaining reader.old) (R.remaining reader.new)) (between (W.contents writer.old) (W.contents writer.new)) (DoesSequentialJob true kind (option_map (λ text. text.now) texts.entry.from)) texts.entry.config.now result }
{
    match read_job_config(alloc, seed, texts.config) {
        Ok(config) => do_job(alloc, kind, config, texts.from, reader, writer),
        Err(ended) => ended,
    }
}

/// The same of a live scheduler with so many workers and rounds.
fn do_live_text<T: Threads + Wait + Sync, R: BufRead, W: Write>(
    rt: &T,
    alloc: Global,
    seed: HashSeed,
    workers: Workers,
    rounds: u64,
    texts: JobTexts<'_>,
    reader: &mut R,
    writer: &mut W,
) -> Ending
    ensures { DoesText (between (R.remaining reader.old) (R.remaining reader.new)) (between (W.contents writer.old) (W.contents writer.new)) (LivesJob rounds (option_map (λ text. text.now) texts.entry.from)) texts.entry.config.now result }
{
    match read_job_config(alloc, seed, texts.config) {
        Ok(config) => live_job(
            rt, alloc, config, texts.from, workers, rounds, reader, writer,
        ),
        Err(ended) => ended,
    }
}

/// Tells on `errors` what kept a job from its end, if anything did, and gives the exit status.
fn tell_ending<E: Write>(errors: &mut E, ended: Ending) -> u8
    ensures told { Tells (E.contents errors.old) (E.contents errors.new) ended }
    ensures status { result ≡ status_by ended }
{
    match ended {
        Ok(Ok(summary)) => status_of(summary),
        Ok(Err(refusal)) => {
            tell_refusal(errors, refusal);
            1
        }
        Err(fault) => tell(errors, fault),
    }
}

/// Does the job, which needs one thread, with the configuration that the first text means, from the opening
/// state or from that of the second text, and gives the exit status: 0, or 1 if the first text means no
/// configuration, the second no state, or the tenant is not alone on the partition, as a line on `errors` tells,
/// or if a line of the input had a fault; or 3 after a fault of reading, writing or memory, which a line on
/// `errors` tells. The configuration is read first, then the state, under it, and only then the input. Names are
/// hashed with the seed. Each call returns, since it waits for no thread.
pub fn execute_sequential<R: BufRead, W: Write, E: Write>(
    alloc: Global,
    seed: HashSeed,
    kind: SequentialKind,
    texts: JobTexts<'_>,
    reader: &mut R,
    writer: &mut W,
    errors: &mut E,
) -> u8
    ensures { Executes (between (R.remaining reader.old) (R.remaining reader.new)) (between (W.contents writer.old) (W.contents writer.new)) (between (E.contents errors.old) (E.contents errors.new)) (DoesSequentialJob true kind (option_map (λ text. text.now) texts.entry.from)) texts.entry.config.now result }
{
    let ended = do_text(alloc, seed, kind, texts, reader, writer);
    tell_ending(errors, ended)
}

/// The same of a live scheduler with so many workers, which go over the nodes for so many rounds. It may wait. Its
/// status is 3 also where its journal is not closed.
pub fn execute_live<T: Threads + Wait + Sync, R: BufRead, W: Write, E: Write>(
    rt: &T,
    alloc: Global,
    seed: HashSeed,
    workers: Workers,
    rounds: u64,
    texts: JobTexts<'_>,
    reader: &mut R,
    writer: &mut W,
    errors: &mut E,
) -> u8
    ensures { Executes (between (R.remaining reader.old) (R.remaining reader.new)) (between (W.contents writer.old) (W.contents writer.new)) (between (E.contents errors.old) (E.contents errors.new)) (LivesJob rounds (option_map (λ text. text.now) texts.entry.from)) texts.entry.config.now result }
{
    let ended = do_live_text(rt, alloc, seed, workers, rounds, texts, reader, writer);
    tell_ending(errors, ended)
}

/// How a job ends whose state could not be read.
fn end_unread(alloc: Global, text: &[u8], fault: ToolFault) -> Ending
    ensures { EndsUnread fault text.now result }
{
    match read_config(alloc, text) {
        Ok(Ok(_config)) => Err(fault),
        Ok(Err(bad)) => Ok(Err(JobRefusal::Config(bad))),
        Err(_) => Err(ToolFault::NoMemory),
    }
}

/// Tells the fault with which the text of a state could not be read, and gives the exit status, 3. The configuration is tested
/// before the state: where its text means none, that is told, and the status is 1. No job is begun.
pub fn execute_unread<E: Write>(alloc: Global, text: &[u8], fault: ToolFault, errors: &mut E) -> u8
    ensures { ExecutesUnread (between (E.contents errors.old) (E.contents errors.new)) fault text.now result }
{
    let ended = end_unread(alloc, text, fault);
    tell_ending(errors, ended)
}

/// Tells what the text says as a configuration, and gives the exit status: 0 for one that is accepted, 1 for a text
/// that has a fault, both without a line on `errors`; or 3 after a fault of writing or memory, which a line there
/// tells. Nothing is read.
pub fn execute_check<W: Write, E: Write>(
    alloc: Global,
    form: Form,
    text: &[u8],
    writer: &mut W,
    errors: &mut E,
) -> u8
    ensures { ExecutesCheck (between (W.contents writer.old) (W.contents writer.new)) (between (E.contents errors.old) (E.contents errors.new)) form text.now result }
{
    match check_text(alloc, form, text, writer) {
        Ok(verdict) => verdict_status(verdict),
        Err(fault) => tell(errors, fault),
    }
}

fn verdict_status(verdict: Verdict) -> u8
    ensures { result ≡ verdict_status verdict }
{
    match verdict {
        Verdict::Accepted => 0,
        Verdict::Faulty => 1,
    }
}

/// Tells a fault of reading, writing or memory, and gives its status.
pub fn tell<E: Write>(errors: &mut E, fault: ToolFault) -> u8
    ensures told { AppendsFront (E.contents errors.old) (E.contents errors.new) (error_line fault) }
    ensures status { result ≡ 3 }
{
    tell_fault(errors, fault);
    3
}

fn status_of(summary: Summary) -> u8
    ensures { result ≡ status_of summary }
{
    match summary.fault {
        None => 0,
        Some(_) => 1,
    }
}
