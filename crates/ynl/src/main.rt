//! The program `ynl`: it reads events or a journal from standard input, and writes what comes of them to
//! standard output.
#![tactic(auto)]

use std::alloc::AllocError;
use std::fs::File;
use std::io::{BufReader, StdinLock};
use std::process::ExitCode;
use std::sync::Wait;
use std::thread::Threads;
use std::{env, io};
use ynl_tool::{
    BUILT_IN, Form, HashSeed, Job, JobTexts, Kind, SequentialKind, ToolFault, WordsFault, Workers,
    execute_check, execute_live, execute_sequential, execute_unread, fault_of, parse_words,
    read_state_text, read_text, tell,
};

fn main(rt: HostRuntime) -> ExitCode {
    let words = match read_words(&rt) {
        Ok(words) => words,
        Err(status) => return status,
    };
    match parse_words(rt.alloc(), words.as_slice()) {
        Ok(Job { kind, config, from }) => match kind {
            Kind::Sequential(sequential) => work(&rt, sequential, config, from),
            Kind::Check(form) => check(&rt, form, config),
            Kind::Live(workers, rounds) => work_live(&rt, &rt, workers, rounds, config, from),
        },
        Err(fault) => tell_words_fault(&rt, fault),
    }
}

/// The words that the program is called with, or the status that it ends with where there are none.
fn read_words(rt: &HostRuntime) -> Result<Vec<String>, ExitCode> {
    let args = match env::args(rt) {
        Ok(args) => args,
        Err(error) if fault_of(&error) == ToolFault::NoMemory => return Err(end_with(
            rt,
            ToolFault::NoMemory,
        )),
        Err(_) => {
            let _told = eprintln!(rt; "ynl: an argument is no text");
            return Err(ExitCode::from(2));
        }
    };
    match args.collect(rt.alloc()) {
        Ok(words) => Ok(words),
        Err(AllocError) => Err(end_with(rt, ToolFault::NoMemory)),
    }
}

fn tell_words_fault(rt: &HostRuntime, fault: WordsFault) -> ExitCode {
    let _told = match fault {
        WordsFault::Words(error) => eprint!(rt; "{error}"),
        WordsFault::BadName => eprintln!(rt; "ynl: bad name"),
        WordsFault::Unpaired => eprintln!(rt; "ynl: --tenant and --label go together"),
        WordsFault::FromWithTenant => {
            eprintln!(rt; "ynl: --from and --tenant do not go together")
        }
        WordsFault::NoMemory => return end_with(rt, ToolFault::NoMemory),
    };
    ExitCode::from(2)
}

fn open(rt: &HostRuntime, path: &str) -> Result<File, ToolFault> {
    match File::open(rt, path) {
        Ok(file) => Ok(file),
        Err(error) => Err(fault_of(&error)),
    }
}

/// The text of the configuration: of the file that is named, or else the built-in one.
fn read_configuration(
    rt: &HostRuntime,
    file: Option<&str>,
    text: &mut Vec<u8>,
) -> Result<(), ToolFault> {
    match file {
        Some(path) => read_text(&mut open(rt, path)?, text),
        None => read_text(&mut BUILT_IN.as_bytes(), text),
    }
}

/// The text of the state to begin from, if a file of one is named.
fn read_state(rt: &HostRuntime, file: Option<&str>) -> Result<Option<Vec<u8>>, ToolFault> {
    let Some(path) = file else {
        return Ok(None);
    };
    let mut text = Vec::new(rt.alloc());
    read_state_text(&mut open(rt, path)?, &mut text)?;
    Ok(Some(text))
}

/// What a job reads.
#[derive(Drop)]
struct Inputs {
    /// The text of the configuration.
    config: Vec<u8>,
    /// The text of the state to begin from, if one is named.
    from: Option<Vec<u8>>,
    /// Standard input.
    reader: BufReader<StdinLock<'static>>,
}

/// What a job reads, or the status that it ends with where that cannot be had. The configuration is tested before the
/// state, also where the state cannot be read.
fn open_inputs(
    rt: &HostRuntime,
    config: Option<&str>,
    from: Option<&str>,
) -> Result<Inputs, ExitCode> {
    let mut text = Vec::new(rt.alloc());
    if let Err(fault) = read_configuration(rt, config, &mut text) {
        return Err(end_with(rt, fault));
    }
    let from = match read_state(rt, from) {
        Ok(from) => from,
        Err(fault) => {
            let status = execute_unread(rt.alloc(), &text, fault, &mut rt.stderr());
            return Err(ExitCode::from(status));
        }
    };
    match BufReader::with_capacity(rt.alloc(), 65536, rt.reader()) {
        Ok(reader) => Ok(Inputs {
            config: text,
            from,
            reader,
        }),
        Err(error) => Err(end_with(rt, fault_of(&error))),
    }
}

/// Keys of this run's own, so that nobody can choose names that are slow to look up. A system without random bytes
/// gets the fixed ones: no answer depends on them.
fn seed_of(rt: &HostRuntime) -> HashSeed {
    match HashSeed::random(rt) {
        Ok(seed) => seed,
        Err(_) => HashSeed::fixed(),
    }
}

/// Does a job that needs one thread. Without a bound `Wait` it is proved to return.
fn work(
    rt: &HostRuntime,
    kind: SequentialKind,
    config: Option<&str>,
    from: Option<&str>,
) -> ExitCode {
    let mut inputs = match open_inputs(rt, config, from) {
        Ok(inputs) => inputs,
        Err(status) => return status,
    };
    let texts = JobTexts {
        config: &inputs.config,
        from: inputs.from.as_deref(),
    };
    let status = execute_sequential(
        rt.alloc(),
        seed_of(rt),
        kind,
        texts,
        &mut inputs.reader,
        &mut io::writer(rt),
        &mut rt.stderr(),
    );
    ExitCode::from(status)
}

/// Tells what the configuration says.
fn check(rt: &HostRuntime, form: Form, config: Option<&str>) -> ExitCode {
    let mut text = Vec::new(rt.alloc());
    if let Err(fault) = read_configuration(rt, config, &mut text) {
        return end_with(rt, fault);
    }
    let status = execute_check(
        rt.alloc(),
        form,
        &text,
        &mut io::writer(rt),
        &mut rt.stderr(),
    );
    ExitCode::from(status)
}

/// Does a job of threads. Below `main` the runtime has threads only as a handle of its own, so it comes
/// twice.
fn work_live<T: Threads + Wait + Sync>(
    rt: &HostRuntime,
    threads: &T,
    workers: Workers,
    rounds: u64,
    config: Option<&str>,
    from: Option<&str>,
) -> ExitCode {
    let mut inputs = match open_inputs(rt, config, from) {
        Ok(inputs) => inputs,
        Err(status) => return status,
    };
    let texts = JobTexts {
        config: &inputs.config,
        from: inputs.from.as_deref(),
    };
    let status = execute_live(
        threads,
        rt.alloc(),
        seed_of(rt),
        workers,
        rounds,
        texts,
        &mut inputs.reader,
        &mut io::writer(rt),
        &mut rt.stderr(),
    );
    ExitCode::from(status)
}

fn end_with(rt: &HostRuntime, fault: ToolFault) -> ExitCode {
    ExitCode::from(tell(&mut rt.stderr(), fault))
}
