//! The lines of an input, read one after another up to a limit of bytes.

ghost use Rattle.std.specs.Prelude.{◌≡◌, ◌≢◌, ◌+◌, ◌<◌, ◌≤◌, All, IfOk, IfErr, OnErr, false, length, take, vec_len, slice_index};
ghost use Rattle.std.specs.IoError.{error_kind};
ghost use Rattle.ynl_commands.specs.Input.{between, limit, BreaksOff, FailsAtOnce, Takes, TakesAtHand};
ghost use Rattle.ynl_commands.specs.Lines.{read_fault, AddsShown, FailsAs, ShowsBeyond, GivesPiece, GivesLine};

use memchr::memchr;
use std::alloc::{AllocError, Global};
use std::io;
use std::io::{BufRead, ErrorKind};
use thiserror::Error;
use ynl_core::NoMemory;

/// The byte that ends a line.
const NEWLINE: u8 = 10;

/// How many bytes of an input are read at most.
const LIMIT: usize = 67108864;

/// How a line ended.
#[derive(Clone, Copy, Debug, PartialEq, Eq)]
pub enum LineEnd {
    /// By the newline, which is not kept.
    Newline,
    /// By the end of the input.
    Input,
    /// By a byte past the budget, which was read.
    Budget,
}

/// Why a line could not be read, or what it says not be kept or applied.
#[derive(Clone, Copy, Debug, PartialEq, Eq, Error)]
pub enum ReadFault {
    /// The reader failed.
    #[error("read fault")]
    Read,
    /// There was no memory for the line, or for what it says.
    #[error("out of memory")]
    NoMemory,
}

impl From<AllocError> for ReadFault {
    ghost use Rattle.std.specs.Prelude.{◌≡◌};
    ghost use Rattle.ynl_commands.specs.declared.lines_in.ReadFault.TheVariants.{NoMemory};

    ghost from_gives = { λ _ e. e ≡ NoMemory };

    fn from(_e: AllocError) -> ReadFault {
        ReadFault::NoMemory
    }
}

impl From<NoMemory> for ReadFault {
    ghost use Rattle.std.specs.Prelude.{◌≡◌};
    ghost use Rattle.ynl_commands.specs.declared.lines_in.ReadFault.TheVariants as fault;

    ghost from_gives = { λ _ e. e ≡ fault.NoMemory };

    fn from(_e: NoMemory) -> ReadFault {
        ReadFault::NoMemory
    }
}

/// The place of the first newline, or the length.
pub fn newline_or_end(bytes: &[u8]) -> usize
    ensures bound { result ≤ length bytes.now }
    ensures before { All (λ x. x ≢ 10) (take result bytes.now) }
    ensures at { result < length bytes.now → slice_index bytes.now result ≡ 10 }
{
    match memchr(NEWLINE, bytes) {
        Some(place) => place,
        None => bytes.len(),
    }
}

/// What is told of an error that was met in reading: out of memory is told from all others.
pub fn read_fault(error: &io::Error) -> ReadFault
    ensures { result ≡ read_fault (error_kind error.now) }
{
    if error.kind() == ErrorKind::OutOfMemory {
        return ReadFault::NoMemory;
    }
    ReadFault::Read
}

/// What is taken of the bytes that a reader shows: how many of them, and what they end the line with,
/// if they do.
#[derive(Clone, Copy)]
struct Taken {
    count: usize,
    end: Option<LineEnd>,
}

/// Adds what the reader shows of the line, and notes whether it shows more beyond. It fails as the
/// reader did, or where memory was refused.
fn add_shown(
    shown: io::Result<&[u8]>,
    line: &mut Vec<u8>,
    budget: usize,
    more: &mut bool,
) -> Result<Taken, ReadFault>
    requires { vec_len line.old ≤ budget }
    ensures shown { IfOk shown.entry (λ bytes. AddsShown bytes.now line.old.items line.new.items budget result) }
    ensures failed { IfErr shown.entry (λ error. FailsAs (error_kind error) line.old.items line.new.items result) }
    ensures beyond { IfOk shown.entry (λ bytes. IfOk result (λ taken. ShowsBeyond bytes.now taken more.new)) }
    ensures unseen { OnErr shown.entry (more.new ≡ more.old) }
{
    let shown = match shown {
        Ok(shown) => shown,
        Err(error) => return Err(read_fault(&error)),
    };
    *more = false;
    if shown.is_empty() {
        let end = Some(LineEnd::Input);
        return Ok(Taken { count: 0, end });
    }
    let room = budget - line.len();
    if room == 0 {
        let end = Some(LineEnd::Budget);
        return Ok(Taken { count: 1, end });
    }
    let within = room.min(shown.len());
    let count = newline_or_end(&shown[..within]);
    line.extend_from_slice(&shown[..count])?;
    *more = within - count > 1;
    if count < within {
        let end = Some(LineEnd::Newline);
        return Ok(Taken {
            count: count + 1,
            end,
        });
    }
    Ok(Taken { count, end: None })
}

/// What one look at the reader gave: a part of the line, and how the line ended, if it did.
fn take_piece<R: BufRead>(
    reader: &mut R,
    line: &mut Vec<u8>,
    budget: usize,
    more: &mut bool,
) -> Result<Option<LineEnd>, ReadFault>
    requires { vec_len line.old ≤ budget }
    ensures { GivesPiece (R.remaining reader.old) (R.remaining reader.new) line.old.items line.new.items budget result }
{
    let taken = add_shown(reader.fill_buf(), line, budget, more)?;
    reader.consume(taken.count);
    Ok(taken.end)
}

/// Reads a line into `line`, of at most `budget` bytes with its newline, and notes whether the reader
/// showed more beyond it.
fn read_line<R: BufRead>(
    reader: &mut R,
    line: &mut Vec<u8>,
    budget: usize,
    more: &mut bool,
) -> Result<LineEnd, ReadFault>
    ensures { GivesLine (R.remaining reader.old) (R.remaining reader.new) line.new.items budget result }
{
    line.clear();
    loop {
        if let Some(end) = take_piece(reader, line, budget, more)? {
            return Ok(end);
        }
    }
}

/// What comes next of an input.
#[derive(Clone, Copy, Debug, PartialEq, Eq)]
pub enum Next {
    /// A line, with or without a newline.
    Line,
    /// A line that goes past the limit, which ends the reading.
    TooLong,
    /// The end.
    End,
}

/// The lines of an input, one after another. All that reads lines reads them here.
#[derive(Drop)]
pub struct Lines {
    /// The line that was read last, without its newline.
    pub line: Vec<u8>,
    /// How many lines were read. One that goes past the limit counts.
    pub count: u64,
    /// How many bytes may still be read.
    budget: usize,
    /// Whether the end was met. A reader is not asked again then, since a terminal would wait.
    at_end: bool,
    /// Whether the reader showed more beyond the line that was read last, so that a look at it needs no
    /// waiting.
    shows_more: bool,
}

impl Lines {
    /// Before the first line.
    pub fn new(alloc: Global) -> Lines
        ensures count { result.count ≡ 0 }
        ensures budget { result.budget ≡ limit }
        ensures ongoing { result.at_end ≡ false }
    {
        Lines {
            line: Vec::new(alloc),
            count: 0,
            budget: LIMIT,
            at_end: false,
            shows_more: false,
        }
    }

    /// How many bytes the line has that was read last.
    fn length(&self) -> usize
        ensures { result ≡ length self.now.line.items }
    {
        self.line.len()
    }

    /// Counts a line of so many bytes, its newline among them.
    fn count_line(&mut self, bytes: usize)
        requires within { self.old.count + self.old.budget ≤ limit }
        requires fits { bytes ≤ self.old.budget }
        requires some { 0 < bytes }
        ensures count { self.new.count ≡ self.old.count + 1 }
        ensures budget { bytes + self.new.budget ≡ self.old.budget }
        ensures line { self.new.line ≡ self.old.line }
        ensures at_end { self.new.at_end ≡ self.old.at_end }
    {
        self.count += 1;
        self.budget -= bytes;
    }

    /// Reads the next line. At the end of the input what is left without a newline is one too.
    pub fn next<R: BufRead>(&mut self, reader: &mut R) -> Result<Next, ReadFault>
        requires { self.old.count + self.old.budget ≤ limit }
        ensures next { IfOk result (λ next. Takes (between (R.remaining reader.old) (R.remaining reader.new)) self.old self.new next) }
        ensures broken { IfErr result (λ _. BreaksOff (between (R.remaining reader.old) (R.remaining reader.new)) self.old) }
    {
        if self.at_end {
            return Ok(Next::End);
        }
        match read_line(reader, &mut self.line, self.budget, &mut self.shows_more)? {
            LineEnd::Newline => {
                let bytes = self.length() + 1;
                self.count_line(bytes);
                Ok(Next::Line)
            }
            LineEnd::Input => {
                self.at_end = true;
                let bytes = self.length();
                if bytes == 0 {
                    return Ok(Next::End);
                }
                self.count_line(bytes);
                Ok(Next::Line)
            }
            LineEnd::Budget => {
                self.count += 1;
                Ok(Next::TooLong)
            }
        }
    }

    /// Takes the next line if the reader shows the whole of it, with its newline, without reading more of
    /// its input. Else nothing is taken. A reader that showed no more before is not asked.
    pub fn take_at_hand<R: BufRead>(&mut self, reader: &mut R) -> Result<bool, ReadFault>
        requires { self.old.count + self.old.budget ≤ limit }
        ensures taken { IfOk result (λ taken. TakesAtHand (between (R.remaining reader.old) (R.remaining reader.new)) self.old self.new taken) }
        ensures broken { IfErr result (λ _. FailsAtOnce (between (R.remaining reader.old) (R.remaining reader.new)) self.old) }
        ensures unasked { self.old.shows_more ≡ false → reader.new ≡ reader.old }
    {
        if self.at_end || !self.shows_more {
            return Ok(false);
        }
        self.line.clear();
        let shown = reader.fill_buf();
        let taken = add_shown(shown, &mut self.line, self.budget, &mut self.shows_more)?;
        let Some(end) = taken.end else {
            return Ok(false);
        };
        match end {
            LineEnd::Newline => {
                reader.consume(taken.count);
                let bytes = self.length() + 1;
                self.count_line(bytes);
                Ok(true)
            }
            _ => Ok(false),
        }
    }
}
