//! A reader that fails once, and a writer that counts.

use std::io;
use std::io::{BufRead, Read, Write};

/// Takes all that it is given, and counts the calls.
#[derive(Drop)]
pub(crate) struct Sink {
    pub(crate) taken: Vec<u8>,
    pub(crate) calls: u64,
}

impl Sink {
    pub(crate) fn new(taken: Vec<u8>) -> Sink {
        Sink { taken, calls: 0 }
    }
}

impl Write for Sink {
    fn write(&mut self, buf: &[u8]) -> io::Result<usize> {
        self.taken.extend_from_slice(buf)?;
        self.calls = self.calls.wrapping_add(1);
        Ok(buf.len())
    }

    fn flush(&mut self) -> io::Result<()> {
        Ok(())
    }
}

/// Shows all of its bytes, but fails at one look, the first that is not counted. At the next look it shows them
/// again. All jobs here read from it, since what is generic is proved anew for each kind of reader.
#[derive(Drop)]
pub(crate) struct FailsOnce<'a> {
    pub(crate) left: &'a [u8],
    pub(crate) looks: u64,
}

impl Read for FailsOnce<'_> {
    fn read(&mut self, buf: &mut [u8]) -> io::Result<usize> {
        let n = self.left.len().min(buf.len());
        let (front, rest) = self.left.split_at(n);
        buf[..n].copy_from_slice(front);
        self.left = rest;
        Ok(n)
    }
}

impl BufRead for FailsOnce<'_> {
    fn fill_buf(&mut self) -> io::Result<&[u8]> {
        let fails = self.looks == 0;
        self.looks = self.looks.wrapping_sub(1);
        if fails {
            return Err(io::Error::from(io::ErrorKind::Other));
        }
        Ok(self.left)
    }

    fn consume(&mut self, amount: usize) {
        let n = amount.min(self.left.len());
        self.left = &self.left[n..];
    }
}
