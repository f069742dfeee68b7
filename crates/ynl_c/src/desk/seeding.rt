//! The seed that a caller's bytes make.

use std::io;
use std::random::RandomSource;
use ynl_resource::HashSeed;

/// Gives the bytes of a caller, and 0 behind them.
#[derive(Drop)]
struct Bytes<'a> {
    bytes: &'a [u8],
}

impl<'a> RandomSource for Bytes<'a> {
    fn fill_bytes(&self, buf: &mut [u8]) -> io::Result<()> {
        for i in 0..buf.len() {
            buf[i] = if i < self.bytes.len() {
                self.bytes[i]
            } else {
                0
            };
        }
        Ok(())
    }
}

/// The seed of the first 16 bytes; where there are fewer, 0 stands for those that lack. A caller that takes them from its
/// system's random numbers has look-ups that no choice of names makes slow. No answer depends on it.
pub fn seed_of(bytes: &[u8]) -> HashSeed {
    match HashSeed::random(&Bytes { bytes }) {
        Ok(seed) => seed,
        Err(_) => HashSeed::fixed(),
    }
}
