//! What names are hashed with, and names of which many have one place.

use std::hash::{BuildHasher, Hasher};
use std::io;
use std::io::ErrorKind;
use std::process::Abort;
use std::random::RandomSource;
use ynl_resource::{HashSeed, Name};
use ynl_tables::submissions::Submissions;

// Gives this byte again and again, or none at all.
#[derive(Drop)]
struct Source {
    byte: Option<u8>,
}

impl RandomSource for Source {
    fn fill_bytes(&self, buf: &mut [u8]) -> io::Result<()> {
        let Some(byte) = self.byte else {
            return Err(io::Error::from(ErrorKind::Other));
        };
        buf.fill(byte);
        Ok(())
    }
}

fn hash_by(byte: u8) -> Option<u64> {
    match HashSeed::random(&Source { byte: Some(byte) }) {
        Ok(seed) => Some(seed.hash_one(7u64)),
        Err(_) => None,
    }
}

#[test]
fn keys_are_made_of_the_random_bytes(rt: HostRuntime) {
    let (first, second) = (hash_by(1), hash_by(2));
    assert!(rt; hash_by(1) == first && second != first);
    assert!(rt; first != Some(HashSeed::fixed().hash_one(7u64)));
    assert!(rt; HashSeed::random(&Source { byte: None }).is_err());
}

// The lowest eight bits of the hash of a name, by which a table of up to 256 rows finds its place.
fn place_of(name: &Name) -> u64 {
    let mut hasher = HashSeed::fixed().build_hasher();
    hasher.write(name.as_bytes());
    hasher.finish() % 256
}

// The name of a number, if it shares its place with others.
fn sharing(number: u32) -> Option<Name> {
    let digits = [
        b'a' + (number / 676 % 26) as u8,
        b'a' + (number / 26 % 26) as u8,
        b'a' + (number % 26) as u8,
    ];
    let name = Name::parse(str::from_utf8(&digits).ok()?).ok()?;
    if place_of(&name) == 7 {
        Some(name)
    } else {
        None
    }
}

// Submits the name, if it was not, and tells its turn.
fn submit<R: Abort>(rt: &R, submissions: &mut Submissions, name: &Name) -> u32 {
    submissions.reserve_one().expect(rt, "memory");
    match submissions.find(name) {
        Some(turn) => turn,
        None => submissions.submit(name, 1, 1),
    }
}

// Submits all names that share a place, and tells how many there were, if each had the next turn.
fn submit_all<R: Abort>(rt: &R, submissions: &mut Submissions) -> u32 {
    let mut count = 0;
    for number in 0..17576u32 {
        if let Some(name) = sharing(number) {
            assert!(rt; submit(rt, submissions, &name) == count);
            count = count.saturating_add(1);
        }
    }
    count
}

#[test]
fn names_that_share_a_place_are_told_apart(rt: HostRuntime) {
    let mut submissions = Submissions::new(rt.alloc(), HashSeed::fixed());
    let count = submit_all(&rt, &mut submissions);
    // Each is found at its turn.
    assert!(rt; count > 32 && submit_all(&rt, &mut submissions) == count);
}
