//! What the names that strangers choose are hashed with.

use std::hash::{BuildHasher, DefaultHasher, RandomState};
use std::io;
use std::random::RandomSource;

/// The keys of a hash table. With keys of a run's own nobody can choose names beforehand that have one hash, and so
/// make look-ups slow. No answer depends on them.
#[derive(Clone, Copy)]
pub struct HashSeed {
    initial: DefaultHasher,
}

impl HashSeed {
    /// Keys that are the same in each run.
    pub fn fixed() -> HashSeed {
        HashSeed {
            initial: DefaultHasher::new(),
        }
    }

    /// Keys of this run's own. It fails if the system gives no random bytes.
    pub fn random(rt: &impl RandomSource) -> io::Result<HashSeed> {
        let state = RandomState::new(rt)?;
        Ok(HashSeed {
            initial: state.build_hasher(),
        })
    }
}

impl BuildHasher for HashSeed {
    type Hasher = DefaultHasher;

    ghost build_hasher = { λ seed. seed.initial };

    fn build_hasher(&self) -> DefaultHasher {
        self.initial
    }
}
