//! The configuration: its labels differ, and its queues are a tree.

ghost use Rattle.std.specs.Prelude.{◌≡◌, ◌<◌, length, slice_index_or, IfOk};
ghost use Rattle.ynl_model.specs.Queues.{QueueRow};
ghost use Rattle.ynl_model.specs.View.{restrict};
ghost use Rattle.ynl_queues.specs.Index.{AreSteps};
ghost use Rattle.ynl_queues.specs.Trees.{HasTree};

use crate::draft::Draft;
use crate::rows::copy_within;
use std::alloc::{AllocError, Global};
use std::marker::Model;
use std::ops::Deref;
use ynl_resource::{HashSeed, Name};

/// What does not change while a cluster runs: the labels, the queues below root, the most containers
/// that a heartbeat places, and the largest request. No two labels have one name, and the queues are a
/// tree. A draft has its readers. What a cluster hashes names with is kept beside it, which no contract sees.
pub struct Config {
    draft: Draft,
    seed: HashSeed,
}

// By hand, so that crates above call it: one that is derived is proved anew in each of them, with all that it holds.
impl Drop for Config {
    fn drop(self) {
        let Config { draft: _, seed: _ } = self;
    }
}

impl Model for Config {
    ghost use Rattle.ynl_model.specs.Queues.{Config as Configured};
    ghost use Rattle.ynl_queues.specs.Trees.{HasTree};

    ghost Value = { Configured };

    ghost view = { λ c. c.draft };

    ghost invariant = { λ c. HasTree c.draft };
}

impl Deref for Config {
    type Target = Draft;

    ghost deref_gives = { λ config draft. draft ≡ config };

    fn deref(&self) -> &Draft {
        self.draft()
    }
}

impl Config {
    /// The configuration of a draft, with a fixed seed.
    pub(crate) fn new(draft: Draft) -> Config
        requires { HasTree draft }
        ensures { result ≡ draft }
    {
        Config {
            draft,
            seed: HashSeed::fixed(),
        }
    }

    /// The same configuration for a cluster that hashes names with this seed.
    pub fn with_seed(self, seed: HashSeed) -> Config
        ensures { result ≡ self }
    {
        let mut config = self;
        config.seed = seed;
        config
    }

    /// What a cluster of this configuration hashes names with.
    pub fn seed(&self) -> HashSeed {
        self.seed
    }

    /// What the configuration has, as a draft.
    pub fn draft(&self) -> &Draft
        ensures value { result.now ≡ self.now }
        ensures tree { HasTree self.now }
    {
        &self.draft
    }

    /// The same configuration once more.
    pub fn copy(&self, alloc: Global) -> Result<Config, AllocError>
        ensures { IfOk result (λ copy. copy ≡ self.now) }
    {
        Ok(Config {
            draft: self.draft.copy(alloc)?,
            seed: self.seed,
        })
    }

    /// The configuration without the queues of other tenants. Its capacities below root need not come to
    /// the whole.
    pub fn only(&self, alloc: Global, tenant: &Name) -> Result<Config, AllocError>
        ensures { IfOk result (λ alone. alone ≡ restrict self.now tenant.now) }
    {
        let draft = Draft::new(
            alloc,
            self.draft.labels().copy(alloc)?,
            copy_within(alloc, self.draft.queues(), tenant)?,
            self.draft.containers_per_heartbeat(),
            self.draft.maximum_allocation(),
        )?;
        Ok(Config {
            draft,
            seed: self.seed,
        })
    }

    /// The places, in the configuration's order from 0, of the queues on the way to the queue that stands
    /// at a place, from the top-level queue to itself.
    pub fn way(&self, place: usize) -> &[usize]
        requires { place < length self.now.queues }
        ensures { (d : QueueRow) → AreSteps self.now.queues (slice_index_or self.now.queues place d).path result.now }
    {
        match self.draft.steps_at(place) {
            Some(steps) => steps,
            None => unreachable!(),
        }
    }
}
