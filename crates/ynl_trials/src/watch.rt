//! How long the commits of workers take.

use crate::values::keep;
use std::alloc::Global;
use std::process::Abort;
use std::rt::Clock;
use std::sync::atomic::{AtomicU64, Ordering};
use std::time::{Duration, Instant};
use ynl_workers::{Gate, Go, Sight};

/// The whole microseconds of a time, or the most that a number has.
pub(crate) fn micros(time: Duration) -> u64 {
    u64::try_from(time.as_micros()).unwrap_or(u64::MAX)
}

/// When a worker's last commit began, and how long its longest one took, in microseconds from the start.
#[derive(Drop)]
struct Times {
    began: AtomicU64,
    longest: AtomicU64,
}

/// A gate that lets each worker go on, and times each commit from here to its answer. So what is timed is
/// the wait for the lock, and what is done under it.
pub(crate) struct Watch<'a, R> {
    rt: &'a R,
    start: Instant,
    times: Vec<Times>,
}

impl<R> Drop for Watch<'_, R> {
    fn drop(self) {
        let Watch {
            rt: _,
            start: _,
            times: _,
        } = self;
    }
}

/// A gate for so many workers, with a watch that starts now.
pub(crate) fn watched<R: Clock + Abort>(rt: &R, alloc: Global, workers: u64) -> Watch<'_, R> {
    let mut times = Vec::new(alloc);
    for _ in 0..workers {
        let time = Times {
            began: AtomicU64::new(0),
            longest: AtomicU64::new(0),
        };
        keep(rt, &mut times, time);
    }
    Watch {
        rt,
        start: Instant::now(rt).expect(rt, "a clock"),
        times,
    }
}

impl<R: Clock> Watch<'_, R> {
    /// Microseconds since the start, and 0 where the clock fails.
    fn now(&self) -> u64 {
        match self.start.elapsed(self.rt) {
            Ok(time) => micros(time),
            Err(_) => 0,
        }
    }

    /// The longest commit of all workers, in microseconds.
    pub(crate) fn longest(&self) -> u64 {
        let mut longest: u64 = 0;
        for times in &self.times {
            longest = longest.max(times.longest.load(Ordering::SeqCst));
        }
        longest
    }
}

impl<R: Clock> Gate for Watch<'_, R> {
    ghost is_free = { λ _. Unit {0} };

    fn before_plan(&self, _worker: u64, _turn: u64, _sight: &Sight) {}

    fn before_commit(&self, worker: u64, _turn: u64) -> Go {
        if let Some(times) = self.times.get(worker as usize) {
            times.began.store(self.now(), Ordering::SeqCst);
        }
        Go::On
    }

    fn after_commit(&self, worker: u64, _turn: u64) {
        if let Some(times) = self.times.get(worker as usize) {
            let took = self
                .now()
                .saturating_sub(times.began.load(Ordering::SeqCst));
            if took > times.longest.load(Ordering::SeqCst) {
                times.longest.store(took, Ordering::SeqCst);
            }
        }
    }
}
