//! A start that notes which jobs were begun, and lets no worker do them alone.
use std::alloc::{AllocError, Global};
use std::sync::atomic::{AtomicU64, Ordering};
use std::thread::yield_now;
use tb_pipeline::Start;

/// How often a worker that is held looks for the next job.
const MOST_TURNS: u64 = 4_000_000;

/// A start that counts how often each job was begun, and holds each second one until the next was begun.
#[derive(Drop)]
pub struct CountingStart {
    begun: Vec<AtomicU64>,
    others: AtomicU64,
    gave_up: AtomicU64,
}

impl CountingStart {
    /// Returns a start for so many jobs.
    pub fn new(alloc: Global, jobs: usize) -> Result<CountingStart, AllocError> {
        let mut begun = Vec::new(alloc);
        for _ in 0..jobs {
            begun.push(AtomicU64::new(0))?;
        }
        Ok(CountingStart {
            begun,
            others: AtomicU64::new(0),
            gave_up: AtomicU64::new(0),
        })
    }

    /// Returns whether each job was begun once, and no other.
    pub fn saw_each_once(&self) -> bool {
        let once = |count: &AtomicU64| count.load(Ordering::SeqCst) == 1;
        self.begun.iter().all(once) && self.others.load(Ordering::SeqCst) == 0
    }

    /// Returns whether each worker that was held saw the next job begin.
    pub fn went_on(&self) -> bool {
        self.gave_up.load(Ordering::SeqCst) == 0
    }

    fn has_begun(&self, number: usize) -> bool {
        match self.begun.get(number) {
            Some(count) => count.load(Ordering::SeqCst) > 0,
            None => true,
        }
    }

    fn wait_for(&self, number: usize) {
        for _ in 0..MOST_TURNS {
            if self.has_begun(number) || !self.went_on() {
                return;
            }
            yield_now();
        }
        self.gave_up.fetch_add(1, Ordering::SeqCst);
    }
}

impl Start for CountingStart {
    fn enter(&self, number: usize) {
        match self.begun.get(number) {
            Some(count) => count.fetch_add(1, Ordering::SeqCst),
            None => self.others.fetch_add(1, Ordering::SeqCst),
        };
        if number % 2 == 1 {
            self.wait_for(number.saturating_add(1));
        }
    }
}
