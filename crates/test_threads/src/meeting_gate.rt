//! A gate that shows whether so many windows, or jobs, run at once.
use std::sync::atomic::{AtomicU64, Ordering};
use std::thread::yield_now;
use tb_pipeline::Start;
use window_workers::Gate;

/// How often a worker that is held looks for the others.
const MOST_TURNS: u64 = 4_000_000;

/// A gate that holds each worker that enters until so many have entered.
#[derive(Drop)]
pub struct MeetingGate {
    wanted: u64,
    entered: AtomicU64,
    gave_up: AtomicU64,
}

impl MeetingGate {
    /// Returns a gate for so many workers.
    pub fn new(wanted: u64) -> MeetingGate {
        MeetingGate {
            wanted,
            entered: AtomicU64::new(0),
            gave_up: AtomicU64::new(0),
        }
    }

    /// Returns whether so many workers were inside at once.
    pub fn met(&self) -> bool {
        self.all_entered() && self.gave_up.load(Ordering::SeqCst) == 0
    }

    /// Enters, and stays until the others have entered.
    pub fn pass(&self) {
        self.entered.fetch_add(1, Ordering::SeqCst);
        for _ in 0..MOST_TURNS {
            if self.all_entered() || self.gave_up.load(Ordering::SeqCst) > 0 {
                return;
            }
            yield_now();
        }
        self.gave_up.fetch_add(1, Ordering::SeqCst);
    }

    fn all_entered(&self) -> bool {
        self.entered.load(Ordering::SeqCst) >= self.wanted
    }
}

impl Gate for MeetingGate {
    fn enter(&self, _half: u32, _window: u32) {
        self.pass();
    }
}

impl Start for MeetingGate {
    fn enter(&self, _number: usize) {
        self.pass();
    }
}
