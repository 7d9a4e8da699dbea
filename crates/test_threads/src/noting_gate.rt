//! A gate that notes which windows were entered.
use std::alloc::{AllocError, Global};
use std::sync::atomic::{AtomicU64, Ordering};
use window_workers::Gate;

/// The halves of 16 iterations.
const HALVES: usize = 32;

/// A gate that counts, for each half and window, how often it was entered.
#[derive(Drop)]
pub struct NotingGate {
    windows: usize,
    entered: Vec<AtomicU64>,
    others: AtomicU64,
}

impl NotingGate {
    /// Returns a gate for a code block of so many windows.
    pub fn new(alloc: Global, windows: usize) -> Result<NotingGate, AllocError> {
        let mut entered = Vec::new(alloc);
        for _ in 0..windows.saturating_mul(HALVES) {
            entered.push(AtomicU64::new(0))?;
        }
        Ok(NotingGate {
            windows,
            entered,
            others: AtomicU64::new(0),
        })
    }

    /// Returns whether each window of the first halves was entered once, and no other.
    pub fn saw_each_once(&self, halves: usize) -> bool {
        let most = self.windows.saturating_mul(halves);
        let as_due = self.entered.iter().enumerate().all(|(place, count)| {
            let due = if place < most { 1 } else { 0 };
            count.load(Ordering::SeqCst) == due
        });
        as_due && self.others.load(Ordering::SeqCst) == 0
    }
}

impl Gate for NotingGate {
    fn enter(&self, half: u32, window: u32) {
        let (half, window) = (half as usize, window as usize);
        let place = half.saturating_mul(self.windows).saturating_add(window);
        match self.entered.get(place) {
            Some(count) if window < self.windows => count.fetch_add(1, Ordering::SeqCst),
            _ => self.others.fetch_add(1, Ordering::SeqCst),
        };
    }
}
