//! The hook that a worker enters before each window.

/// A gate that a worker enters before it runs a window. Threads share it.
pub trait Gate {
    /// A worker is about to run a window, counted from 0, of a half, counted from 0.
    fn enter(&self, half: u32, window: u32);
}

/// A no-op gate.
#[derive(Clone, Copy, Debug)]
pub struct NoGate;

impl Gate for NoGate {
    fn enter(&self, _half: u32, _window: u32) {}
}
