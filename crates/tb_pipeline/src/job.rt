//! Jobs, and the hook that a worker enters before each.

/// A job, which threads share. One that needs memory holds its allocator, and reports running out of memory
/// as a value of `Done`.
pub trait Job {
    /// The result of a job.
    type Done;

    // Which values answer the job.
    ghost answers: { Self → Self.Done → Type 0 };

    /// Runs the job.
    fn run(&self) -> Self::Done
        ensures { answers self.now result };
}

/// The hook that a worker enters before each job. Threads share it.
pub trait Start {
    /// A worker is about to do a job, counted from 0.
    fn enter(&self, number: usize);
}

/// A no-op hook.
#[derive(Clone, Copy, Debug)]
pub struct NoStart;

impl Start for NoStart {
    fn enter(&self, _number: usize) {}
}
