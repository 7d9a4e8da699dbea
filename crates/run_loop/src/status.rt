//! The status of a run.
ghost use Rattle.std.specs.Prelude.{◌≡◌};
ghost use Rattle.run_loop.specs.Exit.{exit_of};
ghost use Rattle.run_loop.specs.declared.status.Status.TheVariants as status;

use lte_bits::NoMemory;

/// One of the two sinks of a run.
#[derive(Clone, Copy, Debug, PartialEq, Eq, Hash)]
pub enum SinkName {
    Out,
    Report,
}

/// The status with which a run ended.
#[derive(Clone, Copy, Debug, PartialEq, Eq, Hash)]
pub enum Status {
    /// The command was done, its input read to its end, and no block failed.
    Done,
    /// The same, but some block failed.
    SomeFailed,
    /// An argument was refused, before anything was read, and nothing was written to `out`.
    BadWords { number: u8, place: usize },
    /// The input was refused at a byte, counted from 0.
    BadStream { number: u8, place: u64 },
    /// The source failed.
    ReadFault,
    /// A sink failed.
    WriteFault { sink: SinkName },
    /// Memory ran out.
    NoMemory,
}

impl From<NoMemory> for Status {
    ghost from_gives = { λ _ s. s ≡ status.NoMemory };

    fn from(_error: NoMemory) -> Status {
        Status::NoMemory
    }
}

impl Status {
    /// Returns the exit status of the program.
    pub fn exit(&self) -> u8
        ensures { result ≡ exit_of self.now }
    {
        match self {
            Status::Done => 0,
            Status::SomeFailed => 1,
            Status::BadWords { .. } => 2,
            Status::BadStream { .. } => 3,
            Status::ReadFault => 4,
            Status::WriteFault { .. } => 5,
            Status::NoMemory => 6,
        }
    }
}
