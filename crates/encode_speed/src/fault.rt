//! Why the program stops early.
use lte_bits::NoMemory;
use std::io;

/// Why the block wasn't encoded or reported on.
#[derive(Debug, Drop)]
pub enum Fault {
    NoMemory,
    Io(io::Error),
    /// More blocks were encoded than can be counted.
    TimeTooLong,
}

impl From<NoMemory> for Fault {
    fn from(_error: NoMemory) -> Fault {
        Fault::NoMemory
    }
}

impl From<io::Error> for Fault {
    fn from(error: io::Error) -> Fault {
        Fault::Io(error)
    }
}
