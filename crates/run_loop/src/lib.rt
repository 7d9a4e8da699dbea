//! The loop that every command runs in: it is opened, and then its work is done round by round, from a source
//! to two sinks. Also the status of a run, the lines of a report, and the line of a fault.
#![tactic(auto)]

mod driver;
mod fault_line;
mod lines;
mod putting;
mod status;
mod work;

pub use driver::drive;
pub use fault_line::write_fault_line;
pub use lines::{blocks_line, end_line, push_number};
pub use status::{SinkName, Status};
pub use work::{Open, Part, Round, Stop, Work};
