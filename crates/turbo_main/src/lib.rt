//! The program's main: it parses the arguments, runs the command, and returns the exit status.
#![tactic(auto)]

mod arguments;
mod exits;

pub use exits::exit_of_run;
