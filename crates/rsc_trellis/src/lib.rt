//! The constituent coder of the turbo code, step by step (36.212 5.1.3.2.1 and 5.1.3.2.2).
#![tactic(auto)]

pub mod reach;
pub mod state;
pub mod step;
pub mod tail;

pub use state::State;
pub use step::{next, parity, previous};
pub use tail::tail_path;
