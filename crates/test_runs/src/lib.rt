//! Runs of the program over memory, for tests: how they end, what they write, and what they leave of their
//! input.
#![tactic(auto)]

mod headers;
mod lists;
mod memory_runs;
mod values;

pub use headers::{END, HARD, LENGTH_2, SOFT, SOFT_TWICE, TWO, large_header};
pub use lists::{counted, joined, list_of, sink_of, words_of};
pub use memory_runs::{Edges, Ran, chain_of, expect_chain, expect_run, run_of, sound};
pub use values::{bytes_of, failing_values, small_blocks};
