//! The standard's rules for the sender, as definitions.
#![tactic(auto)]

pub mod check_bits;
pub mod circular_buffer;
pub mod constituent_coder;
pub mod interleaver;
pub mod rows;
pub mod segmentation;
pub mod selection;
pub mod spot;

pub use rows::{ROWS, Row, table};
pub use spot::Spot;
