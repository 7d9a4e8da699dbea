//! The plain forms of the banks and of the permutations, cell by cell and by an order. The decoder doesn't
//! use them; they are for tests, and for callers that have cells of their own.
mod by_place;
mod steps;

pub use steps::{crossbar, follow};
