//! The plain form of windows in lock step, by an order of the places and from values by position. The decoder
//! doesn't use it; it is for tests, and for callers that have values of their own.
mod by_order;
mod order_work;

pub use by_order::run_lock_step;
pub use order_work::LaneWork;
