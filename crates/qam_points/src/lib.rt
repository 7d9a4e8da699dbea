//! Modulation mapping of 36.211, and soft demapping of received points.
#![tactic(auto)]

mod coordinate;
pub mod demapping;
pub mod laws;
pub mod mapping;
pub mod point;
pub mod reception;

pub use demapping::demap;
pub use mapping::map;
pub use point::Point;
pub use reception::receive;
