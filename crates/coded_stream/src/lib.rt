//! The container of coded transport blocks: a header of either version, and then for each block its
//! length and its transmissions, hard bits or soft values.
#![tactic(auto)]

mod block;
pub mod cause;
mod fields;
pub mod header;
mod header_transmission;
mod header_transmissions;
pub mod kind;
pub mod laws;
mod opening;
pub mod reader;
pub mod stop;
mod transmission;
mod transmissions;
mod unit;
pub mod version;
mod word;
mod writing;

pub use header::Header;
pub use kind::{Kind, Want};
pub use reader::{MOST_BLOCKS, StreamReader};
pub use stop::StreamStop;
pub use transmission::transmission_size;
pub use version::Version;
pub use writing::{length_word, write_header, write_length};
