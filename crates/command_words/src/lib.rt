//! Parsing of arguments into the commands of the program.
#![tactic(auto)]

mod blocks;
mod codeword;
mod encode;
mod lists;
mod names;
mod number;
mod numbers;
mod operands;
mod rules;
mod scramble;
mod settings;
mod splitting;
mod stream_words;
mod tables;
mod transmission_tables;
mod transmissions;
mod trial;
mod words;

pub use operands::WordRefusal;
pub use words::{Command, read_words};
