//! The coding chain for C, and for languages that call C: codewords, plans, stages, receptions, and a channel
//! with noise. No function requires more of its caller than memory behind each pointer. Arguments are tested,
//! and each refusal has a number of its own.
#![tactic(auto)]

mod alone;
mod buffers;
pub mod channel;
pub mod checks;
pub mod codes;
pub mod codewords;
pub mod combining;
pub mod decoding;
pub mod demapping;
pub mod laws;
pub mod mapping;
mod numbers;
pub mod pieces;
pub mod plans;
pub mod points;
pub mod receiver;
pub mod receptions;
pub mod refusal;
pub mod scrambling;
pub mod selecting;
pub mod series;
pub mod several;
pub mod stages;
pub mod state;
pub mod transmission;
pub mod version;
