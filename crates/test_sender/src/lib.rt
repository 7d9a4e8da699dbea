//! Tests of the sender's public calls: worked rows, and values of independent programs. They stand above
//! the crates that they call, so that those are proved once.
#![tactic(auto)]

#[cfg(test)]
mod check_bits;
#[cfg(test)]
mod code_blocks;
#[cfg(test)]
mod codewords;
#[cfg(test)]
mod interleaver;
#[cfg(test)]
mod interleaver_sums;
#[cfg(test)]
mod lists;
#[cfg(test)]
mod matching;
#[cfg(test)]
mod scrambling;
#[cfg(test)]
mod streams;
#[cfg(test)]
mod trellis;
#[cfg(test)]
mod vectors;
