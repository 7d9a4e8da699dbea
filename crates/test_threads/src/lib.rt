//! Tests of what several threads share.
#![tactic(auto)]

#[cfg(test)]
mod agreement;
#[cfg(test)]
mod batch;
#[cfg(test)]
mod board;
#[cfg(test)]
mod counting_start;
#[cfg(test)]
mod kept_blocks;
#[cfg(test)]
mod meeting_gate;
#[cfg(test)]
mod noting_gate;
#[cfg(test)]
mod pipeline;
#[cfg(test)]
mod program;
#[cfg(test)]
mod shares;
#[cfg(test)]
mod workers;
