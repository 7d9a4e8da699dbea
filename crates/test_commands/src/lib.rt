//! Tests of the commands over memory.
#![tactic(auto)]

#[cfg(test)]
mod codeword_runs;
#[cfg(test)]
mod decode_faults;
#[cfg(test)]
mod decode_runs;
#[cfg(test)]
mod encode_runs;
#[cfg(test)]
mod faults;
#[cfg(test)]
mod kept_blocks;
#[cfg(test)]
mod left;
#[cfg(test)]
mod relay_faults;
#[cfg(test)]
mod relay_runs;
#[cfg(test)]
mod shared_runs;
#[cfg(test)]
mod trial_runs;
