//! Tests of the receiver's public calls on one thread.
#![tactic(auto)]

#[cfg(test)]
mod block;
#[cfg(test)]
mod lane_rows;
#[cfg(test)]
mod lanes;
#[cfg(test)]
mod mixed;
#[cfg(test)]
mod noise;
#[cfg(test)]
mod points;
#[cfg(test)]
mod transmissions;
#[cfg(test)]
mod transport_block;
#[cfg(test)]
mod values;
#[cfg(test)]
mod window;
