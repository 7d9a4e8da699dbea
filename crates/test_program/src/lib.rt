//! Tests of what the commands stand on: sources and sinks, the container, words.
#![tactic(auto)]

#[cfg(test)]
mod container;
#[cfg(test)]
mod edges;
#[cfg(test)]
mod headers;
#[cfg(test)]
mod streams;
#[cfg(test)]
mod word_refusals;
#[cfg(test)]
mod words;
