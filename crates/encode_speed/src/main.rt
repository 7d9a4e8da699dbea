//! Encodes a code block of 6,144 bits and prints checksums of its streams, and then that of the codeword of a
//! transport block of 9,422 bytes. With the argument `seconds=N` it encodes each repeatedly for N seconds,
//! and reports the rates on standard error.
#![tactic(auto)]

mod checksum;
mod fault;
mod measure;
mod sample;

use checksum::{bit_checksum, checksum};
use fault::Fault;
use measure::{encode_for, send_for};
use std::process::ExitCode;
use std::time::Duration;
use std::{env, io};

/// Returns the time of an argument `seconds=N`.
fn time_of(word: &str) -> Option<Duration> {
    let seconds = word.strip_prefix("seconds=")?.parse::<u16>().ok()?;
    Some(Duration::from_secs(u64::from(seconds)))
}

/// Returns the time that the arguments ask for, zero if there are none, and `None` if they are anything else.
fn asked_time(rt: &HostRuntime) -> io::Result<Option<Duration>> {
    let mut words = env::args(rt)?.skip(1);
    let Some(word) = words.next() else {
        return Ok(Some(Duration::ZERO));
    };
    if words.next().is_some() {
        return Ok(None);
    }
    Ok(time_of(word.as_str()))
}

fn main(rt: HostRuntime) -> Result<ExitCode, Fault> {
    let Some(time) = asked_time(&rt)? else {
        eprintln!(rt; "the only word is seconds=N, with N at most 65535")?;
        return Ok(ExitCode::from(2));
    };
    let run = encode_for(&rt, time)?;
    println!(rt; "d0 {:08x}", checksum(run.streams.d0.as_slice()))?;
    println!(rt; "d1 {:08x}", checksum(run.streams.d1.as_slice()))?;
    println!(rt; "d2 {:08x}", checksum(run.streams.d2.as_slice()))?;
    let sent = send_for(&rt, time)?;
    println!(rt; "codeword {:08x}", bit_checksum(sent.bits.as_slice()))?;
    if !time.is_zero() {
        eprintln!(rt; "code block: {}", run.timing)?;
        eprintln!(rt; "transport block: {}", sent.timing)?;
    }
    Ok(ExitCode::SUCCESS)
}
