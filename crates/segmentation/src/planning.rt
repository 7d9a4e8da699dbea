//! The plan of a transport block, and the sizes and fillers of its code blocks (36.212 5.1.2).
ghost use Rattle.std.specs.Prelude.{◌≡◌, ◌≤◌, ◌<◌, ◌*◌, ◌↔◌, ◌⊎◌, IsOk, IsErr, IfOk};
ghost use Rattle.model_sender.specs.Segmentation.{plan_of, count_of, check_length, smaller_count};
ghost use Rattle.model_sender.specs.Segmentation.{size, fill};
ghost use Rattle.segmentation.specs.Plans.{IsPlan};

use crate::plans::Plan;
use crate::sizes::{larger_size, smaller_size};
use std::error::Error;
use std::fmt;

/// The bytes of the greatest transport block.
pub const MOST_BYTES: usize = 18722;

/// Z, the greatest size of a code block.
const LARGEST: usize = 6144;

/// The check bits of a transport block, and of each of several code blocks.
pub(crate) const CHECK_BITS: usize = 24;

/// A transport block has no bytes, or more than 18,722.
#[derive(Clone, Copy, Debug, PartialEq, Eq, Hash)]
pub struct BadLength;

impl fmt::Display for BadLength {
    fn fmt<W: fmt::Write>(&self, f: &mut fmt::Formatter<W>) -> fmt::Result {
        f.write_str("a transport block has 1 to 18722 bytes")
    }
}

impl Error for BadLength {}

/// Returns C, the number of code blocks for `bits` bits.
fn block_count(bits: usize) -> usize
    ensures { result ≡ count_of bits }
{
    if bits <= LARGEST {
        1
    } else {
        bits.div_ceil(LARGEST - CHECK_BITS)
    }
}

/// Returns L, the check bits that each of `c` code blocks carries.
pub(crate) fn check_length(c: usize) -> usize
    ensures { result ≡ check_length c }
{
    if c > 1 { CHECK_BITS } else { 0 }
}

/// Returns C-, the number of blocks of size K-.
fn smaller_count(c: usize, n: usize, k_plus: usize, k_minus: usize) -> usize
    requires few { c ≤ 25 }
    requires size { k_plus ≤ 6144 }
    requires apart { k_minus < k_plus }
    requires room { n ≤ c * k_plus }
    ensures { result ≡ smaller_count (record { c = c; bits = n; k_plus = k_plus; k_minus = k_minus }) }
{
    if c == 1 {
        0
    } else {
        (c * k_plus - n) / (k_plus - k_minus)
    }
}

/// Returns the plan of a transport block of `bytes` bytes.
fn planned(bytes: usize) -> Plan
    requires some { 1 ≤ bytes }
    requires few { bytes ≤ 18722 }
    ensures numbers { result ≡ plan_of bytes }
    ensures bytes { result.bytes ≡ bytes }
{
    let bits = 8 * bytes + CHECK_BITS;
    let c = block_count(bits);
    let carried = bits + c * check_length(c);
    let k_plus = larger_size(c, carried);
    let k_minus = smaller_size(c, k_plus);
    let c_minus = smaller_count(c, carried, k_plus, k_minus);
    let c_plus = c - c_minus;
    Plan {
        bytes,
        c,
        k_plus,
        k_minus,
        c_plus,
        c_minus,
        f: c_plus * k_plus + c_minus * k_minus - carried,
    }
}

/// Returns the plan of a transport block of `bytes` bytes (36.212 5.1.2): C, K+, K-, C+, C- and F. `BadLength`
/// comes exactly where `bytes` is outside 1 to 18,722.
pub fn plan(bytes: usize) -> Result<Plan, BadLength>
    ensures planned { IsOk result ↔ ((1 ≤ bytes) × (bytes ≤ 18722)) }
    ensures refused { IsErr result ↔ ((bytes ≡ 0) ⊎ (18722 < bytes)) }
    ensures numbers { IfOk result (λ plan. plan ≡ plan_of bytes) }
    ensures bytes { IfOk result (λ plan. plan.bytes ≡ bytes) }
{
    if (1..=MOST_BYTES).contains(&bytes) {
        Ok(planned(bytes))
    } else {
        Err(BadLength)
    }
}

/// Returns the bits of block `r` (36.212 5.1.2): K- where `r` is below C-, else K+; `r` is below C.
pub fn size(plan: &Plan, r: usize) -> usize
    requires { r < plan.now.c }
    ensures value { result ≡ size plan.now r }
    ensures lawful { IsPlan plan.now }
{
    if r < plan.c_minus {
        plan.k_minus
    } else {
        plan.k_plus
    }
}

/// Returns the fillers of block `r` (36.212 5.1.2): F in block 0 and none in the others; `r` is below C.
pub fn fill(plan: &Plan, r: usize) -> usize
    requires { r < plan.now.c }
    ensures { result ≡ fill plan.now r }
{
    if r == 0 { plan.f } else { 0 }
}
