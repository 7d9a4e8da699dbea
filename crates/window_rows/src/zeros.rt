//! Rows of zeros.
ghost use Rattle.std.specs.Prelude.{◌≡◌, ◌≤◌, pos, IfOk, replicate};

use lte_bits::NoMemory;
use std::alloc::Global;

/// Allocates `width` rows of N zeros.
pub fn zero_rows<const N: usize>(alloc: Global, width: usize) -> Result<Vec<[i16; N]>, NoMemory>
    requires { N ≤ 64 }
    ensures { IfOk result (λ rows. rows.items ≡ replicate width (replicate N (pos 0))) }
{
    let mut rows = Vec::with_capacity(alloc, width)?;
    for _j in 0..width {
        rows.push([0i16; N])?;
    }
    Ok(rows)
}

/// Allocates `width` rows of N banks, all of them 0.
pub fn zero_banks<const N: usize>(alloc: Global, width: usize) -> Result<Vec<[u8; N]>, NoMemory>
    requires { N ≤ 64 }
    ensures { IfOk result (λ rows. rows.items ≡ replicate width (replicate N 0)) }
{
    let mut rows = Vec::with_capacity(alloc, width)?;
    for _j in 0..width {
        rows.push([0u8; N])?;
    }
    Ok(rows)
}
