//! Lists that are computed once for a code block, and their parts.
ghost use Rattle.std.specs.Prelude.{◌≡◌, ◌+◌, ◌<◌, ◌≤◌, ℕ, Contains, IfOk, drop, length, map, slice_index, take};
ghost use Rattle.std.specs.List.{range_with_len};
ghost use Rattle.model_sender.specs.Interleaver.{sizes, place};
ghost use Rattle.model_receiver.specs.Borders.{at};

use lte_bits::{NoMemory, Soft};
use qpp_table::addresses;
use std::alloc::Global;

/// Returns the places 0 to k - 1 in natural order.
pub fn own_order(alloc: Global, k: usize) -> Result<Vec<u16>, NoMemory>
    requires { k ≤ 6144 }
    ensures { IfOk result (λ places. places.items ≡ map (λ i. i) (range_with_len 0 k)) }
{
    let mut places = Vec::with_capacity(alloc, k)?;
    for i in 0..k {
        places.push(i as u16)?;
    }
    Ok(places)
}

/// Returns the places in the order of the interleaver of size `k`, which is one of the 188 sizes.
pub fn second_order(alloc: Global, k: usize) -> Result<Vec<u16>, NoMemory>
    requires { Contains sizes k }
    ensures { IfOk result (λ places. places.items ≡ map (place k) (range_with_len 0 k)) }
{
    let mut places = vec![in alloc; 0u16; k]?;
    addresses(k, places.as_mut_slice());
    Ok(places)
}

/// Returns the values at some places.
pub fn picked(alloc: Global, values: &[Soft], places: &[u16]) -> Result<Vec<Soft>, NoMemory>
    requires { (i : ℕ) → i < length places.now → slice_index places.now i < length values.now }
    ensures { IfOk result (λ out. out.items ≡ map (at values.now) places.now) }
{
    let mut out = Vec::with_capacity(alloc, places.len())?;
    for place in places {
        out.push(values[usize::from(*place)])?;
    }
    Ok(out)
}

/// Returns the `width` values from `from` on.
pub fn part<T>(values: &[T], from: usize, width: usize) -> &[T]
    requires { from + width ≤ length values.now }
    ensures { result.now ≡ take width (drop from values.now) }
{
    &values[from..from + width]
}
