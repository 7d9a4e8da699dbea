//! The interleaver addresses of the second coder's input bits (36.212 5.1.3.2.3).
ghost use Rattle.std.specs.Prelude.{◌≡◌, ℕ, ◌+◌, ◌%◌, ◌<◌, ◌≤◌, Contains, IfOk, length, map, slice_index};
ghost use Rattle.std.specs.List.{range_with_len};
ghost use Rattle.model_sender.specs.Interleaver.{place, sizes};

use lte_bits::NoMemory;
use qpp_table::{Walk, qpp};
use std::alloc::Global;
use std::marker::Model;

/// Returns the place `apart` further on, modulo `k`.
fn further(k: u16, place: u16, apart: u16) -> u16
    requires few { k ≤ 6144 }
    requires place { place < k }
    requires apart { apart < k }
    ensures { result ≡ (place + apart) % k }
{
    let sum = place + apart;
    if sum < k { sum } else { sum - k }
}

/// Writes the first `count` addresses.
fn write_first(places: &mut [u16], count: usize)
    requires size { Contains sizes (length places.old) }
    requires room { count ≤ length places.old }
    ensures { (j : ℕ) → j < count → slice_index places.new j ≡ place (length places.old) j }
{
    let k = places.len();
    let interleaver = qpp(k).unwrap();
    let mut walk = Walk::new(k, interleaver.f1(), interleaver.f2());
    for i in 0..count {
        places[i] = walk.place as u16;
        walk = walk.next();
    }
}

/// Writes the next `count` addresses: the first `count`, plus `apart` modulo the block's length.
fn write_further(places: &mut [u16], count: usize, apart: usize)
    requires size { Contains sizes (length places.old) }
    requires room { count + count ≤ length places.old }
    requires apart { apart < length places.old }
    requires further { (i : ℕ) → place (length places.old) (count + i)
        ≡ (place (length places.old) i + apart) % length places.old }
    requires written { (j : ℕ) → j < count → slice_index places.old j ≡ place (length places.old) j }
    ensures { (j : ℕ) → j < count + count → slice_index places.new j ≡ place (length places.old) j }
{
    let k = places.len() as u16;
    for i in 0..count {
        places[count + i] = further(k, places[i], apart as u16);
    }
}

/// Writes the interleaver addresses of a block. Since f2 is even and K a multiple of eight, those a quarter
/// of a block apart differ by a constant modulo K.
fn write_places(places: &mut [u16])
    requires { Contains sizes (length places.old) }
    ensures { places.new ≡ map (place (length places.old)) (range_with_len 0 (length places.old)) }
{
    let k = places.len();
    let quarter = k / 4;
    let f1 = qpp(k).unwrap().f1();
    write_first(places, quarter);
    write_further(places, quarter, f1 * quarter % k);
    write_further(places, 2 * quarter, f1 * (2 * quarter) % k);
}

/// The interleaver addresses of the second coder's input bits, in order, for code blocks of one size.
/// Contracts see the size.
#[derive(Debug, Drop)]
pub struct InterleaverAddresses {
    places: Vec<u16>,
}

impl Model for InterleaverAddresses {
    ghost use Rattle.std.specs.Prelude.{ℕ, length};

    ghost Value = { ℕ };

    ghost use Rattle.turbo_encode.specs.Addresses.{AreAddresses};

    ghost view = { λ addresses. length addresses.places.items };

    ghost invariant = { λ addresses. AreAddresses addresses.places.items };
}

impl InterleaverAddresses {
    /// Returns the addresses for code blocks of `k` bits, one of the 188 sizes (36.212, 5.1.3.2.3). Allocates
    /// two bytes for each.
    pub fn new(alloc: Global, k: usize) -> Result<InterleaverAddresses, NoMemory>
        requires { Contains sizes k }
        ensures { IfOk result (λ addresses. addresses ≡ k) }
    {
        let mut places = vec![in alloc; 0u16; k]?;
        write_places(places.as_mut_slice());
        Ok(InterleaverAddresses { places })
    }

    /// Returns the addresses for code blocks of `k` bits, one of the 188 sizes: these, if they are for this
    /// size, or else newly allocated ones.
    pub fn for_size(self, alloc: Global, k: usize) -> Result<InterleaverAddresses, NoMemory>
        requires { Contains sizes k }
        ensures { IfOk result (λ addresses. addresses ≡ k) }
    {
        if self.places.len() == k {
            Ok(self)
        } else {
            InterleaverAddresses::new(alloc, k)
        }
    }

    /// Returns the addresses.
    pub(crate) fn as_slice(&self) -> &[u16]
        ensures places { result.now ≡ map (place self.now) (range_with_len 0 self.now) }
        ensures size { Contains sizes self.now }
    {
        self.places.as_slice()
    }
}
