//! Scrambling of bits, and descrambling of soft values (36.211 5.3.1, 6.3.1).
ghost use Rattle.std.specs.Prelude.{◌≡◌, ◌≢◌, ◌≤◌, IfOk, OnOk, OnErr, length, map, take};
ghost use Rattle.std.specs.Result.{result_err};
ghost use Rattle.lte_bits.specs.Packing.{packed, unpacked};
ghost use Rattle.lte_bits.specs.Softs.{clamped};
ghost use Rattle.gold_scramble.specs.Scrambling.{scrambled, turned};
ghost use Rattle.gomzelat_c.specs.Buffers.{with_front};
ghost use Rattle.gomzelat_c.specs.Refusals.{IsDone, IsTold, told};
ghost use Rattle.gomzelat_c.specs.Scrambled.{descrambled, init_in, scrambled_bytes};
ghost use Rattle.gomzelat_c.specs.Scrambled.{scramble_tests, scrambling_tests};
ghost use Rattle.gomzelat_c.specs.Tests.{byte_count, first_failed};

use crate::buffers::{bits_of, softs_of, write_bytes, write_softs};
use crate::refusal::{Refusal, accept, told};
use gold_scramble::{Init, scramble_bits, turn_softs};
use lte_bits::{List, NoMemory, Soft, pack};
use std::alloc::Global;

/// The numbers of a scrambling sequence: n_RNTI, 0 to 65,535; q, the number of its codeword, 0 or 1; n_s, its
/// slot, 0 to 19; and the identity of the cell, 0 to 503.
#[repr(C)]
#[derive(Clone, Copy, Debug)]
pub struct Scrambling {
    pub rnti: u32,
    pub q: u32,
    pub slot: u32,
    pub cell: u32,
}

/// Returns c_init, or the refusal.
fn init_of(scrambling: &Scrambling) -> Result<Init, Refusal>
    ensures refused { result_err result ≡ first_failed (scrambling_tests scrambling.now) }
    ensures init { IfOk result (λ init. init ≡ init_in scrambling.now) }
{
    accept(scrambling.rnti <= 65535, Refusal::BadScrambling)?;
    accept(scrambling.q <= 1, Refusal::BadScrambling)?;
    accept(scrambling.slot <= 19, Refusal::BadScrambling)?;
    accept(scrambling.cell <= 503, Refusal::BadScrambling)?;
    let rnti = scrambling.rnti as u16;
    let cell = scrambling.cell as u16;
    Ok(Init::new(rnti, scrambling.q as u8, scrambling.slot as u8, cell).unwrap())
}

/// Writes c_init, the initial value of a transmission's sequence, to `init`. Returns 0, or a `Refusal`'s
/// number with nothing changed.
#[unsafe(no_mangle)]
pub extern "C" fn gomzelat_init(scrambling: Scrambling, init: &mut u32) -> u32
    ensures answer { result ≡ told (first_failed (scrambling_tests scrambling)) }
    ensures init { result ≡ 0 → init.new ≡ init_in scrambling }
    ensures kept { result ≢ 0 → init.new ≡ init.old }
{
    match init_of(&scrambling) {
        Ok(first) => {
            *init = first.value();
            0
        }
        Err(refusal) => refusal.number(),
    }
}

/// Returns the first `count` bits of bytes, scrambled, as bytes.
fn scrambled(alloc: Global, count: usize, bytes: &[u8], init: Init) -> Result<List<u8>, NoMemory>
    requires { byte_count count ≤ length bytes.now }
    ensures bytes { IfOk result (λ out. out ≡ packed (scrambled init (take count (unpacked bytes.now)))) }
    ensures long { IfOk result (λ out. length out ≡ byte_count count) }
{
    let mut bits = bits_of(alloc, count, bytes)?;
    scramble_bits(bits.as_mut_slice(), init);
    pack(alloc, bits.as_slice())
}

fn scramble(
    alloc: Global,
    bits: &mut [u8],
    count: usize,
    scrambling: &Scrambling,
) -> Result<(), Refusal>
    ensures answer { IsDone result (first_failed
        (scramble_tests count (length bits.old) scrambling.now)) }
    ensures bits { OnOk result (bits.new
        ≡ with_front (scrambled_bytes count bits.old scrambling.now) bits.old) }
    ensures kept { OnErr result (bits.new ≡ bits.old) }
{
    accept(count.div_ceil(8) <= bits.len(), Refusal::BadBits)?;
    let init = init_of(scrambling)?;
    let bytes = scrambled(alloc, count, bits, init)?;
    write_bytes(bits, bytes.as_slice());
    Ok(())
}

/// Scrambles the first `count` bits of `bits`, packed most significant bit first, and sets the unused low
/// bits of their last byte to 0. Scrambling twice restores them. Returns 0, or a `Refusal`'s number with
/// nothing changed.
#[unsafe(no_mangle)]
pub extern "C" fn gomzelat_scramble(
    alloc: Global,
    bits: &mut [u8],
    count: usize,
    scrambling: Scrambling,
) -> u32
    ensures answer { IsTold result (first_failed (scramble_tests count (length bits.old) scrambling)) }
    ensures bits { result ≡ 0 → bits.new
        ≡ with_front (scrambled_bytes count bits.old scrambling) bits.old }
    ensures kept { result ≢ 0 → bits.new ≡ bits.old }
{
    told(scramble(alloc, bits, count, &scrambling))
}

/// Returns the descrambled soft values.
fn turned_back(alloc: Global, values: &[i8], init: Init) -> Result<List<Soft>, NoMemory>
    ensures softs { IfOk result (λ softs. softs ≡ turned init (map (clamped 127) values.now)) }
    ensures long { IfOk result (λ softs. length softs ≡ length values.now) }
{
    let mut softs = softs_of(alloc, values)?;
    turn_softs(softs.as_mut_slice(), init);
    Ok(softs)
}

fn descramble(alloc: Global, values: &mut [i8], scrambling: &Scrambling) -> Result<(), Refusal>
    ensures answer { IsDone result (first_failed (scrambling_tests scrambling.now)) }
    ensures values { OnOk result (values.new ≡ descrambled values.old scrambling.now) }
    ensures kept { OnErr result (values.new ≡ values.old) }
{
    let init = init_of(scrambling)?;
    let softs = turned_back(alloc, values, init)?;
    write_softs(values, softs.as_slice());
    Ok(())
}

/// Descrambles soft values: negates each where the sequence's bit is 1; -128 is taken as -127. Returns 0, or
/// a `Refusal`'s number with nothing changed.
#[unsafe(no_mangle)]
pub extern "C" fn gomzelat_descramble(
    alloc: Global,
    values: &mut [i8],
    scrambling: Scrambling,
) -> u32
    ensures answer { IsTold result (first_failed (scrambling_tests scrambling)) }
    ensures values { result ≡ 0 → values.new ≡ descrambled values.old scrambling }
    ensures kept { result ≢ 0 → values.new ≡ values.old }
{
    told(descramble(alloc, values, &scrambling))
}
