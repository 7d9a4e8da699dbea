//! The decided bits of banks, by the signs of their sums.
ghost use Rattle.std.specs.Prelude.{◌≡◌, ℕ, ◌+◌, ◌*◌, ◌<◌, ◌≤◌, length};
ghost use Rattle.std.specs.Prelude.{nat_lt, slice_index_or, if◌then◌else◌};
ghost use Rattle.lte_bits.specs.declared.bit.Bit.TheVariants.{Zero};
ghost use Rattle.model_receiver.specs.Borders.{at};
ghost use Rattle.window_rows.specs.Rows.{IsLaneCount, number_in};
ghost use Rattle.lane_banks.specs.Banks.{bit_of};

use lte_bits::Bit;

/// Returns the bit that the sum of a lane decides.
fn lane_bit<const N: usize>(sums: &[i16; N], b: usize) -> Bit
    requires { b < N }
    ensures { result ≡ bit_of (at sums.now b) }
{
    if sums[b] < 0 { Bit::One } else { Bit::Zero }
}

/// Writes the decided bits of bank `b`, whose places follow those of the banks before it.
pub fn decide_bank<const N: usize>(sums: &[[i16; N]], b: usize, bits: &mut [Bit])
    requires lanes { IsLaneCount N }
    requires bank { b < N }
    requires long { length bits.old ≡ N * length sums.now }
    ensures bank { (r : ℕ) → r < length sums.now
        → slice_index_or bits.new (b * length sums.now + r) Zero ≡ bit_of (number_in sums.now r b) }
    ensures before { (i : ℕ) → i < b * length sums.now
        → slice_index_or bits.new i Zero ≡ slice_index_or bits.old i Zero }
{
    let first = b * sums.len();
    for r in 0..sums.len() {
        bits[first + r] = lane_bit(&sums[r], b);
    }
}

/// Makes the first `fill` bits 0.
pub fn clear(fill: usize, bits: &mut [Bit])
    requires { fill ≤ length bits.old }
    ensures { (i : ℕ) → slice_index_or bits.new i Zero
        ≡ if nat_lt i fill then Zero else slice_index_or bits.old i Zero }
{
    for i in 0..fill {
        bits[i] = Bit::Zero;
    }
}
