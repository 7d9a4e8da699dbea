//! Registers of 31 places as numbers, the first place most significant, several places at a time.
ghost use Rattle.std.specs.Prelude.{◌≡◌, ◌+◌, ◌^◌, ◌<◌, ◌≤◌, bit_xor};
ghost use Rattle.gold_scramble.specs.Places.{highest_first, places};
ghost use Rattle.gold_scramble.specs.Sequence.{place, x1_recurrence, x2_recurrence};

/// Returns 31 places of x1, and the `count` places after them, at most 28.
#[inline]
pub fn x1_continued(register: u32, count: u32) -> u64
    requires register { register < 2 ^ 31 }
    requires count { count ≤ 28 }
    ensures places { highest_first (31 + count) result
        ≡ places (place x1_recurrence (highest_first 31 register)) 0 (31 + count) }
    ensures small { result < 2 ^ (31 + count) }
{
    let x = u64::from(register);
    let next = (x >> (28 - count)) ^ (x >> (31 - count));
    (x << count) | (next & ((1 << count) - 1))
}

/// Returns 31 places of x2, and the `count` places after them, at most 28.
#[inline]
pub fn x2_continued(register: u32, count: u32) -> u64
    requires register { register < 2 ^ 31 }
    requires count { count ≤ 28 }
    ensures places { highest_first (31 + count) result
        ≡ places (place x2_recurrence (highest_first 31 register)) 0 (31 + count) }
    ensures small { result < 2 ^ (31 + count) }
{
    let x = u64::from(register);
    let next = (x >> (28 - count))
        ^ (x >> (29 - count))
        ^ (x >> (30 - count))
        ^ (x >> (31 - count));
    (x << count) | (next & ((1 << count) - 1))
}
