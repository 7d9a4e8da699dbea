//! Worked values, and the whole table run through.
ghost use Rattle.std.specs.Prelude.{◌≡◌, ◌<◌};
ghost use Rattle.qpp_table.specs.Qpp.{size_in};

use crate::interleaver_sums::SUMS;
use qpp_table::interleaver::Qpp;
use qpp_table::{FixedQpp, Interleaver, addresses, bank_row, qpp, win, windows_stay_apart};
use std::alloc::{AllocError, Global};
use std::test::Fail;

/// Returns the sizes: 40 to 512 by 8, to 1024 by 16, to 2048 by 32 and to 6144 by 64.
fn is_size(k: usize) -> bool {
    match k {
        40..=512 => k % 8 == 0,
        513..=1024 => k % 16 == 0,
        1025..=2048 => k % 32 == 0,
        2049..=6144 => k % 64 == 0,
        _ => false,
    }
}

/// Returns whether each number below `n` is among the addresses.
fn are_all_below(alloc: Global, addresses: &[u16], n: usize) -> Result<bool, AllocError> {
    let mut seen = vec![in alloc; false; n]?;
    for address in addresses {
        if let Some(place) = seen.get_mut(usize::from(*address)) {
            *place = true;
        }
    }
    Ok(seen.iter().all(|place| *place))
}

#[test]
fn each_of_the_188_sizes_is_permuted(rt: HostRuntime) -> Result<(), Fail> {
    let mut count = 0u32;
    for k in 0..6300usize {
        assert_eq!(rt; qpp(k).is_some(), is_size(k), "size {k}");
        if qpp(k).is_some() {
            let mut out = vec![in rt.alloc(); 0u16; k]?;
            addresses(k, out.as_mut_slice());
            assert!(rt; are_all_below(rt.alloc(), out.as_slice(), k)?, "size {k}");
            count = count.saturating_add(1);
        }
    }
    assert_eq!(rt; count, 188);
    Ok(())
}

/// Returns the sum of the values times their places, counted from 1, modulo 2^32.
fn sum_in_order(values: &[u16]) -> u32 {
    let mut place = 0u32;
    let mut sum = 0u32;
    for value in values {
        place = place.wrapping_add(1);
        sum = sum.wrapping_add(place.wrapping_mul(u32::from(*value)));
    }
    sum
}

// A row may be changed everywhere alike and still be lawful.
#[test]
fn each_of_the_188_sizes_has_the_sum_of_another_library(rt: HostRuntime) -> Result<(), Fail> {
    let mut sums = SUMS.iter();
    for k in 0..6300usize {
        if qpp(k).is_some() {
            let mut out = vec![in rt.alloc(); 0u16; k]?;
            addresses(k, out.as_mut_slice());
            let sum = sum_in_order(out.as_slice());
            assert_eq!(rt; sums.next(), Some(&sum), "size {k}");
        }
    }
    assert!(rt; sums.next().is_none());
    Ok(())
}

// Other numbers may have the same values, as f1 + K in place of f1. The sums come from outside.
#[test]
fn the_numbers_of_the_table_have_known_sums(rt: HostRuntime) {
    let mut row = 0usize;
    let mut sums = [0usize; 4];
    for q in (0..6300usize).filter_map(|k| qpp(k)) {
        row = row.saturating_add(1);
        let (f1, f2) = (q.f1(), q.f2());
        let numbers = [f1, f2, row.saturating_mul(f1), row.saturating_mul(f2)];
        for (sum, number) in sums.iter_mut().zip(numbers) {
            *sum = sum.saturating_add(number);
        }
    }
    // Of f1 and of f2, and of each times the number of its row, counted from 1.
    assert_eq!(rt; sums, [17_068, 28_162, 1_963_992, 3_333_390]);
}

/// Returns the bank and the row of place 1 of window `t` of four.
fn place_one(q: &Qpp, t: usize) -> (usize, usize)
    requires size { size_in q.now ≡ 40 }
    requires window { t < 4 }
{
    bank_row(q, 4, t, 1)
}

#[test]
fn place_one_of_four_windows_of_forty(rt: HostRuntime) -> Result<(), Fail> {
    let q = qpp(40).ok_or("40 is a size")?;
    assert_eq!(rt; (q.size(), q.f1(), q.f2()), (40, 3, 10));
    assert_eq!(rt; [q.at(1), q.at(11), q.at(21), q.at(31)], [13, 3, 33, 23]);
    let stands = [
        place_one(&q, 0),
        place_one(&q, 1),
        place_one(&q, 2),
        place_one(&q, 3),
    ];
    assert_eq!(rt; stands, [(1, 3), (0, 3), (3, 3), (2, 3)]);
    windows_stay_apart::<Qpp>();
    Ok(())
}

/// Returns the value of place `i`, where the numbers are lawful and it is a place.
fn value<const K: usize, const F1: usize, const F2: usize>(i: usize) -> Option<usize> {
    let q = FixedQpp::<K, F1, F2>::new()?;
    if i < q.size() { Some(q.at(i)) } else { None }
}

#[test]
fn constants_of_any_size_are_taken_where_they_are_lawful(rt: HostRuntime) {
    for (found, want) in [
        (value::<40, 3, 10>(11), Some(3)),
        (value::<40, 0, 10>(11), None),
        (value::<40, 5, 10>(11), None),
        (value::<40, 3, 4>(11), None),
        (value::<0, 1, 0>(0), None),
        (value::<1, 0, 0>(0), Some(0)),
        (
            value::<9223372036854775808, 18446744073709551615, 1024>(4611686018427400249),
            Some(4611686174483977159),
        ),
        (
            value::<18446744073709551557, 9223372036854775813, 0>(18446744073709551556),
            Some(9223372036854775744),
        ),
        (
            value::<18446744073709551557, 9223372036854775813, 1>(0),
            None,
        ),
    ] {
        assert_eq!(rt; found, want);
    }
}

#[test]
fn windows_are_as_many_as_fit(rt: HostRuntime) {
    for (k, m, want) in [
        (40, 64, 5),
        (48, 64, 6),
        (5824, 10, 8),
        (3072, 64, 64),
        (40, 1, 1),
    ] {
        assert!(rt; qpp(k).is_some() && 1 <= m && m <= 64);
        assert_eq!(rt; win(k, m), want, "{k} places, at most {m} windows");
    }
}
