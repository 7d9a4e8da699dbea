//! Constellation points and soft values of received points, by worked rows and an independent program.
ghost use Rattle.std.specs.Prelude.{◌≤◌};
ghost use Rattle.qam_points.specs.Constellation.{IsModulationOrder};
ghost use Rattle.qam_points.specs.Demapping.{IsNearby};

use lte_bits::{Bit, NoMemory};
use qam_points::{Point, demap, map};
use std::alloc::Global;
use std::test::Fail;

const O: Bit = Bit::Zero;

const I: Bit = Bit::One;

/// Returns whether these are the soft values of a received point.
fn has_values(alloc: Global, y: Point, qm: u8, amp: u8, values: &[i8]) -> Result<bool, NoMemory>
    requires order { IsModulationOrder qm }
    requires amp { (1 ≤ amp) × (amp ≤ 127) }
    requires near { IsNearby y }
{
    let softs = demap(alloc, &[y], qm, amp)?;
    let same = softs
        .as_slice()
        .iter()
        .zip(values)
        .all(|(soft, value)| soft.value() == *value);
    Ok(same && softs.as_slice().len() == values.len())
}

#[test]
fn bits_have_their_points(rt: HostRuntime) -> Result<(), Fail> {
    assert_eq!(rt;
        map(rt.alloc(), &[O, O, O, I, I, O, I, I], 2)?.as_slice(),
        [
            Point { i: 1, q: 1 },
            Point { i: 1, q: -1 },
            Point { i: -1, q: 1 },
            Point { i: -1, q: -1 },
        ]
        .as_slice()
    );
    assert_eq!(rt;
        map(rt.alloc(), &[O, O, O, O, I, O, I, I, O, I, I, O], 4)?.as_slice(),
        [
            Point { i: 1, q: 1 },
            Point { i: -3, q: 3 },
            Point { i: 3, q: -1 },
        ]
        .as_slice()
    );
    assert_eq!(rt;
        map(
            rt.alloc(),
            &[O, O, O, O, O, O, I, O, I, O, I, O, O, I, O, I, I, I],
            6
        )?
        .as_slice(),
        [
            Point { i: 3, q: 3 },
            Point { i: -7, q: 3 },
            Point { i: 1, q: -7 },
        ]
        .as_slice()
    );
    Ok(())
}

#[test]
fn points_of_two_and_four_bits_have_their_values(rt: HostRuntime) -> Result<(), Fail> {
    let alloc = rt.alloc();
    assert!(rt; has_values(alloc, Point { i: -7, q: 20 }, 2, 40, &[-7, 20])?);
    assert!(rt; has_values(alloc, Point { i: 4000, q: -4000 }, 2, 1, &[127, -127])?);
    assert!(rt; has_values(alloc, Point { i: 10, q: 10 }, 4, 10, &[10, 10, 10, 10])?);
    assert!(rt; has_values(alloc, Point { i: -30, q: 30 }, 4, 10, &[-40, 40, -10, -10])?);
    assert!(rt; has_values(alloc, Point { i: 35, q: -61 }, 4, 20, &[35, -82, 5, -21])?);
    Ok(())
}

#[test]
fn points_of_six_bits_have_their_values(rt: HostRuntime) -> Result<(), Fail> {
    let alloc = rt.alloc();
    assert!(rt;
        has_values(
            alloc,
            Point { i: 30, q: 30 },
            6,
            10,
            &[40, 40, 10, 10, 10, 10]
        )?
    );
    assert!(rt;
        has_values(
            alloc,
            Point { i: 23, q: -47 },
            6,
            10,
            &[26, -81, 17, -7, 3, 13]
        )?
    );
    assert!(rt;
        has_values(
            alloc,
            Point { i: -71, q: 5 },
            6,
            10,
            &[-127, 5, -42, 50, -11, -15]
        )?
    );
    assert!(rt;
        has_values(
            alloc,
            Point { i: 3, q: -9 },
            6,
            7,
            &[3, -9, 36, 24, -11, -5]
        )?
    );
    let far = Point { i: -1326, q: 700 };
    assert!(rt; has_values(alloc, far, 6, 127, &[-127, 127, -127, -127, -127, 62])?);
    Ok(())
}
