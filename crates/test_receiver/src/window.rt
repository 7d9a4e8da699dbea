//! Worked windows, shapes and borders. What the widest and the mixed window leave comes from an independent
//! program, which was compared with all paths.
ghost use Rattle.std.specs.Prelude.{◌≤◌};

use crate::mixed;
use crate::values::{Values, ext, exts, has_numbers, softs, strip};
use lte_bits::{NoMemory, Soft};
use rsc_trellis::State;
use std::alloc::Global;
use std::process::Abort;
use std::test::Fail;
use window_decode::{Border, CheckKind, Ext, Shape, Strip, Work, run_window};

/// Decodes a window with known start and unknown end, and gives the borders that it leaves.
fn decode(
    rt: &impl Abort,
    alloc: Global,
    values: &mut Values,
    room: usize,
) -> Result<(Border, Border), NoMemory>
    requires least { 8 ≤ room }
    requires most { room ≤ 6144 }
{
    let mut work = Work::new(alloc, room)?;
    assert!(rt; values.width() >= 8 && values.width() <= room);
    let borders = run_window(&mut work, &Border::known(), &Border::unknown(), values);
    assert_eq!(rt; work.room(), room);
    Ok(borders)
}

#[test]
fn one_parity_value_makes_one_cell(rt: HostRuntime) -> Result<(), Fail> {
    let mut values = strip(
        &rt,
        softs(rt.alloc(), &[0; 8])?,
        softs(rt.alloc(), &[-7, 0, 0, 0, 0, 0, 0, 0])?,
        vec![in rt.alloc(); Ext::ZERO; 8]?,
    );
    let (forward, backward) = decode(&rt, rt.alloc(), &mut values, 8)?;
    assert!(rt; forward == Border::unknown() && backward == Border::unknown());
    for (j, cell) in values.cells.iter().enumerate() {
        let want = if j == 0 { ext(-5, true) } else { Ext::ZERO };
        assert_eq!(rt; *cell, want, "position {j}");
    }
    Ok(())
}

#[test]
fn the_greatest_values_stay_within_the_cells(rt: HostRuntime) -> Result<(), Fail> {
    let mut values = strip(
        &rt,
        vec![in rt.alloc(); Soft::from_i8(127); 6144]?,
        vec![in rt.alloc(); Soft::from_i8(127); 6144]?,
        vec![in rt.alloc(); ext(511, false); 6144]?,
    );
    let (forward, backward) = decode(&rt, rt.alloc(), &mut values, 6144)?;
    let ending = [476, 476, 381, 381, 381, 285, 190, 95];
    for (j, cell) in values.cells.iter().enumerate() {
        let value = match j.checked_sub(6136) {
            Some(i) => ending.get(i).copied().unwrap_or(0),
            None => 511,
        };
        assert!(rt; cell.value == value && !cell.one, "position {j}");
    }
    let left = [0, -1273, -892, -1146, -765, -1019, -1146, -1146];
    assert!(rt; has_numbers(forward, left));
    let left = [0, -765, -1146, -892, -1273, -1019, -892, -892];
    assert!(rt; has_numbers(backward, left));
    Ok(())
}

#[test]
fn mixed_values_give_the_cells_of_an_independent_program(rt: HostRuntime) -> Result<(), Fail> {
    let mut values = strip(
        &rt,
        softs(rt.alloc(), &mixed::SYSTEMATIC)?,
        softs(rt.alloc(), &mixed::PARITY)?,
        exts(rt.alloc(), &mixed::OLD_CELLS)?,
    );
    let (forward, backward) = decode(&rt, rt.alloc(), &mut values, 16)?;
    for (j, cell) in values.cells.iter().enumerate() {
        assert_eq!(rt; Some(&cell.value), mixed::NEW_CELLS.get(j), "position {j}");
        assert_eq!(rt; Some(&cell.one), mixed::ONES.get(j), "position {j}");
    }
    assert!(rt; has_numbers(forward, mixed::FORWARD));
    assert!(rt; has_numbers(backward, mixed::BACKWARD));
    Ok(())
}

#[test]
fn shapes_are_those_of_the_sizes(rt: HostRuntime) {
    let shape = Shape::new(40, 3, CheckKind::B, 5, 16).expect(&rt, "a shape");
    assert_eq!(rt;
        (shape.k(), shape.f(), shape.windows(), shape.limit()),
        (40, 3, 5, 16)
    );
    assert!(rt; shape.kind() == CheckKind::B);
    for (k, f, windows, limit) in [
        (40, 0, 8, 1),
        (41, 0, 1, 1),
        (40, 40, 1, 1),
        (40, 0, 0, 1),
        (40, 0, 3, 1),
        (6144, 0, 96, 1),
        (40, 0, 5, 0),
        (40, 0, 5, 17),
    ] {
        assert!(rt;
            Shape::new(k, f, CheckKind::A, windows, limit).is_none(),
            "{k} {f} {windows} {limit}"
        );
    }
}

// From state 1 the tail's input bits are 1, 0, 0 and its parity bits 1, 0, 0.
#[test]
fn the_tail_border_sums_the_zeros_of_the_tail(rt: HostRuntime) {
    let soft = |v: i8| Soft::from_i8(v);
    let tail = Border::tail([soft(1), soft(2), soft(4)], [soft(8), soft(16), soft(32)]);
    let one = State::new(1).expect(&rt, "a state");
    assert_eq!(rt; tail.value(State::ZERO), 0);
    assert_eq!(rt; tail.value(one), 2 + 4 + 16 + 32 - 63);
    assert_eq!(rt; Border::known().value(one), -4096);
}
