//! Cells in banks, and code blocks whose windows run in lock step.
ghost use Rattle.std.specs.Prelude.{◌≡◌, length};
ghost use Rattle.cell_shares.specs.Orders.{IsOrderOf};

use crate::mixed;
use crate::values::{exts, has_numbers, softs};
use lane_windows::{Banks, LaneWork, Order, crossbar, decode_block_lanes, run_lock_step};
use lte_bits::{Bit, List, NoMemory, Soft, SoftStreams};
use qpp_table::qpp;
use std::alloc::Global;
use std::process::Abort;
use std::test::Fail;
use window_decode::{Border, CheckKind, Ext, Shape};

/// Returns 64 cells in eight banks.
fn eight_banks(alloc: Global, cells: Vec<Ext>) -> Result<Banks<8>, NoMemory>
    requires { length cells.items ≡ 64 }
{
    Banks::<8>::new(alloc, List::from_vec(cells))
}

/// Returns eight banks whose cells have their places as values.
fn numbered_banks(rt: &impl Abort, alloc: Global) -> Result<Banks<8>, NoMemory> {
    let mut places = [0; 64];
    for (n, place) in places.iter_mut().enumerate() {
        *place = n as i16;
    }
    let cells = exts(alloc, &places)?;
    assert!(rt; cells.len() == 64);
    eight_banks(alloc, cells)
}

#[test]
fn cells_of_one_step_stand_in_one_row(rt: HostRuntime) -> Result<(), Fail> {
    let order = Order::Interleaved(qpp(64).ok_or("it is a size")?);
    let (r, crossing) = crossbar::<8>(&order, 8, 1);
    assert_eq!(rt; (r, crossing), (7, [2, 1, 0, 7, 6, 5, 4, 3]));
    let banks = numbered_banks(&rt, rt.alloc())?;
    assert!(rt; banks.width() == 8);
    let row = banks.row(7).map(|cell| cell.value);
    assert_eq!(rt; row, [7, 15, 23, 31, 39, 47, 55, 63]);
    for (b, want) in crossing.iter().zip([23, 15, 7, 63, 55, 47, 39, 31]) {
        assert_eq!(rt; row.get(usize::from(*b)), Some(&want));
    }
    Ok(())
}

/// Decodes 64 cells in eight windows from known to unknown borders, of which one is the mixed window, and the
/// others have zeros.
fn decode_in_order(rt: &impl Abort, alloc: Global, order: &Order) -> Result<(), NoMemory>
    requires { IsOrderOf 64 order.now }
{
    let mut systematic = [0; 64];
    let mut parity = [0; 64];
    let mut cells = [0; 64];
    for j in 0..8 {
        systematic[24 + j] = mixed::SYSTEMATIC[j];
        parity[24 + j] = mixed::PARITY[j];
        cells[order.place(64, 24 + j)] = mixed::OLD_CELLS[j];
    }
    let sys = softs(alloc, &systematic)?;
    let par = softs(alloc, &parity)?;
    let cells = exts(alloc, &cells)?;
    assert!(rt; sys.len() == 64 && par.len() == 64 && cells.len() == 64);
    let mut banks = Banks::<8>::new(alloc, List::from_vec(cells))?;
    let mut ahead = [Border::unknown(); 8];
    let mut back = [Border::unknown(); 8];
    let mut work = LaneWork::<8>::new(alloc, 16)?;
    run_lock_step(
        &mut work,
        order,
        &sys,
        &par,
        &[Border::known(); 8],
        &[Border::unknown(); 8],
        &mut ahead,
        &mut back,
        &mut banks,
    );
    assert_eq!(rt; work.room(), 16);
    for j in 0..8 {
        let cell = banks.at(order.place(64, 24 + j));
        assert_eq!(rt; cell.value, mixed::NEW_CELLS[j], "position {j}");
        assert_eq!(rt; cell.one, mixed::ONES[j], "position {j}");
    }
    assert!(rt; has_numbers(ahead[3], mixed::FORWARD));
    assert!(rt; has_numbers(back[3], mixed::BACKWARD));
    Ok(())
}

#[test]
fn a_window_among_others_gives_the_cells_of_an_independent_program(
    rt: HostRuntime,
) -> Result<(), Fail> {
    decode_in_order(&rt, rt.alloc(), &Order::Natural)?;
    let interleaver = qpp(64).ok_or("it is a size")?;
    decode_in_order(&rt, rt.alloc(), &Order::Interleaved(interleaver))?;
    Ok(())
}

#[test]
fn zeros_are_decoded_in_lock_step(rt: HostRuntime) -> Result<(), Fail> {
    let shape = Shape::new(64, 0, CheckKind::A, 8, 8).ok_or("it is a shape")?;
    let streams = SoftStreams {
        fill: 0,
        d0: List::from_vec(vec![in rt.alloc(); Soft::ZERO; 68]?),
        d1: List::from_vec(vec![in rt.alloc(); Soft::ZERO; 68]?),
        d2: List::from_vec(vec![in rt.alloc(); Soft::ZERO; 68]?),
    };
    let result = decode_block_lanes::<8>(rt.alloc(), &streams, &shape)?;
    assert_eq!(rt;
        (result.iterations, result.passed, result.block.fill),
        (1, true, 0)
    );
    assert_eq!(rt; result.block.bits.as_slice(), [Bit::Zero; 64].as_slice());
    Ok(())
}
