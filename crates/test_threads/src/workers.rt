//! Code blocks, decoded by several threads.
ghost use Rattle.std.specs.Prelude.{◌≡◌, IfOk, length};

use crate::meeting_gate::MeetingGate;
use crate::noting_gate::NotingGate;
use block_crc::crc24a;
use lte_bits::{Bit, Block, Cell, List, NoMemory, Soft, SoftStreams};
use qpp_table::qpp;
use std::alloc::Global;
use std::test::Fail;
use std::thread::join;
use turbo_encode::encode;
use window_decode::{CheckKind, Shape};
use window_workers::{NoGate, decode_block_shared, open_board, serve, take_result};

/// Returns streams of 44 zeros.
fn zeros(alloc: Global) -> Result<SoftStreams, NoMemory>
    ensures fill { IfOk result (λ s. s.fill ≡ 0) }
    ensures d0 { IfOk result (λ s. length s.d0 ≡ 44) }
    ensures d1 { IfOk result (λ s. length s.d1 ≡ 44) }
    ensures d2 { IfOk result (λ s. length s.d2 ≡ 44) }
{
    Ok(SoftStreams {
        fill: 0,
        d0: List::from_vec(vec![in alloc; Soft::ZERO; 44]?),
        d1: List::from_vec(vec![in alloc; Soft::ZERO; 44]?),
        d2: List::from_vec(vec![in alloc; Soft::ZERO; 44]?),
    })
}

/// Returns a code block of 488 bits, ones where the place is 1, 2 or 4 modulo 7, and 24 check bits.
fn code_block(alloc: Global) -> Result<Block, NoMemory> {
    let mut bits = Vec::new(alloc);
    for i in 0..488u32 {
        bits.push(match i % 7 {
            1 | 2 | 4 => Bit::One,
            _ => Bit::Zero,
        })?;
    }
    let check = crc24a(bits.as_slice());
    bits.extend_from_slice(&check)?;
    Ok(Block {
        fill: 0,
        bits: List::from_vec(bits),
    })
}

/// Returns soft values of cells: 20 for a 0 and -20 for a 1, but for each eleventh, which is the other way.
fn softs(alloc: Global, cells: &[Cell]) -> Result<List<Soft>, NoMemory> {
    let mut values = Vec::new(alloc);
    for (i, cell) in cells.iter().enumerate() {
        let one = *cell == Cell::One;
        let value = if one == (i % 11 == 0) { 20 } else { -20 };
        values.push(Soft::from_i8(value))?;
    }
    Ok(List::from_vec(values))
}

#[test]
fn two_threads_serve_a_board(rt: HostRuntime) -> Result<(), Fail> {
    let streams = zeros(rt.alloc())?;
    let shape = Shape::new(40, 0, CheckKind::A, 5, 8).ok_or("it is a shape")?;
    let (board, seat) = open_board(rt.alloc(), &streams, &shape)?;
    let (one, two) = board.split_seat(seat);
    let gate = MeetingGate::new(2);
    let (one, two) = join(
        &rt,
        || serve(&rt, &board, one, &gate),
        || serve(&rt, &board, two, &gate),
    );
    assert!(rt; gate.met());
    let seat = board.join_seat(one, two);
    assert!(rt; seat.saw_over());
    let (common, closed) = board.close(seat);
    assert_eq!(rt; closed.half(), 1);
    let result = take_result(common);
    assert_eq!(rt; (result.iterations, result.passed), (1, true));
    assert_eq!(rt; result.block.bits.as_slice(), [Bit::Zero; 40].as_slice());
    Ok(())
}

#[test]
fn any_number_of_workers_decodes_alike(rt: HostRuntime) -> Result<(), Fail> {
    let block = code_block(rt.alloc())?;
    assert!(rt; qpp(block.bits.as_slice().len()).is_some());
    let coded = encode(rt.alloc(), &block)?;
    let streams = SoftStreams {
        fill: 0,
        d0: softs(rt.alloc(), coded.d0.as_slice())?,
        d1: softs(rt.alloc(), coded.d1.as_slice())?,
        d2: softs(rt.alloc(), coded.d2.as_slice())?,
    };
    let lengths = (
        streams.d0.as_slice().len(),
        streams.d1.as_slice().len(),
        streams.d2.as_slice().len(),
    );
    assert!(rt; lengths.0 == 516 && lengths.1 == 516 && lengths.2 == 516);
    for windows in [1usize, 8, 64] {
        let shape = Shape::new(512, 0, CheckKind::A, windows, 8).ok_or("it is a shape")?;
        let (one, _) = decode_block_shared(&rt, rt.alloc(), &streams, &shape, 1, &NoGate)?;
        let gate = NotingGate::new(rt.alloc(), windows)?;
        let (many, closed) = decode_block_shared(&rt, rt.alloc(), &streams, &shape, 16, &gate)?;
        assert_eq!(rt; (many.passed, many.iterations), (true, one.iterations));
        assert_eq!(rt; closed.half() as usize + 1, 2 * one.iterations);
        assert!(rt; gate.saw_each_once(2 * one.iterations), "{windows} windows");
        assert_eq!(rt; one.block.bits.as_slice(), block.bits.as_slice());
        assert_eq!(rt; many.block.bits.as_slice(), block.bits.as_slice());
    }
    Ok(())
}

#[test]
fn two_windows_run_at_once(rt: HostRuntime) -> Result<(), Fail> {
    let streams = zeros(rt.alloc())?;
    let shape = Shape::new(40, 0, CheckKind::A, 5, 8).ok_or("it is a shape")?;
    let gate = MeetingGate::new(2);
    let (result, closed) = decode_block_shared(&rt, rt.alloc(), &streams, &shape, 2, &gate)?;
    assert!(rt; gate.met());
    assert_eq!(rt;
        (result.iterations, result.passed, closed.half()),
        (1, true, 1)
    );
    Ok(())
}
