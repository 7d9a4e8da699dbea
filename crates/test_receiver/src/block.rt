//! Worked code blocks of the serial decoder.
use lte_bits::{Bit, Block, Cell, List, NoMemory, Soft, SoftStreams};
use qpp_table::qpp;
use serial_decode::decode_block;
use std::alloc::Global;
use std::test::Fail;
use turbo_encode::encode;
use window_decode::{CheckKind, Shape};

/// Returns soft values of cells: 20 for a 0, -20 for a 1.
fn softs(alloc: Global, cells: &[Cell]) -> Result<List<Soft>, NoMemory> {
    let mut values = Vec::new(alloc);
    for cell in cells {
        let value = if *cell == Cell::One { -20 } else { 20 };
        values.push(Soft::from_i8(value))?;
    }
    Ok(List::from_vec(values))
}

#[test]
fn zeros_are_decoded_in_one_iteration(rt: HostRuntime) -> Result<(), Fail> {
    let shape = Shape::new(40, 0, CheckKind::A, 5, 8).ok_or("it is a shape")?;
    let streams = SoftStreams {
        fill: 0,
        d0: List::from_vec(vec![in rt.alloc(); Soft::ZERO; 44]?),
        d1: List::from_vec(vec![in rt.alloc(); Soft::ZERO; 44]?),
        d2: List::from_vec(vec![in rt.alloc(); Soft::ZERO; 44]?),
    };
    let result = decode_block(rt.alloc(), &streams, &shape)?;
    assert_eq!(rt;
        (result.iterations, result.passed, result.block.fill),
        (1, true, 0)
    );
    assert_eq!(rt; result.block.bits.as_slice(), [Bit::Zero; 40].as_slice());
    Ok(())
}

#[test]
fn bits_that_fail_the_check_come_from_the_last_iteration(rt: HostRuntime) -> Result<(), Fail> {
    let mut bits = vec![in rt.alloc(); Bit::Zero; 39]?;
    bits.push(Bit::One)?;
    let block = Block {
        fill: 0,
        bits: List::from_vec(bits),
    };
    assert!(rt; qpp(block.bits.as_slice().len()).is_some());
    let coded = encode(rt.alloc(), &block)?;
    let shape = Shape::new(40, 0, CheckKind::A, 5, 3).ok_or("it is a shape")?;
    let streams = SoftStreams {
        fill: 0,
        d0: softs(rt.alloc(), coded.d0.as_slice())?,
        d1: softs(rt.alloc(), coded.d1.as_slice())?,
        d2: softs(rt.alloc(), coded.d2.as_slice())?,
    };
    let lengths = (
        streams.d0.as_slice().len(),
        streams.d1.as_slice().len(),
        streams.d2.as_slice().len(),
    );
    assert!(rt; lengths.0 == 44 && lengths.1 == 44 && lengths.2 == 44);
    let result = decode_block(rt.alloc(), &streams, &shape)?;
    assert_eq!(rt; (result.iterations, result.passed), (3, false));
    assert_eq!(rt; result.block.bits.as_slice(), block.bits.as_slice());
    Ok(())
}
