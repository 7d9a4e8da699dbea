//! Worked streams, streams of an independent library, and all sizes run through.
use crate::vectors::*;
use lte_bits::{Bit, Block, Cell, List, unpack};
use qpp_table::qpp;
use std::test::Fail;
use turbo_encode::encode;

/// Returns the cell of a bit after the fillers.
fn expected(bit: Bit, is_filler: bool) -> Cell {
    match bit {
        _ if is_filler => Cell::Null,
        Bit::Zero => Cell::Zero,
        Bit::One => Cell::One,
    }
}

/// Returns whether the cells are the first of some bits, `Null` at the first `fill` places.
fn are_cells_of(cells: &[Cell], bits: &[Bit], fill: usize) -> bool {
    cells.len() <= bits.len()
        && cells
            .iter()
            .zip(bits)
            .enumerate()
            .all(|(i, (cell, bit))| *cell == expected(*bit, i < fill))
}

// The first two cases have the encoder's input in common. The others come from an independent library.
#[test]
fn streams_of_known_blocks(rt: HostRuntime) -> Result<(), Fail> {
    let worked = [0x00, 0x01, 0x86, 0x4C, 0xFB];
    let worked_d0 = [0x00, 0x01, 0x86, 0x4C, 0xFB, 0xC0];
    let worked_d1 = [0x00, 0x01, 0x13, 0x03, 0x8A, 0xC0];
    let worked_d2 = [0x07, 0x99, 0x9A, 0x05, 0x6E, 0x40];
    let cases: [(usize, &[u8], [&[u8]; 3]); 6] = [
        (0, &worked, [&worked_d0, &worked_d1, &worked_d2]),
        (8, &worked, [&worked_d0, &worked_d1, &worked_d2]),
        (0, &BITS_40, [&D0_40, &D1_40, &D2_40]),
        (0, &BITS_104, [&D0_104, &D1_104, &D2_104]),
        (0, &BITS_512, [&D0_512, &D1_512, &D2_512]),
        (0, &BITS_528, [&D0_528, &D1_528, &D2_528]),
    ];
    for (fill, bytes, [d0, d1, d2]) in cases {
        let bits = unpack(rt.alloc(), bytes)?;
        let k = bits.as_slice().len();
        assert!(rt; qpp(k).is_some() && fill <= k, "{k} bits, {fill} fillers");
        let streams = encode(rt.alloc(), &Block { fill, bits })?;
        for (nulls, cells, want) in [
            (fill, &streams.d0, d0),
            (fill, &streams.d1, d1),
            (0, &streams.d2, d2),
        ] {
            let want = unpack(rt.alloc(), want)?;
            let cells = cells.as_slice();
            assert_eq!(rt; cells.len(), k.saturating_add(4), "{k} bits");
            assert!(rt; are_cells_of(cells, want.as_slice(), nulls), "{k} bits");
        }
    }
    Ok(())
}

#[test]
fn streams_of_each_of_the_188_sizes_are_four_longer(rt: HostRuntime) -> Result<(), Fail> {
    let mut count = 0u32;
    for k in 0..6300usize {
        if qpp(k).is_some() {
            let bits = List::from_vec(vec![in rt.alloc(); Bit::One; k]?);
            let streams = encode(rt.alloc(), &Block { fill: 0, bits })?;
            for cells in [&streams.d0, &streams.d1, &streams.d2] {
                assert_eq!(rt; cells.as_slice().len(), k.saturating_add(4), "size {k}");
            }
            count = count.saturating_add(1);
        }
    }
    assert_eq!(rt; count, 188);
    Ok(())
}
