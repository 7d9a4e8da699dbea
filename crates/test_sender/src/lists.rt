//! The values of lists, and bits as bytes.
use lte_bits::{Bit, Block, Cell, List, pack, unpack};
use std::convert::AsSlice;
use std::hash::{DefaultHasher, Hash, Hasher};
use std::test::Fail;

#[test]
fn a_list_is_filled_up_and_cut(rt: HostRuntime) -> Result<(), Fail> {
    let mut list = List::from(vec![in rt.alloc(); 1, 2]?);
    list.resize(3, 7)?;
    assert_eq!(rt; list.as_slice(), [1, 2, 7].as_slice());
    list.resize(1, 7)?;
    let copy = list.clone()?;
    assert_eq!(rt; list.into_vec().as_slice(), [1].as_slice());
    assert_eq!(rt; Vec::from(copy).as_slice(), [1].as_slice());
    Ok(())
}

#[test]
fn a_list_is_written_through_its_slice(rt: HostRuntime) -> Result<(), Fail> {
    let mut list = List::from_vec(vec![in rt.alloc(); 1, 2, 7]?);
    list.as_mut_slice().reverse();
    assert!(rt; list == List::from_vec(vec![in rt.alloc(); 7, 2, 1]?));
    Ok(())
}

fn hash_of<T: Hash>(value: &T) -> u64 {
    let mut state = DefaultHasher::new();
    value.hash(&mut state);
    state.finish()
}

fn first_of<T: Copy, L: AsSlice<T>>(list: &L) -> Option<T> {
    list.as_slice().first().copied()
}

#[test]
fn equal_blocks_hash_alike(rt: HostRuntime) -> Result<(), Fail> {
    let bits = List::from_vec(vec![in rt.alloc(); Bit::Zero, Bit::One]?);
    assert_eq!(rt; first_of(&bits), Some(Bit::Zero));
    let block = Block { fill: 1, bits };
    let copy = block.clone()?;
    assert!(rt; block == copy);
    assert_eq!(rt; hash_of(&block), hash_of(&copy));
    let other = Block {
        fill: 0,
        bits: copy.bits,
    };
    assert!(rt; block != other);
    assert_ne!(rt; hash_of(&block), hash_of(&other));
    Ok(())
}

#[test]
fn bits_are_cells_and_digits(rt: HostRuntime) {
    assert_eq!(rt; Cell::from(Bit::One), Cell::One);
    assert_eq!(rt; [u8::from(Bit::Zero), u8::from(Bit::One)], [0, 1]);
    assert_eq!(rt; u32::from(Bit::One), 1);
}

#[test]
fn bits_stand_highest_first(rt: HostRuntime) -> Result<(), Fail> {
    let bits = unpack(rt.alloc(), &[0x86, 0x4C])?;
    let ones = [0, 5, 6, 9, 12, 13];
    for (i, bit) in bits.as_slice().iter().enumerate() {
        assert_eq!(rt; *bit == Bit::One, ones.contains(&i), "bit {i}");
    }
    let mut count = 0;
    for bit in &bits {
        if *bit == Bit::One && count < 16 {
            count += 1;
        }
    }
    assert_eq!(rt; count, ones.len());
    let rows: [(usize, &[u8]); 4] = [
        (0, &[]),
        (7, &[0x86]),
        (9, &[0x86, 0x00]),
        (14, &[0x86, 0x4C]),
    ];
    for (count, want) in rows {
        let front = &bits.as_slice()[..count.min(bits.as_slice().len())];
        assert_eq!(rt;
            pack(rt.alloc(), front)?.as_slice(),
            want,
            "of {count} bits"
        );
    }
    Ok(())
}
