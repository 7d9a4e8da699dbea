//! The pseudo-random sequence by words of an independent program, and lists that it scrambles.
use gold_scramble::{Gold, Init, scramble_bits, turn_softs};
use lte_bits::{Bit, Soft, pack, unpack};
use std::test::Fail;

// The first hundred bits of the sequence of the greatest numbers, and zeros up to a byte.
const LAST: [u8; 13] = [
    0x2D, 0xF8, 0x0F, 0x79, 0x44, 0xE8, 0x75, 0x70, 0x49, 0x49, 0xD4, 0x4F, 0xB0,
];

#[test]
fn generators_give_known_words(rt: HostRuntime) -> Result<(), Fail> {
    let rows = [
        (Init::new(0, 0, 0, 0), 0, [0x021A_127A, 0x2595_0356]),
        (Init::new(0, 0, 0, 1), 1, [0x0283_0374, 0x2B9A_FDE2]),
        (
            Init::new(65535, 1, 19, 503),
            1_073_738_743,
            [0x2DF8_0F79, 0x44E8_7570],
        ),
    ];
    for (init, value, words) in rows {
        let init = init.ok_or("refused")?;
        assert_eq!(rt; init.value(), value);
        let mut gold = Gold::new(init);
        for word in words {
            assert_eq!(rt; gold.next_word(), word, "of {value}");
        }
    }
    Ok(())
}

#[test]
fn generators_give_bits_one_by_one(rt: HostRuntime) -> Result<(), Fail> {
    let mut gold = Gold::new(Init::new(65535, 1, 19, 503).ok_or("refused")?);
    for bit in &unpack(rt.alloc(), &LAST[..12])? {
        assert_eq!(rt; gold.next_bit(), *bit);
    }
    Ok(())
}

#[test]
fn numbers_past_their_ranges_are_refused(rt: HostRuntime) {
    let rows = [(2, 0, 0), (0, 20, 0), (0, 0, 504), (255, 255, 65535)];
    for (q, slot, cell) in rows {
        assert_eq!(rt; Init::new(0, q, slot, cell), None);
    }
}

#[test]
fn bits_are_scrambled_and_back(rt: HostRuntime) -> Result<(), Fail> {
    let init = Init::new(65535, 1, 19, 503).ok_or("refused")?;
    let mut bits = vec![in rt.alloc(); Bit::Zero; 100]?;
    scramble_bits(&mut bits, init);
    assert_eq!(rt; pack(rt.alloc(), &bits)?.as_slice(), LAST.as_slice());
    scramble_bits(&mut bits, init);
    assert_eq!(rt; pack(rt.alloc(), &bits)?.as_slice(), [0; 13].as_slice());
    Ok(())
}

#[test]
fn values_are_turned_and_back(rt: HostRuntime) -> Result<(), Fail> {
    let init = Init::new(65535, 1, 19, 503).ok_or("refused")?;
    let mut softs = vec![in rt.alloc(); Soft::from_i8(-127); 96]?;
    turn_softs(&mut softs, init);
    let bits = unpack(rt.alloc(), &LAST[..12])?;
    assert_eq!(rt; softs.len(), bits.as_slice().len());
    for (soft, bit) in softs.iter().zip(&bits) {
        let turned = match bit {
            Bit::Zero => -127,
            Bit::One => 127,
        };
        assert_eq!(rt; soft.value(), turned);
    }
    turn_softs(&mut softs, init);
    for soft in &softs {
        assert_eq!(rt; soft.value(), -127);
    }
    Ok(())
}
