//! Noise and payloads, by vectors of an independent program.
use lte_bits::{Bit, List, NoMemory, Soft};
use soft_channel::{noise_terms, noisy, payload};
use std::alloc::Global;
use std::test::Fail;

// Each of its bytes, and of the bytes of the block's number, is another.
const SEED: u64 = 0x0102_0304_0506_0708;

const BLOCK: u32 = 0x0102;

/// Returns what is received of `count` equal bits.
fn received(alloc: Global, bit: Bit, count: usize) -> Result<List<Soft>, NoMemory> {
    let bits = vec![in alloc; bit; count]?;
    noisy(alloc, bits.as_slice(), 40, 20, 5, 0, 0)
}

/// Returns soft values of numbers.
fn softs(alloc: Global, numbers: &[i8]) -> Result<Vec<Soft>, NoMemory> {
    let mut values = Vec::with_capacity(alloc, numbers.len())?;
    for number in numbers {
        values.push(Soft::from_i8(*number))?;
    }
    Ok(values)
}

#[test]
fn payloads_of_two_seeds(rt: HostRuntime) -> Result<(), Fail> {
    let small = payload(rt.alloc(), 8, 1, 0)?;
    assert_eq!(rt;
        small.as_slice(),
        [0xA5, 0x55, 0x5A, 0x93, 0x41, 0x03, 0x79, 0x52].as_slice()
    );
    let large = payload(rt.alloc(), 8, SEED, BLOCK)?;
    assert_eq!(rt;
        large.as_slice(),
        [0x58, 0x1C, 0x0A, 0xC0, 0x6F, 0xC5, 0x28, 0x67].as_slice()
    );
    Ok(())
}

#[test]
fn terms_are_rounded_before_they_are_added(rt: HostRuntime) -> Result<(), Fail> {
    let zeros = softs(
        rt.alloc(),
        &[
            16, 62, 52, 20, 50, 53, 27, 67, 16, 37, 42, 30, 17, 75, 58, 43, 34, 54,
        ],
    )?;
    assert_eq!(rt;
        received(rt.alloc(), Bit::Zero, 18)?.as_slice(),
        zeros.as_slice()
    );
    let ones = softs(
        rt.alloc(),
        &[
            -64, -18, -28, -60, -30, -27, -53, -13, -64, -43, -38, -50, -63, -5, -22, -37, -46, -26,
        ],
    )?;
    assert_eq!(rt;
        received(rt.alloc(), Bit::One, 18)?.as_slice(),
        ones.as_slice()
    );
    let terms = noise_terms(rt.alloc(), 8, 20, 5, 0, 0)?;
    assert_eq!(rt;
        terms.as_slice(),
        [-24, 22, 12, -20, 10, 13, -13, 27].as_slice()
    );
    Ok(())
}

#[test]
fn strong_noise_is_clamped(rt: HostRuntime) -> Result<(), Fail> {
    let bits = [Bit::Zero; 8];
    let values = noisy(rt.alloc(), &bits, 1, 127, SEED, BLOCK, 7)?;
    let want = softs(rt.alloc(), &[-25, -127, 86, 127, -59, -43, 127, -127])?;
    assert_eq!(rt; values.as_slice(), want.as_slice());
    Ok(())
}

#[test]
fn without_noise_bits_are_plus_and_minus_the_amplitude(rt: HostRuntime) -> Result<(), Fail> {
    let values = noisy(rt.alloc(), &[Bit::Zero, Bit::One], 40, 0, 1, 0, 0)?;
    let want = softs(rt.alloc(), &[40, -40])?;
    assert_eq!(rt; values.as_slice(), want.as_slice());
    Ok(())
}
