//! Codewords, and what single blocks send, against an independent encoder.
use lte_bits::{Bit, pack};
use qpp_table::qpp;
use rate_match::{Buffer, Match, codeword, fits_plan, piece_len, select};
use segmentation::{cut, plan};
use std::test::Fail;
use turbo_encode::encode;

#[test]
fn codewords_of_an_independent_encoder(rt: HostRuntime) -> Result<(), Fail> {
    // G, Q_m, the redundancy version, the payload, and the codeword
    let rows: [(u32, u8, u8, &[u8], &[u8]); 17] = [
        (8, 2, 1, b"\x00\x01", b"\x24"),
        (8, 2, 2, b"\x00\x01", b"\xe6"),
        (8, 2, 3, b"\x00\x01", b"\x10"),
        (2, 2, 0, &[0; 766], b"\x00"),
        (132, 2, 0, &[0; 2], &[0; 17]),
        (132, 2, 1, &[0; 2], &[0; 17]),
        (132, 2, 2, &[0; 2], &[0; 17]),
        (132, 2, 3, &[0; 2], &[0; 17]),
        (
            120,
            2,
            0,
            b"\x50",
            b"\xea\x25\x6f\x2e\x90\x18\xda\x33\xc3\x61\x6b\x26\x1c\xa4\x5e",
        ),
        (
            120,
            2,
            1,
            b"\x31",
            b"\xdc\x26\x12\x77\xbc\xfa\x8f\x94\xf1\xfe\x62\x6c\x71\x95\x3d",
        ),
        (
            120,
            2,
            2,
            b"\x06",
            b"\xd0\xa0\x2b\xb5\x00\x2d\x40\x0d\x18\xc9\x4b\x50\xae\xd0\x9d",
        ),
        (
            120,
            2,
            3,
            b"\x1a",
            b"\x2b\x87\xae\xf7\xe7\xb0\x70\x17\xb1\x92\x8e\xa1\x71\x3e\xd2",
        ),
        (
            132,
            2,
            0,
            b"\x01\x1f",
            b"\xb4\xe4\xce\x93\xf9\x9c\x19\x78\x01\x70\x21\xf2\x92\xcd\x5a\xa9\xb0",
        ),
        (
            132,
            2,
            1,
            b"\x20\x02",
            b"\xa6\xf1\xf8\x1f\x9a\xf2\x7a\x13\x1a\xc0\x53\xbf\xb0\x9c\x62\x1b\x50",
        ),
        (
            132,
            2,
            2,
            b"\x23\xf7",
            b"\xce\x7e\xb1\x6a\x14\x30\x3b\xad\x40\x5a\xce\x81\xee\x7b\x2f\x5c\xa0",
        ),
        (
            132,
            2,
            3,
            b"\x3d\x90",
            b"\x26\xe3\x7e\x14\x59\x64\xe1\xe2\x29\xf2\x7a\x11\x46\xfa\x06\xf0\xb0",
        ),
        (
            96,
            6,
            0,
            b"\x36\x82\xf0\x29\x5f",
            b"\x6c\x8e\xc1\x53\x10\x36\x8e\xb7\x67\x9c\x6f\x83",
        ),
    ];
    for (g, qm, rv, payload, want) in rows {
        assert!(rt; 1 <= payload.len() && payload.len() <= 18_722 && rv <= 3);
        let m = Match::new(qm, 1, g, Buffer::Full).expect(&rt, "a matching");
        let bits = codeword(rt.alloc(), payload, &m, rv)?;
        assert_eq!(rt; bits.as_slice().len(), g as usize);
        assert_eq!(rt;
            pack(rt.alloc(), bits.as_slice())?.as_slice(),
            want,
            "G {g}, version {rv}"
        );
    }
    Ok(())
}

/// Returns the 32-bit FNV-1a checksum of bits, one byte each.
fn checksum(bits: &[Bit]) -> u32 {
    bits.iter().fold(2_166_136_261, |sum, bit| {
        (sum ^ u32::from(*bit)).wrapping_mul(16_777_619)
    })
}

#[test]
fn selections_are_the_codeword_of_an_independent_encoder(rt: HostRuntime) -> Result<(), Fail> {
    // Q_m, N_L, G, the buffer, the redundancy version, and the checksum, of two blocks with 8 fillers
    let rows: [(u8, u8, u32, Buffer, u8, u32); 3] = [
        (2, 1, 18840, Buffer::Full, 0, 0x9C53_17FA),
        (4, 2, 4000, Buffer::Limited(6336), 3, 0x6BCD_305D),
        (2, 1, 30000, Buffer::Limited(6400), 2, 0x7A80_75A9),
    ];
    let mut payload = [0; 766];
    for (i, byte) in payload.iter_mut().enumerate() {
        *byte = (i % 256) as u8;
    }
    let plan = plan(payload.len()).expect(&rt, "a plan");
    let blocks = cut(rt.alloc(), &payload, &plan)?;
    for (qm, nl, g, buffer, rv, want) in rows {
        let m = Match::new(qm, nl, g, buffer).expect(&rt, "a matching");
        assert!(rt; fits_plan(&m, &plan) && rv <= 3);
        let bits = codeword(rt.alloc(), &payload, &m, rv)?;
        assert_eq!(rt; checksum(bits.as_slice()), want, "of G {g}");
        let mut rest = bits.as_slice();
        for (r, block) in blocks.as_slice().iter().enumerate() {
            assert!(rt; r < plan.c && qpp(block.bits.as_slice().len()).is_some());
            let streams = encode(rt.alloc(), block)?;
            let piece = select(rt.alloc(), &streams, &m, r, &plan, rv)?;
            assert!(rt; rest.starts_with(piece.as_slice()), "block {r} of G {g}");
            rest = &rest[piece_len(&m, &plan, r).min(rest.len())..];
        }
        assert!(rt; rest.is_empty());
    }
    Ok(())
}
