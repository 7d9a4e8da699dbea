//! Known check bits, and which lists check.
use block_crc::{checks_a, checks_b, crc24a, crc24b};
use lte_bits::unpack;
use std::test::Fail;

#[test]
fn messages_have_their_known_check_bits(rt: HostRuntime) -> Result<(), Fail> {
    let rows: [(&[u8], [u8; 3], [u8; 3]); 3] = [
        (b"", [0x00, 0x00, 0x00], [0x00, 0x00, 0x00]),
        (b"\x01", [0x86, 0x4C, 0xFB], [0x80, 0x00, 0x63]),
        (b"123456789", [0xCD, 0xE7, 0x03], [0x23, 0xEF, 0x52]),
    ];
    for (message, a, b) in rows {
        let bits = unpack(rt.alloc(), message)?;
        let a = unpack(rt.alloc(), &a)?;
        let b = unpack(rt.alloc(), &b)?;
        assert_eq!(rt;
            crc24a(bits.as_slice()).as_slice(),
            a.as_slice(),
            "A of {message:?}"
        );
        assert_eq!(rt;
            crc24b(bits.as_slice()).as_slice(),
            b.as_slice(),
            "B of {message:?}"
        );
    }
    Ok(())
}

#[test]
fn only_multiples_check(rt: HostRuntime) -> Result<(), Fail> {
    let rows: [(&[u8], bool, bool); 7] = [
        (b"", true, true),
        (b"\x00\x00\x00\x00", true, true),
        (b"\x01", false, false),
        (b"\x01\x86\x4C\xFB", true, false),
        (b"\x01\x80\x00\x63", false, true),
        (b"\x01\x86\x4C\xFA", false, false),
        (b"\x81\x80\x00\x63", false, false),
    ];
    for (bytes, a, b) in rows {
        let bits = unpack(rt.alloc(), bytes)?;
        assert_eq!(rt; checks_a(bits.as_slice()), a, "A of {bytes:?}");
        assert_eq!(rt; checks_b(bits.as_slice()), b, "B of {bytes:?}");
    }
    Ok(())
}
