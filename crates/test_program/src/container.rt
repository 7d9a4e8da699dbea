//! The container is read: each refusal at its byte, and how far.
use crate::streams::{Outcome, Stream, assert_reads, bad, bytes_of, read};
use coded_stream::{StreamStop, Want};
use std::test::Fail;
use test_runs::{joined, small_blocks};

#[test]
fn a_stream_that_is_cut_is_refused_at_its_end(rt: HostRuntime) -> Result<(), Fail> {
    for (stream, end) in [(Stream::Soft, 155), (Stream::Hard, 40), (Stream::Two, 48)] {
        let whole = bytes_of(rt.alloc(), stream)?;
        for n in 0..whole.len() {
            let blocks = if n < end { 0 } else { 1 };
            assert_reads(&rt, &whole[..n], Want::Any, (blocks, bad(6, n as u64), 0))?;
        }
        assert_reads(&rt, &whole, Want::Any, (1, None, 0))?;
    }
    Ok(())
}

#[test]
fn each_change_is_refused_at_its_byte(rt: HostRuntime) -> Result<(), Fail> {
    // The stream; the byte that is changed, and to what; the number and place of the refusal; and
    // the bytes that were taken.
    let rows: [(Stream, usize, u8, u8, u64, usize); 31] = [
        (Stream::Soft, 0, 0x4D, 1, 0, 18),
        (Stream::Soft, 3, 0x33, 1, 0, 18),
        (Stream::Soft, 4, 0x02, 2, 4, 18),
        (Stream::Soft, 5, 0x03, 3, 5, 18),
        (Stream::Soft, 6, 0x03, 3, 6, 18),
        (Stream::Soft, 7, 0x00, 3, 7, 18),
        (Stream::Soft, 7, 0x09, 3, 7, 18),
        (Stream::Soft, 9, 0x00, 3, 8, 18),
        (Stream::Soft, 8, 0x4A, 3, 8, 18),
        (Stream::Soft, 13, 0x85, 3, 10, 18),
        (Stream::Soft, 17, 0x01, 3, 14, 18),
        (Stream::Soft, 18, 0x04, 3, 18, 19),
        (Stream::Soft, 22, 0x03, 4, 19, 23),
        (Stream::Hard, 39, 0x91, 5, 39, 40),
        (Stream::Two, 3, 0x31, 3, 6, 18),
        (Stream::Two, 4, 0x02, 2, 4, 12),
        (Stream::Two, 5, 0x00, 3, 5, 12),
        (Stream::Two, 5, 0x09, 3, 5, 12),
        (Stream::Two, 7, 0x00, 3, 6, 12),
        (Stream::Two, 6, 0x4A, 3, 6, 12),
        (Stream::Two, 11, 0x01, 3, 8, 12),
        (Stream::Two, 8, 0x01, 3, 8, 12),
        (Stream::Two, 9, 0x10, 3, 8, 12),
        (Stream::Two, 12, 0x03, 3, 12, 26),
        (Stream::Two, 13, 0x00, 3, 13, 26),
        (Stream::Two, 14, 0x04, 3, 14, 26),
        (Stream::Two, 18, 0x85, 3, 15, 26),
        (Stream::Two, 19, 0x05, 3, 19, 26),
        (Stream::Two, 25, 0x0A, 3, 22, 26),
        (Stream::Two, 29, 0x03, 4, 26, 30),
        (Stream::Two, 46, 0x91, 5, 46, 47),
    ];
    for (stream, at, byte, number, place, taken) in rows {
        let mut bytes = bytes_of(rt.alloc(), stream)?;
        if let Some(changed) = bytes.get_mut(at) {
            *changed = byte;
        }
        let left = bytes.len().saturating_sub(taken);
        assert_reads(&rt, &bytes, Want::Any, (0, bad(number, place), left))?;
    }
    Ok(())
}

#[test]
fn a_unit_that_is_cut_is_refused_at_its_end_whatever_it_holds(rt: HostRuntime) -> Result<(), Fail> {
    // The stream; the byte that is changed, and to what; and the bytes that are there.
    let rows = [
        (Stream::Soft, 0, 0x4D, 17),
        (Stream::Soft, 3, 0x33, 17),
        (Stream::Soft, 4, 0x02, 17),
        (Stream::Soft, 19, 0xFF, 22),
        (Stream::Two, 3, 0x33, 17),
        (Stream::Two, 5, 0x09, 11),
        (Stream::Two, 12, 0x03, 25),
    ];
    for (stream, at, byte, count) in rows {
        let mut bytes = bytes_of(rt.alloc(), stream)?;
        if let Some(changed) = bytes.get_mut(at) {
            *changed = byte;
        }
        let cut = &bytes[..count.min(bytes.len())];
        assert_reads(&rt, cut, Want::Any, (0, bad(6, count as u64), 0))?;
    }
    Ok(())
}

#[test]
fn streams_of_each_kind_are_read_where_they_are_wanted(rt: HostRuntime) -> Result<(), Fail> {
    // The stream, its first unit, and whether it is one of soft values.
    let rows = [
        (Stream::Soft, 18, true),
        (Stream::Hard, 18, false),
        (Stream::Two, 12, false),
    ];
    for (stream, first, soft) in rows {
        let mut bytes = bytes_of(rt.alloc(), stream)?;
        let other = (0, bad(2, 4), bytes.len().saturating_sub(first));
        let (as_hard, as_soft) = if soft {
            (other, (1, None, 0))
        } else {
            ((1, None, 0), other)
        };
        assert_reads(&rt, &bytes, Want::Hard, as_hard)?;
        assert_reads(&rt, &bytes, Want::Soft, as_soft)?;
        assert_reads(&rt, &bytes, Want::Any, (1, None, 0))?;
        bytes.push(0)?;
        let end = bytes.len().saturating_sub(1);
        assert_reads(&rt, &bytes, Want::Any, (1, bad(7, end as u64), 0))?;
    }
    Ok(())
}

#[test]
fn each_failed_read_ends_the_stream(rt: HostRuntime) -> Result<(), Fail> {
    let fault = Some(StreamStop::Fault);
    // The stream, the reads that its bytes take one at a time and in pieces of 7, and those of
    // them before the end word.
    let rows = [(Stream::Hard, 44, 10, 8), (Stream::Two, 52, 12, 10)];
    for (stream, ones, sevens, block) in rows {
        let bytes = bytes_of(rt.alloc(), stream)?;
        for k in 0..=ones {
            let got = read(rt.alloc(), &bytes, Want::Hard, 1, &[k as u64])?;
            assert_eq!(rt; (got.stop, got.left), (fault, ones - k));
        }
        for k in 0..sevens {
            let got = read(rt.alloc(), &bytes, Want::Hard, 7, &[k])?;
            let blocks = if k < block { 0 } else { 1 };
            assert_eq!(rt; (got.blocks, got.stop), (blocks, fault));
        }
        let got = read(rt.alloc(), &bytes, Want::Hard, 7, &[sevens])?;
        assert_eq!(rt;
            got,
            Outcome {
                blocks: 1,
                stop: None,
                left: 0
            }
        );
    }
    Ok(())
}

#[test]
fn streams_have_at_most_4096_blocks(rt: HostRuntime) -> Result<(), Fail> {
    let many = small_blocks(rt.alloc(), 4096)?;
    assert_reads(&rt, &many, Want::Soft, (4096, None, 0))?;
    // What stands in place of the end word: too little of a length word, and one above the greatest.
    let cut = &many[..24_598.min(many.len())];
    assert_reads(&rt, cut, Want::Soft, (4096, bad(6, 24_598), 0))?;
    let blocks = &many[..24_595.min(many.len())];
    let above = joined(rt.alloc(), &[blocks, &[0xFF; 4]])?;
    assert_reads(&rt, &above, Want::Soft, (4096, bad(8, 24_595), 0))?;
    let many = small_blocks(rt.alloc(), 4097)?;
    assert_reads(&rt, &many, Want::Soft, (4096, bad(8, 24595), 6))
}
