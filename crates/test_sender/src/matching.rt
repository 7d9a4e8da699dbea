//! The numbers of rate matching, transmissions, and what is in the circular buffer.
use qpp_table::qpp;
use rate_match::{
    BadMatch, Buffer, Match, Sends, Spot, buffer_len, fits, fits_buffer, fits_plan, piece_len,
    spot, start,
};
use segmentation::{plan, size};
use std::test::Fail;

#[test]
fn numbers_are_refused_in_order(rt: HostRuntime) -> Result<(), Fail> {
    let rows: [(u8, u8, u32, BadMatch); 7] = [
        (3, 3, 0, BadMatch::BadQm),
        (0, 1, 4, BadMatch::BadQm),
        (2, 0, 0, BadMatch::BadNl),
        (6, 3, 18, BadMatch::BadNl),
        (2, 1, 0, BadMatch::BadG),
        (2, 1, 1_000_002, BadMatch::BadG),
        (6, 2, 18, BadMatch::BadG),
    ];
    for (qm, nl, g, want) in rows {
        let made = Match::new(qm, nl, g, Buffer::Full);
        assert!(rt; made == Err(want), "of {qm}, {nl} and {g}");
    }
    let made = Match::new(4, 2, 16, Buffer::Limited(5)).expect(&rt, "a matching");
    assert_eq!(rt; (made.qm(), made.nl(), made.g()), (4, 2, 16));
    assert!(rt; made.buffer() == Buffer::Limited(5));
    Ok(())
}

#[test]
fn eight_transmissions_of_one_buffer_are_held(rt: HostRuntime) -> Result<(), Fail> {
    let first = Match::new(2, 1, 132, Buffer::Limited(64)).expect(&rt, "a matching");
    let second = Match::new(6, 1, 132, Buffer::Limited(64)).expect(&rt, "a matching");
    let other = Match::new(2, 1, 132, Buffer::Full).expect(&rt, "a matching");
    assert!(rt; Sends::one(first, 4).is_none());
    let mut sends = Sends::one(first, 2).expect(&rt, "a transmission");
    assert!(rt; !sends.add(first, 4));
    assert!(rt; !sends.add(other, 0));
    for rv in [0, 3, 1, 0, 0, 0] {
        assert!(rt; sends.add(first, rv));
    }
    assert!(rt; sends.even());
    assert!(rt; sends.add(second, 3));
    assert!(rt; !sends.even());
    assert!(rt; !sends.add(first, 0));
    assert_eq!(rt; sends.len(), 8);
    assert!(rt; sends.buffer() == Buffer::Limited(64));
    assert!(rt; sends.at(0) == (first, 2));
    assert!(rt; sends.at(7) == (second, 3));
    Ok(())
}

#[test]
fn buffers_that_fit(rt: HostRuntime) -> Result<(), Fail> {
    // The places that the plan of a length needs in all: 32R times C.
    let rows: [(usize, u32); 5] = [(1, 64), (2, 64), (765, 6176), (766, 6336), (18722, 151200)];
    for (tb, need) in rows {
        for (limit, want) in [(need, true), (need - 1, false)] {
            let buffer = Buffer::Limited(limit);
            let m = Match::new(2, 1, 132, buffer).expect(&rt, "a matching");
            let plan = plan(tb).expect(&rt, "a plan");
            let told = [
                fits(&m, tb),
                fits_plan(&m, &plan),
                fits_buffer(buffer, &plan),
            ];
            assert!(rt; told == [want; 3], "{tb} bytes in {limit}");
        }
    }
    Ok(())
}

#[test]
fn places_hold_the_bits_that_the_standard_names(rt: HostRuntime) {
    // Of 40 bits with 8 fillers: 20 NULLs fill the rows, and column 0 is followed by column 16.
    let rows: [(usize, Option<(u8, usize)>); 8] = [
        (0, None),
        (1, Some((0, 12))),
        (2, None),
        (3, Some((0, 28))),
        (64, None),
        (65, None),
        (66, Some((1, 12))),
        (191, None),
    ];
    for (n, want) in rows {
        let want = want.map(|(stream, index)| Spot { stream, index });
        assert!(rt; spot(40, 8, n) == want, "place {n}");
    }
}

#[test]
fn numbers_of_the_worked_blocks(rt: HostRuntime) -> Result<(), Fail> {
    let limited = Buffer::Limited(77328);
    // Bytes, G, Q_m, the buffer, a block, its N_cb and E, and where the redundancy versions start.
    let rows: [(usize, u32, u8, Buffer, usize, usize, usize, [usize; 4]); 5] = [
        (2, 8, 2, Buffer::Full, 0, 192, 8, [4, 52, 100, 148]),
        (766, 2, 2, Buffer::Full, 0, 9312, 0, [194, 2522, 4850, 7178]),
        (766, 2, 2, Buffer::Full, 1, 9504, 2, [198, 2574, 4950, 7326]),
        (
            9422,
            82800,
            6,
            limited,
            5,
            5948,
            6366,
            [366, 2196, 4026, 5856],
        ),
        (
            9422,
            82800,
            6,
            limited,
            6,
            5948,
            6372,
            [366, 2196, 4026, 5856],
        ),
    ];
    for (bytes, g, qm, buffer, r, places, piece, starts) in rows {
        let m = Match::new(qm, 1, g, buffer).expect(&rt, "a matching");
        let plan = plan(bytes).expect(&rt, "a plan");
        assert!(rt; r < plan.c && places > 0);
        let k = size(&plan, r);
        assert!(rt; qpp(k).is_some());
        assert_eq!(rt; buffer_len(&m, &plan, r), places);
        assert_eq!(rt; piece_len(&m, &plan, r), piece);
        for (rv, want) in starts.iter().enumerate() {
            assert_eq!(rt; start(k, places, rv as u8), *want, "of {bytes} bytes");
        }
    }
    Ok(())
}

#[test]
fn thirteen_blocks_share_a_codeword(rt: HostRuntime) -> Result<(), Fail> {
    let m = Match::new(6, 1, 82800, Buffer::Limited(77328)).expect(&rt, "a matching");
    let plan = plan(9422).expect(&rt, "a plan");
    assert_eq!(rt; plan.c, 13);
    for r in 0..13 {
        let piece = if r < 6 { 6366 } else { 6372 };
        assert_eq!(rt; piece_len(&m, &plan, r), piece, "block {r}");
    }
    Ok(())
}
