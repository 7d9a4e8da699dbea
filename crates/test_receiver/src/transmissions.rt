//! Worked transmissions in the soft buffers.
use crate::values::softs;
use lte_bits::{List, Soft};
use rate_match::{Buffer, Match, fits_buffer};
use segmentation::plan;
use soft_buffers::HarqBuffers;
use std::alloc::{AllocError, Global};
use std::process::Abort;
use std::test::Fail;

/// A transmission: Q_m, the redundancy version and the values.
#[derive(Clone, Copy)]
struct Sent<'a> {
    qm: u8,
    rv: u8,
    values: &'a [i8],
}

/// Returns the streams of the first block of a payload of so many bytes after the transmissions.
fn received(
    rt: &impl Abort,
    alloc: Global,
    bytes: usize,
    buffer: Buffer,
    transmissions: &[Sent],
) -> Result<[Vec<i8>; 3], Fail> {
    let plan = plan(bytes)?;
    assert!(rt; plan.c > 0 && fits_buffer(buffer, &plan));
    let mut buffers = HarqBuffers::new(alloc, &plan, buffer)?;
    for sent in transmissions {
        let values = softs(alloc, sent.values)?;
        let m = Match::new(sent.qm, 1, u32::try_from(values.len())?, buffer)?;
        assert!(rt; m.buffer() == buffer && values.len() == m.g() && sent.rv <= 3);
        buffers.combine(&m, sent.rv, values.as_slice());
    }
    let streams = buffers.streams(alloc, 0)?;
    Ok([
        numbers(alloc, &streams.d0)?,
        numbers(alloc, &streams.d1)?,
        numbers(alloc, &streams.d2)?,
    ])
}

fn numbers(alloc: Global, values: &List<Soft>) -> Result<Vec<i8>, AllocError> {
    let mut numbers = Vec::new(alloc);
    for value in values {
        numbers.push(value.value())?;
    }
    Ok(numbers)
}

#[test]
fn each_of_132_cells_is_received_twice(rt: HostRuntime) -> Result<(), Fail> {
    let sent = [Sent {
        qm: 2,
        rv: 0,
        values: &[100; 264],
    }];
    for stream in received(&rt, rt.alloc(), 2, Buffer::Full, &sent)? {
        assert_eq!(rt; stream.as_slice(), [127; 44].as_slice());
    }
    Ok(())
}

// The first bit that version 0 sends of 40 is place 20 of d0.
#[test]
fn each_sum_is_clamped_at_once(rt: HostRuntime) -> Result<(), Fail> {
    let mut high = [0; 132];
    let mut low = [0; 132];
    high[0] = 100;
    low[0] = -128;
    let sent = [
        Sent {
            qm: 2,
            rv: 0,
            values: &high,
        },
        Sent {
            qm: 2,
            rv: 0,
            values: &high,
        },
        Sent {
            qm: 2,
            rv: 0,
            values: &low,
        },
    ];
    for (count, cell) in [(1, 100), (2, 127), (3, 0)] {
        let mut want = [0; 44];
        want[20] = cell;
        let [d0, d1, d2] = received(&rt, rt.alloc(), 2, Buffer::Full, &sent[..count])?;
        assert_eq!(rt; d0.as_slice(), want.as_slice(), "after {count}");
        assert_eq!(rt; d1.as_slice(), [0; 44].as_slice());
        assert_eq!(rt; d2.as_slice(), [0; 44].as_slice());
    }
    Ok(())
}

// The first three bits that version 0 sends of 40 are the places 20, 4 and 36 of d0. Each is sent thrice.
#[test]
fn so_is_each_sum_within_a_transmission(rt: HostRuntime) -> Result<(), Fail> {
    let mut values = Vec::new(rt.alloc());
    for first in [[100, 100, -100], [100, -127, -100], [-127, 100, 100]] {
        values.extend_from_slice(&first)?;
        values.extend_from_slice(&[0; 129])?;
    }
    let mut want = [0; 44];
    want[4] = 73;
    want[36] = -27;
    let sent = [Sent {
        qm: 2,
        rv: 0,
        values: &values,
    }];
    let [d0, d1, d2] = received(&rt, rt.alloc(), 2, Buffer::Full, &sent)?;
    assert_eq!(rt; d0.as_slice(), want.as_slice());
    assert_eq!(rt; d1.as_slice(), [0; 44].as_slice());
    assert_eq!(rt; d2.as_slice(), [0; 44].as_slice());
    Ok(())
}

#[test]
fn fillers_are_known(rt: HostRuntime) -> Result<(), Fail> {
    let sent = [Sent {
        qm: 2,
        rv: 0,
        values: &[-50; 116],
    }];
    let [d0, d1, d2] = received(&rt, rt.alloc(), 1, Buffer::Full, &sent)?;
    let mut first = [-50; 44];
    let mut second = [-50; 44];
    for i in 0..8 {
        first[i] = 127;
        second[i] = 0;
    }
    assert_eq!(rt; d0.as_slice(), first.as_slice());
    assert_eq!(rt; d1.as_slice(), second.as_slice());
    assert_eq!(rt; d2.as_slice(), [-50; 44].as_slice());
    Ok(())
}

// The places are those of an independent program.
#[test]
fn transmissions_may_differ_in_length_and_modulation(rt: HostRuntime) -> Result<(), Fail> {
    let mut counted = [0; 36];
    for (i, value) in counted.iter_mut().enumerate() {
        *value = i as i8 + 1;
    }
    let sent = [
        Sent {
            qm: 2,
            rv: 0,
            values: &[10; 132],
        },
        Sent {
            qm: 6,
            rv: 2,
            values: &counted,
        },
    ];
    let [d0, d1, d2] = received(&rt, rt.alloc(), 2, Buffer::Full, &sent)?;
    assert_eq!(rt; d0.as_slice(), [10; 44].as_slice());
    assert_eq!(rt;
        d1.as_slice(),
        [
            10, 43, 21, 10, 10, 37, 15, 10, 10, 10, 27, 10, 10, 31, 10, 10, 10, 41, 19, 10, 10, 35,
            13, 10, 10, 10, 25, 10, 10, 33, 11, 10, 10, 45, 23, 10, 10, 39, 17, 10, 10, 10, 29, 10,
        ]
        .as_slice()
    );
    assert_eq!(rt;
        d2.as_slice(),
        [
            10, 10, 44, 22, 10, 10, 38, 16, 10, 10, 10, 28, 10, 10, 32, 10, 10, 10, 42, 20, 10, 10,
            36, 14, 10, 10, 10, 26, 10, 10, 34, 12, 10, 10, 46, 24, 10, 10, 40, 18, 10, 10, 10, 30,
        ]
        .as_slice()
    );
    Ok(())
}
