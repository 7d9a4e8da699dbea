//! What runs leave of their input: nothing once they are done, what comes after a refused unit or wasn't read
//! ahead when a write failed, and all of it where nothing is to be read.
use std::test::Fail;
use test_runs::{END, Edges, HARD, LENGTH_2, SOFT, joined, run_of, small_blocks, sound};
use turbo_run::{SinkName, Status};

#[test]
fn no_byte_after_a_refused_unit_is_taken(rt: HostRuntime) -> Result<(), Fail> {
    let stream = joined(rt.alloc(), &[&SOFT, &LENGTH_2, &[0; 132], &END])?;
    let longer = joined(rt.alloc(), &[&stream, &[0; 5]])?;
    let mut too_long = stream.clone()?;
    if let Some(byte) = too_long.get_mut(22) {
        *byte = 3;
    }
    let zeros = vec![in rt.alloc(); 0u8; 18_730]?;
    let rows: [(&str, &[u8], usize); 14] = [
        ("encode tb=2 g=132 qm=2 rv=0", &[0, 1], 0),
        ("codeword g=132 qm=2 rv=0", &[0, 1], 0),
        ("decode", &stream, 0),
        ("decode", &longer, 4),
        ("decode", &too_long, 136),
        ("batch", &longer, 4),
        ("batch", &too_long, 136),
        ("channel amp=40 noise=0 seed=1", &stream, 141),
        ("scramble rnti=0 q=0 slot=0 cell=0", &longer, 4),
        ("upgrade", &longer, 4),
        ("codeword g=2 qm=2 rv=0", &zeros, 7),
        ("encode tb=1 g=2 qm=2 rv=0", &zeros[..4100], 3),
        ("encode tb=0", &[0, 1], 2),
        (
            "trial seed=1 blocks=1 tb=2 g=132 qm=2 rv=0 amp=40 noise=0",
            b"left",
            4,
        ),
    ];
    for (line, input, left) in rows {
        for piece in [1, 7] {
            let ran = run_of(rt.alloc(), line, input, sound(piece))?;
            assert_eq!(rt; ran.left, left, "of {line}");
        }
    }
    Ok(())
}

#[test]
fn a_failed_write_to_out_leaves_what_was_not_read_ahead(rt: HostRuntime) -> Result<(), Fail> {
    // A block takes 6 bytes, and the end word 4.
    let blocks = small_blocks(rt.alloc(), 17)?;
    let sent = joined(rt.alloc(), &[&HARD, &LENGTH_2, &[0; 17], &END])?;
    let rows: [(&str, &[u8], usize); 7] = [
        ("encode tb=2 g=132 qm=2 rv=0", &[0, 1, 0], 3),
        ("codeword g=132 qm=2 rv=0", &[0, 1], 0),
        ("channel amp=40 noise=0 seed=1", &sent, 25),
        ("decode", &blocks, 100),
        ("batch pipes=1", &blocks, 94),
        ("batch", &blocks, 82),
        ("batch pipes=8", &blocks, 10),
    ];
    for (line, input, left) in rows {
        for piece in [1, 7] {
            let edges = Edges {
                piece,
                reads: &[],
                outs: &[0],
                reports: &[],
            };
            let ran = run_of(rt.alloc(), line, input, edges)?;
            let sink = SinkName::Out;
            assert_eq!(rt; ran.status, Status::WriteFault { sink });
            assert_eq!(rt; ran.left, left, "of {line}");
        }
    }
    Ok(())
}

#[test]
fn so_does_a_failed_write_to_the_report(rt: HostRuntime) -> Result<(), Fail> {
    let blocks = small_blocks(rt.alloc(), 17)?;
    let rows: [(&str, &[u8], usize); 4] = [
        ("encode tb=2 g=132 qm=2 rv=0", &[0, 1, 0], 0),
        ("decode", &blocks, 100),
        ("batch pipes=8", &blocks, 10),
        (
            "trial seed=1 blocks=1 tb=2 g=132 qm=2 rv=0 amp=40 noise=0",
            b"left",
            4,
        ),
    ];
    for (line, input, left) in rows {
        let edges = Edges {
            piece: 1,
            reads: &[],
            outs: &[],
            reports: &[0],
        };
        let ran = run_of(rt.alloc(), line, input, edges)?;
        let sink = SinkName::Report;
        assert_eq!(rt; ran.status, Status::WriteFault { sink });
        assert_eq!(rt; ran.left, left, "of {line}");
    }
    Ok(())
}
