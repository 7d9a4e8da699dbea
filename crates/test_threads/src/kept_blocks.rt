//! Transport blocks of several code blocks, received by several threads.
use block_receive::receive_shared;
use rate_match::{Buffer, Match, Sends, fits_plan};
use segmentation::plan;
use std::test::Fail;
use test_blocks::{push_equal, sent_of_block, told, zeros_and_one};
use window_workers::NoGate;

// Block 0 passes at once. In the first row its later values would spoil it, were it decoded anew; in the
// second all pass but the transport block's check fails, so that none is kept.
#[test]
fn workers_keep_blocks_that_passed(rt: HostRuntime) -> Result<(), Fail> {
    let plan = plan(766)?;
    let m = Match::new(2, 1, 18840, Buffer::Full)?;
    assert!(rt; fits_plan(&m, &plan));
    let once = Sends::one(m, 0).ok_or("a transmission")?;
    let mut twice = Sends::one(m, 0).ok_or("a transmission")?;
    assert!(rt; twice.add(m, 0));
    // The zeros of block 1 before a one, and the bits after it, which are none or those that check it; the
    // values of block 0 in the second transmission; and the iterations after the first.
    let rows: [(usize, &[u8], i8, usize); 2] = [
        (3135, &[], -127, 4),
        (3111, &[0x80, 0x00, 0x63], 100, 2),
    ];
    for (zeros, after, later, iterations) in rows {
        for workers in [1usize, 4] {
            assert!(rt; 1 <= workers && workers <= 16);
            let bits = zeros_and_one(rt.alloc(), zeros, after)?;
            let mut softs = Vec::new(rt.alloc());
            push_equal(&mut softs, 9420, 100)?;
            let second = sent_of_block(rt.alloc(), 766, 18840, 1, bits)?;
            softs.extend_from_slice(&second)?;
            assert!(rt; softs.len() == m.g());
            let outcome = receive_shared(
                &rt,
                rt.alloc(),
                &plan,
                &once,
                8,
                3,
                &softs,
                workers,
                &NoGate,
            )?;
            assert_eq!(rt; told(&outcome), (0, 1, iterations));
            push_equal(&mut softs, 9420, later)?;
            push_equal(&mut softs, 9420, 100)?;
            assert!(rt; softs.len() == 2 * m.g());
            let outcome = receive_shared(
                &rt,
                rt.alloc(),
                &plan,
                &twice,
                8,
                3,
                &softs,
                workers,
                &NoGate,
            )?;
            assert_eq!(rt; told(&outcome), (766, 2, 2));
        }
    }
    Ok(())
}
