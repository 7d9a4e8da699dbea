//! Runs of the program's `decode` with several workers.
use crate::meeting_gate::MeetingGate;
use edge_io::MemSource;
use std::process::Abort;
use std::sync::Wait;
use std::test::Fail;
use std::thread::Threads;
use test_runs::{END, LENGTH_2, SOFT, chain_of, counted, joined, list_of, sink_of, words_of};
use turbo_run::{Status, run, run_gated};
use window_workers::{Gate, NoGate};

/// What a line makes of a stream: one block, which is delivered with this payload after so many iterations.
/// Where there is a gate, workers enter it.
fn assert_delivered<H: Threads + Wait + Sync + Abort + AllocGlobal, G: Gate + Sync>(
    rt: &H,
    line: &str,
    stream: &[u8],
    want: (&[u8], u32),
    gate: Option<&G>,
) -> Result<(), Fail> {
    let alloc = rt.alloc();
    let words = words_of(alloc, line)?;
    let mut source = MemSource::new(list_of(alloc, stream)?, 7, list_of(alloc, &[])?);
    let mut out = sink_of(alloc, 1000, 7, &[])?;
    let mut report = sink_of(alloc, 200, 7, &[])?;
    let status = match gate {
        Some(gate) => run_gated(rt, alloc, &words, &mut source, &mut out, &mut report, gate),
        None => run(rt, alloc, &words, &mut source, &mut out, &mut report),
    };
    assert_eq!(rt; status, Status::Done);
    let (payload, iterations) = want;
    assert_eq!(rt; out.bytes(), payload);
    let counts = format!(in alloc; "transmissions 1 iterations {iterations}")?;
    let told = format!(in alloc;
        "block 0 delivered bytes {} {counts}\nend blocks 1 delivered 1 failed 0\n",
        payload.len()
    )?;
    assert_eq!(rt; report.bytes(), told.as_bytes());
    assert!(rt; source.left().is_empty());
    Ok(())
}

#[test]
fn two_windows_at_once(rt: HostRuntime) -> Result<(), Fail> {
    let gate = MeetingGate::new(2);
    let stream = joined(rt.alloc(), &[&SOFT, &LENGTH_2, &[0; 132], &END])?;
    let want = ([0u8, 0].as_slice(), 1);
    assert_delivered(
        &rt,
        "decode windows=5 workers=2",
        &stream,
        want,
        Some(&gate),
    )?;
    assert!(rt; gate.met());
    Ok(())
}

#[test]
fn any_number_of_workers_ends_alike(rt: HostRuntime) -> Result<(), Fail> {
    let scramble = "scramble rnti=65535 q=1 slot=19 cell=503";
    let channel = "channel amp=40 noise=0 seed=1";
    let zeros = [0u8, 0];
    let large = counted(rt.alloc(), 766)?;
    let rows: [(&str, &[u8], u32); 2] = [
        ("encode tb=2 g=132 qm=2 rv=0", &zeros, 1),
        ("encode tb=766 g=18840 qm=2 rv=0", &large, 2),
    ];
    for (encode, payload, iterations) in rows {
        let plain = [encode, channel];
        let scrambled = [encode, scramble, channel, scramble];
        for lines in [plain.as_slice(), scrambled.as_slice()] {
            let sent = chain_of(rt.alloc(), lines, payload)?.ok_or("some command ran")?;
            for windows in [1u32, 8, 64] {
                for workers in [1u32, 16] {
                    let line = format!(in rt.alloc();
                        "decode windows={windows} workers={workers}"
                    )?;
                    let stream = sent.out.bytes();
                    let want = (payload, iterations);
                    assert_delivered(&rt, line.as_str(), stream, want, None::<&NoGate>)?;
                }
            }
        }
    }
    Ok(())
}
