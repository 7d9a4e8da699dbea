//! Each read and each write of a run failing in turn: what is written then is a part of what the run
//! without a fault wrote.
use edge_io::MemSource;
use std::process::Abort;
use std::test::Fail;
use test_runs::{
    END, Edges, HARD, LENGTH_2, Ran, SOFT, joined, list_of, run_of, sink_of, small_blocks, sound,
    words_of,
};
use turbo_run::{SinkName, Status, run};

/// A run, and of its text the bytes of the opening, of a block's input, and of a whole block.
#[derive(Clone, Copy)]
struct Case {
    line: &'static str,
    input: &'static [u8],
    opening: usize,
    size: usize,
    text: usize,
}

const CASES: [Case; 4] = [
    Case {
        line: "codeword g=132 qm=2 rv=0",
        input: &[0, 1],
        opening: 0,
        size: 3,
        text: 17,
    },
    Case {
        line: "encode tb=2 g=132 qm=2 rv=0",
        input: &[0, 0],
        opening: 19,
        size: 2,
        text: 21,
    },
    Case {
        line: "encode tb=2 g=116 qm=2 rv=0",
        input: &[0, 0, 1],
        opening: 19,
        size: 2,
        text: 19,
    },
    Case {
        line: "encode tb=1 g=132,8 qm=2,4 rv=0,2",
        input: &[0, 1, 5],
        opening: 26,
        size: 1,
        text: 22,
    },
];

fn failing<'a>(reads: &'a [u64], outs: &'a [u64], reports: &'a [u64]) -> Edges<'a> {
    Edges {
        piece: 1,
        reads,
        outs,
        reports,
    }
}

/// How a run ended, and how much it wrote of what the run without a fault wrote.
fn assert_ran(
    rt: &(impl Abort + AllocGlobal),
    ran: &Ran,
    whole: &Ran,
    want: (Status, usize, &str),
) {
    assert_eq!(rt; ran.status, want.0);
    let all = whole.out.bytes();
    assert_eq!(rt; ran.out.bytes(), &all[..want.1.min(all.len())]);
    assert_eq!(rt; ran.report.bytes(), want.2.as_bytes());
}

#[test]
fn each_read_fails_in_turn(rt: HostRuntime) -> Result<(), Fail> {
    for case in CASES {
        let whole = run_of(rt.alloc(), case.line, case.input, sound(1))?;
        assert_eq!(rt; whole.status, Status::Done);
        // A read takes one byte, and the last finds the end.
        for n in 0..=case.input.len() {
            let calls = [n as u64];
            let edges = failing(&calls, &[], &[]);
            let ran = run_of(rt.alloc(), case.line, case.input, edges)?;
            let blocks = n / case.size.max(1);
            let stands = case
                .opening
                .saturating_add(blocks.saturating_mul(case.text));
            assert_ran(
                &rt,
                &ran,
                &whole,
                (Status::ReadFault, stands, "read fault\n"),
            );
        }
    }
    Ok(())
}

#[test]
fn each_write_fails_in_turn(rt: HostRuntime) -> Result<(), Fail> {
    let out = SinkName::Out;
    let report = SinkName::Report;
    for case in CASES {
        let whole = run_of(rt.alloc(), case.line, case.input, sound(1))?;
        for n in 0..whole.out.bytes().len() {
            let calls = [n as u64];
            let edges = failing(&[], &calls, &[]);
            let ran = run_of(rt.alloc(), case.line, case.input, edges)?;
            let fault = Status::WriteFault { sink: out };
            assert_ran(&rt, &ran, &whole, (fault, n, "write fault out\n"));
        }
        for n in 0..whole.report.bytes().len() {
            let calls = [n as u64];
            let edges = failing(&[], &[], &calls);
            let ran = run_of(rt.alloc(), case.line, case.input, edges)?;
            assert_eq!(rt; ran.status, Status::WriteFault { sink: report });
            assert_eq!(rt; ran.out.bytes(), whole.out.bytes());
            let line = whole.report.bytes();
            assert_eq!(rt; ran.report.bytes(), &line[..n.min(line.len())]);
        }
    }
    Ok(())
}

#[test]
fn the_line_of_a_fault_may_fail_itself(rt: HostRuntime) -> Result<(), Fail> {
    let mut unused = joined(rt.alloc(), &[&HARD, &LENGTH_2, &[0; 17], &END])?;
    if let Some(byte) = unused.get_mut(39) {
        *byte = 1;
    }
    let channel = "channel amp=40 noise=0 seed=1";
    let encode = "encode tb=2 g=132 qm=2 rv=0";
    // The arguments and the input, the reads and the writes to `out` that fail; and the line, its ending's exit,
    // and what `out` holds.
    let rows: [(&str, &[u8], &[u64], &[u64], &str, u8, &[u8]); 7] = [
        (
            "codeword g=132 qm=2 rv=0",
            &[0, 0],
            &[0],
            &[],
            "read fault\n",
            4,
            &[],
        ),
        (encode, &[0, 0], &[0], &[], "read fault\n", 4, &HARD),
        ("decode", &[0, 0], &[0], &[], "read fault\n", 4, &[]),
        (
            "encode tb=1 g=2",
            &[0, 0],
            &[0],
            &[0],
            "bad words 5 at 3\n",
            2,
            &[],
        ),
        (channel, &unused, &[], &[], "bad stream 5 at 39\n", 3, &SOFT),
        (encode, &[0, 0], &[], &[0], "write fault out\n", 5, &[]),
        (encode, &[0, 0], &[], &[19], "write fault out\n", 5, &HARD),
    ];
    for (command, input, reads, outs, line, exit, out) in rows {
        let line = line.as_bytes();
        // The last run has no failure but those of the row.
        for n in 0..=line.len() {
            let calls = [n as u64];
            let ran = run_of(rt.alloc(), command, input, failing(reads, outs, &calls))?;
            assert_eq!(rt; ran.status.exit(), exit, "of {command}");
            assert_eq!(rt; ran.out.bytes(), out, "of {command}");
            assert_eq!(rt;
                ran.report.bytes(),
                &line[..n.min(line.len())],
                "of {command}"
            );
        }
    }
    Ok(())
}

#[test]
fn a_fault_ends_a_run_over_threads(rt: HostRuntime) -> Result<(), Fail> {
    let words = words_of(rt.alloc(), "batch pipes=8")?;
    let blocks = small_blocks(rt.alloc(), 17)?;
    let none = list_of(rt.alloc(), &[])?;
    let mut source = MemSource::new(list_of(rt.alloc(), &blocks)?, 7, none);
    let mut out = sink_of(rt.alloc(), 100, 7, &[0])?;
    let mut report = sink_of(rt.alloc(), 100, 7, &[])?;
    let status = run(&rt, rt.alloc(), &words, &mut source, &mut out, &mut report);
    let sink = SinkName::Out;
    assert_eq!(rt; status, Status::WriteFault { sink });
    assert_eq!(rt; out.bytes().len(), 0);
    assert_eq!(rt; report.bytes(), b"write fault out\n".as_slice());
    // One block of 6 bytes, and the end word.
    assert_eq!(rt; source.left().len(), 10);
    Ok(())
}
