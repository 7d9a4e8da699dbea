//! The program: runs the command that its arguments ask for, from standard input to standard output, and
//! reports on standard error.
#![tactic(auto)]

use edge_io::{StdSink, StdSource};
use std::env;
use std::process::ExitCode;
use turbo_main::exit_of_run;

fn main(rt: HostRuntime) -> ExitCode {
    let mut source = StdSource::new(rt.stdin());
    let mut out = StdSink::new(rt.stdout());
    let mut report = StdSink::new(rt.stderr());
    exit_of_run(
        &rt,
        rt.alloc(),
        env::args(&rt),
        &mut source,
        &mut out,
        &mut report,
    )
}
