//! The program `tas`: it hands its words, files and streams to the library `tas_program`.
#![tactic(auto)]

use std::env;
use std::process::ExitCode;
use tas_program::{Streams, run_program};

fn main(rt: HostRuntime) -> ExitCode {
    let words = env::args(&rt);
    let mut streams = Streams {
        input: rt.stdin(),
        output: rt.stdout(),
        errors: rt.stderr(),
    };
    let status = run_program(&rt, rt.alloc(), rt.alloc(), words, &rt, &mut streams);
    ExitCode::from(status.code())
}
