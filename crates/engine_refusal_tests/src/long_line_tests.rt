//! What a line takes that is longer than any that is understood: no more memory than the shortest one.

use crate::checks::{check_same, check_that, expect_ok};
use crate::refused_talks::MOST;
use refusals::Refusing;
use std::alloc::Global;
use std::process::Abort;
use std::sync::Wait;
use tas_tool::talk_run;

/// How many growths a conversation has of one line of this many bytes, none of which is understood.
fn growths_of_line<T: Wait + Abort>(rt: &T, alloc: Global, len: usize) -> u64 {
    let mut line = expect_ok(rt, Vec::with_capacity(alloc, len.saturating_add(1)));
    expect_ok(rt, line.resize(len, b'x'));
    expect_ok(rt, line.push(b'\n'));
    let wanted: &[u8] = if len > 16_384 {
        b"unknown long\n"
    } else {
        b"unknown word\n"
    };
    for number in 1..MOST {
        let heap = Refusing::new(alloc, number);
        let mut input = line.as_slice();
        let mut output = Vec::new(alloc);
        let end = talk_run(rt, &heap, &mut input, &mut output).end;
        if !heap.has_refused() {
            check_same(rt, ("end", len), end, Ok(()));
            check_that(rt, ("answer", len), output.as_slice() == wanted);
            return number - 1;
        }
    }
    MOST
}

/// A line of 1 byte, the longest one that is held, the shortest one that isn't, and one of 100,000 bytes: the same growths.
#[test]
fn a_line_too_long_takes_no_more_memory(rt: HostRuntime) {
    let alloc = rt.alloc();
    let short = growths_of_line(&rt, alloc, 1);
    check_that(&rt, "some growths", short < MOST);
    for len in [16_384, 16_385, 100_000] {
        check_same(&rt, len, growths_of_line(&rt, alloc, len), short);
    }
}
