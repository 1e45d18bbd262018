//! Reads that fail, give one byte, or end early.

use crate::checks::{check_same, check_that};
use crate::engines::{ENGINES, Engine, Given, Ran, Row, count, input, inputs_of, run, whole_of};
use crate::inputs::{Bytes, make_inputs};
use std::alloc::Global;
use std::io::ErrorKind;
use std::process::Abort;
use std::sync::Wait;
use std::thread::Threads;
use tas_engines::NamesFaultKind;
use tas_movie::{TextError, TextErrorKind};
use tas_tool::{ReadFault, RunFault, ToolFault};

/// No engine reads one input so often here.
const MOST: usize = 100;

/// How many bytes each read gives at most, where one fails.
const AT_ONCE: usize = 2000;

/// How often the inputs are read up to a read of the input with this number, where these are the reads of all inputs to their ends.
fn reads_up_to(whole: [usize; 4], input: usize, read: usize) -> [usize; 4] {
    match input {
        0 => [read, 0, 0, 0],
        1 => [whole[0], read, 0, 0],
        2 => [whole[0], whole[1], read, 0],
        _ => [whole[0], whole[1], whole[2], read],
    }
}

/// What an engine has written at a failed read: nothing, or, by a conversation whose lines all came with an earlier read, the
/// answers to them.
fn written_before(engine: Engine, input: usize, read: usize, whole: &[u8]) -> &[u8] {
    let lines = match engine {
        Engine::Talk => Some(0),
        Engine::CartTalk => Some(1),
        Engine::MovieTalk => Some(2),
        _ => None,
    };
    if lines == Some(input) && read > 1 {
        whole
    } else {
        &[]
    }
}

/// How often each input is read where no read fails: n times for its bytes, and once at its end.
fn whole_reads(engine: Row, bytes: &Bytes) -> [usize; 4] {
    let mut reads = [0; 4];
    for place in 0..count(engine) {
        if place < 4 {
            let size = input(engine, bytes, place).len();
            reads[place] = size.div_ceil(AT_ONCE).saturating_add(1);
        }
    }
    reads
}

/// Fails where an engine didn't end so, read its inputs more or less often, or wrote something else.
fn check_ran<R: Abort>(
    rt: &R,
    case: (&str, Engine, usize, usize),
    (found, written): (Ran, &[u8]),
    (wanted, text): (Ran, &[u8]),
) {
    check_same(rt, case, found, wanted);
    check_that(rt, case, written == text);
}

/// The kinds of read errors, and their names. No read is tried again after either.
static KINDS: [(ErrorKind, &str); 2] = [
    (ErrorKind::Other, "another error"),
    (ErrorKind::Interrupted, "an interruption"),
];

/// How many reads of one input fail in turn, until there are no more of them. Each one stops the engine: it is the last one of all
/// inputs, and nothing is written after it. Without one it writes all.
fn failed_reads<T: Wait + Threads + Sync + Abort>(
    rt: &T,
    alloc: Global,
    (engine, input): (Row, usize),
    (kind, name): (ErrorKind, &'static str),
    bytes: &Bytes,
    whole: &[u8],
) -> usize {
    let reads = whole_reads(engine, bytes);
    let mut failed = 0;
    for read in 1..MOST {
        let given = Given {
            at_once: AT_ONCE,
            fails_at: reads_up_to([0; 4], input, read),
            kind,
            ..inputs_of(engine, bytes)
        };
        let mut output = Vec::new(alloc);
        let ran = run(rt, alloc, engine.0, given, &mut output);
        let case = (name, engine.0, input, read);
        let found = (ran, output.as_slice());
        if ran.0.is_ok() {
            check_ran(rt, case, found, ((Ok(()), reads), whole));
            break;
        }
        let end = (
            Err(ToolFault::Read(ReadFault::Failed)),
            reads_up_to(reads, input, read),
        );
        let written = written_before(engine.0, input, read, whole);
        check_ran(rt, case, found, (end, written));
        failed = read;
    }
    failed
}

/// Fails where an engine doesn't write the same where each read gives one byte.
fn check_bytewise<T: Wait + Threads + Sync + Abort>(
    rt: &T,
    alloc: Global,
    engine: Row,
    bytes: &Bytes,
    whole: &[u8],
) {
    let given = Given {
        at_once: 1,
        ..inputs_of(engine, bytes)
    };
    let mut output = Vec::new(alloc);
    let (end, _reads) = run(rt, alloc, engine.0, given, &mut output);
    check_same(rt, engine.0, end, Ok(()));
    check_that(rt, engine.0, output.as_slice() == whole);
}

/// Each read of an engine fails in turn: one that gives the last bytes of an input, and one that gives none, too. An input that an
/// engine doesn't have is never read. Where none fails and each gives one byte, the engine writes the same.
fn check_reads<T: Wait + Threads + Sync + Abort>(
    rt: &T,
    alloc: Global,
    engine: Row,
    bytes: &Bytes,
) {
    let whole = whole_of(rt, alloc, engine, bytes);
    let reads = whole_reads(engine, bytes);
    for (input, wanted) in reads.iter().enumerate() {
        for row in KINDS.iter() {
            let failed = failed_reads(rt, alloc, (engine, input), *row, bytes, &whole);
            check_same(rt, ("failed reads", engine.0, input), failed, *wanted);
        }
    }
    check_bytewise(rt, alloc, engine, bytes, &whole);
}

#[test]
fn each_read_failing_and_one_byte_at_each(rt: HostRuntime) {
    let alloc = rt.alloc();
    let bytes = make_inputs(&rt, alloc);
    let engines = ENGINES;
    for engine in engines.iter() {
        check_reads(&rt, alloc, *engine, &bytes);
    }
}

/// The bytes without the last one.
fn cut_short(bytes: &[u8]) -> &[u8] {
    &bytes[..bytes.len().saturating_sub(1)]
}

/// What is wrong with an input without its last byte: a cartridge, a script's ninth line, the third line of changes or of a movie's text, the second
/// line of names.
fn early_end(engine: Engine, input: usize) -> ToolFault {
    match (engine, input) {
        (Engine::Script, _) | (Engine::MovieScript, 2) => ToolFault::Run(RunFault::Script {
            line: 9,
        }),
        (Engine::Edit | Engine::EditWith, 1) => ToolFault::Run(RunFault::Script { line: 3 }),
        (Engine::RamTable, 1) => ToolFault::Run(RunFault::Names {
            line: 2,
            kind: NamesFaultKind::End,
        }),
        (_, 0) => ToolFault::Run(RunFault::Size(4095)),
        _ => ToolFault::Run(RunFault::Text(TextError {
            line: 3,
            kind: TextErrorKind::End,
        })),
    }
}

/// Fails where an engine over one input without its last byte doesn't tell what is wrong with it.
fn check_cut<T: Wait + Threads + Sync + Abort>(
    rt: &T,
    alloc: Global,
    engine: Row,
    bytes: &Bytes,
    input: usize,
) {
    let mut given = inputs_of(engine, bytes);
    if let Some(cut) = given.inputs.get_mut(input) {
        *cut = cut_short(cut);
    }
    let mut output = Vec::new(alloc);
    let (end, _reads) = run(rt, alloc, engine.0, given, &mut output);
    let fault = early_end(engine.0, input);
    check_same(rt, ("cut", engine.0, input), end, Err(fault));
}

#[test]
fn inputs_that_end_early(rt: HostRuntime) {
    let alloc = rt.alloc();
    let bytes = make_inputs(&rt, alloc);
    let engines = ENGINES;
    for engine in engines.iter() {
        if !engine.0.is_conversation() {
            for input in 0..count(*engine) {
                check_cut(&rt, alloc, *engine, &bytes, input);
            }
        }
    }
}
