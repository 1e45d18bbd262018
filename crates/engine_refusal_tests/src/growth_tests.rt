//! Growths that are refused.

use crate::checks::check_same;
use crate::engines::{ENGINES, Engine, Row, inputs_of, run, whole_of};
use crate::heaps::refusing;
use crate::inputs::{Bytes, make_inputs};
use std::alloc::Global;
use std::process::Abort;
use std::sync::Wait;
use std::thread::Threads;
use tas_tool::{ReadFault, RunFault, ToolFault};

/// No engine grows so often here.
const MOST: u64 = 1000;

/// How a run with one growth refused ended.
#[derive(Clone, Copy)]
enum Run {
    /// The growth was refused, and the engine ended so, with nothing written but the answers to its first lines.
    Refused,
    /// The growth was refused to a line, and its answer says so.
    Replied,
    /// The engine grew less often, and wrote its answer.
    Done,
    /// Anything else, and what it was.
    Wrong(&'static str),
}

/// Whether nothing was written, or, by an engine that answers lines, its answers to the first of them: by a script whole lines.
fn is_start(engine: Engine, output: &[u8], whole: &[u8]) -> bool {
    let are_answers = match engine {
        Engine::Script | Engine::MovieScript => output.ends_with(b"\n"),
        _ => engine.is_conversation(),
    };
    output.is_empty() || are_answers && whole.starts_with(output)
}

/// The replies before the first one that says that memory was refused.
fn before_refusal(text: &[u8]) -> Option<&[u8]> {
    for at in 0..text.len() {
        if text[at..].starts_with(b"out of memory\n") {
            return Some(&text[..at]);
        }
    }
    None
}

fn count_lines(text: &[u8]) -> usize {
    let mut lines = 0usize;
    for byte in text {
        if *byte == b'\n' {
            lines = lines.saturating_add(1);
        }
    }
    lines
}

/// Whether a reply says that memory was refused, where those before it are as ever and, in a script, as many as ever are
/// told.
fn tells_refusal(engine: Engine, text: &[u8], whole: &[u8]) -> bool {
    let is_script = match engine {
        Engine::Script | Engine::MovieScript => true,
        _ => false,
    };
    match before_refusal(text) {
        Some(before) => {
            whole.starts_with(before) && (!is_script || count_lines(text) == count_lines(whole))
        }
        None => false,
    }
}

/// Whether memory was refused, to reading or after it.
fn is_out_of_memory(fault: ToolFault) -> bool {
    matches!(
        fault,
        ToolFault::Read(ReadFault::Memory) | ToolFault::Run(RunFault::Memory)
    )
}

/// What a run shows, of which a growth was refused or none was.
fn run_of(
    engine: Engine,
    end: Result<(), ToolFault>,
    text: &[u8],
    whole: &[u8],
    has_refused: bool,
) -> Run {
    match (end, has_refused) {
        (Ok(()), false) if text == whole => Run::Done,
        (Ok(()), false) => Run::Wrong("another answer, and nothing was refused"),
        (Ok(()), true) if tells_refusal(engine, text, whole) => Run::Replied,
        (Ok(()), true) => Run::Wrong("the refusal isn't told, or an answer before it is wrong"),
        (Err(fault), true) if is_out_of_memory(fault) => {
            if is_start(engine, text, whole) {
                Run::Refused
            } else {
                Run::Wrong("not the answers to the first lines")
            }
        }
        _ => Run::Wrong("another fault"),
    }
}

fn run_refused<T: Wait + Threads + Sync>(
    rt: &T,
    alloc: Global,
    row: Row,
    bytes: &Bytes,
    whole: &[u8],
    number: u64,
) -> Run {
    let heap = refusing(alloc, number);
    let mut output = Vec::new(alloc);
    let (end, _reads) = run(rt, &heap, row.0, inputs_of(row, bytes), &mut output);
    run_of(row.0, end, output.as_slice(), whole, heap.has_refused())
}

/// Refuses an engine its growths in turn, until it grows no more: how many of them ended it, and how many an answer told. Else the
/// first growth that went wrong, and how.
fn count_refused<T: Wait + Threads + Sync>(
    rt: &T,
    alloc: Global,
    row: Row,
    bytes: &Bytes,
    whole: &[u8],
) -> Result<(u64, u64), (u64, &'static str)> {
    let (mut refused, mut replied) = (0u64, 0u64);
    for number in 1..MOST {
        match run_refused(rt, alloc, row, bytes, whole, number) {
            Run::Done => break,
            Run::Replied => replied = replied.saturating_add(1),
            Run::Refused => refused = refused.saturating_add(1),
            Run::Wrong(how) => return Err((number, how)),
        }
    }
    Ok((refused, replied))
}

/// Fails where another number of an engine's growths end it, or another number is told by an answer.
fn check_engine<T: Wait + Threads + Sync + Abort>(rt: &T, alloc: Global, row: Row, bytes: &Bytes) {
    let whole = whole_of(rt, alloc, row, bytes);
    let counts = count_refused(rt, alloc, row, bytes, whole.as_slice());
    check_same(rt, row.0, counts, Ok(row.2));
}

/// Each engine's growths are refused in turn. `ENGINES` has how many of them end it, and how many an answer tells.
///
/// A command that `run` runs has one for the list of its inputs, which isn't counted below. An input that isn't empty has one for its bytes, here, a cartridge one, and a movie that is read two: a copy of the cartridge, and its
/// inputs. A line is written piece by piece: its room is 8 bytes at first, and at least doubles. So:
///
/// - `Trace`: an input and a cartridge. `Check`, `Migrate`, `Shot`: two inputs, a cartridge and a movie, and two of a line, a text
///   or a picture. `Film`: the same, and the room for a pixmap. `New`: an input, a cartridge, a movie, its frames and a text.
/// - `Ram`: two inputs, a cartridge and a movie; the lines take none. `RamTable`: an input more, two names and their list, 2 of the head, and the
///   room of a line.
/// - `Digest`: those, the movie's text, 4 of the first lines (room for 22 bytes, then for 44, 91 and 182), a picture, room for its pixmap and 2 of the lines of the two stretches.
/// - `Compare`: three inputs, a cartridge and a movie twice, two pictures with room for their pixmaps, and 3 of the lines.
/// - `Lag`: two inputs, a cartridge and a movie, and 1 of the line of its one stretch. `Cut`: as `Lag`, with 1 of the text.
/// - `Edit`: three inputs, a cartridge and a movie, the inputs of two changes, and a text. `EditWith`: four inputs, a cartridge, two
///   movies, the inputs of two changes, and a text.
/// - `Diff`: three inputs, a cartridge and a movie twice, the runs of each that differ, two tables for each of three lengths of stretches,
///   both once more for the hunks between them, 8, the list of changes, 2 and 3 of their lines and 2 of the script. A replacement alone: 3 and 1.
/// - `Script`: 17 of a desk (12 until it is opened, 4 of its seat's zone, 1 of the list of seats), an input, 19 of the lines of the replies
///   (2, 2, 2, 1, 3, 3, 2, 3, 1) and 5 of their list. Told: 5 of `load` (the cartridge, and four of the first edit), 2 of `insert` and of
///   `replace` each (the inputs twice), 3 of `shot` (the movie's copy and a picture), 4 of `work` (the cartridge and inputs of a job that
///   keeps no state, and the movie's copy to share).
/// - `MovieScript`: two inputs, a cartridge, a movie and the 17; 7 of the two edits that make it (copies of cartridge and inputs, four
///   of the first edit, a second copy); then an input, the 19 and the 5. Told: `load` 2, and `replace` 3, since the journal grows at the
///   fifth edit.
/// - `Talk`: the 17, a line's room and the 19. Told: those 16, 5 of `picture` (the picture, 3 of its line and the room
///   after it for the pixmap), 4 of `movie` (its text, 2 and 1) and 2 of `states`. `MovieTalk` begins as `MovieScript`, `CartTalk` with an input, a
///   cartridge, a new movie of it, the 17 and the two edits without inputs to copy, 5.
/// - `Export`: the first 29 of `MovieScript`; the movie's copy, the list of runs, and for each run a picture, and room for its pixmaps where
///   it has frames.
#[test]
fn each_growth_refused(rt: HostRuntime) {
    let alloc = rt.alloc();
    let bytes = make_inputs(&rt, alloc);
    let engines = ENGINES;
    for row in engines.iter() {
        check_engine(&rt, alloc, *row, &bytes);
    }
}
