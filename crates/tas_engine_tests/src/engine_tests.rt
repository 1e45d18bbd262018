//! Engines over readers and writers that give and take as a test says.

use crate::checks::{check_same, check_that, expect_ok};
use crate::movies::{
    BLANK, HALTING_MOVIE, PLAYFIELD, PLAYFIELD_DIGEST, PLAYFIELD_MOVIE, STORES, image_of,
    older_text_of, text_of,
};
use crate::ran::{
    Engine, FAILED, FAILURES, OTHER_DIGEST, Ran, TOO_LONG, check_fault, check_filled, check_ran,
    run, run_on, run_to,
};
use std::alloc::Global;
use std::io::{ErrorKind, Read};
use std::process::Abort;
use tas_engines::{INPUT_LIMIT, RunFault, ToolFault};
use tas_movie::{TextError, TextErrorKind};
use test_streams::{Failure, Filler, Giver, Room, Taker};

/// Fails where an engine on these bytes ends in another way than by this fault, or writes something.
fn check_refused<R: Abort>(
    rt: &R,
    alloc: Global,
    engine: Engine,
    (cart, text): (&[u8], &[u8]),
    fault: RunFault,
) {
    let ran = run_on(alloc, engine, cart, text);
    check_fault(rt, fault, ran, ToolFault::Run(fault));
}

/// `tas trace` of three instructions.
fn traced<C: Read>(alloc: Global, cart: &mut [C; 1]) -> Ran {
    run(alloc, Engine::Trace, cart, &mut b"".as_slice())
}

/// An engine over this cartridge and the movie of the playfield's one, which writes to this writer.
fn run_into(
    alloc: Global,
    engine: Engine,
    cart: &[u8],
    output: &mut Taker,
) -> Result<(), ToolFault> {
    let mut text = PLAYFIELD_MOVIE;
    run_to(alloc, engine, &mut [cart], &mut text, output)
}

/// Fails where an answer doesn't go out whole, this many bytes at a time.
fn check_pieces<R: Abort>(
    rt: &R,
    alloc: Global,
    (engine, cart): (Engine, &[u8]),
    at_once: usize,
    answer: &[u8],
) {
    let mut output = Taker::new(alloc, at_once, Room::Bytes(1000), Failure::Error);
    let end = run_into(alloc, engine, cart, &mut output);
    check_same(rt, engine, end, Ok(()));
    check_same(rt, engine, output.taken.as_slice(), answer);
    let writes = answer.len().div_ceil(at_once.max(1));
    check_same(rt, engine, output.writes, writes);
}

/// Fails where a writer that takes so many bytes at once, and has room for one of these numbers of them, isn't left with the first
/// bytes of an answer, is reported in another way, or is written to more or less often, however it fails.
fn check_stops<R: Abort>(
    rt: &R,
    alloc: Global,
    (engine, cart): (Engine, &[u8]),
    at_once: usize,
    rooms: &[usize],
    answer: &[u8],
) {
    for failure in FAILURES.iter() {
        for room in rooms {
            let mut output = Taker::new(alloc, at_once, Room::Bytes(*room), *failure);
            let ended = run_into(alloc, engine, cart, &mut output);
            check_filled(rt, &output, ended, answer, *room);
            // As many writes as take bytes, and the one that fails or takes none.
            let writes = room.div_ceil(at_once.max(1)).saturating_add(1);
            check_same(rt, ("room", *room), output.writes, writes);
        }
    }
}

static TRACE: &[u8] =
    b"F000 A9 42 00 00 FD 34 2\nF002 85 42 00 00 FD 34 3\nF004 4C 42 00 00 FD 34 3\n";

#[test]
fn a_trace_is_written_as_by_hand(rt: HostRuntime) {
    let alloc = rt.alloc();
    let bytes = image_of(&rt, alloc, STORES);
    let ran = traced(alloc, &mut [bytes.as_slice()]);
    check_ran(&rt, "trace", ran, TRACE);
}

/// A write of a few bytes is no failed one, and a failed one is the last.
#[test]
fn a_trace_goes_out_in_small_pieces(rt: HostRuntime) {
    let alloc = rt.alloc();
    let image = image_of(&rt, alloc, STORES);
    let trace = (Engine::Trace, image.as_slice());
    check_pieces(&rt, alloc, trace, 7, TRACE);
    check_stops(&rt, alloc, trace, 9, &[0, 1, 20, 25, 26, 74], TRACE);
}

#[test]
fn other_sizes_are_refused(rt: HostRuntime) {
    let alloc = rt.alloc();
    for size in [0, 1, 7, 2047, 4095, 4097, INPUT_LIMIT] {
        let ran = traced(alloc, &mut [Filler::new(0, size, 0)]);
        let fault = ToolFault::Run(RunFault::Size(size));
        check_fault(&rt, ("size", size), ran, fault);
    }
}

#[test]
fn one_byte_past_the_limit_is_too_long(rt: HostRuntime) {
    let alloc = rt.alloc();
    for more in [1, 100_000] {
        let mut input = [Filler::new(0, INPUT_LIMIT + more, 0)];
        check_fault(&rt, more, traced(alloc, &mut input), TOO_LONG);
        check_same(&rt, "input.left", input[0].left, more - 1);
    }
}

#[test]
fn a_failed_read_is_the_last_one(rt: HostRuntime) {
    let alloc = rt.alloc();
    for kind in [ErrorKind::Other, ErrorKind::Interrupted] {
        for fails_at in 1..3 {
            let mut input = [Filler::new(0, 4096, fails_at)];
            input[0].kind = kind;
            check_fault(&rt, fails_at, traced(alloc, &mut input), FAILED);
            check_same(&rt, "input.reads", input[0].reads, fails_at);
        }
    }
}

/// Fails where an engine, of whose reads of the cartridge and of the text the ones with these numbers fail, ends in another
/// way or makes other numbers of reads. Something is written where none fails (at 0), and nothing else.
fn check_reads<R: Abort>(
    rt: &R,
    alloc: Global,
    files: (&[u8], &[u8]),
    (engine, fails_at): (Engine, (usize, usize)),
    end: Result<(), ToolFault>,
    reads: (usize, usize),
) {
    let mut cart = [Giver::new(files.0, usize::MAX, fails_at.0)];
    let mut text = Giver::new(files.1, usize::MAX, fails_at.1);
    let (written, answer) = run(alloc, engine, &mut cart, &mut text);
    let found = (answer, (cart[0].reads, text.reads), written.is_empty());
    let wanted = (end, reads, end.is_err());
    check_same(rt, (engine, fails_at), found, wanted);
}

/// The engines, and how often each reads a text of 99 bytes; only the first one reads none.
static ENGINES: [(Engine, usize); 4] = [
    (Engine::Trace, 0),
    (Engine::Check, 2),
    (Engine::Migrate, 2),
    (Engine::Shot(0), 2),
];

/// A cartridge is one read and its end; a text of 99 bytes, too. Nothing is read after an end or a failure.
#[test]
fn no_engine_reads_on(rt: HostRuntime) {
    let alloc = rt.alloc();
    let image = image_of(&rt, alloc, PLAYFIELD);
    let files = (image.as_slice(), PLAYFIELD_MOVIE);
    for (engine, texts) in ENGINES.iter() {
        let (engine, texts) = (*engine, *texts);
        check_reads(&rt, alloc, files, (engine, (0, 0)), Ok(()), (2, texts));
        for fails_at in 1..3 {
            let fails = (fails_at, 0);
            let end = Err(FAILED);
            check_reads(&rt, alloc, files, (engine, fails), end, (fails_at, 0));
        }
    }
}

#[test]
fn a_failed_read_of_the_text_is_the_last_one(rt: HostRuntime) {
    let alloc = rt.alloc();
    let image = image_of(&rt, alloc, PLAYFIELD);
    let files = (image.as_slice(), PLAYFIELD_MOVIE);
    for (engine, _texts) in ENGINES[1..].iter() {
        for fails_at in 1..3 {
            let fails = (0, fails_at);
            let end = Err(FAILED);
            check_reads(&rt, alloc, files, (*engine, fails), end, (2, fails_at));
        }
    }
}

/// Either text is written as the one of runs, and the faults are those of `tas check`.
#[test]
fn texts_are_migrated(rt: HostRuntime) {
    let alloc = rt.alloc();
    let image = image_of(&rt, alloc, PLAYFIELD);
    let older = older_text_of(&rt, alloc, PLAYFIELD_DIGEST, &[b'.'; 200]);
    let newer = text_of(&rt, alloc, PLAYFIELD_DIGEST, &[b'.'; 200]);
    check_same(&rt, "lengths", [older.len(), newer.len()], [3681, 104]);
    let run_line = b"\n..... ..... ..... x200\n";
    check_that(&rt, "newer", newer.as_slice().ends_with(run_line));
    for text in [&older, &newer] {
        let ran = run_on(alloc, Engine::Migrate, image.as_slice(), text.as_slice());
        check_ran(&rt, ("from", text.len()), ran, newer.as_slice());
    }
}

/// Movies in which nothing is pressed, none of whose frames, one, two and as many as a movie may have are runs.
#[test]
fn new_movies_have_nothing_pressed(rt: HostRuntime) {
    let alloc = rt.alloc();
    let image = image_of(&rt, alloc, PLAYFIELD);
    let image = image.as_slice();
    for frames in [0, 1, 2, 600] {
        let mut letters = Vec::new(alloc);
        for _ in 0..frames {
            expect_ok(&rt, letters.push(b'.'));
        }
        let wanted = text_of(&rt, alloc, PLAYFIELD_DIGEST, letters.as_slice());
        let ran = run_on(alloc, Engine::New(frames), image, b"unread");
        check_ran(&rt, ("frames", frames), ran, wanted.as_slice());
    }
    let (text, end) = run_on(alloc, Engine::New(262_144), image, b"");
    check_same(&rt, "the longest one", end, Ok(()));
    let ran = run_on(alloc, Engine::Check, image, text.as_slice());
    check_ran(&rt, "its length", ran, b"ok 262144 frames\n");
    let size = (b"1234567".as_slice(), b"".as_slice());
    let (written, end) = run_on(alloc, Engine::New(1), size.0, size.1);
    let fault = ToolFault::Run(RunFault::Size(7));
    check_same(&rt, "seven bytes", (written.len(), end), (0, Err(fault)));
}

#[test]
fn faults_of_migrating(rt: HostRuntime) {
    let alloc = rt.alloc();
    let older = older_text_of(&rt, alloc, PLAYFIELD_DIGEST, &[b'.'; 200]);
    let newer = text_of(&rt, alloc, PLAYFIELD_DIGEST, &[b'.'; 200]);
    let image = image_of(&rt, alloc, PLAYFIELD);
    let engine = Engine::Migrate;
    check_refused(&rt, alloc, engine, (b"1234567", &older), RunFault::Size(7));
    check_refused(&rt, alloc, engine, (&BLANK, &older), OTHER_DIGEST);
    check_refused(&rt, alloc, engine, (&BLANK[..2048], &newer), OTHER_DIGEST);
    let head = RunFault::Text(TextError {
        line: 1,
        kind: TextErrorKind::Head,
    });
    check_refused(&rt, alloc, engine, (&image, b"a26movie 3\n"), head);
}

/// What `tas check` writes of a movie of one frame.
static CHECKED: &[u8] = b"ok 1 frames\n";

/// The same of another answer.
#[test]
fn an_answer_goes_out_in_pieces(rt: HostRuntime) {
    let alloc = rt.alloc();
    let image = image_of(&rt, alloc, PLAYFIELD);
    let check = (Engine::Check, image.as_slice());
    check_pieces(&rt, alloc, check, 7, CHECKED);
    check_stops(&rt, alloc, check, 7, &[0, 3, 7, 11], CHECKED);
}

/// Checks how long both texts of a movie are, and what `tas check` tells of each.
fn check_length<R: Abort>(
    rt: &R,
    alloc: Global,
    cart: &[u8],
    frames: &[u8],
    lengths: [usize; 2],
    line: &str,
) {
    let older = older_text_of(rt, alloc, PLAYFIELD_DIGEST, frames);
    let newer = text_of(rt, alloc, PLAYFIELD_DIGEST, frames);
    check_same(rt, line, [older.len(), newer.len()], lengths);
    for text in [&older, &newer] {
        let ran = run_on(alloc, Engine::Check, cart, text.as_slice());
        check_ran(rt, line, ran, line.as_bytes());
    }
}

/// The frames of movies, how many bytes their older and newer texts have, and what is reported of both.
static LENGTHS: [(&[u8], [usize; 2], &str); 3] = [
    (b"", [81, 81], "ok 0 frames\n"),
    (b".", [99, 99], "ok 1 frames\n"),
    (b".....", [171, 102], "ok 5 frames\n"),
];

#[test]
fn a_movie_is_as_long_as_its_frames(rt: HostRuntime) {
    let alloc = rt.alloc();
    let cart = image_of(&rt, alloc, PLAYFIELD);
    for (frames, lengths, line) in LENGTHS.iter() {
        check_length(&rt, alloc, &cart, *frames, *lengths, *line);
    }
}

/// The cartridge is read before the text, and both before the size is looked at.
#[test]
fn a_failed_read_comes_before_a_wrong_size(rt: HostRuntime) {
    let alloc = rt.alloc();
    for (fails_at, reads) in [(1, 0), (0, 1)] {
        let mut cart = [Filler::new(0, 7, fails_at)];
        let mut text = Filler::new(0, 10, 1);
        let ran = run(alloc, Engine::Check, &mut cart, &mut text);
        check_fault(&rt, ("cartridge", fails_at), ran, FAILED);
        check_same(&rt, ("cartridge", fails_at), text.reads, reads);
    }
}

/// The cartridge's size comes before the faults of the text, and these in the order of its lines.
#[test]
fn faults_of_a_movie_come_in_order(rt: HostRuntime) {
    let alloc = rt.alloc();
    let engine = Engine::Check;
    check_refused(
        &rt,
        alloc,
        engine,
        (&[0; 7], HALTING_MOVIE),
        RunFault::Size(7),
    );
    let image = image_of(&rt, alloc, PLAYFIELD);
    let cart = image.as_slice();
    check_refused(&rt, alloc, engine, (cart, HALTING_MOVIE), OTHER_DIGEST);
    let end = RunFault::Text(TextError {
        line: 3,
        kind: TextErrorKind::End,
    });
    check_refused(&rt, alloc, engine, (cart, &PLAYFIELD_MOVIE[..98]), end);
}
