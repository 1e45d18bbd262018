//! Whole runs of `tas edit` and `tas diff`, over readers and writers of the tests' own.

use crate::checks::{check_same, expect_ok};
use crate::movies::{
    BLANK, BLANK_DIGEST, CUT_OFF, LAST_FRAME, NO_FRAMES, TWO_FRAMES, older_text_of, text_of,
};
use crate::ran::{
    FAILED, FileEngine, NO_END, TOO_LONG, check_fault, check_ran, run_beside, run_beside_on,
    run_beside_to,
};
use std::alloc::Global;
use std::process::Abort;
use tas_engines::{INPUT_LIMIT, RunFault, ToolFault};
use test_streams::{Failure, Filler, Room, Taker};

/// The text of a movie of the blank cartridge.
fn blank_text<R: Abort>(rt: &R, alloc: Global, letters: &[u8]) -> Vec<u8> {
    text_of(rt, alloc, BLANK_DIGEST, letters)
}

/// The script between two texts, after a check that it makes the one of the other.
fn go_round<R: Abort>(rt: &R, alloc: Global, before: &[u8], after: &[u8]) -> Vec<u8> {
    let (script, end) = run_beside_on(alloc, FileEngine::Diff, &BLANK, before, after);
    check_same(rt, "the difference", end, Ok(()));
    let made = run_beside_on(alloc, FileEngine::Edit, &BLANK, script.as_slice(), before);
    check_ran(rt, "the text that the script makes", made, after);
    script
}

/// A few runs of frames, made from a seed.
fn frames_from<R: Abort>(rt: &R, alloc: Global, seed: u32) -> Vec<u8> {
    let mut state = seed;
    let mut letters = Vec::new(alloc);
    for _ in 0..seed % 9 {
        state = state.wrapping_mul(1_664_525).wrapping_add(1_013_904_223);
        let letter = match (state >> 24) % 3 {
            0 => b'.',
            1 => b'R',
            _ => b'F',
        };
        for _ in 0..(state >> 16) % 4 {
            expect_ok(rt, letters.push(letter));
        }
    }
    letters
}

/// The text of the movie of a seed.
fn text_from<R: Abort>(rt: &R, alloc: Global, seed: u32) -> Vec<u8> {
    let letters = frames_from(rt, alloc, seed);
    blank_text(rt, alloc, letters.as_slice())
}

#[test]
fn a_difference_that_is_made_gives_the_new_text(rt: HostRuntime) {
    let alloc = rt.alloc();
    for old in 0..24u32 {
        let before = text_from(&rt, alloc, old * 7);
        for new in 0..24u32 {
            let after = text_from(&rt, alloc, new * 7);
            let script = go_round(&rt, alloc, before.as_slice(), after.as_slice());
            let same = before.as_slice() == after.as_slice();
            check_same(&rt, ("to", old, new), script.is_empty(), same);
        }
    }
}

/// This many frames, all alike but one.
fn long_movie<R: Abort>(rt: &R, alloc: Global, len: usize, other: usize) -> Vec<u8> {
    let mut letters = expect_ok(rt, vec![in alloc; b'.'; len]);
    if let Some(letter) = letters.get_mut(other) {
        *letter = b'F';
    }
    blank_text(rt, alloc, letters.as_slice())
}

/// Fails where the script between two texts is another one.
fn check_script<R: Abort>(rt: &R, alloc: Global, before: &[u8], after: &[u8], wanted: &str) {
    let script = go_round(rt, alloc, before, after);
    check_same(rt, wanted, script.as_slice(), wanted.as_bytes());
}

#[test]
fn the_longest_movies_are_edited_and_compared(rt: HostRuntime) {
    let alloc = rt.alloc();
    let full = long_movie(&rt, alloc, 262144, 262144);
    let filled = "insert 0 262144 ..... ..... .....\n";
    check_script(&rt, alloc, NO_FRAMES, &full, filled);
    check_script(&rt, alloc, &full, NO_FRAMES, "delete 0 262144\n");
    let one_more = b"insert 262144 1 ..... ..... .....\n";
    let ran = run_beside_on(alloc, FileEngine::Edit, &BLANK, one_more, full.as_slice());
    let fault = ToolFault::Run(RunFault::Long { line: 1 });
    check_fault(&rt, "one more", ran, fault);
    let other = long_movie(&rt, alloc, 262144, 40000);
    let replaced = "replace 40000 1 ....F ..... .....\n";
    check_script(&rt, alloc, &full, &other, replaced);
    let ran = run_beside_on(alloc, FileEngine::Edit, &BLANK, b"", other.as_slice());
    check_ran(&rt, "no change", ran, other.as_slice());
}

/// Older texts are read, and the text of runs is written.
#[test]
fn older_texts_are_edited_and_compared(rt: HostRuntime) {
    let alloc = rt.alloc();
    let before = older_text_of(&rt, alloc, BLANK_DIGEST, b"..RR.");
    let after = blank_text(&rt, alloc, b"..RRRR.");
    let script = b"insert 4 2 R.... ..... .....\n".as_slice();
    let ran = run_beside_on(alloc, FileEngine::Edit, &BLANK, script, before.as_slice());
    check_ran(&rt, "edit", ran, after.as_slice());
    let ran = run_beside_on(
        alloc,
        FileEngine::Diff,
        &BLANK,
        before.as_slice(),
        after.as_slice(),
    );
    check_ran(&rt, "diff", ran, script);
}

/// Scripts for a movie of two frames, and how each ends.
static FAULTS: [(&[u8], RunFault); 18] = [
    (b" \n", RunFault::Script { line: 1 }),
    (b"delete 0 1 \n", RunFault::Script { line: 1 }),
    (b"delete 0 1\t# one\n", RunFault::Script { line: 1 }),
    (b" delete 0 1 # one\n", RunFault::Script { line: 1 }),
    (b"# one", RunFault::Script { line: 1 }),
    (b"\n# one\n\nlen # two\n", RunFault::Script { line: 4 }),
    (
        b"# one\ndelete 0 1 # two\n\n#",
        RunFault::Script { line: 4 },
    ),
    (
        b"# one\ndelete 0 1\n\n#\ndelete 1 1#\n",
        RunFault::Place { line: 5 },
    ),
    (
        b"delete 0 1\n\ninsert 0 262143 ..... ..... ..... # most\n#\ninsert 0 1 ..... ..... .....\n",
        RunFault::Long { line: 5 },
    ),
    (b"\r\n", RunFault::Script { line: 1 }),
    (b"len\n", RunFault::Script { line: 1 }),
    (b"load 000=A9\n", RunFault::Script { line: 1 }),
    (b"load2 000=A9\n", RunFault::Script { line: 1 }),
    (b"work 0\n", RunFault::Script { line: 1 }),
    (b"delete 0 1", RunFault::Script { line: 1 }),
    (b"delete 0 1\ndelete 1 1\n", RunFault::Place { line: 2 }),
    (b"delete 0 3\nlen\n", RunFault::Place { line: 1 }),
    (
        b"delete 0 1\ninsert 0 262143 ..... ..... .....\ninsert 0 1 ..... ..... .....\n",
        RunFault::Long { line: 3 },
    ),
];

/// Scripts with remarks and lines without words, and the letters of the movie that each makes of two frames in which nothing is pressed.
static REMARKS: [(&[u8], &[u8]); 8] = [
    (b"\n", b".."),
    (b"#\n", b".."),
    (b"\n\n# delete 0 1\n   # delete 0 1\n", b".."),
    (b"delete 0 1# one of two\n", b"."),
    (b"delete 0 1    # one of two # and more\n", b"."),
    (b"delete 0 1 #\n\n#\ndelete 0 1\n", b""),
    (b"# right\ninsert 1 2 R.... ..... ..... # twice\n", b".RR."),
    (
        b"insert 2 1 R.... ..... .....#\n\ninsert 0 1 R.... ..... .....\n",
        b"R..R",
    ),
];

#[test]
fn remarks_and_lines_without_words_ask_for_nothing(rt: HostRuntime) {
    let alloc = rt.alloc();
    for (number, (script, letters)) in REMARKS.iter().enumerate() {
        let before = blank_text(&rt, alloc, b"..");
        let made = blank_text(&rt, alloc, letters);
        let before = before.as_slice();
        let ran = run_beside_on(alloc, FileEngine::Edit, &BLANK, script, before);
        check_ran(&rt, ("script", number), ran, made.as_slice());
    }
}

#[test]
fn a_line_at_fault_leaves_nothing_written(rt: HostRuntime) {
    let alloc = rt.alloc();
    for (number, (script, fault)) in FAULTS.iter().enumerate() {
        let ran = run_beside_on(alloc, FileEngine::Edit, &BLANK, script, TWO_FRAMES);
        check_fault(&rt, ("script", number), ran, ToolFault::Run(*fault));
    }
}

/// Three inputs, and the fault of an engine that reads them.
type Faulty = (&'static [u8], &'static [u8], &'static [u8], RunFault);

static EDITS: [Faulty; 3] = [
    (b"1234567", b"len\n", CUT_OFF, RunFault::Size(7)),
    (&[0; 4096], b"len\n", CUT_OFF, NO_END),
    (
        &[0; 4096],
        b"len\n",
        TWO_FRAMES,
        RunFault::Script { line: 1 },
    ),
];

static COMPARISONS: [Faulty; 3] = [
    (b"", CUT_OFF, b"", RunFault::Size(0)),
    (&[0; 4096], CUT_OFF, b"", NO_END),
    (&[0; 4096], TWO_FRAMES, CUT_OFF, NO_END),
];

#[test]
fn faults_of_the_movies_come_in_order(rt: HostRuntime) {
    let alloc = rt.alloc();
    for (number, (cart, script, input, fault)) in EDITS.iter().enumerate() {
        let ran = run_beside_on(alloc, FileEngine::Edit, cart, script, input);
        check_fault(&rt, ("edit", number), ran, ToolFault::Run(*fault));
    }
    for (number, (cart, before, after, fault)) in COMPARISONS.iter().enumerate() {
        let ran = run_beside_on(alloc, FileEngine::Diff, cart, before, after);
        check_fault(&rt, ("comparison", number), ran, ToolFault::Run(*fault));
    }
}

/// The inputs, how many reads of each succeed where it fails, the fault, and how many reads there were of each.
static READS: [([usize; 3], [usize; 3], ToolFault, [usize; 3]); 6] = [
    ([10, 10, 10], [1, 1, 1], FAILED, [1, 0, 0]),
    ([10, 10, 10], [0, 2, 1], FAILED, [2, 2, 0]),
    ([10, 10, 10], [0, 0, 2], FAILED, [2, 2, 2]),
    ([INPUT_LIMIT + 1, 10, 10], [0, 1, 1], TOO_LONG, [4097, 0, 0]),
    ([10, INPUT_LIMIT + 1, 10], [0, 0, 1], TOO_LONG, [2, 4097, 0]),
    (
        [10, 10, 10],
        [0, 0, 0],
        ToolFault::Run(RunFault::Size(10)),
        [2, 2, 2],
    ),
];

#[test]
fn inputs_are_read_in_order_up_to_a_fault(rt: HostRuntime) {
    let alloc = rt.alloc();
    for (number, (lens, fails, fault, reads)) in READS.iter().enumerate() {
        let mut files = [
            Filler::new(0, lens[0], fails[0]),
            Filler::new(0, lens[1], fails[1]),
        ];
        let mut third = Filler::new(0, lens[2], fails[2]);
        let ran = run_beside(alloc, FileEngine::Edit, &mut files, &mut third);
        check_fault(&rt, ("case", number), ran, *fault);
        let found = [files[0].reads, files[1].reads, third.reads];
        check_same(&rt, ("case", number), found, *reads);
    }
}

/// Fails where the text of a movie without its first frame, for which there is so much room, goes out in another way.
fn check_room<R: Abort>(rt: &R, alloc: Global, room: usize, end: Result<(), ToolFault>) {
    let mut output = Taker::new(alloc, 7, Room::Bytes(room), Failure::Error);
    let mut files = [BLANK.as_slice(), b"delete 0 1\n".as_slice()];
    let mut input = TWO_FRAMES;
    let ended = run_beside_to(alloc, FileEngine::Edit, &mut files, &mut input, &mut output);
    check_same(rt, ("room", room), ended, end);
    let written = &LAST_FRAME[..room.min(LAST_FRAME.len())];
    check_same(rt, ("room", room), output.taken.as_slice(), written);
}

/// For how many bytes there is room, and how the engine ends.
static ROOMS: [(usize, Result<(), ToolFault>); 3] = [
    (1000, Ok(())),
    (18, Err(ToolFault::Run(RunFault::Write { written: 18 }))),
    (0, Err(ToolFault::Run(RunFault::Write { written: 0 }))),
];

#[test]
fn texts_go_out_in_small_pieces(rt: HostRuntime) {
    let alloc = rt.alloc();
    for (room, end) in ROOMS.iter() {
        check_room(&rt, alloc, *room, *end);
    }
}

/// The frames of examples/joystick.movie.
static JOYSTICK: &[u8] =
    b"..... ..... ..... x5\nR.... ..... ..... x30\nR.D.. ..... ..... x20\n..D.. ..... ..... x15\n..D.F ..... ..... x5\n....F ..... ..... x10\n.L.U. ..... ..... x25\n...U. ..... ..... x10\n";

/// The frames of examples/motion.movie.
static MOTION: &[u8] = b"..... ..... ..... x180\n";

/// Fails where a movie of these runs isn't this long, or these changes aren't made and unmade.
fn check_example<R: Abort>(rt: &R, alloc: Global, runs: &[u8], size: usize, changes: &[u8]) {
    let mut old = expect_ok(rt, Vec::from_slice(alloc, NO_FRAMES));
    expect_ok(rt, old.extend_from_slice(runs));
    check_same(rt, ("size", size), old.len(), size);
    let (new, end) = run_beside_on(alloc, FileEngine::Edit, &BLANK, changes, old.as_slice());
    check_same(rt, ("size", size), end, Ok(()));
    let same = new.as_slice() == old.as_slice();
    check_same(rt, ("size", size), same, false);
    go_round(rt, alloc, old.as_slice(), new.as_slice());
    go_round(rt, alloc, new.as_slice(), old.as_slice());
}

#[test]
fn the_movies_of_the_examples_go_round(rt: HostRuntime) {
    let alloc = rt.alloc();
    let changes =
        b"delete 0 10\nreplace 0 5 R.... ..... .....\ninsert 5 3 ....F ..... .....\n".as_slice();
    check_example(&rt, alloc, JOYSTICK, 255, changes);
    check_example(&rt, alloc, MOTION, 104, b"delete 40 9\n");
}
