//! Lines that depend on a movie's frames, and second movies, on lists of frames by hand.

use crate::checks::{check_same, check_that, expect_ok, expect_some};
use crate::movies::{BLANK, BLANK_DIGEST, CUT_OFF, HALTING_MOVIE, NO_FRAMES, TWO_FRAMES, text_of};
use crate::ran::{
    Engine, FAILED, FileEngine, NO_END, OTHER_DIGEST, Ran, TOO_LONG, check_fault, check_ran,
    run_beside, run_on,
};
use std::alloc::Global;
use std::process::Abort;
use tas_engines::{
    INPUT_LIMIT, RunFault, ScriptFault, ToolFault, edit_movie, pressed_too, released,
};
use tas_language::{EditLine, Retouch, read_edit_line};
use tas_movie::{Edit, Inputs, Movie, apply, check, read_frame};
use test_streams::Filler;
use vcs_machine::Input;

/// The frame of this text.
fn frame<R: Abort>(rt: &R, text: &str) -> Input {
    expect_some(rt, read_frame(text.as_bytes()))
}

/// The movie of the frames of these lines.
fn movie_of<R: Abort>(rt: &R, alloc: Global, lines: &str) -> Movie {
    let mut list = Vec::new(alloc);
    for line in lines.as_bytes().chunks(18) {
        let input = expect_some(rt, read_frame(&line[..line.len().min(17)]));
        expect_ok(rt, list.push(input));
    }
    let mut movie = expect_ok(rt, Movie::blank(alloc));
    let inputs = Inputs::from_vec(list);
    let insert = Edit::Insert { at: 0, inputs };
    expect_ok(rt, check(&movie, &insert));
    apply(&mut movie, &insert);
    movie
}

/// Four frames: one switch, two sticks and reset, nothing, and all but one.
const FOUR: &str = "R.... ..... .....\n....F .L... r....\n..... ..... .....\n.LDUF RLDUF rsbAB\n";

/// Three frames of another movie.
const THREE: &str = ".L... ..... .....\n..D.. ..... .....\n...U. ..... .....\n";

/// The movie of four frames after a script's changes, beside that of three, and how the script ended.
fn edited<R: Abort>(rt: &R, alloc: Global, script: &str) -> (Movie, Result<(), ScriptFault>) {
    let mut movie = movie_of(rt, alloc, FOUR);
    let other = Some(movie_of(rt, alloc, THREE));
    let end = edit_movie(alloc, &mut movie, &other, script.as_bytes());
    (movie, end)
}

/// Lines for the movie of four frames, and the frames that they make.
static MADE: [(&str, &str); 20] = [
    (
        "press 0 4 ....F ..... .....\n",
        "R...F ..... .....\n....F .L... r....\n....F ..... .....\n.LDUF RLDUF rsbAB\n",
    ),
    (
        "press 1 2 R.... ...U. ..b..\n",
        "R.... ..... .....\nR...F .L.U. r.b..\nR.... ...U. ..b..\n.LDUF RLDUF rsbAB\n",
    ),
    (
        "press 2 1 RLDUF RLDUF rsbAB\n",
        "R.... ..... .....\n....F .L... r....\nRLDUF RLDUF rsbAB\n.LDUF RLDUF rsbAB\n",
    ),
    ("press 4 0 ....F ..... .....\n", FOUR),
    ("press 0 4 ..... ..... .....\n", FOUR),
    (
        "release 0 4 .L..F ....F r...B\n",
        "R.... ..... .....\n..... .L... .....\n..... ..... .....\n..DU. RLDU. .sbA.\n",
    ),
    (
        "release 3 1 RLDUF RLDUF rsbAB\n",
        "R.... ..... .....\n....F .L... r....\n..... ..... .....\n..... ..... .....\n",
    ),
    ("release 4 0 RLDUF RLDUF rsbAB\n", FOUR),
    (
        "repeat 1 2 2\n",
        "R.... ..... .....\n....F .L... r....\n..... ..... .....\n....F .L... r....\n..... ..... .....\n....F .L... r....\n..... ..... .....\n.LDUF RLDUF rsbAB\n",
    ),
    (
        "repeat 3 1 1\n",
        "R.... ..... .....\n....F .L... r....\n..... ..... .....\n.LDUF RLDUF rsbAB\n.LDUF RLDUF rsbAB\n",
    ),
    ("repeat 0 4 0\n", FOUR),
    ("repeat 4 0 5\n", FOUR),
    ("repeat 2 0 1000\n", FOUR),
    (
        "copy 0 2 4\n",
        "R.... ..... .....\n....F .L... r....\n..... ..... .....\n.LDUF RLDUF rsbAB\nR.... ..... .....\n....F .L... r....\n",
    ),
    (
        "copy 2 2 1\n",
        "R.... ..... .....\n..... ..... .....\n.LDUF RLDUF rsbAB\n....F .L... r....\n..... ..... .....\n.LDUF RLDUF rsbAB\n",
    ),
    (
        "copy 1 2 2\n",
        "R.... ..... .....\n....F .L... r....\n....F .L... r....\n..... ..... .....\n..... ..... .....\n.LDUF RLDUF rsbAB\n",
    ),
    ("copy 4 0 0\n", FOUR),
    (
        "copy other 0 3 1\n",
        "R.... ..... .....\n.L... ..... .....\n..D.. ..... .....\n...U. ..... .....\n....F .L... r....\n..... ..... .....\n.LDUF RLDUF rsbAB\n",
    ),
    (
        "delete 1 3\ncopy other 2 1 1\n",
        "R.... ..... .....\n...U. ..... .....\n",
    ),
    (
        "delete 1 3\npress 0 1 ....F ..... .....\nrepeat 0 1 1\nrelease 1 1 R.... ..... .....\n",
        "R...F ..... .....\n....F ..... .....\n",
    ),
];

#[test]
fn lines_make_the_frames_by_hand(rt: HostRuntime) {
    let alloc = rt.alloc();
    for (script, made) in MADE.iter() {
        let (movie, end) = edited(&rt, alloc, *script);
        check_same(&rt, *script, end, Ok(()));
        let wanted = movie_of(&rt, alloc, *made);
        check_that(&rt, *script, movie.inputs() == wanted.inputs());
    }
}

/// Scripts for the movie of four frames, beside one of three, and how each ends.
static ENDS: [(&str, Result<(), ScriptFault>); 22] = [
    ("press 0 5 ....F ..... .....\n", Err(ScriptFault::Place(1))),
    ("press 5 0 ....F ..... .....\n", Err(ScriptFault::Place(1))),
    (
        "press 0 9999999 ....F ..... .....\n",
        Err(ScriptFault::Place(1)),
    ),
    (
        "release 4 1 ....F ..... .....\n",
        Err(ScriptFault::Place(1)),
    ),
    ("repeat 3 2 1\n", Err(ScriptFault::Place(1))),
    ("repeat 3 2 9999999\n", Err(ScriptFault::Place(1))),
    ("repeat 9999999 9999999 0\n", Err(ScriptFault::Place(1))),
    ("repeat 0 4 65535\n", Ok(())),
    ("repeat 0 4 65536\n", Err(ScriptFault::Long(1))),
    ("repeat 3 1 262140\n", Ok(())),
    ("repeat 3 1 262141\n", Err(ScriptFault::Long(1))),
    ("repeat 0 4 9999999\n", Err(ScriptFault::Long(1))),
    ("copy 1 4 0\n", Err(ScriptFault::Place(1))),
    ("copy 0 4 5\n", Err(ScriptFault::Place(1))),
    ("repeat 3 1 262139\ncopy 0 1 0\n", Ok(())),
    ("repeat 3 1 262139\ncopy 0 2 0\n", Err(ScriptFault::Long(2))),
    (
        "repeat 3 1 262139\ncopy 0 2 262144\n",
        Err(ScriptFault::Place(2)),
    ),
    ("copy other 1 3 0\n", Err(ScriptFault::Place(1))),
    ("copy other 3 0 4\n", Ok(())),
    ("copy other 0 3 5\n", Err(ScriptFault::Place(1))),
    (
        "repeat 3 1 262140\ncopy other 0 1 262144\n",
        Err(ScriptFault::Long(2)),
    ),
    ("copy 0 1 0\nother 0 1 0\n", Err(ScriptFault::Line(2))),
];

#[test]
fn lines_end_as_by_hand(rt: HostRuntime) {
    let alloc = rt.alloc();
    for (script, end) in ENDS.iter() {
        let (_movie, ended) = edited(&rt, alloc, *script);
        check_same(&rt, *script, ended, *end);
    }
    let none: Option<Movie> = None;
    let mut movie = movie_of(&rt, alloc, FOUR);
    let ended = edit_movie(alloc, &mut movie, &none, b"copy 0 1 0\ncopy other 0 1 0\n");
    check_same(&rt, "no second movie", ended, Err(ScriptFault::Line(2)));
}

#[test]
fn switches_are_pressed_and_released_one_by_one(rt: HostRuntime) {
    let both = frame(&rt, "R.D.F .L.U. r.b.B");
    let more = frame(&rt, "RL... .LD.. .sb..");
    let pressed = pressed_too(both, more);
    check_that(&rt, "pressed", pressed == frame(&rt, "RLD.F .LDU. rsb.B"));
    let less = released(both, more);
    check_that(&rt, "released", less == frame(&rt, "..D.F ...U. r...B"));
}

/// Lines of `tas edit` that say something.
static LINES: [(&[u8], EditLine); 5] = [
    (
        b"repeat 30 2 1799",
        EditLine::Retouch(Retouch::Repeat {
            at: 30,
            count: 2,
            times: 1799,
        }),
    ),
    (
        b"repeat 0 0 9999999",
        EditLine::Retouch(Retouch::Repeat {
            at: 0,
            count: 0,
            times: 9_999_999,
        }),
    ),
    (
        b"copy 1 2 3",
        EditLine::Retouch(Retouch::Copy {
            from: 1,
            count: 2,
            at: 3,
        }),
    ),
    (
        b"copy other 1 2 3",
        EditLine::CopyOther {
            from: 1,
            count: 2,
            at: 3,
        },
    ),
    (
        b"copy other 9999999 0 9999999",
        EditLine::CopyOther {
            from: 9_999_999,
            count: 0,
            at: 9_999_999,
        },
    ),
];

/// Lines that say nothing.
static NO_LINES: [&[u8]; 24] = [
    b"press",
    b"press 0 1",
    b"press 0 1 ....F .....",
    b"press 0 1 ....F ..... ..... ",
    b"press 0 1 ....f ..... .....",
    b"press 0 10000000 ....F ..... .....",
    b"press 00 1 ....F ..... .....",
    b"Press 0 1 ....F ..... .....",
    b"press  0 1 ....F ..... .....",
    b"release 0 ....F ..... .....",
    b"release 0 1 ....F ..... .....\r",
    b"repeat 0 1",
    b"repeat 0 1 2 3",
    b"repeat 0 1 -1",
    b"repeat 0 1 10000000",
    b"repeat  0 1 2",
    b"repeat 0 1 ....F ..... .....",
    b"copy 1 2",
    b"copy 1 2 3 4",
    b"copy 1 2 03",
    b"copy other",
    b"copy other 1 2",
    b"copy other  1 2 3",
    b"copy others 1 2 3",
];

#[test]
fn lines_are_understood_by_their_text(rt: HostRuntime) {
    for (line, asked) in LINES.iter() {
        check_same(&rt, *line, read_edit_line(*line), Some(*asked));
    }
    for (number, line) in NO_LINES.iter().enumerate() {
        check_that(&rt, ("line", number), read_edit_line(line).is_none());
    }
}

/// `tas edit --with` of these bytes.
fn edited_with(alloc: Global, cart: &[u8], script: &[u8], more: &[u8], text: &[u8]) -> Ran {
    let mut files = [cart, script, more];
    run_beside(alloc, FileEngine::EditWith, &mut files, &mut { text })
}

#[test]
fn two_movies_are_spliced(rt: HostRuntime) {
    let alloc = rt.alloc();
    let first = text_of(&rt, alloc, BLANK_DIGEST, b"RRF");
    let second = text_of(&rt, alloc, BLANK_DIGEST, b"..F.");
    let script = b"delete 2 1\ncopy other 1 3 2\n".as_slice();
    let ran = edited_with(alloc, &BLANK, script, second.as_slice(), first.as_slice());
    let made = text_of(&rt, alloc, BLANK_DIGEST, b"RR.F.");
    check_ran(&rt, "spliced", ran, made.as_slice());
    let ran = edited_with(alloc, &BLANK, b"copy other 0 2 0\n", TWO_FRAMES, NO_FRAMES);
    check_ran(&rt, "into none", ran, TWO_FRAMES);
}

/// A cartridge, a script, the second movie's text, the first one's, and the fault.
type Faulty = (
    &'static [u8],
    &'static [u8],
    &'static [u8],
    &'static [u8],
    RunFault,
);

static FAULTS: [Faulty; 6] = [
    (b"1234567", b"len\n", CUT_OFF, CUT_OFF, RunFault::Size(7)),
    (&[0; 4096], b"len\n", HALTING_MOVIE, CUT_OFF, OTHER_DIGEST),
    (&[0; 4096], b"len\n", CUT_OFF, HALTING_MOVIE, NO_END),
    (
        &[0; 4096],
        b"len\n",
        TWO_FRAMES,
        HALTING_MOVIE,
        OTHER_DIGEST,
    ),
    (
        &[0; 4096],
        b"len\n",
        TWO_FRAMES,
        TWO_FRAMES,
        RunFault::Script { line: 1 },
    ),
    (
        &[0; 4096],
        b"copy other 0 2 2\ncopy other 1 2 0\n",
        TWO_FRAMES,
        TWO_FRAMES,
        RunFault::Place { line: 2 },
    ),
];

#[test]
fn faults_of_two_movies_come_in_order(rt: HostRuntime) {
    let alloc = rt.alloc();
    for (number, (cart, script, more, text, fault)) in FAULTS.iter().enumerate() {
        let ran = edited_with(alloc, cart, script, more, text);
        check_fault(&rt, ("case", number), ran, ToolFault::Run(*fault));
    }
}

/// The inputs, how many reads of each succeed where it fails, the fault, and how many reads there were of each.
static READS: [([usize; 4], [usize; 4], ToolFault, [usize; 4]); 4] = [
    ([10; 4], [1, 1, 1, 1], FAILED, [1, 0, 0, 0]),
    ([10; 4], [0, 0, 2, 1], FAILED, [2, 2, 2, 0]),
    (
        [10, 10, INPUT_LIMIT + 1, 10],
        [0, 0, 0, 1],
        TOO_LONG,
        [2, 2, 4097, 0],
    ),
    (
        [10; 4],
        [0; 4],
        ToolFault::Run(RunFault::Size(10)),
        [2, 2, 2, 2],
    ),
];

#[test]
fn four_inputs_are_read_in_order_up_to_a_fault(rt: HostRuntime) {
    let alloc = rt.alloc();
    for (number, (lens, fails, fault, reads)) in READS.iter().enumerate() {
        let mut files = [
            Filler::new(0, lens[0], fails[0]),
            Filler::new(0, lens[1], fails[1]),
            Filler::new(0, lens[2], fails[2]),
        ];
        let mut fourth = Filler::new(0, lens[3], fails[3]);
        let ran = run_beside(alloc, FileEngine::EditWith, &mut files, &mut fourth);
        check_fault(&rt, ("case", number), ran, *fault);
        let found = [files[0].reads, files[1].reads, files[2].reads, fourth.reads];
        check_same(&rt, ("case", number), found, *reads);
    }
}

/// Frames of the movie 'RRF.', and those that are left.
static CUTS: [(usize, usize, &[u8]); 5] = [
    (0, 4, b"RRF."),
    (1, 3, b"RF"),
    (2, 3, b"F"),
    (0, 0, b""),
    (4, 4, b""),
];

#[test]
fn frames_are_cut_out(rt: HostRuntime) {
    let alloc = rt.alloc();
    let text = text_of(&rt, alloc, BLANK_DIGEST, b"RRF.");
    for (from, to, left) in CUTS.iter() {
        let wanted = text_of(&rt, alloc, BLANK_DIGEST, *left);
        let ran = run_on(alloc, Engine::Cut(*from, *to), &BLANK, text.as_slice());
        check_ran(&rt, (*from, *to), ran, wanted.as_slice());
    }
    for (from, to) in [(3, 2), (0, 5), (5, 5), (9_999_999, 9_999_999)].iter() {
        let ran = run_on(alloc, Engine::Cut(*from, *to), &BLANK, text.as_slice());
        let fault = ToolFault::Run(RunFault::Range {
            from: *from,
            to: *to,
            len: 4,
        });
        check_fault(&rt, (*from, *to), ran, fault);
    }
    let ran = run_on(alloc, Engine::Cut(0, 9), b"1234567", CUT_OFF);
    check_fault(&rt, "size", ran, ToolFault::Run(RunFault::Size(7)));
    let ran = run_on(alloc, Engine::Cut(0, 9), &BLANK, CUT_OFF);
    check_fault(&rt, "text", ran, ToolFault::Run(NO_END));
}
