//! What each command writes, and what it tells of faults.

use crate::checks::{check_same, check_that};
use crate::movies::{
    HALTING, IDLE, PLAYFIELD, Program, STORING, image_of, joined, playfield_picture, recording_of,
};
use crate::program_cases::{
    Case, Refused, Written, check_case, check_refused, check_refused_over_playfield, check_written,
};
use crate::programs::{ONE_FRAME, TWO_FRAMES};
use crate::two_files::{check_unread, only_game, run};
use std::alloc::Global;
use std::io::ErrorKind;
use std::process::Abort;
use std::sync::Wait;
use std::thread::Threads;
use std::time::Clock;
use test_streams::{Failure, Room, Taker};

/// The older text of this movie.
const OLDER_FRAME: &[u8] =
    b"a26movie 1\ncart 820c64e9933496de683a000c5e11f0510fb7b1699b2ce86471295236b284906d\n..... ..... .....\n";

static TRACE: &[u8] =
    b"F000 A9 42 00 00 FD 34 2\nF002 85 42 00 00 FD 34 3\nF004 4C 42 00 00 FD 34 3\n";

/// A script with the same playfield, and the replies by hand.
const SCRIPT: &[u8] =
    b"load 000=A910850DA91E85084C08F0 FFC=00F0\ninsert 0 2 ..... ..... .....\nshot 1\nreplace 0 1 R.... ..... .....\ninput 0\nshot 2\n";

const REPLIES: &[u8] =
    b"edit 1 len 0\nedit 2 len 2\nshot 2 1 ran 2 lit 1680\nedit 3 len 2\ninput 3 R.... ..... .....\nno frame 3 len 2\n";

/// A movie of the playfield's cartridge without frames.
const NO_FRAME: &[u8] =
    b"a26movie 2\ncart 820c64e9933496de683a000c5e11f0510fb7b1699b2ce86471295236b284906d\n";

/// Commands that write an answer.
static ANSWERS: [Written<'static>; 10] = [
    (&["check", "game.bin"], b"", ONE_FRAME, b"ok 1 frames\n"),
    (&["check", "game.bin"], b"", OLDER_FRAME, b"ok 1 frames\n"),
    (&["migrate", "game.bin"], b"", OLDER_FRAME, ONE_FRAME),
    (&["migrate", "game.bin"], b"", ONE_FRAME, ONE_FRAME),
    (&["new", "game.bin", "1"], b"", b"unread", ONE_FRAME),
    (&["new", "game.bin", "0"], b"", b"", NO_FRAME),
    (&["script"], b"", SCRIPT, REPLIES),
    (&["talk"], b"", SCRIPT, REPLIES),
    (
        &["talk", "game.bin"],
        b"",
        b"len\nwhat",
        b"len 2 0\nunknown end\n",
    ),
    (&["export", "game.bin", "0", "0", "3"], b"", ONE_FRAME, b""),
];

#[test]
fn commands_write_their_answers(rt: HostRuntime) {
    let alloc = rt.alloc();
    check_written(&rt, alloc, ANSWERS.as_slice());
    let stores = image_of(&rt, alloc, STORING.bytes);
    let trace: Written = (&["trace", "3"], b"", stores.as_slice(), TRACE);
    check_written(&rt, alloc, &[trace]);
}

/// Fails where a command over the playfield's cartridge and this movie doesn't write these pictures.
fn check_pictures<R: Threads + Wait + Clock + Abort + Sync>(
    rt: &R,
    alloc: Global,
    words: &[&str],
    movie: &[u8],
    pictures: &[u8],
) {
    check_written(rt, alloc, &[(words, b"", movie, pictures)]);
}

#[test]
fn commands_write_their_pictures(rt: HostRuntime) {
    let alloc = rt.alloc();
    let picture = playfield_picture(&rt, alloc);
    let picture = picture.as_slice();
    let shot = ["shot", "game.bin", "0"];
    check_pictures(&rt, alloc, &shot, ONE_FRAME, picture);
    let export = ["export", "game.bin", "0", "1", "4"];
    check_pictures(&rt, alloc, &export, ONE_FRAME, picture);
    let pictures = joined(&rt, alloc, &[picture, picture]);
    let export = ["export", "game.bin", "0", "2", "3"];
    check_pictures(&rt, alloc, &export, TWO_FRAMES, pictures.as_slice());
}

/// Faults over the playfield's cartridge.
static FAULTS: [Refused<'static>; 10] = [
    (
        &["trace", "1"],
        b"",
        b"1234567",
        b"fault: cartridge has 7 bytes\n",
    ),
    (
        &["check", "other.bin"],
        b"",
        ONE_FRAME,
        b"fault: read failed\n",
    ),
    (
        &["check", "game.bin"],
        b"",
        b"a26movie 1\n",
        b"fault: movie line 2: end\n",
    ),
    (
        &["migrate", "game.bin"],
        b"",
        b"a26movie 1\n",
        b"fault: movie line 2: end\n",
    ),
    (
        &["new", "other.bin", "1"],
        b"",
        b"",
        b"fault: read failed\n",
    ),
    (
        &["new", "other", "1"],
        b"1234567",
        b"",
        b"fault: cartridge has 7 bytes\n",
    ),
    (
        &["shot", "other.bin", "0"],
        b"",
        ONE_FRAME,
        b"fault: read failed\n",
    ),
    (
        &["shot", "game.bin", "9999999"],
        b"",
        ONE_FRAME,
        b"fault: no frame 9999999 of 1\n",
    ),
    (
        &["export", "other.bin", "0", "1", "1"],
        b"",
        ONE_FRAME,
        b"fault: read failed\n",
    ),
    (
        &["export", "game.bin", "0", "2", "1"],
        b"",
        ONE_FRAME,
        b"fault: range 0 to 2 of 1\n",
    ),
];

#[test]
fn faults_end_with_status_1(rt: HostRuntime) {
    let alloc = rt.alloc();
    check_refused_over_playfield(&rt, alloc, FAULTS.as_slice());
    let size: Refused = (
        &["check", "game.bin"],
        b"",
        ONE_FRAME,
        b"fault: cartridge has 7 bytes\n",
    );
    check_refused(&rt, alloc, b"1234567", &[size]);
    let script: Case = (
        &["script"],
        b"",
        b"len\nplay\n",
        b"len 0 0\n",
        b"fault: script line 2\n",
    );
    check_case(&rt, alloc, b"", script);
}

/// `000=4C0C00 FFC=00F0`: goes on at the address 000C, which shows the left fire button.
const AT_THE_BUTTON: Program = Program {
    bytes: b"\x4c\x0c\x00",
    digest: "30f49a6ef25379cf93c2f36ddbf9988035ff9a5bd05acdca15e753c18fecd9e5",
};

/// Programs of cartridges, how many frames of nothing pressed their movies have, the words, and the line of the halt that they meet.
static HALTS: [(Program, usize, &[&str], &[u8]); 3] = [
    (
        HALTING,
        5,
        &["shot", "game.bin", "3"],
        b"fault: halted at F00D by 02\n",
    ),
    (
        HALTING,
        5,
        &["export", "game.bin", "1", "5", "2"],
        b"fault: halted at F00D by 02\n",
    ),
    (
        AT_THE_BUTTON,
        1,
        &["shot", "game.bin", "0"],
        b"fault: halted at 000C by 80\n",
    ),
];

/// The address has four digits and the opcode two.
#[test]
fn halts_end_with_status_1(rt: HostRuntime) {
    let alloc = rt.alloc();
    for row in HALTS.iter() {
        let (program, frames, words, line) = *row;
        let movie = recording_of(&rt, alloc, program, frames, IDLE);
        let (game, text) = movie.files();
        check_case(&rt, alloc, game, (words, b"", text, b"", line));
    }
}

/// The line goes out by one write, so that no other program's line comes into it.
#[test]
fn a_fault_line_is_one_write(rt: HostRuntime) {
    let alloc = rt.alloc();
    let mut output = Vec::new(alloc);
    let mut errors = Taker::new(alloc, 1000, Room::Bytes(1000), Failure::Error);
    let words = ["check", "game.bin"];
    let code = run(
        &rt,
        alloc,
        &words,
        only_game(b"1234567"),
        ONE_FRAME,
        &mut output,
        &mut errors,
    );
    check_same(&rt, "status, writes", (code, errors.writes), (1, 1));
    let line = b"fault: cartridge has 7 bytes\n".as_slice();
    check_same(&rt, "errors", errors.taken.as_slice(), line);
    check_that(&rt, "nothing is written", output.is_empty());
}

#[test]
fn no_memory_for_the_words_is_a_fault(rt: HostRuntime) {
    let alloc = rt.alloc();
    let cart = image_of(&rt, alloc, PLAYFIELD.bytes);
    let end = (1, b"".as_slice(), b"fault: out of memory\n".as_slice());
    let kind = ErrorKind::OutOfMemory;
    check_unread(&rt, alloc, kind, only_game(cart.as_slice()), ONE_FRAME, end);
}

#[test]
fn help_that_cannot_be_written_is_a_fault(rt: HostRuntime) {
    let alloc = rt.alloc();
    let mut room = [0u8; 20];
    let mut errors = Vec::new(alloc);
    let words = ["--version"];
    let code = run(
        &rt,
        alloc,
        &words,
        only_game(b""),
        b"",
        &mut room.as_mut_slice(),
        &mut errors,
    );
    check_same(&rt, "status", code, 1);
    let line = b"fault: write failed after 20 bytes\n".as_slice();
    check_same(&rt, "errors", errors.as_slice(), line);
    let first = b"tas 0.3.0, machine p".as_slice();
    check_same(&rt, "the first bytes", room.as_slice(), first);
}
