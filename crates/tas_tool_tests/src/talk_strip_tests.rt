//! The lines `picture` and `pictures` of a conversation: steps, with edits between them, and strips.

use crate::answers::check_answer;
use crate::checks::{check_that, expect_ok};
use crate::commands::LineCommand;
use crate::movies::{joined, repeated};
use crate::talks::answers_of;
use std::alloc::Global;
use std::process::Abort;
use std::sync::Wait;

/// `000=AD80026580858085094C00F0 FFC=00F0`: a picture depends on all inputs up to it; and 40 frames.
const FOLDING: &[u8] =
    b"load 000=AD80026580858085094C00F0 FFC=00F0\ninsert 0 40 ..... ..... .....\nreplace 3 1 R.... ..... .....\n";

/// The answers of a conversation that ends well.
fn answers<R: Wait + Abort>(rt: &R, alloc: Global, lines: &[&[u8]]) -> Vec<u8> {
    let lines = joined(rt, alloc, lines);
    answers_of(rt, alloc, LineCommand::Talk, lines.as_slice())
}

/// Fails where two conversations aren't answered alike.
fn check_alike<R: Wait + Abort>(rt: &R, alloc: Global, one: &[&[u8]], other: &[&[u8]]) {
    let wanted = answers(rt, alloc, other);
    let found = answers(rt, alloc, one);
    check_that(rt, "something is answered", !wanted.is_empty());
    check_answer(
        rt,
        "alike",
        (found.as_slice(), Ok(())),
        (wanted.as_slice(), Ok(())),
    );
}

/// A strip is answered as `picture` answers each of its frames: past the movie's end, and after steps and edits.
#[test]
fn strips_are_answered_as_their_frames(rt: HostRuntime) {
    let alloc = rt.alloc();
    check_alike(
        &rt,
        alloc,
        &[
            FOLDING,
            b"pictures 36 42\npictures 7 8\nreplace 5 1 R.... ..... .....\npictures 4 7\nstates\n",
        ],
        &[
            FOLDING,
            b"picture 36\npicture 37\npicture 38\npicture 39\npicture 40\npicture 41\npicture 7\n",
            b"replace 5 1 R.... ..... .....\npicture 4\npicture 5\npicture 6\nstates\n",
        ],
    );
}

/// Three frames, then a halt: each frame of a strip has its own answer.
#[test]
fn halted_frames_of_a_strip_are_told(rt: HostRuntime) {
    let alloc = rt.alloc();
    let load = b"load 000=A203A9028500A9008500CAD0F502 FFC=00F0\ninsert 0 9 ..... ..... .....\n";
    check_alike(
        &rt,
        alloc,
        &[load, b"pictures 2 5\n"],
        &[load, b"picture 2\nshot 3\nshot 4\n"],
    );
}

/// Frames, and edits between them, by which frames before, inside and after the window change; then the same movie is loaded anew.
static STEPS: [(&[u8], &[u8]); 8] = [
    (b"", b"picture 20\npicture 21\npicture 22\npicture 21\n"),
    (
        b"replace 21 1 .F... ..... .....\n",
        b"picture 20\npicture 21\npicture 22\n",
    ),
    (
        b"replace 30 1 R.... ..... .....\n",
        b"picture 23\npicture 31\npicture 30\n",
    ),
    (
        b"replace 2 1 R.... ..... .....\n",
        b"picture 30\npicture 29\n",
    ),
    (
        b"replace 2 1 ..... ..... .....\nreplace 2 1 R.... ..... .....\n",
        b"picture 30\n",
    ),
    (b"delete 10 5\n", b"picture 30\npicture 9\npicture 10\n"),
    (
        b"load 000=A910850DA91E85084C08F0 FFC=00F0\n",
        b"picture 10\npicture 11\n",
    ),
    (
        b"load 000=AD80026580858085094C00F0 FFC=00F0\n",
        b"picture 11\npicture 10\n",
    ),
];

/// What the edits up to a step are answered, then these and its frames, and all lines up to its end: the frames are shown alike.
fn check_step<R: Abort>(rt: &R, step: usize, told: &[u8], fresh: &[u8], all: &[u8]) {
    check_that(rt, (step, "edits"), fresh.starts_with(told));
    let shown = &fresh[told.len().min(fresh.len())..];
    check_that(rt, (step, "frames"), all.ends_with(shown));
}

/// Steps by a window, with edits between them, show what a conversation shows that asks for these frames first.
#[test]
fn steps_between_edits_show_what_a_first_look_shows(rt: HostRuntime) {
    let alloc = rt.alloc();
    let mut edits = repeated(&rt, alloc, FOLDING, b"", 0);
    let mut lines = repeated(&rt, alloc, FOLDING, b"", 0);
    for (step, (edit, looks)) in STEPS.iter().enumerate() {
        expect_ok(&rt, edits.extend_from_slice(*edit));
        expect_ok(&rt, lines.extend_from_slice(*edit));
        expect_ok(&rt, lines.extend_from_slice(*looks));
        let first = repeated(&rt, alloc, edits.as_slice(), *looks, 1);
        let told = answers(&rt, alloc, &[edits.as_slice()]);
        let fresh = answers(&rt, alloc, &[first.as_slice()]);
        let all = answers(&rt, alloc, &[lines.as_slice()]);
        check_step(&rt, step, told.as_slice(), fresh.as_slice(), all.as_slice());
    }
}

/// Lines that are nearly these, and strips of none or of too many.
#[test]
fn other_strips_are_unknown(rt: HostRuntime) {
    let alloc = rt.alloc();
    let found = answers(
        &rt,
        alloc,
        &[
            b"pictures\npictures 1\npictures 1 1\npictures 2 1\npictures 0 1025\npictures 01 2\npictures 1  2\npicturess 1 2\n",
        ],
    );
    let wanted =
        b"unknown rest\nunknown rest\nunknown rest\nunknown rest\nunknown rest\nunknown rest\nunknown rest\nunknown word\n";
    check_answer(
        &rt,
        "unknown",
        (found.as_slice(), Ok(())),
        (wanted.as_slice(), Ok(())),
    );
    check_alike(
        &rt,
        alloc,
        &[b"pictures 8975 9999\n"],
        &[b"pictures 0 1024\n"],
    );
}
