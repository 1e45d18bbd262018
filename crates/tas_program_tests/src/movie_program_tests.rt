//! What the commands that edit, compare and answer over a movie write, and what they tell of faults.

use crate::program_cases::{Refused, Written, check_refused_over_playfield, check_written};
use crate::programs::ONE_FRAME;

/// A movie of the playfield's cartridge with three frames.
const THREE_FRAMES: &[u8] =
    b"a26movie 2\ncart 820c64e9933496de683a000c5e11f0510fb7b1699b2ce86471295236b284906d\n..... ..... .....\nR.... ..... .....\n....F ..... .....\n";

/// Words that make the changes of the file `other`.
const EDIT: &[&str] = &["edit", "game.bin", "other"];

/// Words that compare the movie of the file `other` with a newer one.
const DIFF: &[&str] = &["diff", "game.bin", "other"];

/// Words that answer a script over the movie of the file `other`.
const SCRIPT: &[&str] = &["script", "--cart", "game.bin", "--movie", "other"];

/// Words that talk from the movie of the file `other`.
const TALK: &[&str] = &["talk", "game.bin", "other"];

/// Edits, and their movies.
static EDITS: [Written<'static>; 5] = [
    (
        EDIT,
        b"insert 1 1 R.... ..... .....\ninsert 2 1 ....F ..... .....\n",
        ONE_FRAME,
        THREE_FRAMES,
    ),
    (EDIT, b"", ONE_FRAME, ONE_FRAME),
    (EDIT, b"delete 1 2\n", THREE_FRAMES, ONE_FRAME),
    (
        EDIT,
        b"repeat 0 1 2\npress 1 1 R.... ..... .....\npress 2 1 ....F ..... .....\n",
        ONE_FRAME,
        THREE_FRAMES,
    ),
    (&["cut", "game.bin", "0", "1"], b"", THREE_FRAMES, ONE_FRAME),
];

#[test]
fn edits_write_their_movies(rt: HostRuntime) {
    check_written(&rt, rt.alloc(), EDITS.as_slice());
}

/// Differences, and their scripts.
static DIFFERENCES: [Written<'static>; 2] = [
    (
        DIFF,
        ONE_FRAME,
        THREE_FRAMES,
        b"insert 1 1 R.... ..... .....\ninsert 2 1 ....F ..... .....\n",
    ),
    (DIFF, THREE_FRAMES, THREE_FRAMES, b""),
];

#[test]
fn differences_write_their_scripts(rt: HostRuntime) {
    check_written(&rt, rt.alloc(), DIFFERENCES.as_slice());
}

/// Scripts over a movie, and their replies.
static SCRIPTS: [Written<'static>; 2] = [
    (
        SCRIPT,
        THREE_FRAMES,
        b"len\ndelete 0 1\ninput 0\nshot 0\n",
        b"len 2 3\nedit 3 len 2\ninput 3 R.... ..... .....\nshot 3 0 ran 1 lit 1680\n",
    ),
    (SCRIPT, ONE_FRAME, b"", b""),
];

#[test]
fn scripts_over_a_movie_write_their_replies(rt: HostRuntime) {
    check_written(&rt, rt.alloc(), SCRIPTS.as_slice());
}

/// Conversations over a movie, and their answers.
static TALKS: [Written<'static>; 1] = [(
    TALK,
    THREE_FRAMES,
    b"len\nwhat\nshot 0\nstates\nquit\nlen\n",
    b"len 2 3\nunknown word\nshot 2 0 ran 1 lit 1680\nstates 2 0\n",
)];

#[test]
fn conversations_over_a_movie_write_their_answers(rt: HostRuntime) {
    check_written(&rt, rt.alloc(), TALKS.as_slice());
}

/// Edits that are refused.
static REFUSED_EDITS: [Refused<'static>; 9] = [
    (
        EDIT,
        b"delete 0 1\ndelete 2 1\n",
        THREE_FRAMES,
        b"fault: script line 2: place\n",
    ),
    (
        EDIT,
        b"insert 3 262142 ..... ..... .....\n",
        THREE_FRAMES,
        b"fault: script line 1: long\n",
    ),
    (EDIT, b"len\n", THREE_FRAMES, b"fault: script line 1\n"),
    (
        &["edit", "game.bin", "nothing"],
        b"",
        THREE_FRAMES,
        b"fault: script: read failed\n",
    ),
    (
        EDIT,
        b"copy other 0 1 0\n",
        THREE_FRAMES,
        b"fault: script line 1\n",
    ),
    (
        &["edit", "game.bin", "other", "--with", "other"],
        b"delete 0 1\n",
        THREE_FRAMES,
        b"fault: other movie line 1: head\n",
    ),
    (
        &["edit", "game.bin", "other", "--with", "nothing"],
        b"delete 0 1\n",
        THREE_FRAMES,
        b"fault: other movie: read failed\n",
    ),
    (
        &["cut", "game.bin", "1", "4"],
        b"",
        THREE_FRAMES,
        b"fault: range 1 to 4 of 3\n",
    ),
    (
        &["cut", "nothing", "0", "1"],
        b"",
        THREE_FRAMES,
        b"fault: cartridge: read failed\n",
    ),
];

#[test]
fn edits_that_are_refused_write_nothing(rt: HostRuntime) {
    check_refused_over_playfield(&rt, rt.alloc(), REFUSED_EDITS.as_slice());
}

/// Differences, scripts and conversations whose files can't be read, or aren't a movie's.
static REFUSED: [Refused<'static>; 5] = [
    (
        DIFF,
        b"a26movie 1\n",
        THREE_FRAMES,
        b"fault: old movie line 2: end\n",
    ),
    (
        &["script", "--cart", "nothing", "--movie", "other"],
        ONE_FRAME,
        b"len\n",
        b"fault: read failed\n",
    ),
    (
        SCRIPT,
        b"a26movie 1\n",
        b"len\n",
        b"fault: movie line 2: end\n",
    ),
    (
        &["talk", "nothing"],
        ONE_FRAME,
        b"len\n",
        b"fault: read failed\n",
    ),
    (
        TALK,
        b"a26movie 1\n",
        b"len\n",
        b"fault: movie line 2: end\n",
    ),
];

#[test]
fn faults_of_the_files_write_nothing(rt: HostRuntime) {
    check_refused_over_playfield(&rt, rt.alloc(), REFUSED.as_slice());
}
