//! Changes, scripts of them, and differences, on lists of inputs by hand.

use crate::checks::{check_same, check_that, expect_ok, expect_some};
use crate::movies::frame_of;
use std::alloc::Global;
use std::process::Abort;
use tas_engines::{ScriptFault, changes_between, edit_movie, print_changes};
use tas_movie::{Edit, Inputs, MAX_FRAMES, Movie, apply, check, read_frame};
use vcs_machine::Input;

/// The inputs that letters stand for.
pub fn inputs_of<R: Abort>(rt: &R, alloc: Global, letters: &str) -> Vec<Input> {
    let mut list = Vec::new(alloc);
    for letter in letters.bytes() {
        let input = expect_some(rt, read_frame(frame_of(letter)));
        expect_ok(rt, list.push(input));
    }
    list
}

fn movie_of<R: Abort>(rt: &R, alloc: Global, letters: &str) -> Movie {
    let mut movie = expect_ok(rt, Movie::blank(alloc));
    let inputs = Inputs::from_vec(inputs_of(rt, alloc, letters));
    let edit = Edit::Insert { at: 0, inputs };
    expect_ok(rt, check(&movie, &edit));
    apply(&mut movie, &edit);
    movie
}

/// The script between two movies.
pub fn script_between<R: Abort>(rt: &R, alloc: Global, old: &Movie, new: &Movie) -> Vec<u8> {
    let changes = expect_ok(rt, changes_between(alloc, old.inputs(), new.inputs()));
    expect_ok(rt, print_changes(alloc, changes.as_slice()))
}

/// The script between the movies that letters stand for.
fn script_of<R: Abort>(rt: &R, alloc: Global, old: &str, new: &str) -> Vec<u8> {
    let old = movie_of(rt, alloc, old);
    let new = movie_of(rt, alloc, new);
    script_between(rt, alloc, &old, &new)
}

/// Fails where a script ends in another way over a movie of four inputs.
fn check_end<R: Abort>(rt: &R, alloc: Global, script: &str, end: Result<(), ScriptFault>) {
    let mut movie = movie_of(rt, alloc, "R.RF");
    let none: Option<Movie> = None;
    let ended = edit_movie(alloc, &mut movie, &none, script.as_bytes());
    check_same(rt, script, ended, end);
}

/// Fails where a script ends in another way, or makes a movie of other inputs.
fn check_edit<R: Abort>(
    rt: &R,
    alloc: Global,
    (old, new): (&str, &str),
    script: &[u8],
    end: Result<(), ScriptFault>,
) {
    let mut movie = movie_of(rt, alloc, old);
    let none: Option<Movie> = None;
    let ended = edit_movie(alloc, &mut movie, &none, script);
    check_same(rt, ("to", old, new), ended, end);
    let wanted = inputs_of(rt, alloc, new);
    let is_made = movie.inputs() == wanted.as_slice();
    check_that(rt, ("to", old, new), is_made);
}

/// Two movies, and the script between them by hand.
static DIFFERENCES: [(&str, &str, &str); 22] = [
    ("", "", ""),
    ("R.F", "R.F", ""),
    (
        "",
        "RR.",
        "insert 0 2 R.... ..... .....\ninsert 2 1 ..... ..... .....\n",
    ),
    ("RR.", "", "delete 0 3\n"),
    ("R..F", "R.F", "delete 2 1\n"),
    ("R.F", "R..F", "insert 2 1 ..... ..... .....\n"),
    ("RRRR", "RR", "delete 2 2\n"),
    ("RR", "RRRR", "insert 2 2 R.... ..... .....\n"),
    ("....", ".RR.", "replace 1 2 R.... ..... .....\n"),
    (
        "R..R",
        "RFRR",
        "replace 1 1 ....F ..... .....\nreplace 2 1 R.... ..... .....\n",
    ),
    ("FF..", "FFRRR..", "insert 2 3 R.... ..... .....\n"),
    ("F.RF", "FFF", "delete 1 2\ninsert 1 1 ....F ..... .....\n"),
    // Every frame differs.
    (
        "....",
        "RRFF",
        "replace 0 2 R.... ..... .....\nreplace 2 2 ....F ..... .....\n",
    ),
    ("...", "RRRR", "delete 0 3\ninsert 0 4 R.... ..... .....\n"),
    // A stretch that is in both, R twice to . three times, between what was put in, taken out or changed.
    (
        "R.RR..RRR...FR",
        "R.FFFRR..RRR...RR",
        "insert 2 3 ....F ..... .....\nreplace 15 1 R.... ..... .....\n",
    ),
    (
        "R.FFFRR..RRR...RR",
        "R.RR..RRR...FR",
        "delete 2 3\nreplace 12 1 ....F ..... .....\n",
    ),
    (
        "F.RR..RRR...F",
        ".FFRR..RRR...RR",
        "delete 0 1\ninsert 1 2 ....F ..... .....\ndelete 13 1\ninsert 13 2 R.... ..... .....\n",
    ),
    (
        "RRR.....RRRRRRR.",
        "FRRR.....RRRRRRR",
        "insert 0 1 ....F ..... .....\ndelete 16 1\n",
    ),
    // Of two stretches in the other order the longer one stays: three runs of four.
    (
        "FFFFFRR..RRR",
        "RR..RRRFFFFF",
        "delete 0 5\ninsert 7 5 ....F ..... .....\n",
    ),
    // A replacement goes on over what stays, fifteen frames at most.
    ("F.F.F", ".....", "replace 0 5 ..... ..... .....\n"),
    (
        "F...............F",
        ".................",
        "replace 0 17 ..... ..... .....\n",
    ),
    (
        "F................F",
        "..................",
        "replace 0 1 ..... ..... .....\nreplace 17 1 ..... ..... .....\n",
    ),
];

/// Fails where the script between two movies isn't this one, or doesn't make the one of the other.
fn check_difference<R: Abort>(rt: &R, alloc: Global, (old, new): (&str, &str), script: &str) {
    let text = script_of(rt, alloc, old, new);
    check_same(rt, ("to", old, new), text.as_slice(), script.as_bytes());
    check_edit(rt, alloc, (old, new), text.as_slice(), Ok(()));
}

#[test]
fn differences_read_as_by_hand(rt: HostRuntime) {
    for (old, new, script) in DIFFERENCES.iter() {
        check_difference(&rt, rt.alloc(), (*old, *new), *script);
    }
}

/// The letter of a frame in a pattern of forty frames, again and again.
pub fn pattern_letter(frame: usize) -> u8 {
    if frame % 40 < 17 {
        return b'.';
    }
    if frame % 40 < 31 { b'R' } else { b'F' }
}

/// 1,600 frames of the pattern, but for these at 100 and 1500.
fn pattern<R: Abort>(rt: &R, alloc: Global, first: u8, second: u8) -> Vec<u8> {
    let mut letters = Vec::new(alloc);
    for frame in 0..1600 {
        expect_ok(rt, letters.push(pattern_letter(frame)));
    }
    if let Some(letter) = letters.get_mut(100) {
        *letter = first;
    }
    if let Some(letter) = letters.get_mut(1500) {
        *letter = second;
    }
    letters
}

/// The longest movie that begins with these letters, with nothing pressed in its other frames.
fn longest<R: Abort>(rt: &R, alloc: Global, first: &[u8]) -> Vec<u8> {
    let mut letters = expect_ok(rt, Vec::from_slice(alloc, first));
    for _ in first.len()..MAX_FRAMES {
        expect_ok(rt, letters.push(b'.'));
    }
    letters
}

/// The movie of these letters.
pub fn movie_of_bytes<R: Abort>(rt: &R, alloc: Global, letters: &[u8]) -> Movie {
    let mut list = Vec::new(alloc);
    for letter in letters {
        let input = expect_some(rt, read_frame(frame_of(*letter)));
        expect_ok(rt, list.push(input));
    }
    let mut movie = expect_ok(rt, Movie::blank(alloc));
    let edit = Edit::Insert {
        at: 0,
        inputs: Inputs::from_vec(list),
    };
    expect_ok(rt, check(&movie, &edit));
    apply(&mut movie, &edit);
    movie
}

#[test]
fn two_far_frames_are_two_lines(rt: HostRuntime) {
    let alloc = rt.alloc();
    let before = pattern(&rt, alloc, b'R', b'R');
    let after = pattern(&rt, alloc, b'F', b'.');
    let old = movie_of_bytes(&rt, alloc, before.as_slice());
    let new = movie_of_bytes(&rt, alloc, after.as_slice());
    let script = script_between(&rt, alloc, &old, &new);
    let wanted = b"replace 100 1 ....F ..... .....\nreplace 1500 1 ..... ..... .....\n";
    check_same(&rt, "two", script.as_slice(), wanted.as_slice());
}

/// A stretch is left out where its insertion, before a deletion, would make the movie too long.
#[test]
fn no_line_makes_a_movie_too_long(rt: HostRuntime) {
    let alloc = rt.alloc();
    let before = longest(&rt, alloc, b"RRR.....RRRRRRR.");
    let after = longest(&rt, alloc, b"FRRR.....RRRRRRR");
    let old = movie_of_bytes(&rt, alloc, before.as_slice());
    let new = movie_of_bytes(&rt, alloc, after.as_slice());
    let script = script_between(&rt, alloc, &old, &new);
    let wanted =
        b"replace 0 1 ....F ..... .....\nreplace 3 1 R.... ..... .....\nreplace 8 1 ..... ..... .....\nreplace 15 1 R.... ..... .....\n";
    check_same(&rt, "full", script.as_slice(), wanted.as_slice());
}

/// Scripts for the movie of [`check_end`], and how each ends.
static SCRIPTS: [(&str, Result<(), ScriptFault>); 16] = [
    ("", Ok(())),
    ("delete 0 4\n", Ok(())),
    ("delete 4 0\n", Ok(())),
    ("delete 0 5\n", Err(ScriptFault::Place(1))),
    ("delete 5 0\n", Err(ScriptFault::Place(1))),
    ("insert 5 1 ..... ..... .....\n", Err(ScriptFault::Place(1))),
    ("insert 4 262140 ..... ..... .....\n", Ok(())),
    (
        "insert 4 262141 ..... ..... .....\n",
        Err(ScriptFault::Long(1)),
    ),
    (
        "insert 0 9999999 ..... ..... .....\n",
        Err(ScriptFault::Long(1)),
    ),
    (
        "insert 5 9999999 ..... ..... .....\n",
        Err(ScriptFault::Place(1)),
    ),
    (
        "replace 0 9999999 ..... ..... .....\n",
        Err(ScriptFault::Place(1)),
    ),
    ("replace 4 0 ..... ..... .....\n", Ok(())),
    ("delete 0 1\ndelete 0 4\n", Err(ScriptFault::Place(2))),
    ("delete 0 1\nlen\n", Err(ScriptFault::Line(2))),
    ("delete 0 1\n\ndelete 0 1 \n", Err(ScriptFault::Line(3))),
    ("delete 0 1\ndelete 0 1", Err(ScriptFault::Line(2))),
];

#[test]
fn scripts_end_as_by_hand(rt: HostRuntime) {
    let alloc = rt.alloc();
    for (script, end) in SCRIPTS.iter() {
        check_end(&rt, alloc, *script, *end);
    }
    let script =
        b"delete 1 2\ninsert 1 3 ....F ..... .....\nreplace 0 1 ..... ..... .....\ndelete 9 9\n";
    let end = Err(ScriptFault::Place(4));
    check_edit(&rt, alloc, ("R.RF", ".FFFF"), script, end);
    check_same(&rt, "MAX_FRAMES", MAX_FRAMES, 262144);
}
