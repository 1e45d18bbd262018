//! A draft by itself: what lines are answered in it, and the edits that it comes to.

use crate::checks::{check_that, expect_ok, expect_some};
use std::alloc::Global;
use std::process::Abort;
use tas_desk::Stroke;
use tas_green::View;
use tas_language::{parse_request, push_edit_lines};
use tas_movie::Movie;
use tas_seat::Draft;

/// A line in a draft, and its answer.
type Said = (&'static str, &'static str);

/// Two lines in a draft of ten frames without a press, and the edits that they come to, as lines of a script.
type Drawn = (&'static str, &'static str, &'static str);

/// A draft of the blank cartridge with no inputs.
fn blank_draft<R: Abort>(rt: &R, alloc: Global) -> Draft {
    let base = expect_ok(rt, Movie::blank(alloc));
    let movie = expect_ok(rt, base.copy(alloc));
    let view = expect_ok(rt, View::new(alloc, movie));
    Draft::new(base, view, 0)
}

/// A draft of what another one comes to.
fn next_draft<R: Abort>(rt: &R, alloc: Global, draft: &Draft) -> Draft {
    let base = expect_ok(rt, draft.movie().copy(alloc));
    let movie = expect_ok(rt, base.copy(alloc));
    let view = expect_ok(rt, View::new(alloc, movie));
    Draft::new(base, view, draft.edits())
}

/// Fails where a line is answered in another way.
fn say<R: Abort>(rt: &R, alloc: Global, draft: &mut Draft, said: Said) {
    let request = expect_some(rt, parse_request(said.0.as_bytes()));
    let found = expect_ok(rt, draft.answer(alloc, request));
    let bytes = expect_some(rt, found);
    check_that(rt, said, bytes.as_slice() == said.1.as_bytes());
}

static SAID: [Said; 20] = [
    ("len", "len 0 0\n"),
    ("insert 0 200 ..... ..... .....", "edit 1 len 200\n"),
    ("states", "states 1 0\n"),
    ("work 200", "work jobs 1 kept 3 stale 0\n"),
    ("states", "states 1 3 64 128 192\n"),
    ("insert 128 1 R.... ..... .....", "edit 2 len 201\n"),
    ("states", "states 2 2 64 128\n"),
    ("load2 7FC=00F0", "in draft\n"),
    ("len", "len 2 201\n"),
    ("press 100 1 ....F ..... .....", "edit 3 len 201\n"),
    ("states", "states 3 1 64\n"),
    ("input 128", "input 3 R.... ..... .....\n"),
    ("delete 201 1", "place 3 len 201\n"),
    ("repeat 0 201 1304", "long 3 len 201\n"),
    (
        "inputs 99 102",
        "inputs 3 99 102 71\n99 1 ..... ..... .....\n100 1 ....F ..... .....\n101 1 ..... ..... .....\n",
    ),
    ("inputs 199 202", "no frame 3 len 201\n"),
    ("ram 202", "no frame 3 len 201\n"),
    (
        "version",
        "version 0.3.0 profile 2 format 1 bytes picture lag inputs movie history\n",
    ),
    ("shot 201", "no frame 3 len 201\n"),
    (
        "pictures 201 203",
        "no frame 3 len 201\nno frame 3 len 201\n",
    ),
];

/// Each change is counted on from where the draft began, and cuts the draft's states at once.
#[test]
fn lines_are_answered_by_what_the_movie_would_be(rt: HostRuntime) {
    let mut draft = blank_draft(&rt, rt.alloc());
    for said in &SAID {
        say(&rt, rt.alloc(), &mut draft, *said);
    }
    check_that(&rt, "base", draft.base().is_empty());
    let share = expect_some(&rt, parse_request(b"share"));
    let found = expect_ok(&rt, draft.answer(rt.alloc(), share));
    check_that(&rt, "share", found.is_none());
}

/// Lines in a draft of 200 frames, one after the other: how many frames are played then for the state after so many.
static STEPS: [(&str, usize, u64); 6] = [
    ("picture 100", 102, 1),
    ("picture 101", 103, 1),
    ("ram 103", 104, 1),
    ("digest 104", 105, 0),
    ("lag 105 106", 106, 1),
    ("replace 90 1 R.... ..... .....", 93, 3),
];

/// A picture in a draft is played from its window, and fills it, and so are the other looks; a change cuts it at once.
#[test]
fn looks_in_a_draft_step_by_one_frame(rt: HostRuntime) {
    let alloc = rt.alloc();
    let mut draft = blank_draft(&rt, alloc);
    let insert = expect_some(&rt, parse_request(b"insert 0 200 ..... ..... ....."));
    expect_some(&rt, expect_ok(&rt, draft.answer(alloc, insert)));
    for (line, frames, ran) in &STEPS {
        let request = expect_some(&rt, parse_request(line.as_bytes()));
        expect_some(&rt, expect_ok(&rt, draft.answer(alloc, request)));
        let mut view = expect_ok(&rt, draft.view().copy(alloc));
        let reached = expect_ok(&rt, view.state(*frames));
        check_that(&rt, *line, reached.ran == *ran);
    }
}

/// The edits that a draft comes to, as lines of a script.
fn stroke_lines<R: Abort>(rt: &R, alloc: Global, draft: &Draft) -> Vec<u8> {
    let mut text = Vec::new(alloc);
    match expect_ok(rt, draft.stroke(alloc)) {
        Stroke::Nothing => {}
        Stroke::One(edit) => expect_ok(rt, push_edit_lines(&mut text, b"", &edit)),
        Stroke::Two(edit, next) => {
            expect_ok(rt, push_edit_lines(&mut text, b"", &edit));
            expect_ok(rt, push_edit_lines(&mut text, b"", &next));
        }
    }
    text
}

/// No edit, one of each kind, and two. Of equal frames the last ones are taken out, since the first ones stay.
static DRAWN: [Drawn; 5] = [
    (
        "press 3 1 R.... ..... .....",
        "release 3 1 R.... ..... .....",
        "",
    ),
    (
        "press 3 2 R.... ..... .....",
        "len",
        "replace 3 2 R.... ..... .....\n",
    ),
    (
        "insert 3 2 R.... ..... .....",
        "len",
        "insert 3 2 R.... ..... .....\n",
    ),
    ("delete 3 2", "len", "delete 8 2\n"),
    (
        "delete 3 2",
        "insert 3 1 R.... ..... .....",
        "delete 3 2\ninsert 3 1 R.... ..... .....\n",
    ),
];

#[test]
fn drafts_come_to_strokes(rt: HostRuntime) {
    let alloc = rt.alloc();
    let mut ten = blank_draft(&rt, alloc);
    say(
        &rt,
        alloc,
        &mut ten,
        ("insert 0 10 ..... ..... .....", "edit 1 len 10\n"),
    );
    for drawn in &DRAWN {
        let mut draft = next_draft(&rt, alloc, &ten);
        let first = expect_some(&rt, parse_request(drawn.0.as_bytes()));
        expect_some(&rt, expect_ok(&rt, draft.answer(alloc, first)));
        let second = expect_some(&rt, parse_request(drawn.1.as_bytes()));
        expect_some(&rt, expect_ok(&rt, draft.answer(alloc, second)));
        let lines = stroke_lines(&rt, alloc, &draft);
        check_that(&rt, *drawn, lines.as_slice() == drawn.2.as_bytes());
    }
}
