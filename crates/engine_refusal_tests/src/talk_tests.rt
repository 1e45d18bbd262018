//! Lines of a conversation whose memory is refused.

ghost use Rattle.std.specs.Prelude.{◌≤◌};

use crate::checks::{check_same, check_that, expect_ok};
use crate::refused_talks::{Conversation, MOST, Refusal, Row, answers};
use refusals::Refusing;
use std::alloc::Global;
use std::process::Abort;
use std::sync::Wait;
use tas_tool::talk_run;

/// A movie of three frames.
const MADE: &[u8] = b"load 000=A9028500A90085004C00F0 FFC=00F0\ninsert 0 3 R.... ..... .....\n";

/// Looks at it.
static LOOKS: [&[u8]; 10] = [
    b"picture 1\n",
    b"ram 3\n",
    b"digest 1\n",
    b"lag 0 2\n",
    b"inputs 0 2\n",
    b"history 0\n",
    b"movie\n",
    b"states\n",
    b"shot 2\n",
    b"work 2\n",
];

/// Edits, and a look at what they made.
const EDITS: &[u8] =
    b"load 000=A9028500A90085004C00F0 FFC=00F0\ninsert 0 3 R.... ..... .....\nreplace 1 1 .L... ..... .....\ndelete 0 1\nlen\n";

/// The answers where one of the first three is refused its memory: those after it are of a movie without it.
static REFUSED_EDITS: [&[u8]; 3] = [
    b"out of memory\nedit 1 len 3\nedit 2 len 3\nedit 3 len 2\nlen 3 2\n",
    b"edit 1 len 0\nout of memory\nplace 1 len 0\nplace 1 len 0\nlen 1 0\n",
    b"edit 1 len 0\nedit 2 len 3\nout of memory\nedit 3 len 2\nlen 3 2\n",
];

/// A draft that is committed, and what there is then.
const DRAFT: &[u8] =
    b"load 000=A9028500A90085004C00F0 FFC=00F0\ninsert 0 3 R.... ..... .....\nbegin\nreplace 1 1 .L... ..... .....\ncommit\nlen\ndrop\n";

/// The answers where one of the first five is refused its memory. A draft that can't be committed stays open.
static REFUSED_DRAFTS: [&[u8]; 5] = [
    b"out of memory\nedit 1 len 3\nbegin 1 3\nedit 2 len 3\ncommit 2 3\nlen 2 3\nno draft\n",
    b"edit 1 len 0\nout of memory\nbegin 1 0\nplace 1 len 0\ncommit 1 0\nlen 1 0\nno draft\n",
    b"edit 1 len 0\nedit 2 len 3\nout of memory\nedit 3 len 3\nno draft\nlen 3 3\nno draft\n",
    b"edit 1 len 0\nedit 2 len 3\nbegin 2 3\nout of memory\ncommit 2 3\nlen 2 3\nno draft\n",
    b"edit 1 len 0\nedit 2 len 3\nbegin 2 3\nedit 3 len 3\nout of memory\nlen 3 3\ndropped\n",
];

/// The lines that make the movie, and some looks.
fn looks_of<R: Abort>(rt: &R, alloc: Global, looks: &[&[u8]]) -> Vec<u8> {
    let mut lines = expect_ok(rt, Vec::from_slice(alloc, MADE));
    for look in looks {
        expect_ok(rt, lines.extend_from_slice(look));
    }
    lines
}

/// Writes the answer to a look after others, where the answers to the lines that make the movie have this many bytes.
fn push_answer<T: Wait + Abort>(
    rt: &T,
    alloc: Global,
    told: &mut Vec<u8>,
    look: &[u8],
    made: usize,
) {
    let lines = looks_of(rt, alloc, &[look]);
    let answer = answers(rt, alloc, lines.as_slice());
    let behind = answer.as_slice().get(made..).unwrap_or(&[]);
    expect_ok(rt, told.extend_from_slice(behind));
}

/// The answers to the lines that make the movie, and to all looks, the one at this place reported as out of memory.
fn answers_but<T: Wait + Abort>(rt: &T, alloc: Global, refused: usize) -> Vec<u8> {
    let mut told = answers(rt, alloc, MADE);
    let made = told.len();
    for (place, look) in LOOKS.iter().enumerate() {
        if place == refused {
            expect_ok(rt, told.extend_from_slice(b"out of memory\n"));
        } else {
            push_answer(rt, alloc, &mut told, look, made);
        }
    }
    told
}

/// The answers of each conversation of these lines that goes on to its end although one growth is refused, each growth in turn.
fn answers_refused<T: Wait + Abort>(rt: &T, alloc: Global, lines: &[u8]) -> Vec<Vec<u8>> {
    let mut all = Vec::new(alloc);
    for number in 1..MOST {
        let heap = Refusing::new(alloc, number);
        let mut input = lines;
        let mut output = Vec::new(alloc);
        let end = talk_run(rt, &heap, &mut input, &mut output).end;
        if !heap.has_refused() {
            break;
        }
        if end == Ok(()) {
            expect_ok(rt, all.push(output));
        }
    }
    all
}

/// How many of the texts are this one.
fn times_told(told: &[Vec<u8>], wanted: &[u8]) -> usize {
    told.iter().filter(|text| text.as_slice() == wanted).count()
}

/// How many of the texts begin with this one.
fn times_begun(told: &[Vec<u8>], start: &[u8]) -> usize {
    told.iter()
        .filter(|text| text.as_slice().starts_with(start))
        .count()
}

/// Each look that is out of memory says so in its place, byte by byte, and the looks after it are answered as ever; where the movie is made,
/// nothing else is reported.
#[test]
fn looks_without_memory(rt: HostRuntime) {
    let alloc = rt.alloc();
    let lines = looks_of(&rt, alloc, LOOKS.as_slice());
    let whole = answers(&rt, alloc, lines.as_slice());
    let all = answers_but(&rt, alloc, LOOKS.len());
    check_that(&rt, "whole", whole.as_slice() == all.as_slice());
    let told = answers_refused(&rt, alloc, lines.as_slice());
    let mut times = 0usize;
    for place in 0..LOOKS.len() {
        let wanted = answers_but(&rt, alloc, place);
        let here = times_told(told.as_slice(), wanted.as_slice());
        check_that(&rt, ("look", place), here > 0);
        times = times.saturating_add(here);
    }
    let made = answers(&rt, alloc, MADE);
    let begun = times_begun(told.as_slice(), made.as_slice());
    check_same(&rt, "all looks", times, begun);
}

/// Fails where lines of which one growth is refused, each in turn, are answered by anything but these, or one of these never comes.
fn check_refused<T: Wait + Abort>(rt: &T, alloc: Global, lines: &[u8], wanted: &[&[u8]]) {
    let told = answers_refused(rt, alloc, lines);
    let mut times = 0usize;
    for (place, answers) in wanted.iter().enumerate() {
        let here = times_told(told.as_slice(), *answers);
        check_that(rt, ("line", place), here > 0);
        times = times.saturating_add(here);
    }
    check_same(rt, "all lines", times, told.len());
}

/// An edit that is out of memory says so in its place, byte by byte, and the movie is as it was; nothing else is reported.
#[test]
fn edits_without_memory(rt: HostRuntime) {
    check_refused(&rt, rt.alloc(), EDITS, REFUSED_EDITS.as_slice());
}

/// A `begin` that is out of memory opens no draft, and a `commit` makes nothing and leaves the draft open.
#[test]
fn drafts_without_memory(rt: HostRuntime) {
    check_refused(&rt, rt.alloc(), DRAFT, REFUSED_DRAFTS.as_slice());
}

/// The ways of a line that takes memory, and more for its short answer.
const CALL: &[Refusal] = &[Refusal::Undone, Refusal::Ended];

/// Those of a line that takes memory for its short answer alone.
const BRIEF: &[Refusal] = &[Refusal::Ended];

/// Those of a look that plays frames and keeps states, and then takes memory for what it shows.
const PLAYED: &[Refusal] = &[Refusal::Undone, Refusal::Done];

/// Those of a look that takes memory for what it shows alone.
const TOLD: &[Refusal] = &[Refusal::Done];

/// Those of a look that leaves the kept states as they are, so that it doesn't show how far it came.
const SHOWN: &[Refusal] = &[Refusal::Undone];

/// Those of `work`: its states may be in its list, and not yet among those for shots.
const WORKED: &[Refusal] = &[Refusal::Undone, Refusal::Done, Refusal::Ended];

const LOAD: Row = (b"load 000=A9028500A90085004C00F0 FFC=00F0\n", CALL);

/// Frames enough for states after 64, 128 and 192 of them.
const INSERT: Row = (b"insert 0 200 R.... ..... .....\n", CALL);

const REPLACE: Row = (b"replace 150 1 .L... ..... .....\n", CALL);

const WORK: Row = (b"work 192\n", WORKED);

const BEGIN: Row = (b"begin\n", CALL);

const MOVIE: Row = (b"movie\n", SHOWN);

const STATES: Row = (b"states\n", SHOWN);

const LENGTH: Row = (b"len\n", BRIEF);

/// A movie of 200 frames.
static LONG: [Row; 2] = [LOAD, INSERT];

/// A draft of this movie, with one change and one kept state.
static DRAFTED: [Row; 6] = [LOAD, INSERT, (b"work 64\n", WORKED), BEGIN, STATES, REPLACE];

/// A line, its ways, and the last answer of a conversation about it.
type About = (&'static [u8], &'static [Refusal], &'static [u8]);

/// Lines about the movie. All but the last two pass its first 64 frames.
static ABOUT_MOVIE: [About; 8] = [
    (b"shot 63\n", CALL, b"states 2 1 64\n"),
    (b"picture 63\n", PLAYED, b"states 2 1 64\n"),
    (b"ram 64\n", PLAYED, b"states 2 1 64\n"),
    (b"digest 63\n", PLAYED, b"states 2 1 64\n"),
    (b"lag 66 68\n", PLAYED, b"states 2 1 64\n"),
    (b"work 70\n", WORKED, b"states 2 1 64\n"),
    (b"share\n", CALL, b"states 2 0\n"),
    (b"inputs 3 9\n", SHOWN, b"states 2 0\n"),
];

/// Lines about the draft.
static ABOUT_DRAFT: [About; 9] = [
    (b"shot 127\n", CALL, b"states 3 2 64 128\n"),
    (b"picture 127\n", PLAYED, b"states 3 2 64 128\n"),
    (b"ram 128\n", TOLD, b"states 3 2 64 128\n"),
    (b"digest 127\n", PLAYED, b"states 3 2 64 128\n"),
    (b"lag 130 132\n", TOLD, b"states 3 2 64 128\n"),
    (b"work 192\n", CALL, b"states 3 3 64 128 192\n"),
    (b"inputs 3 9\n", SHOWN, b"states 3 1 64\n"),
    (b"movie\n", SHOWN, b"states 3 1 64\n"),
    (b"states\n", SHOWN, b"states 3 1 64\n"),
];

/// Edits that depend on what the movie has, as its third ones.
static RETOUCHES: [About; 4] = [
    (b"press 1 2 ....F ..... .....\n", CALL, b"len 3 200\n"),
    (b"release 1 2 R.... ..... .....\n", CALL, b"len 3 200\n"),
    (b"repeat 1 2 3\n", CALL, b"len 3 206\n"),
    (b"copy 0 3 7\n", CALL, b"len 3 203\n"),
];

/// Changes of a draft beside these. A deletion takes no memory but that of its answer.
static CHANGES: [About; 3] = [
    (b"insert 3 2 .L... ..... .....\n", CALL, b"len 3 202\n"),
    (b"replace 3 2 .L... ..... .....\n", CALL, b"len 3 200\n"),
    (b"delete 4 1\n", BRIEF, b"len 3 199\n"),
];

/// Refuses each growth of the conversations about these lines.
fn check_all<T: Wait + Abort>(
    rt: &T,
    alloc: Global,
    before: &[Row],
    lines: &[About],
    after: &[Row],
) {
    for (line, ways, last) in lines {
        let about = [(*line, *ways)];
        let conversation = Conversation {
            before,
            about: &about,
            after,
            last,
        };
        conversation.check(rt, alloc);
    }
}

/// A line about the movie that is refused its memory leaves the kept states as they were or, where memory is refused for what it shows, as it
/// leaves them otherwise.
#[test]
fn long_looks_without_memory(rt: HostRuntime) {
    check_all(&rt, rt.alloc(), &LONG, &ABOUT_MOVIE, &[STATES]);
}

/// So does a line about a draft, and it leaves the draft's movie as it was.
#[test]
fn draft_looks_without_memory(rt: HostRuntime) {
    check_all(&rt, rt.alloc(), &DRAFTED, &ABOUT_DRAFT, &[MOVIE, STATES]);
}

/// A picture of a strip that is out of memory says so in its place, and those after it are shown as ever. Where memory is refused for the
/// strip itself the conversation ends, with nothing of it written.
#[test]
fn strips_without_memory(rt: HostRuntime) {
    let conversation = Conversation {
        before: &LONG,
        about: &[
            (b"picture 61\n", CALL),
            (b"picture 62\n", SHOWN),
            (b"picture 63\n", PLAYED),
        ],
        after: &[STATES],
        last: b"states 2 1 64\n",
    };
    conversation.check_strip(&rt, rt.alloc(), b"pictures 61 64\n");
}

/// So it is in a draft.
#[test]
fn draft_strips_without_memory(rt: HostRuntime) {
    let conversation = Conversation {
        before: &DRAFTED,
        about: &[
            (b"picture 125\n", CALL),
            (b"picture 126\n", SHOWN),
            (b"picture 127\n", PLAYED),
        ],
        after: &[MOVIE, STATES],
        last: b"states 3 2 64 128\n",
    };
    conversation.check_strip(&rt, rt.alloc(), b"pictures 125 128\n");
}

/// A change of a draft that is out of memory is not made.
#[test]
fn changes_without_memory(rt: HostRuntime) {
    let alloc = rt.alloc();
    let before = [LOAD, INSERT, BEGIN];
    check_all(&rt, alloc, &before, &RETOUCHES, &[MOVIE, LENGTH]);
    check_all(&rt, alloc, &before, &CHANGES, &[MOVIE, LENGTH]);
}

/// Nor is an edit that depends on what the movie has, or a deletion that is the history's fifth edit, for which it takes room.
#[test]
fn retouches_without_memory(rt: HostRuntime) {
    let alloc = rt.alloc();
    check_all(&rt, alloc, &LONG, &RETOUCHES, &[MOVIE, LENGTH]);
    let four = [LOAD, INSERT, REPLACE, REPLACE];
    let deletion: About = (b"delete 4 1\n", CALL, b"len 5 199\n");
    check_all(&rt, alloc, &four, &[deletion], &[MOVIE, LENGTH]);
}

/// A `begin` that is out of memory opens no draft, with the states of `work` or of shots to copy.
#[test]
fn begins_without_memory(rt: HostRuntime) {
    let alloc = rt.alloc();
    let begin: About = (b"begin\n", CALL, b"states 2 3 64 128 192\n");
    let after = [STATES, (b"drop\n", BRIEF), STATES];
    check_all(&rt, alloc, &[LOAD, INSERT, WORK], &[begin], &after);
    let shot: Row = (b"shot 191\n", CALL);
    check_all(&rt, alloc, &[LOAD, INSERT, shot], &[begin], &after);
}

/// How many growths of `begin` are refused after a shot.
fn times_not_begun<T: Wait + Abort>(rt: &T, alloc: Global, shot: &'static [u8]) -> usize {
    let conversation = Conversation {
        before: &[LOAD, INSERT, (shot, CALL)],
        about: &[BEGIN],
        after: &[STATES],
        last: b"",
    };
    conversation.times_undone(rt, alloc)
}

/// A `begin` takes two copies of the movie, each with its cartridge and its inputs, and a view's two lists,
/// whatever states there are.
#[test]
fn begins_copy_states(rt: HostRuntime) {
    let alloc = rt.alloc();
    check_same(&rt, "no state", times_not_begun(&rt, alloc, b"shot 3\n"), 6);
    check_same(&rt, "states", times_not_begun(&rt, alloc, b"shot 191\n"), 6);
}

/// A `version` takes memory for its answer alone, outside a draft and in one.
#[test]
fn versions_without_memory(rt: HostRuntime) {
    let alloc = rt.alloc();
    let version: About = (b"version\n", BRIEF, b"len 2 200\n");
    check_all(&rt, alloc, &LONG, &[version], &[LENGTH]);
    check_all(&rt, alloc, &[LOAD, INSERT, BEGIN], &[version], &[LENGTH]);
}

/// A `share` after an edit copies the movie, and may be out of memory then. In a draft only its answer takes memory, since `begin` has made
/// room for what it brings.
#[test]
fn shares_without_memory(rt: HostRuntime) {
    let alloc = rt.alloc();
    let edited: About = (b"share\n", CALL, b"states 3 2 64 128\n");
    let before = [LOAD, INSERT, WORK, STATES, REPLACE];
    check_all(&rt, alloc, &before, &[edited], &[STATES]);
    let drafted: About = (b"share\n", BRIEF, b"states 2 3 64 128 192\n");
    check_all(
        &rt,
        alloc,
        &[LOAD, INSERT, WORK, BEGIN],
        &[drafted],
        &[STATES],
    );
}
