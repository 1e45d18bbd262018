//! Sessions for tests: lent to turns, and then closed.

use crate::changes::{Change, edit_of};
use crate::checks::{check_same, check_that, expect_ok};
use std::alloc::{AllocError, Global};
use std::process::Abort;
use std::str;
use std::sync::Wait;
use tas_desk::{Closed, EditError, Entry, Receipt, Session, ShotError};
use tas_movie::{Edit, MAX_FRAMES, print_text};
use vcs_machine::Meter;

/// A turn of a session, and its answer.
#[derive(Clone, Copy)]
pub enum Turn {
    /// An edit that seat 0 makes: the number of edits and the length then. Seat 0 has made all edits before.
    Made(Change, u64, usize),
    /// An edit of a seat that says it has made this many, and its answer. Where it is refused, all is as it was.
    Tried(u32, u64, Change, Result<Receipt, EditError>),
    /// A shot of a frame: the number of edits, of frames that are played, and of lit pixels.
    Drawn(usize, u64, u64, usize),
    /// A shot of a frame that isn't drawn, and how many frames are played.
    NotDrawn(usize, ShotError, u64),
    /// The places of the kept states, after their number: `2: 64 128`.
    Kept(&'static str),
}

/// A shot's answer, its frame, number of edits, of frames that are played and of lit pixels, with a meter of its own, which counts
/// more frames than any movie has; and what the meter counted.
fn shoot(
    alloc: Global,
    session: &mut Session,
    k: usize,
) -> (Result<(usize, u64, u64, usize), ShotError>, u64) {
    let mut meter = Meter::new();
    let len = session.movie().len();
    prove!(len <= MAX_FRAMES);
    let answer = match session.shot(alloc, k, &mut meter) {
        Ok(shot) => Ok((shot.frame, shot.at, shot.ran, shot.picture.lit())),
        Err(error) => Err(error),
    };
    (answer, meter.count())
}

/// The places of the kept states, after their number.
pub fn kept<R: Abort>(rt: &R, alloc: Global, session: &Session) -> String {
    let green = session.green();
    let mut text = expect_ok(rt, format!(in alloc; "{}:", green.count()));
    for frame in 0..MAX_FRAMES + 1 {
        if frame % 64 == 0 && green.holds(frame) {
            let place = expect_ok(rt, format!(in alloc; " {frame}"));
            expect_ok(rt, text.push_str(place.as_str()));
        }
    }
    text
}

fn entry_line(alloc: Global, entry: &Entry) -> Result<String, AllocError> {
    let (seat, serial) = (entry.seat, entry.serial);
    match &entry.edit {
        Edit::Load(_) => format!(in alloc; "{seat} {serial} load\n"),
        Edit::Insert { at, inputs } => {
            let count = inputs.as_slice().len();
            format!(in alloc; "{seat} {serial} insert {at} {count}\n")
        }
        Edit::Replace { at, inputs } => {
            let count = inputs.as_slice().len();
            format!(in alloc; "{seat} {serial} replace {at} {count}\n")
        }
        Edit::Delete { at, count } => format!(in alloc; "{seat} {serial} delete {at} {count}\n"),
    }
}

/// A history, an entry a line: the seat, the serial and the edit.
pub fn history<R: Abort>(rt: &R, alloc: Global, journal: &[Entry]) -> String {
    let mut text = String::new(alloc);
    for entry in journal {
        let line = expect_ok(rt, entry_line(alloc, entry));
        expect_ok(rt, text.push_str(line.as_str()));
    }
    text
}

/// Fails where a session or a desk leaves another history than this one, in words.
pub fn check_history<R: Abort>(rt: &R, alloc: Global, closed: &Closed, text: &str) {
    let told = history(rt, alloc, closed.journal.as_slice());
    check_same(rt, "history", told.as_str(), text);
}

/// How many edits the history has that a session or a desk leaves, and how many inputs its movie.
pub fn lengths(closed: &Closed) -> [usize; 2] {
    [closed.journal.len(), closed.movie.len()]
}

/// All that a session shows: history, kept states and movie.
fn shown<R: Abort>(rt: &R, alloc: Global, session: &Session) -> String {
    let mut text = expect_ok(rt, format!(in alloc; "{}\n", session.at()));
    let history = history(rt, alloc, session.journal());
    expect_ok(rt, text.push_str(history.as_str()));
    expect_ok(rt, text.push_str(kept(rt, alloc, session).as_str()));
    let movie = expect_ok(rt, print_text(alloc, session.movie()));
    let movie = expect_ok(rt, str::from_utf8(movie.as_slice()));
    expect_ok(rt, text.push_str(movie));
    text
}

/// Whether an edit is answered as it should be, and leaves all as it was where it is refused.
fn is_tried<R: Wait + Abort>(
    rt: &R,
    alloc: Global,
    session: &mut Session,
    attempt: (u32, u64, Change),
    answer: Result<Receipt, EditError>,
) -> bool {
    let (seat, made, change) = attempt;
    let before = shown(rt, alloc, session);
    let edit = edit_of(rt, alloc, change);
    let given = session.edit(rt, seat, made, edit);
    let kept_all = given.is_ok() || shown(rt, alloc, session).as_str() == before.as_str();
    given == answer && kept_all
}

/// Whether a turn is answered as it says.
fn is_answered<R: Wait + Abort>(rt: &R, alloc: Global, session: &mut Session, turn: Turn) -> bool {
    match turn {
        Turn::Made(change, at, len) => {
            let made = session.at();
            let edit = edit_of(rt, alloc, change);
            session.edit(rt, 0, made, edit) == Ok(Receipt { at, len })
        }
        Turn::Tried(seat, made, change, answer) => {
            is_tried(rt, alloc, session, (seat, made, change), answer)
        }
        Turn::Drawn(frame, at, ran, lit) => {
            shoot(alloc, session, frame) == (Ok((frame, at, ran, lit)), ran)
        }
        Turn::NotDrawn(frame, error, ran) => shoot(alloc, session, frame) == (Err(error), ran),
        Turn::Kept(places) => kept(rt, alloc, session).as_str() == places,
    }
}

/// Takes the turns, one after the other, on a session that is lent.
pub fn take_turns<R: Wait + Abort>(rt: &R, alloc: Global, session: &mut Session, turns: &[Turn]) {
    for (number, turn) in turns.iter().enumerate() {
        check_that(rt, ("turn", number), is_answered(rt, alloc, session, *turn));
    }
}

/// Takes the turns, one after the other, on a new session, and returns what it leaves.
pub fn play_turns<R: Wait + Abort>(rt: &R, alloc: Global, turns: &[Turn]) -> Closed {
    let mut session: Session = expect_ok(rt, Session::new(alloc));
    take_turns(rt, alloc, &mut session, turns);
    session.close(rt)
}

/// What is done on a session that is lent.
pub trait Lent {
    /// Uses the session, which others close.
    fn run<R: Wait + Abort>(&self, rt: &R, alloc: Global, session: &mut Session);
}

/// Lends a new session and closes it.
pub fn lend<L: Lent, R: Wait + Abort>(rt: &R, alloc: Global, lent: &L) -> Closed {
    let mut session: Session = expect_ok(rt, Session::new(alloc));
    lent.run(rt, alloc, &mut session);
    session.close(rt)
}

/// Gives a new session a movie: this many frames of a program.
pub fn open_movie<R: Wait + Abort>(
    rt: &R,
    alloc: Global,
    session: &mut Session,
    program: &'static [u8],
    count: usize,
) {
    let turns = [
        Turn::Made(Change::Load(program), 1, 0),
        Turn::Made(Change::Insert(0, count), 2, count),
    ];
    take_turns(rt, alloc, session, &turns);
}
