//! Sessions by hand: each call with its answer, and each refusal with what it leaves.

use crate::changes::{Change, HALT, HALTING, PLAYFIELD, cart, edit_of, right};
use crate::checks::{check_same, check_that, expect_ok};
use crate::sessions::{
    Lent, Turn, check_history, lend, lengths, open_movie, play_turns, take_turns,
};
use std::alloc::Global;
use std::fmt::Display;
use std::process::Abort;
use std::sync::Wait;
use tas_desk::{
    Closed, EditError, InputError, MAX_EDITS, NoEntry, OpenError, Receipt, Session, ShotError,
    WorkError, Worked,
};
use vcs_machine::{Cart, Input, Meter};

/// The movie that a session leaves has this cartridge.
fn check_cart<R: Abort>(rt: &R, closed: &Closed, cart: &Cart) {
    check_that(rt, "cart", closed.movie.cart().bytes() == cart.bytes());
}

/// Cartridge and inputs of most tests.
const LOADED: Turn = Turn::Made(Change::Load(PLAYFIELD), 1, 0);

const FILLED: Turn = Turn::Made(Change::Insert(0, 200), 2, 200);

static FIRST_TURNS: [Turn; 2] = [
    Turn::Kept("0:"),
    Turn::NotDrawn(0, ShotError::NoFrame { at: 0, len: 0 }, 0),
];

#[test]
fn a_new_session_is_empty(rt: HostRuntime) {
    let alloc = rt.alloc();
    let closed = play_turns(&rt, alloc, &FIRST_TURNS);
    check_same(&rt, "journal, movie", lengths(&closed), [0, 0]);
    let blank = expect_ok(&rt, Cart::blank(alloc));
    check_cart(&rt, &closed, &blank);
}

/// Edits that change nothing, of seats that say how many they have made before.
static SERIALS: [(u32, u64, Result<Receipt, EditError>); 11] = [
    (0, 5, Err(EditError::Serial { at: 0, counted: 0 })),
    (7, 0, Ok(Receipt { at: 1, len: 0 })),
    (0, 0, Ok(Receipt { at: 2, len: 0 })),
    (7, 0, Err(EditError::Serial { at: 2, counted: 1 })),
    (7, 2, Err(EditError::Serial { at: 2, counted: 1 })),
    (7, 1, Ok(Receipt { at: 3, len: 0 })),
    (0, 2, Err(EditError::Serial { at: 3, counted: 1 })),
    (u32::MAX, 3, Err(EditError::Serial { at: 3, counted: 0 })),
    (u32::MAX, 0, Ok(Receipt { at: 4, len: 0 })),
    (0, 1, Ok(Receipt { at: 5, len: 0 })),
    (7, u64::MAX, Err(EditError::Serial { at: 5, counted: 2 })),
];

#[test]
fn serials_count_the_seat_s_own_edits(rt: HostRuntime) {
    let alloc = rt.alloc();
    let turns = SERIALS.map(|(seat, made, answer)| {
        Turn::Tried(seat, made, Change::Delete(0, 0), answer)
    });
    let closed = play_turns(&rt, alloc, &turns);
    let text =
        "7 0 delete 0 0\n0 0 delete 0 0\n7 1 delete 0 0\n4294967295 0 delete 0 0\n0 1 delete 0 0\n";
    check_history(&rt, alloc, &closed, text);
}

static EACH_KIND: [Turn; 7] = [
    LOADED,
    Turn::Made(Change::Insert(0, 5), 2, 5),
    Turn::Made(Change::Insert(5, 2), 3, 7),
    Turn::Made(Change::ReplaceRight(6), 4, 7),
    Turn::Made(Change::Delete(1, 4), 5, 3),
    Turn::Made(Change::Load(HALTING), 6, 3),
    Turn::Made(Change::InsertRight(0, 1), 7, 4),
];

#[test]
fn each_kind_of_edit_is_made(rt: HostRuntime) {
    let alloc = rt.alloc();
    let closed = play_turns(&rt, alloc, &EACH_KIND);
    let text =
        "0 0 load\n0 1 insert 0 5\n0 2 insert 5 2\n0 3 replace 6 1\n0 4 delete 1 4\n0 5 load\n0 6 insert 0 1\n";
    check_history(&rt, alloc, &closed, text);
    check_each_kind(&rt, alloc, &closed);
}

/// The movie that these edits leave.
fn check_each_kind<R: Abort>(rt: &R, alloc: Global, closed: &Closed) {
    let inputs = [right(), Input::none(), Input::none(), right()];
    let found = closed.movie.inputs();
    check_that(rt, "closed.movie", found == inputs.as_slice());
    check_cart(rt, closed, &cart(rt, alloc, HALTING));
}

/// Behind two edits, at 262,108 inputs.
const SERIAL: Result<Receipt, EditError> = Err(EditError::Serial { at: 2, counted: 2 });

const LONG: Result<Receipt, EditError> = Err(EditError::Long { at: 2, len: 262108 });

const LONGEST: Result<Receipt, EditError> = Ok(Receipt { at: 3, len: 262144 });

const BEHIND_THE_END: Result<Receipt, EditError> = Err(EditError::Place {
    at: 2,
    place: 262109,
    len: 262108,
});

const AT_THE_END: Result<Receipt, EditError> = Err(EditError::Place {
    at: 2,
    place: 262108,
    len: 262108,
});

static REFUSALS: [Turn; 22] = [
    Turn::Made(Change::Load(HALTING), 1, 0),
    Turn::Made(Change::Insert(0, 262108), 2, 262108),
    Turn::NotDrawn(600, ShotError::Halted { at: 2, halt: HALT }, 601),
    Turn::Tried(0, 1, Change::Insert(0, 1), SERIAL),
    Turn::Tried(0, 3, Change::Load(PLAYFIELD), SERIAL),
    Turn::Tried(0, 0, Change::Insert(262109, 1), SERIAL),
    Turn::Tried(0, 9, Change::Insert(0, 37), SERIAL),
    Turn::Tried(0, 9, Change::Insert(262109, 37), SERIAL),
    Turn::Tried(0, 9, Change::ReplaceRight(262108), SERIAL),
    Turn::Tried(0, 9, Change::Delete(0, 262109), SERIAL),
    Turn::Tried(0, 2, Change::Insert(262109, 1), BEHIND_THE_END),
    Turn::Tried(0, 2, Change::Insert(262109, 0), BEHIND_THE_END),
    Turn::Tried(0, 2, Change::Insert(262109, 37), BEHIND_THE_END),
    Turn::Tried(0, 2, Change::ReplaceRight(262108), AT_THE_END),
    Turn::Tried(
        0,
        2,
        Change::Replace(64, 262045),
        Err(EditError::Place {
            at: 2,
            place: 64,
            len: 262108,
        }),
    ),
    Turn::Tried(
        0,
        2,
        Change::Delete(0, 262109),
        Err(EditError::Place {
            at: 2,
            place: 0,
            len: 262108,
        }),
    ),
    Turn::Tried(0, 2, Change::Delete(262108, 1), AT_THE_END),
    Turn::Tried(
        0,
        2,
        Change::Delete(usize::MAX, usize::MAX),
        Err(EditError::Place {
            at: 2,
            place: usize::MAX,
            len: 262108,
        }),
    ),
    Turn::Tried(0, 2, Change::Insert(0, 37), LONG),
    Turn::Tried(0, 2, Change::Insert(262108, 37), LONG),
    Turn::Tried(0, 2, Change::Insert(262108, 36), LONGEST),
    Turn::Kept("1: 512"),
];

/// `Serial` comes before `Place`, and `Place` before `Long`, whatever else is wrong. A refusal leaves the state after 512
/// frames, which is kept.
#[test]
fn refusals_come_in_order(rt: HostRuntime) {
    let closed = play_turns(&rt, rt.alloc(), &REFUSALS);
    check_same(&rt, "closed.movie", closed.movie.len(), 262144);
}

static LENGTHS: [Turn; 5] = [
    Turn::Tried(
        0,
        0,
        Change::Insert(0, 262145),
        Err(EditError::Long { at: 0, len: 0 }),
    ),
    Turn::Tried(
        0,
        0,
        Change::Insert(0, 262144),
        Ok(Receipt { at: 1, len: 262144 }),
    ),
    Turn::Tried(
        0,
        1,
        Change::Insert(0, 1),
        Err(EditError::Long { at: 1, len: 262144 }),
    ),
    Turn::Tried(
        0,
        1,
        Change::Insert(262145, 1),
        Err(EditError::Place {
            at: 1,
            place: 262145,
            len: 262144,
        }),
    ),
    Turn::Tried(
        0,
        1,
        Change::Replace(262144, 0),
        Ok(Receipt { at: 2, len: 262144 }),
    ),
];

#[test]
fn movies_have_at_most_262144_inputs(rt: HostRuntime) {
    let closed = play_turns(&rt, rt.alloc(), &LENGTHS);
    check_same(&rt, "closed.journal", closed.journal.len(), 2);
}

/// This many edits of seat 4 that change nothing, and the edits after them, which are refused.
struct Million;

impl Lent for Million {
    fn run<R: Wait + Abort>(&self, rt: &R, alloc: Global, session: &mut Session) {
        for made in 0..MAX_EDITS {
            let edit = edit_of(rt, alloc, Change::Delete(0, 0));
            expect_ok(rt, session.edit(rt, 4, made, edit));
        }
        let at = 1_000_000;
        let full = EditError::Full { at };
        let serial = EditError::Serial { at, counted: at };
        let attempts = [
            (at, Change::Delete(0, 0), full),
            (at, Change::Delete(0, 1), full),
            (at, Change::Insert(0, 262145), full),
            (999_999, Change::Delete(0, 0), serial),
        ];
        for (made, change, error) in attempts {
            let edit = edit_of(rt, alloc, change);
            let answer = session.edit(rt, 4, made, edit);
            check_same(rt, ("after", change, made), answer, Err(error));
            let turn = session.check_turn(4, made);
            check_same(rt, ("turn", made), turn, Err(error));
        }
    }
}

#[test]
fn a_million_edits_are_the_most(rt: HostRuntime) {
    let closed = lend(&rt, rt.alloc(), &Million);
    check_same(&rt, "journal, movie", lengths(&closed), [1_000_000, 0]);
}

static SHOTS_AND_EDITS: [Turn; 11] = [
    LOADED,
    FILLED,
    Turn::Drawn(191, 2, 192, 1680),
    Turn::Kept("3: 64 128 192"),
    Turn::Made(Change::ReplaceRight(64), 3, 200),
    Turn::Kept("1: 64"),
    Turn::Drawn(64, 3, 1, 1680),
    Turn::Made(Change::Delete(0, 200), 4, 0),
    Turn::Kept("0:"),
    Turn::NotDrawn(0, ShotError::NoFrame { at: 4, len: 0 }, 0),
    Turn::Made(Change::Delete(0, 0), 5, 0),
];

#[test]
fn shots_and_edits_in_turn(rt: HostRuntime) {
    play_turns(&rt, rt.alloc(), &SHOTS_AND_EDITS);
}

static INSERTED: [Turn; 11] = [
    LOADED,
    FILLED,
    Turn::Drawn(199, 2, 200, 1680),
    Turn::Drawn(150, 2, 23, 1680),
    Turn::Made(Change::InsertRight(127, 1), 3, 201),
    Turn::Kept("1: 64"),
    Turn::Drawn(200, 3, 137, 1680),
    Turn::Kept("3: 64 128 192"),
    Turn::Made(Change::Delete(10, 191), 4, 10),
    Turn::Kept("0:"),
    Turn::Drawn(9, 4, 10, 1680),
];

#[test]
fn states_behind_an_insert_are_made_anew(rt: HostRuntime) {
    play_turns(&rt, rt.alloc(), &INSERTED);
}

static TAKEN_BACK: [Turn; 6] = [
    LOADED,
    FILLED,
    Turn::Drawn(191, 2, 192, 1680),
    Turn::Made(Change::ReplaceRight(64), 3, 200),
    Turn::Made(Change::Replace(64, 1), 4, 200),
    Turn::Drawn(191, 4, 128, 1680),
];

#[test]
fn an_edit_that_is_taken_back_still_costs_its_states(rt: HostRuntime) {
    play_turns(&rt, rt.alloc(), &TAKEN_BACK);
}

static LENGTHENED: [Turn; 12] = [
    LOADED,
    Turn::Made(Change::Insert(0, 32831), 2, 32831),
    Turn::Drawn(199, 2, 200, 1680),
    Turn::Kept("3: 64 128 192"),
    Turn::Made(Change::InsertRight(32831, 1), 3, 32832),
    Turn::Kept("1: 128"),
    Turn::Drawn(150, 3, 23, 1680),
    Turn::Drawn(100, 3, 101, 1680),
    Turn::Made(Change::Delete(32831, 1), 4, 32831),
    Turn::Kept("1: 128"),
    Turn::Drawn(100, 4, 101, 1680),
    Turn::Drawn(100, 4, 37, 1680),
];

#[test]
fn the_grid_follows_the_length(rt: HostRuntime) {
    play_turns(&rt, rt.alloc(), &LENGTHENED);
}

static HALTED_OF_FIVE: [Turn; 7] = [
    Turn::Made(Change::Load(HALTING), 1, 0),
    Turn::Made(Change::Insert(0, 5), 2, 5),
    Turn::Drawn(0, 2, 1, 0),
    Turn::Drawn(1, 2, 2, 0),
    Turn::Drawn(2, 2, 3, 0),
    Turn::NotDrawn(3, ShotError::Halted { at: 2, halt: HALT }, 4),
    Turn::NotDrawn(4, ShotError::Halted { at: 2, halt: HALT }, 5),
];

#[test]
fn frames_before_a_halt_are_drawn(rt: HostRuntime) {
    play_turns(&rt, rt.alloc(), &HALTED_OF_FIVE);
}

static HALTED: [Turn; 9] = [
    Turn::Made(Change::Load(HALTING), 1, 0),
    Turn::Made(Change::Insert(0, 100), 2, 100),
    Turn::Drawn(2, 2, 3, 0),
    Turn::Kept("0:"),
    Turn::NotDrawn(3, ShotError::Halted { at: 2, halt: HALT }, 4),
    Turn::NotDrawn(99, ShotError::Halted { at: 2, halt: HALT }, 100),
    Turn::Kept("1: 64"),
    Turn::NotDrawn(80, ShotError::Halted { at: 2, halt: HALT }, 17),
    Turn::Kept("1: 64"),
];

#[test]
fn halted_frames_are_told_and_kept(rt: HostRuntime) {
    let closed = play_turns(&rt, rt.alloc(), &HALTED);
    let text = "0 0 load\n0 1 insert 0 100\n";
    check_history(&rt, rt.alloc(), &closed, text);
}

static NO_FRAME: [Turn; 8] = [
    LOADED,
    FILLED,
    Turn::Drawn(100, 2, 101, 1680),
    Turn::NotDrawn(200, ShotError::NoFrame { at: 2, len: 200 }, 0),
    Turn::NotDrawn(201, ShotError::NoFrame { at: 2, len: 200 }, 0),
    Turn::NotDrawn(262144, ShotError::NoFrame { at: 2, len: 200 }, 0),
    Turn::NotDrawn(usize::MAX, ShotError::NoFrame { at: 2, len: 200 }, 0),
    Turn::Kept("1: 64"),
];

#[test]
fn a_frame_that_is_not_there_changes_nothing(rt: HostRuntime) {
    let closed = play_turns(&rt, rt.alloc(), &NO_FRAME);
    check_same(&rt, "journal, movie", lengths(&closed), [2, 200]);
}

/// Frames 10 and 10 play 11 frames each; frame 70 plays 71, which keeps the state after 64, and then 7; there is no
/// frame 200.
struct OneMeter;

impl Lent for OneMeter {
    fn run<R: Wait + Abort>(&self, rt: &R, alloc: Global, session: &mut Session) {
        open_movie(rt, alloc, session, PLAYFIELD, 200);
        let mut meter = Meter::new();
        for (k, count) in [(10, 11), (10, 22), (70, 93), (70, 100), (200, 100)] {
            // The condition of a shot: the meter has room for the whole movie.
            if meter.room() >= session.movie().len() as u64 {
                let is_drawn = session.shot(alloc, k, &mut meter).is_ok();
                check_same(rt, ("frame", k), is_drawn, k < 200);
            }
            check_same(rt, ("frame", k), meter.count(), count);
        }
    }
}

#[test]
fn one_meter_counts_several_shots(rt: HostRuntime) {
    lend(&rt, rt.alloc(), &OneMeter);
}

/// The last frame of a movie of 65,536 frames, which halts in its fourth one, is asked for: the states of each 128th frame are
/// kept, all of them halted.
struct MostStates;

impl Lent for MostStates {
    fn run<R: Wait + Abort>(&self, rt: &R, alloc: Global, session: &mut Session) {
        open_movie(rt, alloc, session, HALTING, 65_536);
        let halted = ShotError::Halted { at: 2, halt: HALT };
        let turns = [Turn::NotDrawn(65_535, halted, 65_536)];
        take_turns(rt, alloc, session, &turns);
        check_same(rt, "kept states", session.green().count(), 512);
    }
}

#[test]
fn a_session_keeps_at_most_512_states(rt: HostRuntime) {
    let closed = lend(&rt, rt.alloc(), &MostStates);
    check_same(&rt, "closed.journal", closed.journal.len(), 2);
}

/// An error's words.
fn check_words<R: Abort, E: Copy + Display>(rt: &R, alloc: Global, error: E, text: &str) {
    let words = expect_ok(rt, format!(in alloc; "{error}"));
    check_same(rt, text, words.as_str(), text);
}

#[test]
fn errors_of_opening_and_work_in_words(rt: HostRuntime) {
    let alloc = rt.alloc();
    let done = Worked {
        jobs: 1,
        kept: 2,
        stale: 3,
    };
    check_words(&rt, alloc, WorkError::Memory { done }, "out of memory");
    check_words(&rt, alloc, OpenError::Memory, "out of memory");
    check_words(&rt, alloc, OpenError::NoPlace, "no place");
    check_words(&rt, alloc, NoEntry, "no entry");
}

#[test]
fn errors_of_edits_in_words(rt: HostRuntime) {
    let (at, len) = (7, 30);
    let edits = [
        (
            EditError::Serial { at, counted: 3 },
            "seat has 3 edits at 7",
        ),
        (EditError::Full { at }, "full at 7"),
        (
            EditError::Place { at, place: 31, len },
            "no place 31: 30 frames at edit 7",
        ),
        (EditError::Long { at, len }, "too long: 30 at 7"),
        (EditError::Memory, "out of memory"),
    ];
    for (error, text) in edits {
        check_words(&rt, rt.alloc(), error, text);
    }
}

#[test]
fn errors_of_looks_in_words(rt: HostRuntime) {
    let (at, len) = (7, 30);
    let looks = [
        (InputError::NoEntry, "no entry"),
        (
            InputError::NoFrame { at, len },
            "no such frame: 30 frames at edit 7",
        ),
    ];
    for (error, text) in looks {
        check_words(&rt, rt.alloc(), error, text);
    }
    let shots = [
        (ShotError::NoEntry, "no entry"),
        (
            ShotError::NoFrame { at, len },
            "no such frame: 30 frames at edit 7",
        ),
        (ShotError::Memory, "out of memory"),
        (ShotError::Halted { at, halt: HALT }, "halted at 7"),
    ];
    for (error, text) in shots {
        check_words(&rt, rt.alloc(), error, text);
    }
}
