//! Seats that play at random, each with notes of what it was told.

ghost use Rattle.std.specs.Prelude.{◌<◌};

use crate::answers::{Answered, Refused, Shown, edit, export, offer, shoot, view};
use crate::changes::{Change, FOLDING, HALTING, PLAYFIELD};
use crate::checks::{check_same, expect_ok};
use crate::gates::Open;
use crate::replays::{Notes, Told};
use std::alloc::Global;
use std::process::Abort;
use std::sync::Wait;
use std::thread::Threads;
use tas_desk::{CloseOnDrop, Desk, EditError, InputError, Name, Seat, ShotError};
use tas_movie::EditRefusal;

/// A row of pseudo-random numbers.
#[derive(Clone, Copy)]
pub struct Dice {
    state: u64,
}

impl Dice {
    /// The row of this number.
    pub fn new(number: u64) -> Dice {
        Dice {
            state: number.wrapping_mul(0x9E37_79B9_7F4A_7C15),
        }
    }

    /// A number below `sides`.
    pub fn roll(&mut self, sides: usize) -> usize
        requires { 0 < sides }
    {
        let next = self.state.wrapping_mul(6_364_136_223_846_793_005);
        self.state = next.wrapping_add(1_442_695_040_888_963_407);
        (self.state >> 33) as usize % sides
    }

    /// An edit, mostly one that is allowed.
    pub fn change(&mut self) -> Change {
        let place = self.roll(24);
        match self.roll(16) {
            0 => Change::Load(HALTING),
            1 => Change::Load(PLAYFIELD),
            2 | 3 => Change::Load(FOLDING),
            4 | 5 | 6 => Change::InsertRight(place, 1),
            7 | 8 => Change::Insert(place, self.roll(4)),
            9 | 10 => Change::ReplaceRight(place),
            11 | 12 => Change::Replace(place, self.roll(3)),
            13 => Change::Insert(place, 262144),
            _ => Change::Delete(place, self.roll(4)),
        }
    }
}

/// What a caller mostly does.
#[derive(Clone, Copy)]
pub enum Habit {
    /// Everything.
    All,
    /// Edits.
    Edits,
    /// Shots.
    Shots,
    /// An input put in at place 0, and then looks at the length and at that input.
    Inserts,
}

/// A seat with its notes. Its calls end the test where an answer is one that no call should give.
#[derive(Drop)]
pub struct Caller<N: Name> {
    pub seat: Seat<N>,
    pub habit: Habit,
    pub dice: Dice,
    pub notes: Notes,
    pub made: u64,
}

impl<N: Name> Caller<N> {
    /// A caller that was told nothing yet.
    pub fn new(alloc: Global, seat: Seat<N>, habit: Habit) -> Caller<N> {
        let number = seat.number();
        Caller {
            seat,
            habit,
            dice: Dice::new(u64::from(number) + 1),
            notes: Notes {
                seat: number,
                notes: Vec::new(alloc),
            },
            made: 0,
        }
    }

    /// Makes an edit.
    pub fn edit<W: CloseOnDrop, R: Wait + Abort>(
        &mut self,
        rt: &R,
        alloc: Global,
        desk: &Desk<N, W>,
        change: Change,
    ) {
        match edit(rt, alloc, desk, &mut self.seat, change) {
            Ok(receipt) => {
                let serial = self.made;
                self.made = serial.saturating_add(1);
                let told = Told::Made(change, serial, receipt.len);
                self.notes.add(rt, receipt.at, told);
            }
            Err(EditError::Place { at, place, len }) => {
                let refusal = EditRefusal::Place { at: place, len };
                self.notes.add(rt, at, Told::NotMade(change, refusal));
            }
            Err(EditError::Long { at, len }) => {
                let refusal = EditRefusal::Long { len };
                self.notes.add(rt, at, Told::NotMade(change, refusal));
            }
            Err(error) => self.notes.fail(rt, error),
        }
    }

    /// Asks for the length.
    pub fn len<W: CloseOnDrop, R: Abort>(&mut self, rt: &R, desk: &Desk<N, W>) {
        match desk.len(&mut self.seat) {
            Ok((at, len)) => self.notes.add(rt, at, Told::Len(len)),
            Err(error) => self.notes.fail(rt, error),
        }
    }

    /// Asks for an input.
    pub fn input<W: CloseOnDrop, R: Abort>(&mut self, rt: &R, desk: &Desk<N, W>, k: usize) {
        match desk.input(&mut self.seat, k) {
            Ok((at, input)) => self.notes.add(rt, at, Told::Input(k, input)),
            Err(InputError::NoFrame { at, len }) => {
                self.notes.add(rt, at, Told::NoFrame(k, len));
            }
            Err(error) => self.notes.fail(rt, error),
        }
    }

    /// Asks for a picture, by a shot or from its window.
    pub fn look<W: CloseOnDrop, R: Abort>(
        &mut self,
        rt: &R,
        alloc: Global,
        desk: &Desk<N, W>,
        k: usize,
        from_window: bool,
    ) {
        let answer = if from_window {
            view(alloc, desk, &mut self.seat, k)
        } else {
            shoot(alloc, desk, &mut self.seat, k)
        };
        self.shown(rt, k, answer);
    }

    /// Writes down what was shown.
    fn shown<R: Abort>(&mut self, rt: &R, k: usize, answer: Result<Shown, ShotError>) {
        let range = (k, k.saturating_add(1));
        match answer {
            Ok(shown) => {
                check_same(rt, "shown.frame", shown.frame, k);
                self.notes
                    .add(rt, shown.at, Told::Drawn(range, Ok(shown.sum)));
            }
            Err(ShotError::NoFrame { at, len }) => {
                self.notes.add(rt, at, Told::NoFrame(k, len));
            }
            Err(ShotError::Halted { at, halt }) => {
                self.notes.add(rt, at, Told::Drawn(range, Err((k, halt))));
            }
            Err(error) => self.notes.fail(rt, error),
        }
    }

    /// Takes a job, runs it and offers its batch.
    pub fn job<W: CloseOnDrop, R: Wait + Abort>(
        &mut self,
        rt: &R,
        alloc: Global,
        desk: &Desk<N, W>,
        near: usize,
    ) {
        let batch = expect_ok(rt, desk.job(rt, alloc, &mut self.seat, near)).run();
        let inputs = expect_ok(rt, batch.inputs().to_vec(alloc));
        let bytes = expect_ok(rt, batch.cart().bytes().to_vec(alloc));
        match offer(rt, desk, &mut self.seat, batch) {
            Answered::Taken(offered) => {
                let told = Told::Taken(inputs, offered.front);
                self.notes.add(rt, offered.at, told);
            }
            Answered::OtherCartridge(at) => self.notes.add(rt, at, Told::OtherCartridge(bytes)),
            answer => self.notes.fail(rt, answer),
        }
    }

    /// Works for the desk, and gains what it keeps.
    pub fn work<W: CloseOnDrop, R: Wait + Abort>(
        &mut self,
        rt: &R,
        alloc: Global,
        desk: &Desk<N, W>,
        target: usize,
    ) {
        let worked = desk.work(rt, alloc, &mut self.seat, &[target], &Open);
        expect_ok(rt, worked);
        expect_ok(rt, desk.share(rt, &mut self.seat));
    }

    /// Asks for the pixmaps of some frames, by two workers.
    pub fn export<W: CloseOnDrop, R: Threads + Wait + Abort + Sync>(
        &mut self,
        rt: &R,
        alloc: Global,
        desk: &Desk<N, W>,
        range: (usize, usize),
    ) {
        let (told, bytes, sum) = export(
            rt,
            alloc,
            desk,
            &mut self.seat,
            range,
            2,
            &Open,
            usize::MAX,
        );
        match told {
            Ok((at, _)) => self.notes.add(rt, at, Told::Drawn(range, Ok((bytes, sum)))),
            Err(Refused::Range { at, len }) => {
                self.notes.add(rt, at, Told::OutOfRange(range, len));
            }
            Err(Refused::Halted { at, frame, halt }) => {
                self.notes
                    .add(rt, at, Told::Drawn(range, Err((frame, halt))));
            }
            Err(error) => self.notes.fail(rt, error),
        }
    }

    /// Makes these edits.
    pub fn edits<W: CloseOnDrop, R: Wait + Abort>(
        &mut self,
        rt: &R,
        alloc: Global,
        desk: &Desk<N, W>,
        changes: &[Change],
    ) {
        for change in changes {
            self.edit(rt, alloc, desk, *change);
        }
    }

    /// Puts in an input at place 0, and looks at the length and at that input.
    fn insert_and_look<W: CloseOnDrop, R: Wait + Abort>(
        &mut self,
        rt: &R,
        alloc: Global,
        desk: &Desk<N, W>,
    ) {
        self.edit(rt, alloc, desk, Change::InsertRight(0, 1));
        self.len(rt, desk);
        self.input(rt, desk, 0);
    }

    /// One turn: mostly a call, at random.
    fn turn<W: CloseOnDrop, R: Threads + Wait + Abort + Sync>(
        &mut self,
        rt: &R,
        alloc: Global,
        desk: &Desk<N, W>,
    ) {
        let k = self.dice.roll(24);
        let kind = match self.habit {
            Habit::All => self.dice.roll(9),
            Habit::Edits => 0,
            Habit::Shots => 8,
            Habit::Inserts => 9,
        };
        match kind {
            0 | 1 | 2 => {
                let change = self.dice.change();
                self.edit(rt, alloc, desk, change);
            }
            3 => self.len(rt, desk),
            4 => self.input(rt, desk, k),
            5 => self.job(rt, alloc, desk, k),
            6 => self.work(rt, alloc, desk, k),
            7 => {
                let to = self.dice.roll(4).saturating_add(k);
                self.export(rt, alloc, desk, (k, to));
            }
            8 => {
                let from_window = self.dice.roll(2) == 0;
                self.look(rt, alloc, desk, k, from_window);
            }
            _ => self.insert_and_look(rt, alloc, desk),
        }
    }

    /// This many turns.
    pub fn turns<W: CloseOnDrop, R: Threads + Wait + Abort + Sync>(
        &mut self,
        rt: &R,
        alloc: Global,
        desk: &Desk<N, W>,
        count: usize,
    ) {
        for _turn in 0..count {
            self.turn(rt, alloc, desk);
        }
    }
}

/// Two callers meet. Each writes down how many edits the front has that both have then.
pub fn meet<N: Name, W: CloseOnDrop, R: Wait + Abort>(
    rt: &R,
    desk: &Desk<N, W>,
    one: &mut Caller<N>,
    other: &mut Caller<N>,
) {
    let at = desk.meet(rt, &mut one.seat, &mut other.seat);
    one.notes.add(rt, at, Told::Met);
    other.notes.add(rt, at, Told::Met);
}
