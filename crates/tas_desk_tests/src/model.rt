//! What a schedule's replies should be: a desk as lists and places, whose frames are all played from power-on.

use crate::answers::{Answered, Refused};
use crate::changes::{Change, cart, fire, right};
use crate::checks::expect_ok;
use crate::pictures::{Pixmaps, pixmaps};
use crate::replays::equal_inputs;
use crate::schedule_callers::RANGE;
use crate::steps::{Action, Answer, Step};
use crate::sums::Sum;
use std::alloc::Global;
use std::process::Abort;
use tas_desk::{Offered, Receipt, ShotError, Worked};
use vcs_machine::Input;

/// A program and inputs.
#[derive(Drop)]
pub struct PlainMovie {
    pub program: &'static [u8],
    pub inputs: Vec<Input>,
}

/// No program and no inputs.
fn blank(alloc: Global) -> PlainMovie {
    PlainMovie {
        program: b"",
        inputs: Vec::new(alloc),
    }
}

/// Whether the states after frames 64, 128 and 192 are kept.
type Kept = [bool; 3];

/// No state.
const NONE: Kept = [false; 3];

/// The kept states up to a frame.
fn up_to(kept: Kept, frame: usize) -> Kept {
    [
        kept[0] && 64 <= frame,
        kept[1] && 128 <= frame,
        kept[2] && 192 <= frame,
    ]
}

/// The last kept state up to a frame; 0 where there is none.
fn nearest(kept: Kept, frame: usize) -> usize {
    match up_to(kept, frame) {
        [_, _, true] => 192,
        [_, true, _] => 128,
        [true, _, _] => 64,
        _ => 0,
    }
}

/// How many states are kept.
fn count(kept: Kept) -> usize {
    usize::from(kept[0]) + usize::from(kept[1]) + usize::from(kept[2])
}

/// The kept states with others, and how many they gain.
fn with_all(kept: Kept, others: Kept) -> (Kept, usize) {
    let all = [
        kept[0] || others[0],
        kept[1] || others[1],
        kept[2] || others[2],
    ];
    (all, count(all).saturating_sub(count(kept)))
}

/// The kept states with those of a run from one frame to another, and how many they gain.
fn with_run(kept: Kept, from: usize, to: usize) -> (Kept, usize) {
    with_all(kept, up_to([from < 64, from < 128, from < 192], to))
}

/// A movie with the states of it that are kept: a seat's zone, or a job with the state that it starts from.
#[derive(Drop)]
struct Zone {
    movie: PlainMovie,
    kept: Kept,
    start: usize,
}

/// A desk.
#[derive(Drop)]
pub struct Model {
    pub movie: PlainMovie,
    edits: u64,
    kept: Kept,
    zones: Vec<Zone>,
}

impl Model {
    /// A desk of eight seats with the blank cartridge and no inputs.
    pub fn new<R: Abort>(rt: &R, alloc: Global) -> Model {
        let mut zones = Vec::new(alloc);
        for _ in 0..8u32 {
            let zone = Zone {
                movie: blank(alloc),
                kept: NONE,
                start: 0,
            };
            expect_ok(rt, zones.push(zone));
        }
        Model {
            movie: blank(alloc),
            edits: 0,
            kept: NONE,
            zones,
        }
    }

    /// Takes some inputs out at a place and puts copies of one in there. Later states go.
    fn change<R: Abort>(
        &mut self,
        rt: &R,
        alloc: Global,
        at: usize,
        taken: usize,
        copies: (Input, usize),
    ) {
        let old = self.movie.inputs.as_slice();
        let (front, behind) = old.split_at(at.min(old.len()));
        let (_, rest) = behind.split_at(taken.min(behind.len()));
        let (input, count) = copies;
        let mut inputs = expect_ok(rt, front.to_vec(alloc));
        expect_ok(rt, inputs.resize(front.len().saturating_add(count), input));
        expect_ok(rt, inputs.extend_from_slice(rest));
        self.kept = up_to(up_to(self.kept, at), inputs.len());
        self.movie.inputs = inputs;
    }

    /// The reply to an edit.
    pub fn edit<R: Abort>(&mut self, rt: &R, alloc: Global, change: Change) -> Answer {
        match change {
            Change::Load(program) => {
                self.movie.program = program;
                self.kept = NONE;
            }
            Change::Insert(at, count) => self.change(rt, alloc, at, 0, (Input::none(), count)),
            Change::InsertRight(at, count) => self.change(rt, alloc, at, 0, (right(), count)),
            Change::InsertFire(at) => self.change(rt, alloc, at, 0, (fire(), 1)),
            Change::Replace(at, count) => {
                self.change(rt, alloc, at, count, (Input::none(), count));
            }
            Change::ReplaceRight(at) => self.change(rt, alloc, at, 1, (right(), 1)),
            Change::Delete(at, count) => self.change(rt, alloc, at, count, (right(), 0)),
        }
        self.edits = self.edits.saturating_add(1);
        Answer::Edit(Ok(Receipt {
            at: self.edits,
            len: self.movie.inputs.len(),
        }))
    }

    /// The seat's zone is of the movie's first inputs now, up to this many, and keeps these states; a job starts from this frame.
    fn put<R: Abort>(
        &mut self,
        rt: &R,
        alloc: Global,
        seat: usize,
        most: usize,
        kept: Kept,
        start: usize,
    ) {
        let inputs = self.movie.inputs.as_slice();
        let (front, _) = inputs.split_at(most.min(inputs.len()));
        let movie = PlainMovie {
            program: self.movie.program,
            inputs: expect_ok(rt, front.to_vec(alloc)),
        };
        if let Some(zone) = self.zones.get_mut(seat) {
            *zone = Zone { movie, kept, start };
        }
    }

    /// The seat takes a job.
    fn start<R: Abort>(&mut self, rt: &R, alloc: Global, seat: usize, near: usize) {
        let start = nearest(self.kept, near.min(self.movie.inputs.len()));
        self.put(rt, alloc, seat, near, NONE, start);
    }

    /// The common beginning of a seat's movie and the desk's, its last state, and whether the cartridges differ.
    fn met(&self, seat: usize) -> (usize, usize, bool) {
        match self.zones.get(seat) {
            Some(zone) => {
                let front = equal_inputs(&zone.movie.inputs, &self.movie.inputs);
                (front, zone.start, zone.movie.program != self.movie.program)
            }
            None => (0, 0, false),
        }
    }

    /// The reply to the offer of the seat's job. Seat 1 offers, the others work.
    fn offer(&mut self, seat: usize) -> Answer {
        let at = self.edits;
        let (front, start, is_stale) = self.met(seat);
        if is_stale && seat == 1 {
            return Answer::Offer(Answered::OtherCartridge(at));
        }
        let (kept, gained) = if is_stale {
            (self.kept, 0)
        } else {
            with_run(self.kept, start, front)
        };
        self.kept = kept;
        if seat == 1 {
            let kept = gained;
            Answer::Offer(Answered::Taken(Offered { at, front, kept }))
        } else {
            Answer::Work(Ok(Worked {
                jobs: 1,
                kept: gained,
                stale: usize::from(is_stale),
            }))
        }
    }

    /// What a seat's zone keeps of the present movie.
    fn cut(&self, seat: usize) -> Kept {
        let (front, _, is_stale) = self.met(seat);
        match self.zones.get(seat) {
            Some(zone) if !is_stale => up_to(zone.kept, front),
            _ => NONE,
        }
    }

    /// The pixmaps of some frames.
    fn pixmaps<R: Abort>(&self, rt: &R, alloc: Global, range: (usize, usize)) -> Pixmaps {
        let cart = cart(rt, alloc, self.movie.program);
        pixmaps(rt, alloc, &cart, &self.movie.inputs, range)
    }

    /// The reply to a shot, which plays from the seat's last state.
    fn shot<R: Abort>(&mut self, rt: &R, alloc: Global, seat: usize, k: usize) -> Answer {
        let kept = self.cut(seat);
        let next = k.saturating_add(1);
        let from = nearest(kept, k);
        let (kept, _) = with_run(kept, from, next);
        self.put(rt, alloc, seat, usize::MAX, kept, 0);
        let at = self.edits;
        match self.pixmaps(rt, alloc, (k, next)) {
            Ok(sum) => Answer::Shot(at, k, next.saturating_sub(from) as u64, sum),
            Err((_, halt)) => Answer::NotDrawn(ShotError::Halted { at, halt }),
        }
    }

    /// The reply to a share.
    fn share<R: Abort>(&mut self, rt: &R, alloc: Global, seat: usize) -> Answer {
        let (kept, gained) = with_all(self.cut(seat), self.kept);
        self.put(rt, alloc, seat, usize::MAX, kept, 0);
        Answer::Share(gained)
    }

    /// The reply to an export by a seat whose zone is empty: each of the three runs has two frames and plays all before them.
    fn export<R: Abort>(&self, rt: &R, alloc: Global) -> Answer {
        let at = self.edits;
        let (told, (bytes, sum)) = match self.pixmaps(rt, alloc, RANGE) {
            Ok(told) => (Ok((at, 3 * RANGE.0 as u64 + 12)), told),
            Err((frame, halt)) => {
                let nothing = Sum::new(0).told();
                (Err(Refused::Halted { at, frame, halt }), nothing)
            }
        };
        Answer::Export((told, bytes, sum))
    }

    /// The reply in a step; nothing where a job is taken, or where a further run of an export passes its gate.
    fn reply<R: Abort>(
        &mut self,
        rt: &R,
        alloc: Global,
        number: usize,
        step: Step,
    ) -> Option<Answer> {
        let seat = step.seat as usize;
        match step.action {
            Action::Start(near) => {
                self.start(rt, alloc, seat, near);
                None
            }
            Action::Offer => Some(self.offer(seat)),
            Action::Pass(_) if number == 0 => Some(self.export(rt, alloc)),
            Action::Pass(_) => None,
            Action::Edit(change) => Some(self.edit(rt, alloc, change)),
            Action::Len => Some(Answer::Len(Ok((self.edits, self.movie.inputs.len())))),
            Action::Shot(k) => Some(self.shot(rt, alloc, seat, k)),
            Action::Share => Some(self.share(rt, alloc, seat)),
        }
    }

    /// The replies in all steps.
    pub fn replies<R: Abort>(
        &mut self,
        rt: &R,
        alloc: Global,
        steps: &[Step],
    ) -> Vec<Option<Answer>> {
        let mut replies = Vec::new(alloc);
        for (number, step) in steps.iter().enumerate() {
            let reply = self.reply(rt, alloc, number, *step);
            expect_ok(rt, replies.push(reply));
        }
        replies
    }
}
