//! Seats that make all calls of a desk, each on a thread of its own. A call that is refused memory is made again.

use crate::desks::OpenGate;
use crate::runs::Heap;
use std::alloc::Allocator;
use std::sync::Wait;
use tas_desk::{
    CloseOnDrop, Desk, EditError, Name, OfferError, Offered, Receipt, Seat, Shot, ShotError,
    WorkError, Worked,
};
use tas_green::Batch;
use tas_movie::Edit;
use vcs_tia::Picture;

/// How many edits the history has before the callers begin.
pub const FIRST_AT: u64 = 3;

/// How many inputs the movie has then. Each edit of a caller puts in one more at place 64.
pub const FIRST_LEN: usize = 72;

/// The frame that is shot.
pub const FRAME: usize = 71;

/// A call of a caller.
#[derive(Clone, Copy)]
pub enum Turn {
    /// An edit.
    Edit,
    /// A shot of the frame.
    Shot,
    /// Work on two targets: 32 frames, and 64, after which a state is kept.
    Work,
    /// A share of what the desk keeps.
    Share,
    /// A job for 64 frames, and an offer of what it made.
    Offer,
}

/// The turns of each caller.
pub static TURNS: [[Turn; 6]; 3] = [
    [
        Turn::Edit,
        Turn::Work,
        Turn::Shot,
        Turn::Edit,
        Turn::Share,
        Turn::Shot,
    ],
    [
        Turn::Shot,
        Turn::Edit,
        Turn::Offer,
        Turn::Share,
        Turn::Edit,
        Turn::Shot,
    ],
    [
        Turn::Work,
        Turn::Share,
        Turn::Edit,
        Turn::Shot,
        Turn::Offer,
        Turn::Edit,
    ],
];

/// What the callers share.
#[derive(Drop)]
pub struct Shared<'s, 'a, N: Name, W: CloseOnDrop, R> {
    pub rt: &'s R,
    pub heap: &'a Heap,
    pub desk: &'s Desk<N, W, &'a Heap>,
    /// The sums over the picture of the frame after no edit of a caller, after one, and so on.
    pub sums: &'s [u64],
}

/// A seat with the edits that it will make, each of them twice, and what became of its calls.
#[derive(Drop)]
pub struct Caller<'a, N: Name> {
    /// Its calls, in order.
    pub turns: &'static [Turn; 6],
    pub seat: Seat<N, &'a Heap>,
    pub edits: Vec<Edit<&'a Heap>>,
    /// The batch that a refused offer handed back.
    pub held: Option<Batch<&'a Heap>>,
    /// The length of the longest history that it was told of.
    pub seen: u64,
    /// How many calls were refused memory.
    pub refused: u64,
    /// Whether each answer was right.
    pub is_right: bool,
}

impl<'a, N: Name> Caller<'a, N> {
    /// Whether a reply may stand at a history of this length: no shorter one than was seen before. It is seen then.
    fn sees(&mut self, at: u64) -> bool {
        let is_extended = self.seen <= at;
        self.seen = at;
        is_extended
    }

    /// An edit: whether it is made, after the history that was seen before it; nothing where memory is refused. The receipt of a
    /// refused one, given again, is the next one of the seat.
    fn edit<W: CloseOnDrop, R: Wait>(&mut self, shared: &Shared<'_, 'a, N, W, R>) -> Option<bool> {
        let Some(edit) = self.edits.pop() else {
            return Some(false);
        };
        let before = self.seen;
        match shared.desk.edit(shared.rt, &mut self.seat, edit) {
            Ok(Receipt { at, len }) => Some(before < at && self.sees(at) && is_len(at, len)),
            Err(EditError::Memory) => None,
            Err(_) => Some(false),
        }
    }

    /// Whether the movie's length is right.
    pub fn looks<W: CloseOnDrop, R>(&mut self, shared: &Shared<'_, 'a, N, W, R>) -> bool {
        match shared.desk.len(&mut self.seat) {
            Ok((at, len)) => self.sees(at) && is_len(at, len),
            Err(_) => false,
        }
    }

    /// A shot: whether it is right; nothing where memory is refused.
    pub fn shot<W: CloseOnDrop, R>(&mut self, shared: &Shared<'_, 'a, N, W, R>) -> Option<bool> {
        match shared.desk.shot(shared.heap, &mut self.seat, FRAME) {
            Ok(shot) => Some(self.sees(shot.at) && is_drawn(&shot, shared.sums)),
            Err(ShotError::Memory) => None,
            Err(_) => Some(false),
        }
    }

    /// Work: whether it is right, or what was done for the targets before a refusal is told; nothing where memory is refused.
    fn work<W: CloseOnDrop, R: Wait>(&mut self, shared: &Shared<'_, 'a, N, W, R>) -> Option<bool> {
        let (rt, heap) = (shared.rt, shared.heap);
        match shared
            .desk
            .work(rt, heap, &mut self.seat, &[32, 64], &OpenGate)
        {
            Ok(Worked { jobs, kept, stale }) => Some(jobs == 2 && kept <= 1 && stale == 0),
            Err(WorkError::Memory { done }) if is_begun(done) => None,
            Err(_) => Some(false),
        }
    }

    /// A share: whether the seat's zone gains what is reported; nothing where memory is refused.
    fn share<W: CloseOnDrop, R: Wait>(&mut self, shared: &Shared<'_, 'a, N, W, R>) -> Option<bool> {
        let kept = self.seat.kept();
        match shared.desk.share(shared.rt, &mut self.seat) {
            Ok(gained) => Some(gained == self.seat.kept().saturating_sub(kept)),
            Err(_) => None,
        }
    }

    /// The batch that is held, or what a job for 64 frames makes; nothing where memory is refused.
    fn batch<W: CloseOnDrop, R: Wait>(
        &mut self,
        shared: &Shared<'_, 'a, N, W, R>,
    ) -> Option<Batch<&'a Heap>> {
        if self.held.is_some() {
            return self.held.take();
        }
        match shared.desk.job(shared.rt, shared.heap, &mut self.seat, 64) {
            Ok(job) => Some(job.run()),
            Err(_) => None,
        }
    }

    /// An offer of this batch: whether it is taken; nothing where memory is refused, and then the batch is held.
    fn offer<W: CloseOnDrop, R: Wait>(
        &mut self,
        shared: &Shared<'_, 'a, N, W, R>,
        batch: Batch<&'a Heap>,
    ) -> Option<bool> {
        match shared.desk.offer(shared.rt, &mut self.seat, batch) {
            Ok(offered) => Some(self.sees(offered.at) && is_taken(offered)),
            Err(OfferError::Memory(batch)) => {
                self.held = Some(batch);
                None
            }
            Err(OfferError::Cartridge { .. }) => Some(false),
        }
    }

    /// A turn: whether its answer is right; nothing where memory is refused.
    fn try_turn<W: CloseOnDrop, R: Wait>(
        &mut self,
        shared: &Shared<'_, 'a, N, W, R>,
        turn: Turn,
    ) -> Option<bool> {
        match turn {
            Turn::Edit => self.edit(shared),
            Turn::Shot => self.shot(shared),
            Turn::Work => self.work(shared),
            Turn::Share => self.share(shared),
            Turn::Offer => match self.batch(shared) {
                Some(batch) => self.offer(shared, batch),
                None => None,
            },
        }
    }

    /// A turn, and where it is refused memory the same again: whether each answer was right. A refused one leaves movie and zone.
    fn take<W: CloseOnDrop, R: Wait>(
        &mut self,
        shared: &Shared<'_, 'a, N, W, R>,
        turn: Turn,
    ) -> bool {
        let kept = self.seat.kept();
        let mut answer = self.try_turn(shared, turn);
        if answer.is_none() {
            self.refused = self.refused.saturating_add(1);
            if self.seat.kept() != kept || !self.looks(shared) {
                return false;
            }
            answer = self.try_turn(shared, turn);
        } else if matches!(turn, Turn::Edit) {
            drop(self.edits.pop());
        }
        answer == Some(true)
    }

    /// Its turns in order, up to the first one with an answer that isn't right.
    pub fn take_all<W: CloseOnDrop, R: Wait>(&mut self, shared: &Shared<'_, 'a, N, W, R>) {
        let turns = self.turns;
        for turn in turns {
            self.is_right = self.is_right && self.take(shared, *turn);
        }
    }
}

/// Whether one of two targets was worked at most, with no state kept.
fn is_begun(done: Worked) -> bool {
    done.jobs <= 1 && done.kept == 0 && done.stale == 0
}

/// How many edits of callers a history of this length has.
pub fn edits_in(at: u64) -> usize {
    at.saturating_sub(FIRST_AT) as usize
}

/// Whether the movie has this length at a history of that one.
fn is_len(at: u64, len: usize) -> bool {
    FIRST_AT <= at && len == FIRST_LEN.saturating_add(edits_in(at))
}

/// Whether a picture is the movie's, by the sums over those of the frame after no edit, after one, and so on.
fn is_drawn(shot: &Shot<&Heap>, sums: &[u64]) -> bool {
    shot.frame == FRAME && sums.get(edits_in(shot.at)) == Some(&sum_of(&shot.picture))
}

/// A sum over a picture's pixels, in their order.
pub fn sum_of<A: Allocator>(picture: &Picture<A>) -> u64 {
    let mut sum = 0u64;
    for row in 0..210 {
        for x in 0..160 {
            sum = sum
                .wrapping_mul(31)
                .wrapping_add(u64::from(picture.pixel(row, x)));
        }
    }
    sum
}

/// Whether a batch of 64 frames was taken: no edit changes these.
fn is_taken(offered: Offered) -> bool {
    offered.front == 64 && offered.kept <= 1
}
