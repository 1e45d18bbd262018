//! Desks: after each refusal history, movie and zones are as they were, and the same call is right.

use crate::checks::{check_same, expect_ok, expect_some};
use crate::desks::{OpenGate, Place, run_call};
use crate::edits::{Change, edit_of};
use crate::fixtures::{BRIEF, has_lacked, image, played, right};
use crate::plans::Append;
use crate::runs::{Heap, NEVER, NOT_AS_BEFORE, NOT_TOLD, Run, count_growths, is_over, refuse};
use std::alloc::{AllocError, Global};
use std::process::Abort;
use std::sync::Wait;
use tas_desk::{
    CloseOnDrop, CommitError, EditError, Name, OfferError, Offered, Receipt, Shot, ShotError,
    StateError, Stroke, WorkError, Worked,
};
use tas_green::Batch;
use tas_movie::Inputs;
use vcs_machine::{Cart, Input, State};

/// A call at a desk.
#[derive(Clone, Copy)]
pub enum Call {
    /// A desk with two seats is made, and not opened yet.
    Make,
    /// It is opened.
    Open,
    /// Seat 1 makes an edit, its first.
    Edit(Change),
    /// Seat 1 makes an edit that depends on the movie, its first.
    EditBy,
    /// Seat 1 makes two edits as one step, its first.
    Commit,
    /// Seat 1 asks for the whole history.
    History,
    /// Seat 1, whose zone is that of the blank movie, shoots frame 383.
    FirstShot,
    /// Seat 0, whose zone keeps two states of the movie, shoots frame 383.
    Shot,
    /// Seat 1, whose zone is that of the blank movie, shows frame 383 from its window.
    FirstPicture,
    /// Seat 0, whose zone keeps two states of the movie, does.
    Picture,
    /// Seat 1, whose zone is that of the blank movie, asks for the machine in which frame 384 begins.
    FirstState,
    /// Seat 0, whose zone keeps two states of the movie, does.
    State,
    /// The view of seat 0, which keeps two states of the movie, is copied.
    CopyView,
    /// Seat 1, whose zone is empty, shares the desk's two states.
    Share,
    /// Seat 1 takes a job for all 400 frames.
    Job,
    /// Seat 1 offers what a job for all frames made.
    Offer,
    /// Seat 1 works two targets.
    Work,
    /// Seat 1 works two targets of the playfield, with no state kept.
    TwoJobs,
}

/// In each of these calls the growth of the given number is refused.
impl<'a, N: Name, W: CloseOnDrop, R: Wait + Abort> Place<'_, 'a, N, W, R> {
    /// An edit: whether it is the fifth, and the movie has this length then.
    fn edit(&mut self, change: Change, number: u64) -> Result<bool, AllocError> {
        let edit = expect_ok(self.rt, edit_of(self.heap, change));
        let len = change.len_after(400);
        refuse(self.heap, number);
        match self.desk.edit(self.rt, self.seat, edit) {
            Ok(receipt) => {
                let is_fifth = receipt == Receipt { at: 5, len };
                Ok(is_fifth && self.desk.len(self.seat) == Ok((5, len)))
            }
            Err(EditError::Memory) => Err(AllocError),
            Err(_) => Ok(false),
        }
    }

    /// An edit that depends on the movie: whether it is the fifth, and three inputs stand after the others then.
    fn edit_by(&mut self, number: u64) -> Result<bool, AllocError> {
        let input = right();
        refuse(self.heap, number);
        let append = Append { input, count: 3 };
        match self.desk.edit_by(self.rt, self.seat, &append) {
            Ok(receipt) => {
                let last = self.desk.input(self.seat, 402);
                Ok(receipt == Receipt { at: 5, len: 403 } && last == Ok((5, input)))
            }
            Err(EditError::Memory) => Err(AllocError),
            Err(_) => Ok(false),
        }
    }

    /// Two edits as one step: whether they are the fifth and the sixth, and the movie has the inputs of both then.
    fn commit(&mut self, number: u64) -> Result<bool, AllocError> {
        let last = expect_ok(self.rt, edit_of(self.heap, Change::Insert(400, 3)));
        let first = expect_ok(self.rt, edit_of(self.heap, Change::Insert(0, 2)));
        refuse(self.heap, number);
        let stroke = Stroke::Two(last, first);
        match self.desk.commit(self.rt, self.seat, 4, stroke) {
            Ok(receipt) => {
                let are_last = receipt == Receipt { at: 6, len: 405 };
                Ok(are_last && self.desk.len(self.seat) == Ok((6, 405)))
            }
            Err(CommitError::Refused(EditError::Memory)) => Err(AllocError),
            Err(_) => Ok(false),
        }
    }

    /// The history: whether it has four entries, all of which are there.
    fn history(&mut self, number: u64) -> Result<bool, AllocError> {
        refuse(self.heap, number);
        match self.desk.history(self.rt, self.heap, self.seat, 0, 9) {
            Ok(told) => Ok(told.at == 4 && told.entries.len() == 4),
            Err(error) => Err(error),
        }
    }

    /// A shot: whether it is of a black frame, after this many frames were played, and the seat's zone keeps six states then.
    fn shot(&mut self, ran: u64, number: u64) -> Result<bool, AllocError> {
        refuse(self.heap, number);
        let answer = self.desk.shot(self.heap, self.seat, 383);
        is_shown(answer, ran, self.seat.kept())
    }

    /// The same of a picture by zone and window.
    fn picture(&mut self, ran: u64, number: u64) -> Result<bool, AllocError> {
        refuse(self.heap, number);
        let answer = self.desk.picture(self.heap, self.seat, 383);
        is_shown(answer, ran, self.seat.kept())
    }

    /// The machine after the movie's first 384 frames, played from power-on, in memory that isn't refused.
    fn end(&self) -> State {
        let cart = expect_ok(self.rt, Cart::from_bytes(self.heap, &image(BRIEF)));
        let inputs = expect_ok(self.rt, Inputs::repeated(self.heap, Input::none(), 384));
        played(&cart, inputs.as_slice(), 384)
    }

    /// The machine in which frame 384 begins: whether it is right, after this many frames were played, and the seat's zone keeps six
    /// states then.
    fn state(&mut self, ran: u64, number: u64) -> Result<bool, AllocError> {
        let end = self.end();
        refuse(self.heap, number);
        match self.desk.state_for(self.seat, 384, 400) {
            Ok(reached) => {
                let is_told = reached.at == 4 && reached.ran == ran;
                Ok(is_told && reached.state == end && self.seat.kept() == 6)
            }
            Err(StateError::Memory) => Err(AllocError),
            Err(_) => Ok(false),
        }
    }

    /// A copy of the seat's view: whether it keeps the two states that the zone keeps, as before.
    fn copy_view(&mut self, number: u64) -> Result<bool, AllocError> {
        refuse(self.heap, number);
        let copy = self.seat.view().copy(self.heap)?;
        let has_both = copy.count() == 2 && copy.holds(64) && copy.holds(128);
        Ok(has_both && copy.movie().len() == 400 && self.zone() == (2, 400))
    }

    /// A share: whether the seat's zone gains the desk's two states.
    fn share(&mut self, number: u64) -> Result<bool, AllocError> {
        refuse(self.heap, number);
        match self.desk.share(self.rt, self.seat) {
            Ok(gained) => Ok(gained == 2 && self.seat.kept() == 2),
            Err(error) => Err(error),
        }
    }

    /// A job: whether it makes what one for all frames does.
    fn job(&mut self, number: u64) -> Result<bool, AllocError> {
        refuse(self.heap, number);
        match self.desk.job(self.rt, self.heap, self.seat, 400) {
            Ok(job) => Ok(is_of_all(&job.run())),
            Err(error) => Err(error),
        }
    }

    /// An offer of the batch that is held: whether it gains what it should. Out of memory, the batch that was handed back is held.
    fn offer(&mut self, held: &mut Option<Batch>, number: u64) -> Result<bool, AllocError> {
        let batch = expect_some(self.rt, held.take());
        refuse(self.heap, number);
        match self.desk.offer(self.rt, self.seat, batch) {
            Ok(offered) => Ok(offered == ALL),
            Err(OfferError::Memory(batch)) => {
                *held = Some(batch);
                Err(AllocError)
            }
            Err(OfferError::Cartridge { .. }) => Ok(false),
        }
    }

    /// How many states the seat's zone keeps, and how many inputs its movie has.
    fn zone(&self) -> (usize, usize) {
        (self.seat.kept(), self.seat.zone_movie().len())
    }

    /// Whether history and movie are as before the call, and so are the zones: the seat's is this one, and the desk's keeps two states,
    /// so that a job starts at the second of them.
    fn is_as_before(&mut self, alloc: Global, zone: (usize, usize)) -> bool {
        let batch = self.batch(alloc, 400);
        let is_kept = starts_at_the_second(&batch) && self.zone() == zone;
        is_kept && self.desk.len(self.seat) == Ok((4, 400))
    }

    /// The call with this growth refused: whether it is right, where memory isn't refused.
    fn take(
        &mut self,
        held: &mut Option<Batch>,
        call: Call,
        number: u64,
    ) -> Result<bool, AllocError> {
        match call {
            Call::Edit(change) => self.edit(change, number),
            Call::EditBy => self.edit_by(number),
            Call::Commit => self.commit(number),
            Call::History => self.history(number),
            Call::FirstShot => self.shot(384, number),
            Call::Shot => self.shot(256, number),
            Call::FirstPicture => self.picture(384, number),
            Call::Picture => self.picture(256, number),
            Call::FirstState => self.state(384, number),
            Call::State => self.state(256, number),
            Call::CopyView => self.copy_view(number),
            Call::Share => self.share(number),
            Call::Job => self.job(number),
            Call::Offer => self.offer(held, number),
            _ => Ok(false),
        }
    }

    /// A call that leaves all as it was where memory is refused: it with one growth refused, and the same call after it. A batch of
    /// all frames is held before it.
    fn take_twice(&mut self, alloc: Global, call: Call, number: u64) -> Run {
        let mut held = Some(self.batch(alloc, 400));
        let zone = self.zone();
        let mut answer = self.take(&mut held, call, number);
        let has_refused = self.heap.has_refused();
        if has_refused {
            if answer.is_ok() {
                return NOT_TOLD;
            }
            if !self.is_as_before(alloc, zone) {
                return NOT_AS_BEFORE;
            }
            answer = self.take(&mut held, call, NEVER);
        }
        Run::ended(has_refused, matches!(answer, Ok(true)))
    }

    /// Work on two targets, 192 and 384: what was done before a refusal stays, and is told.
    fn try_work(&mut self, number: u64) -> Run {
        refuse(self.heap, number);
        let answer = self.work(&[192, 384]);
        if !self.heap.has_refused() {
            return Run::ended(false, answer == Ok(worked(2, 4)));
        }
        let kept = match answer {
            Err(WorkError::Memory { done }) if done == worked(0, 0) => 0,
            Err(WorkError::Memory { done }) if done == worked(1, 1) => 1,
            _ => return Run::Wrong("what was done isn't told"),
        };
        let again = self.work(&[192, 384]);
        Run::ended(true, again == Ok(worked(2, 4 - kept)))
    }

    /// Work on the targets 64 and 192, with a growth of the second job refused: the first one's state stays.
    fn try_two_jobs(&mut self, number: u64) -> Run {
        refuse(self.heap, number);
        let done = worked(1, 1);
        let answer = self.work(&[64, 192]);
        if answer != Err(WorkError::Memory { done }) {
            return Run::Wrong("the first job isn't told");
        }
        let again = self.work(&[64, 192]);
        Run::ended(self.heap.has_refused(), again == Ok(worked(2, 2)))
    }

    /// Work on these targets, whose gate is open.
    fn work(&mut self, targets: &[usize]) -> Result<Worked, WorkError> {
        self.desk
            .work(self.rt, self.heap, self.seat, targets, &OpenGate)
    }
}

/// Whether a black frame is shown, played so many, and the zone keeps six states then.
fn is_shown(
    answer: Result<Shot<&Heap>, ShotError>,
    ran: u64,
    kept: usize,
) -> Result<bool, AllocError> {
    match answer {
        Ok(shot) => {
            let is_told = shot.at == 4 && shot.ran == ran;
            Ok(is_told && shot.picture.lit() == 0 && kept == 6)
        }
        Err(ShotError::Memory) => Err(AllocError),
        Err(_) => Ok(false),
    }
}

/// Whether a batch is of all frames, and has the states that a zone with two of them lacks.
fn is_of_all(batch: &Batch<&Heap>) -> bool {
    batch.inputs().len() == 400 && has_lacked(batch)
}

/// What an offer of all frames gains.
const ALL: Offered = Offered {
    at: 4,
    front: 400,
    kept: 4,
};

/// Whether the job that made a batch started at the second of the states that are kept.
fn starts_at_the_second(batch: &Batch) -> bool {
    !batch.holds(128) && batch.holds(192)
}

/// This many jobs, none of them stale, and this many states.
const fn worked(jobs: usize, kept: usize) -> Worked {
    Worked {
        jobs,
        kept,
        stale: 0,
    }
}

/// The call with one growth refused, and the same call after it.
pub fn take_call<N: Name, W: CloseOnDrop, R: Wait + Abort>(
    place: &mut Place<'_, '_, N, W, R>,
    alloc: Global,
    call: Call,
    number: u64,
) -> Run {
    match call {
        Call::Work => place.try_work(number),
        Call::TwoJobs => place.try_two_jobs(number),
        _ => place.take_twice(alloc, call, number),
    }
}

/// Each call, and how many growths it has. An edit has those of its second copy and of the journal, as in a session; one that depends on the movie has that of its inputs,
/// too, and a step of two those of both second copies and of the journal. The history has its list, and those of a cartridge and of two lists of inputs. A shot and a picture have that of the picture; the first one copies a movie before, which has two, and so do the first state and a share. A
/// state has none else: a zone takes the room of its lists when it is made. A copy of a view has those of its movie, two, and of its two
/// lists. A job has those of its cartridge, its inputs and its list of states, an offer that of the desk's list, and work on two targets those of two
/// jobs and of the list.
static CALLS: [(Call, &str, u64); 18] = [
    (Call::Edit(Change::Load), "Edit(Load)", 2),
    (
        Call::Edit(Change::Insert(400, 3)),
        "Edit(Insert(400, 3))",
        2,
    ),
    (
        Call::Edit(Change::ReplaceRight(399, 1)),
        "Edit(ReplaceRight(399, 1))",
        2,
    ),
    (
        Call::Edit(Change::Delete(100, 7)),
        "Edit(Delete(100, 7))",
        1,
    ),
    (Call::EditBy, "EditBy", 3),
    (Call::Commit, "Commit", 3),
    (Call::History, "History", 4),
    (Call::FirstShot, "FirstShot", 3),
    (Call::Shot, "Shot", 1),
    (Call::FirstPicture, "FirstPicture", 3),
    (Call::Picture, "Picture", 1),
    (Call::FirstState, "FirstState", 2),
    (Call::State, "State", 0),
    (Call::CopyView, "CopyView", 4),
    (Call::Share, "Share", 2),
    (Call::Job, "Job", 3),
    (Call::Offer, "Offer", 1),
    (Call::Work, "Work", 7),
];

/// How many growths the call of this name has, each of which is refused in turn.
fn growths_of<R: Wait + Abort>(rt: &R, alloc: Global, call: Call, name: &str) -> u64 {
    count_growths(|number| is_over(rt, (name, number), run_call(rt, alloc, call, number)))
}

#[test]
fn what_a_desk_does(rt: HostRuntime) {
    for row in CALLS.iter() {
        let (call, name, growths) = *row;
        let found = growths_of(&rt, rt.alloc(), call, name);
        check_same(&rt, name, found, growths);
    }
}

/// A job for frames has three growths, and the first state that is kept has one.
#[test]
fn a_second_job_that_is_refused(rt: HostRuntime) {
    let run = run_call(&rt, rt.alloc(), Call::TwoJobs, 5);
    check_same(&rt, "run", run, Run::Refused);
}

/// The zones of both seats have a blank movie, with two growths, and two lists of states, and the list of the seats has one.
#[test]
fn the_opening_of_a_desk(rt: HostRuntime) {
    let refused = growths_of(&rt, rt.alloc(), Call::Open, "Open");
    check_same(&rt, "refused", refused, 9);
}

/// Those of a new session: more places for readers are more room, and no more growths.
#[test]
fn a_desk_to_be_opened(rt: HostRuntime) {
    let refused = growths_of(&rt, rt.alloc(), Call::Make, "Make");
    check_same(&rt, "refused", refused, 12);
}
