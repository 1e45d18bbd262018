//! Schedules: who does what in which step.

use crate::answers::{Answered, Export};
use crate::changes::{BRIEF_FOLDING, Change, HALTING};
use crate::checks::expect_ok;
use std::alloc::Global;
use std::process::Abort;
use tas_desk::{EditError, NoEntry, Receipt, ShotError, WorkError, Worked};

/// What a seat does in a step.
#[derive(Clone, Copy)]
pub enum Action {
    /// It takes a job for this many frames, which then waits in its gate.
    Start(usize),
    /// The job is run, and its batch offered.
    Offer,
    /// The run of this number of its export passes its gate.
    Pass(usize),
    /// It makes an edit.
    Edit(Change),
    /// It asks for the length.
    Len,
    /// It asks for a picture.
    Shot(usize),
    /// It gains what the desk keeps.
    Share,
}

/// A step of a schedule.
#[derive(Clone, Copy)]
pub struct Step {
    pub seat: u32,
    pub action: Action,
}

/// What is reported in a step.
#[derive(Clone, Copy, Debug, PartialEq, Eq)]
pub enum Answer {
    /// To an edit.
    Edit(Result<Receipt, EditError>),
    /// How many edits and inputs there are.
    Len(Result<(u64, usize), NoEntry>),
    /// A picture: how many edits there are, its frame, how many frames were played, and its image's bytes and the sum over them.
    Shot(u64, usize, u64, (usize, u64)),
    /// No picture.
    NotDrawn(ShotError),
    /// How many states were taken over.
    Share(usize),
    /// To a work.
    Work(Result<Worked, WorkError>),
    /// To an offer.
    Offer(Answered),
    /// To an export.
    Export(Export),
}

/// The seat that exports. Those before it take jobs.
pub const EXPORTER: u32 = 3;

/// How many frames the jobs of seats 0, 1 and 2 are for.
const TARGETS: [usize; 3] = [192, 130, 200];

/// Three things in each order.
pub const ORDERS: [[u32; 3]; 6] = [
    [0, 1, 2],
    [0, 2, 1],
    [1, 0, 2],
    [1, 2, 0],
    [2, 0, 1],
    [2, 1, 0],
];

/// Edits and loads of a movie of 200 frames of `BRIEF_FOLDING`.
const CHANGES: [Change; 6] = [
    Change::ReplaceRight(100),
    Change::InsertRight(150, 3),
    Change::Load(HALTING),
    Change::Load(BRIEF_FOLDING),
    Change::Delete(10, 5),
    Change::ReplaceRight(70),
];

/// What other seats do between the steps of jobs and exports: an edit, and then one of these.
const LOOKS: [Step; 6] = [
    Step {
        seat: 6,
        action: Action::Shot(190),
    },
    Step {
        seat: 7,
        action: Action::Share,
    },
    Step {
        seat: 6,
        action: Action::Len,
    },
    Step {
        seat: 7,
        action: Action::Shot(99),
    },
    Step {
        seat: 5,
        action: Action::Share,
    },
    Step {
        seat: 6,
        action: Action::Shot(130),
    },
];

/// Puts in the edit of this number and the look that follows it.
fn push_between<R: Abort>(rt: &R, steps: &mut Vec<Step>, number: usize, shift: usize) {
    let change = CHANGES[number.wrapping_add(shift) % 6];
    let seat = if number % 2 == 0 { 4 } else { 5 };
    let edit = Step {
        seat,
        action: Action::Edit(change),
    };
    expect_ok(rt, steps.push(edit));
    expect_ok(rt, steps.push(LOOKS[number % 6]));
}

/// Three jobs that are taken in one order and offered in another, with edits, loads and looks between; the changes begin with
/// the one of this number.
pub fn job_steps<R: Abort>(
    rt: &R,
    alloc: Global,
    starts: [u32; 3],
    offers: [u32; 3],
    shift: usize,
) -> Vec<Step> {
    let mut steps = Vec::new(alloc);
    for (number, seat) in starts.iter().enumerate() {
        let target = TARGETS[(*seat % 3) as usize];
        let start = Step {
            seat: *seat,
            action: Action::Start(target),
        };
        expect_ok(rt, steps.push(start));
        push_between(rt, &mut steps, number, shift);
    }
    for (number, seat) in offers.iter().enumerate() {
        let offer = Step {
            seat: *seat,
            action: Action::Offer,
        };
        expect_ok(rt, steps.push(offer));
        push_between(rt, &mut steps, number.wrapping_add(3), shift);
    }
    steps
}

/// An export whose three runs pass their gates in an order, with edits, loads and looks between.
pub fn export_steps<R: Abort>(rt: &R, alloc: Global, order: [u32; 3], shift: usize) -> Vec<Step> {
    let mut steps = Vec::new(alloc);
    for (number, run) in order.iter().enumerate() {
        let pass = Step {
            seat: EXPORTER,
            action: Action::Pass(*run as usize),
        };
        expect_ok(rt, steps.push(pass));
        push_between(rt, &mut steps, number, shift);
    }
    steps
}

/// The number of the step in which this seat's job is offered.
pub fn offer_of(steps: &[Step], seat: u32) -> Option<usize> {
    steps.iter().position(|step| step.seat == seat && matches!(step.action, Action::Offer))
}

/// The number of the step in which the export's run of this number passes its gate.
pub fn pass_of(steps: &[Step], run: usize) -> Option<usize> {
    steps.iter().position(|step| matches!(step.action, Action::Pass(number) if number == run))
}
