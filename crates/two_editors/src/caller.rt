//! A caller of the desk: a seat, what it does, and what it saw.

use crate::cartridge::playfield_cart;
use anyhow::Result;
use std::alloc::{AllocError, Global};
use std::mem;
use std::sync::Wait;
use tas_desk::{CloseOnDrop, Desk, Gate, Name, Seat, Shot};
use tas_movie::{Edit, Inputs};
use vcs_machine::Input;

/// What a caller does.
#[derive(Clone, Copy, Debug)]
pub enum Role {
    /// It makes the movie, and holds the left stick to the right.
    LeftEditor,
    /// It puts frames of fire at the movie's end.
    RightEditor,
    /// It looks at pictures, and waits for nobody.
    Viewer,
    /// It plays frames ahead, outside the lock, so that others reach them sooner.
    Worker,
}

/// Work isn't held up.
#[derive(Drop)]
struct NoGate;

impl Gate for NoGate {
    fn pass(&self, _piece: usize) {}
}

/// A seat with its role.
#[derive(Drop)]
pub struct Caller<N: Name> {
    /// The seat, which goes to a thread and comes back.
    pub seat: Seat<N>,
    role: Role,
    /// What it saw in this round, or why it couldn't.
    saw: Result<Option<String>>,
}

impl<N: Name> Caller<N> {
    /// A caller that has seen nothing.
    pub fn new(seat: Seat<N>, role: Role) -> Caller<N> {
        Caller {
            seat,
            role,
            saw: Ok(None),
        }
    }

    /// Does what its role has for this round, and keeps what it saw.
    pub fn take_turn<W: CloseOnDrop, R: Wait>(
        &mut self,
        rt: &R,
        alloc: Global,
        desk: &Desk<N, W>,
        round: usize,
    ) {
        let saw = self.turn(rt, alloc, desk, round);
        self.saw = saw;
    }

    /// Prints what it saw in this round, if it did something.
    pub fn report<R: Print>(&mut self, rt: &R, round: usize) -> Result<()> {
        let saw = mem::replace(&mut self.saw, Ok(None))?;
        if let Some(saw) = saw {
            println!(rt; "round {round}, {:?}: {saw}", self.role)?;
        }
        Ok(())
    }

    /// Does what its role has for this round.
    fn turn<W: CloseOnDrop, R: Wait>(
        &mut self,
        rt: &R,
        alloc: Global,
        desk: &Desk<N, W>,
        round: usize,
    ) -> Result<Option<String>> {
        match (round, self.role) {
            (0, Role::LeftEditor) => self.make_movie(rt, alloc, desk),
            (1, Role::LeftEditor) => self.edit(rt, alloc, desk, hold_right(alloc)?),
            (1, Role::Worker) => self.work(rt, alloc, desk, &[64, 128]),
            (1, Role::Viewer) => self.look(alloc, desk, 100),
            (2, Role::RightEditor) => self.edit(rt, alloc, desk, add_fire(alloc)?),
            (2, Role::Viewer) => self.look_ahead(rt, alloc, desk, 140),
            _ => Ok(None),
        }
    }

    /// Puts the cartridge in, and 200 frames in which nothing is pressed.
    fn make_movie<W: CloseOnDrop, R: Wait>(
        &mut self,
        rt: &R,
        alloc: Global,
        desk: &Desk<N, W>,
    ) -> Result<Option<String>> {
        let cart = playfield_cart(alloc)?;
        desk.edit(rt, &mut self.seat, Edit::Load(cart))?;
        self.edit(rt, alloc, desk, add_frames(alloc)?)
    }

    /// Makes an edit.
    fn edit<W: CloseOnDrop, R: Wait>(
        &mut self,
        rt: &R,
        alloc: Global,
        desk: &Desk<N, W>,
        edit: Edit,
    ) -> Result<Option<String>> {
        let made = desk.edit(rt, &mut self.seat, edit)?;
        Ok(Some(format!(in alloc; "edit {}, {} frames", made.at, made.len)?))
    }

    /// Plays up to these frames. The edit of the same round is after them, so their states stay valid.
    fn work<W: CloseOnDrop, R: Wait>(
        &mut self,
        rt: &R,
        alloc: Global,
        desk: &Desk<N, W>,
        frames: &[usize],
    ) -> Result<Option<String>> {
        let worked = desk.work(rt, alloc, &mut self.seat, frames, &NoGate)?;
        Ok(Some(format!(in alloc; "{} jobs, {} states", worked.jobs, worked.kept)?))
    }

    /// Draws a frame. It takes no lock.
    fn look<W: CloseOnDrop>(
        &mut self,
        alloc: Global,
        desk: &Desk<N, W>,
        frame: usize,
    ) -> Result<Option<String>> {
        let shot = desk.shot(alloc, &mut self.seat, frame)?;
        Ok(Some(describe(alloc, &shot)?))
    }

    /// Takes the states that the worker made, and draws a frame from the nearest of them.
    fn look_ahead<W: CloseOnDrop, R: Wait>(
        &mut self,
        rt: &R,
        alloc: Global,
        desk: &Desk<N, W>,
        frame: usize,
    ) -> Result<Option<String>> {
        let gained = desk.share(rt, &mut self.seat)?;
        let shot = desk.shot(alloc, &mut self.seat, frame)?;
        let drawn = describe(alloc, &shot)?;
        Ok(Some(format!(in alloc; "{gained} state gained; {drawn}")?))
    }
}

/// 200 frames in which nothing is pressed.
fn add_frames(alloc: Global) -> Result<Edit, AllocError> {
    let inputs = Inputs::repeated(alloc, Input::none(), 200)?;
    Ok(Edit::Insert { at: 0, inputs })
}

/// Holds the left stick to the right in frames 150 to 159.
fn hold_right(alloc: Global) -> Result<Edit, AllocError> {
    let mut input = Input::none();
    input.left.right = true;
    let inputs = Inputs::repeated(alloc, input, 10)?;
    Ok(Edit::Replace { at: 150, inputs })
}

/// Presses fire in 20 frames after the last one.
fn add_fire(alloc: Global) -> Result<Edit, AllocError> {
    let mut input = Input::none();
    input.right.fire = true;
    let inputs = Inputs::repeated(alloc, input, 20)?;
    Ok(Edit::Insert { at: 200, inputs })
}

/// A picture in words.
fn describe(alloc: Global, shot: &Shot) -> Result<String, AllocError> {
    let lit = shot.picture.lit();
    format!(in alloc;
        "frame {} after {} frames played, {lit} pixels lit",
        shot.frame, shot.ran
    )
}
