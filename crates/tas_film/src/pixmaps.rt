//! Pixmaps of frames, one after the other.
//!
//! The workers make the pixmaps, so the caller's thread only writes bytes: while one thread made them, it bounded what
//! more workers could save. It takes 103 MB for 1,024 frames (100,815 bytes each), since nothing may be written before
//! the last frame is drawn. A run's pixmaps are one reserved block that its worker is the first to touch. A run can end
//! with `Memory` where a write to that list fails. None does, but `ppm` is proved for every writer, and no clause of a
//! writer says when it succeeds.

ghost use Rattle.std.specs.Prelude.{◌≡◌, ◌+◌, ◌^◌, ◌<◌, ◌≤◌, ◌++◌, List, ℕ, [], length, IfOk, IfErr, OnOk};
ghost use Rattle.vcs_tia.specs.Image.{ppm_bytes};
ghost use Rattle.tas_movie.specs.Content.{most_inputs};
ghost use Rattle.tas_green.specs.Run.{state_after, picture_of};
ghost use Rattle.tas_film.specs.Frames.{IsDrawn, IsStopAt};

use std::alloc::{AllocError, Allocator};
use std::marker::Model;
use tas_movie::Movie;
use vcs_cpu::Halt;
use vcs_machine::{Meter, State, play};
use vcs_tia::{PIXMAP_SIZE, Picture, ppm};

/// A frame in which the machine is halted.
#[derive(Clone, Copy)]
pub struct HaltedFrame {
    /// The frame, counted from 0.
    pub frame: usize,
    /// The halt.
    pub halt: Halt,
}

/// Why frames weren't drawn to the last one.
#[derive(Clone, Copy)]
pub enum Stop {
    /// A frame is halted.
    Halted(HaltedFrame),
    /// Memory was refused.
    Memory,
}

/// Portable pixmaps, one after the other, in room that was there before the first frame was played.
#[derive(Drop)]
pub struct Pixmaps<A: Allocator> {
    picture: Picture<A>,
    bytes: Vec<u8, A>,
}

impl<A: Allocator> Model for Pixmaps<A> {
    ghost Value = { List ℕ };

    ghost view = { λ p. p.bytes.items };
}

impl<A: Allocator + Copy> Pixmaps<A> {
    /// No pixmap yet, and room for those of this many frames.
    pub fn new(alloc: A, frames: usize) -> Result<Pixmaps<A>, AllocError>
        requires { frames ≤ most_inputs }
        ensures { IfOk result (λ pixmaps. pixmaps ≡ []) }
    {
        let picture = Picture::blank(alloc)?;
        let bytes = Vec::with_capacity(alloc, frames * PIXMAP_SIZE)?;
        Ok(Pixmaps { picture, bytes })
    }
}

impl<A: Allocator> Pixmaps<A> {
    /// The bytes of all pixmaps.
    pub fn bytes(&self) -> &[u8]
        ensures { result.now ≡ self.now }
    {
        self.bytes.as_slice()
    }

    /// Plays a frame and appends its pixmap. There is room for it, so memory isn't refused where no more frames
    /// are appended than it was made for; no clause of a writer says so.
    pub fn append_frame<B: Allocator>(
        &mut self,
        movie: &Movie<B>,
        frame: usize,
        state: &mut State,
        meter: &mut Meter,
    ) -> Result<(), Stop>
        requires within { frame < length movie.now.inputs }
        requires start { state.old ≡ state_after movie.now frame }
        requires meter { meter.old + 1 < 2 ^ 64 }
        ensures drawn { OnOk result (IsDrawn movie.now frame) }
        ensures state { OnOk result (state.new ≡ state_after movie.now (frame + 1)) }
        ensures pixmap { OnOk result
            (self.new ≡ self.old ++ ppm_bytes (picture_of movie.now frame)) }
        // A frame that is played and halted is reported as halted and as nothing else.
        // Refused: halted_frame_is_reported_as_out_of_memory, export_names_the_frame_before_a_halt.
        ensures stop { IfErr result (IsStopAt movie.now frame) }
        ensures meter { meter.new ≡ meter.old + 1 }
    {
        let inputs = movie.inputs();
        if let Err(halt) = play(movie.cart(), state, inputs[frame], &mut self.picture, meter) {
            return Err(Stop::Halted(HaltedFrame { frame, halt }));
        }
        if let Err(_) = ppm(&self.picture, &mut self.bytes) {
            return Err(Stop::Memory);
        }
        Ok(())
    }
}
