//! Films: frames drawn and written one after the other, in one pass.
//!
//! A film needs no desk: the movie is played once on the calling thread, with one picture. A picture goes out in one
//! write, since standard output isn't buffered and 210 writes take longer than the frame. The pixmap's room is asked
//! for before the first frame. A refusal after that isn't expected, but no contract of a writer excludes it; the rows
//! are written one by one then, so no frame fails for memory.

ghost use Rattle.std.specs.Prelude.{◌≡◌, ◌+◌, ◌-◌, ◌≤◌, ◌<◌, ◌^◌, length, OnOk, IfErr};
ghost use Rattle.std.specs.Io.KnownBytes.{Appends};
ghost use Rattle.byte_text.specs.CutOff.{IsCutOff};
ghost use Rattle.vcs_tia.specs.Image.{ppm_bytes};
ghost use Rattle.tas_green.specs.Run.{state_after, picture_of};
ghost use Rattle.tas_film.specs.Films.{IsFilm, IsFilmStop};
ghost use Rattle.tas_film.specs.Frames.{IsDrawn};

use crate::drawing::play_up_to;
use crate::pixmaps::HaltedFrame;
use byte_text::{WriteFault, write_counted};
use std::alloc::{AllocError, Allocator};
use std::io::Write;
use tas_green::Savestate;
use tas_movie::{MAX_FRAMES, Movie};
use vcs_machine::{Meter, State, play};
use vcs_tia::{PIXMAP_SIZE, Picture, ppm};

/// Why a film ended before its last frame.
#[derive(Drop)]
pub enum FilmStop {
    /// Memory was refused. Nothing was written.
    Memory,
    /// A frame is halted; this is the least one. The pixmaps of the frames before it were written.
    Halted(HaltedFrame),
    /// A write failed, or took no byte. The fault counts the bytes of the whole film that had gone out.
    Write(WriteFault),
}

/// A picture, and room for its pixmap. They are reused from frame to frame.
#[derive(Drop)]
struct Screen<A: Allocator> {
    picture: Picture<A>,
    pixmap: Vec<u8, A>,
}

impl<A: Allocator + Copy> Screen<A> {
    /// A screen on which nothing is drawn yet.
    fn new(alloc: A) -> Result<Screen<A>, AllocError> {
        let picture = Picture::blank(alloc)?;
        let pixmap = Vec::with_capacity(alloc, PIXMAP_SIZE)?;
        Ok(Screen { picture, pixmap })
    }
}

impl<A: Allocator> Screen<A> {
    /// Writes the picture's pixmap: as a whole, since a write of each row would take longer than the frame; row by row
    /// where memory is refused for that, which isn't expected, since there is room. The fault counts the `before` bytes, too.
    fn write_picture<W: Write>(&mut self, before: usize, output: &mut W) -> Result<(), WriteFault>
        requires { before + length (ppm_bytes self.old.picture) < 2 ^ 64 }
        ensures ok { OnOk result
            (Appends (W.contents output.old) (W.contents output.new) (ppm_bytes self.old.picture)) }
        ensures from { IfErr result (λ f. before ≤ f.written) }
        ensures cut { IfErr result (λ f. IsCutOff (W.contents output.old) (W.contents output.new)
            (ppm_bytes self.old.picture) (f.written - before)) }
    {
        self.pixmap.clear();
        if ppm(&self.picture, &mut self.pixmap).is_ok() {
            write_counted(self.pixmap.as_slice(), before, output)?;
            return Ok(());
        }
        match ppm(&self.picture, output) {
            Ok(()) => Ok(()),
            Err(fault) => Err(WriteFault {
                written: before + fault.written,
                error: fault.error,
            }),
        }
    }
}

/// Plays a frame and writes its pixmap, after this many bytes of the frames before it.
fn show_frame<A: Allocator, B: Allocator, W: Write>(
    movie: &Movie<A>,
    frame: usize,
    state: &mut State,
    screen: &mut Screen<B>,
    before: usize,
    output: &mut W,
) -> Result<(), FilmStop>
    requires within { frame < length movie.now.inputs }
    requires start { state.old ≡ state_after movie.now frame }
    requires few { before + length (ppm_bytes (picture_of movie.now frame)) < 2 ^ 64 }
    ensures drawn { OnOk result (IsDrawn movie.now frame) }
    ensures state { OnOk result (state.new ≡ state_after movie.now (frame + 1)) }
    ensures out { OnOk result
        (Appends (W.contents output.old) (W.contents output.new)
        (ppm_bytes (picture_of movie.now frame))) }
    ensures stop { IfErr result
        (IsFilmStop movie.now frame before (W.contents output.old) (W.contents output.new)) }
{
    let inputs = movie.inputs();
    let picture = &mut screen.picture;
    if let Err(halt) = play(
        movie.cart(),
        state,
        inputs[frame],
        picture,
        &mut Meter::new(),
    ) {
        return Err(FilmStop::Halted(HaltedFrame { frame, halt }));
    }
    match screen.write_picture(before, output) {
        Ok(()) => Ok(()),
        Err(fault) => Err(FilmStop::Write(fault)),
    }
}

/// Writes the portable pixmaps of the frames from `from` to the one before `to`, one after the other, each as soon as it is
/// drawn. The movie is played once, from power-on, by the calling thread. Beside the movie there are a picture and its
/// pixmap, whatever the number of frames; memory for them is asked for before the first frame is played.
///
/// The caller shows that the movie has these frames. Each [`FilmStop`] says what was written.
pub fn write_film<A: Allocator, B: Allocator + Copy, W: Write>(
    alloc: B,
    movie: &Movie<A>,
    from: usize,
    to: usize,
    output: &mut W,
) -> Result<(), FilmStop>
    requires order { from ≤ to }
    requires within { to ≤ length movie.now.inputs }
    // `write_film` has written the pixmaps of the movie's frames from `from` to `to` - 1, in order and each once; or
    // those before the least halted frame, which it names; or, after a failed write, the first `written` bytes: all
    // pixmaps but the last of them are whole, and none of their frames is halted. After `Memory` nothing is written.
    // Refused: film_goes_on_after_a_halted_frame, film_starts_at_power_on, film_leaves_out_the_last_frame,
    // film_names_the_next_frame, film_counts_the_last_picture_alone*,
    // picture_written_row_by_row_is_not_counted_with_those_before*.
    ensures { IsFilm movie.now from to (W.contents output.old) (W.contents output.new) result }
{
    let Ok(mut screen) = Screen::new(alloc) else {
        return Err(FilmStop::Memory);
    };
    let len = movie.len();
    prove!(len <= MAX_FRAMES);
    let power_on = Savestate {
        frame: 0,
        state: State::power_on(movie.cart()).pack(),
    };
    let mut state = play_up_to(movie, power_on, from, &mut Meter::new());
    let mut written = 0;
    for frame in from..to {
        show_frame(movie, frame, &mut state, &mut screen, written, output)?;
        written += PIXMAP_SIZE;
    }
    Ok(())
}
