//! `tas export`.
//!
//! The front that the desk's answer names is compared with the two edits that made the movie. A failed write names no
//! front, so there the closed desk shows that the bytes are the movie's. `export_run` has no condition on the number of
//! workers: 0 counts as 1 and more than 16 as 16, since the bytes don't depend on it. It takes an allocator that
//! threads may share, as its desk's export does.

ghost use Rattle.std.specs.Prelude.{◌≡◌, ◌≤◌, [], length, IfErr};
ghost use Rattle.tas_film.specs.Runs.{most_workers};
ghost use Rattle.tas_desk.specs.Exports.{IsInRange};
ghost use Rattle.tas_published.specs.History.{movie_of};
ghost use Rattle.tas_desk.specs.Seats.{name_of, HasSeen};
ghost use Rattle.tas_engines.specs.declared.fault.RunFault.TheVariants.{Memory};
ghost use Rattle.tas_engines.specs.Movies.{IsMovieRun};
ghost use Rattle.tas_engines.specs.Output.{Ends};
ghost use Rattle.tas_tool.specs.Pixmaps.{IsPixmapsAnswer, IsExportAnswer};
ghost use Rattle.tas_tool.specs.Inside.TwoEdits.{export_end, StandsAtOwn};

use crate::making::{put_movie, unless_foreign};
use crate::opening::open_alone;
use std::alloc::Allocator;
use std::io::{Read, Write};
use std::marker::Brand;
use std::sync::Wait;
use std::thread::Threads;
use tas_desk::{CloseOnDrop, Desk, ExportError, Exported, Gate, MAX_WORKERS, Name, Seat, Unopened};
use tas_engines::{RunFault, ToolFault, halt_fault, movie_of, read_two};
use tas_film::ExportPlan;
use tas_movie::Movie;

/// A gate that stands open.
struct OpenGate;

impl Gate for OpenGate {
    fn pass(&self, _piece: usize) {}
}

/// How a desk's answer is reported. One about the movie's frames has to name just the two edits that made the movie; else it is
/// `Foreign`.
fn export_end(from: usize, to: usize, answer: Result<Exported, ExportError>) -> Result<(), RunFault>
    // What the desk's answer names is compared with the two edits that made the movie; a halt and a range are reported
    // as the desk says them.
    // Refused: halted_export_is_given_as_memory, faulty_range_is_given_as_memory.
    ensures { result ≡ export_end from to answer }
{
    match answer {
        Ok(exported) => unless_foreign(exported.at, Ok(())),
        Err(ExportError::Range { at, len }) => unless_foreign(
            at,
            Err(RunFault::Range { from, to, len }),
        ),
        Err(ExportError::Memory) => Err(RunFault::Memory),
        Err(ExportError::Halted { at, frame: _, halt }) => unless_foreign(
            at,
            Err(halt_fault(halt)),
        ),
        Err(ExportError::Write { written, error: _ }) => Err(RunFault::Write { written }),
    }
}

/// Writes the pictures of some frames of the movie that the seat made by two edits. `Memory` never comes where the movie
/// doesn't have these frames.
fn write_frames<
    N: Name,
    C: CloseOnDrop,
    A: Allocator + Copy + Send + Sync,
    R: Wait + Threads + Sync,
    W: Write,
>(
    rt: &R,
    alloc: A,
    desk: &Desk<N, C, A>,
    seat: &mut Seat<N, A>,
    frames: ExportPlan,
    output: &mut W,
) -> Result<(), RunFault>
    requires two { (seat.old.made ≡ 2) × (2 ≤ length seat.old.front) }
    requires workers { (1 ≤ frames.workers) × (frames.workers ≤ most_workers) }
    // Refused: export_at_a_foreign_edit_is_reported.
    ensures seen { HasSeen seat.old seat.new }
    ensures own { StandsAtOwn seat.new result }
    ensures ends { length seat.new.front ≤ seat.new.made
        → Ends (IsPixmapsAnswer (movie_of seat.new.front) frames.from frames.to)
        (W.contents output.old) (W.contents output.new) result }
    // `Memory` comes only where the movie has the frames.
    ensures memory { IfErr result
        (λ fault. fault ≡ Memory
        → IsInRange (length (movie_of seat.new.front).inputs) frames.from frames.to) }
{
    let ExportPlan { from, to, workers } = frames;
    let answer = desk.export(rt, alloc, seat, from, to, workers, &OpenGate, output);
    export_end(from, to, answer)
}

/// Makes a movie by the seat's first two edits, and writes the pictures of some of its frames.
fn export_made<
    N: Name,
    C: CloseOnDrop,
    A: Allocator + Copy + Send + Sync,
    R: Wait + Threads + Sync,
    W: Write,
>(
    rt: &R,
    alloc: A,
    desk: &Desk<N, C, A>,
    seat: &mut Seat<N, A>,
    movie: &Movie<A>,
    frames: ExportPlan,
    output: &mut W,
) -> Result<(), RunFault>
    requires first { (seat.old.number ≡ 0) × (seat.old.made ≡ 0) × (seat.old.front ≡ []) }
    requires workers { (1 ≤ frames.workers) × (frames.workers ≤ most_workers) }
    ensures number { seat.new.number ≡ 0 }
    ensures own { StandsAtOwn seat.new result }
    ensures ends { length seat.new.front ≤ seat.new.made
        → Ends (IsPixmapsAnswer movie.now frames.from frames.to) (W.contents output.old)
        (W.contents output.new) result }
{
    put_movie(rt, alloc, desk, seat, movie)?;
    write_frames(rt, alloc, desk, seat, frames, output)
}

/// Makes a movie on a desk of one seat, writes the pictures of some of its frames, and closes the desk.
/// That nobody else made an edit is known once it is closed.
fn export_from_desk<N: Name, A: Allocator + Copy + Send + Sync, R: Wait + Threads + Sync, W: Write>(
    rt: &R,
    alloc: A,
    unopened: Unopened<A>,
    movie: &Movie<A>,
    frames: ExportPlan,
    output: &mut W,
) -> Result<(), RunFault>
    requires name { unopened ≡ name_of N.registry N.name N.parts }
    requires one { unopened.seats ≡ 1 }
    requires workers { (1 ≤ frames.workers) × (frames.workers ≤ most_workers) }
    ensures { Ends (IsPixmapsAnswer movie.now frames.from frames.to) (W.contents output.old)
        (W.contents output.new) result }
{
    let (desk, mut seats) = open_alone::<N, A, R>(rt, alloc, unopened)?;
    let seat = &mut seats.as_mut_slice()[0];
    let end = export_made(rt, alloc, &desk, seat, movie, frames, output);
    drop(desk.close(rt, seats));
    end
}

/// Writes the pictures of some frames of the movie whose cartridge and text these are.
fn export_movie<A: Allocator + Copy + Send + Sync, R: Wait + Threads + Sync, W: Write>(
    rt: &R,
    alloc: A,
    frames: ExportPlan,
    image: &[u8],
    bytes: &[u8],
    output: &mut W,
) -> Result<(), RunFault>
    requires workers { (1 ≤ frames.workers) × (frames.workers ≤ most_workers) }
    ensures { Ends (IsExportAnswer frames.from frames.to image.now bytes.now)
        (W.contents output.old) (W.contents output.new) result }
{
    let movie = movie_of(alloc, image, bytes)?;
    let Ok(unopened) = Unopened::new(alloc, 1) else {
        return Err(RunFault::Memory);
    };
    export_from_desk::<Brand, A, R, W>(rt, alloc, unopened, &movie, frames, output)
}

/// Reads a cartridge and a movie text, and writes the pictures of the movie's frames from `from` to the one
/// before `to`, counted from 0, as binary portable pixmaps, one after the other. They are played by
/// `workers` workers, each on a thread of its own: by one where the number is 0, and by [`MAX_WORKERS`] where it is
/// more. What is written doesn't depend on it.
///
/// Faults, in order: those of [`read_two`], those of [`movie_of`], then `Range` where the movie doesn't have
/// these frames or they are more than 1,024, then `Halted` with the first halted frame's halt, each with
/// nothing written; `Memory` and `NoPlace` with nothing written; `Write` with the first bytes written, and
/// how many. `Foreign` would report an edit that isn't the engine's own, and never comes.
pub fn export_run<
    T: Wait + Threads + Sync,
    A: Allocator + Copy + Send + Sync,
    C: Read,
    R: Read,
    W: Write,
>(
    rt: &T,
    alloc: A,
    from: usize,
    to: usize,
    workers: usize,
    cart: &mut C,
    input: &mut R,
    output: &mut W,
) -> Result<(), ToolFault>
    // An export reads cartridge and text whole and writes the pixmaps of the range's frames of the movie that it read,
    // one after the other, whatever the number of workers.
    // Refused: last_frame_of_the_range_is_not_exported*, half_of_the_movie_is_put_in.
    // The faults of an export have their cause: `Range` only where the movie hasn't these frames or they are more than
    // 1,024, `Halted` only with the least halted frame's halt; nothing is written then, nor after `Memory` and
    // `NoPlace`; `Write` reports how many of the first bytes went out.
    // Refused: halted_frame_is_reported_as_a_faulty_range, faulty_range_is_reported_with_its_ends_swapped*,
    // half_of_the_written_bytes_are_reported*.
    // An export never ends with `Foreign`: its own two edits are all that the desk has when it is closed.
    // Refused: foreign_after_an_export.
    ensures { IsMovieRun (IsExportAnswer from to) (C.remaining cart.old) (C.remaining cart.new)
        (R.remaining input.old) (R.remaining input.new) (W.contents output.old)
        (W.contents output.new) result }
{
    let (image, bytes) = read_two(alloc, cart, input)?;
    let frames = ExportPlan {
        from,
        to,
        workers: workers.clamp(1, MAX_WORKERS),
    };
    export_movie(
        rt,
        alloc,
        frames,
        image.as_slice(),
        bytes.as_slice(),
        output,
    )?;
    Ok(())
}
