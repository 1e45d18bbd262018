//! `tas desk`.
//!
//! Each pair of files is opened on its seat's thread: opening all before the first thread starts would wait for the
//! clients one after the other. IN is opened for reading and OUT for writing. Opening for both never waits, but then
//! the program holds the clients' ends, too: an input would never end when its client is gone, and a write would never
//! fail.

ghost use Rattle.std.specs.Prelude.{◌≡◌, ◌≤◌, ◌⊎◌, length, IfOk, IfErr, OnErr, MatchResult};
ghost use Rattle.std.specs.Io.KnownBytes.{Appends};
ghost use Rattle.tas_movie.specs.Text.{text2};
ghost use Rattle.tas_published.specs.History.{movie_of};
ghost use Rattle.tas_desk.specs.Seats.{most_seats, name_of};
ghost use Rattle.tas_engines.specs.declared.fault.RunFault.TheVariants.{Memory, NoPlace};
ghost use Rattle.tas_engines.specs.Output.{StopsWriting};
ghost use Rattle.tas_tool.specs.Desks.{first_fault, IsDeskHistory, IsDeskOn, IsDeskRun};
ghost use Rattle.tas_tool.specs.Inside.Holding.{AreFresh};

use crate::holding::{Held, Room, hold_made, put_for_all};
use crate::making::read_movie;
use std::alloc::Allocator;
use std::io::{Read, Write};
use std::marker::Brand;
use std::sync::Wait;
use std::thread::Threads;
use tas_desk::{Desk, Name, OpenError, Seat, Unopened};
use tas_engines::{RunFault, SeatFault, ToolFault};
use tas_movie::{Movie, write_text};
use tas_seat::Door;

/// Gives an open desk its movie, holds a conversation at each door, and closes the desk.
fn hold_opened<
    N: Name + Send + Sync,
    A: Allocator + Copy + Send + Sync,
    T: Wait + Threads + Sync,
    D: Door + Drop + Send,
>(
    rt: &T,
    alloc: A,
    desk: Desk<N, &T, A>,
    mut seats: Vec<Seat<N, A>, A>,
    movie: Movie<A>,
    doors: &mut Vec<D, A>,
) -> Result<Held<A>, RunFault>
    requires some { 1 ≤ length doors.old.items }
    requires count { (length doors.old.items ≡ N.parts) × (length seats.items ≡ N.parts) }
    requires fresh { AreFresh seats.items }
    ensures history { IfOk result
        (λ held. IsDeskHistory D.facts movie doors.old.items doors.new.items
        held.ends.items held.closed.journal.items) }
    ensures movie { IfOk result (λ held. held.closed.movie ≡ movie_of held.closed.journal.items) }
    ensures fault { IfErr result (λ fault. (fault ≡ Memory) ⊎ (fault ≡ NoPlace)) }
    ensures unopened { OnErr result (doors.new.items ≡ doors.old.items) }
{
    if let Err(fault) = put_for_all(rt, alloc, &desk, seats.as_mut_slice(), &movie) {
        // The closed desk shows that nobody else made an edit, so that only memory was refused.
        drop(desk.close(rt, seats));
        return Err(fault);
    }
    // The desk has copies of its cartridge and inputs, and conversations may be long.
    drop(movie);
    let room = Room::new(alloc, seats.len())?;
    Ok(hold_made(rt, alloc, desk, seats, doors, room))
}

/// Opens a desk with a seat for each door, gives it the movie, holds a conversation at each door, and closes the desk.
fn hold_desk<
    N: Name + Send + Sync,
    A: Allocator + Copy + Send + Sync,
    T: Wait + Threads + Sync,
    D: Door + Drop + Send,
>(
    rt: &T,
    alloc: A,
    unopened: Unopened<A>,
    movie: Movie<A>,
    doors: &mut Vec<D, A>,
) -> Result<Held<A>, RunFault>
    requires name { unopened ≡ name_of N.registry N.name N.parts }
    requires some { 1 ≤ length doors.old.items }
    requires many { unopened.seats ≡ length doors.old.items }
    ensures history { IfOk result
        (λ held. IsDeskHistory D.facts movie doors.old.items doors.new.items
        held.ends.items held.closed.journal.items) }
    ensures movie { IfOk result (λ held. held.closed.movie ≡ movie_of held.closed.journal.items) }
    ensures fault { IfErr result (λ fault. (fault ≡ Memory) ⊎ (fault ≡ NoPlace)) }
    ensures unopened { OnErr result (doors.new.items ≡ doors.old.items) }
{
    match Desk::<N, &T, A>::open(rt, alloc, unopened) {
        Ok((desk, seats)) => hold_opened(rt, alloc, desk, seats, movie, doors),
        Err(OpenError::Memory) => Err(RunFault::Memory),
        Err(OpenError::NoPlace) => Err(RunFault::NoPlace),
    }
}

/// Writes the text of a movie, with no memory for it.
pub(crate) fn write_movie<A: Allocator, W: Write>(
    movie: &Movie<A>,
    output: &mut W,
) -> Result<(), RunFault>
    ensures { MatchResult result
        (λ _. Appends (W.contents output.old) (W.contents output.new) (text2 movie.now))
        (StopsWriting (W.contents output.old) (W.contents output.new) (text2 movie.now)) }
{
    write_text(movie, output)?;
    Ok(())
}

/// The fault of the first seat whose conversation ended with one.
fn first_fault(ends: &[Result<(), SeatFault>]) -> Result<(), ToolFault>
    requires { length ends.now ≤ most_seats }
    ensures { result ≡ first_fault 0 ends.now }
{
    for seat in 0..ends.len() {
        if let Err(fault) = ends[seat] {
            return Err(ToolFault::Seat {
                seat: seat as u32,
                fault,
            });
        }
    }
    Ok(())
}

/// Holds a desk on a movie, and writes the movie that it leaves.
fn desk_on<
    A: Allocator + Copy + Send + Sync,
    T: Wait + Threads + Sync,
    D: Door + Drop + Send,
    W: Write,
>(rt: &T, alloc: A, movie: Movie<A>, doors: &mut Vec<D, A>, output: &mut W) -> Result<(), ToolFault>
    requires some { 1 ≤ length doors.old.items }
    requires few { length doors.old.items ≤ most_seats }
    ensures { IsDeskOn A D.facts doors.old.items doors.new.items movie
        (W.contents output.old) (W.contents output.new) result }
{
    let Ok(unopened) = Unopened::new(alloc, doors.len() as u32) else {
        return Err(ToolFault::Run(RunFault::Memory));
    };
    let held = hold_desk::<Brand, A, T, D>(rt, alloc, unopened, movie, doors)?;
    write_movie(&held.closed.movie, output)?;
    first_fault(held.ends.as_slice())
}

/// Reads a cartridge and a movie text, and holds a conversation at each door, 1 to [`MAX_SEATS`](tas_desk::MAX_SEATS) of them: all on
/// this movie, each by a seat of its own on a thread of its own. A conversation whose thread can't be started is held by the calling
/// thread, once those after it have ended. Seat 0 makes the movie by two edits, numbers 0 and 1 of `history`, and each seat has seen them
/// before its first line is answered. Once all conversations have ended it writes the text of the movie that all their edits have made.
/// The doors come back, in their order.
///
/// Faults, in order: those of [`read_two`](tas_engines::read_two), then those of [`movie_of`](tas_engines::movie_of); `Memory` and `NoPlace` for the desk; each of these before a door
/// is opened. Then, with nothing undone, `Write` for the text, for which no memory is taken; and, with the movie written, `Seat`: the fault
/// of the least seat whose conversation ended with one. `Foreign` never comes.
pub fn desk_run<
    A: Allocator + Copy + Send + Sync,
    T: Wait + Threads + Sync,
    C: Read,
    M: Read,
    D: Door + Drop + Send,
    W: Write,
>(
    rt: &T,
    alloc: A,
    cart: &mut C,
    movie: &mut M,
    doors: &mut Vec<D, A>,
    output: &mut W,
) -> Result<(), ToolFault>
    requires some { 1 ≤ length doors.old.items }
    requires few { length doors.old.items ≤ most_seats }
    // Refused: desk_writes_the_movie_without_its_inputs.
    // Several conversations on one movie leave one legal history. Its first two entries are seat 0's: they load the
    // cartridge that was read and put the movie's inputs in at 0, which makes this movie. Each seat's conversation
    // begins once the seat has seen these two, with an empty greenzone. The history begins with all that the seat has
    // seen in the end, and has of the seat just these two, of seat 0, and then the edits of its conversation, in order,
    // also of a last line whose answer didn't get out. Nobody else has entries. So each answer at a door that isn't
    // given at a draft is the definition's at a beginning of this history, and these never get shorter from line to
    // line (tas_seat).
    // Refused: seats_meet_before_the_movie_is_made, desk_begins_without_the_inputs,
    // first_seat_looks_before_its_conversation.
    // Faults come in this order: of reading, of the cartridge and the movie; out of memory or no place for the desk,
    // each of these with no door opened and nothing written; then, with nothing undone, a failed write of the text,
    // whose fault reports how many bytes went out; and with the movie written whole the fault of the least seat whose
    // conversation ended with one. Once a conversation has begun, no fault of memory keeps the movie from being
    // written: none is taken for its text.
    // Refused: fault_of_the_last_seat_is_named, faults_of_seats_are_dropped, seats_end_is_lost,
    // text_of_a_desk_is_out_of_memory.
    ensures { IsDeskRun A D.facts doors.old.items doors.new.items (C.remaining cart.old)
        (C.remaining cart.new) (M.remaining movie.old) (M.remaining movie.new)
        (W.contents output.old) (W.contents output.new) result }
{
    let movie = read_movie(alloc, cart, movie)?;
    desk_on(rt, alloc, movie, doors, output)
}
