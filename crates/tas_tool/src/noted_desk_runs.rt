//! `tas desk` with a journal.
//!
//! The journal's head is written once the movie is made and before a door is opened: a file that can't be written is reported while
//! nothing is lost yet. It begins with the entry after the two edits that make the movie, since the head has the movie itself.

ghost use Rattle.std.specs.Prelude.{◌≡◌, ◌+◌, ◌<◌, ◌≤◌, false, length, Err, IfOk, IfErr, OnErr};
ghost use Rattle.tas_published.specs.History.{movie_of};
ghost use Rattle.tas_desk.specs.Seats.{most_seats, name_of};
ghost use Rattle.tas_tool.specs.Inside.Holding.{AreFresh, IsNotedStart};
ghost use Rattle.tas_tool.specs.NotedDesks.{first_call_fault, IsNoNotedBeginning, IsNotedDeskHistory, IsNotedDeskOn, IsNotedDeskRun, NotedDeskEnds};

use crate::desk_runs::write_movie;
use crate::holding::put_for_all;
use crate::making::{MOVIE_EDITS, read_movie};
use crate::noted_holding::{NotedHeld, hold_noted};
use std::alloc::{Allocator, Global};
use std::io::{Read, Write};
use std::marker::Brand;
use std::sync::Wait;
use std::thread::Threads;
use tas_desk::{Desk, Name, OpenError, Seat, Unopened};
use tas_engines::{RunFault, ToolFault};
use tas_journaling::{CallFault, Journal, JournalFault, JournalFile, Tally};
use tas_movie::Movie;
use tas_seat::Door;
use thiserror::Error;

/// Why a desk with a journal ended so. Its text is the line, without the newline, that the program writes to standard error; the program's
/// status is then 1.
#[derive(Clone, Copy, Debug, PartialEq, Eq, Error)]
pub enum DeskFault {
    /// As without a journal.
    #[error("{0}")]
    Tool(ToolFault),
    /// The journal's head isn't written whole. No conversation began, and nothing is written but some of the head's bytes.
    #[error("fault: journal: {0}")]
    Journal(JournalFault),
    /// The conversation of this seat ended at a line that may edit: it is carried out, but the journal couldn't be brought up to it, and
    /// nothing of its answer is written. No seat before it ended with a fault. The movie is written.
    #[error("fault: seat {seat}: journal: {fault}")]
    Seat {
        /// The seat, counted from 0.
        seat: u32,
        /// Why the journal couldn't be brought up to the line.
        fault: JournalFault,
    },
}

/// How a desk with a journal ended, whether its conversations began, and the journal's file.
#[derive(Drop)]
pub struct NotedDesk<J: JournalFile> {
    /// How it ended.
    pub end: Result<(), DeskFault>,
    /// Whether the journal's head was written whole and conversations were held.
    pub has_begun: bool,
    /// What the journal was written to.
    pub file: J,
}

/// A fault of a run, as that of a desk.
fn run_fault(fault: RunFault) -> DeskFault
    ensures { result ≡ DeskFault.Tool (ToolFault.Run fault) }
{
    DeskFault::Tool(ToolFault::Run(fault))
}

/// A desk whose conversations didn't begin.
fn unbegun<J: JournalFile>(file: J, fault: DeskFault) -> NotedDesk<J>
    ensures end { result.end ≡ Err fault }
    ensures begun { result.has_begun ≡ false }
    ensures file { J.contents result.file ≡ J.contents file }
{
    NotedDesk {
        end: Err(fault),
        has_begun: false,
        file,
    }
}

/// Begins the journal of a desk whose seats have seen the movie, with the last of them for its own, holds a conversation at each door, and closes the desk.
fn hold_begun<
    N: Name + Send + Sync,
    A: Allocator + Copy + Send + Sync,
    T: Wait + Threads + Sync,
    D: Door + Drop + Send,
    J: JournalFile + Send,
>(
    rt: &T,
    alloc: A,
    global: Global,
    desk: Desk<N, &T, A>,
    mut seats: Vec<Seat<N, A>, A>,
    movie: Movie<A>,
    doors: &mut Vec<D, A>,
    file: J,
) -> Result<NotedHeld<J, A>, (J, DeskFault)>
    requires some { (1 ≤ length doors.old.items) × (length doors.old.items < most_seats) }
    requires count { (length doors.old.items + 1 ≡ N.parts) × (length seats.items ≡ N.parts) }
    requires start { IsNotedStart movie seats.items }
    ensures history { IfOk result
        (λ held. IsNotedDeskHistory D.facts J.kept movie doors.old.items doors.new.items
        held.ends.items (J.contents file) (J.contents held.file) held.closed.journal.items) }
    ensures movie { IfOk result (λ held. held.closed.movie ≡ movie_of held.closed.journal.items) }
    ensures fault { IfErr result
        (λ back. IsNoNotedBeginning movie (J.contents file) (J.contents back.0) (Err back.1)) }
    ensures unopened { OnErr result (doors.new.items ≡ doors.old.items) }
{
    let Some(own) = seats.pop() else {
        unreachable!()
    };
    let Ok(tally) = Tally::new(global) else {
        return Err((file, run_fault(RunFault::Memory)));
    };
    match Journal::begin(alloc, file, &movie, MOVIE_EDITS) {
        Ok(journal) => {
            // The desk has copies of its cartridge and inputs, and conversations may be long.
            drop(movie);
            match hold_noted::<N, Brand, J, A, T, D>(
                rt, alloc, global, desk, seats, own, tally, journal, doors,
            ) {
                Ok(held) => Ok(held),
                Err(file) => Err((file, run_fault(RunFault::Memory))),
            }
        }
        Err((file, fault)) => Err((file, DeskFault::Journal(fault))),
    }
}

/// Gives an open desk its movie, begins the journal, holds a conversation at each door, and closes the desk.
fn hold_noted_opened<
    N: Name + Send + Sync,
    A: Allocator + Copy + Send + Sync,
    T: Wait + Threads + Sync,
    D: Door + Drop + Send,
    J: JournalFile + Send,
>(
    rt: &T,
    alloc: A,
    global: Global,
    desk: Desk<N, &T, A>,
    mut seats: Vec<Seat<N, A>, A>,
    movie: Movie<A>,
    doors: &mut Vec<D, A>,
    file: J,
) -> Result<NotedHeld<J, A>, (J, DeskFault)>
    requires some { (1 ≤ length doors.old.items) × (length doors.old.items < most_seats) }
    requires count { (length doors.old.items + 1 ≡ N.parts) × (length seats.items ≡ N.parts) }
    requires fresh { AreFresh seats.items }
    ensures history { IfOk result
        (λ held. IsNotedDeskHistory D.facts J.kept movie doors.old.items doors.new.items
        held.ends.items (J.contents file) (J.contents held.file) held.closed.journal.items) }
    ensures movie { IfOk result (λ held. held.closed.movie ≡ movie_of held.closed.journal.items) }
    ensures fault { IfErr result
        (λ back. IsNoNotedBeginning movie (J.contents file) (J.contents back.0) (Err back.1)) }
    ensures unopened { OnErr result (doors.new.items ≡ doors.old.items) }
{
    if let Err(fault) = put_for_all(rt, alloc, &desk, seats.as_mut_slice(), &movie) {
        // The closed desk shows that nobody else made an edit, so that only memory was refused.
        drop(desk.close(rt, seats));
        return Err((file, run_fault(fault)));
    }
    hold_begun(rt, alloc, global, desk, seats, movie, doors, file)
}

/// Opens a desk with a seat for each door and one for the journal, and holds a conversation at each door.
fn hold_noted_desk<
    N: Name + Send + Sync,
    A: Allocator + Copy + Send + Sync,
    T: Wait + Threads + Sync,
    D: Door + Drop + Send,
    J: JournalFile + Send,
>(
    rt: &T,
    alloc: A,
    global: Global,
    unopened: Unopened<A>,
    movie: Movie<A>,
    doors: &mut Vec<D, A>,
    file: J,
) -> Result<NotedHeld<J, A>, (J, DeskFault)>
    requires name { unopened ≡ name_of N.registry N.name N.parts }
    requires some { (1 ≤ length doors.old.items) × (length doors.old.items < most_seats) }
    requires many { unopened.seats ≡ length doors.old.items + 1 }
    ensures history { IfOk result
        (λ held. IsNotedDeskHistory D.facts J.kept movie doors.old.items doors.new.items
        held.ends.items (J.contents file) (J.contents held.file) held.closed.journal.items) }
    ensures movie { IfOk result (λ held. held.closed.movie ≡ movie_of held.closed.journal.items) }
    ensures fault { IfErr result
        (λ back. IsNoNotedBeginning movie (J.contents file) (J.contents back.0) (Err back.1)) }
    ensures unopened { OnErr result (doors.new.items ≡ doors.old.items) }
{
    match Desk::<N, &T, A>::open(rt, alloc, unopened) {
        Ok((desk, seats)) => {
            hold_noted_opened(rt, alloc, global, desk, seats, movie, doors, file)
        }
        Err(OpenError::Memory) => Err((file, run_fault(RunFault::Memory))),
        Err(OpenError::NoPlace) => Err((file, run_fault(RunFault::NoPlace))),
    }
}

/// The fault of the first seat whose conversation ended with one.
fn first_call_fault(ends: &[Result<(), CallFault>]) -> Result<(), DeskFault>
    requires { length ends.now ≤ most_seats }
    ensures { result ≡ first_call_fault 0 ends.now }
{
    for seat in 0..ends.len() {
        match ends[seat] {
            Ok(()) => {}
            Err(CallFault::Seat(fault)) => {
                return Err(DeskFault::Tool(ToolFault::Seat {
                    seat: seat as u32,
                    fault,
                }));
            }
            Err(CallFault::Journal(fault)) => {
                return Err(DeskFault::Seat {
                    seat: seat as u32,
                    fault,
                });
            }
        }
    }
    Ok(())
}

/// Writes the movie that a desk leaves. The end is that, or the first fault of its seats.
fn end_noted<A: Allocator, W: Write>(
    movie: &Movie<A>,
    ends: &[Result<(), CallFault>],
    output: &mut W,
) -> Result<(), DeskFault>
    requires { length ends.now ≤ most_seats }
    ensures { NotedDeskEnds movie.now ends.now (W.contents output.old) (W.contents output.new)
        result }
{
    if let Err(fault) = write_movie(movie, output) {
        return Err(run_fault(fault));
    }
    first_call_fault(ends)
}

/// Holds a desk with a journal on a movie, and writes the movie that it leaves.
fn noted_desk_on<
    A: Allocator + Copy + Send + Sync,
    T: Wait + Threads + Sync,
    D: Door + Drop + Send,
    J: JournalFile + Send,
    W: Write,
>(
    rt: &T,
    alloc: A,
    global: Global,
    file: J,
    movie: Movie<A>,
    doors: &mut Vec<D, A>,
    output: &mut W,
) -> NotedDesk<J>
    requires some { 1 ≤ length doors.old.items }
    requires few { length doors.old.items < most_seats }
    ensures { IsNotedDeskOn A D.facts J.kept doors.old.items doors.new.items movie
        (J.contents file) (J.contents result.file) (W.contents output.old)
        (W.contents output.new) result.has_begun result.end }
{
    let Ok(unopened) = Unopened::new(alloc, doors.len() as u32 + 1) else {
        return unbegun(file, run_fault(RunFault::Memory));
    };
    match hold_noted_desk::<Brand, A, T, D, J>(rt, alloc, global, unopened, movie, doors, file) {
        Ok(held) => {
            let NotedHeld { ends, closed, file } = held;
            NotedDesk {
                end: end_noted(&closed.movie, ends.as_slice(), output),
                has_begun: true,
                file,
            }
        }
        Err((file, fault)) => unbegun(file, fault),
    }
}

/// Does what [`desk_run`](crate::desk_run) does, with a journal in this file, which should have nothing yet: first the journal's head is written, which
/// has the movie, and then the conversations of all pairs share it. Before the first byte of an answer to a request that may edit goes out, the journal has
/// the seat's edits, and was brought to the disk; other requests don't wait for it, but a conversation that begins waits while others' lines are
/// written. The journal takes a seat of the desk, so there is one pair less than
/// [`MAX_SEATS`](tas_desk::MAX_SEATS), and its receipts take memory of `global`. The file comes back.
///
/// Faults, in order: those of `desk_run` up to the desk; `Journal`, where the head isn't written whole; each of these before a door is opened. Then that of
/// the movie's write; and, with the movie written, the fault of the least seat whose conversation ended with one: `Seat` where that is the
/// journal's. A journal that failed at a write takes nothing more: each conversation ends at its next request that may edit.
pub fn noted_desk_run<
    A: Allocator + Copy + Send + Sync,
    T: Wait + Threads + Sync,
    C: Read,
    M: Read,
    D: Door + Drop + Send,
    J: JournalFile + Send,
    W: Write,
>(
    rt: &T,
    alloc: A,
    global: Global,
    file: J,
    cart: &mut C,
    movie: &mut M,
    doors: &mut Vec<D, A>,
    output: &mut W,
) -> NotedDesk<J>
    requires some { 1 ≤ length doors.old.items }
    requires few { length doors.old.items < most_seats }
    // A desk with a journal leaves a history as one without. In the end the journal's file has, after what it had, the head with the
    // movie, and the lines of a beginning of this history from its third entry on: each once, in order, whoever made it,
    // and nothing else; after a fault perhaps some first bytes of the next ones. Of each seat this beginning has all
    // edits of lines whose answers are out, whole or in part; and its lines were brought to the disk. As the file may
    // fail at each byte, and keeps what it has from then on, it is so at each moment.
    // Refused: desk_with_a_journal_begins_with_the_edits_of_its_movie.
    // A conversation that ends with the journal's fault ends at a line that is carried out, and nothing of its answer is
    // out. Where the head isn't written whole no door is opened, and the file has some first bytes of it; other
    // faults before leave it as it was, but that memory may be refused once it has its head. The end is the fault of the
    // least seat that has one.
    // Refused: desk_with_a_journal_drops_the_faults_of_its_seats,
    // begun_desk_with_a_journal_is_reported_as_unbegun.
    ensures { IsNotedDeskRun A D.facts J.kept doors.old.items doors.new.items
        (J.contents file) (J.contents result.file) (C.remaining cart.old) (C.remaining cart.new)
        (M.remaining movie.old) (M.remaining movie.new) (W.contents output.old)
        (W.contents output.new) result.has_begun result.end }
{
    match read_movie(alloc, cart, movie) {
        Ok(movie) => noted_desk_on(rt, alloc, global, file, movie, doors, output),
        Err(fault) => unbegun(file, DeskFault::Tool(fault)),
    }
}
