//! Exports of a desk: after each refusal no worker has begun, nothing is written, history, movie and zones are as they were, and the same
//! export is right.

ghost use Rattle.std.specs.Prelude.{◌≡◌};
ghost use Rattle.tas_desk.specs.Seats.{name_of};

use crate::checks::{check_same, check_that, expect_ok};
use crate::desks::{Place, close, keep_up_to, make_edits, open, two_seats, with_history};
use crate::edits::{Change, FOLDING_OF_72, make_all};
use crate::runs::{
    Heap, NEVER, NOT_AS_BEFORE, NOT_TOLD, Run, count_growths, is_over, refuse, refusing,
};
use std::alloc::Global;
use std::marker::Brand;
use std::process::Abort;
use std::sync::Wait;
use std::sync::atomic::{AtomicU64, Ordering};
use std::thread::Threads;
use tas_desk::{
    CloseOnDrop, Desk, ExportError, Exported, Gate, MAX_WORKERS, Name, Seat, Shot, Unopened,
};
use tas_movie::Movie;
use vcs_machine::{Meter, State, play};
use vcs_tia::{Picture, ppm};

/// The frames that are exported, from the first one to the one before the second, after the first place of the grid.
const FRAMES: (usize, usize) = (66, 70);

/// What seat 1 does after the edits of seat 0, so that seat 0's zone is of an older movie.
static BEHIND: [Change; 1] = [Change::InsertUp(10)];

/// The zone of the seat that exports. It keeps the state after 64 frames.
#[derive(Clone, Copy, PartialEq, Eq)]
enum Zone {
    /// Of the present movie: the runs start from the state that is kept.
    Present,
    /// Of an older movie, whose state isn't the present one's: the runs start from power-on.
    Older,
}

/// An export, what its seat sees, and what it and a shot of the last of its frames answer.
#[derive(Drop)]
struct Wanted {
    zone: Zone,
    workers: usize,
    at: u64,
    len: usize,
    /// How many frames the export plays.
    played: u64,
    /// How many frames the shot plays.
    ran: u64,
    /// The pixmaps of the frames.
    pixmaps: Vec<u8>,
}

/// The pixmaps of the frames, played from power-on.
fn pixmaps_of<R: Abort>(rt: &R, alloc: Global, movie: &Movie) -> Vec<u8> {
    let mut pixmaps = Vec::new(alloc);
    let mut picture = expect_ok(rt, Picture::blank(alloc));
    let mut state = State::power_on(movie.cart());
    for (frame, input) in movie.inputs().iter().enumerate() {
        let mut meter = Meter::new();
        let played = play(movie.cart(), &mut state, *input, &mut picture, &mut meter);
        check_that(rt, ("frame", frame), played.is_ok());
        if FRAMES.0 <= frame && frame < FRAMES.1 {
            check_that(rt, ("pixmap", frame), ppm(&picture, &mut pixmaps).is_ok());
        }
    }
    pixmaps
}

/// What is wanted where an export by this many workers plays this many frames.
fn wanted_of<R: Abort>(rt: &R, alloc: Global, zone: Zone, workers: usize, played: u64) -> Wanted {
    let mut movie = expect_ok(rt, Movie::blank(alloc));
    make_all(rt, alloc, &mut movie, &FOLDING_OF_72);
    let (mut at, mut len, mut ran) = (3, 72, 6);
    if zone == Zone::Older {
        make_all(rt, alloc, &mut movie, &BEHIND);
        (at, len, ran) = (4, 73, 70);
    }
    Wanted {
        zone,
        workers,
        at,
        len,
        played,
        ran,
        pixmaps: pixmaps_of(rt, alloc, &movie),
    }
}

/// A gate that counts how many workers pass.
#[derive(Drop)]
struct Counting {
    passed: AtomicU64,
}

impl Gate for Counting {
    fn pass(&self, _run: usize) {
        self.passed.fetch_add(1, Ordering::SeqCst);
    }
}

/// Whether an export is right; nothing where memory is refused before any worker has passed the gate, with nothing written.
fn export<N: Name, W: CloseOnDrop, R: Threads + Wait + Abort + Sync>(
    place: &mut Place<'_, '_, N, W, R>,
    alloc: Global,
    wanted: &Wanted,
) -> Option<bool> {
    let (rt, heap, workers) = (place.rt, place.heap, wanted.workers);
    let (from, to) = FRAMES;
    let is_number = 1 <= workers && workers <= MAX_WORKERS;
    check_that(rt, ("workers", workers), is_number);
    let gate = Counting {
        passed: AtomicU64::new(0),
    };
    let mut out = Vec::new(alloc);
    let desk = place.desk;
    let end = desk.export(rt, heap, place.seat, from, to, workers, &gate, &mut out);
    let passed = gate.passed.load(Ordering::SeqCst);
    is_exported(end, passed, out.as_slice(), wanted)
}

/// Whether an export's end is right, where this many workers passed the gate and this was written.
fn is_exported(
    end: Result<Exported, ExportError>,
    passed: u64,
    out: &[u8],
    wanted: &Wanted,
) -> Option<bool> {
    match end {
        Ok(exported) => {
            let is_told = exported.at == wanted.at && exported.played == wanted.played;
            Some(is_told && passed == wanted.workers as u64 && out == wanted.pixmaps.as_slice())
        }
        Err(ExportError::Memory) if passed == 0 && out.is_empty() => None,
        Err(_) => Some(false),
    }
}

/// Whether the movie is as before the export, and so are the zones: the seat's keeps its state, and the desk's too, unless seat 1
/// made an edit before it. A job that starts there gives no state there.
fn is_as_before<N: Name, W: CloseOnDrop, R: Wait + Abort>(
    place: &mut Place<'_, '_, N, W, R>,
    alloc: Global,
    wanted: &Wanted,
) -> bool {
    let holds_first = place.batch(alloc, wanted.len).holds(64);
    let is_seen = place.desk.len(place.seat) == Ok((wanted.at, wanted.len));
    is_seen && place.seat.kept() == 1 && holds_first == (wanted.zone == Zone::Older)
}

/// Whether the seat's shot of the last frame is right, and starts from the seat's zone as it was.
fn shoots_last<N: Name, W: CloseOnDrop, R: Abort>(
    place: &mut Place<'_, '_, N, W, R>,
    alloc: Global,
    wanted: &Wanted,
) -> bool {
    match place.desk.shot(place.heap, place.seat, FRAMES.1 - 1) {
        Ok(shot) => is_last(place.rt, alloc, &shot, wanted),
        Err(_) => false,
    }
}

/// Whether a shot is right, and its picture that of the last frame.
fn is_last<R: Abort>(rt: &R, alloc: Global, shot: &Shot<&Heap>, wanted: &Wanted) -> bool {
    let mut pixmap = Vec::new(alloc);
    check_that(rt, "a pixmap", ppm(&shot.picture, &mut pixmap).is_ok());
    let is_told = shot.at == wanted.at && shot.ran == wanted.ran;
    is_told && wanted.pixmaps.ends_with(pixmap.as_slice())
}

/// An export with one growth refused, the same export after it, and a shot.
fn try_export<N: Name, W: CloseOnDrop, R: Threads + Wait + Abort + Sync>(
    place: &mut Place<'_, '_, N, W, R>,
    alloc: Global,
    wanted: &Wanted,
    number: u64,
) -> Run {
    refuse(place.heap, number);
    let mut answer = export(place, alloc, wanted);
    let has_refused = place.heap.has_refused();
    if has_refused {
        if answer.is_some() {
            return NOT_TOLD;
        }
        if !is_as_before(place, alloc, wanted) {
            return NOT_AS_BEFORE;
        }
        answer = export(place, alloc, wanted);
    }
    refuse(place.heap, NEVER);
    let is_as_before = is_as_before(place, alloc, wanted);
    let is_shot = shoots_last(place, alloc, wanted);
    Run::ended(has_refused, answer == Some(true) && is_as_before && is_shot)
}

/// The history at the end: an export adds nothing to it.
fn history_of(zone: Zone) -> &'static str {
    match zone {
        Zone::Present => "0 0 load\n0 1 insert 0 64\n0 2 insert 64 8\n",
        Zone::Older => "0 0 load\n0 1 insert 0 64\n0 2 insert 64 8\n1 0 insert 10 1\n",
    }
}

/// Seat 0 makes a movie and keeps a state; then an export of it with one growth refused, and the same export after it. Seat 1 may make
/// an edit between.
fn make_and_export<'a, N: Name, R: Threads + Wait + Abort + Sync>(
    rt: &R,
    alloc: Global,
    heap: &'a Heap,
    desk: &Desk<N, &R, &'a Heap>,
    seats: &mut [Seat<N, &'a Heap>],
    wanted: &Wanted,
    number: u64,
) -> Run {
    let (seat, other) = two_seats(rt, seats);
    make_edits(rt, heap, desk, seat, &FOLDING_OF_72);
    keep_up_to(rt, heap, desk, seat, 64);
    if wanted.zone == Zone::Older {
        make_edits(rt, heap, desk, other, &BEHIND);
    }
    let mut place = Place {
        rt,
        heap,
        desk,
        seat,
    };
    try_export(&mut place, alloc, wanted, number)
}

/// An export at a new desk, by seat 0, with one growth refused, and the same export after it.
fn export_at<'a, N: Name, R: Threads + Wait + Abort + Sync>(
    rt: &R,
    alloc: Global,
    heap: &'a Heap,
    unopened: Unopened<&'a Heap>,
    wanted: &Wanted,
    number: u64,
) -> Run
    requires name { unopened ≡ name_of N.registry N.name N.parts }
{
    let (desk, mut seats) = open::<N, R>(rt, heap, unopened);
    let run = make_and_export(rt, alloc, heap, &desk, seats.as_mut_slice(), wanted, number);
    let closed = close(rt, desk, seats);
    with_history(rt, alloc, run, &closed, history_of(wanted.zone))
}

/// An export with one growth refused, and the same export after it.
fn run_export<R: Threads + Wait + Abort + Sync>(
    rt: &R,
    alloc: Global,
    wanted: &Wanted,
    number: u64,
) -> Run {
    let heap = refusing(alloc, NEVER);
    let unopened = expect_ok(rt, Unopened::new(&heap, 2));
    export_at::<Brand, R>(rt, alloc, &heap, unopened, wanted, number)
}

/// Refuses each growth of an export by this many workers, which plays this many frames.
fn refuse_each<R: Threads + Wait + Abort + Sync>(
    rt: &R,
    alloc: Global,
    zone: Zone,
    workers: usize,
    played: u64,
    growths: u64,
) {
    let wanted = wanted_of(rt, alloc, zone, workers, played);
    let refused = count_growths(|number| {
        let run = run_export(rt, alloc, &wanted, number);
        is_over(rt, ("workers", workers, number), run)
    });
    check_same(rt, ("workers", workers), refused, growths);
}

/// The copy of the movie has two growths, the one of the zone one, the list of the runs one, and each run two.
#[test]
fn exports_from_a_zone_of_the_movie(rt: HostRuntime) {
    let alloc = rt.alloc();
    refuse_each(&rt, alloc, Zone::Present, 1, 6, 6);
    refuse_each(&rt, alloc, Zone::Present, 2, 10, 8);
    refuse_each(&rt, alloc, Zone::Present, 4, 18, 12);
}

/// A refused export doesn't cut the zone either.
#[test]
fn exports_from_a_zone_of_an_older_movie(rt: HostRuntime) {
    let alloc = rt.alloc();
    refuse_each(&rt, alloc, Zone::Older, 1, 70, 6);
    refuse_each(&rt, alloc, Zone::Older, 2, 138, 8);
    refuse_each(&rt, alloc, Zone::Older, 4, 274, 12);
}
