//! A file that is replaced, with each step refused in turn.

use crate::checks::{check_same, check_that, expect_ok};
use std::alloc::Global;
use std::io;
use std::io::{Error, ErrorKind};
use std::process::Abort;
use tas_program::{Directory, SaveFault, save};
use test_streams::{Failure, Room, Taker};

/// The steps that may fail.
#[derive(Clone, Copy, PartialEq, Eq, Debug)]
enum Step {
    Create,
    Keep,
    Rename,
}

/// A directory with the file `movie` and no more than one new file beside it. The first names of new files are taken.
#[derive(Drop)]
struct OneFile {
    alloc: Global,
    movie: Vec<u8>,
    part: Option<Taker>,
    made: usize,
    taken: usize,
    room: usize,
    fails: Option<Step>,
    removed: usize,
}

impl Directory for OneFile {
    type Sink = Taker;

    fn create_new(&mut self, name: &str) -> io::Result<Taker> {
        self.made = self.made.saturating_add(1);
        if self.made <= self.taken {
            return Err(Error::from(ErrorKind::AlreadyExists));
        }
        if self.fails == Some(Step::Create) || !name.starts_with("movie.part") {
            return Err(Error::from(ErrorKind::PermissionDenied));
        }
        let room = Room::Bytes(self.room);
        Ok(Taker::new(self.alloc, 1000, room, Failure::Error))
    }

    fn keep(&mut self, _name: &str, sink: Taker) -> io::Result<()> {
        self.part = Some(sink);
        if self.fails == Some(Step::Keep) {
            return Err(Error::from(ErrorKind::Other));
        }
        Ok(())
    }

    fn rename(&mut self, _from: &str, to: &str) -> io::Result<()> {
        if self.fails == Some(Step::Rename) || to != "movie" {
            return Err(Error::from(ErrorKind::Other));
        }
        if let Some(part) = self.part.take() {
            self.movie = part.taken;
        }
        Ok(())
    }

    fn remove(&mut self, _name: &str) {
        self.part = None;
        self.removed = self.removed.saturating_add(1);
    }
}

/// A directory whose file has the bytes `old`.
fn one_file<R: Abort>(rt: &R, alloc: Global, fails: Option<Step>) -> OneFile {
    let mut movie = Vec::new(alloc);
    expect_ok(rt, movie.extend_from_slice(b"old"));
    OneFile {
        alloc,
        movie,
        part: None,
        made: 0,
        taken: 0,
        room: 1000,
        fails,
        removed: 0,
    }
}

/// Fails where the file isn't replaced so, or has other bytes then, or a new file stays, or another number of them was made or removed.
fn check_saved<R: Abort>(
    rt: &R,
    number: usize,
    directory: &mut OneFile,
    end: Result<(), SaveFault>,
    (movie, made, removed): (&[u8], usize, usize),
) {
    let alloc = directory.alloc;
    let found = save(alloc, directory, "movie", b"new bytes");
    check_same(rt, ("end", number), found, end);
    check_same(rt, ("movie", number), directory.movie.as_slice(), movie);
    check_that(rt, ("no part", number), directory.part.is_none());
    let counts = (directory.made, directory.removed);
    check_same(rt, ("made, removed", number), counts, (made, removed));
}

/// Each step that may fail, how it ends then, and how many new files were removed.
static FAULTS: [(Step, SaveFault, usize); 3] = [
    (Step::Create, SaveFault::NotCreated, 0),
    (Step::Keep, SaveFault::NotSynced, 1),
    (Step::Rename, SaveFault::NotRenamed, 1),
];

#[test]
fn each_step_is_refused_in_turn(rt: HostRuntime) {
    let alloc = rt.alloc();
    let mut good = one_file(&rt, alloc, None);
    check_saved(&rt, 0, &mut good, Ok(()), (b"new bytes", 1, 0));
    for (number, (step, fault, removed)) in FAULTS.iter().enumerate() {
        let mut bad = one_file(&rt, alloc, Some(*step));
        let wanted = (b"old".as_slice(), 1, *removed);
        check_saved(&rt, number, &mut bad, Err(*fault), wanted);
    }
}

#[test]
fn each_write_is_refused_in_turn(rt: HostRuntime) {
    let alloc = rt.alloc();
    for room in 0..9 {
        let mut bad = one_file(&rt, alloc, None);
        bad.room = room;
        let end = Err(SaveFault::Write { written: room });
        check_saved(&rt, room, &mut bad, end, (b"old", 1, 1));
    }
}

#[test]
fn names_that_are_taken_are_left_alone(rt: HostRuntime) {
    let alloc = rt.alloc();
    let mut some = one_file(&rt, alloc, None);
    some.taken = 99;
    check_saved(&rt, 99, &mut some, Ok(()), (b"new bytes", 100, 0));
    let mut all = one_file(&rt, alloc, None);
    all.taken = 100;
    let end = Err(SaveFault::NotCreated);
    check_saved(&rt, 100, &mut all, end, (b"old", 100, 0));
}
