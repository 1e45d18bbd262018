//! What somebody at a terminal is told, and that nothing else differs there.

ghost use Rattle.std.specs.Prelude.{Some, if◌then◌else◌, codes};
ghost use Rattle.std.specs.Prelude.{nat_eq};
ghost use Rattle.std.specs.Cmp.Lexicographic.{pointwise};

use crate::checks::{check_same, check_that};
use crate::movies::{PLAYFIELD, image_of};
use crate::programs::{ONE_FRAME, words_of};
use crate::two_files::End;
use std::alloc::Global;
use std::io;
use std::io::{Error, ErrorKind};
use std::process::Abort;
use std::sync::Wait;
use std::thread::Threads;
use std::time::Clock;
use tas_program::{Folder, OrdinaryFile, Permit, Streams, run_program};
use test_streams::{Failure, Room, Taker};

/// A folder whose file `game.bin` is this cartridge, and each other one this movie; `same` is a second name of the cartridge's file. It has a
/// terminal, or none.
#[derive(Clone, Copy)]
struct Place<'a> {
    game: &'a [u8],
    movie: &'a [u8],
    has_terminal: bool,
}

impl<'a> Folder for Place<'a> {
    type File = &'a [u8];

    type Sink = Taker;

    ghost bytes_of = { λ s name. Some
        (if pointwise nat_eq name (codes "game.bin") then s.game.now else s.movie.now) };

    fn look(&self, name: &str) -> Option<OrdinaryFile> {
        match name {
            "game.bin" | "same" => Some(OrdinaryFile {
                device: 1,
                number: 1,
                len: 4096,
            }),
            _ => None,
        }
    }

    fn open(&self, name: &str) -> io::Result<&'a [u8]> {
        match name {
            "game.bin" => Ok(self.game),
            _ => Ok(self.movie),
        }
    }

    fn open_to_write(&self, _permit: Permit, _name: &str) -> io::Result<Taker> {
        Err(Error::from(ErrorKind::NotFound))
    }

    fn has_terminal(&self) -> bool {
        self.has_terminal
    }
}

/// The words, and the line, by hand.
type Case<'a> = (&'a [&'a str], &'a str);

/// A word at fault is reported without it.
static CASES: [Case<'static>; 26] = [
    (
        &["trace", "3"],
        "waiting: the cartridge is read from standard input: tas trace 3 < game.bin\n",
    ),
    (
        &["check", "game.bin"],
        "waiting: the movie is read from standard input: tas check game.bin < game.movie\n",
    ),
    (
        &["migrate", "game.bin"],
        "waiting: the movie is read from standard input: tas migrate game.bin -o new.movie < old.movie\n",
    ),
    (
        &["recover", "game.bin"],
        "waiting: the journal is read from standard input: tas recover game.bin -o game.movie < game.journal\n",
    ),
    (
        &["search", "game.bin", "0", "1", "reach 1"],
        "waiting: the movie is read from standard input: tas search game.bin 60 12 'reach byte:80 == 85' < game.movie\n",
    ),
    (
        &["verify"],
        "waiting: the manifest is read from standard input: tas verify --carts roms < movies.manifest\n",
    ),
    (
        &["shot", "game.bin", "0"],
        "waiting: the movie is read from standard input: tas shot game.bin 60 < game.movie > frame60.ppm\n",
    ),
    (
        &["film", "game.bin"],
        "waiting: the movie is read from standard input: tas film game.bin 0 600 < game.movie > film.ppm\n",
    ),
    (
        &["export", "game.bin", "0", "1", "1"],
        "waiting: the movie is read from standard input: tas export game.bin 0 600 4 < game.movie > film.ppm\n",
    ),
    (
        &["ram", "game.bin", "0", "1"],
        "waiting: the movie is read from standard input: tas ram game.bin 1 61 < game.movie\n",
    ),
    (
        &["digest", "game.bin"],
        "waiting: the movie is read from standard input: tas digest game.bin 600 < game.movie\n",
    ),
    (
        &["compare", "game.bin", "old"],
        "waiting: the newer movie is read from standard input: tas compare game.bin old.movie < new.movie\n",
    ),
    (
        &["lag", "game.bin"],
        "waiting: the movie is read from standard input: tas lag game.bin < game.movie\n",
    ),
    (
        &["edit", "game.bin", "script"],
        "waiting: the movie is read from standard input: tas edit game.bin fix.script -o new.movie < game.movie\n",
    ),
    (
        &["cut", "game.bin", "0", "1"],
        "waiting: the movie is read from standard input: tas cut game.bin 60 120 -o new.movie < game.movie\n",
    ),
    (
        &["diff", "game.bin", "old"],
        "waiting: the newer movie is read from standard input: tas diff game.bin old.movie < new.movie\n",
    ),
    (
        &["script"],
        "waiting: the script is read from standard input: tas script < game.script\n",
    ),
    (
        &["script", "--cart", "game.bin", "--movie", "movie"],
        "waiting: the script is read from standard input: tas script < game.script\n",
    ),
    (&["new", "game.bin", "1"], ""),
    (&["talk", "game.bin"], ""),
    (&["desk", "game.bin", "movie", "in0", "out0"], ""),
    (&["shot", "game.bin"], ""),
    (&["shot", "--help"], ""),
    (&["cut", "game.bin", "0", "1", "-o", "same"], ""),
    (
        &["cut", "game.bin", "0", "1", "-o", "new"],
        "waiting: the movie is read from standard input: tas cut game.bin 60 120 -o new.movie < game.movie\n",
    ),
    (&["--version"], ""),
];

/// Runs the program with these words in this place: its status. What it writes, and what it reports, goes to these writers.
fn run_at<T: Threads + Wait + Clock + Abort + Sync>(
    rt: &T,
    alloc: Global,
    place: Place<'_>,
    words: &[&str],
    output: &mut Vec<u8>,
    errors: &mut Taker,
) -> u8 {
    let words = words_of(rt, alloc, words).into_iter();
    let mut streams = Streams {
        input: ONE_FRAME,
        output,
        errors,
    };
    run_program(rt, alloc, alloc, Ok(words), &place, &mut streams).code()
}

/// A writer with this much room.
fn taker(alloc: Global, room: usize) -> Taker {
    Taker::new(alloc, 100_000, Room::Bytes(room), Failure::Error)
}

/// Fails where the program at a terminal ends in another way than elsewhere, or writes other bytes, or says something else than this line
/// and what it says elsewhere.
fn check_case<R: Threads + Wait + Clock + Abort + Sync>(
    rt: &R,
    alloc: Global,
    game: &[u8],
    (words, line): Case<'_>,
) {
    let (mut plain, mut output) = (Vec::new(alloc), Vec::new(alloc));
    let (mut elsewhere, mut told) = (taker(alloc, 100_000), taker(alloc, 100_000));
    let place = Place {
        game,
        movie: ONE_FRAME,
        has_terminal: false,
    };
    let status = run_at(rt, alloc, place, words, &mut plain, &mut elsewhere);
    let place = Place {
        game,
        movie: ONE_FRAME,
        has_terminal: true,
    };
    let found = run_at(rt, alloc, place, words, &mut output, &mut told);
    check_same(rt, ("status", words), found, status);
    check_that(rt, ("output", words), output == plain);
    let (told, elsewhere) = (told.taken.as_slice(), elsewhere.taken.as_slice());
    check_that(rt, ("line", words), told.starts_with(line.as_bytes()));
    let rest = told.get(line.len()..).unwrap_or(b"");
    check_same(rt, ("the rest", words), rest, elsewhere);
}

#[test]
fn whoever_types_is_told_what_is_waited_for(rt: HostRuntime) {
    let alloc = rt.alloc();
    let game = image_of(&rt, alloc, PLAYFIELD.bytes);
    for case in CASES.iter() {
        check_case(&rt, alloc, game.as_slice(), *case);
    }
}

#[test]
fn line_that_cannot_be_written_changes_nothing(rt: HostRuntime) {
    let alloc = rt.alloc();
    let game = image_of(&rt, alloc, PLAYFIELD.bytes);
    let place = Place {
        game: game.as_slice(),
        movie: ONE_FRAME,
        has_terminal: true,
    };
    let (mut output, mut errors) = (Vec::new(alloc), taker(alloc, 5));
    let words = ["check", "game.bin"];
    let status = run_at(
        &rt,
        alloc,
        place,
        words.as_slice(),
        &mut output,
        &mut errors,
    );
    let end: End<'_> = (status, output.as_slice(), errors.taken.as_slice());
    check_same(&rt, "end", end, (0, b"ok 1 frames\n", b"waiti"));
}
