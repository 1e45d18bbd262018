//! `tas verify`: the lines of a manifest's movies, where their cartridges are found, and what somebody who waits is told.

use crate::checks::{check_same, check_that, expect_ok};
use crate::movies::{PLAYFIELD, STORING, image_of};
use crate::played_tests::{BY_FRAME, BY_STRETCH};
use crate::programs::{TWO_FRAMES, words_of};
use crate::two_files::check_ran;
use std::alloc::{Alloc, Global};
use std::fs::Files;
use std::io::{Error, ErrorKind, Write};
use std::process::Abort;
use std::sync::Wait;
use std::thread::Threads;
use std::time::Clock;
use std::{fs, io};
use tas_program::{Folder, OrdinaryFile, Permit, Streams, run_program};
use test_streams::{Failure, Giver, Room, Taker};

/// A file: its name and its bytes.
type Held<'a> = (&'a str, &'a [u8]);

/// A folder of these files, of which nothing is known; those of the directory `roms` have its name before theirs. No read of one of them works.
#[derive(Clone, Copy)]
struct Archive<'a> {
    files: &'a [Held<'a>],
    has_progress: bool,
    failing: &'a str,
}

/// The bytes of the file with this name.
fn bytes_of<'a>(files: &[Held<'a>], name: &str) -> Option<&'a [u8]> {
    for (other, bytes) in files {
        if *other == name {
            return Some(bytes);
        }
    }
    None
}

impl<'a> Folder for Archive<'a> {
    type File = Giver<'a>;

    type Sink = Taker;

    fn look(&self, name: &str) -> Option<OrdinaryFile> {
        let bytes = bytes_of(self.files, name)?;
        Some(OrdinaryFile {
            device: 1,
            number: 1,
            len: bytes.len() as u64,
        })
    }

    fn open(&self, name: &str) -> io::Result<Giver<'a>> {
        match bytes_of(self.files, name) {
            Some(bytes) => Ok(Giver::new(bytes, 1000, usize::from(name == self.failing))),
            None => Err(Error::from(ErrorKind::NotFound)),
        }
    }

    fn open_to_write(&self, _permit: Permit, _name: &str) -> io::Result<Taker> {
        Err(Error::from(ErrorKind::NotFound))
    }

    fn list(&self, alloc: Global, dir: &str) -> io::Result<Vec<String>> {
        if dir != "roms" {
            return Err(Error::from(ErrorKind::NotFound));
        }
        let mut names = Vec::new(alloc);
        for (name, _) in self.files {
            if let Some(name) = name.strip_prefix("roms/") {
                names.push(String::from_str(alloc, name)?)?;
            }
        }
        Ok(names)
    }

    fn has_progress(&self) -> bool {
        self.has_progress
    }
}

/// The words, the manifest, the status, the lines, and what standard error has, by hand.
type Case<'a> = (&'a [&'a str], &'a [u8], u8, &'a [u8], &'a [u8]);

const ALONE: &[&str] = &["verify"];

const FOUND: &[&str] = &["verify", "--carts", "roms"];

const NOT_ALL: &[u8] = b"fault: not all movies are ok\n";

static CASES: [Case<'static>; 10] = [
    (ALONE, b"", 0, b"0 of 0 ok\n", b""),
    (ALONE, b"a game.bin 1\n", 0, b"a: ok\n1 of 1 ok\n", b""),
    (
        &["verify", "--workers", "16"],
        b"# an archive\n\na game.bin 1 # by frames\na game.bin all\ngone game.bin 1\n",
        1,
        b"a: ok\na: ok\ngone: movie not found\n2 of 3 ok\n",
        NOT_ALL,
    ),
    (
        FOUND,
        b"a 820c64e9933496de683a000c5e11f0510fb7b1699b2ce86471295236b284906d all\n",
        0,
        b"a: ok\n1 of 1 ok\n",
        b"",
    ),
    // The file of the directory that has as many bytes is another cartridge.
    (
        FOUND,
        b"a af8b7369a82edda82776f158a41a6d44532e5dd90b590bc81f44cbfc39590b35 all\na a1ca090e446f626d5db5253eb1e9fbe96e54cc24cfad52f15d02d7a58a607432 all\n",
        1,
        b"a: movie line 2: digest\na: cartridge not found\n0 of 2 ok\n",
        NOT_ALL,
    ),
    (
        ALONE,
        b"a 820c64e9933496de683a000c5e11f0510fb7b1699b2ce86471295236b284906d all\n",
        1,
        b"a: cartridge not found\n0 of 1 ok\n",
        NOT_ALL,
    ),
    (
        FOUND,
        b"a game.bin 1\na game.bin bad\n",
        1,
        b"a: ok\na: differs at 1\n1 of 2 ok\n",
        NOT_ALL,
    ),
    (
        FOUND,
        b"a game.bin 1\na game.bin\n",
        1,
        b"",
        b"fault: manifest line 2\n",
    ),
    (
        &["verify", "--carts", "none"],
        b"a game.bin 1\n",
        1,
        b"",
        b"fault: carts: read failed\n",
    ),
    (
        ALONE,
        b"a game.bin a\na a a\n",
        1,
        b"a: differs in line 1\na: cartridge has 117 bytes\n0 of 2 ok\n",
        NOT_ALL,
    ),
];

/// The digest by frames with another byte in the last frame's line.
const CHANGED: &[u8] = b"a26digest 1
profile 2
cart 820c64e9933496de683a000c5e11f0510fb7b1699b2ce86471295236b284906d
movie caf5bdb8fe9e228d8bf98c2d45b125cf280b57a0375b4729c5f3d295e5d56bde
frames 0 to 1 ram 38723a2e5e8a17aa7950dc008209944e898f69a7bd10a23c839d341e935fd5ca picture 6ed57dfa7a73ebd28c562c1f4c1b542b3fe5b2a3a1f36aa7054cd7427dd07108
frames 1 to 2 ram 38723a2e5e8a17aa7950dc008209944e898f69a7bd10a23c839d341e935fd5ca picture 7ed57dfa7a73ebd28c562c1f4c1b542b3fe5b2a3a1f36aa7054cd7427dd07108
end 2 frames
";

/// The files of an archive with these two cartridges.
fn files_of<'a>(game: &'a [u8], other: &'a [u8]) -> [Held<'a>; 8] {
    [
        ("a", TWO_FRAMES),
        ("game.bin", game),
        ("1", BY_FRAME),
        ("all", BY_STRETCH),
        ("bad", CHANGED),
        ("roms/readme", TWO_FRAMES),
        ("roms/other game.bin", other),
        ("roms/GAME.A26", game),
    ]
}

/// Runs the program with these words and this manifest: its status. What it writes, and what it tells, goes to these writers.
fn run_on<T: Threads + Wait + Clock + Abort + Sync, F: Folder + Sync, W: Write, E: Write>(
    rt: &T,
    alloc: Global,
    folder: &F,
    words: &[&str],
    manifest: &[u8],
    output: &mut W,
    errors: &mut E,
) -> u8 {
    let words = words_of(rt, alloc, words).into_iter();
    let mut streams = Streams {
        input: manifest,
        output,
        errors,
    };
    run_program(rt, alloc, alloc, Ok(words), folder, &mut streams).code()
}

#[test]
fn each_manifest_has_its_lines(rt: HostRuntime) {
    let alloc = rt.alloc();
    let game = image_of(&rt, alloc, PLAYFIELD.bytes);
    let other = image_of(&rt, alloc, STORING.bytes);
    let files = files_of(game.as_slice(), other.as_slice());
    let folder = Archive {
        files: &files,
        has_progress: false,
        failing: "",
    };
    for (words, manifest, status, lines, told) in CASES.iter() {
        let (mut output, mut errors) = (Vec::new(alloc), Vec::new(alloc));
        let code = run_on(
            &rt,
            alloc,
            &folder,
            words,
            manifest,
            &mut output,
            &mut errors,
        );
        let found = (code, output.as_slice(), errors.as_slice());
        check_ran(&rt, words, found, (*status, lines, told));
    }
}

/// A manifest of a movie whose cartridge is looked for.
const LOOKED_FOR: &[u8] =
    b"a 820c64e9933496de683a000c5e11f0510fb7b1699b2ce86471295236b284906d all\n";

const FOUND_LINES: &[u8] = b"a: ok\n1 of 1 ok\n";

const LOST_LINES: &[u8] = b"a: cartridge not found\n0 of 1 ok\n";

/// Two names of the cartridge, the one of a file that can't be read, the status and the lines.
static PLACES: [([&str; 2], &str, u8, &[u8]); 5] = [
    (["roms/a", "roms/b"], "", 0, FOUND_LINES),
    (["roms/a", "roms/b"], "roms/a", 0, FOUND_LINES),
    (["roms/a", "b"], "roms/a", 1, LOST_LINES),
    (["roms/deeper/a", "b"], "", 1, LOST_LINES),
    (["roms/deeper/a", "roms/b"], "", 0, FOUND_LINES),
];

#[test]
fn files_that_cannot_be_read_or_are_deeper_are_left_out(rt: HostRuntime) {
    let alloc = rt.alloc();
    let game = image_of(&rt, alloc, PLAYFIELD.bytes);
    for (case, (names, failing, status, lines)) in PLACES.iter().enumerate() {
        let files = [
            ("a", TWO_FRAMES),
            ("all", BY_STRETCH),
            (names[0], game.as_slice()),
            (names[1], game.as_slice()),
        ];
        let folder = Archive {
            files: &files,
            has_progress: false,
            failing: *failing,
        };
        let (mut output, mut errors) = (Vec::new(alloc), Vec::new(alloc));
        let code = run_on(
            &rt,
            alloc,
            &folder,
            FOUND,
            LOOKED_FOR,
            &mut output,
            &mut errors,
        );
        check_same(&rt, case, (code, output.as_slice()), (*status, *lines));
    }
}

/// What somebody who waits is told of two movies, but for the rate.
const PROGRESS: &[u8] = b"verified: 2 movies, 0 left, ";

#[test]
fn progress_changes_nothing_else(rt: HostRuntime) {
    let alloc = rt.alloc();
    let game = image_of(&rt, alloc, PLAYFIELD.bytes);
    let files = files_of(game.as_slice(), b"");
    let folder = Archive {
        files: &files,
        has_progress: true,
        failing: "",
    };
    let lines: &[u8] = b"a: ok\na: ok\n2 of 2 ok\n";
    for room in [100_000, 28, 5, 0] {
        let mut output = Vec::new(alloc);
        let mut errors = Taker::new(alloc, 100_000, Room::Bytes(room), Failure::Error);
        let manifest = b"a game.bin 1\na game.bin all\n";
        let status = run_on(
            &rt,
            alloc,
            &folder,
            ALONE,
            manifest,
            &mut output,
            &mut errors,
        );
        check_same(&rt, room, (status, output.as_slice()), (0, lines));
        let first = PROGRESS.get(..room).unwrap_or(PROGRESS);
        check_that(&rt, room, errors.taken.as_slice().starts_with(first));
        let is_whole = errors.taken.as_slice().ends_with(b" frames a second\n");
        check_that(&rt, room, is_whole == (room == 100_000));
    }
}

#[test]
fn lines_that_cannot_be_written_are_a_fault(rt: HostRuntime) {
    let alloc = rt.alloc();
    let game = image_of(&rt, alloc, PLAYFIELD.bytes);
    let files = files_of(game.as_slice(), b"");
    let folder = Archive {
        files: &files,
        has_progress: false,
        failing: "",
    };
    for (room, line) in [
        (0, "fault: write failed after 0 bytes\n"),
        (7, "fault: write failed after 7 bytes\n"),
        (21, "fault: write failed after 21 bytes\n"),
    ] {
        let mut output = Taker::new(alloc, 1000, Room::Bytes(room), Failure::Error);
        let mut errors = Vec::new(alloc);
        let manifest = b"a game.bin 1\na game.bin all\n";
        let status = run_on(
            &rt,
            alloc,
            &folder,
            ALONE,
            manifest,
            &mut output,
            &mut errors,
        );
        let end = (status, errors.as_slice());
        check_same(&rt, room, end, (1, line.as_bytes()));
        let lines = b"a: ok\na: ok\n2 of 2 ok\n";
        check_same(&rt, room, output.taken.as_slice(), &lines[..room]);
    }
}

/// The folder of these files.
const PLACE: &str = "real_verify";

/// What is made in it: two directories, one in the other, and files.
static DIRS: [&str; 3] = [PLACE, "real_verify/roms", "real_verify/roms/deeper"];

fn make<R: Files + Abort>(rt: &R, name: &str, bytes: &[u8]) {
    expect_ok(rt, fs::write(rt, name, bytes));
}

/// Makes a folder with a movie, its digest, and its cartridge under another name.
fn make_archive<R: Files + Alloc + Abort>(rt: &R, game: &[u8]) {
    let _ = fs::remove_dir_all(rt, PLACE);
    for name in DIRS.iter() {
        expect_ok(rt, fs::create_dir(rt, *name));
    }
    make(rt, "real_verify/a movie", TWO_FRAMES);
    make(rt, "real_verify/digest", BY_STRETCH);
    make(rt, "real_verify/roms/notes", TWO_FRAMES);
    make(rt, "real_verify/roms/A Game (1982).a26", game);
}

#[test]
fn cartridges_are_found_in_a_real_directory(rt: HostRuntime) {
    let alloc = rt.alloc();
    let game = image_of(&rt, alloc, PLAYFIELD.bytes);
    make_archive(&rt, game.as_slice());
    let manifest =
        b"real_verify/a movie\t820c64e9933496de683a000c5e11f0510fb7b1699b2ce86471295236b284906d\treal_verify/digest\n";
    for (words, status, lines) in [
        (
            ["verify", "--carts", "real_verify/roms"],
            0,
            b"real_verify/a movie: ok\n1 of 1 ok\n".as_slice(),
        ),
        (
            ["verify", "--carts", "real_verify/roms/deeper"],
            1,
            b"real_verify/a movie: cartridge not found\n0 of 1 ok\n",
        ),
        (["verify", "--carts", "real_verify/none"], 1, b""),
        (["verify", "--carts", "real_verify/digest"], 1, b""),
    ] {
        let (mut output, mut errors) = (Vec::new(alloc), Vec::new(alloc));
        let code = run_on(
            &rt,
            alloc,
            &rt,
            words.as_slice(),
            manifest,
            &mut output,
            &mut errors,
        );
        check_same(&rt, words, (code, output.as_slice()), (status, lines));
    }
    expect_ok(&rt, fs::remove_dir_all(&rt, PLACE));
}
