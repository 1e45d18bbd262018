//! The file that the cartridge of a recovery replaces, over files in memory: what it gets, each step that fails, and words that are refused.

use crate::checks::{check_same, check_that, expect_ok};
use crate::desk_files::{Ordinary, Sink, Tape, blank_tape};
use crate::movies::{FOLDING, PLAYFIELD, SMALL_PLAYFIELD, image_of, small_image_of};
use crate::programs::{AFTER_TWO, JOURNAL, ONE_FRAME, run_in};
use std::alloc::Global;
use std::io;
use std::io::{Error, ErrorKind};
use std::process::Abort;
use std::sync::Wait;
use std::sync::atomic::{AtomicUsize, Ordering};
use std::thread::Threads;
use std::time::Clock;
use tas_program::{Folder, OrdinaryFile, Permit};
use test_streams::{Failure, Giver, Room, Taker};

/// The steps of the cartridge's file that may fail.
#[derive(Clone, Copy, PartialEq, Eq)]
enum Step {
    Nothing,
    Create,
    Sync,
    Rename,
}

/// What the cartridge's file can do: which step fails, and how many bytes it takes.
type Disk = (Step, usize);

/// A disk with enough of all.
const AMPLE: Disk = (Step::Nothing, usize::MAX);

/// A folder with the file `game.bin`, in which `last`, a cartridge, and `new`, a movie, can be replaced. The names of `ordinary` stand for
/// ordinary files.
#[derive(Drop)]
struct ImageFolder<'a> {
    game: &'a [u8],
    ordinary: &'a [Ordinary<'a>],
    last: &'a Tape,
    new: &'a Tape,
    disk: Disk,
    /// How many files were opened or made, how many took a name, and how many were removed.
    opened: AtomicUsize,
    renamed: AtomicUsize,
    removed: AtomicUsize,
}

impl<'a> Folder for ImageFolder<'a> {
    type File = Giver<'a>;

    type Sink = Sink<'a>;

    fn look(&self, name: &str) -> Option<OrdinaryFile> {
        for (known, (device, number, len)) in self.ordinary {
            if name == *known {
                return Some(OrdinaryFile {
                    device: *device,
                    number: *number,
                    len: *len,
                });
            }
        }
        None
    }

    fn open(&self, name: &str) -> io::Result<Giver<'a>> {
        self.opened.fetch_add(1, Ordering::SeqCst);
        if name == "game.bin" {
            Ok(Giver::new(self.game, usize::MAX, 0))
        } else {
            Err(Error::from(ErrorKind::NotFound))
        }
    }

    fn open_to_write(&self, _permit: Permit, _name: &str) -> io::Result<Sink<'a>> {
        Err(Error::from(ErrorKind::NotFound))
    }

    fn create_new(&self, _permit: Permit, name: &str) -> io::Result<Sink<'a>> {
        self.opened.fetch_add(1, Ordering::SeqCst);
        let (fails, room) = self.disk;
        if name == "last.part0" && fails != Step::Create {
            return Ok(Sink {
                tape: self.last,
                room,
            });
        }
        if name == "new.part0" {
            return Ok(Sink {
                tape: self.new,
                room: usize::MAX,
            });
        }
        Err(Error::from(ErrorKind::PermissionDenied))
    }

    fn sync(&self, name: &str, _sink: &mut Sink<'a>) -> io::Result<()> {
        let (fails, _) = self.disk;
        if name == "last.part0" && fails == Step::Sync {
            Err(Error::from(ErrorKind::StorageFull))
        } else {
            Ok(())
        }
    }

    fn rename(&self, _permit: Permit, from: &str, to: &str) -> io::Result<()> {
        let (fails, _) = self.disk;
        let is_image = from == "last.part0" && to == "last" && fails != Step::Rename;
        let is_movie = from == "new.part0" && to == "new";
        if is_image || is_movie {
            self.renamed.fetch_add(1, Ordering::SeqCst);
            Ok(())
        } else {
            Err(Error::from(ErrorKind::NotFound))
        }
    }

    fn remove(&self, _permit: Permit, _name: &str) {
        self.removed.fetch_add(1, Ordering::SeqCst);
    }
}

/// The head of a journal that begins with the movie of one frame: six lines. The digests come from another program.
const HEAD: &[u8] =
    b"a26journal 1\nprofile 2\nmovie 99 a1ca090e446f626d5db5253eb1e9fbe96e54cc24cfad52f15d02d7a58a607432\na26movie 2\ncart 820c64e9933496de683a000c5e11f0510fb7b1699b2ce86471295236b284906d\n..... ..... .....\n";

/// The movie of one frame after another cartridge was loaded, and after a small one was.
const LOADED: &[u8] =
    b"a26movie 2\ncart 01cd4f43e4064c0915ec1dde6c9364a0d994bc18d980d88e45a83ec89a41c425\n..... ..... .....\n";

const SMALL: &[u8] =
    b"a26movie 2\ncart b5fe266be72b749b56221450f897d39d577232bbd24bd6ff58aa186cb39c84d7\n..... ..... .....\n";

const RECOVER: &[&str] = &["recover", "game.bin", "--cart", "last"];

const INTO_NEW: &[&str] = &["recover", "game.bin", "--cart", "last", "-o", "new"];

const BEFORE_LOAD: &[&str] = &["recover", "game.bin", "--until", "7", "--cart", "last"];

const ONE_EDIT: &[u8] = b"recovered: 1 edits\n";

/// The journal of one edit that loads an image.
fn loading<R: Abort>(rt: &R, alloc: Global, word: &[u8], image: &[u8]) -> Vec<u8> {
    let mut journal = expect_ok(rt, Vec::from_slice(alloc, HEAD));
    expect_ok(rt, journal.extend_from_slice(b"0 3 "));
    expect_ok(rt, journal.extend_from_slice(word));
    expect_ok(rt, journal.extend_from_slice(b" 000="));
    let digits = b"0123456789ABCDEF";
    for byte in image {
        for digit in [*byte / 16, *byte % 16] {
            let letter = digits.get(digit as usize).copied().unwrap_or(b'?');
            expect_ok(rt, journal.push(letter));
        }
    }
    expect_ok(rt, journal.push(b'\n'));
    journal
}

/// A folder of these ordinary files.
fn folder_of<'a>(
    game: &'a [u8],
    last: &'a Tape,
    new: &'a Tape,
    disk: Disk,
    ordinary: &'a [Ordinary<'a>],
) -> ImageFolder<'a> {
    ImageFolder {
        game,
        ordinary,
        last,
        new,
        disk,
        opened: AtomicUsize::new(0),
        renamed: AtomicUsize::new(0),
        removed: AtomicUsize::new(0),
    }
}

/// How a run ends: the status, standard output, and the line on standard error.
type End<'a> = (u8, &'a [u8], &'a [u8]);

/// How many files were opened or made, took a name, and were removed.
type Counts = (usize, usize, usize);

/// Fails where a recovery over this folder ends in another way, or has other files opened.
fn check_run<T: Threads + Wait + Clock + Abort + Sync>(
    rt: &T,
    alloc: Global,
    (words, folder): (&[&str], &ImageFolder<'_>),
    journal: &[u8],
    room: usize,
    (status, written, line): End<'_>,
    counts: Counts,
) {
    let mut output = Vec::new(alloc);
    let mut errors = Taker::new(alloc, 1000, Room::Bytes(room), Failure::Error);
    let code = run_in(rt, alloc, folder, journal, words, &mut output, &mut errors);
    check_same(rt, ("line", words), errors.taken.as_slice(), line);
    check_same(rt, ("status", words), code, status);
    check_same(rt, ("output", words), output.as_slice(), written);
    let found = (
        folder.opened.load(Ordering::SeqCst),
        folder.renamed.load(Ordering::SeqCst),
        folder.removed.load(Ordering::SeqCst),
    );
    check_same(rt, ("opened, renamed, removed", words), found, counts);
}

/// Fails where the files get something else than this image and this movie.
fn check_files<T: Threads + Wait + Clock + Abort + Sync>(
    rt: &T,
    alloc: Global,
    words: &[&str],
    (game, journal): (&[u8], &[u8]),
    (end, opened, renamed): (End<'_>, usize, usize),
    (image, movie): (&[u8], &[u8]),
) {
    let (last, new) = (blank_tape(rt, alloc, 4096), blank_tape(rt, alloc, 128));
    let folder = folder_of(game, &last, &new, AMPLE, &[]);
    let counts = (opened, renamed, 0);
    check_run(rt, alloc, (words, &folder), journal, 1000, end, counts);
    check_that(rt, ("cartridge", words), last.holds(image));
    check_that(rt, ("movie", words), new.holds(movie));
}

/// The file gets the cartridge that the movie names, whether or not an edit loaded it.
#[test]
fn cartridges_replace_files(rt: HostRuntime) {
    let alloc = rt.alloc();
    let game = image_of(&rt, alloc, PLAYFIELD.bytes);
    let game = game.as_slice();
    let folding = image_of(&rt, alloc, FOLDING.bytes);
    let folding = folding.as_slice();
    let small = small_image_of(&rt, alloc, SMALL_PLAYFIELD.bytes);
    let small = small.as_slice();
    let loads = loading(&rt, alloc, b"load", folding);
    let files = (game, loads.as_slice());
    let end = ((0, LOADED, ONE_EDIT), 2, 1);
    check_files(&rt, alloc, RECOVER, files, end, (folding, b""));
    let end = ((0, b"".as_slice(), ONE_EDIT), 3, 2);
    check_files(&rt, alloc, INTO_NEW, files, end, (folding, LOADED));
    let line = b"recovered: 0 edits\n".as_slice();
    let end = ((0, ONE_FRAME, line), 2, 1);
    check_files(&rt, alloc, BEFORE_LOAD, files, end, (game, b""));
    let loads = loading(&rt, alloc, b"load2", small);
    let files = (game, loads.as_slice());
    let end = ((0, SMALL, ONE_EDIT), 2, 1);
    check_files(&rt, alloc, RECOVER, files, end, (small, b""));
    let line = b"recovered: 2 edits\n".as_slice();
    let end = ((0, AFTER_TWO, line), 2, 1);
    check_files(&rt, alloc, RECOVER, (game, JOURNAL), end, (game, b""));
}

/// The disk, the line and how many new files are removed, by hand. Whatever fails, the movie's text is out before, and no report comes.
static FAILURES: [(Disk, &[u8], usize); 6] = [
    (
        (Step::Create, usize::MAX),
        b"fault: IMAGE: not created\n",
        0,
    ),
    ((Step::Sync, usize::MAX), b"fault: IMAGE: not synced\n", 1),
    (
        (Step::Rename, usize::MAX),
        b"fault: IMAGE: not renamed\n",
        1,
    ),
    (
        (Step::Nothing, 0),
        b"fault: IMAGE: write failed after 0 bytes\n",
        1,
    ),
    (
        (Step::Nothing, 1),
        b"fault: IMAGE: write failed after 1 bytes\n",
        1,
    ),
    (
        (Step::Nothing, 4095),
        b"fault: IMAGE: write failed after 4095 bytes\n",
        1,
    ),
];

#[test]
fn each_step_of_the_cartridge_fails(rt: HostRuntime) {
    let alloc = rt.alloc();
    let game = image_of(&rt, alloc, PLAYFIELD.bytes);
    let folding = image_of(&rt, alloc, FOLDING.bytes);
    let loads = loading(&rt, alloc, b"load", folding.as_slice());
    for (disk, line, removed) in FAILURES.iter() {
        for (words, written) in [(RECOVER, LOADED), (INTO_NEW, b"".as_slice())] {
            let last = blank_tape(&rt, alloc, 4096);
            let new = blank_tape(&rt, alloc, 128);
            let folder = folder_of(game.as_slice(), &last, &new, *disk, &[]);
            let counts = (2, 0, *removed);
            let end = (1, written, *line);
            let run = (words, &folder);
            check_run(&rt, alloc, run, loads.as_slice(), 1000, end, counts);
            check_that(&rt, ("no movie", words), new.holds(b""));
        }
    }
}

/// The words, the journal, room for the report, and by hand the end and the counts: no cartridge is kept where nothing is recovered, and one is
/// where only the report isn't written whole, but then no movie replaces a file.
type Fault<'a> = (&'a [&'a str], &'a [u8], usize, End<'a>, Counts);

static FAULTS: [Fault<'static>; 5] = [
    (
        &["recover", "none", "--cart", "last"],
        JOURNAL,
        1000,
        (1, b"", b"fault: read failed\n"),
        (1, 0, 0),
    ),
    (
        RECOVER,
        b"a26journal 2\n",
        1000,
        (1, b"", b"fault: journal line 1: head\n"),
        (1, 0, 0),
    ),
    (
        INTO_NEW,
        b"a26journal 2\n",
        1000,
        (1, b"", b"fault: journal line 1: head\n"),
        (1, 0, 0),
    ),
    (
        RECOVER,
        JOURNAL,
        18,
        (1, AFTER_TWO, b"recovered: 2 edits"),
        (2, 1, 0),
    ),
    (
        INTO_NEW,
        JOURNAL,
        18,
        (1, b"", b"recovered: 2 edits"),
        (2, 1, 0),
    ),
];

#[test]
fn other_faults_of_a_recovery(rt: HostRuntime) {
    let alloc = rt.alloc();
    let game = image_of(&rt, alloc, PLAYFIELD.bytes);
    for (words, journal, room, end, counts) in FAULTS.iter() {
        let last = blank_tape(&rt, alloc, 4096);
        let new = blank_tape(&rt, alloc, 128);
        let folder = folder_of(game.as_slice(), &last, &new, AMPLE, &[]);
        check_run(&rt, alloc, (words, &folder), journal, *room, *end, *counts);
        let (_, renamed, _) = *counts;
        let kept = if renamed == 1 { game.as_slice() } else { b"" };
        check_that(&rt, ("cartridge", words), last.holds(kept));
        check_that(&rt, ("no movie", words), new.holds(b""));
    }
}

/// The words, which of them are ordinary files, and the line, by hand.
type Refusal<'a> = (&'a [&'a str], &'a [Ordinary<'a>], &'a [u8]);

static REFUSALS: [Refusal<'static>; 8] = [
    (
        RECOVER,
        &[("last", (1, 1, 9)), ("game.bin", (1, 1, 9))],
        b"fault: IMAGE: same file as CART\n",
    ),
    (
        RECOVER,
        &[("last", (1, 1, 0)), ("/dev/stdin", (1, 1, 0))],
        b"fault: IMAGE: same file as standard input\n",
    ),
    (
        RECOVER,
        &[("last", (1, 1, 0)), ("/dev/stdout", (1, 1, 0))],
        b"fault: IMAGE: same file as standard output\n",
    ),
    (
        RECOVER,
        &[("game.bin", (1, 1, 9)), ("/dev/stdin", (1, 1, 9))],
        b"fault: standard input: same file as CART\n",
    ),
    (
        RECOVER,
        &[("/dev/stdin", (1, 1, 9)), ("/dev/stdout", (1, 1, 9))],
        b"fault: standard output: same file as standard input\n",
    ),
    (
        INTO_NEW,
        &[("last", (1, 1, 9)), ("new", (1, 1, 9))],
        b"fault: FILE: same file as IMAGE\n",
    ),
    (
        INTO_NEW,
        &[
            ("last", (1, 1, 9)),
            ("new", (1, 1, 9)),
            ("game.bin", (1, 1, 9)),
        ],
        b"fault: IMAGE: same file as CART\n",
    ),
    // Neither file is there yet.
    (
        &["recover", "game.bin", "--cart", "new", "-o", "new"],
        &[],
        b"fault: FILE: same file as IMAGE\n",
    ),
];

#[test]
fn words_of_one_file_are_refused(rt: HostRuntime) {
    let alloc = rt.alloc();
    let game = image_of(&rt, alloc, PLAYFIELD.bytes);
    let (last, new) = (blank_tape(&rt, alloc, 1), blank_tape(&rt, alloc, 1));
    for (words, ordinary, line) in REFUSALS.iter() {
        let folder = folder_of(game.as_slice(), &last, &new, AMPLE, ordinary);
        let (end, counts) = ((2, b"".as_slice(), *line), (0, 0, 0));
        check_run(&rt, alloc, (words, &folder), JOURNAL, 1000, end, counts);
    }
}

/// Files that are others, and a recovery without the word, whose files aren't looked at.
static ACCEPTED: [(&[&str], &[Ordinary<'static>], Counts); 3] = [
    (
        RECOVER,
        &[("last", (1, 1, 9)), ("/dev/stdin", (1, 2, 9))],
        (2, 1, 0),
    ),
    (
        RECOVER,
        &[("last", (1, 1, 9)), ("game.bin", (2, 1, 9))],
        (2, 1, 0),
    ),
    (
        &["recover", "game.bin"],
        &[("game.bin", (1, 1, 9)), ("/dev/stdin", (1, 1, 9))],
        (1, 0, 0),
    ),
];

#[test]
fn words_of_other_files_are_accepted(rt: HostRuntime) {
    let alloc = rt.alloc();
    let game = image_of(&rt, alloc, PLAYFIELD.bytes);
    for (words, ordinary, counts) in ACCEPTED.iter() {
        let last = blank_tape(&rt, alloc, 4096);
        let new = blank_tape(&rt, alloc, 1);
        let folder = folder_of(game.as_slice(), &last, &new, AMPLE, ordinary);
        let end = (0, AFTER_TWO, b"recovered: 2 edits\n".as_slice());
        check_run(&rt, alloc, (words, &folder), JOURNAL, 1000, end, *counts);
    }
}
