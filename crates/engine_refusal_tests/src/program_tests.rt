//! The whole program with one growth refused: of its words, of its texts, and of what it does.

use crate::checks::{check_same, check_that, expect_ok};
use crate::heaps::{Heap, NEVER, refuse, refusing};
use crate::inputs::{Bytes, make_inputs};
use std::alloc::Global;
use std::env::Args;
use std::io;
use std::io::{Error, ErrorKind};
use std::process::Abort;
use std::sync::Wait;
use std::sync::atomic::{AtomicUsize, Ordering};
use std::thread::Threads;
use std::time::Clock;
use tas_program::{Folder, OrdinaryFile, Permit, Streams, run_program};
use test_streams::{Failure, Giver, Room, Taker};

/// A folder with the files `game.bin`, `fix.script`, `choices` and `names`, in which a file `new` can be made. It counts how often this is
/// renamed.
#[derive(Drop)]
struct TwoFiles<'a> {
    alloc: Global,
    game: &'a [u8],
    renames: AtomicUsize,
}

/// The script `fix.script`.
const SCRIPT: &[u8] = b"delete 0 1\n";

/// The choices of a search, and its names.
const CHOICES: &[u8] = b"..... ..... .....\nR.... ..... .....\n";

const NAMES: &[u8] = b"n 80\n";

impl<'a> Folder for TwoFiles<'a> {
    type File = Giver<'a>;

    type Sink = Taker;

    fn look(&self, _name: &str) -> Option<OrdinaryFile> {
        None
    }

    fn open(&self, name: &str) -> io::Result<Giver<'a>> {
        let bytes = match name {
            "game.bin" => self.game,
            "fix.script" => SCRIPT,
            "choices" => CHOICES,
            "names" => NAMES,
            _ => return Err(Error::from(ErrorKind::NotFound)),
        };
        Ok(Giver::new(bytes, usize::MAX, 0))
    }

    fn open_to_write(&self, _permit: Permit, _name: &str) -> io::Result<Taker> {
        Err(Error::from(ErrorKind::NotFound))
    }

    fn create_new(&self, _permit: Permit, _name: &str) -> io::Result<Taker> {
        Ok(Taker::new(self.alloc, 1000, Room::Bytes(1000), Failure::Error))
    }

    fn sync(&self, _name: &str, _sink: &mut Taker) -> io::Result<()> {
        Ok(())
    }

    fn rename(&self, _permit: Permit, _from: &str, _to: &str) -> io::Result<()> {
        self.renames.fetch_add(1, Ordering::SeqCst);
        Ok(())
    }
}

/// How the program ended: its status, what it wrote, what it told of faults, and how often it renamed a file.
#[derive(Drop)]
struct End {
    status: u8,
    written: Vec<u8>,
    told: Vec<u8>,
    renames: usize,
}

/// Whether two ends are alike.
fn are_alike(one: &End, other: &End) -> bool {
    (one.status, one.renames) == (other.status, other.renames)
        && one.written == other.written
        && one.told == other.told
}

/// Whether it ended out of memory, with nothing written and no file renamed.
fn is_refused(end: &End) -> bool {
    let line = b"fault: out of memory\n".as_slice();
    (end.status, end.renames) == (1, 0) && end.written.is_empty() && end.told.as_slice() == line
}

/// These words in memory of the heap; none stand for some that aren't text.
fn words_of<'a, R: Abort>(rt: &R, heap: &'a Heap, words: &[&str]) -> io::Result<Args<&'a Heap>> {
    if words.is_empty() {
        return Err(Error::from(ErrorKind::InvalidData));
    }
    let mut all = Vec::new(heap);
    for word in words {
        let word = expect_ok(rt, String::from_str(heap, word));
        expect_ok(rt, all.push(word));
    }
    Ok(all.into_iter())
}

/// A run with one growth refused, and whether it came to that one.
fn run_refused<T: Wait + Threads + Clock + Abort + Sync>(
    rt: &T,
    alloc: Global,
    words: &[&str],
    (game, input): (&[u8], &[u8]),
    number: u64,
) -> (End, bool) {
    let heap = refusing(alloc, NEVER);
    let words = words_of(rt, &heap, words);
    let mut written = Vec::new(alloc);
    let mut told = Vec::new(alloc);
    refuse(&heap, number);
    let mut streams = Streams {
        input,
        output: &mut written,
        errors: &mut told,
    };
    let folder = TwoFiles {
        alloc,
        game,
        renames: AtomicUsize::new(0),
    };
    let status = run_program(rt, alloc, &heap, words, &folder, &mut streams).code();
    let end = End {
        status,
        written,
        told,
        renames: folder.renames.load(Ordering::SeqCst),
    };
    (end, heap.has_refused())
}

/// No run grows so often here.
const MOST: u64 = 100;

/// Refuses a run its growths in turn, until it grows no more: how many of them ended it, and at how many it ended as ever. Else the first
/// growth that went wrong.
fn count_refused<T: Wait + Threads + Clock + Abort + Sync>(
    rt: &T,
    alloc: Global,
    words: &[&str],
    streams: (&[u8], &[u8]),
) -> Result<(u64, u64), u64> {
    let (whole, _) = run_refused(rt, alloc, words, streams, NEVER);
    let (mut refused, mut ended) = (0u64, 0u64);
    for number in 1..MOST {
        let (end, has_refused) = run_refused(rt, alloc, words, streams, number);
        match (has_refused, are_alike(&end, &whole), is_refused(&end)) {
            (false, true, _) => return Ok((refused, ended)),
            (true, true, _) => ended = ended.saturating_add(1),
            (true, false, true) => refused = refused.saturating_add(1),
            _ => return Err(number),
        }
    }
    Err(MOST)
}

/// Words, whether the input is the cartridge or a movie of three frames, how many growths end the program, and at how many it ends as ever.
///
/// A text of clap's, or that the words aren't text, has one growth, and a task those of its engine: `trace` 3, `check` 9 with the list of its
/// files, `shot` 7 before it misses the frame, `search` 17 with the list of its files where the start meets the goal, and 20 with files of
/// choices and names and a report, `ram` 13 with a file of one name, `edit` 9, and with `-o`
/// three more for the text that is held and the name of the new file, `export` by one worker 34 and by two 36. The list of words has one, for
/// all of them, and where it is refused asks for less; so do the digits of a search's number of sequences. A fault's line of 23 bytes has
/// three, its room and twice more of it; where they are refused it goes out in pieces.
static RUNS: [(&[&str], bool, u64, u64); 13] = [
    (&[], false, 1, 0),
    (&["tas", "play"], false, 1, 1),
    (&["tas", "--version"], false, 1, 1),
    (&["tas", "trace", "3"], true, 3, 1),
    (&["tas", "check", "game.bin"], false, 9, 1),
    (&["tas", "shot", "game.bin", "9"], false, 7, 4),
    (
        &["tas", "ram", "game.bin", "1", "4", "--names", "names"],
        false,
        13,
        1,
    ),
    (&["tas", "edit", "game.bin", "fix.script"], false, 9, 1),
    (
        &["tas", "edit", "game.bin", "fix.script", "-o", "new"],
        false,
        12,
        1,
    ),
    (
        &["tas", "search", "game.bin", "0", "1", "reach byte:80 == 0"],
        false,
        17,
        2,
    ),
    (
        &[
            "tas",
            "search",
            "game.bin",
            "0",
            "1",
            "reach n == 0",
            "--choices",
            "choices",
            "--names",
            "names",
            "--report",
            "new",
        ],
        false,
        20,
        2,
    ),
    (&["tas", "export", "game.bin", "1", "3", "1"], false, 34, 1),
    (&["tas", "export", "game.bin", "1", "3", "2"], false, 36, 1),
];

/// The two streams of a run: the file `game.bin` and the input.
fn streams_of(bytes: &Bytes, is_cart: bool) -> (&[u8], &[u8]) {
    let cart = bytes.cart.as_slice();
    let input = if is_cart { cart } else { bytes.old.as_slice() };
    (cart, input)
}

#[test]
fn each_growth_of_the_program(rt: HostRuntime) {
    let alloc = rt.alloc();
    let bytes = make_inputs(&rt, alloc);
    for (number, row) in RUNS.iter().enumerate() {
        let (words, is_cart, refused, ended) = *row;
        let streams = streams_of(&bytes, is_cart);
        let counts = count_refused(&rt, alloc, words, streams);
        check_same(&rt, ("words", number), counts, Ok((refused, ended)));
    }
}

/// Words of a difference whose older movie is none. That the fault is of this movie is seen by reading it once more.
const NO_OLD_MOVIE: &[&str] = &["tas", "diff", "game.bin", "fix.script"];

#[test]
fn each_growth_of_a_fault_that_names_its_movie(rt: HostRuntime) {
    let alloc = rt.alloc();
    let bytes = make_inputs(&rt, alloc);
    let counts = count_refused(&rt, alloc, NO_OLD_MOVIE, streams_of(&bytes, false));
    check_that(&rt, "growths", counts.is_ok());
}
