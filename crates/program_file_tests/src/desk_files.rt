//! Files of a desk's pairs, in memory, and the whole program over them.

use crate::checks::expect_ok;
use crate::programs::words_of;
use std::alloc::Global;
use std::io;
use std::io::{Error, ErrorKind, Write};
use std::process::Abort;
use std::sync::Wait;
use std::sync::atomic::{AtomicU8, AtomicUsize, Ordering};
use std::thread::Threads;
use std::time::Clock;
use tas_program::{Folder, OrdinaryFile, Permit, Streams, run_program};
use test_streams::Giver;

/// What a program of a pair sends, at which of the reads this fails, counted from 1, and how many bytes it takes of the answers.
#[derive(Clone, Copy)]
pub struct Client<'a> {
    pub lines: &'a [u8],
    pub fails_at: usize,
    pub room: usize,
}

/// One that sends nothing, and takes all answers.
pub const SILENT: Client<'static> = Client {
    lines: b"",
    fails_at: 0,
    room: usize::MAX,
};

/// One that sends these lines and takes all answers.
pub fn sends(lines: &[u8]) -> Client<'_> {
    Client { lines, ..SILENT }
}

/// A name that stands for an ordinary file: its device, its number there and its length.
pub type Ordinary<'a> = (&'a str, (u64, u64, u64));

/// A folder with the files `game.bin` and `other`, and of each of its pairs K the files `inK` and `outK`. What replaces the file `new` is on
/// the first tape. The names of `ordinary` stand for ordinary files. It counts the files that were opened.
#[derive(Drop)]
pub struct DeskFolder<'a> {
    pub game: &'a [u8],
    pub other: &'a [u8],
    pub clients: &'a [Client<'a>],
    pub tapes: &'a [Tape],
    pub ordinary: &'a [Ordinary<'a>],
    pub opened: AtomicUsize,
}

/// What an output has taken, as long as it has room for it. One thread writes it; others read it once that is done.
#[derive(Drop)]
pub struct Tape {
    bytes: Vec<AtomicU8>,
    len: AtomicUsize,
}

impl Tape {
    /// Notes a byte.
    fn put(&self, byte: u8) {
        let at = self.len.load(Ordering::SeqCst);
        if let Some(place) = self.bytes.get(at) {
            place.store(byte, Ordering::SeqCst);
        }
        self.len.store(at.saturating_add(1), Ordering::SeqCst);
    }

    /// Whether it has just these bytes.
    pub fn holds(&self, bytes: &[u8]) -> bool {
        for (place, byte) in self.bytes.iter().zip(bytes) {
            if place.load(Ordering::SeqCst) != *byte {
                return false;
            }
        }
        self.len.load(Ordering::SeqCst) == bytes.len()
    }
}

/// A file that is written, with room for so many bytes.
#[derive(Drop)]
pub struct Sink<'a> {
    pub tape: &'a Tape,
    pub room: usize,
}

impl Write for Sink<'_> {
    fn write(&mut self, buf: &[u8]) -> io::Result<usize> {
        let n = buf.len().min(self.room);
        if n == 0 {
            return Err(Error::from(ErrorKind::BrokenPipe));
        }
        for byte in &buf[..n] {
            self.tape.put(*byte);
        }
        self.room -= n;
        Ok(n)
    }

    fn flush(&mut self) -> io::Result<()> {
        Ok(())
    }
}

/// The digit of a name that has it after this beginning.
fn digit_of(name: &str, start: &str) -> Option<usize> {
    let (name, start) = (name.as_bytes(), start.as_bytes());
    let digit = name.get(start.len())?.checked_sub(b'0')?;
    if name.starts_with(start) {
        Some(usize::from(digit))
    } else {
        None
    }
}

impl<'a> Folder for DeskFolder<'a> {
    type File = Giver<'a>;

    type Sink = Sink<'a>;

    fn look(&self, name: &str) -> Option<OrdinaryFile> {
        for (known, (device, number, len)) in self.ordinary {
            if name == *known {
                return Some(OrdinaryFile {
                    device: *device,
                    number: *number,
                    len: *len,
                });
            }
        }
        None
    }

    fn open(&self, name: &str) -> io::Result<Giver<'a>> {
        self.opened.fetch_add(1, Ordering::SeqCst);
        if name == "game.bin" {
            return Ok(Giver::new(self.game, usize::MAX, 0));
        }
        if name == "other" {
            return Ok(Giver::new(self.other, usize::MAX, 0));
        }
        match digit_of(name, "in") {
            Some(number) if number < self.tapes.len() => {
                let client = *self.clients.get(number).unwrap_or(&SILENT);
                Ok(Giver::new(client.lines, usize::MAX, client.fails_at))
            }
            _ => Err(Error::from(ErrorKind::NotFound)),
        }
    }

    fn open_to_write(&self, _permit: Permit, name: &str) -> io::Result<Sink<'a>> {
        self.opened.fetch_add(1, Ordering::SeqCst);
        let Some(number) = digit_of(name, "out") else {
            return Err(Error::from(ErrorKind::NotFound));
        };
        match self.tapes.get(number) {
            Some(tape) => Ok(Sink {
                tape,
                room: self.clients.get(number).unwrap_or(&SILENT).room,
            }),
            None => Err(Error::from(ErrorKind::NotFound)),
        }
    }

    fn create_new(&self, _permit: Permit, name: &str) -> io::Result<Sink<'a>> {
        self.opened.fetch_add(1, Ordering::SeqCst);
        match self.tapes.first() {
            Some(tape) if name == "new.part0" => Ok(Sink {
                tape,
                room: usize::MAX,
            }),
            _ => Err(Error::from(ErrorKind::NotFound)),
        }
    }

    fn sync(&self, _name: &str, _sink: &mut Sink<'a>) -> io::Result<()> {
        Ok(())
    }

    fn rename(&self, _permit: Permit, from: &str, to: &str) -> io::Result<()> {
        if from == "new.part0" && to == "new" {
            Ok(())
        } else {
            Err(Error::from(ErrorKind::NotFound))
        }
    }
}

/// A tape of so many bytes that has taken nothing.
pub fn blank_tape<R: Abort>(rt: &R, alloc: Global, size: usize) -> Tape {
    let mut bytes = Vec::new(alloc);
    for _ in 0..size {
        expect_ok(rt, bytes.push(AtomicU8::new(0)).ok().ok_or("no memory"));
    }
    Tape {
        bytes,
        len: AtomicUsize::new(0),
    }
}

/// The tapes of this many outputs.
pub fn tapes<R: Abort>(rt: &R, alloc: Global, count: usize) -> Vec<Tape> {
    let mut all = Vec::new(alloc);
    for _ in 0..count {
        expect_ok(
            rt,
            all.push(blank_tape(rt, alloc, 128)).ok().ok_or("no memory"),
        );
    }
    all
}

/// Runs the program with these words over this folder: its status, and how often it read standard input.
pub fn run_desk<T: Threads + Wait + Clock + Abort + Sync, W: Write, E: Write>(
    rt: &T,
    alloc: Global,
    words: &[&str],
    folder: &DeskFolder<'_>,
    output: &mut W,
    errors: &mut E,
) -> (u8, usize) {
    let words = words_of(rt, alloc, words).into_iter();
    let mut streams = Streams {
        input: Giver::new(b"len\n", usize::MAX, 0),
        output,
        errors,
    };
    let status = run_program(rt, alloc, alloc, Ok(words), folder, &mut streams);
    (status.code(), streams.input.reads)
}
