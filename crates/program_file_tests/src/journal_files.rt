//! The journal of a conversation and the file of its movie, in memory.

use crate::desk_files::{Ordinary, Sink, Tape};
use std::io;
use std::io::{Error, ErrorKind};
use std::sync::atomic::{AtomicUsize, Ordering};
use tas_program::{Folder, OrdinaryFile, Permit};
use test_streams::Giver;

/// What a journal's file can do: how many bytes it takes, how often it can be brought to the disk, and whether it can be made.
#[derive(Clone, Copy)]
pub struct Disk {
    /// Room for bytes.
    pub room: usize,
    /// How often it can be brought to the disk.
    pub syncs: usize,
    /// Whether it can be made.
    pub makes: bool,
}

/// A disk with enough of all.
pub const AMPLE: Disk = Disk {
    room: usize::MAX,
    syncs: usize::MAX,
    makes: true,
};

/// A folder with the files `game.bin` and `other`, in which the file `day` can be made, a journal, and the file `new` be replaced. The names of
/// `ordinary` stand for ordinary files.
#[derive(Drop)]
pub struct JournalFolder<'a> {
    pub game: &'a [u8],
    pub other: &'a [u8],
    pub ordinary: &'a [Ordinary<'a>],
    /// What the journal's file gets.
    pub day: &'a Tape,
    /// What replaces the file of the movie.
    pub saved: &'a Tape,
    pub disk: Disk,
    /// How often the journal's file was brought to the disk.
    pub synced: AtomicUsize,
    /// How many journals were made, and how many removed.
    pub made: AtomicUsize,
    pub removed: AtomicUsize,
    /// How many files were opened to be read.
    pub opened: AtomicUsize,
}

impl<'a> Folder for JournalFolder<'a> {
    type File = Giver<'a>;

    type Sink = Sink<'a>;

    fn look(&self, name: &str) -> Option<OrdinaryFile> {
        for (known, (device, number, len)) in self.ordinary {
            if name == *known {
                return Some(OrdinaryFile {
                    device: *device,
                    number: *number,
                    len: *len,
                });
            }
        }
        None
    }

    fn open(&self, name: &str) -> io::Result<Giver<'a>> {
        self.opened.fetch_add(1, Ordering::SeqCst);
        if name == "game.bin" {
            return Ok(Giver::new(self.game, usize::MAX, 0));
        }
        if name == "other" {
            return Ok(Giver::new(self.other, usize::MAX, 0));
        }
        Err(Error::from(ErrorKind::NotFound))
    }

    fn open_to_write(&self, _permit: Permit, _name: &str) -> io::Result<Sink<'a>> {
        Err(Error::from(ErrorKind::NotFound))
    }

    fn create_new(&self, _permit: Permit, name: &str) -> io::Result<Sink<'a>> {
        if name == "new.part0" {
            return Ok(Sink {
                tape: self.saved,
                room: usize::MAX,
            });
        }
        if name != "day" || !self.disk.makes {
            return Err(Error::from(ErrorKind::PermissionDenied));
        }
        self.made.fetch_add(1, Ordering::SeqCst);
        Ok(Sink {
            tape: self.day,
            room: self.disk.room,
        })
    }

    fn sync(&self, name: &str, _sink: &mut Sink<'a>) -> io::Result<()> {
        if name != "day" {
            return Ok(());
        }
        if self.synced.fetch_add(1, Ordering::SeqCst) < self.disk.syncs {
            Ok(())
        } else {
            Err(Error::from(ErrorKind::StorageFull))
        }
    }

    fn rename(&self, _permit: Permit, from: &str, to: &str) -> io::Result<()> {
        if from == "new.part0" && to == "new" {
            Ok(())
        } else {
            Err(Error::from(ErrorKind::NotFound))
        }
    }

    fn remove(&self, _permit: Permit, name: &str) {
        if name == "day" {
            self.removed.fetch_add(1, Ordering::SeqCst);
        }
    }
}
