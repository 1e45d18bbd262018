//! Shelves of files that tests hold.

use std::io::ErrorKind;
use tas_verify::Shelf;
use test_streams::Giver;

/// A file: its name, or `=` and a cartridge's SHA-256, and its bytes.
pub type Held<'a> = (&'a [u8], &'a [u8]);

/// Some files, and cartridges by their SHA-256, in one list. One file fails at one of its reads.
#[derive(Drop)]
pub struct Books<'a> {
    /// The files by their names, and the cartridges.
    pub files: &'a [Held<'a>],
    /// The file whose read fails, a cartridge with `=` and its SHA-256.
    pub failing: &'a [u8],
    /// Which of its reads does, counted from 1; 0: none.
    pub fails_at: usize,
}

/// A reader that fails at this read.
fn reader_of(bytes: &[u8], fails_at: usize) -> Giver<'_> {
    let mut giver = Giver::new(bytes, 1000, fails_at);
    giver.kind = ErrorKind::Interrupted;
    giver
}

impl Books<'_> {
    /// Which read of this file fails; 0: none.
    fn fails_at(&self, name: &[u8]) -> usize {
        if self.failing == name {
            self.fails_at
        } else {
            0
        }
    }
}

impl<'a> Shelf for Books<'a> {
    type File = Giver<'a>;

    fn open(&self, name: &[u8]) -> Option<Giver<'a>> {
        for (other, bytes) in self.files {
            if *other == name {
                return Some(reader_of(bytes, self.fails_at(name)));
            }
        }
        None
    }

    fn find(&self, digits: &[u8]) -> Option<Giver<'a>> {
        for (other, bytes) in self.files {
            if other.strip_prefix(b"=") == Some(digits) {
                return Some(reader_of(bytes, self.fails_at(other)));
            }
        }
        None
    }
}
