//! Where movies, cartridges and digests come from.

ghost use Rattle.std.specs.Prelude.{◌≡◌, IfSome, IfNone, OnSome};
ghost use Rattle.tas_verify.specs.Rows.{ShelfFacts, unknown_shelf};

use std::fs;
use std::fs::File;
use std::io::Read;

/// Opens files by their names, and cartridges by their SHA-256, on any thread.
pub trait Shelf {
    /// A file that was opened for reading.
    type File: Read + Drop;

    // What is known of such a shelf: the bytes of what is opened by a name or a SHA-256, where they are known; what is known where
    // a cartridge is opened by its SHA-256; and what is known where nothing is opened.
    ghost facts: { Self → ShelfFacts } = { λ _. unknown_shelf };

    /// Opens the file of this name at its first byte; nothing where that fails.
    fn open(&self, name: &[u8]) -> Option<Self::File>
        ensures file { IfSome result
            (λ file. Self.File.remaining file ≡ (facts self.now).held name.now) }
        ensures none { IfNone result ((facts self.now).lacks name.now) };

    /// Opens a cartridge by its SHA-256, 64 lower case hexadecimal digits; nothing where there is none.
    fn find(&self, digits: &[u8]) -> Option<Self::File>
        ensures file { IfSome result
            (λ file. Self.File.remaining file ≡ (facts self.now).found digits.now) }
        ensures finds { OnSome result ((facts self.now).finds digits.now) }
        ensures none { IfNone result ((facts self.now).misses digits.now) };
}

/// The files of the system, of which nothing is known. A name that isn't UTF-8 opens none, and no cartridge is found by its SHA-256.
impl Shelf for HostRuntime {
    type File = File;

    fn open(&self, name: &[u8]) -> Option<File> {
        match str::from_utf8(name) {
            Ok(name) => fs::open(self, name).ok(),
            Err(_) => None,
        }
    }

    fn find(&self, _digits: &[u8]) -> Option<File> {
        None
    }
}
