//! Opening files.

ghost use Rattle.std.specs.Prelude.{◌≡◌, ℕ, List, Option, None, IfOk, OnOk};
ghost use Rattle.tas_program.specs.FileWords.{IsShown};
ghost use Rattle.tas_program.specs.Saving.{FileSteps, unknown_steps};

use crate::Permit;
use std::alloc::Global;
use std::fs::{File, OpenOptions};
use std::io::{ErrorKind, IsTerminal, Read, Write};
use std::os::unix::fs::MetadataExt;
use std::{fs, io};

/// An ordinary file, as it is before it is opened: no pipe, device, socket or folder.
#[derive(Clone, Copy)]
pub struct OrdinaryFile {
    /// The device that it is on.
    pub device: u64,
    /// Its number on that device: two names of one file have the same device and number.
    pub number: u64,
    /// How many bytes it has.
    pub len: u64,
}

/// Opens files by their names, on any thread.
pub trait Folder {
    /// A file that was opened for reading.
    type File: Read + Drop + Send + Sync;
    /// A file that was opened for writing.
    type Sink: Write + Drop + Send + Sync;

    // The bytes of the file with a name, where they are known; those that it holds when it is opened for writing; and whether it is an
    // ordinary file, and which.
    ghost use Rattle.tas_program.specs.declared.folder.OrdinaryFile.{OrdinaryFile};

    ghost bytes_of: { Self → List ℕ → Option (List ℕ) } = { λ _ _. None };

    ghost held_by: { Self → List ℕ → Option (List ℕ) } = { λ _ _. None };

    ghost shown: { Self → List ℕ → Option (Option OrdinaryFile) } = { λ _ _. None };

    // The calls of such a folder that succeeded, where something is known of them.
    ghost steps: { FileSteps } = { unknown_steps };

    /// The ordinary file with a name; none where it has another kind, or where there is none or it can't be looked at. Nothing is opened.
    fn look(&self, name: &str) -> Option<OrdinaryFile>
        ensures { IsShown (shown self.now name.now) result };

    /// Opens a file at its first byte. An error where that fails. It may wait for somebody who writes to it.
    fn open(&self, name: &str) -> io::Result<Self::File>
        ensures { IfOk result (λ file. Self.File.remaining file ≡ bytes_of self.now name.now) };

    /// Opens a file for writing, at its first byte. The caller must have the permit from [`check_words`](crate::check_words) for the task
    /// that names the file: the permit itself doesn't say whose it is. An error where opening fails, as where there is no such file: none
    /// is made. It may wait for somebody who reads from it.
    fn open_to_write(&self, permit: Permit, name: &str) -> io::Result<Self::Sink>
        ensures { IfOk result (λ sink. Self.Sink.contents sink ≡ held_by self.now name.now) };

    /// Makes a file without bytes, and opens it for writing. An error where there is something of that name, or no file can be made.
    fn create_new(&self, _permit: Permit, _name: &str) -> io::Result<Self::Sink>
        ensures { IfOk result (λ sink. steps.made _name.now (Self.Sink.contents sink)) }
    {
        Err(io::Error::from(ErrorKind::Unsupported))
    }

    /// Brings all that was written to the file of this name to the disk.
    fn sync(&self, _name: &str, _sink: &mut Self::Sink) -> io::Result<()>
        ensures step { OnOk result (steps.kept _name.now (Self.Sink.contents _sink.old)) }
        ensures same { Self.Sink.contents _sink.new ≡ Self.Sink.contents _sink.old }
    {
        Err(io::Error::from(ErrorKind::Unsupported))
    }

    /// Gives a file another name, in one step; an ordinary file that had this name is gone then, and the new one has its permissions. An
    /// error where something else has it, as a link, or a file without a write permission; or where that fails, or the permissions can't be
    /// set: then both names stand for the files that they stood for.
    fn rename(&self, _permit: Permit, _from: &str, _to: &str) -> io::Result<()>
        ensures { OnOk result (steps.moved _from.now _to.now) }
    {
        Err(io::Error::from(ErrorKind::Unsupported))
    }

    /// Removes a file. One that can't be removed stays.
    fn remove(&self, _permit: Permit, _name: &str) {}

    /// The names of what is in a directory. An error where it can't be listed, or memory is refused.
    fn list(&self, _alloc: Global, _dir: &str) -> io::Result<Vec<String>> {
        Err(io::Error::from(ErrorKind::Unsupported))
    }

    /// Whether standard error is a terminal's: somebody may wait there, who is told how far a long task is.
    fn has_progress(&self) -> bool {
        false
    }

    /// Whether standard input and standard error are both a terminal's: whoever may type the one reads the other.
    fn has_terminal(&self) -> bool {
        false
    }
}

/// The files of the system, of which nothing is known.
impl Folder for HostRuntime {
    type File = File;

    type Sink = File;

    fn look(&self, name: &str) -> Option<OrdinaryFile> {
        let found = fs::metadata(self, name).ok()?;
        if found.is_file() {
            Some(OrdinaryFile {
                device: found.dev(),
                number: found.ino(),
                len: found.len(),
            })
        } else {
            None
        }
    }

    fn open(&self, name: &str) -> io::Result<File> {
        fs::open(self, name)
    }

    fn open_to_write(&self, _permit: Permit, name: &str) -> io::Result<File> {
        OpenOptions::new().write(true).open(self, name)
    }

    fn create_new(&self, _permit: Permit, name: &str) -> io::Result<File> {
        OpenOptions::new()
            .write(true)
            .create_new(true)
            .open(self, name)
    }

    fn sync(&self, _name: &str, sink: &mut File) -> io::Result<()> {
        sink.sync_data()
    }

    fn rename(&self, _permit: Permit, from: &str, to: &str) -> io::Result<()> {
        // A link is looked at itself: the rename would replace it, and not what it leads to.
        match fs::symlink_metadata(self, to) {
            // A device, a folder or a link must not be replaced by a file.
            Ok(found) if !found.is_file() => Err(io::Error::from(ErrorKind::Unsupported)),
            // Nor a file that nobody may write.
            Ok(found) if found.permissions().readonly() => {
                Err(io::Error::from(ErrorKind::PermissionDenied))
            }
            // The new file has the permissions of the old one, or it doesn't replace it.
            Ok(found) => {
                fs::set_permissions(self, from, found.permissions())?;
                fs::rename(self, from, to)
            }
            Err(error) if error.kind() == ErrorKind::NotFound => fs::rename(self, from, to),
            Err(error) => Err(error),
        }
    }

    fn remove(&self, _permit: Permit, name: &str) {
        let _ = fs::remove_file(self, name);
    }

    fn list(&self, alloc: Global, dir: &str) -> io::Result<Vec<String>> {
        let mut names = Vec::new(alloc);
        for entry in fs::read_dir(self, dir)? {
            match entry {
                Ok(entry) => names.push(String::from_str(alloc, entry.file_name())?)?,
                // No word can name such a file.
                Err(error) if error.kind() == ErrorKind::InvalidFilename => {}
                Err(error) => return Err(error),
            }
        }
        Ok(names)
    }

    fn has_progress(&self) -> bool {
        self.stderr().is_terminal()
    }

    fn has_terminal(&self) -> bool {
        self.stdin().is_terminal() && self.stderr().is_terminal()
    }
}
