//! Files that are made, renamed and removed by their names.
//!
//! Contracts see a directory's files as a function from names to bytes, and say what comes of each name. The system's
//! directory shows nothing of itself. Contracts also see which calls succeeded, as a directory states it (`FileSteps`): a
//! file that is replaced went through each of the three. The system's states nothing there, either; but the code is the
//! same for each directory, and can't tell one from the other.

ghost use Rattle.std.specs.Prelude.{◌≡◌, ℕ, List, Option, None, Some, OnOk, OnErr, IfOk, option_map};
ghost use Rattle.tas_program.specs.Saving.{Files, FileSteps, IsEmptyIn, WasAbsent, made, moved, put, unknown_steps};

use crate::{Folder, Permit};
use std::io;
use std::io::Write;

/// A directory whose files change. Contracts see the bytes of each file by its name, where they are known.
pub trait Directory {
    /// A new file, as it is written. What it has is the file's only once it is kept.
    type Sink: Write + Drop;

    ghost files: { Self → Option Files } = { λ _. None };

    // The calls of such a directory that succeeded, where something is known of them.
    ghost steps: { FileSteps } = { unknown_steps };

    /// Makes a file without bytes, and opens it for writing. An error where there is a file of that name, or none can be made.
    fn create_new(&mut self, name: &str) -> io::Result<Self::Sink>
        ensures absent { OnOk result (WasAbsent name.now (files self.old)) }
        ensures made { OnOk result (files self.new ≡ option_map (made name.now) (files self.old)) }
        ensures empty { IfOk result (λ sink.
            IsEmptyIn (files self.old) (Self.Sink.contents sink)) }
        ensures step { IfOk result (λ sink. steps.made name.now (Self.Sink.contents sink)) }
        ensures fault { OnErr result (files self.new ≡ files self.old) };

    /// Brings all that was written to a new file to the disk, and closes it. With an error the file has some bytes.
    fn keep(&mut self, name: &str, sink: Self::Sink) -> io::Result<()>
        ensures kept { OnOk result (files self.new
            ≡ option_map (λ files. put files name.now (Self.Sink.contents sink)) (files self.old)) }
        ensures step { OnOk result (steps.kept name.now (Self.Sink.contents sink)) }
        ensures fault { OnErr result ((bytes : Option (List ℕ))
            × (files self.new ≡ option_map (λ files. put files name.now bytes) (files self.old))) };

    /// Gives a file another name, in one step: the file that had this name is gone. An error leaves both as they were.
    fn rename(&mut self, from: &str, to: &str) -> io::Result<()>
        ensures moved { OnOk result
            (files self.new ≡ option_map (moved from.now to.now) (files self.old)) }
        ensures step { OnOk result (steps.moved from.now to.now) }
        ensures fault { OnErr result (files self.new ≡ files self.old) };

    /// Removes a file, where its files are known. The system may refuse that, and then the file stays: of its files nothing is known.
    fn remove(&mut self, name: &str)
        ensures { files self.new ≡ option_map (λ files. put files name.now None) (files self.old) };
}

/// A folder's files, as they are changed. Nothing is known of them.
#[derive(Drop)]
pub(crate) struct Names<'a, F> {
    folder: &'a F,
    permit: Permit,
}

impl<'a, F> Names<'a, F> {
    /// The files of this folder.
    pub(crate) fn new(folder: &'a F, permit: Permit) -> Names<'a, F> {
        Names { folder, permit }
    }
}

impl<F: Folder> Directory for Names<'_, F> {
    type Sink = F::Sink;

    ghost steps = { F.steps };

    fn create_new(&mut self, name: &str) -> io::Result<F::Sink> {
        self.folder.create_new(self.permit, name)
    }

    // A new file is brought to the disk by the folder.
    // Refused: new_file_is_not_synced.
    fn keep(&mut self, name: &str, sink: F::Sink) -> io::Result<()> {
        let mut sink = sink;
        self.folder.sync(name, &mut sink)
    }

    // It gets its other name by the folder.
    // Refused: new_file_is_not_renamed.
    fn rename(&mut self, from: &str, to: &str) -> io::Result<()> {
        self.folder.rename(self.permit, from, to)
    }

    fn remove(&mut self, name: &str) {
        self.folder.remove(self.permit, name);
    }
}
