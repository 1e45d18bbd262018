//! The new file of a journal, by a name that the words gave.

ghost use Rattle.std.specs.Prelude.{◌≡◌, IfErr, IfOk};

use crate::{Folder, Permit, TaskFault};
use std::io;
use std::io::Write;
use std::marker::{Brand, PhantomData};
use tas_tool::JournalFile;

/// The name of a journal's file. Files of one type have one name, so that what is brought to the disk is known by it.
pub(crate) trait FileName {
    ghost use Rattle.clap.specs.Walk.{Text};

    /// The name.
    ghost name: { Text };
}

impl FileName for Brand {
    ghost use Rattle.std.specs.Prelude.{[]};

    ghost name = { [] };
}

/// The word that names a journal's file. A call that picks the name for a type can't have the text itself among its arguments.
#[derive(Clone, Copy)]
pub(crate) struct JournalWord<'a> {
    pub(crate) name: &'a str,
}

/// The new file of a journal.
#[derive(Drop)]
pub(crate) struct NewFile<'a, N: FileName, F: Folder> {
    folder: &'a F,
    name: &'a str,
    sink: F::Sink,
    of: PhantomData<N>,
    ghost named: { name.now ≡ N.name },
}

impl<N: FileName, F: Folder> Write for NewFile<'_, N, F> {
    ghost contents = { λ file. F.Sink.contents file.sink };

    fn write(&mut self, bytes: &[u8]) -> io::Result<usize> {
        self.sink.write(bytes)
    }

    fn flush(&mut self) -> io::Result<()> {
        self.sink.flush()
    }
}

impl<N: FileName, F: Folder> JournalFile for NewFile<'_, N, F> {
    ghost kept = { λ held. F.steps.kept N.name held };

    // Refused: sync_of_a_journal_does_nothing.
    fn sync(&mut self) -> io::Result<()> {
        self.folder.sync(self.name, &mut self.sink)
    }
}

/// Makes the new file of a journal.
pub(crate) fn new_file<'a, N: FileName, F: Folder>(
    permit: Permit,
    folder: &'a F,
    name: &'a str,
) -> Result<NewFile<'a, N, F>, TaskFault>
    requires name { name.now ≡ N.name }
    ensures made { IfOk result (λ file. F.steps.made name.now (F.Sink.contents file.sink)) }
    ensures fault { IfErr result (λ fault. fault ≡ TaskFault.NoJournal) }
{
    match folder.create_new(permit, name) {
        Ok(sink) => Ok(NewFile {
            folder,
            name,
            sink,
            of: PhantomData,
        }),
        Err(_) => Err(TaskFault::NoJournal),
    }
}
