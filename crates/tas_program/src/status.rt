//! The status with which the program ends.

ghost use Rattle.std.specs.Prelude.{◌≡◌};
ghost use Rattle.tas_program.specs.Program.{status_code};

use crate::roles::not_movie_line;
use crate::{Role, SaveFault, WordFault};
use std::fmt;
use std::fmt::{Display, Formatter, Write};
use tas_journal::RecoveryFault;
use tas_movie::TextError;
use tas_search::SearchError;
use tas_tool::{JournalFault, ReadFault, RunFault, ToolFault};
use tas_verify::VerifyFault;
use thiserror::Error;

/// Why a recovery's cartridge didn't replace the file IMAGE: its text is that of the same fault of FILE, with the other word.
#[derive(Clone, Copy, Debug, PartialEq, Eq)]
pub struct ImageFault {
    /// Why a file isn't replaced.
    pub fault: SaveFault,
}

impl Display for ImageFault {
    fn fmt<W: Write>(&self, f: &mut Formatter<W>) -> fmt::Result {
        match self.fault {
            SaveFault::NotCreated => f.write_str("fault: IMAGE: not created"),
            SaveFault::Write { written } => {
                write!(f, "fault: IMAGE: write failed after {written} bytes")
            }
            SaveFault::NotSynced => f.write_str("fault: IMAGE: not synced"),
            SaveFault::NotRenamed => f.write_str("fault: IMAGE: not renamed"),
            SaveFault::Memory => f.write_str("fault: out of memory"),
        }
    }
}

/// Why a task wasn't done. Its text is the line, without the newline, that the program writes to standard error.
#[derive(Clone, Copy, Debug, PartialEq, Eq, Error)]
pub enum TaskFault {
    /// A word of it is at fault, and nothing was opened: the program's status is 2.
    #[error("{0}")]
    Word(WordFault),
    /// Its engine ended with a fault: the status is 1.
    #[error("{0}")]
    Tool(ToolFault),
    /// This input can't be opened or wasn't read whole: the status is 1, and nothing is written. Not `Memory`, which is `Tool`'s.
    #[error("fault: {role}: {fault}")]
    Unread {
        /// The input.
        role: Role,
        /// Why it wasn't read whole.
        fault: ReadFault,
    },
    /// This input, which is read before the movie on standard input, is no text of a movie with the cartridge: the status is 1, and nothing
    /// is written.
    #[error(fmt = not_movie_line)]
    NotMovie {
        /// The input.
        role: Role,
        /// Its first line at fault.
        error: TextError,
    },
    /// It is a search, and has no answer: the status is 1.
    #[error("{0}")]
    Search(SearchError),
    /// It is a recovery, and nothing was recovered: the status is 1.
    #[error("{0}")]
    Recover(RecoveryFault),
    /// It is a recovery, and the movie's text is written, but its cartridge didn't replace the file for it, and nothing is reported: the status
    /// is 1.
    #[error("{0}")]
    Image(ImageFault),
    /// It is a verification, and not all lines are written: the status is 1.
    #[error("{0}")]
    Verify(VerifyFault),
    /// It is a verification, and the directory of its cartridges can't be listed: the status is 1, and nothing is read.
    #[error("fault: carts: read failed")]
    NoCarts,
    /// It is a verification that is written whole, and not all of its movies are the same: the status is 1.
    #[error("fault: not all movies are ok")]
    NotAll,
    /// Its output is written, but of its report, as of a search's verdict, only the first bytes are: the status is 1. With `Memory` it is a
    /// recovery, and no byte of the report is.
    #[error("fault: report: {0}")]
    Report(RunFault),
    /// It is a search, and the file of its report can't be made: the status is 1, and nothing is read.
    #[error("fault: report: not created")]
    NoReport,
    /// It is a search that is written whole, as is its report, but the report's file couldn't be brought to the disk: the status is 1.
    #[error("fault: report: sync failed")]
    UnsyncedReport,
    /// It is a conversation or a desk, and the file of its journal can't be made: the status is 1, and no line is read.
    #[error("fault: journal: not created")]
    NoJournal,
    /// It is a conversation whose journal hasn't all edits, and nothing of the answer to the last one is written; or a desk whose
    /// journal hasn't its head, and no pair is opened: the status is 1.
    #[error("fault: journal: {0}")]
    Journal(JournalFault),
    /// It is a desk whose conversation of this seat ended at a line that may edit: it was carried out, but the journal couldn't be brought up
    /// to it, and nothing of its answer is written. No seat before it ended with a fault. The movie is written, and the status is 1.
    #[error("fault: seat {seat}: journal: {fault}")]
    SeatJournal {
        /// The seat, counted from 0.
        seat: u32,
        /// Why the journal couldn't be brought up to the line.
        fault: JournalFault,
    },
    /// Its engine is done, but its output didn't replace the file: the status is 1.
    #[error("{0}")]
    Save(SaveFault),
}

/// How the program ended.
#[derive(Clone, Copy, Debug, PartialEq, Eq)]
pub enum Status {
    /// What was asked for is done: 0.
    Done,
    /// A fault, whose line goes to standard error: 1.
    Fault,
    /// The words aren't understood, or one of them names a file that it may not name; a text on standard error says why: 2.
    Misuse,
}

impl Status {
    /// The number that is reported to the system.
    pub fn code(self) -> u8
        // The numbers of the three ends.
        // Refused: misuse_is_status_1.
        ensures { result ≡ status_code self }
    {
        match self {
            Status::Done => 0,
            Status::Fault => 1,
            Status::Misuse => 2,
        }
    }
}
