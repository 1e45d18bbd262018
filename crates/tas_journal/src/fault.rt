//! Why a recovery over readers and a writer ended without its answer.
//!
//! A type of its own, since a fault of `tas_engines` can't name a journal's line: that crate knows no journals.

use crate::JournalError;
use tas_engines::{ReadFault, RunFault};
use thiserror::Error;

/// Why [`recover_run`](crate::recover_run) wrote no movie. Its text is the line, without the newline, that the program writes to standard
/// error; the program's status is then 1.
#[derive(Clone, Copy, Debug, PartialEq, Eq, Error)]
pub enum RecoveryFault {
    /// The cartridge or the journal wasn't read whole. Nothing was written.
    #[error("fault: {0}")]
    Read(ReadFault),
    /// The image is no cartridge, or memory was refused, and nothing was written; or a write failed, and the first bytes of the movie's text
    /// are out.
    #[error("fault: {0}")]
    Run(RunFault),
    /// The first line at fault of the journal. Nothing was written.
    #[error("fault: {0}")]
    Journal(JournalError),
}
