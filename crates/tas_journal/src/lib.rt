//! Journals: a file that has a movie and the edits that were accepted after it, and what is recovered from such a file.
//!
//! A crate of its own: a desk's conversations will write journals, a command will recover them, and neither the language of
//! scripts (`tas_language`) nor the commands without a desk (`tas_engines`) need one. It has no file and no desk: journals are
//! bytes, of a reader where [`recover_run`] reads one.
#![tactic(auto)]

mod entries;
mod error;
mod fault;
mod head;
mod laws;
mod reading;
mod recovering;
mod running;
mod writing;

pub use error::{JournalError, JournalErrorKind, RecoverError};
pub use fault::RecoveryFault;
pub use laws::{cut_journal_loses_no_line, journal_makes_its_movie, one_journal_per_text};
pub use recovering::{Recovered, recover};
pub use running::recover_run;
pub use writing::{push_entry, write_head};
