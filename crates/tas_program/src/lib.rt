//! The program `tas` without its runtime: words, a way to open files, streams to read and to write
//! go in, and a status comes out.
//!
//! [`run_program`] reads the words into an [`Invocation`] and carries it out. The program's crate only
//! hands it the real arguments, files and streams; tests hand it others.
#![tactic(auto)]

mod desks;
mod directory;
mod file_words;
mod folder;
mod journal_files;
mod named_runs;
mod naming;
mod noted_talks;
mod opened_runs;
mod output_words;
mod pipes;
mod recovering;
mod roles;
mod running;
mod saved_runs;
mod saved_talks;
mod saving;
mod searching;
mod status;
mod streams;
mod verifying;
mod waiting;

pub use directory::Directory;
pub use file_words::{FileWord, Permit, WordFault, check_words};
pub use folder::{Folder, OrdinaryFile};
pub use naming::named_run;
pub use output_words::check_output;
pub use recovering::run_recovery;
pub use roles::{Role, Roles};
pub use running::{carry_out, run_program, run_task};
pub use saved_runs::{save_run, save_task};
pub use saved_talks::save_talk;
pub use saving::{SaveFault, save};
pub use searching::run_search;
pub use status::{ImageFault, Status, TaskFault};
pub use streams::Streams;
pub use tas_words::{
    DeskWords, Invocation, Order, Pair, PartWords, RecoveryWords, SearchWords, Start, TalkWords,
    Task, VerifyWords, read_words,
};
pub use verifying::run_verify;
pub use waiting::tell_waiting;
