//! Journals of conversations: each edit is in the journal's file, and on the disk, before its answer goes out.
//!
//! A crate of its own: `tas_journal` knows no desk, and `tas_seat` no journal, so that a conversation without one costs nothing more.
#![tactic(auto)]

mod answering;
mod callers;
mod journal;
mod laws;
mod noting;
mod receipts;
mod shared_journal;
mod talking;

pub use answering::{AnswerFault, answer_noted};
pub use callers::{CallFault, NotedCaller, converse_all_noted};
pub use journal::{Journal, JournalFault, JournalFile};
pub use laws::receipts_are_kept;
pub use noting::{Noting, SharedNotes};
pub use receipts::{JournalName, JournalReceipt, Known, ReceiptRule, Tally};
pub use shared_journal::SharedJournal;
pub use talking::{TalkFault, converse_noted};
