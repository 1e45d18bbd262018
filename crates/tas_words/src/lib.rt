//! The words of the command line: what the program can be asked to do, and the invocation that they make.
//!
//! [`read_invocation`] reads words into an [`Invocation`]: a [`Task`], a text to show, or a refusal.
#![tactic(auto)]

mod command_line;
mod helps;
mod invocation;
mod parts;
mod subcommands;
mod task;
mod tips;
mod waiting;
mod words;

pub use invocation::{Invocation, collect_words, read_invocation};
pub use task::{
    DEFAULT_EVERY, DEFAULT_HOLD, DEFAULT_STATES, DEFAULT_WORKERS, DeskWords, MAX_EVERY,
    MAX_FRAME_NUMBER, MAX_FRAMES, MAX_INSTRUCTIONS, MAX_LINE, MAX_PARTS, MAX_STATES, MAX_WORKERS,
    MovieFiles, Order, Pair, Pairs, PartWords, RecoveryWords, SearchWords, Start, TalkWords, Task,
    VerifyWords,
};
pub use waiting::waits_for;
pub use words::read_words;
