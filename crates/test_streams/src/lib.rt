//! Readers and writers for tests: they give and take a few bytes at a time, fail where a test says so, and count their calls.
//!
//! A reader of given bytes gives them again after its end, so that an engine that reads on gives another answer.
//! Failures have a kind, also `Interrupted`, at which the library's own loops try again: so a loop of ours that does so
//! is seen.
#![tactic(auto)]

mod filler;
mod giver;
mod taker;

pub use filler::Filler;
pub use giver::Giver;
pub use taker::{Failure, Room, Taker};
