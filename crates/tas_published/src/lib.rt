//! The published movie: a journal of edits, the movie that they make, and readers who see it without waiting.
#![tactic(auto)]

mod entry;
mod errors;
mod journal;
mod movie_copy;
mod movie_reader;
mod published;
mod publisher;
mod reader_view;
mod stroke;
mod version;

pub use entry::Entry;
pub use errors::{InputError, NoEntry, ShotError, StateError};
pub use journal::Step;
pub use movie_copy::MovieCopy;
pub use movie_reader::MovieReader;
pub use publisher::{Closed, Publisher};
pub use stroke::{Stroke, len_after};
pub use version::{Version, VersionRule};
