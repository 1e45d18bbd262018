//! Movies: a cartridge and one input for each frame, edits of them, and their texts.
//!
//! Contracts see a movie as the record `MovieContent`. `read_frame`, `print_frame` and `run_length` are public since
//! scripts and differences use them, `FrameRun` and `MAX_FRAMES1` since public laws name them. Calls that make several
//! growths have an allocator that is `Copy`.
#![tactic(auto)]

mod edit;
mod editing;
mod error;
mod front;
mod inputs;
mod laws;
mod lists;
mod movie;
mod printing;
mod reading;
mod run;
mod run_reading;

pub use edit::{Edit, EditRefusal};
pub use editing::{apply, check, check_insertion, check_place};
pub use error::{ReadError, TextError, TextErrorKind};
pub use front::common_front;
pub use inputs::Inputs;
pub use laws::{limits_are_exact, one_movie_per_text, runs_are_longest, texts_have_no_fault};
pub use movie::{MAX_FRAMES, Movie};
pub use printing::{FRAME_TEXT_SIZE, print_frame, print_text, write_text};
pub use reading::{MAX_FRAMES1, read_frame, read_text};
pub use run::{FrameRun, run_length};
