//! Many movies, each compared with its digest: a manifest names them, workers play them, and each gets a line in its order.
//!
//! A crate of its own: `tas_engines` has the commands of one movie and starts no thread. What a movie's line says is defined by what
//! `tas digest` answers to that movie alone.
#![tactic(auto)]

mod carts;
mod fault;
mod judging;
mod laws;
mod lines;
mod manifest;
mod outcome;
mod playing;
mod progress;
mod running;
mod shelf;
mod workers;

pub use carts::{Cart, name_of};
pub use fault::VerifyFault;
pub use laws::{one_list_per_manifest, one_outcome_per_movie, one_report_per_manifest};
pub use lines::{Tally, Verified};
pub use manifest::{ManifestError, Row, read_manifest};
pub use outcome::{Outcome, Role};
pub use playing::{sha256_of, verify_row};
pub use running::verify_run;
pub use shelf::Shelf;
pub use workers::MAX_WORKERS;
