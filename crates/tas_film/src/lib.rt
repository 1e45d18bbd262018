//! Runs of a movie's frames as pictures: drawn by workers on threads of their own and written in order, or drawn and written one
//! by one.
#![tactic(auto)]

mod drawing;
mod exporting;
mod film;
mod gate;
mod pixmaps;
mod runs;
mod threads;
mod writing;

pub use exporting::{ExportFault, export_frames};
pub use film::{FilmStop, write_film};
pub use gate::Gate;
pub use pixmaps::HaltedFrame;
pub use runs::{ExportPlan, MAX_WORKERS};
pub use threads::{Visitor, for_each_on_threads};
