//! The engines of the program `tas` that need a desk, and `film`: a public function for each form of a command, over any readers and
//! any writer.
//!
//! Those that need no desk are in `tas_engines`; this crate hands out what engines share. Here are those that need a desk, and
//! `film`.
//!
//! An engine of a desk closes its desk before it ends. A closed desk shows that its history has just the edits that its
//! seats made: so the answers were at the engine's own edits, and `foreign edit` is proved never to come.
//!
//! Four functions open a desk, borrow its seat, work and close it alike (`answer_script`, `answer_over`, `talk_on`,
//! `export_from_desk`). One for all would take the work as a trait's method, with a type and a definition for each, to
//! save five lines. A struct of desk and seat was tried: the drop of a seat that is moved out of its list is proved
//! anew in the crate above, with all that it owns.
#![tactic(auto)]

mod desk_runs;
mod exporting;
mod filming;
mod holding;
mod making;
mod movie_scripting;
mod noted_desk_runs;
mod noted_holding;
mod noted_talks;
mod opening;
mod scripting;
mod talk_runs;

pub use desk_runs::desk_run;
pub use exporting::export_run;
pub use filming::film_run;
pub use movie_scripting::movie_script_run;
pub use noted_desk_runs::{DeskFault, NotedDesk, noted_desk_run};
pub use noted_talks::{NotedTalk, noted_cart_talk_run, noted_movie_talk_run, noted_talk_run};
pub use scripting::script_run;
pub use talk_runs::{Talked, cart_talk_run, movie_talk_run, talk_run};
pub use tas_desk::MAX_SEATS;
pub use tas_engines::{
    INPUT_LIMIT, ReadFault, RunFault, SeatFault, ToolFault, check_run, shot_run, trace_run,
    write_all,
};
pub use tas_journaling::{CallFault, Journal, JournalFault, JournalFile, TalkFault};
pub use tas_seat::Door;
