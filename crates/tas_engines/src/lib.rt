//! The engines of the program `tas` that need no desk, but for `film`, which is in `tas_tool`: a module for each command, with its engine
//! over any readers and any writer, and what the engines share: reading, writing, faults, movies, and scripts of changes.
//!
//! An engine reads its inputs whole before it writes anything, and then runs on the bytes that it
//! read. Its contract says what it left in its readers, and that it either wrote just the bytes that
//! the definition names for what it read, or ends with a [`ToolFault`] whose cause holds.
#![tactic(auto)]

mod alike;
mod anchors;
mod checking;
pub mod commands;
mod compare;
mod comparing;
mod cutting;
mod diffing;
mod digest;
mod editing;
mod fault;
mod fault_lines;
mod lag;
mod laws;
mod making;
mod migrating;
mod movies;
mod name;
mod names;
mod passing;
mod ram;
mod ram_table;
mod reading;
mod remarks;
mod retouching;
mod scripts;
mod shooting;
mod stages;
mod starting;
mod tracing;
mod writing;

pub use checking::check_run;
pub use commands::{Command, Text, Whole, run};
pub use comparing::changes_between;
pub use fault::{ReadFault, RunFault, SeatFault, ToolFault};
pub use lag::lag_between;
pub use laws::one_movie_per_cartridge_and_text;
pub use making::{ChangeError, check_change, edit_of, make_line};
pub use movies::movie_of;
pub use name::{Name, address_of, named};
pub use names::{NamesError, NamesFaultKind, read_names};
pub use reading::{INPUT_LIMIT, read_input, read_two};
pub use retouching::{check_retouch, pressed_too, released, retouch_edit};
pub use scripts::{ScriptFault, edit_movie, print_changes};
pub use shooting::{halt_fault, shot_run};
pub use tracing::trace_run;
pub use writing::write_all;
