//! What the engines of one movie, the lines of scripts, and changes of movies do when they run.
#![tactic(auto)]

#[cfg(test)]
mod change_tests;
#[cfg(test)]
mod checks;
#[cfg(test)]
mod edit_tests;
#[cfg(test)]
mod engine_tests;
#[cfg(test)]
mod fault_tests;
#[cfg(test)]
mod history_tests;
#[cfg(test)]
mod hunk_tests;
#[cfg(test)]
mod lag_tests;
#[cfg(test)]
mod look_tests;
#[cfg(test)]
mod movies;
#[cfg(test)]
mod ran;
#[cfg(test)]
mod retouch_tests;
#[cfg(test)]
mod script_tests;
#[cfg(test)]
mod shot_tests;
#[cfg(test)]
mod table_tests;
