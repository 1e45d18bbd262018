//! What movies and greenzones do when they run: edits, texts and their faults, texts that were made to break their readers, shots, jobs,
//! merges and views.
#![tactic(auto)]

#[cfg(test)]
mod checks;
#[cfg(test)]
mod green_tests;
#[cfg(test)]
mod movie_tests;
#[cfg(test)]
mod movies;
#[cfg(test)]
mod plain_reader;
#[cfg(test)]
mod spoilt_text_tests;
#[cfg(test)]
mod text_tests;
#[cfg(test)]
mod texts;
#[cfg(test)]
mod view_tests;
