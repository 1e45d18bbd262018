//! What the whole program writes and reports where it only reads files, over words, files and streams of the tests' own and over an archive of the
//! system; at its limits, too.
#![tactic(auto)]

#[cfg(test)]
mod checks;
#[cfg(test)]
mod desk_word_tests;
#[cfg(test)]
mod journal_word_tests;
#[cfg(test)]
mod limit_tests;
#[cfg(test)]
mod movie_program_tests;
#[cfg(test)]
mod movies;
#[cfg(test)]
mod naming_tests;
#[cfg(test)]
mod output_word_tests;
#[cfg(test)]
mod played_tests;
#[cfg(test)]
mod program_cases;
#[cfg(test)]
mod program_tests;
#[cfg(test)]
mod programs;
#[cfg(test)]
mod recovery_tests;
#[cfg(test)]
mod search_tests;
#[cfg(test)]
mod tails;
#[cfg(test)]
mod tasks;
#[cfg(test)]
mod tip_tests;
#[cfg(test)]
mod two_files;
#[cfg(test)]
mod verify_tests;
#[cfg(test)]
mod waiting_tests;
#[cfg(test)]
mod word_tests;
