//! What the whole program does with the files that it writes, in memory and of the system, and with words that name one file.
#![tactic(auto)]

#[cfg(test)]
mod checks;
#[cfg(test)]
mod desk_files;
#[cfg(test)]
mod desk_journal_tests;
#[cfg(test)]
mod desk_program_tests;
#[cfg(test)]
mod file_word_tests;
#[cfg(test)]
mod image_file_tests;
#[cfg(test)]
mod journal_files;
#[cfg(test)]
mod journal_program_tests;
#[cfg(test)]
mod movies;
#[cfg(test)]
mod output_file_tests;
#[cfg(test)]
mod programs;
#[cfg(test)]
mod real_file_tests;
#[cfg(test)]
mod real_image_tests;
#[cfg(test)]
mod real_journal_tests;
#[cfg(test)]
mod real_output_tests;
#[cfg(test)]
mod real_report_tests;
#[cfg(test)]
mod recovery_file_tests;
#[cfg(test)]
mod report_tests;
#[cfg(test)]
mod saving_tests;
#[cfg(test)]
mod talk_output_tests;
