//! What scripts, conversations, exports and films do when they run, over readers and writers of the tests' own; with scripts that were made to
//! break their reader, too.
#![tactic(auto)]

#[cfg(test)]
mod answers;
#[cfg(test)]
mod checks;
#[cfg(test)]
mod commands;
#[cfg(test)]
mod export_tests;
#[cfg(test)]
mod film_tests;
#[cfg(test)]
mod long_script_tests;
#[cfg(test)]
mod movie_script_tests;
#[cfg(test)]
mod movies;
#[cfg(test)]
mod noted_talk_tests;
#[cfg(test)]
mod noted_talks;
#[cfg(test)]
mod pictures;
#[cfg(test)]
mod plain_editor;
#[cfg(test)]
mod plain_script;
#[cfg(test)]
mod script_tests;
#[cfg(test)]
mod spoilt_script_tests;
#[cfg(test)]
mod talk_by_hand_tests;
#[cfg(test)]
mod talk_file_tests;
#[cfg(test)]
mod talk_look_tests;
#[cfg(test)]
mod talk_strip_tests;
#[cfg(test)]
mod talk_tests;
#[cfg(test)]
mod talks;
