//! What engines and the program do where memory, a read or a write is refused: each growth in turn, and each read and each write of engines.
#![tactic(auto)]

#[cfg(test)]
mod checks;
#[cfg(test)]
mod engines;
#[cfg(test)]
mod growth_tests;
#[cfg(test)]
mod heaps;
#[cfg(test)]
mod inputs;
#[cfg(test)]
mod journal_tests;
#[cfg(test)]
mod long_line_tests;
#[cfg(test)]
mod movies;
#[cfg(test)]
mod program_tests;
#[cfg(test)]
mod read_tests;
#[cfg(test)]
mod refused_talks;
#[cfg(test)]
mod talk_tests;
#[cfg(test)]
mod write_tests;
