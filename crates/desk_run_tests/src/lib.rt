//! What a desk of several seats does when it runs, over doors of the tests' own.
#![tactic(auto)]

#[cfg(test)]
mod checks;
#[cfg(test)]
mod doors;
#[cfg(test)]
mod end_tests;
#[cfg(test)]
mod memory_tests;
#[cfg(test)]
mod noted_memory_tests;
#[cfg(test)]
mod noted_tests;
#[cfg(test)]
mod replay_tests;
#[cfg(test)]
mod replays;
#[cfg(test)]
mod writer_tests;
