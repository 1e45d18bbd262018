//! What the calls do where memory is refused: each growth of pictures, cartridges, movies, greenzones, sessions and desks in turn.
#![tactic(auto)]

#[cfg(test)]
mod callers;
#[cfg(test)]
mod checks;
#[cfg(test)]
mod desk_tests;
#[cfg(test)]
mod desks;
#[cfg(test)]
mod edits;
#[cfg(test)]
mod export_tests;
#[cfg(test)]
mod fixtures;
#[cfg(test)]
mod green_tests;
#[cfg(test)]
mod movie_tests;
#[cfg(test)]
mod plans;
#[cfg(test)]
mod runs;
#[cfg(test)]
mod session_tests;
#[cfg(test)]
mod thread_tests;
