//! A small use of each crate that others can call, as a caller writes it. The README of the crate shows the same lines.
#![tactic(auto)]

pub mod chips;
pub mod desks;
pub mod engines;
pub mod films;
pub mod greens;
pub mod journals;
pub mod machines;
pub mod movies;
pub mod searches;
pub mod sessions;
pub mod talks;
#[cfg(test)]
mod tests;
pub mod texts;
pub mod verifies;
pub mod words;
