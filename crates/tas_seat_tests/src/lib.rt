//! What seats of one desk are answered in turns, on one thread, in drafts and outside, and what a draft is answered by itself: worked examples.
#![tactic(auto)]

#[cfg(test)]
mod checks;
#[cfg(test)]
mod draft_tests;
#[cfg(test)]
mod long_look_tests;
#[cfg(test)]
mod part_tests;
#[cfg(test)]
mod talk_turn_tests;
#[cfg(test)]
mod turn_tests;
#[cfg(test)]
mod turns;
