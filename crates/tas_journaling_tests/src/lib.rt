//! What the file of a conversation's journal has, whatever fails: worked examples.
#![tactic(auto)]

#[cfg(test)]
mod begin_tests;
#[cfg(test)]
mod checks;
#[cfg(test)]
mod disks;
#[cfg(test)]
mod journal_tests;
#[cfg(test)]
mod line_talks;
#[cfg(test)]
mod shared_fault_tests;
#[cfg(test)]
mod shared_tests;
#[cfg(test)]
mod talk_tests;
#[cfg(test)]
mod talks;
