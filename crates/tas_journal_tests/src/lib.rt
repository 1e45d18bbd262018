//! What journals have, and what is recovered from them.
#![tactic(auto)]

#[cfg(test)]
mod checks;
#[cfg(test)]
mod fault_tests;
#[cfg(test)]
mod growth_tests;
#[cfg(test)]
mod journal_tests;
#[cfg(test)]
mod journals;
#[cfg(test)]
mod load_tests;
#[cfg(test)]
mod run_tests;
