//! What runs over many movies write: each result, each fault of a manifest, more movies than are played at a time, and each read, write and growth that fails.
#![tactic(auto)]

#[cfg(test)]
mod batch_tests;
#[cfg(test)]
mod checks;
#[cfg(test)]
mod failure_tests;
#[cfg(test)]
mod files;
#[cfg(test)]
mod manifest_tests;
#[cfg(test)]
mod row_tests;
#[cfg(test)]
mod shelves;
