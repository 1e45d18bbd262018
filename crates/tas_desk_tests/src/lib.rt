//! What sessions and desks do when they are run: worked examples, threads, whole histories played again, and schedules that are laid down
//! step by step.
#![tactic(auto)]

#[cfg(test)]
mod answers;
#[cfg(test)]
mod batch_tests;
#[cfg(test)]
mod callers;
#[cfg(test)]
mod calls;
#[cfg(test)]
mod changes;
#[cfg(test)]
mod checks;
#[cfg(test)]
mod commit_tests;
#[cfg(test)]
mod desk_tests;
#[cfg(test)]
mod desks;
#[cfg(test)]
mod export_tests;
#[cfg(test)]
mod gates;
#[cfg(test)]
mod job_tests;
#[cfg(test)]
mod lock_tests;
#[cfg(test)]
mod model;
#[cfg(test)]
mod part_tests;
#[cfg(test)]
mod pictures;
#[cfg(test)]
mod plan_tests;
#[cfg(test)]
mod plans;
#[cfg(test)]
mod replays;
#[cfg(test)]
mod schedule_callers;
#[cfg(test)]
mod schedule_tests;
#[cfg(test)]
mod session_tests;
#[cfg(test)]
mod sessions;
#[cfg(test)]
mod step_look_tests;
#[cfg(test)]
mod step_order;
#[cfg(test)]
mod steps;
#[cfg(test)]
mod sums;
#[cfg(test)]
mod thread_tests;
#[cfg(test)]
mod window_tests;
