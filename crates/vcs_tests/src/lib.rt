//! What the three chips and the console do when they run: the manual's tables, worked examples, the TIA against a slow one, cartridges,
//! switches, frames, states and traces, and images that were made to break the machine.
#![tactic(auto)]

#[cfg(test)]
mod carts;
#[cfg(test)]
mod checks;
#[cfg(test)]
mod console_tests;
#[cfg(test)]
mod cpu_tests;
#[cfg(test)]
mod frame_tests;
#[cfg(test)]
mod image_tests;
#[cfg(test)]
mod lag_tests;
#[cfg(test)]
mod played;
#[cfg(test)]
mod poll_tests;
#[cfg(test)]
mod ranges;
#[cfg(test)]
mod register_tests;
#[cfg(test)]
mod riot_tests;
#[cfg(test)]
mod state_tests;
#[cfg(test)]
mod switches;
#[cfg(test)]
mod tia_tests;
#[cfg(test)]
mod trace_tests;
#[cfg(test)]
mod worked_tests;
