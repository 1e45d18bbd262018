//! What searches find when they run, compared with a plain search that plays every sequence from its beginning.
#![tactic(auto)]

#[cfg(test)]
mod checks;
#[cfg(test)]
mod expression_tests;
#[cfg(test)]
mod goal_search_tests;
#[cfg(test)]
mod goal_text_tests;
#[cfg(test)]
mod goals;
#[cfg(test)]
mod growth_tests;
#[cfg(test)]
mod part_tests;
#[cfg(test)]
mod plain;
#[cfg(test)]
mod refused_tests;
#[cfg(test)]
mod report_tests;
#[cfg(test)]
mod requests;
#[cfg(test)]
mod run_growth_tests;
#[cfg(test)]
mod run_tests;
#[cfg(test)]
mod search_tests;
