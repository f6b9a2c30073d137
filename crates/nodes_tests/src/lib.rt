//! Whole scripts of several nodes, resource managers and days by `run`, tried over the units of `node_units`: against stored transcripts and the plain program.
#![tactic(auto)]

#[cfg(test)]
mod day_failure_tests;
#[cfg(test)]
mod day_tests;
#[cfg(test)]
mod doubt_tests;
#[cfg(test)]
mod manager_stop_tests;
#[cfg(test)]
mod manager_tests;
#[cfg(test)]
mod plain_day_tests;
#[cfg(test)]
mod rack_tests;
#[cfg(test)]
mod row_tests;
