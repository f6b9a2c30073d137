//! Whole scripts of one node by `run`, tried over the units of `node_units`: against stored transcripts, against the plain program, and behind stops, failures and falls.
#![tactic(auto)]

#[cfg(test)]
mod command_tests;
#[cfg(test)]
mod compared_tests;
#[cfg(test)]
mod failure_tests;
#[cfg(test)]
mod history_tests;
#[cfg(test)]
mod limit_tests;
#[cfg(test)]
mod recovery_tests;
#[cfg(test)]
mod restart_tests;
#[cfg(test)]
mod ring_tests;
#[cfg(test)]
mod stop_tests;
#[cfg(test)]
mod stopped_recovery_tests;
#[cfg(test)]
mod tree_tests;
#[cfg(test)]
mod worked_tests;
