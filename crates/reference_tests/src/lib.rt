//! The plain program alone, tried by scripts that were worked out by hand.
#![tactic(auto)]

#[cfg(test)]
mod plain_rack_tests;
#[cfg(test)]
mod plain_recovery_tests;
#[cfg(test)]
mod plain_script_tests;
