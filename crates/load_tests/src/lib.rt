//! Records that are loaded, tried beside a walk over the file and a look-up of each.
#![tactic(auto)]

#[cfg(test)]
mod load_tests;
#[cfg(test)]
mod loadable;
