//! Recovery units and the table of a node, tried.
#![tactic(auto)]

#[cfg(test)]
mod participants_tests;
#[cfg(test)]
mod ru_journal_tests;
#[cfg(test)]
mod tm_table_tests;
#[cfg(test)]
mod unit_entries_tests;
#[cfg(test)]
mod unit_journal_tests;
#[cfg(test)]
mod unit_table_tests;
