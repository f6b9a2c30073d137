//! Files of records, tried: each organization beside a plain list.
#![tactic(auto)]

#[cfg(test)]
mod record_files_tests;
#[cfg(test)]
mod relative_file_tests;
#[cfg(test)]
mod seq_file_tests;
