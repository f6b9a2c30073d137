//! Journals of images and saves of files, tried.
#![tactic(auto)]

#[cfg(test)]
mod image_entries_tests;
#[cfg(test)]
mod image_journals_tests;
#[cfg(test)]
mod save_sets_tests;
