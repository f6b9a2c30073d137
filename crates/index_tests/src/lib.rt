//! Indexed files, tried: trees of buckets over their leaves.
#![tactic(auto)]

#[cfg(test)]
mod indexed_tree_tests;
#[cfg(test)]
mod plain_layouts;
