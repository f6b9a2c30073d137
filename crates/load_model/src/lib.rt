//! The index over the buckets of a file that is loaded, with the numbers of its buckets.
//!
//! The crate has definitions and laws, and nothing that runs. `specs/` has, from the bottom up: `Nodes` (the entries of each index bucket, level by level, from
//! the lowest keys of the buckets below) and `Laws`.
#![tactic(auto)]

ghost use Rattle.load_model.specs.Laws.{IndexLoads, NodesSuit, IndexStaysLow};

/// Buckets with these entries, numbered from one on, are an index over the buckets before them, with the levels of a load.
pub fn index_loads()
    ensures { IndexLoads }
{}

/// Each of these index buckets has an entry at least and as many as it holds at most. Its entries ascend where the lowest keys do, and lead to buckets
/// of lower numbers.
pub fn nodes_suit()
    ensures { NodesSuit }
{}

/// The index over as many buckets as a disk may have takes fewer buckets than these are, and keeps within the limit of levels.
pub fn index_stays_low()
    ensures { IndexStaysLow }
{}
