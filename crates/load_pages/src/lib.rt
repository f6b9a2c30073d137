//! The bytes of the buckets of a file that is loaded, from records in the order of their keys, and how many these are.
#![tactic(auto)]

mod cells;
mod counts;
mod lowest;
mod nodes;
mod records;
mod slots;

pub use cells::{cells_of, fill_cells};
pub use counts::{buckets, chain_length, head_of, index_counts};
pub use lowest::lowest_of;
pub use nodes::{fan_out, fill_node, keep_every};
pub use records::KeyedRecord;
pub use slots::fill_bucket;
