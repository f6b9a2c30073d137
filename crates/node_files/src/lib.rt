//! The files of a volume as a node uses them: records that are shown, the heads of new files, and groups that change a volume.
#![tactic(auto)]

mod sizes;
mod writing;

pub use sizes::{Sizes, sizes_of};
pub use writing::{
    blocks_are_whole, copy_records, make_records, next_record_from, write_head, write_home,
};
