//! The layout of a volume: its home block, its directory blocks, and where each field of them stands.
#![tactic(auto)]

mod head;
mod home;
mod laws;
mod pieces;
mod ru;

pub use head::{DirectoryEntry, read_directory, write_directory};
pub use home::{Ending, Home, Settled, Sizes, read_home, read_sizes, write_home};
pub use laws::{
    layouts_are_read_as_written, one_block_has_one_entry, one_block_has_one_home,
    sizes_are_those_of_the_home,
};
pub use ru::{read_ru, write_ru};
