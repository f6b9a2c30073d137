//! Definitions of which files of the run's world the files of a volume are, and what holds of both: how a file, a place and
//! free blocks are found in the one as in the other, and that each act of the world keeps them together. And of what a node that fell leaves of its files.
#![tactic(auto)]

mod law;

pub use law::{
    acts_keep_files, acts_keep_heads, blocks_are_taken_alike, files_are_found_by_name,
    files_lie_apart, files_stand_on_their_extents, free_runs_are_found_alike, images_are_entered,
    new_files_are_alike, places_are_found_alike, records_are_read_alike,
    records_are_shown_in_order, writes_stay_apart,
};
