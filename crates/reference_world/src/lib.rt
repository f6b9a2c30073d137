//! What a plain, slow program keeps of a node: its files with their histories, the records that stand in them, and the lines it shows.
#![tactic(auto)]

mod directory;
mod dump;
mod history;
mod images;
mod line;
mod moment;
mod world;

pub use directory::{
    FileChange, Mark, Runs, capacity, empty_places, find_file, free_place, free_runs, images_end,
    layout_of_records, settled_files, with_file,
};
pub use dump::{
    committed_of, find_row, keep_rows, lend_rows, records_of, rows_shown, set_row, with_row,
};
pub use history::{first_to_change, same_id};
pub use images::{key_size, nothing_carried, value_size};
pub use line::{Line, Quota, Standing, one};
pub use moment::{WrittenMoment, written};
pub use world::{
    BranchKey, Carried, DiskCall, File, Image, ImageJournal, KeptRow, LabelEntry, LiveChanges,
    Organization, Placed, Row, Save, Settlement, Side, Volume,
};
