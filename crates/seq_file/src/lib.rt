//! Sequential files: records one behind the other, by position.
#![tactic(auto)]

mod bucket;
mod file;
mod law;
mod make;
mod rewrite;
mod sequential;
mod spot;
mod walk;

pub use law::{
    append_takes, asked_is_placed, filled_is_placed, laid_out_is_placed, list_set_sets,
    prefix_places, take_cuts,
};
pub use sequential::SeqFile;
