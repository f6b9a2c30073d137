//! What scripts show where no disk fails: its definition, that it is a run, and scripts that were worked out by hand.
#![tactic(auto)]

mod law;
mod rows;

pub use law::reference_transcripts_are_runs;
pub use rows::{
    aborted_record_is_gone, boot_behind_crash_tells_last, committed_record_is_shown,
    empty_script_shows_nothing, file_is_full, indexed_file_is_restored, open_quote_is_bad,
    sequential_file_is_truncated, unsettled_record_stands, zeros_are_no_volume,
};
