//! What a plain, slow program keeps of a node's disk: the volume with its log, its journal and its files.
#![tactic(auto)]

mod boot;
mod disk;
mod files;
mod forms;
mod log;
mod refusals;

pub use boot::keys_of_records;
pub use disk::Durable;
pub use files::{Told, setting_refused};
pub use forms::{blocks_for, is_file_form, is_volume_form, is_within};
pub use log::{count_free, count_prepared, record_lines};
