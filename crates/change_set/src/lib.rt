//! Files as maps from keys to records, changes of them, and buckets in a store.
#![tactic(auto)]

mod behind;
mod buckets;
mod file;
mod law;
mod walk;

pub use behind::number_behind;
pub use buckets::{give_frame, load_bucket, stage_bucket, take_frame};
pub use careful_write::{Disk, Down, Store};
pub use file::{Held, RecordFile};
pub use law::{changes_agree, undo_restores_maps};
pub use walk::Place;
