//! The head of a file, which says where its buckets lie, and pieces of bytes.
#![tactic(auto)]

mod bytes;
mod head;

pub use bytes::{splice, splice_zeros};
pub use head::{FileHead, Marks, NO_MARKS, NO_SAVE, NO_SPAN, Organization, Save, Span};
pub use vms_base::{
    FileName, Id, Key, Moment, NodeName, Reason, Record, Serial, Tid, get_id, put_id,
};
