//! Truncations of sequential files: how many bytes the entries of the records take that go, those entries behind the journals' ends, and the group
//! that takes the records.
#![tactic(auto)]

mod cut;
mod cutting;
mod entering;
mod measuring;
mod own;

pub use cut::{Cut, record_if};
pub use cutting::{commit_cut, cut_records};
pub use measuring::{CutRoom, gone_size, measure};
pub use own::{own_branch, settle_own};
