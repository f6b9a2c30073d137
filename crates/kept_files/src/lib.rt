//! Settlements in the journals of the files that keep one.
#![tactic(auto)]

mod keeping;
mod settling;

pub use keeping::files_kept;
pub use settling::settle_in_files;
