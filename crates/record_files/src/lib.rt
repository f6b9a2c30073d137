//! Files of any organization: each call goes to the organization that the head tells.
#![tactic(auto)]

mod any;
mod checks;
mod indexed;

pub use any::AnyFile;
pub use indexed::IndexedFile;
