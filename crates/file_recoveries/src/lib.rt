//! What a recovery of a file makes of its journals of images and its save, and what refuses it.
#![tactic(auto)]

mod causes;
mod errors;
mod head;
mod law;
mod rolling;

pub use causes::{Way, cause_of};
pub use errors::RecoverErr;
pub use head::{save_head, with_new_journals};
pub use law::{causes_are_refusals, made_records_suit};
pub use rolling::roll_file;
