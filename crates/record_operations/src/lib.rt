//! What is asked of the records of a file, and what refuses it.
#![tactic(auto)]

mod errors;
mod forms;
mod ops;

pub use errors::RecErr;
pub use forms::{form_refusal, read_refusal};
pub use ops::{ReadOp, RecordOp};
