//! What operations on the records of a file answer, change and lock, as a plain, slow program computes it from the records that stand.
#![tactic(auto)]

mod asked;
mod forms;
mod keys;
mod records;

pub use asked::{Asked, asked_by};
pub use forms::{first_of, form_refused, refused_if};
pub use keys::{keys_asked, keys_found, keys_held};
pub use records::{
    Filled, changes_asked, data_refused, file_full, filled_by, is_change, operation_answer,
};
