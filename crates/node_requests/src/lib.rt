//! What is asked of a node that is up, answered step by step as the world of a run says.
#![tactic(auto)]

mod labelled;
mod law;
mod log;
mod managers;
mod requests;
mod transactions;

pub use file_requests::Reply;
pub use law::the_laws;
pub use node_table::{Room, Running, Stored};
pub use requests::serve_up;
