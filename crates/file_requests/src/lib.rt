//! Requests on the files of a node that is up: what each is answered, and which act of the node it is.
#![tactic(auto)]

mod asked;
mod files;
mod finding;
mod journal;
mod law;
mod records;
mod recovery;
mod saves;
mod settings;

pub use asked::{Asked, asked_of};
pub use files::{create, dump};
pub use finding::find_file;
pub use journal::{dump_images, dump_journal};
pub use records::{change_alone, operate_for, read_alone, refused_form};
pub use recovered_nodes::nodes_are_kept;
pub use recovery::{Reply, recover};
pub use saves::backup;
pub use settings::set_file;
