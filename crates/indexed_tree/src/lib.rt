//! An indexed file whose leaves stand under an index, in the blocks of a content: what its layout is, and what becomes of it.
#![tactic(auto)]

mod back;
mod file;
mod find;
mod law;
mod leaves;
mod next;
mod put;
mod read;
mod restore;
mod set;

pub use back::put_back;
pub use file::TreeFile;
pub use find::find_leaf;
pub use law::{
    back_leaves, back_stages, blank_is_rooted, layout_tells, rooted_finds, rooted_is_tree,
    rooted_splits, rooted_stays, set_stages,
};
pub use next::next_key;
pub use put::{may_part, put_leaf};
pub use read::get_key;
pub use restore::restore_key;
pub use set::set_key;
