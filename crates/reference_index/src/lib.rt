//! The layouts of indexed files as a plain, slow program has them: slots in leaves, and the index over them.
#![tactic(auto)]

mod changes;
mod index;
mod keys;
mod layouts;
mod leaves;
mod lists;
mod loads;
mod locks;
mod parts;
mod slots;

pub use changes::Change;
pub use keys::{Key, KeyRef};
pub use layouts::{Bucket, Layout, Leaf, Level, Sizes, Slot, no_layout};
pub use leaves::{layout_changed, layout_restored};
pub use lists::{append, push_back, push_front, take_first};
pub use loads::layout_loaded;
pub use locks::{Lock, is_lock_of, is_locked};
pub use slots::{lend_value, own_value};
