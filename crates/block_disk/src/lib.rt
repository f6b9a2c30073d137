//! Disks of blocks of 512 bytes: what a read gives, and what a power loss may leave.
#![tactic(auto)]

mod crash;
mod disk;
mod file;
mod mem;
mod platter;
mod table;

pub use crash::CrashDisk;
pub use disk::{Disk, DiskCall, DiskErr};
pub use file::FilePlatter;
pub use mem::MemPlatter;
pub use platter::{Failed, Platter};
pub use table::BlockTable;
