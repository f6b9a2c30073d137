//! Records that are loaded.
use vms_base::Key;

/// A record that is to be loaded, under its key.
#[derive(Debug, Drop)]
pub struct KeyedRecord {
    pub key: Key,
    /// Its bytes, at most 8,160 of them.
    pub bytes: Vec<u8>,
}
