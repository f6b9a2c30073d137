// A change of one key of a file.
ghost use Rattle.std.specs.Prelude.{◌≡◌, ◌≤◌, ℕ, List, [], length, unwrap_or};
ghost use Rattle.std.specs.Option.{option_copied};
ghost use Rattle.key_changes.specs.Changing.{after_change, asks_by, before_change};

use file_base::{FileHead, Organization};
use vms_base::{Key, Record};

/// How the record of a key is changed.
#[derive(Clone, Copy, Debug, Drop)]
pub enum KeyChange {
    /// A key that has no record gets one.
    Put,
    /// A record takes the place of another.
    Replace,
    /// The record goes.
    Remove,
}

/// A change that is asked for: of which key of which file, and how.
#[derive(Clone, Copy, Debug, Drop)]
pub struct Asked {
    pub file: u8,
    pub head: FileHead,
    pub key: Key,
    pub change: KeyChange,
}

impl KeyChange {
    /// What the key has before, where `found` is the record that was read at it.
    pub fn before(self, found: &Record) -> Option<&Record>
        ensures { option_copied result ≡ before_change self found.now }
    {
        match self {
            KeyChange::Put => None,
            KeyChange::Replace | KeyChange::Remove => Some(found),
        }
    }

    /// What the key has after, where `value` is the record that is written.
    pub fn after(self, value: &Record) -> Option<&Record>
        ensures { option_copied result ≡ after_change self value.now }
    {
        match self {
            KeyChange::Put | KeyChange::Replace => Some(value),
            KeyChange::Remove => None,
        }
    }

    /// How many bytes the record has that the key has after, where the one that is written has so many.
    pub fn after_len(self, len: usize) -> usize
        ensures value { (value : List ℕ) → length value ≡ len → result ≡ length (unwrap_or (after_change self value) []) }
        ensures few { result ≤ len }
    {
        match self {
            KeyChange::Put | KeyChange::Replace => len,
            KeyChange::Remove => 0,
        }
    }

    /// Whether a file asks for free buckets.
    pub(crate) fn asks(self, organization: Organization) -> bool
        ensures { result ≡ asks_by organization self }
    {
        match (self, organization) {
            (KeyChange::Put, _) | (KeyChange::Replace, Organization::Indexed) => true,
            _ => false,
        }
    }
}
