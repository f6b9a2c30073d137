// Keys of records.
ghost use Rattle.std.specs.Prelude.{◌≡◌, ℕ, ◌≤◌, List, length, Some, None, ◌&&◌, nat_le, if◌then◌else◌};
ghost use Rattle.vms_model.specs.Limits.{key_limit};

use crate::short::Short;
use std::marker::Model;

/// The bytes of a key in an indexed file, 1 to 64 of them.
#[derive(Clone, Copy, Debug, PartialEq, Eq, Drop)]
pub struct KeyText {
    text: Short<64>,
}

impl Model for KeyText {
    ghost Value = { List ℕ };

    ghost view = { λ k. k.text };

    ghost invariant = { λ k. (1 ≤ length k.text) × (length k.text ≤ key_limit) };

    ghost inverse = { λ bytes. record { text = bytes } };
}

impl KeyText {
    /// The key of these bytes. None exactly where they are not 1 to 64.
    pub fn new(bytes: &[u8]) -> Option<KeyText>
        ensures { result ≡ (if nat_le 1 (length bytes.now) && nat_le (length bytes.now) key_limit then Some bytes.now else None) }
    {
        if bytes.is_empty() || bytes.len() > 64 {
            return None;
        }
        Some(KeyText {
            text: Short::from_slice(bytes),
        })
    }

    /// The key's bytes.
    pub fn bytes(&self) -> &[u8]
        ensures value { result.now ≡ self.now }
        ensures some { 1 ≤ length self.now }
        ensures few { length self.now ≤ key_limit }
    {
        self.text.bytes()
    }
}

/// The key of a record: its number in a sequential or relative file, its bytes in an indexed one. A lock may also stand on a file's end.
#[derive(Clone, Copy, Debug, PartialEq, Eq, Drop)]
pub enum Key {
    Number(u32),
    Text(KeyText),
    End,
}
