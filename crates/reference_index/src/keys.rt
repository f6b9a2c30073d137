// Keys of records, and their order.
ghost use Rattle.std.specs.Prelude.{◌≡◌, ℕ, List, IfOk};
ghost use Rattle.std.specs.Ordering.{eq_by_cmp, is_lt};
ghost use Rattle.run_model.specs.records_model.Records.{key_cmp};
ghost use Rattle.reference_index.specs.Standing.{key_of, lent_key};

use std::alloc::{AllocError, Global};
use std::cmp::Ordering;

/// The key of a record: its number, or bytes of it; or a sequential file's end, which stands behind all keys.
#[derive(Drop)]
pub enum Key {
    Number(u64),
    Text(Vec<u8>),
    End,
}

/// The same, where the bytes lie elsewhere.
#[derive(Clone, Copy, Drop)]
pub enum KeyRef<'a> {
    Number(u64),
    Text(&'a [u8]),
    End,
}

impl Key {
    /// The key, lent.
    pub fn lend(&self) -> KeyRef<'_>
        ensures { lent_key result ≡ key_of self.now }
    {
        match self {
            Key::Number(n) => KeyRef::Number(*n),
            Key::Text(bytes) => KeyRef::Text(bytes.as_slice()),
            Key::End => KeyRef::End,
        }
    }
}

impl<'a> KeyRef<'a> {
    /// The key with bytes of its own.
    pub fn own(self, alloc: Global) -> Result<Key, AllocError>
        ensures { IfOk result (λ k. key_of k ≡ lent_key self.entry) }
    {
        match self {
            KeyRef::Number(n) => Ok(Key::Number(n)),
            KeyRef::Text(bytes) => Ok(Key::Text(bytes.to_vec(alloc)?)),
            KeyRef::End => Ok(Key::End),
        }
    }

    /// Numbers go by size, bytes as in a dictionary.
    pub fn compare(self, other: KeyRef<'_>) -> Ordering
        ensures { result ≡ key_cmp (lent_key self.entry) (lent_key other.entry) }
    {
        match self {
            KeyRef::Number(a) => match other {
                KeyRef::Number(b) => a.cmp(&b),
                _ => Ordering::Less,
            },
            KeyRef::Text(a) => match other {
                KeyRef::Number(_) => Ordering::Greater,
                KeyRef::Text(b) => a.cmp(b),
                KeyRef::End => Ordering::Less,
            },
            KeyRef::End => match other {
                KeyRef::End => Ordering::Equal,
                _ => Ordering::Greater,
            },
        }
    }

    /// Whether two keys are one.
    pub fn is(self, other: KeyRef<'_>) -> bool
        ensures { result ≡ eq_by_cmp key_cmp (lent_key self.entry) (lent_key other.entry) }
    {
        match self.compare(other) {
            Ordering::Equal => true,
            _ => false,
        }
    }

    /// Whether this key comes before another.
    pub fn is_before(self, other: KeyRef<'_>) -> bool
        ensures { result ≡ is_lt (key_cmp (lent_key self.entry) (lent_key other.entry)) }
    {
        match self.compare(other) {
            Ordering::Less => true,
            _ => false,
        }
    }
}
