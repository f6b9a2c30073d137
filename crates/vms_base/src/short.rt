// A few bytes, without memory.
ghost use Rattle.std.specs.Prelude.{◌≡◌, ℕ, ◌+◌, ◌-◌, ◌<◌, ◌≤◌, List, [], ◌∷◌, ◌++◌, length, take, replicate};

use std::marker::Model;

/// At most `N` bytes.
#[derive(Clone, Copy, Debug, PartialEq, Eq, Hash, Drop)]
pub struct Short<const N: usize> {
    bytes: [u8; N],
    used: usize,
}

impl<const N: usize> Model for Short<N> {
    ghost Value = { List ℕ };

    ghost view = { λ s. take s.used s.bytes };

    ghost invariant = { λ s. (s.used ≤ N) × (s.bytes ≡ take s.used s.bytes ++ replicate (N - s.used) 0) × (length s.bytes ≡ N) };

    ghost inverse = { λ bytes. record { bytes = bytes ++ replicate (N - length bytes) 0; used = length bytes } };
}

impl<const N: usize> Short<N> {
    /// No bytes.
    pub fn new() -> Self
        ensures { result ≡ [] }
    {
        Short {
            bytes: [0; N],
            used: 0,
        }
    }

    /// The bytes, at most `N`.
    pub fn bytes(&self) -> &[u8]
        ensures value { result.now ≡ self.now }
        ensures few { length self.now ≤ N }
    {
        &self.bytes[..self.used]
    }

    /// The bytes, with zeros up to `N`.
    pub fn padded(&self) -> [u8; N]
        ensures { result ≡ self.now ++ replicate (N - length self.now) 0 }
    {
        self.bytes
    }

    /// A copy of at most `N` bytes.
    pub fn from_slice(bytes: &[u8]) -> Self
        requires { length bytes.now ≤ N }
        ensures { result ≡ bytes.now }
    {
        let mut all = Short::new();
        all.extend(bytes);
        all
    }

    /// Adds bytes at the end, where there is room for them.
    pub fn extend(&mut self, bytes: &[u8])
        requires { length self.old + length bytes.now ≤ N }
        ensures { self.new ≡ self.old ++ bytes.now }
    {
        for b in bytes {
            self.push(*b);
        }
    }

    /// Adds a byte at the end, where there is room for it.
    pub fn push(&mut self, b: u8)
        requires { length self.old < N }
        ensures { self.new ≡ self.old ++ b ∷ [] }
    {
        self.bytes[self.used] = b;
        self.used += 1;
    }
}
