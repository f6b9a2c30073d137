//! The bytes of a script, and the bytes of a transcript.
ghost use Rattle.std.specs.Prelude.{◌≡◌, ◌<◌, ◌≤◌, List, [], ℕ, Option, length, take, OnErr, OnOk, IfOk, IfSome};
ghost use Rattle.emitter_model.specs.transcript_model.Outside.{Rose, ahead, behind};

use thiserror::Error;

/// A read or a write failed, and its count of faults rose.
#[derive(Clone, Copy, Debug, PartialEq, Eq, Error)]
#[error("a read or a write failed")]
pub struct Failed;

/// Bytes that are read from the front on.
pub trait Source {
    /// How often a read has failed, up to the greatest `u64`.
    ghost faults: { Self → ℕ };

    /// The bytes left, where they are known.
    ghost left: { Self → Option (List ℕ) };

    /// Reads some of the bytes left into the front of the buffer, and tells how many. `Ok(0)` is the end.
    /// A read that fails takes none.
    fn read(&mut self, buf: &mut [u8]) -> Result<usize, Failed>
        requires { 0 < length buf.old }
        ensures within { IfOk result (λ n. n ≤ length buf.new) }
        ensures bytes { IfOk result (λ n. left self.old ≡ ahead (take n buf.new) (left self.new)) }
        ensures end { result ≡ Ok 0 → IfSome (left self.old) (λ rest. rest ≡ []) }
        ensures err { OnErr result (left self.new ≡ left self.old) }
        ensures count { faults self.old ≤ faults self.new }
        ensures same { OnOk result (faults self.new ≡ faults self.old) }
        ensures fault { OnErr result (Rose (faults self.old) (faults self.new)) };
}

/// Bytes that are written one after another.
pub trait Sink {
    /// How often a write has failed, up to the greatest `u64`.
    ghost faults: { Self → ℕ };

    /// The bytes written, where they are known.
    ghost shown: { Self → Option (List ℕ) };

    /// Writes a front of the bytes, at least one of them, and tells how many. A write that fails takes none.
    fn write(&mut self, bytes: &[u8]) -> Result<usize, Failed>
        requires { 0 < length bytes.now }
        ensures within { IfOk result (λ n. (0 < n) × (n ≤ length bytes.now)) }
        ensures bytes { IfOk result (λ n. shown self.new ≡ behind (shown self.old) (take n bytes.now)) }
        ensures err { OnErr result (shown self.new ≡ shown self.old) }
        ensures count { faults self.old ≤ faults self.new }
        ensures same { OnOk result (faults self.new ≡ faults self.old) }
        ensures fault { OnErr result (Rose (faults self.old) (faults self.new)) };
}
