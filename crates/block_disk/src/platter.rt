//! Where the blocks of a disk are kept.
ghost use Rattle.std.specs.Prelude.{◌≡◌, ◌<◌, ℕ, Bool, true, false, List, Option, option_map, slice_set, IfSome, OnOk, OnErr};
ghost use Rattle.block_disk.specs.Blocks.{block_at, IsWhole};
ghost use Rattle.block_disk.specs.Counts.{counted, is_err};

use thiserror::Error;

/// A call of a platter failed.
#[derive(Clone, Copy, Debug, PartialEq, Eq, Error)]
#[error("a call of the platter failed")]
pub struct Failed;

/// Blocks of 512 bytes, numbered from 0. Any call may fail, and each failure raises a count.
pub trait Platter {
    /// How many blocks it has. It never changes.
    ghost size: { Self → ℕ };

    /// How many calls have failed, up to the greatest u64.
    ghost faults: { Self → ℕ };

    /// The blocks, where they are told.
    ghost content: { Self → Option (List (List ℕ)) };

    /// Whether nothing was written since it was made or since the last `sync` that answered Ok.
    ghost synced: { Self → Bool };

    fn blocks(&self) -> u32
        ensures { result ≡ size self.now };

    fn read(&mut self, n: u32, out: &mut [u8; 512]) -> Result<(), Failed>
        requires { n < size self.old }
        ensures read { OnOk result (IfSome (content self.old) (λ blocks. out.new ≡ block_at blocks n)) }
        ensures content { content self.new ≡ content self.old }
        ensures synced { synced self.new ≡ synced self.old }
        ensures faults { faults self.new ≡ counted (is_err result) (faults self.old) }
        ensures size { size self.new ≡ size self.old };

    /// After a failure the block may have any bytes.
    fn write(&mut self, n: u32, bytes: &[u8; 512]) -> Result<(), Failed>
        requires { n < size self.old }
        ensures ok { OnOk result (content self.new ≡ option_map (λ blocks. slice_set blocks n bytes.now) (content self.old)) }
        ensures err { OnErr result ((any : List ℕ) × (content self.new ≡ option_map (λ blocks. slice_set blocks n any) (content self.old))) }
        ensures synced { synced self.new ≡ false }
        ensures faults { faults self.new ≡ counted (is_err result) (faults self.old) }
        ensures size { size self.new ≡ size self.old };

    /// Makes what was written durable.
    fn sync(&mut self) -> Result<(), Failed>
        ensures content { content self.new ≡ content self.old }
        ensures synced { OnOk result (synced self.new ≡ true) }
        ensures faults { faults self.new ≡ counted (is_err result) (faults self.old) }
        ensures size { size self.new ≡ size self.old };

    ghost whole: { (platter : Self) → IfSome (content platter) (IsWhole (size platter)) };
}
