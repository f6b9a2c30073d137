//! A disk: blocks that a power loss may damage until a barrier.
ghost use Rattle.std.specs.Prelude.{◌≡◌, ◌<◌, ℕ, List, length, true, false, IfSome, OnOk, OnErr, Err};
ghost use Rattle.block_disk.specs.Blocks.{block_at, IsWhole};
ghost use Rattle.block_disk.specs.Disk.{DiskState, IsPowered, answered, put, settled, armed, powering, is_stopped};
ghost use Rattle.block_disk.specs.Sizes.{pending_limit};

use crate::Failed;
use thiserror::Error;

/// Why a call of a disk was not carried out.
#[derive(Clone, Copy, Debug, PartialEq, Eq, Error)]
pub enum DiskErr {
    /// A call of the platter failed.
    #[error("the disk failed")]
    Failed,
    /// The disk has stopped, and stays so until it is powered.
    #[error("the disk has stopped")]
    Stopped,
}

impl From<Failed> for DiskErr {
    ghost use Rattle.block_disk.specs.declared.disk.DiskErr.TheVariants.{Failed as disk_failed};

    ghost from_gives = { λ _ e. e ≡ disk_failed };

    fn from(_: Failed) -> Self {
        DiskErr::Failed
    }
}

/// A call of `arm`, or a call of `power` with the count of stops before it.
#[derive(Clone, Copy, Debug, PartialEq, Eq)]
pub enum DiskCall {
    Arm { writes: u32, choice: u64 },
    Power { stops: u64 },
}

/// Blocks of 512 bytes, numbered from 0.
///
/// A block is pending from its write until the next barrier that answers Ok. A power loss leaves each pending
/// block with any bytes, and all others as they are.
pub trait Disk {
    ghost state: { Self → DiskState };

    /// How many blocks it has. It never changes.
    fn blocks(&self) -> u32
        ensures { result ≡ (state self.now).size };

    /// How many blocks are pending.
    fn pending(&self) -> u32
        ensures { result ≡ length (state self.now).pending };

    /// The bytes last written.
    fn read(&mut self, n: u32, out: &mut [u8; 512]) -> Result<(), DiskErr>
        requires { n < (state self.old).size }
        ensures read { OnOk result (IfSome (state self.old).seen (λ blocks. out.new ≡ block_at blocks n)) }
        ensures state { state self.new ≡ answered result (state self.old) }
        ensures stopped { (state self.old).stopped ≡ true → result ≡ Err DiskErr.Stopped };

    /// After an error the block may have any bytes, and is pending.
    fn write(&mut self, n: u32, bytes: &[u8; 512]) -> Result<(), DiskErr>
        requires in_range { n < (state self.old).size }
        requires room { length (state self.old).pending < pending_limit }
        ensures ok { OnOk result (state self.new ≡ put n bytes.now (state self.old)) }
        ensures err { OnErr result ((any : List ℕ) × (state self.new ≡ answered result (put n any (state self.old)))) }
        ensures stopped { (state self.old).stopped ≡ true → result ≡ Err DiskErr.Stopped };

    /// Makes all pending blocks durable.
    fn barrier(&mut self) -> Result<(), DiskErr>
        ensures ok { OnOk result (state self.new ≡ settled (state self.old)) }
        ensures err { OnErr result (state self.new ≡ answered result (state self.old)) }
        ensures stopped { (state self.old).stopped ≡ true → result ≡ Err DiskErr.Stopped };

    /// After so many further writes the next one answers Stopped. A later call replaces a fuse that is not spent.
    fn arm(&mut self, writes: u32, choice: u64)
        ensures { state self.new ≡ armed writes choice (state self.old) };

    /// A power loss, after which the disk runs again. After Failed a stopped disk stays stopped.
    fn power(&mut self) -> Result<(), DiskErr>
        ensures ok { OnOk result (IsPowered (state self.old) (state self.new)) }
        ensures err { OnErr result (state self.new ≡ answered result (powering (state self.old))) }
        ensures never_stopped { is_stopped result ≡ false };

    ghost whole: { (disk : Self) → IfSome (state disk).seen (IsWhole (state disk).size) };
}
