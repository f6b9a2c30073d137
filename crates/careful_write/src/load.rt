//! What a disk's gate and index say, and the opening of a disk whose gate is open.
ghost use Rattle.std.specs.Prelude.{◌≡◌, ◌<◌, ◌≤◌, ◌+◌, ◌-◌, ◌/◌, ◌++◌, ℕ, List, [], true, false, Some, IfOk, IfSome, OnOk, OnErr, length, option_map, slice_index};
ghost use Rattle.block_disk.specs.Blocks.{AllWhole, has_number, numbers_of, ascends, block_at};
ghost use Rattle.block_disk.specs.Disk.{answered};
ghost use Rattle.byteorder.specs.Endian.{little_bytes, little_number};
ghost use Rattle.block_disk.specs.Sizes.{least_disk_size};
ghost use Rattle.careful_write.specs.Content.{home, gate_open, intents, content_of, laid_home, word_of, index_word};
ghost use Rattle.careful_write.specs.State.{InHome, LeavesAsItWas};
ghost use Rattle.careful_write.specs.Load.{Says, LoadsOnly, fitting};
ghost use Rattle.careful_write.specs.Steps.{Counts};
ghost use Rattle.careful_write.specs.Sizes.{group_limit};

use crate::group::finish;
use block_disk::{BlockTable, Disk, DiskErr};
use byteorder::{ByteOrder, LittleEndian};

/// What the gate and the index say.
#[derive(Clone, Copy, Debug, PartialEq, Eq)]
pub(crate) enum Found {
    Closed,
    Open,
    Misfit,
}

/// Reads the open group, if there is one that fits.
pub(crate) fn load_group<D: Disk>(disk: &mut D, group: &mut BlockTable) -> Result<Found, DiskErr>
    requires size { least_disk_size ≤ (D.state disk.old).size }
    requires empty { group.old.entries ≡ [] }
    requires room { group.old.room ≡ 513 }
    ensures state { D.state disk.new ≡ answered result (D.state disk.old) }
    ensures room { group.new.room ≡ 513 }
    ensures found { IfOk result (λ found. IfSome (D.state disk.old).seen (Says found group.new.entries)) }
    ensures few { length group.new.entries ≤ group_limit }
    ensures whole { AllWhole group.new.entries }
    ensures in_home { (n : ℕ) → has_number n (numbers_of group.new.entries) ≡ true → InHome (D.state disk.old) n }
{
    let mut bytes = [0; 512];
    disk.read(0, &mut bytes)?;
    if bytes[0] != 1 {
        return Ok(Found::Closed);
    }
    let mut index = [0; 512];
    disk.read(1, &mut index)?;
    let count = word_in(&index, 0);
    if count > 512 {
        return Ok(Found::Misfit);
    }
    if load_entries(disk, group, count, &mut index)? {
        Ok(Found::Open)
    } else {
        Ok(Found::Misfit)
    }
}

// Whether the entries that the index names fit.
fn load_entries<D: Disk>(
    disk: &mut D,
    group: &mut BlockTable,
    count: u32,
    index: &mut [u8; 512],
) -> Result<bool, DiskErr>
    requires size { least_disk_size ≤ (D.state disk.old).size }
    requires empty { group.old.entries ≡ [] }
    requires room { group.old.room ≡ 513 }
    requires count { count ≤ group_limit }
    requires is { IfSome (D.state disk.old).seen (λ blocks. index_word blocks 0 ≡ count) }
    requires index { IfSome (D.state disk.old).seen (λ blocks. index.old ≡ block_at blocks 1) }
    ensures state { D.state disk.new ≡ answered result (D.state disk.old) }
    ensures room { group.new.room ≡ 513 }
    ensures loads { IfOk result (λ fit. IfSome (D.state disk.old).seen (LoadsOnly fit group.new.entries)) }
    ensures few { length group.new.entries ≤ group_limit }
    ensures whole { AllWhole group.new.entries }
    ensures in_home { (n : ℕ) → has_number n (numbers_of group.new.entries) ≡ true → InHome (D.state disk.old) n }
{
    let size = disk.blocks();
    let mut low = 518;
    for i in 0..count {
        let n = next_word(disk, i + 1, index)?;
        if n < low || n >= size {
            return Ok(false);
        }
        let mut bytes = [0; 512];
        disk.read(6 + i, &mut bytes)?;
        group.put(n, &bytes);
        low = n + 1;
    }
    Ok(true)
}

// Word w of the index. The block of the word before it is at hand, and the next one is read where w is its first.
fn next_word<D: Disk>(disk: &mut D, w: u32, index: &mut [u8; 512]) -> Result<u32, DiskErr>
    requires size { least_disk_size ≤ (D.state disk.old).size }
    requires first { 0 < w }
    requires last { w ≤ group_limit }
    requires before { IfSome (D.state disk.old).seen (λ blocks. index.old ≡ block_at blocks (1 + (w - 1) / 128)) }
    ensures word { IfOk result (λ n. IfSome (D.state disk.old).seen (λ blocks. n ≡ index_word blocks w)) }
    ensures here { OnOk result (IfSome (D.state disk.old).seen (λ blocks. index.new ≡ block_at blocks (1 + w / 128))) }
    ensures state { D.state disk.new ≡ answered result (D.state disk.old) }
{
    if w % 128 == 0 {
        disk.read(1 + w / 128, index)?;
    }
    Ok(word_in(index, (w % 128) as usize))
}

// Word k of a block of the index.
fn word_in(bytes: &[u8; 512], k: usize) -> u32
    requires { k < 128 }
    ensures { result ≡ word_of bytes.now k }
{
    LittleEndian::read_u32(&bytes[4 * k..])
}

/// Finishes an open group that fits. It changes no content.
pub(crate) fn open_group<D: Disk>(disk: &mut D, group: &mut BlockTable) -> Result<bool, DiskErr>
    requires settled { (D.state disk.old).pending ≡ [] }
    requires size { least_disk_size ≤ (D.state disk.old).size }
    requires empty { group.old.entries ≡ [] }
    requires room { group.old.room ≡ 513 }
    ensures content { OnOk result (option_map content_of (D.state disk.new).seen ≡ option_map content_of (D.state disk.old).seen) }
    ensures home { OnOk result (option_map home (D.state disk.new).seen ≡ option_map content_of (D.state disk.old).seen) }
    ensures closed { IfOk result (λ fits. fits ≡ true → IfSome (D.state disk.new).seen (λ blocks. gate_open blocks ≡ false)) }
    ensures fits { IfOk result (λ fits. IfSome (D.state disk.old).seen (λ blocks. fits ≡ fitting blocks)) }
    ensures settled { OnOk result ((D.state disk.new).pending ≡ []) }
    ensures unfit { IfOk result (λ fits. fits ≡ false → D.state disk.new ≡ D.state disk.old) }
    ensures shut { OnOk result (IfSome (D.state disk.old).seen (λ blocks. gate_open blocks ≡ false → D.state disk.new ≡ D.state disk.old)) }
    ensures err { OnErr result (LeavesAsItWas (D.state disk.old).seen (D.state disk.new)) }
    ensures counts { Counts result (D.state disk.old) (D.state disk.new) }
    ensures room { group.new.room ≡ 513 }
{
    match load_group(disk, group)? {
        Found::Closed => Ok(true),
        Found::Misfit => Ok(false),
        Found::Open => {
            finish(disk, group)?;
            Ok(true)
        }
    }
}

/// Reads an open group that fits, so that it lies over the blocks.
pub(crate) fn inspect_group<D: Disk>(disk: &mut D, group: &mut BlockTable) -> Result<bool, DiskErr>
    requires size { least_disk_size ≤ (D.state disk.old).size }
    requires empty { group.old.entries ≡ [] }
    requires room { group.old.room ≡ 513 }
    ensures current { OnOk result (laid_home group.new.entries (D.state disk.old).seen ≡ option_map content_of (D.state disk.old).seen) }
    ensures fits { IfOk result (λ fits. IfSome (D.state disk.old).seen (λ blocks. fits ≡ fitting blocks)) }
    ensures state { D.state disk.new ≡ answered result (D.state disk.old) }
    ensures room { group.new.room ≡ 513 }
    ensures few { OnOk result (length group.new.entries ≤ group_limit) }
    ensures whole { OnOk result (AllWhole group.new.entries) }
    ensures ascending { OnOk result (ascends 0 group.new.entries ≡ true) }
    ensures in_home { OnOk result ((n : ℕ) → has_number n (numbers_of group.new.entries) ≡ true → InHome (D.state disk.old) n) }
{
    match load_group(disk, group)? {
        Found::Closed => {
            group.clear();
            Ok(true)
        }
        Found::Misfit => {
            group.clear();
            Ok(false)
        }
        Found::Open => {
            let _count = group.len();
            Ok(true)
        }
    }
}
