//! A group is written in four parts, each ended by a barrier: the intents, the open gate, the blocks, the closed gate.
ghost use Rattle.std.specs.Prelude.{◌≡◌, ◌≢◌, ◌<◌, ◌≤◌, ◌⊎◌, ◌+◌, ◌*◌, ◌/◌, ◌%◌, ℕ, List, [], true, false, IfSome, OnOk, OnErr, length, option_map, slice_set, slice_index_or};
ghost use Rattle.block_disk.specs.Blocks.{has_number, numbers_of, laid_over, ascends, block_at};
ghost use Rattle.byteorder.specs.Endian.{little_bytes, little_number};
ghost use Rattle.block_disk.specs.Sizes.{least_disk_size};
ghost use Rattle.careful_write.specs.Content.{home, laid_home, gate_open, intents, gate_block, word_of, word_for, words_for, HoldsBelow, NamesBelow, IsFront};
ghost use Rattle.careful_write.specs.State.{InHome, Leaves, IsEither};
ghost use Rattle.careful_write.specs.Steps.{Touches, Counts};
ghost use Rattle.careful_write.specs.Load.{Says};
ghost use Rattle.careful_write.specs.declared.load.Found.TheVariants.{Open};
ghost use Rattle.careful_write.specs.Parts.{in_gate, in_index, in_data, in_intents, in_group, in_finish, written_by, HasData, DataFirst};
ghost use Rattle.careful_write.specs.Sizes.{group_limit};

use block_disk::{BlockTable, Disk, DiskErr};
use byteorder::{ByteOrder, LittleEndian};

/// Writes the blocks whole or not at all, in every image that a power loss may leave.
pub(crate) fn write_group<D: Disk>(disk: &mut D, group: &BlockTable) -> Result<(), DiskErr>
    requires settled { (D.state disk.old).pending ≡ [] }
    requires closed { IfSome (D.state disk.old).seen (λ blocks. gate_open blocks ≡ false) }
    requires few { length group.now.entries ≤ group_limit }
    requires ascending { ascends 0 group.now.entries ≡ true }
    requires in_home { (n : ℕ) → has_number n (numbers_of group.now.entries) ≡ true → InHome (D.state disk.old) n }
    requires size { least_disk_size ≤ (D.state disk.old).size }
    ensures content { OnOk result (option_map home (D.state disk.new).seen ≡ laid_home group.now.entries (D.state disk.old).seen) }
    ensures closed { OnOk result (IfSome (D.state disk.new).seen (λ blocks. gate_open blocks ≡ false)) }
    ensures settled { OnOk result ((D.state disk.new).pending ≡ []) }
    ensures front { OnOk result (IfSome (D.state disk.new).seen (IsFront (numbers_of group.now.entries))) }
    ensures err { OnErr result (Leaves (IsEither (option_map home (D.state disk.old).seen) (laid_home group.now.entries (D.state disk.old).seen)) (D.state disk.new)) }
    ensures order { OnErr result (DataFirst (length group.now.entries) (D.state disk.new).pending) }
    ensures touches { Touches (written_by (numbers_of group.now.entries)) (D.state disk.old) (D.state disk.new) }
    ensures counts { Counts result (D.state disk.old) (D.state disk.new) }
{
    write_intents(disk, group)?;
    write_gate(disk, 1)?;
    finish(disk, group)?;
    Ok(())
}

/// The last two parts of a group that stands behind an open gate. It changes no content.
pub(crate) fn finish<D: Disk>(disk: &mut D, group: &BlockTable) -> Result<(), DiskErr>
    requires settled { (D.state disk.old).pending ≡ [] }
    requires size { least_disk_size ≤ (D.state disk.old).size }
    requires few { length group.now.entries ≤ group_limit }
    requires in_home { (n : ℕ) → has_number n (numbers_of group.now.entries) ≡ true → InHome (D.state disk.old) n }
    requires says { IfSome (D.state disk.old).seen (Says Open group.now.entries) }
    ensures home { OnOk result (option_map home (D.state disk.new).seen ≡ laid_home group.now.entries (D.state disk.old).seen) }
    ensures closed { OnOk result (IfSome (D.state disk.new).seen (λ blocks. gate_open blocks ≡ false)) }
    ensures settled { OnOk result ((D.state disk.new).pending ≡ []) }
    ensures gate { OnOk result (IfSome (D.state disk.new).seen (λ blocks. block_at blocks 0 ≡ gate_block 0)) }
    ensures err { OnErr result (Leaves (λ c. Some c ≡ laid_home group.now.entries (D.state disk.old).seen) (D.state disk.new)) }
    ensures touches { Touches (in_finish group.now.entries) (D.state disk.old) (D.state disk.new) }
    ensures counts { Counts result (D.state disk.old) (D.state disk.new) }
{
    write_home(disk, group)?;
    write_gate(disk, 0)?;
    Ok(())
}

// Writes the gate's block, with this mark and zeros behind it, and makes it durable.
fn write_gate<D: Disk>(disk: &mut D, mark: u8) -> Result<(), DiskErr>
    requires settled { (D.state disk.old).pending ≡ [] }
    requires size { least_disk_size ≤ (D.state disk.old).size }
    ensures seen { OnOk result ((D.state disk.new).seen ≡ option_map (λ blocks. slice_set blocks 0 (gate_block mark)) (D.state disk.old).seen) }
    ensures settled { OnOk result ((D.state disk.new).pending ≡ []) }
    ensures touches { Touches in_gate (D.state disk.old) (D.state disk.new) }
    ensures counts { Counts result (D.state disk.old) (D.state disk.new) }
{
    put_gate(disk, mark)?;
    disk.barrier()?; // The gate is durable before the next part.
    Ok(())
}

fn put_gate<D: Disk>(disk: &mut D, mark: u8) -> Result<(), DiskErr>
    requires settled { (D.state disk.old).pending ≡ [] }
    requires size { least_disk_size ≤ (D.state disk.old).size }
    ensures seen { OnOk result ((D.state disk.new).seen ≡ option_map (λ blocks. slice_set blocks 0 (gate_block mark)) (D.state disk.old).seen) }
    ensures touches { Touches in_gate (D.state disk.old) (D.state disk.new) }
    ensures counts { Counts result (D.state disk.old) (D.state disk.new) }
{
    let mut bytes = [0; 512];
    bytes[0] = mark;
    disk.write(0, &bytes)?;
    Ok(())
}

// Writes the blocks to their places, and makes them durable.
fn write_home<D: Disk>(disk: &mut D, group: &BlockTable) -> Result<(), DiskErr>
    requires settled { (D.state disk.old).pending ≡ [] }
    requires few { length group.now.entries ≤ group_limit }
    requires in_home { (n : ℕ) → has_number n (numbers_of group.now.entries) ≡ true → InHome (D.state disk.old) n }
    ensures seen { OnOk result ((D.state disk.new).seen ≡ laid_over group.now.entries (D.state disk.old).seen) }
    ensures settled { OnOk result ((D.state disk.new).pending ≡ []) }
    ensures touches { Touches (in_group group.now.entries) (D.state disk.old) (D.state disk.new) }
    ensures counts { Counts result (D.state disk.old) (D.state disk.new) }
{
    put_home(disk, group)?;
    disk.barrier()?; // The blocks are durable before the gate closes.
    Ok(())
}

fn put_home<D: Disk>(disk: &mut D, group: &BlockTable) -> Result<(), DiskErr>
    requires settled { (D.state disk.old).pending ≡ [] }
    requires few { length group.now.entries ≤ group_limit }
    requires in_home { (n : ℕ) → has_number n (numbers_of group.now.entries) ≡ true → InHome (D.state disk.old) n }
    ensures seen { OnOk result ((D.state disk.new).seen ≡ laid_over group.now.entries (D.state disk.old).seen) }
    ensures touches { Touches (in_group group.now.entries) (D.state disk.old) (D.state disk.new) }
    ensures counts { Counts result (D.state disk.old) (D.state disk.new) }
{
    for i in 0..group.len() {
        let (n, bytes) = group.at(i);
        disk.write(n, bytes)?;
    }
    Ok(())
}

// The intent data and then the index that names it, made durable.
fn write_intents<D: Disk>(disk: &mut D, group: &BlockTable) -> Result<(), DiskErr>
    requires settled { (D.state disk.old).pending ≡ [] }
    requires few { length group.now.entries ≤ group_limit }
    requires size { least_disk_size ≤ (D.state disk.old).size }
    ensures intents { OnOk result (IfSome (D.state disk.new).seen (λ blocks. intents blocks ≡ group.now.entries)) }
    ensures names { OnOk result (IfSome (D.state disk.new).seen (NamesBelow group.now.entries (words_for (length group.now.entries)))) }
    ensures order { OnErr result (DataFirst (length group.now.entries) (D.state disk.new).pending) }
    ensures settled { OnOk result ((D.state disk.new).pending ≡ []) }
    ensures touches { Touches (in_intents (length group.now.entries)) (D.state disk.old) (D.state disk.new) }
    ensures counts { Counts result (D.state disk.old) (D.state disk.new) }
{
    put_intents(disk, group)?;
    disk.barrier()?; // The intents are durable before the gate opens.
    Ok(())
}

fn put_intents<D: Disk>(disk: &mut D, group: &BlockTable) -> Result<(), DiskErr>
    requires settled { (D.state disk.old).pending ≡ [] }
    requires few { length group.now.entries ≤ group_limit }
    requires size { least_disk_size ≤ (D.state disk.old).size }
    ensures intents { OnOk result (IfSome (D.state disk.new).seen (λ blocks. intents blocks ≡ group.now.entries)) }
    ensures names { OnOk result (IfSome (D.state disk.new).seen (NamesBelow group.now.entries (words_for (length group.now.entries)))) }
    ensures pends { OnOk result (HasData (length group.now.entries) (D.state disk.new).pending) }
    ensures order { OnErr result (DataFirst (length group.now.entries) (D.state disk.new).pending) }
    ensures touches { Touches (in_intents (length group.now.entries)) (D.state disk.old) (D.state disk.new) }
    ensures counts { Counts result (D.state disk.old) (D.state disk.new) }
{
    write_data(disk, group)?;
    write_index(disk, group)?;
    Ok(())
}

fn write_data<D: Disk>(disk: &mut D, group: &BlockTable) -> Result<(), DiskErr>
    requires settled { (D.state disk.old).pending ≡ [] }
    requires few { length group.now.entries ≤ group_limit }
    requires size { least_disk_size ≤ (D.state disk.old).size }
    ensures held { OnOk result (IfSome (D.state disk.new).seen (HoldsBelow group.now.entries (length group.now.entries))) }
    ensures pending { OnOk result (length (D.state disk.new).pending ≤ group_limit) }
    ensures pends { OnOk result (HasData (length group.now.entries) (D.state disk.new).pending) }
    ensures touches { Touches (in_data (length group.now.entries)) (D.state disk.old) (D.state disk.new) }
    ensures counts { Counts result (D.state disk.old) (D.state disk.new) }
{
    for i in 0..group.len() {
        let (_, bytes) = group.at(i);
        disk.write(6 + i as u32, bytes)?;
    }
    Ok(())
}

// Writes only those blocks of the index that the count needs.
fn write_index<D: Disk>(disk: &mut D, group: &BlockTable) -> Result<(), DiskErr>
    requires pending { length (D.state disk.old).pending ≤ group_limit }
    requires few { length group.now.entries ≤ group_limit }
    requires size { least_disk_size ≤ (D.state disk.old).size }
    ensures names { OnOk result (IfSome (D.state disk.new).seen (NamesBelow group.now.entries (words_for (length group.now.entries)))) }
    ensures kept { (n : ℕ) → has_number n (D.state disk.old).pending ≡ true → has_number n (D.state disk.new).pending ≡ true }
    ensures touches { Touches (in_index (length group.now.entries)) (D.state disk.old) (D.state disk.new) }
    ensures counts { Counts result (D.state disk.old) (D.state disk.new) }
{
    let count = group.len() / 128 + 1;
    for j in 0..count {
        disk.write(1 + j as u32, &index_block(group, j))?;
    }
    Ok(())
}

// How many words of block j of the index tell something: those behind them are zeros.
fn words_told(group: &BlockTable, j: usize) -> usize
    requires few { length group.now.entries ≤ group_limit }
    requires block { 128 * j ≤ length group.now.entries }
    ensures most { result ≤ 128 }
    ensures told { (result ≡ 128) ⊎ (128 * j + result ≡ length group.now.entries + 1) }
{
    (group.len() + 1 - 128 * j).min(128)
}

// Block j of the index, from 0.
fn index_block(group: &BlockTable, j: usize) -> [u8; 512]
    requires few { length group.now.entries ≤ group_limit }
    requires block { 128 * j ≤ length group.now.entries }
    ensures { (k : ℕ) → k < 128 → word_of result k ≡ word_for group.now.entries (128 * j + k) }
{
    let mut bytes = [0; 512];
    for k in 0..words_told(group, j) {
        put_word(&mut bytes, k, index_word_of(group, 128 * j + k));
    }
    bytes
}

// Word w of the index: the count, the numbers, and zeros behind them.
fn index_word_of(group: &BlockTable, w: usize) -> u32
    requires few { length group.now.entries ≤ group_limit }
    ensures { result ≡ word_for group.now.entries w }
{
    if w == 0 {
        return group.len() as u32;
    }
    if w > group.len() {
        return 0;
    }
    group.at(w - 1).0
}

// A word in four bytes.
fn word_bytes(word: u32) -> [u8; 4]
    ensures { result ≡ little_bytes 4 word }
{
    let mut bytes = [0; 4];
    LittleEndian::write_u32(&mut bytes, word);
    bytes
}

fn put_word(bytes: &mut [u8; 512], k: usize, word: u32)
    requires { k < 128 }
    ensures here { word_of bytes.new k ≡ word }
    ensures others { (i : ℕ) → i ≢ k → word_of bytes.new i ≡ word_of bytes.old i }
{
    let [first, second, third, fourth] = word_bytes(word);
    bytes[4 * k] = first;
    bytes[4 * k + 1] = second;
    bytes[4 * k + 2] = third;
    bytes[4 * k + 3] = fourth;
}
