// Entries where they stand.
ghost use Rattle.std.specs.Prelude.{◌≡◌, ◌≤◌, ◌<◌, ◌+◌, ◌-◌, ◌*◌, ◌^◌, ℕ, List, OnOk, IfOk, IfErr, IfSome, Some, length, slice_index};
ghost use Rattle.byteorder.specs.Endian.{little_bytes, little_number};
ghost use Rattle.careful_write.specs.block_disk.Blocks.{block_at};
ghost use Rattle.careful_write.specs.block_disk.Sizes.{content_start};
ghost use Rattle.careful_write.specs.State.{InHome};
ghost use Rattle.journal_format.specs.Heads.{entry_of};
ghost use Rattle.journal_format.specs.journal_model.Entries.{IsEntry};
ghost use Rattle.journal_format.specs.journal_model.Ring.{byte_at};
ghost use Rattle.journal_store.specs.Leaving.{OnlyReads, Fell};
ghost use Rattle.journal_store.specs.Reading.{Holds, ReadsAt, told_size};
ghost use Rattle.journal_store.specs.Rings.{IsRing};

use byteorder::{ByteOrder, LittleEndian};
use careful_write::{Disk, Down, Store};
use file_base::{Record, Span, splice};
use journal_format::{EntryHead, HEAD, LONGEST_ENTRY, decode};

// Reads bytes of one block, from a place on, over those of a buffer.
fn read_block<D: Disk>(
    store: &mut Store<D>,
    n: u32,
    at: usize,
    count: usize,
    out: &mut [u8],
    from: usize,
) -> Result<(), Down>
    requires home { InHome store.old.disk n }
    requires within { at + count ≤ 512 }
    requires room { from + count ≤ length out.old }
    ensures length { length out.new ≡ length out.old }
    ensures before { (i : ℕ) → i < from → slice_index out.new i ≡ slice_index out.old i }
    ensures read { OnOk result (IfSome store.old.current (λ c. (i : ℕ) → i < count → slice_index out.new (from + i) ≡ slice_index (block_at c (n - content_start)) (at + i))) }
    ensures only { OnlyReads result store.old store.new }
{
    let mut block = [0; 512];
    store.read(n, &mut block)?;
    splice(out, from, &block[at..at + count]);
    Ok(())
}

// Reads the bytes of a buffer from one place to another, where its first byte is that of a position. It reads as many blocks as they take.
fn read_stream<D: Disk>(
    store: &mut Store<D>,
    span: &Span,
    position: u64,
    out: &mut [u8],
    from: usize,
    to: usize,
) -> Result<(), Down>
    requires ring { IsRing span.now store.old.disk }
    requires low { position ≤ 2 ^ 62 }
    requires order { from ≤ to }
    requires within { to ≤ length out.old }
    requires few { length out.old ≤ 8272 }
    ensures length { length out.new ≡ length out.old }
    ensures read { OnOk result (IfSome store.old.current (λ c. Holds span.now position from out.old c → Holds span.now position to out.new c)) }
    ensures only { OnlyReads result store.old store.new }
{
    let size = 512 * span.blocks as u64;
    let first = (position + from as u64) % size;
    let mut done = from;
    let mut block = first / 512;
    let mut place = (first % 512) as usize;
    while done < to {
        let count = (512 - place).min(to - done);
        read_block(store, span.start + block as u32, place, count, out, done)?;
        done += count;
        place = 0;
        block = if block + 1 == span.blocks as u64 {
            0
        } else {
            block + 1
        };
    }
    Ok(())
}

// The length that the head of an entry tells, kept within those of entries.
fn told_size(front: &[u8]) -> usize
    requires { 8 ≤ length front.now }
    ensures size { result ≡ told_size front.now }
    ensures least { 48 ≤ result }
    ensures most { result ≤ 8272 }
{
    (LittleEndian::read_u16(&front[6..8]) as usize).clamp(HEAD, LONGEST_ENTRY)
}

fn read_entry<D: Disk>(
    store: &mut Store<D>,
    span: &Span,
    position: u64,
    image: &mut Record,
) -> Result<Option<(EntryHead, u64)>, Down>
    requires ring { IsRing span.now store.old.disk }
    requires low { position ≤ 2 ^ 62 }
    ensures entry { IfOk result (λ r. IfSome store.old.current (ReadsAt span.now position r image.new)) }
    ensures is { IfOk result (λ r. IfSome r (λ e. IsEntry (entry_of e.0 image.new))) }
    ensures on { IfOk result (λ r. IfSome r (λ e. position < e.1)) }
    ensures only { OnlyReads result store.old store.new }
{
    let mut bytes = [0; LONGEST_ENTRY];
    read_stream(store, span, position, &mut bytes, 0, HEAD)?;
    let size = told_size(&bytes);
    read_stream(store, span, position, &mut bytes, HEAD, size)?;
    match decode(&bytes[..size], image) {
        Ok((head, length)) => Ok(Some((head, position + length as u64))),
        Err(_) => Ok(None),
    }
}

/// The entry that stands at a position, and the position behind it; None exactly where none stands there. After Down nothing is staged.
pub fn entry_at<D: Disk>(
    store: &mut Store<D>,
    span: &Span,
    position: u64,
    image: &mut Record,
) -> Result<Option<(EntryHead, u64)>, Down>
    requires ring { IsRing span.now store.old.disk }
    requires low { position ≤ 2 ^ 62 }
    ensures entry { IfOk result (λ r. IfSome store.old.current (ReadsAt span.now position r image.new)) }
    ensures is { IfOk result (λ r. IfSome r (λ e. IsEntry (entry_of e.0 image.new))) }
    ensures on { IfOk result (λ r. IfSome r (λ e. position < e.1)) }
    ensures ok { OnOk result (OnlyReads result store.old store.new) }
    ensures down { IfErr result (λ down. Fell down store.old store.new) }
{
    match read_entry(store, span, position, image) {
        Ok(entry) => Ok(entry),
        Err(down) => {
            store.unstage();
            Err(down)
        }
    }
}
