//! The entry that leads to a bucket, and a new root over an old one.
ghost use Rattle.std.specs.Prelude.{◌≡◌, ◌≤◌, ◌+◌, ◌*◌, ◌<◌, ◌^◌, ℕ, List, [], ◌∷◌, true, false, length, take, drop, replicate};
ghost use Rattle.byteorder.specs.Endian.{little_bytes};
ghost use Rattle.file_base.specs.vms_model.Limits.{key_limit};
ghost use Rattle.bucket_page.specs.Pages.{slots_of, no_next, inserted, suits, IsBucket, IsPacked, Packs};
ghost use Rattle.index_model.specs.Indexes.{first_separator};
ghost use Rattle.index_bucket.specs.Entries.{index_kind, entry_of, entries_at};
ghost use Rattle.index_bucket.specs.Takes.{entries_of};
ghost use Rattle.index_bucket.specs.Laws.{HasEntries};

use crate::entries::{entry, kind};
use crate::hand::{ENTRY_BYTES, Handed, take_handed};
use bucket_page::{clear_front, insert_front};
use byteorder::{ByteOrder, LittleEndian};
use file_base::{FileHead, splice};

// The number of a bucket in four bytes.
fn number_bytes(number: u32) -> [u8; 4]
    ensures { result ≡ little_bytes 4 number }
{
    let mut bytes = [0; 4];
    LittleEndian::write_u32(&mut bytes, number);
    bytes
}

/// The bytes of the entry of a separator and a child, with zeros behind them.
pub fn entry_bytes(head: &FileHead, separator: &[u8], child: u32) -> [u8; ENTRY_BYTES]
    requires key { head.now.key_size ≤ key_limit }
    requires separator { length separator.now ≡ head.now.key_size }
    ensures is { entry_of head.now (take (head.now.key_size + 4) result) ≡ record { separator = separator.now; child = child } }
    ensures suits { suits (index_kind head.now) (take (head.now.key_size + 4) result) ≡ true }
{
    let mut bytes = [0; ENTRY_BYTES];
    splice(&mut bytes, 0, separator);
    splice(&mut bytes, separator.len(), &number_bytes(child));
    bytes
}

/// The entry that leads to an index bucket of this number, by the first separator in it.
pub fn parent_of(head: &FileHead, bytes: &[u8], number: u32) -> Handed
    requires key { head.now.key_size ≤ key_limit }
    requires packed { IsPacked (index_kind head.now) (length bytes.now) bytes.now }
    requires some { 1 ≤ length (slots_of (index_kind head.now) bytes.now) }
    ensures { entries_of head.now result ≡ record { separator = first_separator (entries_at head.now bytes.now); child = number } ∷ [] }
{
    let first = entry(bytes, head, 0);
    Handed::One(entry_bytes(head, &first[..head.key_size as usize], number))
}

// Writes a bucket with the one entry that leads all keys to a root.
fn lead_all(head: &FileHead, size: usize, bytes: &mut [u8], root: u32)
    requires one { 1 ≤ head.now.bucket }
    requires blocks { head.now.bucket ≤ 16 }
    requires key { head.now.key_size ≤ key_limit }
    requires sized { size ≡ 512 * head.now.bucket }
    requires within { size ≤ length bytes.old }
    ensures bucket { IsBucket (index_kind head.now) size (take size bytes.new) }
    ensures entry { entries_at head.now (take size bytes.new) ≡ record { separator = replicate head.now.key_size 0; child = root } ∷ [] }
{
    let zeros = [0; 64];
    let entry = entry_bytes(head, &zeros[..head.key_size as usize], root);
    clear_front(bytes, size, kind(head), u32::MAX);
    let _ = insert_front(
        bytes,
        size,
        kind(head),
        0,
        &entry[..head.key_size as usize + 4],
    );
}

/// Writes a new root: all keys lead to the old one, but for those that the entries handed up lead elsewhere.
pub fn make_root(
    head: &FileHead,
    size: usize,
    bytes: &mut [u8],
    spare: &mut [u8],
    root: u32,
    key: &[u8],
    handed: &Handed,
)
    requires one { 1 ≤ head.now.bucket }
    requires blocks { head.now.bucket ≤ 16 }
    requires key { head.now.key_size ≤ key_limit }
    requires sized { size ≡ 512 * head.now.bucket }
    requires within { size ≤ length bytes.old }
    requires spare { size ≤ length spare.old }
    ensures { HasEntries head.now (record { separator = replicate head.now.key_size 0; child = root } ∷ entries_of head.now handed.now) (take size bytes.new) }
{
    lead_all(head, size, bytes, root);
    let _ = take_handed(head, size, bytes, spare, key, handed);
}
