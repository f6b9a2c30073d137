//! The entries that lead to new leaves.
ghost use Rattle.std.specs.Prelude.{◌≡◌, ◌≤◌, ◌<◌, ◌+◌, ◌-◌, ◌*◌, ℕ, List, true, false, length, take, drop};
ghost use Rattle.block_disk.specs.Sizes.{greatest_disk_size};
ghost use Rattle.vms_base.specs.vms_model.Limits.{key_limit};
ghost use Rattle.bucket_page.specs.Pages.{slots_of, IsPacked};
ghost use Rattle.index_blocks.specs.index_bucket.Entries.{entry_of};
ghost use Rattle.index_blocks.specs.index_bucket.Takes.{entries_of};
ghost use Rattle.indexed_file.specs.tree_model.Setting.{first_key};
ghost use Rattle.indexed_file.specs.Chain.{kind_of};
ghost use Rattle.indexed_file.specs.Raws.{slots_at};
ghost use Rattle.indexed_tree.specs.Sets.{entry_to, entries_to, HasSlots, NewHaveSlots};

use bucket_page::{Page, PageKind};
use file_base::FileHead;
use index_blocks::{ENTRY_BYTES, Handed, entry_bytes};

// The kind of leaves.
fn kind(head: &FileHead) -> PageKind
    ensures { result ≡ kind_of head.now }
{
    PageKind::Data {
        key_pos: head.key_pos,
        key_size: head.key_size,
    }
}

// The key of the first slot of a leaf.
fn first_key_of<'a>(bytes: &'a [u8], head: &FileHead) -> &'a [u8]
    requires packed { IsPacked (kind_of head.now) (length bytes.now) bytes.now }
    requires some { 1 ≤ length (slots_of (kind_of head.now) bytes.now) }
    requires small { length bytes.now ≤ 8192 }
    ensures is { result.now ≡ first_key (slots_at head.now bytes.now) }
    ensures size { length result.now ≡ head.now.key_size }
{
    let (at, size) = Page::place(bytes, kind(head), 0);
    let slot = &bytes[at as usize..at as usize + size as usize];
    let from = 4 + head.key_pos as usize;
    &slot[from..from + head.key_size as usize]
}

// The entry that leads to a leaf of this number; zeros where the bytes are no leaf, or one without slots.
fn leaf_entry(head: &FileHead, bytes: &[u8], number: u32) -> [u8; ENTRY_BYTES]
    requires key { head.now.key_size ≤ key_limit }
    requires small { length bytes.now ≤ 8192 }
    requires sized { length bytes.now ≡ 512 * head.now.bucket }
    ensures { HasSlots head.now bytes.now → entry_of head.now (take (head.now.key_size + 4) result) ≡ entry_to head.now bytes.now number }
{
    match Page::slots(bytes, kind(head)) {
        Some(count) => {
            if count == 0 {
                return [0; ENTRY_BYTES];
            }
            entry_bytes(head, first_key_of(bytes, head), number)
        }
        None => [0; ENTRY_BYTES],
    }
}

/// The entries that lead to one or two new leaves, which have these bytes and are numbered from the used ones on.
pub(crate) fn entries_for(head: &FileHead, added: u32, mid: &[u8], high: &[u8]) -> Handed
    requires key { head.now.key_size ≤ key_limit }
    requires small { 512 * head.now.bucket ≤ 8192 }
    requires mid_sized { length mid.now ≡ 512 * head.now.bucket }
    requires high_sized { length high.now ≡ 512 * head.now.bucket }
    requires some { 1 ≤ added }
    requires few { added ≤ 2 }
    requires numbers { head.now.used ≤ greatest_disk_size }
    ensures { NewHaveSlots head.now added mid.now high.now → entries_of head.now result ≡ entries_to head.now added mid.now high.now }
{
    let first = leaf_entry(head, mid, head.used);
    if added == 1 {
        return Handed::One(first);
    }
    Handed::Two(first, leaf_entry(head, high, head.used + 1))
}
