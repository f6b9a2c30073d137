//! The record of a key.
ghost use Rattle.std.specs.Prelude.{◌≡◌, ◌≤◌, ◌<◌, ◌-◌, ℕ, true, false, Some, None, length, IfNone};
ghost use Rattle.vms_base.specs.vms_model.Limits.{record_limit};
ghost use Rattle.bucket_page.specs.Pages.{IsBucket};
ghost use Rattle.change_set.specs.records_model.Slots.{slot_at};
ghost use Rattle.change_set.specs.records_model.Chain.{begins_by};
ghost use Rattle.indexed_file.specs.Chain.{kind_of, HasSlot};
ghost use Rattle.indexed_file.specs.Places.{Decides};
ghost use Rattle.indexed_file.specs.Raws.{slots_at};

use crate::leaf::{find_place, kind, read_record, slot};
use bucket_page::Page;
use file_base::FileHead;
use vms_base::Record;

/// The record of a key in a bucket: true where it has one, and false where neither it nor a later bucket can have one. None
/// where a later bucket may have it; bytes that are not laid out as a bucket have no key. And whether the bucket begins by the
/// key: where this is so, its first key is at most that.
pub fn read_slot(
    head: &FileHead,
    bytes: &[u8],
    key: &[u8],
    out: &mut Record,
) -> (Option<bool>, bool)
    requires small { length bytes.now ≤ 8192 }
    requires most { head.now.mrs ≤ record_limit }
    ensures some { result.0 ≡ Some true → IsBucket (kind_of head.now) (length bytes.now) bytes.now → Decides key.now (slots_at head.now bytes.now) (Some out.new) }
    ensures stands { result.0 ≡ Some true → IsBucket (kind_of head.now) (length bytes.now) bytes.now × HasSlot head.now bytes.now key.now out.new }
    ensures none { result.0 ≡ Some false → IsBucket (kind_of head.now) (length bytes.now) bytes.now → Decides key.now (slots_at head.now bytes.now) None }
    ensures later { IfNone result.0 (IsBucket (kind_of head.now) (length bytes.now) bytes.now → slot_at key.now (slots_at head.now bytes.now) ≡ None) }
    ensures begins { result.1 ≡ true → IsBucket (kind_of head.now) (length bytes.now) bytes.now → begins_by key.now (slots_at head.now bytes.now) ≡ true }
{
    match Page::slots(bytes, kind(head)) {
        Some(count) => {
            let (i, found) = find_place(bytes, head, count, key);
            if found {
                return (Some(read_record(slot(bytes, head, i), head.mrs, out)), true);
            }
            if i < count {
                (Some(false), i > 0)
            } else {
                (None, i > 0)
            }
        }
        None => (None, false),
    }
}
