//! The first key behind one.
ghost use Rattle.std.specs.Prelude.{◌≡◌, ◌≤◌, ◌<◌, ◌+◌, ◌-◌, ℕ, Option, Some, None, length, map, IfSome, IfNone};
ghost use Rattle.std.specs.Option.{option_copied};
ghost use Rattle.vms_base.specs.vms_model.Limits.{record_limit};
ghost use Rattle.bucket_page.specs.Pages.{slots_of, IsBucket};
ghost use Rattle.indexed_file.specs.Chain.{HasKeys, kind_of, slot_of, HasSlot};
ghost use Rattle.indexed_file.specs.Behind.{first_behind, IsFound, StartsBehind};

use crate::leaf::{find_place, kind, read_record, slot, slot_key};
use bucket_page::Page;
use file_base::FileHead;
use vms_base::{KeyText, Record};

// How many slots of a bucket are not behind a key.
fn start_behind(bytes: &[u8], head: &FileHead, count: u16, after: Option<&KeyText>) -> u16
    requires bucket { IsBucket (kind_of head.now) (length bytes.now) bytes.now }
    requires small { length bytes.now ≤ 8192 }
    requires counted { count ≡ length (slots_of (kind_of head.now) bytes.now) }
    ensures { StartsBehind head.now (option_copied after.entry) (slots_of (kind_of head.now) bytes.now) result }
{
    match after {
        None => 0,
        Some(key) => {
            let (i, found) = find_place(bytes, head, count, key.bytes());
            if found { i + 1 } else { i }
        }
    }
}

/// The first key of a bucket behind another that has a record.
pub fn next_in_leaf(
    head: &FileHead,
    bytes: &[u8],
    after: Option<&KeyText>,
    out: &mut Record,
) -> Option<KeyText>
    requires form { HasKeys head.now }
    requires small { length bytes.now ≤ 8192 }
    requires most { head.now.mrs ≤ record_limit }
    ensures some { IfSome result (λ k. IsBucket (kind_of head.now) (length bytes.now) bytes.now → IsFound (first_behind (option_copied after.entry) (map (slot_of head.now) (slots_of (kind_of head.now) bytes.now))) k out.new) }
    ensures stands { IfSome result (λ k. IsBucket (kind_of head.now) (length bytes.now) bytes.now × HasSlot head.now bytes.now k out.new) }
    ensures none { IfNone result (IsBucket (kind_of head.now) (length bytes.now) bytes.now → first_behind (option_copied after.entry) (map (slot_of head.now) (slots_of (kind_of head.now) bytes.now)) ≡ None) }
{
    match Page::slots(bytes, kind(head)) {
        Some(count) => {
            for i in start_behind(bytes, head, count, after)..count {
                let slot = slot(bytes, head, i);
                if read_record(slot, head.mrs, out) {
                    return slot_key(slot, head);
                }
            }
            None
        }
        None => None,
    }
}
