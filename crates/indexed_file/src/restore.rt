//! A key that is set back in place, to a value that its slot has room for.
ghost use Rattle.std.specs.Prelude.{◌≤◌, ◌<◌, ◌+◌, ℕ, true, false, length, take};
ghost use Rattle.std.specs.Option.{option_copied};
ghost use Rattle.bucket_page.specs.Pages.{slots_of, IsBucket};
ghost use Rattle.indexed_file.specs.Chain.{HasKeys, kind_of, SuitsText};
ghost use Rattle.indexed_file.specs.Places.{IsPlace};
ghost use Rattle.indexed_file.specs.Backs.{TriesBytes};

use crate::leaf::{find_place, kind, number_at, slot};
use crate::set::{change_slot, value_size};
use bucket_page::Page;
use file_base::FileHead;
use vms_base::Record;

// Sets back a key that has slot i, where that has room for the value. Answers whether it has.
fn restore_found(
    head: &FileHead,
    size: usize,
    low: &mut [u8],
    i: u16,
    key: &[u8],
    value: Option<&Record>,
) -> bool
    requires form { HasKeys head.now }
    requires low_within { size ≤ length low.old }
    requires small { size ≤ 8192 }
    requires records { head.now.mrs + 32 ≤ size }
    requires suits { SuitsText head.now key.now (option_copied value) }
    requires bucket { IsBucket (kind_of head.now) size (take size low.old) }
    requires place { IsPlace head.now key.now (slots_of (kind_of head.now) (take size low.old)) i true }
    ensures { TriesBytes head.now key.now (option_copied value.entry) size result low.old low.new }
{
    let room = number_at(slot(&low[..size], head, i), 0);
    let long = value_size(value);
    if long > room as usize {
        return false;
    }
    change_slot(head, size, low, i, room, key, value);
    true
}

/// Sets a key back in the bucket for it, where its slot is there and has room for the value. Answers whether it has.
pub fn restore_in_leaf(
    head: &FileHead,
    size: usize,
    low: &mut [u8],
    key: &[u8],
    value: Option<&Record>,
) -> bool
    requires form { HasKeys head.now }
    requires low_within { size ≤ length low.old }
    requires small { size ≤ 8192 }
    requires records { head.now.mrs + 32 ≤ size }
    requires suits { SuitsText head.now key.now (option_copied value) }
    ensures { TriesBytes head.now key.now (option_copied value.entry) size result low.old low.new }
{
    match Page::slots(&low[..size], kind(head)) {
        Some(count) => {
            let (i, found) = find_place(&low[..size], head, count, key);
            if found {
                return restore_found(head, size, low, i, key, value);
            }
            false
        }
        None => false,
    }
}
