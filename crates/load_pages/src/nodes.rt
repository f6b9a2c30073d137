//! Index buckets that are filled, and the keys of the level above them.
ghost use Rattle.std.specs.Prelude.{◌≡◌, ◌≤◌, ◌<◌, ◌+◌, ◌-◌, ◌*◌, ◌∷◌, [], ℕ, List, length, take, drop};
ghost use Rattle.block_disk.specs.Sizes.{greatest_disk_size};
ghost use Rattle.vms_model.specs.Limits.{key_limit};
ghost use Rattle.index_bucket.specs.Entries.{sizes_of};
ghost use Rattle.load_model.specs.Nodes.{entries_by};
ghost use Rattle.load_laws.specs.Pages.{HasEntries};
ghost use Rattle.load_laws.specs.Keys.{every, AllKeys};

use bucket_page::{PageKind, clear_front, insert_front};
use file_base::FileHead;
use index_bucket::entry_bytes;
use vms_base::KeyText;

/// How many entries an index bucket holds.
pub fn fan_out(head: &FileHead) -> u32
    requires one { 1 ≤ head.now.bucket }
    requires blocks { head.now.bucket ≤ 16 }
    requires key { head.now.key_size ≤ key_limit }
    ensures is { result ≡ (sizes_of head.now).fan_out }
    ensures wide { 3 ≤ result }
    ensures fits { 16 + result * (head.now.key_size + 4) ≤ 512 * head.now.bucket }
{
    (512 * head.bucket as u32 - 16) / (head.key_size as u32 + 4)
}

/// Writes an index bucket that leads to buckets with these lowest keys, which are numbered from `first` on.
pub fn fill_node(head: &FileHead, bytes: &mut [u8], keys: &[KeyText], first: u32)
    requires one { 1 ≤ head.now.bucket }
    requires blocks { head.now.bucket ≤ 16 }
    requires key { head.now.key_size ≤ key_limit }
    requires within { 512 * head.now.bucket ≤ length bytes.old }
    requires sized { AllKeys head.now.key_size keys.now }
    requires few { length keys.now ≤ (sizes_of head.now).fan_out }
    requires numbers { first + length keys.now ≤ greatest_disk_size }
    ensures { HasEntries head.now (entries_by first keys.now) (take (512 * head.now.bucket) bytes.new) }
{
    let size = 512 * head.bucket as usize;
    let kind = PageKind::Index {
        key_size: head.key_size,
    };
    clear_front(bytes, size, kind, u32::MAX);
    for i in 0..keys.len() {
        let entry = entry_bytes(head, keys[i].bytes(), first + i as u32);
        let _ = insert_front(bytes, size, kind, i, &entry[..head.key_size as usize + 4]);
    }
}

/// Moves every `step`-th of these keys to the front, from the first on, and answers how many they are.
pub fn keep_every(keys: &mut [KeyText], step: usize) -> usize
    requires { 1 ≤ step }
    ensures kept { take result keys.new ≡ every step (length keys.old) keys.old }
    ensures few { result ≤ length keys.old }
{
    let mut kept = 0;
    let mut at = 0;
    while at < keys.len() {
        keys[kept] = keys[at];
        kept += 1;
        at += step.min(keys.len() - at);
    }
    kept
}
