//! The index over the leaves of a file that is loaded.
ghost use Rattle.std.specs.Prelude.{◌≡◌, ◌≤◌, ◌<◌, ◌+◌, ◌-◌, ◌*◌, ◌∷◌, [], ℕ, List, length, take, drop, map, OnOk, OnErr, IfOk, IfSome};
ghost use Rattle.std.specs.List.{All};
ghost use Rattle.block_disk.specs.Sizes.{greatest_disk_size};
ghost use Rattle.vms_model.specs.Limits.{key_limit};
ghost use Rattle.careful_write.specs.Down.{Counts};
ghost use Rattle.careful_write.specs.State.{IsReady};
ghost use Rattle.change_set.specs.Files.{IsPlaced, free_frames};
ghost use Rattle.index_blocks.specs.index_bucket.Entries.{sizes_of};
ghost use Rattle.load_model.specs.Nodes.{entries_by, grouped, level_over, keys_of, nodes_over, all_nodes};
ghost use Rattle.load_pages.specs.load_laws.Pages.{HasEntries, Adds};
ghost use Rattle.load_pages.specs.load_laws.Keys.{every, entry_pages, index_pages, AllKeys};
ghost use Rattle.file_loads.specs.Writes.{HasWritten, LeavesApart};

use crate::group::put_bucket;
use block_disk::Disk;
use careful_write::{Down, Store};
use file_base::FileHead;
use frame_pool::FRAME_BYTES;
use load_pages::{fan_out, fill_node, keep_every};
use vms_base::KeyText;

// Writes index bucket n, which leads to buckets with these lowest keys.
fn write_node<D: Disk>(
    head: &FileHead,
    store: &mut Store<D>,
    staged: &mut u32,
    keys: &[KeyText],
    first: u32,
    n: u32,
) -> Result<(), Down>
    requires placed { IsPlaced head.now store.old.disk }
    requires frames { 1 ≤ free_frames store.old.pool }
    requires there { n < head.now.alloc }
    requires ready { IsReady store.old }
    requires counted { length store.old.touched ≤ staged.old }
    requires room { staged.old ≤ 496 }
    requires key { head.now.key_size ≤ key_limit }
    requires sized { AllKeys head.now.key_size keys.now }
    requires few { length keys.now ≤ (sizes_of head.now).fan_out }
    requires numbers { first + length keys.now ≤ greatest_disk_size }
    ensures adds { OnOk result (Adds head.now n (entry_pages (entries_by first keys.now ∷ [])) store.old.current store.new.current) }
    ensures ok { OnOk result (HasWritten head.now staged.new store.old store.new) }
    ensures down { OnErr result (LeavesApart head.now store.old store.new) }
    ensures counts { Counts result store.old.disk store.new.disk }
    ensures pool { store.new.pool ≡ store.old.pool }
{
    let mut bytes = [0; FRAME_BYTES];
    fill_node(head, &mut bytes, keys, first);
    put_bucket(head, store, staged, n, &bytes)
}

// Writes the lowest level of an index over buckets with these lowest keys, which are numbered from `first` on. Its own buckets have the numbers behind theirs.
fn write_level<D: Disk>(
    head: &FileHead,
    store: &mut Store<D>,
    staged: &mut u32,
    keys: &[KeyText],
    first: u32,
) -> Result<(), Down>
    requires placed { IsPlaced head.now store.old.disk }
    requires frames { 1 ≤ free_frames store.old.pool }
    requires ready { IsReady store.old }
    requires counted { length store.old.touched ≤ staged.old }
    requires room { staged.old ≤ 496 }
    requires key { head.now.key_size ≤ key_limit }
    requires sized { AllKeys head.now.key_size keys.now }
    requires there { first + length keys.now + length (level_over (sizes_of head.now).fan_out first keys.now) ≤ head.now.alloc }
    ensures adds { OnOk result (Adds head.now (first + length keys.now) (entry_pages (level_over (sizes_of head.now).fan_out first keys.now)) store.old.current store.new.current) }
    ensures ok { OnOk result (HasWritten head.now staged.new store.old store.new) }
    ensures down { OnErr result (LeavesApart head.now store.old store.new) }
    ensures counts { Counts result store.old.disk store.new.disk }
    ensures pool { store.new.pool ≡ store.old.pool }
{
    let most = fan_out(head) as usize;
    let mut at = 0;
    let mut n = first + keys.len() as u32;
    while at < keys.len() {
        let end = at + most.min(keys.len() - at);
        write_node(head, store, staged, &keys[at..end], first + at as u32, n)?;
        at = end;
        n += 1;
    }
    Ok(())
}

/// Writes the index over buckets with these lowest keys, which are numbered from `first` on, level by level, until one has one bucket. The index buckets have
/// the numbers behind theirs, so the last one is the root.
pub(crate) fn write_index<D: Disk>(
    head: &FileHead,
    store: &mut Store<D>,
    staged: &mut u32,
    keys: &mut Vec<KeyText>,
    first: u32,
) -> Result<(), Down>
    requires placed { IsPlaced head.now store.old.disk }
    requires frames { 1 ≤ free_frames store.old.pool }
    requires ready { IsReady store.old }
    requires counted { length store.old.touched ≤ staged.old }
    requires room { staged.old ≤ 496 }
    requires key { head.now.key_size ≤ key_limit }
    requires sized { AllKeys head.now.key_size keys.old.items }
    requires there { first + length keys.old.items + length (index_pages head.now first keys.old.items) ≤ head.now.alloc }
    ensures adds { OnOk result (Adds head.now (first + length keys.old.items) (index_pages head.now first keys.old.items) store.old.current store.new.current) }
    ensures ok { OnOk result (HasWritten head.now staged.new store.old store.new) }
    ensures down { OnErr result (LeavesApart head.now store.old store.new) }
    ensures counts { Counts result store.old.disk store.new.disk }
    ensures pool { store.new.pool ≡ store.old.pool }
{
    let count = keys.len();
    if count <= 1 {
        return Ok(());
    }
    write_level(head, store, staged, keys, first)?;
    let kept = keep_every(keys, fan_out(head) as usize);
    keys.truncate(kept);
    write_index(head, store, staged, keys, first + count as u32)
}
