//! The data buckets of a file whose records stand in their order, each bucket filled before the next.
ghost use Rattle.std.specs.Prelude.{◌≡◌, ◌≤◌, ◌<◌, ◌+◌, ◌-◌, ◌*◌, ◌∷◌, [], ℕ, List, length, take, drop, map, OnOk, OnErr, IfOk, IfSome, nat_lt};
ghost use Rattle.block_disk.specs.Sizes.{greatest_disk_size};
ghost use Rattle.careful_write.specs.Down.{Counts};
ghost use Rattle.careful_write.specs.State.{IsReady};
ghost use Rattle.bucket_page.specs.Pages.{Packs, no_next};
ghost use Rattle.change_set.specs.Files.{IsPlaced, free_frames};
ghost use Rattle.load_pages.specs.load_laws.Pages.{Page, Slots, Adds, StandTold};
ghost use Rattle.file_loads.specs.Writes.{HasWritten, LeavesApart};
ghost use Rattle.load_pages.specs.load_laws.Chains.{packed, parts_of, next_for, chain_pages};
ghost use Rattle.load_pages.specs.Given.{raw_of, AllRaw};

use crate::group::put_bucket;
use block_disk::Disk;
use bucket_page::{PageKind, link_front};
use careful_write::{Down, Store};
use file_base::FileHead;
use frame_pool::FRAME_BYTES;
use load_pages::{KeyedRecord, fill_bucket};

// The bucket behind bucket n, of which some records are left for it or none; only buckets of indexed files lead to it.
fn next_bucket(kind: PageKind, left: bool, n: u32) -> u32
    requires { n < greatest_disk_size }
    ensures { result ≡ next_for kind left n }
{
    match kind {
        PageKind::Data {
            key_pos: _,
            key_size: _,
        } => if left { n + 1 } else { u32::MAX },
        PageKind::Seq => u32::MAX,
        PageKind::Rel { mrs: _ } => u32::MAX,
        PageKind::Index { key_size: _ } => u32::MAX,
    }
}

// Writes bucket n with the records from one on, as many as fit, and answers the number of the first that does not.
fn write_bucket<D: Disk>(
    head: &FileHead,
    store: &mut Store<D>,
    staged: &mut u32,
    kind: PageKind,
    records: &[KeyedRecord],
    from: usize,
    n: u32,
) -> Result<usize, Down>
    requires placed { IsPlaced head.now store.old.disk }
    requires frames { 1 ≤ free_frames store.old.pool }
    requires there { n < head.now.alloc }
    requires ready { IsReady store.old }
    requires counted { length store.old.touched ≤ staged.old }
    requires room { staged.old ≤ 496 }
    requires from { from ≤ length records.now }
    requires fit { AllRaw kind (512 * head.now.bucket) records.now }
    ensures to { IfOk result (λ end. (from ≤ end) × (end ≤ length records.now) × (from < length records.now → from < end)) }
    ensures filled { IfOk result (λ end. packed (512 * head.now.bucket - 16) [] (drop from (map (raw_of kind) records.now))
        ≡ take (end - from) (drop from (map (raw_of kind) records.now)) ∷ parts_of (512 * head.now.bucket - 16) (drop end (map (raw_of kind) records.now))) }
    ensures adds { IfOk result (λ end. Adds head.now n (Slots kind (take (end - from) (drop from (map (raw_of kind) records.now))) (next_for kind (nat_lt end (length records.now)) n) ∷ []) store.old.current store.new.current) }
    ensures ok { OnOk result (HasWritten head.now staged.new store.old store.new) }
    ensures down { OnErr result (LeavesApart head.now store.old store.new) }
    ensures counts { Counts result store.old.disk store.new.disk }
    ensures pool { store.new.pool ≡ store.old.pool }
{
    let size = 512 * head.bucket as usize;
    let mut bytes = [0; FRAME_BYTES];
    let end = fill_bucket(kind, size, &mut bytes, records, from);
    link_front(
        &mut bytes,
        size,
        kind,
        next_bucket(kind, end < records.len(), n),
    );
    put_bucket(head, store, staged, n, &bytes)?;
    Ok(end)
}

/// Writes the records in their order, each bucket filled before the next, from bucket 0 on. Answers how many buckets were written.
pub(crate) fn write_chain<D: Disk>(
    head: &FileHead,
    store: &mut Store<D>,
    staged: &mut u32,
    kind: PageKind,
    records: &[KeyedRecord],
) -> Result<u32, Down>
    requires placed { IsPlaced head.now store.old.disk }
    requires frames { 1 ≤ free_frames store.old.pool }
    requires ready { IsReady store.old }
    requires counted { length store.old.touched ≤ staged.old }
    requires room { staged.old ≤ 496 }
    requires fit { AllRaw kind (512 * head.now.bucket) records.now }
    requires few { length (packed (512 * head.now.bucket - 16) [] (map (raw_of kind) records.now)) ≤ head.now.alloc }
    ensures count { IfOk result (λ count. count ≡ length (packed (512 * head.now.bucket - 16) [] (map (raw_of kind) records.now))) }
    ensures stand { OnOk result (StandTold head.now store.new.current (chain_pages kind 0 (packed (512 * head.now.bucket - 16) [] (map (raw_of kind) records.now)))) }
    ensures ok { OnOk result (HasWritten head.now staged.new store.old store.new) }
    ensures down { OnErr result (LeavesApart head.now store.old store.new) }
    ensures counts { Counts result store.old.disk store.new.disk }
    ensures pool { store.new.pool ≡ store.old.pool }
{
    let first = write_bucket(head, store, staged, kind, records, 0, 0)?;
    let mut from = first;
    let mut n = 1;
    while from < records.len() {
        let end = write_bucket(head, store, staged, kind, records, from, n)?;
        from = end;
        n += 1;
    }
    Ok(n)
}
