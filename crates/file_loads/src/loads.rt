//! Records that are loaded into a file of any organization.
ghost use Rattle.std.specs.Prelude.{◌≡◌, ◌≤◌, ◌<◌, ◌+◌, ◌-◌, ◌*◌, ◌++◌, [], ℕ, List, length, map, OnOk, OnErr, IfOk, IfErr, IfSome};
ghost use Rattle.vms_model.specs.Limits.{record_limit};
ghost use Rattle.careful_write.specs.Down.{Counts};
ghost use Rattle.careful_write.specs.State.{IsIdle, IsReady};
ghost use Rattle.careful_write.specs.Steps.{Quiet};
ghost use Rattle.change_set.specs.Files.{IsPlaced, free_frames, in_extent, AgreesOut, LeavesOut};
ghost use Rattle.file_base.specs.declared.head.Organization.TheVariants.{Indexed};
ghost use Rattle.load_pages.specs.record_files.Any.{IsFile};
ghost use Rattle.load_pages.specs.load_laws.Pages.{StandTold};
ghost use Rattle.load_pages.specs.load_laws.Keys.{lowest_keys};
ghost use Rattle.load_pages.specs.load_laws.Loads.{AreLoadable, IsLoaded, loaded_head, loaded_pages, leaf_parts, pages_by};
ghost use Rattle.load_pages.specs.Given.{keyed};
ghost use Rattle.file_loads.specs.Failing.{Wrote, Fails, HasKeysFor};
ghost use Rattle.file_loads.specs.Writes.{HasWritten, LeavesApart};

use crate::chain::write_chain;
use crate::index::write_index;
use crate::relative::write_all_cells;
use block_disk::Disk;
use bucket_page::PageKind;
use careful_write::{Down, Store};
use file_base::{FileHead, Organization};
use load_pages::{KeyedRecord, head_of, lowest_of};
use std::alloc::{AllocError, Global};
use thiserror::Error;
use vms_base::KeyText;

/// Why records were not loaded.
#[derive(Clone, Copy, Debug, PartialEq, Eq, Drop, Error)]
pub enum LoadErr {
    /// Memory is missing. Nothing was written.
    #[error("memory is missing")]
    Memory,
    /// The disk went down.
    #[error("the disk went down")]
    Down(Down),
}

// Writes the leaves of an indexed file, whose lowest keys are told, and the index over them.
fn write_tree<D: Disk>(
    head: &FileHead,
    store: &mut Store<D>,
    staged: &mut u32,
    records: &[KeyedRecord],
    keys: &mut Vec<KeyText>,
) -> Result<(), Down>
    requires organization { head.now.organization ≡ Indexed }
    requires loadable { AreLoadable head.now (map keyed records.now) }
    requires placed { IsPlaced head.now store.old.disk }
    requires frames { 1 ≤ free_frames store.old.pool }
    requires ready { IsReady store.old }
    requires counted { length store.old.touched ≤ staged.old }
    requires room { staged.old ≤ 496 }
    requires lowest { keys.old.items ≡ lowest_keys head.now (leaf_parts head.now (map keyed records.now)) }
    ensures stand { OnOk result (StandTold head.now store.new.current (pages_by Indexed head.now (map keyed records.now))) }
    ensures ok { OnOk result (HasWritten head.now staged.new store.old store.new) }
    ensures down { OnErr result (LeavesApart head.now store.old store.new) }
    ensures counts { Counts result store.old.disk store.new.disk }
    ensures pool { store.new.pool ≡ store.old.pool }
{
    let kind = PageKind::Data {
        key_pos: head.key_pos,
        key_size: head.key_size,
    };
    write_chain(head, store, staged, kind, records)?;
    write_index(head, store, staged, keys, 0)
}

// Writes all buckets of a file, but for the last group.
fn write_pages<D: Disk>(
    head: &FileHead,
    store: &mut Store<D>,
    staged: &mut u32,
    records: &[KeyedRecord],
    keys: &mut Vec<KeyText>,
) -> Result<(), Down>
    requires loadable { AreLoadable head.now (map keyed records.now) }
    requires placed { IsPlaced head.now store.old.disk }
    requires frames { 1 ≤ free_frames store.old.pool }
    requires ready { IsReady store.old }
    requires counted { length store.old.touched ≤ staged.old }
    requires room { staged.old ≤ 496 }
    requires lowest { HasKeysFor head.now (map keyed records.now) keys.old.items }
    ensures stand { OnOk result (StandTold head.now store.new.current (loaded_pages head.now (map keyed records.now))) }
    ensures ok { OnOk result (HasWritten head.now staged.new store.old store.new) }
    ensures down { OnErr result (LeavesApart head.now store.old store.new) }
    ensures counts { Counts result store.old.disk store.new.disk }
    ensures pool { store.new.pool ≡ store.old.pool }
{
    match head.organization {
        Organization::Sequential => {
            write_chain(head, store, staged, PageKind::Seq, records)?;
            Ok(())
        }
        Organization::Relative => write_all_cells(head, store, staged, records),
        Organization::Indexed => write_tree(head, store, staged, records, keys),
    }
}

// Writes all buckets of a file.
fn write_file<D: Disk>(
    head: &FileHead,
    store: &mut Store<D>,
    records: &[KeyedRecord],
    keys: &mut Vec<KeyText>,
) -> Result<(), Down>
    requires loadable { AreLoadable head.now (map keyed records.now) }
    requires placed { IsPlaced head.now store.old.disk }
    requires frames { 1 ≤ free_frames store.old.pool }
    requires idle { IsIdle store.old }
    requires lowest { HasKeysFor head.now (map keyed records.now) keys.old.items }
    ensures stand { OnOk result (StandTold head.now store.new.current (loaded_pages head.now (map keyed records.now))) }
    ensures idle { OnOk result (IsIdle store.new) }
    ensures outside { OnOk result (AgreesOut (in_extent head.now) store.old.current store.new.current) }
    ensures down { OnErr result (LeavesOut (in_extent head.now) store.old.current store.new.disk) }
    ensures counts { Counts result store.old.disk store.new.disk }
    ensures pool { store.new.pool ≡ store.old.pool }
{
    let mut staged = 0;
    write_pages(head, store, &mut staged, records, keys)?;
    store.apply()
}

// The lowest keys of the leaves that the records fill; none where the file is not indexed.
fn keys_for(
    alloc: Global,
    head: &FileHead,
    records: &[KeyedRecord],
) -> Result<Vec<KeyText>, AllocError>
    requires loadable { AreLoadable head.now (map keyed records.now) }
    requires blocks { head.now.bucket ≤ 16 }
    requires one { 1 ≤ head.now.bucket }
    requires most { head.now.mrs ≤ record_limit }
    requires fit { head.now.mrs + 32 ≤ 512 * head.now.bucket }
    ensures { IfOk result (λ keys. HasKeysFor head.now (map keyed records.now) keys.items) }
{
    match head.organization {
        Organization::Indexed => lowest_of(alloc, head, records),
        Organization::Sequential => Ok(Vec::new(alloc)),
        Organization::Relative => Ok(Vec::new(alloc)),
    }
}

/// Loads records, in the order of their keys, into the extent of a file, whatever stood there, each bucket filled before the next. Only the head's place and
/// its limits are read; what else it tells is set. Each bucket is written once, in groups of as many as a group may have, and no other block of the content
/// changes, also where the disk goes down between two groups or within one.
pub fn load<D: Disk>(
    alloc: Global,
    head: &mut FileHead,
    store: &mut Store<D>,
    records: &[KeyedRecord],
) -> Result<(), LoadErr>
    requires loadable { AreLoadable head.old (map keyed records.now) }
    requires placed { IsPlaced head.old store.old.disk }
    requires idle { IsIdle store.old }
    requires frames { 32 ≤ free_frames store.old.pool }
    ensures head { OnOk result (head.new ≡ loaded_head head.old (map keyed records.now)) }
    ensures form { OnOk result (IsFile head.new) }
    ensures loaded { OnOk result (IfSome store.new.current (λ b. IsLoaded head.new b (map keyed records.now))) }
    ensures wrote { OnOk result (Wrote head.old store.old store.new) }
    ensures same { OnErr result (head.new ≡ head.old) }
    ensures err { IfErr result (λ e. Fails head.old e store.old store.new) }
{
    let mut keys = match keys_for(alloc, head, records) {
        Ok(keys) => keys,
        Err(_) => return Err(LoadErr::Memory),
    };
    match write_file(head, store, records, &mut keys) {
        Ok(()) => {
            *head = head_of(head, records);
            Ok(())
        }
        Err(down) => {
            store.unstage();
            Err(LoadErr::Down(down))
        }
    }
}
