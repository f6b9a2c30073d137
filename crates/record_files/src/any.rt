//! A file of any organization as a map from keys to records.
ghost use Rattle.std.specs.Prelude.{◌≡◌, ◌≤◌, ◌<◌, ◌+◌, ◌-◌, ◌*◌, ℕ, List, Bool, true, false, Option, Some, None, length, take, OnOk, OnErr, IfOk, IfSome, option_map};
ghost use Rattle.std.specs.Option.{option_copied};
ghost use Rattle.careful_write.specs.Sizes.{staged_limit};
ghost use Rattle.file_base.specs.declared.head.Organization.TheVariants.{Sequential};
ghost use Rattle.vms_base.specs.Keys.{key_of};
ghost use Rattle.vms_base.specs.vms_model.Keys.{Number};
ghost use Rattle.careful_write.specs.Reads.{SameButReads};
ghost use Rattle.relative_file.specs.change_set.Files.{IsPlaced, free_frames, fell, StagesIn, SameFile};
ghost use Rattle.seq_file.specs.Records.{cut_from};
ghost use Rattle.seq_file.specs.Layout.{capacity, UsedBefore};
ghost use Rattle.record_files.specs.Any.{map_of, Begins, IsFile, IsLaidOut, Suits};

use crate::checks::{
    forms_indexed, forms_relative, forms_sequential, suits_indexed, suits_relative,
    suits_sequential,
};
use crate::indexed::IndexedFile;
use block_disk::Disk;
use careful_write::{Down, Store};
use file_base::{FileHead, Organization};
use relative_file::{Held, Place, RecordFile, RelativeFile};
use seq_file::SeqFile;
use vms_base::{Key, Record};

/// Files of which the head alone tells how they keep their records. Each call does what it does for a file of that
/// organization.
pub struct AnyFile;

impl RecordFile for AnyFile {
    ghost use Rattle.record_files.specs.Any.{map_of, IsFile, IsNew, IsLaidOut, Stands, Suits, Takes, Restores, room_at, asks, used_after, reads_of, layout_of, first_layout_of, Begins};
    ghost use Rattle.record_files.specs.Local.{local_law, valid_local_law, room_local_law, layout_local_law, begins_first_law};

    ghost map = { map_of };

    ghost form = { IsFile };

    ghost fresh = { IsNew };

    ghost valid = { IsLaidOut };

    ghost stands = { Stands };

    ghost suits = { Suits };

    ghost takes = { Takes };

    ghost room = { room_at };

    ghost asks = { asks };

    ghost used_after = { used_after };

    ghost reads = { reads_of };

    ghost layout = { layout_of };

    ghost first_layout = { first_layout_of };

    ghost restores = { Restores };

    ghost begins = { Begins };

    ghost local = { local_law };

    ghost valid_local = { valid_local_law };

    ghost room_local = { room_local_law };

    ghost layout_local = { layout_local_law };

    ghost begins_first = { begins_first_law };

    fn find<D: Disk>(
        head: &FileHead,
        store: &mut Store<D>,
        key: &Key,
        place: &mut Place,
        out: &mut Record,
    ) -> Result<bool, Down> {
        match head.organization {
            Organization::Sequential => SeqFile::find(head, store, key, place, out),
            Organization::Relative => RelativeFile::find(head, store, key, place, out),
            Organization::Indexed => IndexedFile::find(head, store, key, place, out),
        }
    }

    fn next_from<D: Disk>(
        head: &FileHead,
        store: &mut Store<D>,
        after: Option<&Key>,
        place: &mut Place,
        found: &mut Key,
        out: &mut Record,
    ) -> Result<bool, Down> {
        match head.organization {
            Organization::Sequential => SeqFile::next_from(head, store, after, place, found, out),
            Organization::Relative => RelativeFile::next_from(
                head, store, after, place, found, out,
            ),
            Organization::Indexed => IndexedFile::next_from(head, store, after, place, found, out),
        }
    }

    fn set_from<D: Disk, H: Held>(
        head: &mut FileHead,
        store: &mut Store<D>,
        key: &Key,
        value: Option<&Record>,
        held: &H,
        place: Place,
    ) -> Result<(), Down> {
        match head.organization {
            Organization::Sequential => SeqFile::set_from(head, store, key, value, held, place),
            Organization::Relative => RelativeFile::set_from(head, store, key, value, held, place),
            Organization::Indexed => IndexedFile::set_from(head, store, key, value, held, place),
        }
    }

    fn restore<D: Disk>(
        head: &mut FileHead,
        store: &mut Store<D>,
        key: &Key,
        value: Option<&Record>,
    ) -> Result<(), Down> {
        match head.organization {
            Organization::Sequential => SeqFile::restore(head, store, key, value),
            Organization::Relative => RelativeFile::restore(head, store, key, value),
            Organization::Indexed => IndexedFile::restore(head, store, key, value),
        }
    }

    fn need<D: Disk>(head: &FileHead, store: &mut Store<D>, size: u16) -> Result<u32, Down> {
        match head.organization {
            Organization::Sequential => SeqFile::need(head, store, size),
            Organization::Relative => RelativeFile::need(head, store, size),
            Organization::Indexed => IndexedFile::need(head, store, size),
        }
    }

    fn make<D: Disk>(head: &FileHead, store: &mut Store<D>) -> Result<(), Down> {
        match head.organization {
            Organization::Sequential => SeqFile::make(head, store),
            Organization::Relative => RelativeFile::make(head, store),
            Organization::Indexed => IndexedFile::make(head, store),
        }
    }
}

impl AnyFile {
    /// Whether a head has numbers that one of a file of its organization may have.
    pub fn is_formed(head: &FileHead) -> bool
        ensures formed { result ≡ true → IsFile head.now }
        ensures exact { IsFile head.now → result ≡ true }
    {
        match head.organization {
            Organization::Sequential => forms_sequential(head),
            Organization::Relative => forms_relative(head),
            Organization::Indexed => forms_indexed(head),
        }
    }

    /// Whether a file may have this key, and keep this record there.
    pub fn is_suited(head: &FileHead, key: &Key, value: Option<&Record>) -> bool
        ensures suited { result ≡ true → Suits head.now (key_of key.now) (option_copied value.entry) }
        ensures exact { Suits head.now (key_of key.now) (option_copied value.entry) → result ≡ true }
    {
        match head.organization {
            Organization::Sequential => suits_sequential(head, key, value),
            Organization::Relative => suits_relative(head, key, value),
            Organization::Indexed => suits_indexed(head, key, value),
        }
    }

    /// Stages the map of a sequential file without the positions from one on. Blocks of at most one bucket are staged.
    pub fn cut<D: Disk>(head: &mut FileHead, store: &mut Store<D>, from: u32) -> Result<(), Down>
        requires sequential { head.old.organization ≡ Sequential }
        requires form { IsFile head.old }
        requires placed { IsPlaced head.old store.old.disk }
        requires frames { 32 ≤ free_frames store.old.pool }
        requires staged { length store.old.touched ≤ staged_limit }
        requires first { 1 ≤ from }
        requires last { from ≤ head.old.count }
        ensures map { OnOk result (IfSome store.old.current (λ before. IsLaidOut head.old before → option_map (map_of head.new) store.new.current ≡ Some (cut_from from (map_of head.old before)))) }
        ensures valid { OnOk result (IfSome store.old.current (λ before. IsLaidOut head.old before → IfSome store.new.current (IsLaidOut head.new))) }
        ensures used { OnOk result (IfSome store.old.current (λ before. IsLaidOut head.old before → UsedBefore (capacity head.old) from (map_of head.old before) head.new.used)) }
        ensures file { OnOk result (SameFile head.old head.new) }
        ensures form { OnOk result (IsFile head.new) }
        ensures staged { OnOk result (StagesIn head.old head.old.bucket store.old store.new) }
        ensures head { OnErr result (head.new ≡ head.old) }
        ensures down { OnErr result (SameButReads (fell result store.old) store.new) }
    {
        SeqFile::cut(head, store, from)
    }

    /// The same by a walk to the position that begins at a place.
    pub fn cut_at<D: Disk>(
        head: &mut FileHead,
        store: &mut Store<D>,
        from: u32,
        place: Place,
    ) -> Result<(), Down>
        requires sequential { head.old.organization ≡ Sequential }
        requires form { IsFile head.old }
        requires placed { IsPlaced head.old store.old.disk }
        requires frames { 32 ≤ free_frames store.old.pool }
        requires staged { length store.old.touched ≤ staged_limit }
        requires first { 1 ≤ from }
        requires last { from ≤ head.old.count }
        requires begins { IfSome store.old.current (λ b. IsLaidOut head.old b → Begins head.old b (Some (Number from)) place) }
        ensures map { OnOk result (IfSome store.old.current (λ before. IsLaidOut head.old before → option_map (map_of head.new) store.new.current ≡ Some (cut_from from (map_of head.old before)))) }
        ensures valid { OnOk result (IfSome store.old.current (λ before. IsLaidOut head.old before → IfSome store.new.current (IsLaidOut head.new))) }
        ensures used { OnOk result (IfSome store.old.current (λ before. IsLaidOut head.old before → UsedBefore (capacity head.old) from (map_of head.old before) head.new.used)) }
        ensures file { OnOk result (SameFile head.old head.new) }
        ensures form { OnOk result (IsFile head.new) }
        ensures staged { OnOk result (StagesIn head.old head.old.bucket store.old store.new) }
        ensures head { OnErr result (head.new ≡ head.old) }
        ensures down { OnErr result (SameButReads (fell result store.old) store.new) }
    {
        SeqFile::cut_at(head, store, from, place)
    }
}
