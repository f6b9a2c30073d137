//! An indexed file under an index as a map from keys to records.
ghost use Rattle.std.specs.Prelude.{◌≡◌, ◌≤◌, ◌<◌, ◌+◌, ◌*◌, ℕ, List, true, false, Some, None, OnOk, OnErr, IfOk, IfSome, length, option_map};
ghost use Rattle.std.specs.Option.{option_copied};
ghost use Rattle.vms_base.specs.vms_model.Keys.{Text};
ghost use Rattle.vms_base.specs.Keys.{key_of};
ghost use Rattle.careful_write.specs.Down.{Counts};
ghost use Rattle.careful_write.specs.Reads.{SameButReads};
ghost use Rattle.careful_write.specs.State.{IsIdle};
ghost use Rattle.careful_write.specs.Sizes.{staged_limit};
ghost use Rattle.indexed_file.specs.change_set.Files.{IsPlaced, free_frames, fell, unstaged, StagesIn, SameFile, in_extent, AgreesOut, LeavesOut};
ghost use Rattle.indexed_file.specs.change_set.Maps.{IsNext, EndsAfter, empty_map};
ghost use Rattle.indexed_file.specs.Chain.{StandsAt, Suits};
ghost use Rattle.indexed_tree.specs.Files.{IsTreeHead, IsNewHead, map_of, first_layout_of, KeySet, KeyBack};
ghost use Rattle.indexed_tree.specs.Maps.{need_in};
ghost use Rattle.indexed_tree.specs.Rooted.{layout_in, IsRooted};

use crate::next::next_key;
use crate::read::get_key;
use crate::restore::restore_key;
use crate::set::set_key;
use block_disk::Disk;
use careful_write::{Down, Store};
use file_base::FileHead;
use indexed_file::{Held, make_file};
use vms_base::{Key, KeyText, Record};

/// Indexed files whose records are found by an index of buckets over their leaves. After `Down` nothing is staged.
pub struct TreeFile;

// The first key behind another, or the first one, with its record.
fn next_behind<D: Disk>(
    head: &FileHead,
    store: &mut Store<D>,
    after: Option<&KeyText>,
    found: &mut Key,
    out: &mut Record,
) -> Result<bool, Down>
    requires form { IsTreeHead head.now }
    requires placed { IsPlaced head.now store.old.disk }
    requires frames { 1 ≤ free_frames store.old.pool }
    ensures found { IfOk result (λ is. is ≡ true → IfSome store.old.current (λ blocks. IsRooted head.now blocks → IsNext (map_of head.now blocks) (option_map Text (option_copied after.entry)) (key_of found.new) out.new)) }
    ensures stands { IfOk result (λ is. is ≡ true → IfSome store.old.current (λ blocks. StandsAt head.now blocks (key_of found.new) out.new)) }
    ensures none { IfOk result (λ is. is ≡ false → IfSome store.old.current (λ blocks. IsRooted head.now blocks → EndsAfter (map_of head.now blocks) (option_map Text (option_copied after.entry)))) }
    ensures same { OnOk result (SameButReads store.old store.new) }
    ensures down { OnErr result (SameButReads (fell result store.old) store.new) }
{
    match next_key(head, store, after, out) {
        Ok(Some(key)) => {
            *found = Key::Text(key);
            Ok(true)
        }
        Ok(None) => Ok(false),
        Err(down) => {
            store.unstage();
            Err(down)
        }
    }
}

impl TreeFile {
    /// True with the record that the key has; false exactly where it has none.
    pub fn get<D: Disk>(
        head: &FileHead,
        store: &mut Store<D>,
        key: &Key,
        out: &mut Record,
    ) -> Result<bool, Down>
        requires form { IsTreeHead head.now }
        requires placed { IsPlaced head.now store.old.disk }
        requires frames { 1 ≤ free_frames store.old.pool }
        ensures found { IfOk result (λ found. found ≡ true → IfSome store.old.current (λ blocks. IsRooted head.now blocks → map_of head.now blocks (key_of key.now) ≡ Some out.new)) }
        ensures stands { IfOk result (λ found. found ≡ true → IfSome store.old.current (λ blocks. StandsAt head.now blocks (key_of key.now) out.new)) }
        ensures absent { IfOk result (λ found. found ≡ false → IfSome store.old.current (λ blocks. IsRooted head.now blocks → map_of head.now blocks (key_of key.now) ≡ None)) }
        ensures reads { store.new.reads ≤ store.old.reads + head.now.levels * head.now.bucket }
        ensures same { OnOk result (SameButReads store.old store.new) }
        ensures down { OnErr result (SameButReads (fell result store.old) store.new) }
    {
        match key {
            Key::Text(text) => {
                let found = get_key(head, store, text.bytes(), out);
                if found.is_err() {
                    store.unstage();
                }
                found
            }
            _ => Ok(false),
        }
    }

    /// The first key, or the first one behind another, with its record; false exactly where there is none.
    pub fn next<D: Disk>(
        head: &FileHead,
        store: &mut Store<D>,
        after: Option<&Key>,
        found: &mut Key,
        out: &mut Record,
    ) -> Result<bool, Down>
        requires form { IsTreeHead head.now }
        requires placed { IsPlaced head.now store.old.disk }
        requires frames { 1 ≤ free_frames store.old.pool }
        ensures found { IfOk result (λ is. is ≡ true → IfSome store.old.current (λ blocks. IsRooted head.now blocks → IsNext (map_of head.now blocks) (option_map key_of (option_copied after.entry)) (key_of found.new) out.new)) }
        ensures stands { IfOk result (λ is. is ≡ true → IfSome store.old.current (λ blocks. StandsAt head.now blocks (key_of found.new) out.new)) }
        ensures none { IfOk result (λ is. is ≡ false → IfSome store.old.current (λ blocks. IsRooted head.now blocks → EndsAfter (map_of head.now blocks) (option_map key_of (option_copied after.entry)))) }
        ensures same { OnOk result (SameButReads store.old store.new) }
        ensures down { OnErr result (SameButReads (fell result store.old) store.new) }
    {
        match after {
            Some(Key::End) => Ok(false),
            Some(Key::Text(text)) => next_behind(head, store, Some(text), found, out),
            Some(Key::Number(_)) => next_behind(head, store, None, found, out),
            None => next_behind(head, store, None, found, out),
        }
    }

    /// Stages the map with that key set, and no other one. None removes the key's record.
    pub fn set<D: Disk, H: Held>(
        head: &mut FileHead,
        store: &mut Store<D>,
        key: &Key,
        value: Option<&Record>,
        held: &H,
    ) -> Result<(), Down>
        requires form { IsTreeHead head.old }
        requires placed { IsPlaced head.old store.old.disk }
        requires frames { 1 ≤ free_frames store.old.pool }
        requires staged { length store.old.touched ≤ staged_limit }
        requires suits { Suits head.old (key_of key.now) (option_copied value) }
        ensures sets { OnOk result (KeySet head.old head.new (H.held held.now) (key_of key.now) (option_copied value.entry) store.old.current store.new.current) }
        ensures file { OnOk result (SameFile head.old head.new) }
        ensures form { OnOk result (IsTreeHead head.new) }
        ensures staged { OnOk result (StagesIn head.old ((2 * head.old.levels + 2) * head.old.bucket) store.old store.new) }
        ensures head { OnErr result (head.new ≡ head.old) }
        ensures down { OnErr result (SameButReads (fell result store.old) store.new) }
    {
        match key {
            Key::Text(text) => {
                let done = set_key(head, store, text.bytes(), value, held);
                if done.is_err() {
                    store.unstage();
                }
                done
            }
            _ => Ok(()),
        }
    }

    /// Stages the map with that key set back in place to what it had, and no other one. Blocks of at most one bucket are staged.
    pub fn restore<D: Disk>(
        head: &FileHead,
        store: &mut Store<D>,
        key: &Key,
        value: Option<&Record>,
    ) -> Result<(), Down>
        requires form { IsTreeHead head.now }
        requires placed { IsPlaced head.now store.old.disk }
        requires frames { 1 ≤ free_frames store.old.pool }
        requires staged { length store.old.touched ≤ 480 }
        requires suits { Suits head.now (key_of key.now) (option_copied value) }
        ensures back { OnOk result (KeyBack head.now (key_of key.now) (option_copied value.entry) store.old.current store.new.current) }
        ensures staged { OnOk result (StagesIn head.now head.now.bucket store.old store.new) }
        ensures down { OnErr result (SameButReads (fell result store.old) store.new) }
    {
        match key {
            Key::Text(text) => {
                let done = restore_key(head, store, text.bytes(), value);
                if done.is_err() {
                    store.unstage();
                }
                done
            }
            _ => Ok(()),
        }
    }

    /// Writes the one bucket of the empty map. After an error each image that a power loss may leave has the old content outside the extent.
    pub fn make<D: Disk>(head: &FileHead, store: &mut Store<D>) -> Result<(), Down>
        requires form { IsTreeHead head.now }
        requires placed { IsPlaced head.now store.old.disk }
        requires fresh { IsNewHead head.now }
        requires idle { IsIdle store.old }
        requires frames { 32 ≤ free_frames store.old.pool }
        ensures map { OnOk result (IfSome store.new.current (λ blocks. map_of head.now blocks ≡ empty_map)) }
        ensures valid { OnOk result (IfSome store.new.current (IsRooted head.now)) }
        ensures layout { OnOk result (IfSome store.new.current (λ blocks. layout_in head.now blocks ≡ first_layout_of head.now)) }
        ensures idle { OnOk result (IsIdle store.new) }
        ensures outside { OnOk result (AgreesOut (in_extent head.now) store.old.current store.new.current) }
        ensures down { OnErr result (LeavesOut (in_extent head.now) store.old.current store.new.disk) }
        ensures unstaged { OnErr result (store.new ≡ unstaged store.new) }
        ensures counts { Counts result store.old.disk store.new.disk }
        ensures pool { store.new.pool ≡ store.old.pool }
    {
        let done = make_file(head, store);
        if done.is_err() {
            store.unstage();
        }
        done
    }

    /// How many buckets have to be free for `set` to add a record.
    pub fn need(head: &FileHead) -> u32
        requires form { IsTreeHead head.now }
        ensures { result ≡ need_in head.now }
    {
        if head.levels == 12 {
            return 65537;
        }
        head.levels + 2
    }
}
