//! A sequential file as a map from positions to records.
ghost use Rattle.std.specs.Prelude.{◌≡◌, ◌≤◌, ◌<◌, ◌+◌, ◌-◌, ◌*◌, ℕ, List, Bool, true, false, Option, Some, None, [], length, take, OnOk, OnErr, IfOk, IfSome, IfNone, option_map};
ghost use Rattle.std.specs.Option.{option_copied};
ghost use Rattle.file_base.specs.vms_base.Keys.{key_of};
ghost use Rattle.change_set.specs.careful_write.Reads.{SameButReads};
ghost use Rattle.change_set.specs.careful_write.Sizes.{staged_limit};
ghost use Rattle.change_set.specs.Files.{IsPlaced, free_frames, fell, StagesIn, SameFile};
ghost use Rattle.change_set.specs.Maps.{set_key};
ghost use Rattle.seq_file.specs.Records.{cut_from};
ghost use Rattle.seq_file.specs.Layout.{map_of, capacity, used_after, CountsBefore, UsedBefore, IsSequential, IsLaidOut, Suits, Takes};

use crate::file::{cut_positions, need_of, read_position, set_position};
use crate::make::make_file;
use change_set::{Disk, Down, Held, Place, RecordFile, Store, number_behind};
use file_base::{FileHead, Key, Record};

/// Files whose records stand one behind the other, at the positions from 1 to their number. A record goes into the last
/// used bucket where it fits, and else into the next one.
///
/// `set` puts a record behind the last one, writes one of the same length over another, or takes the last one away. No
/// position has room of its own: what was taken away is put back behind the last record.
pub struct SeqFile;

// Sets the position that a key tells, to which a walk may begin at a place. Blocks of one bucket are staged.
fn set_record<D: Disk>(
    head: &mut FileHead,
    store: &mut Store<D>,
    key: &Key,
    value: Option<&Record>,
    place: Place,
) -> Result<(), Down>
    requires form { IsSequential head.old }
    requires before { IfSome store.old.current (λ b. IsLaidOut head.old b → CountsBefore head.old b place) }
    requires placed { IsPlaced head.old store.old.disk }
    requires frames { 32 ≤ free_frames store.old.pool }
    requires room { length store.old.touched ≤ 480 }
    requires suits { Suits head.old (key_of key.now) (option_copied value) }
    ensures map { OnOk result (IfSome store.old.current (λ before. IsLaidOut head.old before → Takes head.old before (key_of key.now) (option_copied value.entry) → option_map (map_of head.new) store.new.current ≡ Some (set_key (key_of key.now) (option_copied value.entry) (map_of head.old before)))) }
    ensures valid { OnOk result (IfSome store.old.current (λ before. IsLaidOut head.old before → Takes head.old before (key_of key.now) (option_copied value.entry) → IfSome store.new.current (IsLaidOut head.new))) }
    ensures used { OnOk result (IfSome store.old.current (λ before. IsLaidOut head.old before → Takes head.old before (key_of key.now) (option_copied value.entry) → head.new.used ≡ used_after head.old before (key_of key.now) (option_copied value.entry))) }
    ensures back { OnOk result (IfSome store.old.current (λ before. IsLaidOut head.old before → Takes head.old before (key_of key.now) (option_copied value.entry) → IfSome store.new.current (λ after. Takes head.new after (key_of key.now) (map_of head.old before (key_of key.now))))) }
    ensures file { OnOk result (SameFile head.old head.new) }
    ensures form { OnOk result (IsSequential head.new) }
    ensures staged { OnOk result (StagesIn head.old head.old.bucket store.old store.new) }
    ensures head { OnErr result (head.new ≡ head.old) }
    ensures down { OnErr result (SameButReads (fell result store.old) store.new) }
{
    match key {
        Key::Number(n) => {
            let done = set_position(head, store, *n, value, place);
            if done.is_err() {
                store.unstage();
            }
            done
        }
        _ => Ok(()),
    }
}

impl RecordFile for SeqFile {
    ghost use Rattle.seq_file.specs.Layout.{map_of, IsSequential, IsFresh, IsLaidOut, Stands, Suits, Takes, asks, used_after, CountsBefore};
    ghost use Rattle.seq_file.specs.Local.{local_law, valid_local_law};
    ghost use Rattle.std.specs.Prelude.{ℕ, ◌*◌, refl};
    ghost use Rattle.change_set.specs.tree_model.Layouts.{no_layout};

    ghost map = { map_of };

    ghost form = { IsSequential };

    ghost fresh = { IsFresh };

    ghost valid = { IsLaidOut };

    ghost stands = { λ h blocks key bytes. Stands h bytes blocks };

    ghost suits = { Suits };

    ghost takes = { Takes };

    ghost room = { λ h blocks key. 0 };

    ghost asks = { asks };

    ghost used_after = { λ h blocks held key value. used_after h blocks key value };

    ghost reads = { λ h. h.used * h.bucket };

    ghost layout = { λ h blocks. no_layout };

    ghost first_layout = { λ h. no_layout };

    ghost restores = { Takes };

    ghost begins = { λ h blocks key place. CountsBefore h blocks place };

    ghost local = { λ h a b form agrees laid. local_law h a b form agrees };

    ghost valid_local = { valid_local_law };

    ghost room_local = { λ h a b form agrees laid key. refl };

    ghost layout_local = { λ h a b form agrees laid. refl };

    ghost begins_first = { λ h blocks after form. refl };

    fn find<D: Disk>(
        head: &FileHead,
        store: &mut Store<D>,
        key: &Key,
        place: &mut Place,
        out: &mut Record,
    ) -> Result<bool, Down> {
        match key {
            Key::Number(n) => {
                if *n == 0 || *n > head.count {
                    return Ok(false);
                }
                let found = read_position(head, store, *n, place, out);
                if found.is_err() {
                    store.unstage();
                }
                found
            }
            _ => Ok(false),
        }
    }

    fn next_from<D: Disk>(
        head: &FileHead,
        store: &mut Store<D>,
        after: Option<&Key>,
        place: &mut Place,
        found: &mut Key,
        out: &mut Record,
    ) -> Result<bool, Down> {
        let Some(from) = number_behind(after) else {
            return Ok(false);
        };
        if from >= head.count {
            return Ok(false);
        }
        match read_position(head, store, from + 1, place, out) {
            Ok(true) => {
                *found = Key::Number(from + 1);
                Ok(true)
            }
            Ok(false) => Ok(false),
            Err(down) => {
                store.unstage();
                Err(down)
            }
        }
    }

    fn set_from<D: Disk, H: Held>(
        head: &mut FileHead,
        store: &mut Store<D>,
        key: &Key,
        value: Option<&Record>,
        _held: &H,
        place: Place,
    ) -> Result<(), Down> {
        set_record(head, store, key, value, place)
    }

    fn restore<D: Disk>(
        head: &mut FileHead,
        store: &mut Store<D>,
        key: &Key,
        value: Option<&Record>,
    ) -> Result<(), Down> {
        set_record(head, store, key, value, Place::first())
    }

    fn need<D: Disk>(head: &FileHead, store: &mut Store<D>, size: u16) -> Result<u32, Down> {
        let need = need_of(head, store, size);
        if need.is_err() {
            store.unstage();
        }
        need
    }

    fn make<D: Disk>(head: &FileHead, store: &mut Store<D>) -> Result<(), Down> {
        let done = make_file(head, store);
        if done.is_err() {
            store.unstage();
        }
        done
    }
}

impl SeqFile {
    /// Stages the map without the positions from one on. Blocks of at most one bucket are staged.
    pub fn cut<D: Disk>(head: &mut FileHead, store: &mut Store<D>, from: u32) -> Result<(), Down>
        requires form { IsSequential head.old }
        requires placed { IsPlaced head.old store.old.disk }
        requires frames { 32 ≤ free_frames store.old.pool }
        requires staged { length store.old.touched ≤ staged_limit }
        requires first { 1 ≤ from }
        requires last { from ≤ head.old.count }
        ensures map { OnOk result (IfSome store.old.current (λ before. IsLaidOut head.old before → option_map (map_of head.new) store.new.current ≡ Some (cut_from from (map_of head.old before)))) }
        ensures valid { OnOk result (IfSome store.old.current (λ before. IsLaidOut head.old before → IfSome store.new.current (IsLaidOut head.new))) }
        ensures used { OnOk result (IfSome store.old.current (λ before. IsLaidOut head.old before → UsedBefore (capacity head.old) from (map_of head.old before) head.new.used)) }
        ensures file { OnOk result (SameFile head.old head.new) }
        ensures form { OnOk result (IsSequential head.new) }
        ensures staged { OnOk result (StagesIn head.old head.old.bucket store.old store.new) }
        ensures head { OnErr result (head.new ≡ head.old) }
        ensures down { OnErr result (SameButReads (fell result store.old) store.new) }
    {
        Self::cut_at(head, store, from, Place::first())
    }

    /// The same by a walk to the position that begins at a place.
    pub fn cut_at<D: Disk>(
        head: &mut FileHead,
        store: &mut Store<D>,
        from: u32,
        place: Place,
    ) -> Result<(), Down>
        requires form { IsSequential head.old }
        requires placed { IsPlaced head.old store.old.disk }
        requires frames { 32 ≤ free_frames store.old.pool }
        requires staged { length store.old.touched ≤ staged_limit }
        requires first { 1 ≤ from }
        requires last { from ≤ head.old.count }
        requires begins { IfSome store.old.current (λ b. IsLaidOut head.old b → CountsBefore head.old b place) }
        ensures map { OnOk result (IfSome store.old.current (λ before. IsLaidOut head.old before → option_map (map_of head.new) store.new.current ≡ Some (cut_from from (map_of head.old before)))) }
        ensures valid { OnOk result (IfSome store.old.current (λ before. IsLaidOut head.old before → IfSome store.new.current (IsLaidOut head.new))) }
        ensures used { OnOk result (IfSome store.old.current (λ before. IsLaidOut head.old before → UsedBefore (capacity head.old) from (map_of head.old before) head.new.used)) }
        ensures file { OnOk result (SameFile head.old head.new) }
        ensures form { OnOk result (IsSequential head.new) }
        ensures staged { OnOk result (StagesIn head.old head.old.bucket store.old store.new) }
        ensures head { OnErr result (head.new ≡ head.old) }
        ensures down { OnErr result (SameButReads (fell result store.old) store.new) }
    {
        let done = cut_positions(head, store, from, place);
        if done.is_err() {
            store.unstage();
        }
        done
    }
}
