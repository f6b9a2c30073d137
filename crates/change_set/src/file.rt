//! A file as a map from keys to records, whatever its organization.
ghost use Rattle.std.specs.Prelude.{◌≡◌, ◌≤◌, ◌<◌, ◌+◌, ◌*◌, ◌-◌, ℕ, List, Bool, true, false, Option, Some, None, length, OnOk, OnErr, IfOk, IfSome, IsTrue, option_map, MatchOption};
ghost use Rattle.std.specs.Option.{option_copied};
ghost use Rattle.careful_write.specs.State.{IsIdle};
ghost use Rattle.careful_write.specs.Down.{Counts};
ghost use Rattle.careful_write.specs.Reads.{SameButReads};
ghost use Rattle.careful_write.specs.Sizes.{staged_limit};
ghost use Rattle.file_base.specs.declared.head.FileHead.{FileHead};
ghost use Rattle.tree_model.specs.vms_model.Keys as model;
ghost use Rattle.tree_model.specs.Layouts.{Layout};
ghost use Rattle.tree_model.specs.Setting.{layout_back, layout_set};
ghost use Rattle.file_base.specs.vms_base.Keys.{key_of};
ghost use Rattle.change_set.specs.Maps.{Map, set_key, empty_map, IsNext, EndsAfter};
ghost use Rattle.change_set.specs.Files.{IsPlaced, AgreesOn, free_frames, fell, StagesIn, SameFile, in_extent, AgreesOut, LeavesOut, unstaged, first_place, sizes_of};
ghost use Rattle.change_set.specs.declared.walk.Place as declared;

use crate::walk::Place;
use careful_write::{Disk, Down, Store};
use file_base::{FileHead, Key, Record};

/// Says which keys are held: an indexed file keeps the room of their records, so that a change of one can be undone in
/// place.
pub trait Held {
    /// Whether a key is held.
    ghost held: { Self → model.Key → Bool };

    fn is_held(&self, key: &Key) -> bool
        ensures { result ≡ held self.now (key_of key.now) };
}

/// A file of one organization over a store. Contracts see it as a map from keys to records, which the head and the
/// content's blocks determine.
///
/// Each call answers whatever the disk has: what it asks for is told by the head, the key and the record alone. What it
/// finds and sets is promised of blocks that are laid out. On others it still returns, each record that it reads stands in
/// a bucket that is laid out, and `set` stages no block outside the file's extent.
///
/// Each call wants 32 free frames, and gives back those that it takes. `Down` says that the disk went down in the call;
/// nothing is staged then. The laws say that the map, its layout and the rooms rest on the blocks of the file's extent
/// alone, so that what is staged elsewhere leaves them.
pub trait RecordFile {
    /// The map of a file, by its head and the blocks of the content, of which the first is block 518 of the disk.
    ghost map: { FileHead → List (List ℕ) → Map };

    /// The head is that of a file of this organization, and its numbers are in range whatever the blocks have.
    ghost form: { FileHead → Type 0 };

    /// The head is that of a new file.
    ghost fresh: { FileHead → Type 0 };

    /// The blocks of the extent are laid out as those of such a file.
    ghost valid: { FileHead → List (List ℕ) → Type 0 };

    /// A used bucket that is laid out as one has this record, under this key where it has keys. It speaks of any blocks.
    ghost stands: { FileHead → List (List ℕ) → model.Key → List ℕ → Type 0 };

    /// A key that the file may have, and a record that it may keep there.
    ghost suits: { FileHead → model.Key → Option (List ℕ) → Type 0 };

    /// The key may be set to the value: its slot's room holds it, or enough buckets are free.
    ghost takes: { FileHead → List (List ℕ) → model.Key → Option (List ℕ) → Type 0 };

    /// The length that a key may be set to in place.
    ghost room: { FileHead → List (List ℕ) → model.Key → ℕ };

    /// The free buckets that a record of this length asks for.
    ghost asks: { FileHead → List (List ℕ) → ℕ → ℕ };

    /// The used buckets once the key is set to the value, while these keys are held.
    ghost used_after: { FileHead → List (List ℕ) → (model.Key → Bool) → model.Key → Option (List ℕ) → ℕ };

    /// The layout of the buckets of an indexed file: its leaves, and the index over them; none in another file.
    ghost layout: { FileHead → List (List ℕ) → Layout };

    /// That of a new file.
    ghost first_layout: { FileHead → Layout };

    /// The key may be set back to the value in place.
    ghost restores: { FileHead → List (List ℕ) → model.Key → Option (List ℕ) → Type 0 };

    /// How many blocks a walk to a key reads at most.
    ghost reads: { FileHead → ℕ };

    /// A walk to a key or to what is behind it, or to the first key where none is said, may begin at this place.
    ghost begins: { FileHead → List (List ℕ) → Option model.Key → declared.Place → Type 0 };

    /// True with the record that the key has; false exactly where it has none.
    fn get<D: Disk>(
        head: &FileHead,
        store: &mut Store<D>,
        key: &Key,
        out: &mut Record,
    ) -> Result<bool, Down>
        requires form { form head.now }
        requires placed { IsPlaced head.now store.old.disk }
        requires frames { 32 ≤ free_frames store.old.pool }
        ensures found { IfOk result (λ found. found ≡ true → IfSome store.old.current (λ blocks. valid head.now blocks → map head.now blocks (key_of key.now) ≡ Some out.new)) }
        ensures stands { IfOk result (λ found. found ≡ true → IfSome store.old.current (λ blocks. stands head.now blocks (key_of key.now) out.new)) }
        ensures absent { IfOk result (λ found. found ≡ false → IfSome store.old.current (λ blocks. valid head.now blocks → map head.now blocks (key_of key.now) ≡ None)) }
        ensures reads { store.new.reads ≤ store.old.reads + reads head.now }
        ensures same { OnOk result (SameButReads store.old store.new) }
        ensures down { OnErr result (SameButReads (fell result store.old) store.new) }
    {
        let mut place = Place::first();
        Self::find(head, store, key, &mut place, out)
    }

    /// The same by a walk to the key that may begin at a place, and that leaves such a place.
    fn find<D: Disk>(
        head: &FileHead,
        store: &mut Store<D>,
        key: &Key,
        place: &mut Place,
        out: &mut Record,
    ) -> Result<bool, Down>
        requires form { form head.now }
        requires placed { IsPlaced head.now store.old.disk }
        requires frames { 32 ≤ free_frames store.old.pool }
        requires begins { IfSome store.old.current (λ blocks. valid head.now blocks → begins head.now blocks (Some (key_of key.now)) place.old) }
        ensures found { IfOk result (λ found. found ≡ true → IfSome store.old.current (λ blocks. valid head.now blocks → map head.now blocks (key_of key.now) ≡ Some out.new)) }
        ensures stands { IfOk result (λ found. found ≡ true → IfSome store.old.current (λ blocks. stands head.now blocks (key_of key.now) out.new)) }
        ensures absent { IfOk result (λ found. found ≡ false → IfSome store.old.current (λ blocks. valid head.now blocks → map head.now blocks (key_of key.now) ≡ None)) }
        ensures begins { OnOk result (IfSome store.old.current (λ blocks. valid head.now blocks → begins head.now blocks (Some (key_of key.now)) place.new)) }
        ensures reads { store.new.reads ≤ store.old.reads + reads head.now }
        ensures same { OnOk result (SameButReads store.old store.new) }
        ensures down { OnErr result (SameButReads (fell result store.old) store.new) };

    /// The first key, or the first one behind another, with its record; false exactly where there is none.
    fn next<D: Disk>(
        head: &FileHead,
        store: &mut Store<D>,
        after: Option<&Key>,
        found: &mut Key,
        out: &mut Record,
    ) -> Result<bool, Down>
        requires form { form head.now }
        requires placed { IsPlaced head.now store.old.disk }
        requires frames { 32 ≤ free_frames store.old.pool }
        ensures found { IfOk result (λ is. is ≡ true → IfSome store.old.current (λ blocks. valid head.now blocks → IsNext (map head.now blocks) (option_map key_of (option_copied after.entry)) (key_of found.new) out.new)) }
        ensures stands { IfOk result (λ is. is ≡ true → IfSome store.old.current (λ blocks. stands head.now blocks (key_of found.new) out.new)) }
        ensures none { IfOk result (λ is. is ≡ false → IfSome store.old.current (λ blocks. valid head.now blocks → EndsAfter (map head.now blocks) (option_map key_of (option_copied after.entry)))) }
        ensures same { OnOk result (SameButReads store.old store.new) }
        ensures down { OnErr result (SameButReads (fell result store.old) store.new) }
    {
        let mut place = Place::first();
        Self::next_from(head, store, after, &mut place, found, out)
    }

    /// The same by a walk that begins at a place, and that leaves the place at which the walk to what is behind the key found
    /// may begin.
    fn next_from<D: Disk>(
        head: &FileHead,
        store: &mut Store<D>,
        after: Option<&Key>,
        place: &mut Place,
        found: &mut Key,
        out: &mut Record,
    ) -> Result<bool, Down>
        requires form { form head.now }
        requires placed { IsPlaced head.now store.old.disk }
        requires frames { 32 ≤ free_frames store.old.pool }
        requires begins { IfSome store.old.current (λ blocks. valid head.now blocks → begins head.now blocks (option_map key_of (option_copied after)) place.old) }
        ensures found { IfOk result (λ is. is ≡ true → IfSome store.old.current (λ blocks. valid head.now blocks → IsNext (map head.now blocks) (option_map key_of (option_copied after.entry)) (key_of found.new) out.new)) }
        ensures stands { IfOk result (λ is. is ≡ true → IfSome store.old.current (λ blocks. stands head.now blocks (key_of found.new) out.new)) }
        ensures none { IfOk result (λ is. is ≡ false → IfSome store.old.current (λ blocks. valid head.now blocks → EndsAfter (map head.now blocks) (option_map key_of (option_copied after.entry)))) }
        ensures begins { IfOk result (λ is. is ≡ true → IfSome store.old.current (λ blocks. valid head.now blocks → begins head.now blocks (Some (key_of found.new)) place.new)) }
        ensures same { OnOk result (SameButReads store.old store.new) }
        ensures down { OnErr result (SameButReads (fell result store.old) store.new) };

    /// Stages the map with that key set, and no other one. None removes the key's record. Only blocks of the file's extent
    /// are staged: at most two buckets, and two more for each level of an index.
    fn set<D: Disk, H: Held>(
        head: &mut FileHead,
        store: &mut Store<D>,
        key: &Key,
        value: Option<&Record>,
        held: &H,
    ) -> Result<(), Down>
        requires form { form head.old }
        requires placed { IsPlaced head.old store.old.disk }
        requires frames { 32 ≤ free_frames store.old.pool }
        requires staged { length store.old.touched ≤ staged_limit }
        requires suits { suits head.old (key_of key.now) (option_copied value) }
        ensures map { OnOk result (IfSome store.old.current (λ before. valid head.old before → takes head.old before (key_of key.now) (option_copied value.entry) → option_map (map head.new) store.new.current ≡ Some (set_key (key_of key.now) (option_copied value.entry) (map head.old before)))) }
        ensures valid { OnOk result (IfSome store.old.current (λ before. valid head.old before → takes head.old before (key_of key.now) (option_copied value.entry) → IfSome store.new.current (valid head.new))) }
        ensures used { OnOk result (IfSome store.old.current (λ before. valid head.old before → takes head.old before (key_of key.now) (option_copied value.entry) → head.new.used ≡ used_after head.old before (H.held held.now) (key_of key.now) (option_copied value.entry))) }
        ensures rooms { OnOk result (IfSome store.old.current (λ before. valid head.old before → takes head.old before (key_of key.now) (option_copied value.entry) → IfSome store.new.current (λ after. (other : model.Key) → H.held held.now other ≡ true → room head.old before other ≤ room head.new after other))) }
        ensures layout { OnOk result (IfSome store.old.current (λ before. valid head.old before → takes head.old before (key_of key.now) (option_copied value.entry) →
            option_map (layout head.new) store.new.current ≡ Some (layout_set (sizes_of head.old) (H.held held.now) (key_of key.now) (option_copied value.entry) (layout head.old before)))) }
        ensures back { OnOk result (IfSome store.old.current (λ before. valid head.old before → takes head.old before (key_of key.now) (option_copied value.entry) → IfSome store.new.current (λ after. restores head.new after (key_of key.now) (map head.old before (key_of key.now))))) }
        ensures file { OnOk result (SameFile head.old head.new) }
        ensures form { OnOk result (form head.new) }
        ensures staged { OnOk result (StagesIn head.old ((2 * head.old.levels + 2) * head.old.bucket) store.old store.new) }
        ensures head { OnErr result (head.new ≡ head.old) }
        ensures down { OnErr result (SameButReads (fell result store.old) store.new) }
    {
        Self::set_from(head, store, key, value, held, Place::first())
    }

    /// The same by a walk to the key that begins at a place.
    fn set_from<D: Disk, H: Held>(
        head: &mut FileHead,
        store: &mut Store<D>,
        key: &Key,
        value: Option<&Record>,
        held: &H,
        place: Place,
    ) -> Result<(), Down>
        requires form { form head.old }
        requires placed { IsPlaced head.old store.old.disk }
        requires frames { 32 ≤ free_frames store.old.pool }
        requires staged { length store.old.touched ≤ staged_limit }
        requires begins { IfSome store.old.current (λ blocks. valid head.old blocks → begins head.old blocks (Some (key_of key.now)) place) }
        requires suits { suits head.old (key_of key.now) (option_copied value) }
        ensures map { OnOk result (IfSome store.old.current (λ before. valid head.old before → takes head.old before (key_of key.now) (option_copied value.entry) → option_map (map head.new) store.new.current ≡ Some (set_key (key_of key.now) (option_copied value.entry) (map head.old before)))) }
        ensures valid { OnOk result (IfSome store.old.current (λ before. valid head.old before → takes head.old before (key_of key.now) (option_copied value.entry) → IfSome store.new.current (valid head.new))) }
        ensures used { OnOk result (IfSome store.old.current (λ before. valid head.old before → takes head.old before (key_of key.now) (option_copied value.entry) → head.new.used ≡ used_after head.old before (H.held held.now) (key_of key.now) (option_copied value.entry))) }
        ensures rooms { OnOk result (IfSome store.old.current (λ before. valid head.old before → takes head.old before (key_of key.now) (option_copied value.entry) → IfSome store.new.current (λ after. (other : model.Key) → H.held held.now other ≡ true → room head.old before other ≤ room head.new after other))) }
        ensures layout { OnOk result (IfSome store.old.current (λ before. valid head.old before → takes head.old before (key_of key.now) (option_copied value.entry) →
            option_map (layout head.new) store.new.current ≡ Some (layout_set (sizes_of head.old) (H.held held.now) (key_of key.now) (option_copied value.entry) (layout head.old before)))) }
        ensures back { OnOk result (IfSome store.old.current (λ before. valid head.old before → takes head.old before (key_of key.now) (option_copied value.entry) → IfSome store.new.current (λ after. restores head.new after (key_of key.now) (map head.old before (key_of key.now))))) }
        ensures file { OnOk result (SameFile head.old head.new) }
        ensures form { OnOk result (form head.new) }
        ensures staged { OnOk result (StagesIn head.old ((2 * head.old.levels + 2) * head.old.bucket) store.old store.new) }
        ensures head { OnErr result (head.new ≡ head.old) }
        ensures down { OnErr result (SameButReads (fell result store.old) store.new) };

    /// Stages the map with that key set back in place to what it had, and no other one: where a key was set, it may be
    /// set back so. Blocks of at most one bucket are staged.
    fn restore<D: Disk>(
        head: &mut FileHead,
        store: &mut Store<D>,
        key: &Key,
        value: Option<&Record>,
    ) -> Result<(), Down>
        requires form { form head.old }
        requires placed { IsPlaced head.old store.old.disk }
        requires frames { 32 ≤ free_frames store.old.pool }
        requires staged { length store.old.touched ≤ 480 }
        requires suits { suits head.old (key_of key.now) (option_copied value) }
        ensures map { OnOk result (IfSome store.old.current (λ before. valid head.old before → restores head.old before (key_of key.now) (option_copied value.entry) → option_map (map head.new) store.new.current ≡ Some (set_key (key_of key.now) (option_copied value.entry) (map head.old before)))) }
        ensures valid { OnOk result (IfSome store.old.current (λ before. valid head.old before → restores head.old before (key_of key.now) (option_copied value.entry) → IfSome store.new.current (valid head.new))) }
        ensures rooms { OnOk result (IfSome store.old.current (λ before. valid head.old before → restores head.old before (key_of key.now) (option_copied value.entry) → IfSome store.new.current (λ after. (other : model.Key) → room head.old before other ≤ room head.new after other))) }
        ensures layout { OnOk result (IfSome store.old.current (λ before. valid head.old before → restores head.old before (key_of key.now) (option_copied value.entry) →
            option_map (layout head.new) store.new.current ≡ Some (layout_back (key_of key.now) (option_copied value.entry) (layout head.old before)))) }
        ensures file { OnOk result (SameFile head.old head.new) }
        ensures form { OnOk result (form head.new) }
        ensures staged { OnOk result (StagesIn head.old head.old.bucket store.old store.new) }
        ensures head { OnErr result (head.new ≡ head.old) }
        ensures down { OnErr result (SameButReads (fell result store.old) store.new) };

    /// How many buckets have to be free for `set` to add a record of so many bytes.
    fn need<D: Disk>(head: &FileHead, store: &mut Store<D>, size: u16) -> Result<u32, Down>
        requires form { form head.now }
        requires placed { IsPlaced head.now store.old.disk }
        requires frames { 32 ≤ free_frames store.old.pool }
        ensures need { IfOk result (λ free. IfSome store.old.current (λ blocks. valid head.now blocks → free ≡ asks head.now blocks size)) }
        ensures same { OnOk result (SameButReads store.old store.new) }
        ensures down { OnErr result (SameButReads (fell result store.old) store.new) };

    /// Writes the buckets of the empty map, in as many groups as it takes. After an error each image that a power loss
    /// may leave has the old content outside the extent.
    fn make<D: Disk>(head: &FileHead, store: &mut Store<D>) -> Result<(), Down>
        requires form { form head.now }
        requires placed { IsPlaced head.now store.old.disk }
        requires fresh { fresh head.now }
        requires idle { IsIdle store.old }
        requires frames { 32 ≤ free_frames store.old.pool }
        ensures map { OnOk result (IfSome store.new.current (λ blocks. map head.now blocks ≡ empty_map)) }
        ensures valid { OnOk result (IfSome store.new.current (valid head.now)) }
        ensures layout { OnOk result (IfSome store.new.current (λ blocks. layout head.now blocks ≡ first_layout head.now)) }
        ensures idle { OnOk result (IsIdle store.new) }
        ensures outside { OnOk result (AgreesOut (in_extent head.now) store.old.current store.new.current) }
        ensures down { OnErr result (LeavesOut (in_extent head.now) store.old.current store.new.disk) }
        ensures unstaged { OnErr result (store.new ≡ unstaged store.new) }
        ensures counts { Counts result store.old.disk store.new.disk }
        ensures pool { store.new.pool ≡ store.old.pool };

    /// Where the blocks are laid out, the map rests on the blocks of the extent alone.
    ghost local: { (head : FileHead) (a b : List (List ℕ)) → form head → AgreesOn head a b → valid head a → map head a ≡ map head b };

    /// So does that they are laid out.
    ghost valid_local: { (head : FileHead) (a b : List (List ℕ)) → form head → AgreesOn head a b → valid head a → valid head b };

    /// So do the rooms.
    ghost room_local: { (head : FileHead) (a b : List (List ℕ)) → form head → AgreesOn head a b → valid head a → (key : model.Key) → room head a key ≡ room head b key };

    /// So does the layout.
    ghost layout_local: { (head : FileHead) (a b : List (List ℕ)) → form head → AgreesOn head a b → valid head a → layout head a ≡ layout head b };

    /// Any walk may begin at the front.
    ghost begins_first: { (head : FileHead) (blocks : List (List ℕ)) (after : Option model.Key) → form head → begins head blocks after first_place };
}
