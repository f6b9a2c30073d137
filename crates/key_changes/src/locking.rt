// Keys that are held, and those that are asked for.
ghost use Rattle.std.specs.Prelude.{◌≡◌, ◌≤◌, ◌∷◌, [], true, false, None, Some, IfNone, IfSome, IsSome, length, option_map, is_some};
ghost use Rattle.vms_model.specs.Keys.{End};
ghost use Rattle.std.specs.Option.{option_and_then};
ghost use Rattle.vms_model.specs.Limits.{lock_limit};
ghost use Rattle.vms_base.specs.Ids.{serial_of};
ghost use Rattle.vms_base.specs.Keys.{key_of};
ghost use Rattle.records_model.specs.History.{same_id};
ghost use Rattle.record_locks.specs.Locks.{holder, not_locked, with_locks};
ghost use Rattle.record_operations.specs.Causes.{IsRefusal, cause_of};
ghost use Rattle.key_changes.specs.Changing.{held_against, keys_asked, keys_refused, locks_refuse};

use crate::asked::{Asked, KeyChange};
use change_set::Held;
use file_base::Organization;
use record_locks::Locks;
use record_operations::RecErr;
use vms_base::{Key, Serial};

/// How many keys the units of a node hold at the most.
pub const MOST_LOCKS: u32 = 4_096;

/// The keys of a file that branches hold: their rooms are kept.
#[derive(Drop)]
pub struct HeldIn<'a> {
    pub locks: &'a Locks,
    pub file: u8,
}

impl Held for HeldIn<'_> {
    ghost held = { λ h key. is_some (holder h.locks.now.locks h.file key) };

    fn is_held(&self, key: &Key) -> bool {
        self.locks.holder(self.file, key).is_some()
    }
}

/// Whether two serials are one.
pub fn is_same(a: &Serial, b: &Serial) -> bool
    ensures { result ≡ same_id (serial_of a.now) (serial_of b.now) }
{
    a.0.node.bytes() == b.0.node.bytes() && a.0.boot == b.0.boot && a.0.seq == b.0.seq
}

/// Whether another branch holds a key that is asked for by a branch, or by none.
pub fn lock_refusal(locks: &Locks, by: &Option<Serial>, file: u8, key: &Key) -> Option<RecErr>
    ensures refuses { option_and_then cause_of result ≡ held_against (option_map serial_of by.now) (holder locks.now.locks file (key_of key.now)) }
    ensures refusal { IfSome result IsRefusal }
{
    let holder = locks.holder(file, key)?;
    match by {
        Some(serial) if is_same(serial, &holder) => None,
        _ => Some(RecErr::Locked(holder)),
    }
}

/// The end of a file, where a change asks for it.
pub fn asks_end(asked: &Asked) -> bool
    ensures yes { result ≡ true → keys_asked asked.now.head asked.now.change (key_of asked.now.key) ≡ End ∷ key_of asked.now.key ∷ [] }
    ensures no { result ≡ false → keys_asked asked.now.head asked.now.change (key_of asked.now.key) ≡ key_of asked.now.key ∷ [] }
{
    match (asked.head.organization, asked.change) {
        (Organization::Sequential, KeyChange::Put) => true,
        _ => false,
    }
}

/// Whether another branch holds a key that a change asks for.
pub fn locks_refusal(locks: &Locks, by: &Option<Serial>, asked: &Asked) -> Option<RecErr>
    ensures refusal { IfSome result IsRefusal }
    ensures refuses { option_and_then cause_of result ≡ locks_refuse (option_map serial_of by.now) asked.now.file (keys_asked asked.now.head asked.now.change (key_of asked.now.key)) locks.now.locks }
{
    if asks_end(asked) {
        match lock_refusal(locks, by, asked.file, &Key::End) {
            Some(refusal) => return Some(refusal),
            None => {}
        }
    }
    lock_refusal(locks, by, asked.file, &asked.key)
}

/// How many keys that a change asks for nobody holds.
pub fn free_keys(locks: &Locks, asked: &Asked) -> usize
    ensures { result ≡ length (not_locked locks.now.locks asked.now.file (keys_asked asked.now.head asked.now.change (key_of asked.now.key))) }
{
    if asks_end(asked) {
        locks.count_free(asked.file, &[Key::End, asked.key])
    } else {
        locks.count_free(asked.file, &[asked.key])
    }
}

/// Lets a branch hold a key that no other branch holds, or refuses that, where more keys than may be would be held.
pub fn hold_key(locks: &mut Locks, file: u8, key: &Key, by: Serial) -> Option<RecErr>
    requires most { locks.old.most ≡ lock_limit }
    requires few { length locks.old.locks ≤ lock_limit }
    requires free { held_against (Some (serial_of by)) (holder locks.old.locks file (key_of key.now)) ≡ None }
    ensures refuses { option_and_then cause_of result ≡ keys_refused file (key_of key.now ∷ []) locks.old.locks }
    ensures refusal { IfSome result IsRefusal }
    ensures holds { IfNone result (locks.new ≡ record locks.old { locks = with_locks (serial_of by) file (key_of key.now ∷ []) locks.old.locks }) }
    ensures few { length locks.new.locks ≤ lock_limit }
    ensures same { IsSome result → locks.new ≡ locks.old }
{
    if locks.count() + locks.count_free(file, &[*key]) > MOST_LOCKS as usize {
        return Some(RecErr::Locks);
    }
    let _ = locks.lock(file, key, by);
    None
}
