// A unit that is aborted.
ghost use Rattle.std.specs.Prelude.{◌≡◌, ◌≤◌, ◌<◌, ◌+◌, ◌*◌, ◌^◌, ℕ, List, Option, Some, OnOk, OnErr, IsSome, IfSome, length};
ghost use Rattle.std.specs.List.{All};
ghost use Rattle.vms_model.specs.Limits.{branch_limit, file_limit};
ghost use Rattle.careful_write.specs.Down.{Counts};
ghost use Rattle.careful_write.specs.State.{IsIdle};
ghost use Rattle.unit_journal.specs.Groups.{Grows, GrowsOnce};
ghost use Rattle.unit_table.specs.Units.{OpenUnit, unit_at, without_place};
ghost use Rattle.volume.specs.State.{Holds};
ghost use Rattle.unit_aborts.specs.Aborting.{Aborts, BreaksOff, HasRoom, ImagesHaveRoom, MayAbort};

use block_disk::Disk;
use careful_write::Down;
use journal_format::EntryBuf;
use kept_files::{files_kept, settle_in_files};
use unit_entries::ChangedKeys;
use unit_table::{Branch, UnitTable};
use unit_undo::undo_unit;
use vms_base::{Moment, Outcome, Reason, Record};
use volume::Volume;
use volume_format::Ending;

/// How many keys of an undo may be staged beside a settlement in the journals of so many files, with a slot of the log. A key takes up to 17 blocks, an
/// entry in a file's journals up to 6, and a group has room for 450 beside what settles a branch.
pub fn keys_beside(files: usize) -> u32
    requires { files ≤ file_limit }
    ensures few { 17 * result + 6 * files + 1 ≤ 450 }
    ensures most { result ≤ 26 }
{
    ((449 - 6 * files) / 17) as u32
}

/// Aborts the unit at a place, of this branch: what it changed is set back, in as many groups as that takes, and the last of them settles it, in the
/// journals of the files that it changed too. It is no more, on Down too.
pub fn abort_unit<D: Disk>(
    volume: &mut Volume<D>,
    units: &mut UnitTable,
    place: u8,
    branch: &Branch,
    reason: Reason,
    moment: Moment,
    keys: &mut ChangedKeys,
    image: &mut Record,
    entry: &mut EntryBuf,
) -> Result<(), Down>
    requires place { place < branch_limit }
    requires unit { IsSome (unit_at units.old.places place) }
    requires may { MayAbort volume.old }
    requires low { IfSome (unit_at units.old.places place) (λ u. All (λ p. p ≤ 2 ^ 62) u.positions) }
    requires room { IfSome (unit_at units.old.places place) (λ u. HasRoom u.positions volume.old) }
    requires rooms { IfSome (unit_at units.old.places place) (λ u. ImagesHaveRoom u.positions u.files volume.old) }
    ensures units { units.new ≡ without_place place units.old }
    ensures aborts { OnOk result (IfSome (unit_at units.old.places place) (λ u. Aborts (record { positions = u.positions; files = u.files; tid = branch.now.tid; serial = branch.now.serial; reason = reason; moment = moment.0; left = units.new.places }) volume.old volume.new)) }
    ensures idle { OnOk result (IsIdle volume.new.store) }
    ensures holds { OnOk result (Holds volume.new) }
    ensures breaks { OnErr result (IfSome (unit_at units.old.places place) (λ u. BreaksOff (record { positions = u.positions; files = u.files; tid = branch.now.tid; serial = branch.now.serial; reason = reason; moment = moment.0; left = units.new.places }) volume.old volume.new)) }
    ensures grows { Grows 0 moment.0 volume.old volume.new }
    ensures once { GrowsOnce moment.0 volume.old volume.new }
    ensures counts { Counts result volume.old.store.disk volume.new.store.disk }
    ensures pool { volume.new.store.pool ≡ volume.old.store.pool }
{
    let has_changed = !units.positions(place).is_empty();
    let files = *units.files(place);
    let most = keys_beside(files_kept(volume, &files));
    match undo_unit(volume, units.positions(place), keys, image, most) {
        Ok(()) => {}
        Err(down) => {
            units.remove(place);
            return Err(down);
        }
    }
    units.remove(place);
    settle_in_files(
        volume,
        &files,
        units.earliest(),
        branch,
        Outcome::Abort,
        Ending::Abort(reason),
        has_changed,
        moment,
        entry,
    )
}
