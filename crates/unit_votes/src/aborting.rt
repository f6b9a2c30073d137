// A prepared branch is aborted.
ghost use Rattle.std.specs.Prelude.{◌≡◌, ◌≤◌, ◌<◌, ◌^◌, ℕ, true, None, IfSome, IsSome, OnOk, OnErr, ◌+◌, length};
ghost use Rattle.std.specs.List.{All};
ghost use Rattle.vms_model.specs.Limits.{branch_limit};
ghost use Rattle.vms_model.specs.Blocks.{log_start};
ghost use Rattle.careful_write.specs.Down.{Counts};
ghost use Rattle.careful_write.specs.State.{IsIdle};
ghost use Rattle.unit_entries.specs.log_laws.Slots.{forgotten};
ghost use Rattle.unit_aborts.specs.Aborting.{HasRoom, ImagesHaveRoom, MayAbort};
ghost use Rattle.unit_journal.specs.Groups.{Grows, GrowsOnce};
ghost use Rattle.unit_table.specs.Units.{unit_at, without_place};
ghost use Rattle.vms_base.specs.Ids.{serial_of};
ghost use Rattle.volume.specs.State.{Holds};
ghost use Rattle.kept_files.specs.Keeping.{StandBehind};
ghost use Rattle.unit_votes.specs.Logging.{HasLog};
ghost use Rattle.unit_votes.specs.Voting.{AbortsLogged, BreaksOffLogged};

use crate::logging::set_record;
use block_disk::Disk;
use careful_write::Down;
use journal_format::EntryBuf;
use journal_store::one_entry_more;
use kept_files::{files_kept, settle_in_files};
use lmcp_log::{Log, log_is_as_it_was_left};
use unit_aborts::{keys_beside, undo_unit};
use unit_entries::ChangedKeys;
use unit_table::{Branch, UnitTable};
use vms_base::{Moment, Outcome, Reason, Record};
use volume::Volume;
use volume_format::Ending;

/// Aborts the prepared unit at a place, of this branch: what it changed is set back, in as many groups as that takes, and the last of them settles it and frees
/// its slot in the log. It is no more, on Down too.
pub fn abort_logged<D: Disk>(
    volume: &mut Volume<D>,
    log: &mut Log,
    units: &mut UnitTable,
    place: u8,
    branch: &Branch,
    reason: Reason,
    moment: Moment,
    keys: &mut ChangedKeys,
    image: &mut Record,
    entry: &mut EntryBuf,
) -> Result<(), Down>
    requires place { place < branch_limit }
    requires unit { IsSome (unit_at units.old.places place) }
    requires may { MayAbort volume.old }
    requires low { IfSome (unit_at units.old.places place) (λ u. All (λ p. p ≤ 2 ^ 62) u.positions) }
    requires room { IfSome (unit_at units.old.places place) (λ u. HasRoom u.positions volume.old) }
    requires rooms { IfSome (unit_at units.old.places place) (λ u. ImagesHaveRoom u.positions u.files volume.old) }
    requires beside { IfSome (unit_at units.old.places place) (λ u. StandBehind u.files (log_start + length log.old) volume.old.catalog.heads) }
    requires before { log_start + length log.old ≤ volume.old.catalog.ru.start }
    ensures units { units.new ≡ without_place place units.old }
    ensures slots { OnOk result (log.new ≡ forgotten (serial_of branch.now.serial) log.old) }
    ensures aborts { OnOk result (IfSome (unit_at units.old.places place) (λ u. AbortsLogged (record { positions = u.positions; files = u.files; tid = branch.now.tid; serial = branch.now.serial; reason = reason; moment = moment.0; left = units.new.places }) log.old log.new volume.old volume.new)) }
    ensures idle { OnOk result (IsIdle volume.new.store) }
    ensures holds { OnOk result (Holds volume.new) }
    ensures breaks { OnErr result (IfSome (unit_at units.old.places place) (λ u. BreaksOffLogged (record { positions = u.positions; files = u.files; tid = branch.now.tid; serial = branch.now.serial; reason = reason; moment = moment.0; left = units.new.places }) log.old log.new volume.old volume.new)) }
    ensures grows { Grows 0 moment.0 volume.old volume.new }
    ensures once { GrowsOnce moment.0 volume.old volume.new }
    ensures counts { Counts result volume.old.store.disk volume.new.store.disk }
    ensures pool { volume.new.store.pool ≡ volume.old.store.pool }
{
    one_entry_more();
    log_is_as_it_was_left();
    let has_changed = !units.positions(place).is_empty();
    let files = *units.files(place);
    let most = keys_beside(files_kept(volume, &files));
    match undo_unit(volume, units.positions(place), keys, image, most) {
        Ok(()) => {}
        Err(down) => {
            units.remove(place);
            return Err(down);
        }
    }
    units.remove(place);
    set_record(volume, log, branch.serial, None);
    settle_in_files(
        volume,
        &files,
        units.earliest(),
        branch,
        Outcome::Abort,
        Ending::Abort(reason),
        has_changed,
        moment,
        entry,
    )
}
