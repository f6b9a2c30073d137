// Units that a fall left are aborted.
ghost use Rattle.std.specs.Prelude.{◌≡◌, ◌≤◌, ◌<◌, ◌+◌, ◌-◌, ◌*◌, ◌++◌, ◌∷◌, [], true, false, ℕ, Some, None, OnOk, OnErr, IfOk, IfSome, length, map, vec_capacity};
ghost use Rattle.vms_model.specs.Limits.{branch_limit};
ghost use Rattle.careful_write.specs.Down.{Counts};
ghost use Rattle.careful_write.specs.State.{IsReady};
ghost use Rattle.unit_journal.specs.journal_store.Rings.{IsRing};
ghost use Rattle.image_room.specs.Room.{AllSettlementsFit};
ghost use Rattle.unit_journal.specs.Groups.{LeavesOld};
ghost use Rattle.journal_format.specs.journal_model.Ring.{ring_size};
ghost use Rattle.unit_entries.specs.tm_types.Parts.{log_record_of};
ghost use Rattle.unit_entries.specs.Opening.{AreAlike, AreFiledIn, AscendWithin, BeginWithin};
ghost use Rattle.unit_entries.specs.Voting.{IsVoted};
ghost use Rattle.unit_table.specs.Units.{IsFirst, OpenUnit, begun, first_that, is_active, without_first};
ghost use Rattle.volume.specs.State.{SameVolume};
ghost use Rattle.unit_aborts.specs.Reopening.{AreFoundIn, AreUnits, BreaksOne, IsOutOfOrder, MayReopen, MayTake, Reopens, ReopensNot, UndoesUnit};
ghost use Rattle.unit_aborts.specs.Growing.{AreTold, GrowsBy};
ghost use Rattle.unit_aborts.specs.Aborting.{MayAbort};

use crate::aborting::abort_unit;
use block_disk::Disk;
use careful_write::{Down, one_content};
use image_room::images_fit;
use journal_format::EntryBuf;
use ru_journal::RuState;
use unit_entries::{ChangedKeys, read_journal};
use unit_journal::next_moment;
use unit_table::UnitTable;
use vms_base::{LogRec, Moment, Reason, Record, Serial, Tid};
use volume::Volume;

/// A unit that a restart aborted at this moment.
#[derive(Clone, Copy, Debug, Drop)]
pub struct AbortedUnit {
    pub tid: Tid,
    pub serial: Serial,
    pub moment: Moment,
}

// Aborts the unit at a place, which is the first that is not prepared, and tells its settlement. It is no more, on Down too.
fn abort_next<D: Disk>(
    volume: &mut Volume<D>,
    units: &mut UnitTable,
    place: u8,
    clock: Moment,
    keys: &mut ChangedKeys,
    image: &mut Record,
    entry: &mut EntryBuf,
    out: &mut Vec<AbortedUnit>,
) -> Result<(), Down>
    requires place { place < branch_limit }
    requires next { IsFirst is_active units.old place }
    requires may { (start : ℕ) × MayTake start (begun units.old) clock.0 volume.old }
    requires places { length out.old.items < vec_capacity out.old }
    ensures less { begun units.new ≡ without_first is_active (begun units.old) }
    ensures undoes { OnOk result ((u : OpenUnit) → first_that is_active (begun units.old) ≡ Some u → UndoesUnit clock.0 u (begun units.new) volume.old volume.new out.old.items out.new.items) }
    ensures may { OnOk result ((start : ℕ) → MayTake start (begun units.old) clock.0 volume.old → MayTake start (begun units.new) clock.0 volume.new) }
    ensures breaks { OnErr result ((u : OpenUnit) → first_that is_active (begun units.old) ≡ Some u → BreaksOne clock.0 u (begun units.new) volume.old volume.new) }
    ensures same { OnErr result (out.new.items ≡ out.old.items) }
    ensures places { vec_capacity out.old ≤ vec_capacity out.new }
    ensures more { length out.new.items ≤ length out.old.items + 1 }
    ensures grows { GrowsBy 1 clock.0 volume.old volume.new }
    ensures told { AreTold volume.old out.old.items → AreTold volume.new out.new.items }
    ensures heads { OnOk result (length volume.new.catalog.heads ≡ length volume.old.catalog.heads) }
    ensures counts { Counts result volume.old.store.disk volume.new.store.disk }
    ensures pool { volume.new.store.pool ≡ volume.old.store.pool }
{
    units.stand_in_order();
    let Some(branch) = units.branch(place) else {
        unreachable!()
    };
    let moment = next_moment(clock, volume.home());
    match abort_unit(
        volume,
        units,
        place,
        &branch,
        Reason::SegFail,
        moment,
        keys,
        image,
        entry,
    ) {
        Err(down) => return Err(down),
        Ok(()) => {}
    }
    out.push_reserved(AbortedUnit {
        tid: branch.tid,
        serial: branch.serial,
        moment,
    });
    Ok(())
}

// Reads which units are unsettled in the journal, and puts them into the table, and the records of its Prepared entries behind others. False where it
// is not in order.
fn read_units<D: Disk>(
    volume: &mut Volume<D>,
    state: &mut RuState,
    units: &mut UnitTable,
    rest: &mut Vec<LogRec>,
    voted: &mut Vec<LogRec>,
    image: &mut Record,
) -> Result<bool, Down>
    requires ready { IsReady volume.old.store }
    requires ring { IsRing volume.old.catalog.ru volume.old.store.disk }
    requires room { length voted.old.items + length rest.old.items ≤ vec_capacity voted.old }
    ensures units { IfOk result (λ whole. whole ≡ true → AreUnits state.new.units volume.old) }
    ensures broken { IfOk result (λ whole. whole ≡ false → IsOutOfOrder volume.old) }
    ensures alike { IfOk result (λ whole. whole ≡ true → AreAlike state.new.units (begun units.new)) }
    ensures found { IfOk result (λ whole. whole ≡ true → AreFoundIn volume.old (begun units.new)) }
    ensures files { IfOk result (λ whole. whole ≡ true → AreFiledIn volume.old (begun units.new)) }
    ensures within { IfOk result (λ whole. whole ≡ true → BeginWithin volume.old.catalog.ru (begun units.new)) }
    ensures ascends { IfOk result (λ whole. whole ≡ true → AscendWithin volume.old.catalog.ru.first volume.old.catalog.ru.end (begun units.new)) }
    ensures voted { OnOk result (IsVoted volume.old.store.current volume.old.catalog.ru (map log_record_of rest.old.items) (map log_record_of rest.new.items) (map log_record_of voted.old.items) (map log_record_of voted.new.items)) }
    ensures count { length voted.new.items + length rest.new.items ≡ length voted.old.items + length rest.old.items }
    ensures voted_room { vec_capacity voted.old ≤ vec_capacity voted.new }
    ensures left { vec_capacity rest.old ≤ vec_capacity rest.new }
    ensures same { OnOk result (SameVolume volume.old volume.new) }
    ensures down { OnErr result (LeavesOld volume.old volume.new.store.disk) }
    ensures kept { volume.new.catalog ≡ volume.old.catalog }
    ensures counts { Counts result volume.old.store.disk volume.new.store.disk }
    ensures pool { volume.new.store.pool ≡ volume.old.store.pool }
{
    one_content();
    let span = *volume.ru();
    match read_journal(volume.store(), &span, state, units, rest, voted, image) {
        Ok(whole) => Ok(whole),
        Err(down) => Err(down),
    }
}

// Whether the journal has room for the settlements of so many units.
fn has_room<D: Disk>(volume: &Volume<D>, count: usize) -> bool
    requires ring { IsRing volume.now.catalog.ru volume.now.store.disk }
    requires few { count ≤ branch_limit }
    ensures yes { result ≡ true → volume.now.catalog.ru.end - volume.now.catalog.ru.first + 48 * count ≤ ring_size volume.now.catalog.ru }
    ensures no { result ≡ false → ring_size volume.now.catalog.ru < volume.now.catalog.ru.end - volume.now.catalog.ru.first + 48 * count }
{
    let ru = volume.ru();
    ru.end - ru.first + 48 * count as u64 <= 512 * u64::from(ru.blocks)
}

/// Aborts the units that a fall left in the journal, in the order of their first entries, and tells their settlements, also after Down. Nothing is
/// done where the journal is not in order, or it or a file's journal of images has not the room that the settlements take; then the table is
/// without units. Prepared units stay, in the journal and in the table, which has those of the journal in place of those that it had. Of a log's
/// prepared records those with a Prepared entry move behind others, in the order of the entries.
pub fn reopen_units<D: Disk>(
    volume: &mut Volume<D>,
    clock: Moment,
    state: &mut RuState,
    units: &mut UnitTable,
    rest: &mut Vec<LogRec>,
    voted: &mut Vec<LogRec>,
    keys: &mut ChangedKeys,
    image: &mut Record,
    entry: &mut EntryBuf,
    out: &mut Vec<AbortedUnit>,
) -> Result<(), Down>
    requires may { MayReopen clock.0 volume.old }
    requires places { branch_limit ≤ vec_capacity out.old }
    requires voted { length voted.old.items + length rest.old.items ≤ vec_capacity voted.old }
    ensures reopens { OnOk result (Reopens clock.0 volume.old volume.new out.new.items (begun units.new)) }
    ensures may { OnOk result (MayAbort volume.new) }
    ensures room { OnOk result (volume.new.catalog.ru.end - volume.new.catalog.ru.first + 48 * length (begun units.new) ≤ ring_size volume.new.catalog.ru) }
    ensures images { OnOk result (AllSettlementsFit (map Some (begun units.new)) volume.new.catalog.heads) }
    ensures ascends { OnOk result (AscendWithin volume.new.catalog.ru.first volume.new.catalog.ru.end (begun units.new)) }
    ensures fails { OnErr result (ReopensNot clock.0 volume.old volume.new out.new.items) }
    ensures grows { GrowsBy branch_limit clock.0 volume.old volume.new }
    ensures told { AreTold volume.new out.new.items }
    ensures heads { OnOk result (length volume.new.catalog.heads ≡ length volume.old.catalog.heads) }
    ensures places { branch_limit ≤ vec_capacity out.new }
    ensures few { length out.new.items ≤ branch_limit }
    ensures voted { OnOk result (IsVoted volume.old.store.current volume.old.catalog.ru (map log_record_of rest.old.items) (map log_record_of rest.new.items) (map log_record_of voted.old.items) (map log_record_of voted.new.items)) }
    ensures count { length voted.new.items + length rest.new.items ≡ length voted.old.items + length rest.old.items }
    ensures voted_room { vec_capacity voted.old ≤ vec_capacity voted.new }
    ensures left { vec_capacity rest.old ≤ vec_capacity rest.new }
    ensures counts { Counts result volume.old.store.disk volume.new.store.disk }
    ensures pool { volume.new.store.pool ≡ volume.old.store.pool }
{
    out.clear();
    match read_units(volume, state, units, rest, voted, image) {
        Err(down) => return Err(down),
        Ok(false) => {
            units.clear();
            return Ok(());
        }
        Ok(true) => {}
    }
    if !has_room(volume, state.units().len()) {
        units.clear();
        return Ok(());
    }
    units.stand_in_order();
    if !images_fit(volume, units) {
        units.clear();
        return Ok(());
    }
    while let Some(place) = units.first_active() {
        match abort_next(volume, units, place, clock, keys, image, entry, out) {
            Err(down) => return Err(down),
            Ok(()) => {}
        }
    }
    Ok(())
}
