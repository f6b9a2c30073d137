//! The recovery units of one volume.
ghost use Rattle.std.specs.Prelude.{◌≡◌, ◌≤◌, ◌<◌, ◌+◌, ◌-◌, ◌==◌, ◌⊎◌, ◌∷◌, [], ℕ, true, false, not, List, None, Some, IfOk, IfErr, IfSome, OnOk, OnErr, IsErr, IsSome, length, max, option_copied, option_map};
ghost use Rattle.std.specs.Option.{option_and_then};
ghost use Rattle.vms_model.specs.Limits.{branch_limit, file_limit, moment_ceiling};
ghost use Rattle.vms_model.specs.Blocks.{log_start};
ghost use Rattle.file_base.specs.declared.head.FileHead.{FileHead as HeadSaid};
ghost use Rattle.careful_write.specs.Down.{Counts};
ghost use Rattle.lmcp_log.specs.Log.{slot_of, with_few_prepared};
ghost use Rattle.unit_entries.specs.log_laws.Slots.{has_free, has_slot};
ghost use Rattle.unit_table.specs.Places.{AreInOrder};
ghost use Rattle.unit_votes.specs.Logging.{HasLog, MayHave};
ghost use Rattle.unit_table.specs.Units.{OpenUnit, begun, first_to_change};
ghost use Rattle.vms_base.specs.Ids.{serial_of, tid_of};
ghost use Rattle.vms_model.specs.Ids.{IsId};
ghost use Rattle.vms_base.specs.Keys.{key_of};
ghost use Rattle.vms_base.specs.declared.outcomes.Outcome.TheVariants as outcome;
ghost use Rattle.volume.specs.Catalogs.{head_at};
ghost use Rattle.record_operations.specs.Asking.{file_in, read_file_in};
ghost use Rattle.unit_restarts.specs.unit_aborts.Growing.{AreTold};
ghost use Rattle.volume.specs.State.{SameVolume};
ghost use Rattle.rms_units.specs.Aborting.{AbortsNot, AbortsUnit};
ghost use Rattle.rms_units.specs.Calls.{ChangesErr, ChangesKey, ChangesKeyErr, ChangesOk, Commits, CommitsNot, DirectsErr, DirectsKey, DirectsKeyErr, DirectsOk, LooksErr, LooksOk, ReadsErr, ReadsFew, ReadsOk};
ghost use Rattle.key_changes.specs.Keys.{position_by};
ghost use Rattle.key_changes.specs.Changing.{IsFormed};
ghost use Rattle.record_operations.specs.Causes.{IfRefused, down_in};
ghost use Rattle.unit_journal.specs.Groups.{Caused, DiskAdvances, Grows};
ghost use Rattle.unit_journal.specs.Settling.{next_moment as next_said};
ghost use Rattle.rms_units.specs.Truncating.{ChangesCut, ChangesCutErr, DirectsCut, DirectsCutErr};
ghost use Rattle.file_base.specs.declared.head.Organization.TheVariants as organization;
ghost use Rattle.unit_restarts.specs.Restarting.{Restarts, RestartsNot};
ghost use Rattle.rms_units.specs.State.{ImagesGrow, IsEarly, IsInOrder, nothing_begun, unit_of, with_begun, without_place};
ghost use Rattle.rms_units.specs.Voting.{AbortsPrepared, AbortsPreparedNot, CommitsLogged, CommitsLoggedNot, IfYes, Votes, VotesNot, is_yes, votes_yes};

use crate::aborting::abort_branch;
use crate::directly::{make_directly, refuse_directly};
use crate::one_key::{make_key, refuse_key};
use crate::reading::find;
use crate::tokens::{ActiveUnit, BeginErr, PreparedUnit, SettledUnit, Vote};
use crate::truncating::{make_cut, refuse_cut, refuse_cut_directly};
use crate::voting::{abort_prepared, commit, vote, vote_at};
use block_disk::Disk;
use careful_write::{Down, one_content};
use file_base::FileHead;
use journal_format::EntryBuf;
use kept_files::settle_in_files;
use key_changes::{Asked, Cut, CutRoom, MOST_LOCKS, asked_by, asks_end, commit_cut, hold_key};
use lmcp_log::Log;
use record_locks::Locks;
use record_operations::{ReadOp, RecErr, RecordOp, form_refusal, read_refusal};
use std::alloc::{AllocError, Global};
use std::marker::Model;
use unit_entries::ChangedKeys;
use unit_journal::next_moment;
use unit_restarts::{RestartRoom, Restarted, restart};
use unit_table::{Branch, UnitTable};
use vms_base::{Key, LogRec, Moment, Outcome, Reason, Record, RmList, Serial, Tid, put_id};
use volume::Volume;
use volume_format::Ending;

/// The recovery units of one volume. The memory that they take is taken once.
#[derive(Drop)]
pub struct Units {
    table: UnitTable,
    locks: Locks,
    // The entry that is written, and the records that a key has before and after its change.
    entry: EntryBuf,
    found: Record,
    value: Record,
    cut: CutRoom,
    // The keys that a unit changed, where it is aborted.
    keys: ChangedKeys,
    restart: RestartRoom,
}

impl Model for Units {
    ghost use Rattle.std.specs.Prelude.{◌≡◌, ◌≤◌, length};
    ghost use Rattle.vms_model.specs.Limits.{lock_limit};
    ghost use Rattle.rms_units.specs.State.{UnitsState};

    ghost Value = { UnitsState };

    ghost view = { λ u. record { units = u.table; locks = u.locks.locks } };

    ghost invariant = { λ u. (u.locks.most ≡ lock_limit) × (length u.locks.locks ≤ lock_limit) };
}

// The head of a file that is there.
fn head_of<D: Disk>(volume: &Volume<D>, file: u8) -> FileHead
    requires { (h : HeadSaid) × (head_at volume.now.catalog.heads file ≡ Some h) }
    ensures there { head_at volume.now.catalog.heads file ≡ Some result }
    ensures whole { length volume.now.catalog.heads ≡ file_limit }
{
    let Some(head) = volume.head(file) else {
        unreachable!()
    };
    *head
}

// The position of a record that is put into a sequential file, else 0.
fn position_of(asked: &Asked) -> u32
    ensures { result ≡ position_by asked.now.head.organization asked.now.change (key_of asked.now.key) }
{
    match (asks_end(asked), asked.key) {
        (true, Key::Number(position)) => position,
        _ => 0,
    }
}

// A volume has 64 files, and of each a list tells whether it takes part.
fn tell_each_file(_files: &[bool; 64])
    ensures { length _files.now ≡ file_limit }
{}

impl Units {
    /// No unit is begun. Room for 64 units with 1,024 changes each and for 4,096 keys is taken; an error where there is no memory for it.
    pub fn reserve(alloc: Global) -> Result<Units, AllocError>
        ensures { IfOk result (λ u. u ≡ nothing_begun) }
    {
        Ok(Units {
            table: UnitTable::reserve(alloc)?,
            locks: Locks::reserve(alloc, MOST_LOCKS)?,
            entry: EntryBuf::reserve(alloc)?,
            found: Record::reserve(alloc)?,
            value: Record::reserve(alloc)?,
            cut: CutRoom::reserve(alloc)?,
            keys: ChangedKeys::reserve(alloc)?,
            restart: RestartRoom::reserve(alloc)?,
        })
    }

    /// A unit begins. Nothing is written. Quota exactly where 64 are unsettled.
    pub fn begin(&mut self, tid: Tid, serial: Serial) -> Result<ActiveUnit, BeginErr>
        ensures begun { IfOk result (λ u. self.new ≡ with_begun u (tid_of tid) (serial_of serial) self.old) }
        ensures free { IfOk result (λ u. (u < branch_limit) × (unit_of u self.old ≡ None)) }
        ensures full { IsErr result → length (begun self.old.units) ≡ branch_limit }
        ensures same { OnErr result (self.new ≡ self.old) }
    {
        match self.table.begin(tid, serial) {
            Some(place) => Ok(ActiveUnit { place }),
            None => Err(BeginErr::Quota),
        }
    }

    /// Forgets a unit, where its node goes down.
    pub fn lose_active(&mut self, unit: ActiveUnit)
        requires { IsSome (unit_of unit self.old) }
        ensures { IfSome (unit_of unit self.old) (λ u. self.new ≡ without_place unit u.serial self.old) }
    {
        let ActiveUnit { place } = unit;
        let branch = self.branch(place);
        self.table.remove(place);
        self.locks.release_all(branch.serial);
    }

    /// Forgets all units and what they hold, where their node goes down.
    pub fn forget(&mut self)
        ensures { self.new ≡ nothing_begun }
    {
        self.table.clear();
        self.locks.clear();
    }

    /// The places that have a unit are those that stand in the order, each once.
    pub fn stand_in_order(&self)
        ensures { AreInOrder self.now.units.places self.now.units.order }
    {
        self.table.stand_in_order();
    }

    /// The ids of a unit's transaction and branch can be written.
    pub fn has_ids(&self, unit: &ActiveUnit)
        requires { IsSome (unit_of unit.now self.now) }
        ensures { IfSome (unit_of unit.now self.now) (λ u. IsId u.tid × IsId u.serial) }
    {
        let branch = self.branch(unit.place);
        let mut bytes = [0; 16];
        put_id(&branch.tid.0, &mut bytes);
        put_id(&branch.serial.0, &mut bytes);
    }

    /// Whether a unit has changed something.
    pub fn has_changes(&self, unit: &ActiveUnit) -> bool
        requires { IsSome (unit_of unit.now self.now) }
        ensures { IfSome (unit_of unit.now self.now) (λ u. result ≡ not (length u.positions == 0)) }
    {
        !self.table.positions(unit.place).is_empty()
    }

    /// Whether a prepared unit changed something.
    pub fn had_changes(&self, unit: &PreparedUnit) -> bool
        requires { IsSome (unit_of unit.now self.now) }
        ensures { IfSome (unit_of unit.now self.now) (λ u. result ≡ not (length u.positions == 0)) }
    {
        !self.table.positions(unit.place).is_empty()
    }

    /// How a unit was settled.
    pub fn done(&mut self, unit: SettledUnit) -> (Tid, Serial, Outcome, Moment)
        ensures told { result ≡ (unit.tid, unit.serial, unit.outcome, unit.moment) }
        ensures same { self.new ≡ self.old }
    {
        let SettledUnit {
            tid,
            serial,
            outcome,
            moment,
        } = unit;
        (tid, serial, outcome, moment)
    }

    /// The earliest begun of the units that changed a file.
    pub fn changed_by(&self, file: u8) -> Option<Serial>
        ensures { option_map serial_of result ≡ first_to_change file (begun self.now.units) }
    {
        self.table.changed_by(file)
    }

    // The branch of the unit at a place.
    fn branch(&self, place: u8) -> Branch
        requires { IsSome (unit_of place self.now) }
        ensures { IfSome (unit_of place self.now) (λ u. (tid_of result.tid ≡ u.tid) × (serial_of result.serial ≡ u.serial)) }
    {
        let Some(branch) = self.table.branch(place) else {
            unreachable!()
        };
        branch
    }

    /// Reads a record for a unit, which holds its key from then on. Of a read of the next record, `found` is its key.
    pub fn read<D: Disk>(
        &mut self,
        unit: &mut ActiveUnit,
        volume: &mut Volume<D>,
        op: &ReadOp,
        found: &mut Key,
        out: &mut Record,
    ) -> Result<(), RecErr>
        requires unit { IsSome (unit_of unit.old self.old) }
        requires order { IsInOrder self.old volume.old }
        requires file { (h : HeadSaid) × (head_at volume.old.catalog.heads (read_file_in op.now) ≡ Some h) }
        ensures unit { unit.new ≡ unit.old }
        ensures order { OnOk result (IsInOrder self.new volume.new) }
        ensures done { OnOk result ((u : OpenUnit) (h : HeadSaid) → unit_of unit.old self.old ≡ Some u → head_at volume.old.catalog.heads (read_file_in op.now) ≡ Some h → ReadsOk u h op.now (key_of found.new) out.new self.old volume.old self.new volume.new) }
        ensures err { IfErr result (λ e. (u : OpenUnit) (h : HeadSaid) → unit_of unit.old self.old ≡ Some u → head_at volume.old.catalog.heads (read_file_in op.now) ≡ Some h → ReadsErr u h op.now e self.old volume.old self.new volume.new) }
        ensures reads { (h : HeadSaid) → head_at volume.old.catalog.heads (read_file_in op.now) ≡ Some h → ReadsFew h op.now volume.old volume.new }
        ensures grows { Grows 0 0 volume.old volume.new }
        ensures images { OnOk result (ImagesGrow volume.old volume.new) }
        ensures goes { DiskAdvances volume.old.store.disk volume.new.store.disk }
        ensures cause { IfErr result (λ e. Caused (down_in e) volume.old.store.disk volume.new.store.disk) }
        ensures pool { volume.new.store.pool ≡ volume.old.store.pool }
    {
        let head = head_of(volume, op.file());
        if let Some(refusal) = read_refusal(&head, op) {
            return Err(refusal);
        }
        if !head.marks.ru {
            return Err(RecErr::NotForUnits);
        }
        let branch = self.branch(unit.place);
        let by = Some(branch.serial);
        find(volume, &head, op, &by, &self.locks, found, out)?;
        match hold_key(&mut self.locks, op.file(), found, branch.serial) {
            Some(refusal) => return Err(refusal),
            None => {}
        }
        Ok(())
    }

    /// Reads a record for no unit. Nothing is held.
    pub fn look<D: Disk>(
        &self,
        volume: &mut Volume<D>,
        op: &ReadOp,
        found: &mut Key,
        out: &mut Record,
    ) -> Result<(), RecErr>
        requires order { IsInOrder self.now volume.old }
        requires file { (h : HeadSaid) × (head_at volume.old.catalog.heads (read_file_in op.now) ≡ Some h) }
        ensures order { OnOk result (IsInOrder self.now volume.new) }
        ensures done { OnOk result ((h : HeadSaid) → head_at volume.old.catalog.heads (read_file_in op.now) ≡ Some h → LooksOk h op.now (key_of found.new) out.new self.now volume.old volume.new) }
        ensures err { IfErr result (λ e. (h : HeadSaid) → head_at volume.old.catalog.heads (read_file_in op.now) ≡ Some h → LooksErr h op.now e self.now volume.old volume.new) }
        ensures reads { (h : HeadSaid) → head_at volume.old.catalog.heads (read_file_in op.now) ≡ Some h → ReadsFew h op.now volume.old volume.new }
        ensures grows { Grows 0 0 volume.old volume.new }
        ensures goes { DiskAdvances volume.old.store.disk volume.new.store.disk }
        ensures cause { IfErr result (λ e. Caused (down_in e) volume.old.store.disk volume.new.store.disk) }
        ensures pool { volume.new.store.pool ≡ volume.old.store.pool }
    {
        let head = head_of(volume, op.file());
        if let Some(refusal) = read_refusal(&head, op) {
            return Err(refusal);
        }
        find(volume, &head, op, &None, &self.locks, found, out)
    }

    /// Changes records for a unit: their entries and the file's buckets in one group. `bytes` is the record of a put or an update. The number is the
    /// position of a record that was put into a sequential file, else 0.
    pub fn change<D: Disk>(
        &mut self,
        unit: &mut ActiveUnit,
        volume: &mut Volume<D>,
        op: &RecordOp,
        bytes: &[u8],
    ) -> Result<u32, RecErr>
        requires unit { IsSome (unit_of unit.old self.old) }
        requires order { IsInOrder self.old volume.old }
        requires early { IsEarly volume.old }
        requires file { (h : HeadSaid) × (head_at volume.old.catalog.heads (file_in op.now) ≡ Some h) }
        ensures unit { unit.new ≡ unit.old }
        ensures order { OnOk result (IsInOrder self.new volume.new) }
        ensures done { IfOk result (λ position. (u : OpenUnit) (h : HeadSaid) → unit_of unit.old self.old ≡ Some u → head_at volume.old.catalog.heads (file_in op.now) ≡ Some h → ChangesOk unit.old u h op.now bytes.now position self.old volume.old self.new volume.new) }
        ensures err { IfErr result (λ e. (u : OpenUnit) (h : HeadSaid) → unit_of unit.old self.old ≡ Some u → head_at volume.old.catalog.heads (file_in op.now) ≡ Some h → ChangesErr u h op.now bytes.now e self.old volume.old self.new volume.new) }
        ensures grows { Grows 0 0 volume.old volume.new }
        ensures images { OnOk result (ImagesGrow volume.old volume.new) }
        ensures goes { DiskAdvances volume.old.store.disk volume.new.store.disk }
        ensures cause { IfErr result (λ e. Caused (down_in e) volume.old.store.disk volume.new.store.disk) }
        ensures pool { volume.new.store.pool ≡ volume.old.store.pool }
    {
        let head = head_of(volume, op.file());
        let value = op.written(bytes);
        if let Some(refusal) = form_refusal(&head, op, value.len()) {
            return Err(refusal);
        }
        if !head.marks.ru {
            return Err(RecErr::NotForUnits);
        }
        if let RecordOp::Truncate { file, from } = op {
            let cut = Cut {
                file: *file,
                head,
                from: *from,
            };
            return self.truncate(unit.place, volume, &cut);
        }
        let asked = asked_by(op, &head, value);
        self.change_key(unit.place, volume, &asked, value)
    }

    // Changes one key for a unit.
    fn change_key<D: Disk>(
        &mut self,
        place: u8,
        volume: &mut Volume<D>,
        asked: &Asked,
        value: &[u8],
    ) -> Result<u32, RecErr>
        requires place { place < branch_limit }
        requires unit { IsSome (unit_of place self.old) }
        requires order { IsInOrder self.old volume.old }
        requires early { IsEarly volume.old }
        requires head { head_at volume.old.catalog.heads asked.now.file ≡ Some asked.now.head }
        requires formed { IsFormed asked.now value.now }
        ensures order { OnOk result (IsInOrder self.new volume.new) }
        ensures done { OnOk result ((u : OpenUnit) → unit_of place self.old ≡ Some u → ChangesKey place u asked.now.file asked.now.head asked.now.change (key_of asked.now.key) value.now self.old volume.old self.new volume.new) }
        ensures position { IfOk result (λ position. position ≡ position_by asked.now.head.organization asked.now.change (key_of asked.now.key)) }
        ensures err { IfErr result (λ e. (u : OpenUnit) → unit_of place self.old ≡ Some u → ChangesKeyErr u asked.now.file asked.now.head asked.now.change (key_of asked.now.key) value.now e self.old volume.old self.new volume.new) }
        ensures grows { Grows 0 0 volume.old volume.new }
        ensures images { OnOk result (ImagesGrow volume.old volume.new) }
        ensures goes { DiskAdvances volume.old.store.disk volume.new.store.disk }
        ensures cause { IfErr result (λ e. Caused (down_in e) volume.old.store.disk volume.new.store.disk) }
        ensures pool { volume.new.store.pool ≡ volume.old.store.pool }
    {
        one_content();
        let branch = self.branch(place);
        let from = match refuse_key(
            volume,
            &self.table,
            &self.locks,
            place,
            branch.serial,
            asked,
            value,
            &mut self.found,
        ) {
            Err(e) => return Err(e),
            Ok(from) => from,
        };
        self.value.set(value);
        match make_key(
            volume,
            &mut self.table,
            &mut self.locks,
            place,
            &branch,
            asked,
            &self.found,
            &self.value,
            from,
            &mut self.entry,
        ) {
            Err(down) => return Err(RecErr::Down(down)),
            Ok(()) => {}
        }
        Ok(position_of(asked))
    }

    // Truncates a file for a unit.
    fn truncate<D: Disk>(
        &mut self,
        place: u8,
        volume: &mut Volume<D>,
        cut: &Cut,
    ) -> Result<u32, RecErr>
        requires place { place < branch_limit }
        requires unit { IsSome (unit_of place self.old) }
        requires order { IsInOrder self.old volume.old }
        requires early { IsEarly volume.old }
        requires head { head_at volume.old.catalog.heads cut.now.file ≡ Some cut.now.head }
        requires sequential { cut.now.head.organization ≡ organization.Sequential }
        ensures order { OnOk result (IsInOrder self.new volume.new) }
        ensures done { OnOk result ((u : OpenUnit) → unit_of place self.old ≡ Some u → ChangesCut place u cut.now.file cut.now.head cut.now.from self.old volume.old self.new volume.new) }
        ensures position { IfOk result (λ position. position ≡ 0) }
        ensures err { IfErr result (λ e. (u : OpenUnit) → unit_of place self.old ≡ Some u → ChangesCutErr u cut.now.file cut.now.head cut.now.from e self.old volume.old self.new volume.new) }
        ensures refused { IfErr result (λ e. IfRefused e (λ _. SameVolume volume.old volume.new) (λ _. Unit {0})) }
        ensures grows { Grows 0 0 volume.old volume.new }
        ensures images { OnOk result (ImagesGrow volume.old volume.new) }
        ensures goes { DiskAdvances volume.old.store.disk volume.new.store.disk }
        ensures cause { IfErr result (λ e. Caused (down_in e) volume.old.store.disk volume.new.store.disk) }
        ensures pool { volume.new.store.pool ≡ volume.old.store.pool }
    {
        one_content();
        let branch = self.branch(place);
        let size = match refuse_cut(
            volume,
            &self.table,
            &self.locks,
            place,
            &branch.serial,
            cut,
            &mut self.found,
            &mut self.cut,
        ) {
            Err(e) => return Err(e),
            Ok(size) => size,
        };
        match make_cut(
            volume,
            &mut self.table,
            &mut self.locks,
            place,
            &branch,
            cut,
            size,
            &mut self.found,
            &mut self.entry,
            &mut self.cut,
        ) {
            Err(down) => Err(RecErr::Down(down)),
            Ok(()) => Ok(0),
        }
    }

    /// Changes records for no unit, and commits that in the same group, as the transaction and branch of this id. The number is the position of a record
    /// that was put into a sequential file, else 0, and the moment that of the commitment.
    pub fn direct<D: Disk>(
        &mut self,
        volume: &mut Volume<D>,
        tid: Tid,
        clock: Moment,
        op: &RecordOp,
        bytes: &[u8],
    ) -> Result<(u32, Moment), RecErr>
        requires order { IsInOrder self.old volume.old }
        requires early { IsEarly volume.old }
        requires clock { clock.0 < moment_ceiling }
        requires file { (h : HeadSaid) × (head_at volume.old.catalog.heads (file_in op.now) ≡ Some h) }
        ensures same { self.new ≡ self.old }
        ensures order { OnOk result (IsInOrder self.new volume.new) }
        ensures moment { IfOk result (λ told. told.1.0 ≡ next_said clock.0 volume.old.catalog.home) }
        ensures done { IfOk result (λ told. (h : HeadSaid) → head_at volume.old.catalog.heads (file_in op.now) ≡ Some h → DirectsOk tid clock.0 h op.now bytes.now told.0 self.old volume.old volume.new) }
        ensures err { IfErr result (λ e. (h : HeadSaid) → head_at volume.old.catalog.heads (file_in op.now) ≡ Some h → DirectsErr tid clock.0 h op.now bytes.now e self.old volume.old volume.new) }
        ensures grows { Grows 1 clock.0 volume.old volume.new }
        ensures images { OnOk result (ImagesGrow volume.old volume.new) }
        ensures goes { DiskAdvances volume.old.store.disk volume.new.store.disk }
        ensures cause { IfErr result (λ e. Caused (down_in e) volume.old.store.disk volume.new.store.disk) }
        ensures pool { volume.new.store.pool ≡ volume.old.store.pool }
    {
        let head = head_of(volume, op.file());
        let value = op.written(bytes);
        if let Some(refusal) = form_refusal(&head, op, value.len()) {
            return Err(refusal);
        }
        if head.marks.ru {
            return Err(RecErr::NeedsUnit);
        }
        if let RecordOp::Truncate { file, from } = op {
            let cut = Cut {
                file: *file,
                head,
                from: *from,
            };
            return self.truncate_directly(volume, tid, clock, &cut);
        }
        let asked = asked_by(op, &head, value);
        self.direct_key(volume, tid, clock, &asked, value)
    }

    // Changes one key for no unit.
    fn direct_key<D: Disk>(
        &mut self,
        volume: &mut Volume<D>,
        tid: Tid,
        clock: Moment,
        asked: &Asked,
        value: &[u8],
    ) -> Result<(u32, Moment), RecErr>
        requires order { IsInOrder self.old volume.old }
        requires early { IsEarly volume.old }
        requires clock { clock.0 < moment_ceiling }
        requires head { head_at volume.old.catalog.heads asked.now.file ≡ Some asked.now.head }
        requires formed { IsFormed asked.now value.now }
        ensures same { self.new ≡ self.old }
        ensures order { OnOk result (IsInOrder self.new volume.new) }
        ensures moment { IfOk result (λ told. told.1.0 ≡ next_said clock.0 volume.old.catalog.home) }
        ensures done { OnOk result (DirectsKey tid clock.0 asked.now.file asked.now.head asked.now.change (key_of asked.now.key) value.now self.old volume.old volume.new) }
        ensures position { IfOk result (λ told. told.0 ≡ position_by asked.now.head.organization asked.now.change (key_of asked.now.key)) }
        ensures err { IfErr result (λ e. DirectsKeyErr tid clock.0 asked.now.file asked.now.head asked.now.change (key_of asked.now.key) value.now e self.old volume.old volume.new) }
        ensures grows { Grows 1 clock.0 volume.old volume.new }
        ensures images { OnOk result (ImagesGrow volume.old volume.new) }
        ensures goes { DiskAdvances volume.old.store.disk volume.new.store.disk }
        ensures cause { IfErr result (λ e. Caused (down_in e) volume.old.store.disk volume.new.store.disk) }
        ensures pool { volume.new.store.pool ≡ volume.old.store.pool }
    {
        one_content();
        let from = match refuse_directly(
            volume,
            &self.table,
            &self.locks,
            asked,
            value,
            &mut self.found,
        ) {
            Err(e) => return Err(e),
            Ok(from) => from,
        };
        self.value.set(value);
        let moment = next_moment(clock, volume.home());
        match make_directly(
            volume,
            &self.table,
            &self.locks,
            asked,
            &self.found,
            &self.value,
            from,
            tid,
            moment,
            &mut self.entry,
        ) {
            Err(down) => return Err(RecErr::Down(down)),
            Ok(()) => {}
        }
        Ok((position_of(asked), moment))
    }

    // Truncates a file for no unit.
    fn truncate_directly<D: Disk>(
        &mut self,
        volume: &mut Volume<D>,
        tid: Tid,
        clock: Moment,
        cut: &Cut,
    ) -> Result<(u32, Moment), RecErr>
        requires order { IsInOrder self.old volume.old }
        requires early { IsEarly volume.old }
        requires clock { clock.0 < moment_ceiling }
        requires head { head_at volume.old.catalog.heads cut.now.file ≡ Some cut.now.head }
        requires sequential { cut.now.head.organization ≡ organization.Sequential }
        ensures same { self.new ≡ self.old }
        ensures order { OnOk result (IsInOrder self.new volume.new) }
        ensures moment { IfOk result (λ told. told.1.0 ≡ next_said clock.0 volume.old.catalog.home) }
        ensures done { OnOk result (DirectsCut tid clock.0 cut.now.file cut.now.head cut.now.from self.old volume.old volume.new) }
        ensures position { IfOk result (λ told. told.0 ≡ 0) }
        ensures err { IfErr result (λ e. DirectsCutErr tid clock.0 cut.now.file cut.now.head cut.now.from e self.old volume.old volume.new) }
        ensures grows { Grows 1 clock.0 volume.old volume.new }
        ensures images { OnOk result (ImagesGrow volume.old volume.new) }
        ensures goes { DiskAdvances volume.old.store.disk volume.new.store.disk }
        ensures cause { IfErr result (λ e. Caused (down_in e) volume.old.store.disk volume.new.store.disk) }
        ensures pool { volume.new.store.pool ≡ volume.old.store.pool }
    {
        one_content();
        let size = match refuse_cut_directly(
            volume,
            &self.table,
            &self.locks,
            cut,
            &mut self.found,
            &mut self.cut,
        ) {
            Err(e) => return Err(e),
            Ok(size) => size,
        };
        let moment = next_moment(clock, volume.home());
        match commit_cut(
            volume,
            &self.table,
            cut,
            size,
            tid,
            moment,
            &mut self.found,
            &mut self.entry,
            &mut self.cut,
        ) {
            Err(down) => Err(RecErr::Down(down)),
            Ok(()) => Ok((0, moment)),
        }
    }

    /// Commits a unit: the entry of its settlement, where it changed something, and the home block in one group. On Down it is spent as well.
    pub fn one_phase<D: Disk>(
        &mut self,
        unit: ActiveUnit,
        volume: &mut Volume<D>,
        clock: Moment,
    ) -> Result<SettledUnit, Down>
        requires unit { IsSome (unit_of unit self.old) }
        requires order { IsInOrder self.old volume.old }
        requires early { IsEarly volume.old }
        requires clock { clock.0 < moment_ceiling }
        ensures order { OnOk result (IsInOrder self.new volume.new) }
        ensures done { IfOk result (λ told. (u : OpenUnit) → unit_of unit self.old ≡ Some u → Commits unit u told.tid told.serial clock.0 told.moment.0 self.old volume.old self.new volume.new) }
        ensures commits { IfOk result (λ told. told.outcome ≡ outcome.Commit) }
        ensures err { OnErr result ((u : OpenUnit) → unit_of unit self.old ≡ Some u → CommitsNot unit u clock.0 self.old volume.old self.new volume.new) }
        ensures grows { Grows 1 clock.0 volume.old volume.new }
        ensures images { OnOk result (ImagesGrow volume.old volume.new) }
        ensures goes { DiskAdvances volume.old.store.disk volume.new.store.disk }
        ensures cause { IfErr result (λ down. Caused (Some down) volume.old.store.disk volume.new.store.disk) }
        ensures pool { volume.new.store.pool ≡ volume.old.store.pool }
    {
        let ActiveUnit { place } = unit;
        let branch = self.branch(place);
        let has_changed = !self.table.positions(place).is_empty();
        let files = *self.table.files(place);
        tell_each_file(&files);
        self.table.remove(place);
        self.locks.release_all(branch.serial);
        let moment = next_moment(clock, volume.home());
        settle_in_files(
            volume,
            &files,
            self.table.earliest(),
            &branch,
            Outcome::Commit,
            Ending::Commit,
            has_changed,
            moment,
            &mut self.entry,
        )?;
        Ok(SettledUnit {
            tid: branch.tid,
            serial: branch.serial,
            outcome: Outcome::Commit,
            moment,
        })
    }

    /// Aborts a unit: what it changed is set back, in as many groups as that takes, and the last of them settles it. On Down it is spent as well.
    pub fn abort<D: Disk>(
        &mut self,
        unit: ActiveUnit,
        volume: &mut Volume<D>,
        reason: Reason,
        clock: Moment,
    ) -> Result<SettledUnit, Down>
        requires unit { IsSome (unit_of unit self.old) }
        requires order { IsInOrder self.old volume.old }
        requires early { IsEarly volume.old }
        requires clock { clock.0 < moment_ceiling }
        ensures order { OnOk result (IsInOrder self.new volume.new) }
        ensures done { IfOk result (λ told. (u : OpenUnit) → unit_of unit self.old ≡ Some u → AbortsUnit unit u told.tid told.serial reason clock.0 told.moment.0 self.old volume.old self.new volume.new) }
        ensures aborts { IfOk result (λ told. told.outcome ≡ outcome.Abort) }
        ensures err { OnErr result ((u : OpenUnit) → unit_of unit self.old ≡ Some u → AbortsNot unit u reason clock.0 self.old volume.old self.new volume.new) }
        ensures grows { Grows 1 clock.0 volume.old volume.new }
        ensures images { OnOk result (ImagesGrow volume.old volume.new) }
        ensures goes { DiskAdvances volume.old.store.disk volume.new.store.disk }
        ensures cause { IfErr result (λ down. Caused (Some down) volume.old.store.disk volume.new.store.disk) }
        ensures pool { volume.new.store.pool ≡ volume.old.store.pool }
    {
        let ActiveUnit { place } = unit;
        let branch = self.branch(place);
        let moment = match abort_branch(
            volume,
            &mut self.table,
            &mut self.locks,
            place,
            &branch,
            reason,
            clock,
            &mut self.keys,
            &mut self.found,
            &mut self.entry,
        ) {
            Err(down) => return Err(down),
            Ok(moment) => moment,
        };
        Ok(SettledUnit {
            tid: branch.tid,
            serial: branch.serial,
            outcome: Outcome::Abort,
            moment,
        })
    }

    /// A unit votes. It is read only exactly where it changed nothing and no manager is to be told its outcome; then it is no more, and what it held
    /// is free. Else its Prepared entry, where it changed something, and its record are written in one group, and it keeps what it holds. On Down it
    /// is spent as well.
    pub fn prepare<D: Disk>(
        &mut self,
        unit: ActiveUnit,
        volume: &mut Volume<D>,
        log: &mut Log,
        rms: &RmList,
    ) -> Result<Vote, Down>
        requires unit { IsSome (unit_of unit self.old) }
        requires active { IfSome (unit_of unit self.old) (λ u. u.prepared ≡ false) }
        requires slot { IfSome (unit_of unit self.old) (λ u. votes_yes u.positions rms.now ≡ true → (has_slot u.serial log.old ≡ true) ⊎ (has_free log.old ≡ true)) }
        requires order { IsInOrder self.old volume.old }
        requires early { IsEarly volume.old }
        requires before { log_start + length log.old ≤ volume.old.catalog.ru.start }
        ensures order { OnOk result (IsInOrder self.new volume.new) }
        ensures log { OnOk result (HasLog log.old volume.old → HasLog log.new volume.new) }
        ensures place { IfOk result (λ vote. IfYes vote (λ place. place ≡ unit)) }
        ensures votes { IfOk result (λ vote. (u : OpenUnit) → unit_of unit self.old ≡ Some u → Votes (is_yes vote) unit u rms.now self.old log.old volume.old self.new log.new volume.new) }
        ensures err { OnErr result ((u : OpenUnit) → unit_of unit self.old ≡ Some u → VotesNot unit u rms.now self.old log.old volume.old self.new log.new volume.new) }
        ensures grows { Grows 0 0 volume.old volume.new }
        ensures images { OnOk result (ImagesGrow volume.old volume.new) }
        ensures goes { DiskAdvances volume.old.store.disk volume.new.store.disk }
        ensures cause { IfErr result (λ down. Caused (Some down) volume.old.store.disk volume.new.store.disk) }
        ensures pool { volume.new.store.pool ≡ volume.old.store.pool }
    {
        let ActiveUnit { place } = unit;
        let branch = self.branch(place);
        let yes = match vote(
            volume,
            log,
            &mut self.table,
            &mut self.locks,
            place,
            &branch,
            rms,
            &mut self.entry,
        ) {
            Err(down) => return Err(down),
            Ok(yes) => yes,
        };
        Ok(vote_at(place, yes))
    }

    /// Commits a unit, and writes the record of those that are to be told in the same group, where there is one. On Down it is spent as well.
    pub fn one_phase_with<D: Disk>(
        &mut self,
        unit: ActiveUnit,
        volume: &mut Volume<D>,
        log: &mut Log,
        logged: Option<&LogRec>,
        clock: Moment,
    ) -> Result<SettledUnit, Down>
        requires unit { IsSome (unit_of unit self.old) }
        requires may { IfSome (unit_of unit self.old) (λ u. MayHave u.serial (slot_of (option_copied logged)) log.old) }
        requires order { IsInOrder self.old volume.old }
        requires early { IsEarly volume.old }
        requires clock { clock.0 < moment_ceiling }
        requires before { log_start + length log.old ≤ volume.old.catalog.ru.start }
        ensures order { OnOk result (IsInOrder self.new volume.new) }
        ensures log { OnOk result (HasLog log.old volume.old → HasLog log.new volume.new) }
        ensures done { IfOk result (λ told. (u : OpenUnit) → unit_of unit self.old ≡ Some u → CommitsLogged unit u told.tid told.serial (slot_of (option_copied logged.entry)) clock.0 told.moment.0 self.old log.old volume.old self.new log.new volume.new) }
        ensures commits { IfOk result (λ told. told.outcome ≡ outcome.Commit) }
        ensures err { OnErr result ((u : OpenUnit) → unit_of unit self.old ≡ Some u → CommitsLoggedNot unit u (slot_of (option_copied logged.entry)) clock.0 self.old log.old volume.old self.new log.new volume.new) }
        ensures grows { Grows 1 clock.0 volume.old volume.new }
        ensures images { OnOk result (ImagesGrow volume.old volume.new) }
        ensures goes { DiskAdvances volume.old.store.disk volume.new.store.disk }
        ensures cause { IfErr result (λ down. Caused (Some down) volume.old.store.disk volume.new.store.disk) }
        ensures pool { volume.new.store.pool ≡ volume.old.store.pool }
    {
        let ActiveUnit { place } = unit;
        self.commit_at(place, volume, log, logged, clock)
    }

    // Commits the unit at a place, and leaves this of it in the log.
    fn commit_at<D: Disk>(
        &mut self,
        place: u8,
        volume: &mut Volume<D>,
        log: &mut Log,
        logged: Option<&LogRec>,
        clock: Moment,
    ) -> Result<SettledUnit, Down>
        requires place { place < branch_limit }
        requires unit { IsSome (unit_of place self.old) }
        requires may { IfSome (unit_of place self.old) (λ u. MayHave u.serial (slot_of (option_copied logged)) log.old) }
        requires order { IsInOrder self.old volume.old }
        requires early { IsEarly volume.old }
        requires clock { clock.0 < moment_ceiling }
        requires before { log_start + length log.old ≤ volume.old.catalog.ru.start }
        ensures order { OnOk result (IsInOrder self.new volume.new) }
        ensures log { OnOk result (HasLog log.old volume.old → HasLog log.new volume.new) }
        ensures done { IfOk result (λ told. (u : OpenUnit) → unit_of place self.old ≡ Some u → CommitsLogged place u told.tid told.serial (slot_of (option_copied logged.entry)) clock.0 told.moment.0 self.old log.old volume.old self.new log.new volume.new) }
        ensures commits { IfOk result (λ told. told.outcome ≡ outcome.Commit) }
        ensures err { OnErr result ((u : OpenUnit) → unit_of place self.old ≡ Some u → CommitsLoggedNot place u (slot_of (option_copied logged.entry)) clock.0 self.old log.old volume.old self.new log.new volume.new) }
        ensures grows { Grows 1 clock.0 volume.old volume.new }
        ensures images { OnOk result (ImagesGrow volume.old volume.new) }
        ensures counts { Counts result volume.old.store.disk volume.new.store.disk }
        ensures pool { volume.new.store.pool ≡ volume.old.store.pool }
    {
        let branch = self.branch(place);
        let moment = match commit(
            volume,
            log,
            &mut self.table,
            &mut self.locks,
            place,
            &branch,
            logged,
            clock,
            &mut self.entry,
        ) {
            Err(down) => return Err(down),
            Ok(moment) => moment,
        };
        Ok(SettledUnit {
            tid: branch.tid,
            serial: branch.serial,
            outcome: Outcome::Commit,
            moment,
        })
    }

    /// Commits a prepared unit: its settlement and the record of those that are to be told, or nothing in that record's place, in one group. On Down
    /// it is spent as well.
    pub fn commit_prepared<D: Disk>(
        &mut self,
        unit: PreparedUnit,
        volume: &mut Volume<D>,
        log: &mut Log,
        logged: Option<&LogRec>,
        clock: Moment,
    ) -> Result<SettledUnit, Down>
        requires unit { IsSome (unit_of unit self.old) }
        requires may { IfSome (unit_of unit self.old) (λ u. MayHave u.serial (slot_of (option_copied logged)) log.old) }
        requires order { IsInOrder self.old volume.old }
        requires early { IsEarly volume.old }
        requires clock { clock.0 < moment_ceiling }
        requires before { log_start + length log.old ≤ volume.old.catalog.ru.start }
        ensures order { OnOk result (IsInOrder self.new volume.new) }
        ensures log { OnOk result (HasLog log.old volume.old → HasLog log.new volume.new) }
        ensures done { IfOk result (λ told. (u : OpenUnit) → unit_of unit self.old ≡ Some u → CommitsLogged unit u told.tid told.serial (slot_of (option_copied logged.entry)) clock.0 told.moment.0 self.old log.old volume.old self.new log.new volume.new) }
        ensures commits { IfOk result (λ told. told.outcome ≡ outcome.Commit) }
        ensures err { OnErr result ((u : OpenUnit) → unit_of unit self.old ≡ Some u → CommitsLoggedNot unit u (slot_of (option_copied logged.entry)) clock.0 self.old log.old volume.old self.new log.new volume.new) }
        ensures grows { Grows 1 clock.0 volume.old volume.new }
        ensures images { OnOk result (ImagesGrow volume.old volume.new) }
        ensures goes { DiskAdvances volume.old.store.disk volume.new.store.disk }
        ensures cause { IfErr result (λ down. Caused (Some down) volume.old.store.disk volume.new.store.disk) }
        ensures pool { volume.new.store.pool ≡ volume.old.store.pool }
    {
        let PreparedUnit { place } = unit;
        self.commit_at(place, volume, log, logged, clock)
    }

    /// Aborts a prepared unit: what it changed is set back, in as many groups as that takes, and the last of them settles it and frees its slot in
    /// the log. On Down it is spent as well.
    pub fn abort_prepared<D: Disk>(
        &mut self,
        unit: PreparedUnit,
        volume: &mut Volume<D>,
        log: &mut Log,
        reason: Reason,
        clock: Moment,
    ) -> Result<SettledUnit, Down>
        requires unit { IsSome (unit_of unit self.old) }
        requires order { IsInOrder self.old volume.old }
        requires early { IsEarly volume.old }
        requires clock { clock.0 < moment_ceiling }
        requires before { log_start + length log.old ≤ volume.old.catalog.ru.start }
        ensures order { OnOk result (IsInOrder self.new volume.new) }
        ensures done { IfOk result (λ told. (u : OpenUnit) → unit_of unit self.old ≡ Some u → AbortsPrepared unit u told.tid told.serial reason clock.0 told.moment.0 self.old log.old volume.old self.new log.new volume.new) }
        ensures aborts { IfOk result (λ told. told.outcome ≡ outcome.Abort) }
        ensures err { OnErr result ((u : OpenUnit) → unit_of unit self.old ≡ Some u → AbortsPreparedNot unit u reason clock.0 self.old log.old volume.old self.new log.new volume.new) }
        ensures grows { Grows 1 clock.0 volume.old volume.new }
        ensures images { OnOk result (ImagesGrow volume.old volume.new) }
        ensures goes { DiskAdvances volume.old.store.disk volume.new.store.disk }
        ensures cause { IfErr result (λ down. Caused (Some down) volume.old.store.disk volume.new.store.disk) }
        ensures pool { volume.new.store.pool ≡ volume.old.store.pool }
    {
        let PreparedUnit { place } = unit;
        let branch = self.branch(place);
        let moment = match abort_prepared(
            volume,
            log,
            &mut self.table,
            &mut self.locks,
            place,
            &branch,
            reason,
            clock,
            &mut self.keys,
            &mut self.found,
            &mut self.entry,
        ) {
            Err(down) => return Err(down),
            Ok(moment) => moment,
        };
        Ok(SettledUnit {
            tid: branch.tid,
            serial: branch.serial,
            outcome: Outcome::Abort,
            moment,
        })
    }

    /// Forgets a prepared unit, where its node goes down.
    pub fn lose_prepared(&mut self, unit: PreparedUnit)
        requires { IsSome (unit_of unit self.old) }
        ensures { IfSome (unit_of unit self.old) (λ u. self.new ≡ without_place unit u.serial self.old) }
    {
        let PreparedUnit { place } = unit;
        let branch = self.branch(place);
        self.table.remove(place);
        self.locks.release_all(branch.serial);
    }

    /// Takes up what a fall left. The units of the journal that are not prepared are aborted, in the order of their first entries, and their
    /// settlements are told, also after Down. Nothing is aborted where the journal is not in order, or has not the room that the settlements take.
    /// The branches of the log's prepared records are units again, in the order in which they were prepared, with their changes, and hold the keys
    /// that these changed; their records and the committed ones are told. Units that are aborted and units that are taken up are no more than 64
    /// together: of more, the prepared records of the last slots are read as free.
    pub fn reopen<D: Disk>(
        &mut self,
        volume: &mut Volume<D>,
        log: &mut Log,
        clock: Moment,
        out: &mut Restarted,
    ) -> Result<(), Down>
        requires none { self.old ≡ nothing_begun }
        requires order { IsInOrder self.old volume.old }
        requires early { IsEarly volume.old }
        requires moment { volume.old.catalog.home.greatest_moment.0 + branch_limit ≤ moment_ceiling }
        requires clock { clock.0 + branch_limit ≤ moment_ceiling }
        ensures log { log.new ≡ with_few_prepared (branch_limit - length out.new.undone) log.old }
        ensures down { OnErr result (self.new ≡ nothing_begun) }
        ensures order { OnOk result (IsInOrder self.new volume.new) }
        ensures done { OnOk result (Restarts clock.0 volume.old log.old log.new self.new.units self.new.locks volume.new out.new) }
        ensures err { OnErr result (RestartsNot clock.0 volume.old volume.new out.new.undone) }
        ensures grows { Grows branch_limit (clock.0 + branch_limit) volume.old volume.new }
        ensures images { OnOk result (ImagesGrow volume.old volume.new) }
        ensures room { OnOk result (volume.new.catalog.home.greatest_moment.0 + length (begun self.new.units) ≤ max volume.old.catalog.home.greatest_moment.0 clock.0 + branch_limit) }
        ensures moments { AreTold volume.new out.new.undone }
        ensures few { length out.new.undone ≤ branch_limit }
        ensures goes { DiskAdvances volume.old.store.disk volume.new.store.disk }
        ensures cause { IfErr result (λ down. Caused (Some down) volume.old.store.disk volume.new.store.disk) }
        ensures pool { volume.new.store.pool ≡ volume.old.store.pool }
    {
        match restart(
            volume,
            log,
            clock,
            &mut self.table,
            &mut self.locks,
            &mut self.restart,
            &mut self.keys,
            &mut self.found,
            &mut self.entry,
            out,
        ) {
            Err(down) => {
                self.table.clear();
                self.locks.clear();
                return Err(down);
            }
            Ok(()) => {}
        }
        self.table.stand_in_order();
        Ok(())
    }
}
