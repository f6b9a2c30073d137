//! The calls.
ghost use Rattle.std.specs.Prelude.{◌≡◌, ◌≤◌, ◌<◌, ◌+◌, ℕ, max, [], Some, None, true, false, IfOk, IfErr, IfSome, IsSome, OnOk, OnErr, length, map, option_copied, option_map, nat_le};
ghost use Rattle.vms_model.specs.Limits.{branch_limit, moment_ceiling, slot_limit};
ghost use Rattle.journal_model.specs.file_base.declared.head.FileHead.{FileHead as HeadSaid};
ghost use Rattle.vms_base.specs.Ids.{tid_of, serial_of};
ghost use Rattle.vms_base.specs.Keys.{key_of};
ghost use Rattle.vms_base.specs.Outcomes.{reason_of};
ghost use Rattle.vms_model.specs.Transactions.{Commit, Abort};
ghost use Rattle.volume_model.specs.commit_protocol.Table.{branches_of};
ghost use Rattle.volume_model.specs.lmcp_log.Log.{record_with, slot_at, slot_of};
ghost use Rattle.volume_model.specs.lmcp_log.Slot.{HasForm};
ghost use Rattle.volume_model.specs.log_laws.Slots.{forgotten, has_slot, put_in};
ghost use Rattle.volume_model.specs.tm_types.Parts.{log_record_of};
ghost use Rattle.volume_model.specs.directory_model.Files.{head_at};
ghost use Rattle.record_operations.specs.Asking.{file_in, read_file_in};
ghost use Rattle.record_operations.specs.Causes.{down_in};
ghost use Rattle.unit_table.specs.Units.{first_to_change};
ghost use Rattle.std.specs.List.{AllByRecursion};
ghost use Rattle.recovery_units.specs.declared.settled.SettledUnit.{SettledUnit as SettledSaid};
ghost use Rattle.recovery_units.specs.State.{UnitsState, AreOfBranches, HasNoUnit, IsInOrder, IsEarly, IsNew, MayLeave, MayLog, MayVote, WorksFor, aborted, committed, has_changed_by, is_begun, serials_in, unit_of, voted, with_begun, without_begun};
ghost use Rattle.recovery_units.specs.Calls.{ChangesOk, ChangesErr, ReadsOk, ReadsErr, LooksOk, LooksErr, ReadsFew, DirectsOk, DirectsErr, VotesOk, VotesErr, Leaves, SettlesOk, SettlesErr, KeepsRecord, KeepsRecordNot, ForgetsRecord, ForgetsRecordNot, MayBegin, ReopensOk, ReopensErr, IsNumbered};
ghost use Rattle.recovery_units.specs.Told.{nothing_told};
ghost use Rattle.vms_model.specs.Transactions.{Reason as ReasonSaid};
ghost use Rattle.volume.specs.State.{SameVolume, VolumeState as VolumeSaid};
ghost use Rattle.recovery_units.specs.Uses.{Caused, Grows, ImagesGrow, down_of};

use crate::settled::{Reopened, SettledUnit};
use block_disk::Disk;
use careful_write::Down;
use record_operations::{ReadOp, RecErr, RecordOp};
use std::alloc::{AllocError, Global};
use vms_base::{Key, LogRec, Moment, Reason, Record, RmList, Serial, Tid};
use volume::Volume;

/// The units of one node, and its log. Contracts see them as the units in the order of their beginning, the keys that they hold and the slots of the
/// log, and say of each call which act of the node of the world it is. Each branch of the node's table has a unit, also one that only joins. Where a
/// call ends with `Down` its node goes down, and all units are to be forgotten.
pub trait RecoveryUnits: Drop {
    ghost state: { Self → UnitsState };

    /// No unit is begun. The memory for all that may be begun is taken; an error where there is none.
    fn reserve(alloc: Global) -> Result<Self, AllocError>
        ensures { IfOk result (λ u. HasNoUnit (state u)) };

    /// Whether a unit is of this branch.
    fn has(&self, serial: &Serial) -> bool
        ensures { result ≡ is_begun (serial_of serial.now) (state self.now) };

    /// Whether 64 units are unsettled.
    fn is_full(&self) -> bool
        ensures { result ≡ nat_le branch_limit (length (state self.now).begun) };

    /// How many slots the log has.
    fn slots(&self) -> usize
        ensures value { result ≡ length (state self.now).log }
        ensures few { result ≤ slot_limit };

    /// The record in a slot of the log, from 0 on. None where that slot has none.
    fn record_at(&self, slot: u32) -> Option<&LogRec>
        ensures { slot_of (option_copied result) ≡ slot_at (state self.now).log slot };

    /// Whether the unit of this branch has changed something. Of no unit it has not.
    fn has_changes(&self, serial: &Serial) -> bool
        ensures { result ≡ has_changed_by (serial_of serial.now) (state self.now).begun };

    /// A unit begins. Nothing is written.
    fn begin(&mut self, tid: Tid, serial: Serial)
        requires room { length (state self.old).begun < branch_limit }
        requires fresh { IsNew (serial_of serial) (state self.old) }
        ensures { state self.new ≡ with_begun (tid_of tid) (serial_of serial) (state self.old) };

    /// Changes records for a branch: their entries and the file's buckets in one group. The number is the position of a record that was put into a sequential
    /// file, else 0. `bytes` is the record of a put or an update. A record is put at a number or at none.
    fn change<D: Disk>(
        &mut self,
        serial: &Serial,
        volume: &mut Volume<D>,
        op: &RecordOp,
        bytes: &[u8],
    ) -> Result<u32, RecErr>
        requires unit { is_begun (serial_of serial.now) (state self.old) ≡ true }
        requires active { IfSome (unit_of (serial_of serial.now) (state self.old).begun) (λ u. u.prepared ≡ false) }
        requires order { IsInOrder (state self.old) volume.old }
        requires early { IsEarly volume.old }
        requires file { (h : HeadSaid) × (head_at volume.old.catalog.heads (file_in op.now) ≡ Some h) }
        requires number { IsNumbered op.now }
        ensures order { OnOk result (IsInOrder (state self.new) volume.new) }
        ensures serials { serials_in (state self.new) ≡ serials_in (state self.old) }
        ensures works { WorksFor (serial_of serial.now) (state self.old) (state self.new) }
        ensures same { IfErr result (λ e. down_in e ≡ None → (state self.new ≡ state self.old) × SameVolume volume.old volume.new) }
        ensures grows { Grows 0 0 volume.old volume.new }
        ensures images { OnOk result (ImagesGrow volume.old volume.new) }
        ensures cause { IfErr result (λ e. Caused (down_in e) volume.old.store.disk volume.new.store.disk) }
        ensures done { IfOk result (λ position. ChangesOk (serial_of serial.now) op.now bytes.now position (state self.old) volume.old (state self.new) volume.new) }
        ensures err { IfErr result (λ e. ChangesErr (serial_of serial.now) op.now bytes.now e (state self.old) volume.old volume.new) };

    /// Reads a record for a branch, which holds its key from then on. Of a read of the next record, `found` is its key.
    fn read<D: Disk>(
        &mut self,
        serial: &Serial,
        volume: &mut Volume<D>,
        op: &ReadOp,
        found: &mut Key,
        out: &mut Record,
    ) -> Result<(), RecErr>
        requires unit { is_begun (serial_of serial.now) (state self.old) ≡ true }
        requires active { IfSome (unit_of (serial_of serial.now) (state self.old).begun) (λ u. u.prepared ≡ false) }
        requires order { IsInOrder (state self.old) volume.old }
        requires file { (h : HeadSaid) × (head_at volume.old.catalog.heads (read_file_in op.now) ≡ Some h) }
        ensures order { OnOk result (IsInOrder (state self.new) volume.new) }
        ensures serials { serials_in (state self.new) ≡ serials_in (state self.old) }
        ensures works { WorksFor (serial_of serial.now) (state self.old) (state self.new) }
        ensures same { IfErr result (λ e. down_in e ≡ None → (state self.new ≡ state self.old) × SameVolume volume.old volume.new) }
        ensures grows { Grows 0 0 volume.old volume.new }
        ensures images { OnOk result (ImagesGrow volume.old volume.new) }
        ensures cause { IfErr result (λ e. Caused (down_in e) volume.old.store.disk volume.new.store.disk) }
        ensures reads { ReadsFew op.now volume.old volume.new }
        ensures done { OnOk result (ReadsOk (serial_of serial.now) op.now (key_of found.new) out.new (state self.old) volume.old (state self.new) volume.new) }
        ensures err { IfErr result (λ e. ReadsErr (serial_of serial.now) op.now e (state self.old) volume.old volume.new) };

    /// Reads a record for no branch. Nothing is held.
    fn look<D: Disk>(
        &self,
        volume: &mut Volume<D>,
        op: &ReadOp,
        found: &mut Key,
        out: &mut Record,
    ) -> Result<(), RecErr>
        requires order { IsInOrder (state self.now) volume.old }
        requires file { (h : HeadSaid) × (head_at volume.old.catalog.heads (read_file_in op.now) ≡ Some h) }
        ensures same { OnOk result (SameVolume volume.old volume.new) }
        ensures refused { IfErr result (λ e. down_in e ≡ None → SameVolume volume.old volume.new) }
        ensures grows { Grows 0 0 volume.old volume.new }
        ensures images { OnOk result (ImagesGrow volume.old volume.new) }
        ensures cause { IfErr result (λ e. Caused (down_in e) volume.old.store.disk volume.new.store.disk) }
        ensures reads { ReadsFew op.now volume.old volume.new }
        ensures done { OnOk result (LooksOk op.now (key_of found.new) out.new (state self.now) volume.old) }
        ensures err { IfErr result (λ e. LooksErr op.now e (state self.now) volume.old volume.new) };

    /// Changes records for no branch, and commits that in the same group, as the transaction and branch of this id. The number is as of `change`, and the
    /// moment that of the commitment.
    fn direct<D: Disk>(
        &mut self,
        volume: &mut Volume<D>,
        tid: Tid,
        clock: Moment,
        op: &RecordOp,
        bytes: &[u8],
    ) -> Result<(u32, Moment), RecErr>
        requires order { IsInOrder (state self.old) volume.old }
        requires early { IsEarly volume.old }
        requires clock { clock.0 < moment_ceiling }
        requires file { (h : HeadSaid) × (head_at volume.old.catalog.heads (file_in op.now) ≡ Some h) }
        requires number { IsNumbered op.now }
        ensures units { state self.new ≡ state self.old }
        ensures order { OnOk result (IsInOrder (state self.new) volume.new) }
        ensures same { IfErr result (λ e. down_in e ≡ None → SameVolume volume.old volume.new) }
        ensures grows { Grows 1 clock.0 volume.old volume.new }
        ensures images { OnOk result (ImagesGrow volume.old volume.new) }
        ensures cause { IfErr result (λ e. Caused (down_in e) volume.old.store.disk volume.new.store.disk) }
        ensures moment { IfOk result (λ told. told.1.0 ≡ volume.new.catalog.home.greatest_moment.0) }
        ensures done { IfOk result (λ told. DirectsOk (tid_of tid) clock.0 op.now bytes.now told.0 told.1.0 (state self.old) volume.old volume.new) }
        ensures err { IfErr result (λ e. DirectsErr (tid_of tid) clock.0 op.now bytes.now e (state self.old) volume.old volume.new) };

    /// A branch votes yes: its entry, where it changed something, and its record in one group. It keeps what it holds. The id is that of its transaction.
    fn prepare<D: Disk>(
        &mut self,
        serial: &Serial,
        volume: &mut Volume<D>,
        rms: &RmList,
    ) -> Result<Tid, Down>
        requires unit { IsSome (unit_of (serial_of serial.now) (state self.old).begun) }
        requires may { IfSome (unit_of (serial_of serial.now) (state self.old).begun) (λ u. MayVote u rms.now (state self.old).log) }
        requires order { IsInOrder (state self.old) volume.old }
        requires early { IsEarly volume.old }
        ensures units { OnOk result (IfSome (unit_of (serial_of serial.now) (state self.old).begun) (λ u. state self.new ≡ voted u rms.now (state self.old))) }
        ensures tid { IfOk result (λ tid. IfSome (unit_of (serial_of serial.now) (state self.old).begun) (λ u. tid_of tid ≡ u.tid)) }
        ensures order { OnOk result (IsInOrder (state self.new) volume.new) }
        ensures grows { Grows 0 0 volume.old volume.new }
        ensures images { OnOk result (ImagesGrow volume.old volume.new) }
        ensures cause { Caused (down_of result) volume.old.store.disk volume.new.store.disk }
        ensures done { OnOk result (VotesOk (serial_of serial.now) rms.now (state self.old) volume.old (state self.new) volume.new) }
        ensures err { OnErr result (VotesErr (serial_of serial.now) rms.now (state self.old) volume.old volume.new) };

    /// A branch that changed nothing is no more, and nothing is written: it was read only. The id is that of its transaction.
    fn leave(&mut self, serial: &Serial) -> Tid
        requires unit { IsSome (unit_of (serial_of serial.now) (state self.old).begun) }
        requires may { IfSome (unit_of (serial_of serial.now) (state self.old).begun) MayLeave }
        ensures units { state self.new ≡ without_begun (serial_of serial.now) (state self.old) }
        ensures tid { IfSome (unit_of (serial_of serial.now) (state self.old).begun) (λ u. tid_of result ≡ u.tid) }
        ensures order { (v : VolumeSaid) → IsInOrder (state self.old) v → IsInOrder (state self.new) v }
        ensures done { (v : VolumeSaid) → Leaves (serial_of serial.now) (state self.old) v (state self.new) };

    /// Commits a branch, prepared or not: the entry of its settlement, where it changed something, the home block, and what the log has of it from then on, the
    /// record of those that are to be told or nothing, in one group.
    fn commit<D: Disk>(
        &mut self,
        serial: &Serial,
        volume: &mut Volume<D>,
        logged: Option<&LogRec>,
        clock: Moment,
    ) -> Result<SettledUnit, Down>
        requires unit { is_begun (serial_of serial.now) (state self.old) ≡ true }
        requires may { IfSome (slot_of (option_copied logged)) (λ r. MayLog (serial_of serial.now) r (state self.old).log) }
        requires order { IsInOrder (state self.old) volume.old }
        requires early { IsEarly volume.old }
        requires clock { clock.0 < moment_ceiling }
        ensures units { OnOk result (state self.new ≡ committed (serial_of serial.now) (slot_of (option_copied logged.entry)) (state self.old)) }
        ensures order { OnOk result (IsInOrder (state self.new) volume.new) }
        ensures grows { Grows 1 clock.0 volume.old volume.new }
        ensures images { OnOk result (ImagesGrow volume.old volume.new) }
        ensures cause { Caused (down_of result) volume.old.store.disk volume.new.store.disk }
        ensures moment { IfOk result (λ u. u.moment.0 ≡ volume.new.catalog.home.greatest_moment.0) }
        ensures done { IfOk result (λ u. (reason : ReasonSaid) → SettlesOk (serial_of serial.now) Commit reason (slot_of (option_copied logged.entry)) clock.0 u (state self.old) volume.old (state self.new) volume.new) }
        ensures err { OnErr result ((reason : ReasonSaid) → SettlesErr (serial_of serial.now) Commit reason (slot_of (option_copied logged.entry)) clock.0 (state self.old) volume.old volume.new) };

    /// Aborts a branch, prepared or not: what it changed is set back, in as many groups as that takes, and the last of them settles it and frees its
    /// slot in the log.
    fn abort<D: Disk>(
        &mut self,
        serial: &Serial,
        volume: &mut Volume<D>,
        reason: Reason,
        clock: Moment,
    ) -> Result<SettledUnit, Down>
        requires unit { IsSome (unit_of (serial_of serial.now) (state self.old).begun) }
        requires order { IsInOrder (state self.old) volume.old }
        requires early { IsEarly volume.old }
        requires clock { clock.0 < moment_ceiling }
        ensures units { OnOk result (IfSome (unit_of (serial_of serial.now) (state self.old).begun) (λ u. state self.new ≡ aborted u (state self.old))) }
        ensures order { OnOk result (IsInOrder (state self.new) volume.new) }
        ensures grows { Grows 1 clock.0 volume.old volume.new }
        ensures images { OnOk result (ImagesGrow volume.old volume.new) }
        ensures cause { Caused (down_of result) volume.old.store.disk volume.new.store.disk }
        ensures moment { IfOk result (λ u. u.moment.0 ≡ volume.new.catalog.home.greatest_moment.0) }
        ensures done { IfOk result (λ u. SettlesOk (serial_of serial.now) Abort (reason_of reason) None clock.0 u (state self.old) volume.old (state self.new) volume.new) }
        ensures err { OnErr result (SettlesErr (serial_of serial.now) Abort (reason_of reason) None clock.0 (state self.old) volume.old volume.new) };

    /// A committed record that has less to wait for is written again, in a group of its own.
    fn keep_record<D: Disk>(&mut self, volume: &mut Volume<D>, logged: &LogRec) -> Result<(), Down>
        requires form { HasForm (log_record_of logged.now).kind (log_record_of logged.now).waiting (log_record_of logged.now).rms }
        requires there { has_slot (log_record_of logged.now).serial (state self.old).log ≡ true }
        requires order { IsInOrder (state self.old) volume.old }
        ensures units { OnOk result (state self.new ≡ record (state self.old) { log = put_in (log_record_of logged.now) (state self.old).log }) }
        ensures order { OnOk result (IsInOrder (state self.new) volume.new) }
        ensures grows { Grows 0 0 volume.old volume.new }
        ensures images { OnOk result (ImagesGrow volume.old volume.new) }
        ensures cause { Caused (down_of result) volume.old.store.disk volume.new.store.disk }
        ensures catalog { OnOk result (volume.new.catalog ≡ volume.old.catalog) }
        ensures done { OnOk result (KeepsRecord (log_record_of logged.now) (state self.old) volume.old (state self.new) volume.new) }
        ensures err { OnErr result (KeepsRecordNot (log_record_of logged.now) (state self.old) volume.old volume.new) };

    /// A committed record that waits for nothing any more goes, in a group of its own. The id is that of its transaction.
    fn forget_record<D: Disk>(
        &mut self,
        volume: &mut Volume<D>,
        serial: &Serial,
    ) -> Result<Tid, Down>
        requires there { IsSome (record_with (serial_of serial.now) (state self.old).log) }
        requires order { IsInOrder (state self.old) volume.old }
        ensures units { OnOk result (state self.new ≡ record (state self.old) { log = forgotten (serial_of serial.now) (state self.old).log }) }
        ensures tid { IfOk result (λ tid. IfSome (record_with (serial_of serial.now) (state self.old).log) (λ r. tid_of tid ≡ r.tid)) }
        ensures order { OnOk result (IsInOrder (state self.new) volume.new) }
        ensures grows { Grows 0 0 volume.old volume.new }
        ensures images { OnOk result (ImagesGrow volume.old volume.new) }
        ensures cause { Caused (down_of result) volume.old.store.disk volume.new.store.disk }
        ensures catalog { OnOk result (volume.new.catalog ≡ volume.old.catalog) }
        ensures done { OnOk result (ForgetsRecord (serial_of serial.now) (state self.old) volume.old (state self.new) volume.new) }
        ensures err { OnErr result (ForgetsRecordNot (serial_of serial.now) (state self.old) volume.old volume.new) };

    /// Forgets all units, where the node goes down.
    fn forget(&mut self)
        ensures { HasNoUnit (state self.new) };

    /// The earliest begun of the branches that changed a file.
    fn changed_by(&self, file: u8) -> Option<Serial>
        ensures { option_map serial_of result ≡ first_to_change file (state self.now).begun };

    /// Reads the log, undoes the units that a fall left and that are not prepared, in the order of their first entries, and tells their settlements,
    /// after `Down` those that were made. The prepared ones are units again, in the order in which their branches were prepared, and hold what they
    /// changed; their records and the committed ones are told.
    fn reopen<D: Disk>(
        &mut self,
        volume: &mut Volume<D>,
        clock: Moment,
        out: &mut Reopened,
    ) -> Result<(), Down>
        requires empty { HasNoUnit (state self.old) }
        requires order { IsInOrder (record (state self.old) { log = [] }) volume.old }
        requires early { IsEarly volume.old }
        requires moment { volume.old.catalog.home.greatest_moment.0 + branch_limit ≤ moment_ceiling }
        requires clock { clock.0 + branch_limit ≤ moment_ceiling }
        requires none { out.old ≡ nothing_told }
        ensures units { OnOk result (AreOfBranches (state self.new).begun (branches_of (map log_record_of out.new.prepared))) }
        ensures begins { OnOk result (MayBegin out.new (state self.new).log) }
        ensures order { OnOk result (IsInOrder (state self.new) volume.new) }
        ensures grows { Grows branch_limit (clock.0 + branch_limit) volume.old volume.new }
        ensures images { OnOk result (ImagesGrow volume.old volume.new) }
        ensures room { OnOk result (volume.new.catalog.home.greatest_moment.0 + length (state self.new).begun ≤ max volume.old.catalog.home.greatest_moment.0 clock.0 + branch_limit) }
        ensures moments { AllByRecursion (λ (u : SettledSaid). u.moment.0 ≤ volume.new.catalog.home.greatest_moment.0) out.new.settled }
        ensures cause { Caused (down_of result) volume.old.store.disk volume.new.store.disk }
        ensures done { OnOk result (ReopensOk clock.0 out.new volume.old (state self.new) volume.new) }
        ensures err { OnErr result (ReopensErr clock.0 out.new volume.old volume.new) };
}
