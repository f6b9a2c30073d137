// What is asked of a unit by what is held of it.
ghost use Rattle.std.specs.Prelude.{◌≡◌, ◌≤◌, ◌<◌, ◌+◌, ◌==◌, not, true, false, Some, IfOk, IfErr, IfSome, IsSome, OnOk, OnErr, length, option_copied};
ghost use Rattle.vms_model.specs.Limits.{moment_ceiling};
ghost use Rattle.vms_model.specs.Blocks.{log_start};
ghost use Rattle.file_base.specs.declared.head.FileHead.{FileHead as HeadSaid};
ghost use Rattle.vms_base.specs.Keys.{key_of};
ghost use Rattle.vms_base.specs.declared.outcomes.Outcome.TheVariants as outcome;
ghost use Rattle.lmcp_log.specs.Log.{slot_of};
ghost use Rattle.record_operations.specs.Asking.{file_in, read_file_in};
ghost use Rattle.record_operations.specs.Causes.{down_in};
ghost use Rattle.rms_units.specs.unit_journal.Groups.{Caused, DiskAdvances, Grows};
ghost use Rattle.recovery_units.specs.Uses.{ImagesGrow};
ghost use Rattle.unit_table.specs.Units.{OpenUnit};
ghost use Rattle.rms_units.specs.unit_votes.Logging.{HasLog, MayHave};
ghost use Rattle.volume.specs.Catalogs.{head_at};
ghost use Rattle.rms_units.specs.Aborting.{AbortsNot, AbortsUnit};
ghost use Rattle.rms_units.specs.Calls.{ChangesErr, ChangesOk, ReadsErr, ReadsFew, ReadsOk};
ghost use Rattle.rms_units.specs.State.{IsEarly, IsInOrder, unit_of};
ghost use Rattle.rms_units.specs.Voting.{AbortsPrepared, AbortsPreparedNot, CommitsLogged, CommitsLoggedNot};
ghost use Rattle.node_units.specs.Tokens.{is_active, is_held, is_waiting, place_in};

use crate::begun::Token;
use block_disk::Disk;
use careful_write::Down;
use lmcp_log::Log;
use record_operations::{ReadOp, RecErr, RecordOp};
use rms_units::{SettledUnit, Units};
use vms_base::{Key, LogRec, Moment, Reason, Record};
use volume::Volume;

/// Whether a unit, prepared or not, has changed something.
pub(crate) fn has_changes_held(units: &Units, token: &Token) -> bool
    requires held { is_held token.now ≡ true }
    requires unit { IsSome (unit_of (place_in token.now) units.now) }
    ensures { IfSome (unit_of (place_in token.now) units.now) (λ u. result ≡ not (length u.positions == 0)) }
{
    match token {
        Token::Active(unit) => units.has_changes(unit),
        Token::Prepared(unit) => units.had_changes(unit),
        Token::Spent => unreachable!(),
    }
}

/// Changes records for a unit that is not prepared.
pub(crate) fn change_held<D: Disk>(
    units: &mut Units,
    token: &mut Token,
    volume: &mut Volume<D>,
    op: &RecordOp,
    bytes: &[u8],
) -> Result<u32, RecErr>
    requires active { is_active token.old ≡ true }
    requires unit { IsSome (unit_of (place_in token.old) units.old) }
    requires order { IsInOrder units.old volume.old }
    requires early { IsEarly volume.old }
    requires file { (h : HeadSaid) × (head_at volume.old.catalog.heads (file_in op.now) ≡ Some h) }
    ensures token { token.new ≡ token.old }
    ensures order { OnOk result (IsInOrder units.new volume.new) }
    ensures done { IfOk result (λ position. (u : OpenUnit) (h : HeadSaid) → unit_of (place_in token.old) units.old ≡ Some u → head_at volume.old.catalog.heads (file_in op.now) ≡ Some h → ChangesOk (place_in token.old) u h op.now bytes.now position units.old volume.old units.new volume.new) }
    ensures err { IfErr result (λ e. (u : OpenUnit) (h : HeadSaid) → unit_of (place_in token.old) units.old ≡ Some u → head_at volume.old.catalog.heads (file_in op.now) ≡ Some h → ChangesErr u h op.now bytes.now e units.old volume.old units.new volume.new) }
    ensures grows { Grows 0 0 volume.old volume.new }
    ensures images { OnOk result (ImagesGrow volume.old volume.new) }
    ensures goes { DiskAdvances volume.old.store.disk volume.new.store.disk }
    ensures cause { IfErr result (λ e. Caused (down_in e) volume.old.store.disk volume.new.store.disk) }
    ensures pool { volume.new.store.pool ≡ volume.old.store.pool }
{
    match token {
        Token::Active(unit) => units.change(unit, volume, op, bytes),
        _ => unreachable!(),
    }
}

/// Reads a record for a unit that is not prepared.
pub(crate) fn read_held<D: Disk>(
    units: &mut Units,
    token: &mut Token,
    volume: &mut Volume<D>,
    op: &ReadOp,
    found: &mut Key,
    out: &mut Record,
) -> Result<(), RecErr>
    requires active { is_active token.old ≡ true }
    requires unit { IsSome (unit_of (place_in token.old) units.old) }
    requires order { IsInOrder units.old volume.old }
    requires file { (h : HeadSaid) × (head_at volume.old.catalog.heads (read_file_in op.now) ≡ Some h) }
    ensures token { token.new ≡ token.old }
    ensures order { OnOk result (IsInOrder units.new volume.new) }
    ensures done { OnOk result ((u : OpenUnit) (h : HeadSaid) → unit_of (place_in token.old) units.old ≡ Some u → head_at volume.old.catalog.heads (read_file_in op.now) ≡ Some h → ReadsOk u h op.now (key_of found.new) out.new units.old volume.old units.new volume.new) }
    ensures err { IfErr result (λ e. (u : OpenUnit) (h : HeadSaid) → unit_of (place_in token.old) units.old ≡ Some u → head_at volume.old.catalog.heads (read_file_in op.now) ≡ Some h → ReadsErr u h op.now e units.old volume.old units.new volume.new) }
    ensures reads { (h : HeadSaid) → head_at volume.old.catalog.heads (read_file_in op.now) ≡ Some h → ReadsFew h op.now volume.old volume.new }
    ensures grows { Grows 0 0 volume.old volume.new }
    ensures images { OnOk result (ImagesGrow volume.old volume.new) }
    ensures goes { DiskAdvances volume.old.store.disk volume.new.store.disk }
    ensures cause { IfErr result (λ e. Caused (down_in e) volume.old.store.disk volume.new.store.disk) }
    ensures pool { volume.new.store.pool ≡ volume.old.store.pool }
{
    match token {
        Token::Active(unit) => units.read(unit, volume, op, found, out),
        _ => unreachable!(),
    }
}

/// Commits a unit, prepared or not, and leaves this of it in the log.
pub(crate) fn commit_held<D: Disk>(
    units: &mut Units,
    token: Token,
    volume: &mut Volume<D>,
    log: &mut Log,
    logged: Option<&LogRec>,
    clock: Moment,
) -> Result<SettledUnit, Down>
    requires held { is_held token ≡ true }
    requires unit { IsSome (unit_of (place_in token) units.old) }
    requires may { IfSome (unit_of (place_in token) units.old) (λ u. MayHave u.serial (slot_of (option_copied logged)) log.old) }
    requires order { IsInOrder units.old volume.old }
    requires early { IsEarly volume.old }
    requires clock { clock.0 < moment_ceiling }
    requires before { log_start + length log.old ≤ volume.old.catalog.ru.start }
    ensures order { OnOk result (IsInOrder units.new volume.new) }
    ensures log { OnOk result (HasLog log.old volume.old → HasLog log.new volume.new) }
    ensures done { IfOk result (λ told. (u : OpenUnit) → unit_of (place_in token) units.old ≡ Some u → CommitsLogged (place_in token) u told.tid told.serial (slot_of (option_copied logged.entry)) clock.0 told.moment.0 units.old log.old volume.old units.new log.new volume.new) }
    ensures commits { IfOk result (λ told. told.outcome ≡ outcome.Commit) }
    ensures err { OnErr result ((u : OpenUnit) → unit_of (place_in token) units.old ≡ Some u → CommitsLoggedNot (place_in token) u (slot_of (option_copied logged.entry)) clock.0 units.old log.old volume.old units.new log.new volume.new) }
    ensures grows { Grows 1 clock.0 volume.old volume.new }
    ensures images { OnOk result (ImagesGrow volume.old volume.new) }
    ensures goes { DiskAdvances volume.old.store.disk volume.new.store.disk }
    ensures cause { IfErr result (λ down. Caused (Some down) volume.old.store.disk volume.new.store.disk) }
    ensures pool { volume.new.store.pool ≡ volume.old.store.pool }
{
    match token {
        Token::Active(unit) => units.one_phase_with(unit, volume, log, logged, clock),
        Token::Prepared(unit) => units.commit_prepared(unit, volume, log, logged, clock),
        Token::Spent => unreachable!(),
    }
}

/// Aborts a unit, prepared or not. Where it is, its slot in the log is freed.
pub(crate) fn abort_held<D: Disk>(
    units: &mut Units,
    token: Token,
    volume: &mut Volume<D>,
    log: &mut Log,
    reason: Reason,
    clock: Moment,
) -> Result<SettledUnit, Down>
    requires held { is_held token ≡ true }
    requires unit { IsSome (unit_of (place_in token) units.old) }
    requires order { IsInOrder units.old volume.old }
    requires early { IsEarly volume.old }
    requires clock { clock.0 < moment_ceiling }
    requires before { log_start + length log.old ≤ volume.old.catalog.ru.start }
    ensures order { OnOk result (IsInOrder units.new volume.new) }
    ensures active { IfOk result (λ told. is_active token ≡ true → (log.new ≡ log.old) × ((u : OpenUnit) → unit_of (place_in token) units.old ≡ Some u → AbortsUnit (place_in token) u told.tid told.serial reason clock.0 told.moment.0 units.old volume.old units.new volume.new)) }
    ensures waiting { IfOk result (λ told. is_waiting token ≡ true → (u : OpenUnit) → unit_of (place_in token) units.old ≡ Some u → AbortsPrepared (place_in token) u told.tid told.serial reason clock.0 told.moment.0 units.old log.old volume.old units.new log.new volume.new) }
    ensures aborts { IfOk result (λ told. told.outcome ≡ outcome.Abort) }
    ensures active_err { OnErr result (is_active token ≡ true → (u : OpenUnit) → unit_of (place_in token) units.old ≡ Some u → AbortsNot (place_in token) u reason clock.0 units.old volume.old units.new volume.new) }
    ensures waiting_err { OnErr result (is_waiting token ≡ true → (u : OpenUnit) → unit_of (place_in token) units.old ≡ Some u → AbortsPreparedNot (place_in token) u reason clock.0 units.old log.old volume.old units.new log.new volume.new) }
    ensures grows { Grows 1 clock.0 volume.old volume.new }
    ensures images { OnOk result (ImagesGrow volume.old volume.new) }
    ensures goes { DiskAdvances volume.old.store.disk volume.new.store.disk }
    ensures cause { IfErr result (λ down. Caused (Some down) volume.old.store.disk volume.new.store.disk) }
    ensures pool { volume.new.store.pool ≡ volume.old.store.pool }
{
    match token {
        Token::Active(unit) => units.abort(unit, volume, reason, clock),
        Token::Prepared(unit) => units.abort_prepared(unit, volume, log, reason, clock),
        Token::Spent => unreachable!(),
    }
}
