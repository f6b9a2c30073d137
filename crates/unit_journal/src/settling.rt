// Settlements.
ghost use Rattle.std.specs.Prelude.{◌≡◌, ◌≤◌, ◌<◌, ◌+◌, ◌-◌, true, List, Option, OnOk, OnErr, IfErr, length, option_map, if◌then◌else◌};
ghost use Rattle.block_disk.specs.Sizes.{least_disk_size};
ghost use Rattle.vms_base.specs.vms_model.Limits.{moment_ceiling};
ghost use Rattle.vms_base.specs.vms_model.Blocks.{home_block, journal_block, log_start};
ghost use Rattle.careful_write.specs.Down.{Counts};
ghost use Rattle.careful_write.specs.Reads.{SameButReads};
ghost use Rattle.careful_write.specs.State.{IsIdle, IsReady, OneContent};
ghost use Rattle.journal_format.specs.journal_model.Ring.{ring_size};
ghost use Rattle.journal_store.specs.Rings.{IsRing};
ghost use Rattle.vms_base.specs.Ids.{serial_of, tid_of};
ghost use Rattle.vms_base.specs.Outcomes.{outcome_of};
ghost use Rattle.volume.specs.State.{Holds, with_block};
ghost use Rattle.volume_format.specs.Home.{home_block_of, ru_block_of};
ghost use Rattle.unit_journal.specs.Settling.{MakesSettlement, content_with, entry_if, from_earliest as earliest_said, next_moment as next_said, settled_home as home_said, span_with, starting};
ghost use Rattle.unit_table.specs.Units.{OpenUnit, earliest};
ghost use Rattle.unit_journal.specs.Entries.{settled_entry};
ghost use Rattle.unit_journal.specs.Groups.{Breaks, Grows, GrowsOnce};
ghost use Rattle.unit_journal.specs.Leaving.{FellIn};

use crate::entering::enter;
use crate::entries::encode_settled;
use block_disk::Disk;
use careful_write::{Down, one_content};
use file_base::Span;
use journal_format::EntryBuf;
use unit_table::{Branch, UnitTable};
use vms_base::{Moment, Outcome, Serial, Tid};
use volume::Volume;
use volume_format::{Ending, Home, Settled};

/// The moment of the next settlement: the clock's, or the first after all that are on the disk where that is later.
pub fn next_moment(clock: Moment, home: &Home) -> Moment
    requires { home.now.greatest_moment.0 < moment_ceiling }
    ensures { result.0 ≡ next_said clock.0 home.now }
{
    let next = home.greatest_moment.0 + 1;
    if clock.0 <= next { Moment(next) } else { clock }
}

// The home once a branch was settled.
fn settled_home(home: &Home, tid: Tid, serial: Serial, ending: Ending, moment: Moment) -> Home
    ensures { result ≡ home_said tid serial ending moment.0 home.now }
{
    let mut home = *home;
    home.greatest_moment = moment;
    home.last = Some(Settled {
        tid,
        serial,
        ending,
    });
    home
}

// The journal from a position on, and else from its end on.
fn starting(span: &Span, first: Option<u64>) -> Span
    ensures { result ≡ starting first span.now }
{
    let mut span = *span;
    span.first = match first {
        Some(first) => first,
        None => span.end,
    };
    span
}

// Stages a branch's settlement: the home block, and the journal from a position on.
fn stage_from<D: Disk>(
    volume: &mut Volume<D>,
    first: Option<u64>,
    tid: Tid,
    serial: Serial,
    ending: Ending,
    moment: Moment,
)
    requires least { least_disk_size ≤ volume.old.store.disk.size }
    requires staged { length volume.old.store.touched ≤ 480 }
    ensures store { volume.new.store ≡ with_block journal_block (ru_block_of (starting first volume.old.catalog.ru)) (with_block home_block (home_block_of (home_said tid serial ending moment.0 volume.old.catalog.home)) volume.old.store) }
    ensures catalog { volume.new.catalog ≡ record volume.old.catalog { home = home_said tid serial ending moment.0 volume.old.catalog.home; ru = starting first volume.old.catalog.ru } }
    ensures holds { Holds volume.old → Holds volume.new }
    ensures ready { IsReady volume.old.store → IsReady volume.new.store }
{
    let home = settled_home(volume.home(), tid, serial, ending, moment);
    let span = starting(volume.ru(), first);
    let Ok(()) = volume.stage_home(&home) else {
        unreachable!()
    };
    let Ok(()) = volume.stage_ru(&span) else {
        unreachable!()
    };
}

/// Stages a branch's settlement: the home block, and the journal from the earliest change of the units on that are left.
pub fn stage_settlement<D: Disk>(
    volume: &mut Volume<D>,
    units: &UnitTable,
    tid: Tid,
    serial: Serial,
    ending: Ending,
    moment: Moment,
)
    requires least { least_disk_size ≤ volume.old.store.disk.size }
    requires staged { length volume.old.store.touched ≤ 480 }
    ensures store { volume.new.store ≡ with_block journal_block (ru_block_of (earliest_said units.now.places volume.old.catalog.ru)) (with_block home_block (home_block_of (home_said tid serial ending moment.0 volume.old.catalog.home)) volume.old.store) }
    ensures catalog { volume.new.catalog ≡ record volume.old.catalog { home = home_said tid serial ending moment.0 volume.old.catalog.home; ru = earliest_said units.now.places volume.old.catalog.ru } }
    ensures holds { Holds volume.old → Holds volume.new }
    ensures ready { IsReady volume.old.store → IsReady volume.new.store }
{
    stage_from(volume, units.earliest(), tid, serial, ending, moment);
}

// Stages the entry of a branch's settlement, where it changed something.
fn enter_settled<D: Disk>(
    volume: &mut Volume<D>,
    branch: &Branch,
    outcome: Outcome,
    has_changed: bool,
    moment: Moment,
    entry: &mut EntryBuf,
) -> Result<(), Down>
    requires ring { IsRing volume.old.catalog.ru volume.old.store.disk }
    requires behind { log_start ≤ volume.old.catalog.ru.start }
    requires least { least_disk_size ≤ volume.old.store.disk.size }
    requires room { has_changed ≡ true → volume.old.catalog.ru.end - volume.old.catalog.ru.first + 48 ≤ ring_size volume.old.catalog.ru }
    requires staged { length volume.old.store.touched ≤ 450 }
    ensures current { OnOk result (volume.new.store.current ≡ option_map (content_with (entry_if has_changed (settled_entry (tid_of branch.now.tid) (serial_of branch.now.serial) (outcome_of outcome) moment.0)) volume.old.catalog.ru) volume.old.store.current) }
    ensures rest { OnOk result (SameButReads (record volume.old.store { current = volume.new.store.current; touched = volume.new.store.touched }) volume.new.store) }
    ensures catalog { OnOk result (volume.new.catalog ≡ record volume.old.catalog { ru = span_with (entry_if has_changed (settled_entry (tid_of branch.now.tid) (serial_of branch.now.serial) (outcome_of outcome) moment.0)) volume.old.catalog.ru }) }
    ensures end { OnOk result (volume.new.catalog.ru.end ≡ volume.old.catalog.ru.end + (if has_changed then 48 else 0)) }
    ensures few { OnOk result (length volume.new.store.touched ≤ length volume.old.store.touched + 19) }
    ensures holds { OnOk result (Holds volume.old → Holds volume.new) }
    ensures ready { OnOk result (IsReady volume.old.store → IsReady volume.new.store) }
    ensures down { IfErr result (λ down. FellIn down volume.old volume.new) }
{
    if !has_changed {
        return Ok(());
    }
    encode_settled(branch.tid, branch.serial, outcome, moment, entry);
    enter(volume, entry)
}

/// Settles a branch in one group with what is staged: its entry, where it changed something, its settlement in the home block, and the journal from the
/// earliest change of the units on that are left, or from its end. There has to be room for the entry.
pub fn settle_staged<D: Disk>(
    volume: &mut Volume<D>,
    first: Option<u64>,
    branch: &Branch,
    outcome: Outcome,
    ending: Ending,
    has_changed: bool,
    moment: Moment,
    entry: &mut EntryBuf,
) -> Result<(), Down>
    requires ready { IsReady volume.old.store }
    requires staged { length volume.old.store.touched ≤ 450 }
    requires holds { Holds volume.old }
    requires ring { IsRing volume.old.catalog.ru volume.old.store.disk }
    requires behind { log_start ≤ volume.old.catalog.ru.start }
    requires least { least_disk_size ≤ volume.old.store.disk.size }
    requires room { has_changed ≡ true → volume.old.catalog.ru.end - volume.old.catalog.ru.first + 48 ≤ ring_size volume.old.catalog.ru }
    ensures makes { OnOk result ((left : List (Option OpenUnit)) → earliest left ≡ first → MakesSettlement branch.now.tid branch.now.serial ending moment.0 (entry_if has_changed (settled_entry (tid_of branch.now.tid) (serial_of branch.now.serial) (outcome_of outcome) moment.0)) left volume.old volume.new) }
    ensures end { OnOk result (volume.new.catalog.ru.end ≡ volume.old.catalog.ru.end + (if has_changed then 48 else 0)) }
    ensures idle { OnOk result (IsIdle volume.new.store) }
    ensures holds { OnOk result (Holds volume.new) }
    ensures breaks { OnErr result ((left : List (Option OpenUnit)) → earliest left ≡ first → Breaks (MakesSettlement branch.now.tid branch.now.serial ending moment.0 (entry_if has_changed (settled_entry (tid_of branch.now.tid) (serial_of branch.now.serial) (outcome_of outcome) moment.0)) left volume.old) volume.old volume.new) }
    ensures grows { Grows 0 moment.0 volume.old volume.new }
    ensures once { GrowsOnce moment.0 volume.old volume.new }
    ensures counts { Counts result volume.old.store.disk volume.new.store.disk }
    ensures pool { volume.new.store.pool ≡ volume.old.store.pool }
{
    one_content();
    match enter_settled(volume, branch, outcome, has_changed, moment, entry) {
        Err(down) => return Err(down),
        Ok(()) => {}
    }
    stage_from(volume, first, branch.tid, branch.serial, ending, moment);
    volume.store().apply()
}

/// Settles a branch in one group: its entry, where it changed something, its settlement in the home block, and the journal from the earliest change of the
/// units on that are left. There has to be room for the entry.
pub fn settle<D: Disk>(
    volume: &mut Volume<D>,
    left: &UnitTable,
    branch: &Branch,
    outcome: Outcome,
    ending: Ending,
    has_changed: bool,
    moment: Moment,
    entry: &mut EntryBuf,
) -> Result<(), Down>
    requires idle { IsIdle volume.old.store }
    requires holds { Holds volume.old }
    requires ring { IsRing volume.old.catalog.ru volume.old.store.disk }
    requires behind { log_start ≤ volume.old.catalog.ru.start }
    requires least { least_disk_size ≤ volume.old.store.disk.size }
    requires room { has_changed ≡ true → volume.old.catalog.ru.end - volume.old.catalog.ru.first + 48 ≤ ring_size volume.old.catalog.ru }
    ensures makes { OnOk result (MakesSettlement branch.now.tid branch.now.serial ending moment.0 (entry_if has_changed (settled_entry (tid_of branch.now.tid) (serial_of branch.now.serial) (outcome_of outcome) moment.0)) left.now.places volume.old volume.new) }
    ensures end { OnOk result (volume.new.catalog.ru.end ≡ volume.old.catalog.ru.end + (if has_changed then 48 else 0)) }
    ensures idle { OnOk result (IsIdle volume.new.store) }
    ensures holds { OnOk result (Holds volume.new) }
    ensures breaks { OnErr result (Breaks (MakesSettlement branch.now.tid branch.now.serial ending moment.0 (entry_if has_changed (settled_entry (tid_of branch.now.tid) (serial_of branch.now.serial) (outcome_of outcome) moment.0)) left.now.places volume.old) volume.old volume.new) }
    ensures grows { Grows 0 moment.0 volume.old volume.new }
    ensures counts { Counts result volume.old.store.disk volume.new.store.disk }
    ensures pool { volume.new.store.pool ≡ volume.old.store.pool }
{
    settle_staged(
        volume,
        left.earliest(),
        branch,
        outcome,
        ending,
        has_changed,
        moment,
        entry,
    )
}
