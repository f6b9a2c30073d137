//! The laws of the transaction log's slots: that they tell the table of their node, act by act, and that its effects are handed on one by one.
//!
//! The crate has definitions and laws, and nothing that runs. `specs/Slots` has the slots, and what each act of a table makes of them;
//! `specs/Handing` the effects of a row between those before and those after.
#![tactic(auto)]

ghost use Rattle.std.specs.Prelude.{◌≡◌, ◌≤◌, ◌+◌, length, List};
ghost use Rattle.commit_protocol.specs.Table.{Tm, Act, after_act, after, prepared_records, record_serials, restarted};
ghost use Rattle.commit_protocol.specs.Messages.{Name, LogRecord};
ghost use Rattle.commit_protocol.specs.Opening.{AreRearranged};
ghost use Rattle.commit_protocol.specs.Orders.{IsPermuted};
ghost use Rattle.commit_protocol.specs.Rows.{Event, row};
ghost use Rattle.commit_protocol.specs.Agreement.{Distinct};
ghost use Rattle.commit_protocol.specs.Standing.{HasApartLog, Stands};
ghost use Rattle.log_laws.specs.Slots.{Slots, slots_after, LogTells, HasSlot, AllTell, IsFresh, size, branches_added, records_in, prepared_of, committed_of, AreCommitted, AreUnwaiting, SlotsAreCounted};
ghost use Rattle.log_laws.specs.Handing.{EffectsAreActs};

/// The effects of a row come one by one of its acts, in their order: before each effect the node has done a front of the row's acts.
pub fn effects_are_acts()
    ensures { EffectsAreActs }
{}

/// The slots of a log go on telling the table of its node:
///
/// - through each act that finds its branch and, where it writes a record anew, a free slot;
/// - through all acts of each row, where unsettled branches and committed records together are no more than the slots;
/// - and of these there are no more after a row than before it, but for the one branch that an event begins.
pub fn slots_follow()
    ensures act { (tm : Tm) (a : Act) (ss : Slots) → HasApartLog tm → Stands tm.table a → HasSlot ss a → LogTells tm ss → LogTells (after_act a tm) (slots_after a tm.records ss) }
    ensures row { (tm : Tm) (e : Event) (ss : Slots) → HasApartLog tm → IsFresh tm e → size tm ≤ length ss → LogTells tm ss → AllTell (row tm e) tm ss }
    ensures room { (tm : Tm) (e : Event) → HasApartLog tm → size (after (row tm e) tm) ≤ size tm + branches_added e }
{}

/// What a boot reads from the slots, in their order, are the prepared and the committed records of the table that fell, each in some order. A table that begins
/// with these, in whatever order, is told by the same slots; and so is the table that begins with slots of distinct serials, whose prepared records wait for no
/// serial.
pub fn slots_restart()
    ensures read { (tm : Tm) (ss : Slots) → HasApartLog tm → AreCommitted tm.records → LogTells tm ss
        → AreRearranged (prepared_of (records_in ss)) (prepared_records tm.table) × IsPermuted (committed_of (records_in ss)) tm.records }
    ensures told { (n : Name) (tm : Tm) (ss : Slots) (prepared committed : List LogRecord) → AreRearranged prepared (prepared_records tm.table)
        → IsPermuted committed tm.records → LogTells tm ss → LogTells (restarted n prepared committed) ss }
    ensures opens { (n : Name) (ss : Slots) → Distinct (record_serials (records_in ss)) → AreUnwaiting (records_in ss)
        → LogTells (restarted n (prepared_of (records_in ss)) (committed_of (records_in ss))) ss }
{}

/// The records of a log, with the numbers of their slots, are those in the slots, each in the slot of its number; and committed records, prepared records and
/// free slots together are the slots.
pub fn slots_are_counted()
    ensures { (ss : Slots) → SlotsAreCounted ss }
{}
