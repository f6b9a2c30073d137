//! The laws of a task's rows, which are done one after another.
//!
//! The crate has definitions and laws, and nothing that runs. `specs/May` has what each act of a row of the commit protocol's table finds where it is done;
//! `specs/Doing` what rows come to, done whole or up to a failure of the disk.
#![tactic(auto)]

ghost use Rattle.std.specs.Prelude.{◌≡◌, ◌≤◌, true, length};
ghost use Rattle.vms_model.specs.Ids.{Id};
ghost use Rattle.run_model.specs.commit_protocol.Allowed.{allowed};
ghost use Rattle.run_model.specs.commit_protocol.Limits.{TmWithin};
ghost use Rattle.run_model.specs.commit_protocol.Rows.{Event, row};
ghost use Rattle.run_model.specs.commit_protocol.Standing.{BeginsNothing};
ghost use Rattle.run_model.specs.commit_protocol.Table.{Act, Tm, after_act};
ghost use Rattle.run_model.specs.log_laws.Slots.{Slots, slots_after};
ghost use Rattle.row_laws.specs.May.{IsOfMessage, IsTold, MayDo, MayDoAll};

/// Where the log tells a table, each act of each row of it by which no branch begins may be done where its turn comes; and behind an act that may be
/// done the log tells the table again.
pub fn rows_may_be_done()
    ensures row { (tid : Id) (tm : Tm) (e : Event) (ss : Slots) → IsTold tm ss → TmWithin tm → allowed tm e ≡ true → BeginsNothing e → IsOfMessage tid e → MayDoAll tid (row tm e) tm ss }
    ensures act { (tid : Id) (tm : Tm) (a : Act) (ss : Slots) → IsTold tm ss → MayDo tid a tm ss → IsTold (after_act a tm) (slots_after a tm.records ss) }
{}
