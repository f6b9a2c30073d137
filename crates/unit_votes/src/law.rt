//! What keeps units and the log together.
ghost use Rattle.std.specs.Prelude.{◌≡◌, ◌<◌, ℕ, true, false, List, Option, Some, None, length, slice_set};
ghost use Rattle.commit_protocol.specs.Messages.{LogRecord, Name};
ghost use Rattle.lmcp_log.specs.Log.{record_with};
ghost use Rattle.unit_entries.specs.log_laws.Slots.{Slots, has_free, put_in, settled_in};
ghost use Rattle.unit_table.specs.Units.{OpenUnit, new_unit, prepared_unit, unit_at};
ghost use Rattle.vms_model.specs.Ids.{Id};
ghost use Rattle.journal_model.specs.Entries.{Entry};
ghost use Rattle.unit_entries.specs.run_model.World.{File};
ghost use Rattle.unit_aborts.specs.unit_undo.Undoing.{GoesOn};
ghost use Rattle.unit_aborts.specs.unit_undo.Way.{IsUndoable, Undoes};
ghost use Rattle.unit_votes.specs.Logging.{HasLog};
ghost use Rattle.volume.specs.State.{VolumeState};
ghost use Rattle.unit_votes.specs.Tied.{AreTied, IsOfNone, IsOutcome, IsSameUnit};
ghost use Rattle.unit_votes.specs.Voting.{vote_record};

use lmcp_log::log_is_as_it_was_left;

/// What is set back of a unit is the content's log as it was before.
pub fn undo_leaves_the_log()
    ensures { (ss : Slots) (ps : List ℕ) (v mid : VolumeState) (serial : Id) (a : List (List ℕ)) (directory : List (Option File)) (es : List Entry)
        → IsUndoable serial ps v a directory es → GoesOn v mid → Undoes ps v mid → HasLog ss v → HasLog ss mid }
{
    log_is_as_it_was_left();
}

/// Units and the log hang together after each step:
///
/// - a unit begins of a branch that has no unit and no record;
/// - a unit changes, and is of the same branch and as prepared as before;
/// - a unit is prepared, and a slot is free for its record;
/// - a unit is settled, and from then on the log has a committed record of it, or nothing; so it is where it is aborted, and where it only read;
/// - a committed record changes or goes, whose branch has no unit.
pub fn units_and_log_hang_together()
    ensures begins { (places : List (Option OpenUnit)) (ss : Slots) (p : ℕ) (tid serial : Id) → AreTied places ss → p < length places → unit_at places p ≡ None → IsOfNone serial places → record_with serial ss ≡ None → AreTied (slice_set places p (Some (new_unit tid serial))) ss }
    ensures changes { (places : List (Option OpenUnit)) (ss : Slots) (p : ℕ) (u w : OpenUnit) → AreTied places ss → unit_at places p ≡ Some u → IsSameUnit u w → AreTied (slice_set places p (Some w)) ss }
    ensures prepares { (places : List (Option OpenUnit)) (ss : Slots) (p : ℕ) (u : OpenUnit) (rms : List Name) → AreTied places ss → unit_at places p ≡ Some u → u.prepared ≡ false → has_free ss ≡ true → AreTied (slice_set places p (Some (prepared_unit u))) (put_in (vote_record u.tid u.serial rms) ss) }
    ensures settles { (places : List (Option OpenUnit)) (ss : Slots) (p : ℕ) (u : OpenUnit) (rec : Option LogRecord) → AreTied places ss → unit_at places p ≡ Some u → IsOutcome u.serial rec ss → AreTied (slice_set places p None) (settled_in u.serial rec ss) }
    ensures keeps { (places : List (Option OpenUnit)) (ss : Slots) (serial : Id) (rec : Option LogRecord) → AreTied places ss → IsOfNone serial places → IsOutcome serial rec ss → AreTied places (settled_in serial rec ss) }
{}
