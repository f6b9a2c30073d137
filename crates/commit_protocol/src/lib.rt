//! The presumed-abort commit protocol: the table of one node, its rows, and the theorem that no two branches of a transaction are settled differently.
//!
//! The crate has definitions and laws, and nothing that runs. `specs/` has, from the bottom up: `Messages` (kinds of messages, events and replies of
//! resource managers, records of the log), `Table` (branches, the acts of which rows are made, a node after a restart), `Rows` (one row of acts for each
//! event), `Effects` (what a row hands to the layers above), `Reasons` (with which event an abort may come), `Allowed` (which statements are refused),
//! `World` (all nodes, messages and steps of a run), `Agreement` (the eleven parts), `Opening` (the images that a run begins with), `Orders` (of committed
//! records), `Standing` (what the acts of a row find at the table) and `Limits`.
#![tactic(auto)]

ghost use Rattle.std.specs.Prelude.{◌≡◌, ◌≢◌, ◌≤◌, ℕ, Bool, true, false, List, ◌++◌, length, Option, Some, slice_get};
ghost use Rattle.vms_model.specs.Ids.{Id};
ghost use Rattle.commit_protocol.specs.Messages.{Name, Message, LogRecord};
ghost use Rattle.commit_protocol.specs.Table.{Key, Branch, Prepared, Tm, Act, after, table_after, restarted, prepared_records, branch_serials, find, find_serial, put, first, home_of, coordinator_of};
ghost use Rattle.commit_protocol.specs.Rows.{Event, row};
ghost use Rattle.commit_protocol.specs.Effects.{effects_of};
ghost use Rattle.commit_protocol.specs.Allowed.{allowed};
ghost use Rattle.commit_protocol.specs.Reasons.{HaveCauses};
ghost use Rattle.commit_protocol.specs.Limits.{TmWithin, LogWithin, ActsLawful};
ghost use Rattle.commit_protocol.specs.World.{World, In, Step, run, acts_all, tm_at, may_boot, boots};
ghost use Rattle.commit_protocol.specs.Orders.{IsPermuted, reordered, swaps_of};
ghost use Rattle.commit_protocol.specs.Settling.{inquiry, run_down, IsOut};
ghost use Rattle.commit_protocol.specs.Opening.{Opening, IsAgreeing, AreRearranged, record_keys, opened, left, new_volumes};
ghost use Rattle.commit_protocol.specs.Agreement.{view, phase, Running, Agrees, IsDead, NoneAborted, SettlesAlike, Distinct};
ghost use Rattle.commit_protocol.specs.Standing.{BeginsNothing, AllStand, Stands, writes, LastsAlike, IsNew, HasApartLog};

/// The agreement theorem of presumed abort. Over every list of statements, messages that come late, twice or never, stops at any act of a row, crashes and
/// restarts, from images that agree:
///
/// - the world that is reached agrees in all eleven parts;
/// - no transaction has a committed branch and an aborted one, and no branch of a committed transaction is aborted;
/// - a transaction that is dead, neither undecided nor committed, stays dead;
/// - the images that the run leaves agree again, so that they are a lawful beginning of the next run.
///
/// Volumes that were just made agree.
pub fn agreement()
    ensures agrees { (o : Opening) → IsAgreeing o → (steps : List Step) → Agrees (view (run steps (opened o))) }
    ensures settles_alike { (o : Opening) → IsAgreeing o → (steps : List Step) → SettlesAlike (view (run steps (opened o))) }
    ensures none_aborted { (o : Opening) → IsAgreeing o → (steps : List Step) → NoneAborted (view (run steps (opened o))) }
    ensures stays_dead { (o : Opening) → IsAgreeing o → (early late : List Step) (t : Id)
        → IsDead (view (run early (opened o))) t → IsDead (view (run (early ++ late) (opened o))) t }
    ensures images_agree { (o : Opening) → IsAgreeing o → (steps : List Step) → IsAgreeing (left (run steps (opened o)) o) }
    ensures new_volumes_agree { (nodes : List Name) → IsAgreeing (new_volumes nodes) }
{}

/// The world's steps are those of a node's table. After the acts of a row a node knows what the row leaves, and no other node knows anything else.
/// The committed records of a node may come in any order. A node that boots knows the prepared and the committed records of its log, both in any
/// order, as that of the log's slots; behind the prepared ones the boot may name the units that it undoes. Any message that was ever sent may come.
pub fn tables()
    ensures follow { (w : World) (n : Name) (todo : List Act) → tm_at (acts_all n todo w) n ≡ after todo (tm_at w n) }
    ensures others_stay { (w : World) (n other : Name) (todo : List Act) → (other ≡ n → ⊥) → (acts_all n todo w).nodes other ≡ w.nodes other }
    ensures any_order_comes { (w : World) (n : Name) (committed : List LogRecord) → IsPermuted committed (w.nodes n).records
        → (places : List ℕ) × (run (swaps_of places n) w ≡ reordered n committed w) }
    ensures restart { (o : Opening) → IsAgreeing o → (steps : List Step) (n : Name) (prepared committed : List LogRecord) (units : List Key)
        → may_boot n (run steps (opened o)) ≡ true → AreRearranged prepared (prepared_records ((run steps (opened o)).nodes n).table)
        → IsPermuted committed ((run steps (opened o)).nodes n).records
        → tm_at (boots n (record_keys prepared ++ units) (reordered n committed (run steps (opened o)))) n ≡ restarted n prepared committed }
    ensures any_message_comes { (w : World) (m : Message) → In m w.sent → (which : ℕ) × (slice_get w.sent which ≡ Some m) }
{}

/// How branches come to their outcome once messages come. The run-down of a node leaves it with prepared branches alone. A prepared branch whose node and
/// coordinator are up, and whose transaction is not undecided, is settled by the answer to its question.
pub fn outcomes()
    ensures run_down { (w : World) (n : Name) → (w.nodes n).up ≡ true → (b : Branch) → In b ((run_down n w).nodes n).table → b.state ≡ Prepared }
    ensures inquiry { (w : World) (b : Branch) → (w.nodes (home_of b.key)).up ≡ true → (w.nodes (coordinator_of b.key)).up ≡ true
        → find_serial b.key.serial (w.nodes (home_of b.key)).table ≡ Some b → b.state ≡ Prepared
        → (phase (find (first b.key.tid) (w.nodes (coordinator_of b.key)).table) ≢ Running)
        → IsOut (run (inquiry (home_of b.key) b.key.serial) w) b.key }
{}

/// Each abort of a row, and each outcome of an END_TRANS that is shown as an abort, has a reason that the row's event names.
pub fn reasons()
    ensures have_causes { (tm : Tm) (e : Event) → HaveCauses e (row tm e) }
{}

/// A node's table keeps within its limits: 64 unsettled branches, with them at most 512 records, and of each branch at most 15 identifiers, 15 accepted
/// serials and 8 managers. One event has at most 2,048 effects. What a row writes to the log are records of the log: a committed record is that of the branch
/// that is committed and waits for something, or is one that stood there with less to wait for; one that goes stood there.
pub fn limits()
    ensures keep { (tm : Tm) (e : Event) → TmWithin tm → allowed tm e ≡ true → TmWithin (after (row tm e) tm) }
    ensures restart { (n : Name) (prepared committed : List LogRecord) → LogWithin prepared committed → TmWithin (restarted n prepared committed) }
    ensures effects { (tm : Tm) (e : Event) → TmWithin tm → length (effects_of (row tm e) tm.records) ≤ 2048 }
    ensures writes { (tm : Tm) (e : Event) → TmWithin tm → allowed tm e ≡ true → ActsLawful (row tm e) tm.records }
{}

/// No serial stands twice among a node's branches and committed records, in any world that is reached from images that agree; so none stands twice in its log.
pub fn logs()
    ensures { (o : Opening) → IsAgreeing o → (steps : List Step) (n : Name) → HasApartLog (tm_at (run steps (opened o)) n) }
{}

/// What the acts of a row find at the table, and what they leave of what lasts on the disk. Where no serial stands twice among a node's branches, what is
/// noted or leaves stands there unprepared, what is prepared stood there unprepared, and what is settled stands there. An act that writes nothing to the disk
/// leaves the prepared records and the units that a fall would leave, and so does a branch that begins.
pub fn notes()
    ensures stand { (tm : Tm) (e : Event) → Distinct (branch_serials tm.table) → BeginsNothing e → AllStand tm.table (row tm e) }
    ensures lasts { (bs : List Branch) (a : Act) → Distinct (branch_serials bs) → writes a ≡ false → Stands bs a → LastsAlike bs (table_after a bs) }
    ensures begins { (bs : List Branch) (b : Branch) → IsNew bs b → LastsAlike bs (put b bs) }
{}
