//! What holds of each node in each world of a legal transcript: what a restart needs and restores, how its journal, its log and its locks stand to
//! its unsettled branches.
#![tactic(auto)]

ghost use Rattle.world_laws.specs.Restarts.{RestartRestores, RestartCutShort, ChangesCanRestart, TablesCanRestart, HalvesCanRestart, CreatesCanRestart, MarksCanRestart, SavesCanRestart, RecoversCanRestart, DirectsCanRestart, UnlockedIsFree, HeldFree};
ghost use Rattle.world_laws.specs.Apart.{FewerLocksDiffer, HeldKeysDiffer, MoreLocksDiffer};
ghost use Rattle.world_laws.specs.Ordered.{BootsKeepOrder, ChangesKeepOrder, CreatesKeepOrder, DirectsKeepOrder, FormatsInOrder, HalvesKeepOrder, MarksKeepOrder, SavesKeepOrder, RecoversKeepOrder, TablesKeepOrder, UnitsAreUnsettled};
ghost use Rattle.world_laws.specs.Nodes.{BootsKeepUp, NodesAreKept, RowsKeepUp, StepsKeepNodes, StepsKeepOthers};
ghost use Rattle.world_laws.specs.Room.{ChangesHaveRoom, UnitsHaveRoom};
ghost use Rattle.world_laws.specs.Worlds.{BranchesAreUnsettled, ChangesAreHeld, ChangesFind, JournalsTellUnits, LocksAreBranches, LogsAreInOrder, NamesAreDifferent, TablesAreTold, UnitsAreBranches, UnitsNameFiles, WorldsCanRestart};

/// A restart undoes all that is unsettled and not prepared, and nothing else: what was committed is in each file, and so is what prepared branches
/// changed; only these have changes in a file, and the journal has no unit but theirs. Where it is cut short, all that was committed or prepared is
/// kept, and the next restart can restore it.
pub fn restarts_restore()
    ensures whole { RestartRestores }
    ensures cut { RestartCutShort }
{}

/// A restart finds what it needs after each act that finds it: after changes of keys that are free for their branch and that noted what they found,
/// after such changes of a branch of its own that is committed at once, after any act of the table, after a new file, after a mark, a save and a recovery;
/// and where an abort was done in part.
pub fn acts_can_restart()
    ensures changes { ChangesCanRestart }
    ensures directs { DirectsCanRestart }
    ensures tables { TablesCanRestart }
    ensures halves { HalvesCanRestart }
    ensures creates { CreatesCanRestart }
    ensures marks { MarksCanRestart }
    ensures saves { SavesCanRestart }
    ensures recoveries { RecoversCanRestart }
{}

/// Where each key that an unsettled branch changed is held by it, a key that no other branch holds is free for a branch to change, and so are all keys
/// that it asks for and that none refuses.
pub fn unlocked_keys_are_free()
    ensures one { UnlockedIsFree }
    ensures asked { HeldFree }
{}

/// No key of a file is locked twice: so it stays where a branch holds more keys that differ, and where it lets go of its keys. The keys that a branch holds for
/// an operation differ, unless a record stands at the end of the file.
pub fn locks_lie_apart()
    ensures more { MoreLocksDiffer }
    ensures fewer { FewerLocksDiffer }
    ensures keys { HeldKeysDiffer }
{}

/// The journal of a disk stays in order: its entries suit their files and follow one another, neither changes nor units nor bytes become too many,
/// and no branch was settled later than the greatest moment. So it is on a new volume, after changes that may be entered, after an act of the table
/// that prepares a branch once or settles it later than those before it, after a boot, after a new file, after a mark, a save and a recovery, and where
/// an abort was done in part. A branch that is a unit of it is not settled there.
pub fn journals_stay_in_order()
    ensures new { FormatsInOrder }
    ensures boots { BootsKeepOrder }
    ensures creates { CreatesKeepOrder }
    ensures marks { MarksKeepOrder }
    ensures saves { SavesKeepOrder }
    ensures recoveries { RecoversKeepOrder }
    ensures changes { ChangesKeepOrder }
    ensures directs { DirectsKeepOrder }
    ensures tables { TablesKeepOrder }
    ensures halves { HalvesKeepOrder }
    ensures unsettled { UnitsAreUnsettled }
{}

/// What no quota refuses may be entered in a journal that is in order: changes that are not too many and fit into it, by a branch of which there are
/// not too many.
pub fn unrefused_changes_fit()
    ensures changes { ChangesHaveRoom }
    ensures units { UnitsHaveRoom }
{}

/// In each world that a legal transcript leads to, whichever statements were cut short, the disk of each node has what a restart needs, its log and
/// its journal tell one another, and a name is one file's. While a node is up its log and its journal tell its table, and there are no more branches
/// and records than slots. Each unit of its journal is an unsettled branch, which holds the keys that it changed, is not settled in the journal, and
/// has changed no file that is not there. Each change of an operation notes what it found. Only unsettled branches hold keys, and the end of a
/// sequential file is held by the branch that moved it, also where that is prepared and the node was booted since; neither branches nor keys are more
/// than may be. The journal tells the changes of unsettled branches, of which one at the most has moved the end of a file.
pub fn worlds_can_restart()
    ensures restart { WorldsCanRestart }
    ensures logs { LogsAreInOrder }
    ensures names { NamesAreDifferent }
    ensures tables { TablesAreTold }
    ensures held { ChangesAreHeld }
    ensures units { UnitsAreBranches }
    ensures unsettled { BranchesAreUnsettled }
    ensures files { UnitsNameFiles }
    ensures found { ChangesFind }
    ensures locks { LocksAreBranches }
    ensures tells { JournalsTellUnits }
{}

/// What holds of each node in each world of a run: its disk, also where an act was under way, and its table, its journal and its locks while it is
/// up. Each step of a node keeps it, there and of the other nodes; at a node that is up so do the rows of a task that nothing refuses, one after
/// another; and so do the rows of a boot, behind which the node is up.
pub fn nodes_stay_kept()
    ensures worlds { NodesAreKept }
    ensures steps { StepsKeepNodes }
    ensures others { StepsKeepOthers }
    ensures rows { RowsKeepUp }
    ensures boots { BootsKeepUp }
{}
