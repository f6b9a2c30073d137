//! What dumps show.

ghost use Rattle.run_laws.specs.Laws.{AgreedAbortsStand, AgreedDumpsHold, DumpsHold, OneNodeAgrees};

/// In every legal transcript in which no branch is committed whose abort a fall found under way, and before which no disk told its last settled
/// branch unsettled, each dump that succeeded showed just the records that the entries before it tell of its file: what the committed branches of its
/// node left there, over all restarts, in the order of their keys, and their number. A recovery in which the disk failed has happened whole or not at
/// all: once the node is up again, its file has the records that are told of it, or just those that the recovery was to give.
pub fn dumps_show_told()
    ensures { DumpsHold }
{}

/// Where the images agree with which a run begins, an abort that a fall found under way stands: no branch is committed whose abort was begun,
/// whatever became of it. So each dump shows just the records that the entries before it tell of its file, where no disk told its last settled branch
/// unsettled at the opening.
pub fn aborts_stand()
    ensures stand { AgreedAbortsStand }
    ensures dumps { AgreedDumpsHold }
{}

/// The image of one node alone agrees with itself, whatever the lines tell of it, where no transaction of another node was part of its disk: its log
/// is empty, its units and its last settlement are of first branches, and this is of no unit.
pub fn one_node_agrees()
    ensures { OneNodeAgrees }
{}
