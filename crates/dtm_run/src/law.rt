//! What the definitions promise.
ghost use Rattle.dtm_run.specs.Leading.{KnownRunsAreWhole, MadeRunsAreWhole};
ghost use Rattle.dtm_run.specs.Openings.{OpeningsExist};
ghost use Rattle.dtm_run.specs.Reopenings.{LeftNodesOpen, LeftRacksOpen};

use directory_model::records_are_read_alike;
use volume::each_content_has_a_volume_or_a_finding;
use volume_laws::volumes_fall;
use world_laws::nodes_stay_kept;

/// On each disk that tells its content there stands a node as before the first line. Where nothing is pending on it, and its volume rests or was left by a node
/// that fell, this has the volume, or the first condition that fails. So the promises of a run are not empty.
pub fn opening_nodes_exist()
    ensures { OpeningsExist }
{
    records_are_read_alike();
    each_content_has_a_volume_or_a_finding();
    volumes_fall();
}

/// What a run leaves of a node's disk, the next run may begin with: on each image that a power loss may leave there stands, as before the first line, the node
/// that was left. What was committed stands there, and what was not settled is there to be undone. And so on all disks of a rack, where no two nodes have one name.
pub fn left_nodes_open()
    ensures one { LeftNodesOpen }
    ensures all { LeftRacksOpen }
{
    nodes_stay_kept();
    volumes_fall();
}

/// From nodes of whose disks something is known on, a run leads on to its end: the whole transcript is legal and keeps its promises, and the disks have what
/// the nodes have.
pub fn known_runs_are_whole()
    ensures { KnownRunsAreWhole }
{}

/// Whatever the disks had: where an INIT of each node of whose disk nothing is known succeeds before it is booted, or a failure ends one, a run leads on to its end.
pub fn made_runs_are_whole()
    ensures { MadeRunsAreWhole }
{}
