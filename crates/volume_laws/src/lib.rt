//! The laws by which the journal and the log of a volume follow the acts of its node, and by which a volume falls and rests.
//!
//! The crate has laws, and nothing that runs. `specs/Journals` has those of the journal, `specs/Logs` those of the log, and
//! `specs/Falls` those of a whole volume.
#![tactic(auto)]

ghost use Rattle.volume_laws.specs.Falls.{VolumeFalls, VolumeRests};
ghost use Rattle.volume_laws.specs.Journals.{JournalsFollow};
ghost use Rattle.volume_laws.specs.Logs.{LogsFollow};

/// The journal in the ring is that of the node of the world after each act, where entries were written behind its end and its beginning was moved so.
pub fn journals_follow()
    ensures { JournalsFollow }
{}

/// The log in the slots is that of the node of the world on a new volume, and after an act that leaves it. It and the journal tell one another still,
/// also once a unit is settled that is not prepared.
pub fn logs_follow()
    ensures { LogsFollow }
{}

/// What the volume of a node that was up has is what a fall leaves of it. Once a restart has left no unit that is not
/// prepared, it is the volume of a node that is up.
pub fn volumes_fall()
    ensures falls { VolumeFalls }
    ensures rests { VolumeRests }
{}
