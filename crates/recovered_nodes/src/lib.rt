//! The laws by which a file of a volume is the world's recovered file, and a node of the world and its volume stay one over its recovery.
//!
//! The crate has definitions and laws, and nothing that runs.
#![tactic(auto)]

ghost use Rattle.recovered_nodes.specs.Laws.{RecoversNodes};
ghost use Rattle.recovered_nodes.specs.Recovering.{RecoveriesKeepFiles};
ghost use Rattle.recovered_nodes.specs.Rows.{FilesAreKnown, LoadsAreRows, RecordsMayStand};

pub use recover_rms::recover;
pub use unit_world::nodes_are_kept;

/// Once the records of a recovery are loaded into other buckets, and each journal of the file begins anew, the volume's files are those of the world.
pub fn recoveries_keep_files()
    ensures { RecoveriesKeepFiles }
{}

/// What recovery knows of a file of the world, the content of its volume has of it.
pub fn files_are_known()
    ensures { FilesAreKnown }
{}

/// The head of a file into which records were loaded is that of the world's recovered file; its records, its layout, its buckets and its count are those of
/// the world.
pub fn loads_are_rows()
    ensures { LoadsAreRows }
{}

/// Each record that a recovery makes may be the file's.
pub fn records_may_stand()
    ensures { RecordsMayStand }
{}

/// What a recovery knows of a file is what the world does: it is refused, counts records, takes blocks and finds no room as the world says. A node that is up is its
/// units and its volume still once the records took the place of the file's own, and where free blocks alone were written.
pub fn recoveries_keep_nodes()
    ensures { RecoversNodes }
{}
