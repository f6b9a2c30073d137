//! What the definitions promise.
ghost use Rattle.seq_file.specs.Placing.{FilledIsPlaced, PrefixPlaces};
ghost use Rattle.seq_file.specs.Records.{ListSetSets, TakeCuts};
ghost use Rattle.seq_file.specs.Layout.{LaidOutIsPlaced, AskedIsPlaced, AppendTakes};

/// Buckets that were filled in turn are as many as the placing of their slots takes.
pub fn filled_is_placed()
    ensures { FilledIsPlaced }
{}

/// The used buckets of a file that is laid out are as many as the placing of its records takes, also after records were
/// taken away.
pub fn laid_out_is_placed()
    ensures { LaidOutIsPlaced }
{}

/// The first records of a list need no more buckets than all of them.
pub fn prefix_places()
    ensures { PrefixPlaces }
{}

/// What is asked of free buckets for a record more is what the placing with it takes more.
pub fn asked_is_placed()
    ensures { AskedIsPlaced }
{}

/// A record may be put behind the others where the placing with it fits the file.
pub fn append_takes()
    ensures { AppendTakes }
{}

/// To set a position in the list of records sets that key of the map, and no other.
pub fn list_set_sets()
    ensures { ListSetSets }
{}

/// To keep the first records alone takes the positions behind them out of the map.
pub fn take_cuts()
    ensures { TakeCuts }
{}
