//! What the definitions promise.
ghost use Rattle.directory_model.specs.Laws.{EntersImages, FindsFiles, FindsPlaces, FindsRuns, KeepsFiles, KeepsHeads, LieApart, MakesFiles, ReadsFiles, ShowsRecords, StandsOnExtents, TakesBlocks, WritesApart};

/// The world finds by a name the file that the volume finds by it: the one of the lowest number. Where the volume finds none, so does the world.
pub fn files_are_found_by_name()
    ensures { FindsFiles }
{}

/// A new file's place in the world is the lowest file number that is free in the volume.
pub fn places_are_found_alike()
    ensures { FindsPlaces }
{}

/// A block is taken in the world exactly where an extent of the volume's files has it.
pub fn blocks_are_taken_alike()
    ensures { TakesBlocks }
{}

/// The world's longest run of free blocks, and its lowest one of a size, are those between the volume's extents.
pub fn free_runs_are_found_alike()
    ensures { FindsRuns }
{}

/// Each act of the world keeps its files those of the volume, where the volume changes with it.
pub fn acts_keep_files()
    ensures { KeepsFiles }
{}

/// With an entry of images at the end of a file's journal the volume's file is the world's with that entry; so each act of the world is followed once its
/// images are in the journals.
pub fn images_are_entered()
    ensures { EntersImages }
{}

/// The world's file tells what is asked of its records as the volume's file does.
pub fn records_are_read_alike()
    ensures { ReadsFiles }
{}

/// The answers to 'which record is the next' are the entries of the world's file in their order.
pub fn records_are_shown_in_order()
    ensures { ShowsRecords }
{}

/// A content has the files that another has with which it agrees on their extents.
pub fn files_stand_on_their_extents()
    ensures { StandsOnExtents }
{}

/// Files lie in the area. A block of one file is none of another, and none of a free run.
pub fn files_lie_apart()
    ensures { LieApart }
{}

/// What is written in one file's buckets, journals or save leaves the other files and the rest of its own, and what is written in a free run or before the
/// area leaves all.
pub fn writes_stay_apart()
    ensures { WritesApart }
{}

/// The extents of the files fit and names are of one file, also where a file is made, marked or changed.
pub fn acts_keep_heads()
    ensures { KeepsHeads }
{}

/// The head of a file that is made is that of the world's new file.
pub fn new_files_are_alike()
    ensures { MakesFiles }
{}
