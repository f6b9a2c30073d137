//! What single scripts show, by their definition.

ghost use Rattle.reference_law.specs.Rows.{CommittedRecordIsShown, EmptyScriptShowsNothing, AbortedRecordIsGone, UnsettledRecordStands, ZerosAreNoVolume, BootBehindCrashTellsLast, OpenQuoteIsBad, FileIsFull, SequentialFileIsTruncated, IndexedFileIsRestored};

/// A script without lines shows nothing.
pub fn empty_script_shows_nothing()
    ensures { EmptyScriptShowsNothing }
{}

/// A committed transaction's record is shown by a dump.
pub fn committed_record_is_shown()
    ensures { CommittedRecordIsShown }
{}

/// An aborted transaction's record is not shown by a dump, and the transaction cannot be ended.
pub fn aborted_record_is_gone()
    ensures { AbortedRecordIsGone }
{}

/// A record of an unsettled transaction stands in the way of another at its number, and of a dump.
pub fn unsettled_record_stands()
    ensures { UnsettledRecordStands }
{}

/// A disk of zeros has no volume, and one is made on it.
pub fn zeros_are_no_volume()
    ensures { ZerosAreNoVolume }
{}

/// A boot behind a crash tells the last settlement on the disk.
pub fn boot_behind_crash_tells_last()
    ensures { BootBehindCrashTellsLast }
{}

/// A record whose quote is not closed is a bad line from there on.
pub fn open_quote_is_bad()
    ensures { OpenQuoteIsBad }
{}

/// A record put into an indexed file whose buckets are too few for it is refused with the free and the wanted ones.
pub fn file_is_full()
    ensures { FileIsFull }
{}

/// A sequential file gives a position again that was aborted or truncated, and keeps the length of its records.
pub fn sequential_file_is_truncated()
    ensures { SequentialFileIsTruncated }
{}

/// An indexed file keeps a key once, at its own record, and has again what an aborted transaction deleted.
pub fn indexed_file_is_restored()
    ensures { IndexedFileIsRestored }
{}
