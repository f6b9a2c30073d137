//! What refuses a recovery by the head of its file is what refuses it by the file that recovery knows; and the records that are made may be the file's.
ghost use Rattle.file_recoveries.specs.Laws.{CausesAreRefusals};
ghost use Rattle.file_recoveries.specs.Suiting.{RecordsSuit};

/// What the head of a file and the unit that is told refuse a recovery for is what the file's journals and its save refuse it for, with the same
/// numbers.
pub fn causes_are_refusals()
    ensures { CausesAreRefusals }
{}

/// Each record that a recovery makes may be the file's, where each may that stands in the file or in its save.
pub fn made_records_suit()
    ensures { RecordsSuit }
{}
