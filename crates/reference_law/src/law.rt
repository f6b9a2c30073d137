// That what comes of a script is a run.
ghost use Rattle.reference_law.specs.Whole.{TranscriptsAreRuns};

/// What a script shows where each statement is done whole is what a run over it may show that ends so. No count of a disk rises in it, and no memory is
/// missing.
pub fn reference_transcripts_are_runs()
    ensures { TranscriptsAreRuns }
{}
