//! What is said on the standard error of how a run ended.
use dtm_command::{Tail, bad_line, too_long, usage};
use dtm_run::Exit;
use std::alloc::{AllocError, Global};

/// What is said of a run that ended so, of which these are the last bytes read and written: nothing where every line was answered.
pub fn said_of(
    alloc: Global,
    exit: Exit,
    script: &Tail,
    transcript: &Tail,
) -> Result<String, AllocError> {
    match exit {
        Exit::Done => Ok(String::new(alloc)),
        Exit::BadLine => bad_line(alloc, script, transcript),
        Exit::Usage => usage(alloc),
        Exit::ReadFault => String::from_str(
            alloc,
            "dtm: the script cannot be read from the standard input\n",
        ),
        Exit::WriteFault => String::from_str(
            alloc,
            "dtm: the transcript cannot be written to the standard output; more may have been done than it shows\n",
        ),
        Exit::Memory => String::from_str(alloc, "dtm: memory is missing\n"),
        Exit::TooLong => too_long(alloc, script, transcript),
    }
}
