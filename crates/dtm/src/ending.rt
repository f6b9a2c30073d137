//! How the program's work ends, and with which status.
ghost use Rattle.std.specs.Prelude.{◌≡◌, [], true, false, IfOk, IfErr, OnErr, map, string_bytes};
ghost use Rattle.transcript_model.specs.Outside.{Rose};
ghost use Rattle.dtm_command.specs.Images.{images_of as images_said};
ghost use Rattle.dtm_command.specs.declared.images.OpenErr.TheVariants as open_err;
ghost use Rattle.dtm.specs.Causes.{WhyUnfilled};
ghost use Rattle.dtm.specs.Days.{is_for_a_day as is_for_a_day_of};
ghost use Rattle.dtm.specs.Endings.{DayEnded, ScriptEnded};
ghost use Rattle.dtm.specs.Statuses.{status_of as status_said, unopened as unopened_said};

use crate::command::run_command;
use crate::day::{is_for_a_day, run_day_command};
use block_disk::{CrashDisk, Disk, MemPlatter};
use dtm_command::{ImageFiles, OpenErr};
use dtm_run::Exit;
use std::alloc::Global;
use transcript::{Sink, Source};

const CANNOT_OPEN: u8 = 7;

/// The status that the process ends with after a run that ended so.
pub fn status_of(exit: Exit) -> u8
    ensures { result ≡ status_said exit }
{
    match exit {
        Exit::Done => 0,
        Exit::BadLine => 1,
        Exit::Usage => 2,
        Exit::ReadFault => 3,
        Exit::WriteFault => 4,
        Exit::Memory => 5,
        Exit::TooLong => 6,
    }
}

/// The status that it ends with where nothing was run.
pub fn status_unopened(e: &OpenErr<'_>) -> u8
    ensures { result ≡ unopened_said e.now }
{
    match e {
        OpenErr::Memory => status_of(Exit::Memory),
        OpenErr::Image(_, _) => CANNOT_OPEN,
    }
}

// How the day ends that words ask for; or that memory is missing for it.
fn day_ended<S: Source, K: Sink>(
    alloc: Global,
    words: &[String],
    source: &mut S,
    sink: &mut K,
) -> Result<Exit, OpenErr<'static>>
    ensures ran { IfOk result (λ exit. DayEnded (⟦<CrashDisk<MemPlatter> as Disk>⟧.state) (map string_bytes words.now) (S.left source.old) (S.left source.new) (K.shown sink.old) (K.shown sink.new) exit) }
    ensures write_fault { IfOk result (λ exit. exit ≡ Exit.WriteFault → Rose (K.faults sink.old) (K.faults sink.new)) }
    ensures why { IfErr result (λ e. e ≡ open_err.Memory) }
    ensures unread { OnErr result ((S.left source.new ≡ S.left source.old) × (K.shown sink.new ≡ K.shown sink.old)) }
{
    match run_day_command(alloc, words, source, sink) {
        Ok((exit, _rack)) => Ok(exit),
        Err(_) => Err(OpenErr::Memory),
    }
}

// How the script ends over the images that words name; or why one of these is not opened.
fn script_ended<'a, F: ImageFiles, S: Source, K: Sink>(
    files: &F,
    alloc: Global,
    words: &'a [String],
    source: &mut S,
    sink: &mut K,
) -> Result<Exit, OpenErr<'a>>
    ensures ran { IfOk result (λ exit. ScriptEnded (F.store files.now) F.Image.state (map string_bytes words.now) (S.left source.old) (S.left source.new) (K.shown sink.old) (K.shown sink.new) exit) }
    ensures read_fault { IfOk result (λ exit. exit ≡ Exit.ReadFault → Rose (S.faults source.old) (S.faults source.new)) }
    ensures write_fault { IfOk result (λ exit. exit ≡ Exit.WriteFault → Rose (K.faults sink.old) (K.faults sink.new)) }
    ensures why { IfErr result (λ e. WhyUnfilled (F.store files.now) F.Image.state [] (images_said (map string_bytes words.now)) e) }
    ensures unread { OnErr result ((S.left source.new ≡ S.left source.old) × (K.shown sink.new ≡ K.shown sink.old)) }
{
    match run_command(files, alloc, words, source, sink) {
        Ok((exit, _rack)) => Ok(exit),
        Err(e) => Err(e),
    }
}

/// Runs the day that the words of a command ask for, or the script of the source over the images that they name. Gives how that ended, or why nothing was run.
pub fn words_ended<'a, F: ImageFiles, S: Source, K: Sink>(
    files: &F,
    alloc: Global,
    words: &'a [String],
    source: &mut S,
    sink: &mut K,
) -> Result<Exit, OpenErr<'a>>
    ensures day { is_for_a_day_of (map string_bytes words.now) ≡ true → IfOk result (λ exit. DayEnded (⟦<CrashDisk<MemPlatter> as Disk>⟧.state) (map string_bytes words.now) (S.left source.old) (S.left source.new) (K.shown sink.old) (K.shown sink.new) exit) }
    ensures script { is_for_a_day_of (map string_bytes words.now) ≡ false → IfOk result (λ exit. ScriptEnded (F.store files.now) F.Image.state (map string_bytes words.now) (S.left source.old) (S.left source.new) (K.shown sink.old) (K.shown sink.new) exit) }
    ensures read_fault { is_for_a_day_of (map string_bytes words.now) ≡ false → IfOk result (λ exit. exit ≡ Exit.ReadFault → Rose (S.faults source.old) (S.faults source.new)) }
    ensures write_fault { IfOk result (λ exit. exit ≡ Exit.WriteFault → Rose (K.faults sink.old) (K.faults sink.new)) }
    ensures no_day { is_for_a_day_of (map string_bytes words.now) ≡ true → IfErr result (λ e. e ≡ open_err.Memory) }
    ensures no_script { is_for_a_day_of (map string_bytes words.now) ≡ false → IfErr result (λ e. WhyUnfilled (F.store files.now) F.Image.state [] (images_said (map string_bytes words.now)) e) }
    ensures unread { OnErr result ((S.left source.new ≡ S.left source.old) × (K.shown sink.new ≡ K.shown sink.old)) }
{
    if is_for_a_day(words) {
        return match day_ended(alloc, words, source, sink) {
            Ok(exit) => Ok(exit),
            Err(e) => Err(e),
        };
    }
    script_ended(files, alloc, words, source, sink)
}
