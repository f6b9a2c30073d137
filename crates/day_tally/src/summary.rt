//! What is written for a day.
ghost use Rattle.std.specs.Prelude.{◌≡◌, ◌++◌, ◌∷◌, [], map};
ghost use Rattle.transcript.specs.Emitters.{shown_by};
ghost use Rattle.emitter_model.specs.Emitting.{Puts};
ghost use Rattle.day_script.specs.day_model.Days.{counts_text, numbers_text};
ghost use Rattle.day_script.specs.Steps.{file_of, piece_of, side_of};
ghost use Rattle.day_tally.specs.Counters.{tallied_in};
ghost use Rattle.day_tally.specs.Ends.{end_text};

use crate::counter::LineCounter;
use crate::counts::{Counts, Ended};
use day_script::{Day, File, Side, Step, dumps};
use transcript::{Sink, SinkEmit};

// The node and the file of a count, with a space behind each.
fn file_label(side: Side, file: File) -> &'static [u8]
    ensures { result.now ≡ side_of side ++ (32 ∷ (file_of file ++ (32 ∷ []))) }
{
    match (side, file) {
        (Side::A, File::S) => b"A S ",
        (Side::A, File::R) => b"A R ",
        (Side::A, File::I) => b"A I ",
        (Side::B, File::S) => b"B S ",
        (Side::B, File::R) => b"B R ",
        (Side::B, File::I) => b"B I ",
    }
}

// The counts of files, each behind its node and its name.
fn write_counts<K: Sink>(out: &mut SinkEmit<'_, K>, steps: &[Step], counts: &[u64])
    ensures same_sink { out.new.sink.ghost_name ≡ out.old.sink.ghost_name }
    ensures puts { Puts (shown_by K.shown K.faults out.old) (counts_text (map (piece_of 0 0) steps.now) counts.now) (shown_by K.shown K.faults out.new) }
{
    match steps {
        [] => {}
        [step, steps @ ..] => match counts {
            [] => {}
            [count, counts @ ..] => {
                if let Step::Dump(side, file) = *step {
                    out.count(file_label(side, file), *count);
                    write_counts(out, steps, counts);
                }
            }
        },
    }
}

// The numbers of a day's transactions.
fn write_numbers<K: Sink>(out: &mut SinkEmit<'_, K>, asked: Day, committed: u64)
    ensures same_sink { out.new.sink.ghost_name ≡ out.old.sink.ghost_name }
    ensures puts { Puts (shown_by K.shown K.faults out.old) (numbers_text asked.count committed) (shown_by K.shown K.faults out.new) }
{
    let count = u64::from(asked.count);
    out.count(b"TRANSACTIONS ", count);
    out.count(b"COMMITTED ", committed);
    out.count(b"ABORTED ", count.saturating_sub(committed));
}

/// Writes what is shown for a day that ended so: its summary, or the answer at which it stopped.
pub fn write_end<K: Sink>(
    out: &mut SinkEmit<'_, K>,
    asked: Day,
    ended: Ended,
    lines: &LineCounter,
    counts: &Counts,
)
    ensures same_sink { out.new.sink.ghost_name ≡ out.old.sink.ghost_name }
    ensures puts { Puts (shown_by K.shown K.faults out.old) (end_text asked.count (tallied_in lines.now) ended counts.now) (shown_by K.shown K.faults out.new) }
{
    match ended {
        Ended::Whole => {
            write_numbers(out, asked, lines.committed());
            write_counts(out, dumps(), counts.items());
        }
        Ended::Stopped => match lines.last() {
            Some(answer) => out.alone(&answer.form()),
            None => {}
        },
    }
}
