//! An emitter that counts.
ghost use Rattle.std.specs.Prelude.{◌≡◌, ◌+◌, ◌-◌, ◌^◌, min};
ghost use Rattle.std.specs.Option.{option_map};
ghost use Rattle.emitter_model.specs.Tally.{commits_in, nothing_tallied, sent_behind as sent_behind_of};
ghost use Rattle.transcript.specs.Forms.{line_of};
ghost use Rattle.day_tally.specs.Answers.{answer_line};
ghost use Rattle.day_tally.specs.Counters.{shown_of, tallied_in};

use crate::answers::Answer;
use tm_types::same_id;
use transcript::{Emit, Form};

/// Counts what the lines of a transcript show, and keeps of them the number of the last message, the commits of first branches, and the last line where it is an
/// answer by which a day may end. It takes no memory, and no line fails.
#[derive(Drop)]
pub struct LineCounter {
    sent: u32,
    committed: u64,
    last: Option<Answer>,
}

impl LineCounter {
    /// Before the first line.
    pub fn new() -> LineCounter
        ensures { tallied_in result ≡ nothing_tallied }
    {
        LineCounter {
            sent: 0,
            committed: 0,
            last: None,
        }
    }

    /// The number of the last message that was sent, or 0 where none was.
    pub fn sent(&self) -> u32
        ensures { result ≡ (tallied_in self.now).sent }
    {
        self.sent
    }

    /// How many first branches were committed.
    pub fn committed(&self) -> u64
        ensures { result ≡ (tallied_in self.now).committed }
    {
        self.committed
    }

    /// The last line, where it is an answer by which a day may end.
    pub fn last(&self) -> Option<Answer>
        ensures { option_map answer_line result ≡ (tallied_in self.now).last }
    {
        self.last
    }
}

impl Emit for LineCounter {
    ghost shows = { shown_of };

    ghost place = { λ _. 0 };

    fn emit(&mut self, form: &Form<'_>) {
        self.sent = sent_behind(form, self.sent);
        self.committed = committed_behind(form, self.committed);
        self.last = Answer::of(form);
    }
}

// The number of the last message that was sent, behind a line.
fn sent_behind(form: &Form<'_>, before: u32) -> u32
    ensures { result ≡ sent_behind_of (line_of form.now) before }
{
    match form {
        Form::Sent(number, _) => *number,
        _ => before,
    }
}

// How many first branches were committed, behind a line, up to the greatest number of 64 bits.
fn committed_behind(form: &Form<'_>, before: u64) -> u64
    ensures { result ≡ min (before + commits_in (line_of form.now)) (2 ^ 64 - 1) }
{
    match form {
        Form::Committed(tid, serial, _) => {
            if same_id(&tid.0, &serial.0) {
                before.saturating_add(1)
            } else {
                before
            }
        }
        _ => before,
    }
}
