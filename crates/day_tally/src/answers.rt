//! The answers by which a day may end.
ghost use Rattle.std.specs.Prelude.{◌≡◌};
ghost use Rattle.std.specs.Option.{option_map};
ghost use Rattle.emitter_model.specs.Tally.{closing_answer};
ghost use Rattle.transcript.specs.Forms.{HasTime, line_of};
ghost use Rattle.day_tally.specs.Answers.{answer_line};

use transcript::{Cause, Form, Quota};
use vms_base::{NodeName, Serial};

/// An answer of a settling or of a dump, or a failure.
#[derive(Clone, Copy)]
pub enum Answer {
    Normal,
    /// So many records.
    Count(u64),
    NoSuchNode,
    NodeDown,
    NodeUp,
    NotInitializedAt(NodeName),
    FileNotFound,
    FileLocked(Serial),
    NoVolume(NodeName, u32, u32),
    QuotaExceeded(Quota, u64),
    InDoubt(Serial, NodeName),
    NoMemory,
    Broken(Cause),
}

impl Answer {
    /// The answer that a line shows, where it may be one of these.
    pub fn of(form: &Form<'_>) -> Option<Answer>
        ensures { option_map answer_line result ≡ closing_answer (line_of form.now) }
    {
        match form {
            Form::Normal => Some(Answer::Normal),
            Form::NormalCount(n) => Some(Answer::Count(*n)),
            Form::NoSuchNode => Some(Answer::NoSuchNode),
            Form::NodeDown => Some(Answer::NodeDown),
            Form::NodeUp => Some(Answer::NodeUp),
            Form::NotInitializedAt(node) => Some(Answer::NotInitializedAt(*node)),
            Form::FileNotFound => Some(Answer::FileNotFound),
            Form::FileLocked(serial) => Some(Answer::FileLocked(*serial)),
            Form::NoVolume(node, condition, block) => Some(Answer::NoVolume(
                *node, *condition, *block,
            )),
            Form::QuotaExceeded(quota, limit) => Some(Answer::QuotaExceeded(*quota, *limit)),
            Form::InDoubt(serial, node) => Some(Answer::InDoubt(*serial, *node)),
            Form::NoMemory => Some(Answer::NoMemory),
            Form::Broken(cause) => Some(Answer::Broken(*cause)),
            _ => None,
        }
    }

    /// The line that shows it.
    pub fn form(self) -> Form<'static>
        ensures line { line_of result ≡ answer_line self }
        ensures time { HasTime result }
    {
        match self {
            Answer::Normal => Form::Normal,
            Answer::Count(n) => Form::NormalCount(n),
            Answer::NoSuchNode => Form::NoSuchNode,
            Answer::NodeDown => Form::NodeDown,
            Answer::NodeUp => Form::NodeUp,
            Answer::NotInitializedAt(node) => Form::NotInitializedAt(node),
            Answer::FileNotFound => Form::FileNotFound,
            Answer::FileLocked(serial) => Form::FileLocked(serial),
            Answer::NoVolume(node, condition, block) => Form::NoVolume(node, condition, block),
            Answer::QuotaExceeded(quota, limit) => Form::QuotaExceeded(quota, limit),
            Answer::InDoubt(serial, node) => Form::InDoubt(serial, node),
            Answer::NoMemory => Form::NoMemory,
            Answer::Broken(cause) => Form::Broken(cause),
        }
    }
}
