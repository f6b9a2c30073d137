//! What the answers of a day come to: where it ends, and the counts of its files.
ghost use Rattle.std.specs.Prelude.{◌≡◌, ◌≤◌, ◌+◌, ◌++◌, ℕ, [], List, length, option_to_list};
ghost use Rattle.std.specs.Option.{option_map};
ghost use Rattle.day_script.specs.day_model.Days.{counted, stops as stops_of};
ghost use Rattle.day_script.specs.Steps.{piece_of};
ghost use Rattle.day_tally.specs.Answers.{answer_line};

use crate::answers::Answer;
use arrayvec::ArrayVec;
use day_script::Step;
use std::marker::Model;

/// How a day ended.
#[derive(Clone, Copy)]
pub enum Ended {
    /// All lines were served, and each file dumped.
    Whole,
    /// Memory was missing, a disk failed or was stopped, or a settling or a dump was refused.
    Stopped,
}

/// The counts of the files of a day, one after another.
#[derive(Drop)]
pub struct Counts {
    items: ArrayVec<u64, 6>,
}

impl Model for Counts {
    ghost Value = { List ℕ };

    ghost view = { λ c. c.items.items };
}

impl Counts {
    /// Before the first dump.
    pub fn new() -> Counts
        ensures { result ≡ [] }
    {
        Counts {
            items: ArrayVec::new(),
        }
    }

    /// The counts, at most six.
    pub fn items(&self) -> &[u64]
        ensures { result.now ≡ self.now }
    {
        self.items.as_slice()
    }

    /// Notes the count of a step's answer, where it is a dump that has one.
    pub fn note(&mut self, step: Step, answer: Option<Answer>)
        requires { (number key : ℕ) → length self.old + length (counted (piece_of number key step) (option_map answer_line answer)) ≤ 6 }
        ensures { (number key : ℕ) → self.new ≡ self.old ++ counted (piece_of number key step) (option_map answer_line answer) }
    {
        if let Some(n) = count_of(step, answer) {
            self.items.push(n);
        }
    }
}

// The count that a step's answer has, where it is a dump.
fn count_of(step: Step, answer: Option<Answer>) -> Option<u64>
    ensures { (number key : ℕ) → option_to_list result ≡ counted (piece_of number key step) (option_map answer_line answer) }
{
    match (step, answer) {
        (Step::Dump(_, _), Some(Answer::Count(n))) => Some(n),
        _ => None,
    }
}

/// Whether the script ends at a step that was answered so.
pub fn stops(step: Step, answer: Option<Answer>) -> bool
    ensures { (number key : ℕ) → result ≡ stops_of (piece_of number key step) (option_map answer_line answer) }
{
    match step {
        Step::Settle => !matches!(answer, Some(Answer::Normal)),
        Step::Dump(_, _) => !matches!(answer, Some(Answer::Count(_))),
        _ => matches!(answer, Some(Answer::NoMemory | Answer::Broken(_))),
    }
}
