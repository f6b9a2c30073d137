//! The steps of a day, one after another.
ghost use Rattle.std.specs.Prelude.{◌≡◌, ◌∷◌, ◌+◌, ◌≤◌, ◌<◌, [], MatchOption};
ghost use Rattle.day_model.specs.Draws.{below as below_of, next as next_of};
ghost use Rattle.day_model.specs.Pieces.{day, words_of};
ghost use Rattle.day_script.specs.Steps.{piece_of};

use crate::command::Day;
use crate::steps::{Step, closing, opening, transaction};
use crate::text::LineText;

const MULTIPLIER: u64 = 1_103_515_245;

const INCREMENT: u64 = 12_345;

const MODULUS: u64 = 4_294_967_296;

const KEYS: u32 = 200;

const CHOICES: u32 = 10;

/// The lines of a day that are still to come.
#[derive(Drop)]
pub struct DayScript {
    steps: &'static [Step],
    number: u32,
    key: u32,
    left: u32,
    drawn: u32,
    closed: bool,
    ghost within: { number + left ≤ 10000 },
}

impl DayScript {
    ghost use Rattle.day_script.specs.Scripts.{ahead};

    /// Before the first line.
    pub fn new(asked: Day) -> DayScript
        requires { asked.count ≤ 10000 }
        ensures { ahead result ≡ day asked.count asked.start }
    {
        DayScript {
            steps: opening(),
            number: 0,
            key: 0,
            left: asked.count,
            drawn: asked.start,
            closed: false,
        }
    }

    /// The next step. None where none is left.
    pub fn next(&mut self) -> Option<Step>
        ensures { MatchOption result ((ahead self.old ≡ []) × (ahead self.new ≡ [])) (λ step. ahead self.old ≡ piece_of self.new.number self.new.key step ∷ ahead self.new) }
    {
        if self.steps.is_empty() {
            self.go_on();
        }
        match self.steps {
            [step, steps @ ..] => {
                self.steps = steps;
                Some(*step)
            }
            [] => None,
        }
    }

    // Goes on behind the steps of a part: to the next transaction, or to the end.
    fn go_on(&mut self)
        requires { self.old.steps.now ≡ [] }
        ensures ahead { ahead self.new ≡ ahead self.old }
        ensures over { self.new.steps.now ≡ [] → ahead self.new ≡ [] }
    {
        if self.closed {
            return;
        }
        if self.left == 0 {
            self.steps = closing();
            self.closed = true;
            return;
        }
        self.left -= 1;
        self.number += 1;
        self.key = self.draw(KEYS) + 1;
        let choice = self.draw(CHOICES);
        self.steps = transaction(choice);
    }

    // Draws a number below a limit.
    fn draw(&mut self, limit: u32) -> u32
        requires { 0 < limit }
        ensures drawn { self.new ≡ record self.old { drawn = next_of self.old.drawn } }
        ensures value { result ≡ below_of limit self.new.drawn }
        ensures within { result < limit }
    {
        let next = (u64::from(self.drawn) * MULTIPLIER + INCREMENT) % MODULUS;
        self.drawn = next as u32;
        (self.drawn / 65_536) % limit
    }

    /// Writes the words of a step that was just given, where the last message that was sent has this number.
    pub fn write(&self, step: Step, sent: u32, text: &mut LineText)
        ensures { text.new ≡ words_of sent (piece_of self.now.number self.now.key step) }
    {
        text.write(step, self.number, self.key, sent);
    }
}
