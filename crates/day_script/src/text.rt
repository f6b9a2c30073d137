//! The words of a line of a day's script.
ghost use Rattle.std.specs.Prelude.{◌≡◌, ℕ, ◌+◌, ◌≤◌, ◌<◌, List, [], ◌++◌, codes, length, decimal};
ghost use Rattle.day_model.specs.Pieces.{last_digit, six_digits, words_of};
ghost use Rattle.day_script.specs.Steps.{file_of, form_of, piece_of, put_of, side_of};

use crate::steps::{File, Side, Step};
use arrayvec::ArrayVec;
use itoa::Buffer;
use std::marker::Model;

const MOST_BYTES: usize = 96;

/// The words of a line of a day's script, at most 96 bytes, in a place of their own.
#[derive(Drop)]
pub struct LineText {
    place: ArrayVec<u8, MOST_BYTES>,
}

impl Model for LineText {
    ghost Value = { List ℕ };

    ghost view = { λ t. t.place.items };
}

impl LineText {
    /// No words.
    pub fn new() -> LineText
        ensures { result ≡ [] }
    {
        LineText {
            place: ArrayVec::new(),
        }
    }

    /// The words, which have at most 96 bytes.
    pub fn bytes(&self) -> &[u8]
        ensures value { result.now ≡ self.now }
        ensures few { length self.now ≤ 96 }
    {
        self.place.as_slice()
    }

    fn put(&mut self, bytes: &[u8])
        requires { length self.old + length bytes.now ≤ 96 }
        ensures words { self.new ≡ self.old ++ bytes.now }
        ensures length { length self.new ≡ length self.old + length bytes.now }
    {
        match self.place.try_extend_from_slice(bytes) {
            Ok(()) => {}
            Err(_) => unreachable!(),
        }
    }

    fn put_number(&mut self, n: u32)
        requires { length self.old + 10 ≤ 96 }
        ensures words { self.new ≡ self.old ++ decimal n }
        ensures length { length self.new ≤ length self.old + 10 }
    {
        let mut buffer = Buffer::new();
        self.put(buffer.format(n).as_bytes());
    }
}

// The last decimal digit.
fn digit(n: u32) -> u8
    ensures { result ≡ last_digit n }
{
    b'0' + (n % 10) as u8
}

impl LineText {
    // The last six digits.
    fn put_six(&mut self, n: u32)
        requires { length self.old + 6 ≤ 96 }
        ensures words { self.new ≡ self.old ++ six_digits n }
        ensures length { length self.new ≡ length self.old + 6 }
    {
        self.put(&[
            digit(n / 100_000),
            digit(n / 10_000),
            digit(n / 1_000),
            digit(n / 100),
            digit(n / 10),
            digit(n),
        ]);
    }

    // Words, and a number behind them.
    fn set_numbered(&mut self, words: &[u8], n: u32)
        requires { length words.now ≤ 20 }
        ensures words { self.new ≡ words.now ++ decimal n }
        ensures length { length self.new ≤ 30 }
    {
        self.place.clear();
        self.put(words);
        self.put_number(n);
    }

    // The name of a node, and words behind it.
    fn set_told(&mut self, side: Side, words: &[u8])
        requires { length words.now ≤ 40 }
        ensures words { self.new ≡ side_of side ++ words.now }
        ensures length { length self.new ≤ 41 }
    {
        self.place.clear();
        self.put(side.name());
        self.put(words);
    }

    // Words, and the name of a node behind them.
    fn set_of(&mut self, words: &[u8], side: Side)
        requires { length words.now ≤ 40 }
        ensures { self.new ≡ words.now ++ side_of side }
    {
        self.place.clear();
        self.put(words);
        self.put(side.name());
    }

    fn set_create(&mut self, side: Side, file: File)
        ensures { self.new ≡ side_of side ++ (codes ": CREATE " ++ form_of file) }
    {
        self.set_told(side, b": CREATE ");
        self.put(match file {
            File::S => b"S SEQ 4 200 200",
            File::R => b"R REL 4 200 200",
            File::I => b"I IDX 4 200 200 0 6",
        });
    }

    fn set_mark(&mut self, side: Side, file: File)
        ensures { self.new ≡ side_of side ++ (codes ": SET_FILE " ++ (file_of file ++ codes " RU")) }
    {
        self.set_told(side, b": SET_FILE ");
        self.put(file.name());
        self.put(b" RU");
    }

    fn set_add_branch(&mut self, number: u32)
        ensures { self.new ≡ codes "A: ADD_BRANCH T" ++ (decimal number ++ (codes " B U" ++ decimal number)) }
    {
        self.set_numbered(b"A: ADD_BRANCH T", number);
        self.put(b" B U");
        self.put_number(number);
    }

    fn set_put(&mut self, file: File, number: u32, key: u32)
        ensures { self.new ≡ put_of number key file }
    {
        match file {
            File::S => self.set_put_last(number),
            File::R => self.set_put_at(number, key),
            File::I => self.set_put_keyed(number),
        }
    }

    fn set_put_last(&mut self, number: u32)
        ensures { self.new ≡ put_of number 0 File.S }
    {
        self.set_numbered(b"A: PUT T", number);
        self.put(b" S \"");
        self.put_six(number);
        self.put(b"\"");
    }

    fn set_put_at(&mut self, number: u32, key: u32)
        ensures { self.new ≡ put_of number key File.R }
    {
        self.set_numbered(b"A: PUT T", number);
        self.put(b" R ");
        self.put_number(key);
        self.put(b" \"");
        self.put_six(number);
        self.put(b"\"");
    }

    fn set_put_keyed(&mut self, number: u32)
        ensures { self.new ≡ put_of number 0 File.I }
    {
        self.set_numbered(b"B: PUT U", number);
        self.put(b" I \"");
        self.put_six(number);
        self.put(b"x\"");
    }

    fn set_dump(&mut self, side: Side, file: File)
        ensures { self.new ≡ side_of side ++ (codes ": DUMP " ++ file_of file) }
    {
        self.set_told(side, b": DUMP ");
        self.put(file.name());
    }

    fn set(&mut self, words: &[u8])
        requires { length words.now ≤ 20 }
        ensures { self.new ≡ words.now }
    {
        self.place.clear();
        self.put(words);
    }

    /// The words of a step of the transaction of a number, which has this key, where the last message that was sent has this number.
    pub fn write(&mut self, step: Step, number: u32, key: u32, sent: u32)
        ensures { self.new ≡ words_of sent (piece_of number key step) }
    {
        match step {
            Step::Init(side) => self.set_told(side, b": INIT"),
            Step::Boot(side) => self.set_told(side, b": BOOT"),
            Step::Create(side, file) => self.set_create(side, file),
            Step::Mark(side, file) => self.set_mark(side, file),
            Step::StartTrans => self.set_numbered(b"A: START_TRANS T", number),
            Step::AddBranch => self.set_add_branch(number),
            Step::StartBranch => self.set_numbered(b"B: START_BRANCH U", number),
            Step::Deliver => self.set_numbered(b"DELIVER ", sent),
            Step::Put(file) => self.set_put(file, number, key),
            Step::AbortTrans => self.set_numbered(b"A: ABORT_TRANS T", number),
            Step::Crash(side) => self.set_of(b"CRASH ", side),
            Step::EndBranch => self.set_numbered(b"B: END_BRANCH U", number),
            Step::EndTrans => self.set_numbered(b"A: END_TRANS T", number),
            Step::Settle => self.set(b"SETTLE"),
            Step::Dump(side, file) => self.set_dump(side, file),
        }
    }
}
