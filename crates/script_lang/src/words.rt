// The words of a line.
ghost use Rattle.std.specs.Prelude.{◌≡◌, ℕ, ◌+◌, ◌<◌, ◌≤◌, ◌≢◌, List, [], ◌∷◌, take, drop, length, MatchResult, IfOk};
ghost use Rattle.vms_base.specs.vms_model.Limits.{line_size_limit};
ghost use Rattle.script_model.specs.LineWords.{Ahead, Word as WordRead, Between, words_from, words_of};
ghost use Rattle.script_model.specs.LineWords.{is_empty};
ghost use Rattle.script_model.specs.Grammar.{is_skipped as is_skipped_line};
ghost use Rattle.script_lang.specs.Parting.{IsAtWord, WordStands, quoted_next};

use crate::wanted::Wanted;
use std::marker::Model;
use thiserror::Error;

/// The column of the first word that cannot stand where it does, and what could stand there.
#[derive(Clone, Copy, Debug, PartialEq, Eq, Drop, Error)]
#[error("column {column}: wanted is {wanted}")]
pub struct LineErr {
    pub column: u32,
    pub wanted: Wanted,
}

/// A word and its column, and what is wanted in its place.
#[derive(Clone, Copy, Debug, Drop)]
pub struct Word<'a> {
    pub column: u32,
    pub text: &'a [u8],
    pub wanted: Wanted,
}

/// The words of a line that are still to be read.
#[derive(Drop)]
pub struct Words<'a> {
    rest: &'a [u8],
    column: usize,
}

impl<'a> Model for Words<'a> {
    ghost Value = { Ahead };

    ghost view = { λ w. record { words = words_from Between w.column w.rest.now; end = w.column + length w.rest.now } };

    ghost invariant = { λ w. IsAtWord w.rest.now × (0 < w.column) × (w.column + length w.rest.now ≤ 20001) };
}

// How many spaces stand first.
fn spaces(bytes: &[u8]) -> usize
    ensures within { result ≤ length bytes.now }
    ensures words { (column : ℕ) → words_from Between column bytes.now ≡ words_from Between (column + result) (drop result bytes.now) }
    ensures stops { IsAtWord (drop result bytes.now) }
{
    let mut at = 0;
    while at < bytes.len() && bytes[at] == b' ' {
        at += 1;
    }
    at
}

// Whether a byte leads to the inside of quotes, or none where the word ends before it.
fn quoted_after(quoted: bool, b: u8) -> Option<bool>
    ensures { result ≡ quoted_next quoted b }
{
    if quoted {
        Some(b != b'"')
    } else if b == b' ' {
        None
    } else {
        Some(false)
    }
}

// How long the word is that stands first.
fn word_len(bytes: &[u8]) -> usize
    requires some { 0 < length bytes.now }
    requires word { IsAtWord bytes.now }
    ensures within { (0 < result) × (result ≤ length bytes.now) }
    ensures words { (column : ℕ) → WordStands column bytes.now result Between }
{
    let mut quoted = bytes[0] == b'"';
    let mut at = 1;
    while at < bytes.len() {
        match quoted_after(quoted, bytes[at]) {
            None => return at,
            Some(more) => quoted = more,
        }
        at += 1;
    }
    at
}

impl<'a> Words<'a> {
    /// The words of a line of at most 20,000 bytes.
    pub fn new(line: &'a [u8]) -> Words<'a>
        requires { length line.now ≤ line_size_limit }
        ensures { result ≡ words_of line.now }
    {
        let before = spaces(line);
        Words {
            rest: &line[before..],
            column: before + 1,
        }
    }

    /// Whether no word is left.
    pub fn is_at_end(&self) -> bool
        ensures { result ≡ is_empty self.now.words }
    {
        self.rest.is_empty()
    }

    /// Whether the line says nothing: no word is left, or the next begins with an exclamation mark.
    pub fn is_skipped(&self) -> bool
        ensures { result ≡ is_skipped_line self.now.words }
    {
        match self.rest {
            [] | [b'!', ..] => true,
            _ => false,
        }
    }

    /// The next word, in whose place this is wanted, or the column where it is missing.
    pub fn word(&mut self, wanted: Wanted) -> Result<Word<'a>, LineErr>
        ensures end { self.new.end ≡ self.old.end }
        ensures few { IfOk result (λ w. length w.text.now ≤ line_size_limit) }
        ensures words { MatchResult result
            (λ w. self.old.words ≡ record { column = w.column; text = w.text.now } ∷ self.new.words)
            (λ e. (self.old.words ≡ []) × (e.column ≡ self.old.end)) }
    {
        if self.rest.is_empty() {
            return Err(LineErr {
                column: self.column as u32,
                wanted,
            });
        }
        let len = word_len(self.rest);
        let word = Word {
            column: self.column as u32,
            text: &self.rest[..len],
            wanted,
        };
        let rest = &self.rest[len..];
        let after = spaces(rest);
        self.rest = &rest[after..];
        self.column = self.column + len + after;
        Ok(word)
    }
}
