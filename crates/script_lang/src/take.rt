// Operands from the words of a line.
ghost use Rattle.std.specs.Prelude.{◌≡◌};
ghost use Rattle.script_model.specs.Grammar.{AFirst, AVerb, ANode, ALabel, ALabelOrNone, AManager, AReply, AFile, AnOrganization, ASetting, ASide, ADirection, ALogWord, ANumber, ALongNumber, SomeBytes, AKey, ABranch, ATime, ATimeout, Timeout, AnUntil, Until, is_side};
ghost use Rattle.script_lang.specs.Reads.{Takes, TakesMore, Finishes};
ghost use Rattle.script_lang.specs.Statements.{first_of, verb_of, organization_of, side_of, mark_of, log_word_of, named_of, word_in};
ghost use Rattle.tm_types.specs.Parts.{reply_of};

use crate::literals::Literal;
use crate::operands::{
    read_branch, read_direction, read_first, read_log_word, read_number, read_organization,
    read_reply, read_setting, read_side, read_time_word, read_verb,
};
use crate::statement::{First, KeyWord, LogWord, Mark, Named, Organization, Side, Verb};
use crate::wanted::Wanted;
use crate::words::{LineErr, Word, Words};
use vms_base::{FileName, Label, Moment, NodeName, Reply, RmName, is_word};

impl Word<'_> {
    // The error of a word that cannot stand where it does.
    fn cannot_stand(&self) -> LineErr
        ensures { result.column ≡ self.now.column }
    {
        LineErr {
            column: self.column,
            wanted: self.wanted,
        }
    }
}

// Whether a file is called as a journal of a file is.
fn names_side(file: &FileName) -> bool
    ensures { result ≡ is_side file.now }
{
    match read_side(file.bytes()) {
        Some(_) => true,
        None => false,
    }
}

impl<'a> Words<'a> {
    /// A node and a colon, or the verb of the world. An error where no word is left, or the word is neither.
    pub fn first(&mut self) -> Result<First, LineErr>
        ensures { Takes AFirst first_of self.old result self.new }
    {
        let word = self.word(Wanted::First)?;
        match read_first(word.text) {
            Some(first) => Ok(first),
            None => Err(word.cannot_stand()),
        }
    }

    /// A verb that tells a statement to a node from others.
    pub fn verb(&mut self) -> Result<Verb, LineErr>
        ensures { Takes AVerb verb_of self.old result self.new }
    {
        let word = self.word(Wanted::Verb)?;
        match read_verb(word.text) {
            Some(verb) => Ok(verb),
            None => Err(word.cannot_stand()),
        }
    }

    /// The name of a node.
    pub fn node(&mut self) -> Result<NodeName, LineErr>
        ensures { Takes ANode (λ n. n) self.old result self.new }
    {
        let word = self.word(Wanted::Node)?;
        match NodeName::new(word.text) {
            Some(node) => Ok(node),
            None => Err(word.cannot_stand()),
        }
    }

    /// A label.
    pub fn label(&mut self) -> Result<Label, LineErr>
        ensures { Takes ALabel (λ l. l) self.old result self.new }
    {
        let word = self.word(Wanted::Label)?;
        match Label::new(word.text) {
            Some(label) => Ok(label),
            None => Err(word.cannot_stand()),
        }
    }

    /// A label, or a dash where there is none.
    pub fn label_or_none(&mut self) -> Result<Option<Label>, LineErr>
        ensures { Takes ALabelOrNone (λ l. l) self.old result self.new }
    {
        let word = self.word(Wanted::LabelOrNone)?;
        if word.text == b"-".as_slice() {
            return Ok(None);
        }
        match Label::new(word.text) {
            Some(label) => Ok(Some(label)),
            None => Err(word.cannot_stand()),
        }
    }

    /// A label or a serial.
    pub fn branch_name(&mut self) -> Result<Named, LineErr>
        ensures { Takes ABranch named_of self.old result self.new }
    {
        let word = self.word(Wanted::Branch)?;
        match read_branch(word.text) {
            Some(named) => Ok(named),
            None => Err(word.cannot_stand()),
        }
    }

    /// The name of a resource manager.
    pub fn manager(&mut self) -> Result<RmName, LineErr>
        ensures { Takes AManager (λ rm. rm) self.old result self.new }
    {
        let word = self.word(Wanted::Manager)?;
        match RmName::new(word.text) {
            Some(rm) => Ok(rm),
            None => Err(word.cannot_stand()),
        }
    }

    /// What a resource manager replies.
    pub fn reply(&mut self) -> Result<Reply, LineErr>
        ensures { Takes AReply reply_of self.old result self.new }
    {
        let word = self.word(Wanted::Reply)?;
        match read_reply(word.text) {
            Some(reply) => Ok(reply),
            None => Err(word.cannot_stand()),
        }
    }

    /// The name of a file.
    pub fn file(&mut self) -> Result<FileName, LineErr>
        ensures { Takes AFile (λ f. f) self.old result self.new }
    {
        let word = self.word(Wanted::File)?;
        match FileName::new(word.text) {
            Some(file) => Ok(file),
            None => Err(word.cannot_stand()),
        }
    }

    /// The word of an organization.
    pub fn organization(&mut self) -> Result<Organization, LineErr>
        ensures { Takes AnOrganization organization_of self.old result self.new }
    {
        let word = self.word(Wanted::Organization)?;
        match read_organization(word.text) {
            Some(organization) => Ok(organization),
            None => Err(word.cannot_stand()),
        }
    }

    /// The name of a file, which does not stand last where it is a word that names a journal of a file.
    pub fn journaled_file(&mut self) -> Result<FileName, LineErr>
        ensures { TakesMore AFile is_side (λ f. f) self.old result self.new }
    {
        let word = self.word(Wanted::JournaledFile)?;
        match FileName::new(word.text) {
            Some(file) => {
                if self.is_at_end() && names_side(&file) {
                    return Err(word.cannot_stand());
                }
                Ok(file)
            }
            None => Err(word.cannot_stand()),
        }
    }

    /// The word that tells what a file is marked with.
    pub fn setting(&mut self) -> Result<Mark, LineErr>
        ensures { Takes ASetting mark_of self.old result self.new }
    {
        let word = self.word(Wanted::Setting)?;
        match read_setting(word.text) {
            Some(mark) => Ok(mark),
            None => Err(word.cannot_stand()),
        }
    }

    /// The word that names a journal of images.
    pub fn side(&mut self) -> Result<Side, LineErr>
        ensures { Takes ASide side_of self.old result self.new }
    {
        let word = self.word(Wanted::Journal)?;
        match read_side(word.text) {
            Some(side) => Ok(side),
            None => Err(word.cannot_stand()),
        }
    }

    /// The direction of a recovery, by the images that it takes.
    pub fn direction(&mut self) -> Result<Side, LineErr>
        ensures { Takes ADirection side_of self.old result self.new }
    {
        let word = self.word(Wanted::Direction)?;
        match read_direction(word.text) {
            Some(side) => Ok(side),
            None => Err(word.cannot_stand()),
        }
    }

    /// The word that tells what is shown of a transaction log.
    pub fn log_word(&mut self) -> Result<LogWord, LineErr>
        ensures { Takes ALogWord log_word_of self.old result self.new }
    {
        let word = self.word(Wanted::LogWord)?;
        match read_log_word(word.text) {
            Some(shown) => Ok(shown),
            None => Err(word.cannot_stand()),
        }
    }

    /// A number of 32 bits.
    pub fn number(&mut self) -> Result<u32, LineErr>
        ensures { Takes ANumber (λ n. n) self.old result self.new }
    {
        let word = self.word(Wanted::Number)?;
        match read_number(u64::from(u32::MAX), word.text) {
            Some(n) => Ok(n as u32),
            None => Err(word.cannot_stand()),
        }
    }

    /// A number of 64 bits.
    pub fn long_number(&mut self) -> Result<u64, LineErr>
        ensures { Takes ALongNumber (λ n. n) self.old result self.new }
    {
        let word = self.word(Wanted::LongNumber)?;
        match read_number(u64::MAX, word.text) {
            Some(n) => Ok(n),
            None => Err(word.cannot_stand()),
        }
    }

    /// A time between quotes.
    pub fn time(&mut self) -> Result<Moment, LineErr>
        ensures { Takes ATime (λ moment. moment.0) self.old result self.new }
    {
        let word = self.word(Wanted::Time)?;
        match read_time_word(word.text) {
            Some(moment) => Ok(moment),
            None => Err(word.cannot_stand()),
        }
    }

    /// The word before the seconds that a transaction is given.
    pub fn timeout(&mut self) -> Result<(), LineErr>
        ensures { Takes ATimeout (λ _. Timeout) self.old result self.new }
    {
        let word = self.word(Wanted::Timeout)?;
        if is_word(b"TIMEOUT", word.text) {
            Ok(())
        } else {
            Err(word.cannot_stand())
        }
    }

    /// The word before the moment of a recovery.
    pub fn until(&mut self) -> Result<(), LineErr>
        ensures { Takes AnUntil (λ _. Until) self.old result self.new }
    {
        let word = self.word(Wanted::Until)?;
        if is_word(b"UNTIL", word.text) {
            Ok(())
        } else {
            Err(word.cannot_stand())
        }
    }

    /// Bytes, which are then kept there.
    pub fn bytes(&mut self, to: &mut Literal) -> Result<(), LineErr>
        ensures { Takes SomeBytes (λ _. to.new) self.old result self.new }
    {
        let word = self.word(Wanted::Bytes)?;
        if to.take_bytes(word.text) {
            Ok(())
        } else {
            Err(word.cannot_stand())
        }
    }

    /// A number, or bytes, which are then kept there.
    pub fn key(&mut self, to: &mut Literal) -> Result<KeyWord, LineErr>
        ensures { Takes AKey (word_in to.new) self.old result self.new }
    {
        let word = self.word(Wanted::Key)?;
        if let Some(n) = read_number(u64::from(u32::MAX), word.text) {
            return Ok(KeyWord::Number(n as u32));
        }
        if to.take_bytes(word.text) {
            Ok(KeyWord::Bytes)
        } else {
            Err(word.cannot_stand())
        }
    }

    /// The end of the line.
    pub fn end(&mut self) -> Result<(), LineErr>
        ensures { Finishes self.old result }
    {
        if self.is_at_end() {
            return Ok(());
        }
        let word = self.word(Wanted::End)?;
        Err(word.cannot_stand())
    }
}
