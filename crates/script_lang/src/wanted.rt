// What a line wants where another word stands.
use std::fmt::{self, Display, Formatter, Write};

/// What can stand at a place of a line. Shown, it is a phrase for a reader of the line.
#[derive(Clone, Copy, Debug, PartialEq, Eq, Drop)]
pub enum Wanted {
    /// The word that begins a statement.
    First,
    /// The word that tells a statement to a node from others.
    Verb,
    Node,
    Label,
    /// A label, or a dash where there is none.
    LabelOrNone,
    /// A label or a serial.
    Branch,
    /// A resource manager.
    Manager,
    /// What a resource manager replies.
    Reply,
    File,
    Organization,
    Setting,
    /// A file, or the journal of recovery units.
    JournaledFile,
    /// A journal of images of a file.
    Journal,
    /// The direction of a recovery.
    Direction,
    /// What is shown of a transaction log.
    LogWord,
    /// A number of 32 bits.
    Number,
    /// A number of 64 bits.
    LongNumber,
    Bytes,
    /// A number, or bytes.
    Key,
    Time,
    /// The word before the seconds that a transaction is given.
    Timeout,
    /// The word before the moment of a recovery.
    Until,
    /// No word at all.
    End,
}

impl Wanted {
    fn phrase(&self) -> &'static str {
        match self {
            Wanted::First =>
                "a node and a colon in one word, as A:, or FUSE, CRASH, CLOCK, DELIVER, LINKDOWN or SETTLE",
            Wanted::Verb =>
                "a verb: INIT, BOOT, CREATE, SET_FILE, START_TRANS, ADD_BRANCH, START_BRANCH, PUT, UPDATE, DELETE, TRUNCATE, GET, NEXT, END_BRANCH, END_TRANS, ABORT_TRANS, INQUIRE, DECLARE_RM, JOIN_RM, ACK_EVENT, FORGET_RM, GETDTI, LMCP, DUMP, DUMP_JOURNAL, BACKUP or RECOVER",
            Wanted::Node => "a node: 1 to 6 letters and digits, a letter first",
            Wanted::Label => "a label: 1 to 15 letters, digits and _, a letter first",
            Wanted::LabelOrNone => "a label: 1 to 15 letters, digits and _, a letter first, or -",
            Wanted::Branch =>
                "a label: 1 to 15 letters, digits and _, a letter first, or a serial: a node, a boot and a number with dots between, as A.1.1",
            Wanted::Manager => "a resource manager: 1 to 15 letters, digits and _, a letter first",
            Wanted::Reply =>
                "a reply: SS$_PREPARED, SS$_FORGET, SS$_VETO, SS$_REMEMBER or SS$_NORMAL",
            Wanted::File => "a file: 1 to 39 letters, digits, _, $ and ., a letter first",
            Wanted::Organization => "an organization: SEQ, REL or IDX",
            Wanted::Setting =>
                "a setting: RU, NORU, AI and a number of blocks, NOAI, BI and a number of blocks, or NOBI",
            Wanted::JournaledFile => "RU, or a file and AI or BI behind it",
            Wanted::Journal => "a journal: AI or BI",
            Wanted::Direction => "a direction: FORWARD or BACKWARD",
            Wanted::LogWord => "SHOW or DUMP",
            Wanted::Number => "a number from 0 to 4294967295",
            Wanted::LongNumber => "a number from 0 to 18446744073709551615",
            Wanted::Bytes => "bytes: \"text\" in quotes, or %X and pairs of hexadecimal digits",
            Wanted::Key =>
                "a number from 0 to 4294967295, or bytes: \"text\" in quotes, or %X and pairs of hexadecimal digits",
            Wanted::Time =>
                "a time from 17-NOV-1858 to 31-DEC-8999 in quotes, as \"1-JAN-2000 10:00:00.00\"",
            Wanted::Timeout => "TIMEOUT",
            Wanted::Until => "UNTIL",
            Wanted::End => "the end of the line",
        }
    }
}

impl Display for Wanted {
    fn fmt<W: Write>(&self, f: &mut Formatter<W>) -> fmt::Result {
        f.write_str(self.phrase())
    }
}
