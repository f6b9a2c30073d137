// What single words say.
ghost use Rattle.std.specs.Prelude.{◌≡◌, ℕ, ◌≤◌, IfSome, Option};
ghost use Rattle.std.specs.Option.{option_map};
ghost use Rattle.vms_base.specs.vms_model.Words.{number_up_to, among};
ghost use Rattle.script_model.specs.Operands.{prefix_said, branch_said, time_word_said};
ghost use Rattle.script_model.specs.Grammar.{verbs, world_verbs, organizations, sides, settings, directions, log_words, replies, first_said};
ghost use Rattle.script_lang.specs.Statements.{verb_of, world_verb_of, organization_of, side_of, mark_of, log_word_of, first_of, named_of};
ghost use Rattle.tm_types.specs.Parts.{reply_of};

use crate::literals::quoted;
use crate::statement::{First, LogWord, Mark, Named, Organization, Setting, Side, Verb, WorldVerb};
use vms_base::{Label, Moment, NodeName, Reply, Serial, find, part_at, read_digits, read_id};
use vms_times::read_time;

const VERBS: [(&[u8], Verb); 27] = [
    (b"INIT", Verb::Init),
    (b"BOOT", Verb::Boot),
    (b"CREATE", Verb::Create),
    (b"SET_FILE", Verb::SetFile),
    (b"START_TRANS", Verb::StartTrans),
    (b"ADD_BRANCH", Verb::AddBranch),
    (b"START_BRANCH", Verb::StartBranch),
    (b"PUT", Verb::Put),
    (b"UPDATE", Verb::Update),
    (b"DELETE", Verb::Delete),
    (b"TRUNCATE", Verb::Truncate),
    (b"GET", Verb::Get),
    (b"NEXT", Verb::Next),
    (b"END_BRANCH", Verb::EndBranch),
    (b"END_TRANS", Verb::EndTrans),
    (b"ABORT_TRANS", Verb::AbortTrans),
    (b"INQUIRE", Verb::Inquire),
    (b"DECLARE_RM", Verb::DeclareRm),
    (b"JOIN_RM", Verb::JoinRm),
    (b"ACK_EVENT", Verb::AckEvent),
    (b"FORGET_RM", Verb::ForgetRm),
    (b"GETDTI", Verb::GetDti),
    (b"LMCP", Verb::Lmcp),
    (b"DUMP", Verb::Dump),
    (b"DUMP_JOURNAL", Verb::DumpJournal),
    (b"BACKUP", Verb::Backup),
    (b"RECOVER", Verb::Recover),
];

const WORLD_VERBS: [(&[u8], WorldVerb); 6] = [
    (b"FUSE", WorldVerb::Fuse),
    (b"CRASH", WorldVerb::Crash),
    (b"CLOCK", WorldVerb::Clock),
    (b"DELIVER", WorldVerb::Deliver),
    (b"LINKDOWN", WorldVerb::LinkDown),
    (b"SETTLE", WorldVerb::Settle),
];

const ORGANIZATIONS: [(&[u8], Organization); 3] = [
    (b"SEQ", Organization::Sequential),
    (b"REL", Organization::Relative),
    (b"IDX", Organization::Indexed),
];

const SIDES: [(&[u8], Side); 2] = [(b"AI", Side::AfterImages), (b"BI", Side::BeforeImages)];

const SETTINGS: [(&[u8], Mark); 6] = [
    (b"RU", Mark::Whole(Setting::RecoveryUnits)),
    (b"NORU", Mark::Whole(Setting::NoRecoveryUnits)),
    (b"AI", Mark::OfBlocks(Side::AfterImages)),
    (b"NOAI", Mark::Whole(Setting::NoImages(Side::AfterImages))),
    (b"BI", Mark::OfBlocks(Side::BeforeImages)),
    (b"NOBI", Mark::Whole(Setting::NoImages(Side::BeforeImages))),
];

const DIRECTIONS: [(&[u8], Side); 2] = [
    (b"FORWARD", Side::AfterImages),
    (b"BACKWARD", Side::BeforeImages),
];

const LOG_WORDS: [(&[u8], LogWord); 2] = [(b"SHOW", LogWord::Show), (b"DUMP", LogWord::Dump)];

const REPLIES: [(&[u8], Reply); 5] = [
    (b"SS$_PREPARED", Reply::Prepared),
    (b"SS$_FORGET", Reply::Forget),
    (b"SS$_VETO", Reply::Veto),
    (b"SS$_REMEMBER", Reply::Remember),
    (b"SS$_NORMAL", Reply::Normal),
];

/// The verb of a word in either case of letters.
pub fn read_verb(text: &[u8]) -> Option<Verb>
    ensures { option_map verb_of result ≡ among verbs text.now }
{
    find(&VERBS, text)
}

/// The verb of the world of a word in either case of letters.
pub fn read_world_verb(text: &[u8]) -> Option<WorldVerb>
    ensures { option_map world_verb_of result ≡ among world_verbs text.now }
{
    find(&WORLD_VERBS, text)
}

/// The organization of a word in either case of letters.
pub fn read_organization(text: &[u8]) -> Option<Organization>
    ensures { option_map organization_of result ≡ among organizations text.now }
{
    find(&ORGANIZATIONS, text)
}

/// What a file is marked with, by a word in either case of letters.
pub fn read_setting(text: &[u8]) -> Option<Mark>
    ensures { option_map mark_of result ≡ among settings text.now }
{
    find(&SETTINGS, text)
}

/// The journal of images of a word in either case of letters.
pub fn read_side(text: &[u8]) -> Option<Side>
    ensures { option_map side_of result ≡ among sides text.now }
{
    find(&SIDES, text)
}

/// The direction of a recovery, by the images that it takes, of a word in either case of letters.
pub fn read_direction(text: &[u8]) -> Option<Side>
    ensures { option_map side_of result ≡ among directions text.now }
{
    find(&DIRECTIONS, text)
}

/// What is shown of a transaction log, by a word in either case of letters.
pub fn read_log_word(text: &[u8]) -> Option<LogWord>
    ensures { option_map log_word_of result ≡ among log_words text.now }
{
    find(&LOG_WORDS, text)
}

/// The reply of a resource manager, by a word in either case of letters.
pub fn read_reply(text: &[u8]) -> Option<Reply>
    ensures { option_map reply_of result ≡ among replies text.now }
{
    find(&REPLIES, text)
}

/// The number of 1 to 20 digits, at most the limit.
pub fn read_number(limit: u64, text: &[u8]) -> Option<u64>
    ensures value { result ≡ number_up_to limit text.now }
    ensures within { IfSome result (λ n. n ≤ limit) }
{
    if text.is_empty() || text.len() > 20 {
        return None;
    }
    read_digits(limit, text)
}

/// The node of a node and a colon.
pub fn read_prefix(text: &[u8]) -> Option<NodeName>
    ensures { result ≡ prefix_said text.now }
{
    let (node, rest) = part_at(b':', text)?;
    if rest.is_empty() {
        NodeName::new(node)
    } else {
        None
    }
}

/// The node of a node and a colon, or the verb of the world.
pub fn read_first(text: &[u8]) -> Option<First>
    ensures { option_map first_of result ≡ first_said text.now }
{
    match read_prefix(text) {
        Some(node) => Some(First::ToNode(node)),
        None => {
            let verb = read_world_verb(text)?;
            Some(First::ToWorld(verb))
        }
    }
}

/// The branch of a word: one with a dot is a serial, and another one a label.
pub fn read_branch(text: &[u8]) -> Option<Named>
    ensures { option_map named_of result ≡ branch_said text.now }
{
    match part_at(b'.', text) {
        Some(_) => {
            let id = read_id(text)?;
            Some(Named::Serial(Serial(id)))
        }
        None => {
            let label = Label::new(text)?;
            Some(Named::Label(label))
        }
    }
}

/// The moment of a time between quotes.
pub fn read_time_word(text: &[u8]) -> Option<Moment>
    ensures { option_map (λ moment. moment.0) result ≡ time_word_said text.now }
{
    let [b'"', rest @ ..] = text else {
        return None;
    };
    let time = quoted(rest)?;
    match read_time(time) {
        Ok(moment) => Some(moment),
        Err(_) => None,
    }
}
