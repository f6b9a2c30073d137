//! The text of the lines that a plain, slow program shows.
#![tactic(auto)]

ghost use Rattle.std.specs.Prelude.{◌≡◌, ◌<◌, ℕ, ◌++◌, List, [], ◌∷◌, map, option_map, flat_map, decimal, OnOk};
ghost use Rattle.std.specs.List.{list_all};
ghost use Rattle.vms_model.specs.Texts.{id_text, is_plain as is_plain_byte, hex_digit as hex_digit_of, hex_byte, bytes_text};
ghost use Rattle.vms_model.specs.Keys.{key_text};
ghost use Rattle.vms_model.specs.Transactions.{reason_text};
ghost use Rattle.vms_base.specs.Outcomes.{outcome_of, reason_of};
ghost use Rattle.reference_index.specs.transcript_model.Lines as model;
ghost use Rattle.net_wire.specs.Messages.{kind_of, message_of};
ghost use Rattle.reference_index.specs.transcript_model.Lines.{branch_text, message_text, kind_text, bid_text, ids_text, quoted_time, quota_text, image_text, outcome_text, list_text, event_text, record_text, standing_text, line_words, line_text, lines_text};
ghost use Rattle.vms_base.specs.Ids.{id_of, serial_of};
ghost use Rattle.reference_index.specs.Standing.{key_of, value_of};
ghost use Rattle.reference_world.specs.Standing.{line_of, quota_of, standing_of};
ghost use Rattle.tm_types.specs.Parts.{log_record_of, rm_event_of};

use itoa::Buffer;
use net_wire::Message;
use reference_index::Key;
use reference_world::{BranchKey, Line, Quota, Standing, WrittenMoment};
use std::alloc::AllocError;
use vms_base::{
    FileName, Id, Kind, LogKind, LogRec, Moment, NodeName, Outcome, Reason, RmEvent, RmName, Serial,
};
use vms_times::write_time;

fn put(out: &mut Vec<u8>, bytes: &[u8]) -> Result<(), AllocError>
    ensures { OnOk result (out.new.items ≡ out.old.items ++ bytes.now) }
{
    out.extend_from_slice(bytes)?;
    Ok(())
}

fn put_number(out: &mut Vec<u8>, n: u64) -> Result<(), AllocError>
    ensures { OnOk result (out.new.items ≡ out.old.items ++ decimal n) }
{
    let mut buffer = Buffer::new();
    put(out, buffer.format(n).as_bytes())
}

fn put_id(out: &mut Vec<u8>, id: Id) -> Result<(), AllocError>
    ensures { OnOk result (out.new.items ≡ out.old.items ++ id_text (id_of id)) }
{
    put(out, id.node.bytes())?;
    put(out, b".")?;
    put_number(out, u64::from(id.boot))?;
    put(out, b".")?;
    put_number(out, u64::from(id.seq))
}

fn is_plain(b: u8) -> bool
    ensures { result ≡ is_plain_byte b }
{
    b >= 32 && b <= 126 && b != b'"'
}

fn are_plain(bytes: &[u8]) -> bool
    ensures { result ≡ list_all is_plain_byte bytes.now }
{
    bytes.iter().all(|b| is_plain(*b))
}

fn hex_digit(d: u8) -> u8
    requires { d < 16 }
    ensures { result ≡ hex_digit_of d }
{
    if d < 10 { b'0' + d } else { b'A' + (d - 10) }
}

fn put_hex(out: &mut Vec<u8>, bytes: &[u8]) -> Result<(), AllocError>
    ensures { OnOk result (out.new.items ≡ out.old.items ++ flat_map hex_byte bytes.now) }
{
    match bytes {
        [] => Ok(()),
        [b, rest @ ..] => {
            put(out, &[hex_digit(*b / 16), hex_digit(*b % 16)])?;
            put_hex(out, rest)
        }
    }
}

fn put_bytes(out: &mut Vec<u8>, bytes: &[u8]) -> Result<(), AllocError>
    ensures { OnOk result (out.new.items ≡ out.old.items ++ bytes_text bytes.now) }
{
    if are_plain(bytes) {
        put(out, b"\"")?;
        put(out, bytes)?;
        put(out, b"\"")
    } else {
        put(out, b"%X")?;
        put_hex(out, bytes)
    }
}

fn put_time(out: &mut Vec<u8>, moment: WrittenMoment) -> Result<(), AllocError>
    ensures { OnOk result (out.new.items ≡ out.old.items ++ quoted_time moment.hundredths) }
{
    let text = write_time(Moment(moment.hundredths));
    put(out, b"\"")?;
    put(out, text.bytes())?;
    put(out, b"\"")
}

// Words, and a transaction with its branch behind them.
fn put_branch(out: &mut Vec<u8>, words: &[u8], id: BranchKey) -> Result<(), AllocError>
    ensures { OnOk result (out.new.items ≡ out.old.items ++ (words.now ++ (id_text (id_of id.tid) ++ (32 ∷ id_text (id_of id.serial))))) }
{
    put(out, words)?;
    put_id(out, id.tid)?;
    put(out, b" ")?;
    put_id(out, id.serial)
}

// A settlement: these words, the transaction and its branch, and the moment.
fn put_settled(
    out: &mut Vec<u8>,
    words: &[u8],
    id: BranchKey,
    moment: WrittenMoment,
) -> Result<(), AllocError>
    ensures { OnOk result (out.new.items ≡ out.old.items ++ (words.now ++ (id_text (id_of id.tid) ++ (32 ∷ (id_text (id_of id.serial) ++ (32 ∷ quoted_time moment.hundredths)))))) }
{
    put_branch(out, words, id)?;
    put(out, b" ")?;
    put_time(out, moment)
}

// The same with words before the moment.
fn put_settled_so(
    out: &mut Vec<u8>,
    words: &[u8],
    id: BranchKey,
    how: &[u8],
    moment: WrittenMoment,
) -> Result<(), AllocError>
    ensures { OnOk result (out.new.items ≡ out.old.items ++ (words.now ++ (id_text (id_of id.tid) ++ (32 ∷ (id_text (id_of id.serial) ++ (32 ∷ (how.now ++ (32 ∷ quoted_time moment.hundredths)))))))) }
{
    put_branch(out, words, id)?;
    put(out, b" ")?;
    put(out, how)?;
    put(out, b" ")?;
    put_time(out, moment)
}

fn put_aborted(
    out: &mut Vec<u8>,
    words: &[u8],
    id: BranchKey,
    reason: Reason,
    moment: WrittenMoment,
) -> Result<(), AllocError>
    ensures { OnOk result (out.new.items ≡ out.old.items ++ (words.now ++ (id_text (id_of id.tid) ++ (32 ∷ (id_text (id_of id.serial) ++ (32 ∷ (reason_text (reason_of reason) ++ (32 ∷ quoted_time moment.hundredths)))))))) }
{
    put_settled_so(out, words, id, reason.text(), moment)
}

fn put_key(out: &mut Vec<u8>, key: &Key) -> Result<(), AllocError>
    ensures { OnOk result (out.new.items ≡ out.old.items ++ key_text (key_of key.now)) }
{
    match key {
        Key::Number(n) => put_number(out, *n),
        Key::Text(bytes) => put_bytes(out, bytes.as_slice()),
        Key::End => Ok(()),
    }
}

// A record with its key, behind other words.
fn put_record(out: &mut Vec<u8>, words: &[u8], key: &Key, bytes: &[u8]) -> Result<(), AllocError>
    ensures { OnOk result (out.new.items ≡ out.old.items ++ (words.now ++ (key_text (key_of key.now) ++ (32 ∷ bytes_text bytes.now)))) }
{
    put(out, words)?;
    put_key(out, key)?;
    put(out, b" ")?;
    put_bytes(out, bytes)
}

fn put_found(out: &mut Vec<u8>, bytes: &[u8]) -> Result<(), AllocError>
    ensures { OnOk result (out.new.items ≡ out.old.items ++ line_words (model.RecordFound bytes.now)) }
{
    put(out, b"RMS$_NORMAL ")?;
    put_bytes(out, bytes)
}

fn put_next(out: &mut Vec<u8>, key: &Key, bytes: &[u8]) -> Result<(), AllocError>
    ensures { OnOk result (out.new.items ≡ out.old.items ++ line_words (model.NextFound (key_of key.now) bytes.now)) }
{
    put_record(out, b"RMS$_NORMAL ", key, bytes)
}

fn put_with_number(out: &mut Vec<u8>, words: &[u8], n: u64) -> Result<(), AllocError>
    ensures { OnOk result (out.new.items ≡ out.old.items ++ (words.now ++ decimal n)) }
{
    put(out, words)?;
    put_number(out, n)
}

fn put_with_numbers(
    out: &mut Vec<u8>,
    words: &[u8],
    first: u64,
    second: u64,
) -> Result<(), AllocError>
    ensures { OnOk result (out.new.items ≡ out.old.items ++ (words.now ++ (decimal first ++ (32 ∷ decimal second)))) }
{
    put(out, words)?;
    put_number(out, first)?;
    put(out, b" ")?;
    put_number(out, second)
}

fn put_with_id(out: &mut Vec<u8>, words: &[u8], id: Id) -> Result<(), AllocError>
    ensures { OnOk result (out.new.items ≡ out.old.items ++ (words.now ++ id_text (id_of id))) }
{
    put(out, words)?;
    put_id(out, id)
}

fn quota_words(quota: Quota) -> &'static [u8]
    ensures { result.now ≡ quota_text (quota_of quota) }
{
    match quota {
        Quota::Branches => b"BRANCHES",
        Quota::Files => b"FILES",
        Quota::Changes => b"CHANGES",
        Quota::Boots => b"BOOTS",
        Quota::Moments => b"MOMENTS",
        Quota::Locks => b"LOCKS",
        Quota::Positions => b"POSITIONS",
        Quota::Slots => b"SLOTS",
        Quota::Bids => b"BIDS",
        Quota::Declared => b"DECLARED",
        Quota::Managers => b"RMS",
    }
}

fn put_limit(out: &mut Vec<u8>, words: &[u8], quota: &[u8], limit: u64) -> Result<(), AllocError>
    ensures { OnOk result (out.new.items ≡ out.old.items ++ (words.now ++ (quota.now ++ (32 ∷ decimal limit)))) }
{
    put(out, words)?;
    put(out, quota)?;
    put(out, b" ")?;
    put_number(out, limit)
}

fn put_quota(out: &mut Vec<u8>, quota: Quota, limit: u64) -> Result<(), AllocError>
    ensures { OnOk result (out.new.items ≡ out.old.items ++ line_words (model.QuotaExceeded (quota_of quota) limit)) }
{
    put_limit(out, b"SS$_EXQUOTA ", quota_words(quota), limit)
}

fn put_image(out: &mut Vec<u8>, image: &Option<Vec<u8>>) -> Result<(), AllocError>
    ensures { OnOk result (out.new.items ≡ out.old.items ++ image_text (value_of image.now)) }
{
    match image {
        Some(bytes) => put_bytes(out, bytes.as_slice()),
        None => put(out, b"-"),
    }
}

// A record with its file, its key and its image.
fn put_of_file(
    out: &mut Vec<u8>,
    file: &[u8],
    key: &Key,
    image: &Option<Vec<u8>>,
) -> Result<(), AllocError>
    ensures { OnOk result (out.new.items ≡ out.old.items ++ (32 ∷ (file.now ++ (32 ∷ (key_text (key_of key.now) ++ (32 ∷ image_text (value_of image.now))))))) }
{
    put(out, b" ")?;
    put(out, file)?;
    put(out, b" ")?;
    put_key(out, key)?;
    put(out, b" ")?;
    put_image(out, image)
}

// Words, a position, other words, a transaction with its branch, and a record.
fn put_change(
    out: &mut Vec<u8>,
    words: &[u8],
    position: u64,
    kind: &[u8],
    id: BranchKey,
    file: &FileName,
    key: &Key,
    image: &Option<Vec<u8>>,
) -> Result<(), AllocError>
    ensures { OnOk result (out.new.items ≡ out.old.items ++ (words.now ++ (decimal position ++ (kind.now ++ (id_text (id_of id.tid) ++ (32 ∷ (id_text (id_of id.serial) ++ (32 ∷ (file.now ++ (32 ∷ (key_text (key_of key.now) ++ (32 ∷ image_text (value_of image.now))))))))))))) }
{
    put_with_number(out, words, position)?;
    put_branch(out, kind, id)?;
    put_of_file(out, file.bytes(), key, image)
}

fn put_change_entry(
    out: &mut Vec<u8>,
    position: u64,
    id: BranchKey,
    file: &FileName,
    key: &Key,
    image: &Option<Vec<u8>>,
) -> Result<(), AllocError>
    ensures { OnOk result (out.new.items ≡ out.old.items ++ line_words (model.ChangeEntry position (id_of id.tid) (id_of id.serial) file.now (key_of key.now) (value_of image.now))) }
{
    put_change(out, b"ENTRY ", position, b" CHANGE ", id, file, key, image)
}

fn outcome_words(outcome: Outcome) -> &'static [u8]
    ensures { result.now ≡ outcome_text (outcome_of outcome) }
{
    match outcome {
        Outcome::Commit => b"COMMIT",
        Outcome::Abort => b"ABORT",
    }
}

// Words, a position, and a settlement.
fn put_settled_at(
    out: &mut Vec<u8>,
    words: &[u8],
    position: u64,
    kind: &[u8],
    id: BranchKey,
    how: &[u8],
    moment: WrittenMoment,
) -> Result<(), AllocError>
    ensures { OnOk result (out.new.items ≡ out.old.items ++ (words.now ++ (decimal position ++ (kind.now ++ (id_text (id_of id.tid) ++ (32 ∷ (id_text (id_of id.serial) ++ (32 ∷ (how.now ++ (32 ∷ quoted_time moment.hundredths)))))))))) }
{
    put_with_number(out, words, position)?;
    put_settled_so(out, kind, id, how, moment)
}

fn put_settled_entry(
    out: &mut Vec<u8>,
    position: u64,
    id: BranchKey,
    outcome: Outcome,
    moment: WrittenMoment,
) -> Result<(), AllocError>
    ensures { OnOk result (out.new.items ≡ out.old.items ++ line_words (model.SettledEntry position (id_of id.tid) (id_of id.serial) (outcome_of outcome) moment.hundredths)) }
{
    put_settled_at(
        out,
        b"ENTRY ",
        position,
        b" SETTLED ",
        id,
        outcome_words(outcome),
        moment,
    )
}

fn put_journal_full(out: &mut Vec<u8>, free: u64, need: u128) -> Result<(), AllocError>
    ensures { OnOk result (out.new.items ≡ out.old.items ++ line_words (model.JournalFull free need)) }
{
    let mut buffer = Buffer::new();
    put_with_number(out, b"RMS$_FUL RU ", free)?;
    put(out, b" ")?;
    put(out, buffer.format(need).as_bytes())
}

// Words, and two numbers behind them, which may be great.
fn put_with_great_numbers(
    out: &mut Vec<u8>,
    words: &[u8],
    first: u128,
    second: u128,
) -> Result<(), AllocError>
    ensures { OnOk result (out.new.items ≡ out.old.items ++ (words.now ++ (decimal first ++ (32 ∷ decimal second)))) }
{
    let mut front = Buffer::new();
    put(out, words)?;
    put(out, front.format(first).as_bytes())?;
    put(out, b" ")?;
    let mut behind = Buffer::new();
    put(out, behind.format(second).as_bytes())
}

// Words, and two moments behind them.
fn put_with_moments(
    out: &mut Vec<u8>,
    words: &[u8],
    first: WrittenMoment,
    second: WrittenMoment,
) -> Result<(), AllocError>
    ensures { OnOk result (out.new.items ≡ out.old.items ++ (words.now ++ (quoted_time first.hundredths ++ (32 ∷ quoted_time second.hundredths)))) }
{
    put(out, words)?;
    put_time(out, first)?;
    put(out, b" ")?;
    put_time(out, second)
}

fn put_save(out: &mut Vec<u8>, position: u64, moment: WrittenMoment) -> Result<(), AllocError>
    ensures { OnOk result (out.new.items ≡ out.old.items ++ line_words (model.NormalSave position moment.hundredths)) }
{
    put_with_number(out, b"SS$_NORMAL ", position)?;
    put(out, b" ")?;
    put_time(out, moment)
}

fn put_no_volume(
    out: &mut Vec<u8>,
    node: NodeName,
    condition: u32,
    block: u64,
) -> Result<(), AllocError>
    ensures { OnOk result (out.new.items ≡ out.old.items ++ line_words (model.NoVolume node condition block)) }
{
    put(out, b"VOLUME ")?;
    put(out, node.bytes())?;
    put_with_numbers(out, b" ", u64::from(condition), block)
}

fn kind_words(kind: Kind) -> &'static [u8]
    ensures { result.now ≡ kind_text (kind_of kind) }
{
    match kind {
        Kind::Join => b"JOIN",
        Kind::JoinOk => b"JOINOK",
        Kind::JoinNo => b"JOINNO",
        Kind::Prepare => b"PREPARE",
        Kind::Yes => b"YES",
        Kind::ReadOnly => b"READONLY",
        Kind::No => b"NO",
        Kind::Commit => b"COMMIT",
        Kind::Abort => b"ABORT",
        Kind::Ack => b"ACK",
        Kind::Inquire => b"INQUIRE",
    }
}

// A message behind other words: its sender, its receiver, its kind, its branch, and the branch's identifier where it has one.
fn put_message(out: &mut Vec<u8>, m: &Message) -> Result<(), AllocError>
    ensures { OnOk result (out.new.items ≡ out.old.items ++ message_text (message_of m.now)) }
{
    put(out, m.from.bytes())?;
    put(out, b" ")?;
    put(out, m.to.bytes())?;
    put(out, b" ")?;
    put(out, kind_words(m.kind))?;
    let branch = BranchKey {
        tid: m.tid.0,
        serial: m.serial.0,
    };
    put_branch(out, b" ", branch)?;
    match m.bid {
        Some(bid) => put_with_id(out, b" ", bid.0),
        None => Ok(()),
    }
}

fn put_sent(out: &mut Vec<u8>, number: u64, m: &Message) -> Result<(), AllocError>
    ensures { OnOk result (out.new.items ≡ out.old.items ++ line_words (model.Sent number (message_of m.now))) }
{
    put_with_number(out, b"SENT ", number)?;
    put(out, b" ")?;
    put_message(out, m)
}

fn put_unsent(out: &mut Vec<u8>, m: &Message) -> Result<(), AllocError>
    ensures { OnOk result (out.new.items ≡ out.old.items ++ line_words (model.Unsent (message_of m.now))) }
{
    put(out, b"UNSENT ")?;
    put_message(out, m)
}

fn put_ended(out: &mut Vec<u8>, tid: Id, reason: Option<Reason>) -> Result<(), AllocError>
    ensures { OnOk result (out.new.items ≡ out.old.items ++ line_words (model.Ended (id_of tid) (option_map reason_of reason))) }
{
    put_with_id(out, b"ENDED ", tid)?;
    match reason {
        None => put(out, b" SS$_NORMAL"),
        Some(reason) => {
            put(out, b" SS$_ABORT ")?;
            put(out, reason.text())
        }
    }
}

fn put_ending(out: &mut Vec<u8>, reason: Reason) -> Result<(), AllocError>
    ensures { OnOk result (out.new.items ≡ out.old.items ++ line_words (model.TransactionAborted (reason_of reason))) }
{
    put(out, b"SS$_ABORT ")?;
    put(out, reason.text())
}

fn put_asked(out: &mut Vec<u8>, branch: BranchKey, outcome: Outcome) -> Result<(), AllocError>
    ensures { OnOk result (out.new.items ≡ out.old.items ++ line_words (model.Asked (id_of branch.tid) (id_of branch.serial) (outcome_of outcome))) }
{
    put_branch(out, b"ASKED ", branch)?;
    put(out, b" ")?;
    put(out, outcome_words(outcome))
}

fn put_with_name(out: &mut Vec<u8>, words: &[u8], node: NodeName) -> Result<(), AllocError>
    ensures { OnOk result (out.new.items ≡ out.old.items ++ (words.now ++ node)) }
{
    put(out, words)?;
    put(out, node.bytes())
}

fn put_booted(out: &mut Vec<u8>, node: NodeName, boot: u32) -> Result<(), AllocError>
    ensures { OnOk result (out.new.items ≡ out.old.items ++ line_words (model.Booted node boot)) }
{
    put_with_name(out, b"BOOTED ", node)?;
    put_with_number(out, b" ", u64::from(boot))
}

fn put_crashed(out: &mut Vec<u8>, node: NodeName) -> Result<(), AllocError>
    ensures { OnOk result (out.new.items ≡ out.old.items ++ line_words (model.Crashed node)) }
{
    put_with_name(out, b"DOWN ", node)?;
    put(out, b" CRASH")
}

fn put_in_doubt(out: &mut Vec<u8>, serial: Id, node: NodeName) -> Result<(), AllocError>
    ensures { OnOk result (out.new.items ≡ out.old.items ++ line_words (model.InDoubt (id_of serial) node)) }
{
    put_with_id(out, b"INDOUBT ", serial)?;
    put_with_name(out, b" ", node)
}

// Names of resource managers, each behind a comma.
fn put_managers_behind(out: &mut Vec<u8>, rms: &[RmName]) -> Result<(), AllocError>
    ensures { OnOk result (out.new.items ≡ out.old.items ++ flat_map (λ text. 44 ∷ text) rms.now) }
{
    match rms {
        [] => Ok(()),
        [rm, rest @ ..] => {
            put(out, b",")?;
            put(out, rm.bytes())?;
            put_managers_behind(out, rest)
        }
    }
}

fn put_managers(out: &mut Vec<u8>, rms: &[RmName]) -> Result<(), AllocError>
    ensures { OnOk result (out.new.items ≡ out.old.items ++ list_text rms.now) }
{
    match rms {
        [] => put(out, b"-"),
        [rm, rest @ ..] => {
            put(out, rm.bytes())?;
            put_managers_behind(out, rest)
        }
    }
}

// Ids and then resource managers, each behind a comma.
fn put_missing_behind(out: &mut Vec<u8>, ids: &[Id], rms: &[RmName]) -> Result<(), AllocError>
    ensures { OnOk result (out.new.items ≡ out.old.items ++ flat_map (λ text. 44 ∷ text) (map id_text (map id_of ids.now) ++ rms.now)) }
{
    match ids {
        [] => put_managers_behind(out, rms),
        [id, rest @ ..] => {
            put_with_id(out, b",", *id)?;
            put_missing_behind(out, rest, rms)
        }
    }
}

// Ids and then resource managers, or a dash where there is none of both.
fn put_missing(out: &mut Vec<u8>, ids: &[Id], rms: &[RmName]) -> Result<(), AllocError>
    ensures { OnOk result (out.new.items ≡ out.old.items ++ list_text (map id_text (map id_of ids.now) ++ rms.now)) }
{
    match ids {
        [] => put_managers(out, rms),
        [id, rest @ ..] => {
            put_id(out, *id)?;
            put_missing_behind(out, rest, rms)
        }
    }
}

fn put_pending(out: &mut Vec<u8>, ids: &[Id], rms: &[RmName]) -> Result<(), AllocError>
    ensures { OnOk result (out.new.items ≡ out.old.items ++ line_words (model.Pending (map id_of ids.now) rms.now)) }
{
    put(out, b"PENDING ")?;
    put_missing(out, ids, rms)
}

// Serials, each behind a comma.
fn put_serials_behind(out: &mut Vec<u8>, serials: &[Serial]) -> Result<(), AllocError>
    ensures { OnOk result (out.new.items ≡ out.old.items ++ flat_map (λ text. 44 ∷ text) (map id_text (map serial_of serials.now))) }
{
    match serials {
        [] => Ok(()),
        [serial, rest @ ..] => {
            put_with_id(out, b",", serial.0)?;
            put_serials_behind(out, rest)
        }
    }
}

fn put_serials(out: &mut Vec<u8>, serials: &[Serial]) -> Result<(), AllocError>
    ensures { OnOk result (out.new.items ≡ out.old.items ++ ids_text (map serial_of serials.now)) }
{
    match serials {
        [] => put(out, b"-"),
        [serial, rest @ ..] => {
            put_id(out, serial.0)?;
            put_serials_behind(out, rest)
        }
    }
}

fn event_words(event: RmEvent) -> &'static [u8]
    ensures { result.now ≡ event_text (rm_event_of event) }
{
    match event {
        RmEvent::Prepare => b"PREPARE",
        RmEvent::Commit => b"COMMIT",
        RmEvent::Abort => b"ABORT",
        RmEvent::OnePhase => b"ONEPHASE",
    }
}

// Words, other words, a transaction with its branch, and a name.
fn put_told(
    out: &mut Vec<u8>,
    words: &[u8],
    what: &[u8],
    id: BranchKey,
    name: &[u8],
) -> Result<(), AllocError>
    ensures { OnOk result (out.new.items ≡ out.old.items ++ (words.now ++ (what.now ++ (32 ∷ (id_text (id_of id.tid) ++ (32 ∷ (id_text (id_of id.serial) ++ (32 ∷ name.now)))))))) }
{
    put(out, words)?;
    put(out, what)?;
    put_branch(out, b" ", id)?;
    put(out, b" ")?;
    put(out, name)
}

fn put_event(
    out: &mut Vec<u8>,
    event: RmEvent,
    branch: BranchKey,
    rm: &RmName,
) -> Result<(), AllocError>
    ensures { OnOk result (out.new.items ≡ out.old.items ++ line_words (model.ManagerTold (rm_event_of event) (id_of branch.tid) (id_of branch.serial) rm.now)) }
{
    put_told(out, b"EVENT ", event_words(event), branch, rm.bytes())
}

fn put_log_record(out: &mut Vec<u8>, logged: &LogRec) -> Result<(), AllocError>
    ensures { OnOk result (out.new.items ≡ out.old.items ++ record_text (log_record_of logged.now).kind (log_record_of logged.now)) }
{
    let branch = BranchKey {
        tid: logged.tid.0,
        serial: logged.serial.0,
    };
    match logged.kind {
        LogKind::Prepared => {
            put_branch(out, b"PREPARED ", branch)?;
            put(out, b" ")?;
            put_managers(out, logged.rms.items())
        }
        LogKind::Committed => {
            put_branch(out, b"COMMITTED ", branch)?;
            put(out, b" ")?;
            put_serials(out, logged.waiting.items())?;
            put(out, b" ")?;
            put_managers(out, logged.rms.items())
        }
    }
}

fn put_log_entry(out: &mut Vec<u8>, slot: u32, logged: &LogRec) -> Result<(), AllocError>
    ensures { OnOk result (out.new.items ≡ out.old.items ++ line_words (model.LogEntry slot (log_record_of logged.now))) }
{
    put_with_number(out, b"LOG ", u64::from(slot))?;
    put(out, b" ")?;
    put_log_record(out, logged)
}

// Words behind others.
fn put_both(out: &mut Vec<u8>, words: &[u8], others: &[u8]) -> Result<(), AllocError>
    ensures { OnOk result (out.new.items ≡ out.old.items ++ (words.now ++ others.now)) }
{
    put(out, words)?;
    put(out, others)
}

fn standing_words(standing: Standing) -> &'static [u8]
    ensures { result.now ≡ standing_text (standing_of standing) }
{
    match standing {
        Standing::Active => b"ACTIVE",
        Standing::Ending => b"ENDING",
        Standing::Prepared => b"PREPARED",
        Standing::Committed => b"COMMITTED",
        Standing::Unknown => b"UNKNOWN",
    }
}

fn put_standing(out: &mut Vec<u8>, standing: Standing) -> Result<(), AllocError>
    ensures { OnOk result (out.new.items ≡ out.old.items ++ line_words (model.NormalStanding (standing_of standing))) }
{
    put_both(out, b"SS$_NORMAL ", standing_words(standing))
}

// Words, and three numbers behind them.
fn put_with_three(
    out: &mut Vec<u8>,
    words: &[u8],
    first: u64,
    second: u64,
    third: u64,
) -> Result<(), AllocError>
    ensures { OnOk result (out.new.items ≡ out.old.items ++ (words.now ++ (decimal first ++ (32 ∷ (decimal second ++ (32 ∷ decimal third)))))) }
{
    put_with_numbers(out, words, first, second)?;
    put(out, b" ")?;
    put_number(out, third)
}

fn put_log_counts(
    out: &mut Vec<u8>,
    committed: u32,
    prepared: u32,
    free: u32,
) -> Result<(), AllocError>
    ensures { OnOk result (out.new.items ≡ out.old.items ++ line_words (model.NormalLog committed prepared free)) }
{
    put_with_three(
        out,
        b"SS$_NORMAL ",
        u64::from(committed),
        u64::from(prepared),
        u64::from(free),
    )
}

fn put_prepared_entry(out: &mut Vec<u8>, position: u64, id: BranchKey) -> Result<(), AllocError>
    ensures { OnOk result (out.new.items ≡ out.old.items ++ line_words (model.PreparedEntry position (id_of id.tid) (id_of id.serial))) }
{
    put_with_number(out, b"ENTRY ", position)?;
    put_branch(out, b" PREPARED ", id)
}

fn put_words(out: &mut Vec<u8>, line: &Line) -> Result<(), AllocError>
    ensures { OnOk result (out.new.items ≡ out.old.items ++ line_words (line_of line.now)) }
{
    match line {
        Line::Sent(number, m) => put_sent(out, *number, m),
        Line::Unsent(m) => put_unsent(out, m),
        Line::Joined(id) => put_branch(out, b"JOINED ", *id),
        Line::Started(id) => put_branch(out, b"STARTED ", *id),
        Line::Prepared(id) => put_branch(out, b"PREPARED ", *id),
        Line::ReadOnly(id) => put_branch(out, b"READONLY ", *id),
        Line::Ended(tid, reason) => put_ended(out, *tid, *reason),
        Line::Forgot(id) => put_branch(out, b"FORGOT ", *id),
        Line::Asked(id, outcome) => put_asked(out, *id, *outcome),
        Line::Booted(node, boot) => put_booted(out, *node, *boot),
        Line::Record(key, bytes) => put_record(out, b"RECORD ", key, bytes.as_slice()),
        Line::Committed(id, moment) => put_settled(out, b"COMMIT ", *id, *moment),
        Line::Aborted(id, reason, moment) => put_aborted(out, b"ABORT ", *id, *reason, *moment),
        Line::LastCommitted(id, moment) => put_settled(out, b"LAST COMMIT ", *id, *moment),
        Line::LastAborted(id, reason, moment) => {
            put_aborted(out, b"LAST ABORT ", *id, *reason, *moment)
        }
        Line::ChangeEntry(position, id, file, key, image) => {
            put_change_entry(out, *position, *id, file, key, image)
        }
        Line::SettledEntry(position, id, outcome, moment) => {
            put_settled_entry(out, *position, *id, *outcome, *moment)
        }
        Line::PreparedEntry(position, id) => put_prepared_entry(out, *position, *id),
        Line::ManagerTold(event, id, rm) => put_event(out, *event, *id, rm),
        Line::LogEntry(slot, record) => put_log_entry(out, *slot, record),
        Line::Crashed(node) => put_crashed(out, *node),
        Line::Pending(serials, rms) => put_pending(out, serials.as_slice(), rms.as_slice()),
        Line::NormalStanding(standing) => put_standing(out, *standing),
        Line::NormalLog(committed, prepared, free) => {
            put_log_counts(out, *committed, *prepared, *free)
        }
        Line::TransactionAborted(reason) => put_ending(out, *reason),
        Line::NotInitializedAt(node) => put_with_name(out, b"NOINIT ", *node),
        Line::NoSuchMessage => put(out, b"NOSUCHMSG"),
        Line::NoSuchBranchId => put(out, b"SS$_NOSUCHBID"),
        Line::NoSuchManager => put(out, b"SS$_NOSUCHRM"),
        Line::WrongState => put(out, b"SS$_WRONGSTATE"),
        Line::InDoubt(serial, node) => put_in_doubt(out, *serial, *node),
        Line::Normal => put(out, b"SS$_NORMAL"),
        Line::NormalCount(n) => put_with_number(out, b"SS$_NORMAL ", *n),
        Line::NormalId(id) => put_with_id(out, b"SS$_NORMAL ", *id),
        Line::NormalSpan(first, end) => put_with_numbers(out, b"SS$_NORMAL ", *first, *end),
        Line::NormalSave(position, moment) => put_save(out, *position, *moment),
        Line::RecordNormal => put(out, b"RMS$_NORMAL"),
        Line::RecordPosition(n) => put_with_number(out, b"RMS$_NORMAL ", *n),
        Line::RecordFound(bytes) => put_found(out, bytes.as_slice()),
        Line::NextFound(key, bytes) => put_next(out, key, bytes.as_slice()),
        Line::NoSuchNode => put(out, b"NOSUCHNODE"),
        Line::NodeDown => put(out, b"NODEDOWN"),
        Line::NodeUp => put(out, b"NODEUP"),
        Line::VolumeInUse => put(out, b"VOLINUSE"),
        Line::NotInitialized => put(out, b"NOINIT"),
        Line::BadLabel => put(out, b"LABEL"),
        Line::FileNotFound => put(out, b"RMS$_FNF"),
        Line::FileExists => put(out, b"RMS$_FEX"),
        Line::BadParameter => put(out, b"SS$_BADPARAM"),
        Line::BadOperation => put(out, b"RMS$_IOP"),
        Line::BadRecordNumber => put(out, b"RMS$_MRN"),
        Line::BadRecordSize => put(out, b"RMS$_RSZ"),
        Line::NoSuchTransaction => put(out, b"SS$_NOSUCHTID"),
        Line::NotForUnits => put(out, b"NOTRU"),
        Line::NeedsUnit => put(out, b"RMS$_NRU"),
        Line::NoJournal => put(out, b"NOTMARKED"),
        Line::NoSave => put(out, b"NOSAVE"),
        Line::TooEarly(until, saved) => put_with_moments(out, b"EARLY ", *until, *saved),
        Line::PositionsMissing(needed, first) => put_with_numbers(out, b"SPAN ", *needed, *first),
        Line::MomentsMissing(until, since) => put_with_moments(out, b"SPAN ", *until, *since),
        Line::RecordLocked(id) => put_with_id(out, b"RMS$_RLK ", *id),
        Line::FileLocked(id) => put_with_id(out, b"RMS$_FLK ", *id),
        Line::NoVolume(node, condition, block) => put_no_volume(out, *node, *condition, *block),
        Line::RecordExists => put(out, b"RMS$_REX"),
        Line::KeyExists => put(out, b"RMS$_DUP"),
        Line::RecordNotFound => put(out, b"RMS$_RNF"),
        Line::EndOfFile => put(out, b"RMS$_EOF"),
        Line::KeyChanged => put(out, b"RMS$_CHG"),
        Line::QuotaExceeded(quota, limit) => put_quota(out, *quota, *limit),
        Line::VolumeFull(free, need) => { put_with_numbers(out, b"RMS$_FUL VOLUME ", *free, *need) }
        Line::FileFull(free, need) => put_with_numbers(out, b"RMS$_FUL FILE ", *free, *need),
        Line::JournalFull(free, need) => put_journal_full(out, *free, *need),
        Line::AftersFull(free, need) => {
            put_with_great_numbers(out, b"RMS$_FUL AI ", *free, *need)
        }
        Line::BeforesFull(free, need) => {
            put_with_great_numbers(out, b"RMS$_FUL BI ", *free, *need)
        }
        Line::BadLine(column) => put_with_number(out, b"BADLINE ", u64::from(*column)),
        Line::TooLong => put(out, b"TOOLONG"),
    }
}

fn put_line(out: &mut Vec<u8>, number: u64, line: &Line) -> Result<(), AllocError>
    ensures { OnOk result (out.new.items ≡ out.old.items ++ line_text number (line_of line.now)) }
{
    put_number(out, number)?;
    put(out, b" ")?;
    put_words(out, line)?;
    put(out, b"\n")
}

/// Writes lines with their number.
pub fn put_lines(out: &mut Vec<u8>, number: u64, lines: &[Line]) -> Result<(), AllocError>
    ensures { OnOk result (out.new.items ≡ out.old.items ++ lines_text number (map line_of lines.now)) }
{
    match lines {
        [] => Ok(()),
        [line, rest @ ..] => {
            put_line(out, number, line)?;
            put_lines(out, number, rest)
        }
    }
}
