// Entries as bytes, and bytes as entries.
ghost use Rattle.std.specs.Prelude.{◌≡◌, ◌==◌, ◌&&◌, ◌≤◌, ◌<◌, ◌+◌, ◌*◌, ◌++◌, ℕ, List, [], ◌∷◌, IfOk, IfErr, length, take, drop, unwrap_or, option_copied, vec_len, vec_capacity, slice_index};
ghost use Rattle.std.specs.Int.{to_le_bytes, w16, w64};
ghost use Rattle.byteorder.specs.Endian.{little_bytes, little_number};
ghost use Rattle.vms_base.specs.vms_model.Ids.{IsId, id_bytes};
ghost use Rattle.vms_base.specs.vms_model.Limits.{key_limit, record_limit};
ghost use Rattle.vms_base.specs.Ids.{id_of};
ghost use Rattle.journal_model.specs.Entries.{Entry, IsEntry, spelling, total};
ghost use Rattle.journal_format.specs.IdForms.{IsIdForm, id_said};
ghost use Rattle.journal_format.specs.Fronts.{Begun, Fails, read_entry, image_size, key_size, size_of};
ghost use Rattle.journal_format.specs.Heads.{IsPlain, Reads, entry_of, flag_of, kind_code, outcome_said};

use crate::check::{EntryErr, HEAD, check_front, has_image, size_at, size_bytes};
use crate::head::{EntryHead, EntryKind};
use byteorder::{ByteOrder, LittleEndian};
use std::alloc::{AllocError, Global};
use std::marker::Model;
use vms_base::{Id, KeyText, Moment, Outcome, Record, Serial, Tid, get_id, put_id};

/// The longest entry: its head, a key of 64 bytes and a record of 8,160.
pub const LONGEST_ENTRY: usize = 8272;

/// The bytes of the last encoded entry.
#[derive(Drop)]
pub struct EntryBuf {
    bytes: Vec<u8>,
}

impl Model for EntryBuf {
    ghost use Rattle.std.specs.Prelude.{◌≤◌, ℕ, List, length, vec_capacity};

    ghost Value = { List ℕ };

    ghost view = { λ b. b.bytes.items };

    ghost invariant = { λ b. (8272 ≤ vec_capacity b.bytes) × (length b.bytes.items ≤ 8272) };
}

impl EntryBuf {
    /// Room for the longest entry, or an error where there is no memory for it.
    pub fn reserve(alloc: Global) -> Result<EntryBuf, AllocError>
        ensures { IfOk result (λ buf. buf ≡ []) }
    {
        Ok(EntryBuf {
            bytes: Vec::with_capacity(alloc, LONGEST_ENTRY)?,
        })
    }

    /// The bytes of the entry that was encoded last.
    pub fn bytes(&self) -> &[u8]
        ensures value { result.now ≡ self.now }
        ensures few { length self.now ≤ 8272 }
    {
        &self.bytes
    }
}

// Adds bytes where there is room for them.
fn add(out: &mut Vec<u8>, bytes: &[u8])
    requires { vec_len out.old + length bytes.now ≤ vec_capacity out.old }
    ensures items { out.new.items ≡ out.old.items ++ bytes.now }
    ensures len { vec_len out.new ≡ vec_len out.old + length bytes.now }
    ensures capacity { vec_capacity out.old ≤ vec_capacity out.new }
{
    let _ = out.extend_from_slice(bytes);
}

fn kind_code(kind: EntryKind) -> u8
    ensures { result ≡ kind_code kind }
{
    match kind {
        EntryKind::Change => 1,
        EntryKind::Prepared => 2,
        EntryKind::Settled => 3,
    }
}

fn flag_of(kind: EntryKind, present: bool, outcome: Option<Outcome>) -> u8
    ensures { result ≡ flag_of kind present outcome }
{
    match kind {
        EntryKind::Change => { if present { 1 } else { 0 } }
        EntryKind::Prepared => 0,
        EntryKind::Settled => match outcome {
            Some(Outcome::Commit) => 1,
            Some(Outcome::Abort) => 2,
            None => 0,
        },
    }
}

fn id_bytes_of(id: &Id) -> [u8; 16]
    ensures { result ≡ id_bytes (id_of id.now) }
{
    let mut bytes = [0; 16];
    put_id(id, &mut bytes);
    bytes
}

fn moment_bytes(moment: Moment) -> [u8; 8]
    ensures { result ≡ to_le_bytes w64 moment.0 }
{
    let mut bytes = [0; 8];
    LittleEndian::write_u64(&mut bytes, moment.0);
    bytes
}

fn key_bytes(key: &Option<KeyText>) -> &[u8]
    ensures value { result.now ≡ unwrap_or key.now [] }
    ensures few { length result.now ≤ key_limit }
{
    match key {
        Some(text) => text.bytes(),
        None => &[],
    }
}

// The bytes before the ids.
fn add_fields(out: &mut Vec<u8>, e: &EntryHead, key: u8, image: u16)
    requires key { key ≤ key_limit }
    requires image { image ≤ record_limit }
    requires room { vec_len out.old + 8 ≤ vec_capacity out.old }
    ensures items { out.new.items ≡ out.old.items ++ kind_code e.now.kind ∷ flag_of e.now.kind e.now.present e.now.outcome ∷ e.now.file ∷ key ∷ (to_le_bytes w16 image ++ to_le_bytes w16 (total key image)) }
    ensures len { vec_len out.new ≡ vec_len out.old + 8 }
    ensures capacity { vec_capacity out.old ≤ vec_capacity out.new }
{
    let flag = flag_of(e.kind, e.present, e.outcome);
    add(out, &[kind_code(e.kind), flag, e.file, key]);
    add(out, &size_bytes(image));
    add(out, &size_bytes(HEAD as u16 + key as u16 + image));
}

fn encode_into(out: &mut Vec<u8>, e: &EntryHead, image: &[u8])
    requires entry { IsEntry (entry_of e.now image.now) }
    requires room { 8272 ≤ vec_capacity out.old }
    ensures bytes { out.new.items ≡ spelling (entry_of e.now image.now) }
    ensures few { length out.new.items ≤ 8272 }
    ensures capacity { vec_capacity out.old ≤ vec_capacity out.new }
{
    let key = key_bytes(&e.key);
    out.clear();
    add_fields(out, e, key.len() as u8, image.len() as u16);
    add(out, &id_bytes_of(&e.tid.0));
    add(out, &id_bytes_of(&e.serial.0));
    add(out, &moment_bytes(e.moment));
    add(out, key);
    add(out, image);
}

/// Spells an entry. The head's `image_len` does not count.
pub fn encode(e: &EntryHead, image: Option<&Record>, out: &mut EntryBuf)
    requires { IsEntry (entry_of e.now (unwrap_or (option_copied image) [])) }
    ensures { out.new ≡ spelling (entry_of e.now (unwrap_or (option_copied image.entry) [])) }
{
    match image {
        None => encode_into(&mut out.bytes, e, &[]),
        Some(record) => encode_into(&mut out.bytes, e, record.bytes()),
    }
}

fn kind_of(code: u8) -> EntryKind
    requires low { 1 ≤ code }
    requires high { code ≤ 3 }
    ensures { kind_code result ≡ code }
{
    if code == 1 {
        EntryKind::Change
    } else if code == 2 {
        EntryKind::Prepared
    } else {
        EntryKind::Settled
    }
}

fn outcome_of(kind: u8, flag: u8) -> Option<Outcome>
    ensures { result ≡ outcome_said kind flag }
{
    if kind != 3 {
        None
    } else if flag == 1 {
        Some(Outcome::Commit)
    } else if flag == 2 {
        Some(Outcome::Abort)
    } else {
        None
    }
}

fn sixteen(bytes: &[u8], at: usize) -> [u8; 16]
    requires { at + 16 ≤ length bytes.now }
    ensures { result ≡ take 16 (drop at bytes.now) }
{
    let mut out = [0; 16];
    out.copy_from_slice(&bytes[at..at + 16]);
    out
}

fn id_at(bytes: &[u8], at: usize) -> Id
    requires within { at + 16 ≤ length bytes.now }
    requires form { IsIdForm (take 16 (drop at bytes.now)) }
    ensures { id_of result ≡ id_said (take 16 (drop at bytes.now)) }
{
    match get_id(&sixteen(bytes, at)) {
        Some(id) => id,
        None => unreachable!(),
    }
}

fn moment_at(bytes: &[u8]) -> Moment
    requires { 48 ≤ length bytes.now }
    ensures { result.0 ≡ (read_entry bytes.now).moment }
{
    Moment(LittleEndian::read_u64(&bytes[40..48]))
}

fn key_at(bytes: &[u8], len: usize) -> Option<KeyText>
    requires short { len ≤ key_limit }
    requires within { 48 + len ≤ length bytes.now }
    ensures { unwrap_or result [] ≡ take len (drop 48 bytes.now) }
{
    KeyText::new(&bytes[HEAD..HEAD + len])
}

fn head_of(bytes: &[u8]) -> EntryHead
    requires long { 48 ≤ length bytes.now }
    requires begun { Begun 48 bytes.now }
    requires whole { size_of bytes.now ≤ length bytes.now }
    ensures head { (image : List ℕ) → image ≡ (read_entry bytes.now).image → entry_of result image ≡ read_entry bytes.now }
    ensures plain { (image : List ℕ) → image ≡ (read_entry bytes.now).image → IsPlain result image }
{
    EntryHead {
        kind: kind_of(bytes[0]),
        present: has_image(bytes[0], bytes[1]),
        outcome: outcome_of(bytes[0], bytes[1]),
        file: bytes[2],
        key: key_at(bytes, bytes[3] as usize),
        image_len: size_at(bytes, 4),
        tid: Tid(id_at(bytes, 8)),
        serial: Serial(id_at(bytes, 24)),
        moment: moment_at(bytes),
    }
}

/// The entry that stands at the front, and its length. Bytes may follow it. Short where the bytes end before the entry that they
/// begin, Form where no entry begins so, also where the bytes are few.
pub fn decode(bytes: &[u8], image: &mut Record) -> Result<(EntryHead, u16), EntryErr>
    ensures found { IfOk result (λ r. IsEntry (entry_of r.0 image.new) × (r.1 ≡ length (spelling (entry_of r.0 image.new))) × (take r.1 bytes.now ≡ spelling (entry_of r.0 image.new))) }
    ensures plain { IfOk result (λ r. IsPlain r.0 image.new) }
    ensures only { (e : Entry) (rest : List ℕ) → IsEntry e → bytes.now ≡ spelling e ++ rest → Reads result image.new e }
    ensures err { IfErr result (λ e. Fails e bytes.now) }
{
    match check_front(bytes) {
        Err(e) => return Err(e),
        Ok(()) => {}
    }
    let key_len = bytes[3] as usize;
    let image_len = size_at(bytes, 4) as usize;
    let size = HEAD + key_len + image_len;
    if bytes.len() < size {
        return Err(EntryErr::Short);
    }
    image.set(&bytes[HEAD + key_len..size]);
    Ok((head_of(bytes), size as u16))
}
