//! Records as slots of a bucket.
ghost use Rattle.std.specs.Prelude.{◌↔◌, ◌≡◌, ◌≤◌, ◌<◌, ◌+◌, ◌-◌, ◌*◌, ◌++◌, ◌∷◌, [], ℕ, List, true, false, length, take, drop, map};
ghost use Rattle.byteorder.specs.Endian.{little_bytes};
ghost use Rattle.vms_model.specs.Limits.{record_limit};
ghost use Rattle.bucket_page.specs.Pages.{slots_of, next_of, no_next, joined, suits, u16_bytes, IsPacked, Packs};
ghost use Rattle.load_laws.specs.Chains.{raw_for, packed, parts_of};
ghost use Rattle.load_pages.specs.Given.{raw_of, AllRaw};

use crate::records::KeyedRecord;
use bucket_page::{PageKind, clear_front, insert_front};
use byteorder::{ByteOrder, LittleEndian};
use file_base::splice;

// The greatest length of a slot.
const SLOT: usize = 8164;

// A number in two bytes.
fn number_bytes(number: u16) -> [u8; 2]
    ensures { result ≡ u16_bytes number }
{
    let mut bytes = [0; 2];
    LittleEndian::write_u16(&mut bytes, number);
    bytes
}

// Writes a record behind its length, which stands there once more where the kind has rooms. Answers how long the slot is.
fn write_slot(kind: PageKind, value: &[u8], out: &mut [u8]) -> usize
    requires short { length value.now ≤ record_limit }
    requires within { 8164 ≤ length out.old }
    ensures slot { take result out.new ≡ raw_for kind value.now }
    ensures size { result ≤ 8164 }
{
    let size = number_bytes(value.len() as u16);
    match kind {
        PageKind::Seq => {
            splice(out, 0, &size);
            splice(out, 2, value);
            value.len() + 2
        }
        PageKind::Data {
            key_pos: _,
            key_size: _,
        } => {
            splice(out, 0, &size);
            splice(out, 2, &size);
            splice(out, 4, value);
            value.len() + 4
        }
        PageKind::Rel { mrs: _ } => 0,
        PageKind::Index { key_size: _ } => 0,
    }
}

// Puts a record behind the `count` slots of a bucket. False exactly where it does not fit; then nothing changes.
fn push_record(kind: PageKind, size: usize, bytes: &mut [u8], count: usize, value: &[u8]) -> bool
    requires within { size ≤ length bytes.old }
    requires small { size ≤ 8192 }
    requires short { length value.now ≤ record_limit }
    requires packed { IsPacked kind size (take size bytes.old) }
    requires counted { count ≡ length (slots_of kind (take size bytes.old)) }
    requires suits { suits kind (raw_for kind value.now) ≡ true }
    ensures yes { result ≡ true → Packs kind size (slots_of kind (take size bytes.old) ++ raw_for kind value.now ∷ []) (next_of (take size bytes.old)) (take size bytes.new) }
    ensures no { result ≡ false → bytes.new ≡ bytes.old }
    ensures full { (result ≡ false) ↔ (size < 16 + length (joined (slots_of kind (take size bytes.old))) + length (raw_for kind value.now)) }
{
    let mut slot = [0; SLOT];
    let long = write_slot(kind, value, &mut slot);
    insert_front(bytes, size, kind, count, &slot[..long])
}

/// Writes a bucket of the records from one on, as many as fit, and answers the number of the first that does not, or how many there are. It has no next bucket.
pub fn fill_bucket(
    kind: PageKind,
    size: usize,
    bytes: &mut [u8],
    records: &[KeyedRecord],
    from: usize,
) -> usize
    requires least { 16 ≤ size }
    requires small { size ≤ 8192 }
    requires within { size ≤ length bytes.old }
    requires there { from ≤ length records.now }
    requires short { AllRaw kind size records.now }
    ensures packs { Packs kind size (take (result - from) (drop from (map (raw_of kind) records.now))) no_next (take size bytes.new) }
    ensures to { result ≤ length records.now }
    ensures not_before { from ≤ result }
    ensures more { from < length records.now → from < result }
    ensures filled { packed (size - 16) [] (drop from (map (raw_of kind) records.now)) ≡ take (result - from) (drop from (map (raw_of kind) records.now)) ∷ parts_of (size - 16) (drop result (map (raw_of kind) records.now)) }
{
    clear_front(bytes, size, kind, u32::MAX);
    for at in from..records.len() {
        if !push_record(kind, size, bytes, at - from, &records[at].bytes) {
            return at;
        }
    }
    records.len()
}
