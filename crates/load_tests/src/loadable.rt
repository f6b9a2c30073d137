//! Whether records may be loaded into a file.
ghost use Rattle.std.specs.Prelude.{◌≡◌, ◌≤◌, ◌+◌, ◌*◌, ◌∷◌, [], true, length, map, Some};
ghost use Rattle.std.specs.Ordering.{nat_cmp, is_lt};
ghost use Rattle.std.specs.Cmp.Lexicographic.{slice_cmp};
ghost use Rattle.std.specs.FinMap.Entries.{is_sorted, below_all};
ghost use Rattle.vms_model.specs.Keys.{Number};
ghost use Rattle.vms_base.specs.Keys.{key_of};
ghost use Rattle.records_model.specs.Records.{key_cmp};
ghost use Rattle.load_pages.specs.load_laws.Loads.{AreLoadable, AllSuitBy, AreNumbered, NumberedBy, HeadBy};
ghost use Rattle.load_pages.specs.Counts.{AllTell};
ghost use Rattle.load_pages.specs.Given.{keyed};

use file_base::{FileHead, Organization};
use load_pages::{KeyedRecord, buckets, cells_of};
use record_files::AnyFile;
use std::cmp::Ordering;
use vms_base::{Key, Record};

// Whether bytes come before others, as in a dictionary.
fn comes_before(a: &[u8], b: &[u8]) -> bool
    ensures { result ≡ is_lt (slice_cmp nat_cmp a.now b.now) }
{
    a.cmp(b) == Ordering::Less
}

// Whether a key comes before another of its kind.
fn is_before(a: &Key, b: &Key) -> bool
    ensures { result ≡ true → is_lt (key_cmp (key_of a.now) (key_of b.now)) ≡ true }
{
    match a {
        Key::Number(m) => match b {
            Key::Number(n) => *m < *n,
            _ => false,
        },
        Key::Text(s) => match b {
            Key::Text(t) => comes_before(s.bytes(), t.bytes()),
            _ => false,
        },
        Key::End => false,
    }
}

// Whether it comes before those of all records.
fn is_before_all(key: &Key, records: &[KeyedRecord]) -> bool
    ensures { result ≡ true → below_all key_cmp (key_of key.now) (map keyed records.now) ≡ true }
{
    for i in 0..records.len() {
        if !is_before(key, &records[i].key) {
            return false;
        }
    }
    true
}

// Whether the records stand in the order of their keys.
fn ascends(records: &[KeyedRecord]) -> bool
    ensures { result ≡ true → is_sorted key_cmp (map keyed records.now) ≡ true }
{
    for i in 0..records.len() {
        if !is_before_all(&records[i].key, &records[i + 1..]) {
            return false;
        }
    }
    true
}

// Whether the file may have a record.
fn suits(head: &FileHead, one: &KeyedRecord, out: &mut Record) -> bool
    ensures { result ≡ true → AllSuitBy head.now.organization head.now (keyed one.now ∷ []) }
{
    if one.bytes.len() > 8160 {
        return false;
    }
    out.set(&one.bytes);
    AnyFile::is_suited(head, &one.key, Some(&*out))
}

// Whether the file may have each of the records.
fn all_suit(head: &FileHead, records: &[KeyedRecord], out: &mut Record) -> bool
    ensures { result ≡ true → AllSuitBy head.now.organization head.now (map keyed records.now) }
{
    for i in 0..records.len() {
        if !suits(head, &records[i], out) {
            return false;
        }
    }
    true
}

// Whether a key is this number.
fn is_number(key: &Key, n: usize) -> bool
    ensures { result ≡ true → key_of key.now ≡ Number n }
{
    match key {
        Key::Number(m) => *m as usize == n,
        _ => false,
    }
}

// Whether the keys are the numbers from 1 on.
fn counts_on(records: &[KeyedRecord]) -> bool
    ensures { result ≡ true → AreNumbered 1 (map keyed records.now) }
{
    for i in 0..records.len() {
        if !is_number(&records[i].key, i + 1) {
            return false;
        }
    }
    true
}

// Whether the keys are numbered as those of such a file are.
fn are_numbered(organization: Organization, records: &[KeyedRecord]) -> bool
    ensures { result ≡ true → NumberedBy organization (map keyed records.now) }
{
    match organization {
        Organization::Sequential => counts_on(records),
        Organization::Relative => true,
        Organization::Indexed => true,
    }
}

// Whether a relative file has a cell for each number, and the keys of an indexed one lie in its records.
fn has_place(head: &FileHead) -> bool
    requires { head.now.mrs + 32 ≤ 512 * head.now.bucket }
    ensures { result ≡ true → HeadBy head.now.organization head.now }
{
    match head.organization {
        Organization::Sequential => true,
        Organization::Relative => head.mrn as u64 <= head.alloc as u64 * cells_of(head) as u64,
        Organization::Indexed => {
            head.key_size >= 1
                && head.key_size <= 64
                && head.key_pos as u32 + head.key_size as u32 <= head.mrs as u32
        }
    }
}

/// Whether the records may be loaded: they ascend by key, the file may have each, and their buckets are there.
pub(crate) fn are_loadable(head: &FileHead, records: &[KeyedRecord], out: &mut Record) -> bool
    requires one { 1 ≤ head.now.bucket }
    requires blocks { head.now.bucket ≤ 16 }
    requires records { head.now.mrs + 32 ≤ 512 * head.now.bucket }
    requires most { head.now.mrs ≤ 8160 }
    ensures loadable { result ≡ true → AreLoadable head.now (map keyed records.now) }
    ensures key { result ≡ true → head.now.key_size ≤ 64 }
    ensures short { result ≡ true → AllTell records.now }
{
    if !ascends(records) || !all_suit(head, records, out) {
        return false;
    }
    if !are_numbered(head.organization, records) || !has_place(head) || head.key_size > 64 {
        return false;
    }
    buckets(head, records) <= head.alloc as u64
}
