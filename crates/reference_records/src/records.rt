// What an operation finds in the records that stand, what it changes, and what it is answered.
ghost use Rattle.std.specs.Prelude.{◌≡◌, ◌+◌, ◌-◌, ◌<◌, ◌≤◌, ◌^◌, ℕ, List, [], ◌∷◌, map, option_map, nat_le, take, drop, length, IfOk};
ghost use Rattle.reference_index.specs.records_model.Placing as placing;
ghost use Rattle.reference_index.specs.tree_model.Layouts as layouts;
ghost use Rattle.reference_index.specs.tree_model.Layouts.{index_size};
ghost use Rattle.reference_index.specs.run_model.Operations as operations;
ghost use Rattle.reference_index.specs.run_model.World.{capacity as capacity_of};
ghost use Rattle.reference_index.specs.Standing.{lent_key, lent_value, change_of, changes_of, index_of, layout_of};
ghost use Rattle.reference_world.specs.Standing.{organization_of, file_of, entry_of, line_of};
ghost use Rattle.reference_records.specs.Operations.{asked_of, filled_of, AreRowsOf};

use crate::asked::Asked;
use crate::forms::refused_if;
use reference_index::{Change, Key, KeyRef, Level, own_value, push_front};
use reference_world::{File, Line, Organization, Row, capacity, find_row};
use std::alloc::{AllocError, Global};

/// The elements behind the first so many.
pub fn behind<T>(all: &[T], n: usize) -> &[T]
    ensures { result.now ≡ drop n all.now }
{
    if n <= all.len() { &all[n..] } else { &[] }
}

// The first so many bytes.
fn front(all: &[u8], n: usize) -> &[u8]
    ensures { result.now ≡ take n all.now }
{
    if n <= all.len() { &all[..n] } else { all }
}

// The key of a record.
fn key_within(position: u32, size: u32, bytes: &[u8]) -> &[u8]
    ensures { result.now ≡ operations.key_within position size bytes.now }
{
    front(behind(bytes, position as usize), size as usize)
}

// What stands at a key.
fn record_in<'a>(f: &File, rows: &[Row<'a>], key: KeyRef<'_>) -> Option<&'a [u8]>
    requires { AreRowsOf f.now rows.now }
    ensures { lent_value result ≡ operations.record_in (file_of f.now) (lent_key key.entry) }
{
    find_row(rows, key)
}

/// The first row whose key comes behind another.
pub fn first_behind<'a>(rows: &[Row<'a>], after: Option<KeyRef<'_>>) -> Option<Row<'a>>
    ensures { option_map entry_of result ≡ operations.first_behind (option_map lent_key after.entry) (map entry_of rows.now) }
{
    match rows {
        [] => None,
        [r, rest @ ..] => {
            if is_behind(after, r.key) {
                Some(*r)
            } else {
                first_behind(rest, after)
            }
        }
    }
}

// Whether a key comes behind another; every key comes behind none.
fn is_behind(after: Option<KeyRef<'_>>, key: KeyRef<'_>) -> bool
    ensures { result ≡ operations.is_behind (option_map lent_key after.entry) (lent_key key.entry) }
{
    match after {
        None => true,
        Some(other) => other.is_before(key),
    }
}

// A record that is to be new is there.
fn put_refused(f: &File, rows: &[Row<'_>], number: Option<u32>, bytes: &[u8]) -> Option<Line>
    requires { AreRowsOf f.now rows.now }
    ensures { option_map line_of result ≡ operations.put_refused (organization_of f.now.organization) (operations.current_records (file_of f.now)) number bytes.now }
{
    if let Some(n) = number {
        let found = record_in(f, rows, KeyRef::Number(u64::from(n)));
        return refused_if(found.is_some(), Line::RecordExists);
    }
    match f.organization {
        Organization::Indexed { position, size } => {
            let found = record_in(f, rows, KeyRef::Text(key_within(position, size, bytes)));
            refused_if(found.is_some(), Line::KeyExists)
        }
        Organization::Sequential => None,
        Organization::Relative { .. } => None,
    }
}

// A record may not take the place of one of another length in a sequential file, nor stand at a key that is not its own.
fn other_refused(
    organization: Organization,
    key: KeyRef<'_>,
    old: &[u8],
    new: &[u8],
) -> Option<Line>
    ensures { option_map line_of result ≡ operations.other_refused (organization_of organization) (lent_key key.entry) old.now new.now }
{
    match organization {
        Organization::Sequential => refused_if(old.len() != new.len(), Line::BadRecordSize),
        Organization::Relative { .. } => None,
        Organization::Indexed { position, size } => {
            let own = KeyRef::Text(key_within(position, size, new));
            refused_if(!key.is(own), Line::KeyChanged)
        }
    }
}

// A record is to take the place of one that is not there, or may not.
fn update_refused(
    organization: Organization,
    key: KeyRef<'_>,
    old: Option<&[u8]>,
    new: &[u8],
) -> Option<Line>
    ensures { option_map line_of result ≡ operations.update_refused (organization_of organization) (lent_key key.entry) (lent_value old.entry) new.now }
{
    match old {
        None => Some(Line::RecordNotFound),
        Some(bytes) => other_refused(organization, key, bytes, new),
    }
}

// A record that is asked for is not there.
fn missing(found: Option<&[u8]>) -> Option<Line>
    ensures { option_map line_of result ≡ operations.missing (lent_value found.entry) }
{
    match found {
        None => Some(Line::RecordNotFound),
        Some(_) => None,
    }
}

// There is no next record.
fn at_end(next: Option<Row<'_>>) -> Option<Line>
    ensures { option_map line_of result ≡ operations.at_end (option_map entry_of next.entry) }
{
    match next {
        None => Some(Line::EndOfFile),
        Some(_) => None,
    }
}

/// What refuses an operation by the records that stand.
pub fn data_refused(f: &File, rows: &[Row<'_>], asked: Asked<'_>) -> Option<Line>
    requires { AreRowsOf f.now rows.now }
    ensures { option_map line_of result ≡ operations.data_refused (file_of f.now) (asked_of asked.entry) }
{
    match asked {
        Asked::Put(number, bytes) => put_refused(f, rows, number, bytes),
        Asked::Update(key, bytes) => {
            update_refused(f.organization, key, record_in(f, rows, key), bytes)
        }
        Asked::Delete(key) => missing(record_in(f, rows, key)),
        Asked::Truncate(number) => refused_if(
            number < 1 || rows.len() < number as usize,
            Line::RecordNotFound,
        ),
        Asked::Get(key) => missing(record_in(f, rows, key)),
        Asked::Next(after) => at_end(first_behind(rows, after)),
    }
}

// A key is set from what stands there.
fn set_in(
    alloc: Global,
    f: &File,
    rows: &[Row<'_>],
    key: KeyRef<'_>,
    after: Option<&[u8]>,
) -> Result<Change, AllocError>
    requires { AreRowsOf f.now rows.now }
    ensures { IfOk result (λ c. change_of c ≡ operations.set_in (file_of f.now) (lent_key key.entry) (lent_value after.entry)) }
{
    Ok(Change {
        key: key.own(alloc)?,
        before: own_value(alloc, record_in(f, rows, key))?,
        after: own_value(alloc, after)?,
    })
}

// Just this change.
fn one_set(
    alloc: Global,
    f: &File,
    rows: &[Row<'_>],
    key: KeyRef<'_>,
    after: Option<&[u8]>,
) -> Result<Vec<Change>, AllocError>
    requires { AreRowsOf f.now rows.now }
    ensures { IfOk result (λ v. changes_of v.items ≡ operations.set_in (file_of f.now) (lent_key key.entry) (lent_value after.entry) ∷ []) }
{
    let mut changes = Vec::new(alloc);
    push_front(&mut changes, set_in(alloc, f, rows, key, after)?)?;
    Ok(changes)
}

// These records are removed.
fn all_removed(alloc: Global, rows: &[Row<'_>]) -> Result<Vec<Change>, AllocError>
    ensures { IfOk result (λ v. changes_of v.items ≡ map operations.removed (map entry_of rows.now)) }
{
    match rows {
        [] => Ok(Vec::new(alloc)),
        [r, rest @ ..] => {
            let mut changes = all_removed(alloc, rest)?;
            let change = Change {
                key: r.key.own(alloc)?,
                before: Some(r.bytes.to_vec(alloc)?),
                after: None,
            };
            push_front(&mut changes, change)?;
            Ok(changes)
        }
    }
}

/// The key that a record gets that is put.
pub fn key_put<'a>(
    organization: Organization,
    count: usize,
    number: Option<u32>,
    bytes: &'a [u8],
) -> KeyRef<'a>
    requires { count < 2 ^ 63 }
    ensures { lent_key result ≡ operations.key_put (organization_of organization) count number bytes.now }
{
    if let Some(n) = number {
        return KeyRef::Number(u64::from(n));
    }
    match organization {
        Organization::Indexed { position, size } => {
            KeyRef::Text(key_within(position, size, bytes))
        }
        Organization::Sequential => KeyRef::Number(count as u64 + 1),
        Organization::Relative { .. } => KeyRef::Number(count as u64 + 1),
    }
}

/// The changes of an operation, the newest first: a file is truncated from its last position down.
pub fn changes_asked(
    alloc: Global,
    f: &File,
    rows: &[Row<'_>],
    asked: Asked<'_>,
) -> Result<Vec<Change>, AllocError>
    requires { AreRowsOf f.now rows.now }
    ensures { IfOk result (λ v. changes_of v.items ≡ operations.changes_of (file_of f.now) (asked_of asked.entry)) }
{
    match asked {
        Asked::Put(number, bytes) => {
            let key = key_put(f.organization, rows.len(), number, bytes);
            one_set(alloc, f, rows, key, Some(bytes))
        }
        Asked::Update(key, bytes) => one_set(alloc, f, rows, key, Some(bytes)),
        Asked::Delete(key) => one_set(alloc, f, rows, key, None),
        Asked::Truncate(number) => {
            all_removed(alloc, behind(rows, (number as usize).saturating_sub(1)))
        }
        Asked::Get(_) => Ok(Vec::new(alloc)),
        Asked::Next(_) => Ok(Vec::new(alloc)),
    }
}

/// How many buckets are used, and how many bytes of the last of them.
#[derive(Clone, Copy, Drop)]
pub struct Filled {
    pub buckets: u64,
    pub bytes: u64,
}

// Whether a slot of this size fits into the last used bucket, of which these bytes are used.
fn has_room(cap: u64, bytes: u64, size: u64) -> bool
    ensures { result ≡ nat_le (bytes + size) cap }
{
    bytes <= cap && size <= cap - bytes
}

// A slot more of this size: in the last used bucket where it fits, else in the next.
fn filled_more(cap: u64, filled: Filled, size: u64) -> Filled
    requires { filled.buckets < 2 ^ 63 }
    ensures more { filled_of result ≡ placing.filled_more cap (filled_of filled) size }
    ensures few { result.buckets ≤ filled.buckets + 1 }
{
    if has_room(cap, filled.bytes, size) {
        Filled {
            buckets: filled.buckets,
            bytes: filled.bytes + size,
        }
    } else {
        Filled {
            buckets: filled.buckets + 1,
            bytes: size,
        }
    }
}

/// Slots more for these records, one after the other, in buckets of so many bytes.
pub fn filled_by(cap: u64, filled: Filled, rows: &[Row<'_>]) -> Filled
    requires { filled.buckets + length rows.now ≤ 2 ^ 63 }
    ensures { filled_of result ≡ placing.filled_by cap (filled_of filled) (map (λ e. length e.1 + 2) (map entry_of rows.now)) }
{
    match rows {
        [] => filled,
        [r, rest @ ..] => {
            let more = filled_more(cap, filled, r.bytes.len() as u64 + 2);
            filled_by(cap, more, rest)
        }
    }
}

// How the records of a sequential file lie in its buckets.
fn placed(f: &File, rows: &[Row<'_>]) -> Filled
    requires { AreRowsOf f.now rows.now }
    ensures { filled_of result ≡ operations.placed (file_of f.now) }
{
    let first = Filled {
        buckets: 1,
        bytes: 0,
    };
    filled_by(capacity(f.bucket), first, rows)
}

// How many of some buckets are left where each bucket of an index takes one.
fn left_by(free: u64, index: &[Level]) -> u64
    ensures { result ≡ free - index_size (index_of index.now) }
{
    match index {
        [] => free,
        [level, rest @ ..] => left_by(free.saturating_sub(level.children.len() as u64), rest),
    }
}

// How many buckets of a file are free.
fn free_buckets(f: &File, rows: &[Row<'_>]) -> u64
    requires { AreRowsOf f.now rows.now }
    ensures { result ≡ operations.free_buckets (file_of f.now) }
{
    match f.organization {
        Organization::Sequential => f.buckets.saturating_sub(placed(f, rows).buckets),
        Organization::Relative { .. } => 0,
        Organization::Indexed { .. } => {
            let behind_leaves = f.buckets.saturating_sub(f.layout.leaves.len() as u64);
            left_by(behind_leaves, f.layout.index.as_slice())
        }
    }
}

// How many free buckets a record wants of an indexed file.
fn layout_need(f: &File) -> u64
    ensures { result ≡ layouts.need_of (layout_of f.now.layout) }
{
    let levels = f.layout.index.len() as u64 + 1;
    if levels == 12 { 65537 } else { levels + 2 }
}

// How many free buckets one more record of a sequential file takes.
fn one_more(f: &File, rows: &[Row<'_>], bytes: &[u8]) -> u64
    requires { AreRowsOf f.now rows.now }
    ensures { result ≡ operations.one_more (file_of f.now) bytes.now }
{
    let last = placed(f, rows);
    if has_room(capacity(f.bucket), last.bytes, bytes.len() as u64 + 2) {
        0
    } else {
        1
    }
}

// How many free buckets a record that is put wants.
fn put_need(f: &File, rows: &[Row<'_>], bytes: &[u8]) -> u64
    requires { AreRowsOf f.now rows.now }
    ensures { result ≡ operations.put_need (organization_of f.now.organization) (file_of f.now) bytes.now }
{
    match f.organization {
        Organization::Sequential => one_more(f, rows, bytes),
        Organization::Relative { .. } => 0,
        Organization::Indexed { .. } => layout_need(f),
    }
}

// And one that takes the place of another.
fn update_need(f: &File) -> u64
    ensures { result ≡ operations.update_need (organization_of f.now.organization) (file_of f.now) }
{
    match f.organization {
        Organization::Sequential => 0,
        Organization::Relative { .. } => 0,
        Organization::Indexed { .. } => layout_need(f),
    }
}

// How many free buckets an operation wants.
fn need_of(f: &File, rows: &[Row<'_>], asked: Asked<'_>) -> u64
    requires { AreRowsOf f.now rows.now }
    ensures { result ≡ operations.need_of (file_of f.now) (asked_of asked.entry) }
{
    match asked {
        Asked::Put(_, bytes) => put_need(f, rows, bytes),
        Asked::Update(_, _) => update_need(f),
        Asked::Delete(_) => 0,
        Asked::Truncate(_) => 0,
        Asked::Get(_) => 0,
        Asked::Next(_) => 0,
    }
}

/// Fewer buckets are free than an operation wants.
pub fn file_full(f: &File, rows: &[Row<'_>], asked: Asked<'_>) -> Option<Line>
    requires { AreRowsOf f.now rows.now }
    ensures { option_map line_of result ≡ operations.file_full (file_of f.now) (asked_of asked.entry) }
{
    let free = free_buckets(f, rows);
    let need = need_of(f, rows, asked);
    refused_if(free < need, Line::FileFull(free, need))
}

// What a record that was put is answered.
fn put_answer(organization: Organization, count: usize) -> Line
    requires { count < 2 ^ 63 }
    ensures { line_of result ≡ operations.put_answer (organization_of organization) count }
{
    match organization {
        Organization::Sequential => Line::RecordPosition(count as u64 + 1),
        Organization::Relative { .. } => Line::RecordNormal,
        Organization::Indexed { .. } => Line::RecordNormal,
    }
}

// A record that was asked for.
fn found_answer(alloc: Global, found: Option<&[u8]>) -> Result<Line, AllocError>
    ensures { IfOk result (λ line. line_of line ≡ operations.found_answer (lent_value found.entry)) }
{
    match found {
        Some(bytes) => Ok(Line::RecordFound(bytes.to_vec(alloc)?)),
        None => Ok(Line::RecordNormal),
    }
}

// The next record with its key.
fn next_answer(alloc: Global, next: Option<Row<'_>>) -> Result<Line, AllocError>
    ensures { IfOk result (λ line. line_of line ≡ operations.next_answer (option_map entry_of next.entry)) }
{
    match next {
        Some(r) => Ok(Line::NextFound(r.key.own(alloc)?, r.bytes.to_vec(alloc)?)),
        None => Ok(Line::RecordNormal),
    }
}

/// What a success is answered.
pub fn operation_answer(
    alloc: Global,
    f: &File,
    rows: &[Row<'_>],
    asked: Asked<'_>,
) -> Result<Line, AllocError>
    requires { AreRowsOf f.now rows.now }
    ensures { IfOk result (λ line. line_of line ≡ operations.operation_answer (file_of f.now) (asked_of asked.entry)) }
{
    match asked {
        Asked::Put(_, _) => Ok(put_answer(f.organization, rows.len())),
        Asked::Update(_, _) => Ok(Line::RecordNormal),
        Asked::Delete(_) => Ok(Line::RecordNormal),
        Asked::Truncate(_) => Ok(Line::RecordNormal),
        Asked::Get(key) => found_answer(alloc, record_in(f, rows, key)),
        Asked::Next(after) => next_answer(alloc, first_behind(rows, after)),
    }
}

/// Whether an operation is to change something.
pub fn is_change(asked: Asked<'_>) -> bool
    ensures { result ≡ operations.is_change (asked_of asked.entry) }
{
    match asked {
        Asked::Put(_, _) => true,
        Asked::Update(_, _) => true,
        Asked::Delete(_) => true,
        Asked::Truncate(_) => true,
        Asked::Get(_) => false,
        Asked::Next(_) => false,
    }
}
