// The records of a file in the order of their keys.
ghost use Rattle.std.specs.Prelude.{◌≡◌, ◌++◌, List, [], ◌∷◌, map, IfOk, None};
ghost use Rattle.std.specs.FinMap.{empty, entries};
ghost use Rattle.std.specs.FinMap.Entries.{put, find, where_key};
ghost use Rattle.reference_index.specs.records_model.Records.{Records, key_cmp, set_key, applied};
ghost use Rattle.reference_index.specs.records_model.History.{left_by, on_top, current, records};
ghost use Rattle.reference_index.specs.transcript_model.Lines as model;
ghost use Rattle.reference_index.specs.run_model.Answers.{shown_record};
ghost use Rattle.reference_index.specs.run_model.Steps.{lines_of_rows};
ghost use Rattle.reference_index.specs.Standing.{lent_key, lent_value, changes_of};
ghost use Rattle.reference_world.specs.Standing.{done_of, live_of, history_of, kept_of, rows_of, entry_of, line_of};
ghost use Rattle.reference_world.specs.Rows.{is_other};

use crate::line::{Line, one};
use crate::world::{File, KeptRow, LiveChanges, Row, SettledChanges};
use reference_index::{Change, KeyRef, lend_value, push_front};
use std::alloc::{AllocError, Global};
use std::cmp::Ordering;
use vms_base::Outcome;

/// The rows with one more at its place, in the stead of another of its key.
pub fn with_row<'a>(
    alloc: Global,
    rows: &[Row<'a>],
    row: Row<'a>,
) -> Result<Vec<Row<'a>>, AllocError>
    ensures { IfOk result (λ v. map entry_of v.items ≡ put key_cmp (lent_key row.entry.key) row.entry.bytes.now (map entry_of rows.now)) }
{
    match rows {
        [] => {
            let mut all = Vec::new(alloc);
            push_front(&mut all, row)?;
            Ok(all)
        }
        [r, rest @ ..] => match row.key.compare(r.key) {
            Ordering::Less => {
                let mut all = rows.to_vec(alloc)?;
                push_front(&mut all, row)?;
                Ok(all)
            }
            Ordering::Equal => {
                let mut all = rest.to_vec(alloc)?;
                let bytes = row.bytes;
                push_front(&mut all, Row { key: r.key, bytes })?;
                Ok(all)
            }
            Ordering::Greater => {
                let mut all = with_row(alloc, rest, row)?;
                push_front(&mut all, *r)?;
                Ok(all)
            }
        },
    }
}

// The rows but for those of this key.
fn without_row<'a>(
    alloc: Global,
    rows: &[Row<'a>],
    key: KeyRef<'_>,
) -> Result<Vec<Row<'a>>, AllocError>
    ensures { IfOk result (λ v. map entry_of v.items ≡ where_key key_cmp (is_other (lent_key key.entry)) (map entry_of rows.now)) }
{
    match rows {
        [] => Ok(Vec::new(alloc)),
        [r, rest @ ..] => {
            let mut all = without_row(alloc, rest, key)?;
            if !key.is(r.key) {
                push_front(&mut all, *r)?;
            }
            Ok(all)
        }
    }
}

/// The rows with this at a key: a record, or none.
pub fn set_row<'a>(
    alloc: Global,
    rows: &[Row<'a>],
    key: KeyRef<'a>,
    value: Option<&'a [u8]>,
) -> Result<Vec<Row<'a>>, AllocError>
    ensures { (m : Records) → map entry_of rows.now ≡ entries m → IfOk result (λ v. map entry_of v.items ≡ entries (set_key m (lent_key key.entry) (lent_value value.entry))) }
{
    match value {
        Some(bytes) => with_row(alloc, rows, Row { key, bytes }),
        None => without_row(alloc, rows, key),
    }
}

/// The record of this key.
pub fn find_row<'a>(rows: &[Row<'a>], key: KeyRef<'_>) -> Option<&'a [u8]>
    ensures { lent_value result ≡ find key_cmp (lent_key key.entry) (map entry_of rows.now) }
{
    match rows {
        [] => None,
        [r, rest @ ..] => {
            if key.is(r.key) {
                Some(r.bytes)
            } else {
                find_row(rest, key)
            }
        }
    }
}

// The rows after changes, the newest first.
fn with_changes<'a>(
    alloc: Global,
    rows: &[Row<'a>],
    changes: &'a [Change],
) -> Result<Vec<Row<'a>>, AllocError>
    ensures { (m : Records) → map entry_of rows.now ≡ entries m → IfOk result (λ v. map entry_of v.items ≡ entries (applied (changes_of changes.now) m)) }
{
    match changes {
        [] => rows.to_vec(alloc),
        [c, rest @ ..] => {
            let before = with_changes(alloc, rows, rest)?;
            set_row(alloc, before.as_slice(), c.key.lend(), lend_value(&c.after))
        }
    }
}

// The rows with what committed branches left.
fn with_settled<'a>(
    alloc: Global,
    rows: &[Row<'a>],
    settled: &'a [SettledChanges],
) -> Result<Vec<Row<'a>>, AllocError>
    ensures { (m : Records) → map entry_of rows.now ≡ entries m → IfOk result (λ v. map entry_of v.items ≡ entries (left_by None (map done_of settled.now) m)) }
{
    match settled {
        [] => rows.to_vec(alloc),
        [s, rest @ ..] => {
            let before = with_settled(alloc, rows, rest)?;
            match s.outcome {
                Outcome::Commit => with_changes(alloc, before.as_slice(), s.changes.as_slice()),
                Outcome::Abort => Ok(before),
            }
        }
    }
}

// The rows with what unsettled branches put.
fn with_live<'a>(
    alloc: Global,
    rows: &[Row<'a>],
    live: &'a [LiveChanges],
) -> Result<Vec<Row<'a>>, AllocError>
    ensures { (m : Records) → map entry_of rows.now ≡ entries m → IfOk result (λ v. map entry_of v.items ≡ entries (on_top (map live_of live.now) m)) }
{
    match live {
        [] => rows.to_vec(alloc),
        [l, rest @ ..] => {
            let before = with_live(alloc, rows, rest)?;
            with_changes(alloc, before.as_slice(), l.changes.as_slice())
        }
    }
}

/// Kept records, lent, in the order of their keys.
pub fn lend_rows(alloc: Global, kept: &[KeptRow]) -> Result<Vec<Row<'_>>, AllocError>
    ensures { IfOk result (λ v. map entry_of v.items ≡ entries (rows_of kept.now)) }
{
    match kept {
        [] => Ok(Vec::new(alloc)),
        [r, rest @ ..] => {
            let behind = lend_rows(alloc, rest)?;
            let row = Row {
                key: r.key.lend(),
                bytes: r.bytes.as_slice(),
            };
            with_row(alloc, behind.as_slice(), row)
        }
    }
}

/// The rows with bytes of their own.
pub fn keep_rows(alloc: Global, rows: &[Row<'_>]) -> Result<Vec<KeptRow>, AllocError>
    ensures { IfOk result (λ v. map kept_of v.items ≡ map entry_of rows.now) }
{
    match rows {
        [] => Ok(Vec::new(alloc)),
        [r, rest @ ..] => {
            let mut all = keep_rows(alloc, rest)?;
            push_front(
                &mut all,
                KeptRow {
                    key: r.key.own(alloc)?,
                    bytes: r.bytes.to_vec(alloc)?,
                },
            )?;
            Ok(all)
        }
    }
}

/// The records of a file without those of unsettled branches.
pub fn committed_of(alloc: Global, file: &File) -> Result<Vec<Row<'_>>, AllocError>
    ensures { IfOk result (λ v. map entry_of v.items ≡ entries (records (history_of file.now))) }
{
    let base = lend_rows(alloc, file.base.as_slice())?;
    let rows = base.as_slice();
    with_settled(alloc, rows, file.settled.as_slice())
}

/// The records of a file as they stand.
pub fn records_of(alloc: Global, file: &File) -> Result<Vec<Row<'_>>, AllocError>
    ensures { IfOk result (λ v. map entry_of v.items ≡ entries (current (history_of file.now))) }
{
    let live = file.live.as_slice();
    let left = committed_of(alloc, file)?;
    let left_rows = left.as_slice();
    with_live(alloc, left_rows, live)
}

/// A line for each row, and then their count.
pub fn rows_shown(alloc: Global, rows: &[Row<'_>], count: u64) -> Result<Vec<Line>, AllocError>
    ensures { IfOk result (λ v. map line_of v.items ≡ lines_of_rows (map shown_record (map entry_of rows.now)) ++ model.NormalCount count ∷ []) }
{
    match rows {
        [] => one(alloc, Line::NormalCount(count)),
        [r, rest @ ..] => {
            let mut lines = rows_shown(alloc, rest, count)?;
            push_front(
                &mut lines,
                Line::Record(r.key.own(alloc)?, r.bytes.to_vec(alloc)?),
            )?;
            Ok(lines)
        }
    }
}
