// What a recovery gives a file.
ghost use Rattle.std.specs.Prelude.{◌≡◌, ◌*◌, ◌+◌, ℕ, map, max as most_of, IfOk, IfSome};
ghost use Rattle.std.specs.FinMap.{entries};
ghost use Rattle.records_model.specs.Records.{Records};
ghost use Rattle.vms_model.specs.Keys.{Number as NumberKey};
ghost use Rattle.reference_index.specs.run_model.Answers as answers;
ghost use Rattle.reference_index.specs.run_model.World as world;
ghost use Rattle.script_lang.specs.Statements.{recovery_of};
ghost use Rattle.reference_index.specs.tree_model.Layouts.{index_size, used_of};
ghost use Rattle.reference_index.specs.Standing.{index_of, layout_of, lent_key};
ghost use Rattle.reference_world.specs.Standing.{entry_of, file_of, kept_of, organization_of, rows_of};

use crate::rolling::rolled;
use reference_index::{KeyRef, Layout, Level};
use reference_records::{Filled, filled_by};
use reference_world::{
    File, KeptRow, Organization, Row, capacity, keep_rows, layout_of_records, with_row,
};
use script_lang::Recovery;
use std::alloc::{AllocError, Global};
use std::cmp::max;

/// What a recovery loads into a file: its records in the order of their keys, and how many buckets it has then, which take so many blocks.
#[derive(Drop)]
pub struct Load {
    pub rows: Vec<KeptRow>,
    pub buckets: u64,
    pub blocks: u64,
}

// The position behind this one, where it is one of 64 bits.
fn next_position(position: u64) -> Result<u64, AllocError>
    ensures { IfOk result (λ next. next ≡ position + 1) }
{
    match position.checked_add(1) {
        Some(next) => Ok(next),
        None => Err(AllocError),
    }
}

// A record at a position.
fn at_position<'a>(r: &Row<'a>, position: u64) -> Row<'a>
    ensures key { lent_key result.key ≡ NumberKey position }
    ensures bytes { result.bytes.now ≡ r.now.bytes.now }
{
    Row {
        key: KeyRef::Number(position),
        bytes: r.bytes,
    }
}

// Records at positions from this one on, in order. An error also where a position is none of 64 bits.
fn numbered<'a>(alloc: Global, rows: &[Row<'a>], first: u64) -> Result<Vec<Row<'a>>, AllocError>
    ensures { IfOk result (λ v. map entry_of v.items ≡ entries (world.records_from first (map entry_of rows.now))) }
{
    match rows {
        [] => Ok(Vec::new(alloc)),
        [r, rest @ ..] => {
            let next = next_position(first)?;
            let behind = numbered(alloc, rest, next)?;
            with_row(alloc, behind.as_slice(), at_position(r, first))
        }
    }
}

// Records as a file has them that is loaded with these in order: those of a sequential file stand at the positions from 1 on.
fn loaded_rows<'a>(
    alloc: Global,
    organization: Organization,
    rows: &[Row<'a>],
) -> Result<Vec<Row<'a>>, AllocError>
    ensures { (m : Records) → map entry_of rows.now ≡ entries m → IfOk result (λ v. map entry_of v.items ≡ entries (world.loaded_map (organization_of organization) m)) }
{
    match organization {
        Organization::Sequential => numbered(alloc, rows, 1),
        _ => rows.to_vec(alloc),
    }
}

// How many buckets the levels of an index have.
fn buckets_of_index(index: &[Level]) -> Option<u64>
    ensures { IfSome result (λ n. n ≡ index_size (index_of index.now)) }
{
    match index {
        [] => Some(0),
        [level, rest @ ..] => {
            let behind = buckets_of_index(rest)?;
            behind.checked_add(level.children.len() as u64)
        }
    }
}

// How many buckets a layout takes, where that is a number of 64 bits.
fn used(layout: &Layout) -> Option<u64>
    ensures { IfSome result (λ n. n ≡ used_of (layout_of layout.now)) }
{
    let above = buckets_of_index(layout.index.as_slice())?;
    above.checked_add(layout.leaves.len() as u64)
}

// How many buckets a load with these records takes.
fn buckets_taken(
    alloc: Global,
    file: &File,
    rows: &[Row<'_>],
    kept: &[KeptRow],
) -> Result<u64, AllocError>
    requires rows { map entry_of rows.now ≡ entries (rows_of kept.now) }
    requires kept { map kept_of kept.now ≡ entries (rows_of kept.now) }
    ensures { IfOk result (λ n. n ≡ world.buckets_taken (file_of file.now).organization (file_of file.now) (rows_of kept.now)) }
{
    match file.organization {
        Organization::Sequential => {
            let first = Filled {
                buckets: 1,
                bytes: 0,
            };
            let filled = filled_by(capacity(file.bucket), first, rows);
            Ok(filled.buckets)
        }
        Organization::Relative { .. } => Ok(file.buckets),
        Organization::Indexed { .. } => {
            let layout = layout_of_records(alloc, file.bucket, file.organization, kept)?;
            match used(&layout) {
                Some(n) => Ok(n),
                None => Err(AllocError),
            }
        }
    }
}

// How many buckets a file has that is loaded into so many: no fewer than it had.
fn buckets_kept(file: &File, taken: u64) -> u64
    ensures { result ≡ most_of file.now.buckets taken }
{
    max(file.buckets, taken)
}

// So many buckets of a file, and their blocks, where that is a number of 64 bits.
fn blocks_of(buckets: u64, bucket: u32) -> Result<u64, AllocError>
    ensures { IfOk result (λ n. n ≡ buckets * bucket) }
{
    match buckets.checked_mul(u64::from(bucket)) {
        Some(blocks) => Ok(blocks),
        None => Err(AllocError),
    }
}

/// What a recovery gives a file that nothing refuses. Errors are want of memory, and numbers that are none of 64 bits.
pub fn recovered(alloc: Global, file: &File, way: &Recovery) -> Result<Load, AllocError>
    ensures rows { IfOk result (λ r. map kept_of r.rows.items ≡ entries (answers.records_recovered (recovery_of way.now) (file_of file.now))) }
    ensures records { IfOk result (λ r. rows_of r.rows.items ≡ answers.records_recovered (recovery_of way.now) (file_of file.now)) }
    ensures buckets { IfOk result (λ r. r.buckets ≡ world.buckets_loaded (file_of file.now) (answers.records_recovered (recovery_of way.now) (file_of file.now))) }
    ensures blocks { IfOk result (λ r. r.blocks ≡ answers.blocks_recovered (recovery_of way.now) (file_of file.now)) }
{
    let made = rolled(alloc, file, way)?;
    let loaded = loaded_rows(alloc, file.organization, made.as_slice())?;
    let rows = keep_rows(alloc, loaded.as_slice())?;
    let taken = buckets_taken(alloc, file, loaded.as_slice(), rows.as_slice())?;
    let buckets = buckets_kept(file, taken);
    let blocks = blocks_of(buckets, file.bucket)?;
    Ok(Load {
        rows,
        buckets,
        blocks,
    })
}
