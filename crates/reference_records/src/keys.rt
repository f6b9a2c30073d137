// The keys that an operation asks for, those that it finds, and all that a branch holds once it has done it.
ghost use Rattle.std.specs.Prelude.{◌≡◌, ◌^◌, ◌<◌, ℕ, List, [], ◌∷◌, map, option_map, reverse, IfOk};
ghost use Rattle.reference_index.specs.run_model.Operations as operations;
ghost use Rattle.reference_index.specs.Standing.{key_of, lent_key};
ghost use Rattle.reference_world.specs.Standing.{organization_of, file_of, entry_of};
ghost use Rattle.reference_records.specs.Operations.{asked_of, AreRowsOf};

use crate::asked::Asked;
use crate::records::{behind, first_behind, key_put};
use reference_index::{Key, KeyRef, append, push_back, push_front};
use reference_world::{File, Organization, Row};
use std::alloc::{AllocError, Global};

// Just this key.
fn one_key(alloc: Global, key: KeyRef<'_>) -> Result<Vec<Key>, AllocError>
    ensures { IfOk result (λ v. map key_of v.items ≡ lent_key key.entry ∷ []) }
{
    let mut keys = Vec::new(alloc);
    push_front(&mut keys, key.own(alloc)?)?;
    Ok(keys)
}

// The keys of a record that is put.
fn put_keys(
    alloc: Global,
    f: &File,
    rows: &[Row<'_>],
    number: Option<u32>,
    bytes: &[u8],
) -> Result<Vec<Key>, AllocError>
    requires { AreRowsOf f.now rows.now }
    ensures { IfOk result (λ v. map key_of v.items ≡ operations.put_keys (organization_of f.now.organization) (operations.count_of (file_of f.now)) number bytes.now) }
{
    let mut keys = one_key(alloc, key_put(f.organization, rows.len(), number, bytes))?;
    if let Organization::Sequential = f.organization {
        push_front(&mut keys, Key::End)?;
    }
    Ok(keys)
}

// The keys of rows, from the last down.
fn keys_down(alloc: Global, rows: &[Row<'_>]) -> Result<Vec<Key>, AllocError>
    ensures { IfOk result (λ v. map key_of v.items ≡ reverse (map (λ e. e.0) (map entry_of rows.now))) }
{
    match rows {
        [] => Ok(Vec::new(alloc)),
        [r, rest @ ..] => {
            let mut keys = keys_down(alloc, rest)?;
            push_back(&mut keys, r.key.own(alloc)?)?;
            Ok(keys)
        }
    }
}

// The positions that go where a file is truncated, from the last down.
fn cut_keys(alloc: Global, f: &File, rows: &[Row<'_>], number: u32) -> Result<Vec<Key>, AllocError>
    requires { AreRowsOf f.now rows.now }
    ensures { IfOk result (λ v. map key_of v.items ≡ operations.cut_keys (file_of f.now) number) }
{
    if number < 1 {
        return Ok(Vec::new(alloc));
    }
    keys_down(alloc, behind(rows, number as usize - 1))
}

/// The keys that an operation asks for before it reads a record.
pub fn keys_asked(
    alloc: Global,
    f: &File,
    rows: &[Row<'_>],
    asked: Asked<'_>,
) -> Result<Vec<Key>, AllocError>
    requires { AreRowsOf f.now rows.now }
    ensures { IfOk result (λ v. map key_of v.items ≡ operations.keys_asked (file_of f.now) (asked_of asked.entry)) }
{
    match asked {
        Asked::Put(number, bytes) => put_keys(alloc, f, rows, number, bytes),
        Asked::Update(key, _) => one_key(alloc, key),
        Asked::Delete(key) => one_key(alloc, key),
        Asked::Truncate(number) => {
            let mut keys = cut_keys(alloc, f, rows, number)?;
            push_front(&mut keys, Key::End)?;
            Ok(keys)
        }
        Asked::Get(key) => one_key(alloc, key),
        Asked::Next(_) => Ok(Vec::new(alloc)),
    }
}

// The key of a row.
fn key_found(alloc: Global, row: Option<Row<'_>>) -> Result<Vec<Key>, AllocError>
    ensures { IfOk result (λ v. map key_of v.items ≡ operations.key_found (option_map entry_of row.entry)) }
{
    match row {
        Some(r) => one_key(alloc, r.key),
        None => Ok(Vec::new(alloc)),
    }
}

/// The key of the record that an operation finds to be the next.
pub fn keys_found(
    alloc: Global,
    f: &File,
    rows: &[Row<'_>],
    asked: Asked<'_>,
) -> Result<Vec<Key>, AllocError>
    requires { AreRowsOf f.now rows.now }
    ensures { IfOk result (λ v. map key_of v.items ≡ operations.keys_found (file_of f.now) (asked_of asked.entry)) }
{
    match asked {
        Asked::Next(after) => key_found(alloc, first_behind(rows, after)),
        _ => Ok(Vec::new(alloc)),
    }
}

/// All that a branch holds once it has done an operation.
pub fn keys_held(
    alloc: Global,
    f: &File,
    rows: &[Row<'_>],
    asked: Asked<'_>,
) -> Result<Vec<Key>, AllocError>
    requires { AreRowsOf f.now rows.now }
    ensures { IfOk result (λ v. map key_of v.items ≡ operations.keys_held (file_of f.now) (asked_of asked.entry)) }
{
    let asked_for = keys_asked(alloc, f, rows, asked)?;
    let found = keys_found(alloc, f, rows, asked)?;
    append(asked_for, found)
}
