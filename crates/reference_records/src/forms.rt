// What refuses an operation by its form.
ghost use Rattle.std.specs.Prelude.{◌≡◌, ℕ, List, Option, option_map};
ghost use Rattle.reference_index.specs.run_model.Operations as operations;
ghost use Rattle.reference_index.specs.Standing.{lent_key};
ghost use Rattle.reference_world.specs.Standing.{organization_of, file_of, line_of};
ghost use Rattle.reference_records.specs.Operations.{asked_of};

use crate::asked::Asked;
use reference_index::KeyRef;
use reference_world::{File, Line, Organization};
use std::cmp::max;

/// The first of two that applies.
pub fn first_of(a: Option<Line>, b: Option<Line>) -> Option<Line>
    ensures { option_map line_of result ≡ operations.first_of (option_map line_of a) (option_map line_of b) }
{
    match a {
        Some(refusal) => Some(refusal),
        None => b,
    }
}

/// A refusal where a test holds.
pub fn refused_if(holds: bool, refusal: Line) -> Option<Line>
    ensures { option_map line_of result ≡ operations.refused_if holds (line_of refusal) }
{
    if holds { Some(refusal) } else { None }
}

// A key is not of the form that an organization has, or is the number of no cell.
fn key_refused(organization: Organization, key: KeyRef<'_>) -> Option<Line>
    ensures { option_map line_of result ≡ operations.key_refused (organization_of organization) (lent_key key.entry) }
{
    match organization {
        Organization::Sequential => match key {
            KeyRef::Number(_) => None,
            _ => Some(Line::BadParameter),
        },
        Organization::Relative { greatest } => match key {
            KeyRef::Number(n) => refused_if(
                n < 1 || u64::from(greatest) < n,
                Line::BadRecordNumber,
            ),
            _ => Some(Line::BadParameter),
        },
        Organization::Indexed { size, .. } => match key {
            KeyRef::Text(bytes) => refused_if(bytes.len() != size as usize, Line::BadParameter),
            _ => Some(Line::BadParameter),
        },
    }
}

// A record goes behind the others or by its key, and only in a relative file to a number.
fn place_refused(organization: Organization, number: Option<u32>) -> Option<Line>
    ensures { option_map line_of result ≡ operations.place_refused (organization_of organization) number }
{
    match organization {
        Organization::Relative { .. } => match number {
            Some(n) => key_refused(organization, KeyRef::Number(u64::from(n))),
            None => Some(Line::BadParameter),
        },
        Organization::Sequential => match number {
            Some(_) => Some(Line::BadParameter),
            None => None,
        },
        Organization::Indexed { .. } => match number {
            Some(_) => Some(Line::BadParameter),
            None => None,
        },
    }
}

// How many bytes a record has at least.
fn least_size(organization: Organization) -> u64
    ensures { result ≡ operations.least_size (organization_of organization) }
{
    match organization {
        Organization::Sequential => 1,
        Organization::Relative { .. } => 1,
        Organization::Indexed { position, size } => max(1, u64::from(position) + u64::from(size)),
    }
}

// A record is too short or too long.
fn size_refused(f: &File, bytes: &[u8]) -> Option<Line>
    ensures { option_map line_of result ≡ operations.size_refused (file_of f.now) bytes.now }
{
    let size = bytes.len() as u64;
    refused_if(
        size < least_size(f.organization) || u64::from(f.record_size) < size,
        Line::BadRecordSize,
    )
}

// Single records are not deleted from a sequential file.
fn delete_refused(organization: Organization) -> Option<Line>
    ensures { option_map line_of result ≡ operations.delete_refused (organization_of organization) }
{
    match organization {
        Organization::Sequential => Some(Line::BadOperation),
        Organization::Relative { .. } => None,
        Organization::Indexed { .. } => None,
    }
}

// Only a sequential file is truncated.
fn truncate_refused(organization: Organization) -> Option<Line>
    ensures { option_map line_of result ≡ operations.truncate_refused (organization_of organization) }
{
    match organization {
        Organization::Sequential => None,
        Organization::Relative { .. } => Some(Line::BadOperation),
        Organization::Indexed { .. } => Some(Line::BadOperation),
    }
}

// A key behind which the next one is asked for.
fn after_refused(organization: Organization, after: Option<KeyRef<'_>>) -> Option<Line>
    ensures { option_map line_of result ≡ operations.after_refused (organization_of organization) (option_map lent_key after.entry) }
{
    match after {
        None => None,
        Some(key) => key_refused(organization, key),
    }
}

/// What refuses an operation by its form alone.
pub fn form_refused(f: &File, asked: Asked<'_>) -> Option<Line>
    ensures { option_map line_of result ≡ operations.form_refused (file_of f.now) (asked_of asked.entry) }
{
    match asked {
        Asked::Put(number, bytes) => first_of(
            place_refused(f.organization, number),
            size_refused(f, bytes),
        ),
        Asked::Update(key, bytes) => first_of(
            key_refused(f.organization, key),
            size_refused(f, bytes),
        ),
        Asked::Delete(key) => first_of(
            key_refused(f.organization, key),
            delete_refused(f.organization),
        ),
        Asked::Truncate(_) => truncate_refused(f.organization),
        Asked::Get(key) => key_refused(f.organization, key),
        Asked::Next(after) => after_refused(f.organization, after),
    }
}
