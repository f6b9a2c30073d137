//! The directory block of a file number.
ghost use Rattle.std.specs.Prelude.{◌≡◌, ◌↔◌, ◌+◌, ◌≤◌, ℕ, List, [], ◌∷◌, Option, Some, IsTrue, length};
ghost use Rattle.file_base.specs.vms_model.Ids.{padded};
ghost use Rattle.volume_format.specs.declared.head.DirectoryEntry.{DirectoryEntry as EntrySaid};
ghost use Rattle.file_base.specs.declared.head.FileHead.{FileHead as HeadSaid};
ghost use Rattle.file_base.specs.declared.head.Marks.{Marks as MarksSaid};
ghost use Rattle.file_base.specs.declared.head.Organization.{Organization as OrganizationSaid};
ghost use Rattle.file_base.specs.declared.head.Save.{Save as SaveSaid};
ghost use Rattle.file_base.specs.declared.head.Span.{Span as SpanSaid};
ghost use Rattle.volume_format.specs.Layout.{AllStand, laid};
ghost use Rattle.volume_format.specs.Head.{IsEntry, IsExtent, IsForm, IsHead, IsSave, IsSpan, entry_block, extent_rows, form_rows, head_block_of, head_rows, marks_number as marks_said, organization_number as organization_said, save_rows, span_rows};

use crate::pieces::{
    file_at, name_len, number_8, number_16, number_32, number_64, padded_40, write, write_8,
    write_16, write_32, write_64,
};
use file_base::{FileHead, Marks, Moment, Organization, Save, Span};

/// What the directory block of a file number tells.
#[derive(Clone, Copy, Debug, PartialEq, Eq, Drop)]
pub enum DirectoryEntry {
    Free,
    File(FileHead),
}

/// Writes the directory block of a file number. Where no field stands it has zeros.
pub fn write_directory(entry: &DirectoryEntry, block: &mut [u8; 512])
    ensures block { block.new ≡ entry_block entry.now }
    ensures entry { IsEntry entry.now }
{
    match entry {
        DirectoryEntry::Free => *block = [0; 512],
        DirectoryEntry::File(head) => write_head(head, block),
    }
}

/// What a directory block tells. None exactly where it is neither free nor a file's.
pub fn read_directory(block: &[u8; 512]) -> Option<DirectoryEntry>
    ensures { (entry : EntrySaid) → (result ≡ Some entry) ↔ (IsEntry entry × (entry_block entry ≡ block.now)) }
{
    let entry = entry_at(block)?;
    let mut again = [0; 512];
    write_directory(&entry, &mut again);
    if again == *block { Some(entry) } else { None }
}

// The entry whose fields these are, if they are an entry's.
fn entry_at(block: &[u8; 512]) -> Option<DirectoryEntry>
    ensures { (entry : EntrySaid) → IsEntry entry → entry_block entry ≡ block.now → result ≡ Some entry }
{
    if number_8(block, 0) == 0 {
        return Some(DirectoryEntry::Free);
    }
    match head_at(block) {
        Some(head) => Some(DirectoryEntry::File(head)),
        None => None,
    }
}

fn write_head(head: &FileHead, block: &mut [u8; 512])
    ensures block { block.new ≡ head_block_of head.now }
    ensures head { IsHead head.now }
{
    *block = [0; 512];
    write_form(head, block);
    write_extent(head, block);
    write_span(block, 80, &head.ai);
    write_span(block, 104, &head.bi);
    write_64(block, 128, head.bi_since.0);
    write_save(block, &head.save);
}

fn write_form(head: &FileHead, block: &mut [u8; 512])
    ensures block { block.new ≡ laid (form_rows head.now) block.old }
    ensures form { IsForm head.now }
{
    let name = padded_40(&head.name);
    let length = name_len(&head.name);
    let organization = organization_number(head.organization);
    let marks = marks_number(head.marks);
    write_8(block, 0, 1);
    write_8(block, 1, organization);
    write_8(block, 2, marks);
    write_8(block, 3, length);
    write(block, 4, &name);
    write_16(block, 44, head.bucket);
    write_16(block, 46, head.mrs);
    write_32(block, 48, head.mrn);
    write_16(block, 52, head.key_pos);
    write_16(block, 54, head.key_size);
}

fn write_extent(head: &FileHead, block: &mut [u8; 512])
    ensures block { block.new ≡ laid (extent_rows head.now) block.old }
    ensures extent { IsExtent head.now }
{
    write_32(block, 56, head.start);
    write_32(block, 60, head.alloc);
    write_32(block, 64, head.used);
    write_32(block, 68, head.root);
    write_32(block, 72, head.levels);
    write_32(block, 76, head.count);
}

fn write_span(block: &mut [u8; 512], at: usize, span: &Span)
    requires { at + 24 ≤ 512 }
    ensures block { block.new ≡ laid (span_rows at span.now) block.old }
    ensures span { IsSpan span.now }
{
    write_32(block, at, span.start);
    write_32(block, at + 4, span.blocks);
    write_64(block, at + 8, span.first);
    write_64(block, at + 16, span.end);
}

fn write_save(block: &mut [u8; 512], save: &Save)
    ensures block { block.new ≡ laid (save_rows save.now) block.old }
    ensures save { IsSave save.now }
{
    write_32(block, 136, save.start);
    write_32(block, 140, save.alloc);
    write_64(block, 144, save.position);
    write_64(block, 152, save.moment.0);
    write_32(block, 160, save.used);
    write_32(block, 164, save.root);
    write_32(block, 168, save.levels);
    write_32(block, 172, save.count);
}

fn organization_number(organization: Organization) -> u8
    ensures { result ≡ organization_said organization }
{
    match organization {
        Organization::Sequential => 1,
        Organization::Relative => 2,
        Organization::Indexed => 3,
    }
}

fn organization_of(number: u8) -> Option<Organization>
    ensures { (organization : OrganizationSaid) → number ≡ organization_said organization → result ≡ Some organization }
{
    match number {
        1 => Some(Organization::Sequential),
        2 => Some(Organization::Relative),
        3 => Some(Organization::Indexed),
        _ => None,
    }
}

fn marks_number(marks: Marks) -> u8
    ensures { result ≡ marks_said marks }
{
    let ru = if marks.ru { 1 } else { 0 };
    let ai = if marks.ai { 2 } else { 0 };
    let bi = if marks.bi { 4 } else { 0 };
    let save = if marks.save { 8 } else { 0 };
    ru + ai + bi + save
}

fn marks_of(number: u8) -> Marks
    ensures { (marks : MarksSaid) → number ≡ marks_said marks → result ≡ marks }
{
    Marks {
        ru: number % 2 == 1,
        ai: number / 2 % 2 == 1,
        bi: number / 4 % 2 == 1,
        save: number / 8 % 2 == 1,
    }
}

// The file whose fields these are, if they are a file's.
fn head_at(block: &[u8; 512]) -> Option<FileHead>
    ensures { (head : HeadSaid) → IsHead head → AllStand block.now (head_rows head) → result ≡ Some head }
{
    let name = file_at(block, 4)?;
    let organization = organization_of(number_8(block, 1))?;
    Some(FileHead {
        name,
        organization,
        marks: marks_of(number_8(block, 2)),
        bucket: number_16(block, 44),
        mrs: number_16(block, 46),
        mrn: number_32(block, 48),
        key_pos: number_16(block, 52),
        key_size: number_16(block, 54),
        start: number_32(block, 56),
        alloc: number_32(block, 60),
        used: number_32(block, 64),
        root: number_32(block, 68),
        levels: number_32(block, 72),
        count: number_32(block, 76),
        ai: span_at(block, 80),
        bi: span_at(block, 104),
        bi_since: Moment(number_64(block, 128)),
        save: save_at(block),
    })
}

fn span_at(block: &[u8; 512], at: usize) -> Span
    requires { at + 24 ≤ 512 }
    ensures { (span : SpanSaid) → IsSpan span → AllStand block.now (span_rows at span) → result ≡ span }
{
    Span {
        start: number_32(block, at),
        blocks: number_32(block, at + 4),
        first: number_64(block, at + 8),
        end: number_64(block, at + 16),
    }
}

fn save_at(block: &[u8; 512]) -> Save
    ensures { (save : SaveSaid) → IsSave save → AllStand block.now (save_rows save) → result ≡ save }
{
    Save {
        start: number_32(block, 136),
        alloc: number_32(block, 140),
        position: number_64(block, 144),
        moment: Moment(number_64(block, 152)),
        used: number_32(block, 160),
        root: number_32(block, 164),
        levels: number_32(block, 168),
        count: number_32(block, 172),
    }
}
