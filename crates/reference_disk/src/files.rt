// New files, and what operations tell of the records of files.
ghost use Rattle.std.specs.Prelude.{◌≡◌, ◌++◌, [], ◌∷◌, map, option_map, length, IfOk};
ghost use Rattle.std.specs.FinMap.{entries};
ghost use Rattle.script_lang.specs.Statements.{form_of, setting_of};
ghost use Rattle.records_model.specs.History.{current};
ghost use Rattle.reference_index.specs.transcript_model.Lines as model;
ghost use Rattle.reference_index.specs.run_model.Answers as answers;
ghost use Rattle.reference_index.specs.run_model.Answers.{shown_record};
ghost use Rattle.reference_index.specs.run_model.Operations as operations;
ghost use Rattle.reference_index.specs.run_model.Steps.{lines_of_rows};
ghost use Rattle.reference_index.specs.Standing.{key_of, changes_of, layout_of};
ghost use Rattle.reference_world.specs.Standing.{history_of, organization_of, file_of, line_of};
ghost use Rattle.reference_records.specs.Operations.{asked_of};
ghost use Rattle.reference_world.specs.Directories.{mark_of};
ghost use Rattle.reference_disk.specs.Marks.{blocks_said, mark_said};

use crate::forms::buckets_for;
use reference_index::{Change, Key, Layout, Leaf, no_layout, push_front};
use reference_records::{Asked, changes_asked, keys_held, operation_answer, refused_if};
use reference_recovery::side_for;
use reference_world::{File, Line, Mark, Organization, nothing_carried, records_of, rows_shown};
use script_lang::{Form, Setting};
use std::alloc::{AllocError, Global};
use vms_base::FileName;

/// What a setting marks a file with, where a journal that begins has its blocks from this one on.
pub fn mark_for(setting: Setting, start: u64) -> Mark
    ensures { mark_of result ≡ mark_said (setting_of setting) start }
{
    match setting {
        Setting::RecoveryUnits => Mark::Units(true),
        Setting::NoRecoveryUnits => Mark::Units(false),
        Setting::Images(word, blocks) => Mark::Begins(side_for(word), start, u64::from(blocks)),
        Setting::NoImages(word) => Mark::Ends(side_for(word)),
    }
}

/// How many blocks it wants for a journal that begins; none for none.
pub fn blocks_marked(setting: Setting) -> u64
    ensures { result ≡ blocks_said (setting_of setting) }
{
    match setting {
        Setting::RecoveryUnits => 0,
        Setting::NoRecoveryUnits => 0,
        Setting::Images(_, blocks) => u64::from(blocks),
        Setting::NoImages(_) => 0,
    }
}

/// The refusal that a journal is to begin in no blocks.
pub fn setting_refused(setting: Setting) -> Option<Line>
    ensures { option_map line_of result ≡ answers.setting_refused (setting_of setting) }
{
    match setting {
        Setting::RecoveryUnits => None,
        Setting::NoRecoveryUnits => None,
        Setting::Images(_, blocks) => refused_if(blocks == 0, Line::BadParameter),
        Setting::NoImages(_) => None,
    }
}

// How a file of this form keeps its records.
fn organized(form: Form) -> Organization
    ensures { organization_of result ≡ answers.organized (form_of form) }
{
    match form {
        Form::Sequential { .. } => Organization::Sequential,
        Form::Relative { records } => Organization::Relative { greatest: records },
        Form::Indexed {
            position,
            key_size,
            ..
        } => Organization::Indexed {
            position,
            size: key_size,
        },
    }
}

// The layout of a new file: one leaf without slots, where it is indexed. No key of its size comes before the leaf's lowest key, which is zeros.
fn first_layout(alloc: Global, form: Form) -> Result<Layout, AllocError>
    ensures { IfOk result (λ l. layout_of l ≡ answers.first_layout (form_of form)) }
{
    let mut layout = no_layout(alloc);
    if let Form::Indexed { key_size, .. } = form {
        let lowest = vec![in alloc; 0u8; key_size as usize]?;
        let slots = Vec::new(alloc);
        push_front(&mut layout.leaves, Leaf { lowest, slots })?;
    }
    Ok(layout)
}

/// A new file that lies from this block on.
pub fn new_file(
    alloc: Global,
    name: FileName,
    bucket: u32,
    size: u32,
    form: Form,
    start: u64,
    moment: u64,
) -> Result<File, AllocError>
    ensures { IfOk result (λ f. file_of f ≡ answers.created name bucket size (form_of form) start moment) }
{
    let layout = first_layout(alloc, form)?;
    Ok(File {
        name,
        bucket,
        record_size: size,
        organization: organized(form),
        start,
        buckets: buckets_for(bucket, size, form),
        recovery_units: false,
        carried: nothing_carried(alloc),
        base: Vec::new(alloc),
        moment,
        settled: Vec::new(alloc),
        live: Vec::new(alloc),
        layout,
    })
}

/// What an operation changes, the newest change first, what a branch holds that did it, and what it is answered.
#[derive(Drop)]
pub struct Told {
    pub changes: Vec<Change>,
    pub keys: Vec<Key>,
    pub line: Line,
}

/// The same of a file that is there.
pub fn told_of(alloc: Global, f: &File, asked: Asked<'_>) -> Result<Told, AllocError>
    ensures changes { IfOk result (λ t. changes_of t.changes.items ≡ operations.changes_of (file_of f.now) (asked_of asked.entry)) }
    ensures keys { IfOk result (λ t. map key_of t.keys.items ≡ operations.keys_held (file_of f.now) (asked_of asked.entry)) }
    ensures line { IfOk result (λ t. line_of t.line ≡ operations.operation_answer (file_of f.now) (asked_of asked.entry)) }
{
    let all = records_of(alloc, f)?;
    let rows = all.as_slice();
    Ok(Told {
        changes: changes_asked(alloc, f, rows, asked)?,
        keys: keys_held(alloc, f, rows, asked)?,
        line: operation_answer(alloc, f, rows, asked)?,
    })
}

/// The lines of all records of a file, and their count.
pub fn show_records(alloc: Global, file: &File) -> Result<Vec<Line>, AllocError>
    ensures { let es = entries (current (history_of file.now)) in IfOk result (λ v. map line_of v.items ≡ lines_of_rows (map shown_record es) ++ model.NormalCount (length es) ∷ []) }
{
    let rows = records_of(alloc, file)?;
    rows_shown(alloc, rows.as_slice(), rows.len() as u64)
}
