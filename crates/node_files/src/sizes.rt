//! The sizes and the form of a new file.
ghost use Rattle.std.specs.Prelude.{◌≡◌, ◌≤◌, ◌*◌, ◌+◌, ℕ, true, IfSome, is_some};
ghost use Rattle.script_lang.specs.script_model.Statements as said;
ghost use Rattle.script_lang.specs.Statements.{form_of};
ghost use Rattle.directory_model.specs.run_model.Answers.{are_sizes, blocks_for, buckets_for, is_file_form};
ghost use Rattle.directory_model.specs.Files.{IsNewHead};
ghost use Rattle.node_files.specs.NewFile.{AreSizes, buckets_in, new_head, plain_head_of};

use file_base::{FileHead, NO_MARKS, NO_SAVE, NO_SPAN, Organization};
use script_lang::Form;
use vms_base::{FileName, Moment};

/// How a file is sized: a bucket in blocks, the longest record in bytes, and how its records are kept.
#[derive(Clone, Copy, Debug, PartialEq, Eq, Drop)]
pub struct Sizes {
    pub bucket: u16,
    pub mrs: u16,
    pub form: Form,
}

// Whether a form may be: a file has a bucket, or a record's number; a key has 1 to 64 bytes, which the longest record holds.
fn fits_record(size: u32, form: &Form) -> bool
    ensures { (bucket : ℕ) → are_sizes bucket size ≡ true → result ≡ is_file_form bucket size (form_of form.now) }
{
    match form {
        Form::Sequential { buckets } => 1 <= *buckets,
        Form::Relative { records } => 1 <= *records,
        Form::Indexed {
            buckets,
            position,
            key_size,
        } => {
            1 <= *buckets
                && 1 <= *key_size
                && *key_size <= 64
                && *position <= size
                && *key_size <= size - *position
        }
    }
}

/// The sizes, where a file may have them: 1 to 16 blocks, a record of at least one byte that leaves 32 bytes of a bucket and has
/// at most 8,160, and what its form asks for.
pub fn sizes_of(bucket: u32, size: u32, form: Form) -> Option<Sizes>
    ensures form { is_some result ≡ is_file_form bucket size (form_of form) }
    ensures sizes { IfSome result (λ s. (s.bucket ≡ bucket) × (s.mrs ≡ size) × (s.form ≡ form)) }
    ensures fits { IfSome result AreSizes }
{
    if bucket < 1 || 16 < bucket || size < 1 || 8160 < size || 512 * bucket - 32 < size {
        return None;
    }
    if !fits_record(size, &form) {
        return None;
    }
    Some(Sizes {
        bucket: bucket as u16,
        mrs: size as u16,
        form,
    })
}

// How many buckets hold the cells of all numbers.
fn cell_buckets(bucket: u16, mrs: u16, records: u32) -> u32
    requires fits { mrs + 32 ≤ 512 * bucket }
    requires some { 1 ≤ records }
    ensures { result ≡ buckets_for bucket mrs (said.Relative records) }
{
    let cells = (512 * u64::from(bucket) - 16) / (u64::from(mrs) + 2);
    ((u64::from(records) + cells - 1) / cells) as u32
}

impl Sizes {
    /// How many buckets the file has.
    pub fn buckets(&self) -> u32
        requires { AreSizes self.now }
        ensures value { result ≡ buckets_in self.now }
        ensures some { 1 ≤ result }
    {
        match self.form {
            Form::Sequential { buckets } => buckets,
            Form::Relative { records } => cell_buckets(self.bucket, self.mrs, records),
            Form::Indexed { buckets, .. } => buckets,
        }
    }

    /// How many blocks they take.
    pub fn blocks(&self) -> u64
        requires { AreSizes self.now }
        ensures value { result ≡ blocks_for self.now.bucket self.now.mrs (form_of self.now.form) }
        ensures some { 1 ≤ result }
    {
        u64::from(self.buckets()) * u64::from(self.bucket)
    }

    // The head of a new file of these sizes, but for how its records are kept.
    fn plain_head(&self, name: FileName, start: u32) -> FileHead
        requires { AreSizes self.now }
        ensures { result ≡ plain_head_of name self.now start }
    {
        FileHead {
            name,
            organization: Organization::Sequential,
            marks: NO_MARKS,
            bucket: self.bucket,
            mrs: self.mrs,
            mrn: 0,
            key_pos: 0,
            key_size: 0,
            start,
            alloc: self.buckets(),
            used: 1,
            root: 0,
            levels: 0,
            count: 0,
            ai: NO_SPAN,
            bi: NO_SPAN,
            bi_since: Moment(0),
            save: NO_SAVE,
        }
    }

    /// The head of a new file of these sizes, from this block on.
    pub fn head(&self, name: FileName, start: u32) -> FileHead
        requires { AreSizes self.now }
        ensures { result ≡ new_head name self.now start }
    {
        let mut head = self.plain_head(name, start);
        match self.form {
            Form::Sequential { .. } => {}
            Form::Relative { records } => {
                head.organization = Organization::Relative;
                head.mrn = records;
                head.used = head.alloc;
            }
            Form::Indexed {
                position,
                key_size,
                ..
            } => {
                head.organization = Organization::Indexed;
                head.key_pos = position as u16;
                head.key_size = key_size as u16;
                head.levels = 1;
            }
        }
        head
    }
}
