//! Heads of files that are recovered.
ghost use Rattle.std.specs.Prelude.{◌≡◌, ◌≤◌, ◌^◌};
ghost use Rattle.file_recoveries.specs.Heads as said;
ghost use Rattle.rolled_records.specs.save_laws.Saves as saves;

use file_base::{FileHead, Span};
use journal_store::renew;
use vms_base::Moment;

/// The head by which a file's save is read.
pub fn save_head(head: &FileHead) -> FileHead
    ensures { result ≡ saves.save_head head.now }
{
    let mut save = *head;
    save.start = head.save.start;
    save.alloc = head.save.alloc;
    save.used = head.save.used;
    save.root = head.save.root;
    save.levels = head.save.levels;
    save.count = head.save.count;
    save
}

// A journal that begins anew, where the file has it.
fn renewed(marked: bool, span: &Span) -> Span
    requires { span.now.end ≤ 2 ^ 62 }
    ensures { result ≡ said.renewed_span marked span.now }
{
    let mut new = *span;
    if marked {
        renew(&mut new);
    }
    new
}

/// The head with its journals begun anew, of which that of before images tells since this moment.
pub fn with_new_journals(head: &FileHead, greatest: Moment) -> FileHead
    requires ai { head.now.ai.end ≤ 2 ^ 62 }
    requires bi { head.now.bi.end ≤ 2 ^ 62 }
    ensures { result ≡ said.with_new_journals head.now greatest }
{
    let mut new = *head;
    new.ai = renewed(head.marks.ai, &head.ai);
    new.bi = renewed(head.marks.bi, &head.bi);
    if head.marks.bi {
        new.bi_since = greatest;
    }
    new
}
