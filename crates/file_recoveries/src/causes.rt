//! What refuses a recovery by the head of its file and the unit that is told alone.
ghost use Rattle.std.specs.Prelude.{◌≡◌};
ghost use Rattle.file_recoveries.specs.Causes as said;

use crate::errors::RecoverErr;
use file_base::FileHead;
use vms_base::{Moment, Serial};

/// The way of a recovery.
#[derive(Clone, Copy, Debug, Drop)]
pub enum Way {
    /// From the save on by after images, to a moment or to the last.
    Forward(Option<Moment>),
    /// From what stands back to a moment, by before images.
    Backward(Moment),
}

// That the moment is before the save's.
fn early_cause(head: &FileHead, until: Option<Moment>) -> Option<RecoverErr>
    ensures { result ≡ said.early_cause head.now until }
{
    match until {
        Some(until) if until.0 < head.save.moment.0 => Some(RecoverErr::Early {
            until,
            save: head.save.moment,
        }),
        _ => None,
    }
}

// Or that the journal begins behind the save's position.
fn save_cause(head: &FileHead, until: Option<Moment>) -> Option<RecoverErr>
    ensures { result ≡ said.save_cause head.now until }
{
    match early_cause(head, until) {
        Some(cause) => Some(cause),
        None => {
            if head.save.position < head.ai.first {
                Some(RecoverErr::Span {
                    needed: head.save.position,
                    first: head.ai.first,
                })
            } else {
                None
            }
        }
    }
}

fn forward_cause(head: &FileHead, until: Option<Moment>, user: Option<Serial>) -> Option<RecoverErr>
    ensures { result ≡ said.forward_cause head.now until user }
{
    if !head.marks.ai {
        return Some(RecoverErr::NoJournal);
    }
    if !head.marks.save {
        return Some(RecoverErr::NoSave);
    }
    match user {
        Some(serial) => Some(RecoverErr::InUse(serial)),
        None => save_cause(head, until),
    }
}

fn since_cause(head: &FileHead, until: Moment) -> Option<RecoverErr>
    ensures { result ≡ said.since_cause head.now until }
{
    if until.0 < head.bi_since.0 {
        Some(RecoverErr::Span {
            needed: until.0,
            first: head.bi_since.0,
        })
    } else {
        None
    }
}

fn backward_cause(head: &FileHead, until: Moment, user: Option<Serial>) -> Option<RecoverErr>
    ensures { result ≡ said.backward_cause head.now until user }
{
    if !head.marks.bi {
        return Some(RecoverErr::NoJournal);
    }
    match user {
        Some(serial) => Some(RecoverErr::InUse(serial)),
        None => since_cause(head, until),
    }
}

/// The first cause for which the head, or an unsettled unit that changed the file, refuses a recovery. None where none of them does.
pub fn cause_of(head: &FileHead, way: Way, user: Option<Serial>) -> Option<RecoverErr>
    ensures { result ≡ said.cause_of head.now way user }
{
    match way {
        Way::Forward(until) => forward_cause(head, until, user),
        Way::Backward(until) => backward_cause(head, until, user),
    }
}
