// The resource managers that are declared at a node.
ghost use Rattle.std.specs.Prelude.{◌≡◌, ◌≤◌, ◌++◌, ◌∷◌, [], None, Some, true, IfErr, IfOk, OnErr, OnOk, length, vec_capacity};
ghost use Rattle.run_model.specs.commit_protocol.Allowed.{allowed};
ghost use Rattle.run_model.specs.commit_protocol.Rows.{JoinRm, Replied};
ghost use Rattle.run_model.specs.commit_protocol.Table.{find_serial, without_rm};
ghost use Rattle.run_model.specs.Answers.{Recorded, Unsettled};
ghost use Rattle.tm_types.specs.Branches.{branch_of};
ghost use Rattle.tm_types.specs.Events.{event_of};
ghost use Rattle.tm_types.specs.Parts.{log_record_of, reply_of};
ghost use Rattle.run_model.specs.transcript_model.Lines as line;
ghost use Rattle.vms_base.specs.Ids.{serial_of};
ghost use Rattle.participants.specs.Refusing.{is_among, known_in, refusal_line, refused_declaration, refused_forgetting, refused_joining, refused_reply};

use crate::refusals::{RmErr, has_joined, has_joined_any, is_awaited, is_full, is_joinable};
use std::alloc::{AllocError, Global};
use std::marker::Model;
use tm_table::Tm;
use tm_types::{BranchState, Event, answers, has_rm, same_rm};
use vms_base::{LogRec, Reply, RmEvent, RmName, Serial};

// How many resource managers are declared at a node, at the most.
const MOST_DECLARED: usize = 64;

/// The resource managers that are declared at a node, in the order of that.
#[derive(Drop)]
pub struct Rms {
    names: Vec<RmName>,
}

impl Model for Rms {
    ghost use Rattle.std.specs.Prelude.{◌≤◌, List, length, vec_capacity};
    ghost use Rattle.vms_model.specs.Limits.{declared_limit};
    ghost use Rattle.run_model.specs.commit_protocol.Messages.{Name};

    ghost Value = { List Name };

    ghost view = { λ r. r.names.items };

    ghost invariant = { λ r. (declared_limit ≤ vec_capacity r.names) × (length r.names.items ≤ declared_limit) };
}

// Whether a name is among these.
fn is_among(names: &[RmName], rm: &RmName) -> bool
    ensures { result ≡ is_among rm.now names.now }
{
    names.iter().any(|name| same_rm(name, rm))
}

// Takes a name out, wherever it stands.
fn take_out(names: &mut Vec<RmName>, rm: &RmName)
    ensures without { names.new.items ≡ without_rm rm.now names.old.items }
    ensures fewer { length names.new.items ≤ length names.old.items }
    ensures room { vec_capacity names.new ≡ vec_capacity names.old }
{
    names.retain(|name| !same_rm(name, rm));
}

impl Rms {
    /// No manager is declared, and there is room for 64; or an error where there is no memory for them.
    pub fn reserve(alloc: Global) -> Result<Rms, AllocError>
        ensures { IfOk result (λ r. r ≡ []) }
    {
        let names = Vec::with_capacity(alloc, MOST_DECLARED)?;
        Ok(Rms { names })
    }

    /// No manager is declared any more.
    pub fn clear(&mut self)
        ensures { self.new ≡ [] }
    {
        self.names.clear();
    }

    /// Whether a manager is declared.
    pub fn is_declared(&self, rm: &RmName) -> bool
        ensures { result ≡ is_among rm.now self.now }
    {
        is_among(&self.names, rm)
    }

    /// Declares a manager. State where it is declared, and Quota where 64 are. Takes no memory.
    pub fn declare(&mut self, rm: RmName) -> Result<(), RmErr>
        ensures declared { OnOk result (self.new ≡ self.old ++ rm ∷ []) }
        ensures unrefused { OnOk result (refused_declaration rm self.old ≡ None) }
        ensures same { OnErr result (self.new ≡ self.old) }
        ensures refused { IfErr result (λ e. refused_declaration rm self.old ≡ Some (refusal_line line.Declared e)) }
    {
        if self.is_declared(&rm) {
            return Err(RmErr::State);
        }
        if self.names.len() >= MOST_DECLARED {
            return Err(RmErr::Quota(MOST_DECLARED as u32));
        }
        self.names.push_reserved(rm);
        Ok(())
    }

    /// A manager is declared no more. NoRm where it is not, and State where it has joined an unsettled branch of the table.
    pub fn forget(&mut self, table: &Tm, rm: &RmName) -> Result<(), RmErr>
        ensures forgotten { OnOk result (self.new ≡ without_rm rm.now self.old) }
        ensures unrefused { OnOk result (refused_forgetting rm.now self.old table.now.table ≡ None) }
        ensures same { OnErr result (self.new ≡ self.old) }
        ensures refused { IfErr result (λ e. refused_forgetting rm.now self.old table.now.table ≡ Some (refusal_line line.Managers e)) }
    {
        if !self.is_declared(rm) {
            return Err(RmErr::NoRm);
        }
        if has_joined_any(table, rm) {
            return Err(RmErr::State);
        }
        take_out(&mut self.names, rm);
        Ok(())
    }

    /// What the table is to be told where a manager joins the branch of a serial. NoTid where none is unsettled; NoRm where the manager is not declared; State
    /// where the branch has not joined its coordinator or is ended, or the manager has joined it; Quota where eight have.
    pub fn join(&self, table: &Tm, serial: &Serial, rm: &RmName) -> Result<Event, RmErr>
        ensures event { IfOk result (λ e. event_of e ≡ JoinRm (serial_of serial.now) rm.now) }
        ensures allowed { IfOk result (λ e. allowed table.now (event_of e) ≡ true) }
        ensures unrefused { OnOk result (refused_joining rm.now self.now (find_serial (serial_of serial.now) table.now.table) ≡ None) }
        ensures refused { IfErr result (λ e. refused_joining rm.now self.now (find_serial (serial_of serial.now) table.now.table) ≡ Some (refusal_line line.Managers e)) }
    {
        let Some(branch) = table.branch(*serial) else {
            return Err(RmErr::NoTid);
        };
        if !self.is_declared(rm) {
            return Err(RmErr::NoRm);
        }
        if !is_joinable(branch, rm) {
            return Err(RmErr::State);
        }
        if is_full(branch) {
            return Err(RmErr::Quota(8));
        }
        Ok(Event::JoinRm {
            serial: *serial,
            rm: *rm,
        })
    }

    /// What the table is to be told where a manager replies to an event of the branch of a serial: of an unsettled one, or else of its committed record, which
    /// waits for the reply to COMMIT. NoTid where there is neither; NoRm where the manager is not declared, has not joined the branch, or is not waited for;
    /// State where no event waits for its reply, or the reply is none to that event.
    pub fn reply(
        &self,
        table: &Tm,
        serial: &Serial,
        rm: &RmName,
        reply: Reply,
    ) -> Result<Event, RmErr>
        ensures event { IfOk result (λ e. event_of e ≡ Replied (serial_of serial.now) rm.now (reply_of reply)) }
        ensures allowed { IfOk result (λ e. allowed table.now (event_of e) ≡ true) }
        ensures unrefused { OnOk result (refused_reply rm.now (reply_of reply) self.now (known_in table.now (serial_of serial.now)) ≡ None) }
        ensures refused { IfErr result (λ e. refused_reply rm.now (reply_of reply) self.now (known_in table.now (serial_of serial.now)) ≡ Some (refusal_line line.Managers e)) }
    {
        let event = Event::Replied {
            serial: *serial,
            rm: *rm,
            reply,
        };
        match table.branch(*serial) {
            Some(branch) => {
                self.test_branch(branch, rm, reply)?;
                Ok(event)
            }
            None => match table.committed(*serial) {
                Some(committed) => {
                    self.test_record(committed, rm, reply)?;
                    Ok(event)
                }
                None => Err(RmErr::NoTid),
            },
        }
    }

    // What refuses a reply to an event of an unsettled branch.
    fn test_branch(&self, branch: &BranchState, rm: &RmName, reply: Reply) -> Result<(), RmErr>
        ensures unrefused { OnOk result (refused_reply rm.now (reply_of reply) self.now (Unsettled (branch_of branch.now)) ≡ None) }
        ensures refused { IfErr result (λ e. refused_reply rm.now (reply_of reply) self.now (Unsettled (branch_of branch.now)) ≡ Some (refusal_line line.Managers e)) }
    {
        if !self.is_declared(rm) || !has_joined(branch, rm) {
            return Err(RmErr::NoRm);
        }
        if !is_awaited(branch, rm, reply) {
            return Err(RmErr::State);
        }
        Ok(())
    }

    // What refuses a reply to the event of a committed record.
    fn test_record(&self, committed: &LogRec, rm: &RmName, reply: Reply) -> Result<(), RmErr>
        ensures unrefused { OnOk result (refused_reply rm.now (reply_of reply) self.now (Recorded (log_record_of committed.now)) ≡ None) }
        ensures refused { IfErr result (λ e. refused_reply rm.now (reply_of reply) self.now (Recorded (log_record_of committed.now)) ≡ Some (refusal_line line.Managers e)) }
    {
        if !self.is_declared(rm) || !has_rm(&committed.rms, rm) {
            return Err(RmErr::NoRm);
        }
        if !answers(RmEvent::Commit, reply) {
            return Err(RmErr::State);
        }
        Ok(())
    }
}
