// What a node's table hands to the layers above it.
ghost use Rattle.std.specs.Prelude.{◌≡◌, ◌<◌, ◌≤◌, [], ◌∷◌, ◌++◌, length, IfOk};

use net_wire::Message;
use std::alloc::{AllocError, Global};
use std::marker::Model;
use vms_base::{LogRec, Outcome, Reason, RmEvent, RmList, RmName, Serial, Tid};

/// One effect of a row: a write to the disk, a message or a line.
#[derive(Debug, Drop)]
pub enum Effect {
    /// The Prepared entry and the prepared record of the branch, with these managers.
    Prepare {
        serial: Serial,
        rms: RmList,
    },
    /// The settlement of the branch, with its committed record where there is one. The reason counts for aborts alone.
    Settle {
        serial: Serial,
        outcome: Outcome,
        reason: Reason,
        rec: Option<LogRec>,
    },
    /// A committed record is written again, with less to wait for.
    Keep(LogRec),
    /// The committed record of this serial goes.
    Forget {
        serial: Serial,
    },
    Send(Message),
    /// An event to a manager that joined the branch. It is for the caller to leave it out where the manager is not declared.
    Tell {
        event: RmEvent,
        tid: Tid,
        serial: Serial,
        rm: RmName,
    },
    Joined {
        serial: Serial,
    },
    Started {
        serial: Serial,
    },
    ReadOnly {
        serial: Serial,
    },
    /// The outcome of an END_TRANS that was pending; no reason is a commit.
    Ended {
        tid: Tid,
        reason: Option<Reason>,
    },
}

/// The effects of one step, at most 2,048 of them: 64 transactions with at most 15 messages, 8 events and three others each stay below it.
#[derive(Drop)]
pub struct Effects {
    items: Vec<Effect>,
}

impl Model for Effects {
    ghost use Rattle.std.specs.Prelude.{◌≤◌, List, vec_len, vec_capacity};
    ghost use Rattle.tm_types.specs.declared.effects.Effect.{Effect};

    ghost Value = { List Effect };

    ghost view = { λ e. e.items.items };

    ghost invariant = { λ e. (vec_len e.items ≤ 2048) × (2048 ≤ vec_capacity e.items) };
}

impl Effects {
    /// A place for the effects of one step, or an error where there is no memory for it.
    pub fn reserve(alloc: Global) -> Result<Effects, AllocError>
        ensures { IfOk result (λ e. e ≡ []) }
    {
        let items = Vec::with_capacity(alloc, 2048)?;
        Ok(Effects { items })
    }

    /// The effects in order.
    pub fn items(&self) -> &[Effect]
        ensures value { result.now ≡ self.now }
        ensures few { length self.now ≤ 2048 }
    {
        &self.items
    }

    /// Drops the effects of an earlier step.
    pub fn clear(&mut self)
        ensures { self.new ≡ [] }
    {
        self.items.clear();
    }

    /// Adds an effect at the end.
    pub fn push(&mut self, effect: Effect)
        requires { length self.old < 2048 }
        ensures { self.new ≡ self.old ++ effect ∷ [] }
    {
        self.items.push_reserved(effect);
    }
}
