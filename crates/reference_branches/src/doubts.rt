// Branches in the order of their preparation, and what they ask.
ghost use Rattle.std.specs.Prelude.{◌≡◌, map, option_map, IfOk};
ghost use Rattle.commit_protocol.specs.Messages.{Inquire};
ghost use Rattle.commit_protocol.specs.Rows.{up};
ghost use Rattle.commit_protocol.specs.Table.{same_key as same_key_said, find, cut};
ghost use Rattle.commit_protocol.specs.World as protocol;
ghost use Rattle.vms_base.specs.Ids.{id_of};
ghost use Rattle.net_wire.specs.Messages.{message_of};
ghost use Rattle.tm_types.specs.Branches.{branch_of as branch_said};
ghost use Rattle.tm_types.specs.Effects.{effect_of};
ghost use Rattle.reference_world.specs.Standing.{branch_key_of};
ghost use Rattle.reference_branches.specs.Branches.{sent_alone as sent_alone_said, serials_in_doubt};

use crate::states::is_prepared;
use net_wire::Message;
use reference_index::{push_front, take_first};
use reference_world::BranchKey;
use std::alloc::{AllocError, Global};
use tm_types::{BranchState, Effect, same_id};
use vms_base::{Id, Kind, Serial, Tid};

// Whether it is the branch of this key.
#[tactic(auto, unfolding(commit_protocol::specs::Table::same_key))]
fn same_key(b: &BranchState, key: &BranchKey) -> bool
    ensures { result ≡ same_key_said (branch_said b.now).key (branch_key_of key.now) }
{
    same_id(&b.tid.0, &key.tid) && same_id(&b.serial.0, &key.serial)
}

// The branch of this key.
fn find_key(branches: &[BranchState], key: &BranchKey) -> Option<BranchState>
    ensures { option_map branch_said result ≡ find (branch_key_of key.now) (map branch_said branches.now) }
{
    match branches {
        [] => None,
        [b, rest @ ..] => {
            if same_key(b, key) {
                Some(b.copy())
            } else {
                find_key(rest, key)
            }
        }
    }
}

// The branches but for the one of this key.
fn without_key(
    alloc: Global,
    branches: Vec<BranchState>,
    key: &BranchKey,
) -> Result<Vec<BranchState>, AllocError>
    ensures { IfOk result (λ v. map branch_said v.items ≡ cut (branch_key_of key.now) (map branch_said branches.items)) }
{
    let mut rest = branches;
    match take_first(&mut rest) {
        None => Ok(Vec::new(alloc)),
        Some(first) => {
            let same = same_key(&first, key);
            let mut others = without_key(alloc, rest, key)?;
            if !same {
                push_front(&mut others, first)?;
            }
            Ok(others)
        }
    }
}

// A branch, where there is one, and others behind it.
fn with_first(
    found: Option<BranchState>,
    others: Vec<BranchState>,
) -> Result<Vec<BranchState>, AllocError>
    ensures { IfOk result (λ v. map branch_said v.items ≡ protocol.arranged_by (option_map branch_said found) (map branch_said others.items)) }
{
    let mut all = others;
    if let Some(b) = found {
        push_front(&mut all, b)?;
    }
    Ok(all)
}

/// The branches with those of these keys first, in their order.
pub fn arranged(
    alloc: Global,
    order: &[BranchKey],
    branches: Vec<BranchState>,
) -> Result<Vec<BranchState>, AllocError>
    ensures { IfOk result (λ v. map branch_said v.items ≡ protocol.arranged (map branch_key_of order.now) (map branch_said branches.items)) }
{
    match order {
        [] => Ok(branches),
        [key, rest @ ..] => {
            let found = find_key(branches.as_slice(), key);
            let others = without_key(alloc, branches, key)?;
            let all = arranged(alloc, rest, others)?;
            with_first(found, all)
        }
    }
}

/// The serials of those that are prepared.
pub fn prepared_serials(alloc: Global, branches: &[BranchState]) -> Result<Vec<Id>, AllocError>
    ensures { IfOk result (λ v. map id_of v.items ≡ serials_in_doubt (map branch_said branches.now)) }
{
    match branches {
        [] => Ok(Vec::new(alloc)),
        [b, rest @ ..] => {
            let mut all = prepared_serials(alloc, rest)?;
            if is_prepared(b) {
                push_front(&mut all, b.serial.0)?;
            }
            Ok(all)
        }
    }
}

/// The question of a branch to its coordinator.
pub fn question(branch: &BranchKey) -> Message
    ensures { message_of result ≡ up Inquire (branch_key_of branch.now) }
{
    Message {
        kind: Kind::Inquire,
        from: branch.serial.node,
        to: branch.tid.node,
        tid: Tid(branch.tid),
        serial: Serial(branch.serial),
        bid: None,
    }
}

/// The message that these effects send, where they do nothing else.
pub fn sent_alone(effects: &[Effect]) -> Option<Message>
    ensures { option_map message_of result ≡ sent_alone_said (map effect_of effects.now) }
{
    match effects {
        [] => None,
        [effect] => match effect {
            Effect::Send(m) => Some(*m),
            _ => None,
        },
        [_, _, _rest @ ..] => None,
    }
}
