// The list of a node's unsettled branches.
ghost use Rattle.std.specs.Prelude.{◌≡◌, ◌<◌, map, vec_len, vec_capacity};
ghost use Rattle.commit_protocol.specs.Table.{put, cut};
ghost use Rattle.tm_types.specs.Branches.{key_at, branch_of};
ghost use Rattle.tm_table.specs.Doing.{IsThere};
ghost use Rattle.tm_table.specs.Kept.{Unique};

use crate::places::place;
use tm_types::BranchState;
use vms_base::{Serial, Tid};

/// Puts the branch in the place of the one with its key.
pub fn put_branch(branches: &mut Vec<BranchState>, b: &BranchState)
    requires { IsThere (branch_of b.now).key (map branch_of branches.old.items) }
    ensures branches { map branch_of branches.new.items ≡ put (branch_of b.now) (map branch_of branches.old.items) }
    ensures capacity { vec_capacity branches.new ≡ vec_capacity branches.old }
{
    if let Some(i) = place(branches, &b.tid, &b.serial) {
        branches[i] = b.copy();
    }
}

/// Puts the branch in the place of the one with its key, or last where none has it.
pub fn add_branch(branches: &mut Vec<BranchState>, b: BranchState)
    requires { vec_len branches.old < vec_capacity branches.old }
    ensures branches { map branch_of branches.new.items ≡ put (branch_of b) (map branch_of branches.old.items) }
    ensures capacity { vec_capacity branches.new ≡ vec_capacity branches.old }
{
    match place(branches, &b.tid, &b.serial) {
        Some(i) => branches[i] = b,
        None => branches.push_reserved(b),
    }
}

/// Takes the branch with this key out. Nothing changes where there is none.
pub fn cut_branch(branches: &mut Vec<BranchState>, tid: &Tid, serial: &Serial)
    requires { Unique (map branch_of branches.old.items) }
    ensures branches { map branch_of branches.new.items ≡ cut (key_at tid.now serial.now) (map branch_of branches.old.items) }
    ensures capacity { vec_capacity branches.new ≡ vec_capacity branches.old }
{
    if let Some(i) = place(branches, tid, serial) {
        branches.remove(i);
    }
}
