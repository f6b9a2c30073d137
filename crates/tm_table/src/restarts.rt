// What a node knows after a restart.
ghost use Rattle.std.specs.Prelude.{◌≡◌, ◌≤◌, map, length, vec_len, vec_capacity};
ghost use Rattle.commit_protocol.specs.Table.{managers_of, branch_of as branch_of_record, branches_of};
ghost use Rattle.tm_types.specs.Parts.{manager_of, log_record_of};
ghost use Rattle.tm_types.specs.Branches.{branch_of};

use tm_types::{BidList, BranchState, ChildList, Manager, ManagerList, State};
use vms_base::{LogRec, Reply, RmList};

// The managers that replied prepared.
fn restored_managers(rms: &RmList) -> ManagerList
    ensures { map manager_of result ≡ managers_of rms.now }
{
    let mut list = ManagerList::new();
    for rm in rms.items() {
        list.push(Manager {
            rm: *rm,
            event: None,
            reply: Some(Reply::Prepared),
        });
    }
    list
}

// A prepared branch, as its record tells it.
fn restored(r: &LogRec) -> BranchState
    ensures { branch_of result ≡ branch_of_record (log_record_of r.now) }
{
    BranchState {
        tid: r.tid,
        serial: r.serial,
        bid: None,
        state: State::Prepared,
        due: None,
        changed: false,
        ended: true,
        asked: true,
        bids: BidList::new(),
        accepted: ChildList::new(),
        managers: restored_managers(&r.rms),
    }
}

/// Puts the branches of these prepared records in place of all that were there.
pub fn restore_branches(branches: &mut Vec<BranchState>, prepared: &[LogRec])
    requires { length prepared.now ≤ vec_capacity branches.old }
    ensures branches { map branch_of branches.new.items ≡ branches_of (map log_record_of prepared.now) }
    ensures capacity { vec_capacity branches.new ≡ vec_capacity branches.old }
{
    branches.clear();
    for r in prepared {
        branches.push_reserved(restored(r));
    }
}

/// Puts copies of these committed records in place of all that were there.
pub fn restore_records(records: &mut Vec<LogRec>, committed: &[LogRec])
    requires { length committed.now ≤ vec_capacity records.old }
    ensures records { map log_record_of records.new.items ≡ map log_record_of committed.now }
    ensures capacity { vec_capacity records.new ≡ vec_capacity records.old }
{
    records.clear();
    for r in committed {
        records.push_reserved(r.copy());
    }
}
