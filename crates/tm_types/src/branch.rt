// Unsettled branches.
ghost use Rattle.std.specs.Prelude.{◌≡◌};

use crate::lists::{BidList, ChildList, ManagerList, State};
use vms_base::{Bid, Moment, Serial, Tid};

/// An unsettled branch, as its node knows it. A transaction's first branch has the transaction's id as its serial.
#[derive(Debug, Drop)]
pub struct BranchState {
    pub tid: Tid,
    pub serial: Serial,
    /// The identifier by which a branch joins its coordinator. A first branch has none, nor has a branch that a restart found prepared.
    pub bid: Option<Bid>,
    pub state: State,
    /// When a transaction with a timeout is aborted.
    pub due: Option<Moment>,
    /// A change was made in the branch.
    pub changed: bool,
    /// END_BRANCH was called.
    pub ended: bool,
    /// The coordinator sent Prepare.
    pub asked: bool,
    /// The identifiers of the branches that were authorised.
    pub bids: BidList,
    /// The serials that joined by them.
    pub accepted: ChildList,
    /// The resource managers that joined.
    pub managers: ManagerList,
}

impl BranchState {
    /// Another state that says the same.
    pub fn copy(&self) -> Self
        ensures { result ≡ self.now }
    {
        BranchState {
            tid: self.tid,
            serial: self.serial,
            bid: self.bid,
            state: self.state,
            due: self.due,
            changed: self.changed,
            ended: self.ended,
            asked: self.asked,
            bids: self.bids.copy(),
            accepted: self.accepted.copy(),
            managers: self.managers.copy(),
        }
    }
}
