// Outcomes of branches, and why one was aborted.
ghost use Rattle.std.specs.Prelude.{◌≡◌};
ghost use Rattle.vms_model.specs.Transactions.{reason_text};
ghost use Rattle.vms_base.specs.Outcomes.{reason_of};

/// How a branch was settled.
#[derive(Clone, Copy, Debug, PartialEq, Eq, Drop)]
pub enum Outcome {
    Commit,
    Abort,
}

/// Why a branch was aborted.
#[derive(Clone, Copy, Debug, PartialEq, Eq, Drop)]
pub enum Reason {
    Aborted,
    Vetoed,
    SyncFail,
    Timeout,
    CommFail,
    SegFail,
}

impl Reason {
    /// The reason as it is shown: its DECdtm condition's name.
    pub fn text(self) -> &'static [u8]
        ensures { result.now ≡ reason_text (reason_of self) }
    {
        match self {
            Reason::Aborted => b"DDTM$_ABORTED",
            Reason::Vetoed => b"DDTM$_VETOED",
            Reason::SyncFail => b"DDTM$_SYNC_FAIL",
            Reason::Timeout => b"DDTM$_TIMEOUT",
            Reason::CommFail => b"DDTM$_COMM_FAIL",
            Reason::SegFail => b"DDTM$_SEG_FAIL",
        }
    }
}
