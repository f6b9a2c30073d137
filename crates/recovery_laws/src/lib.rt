//! What holds of recoveries in a run: what recovery knows of a file follows each act of the world on it, a recovery that nothing refuses leaves the
//! records of its moment, and files of which recovery can tell are left so that it can tell of them again.
#![tactic(auto)]

ghost use Rattle.recovery_laws.specs.Entering.{OperationsEnter};
ghost use Rattle.recovery_laws.specs.Loading.{LoadsAsItIs, LoadsLeaveNoGap};
ghost use Rattle.recovery_laws.specs.Gaps.{FilesStayGapless};
ghost use Rattle.recovery_laws.specs.Led.{ActsKeepTold, ToldAgree, ToldRecover};
ghost use Rattle.recovery_laws.specs.Mapped.{ActsKeepMapped, MappedGive};
ghost use Rattle.recovery_laws.specs.Staying.{BranchesStayOpen};
ghost use Rattle.recovery_laws.specs.Recovering.{RecoveriesGiveRecords};
ghost use Rattle.recovery_laws.specs.Rows.{FivePutsFill, ImagesAreKept, NewJournalIsShort, RingIsFull, WorkedFileRecovers};
ghost use Rattle.recovery_laws.specs.States.{FilesFollow, MadeFilesBegin, UnmarkedCarryOn};

/// Each act of the world on a file is acts on one file, and a file that is made begins as one; a file that is not marked for images carries on what it
/// carried.
pub fn files_follow_acts()
    ensures files { FilesFollow }
    ensures made { MadeFilesBegin }
    ensures unmarked { UnmarkedCarryOn }
{}

/// A file of which recovery can tell stays so behind each act that may be done there: of changes that no ring is full for, of settlements, of aborts that
/// are cut short, and of marks, saves and recoveries while no unsettled branch has changed the file.
pub fn acts_keep_told()
    ensures { ActsKeepTold }
{}

/// What an operation changes that nothing refuses, at a node that is up, may be entered in the images of its file: no journal tells the branch to be
/// settled, its keys are free, each change noted what it found, and no ring is full.
pub fn operations_enter()
    ensures { OperationsEnter }
{}

/// Where no journal of a file's images tells a branch to be settled, none does so behind any act but its own settlement.
pub fn branches_stay_open()
    ensures { BranchesStayOpen }
{}

/// A recovery that nothing refuses leaves in such a file the records of its moment, which are what the journals and the save make; these stand, and
/// their number is answered.
pub fn recoveries_give_records()
    ensures one { ToldRecover }
    ensures node { RecoveriesGiveRecords }
{}

/// Records of a relative or an indexed file, and those of a sequential one that stand at the positions from 1 on, a load leaves each where it is; and behind
/// a load those of a sequential file stand there.
pub fn loads_keep_records()
    ensures same { LoadsAsItIs }
    ensures gaps { LoadsLeaveNoGap }
{}

/// Where neither the records of a sequential file as they stand nor those that were committed have a gap, none has behind any act of the world: one of
/// several unsettled branches at most moves the end, and no other changes at which positions records stand.
pub fn files_stay_gapless()
    ensures { FilesStayGapless }
{}

/// Where the committed records of a file have no gap all the way, and where a run found it neither had what recoveries were to give, each recovery that the
/// journals and the save reach is to give records without a gap, of this run and of the next.
pub fn recoveries_leave_no_gap()
    ensures acts { ActsKeepMapped }
    ensures given { MappedGive }
{}

/// What is left of such a file is what the next run may find, as far as recovery asks.
pub fn left_files_agree()
    ensures { ToldAgree }
{}

/// Worked scripts show just this: what a change leaves in both journals of images, that a new journal does not reach a save, and that a ring is full.
pub fn worked_scripts()
    ensures images { ImagesAreKept }
    ensures short { NewJournalIsShort }
    ensures full { RingIsFull }
    ensures filled { FivePutsFill }
{}

/// A worked file: what recoveries to a moment give of it, and what its journals and its save make, both ways.
pub fn worked_files()
    ensures { WorkedFileRecovers }
{}
