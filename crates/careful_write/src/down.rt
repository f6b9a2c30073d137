//! Why a disk went down.
use block_disk::DiskErr;
use thiserror::Error;

/// The disk's count of this kind rose in the call. The node goes down.
#[derive(Clone, Copy, Debug, PartialEq, Eq, Error)]
pub enum Down {
    #[error("the disk failed")]
    Failed,
    #[error("the disk has stopped")]
    Stopped,
}

impl From<DiskErr> for Down {
    ghost use Rattle.std.specs.Prelude.{◌≡◌};
    ghost use Rattle.careful_write.specs.Down.{down_of};

    ghost from_gives = { λ err down. down ≡ down_of err };

    fn from(err: DiskErr) -> Down {
        match err {
            DiskErr::Failed => Down::Failed,
            DiskErr::Stopped => Down::Stopped,
        }
    }
}
