// Moments that can be written.
ghost use Rattle.std.specs.Prelude.{◌≡◌, IfOk};
ghost use Rattle.vms_base.specs.vms_model.Times.{CanBeWritten};

use std::alloc::AllocError;

/// A moment up to the end of the year 9999: hundredths of a second since 17-NOV-1858 00:00.
#[derive(Clone, Copy, Drop)]
pub struct WrittenMoment {
    pub hundredths: u64,
    ghost can_be_written: { CanBeWritten hundredths },
}

/// A moment as it can be written. An error where it is past the end of the year 9999, which none is that a volume or a script tells.
pub fn written(hundredths: u64) -> Result<WrittenMoment, AllocError>
    ensures { IfOk result (λ moment. moment.hundredths ≡ hundredths) }
{
    if hundredths < 25_690_901_760_000 {
        Ok(WrittenMoment { hundredths })
    } else {
        Err(AllocError)
    }
}
