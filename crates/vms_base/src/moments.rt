// Moments.

/// A moment: hundredths of a second since 17-NOV-1858 00:00.
#[derive(Clone, Copy, Debug, PartialEq, Eq, Drop)]
pub struct Moment(pub u64);
