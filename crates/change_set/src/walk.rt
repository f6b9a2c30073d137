//! Places at which a walk over a file's buckets begins.
ghost use Rattle.std.specs.Prelude.{◌≡◌};
ghost use Rattle.change_set.specs.Files.{first_place};

/// Where a walk over a file's buckets begins: at a bucket, and how much it need not pass any more. What is counted there, the
/// file's organization says: buckets of a chain, or records.
#[derive(Clone, Copy, Debug, PartialEq, Eq, Drop)]
pub struct Place {
    pub bucket: u32,
    pub passed: u32,
}

impl Place {
    /// The front of each file.
    pub fn first() -> Place
        ensures { result ≡ first_place }
    {
        Place {
            bucket: 0,
            passed: 0,
        }
    }
}
