// A truncation, and the records that it takes.
ghost use Rattle.std.specs.Prelude.{◌≡◌, ◌≤◌, ◌<◌, ◌+◌, ◌-◌, None, Some, option_copied, if◌then◌else◌};
ghost use Rattle.vms_base.specs.Keys.{key_of};
ghost use Rattle.vms_model.specs.Keys.{Number};
ghost use Rattle.unit_cuts.specs.Truncating.{removed_from};

use file_base::FileHead;
use vms_base::{Key, Record};

/// A truncation that is asked for: of which sequential file, and from which position on.
#[derive(Clone, Copy, Debug, Drop)]
pub struct Cut {
    pub file: u8,
    pub head: FileHead,
    pub from: u32,
}

impl Cut {
    /// How many records go; none, where the file has no such position.
    pub fn removed(&self) -> u32
        ensures many { result ≡ removed_from self.now.head.count self.now.from }
        ensures lies { 1 ≤ result → (1 ≤ self.now.from) × (self.now.from + result ≡ self.now.head.count + 1) }
        ensures fits { self.now.head.count < 4294967296 }
    {
        let count = self.head.count;
        if self.from < 1 || count < self.from {
            return 0;
        }
        count - self.from + 1
    }

    /// The position of the last record but so many.
    pub fn key(&self, behind: u32) -> Key
        requires { behind ≤ self.now.head.count }
        ensures { key_of result ≡ Number (self.now.head.count - behind) }
    {
        Key::Number(self.head.count - behind)
    }
}

/// A record, where there is one.
pub fn record_if(there: bool, found: &Record) -> Option<&Record>
    ensures { option_copied result ≡ (if there then Some found.now else None) }
{
    if there { Some(found) } else { None }
}
