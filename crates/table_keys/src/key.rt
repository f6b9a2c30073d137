// A serial as a key.
ghost use Rattle.std.specs.Prelude.{◌++◌};
ghost use Rattle.std.specs.Hash as fed;
ghost use Rattle.records_model.specs.History.{same_id};
ghost use Rattle.vms_base.specs.Ids.{serial_of};
ghost use Rattle.table_keys.specs.IdLaws.{id_equivalence, id_partial, id_alike};

use std::hash::{Hash, Hasher};
use vms_base::Serial;

/// A branch's serial, by which a table finds what it has of the branch.
#[derive(Clone, Copy, Debug, Drop)]
pub struct BranchKey {
    pub serial: Serial,
}

impl PartialEq for BranchKey {
    ghost eq = { λ a b. same_id (serial_of a.serial) (serial_of b.serial) };

    ghost laws = { id_partial (λ k. serial_of k.serial) };

    fn eq(&self, other: &BranchKey) -> bool {
        let a = &self.serial.0;
        let b = &other.serial.0;
        a.node.bytes() == b.node.bytes() && a.boot == b.boot && a.seq == b.seq
    }
}

impl Eq for BranchKey {
    ghost laws = { id_equivalence (λ k. serial_of k.serial) };
}

// Most serials of a table are of one node, so that its name tells little.
impl Hash for BranchKey {
    ghost hash_input = { λ k. fed.u32 k.serial.0.boot ++ fed.u32 k.serial.0.seq };

    ghost respects_eq = { id_alike (λ k. serial_of k.serial) };

    fn hash<H: Hasher>(&self, state: &mut H) {
        self.serial.0.boot.hash(state);
        self.serial.0.seq.hash(state);
    }
}
