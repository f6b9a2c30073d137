// A map of records.
ghost use Rattle.std.specs.Prelude.{◌≡◌, ◌<◌, ◌^◌, ◌∷◌, Some, None, IfSome, IfNone, OnOk, OnErr};
ghost use Rattle.std.specs.FinMap.{empty, entries, len};
ghost use Rattle.std.specs.Option.{option_copied};
ghost use Rattle.records_model.specs.Records.{set_key};
ghost use Rattle.vms_base.specs.Keys.{key_of};

use crate::key::OrderedKey;
use std::alloc::{AllocError, Global};
use std::collections::BTreeMap;
use std::marker::Model;
use vms_base::{Key, Record};

/// Records under their keys, in the order of the keys.
#[derive(Drop)]
pub struct RecordMap {
    map: BTreeMap<OrderedKey, Vec<u8>>,
}

impl Model for RecordMap {
    ghost use Rattle.records_model.specs.Records.{Records};
    ghost use Rattle.record_maps.specs.Maps.{records_code, records_told};

    ghost Value = { Records };

    ghost coded = { records_code };

    ghost view = { λ m. records_told m.map.entries };
}

impl RecordMap {
    /// No record.
    pub fn new(alloc: Global) -> RecordMap
        ensures { result ≡ empty }
    {
        RecordMap {
            map: BTreeMap::new(alloc),
        }
    }

    /// How many records there are.
    pub fn len(&self) -> usize
        ensures count { result ≡ len self.now }
        ensures few { result < 2 ^ 63 }
    {
        self.map.len()
    }

    // Puts a record under a key, in place of the one that it had.
    fn put(&mut self, alloc: Global, key: &Key, value: &Record) -> Result<(), AllocError>
        ensures put { OnOk result (self.new ≡ set_key self.old (key_of key.now) (Some value.now)) }
        ensures err { OnErr result (self.new ≡ self.old) }
    {
        let bytes = Vec::from_slice(alloc, value.bytes())?;
        let _ = self.map.insert(OrderedKey { key: *key }, bytes)?;
        Ok(())
    }

    // Takes the record of a key out.
    fn remove(&mut self, key: &Key)
        ensures { self.new ≡ set_key self.old (key_of key.now) None }
    {
        let _ = self.map.remove(&OrderedKey { key: *key });
    }

    /// Puts a record under a key in place of the one that it had, or takes that one out. An error where there is no memory for it; then nothing
    /// changes.
    pub fn set(
        &mut self,
        alloc: Global,
        key: &Key,
        value: Option<&Record>,
    ) -> Result<(), AllocError>
        ensures set { OnOk result (self.new ≡ set_key self.old (key_of key.now) (option_copied value.entry)) }
        ensures err { OnErr result (self.new ≡ self.old) }
    {
        match value {
            None => {
                self.remove(key);
                Ok(())
            }
            Some(record) => self.put(alloc, key, record),
        }
    }

    /// Takes the record with the least key out. None exactly where there is no record.
    pub fn pop_first(&mut self) -> Option<(Key, Vec<u8>)>
        ensures some { IfSome result (λ e. entries self.old ≡ (key_of e.0, e.1.items) ∷ entries self.new) }
        ensures none { IfNone result (self.old ≡ empty) }
    {
        // That the keys ascend, the length says.
        let _count = self.map.len();
        let Some((ordered, bytes)) = self.map.pop_first() else {
            return None;
        };
        Some((ordered.key, bytes))
    }
}
