// Records' bytes.
ghost use Rattle.std.specs.Prelude.{◌≡◌, ℕ, ◌≤◌, List, [], length, take, IfOk};
ghost use Rattle.vms_model.specs.Limits.{record_limit};

use std::alloc::{AllocError, Global};
use std::marker::Model;

const MOST: usize = 8160;

/// The bytes of a record, at most 8,160 of them, in a place that is taken once.
#[derive(Drop)]
pub struct Record {
    place: Vec<u8>,
    used: usize,
}

impl Model for Record {
    ghost Value = { List ℕ };

    ghost view = { λ r. take r.used r.place.items };

    ghost invariant = { λ r. (length r.place.items ≡ record_limit) × (r.used ≤ record_limit) };
}

// Writes these bytes over the first ones.
fn put_first(place: &mut [u8], bytes: &[u8])
    requires { length bytes.now ≤ length place.old }
    ensures length { length place.new ≡ length place.old }
    ensures first { take (length bytes.now) place.new ≡ bytes.now }
{
    place[..bytes.len()].copy_from_slice(bytes);
}

impl Record {
    /// A record without bytes, or an error where there is no memory for its place.
    pub fn reserve(alloc: Global) -> Result<Record, AllocError>
        ensures { IfOk result (λ r. r ≡ []) }
    {
        let place = vec![in alloc; 0u8; MOST]?;
        Ok(Record { place, used: 0 })
    }

    /// Takes these bytes in place of the earlier ones.
    pub fn set(&mut self, bytes: &[u8])
        requires { length bytes.now ≤ record_limit }
        ensures { self.new ≡ bytes.now }
    {
        put_first(&mut self.place, bytes);
        self.used = bytes.len();
    }

    /// The record's bytes.
    pub fn bytes(&self) -> &[u8]
        ensures value { result.now ≡ self.now }
        ensures few { length self.now ≤ record_limit }
    {
        &self.place[..self.used]
    }
}
