// The keys that a unit changed.
ghost use Rattle.std.specs.Prelude.{◌≡◌, ◌≤◌, ◌<◌, ◌+◌, ◌^◌, ℕ, List, [], Option, Some, None, length, map, IfOk, IfSome, IfNone, slice_get, position, is_some};
ghost use Rattle.std.specs.List.{list_any};
ghost use Rattle.indexmap.specs.IndexSet.{insert_key, spare};
ghost use Rattle.vms_base.specs.vms_model.Limits.{change_limit};
ghost use Rattle.table_keys.specs.Places.{same_place};
ghost use Rattle.sequence_laws.specs.Undoing.{lower};
ghost use Rattle.unit_entries.specs.Keys.{KeyTold, keys_after, number_for, lowest_in, lowest_with, lesser, IsLeast, NoneFrom};
ghost use Rattle.unit_entries.specs.Rows.{key_said, AreKept};

use indexmap::IndexSet;
use std::alloc::{AllocError, Global};
use std::marker::Model;
use table_keys::Place;
use vms_base::Key;

/// How many keys a unit may have changed.
pub const MOST_KEYS: usize = 1_024;

/// A key that a unit changed.
#[derive(Clone, Copy, Debug, Drop)]
pub struct ChangedKey {
    pub file: u8,
    pub key: Key,
    /// Where the earliest entry of the key begins.
    pub first: u64,
    /// Whether that entry has an image: the key had a record before all of its changes.
    pub had: bool,
    /// Whether the key had no record before one of its changes.
    pub absent: bool,
}

/// The keys that a unit changed, each of them once, in the order of their earliest entries. One is found in the same time however many there are.
#[derive(Drop)]
pub struct ChangedKeys {
    keys: Vec<ChangedKey>,
    // The same keys in the same order.
    places: IndexSet<Place>,
}

impl Model for ChangedKeys {
    ghost use Rattle.std.specs.Prelude.{List, map};
    ghost use Rattle.unit_entries.specs.Keys.{KeyTold};
    ghost use Rattle.unit_entries.specs.Rows.{key_said, AreKept};

    ghost Value = { List KeyTold };

    ghost view = { λ k. map key_said k.keys.items };

    ghost invariant = { λ k. AreKept k.keys k.places };
}

// Where a key of a file stands among these.
fn find(places: &IndexSet<Place>, file: u8, key: &Key) -> Option<usize>
    ensures place { result ≡ position (same_place (record { file = file; key = key.now })) places.now.keys }
    ensures found { is_some result ≡ list_any (same_place (record { file = file; key = key.now })) places.now.keys }
{
    places.get_index_of(&Place { file, key: *key })
}

// Puts a key of a file behind these, where it is another.
fn put(places: &mut IndexSet<Place>, file: u8, key: &Key)
    requires room { 0 < spare places.old }
    ensures keys { places.new.keys ≡ insert_key same_place places.old.keys (record { file = file; key = key.now }) }
    ensures room { spare places.old ≤ spare places.new + 1 }
{
    let _ = places.insert(Place { file, key: *key });
}

// The number that is the key of a record of this file.
fn number_for(key: &ChangedKey, file: u8) -> Option<u32>
    ensures { result ≡ number_for file (key_said key.now) }
{
    match key.key {
        Key::Number(n) if file == key.file => Some(n),
        _ => None,
    }
}

fn lower(n: u32, other: Option<u32>) -> Option<u32>
    ensures { result ≡ lower n other }
{
    match other {
        Some(m) => Some(n.min(m)),
        None => Some(n),
    }
}

// The lowest of numbers with that of a key of a file that had no record before one of its changes.
fn lowest_with(key: &ChangedKey, file: u8, lowest: Option<u32>) -> Option<u32>
    ensures { result ≡ lowest_with file (key_said key.now) lowest }
{
    match number_for(key, file) {
        Some(n) if key.absent => lower(n, lowest),
        _ => lowest,
    }
}

// The lowest number of a file at which there was no record before a change.
fn lowest_in(keys: &[ChangedKey], file: u8) -> Option<u32>
    ensures { result ≡ lowest_in file (map key_said keys.now) }
{
    let mut lowest = None;
    for key in keys {
        lowest = lowest_with(key, file, lowest);
    }
    lowest
}

// The least of numbers from one on, with its place, after one number more.
fn lesser(least: Option<(usize, u32)>, from: u64, i: usize, n: u32) -> Option<(usize, u32)>
    ensures { result ≡ lesser from least i n }
{
    if (n as u64) < from {
        return least;
    }
    match least {
        Some((_, m)) if m <= n => least,
        _ => Some((i, n)),
    }
}

impl ChangedKeys {
    /// No key, with room for 1,024 of them. An error where there is no memory for them.
    pub fn reserve(alloc: Global) -> Result<ChangedKeys, AllocError>
        ensures { IfOk result (λ k. k ≡ []) }
    {
        Ok(ChangedKeys {
            keys: Vec::with_capacity(alloc, MOST_KEYS)?,
            places: IndexSet::with_capacity(alloc, MOST_KEYS)?,
        })
    }

    /// Forgets all keys.
    pub fn clear(&mut self)
        ensures { self.new ≡ [] }
    {
        self.keys.clear();
        self.places.truncate(0);
    }

    /// How many keys there are.
    pub fn len(&self) -> usize
        ensures { result ≡ length self.now }
    {
        self.keys.len()
    }

    /// One of the keys.
    pub fn at(&self, i: usize) -> &ChangedKey
        requires { i < length self.now }
        ensures key { slice_get self.now i ≡ Some (key_said result.now) }
        ensures low { result.now.first ≤ 2 ^ 62 }
    {
        &self.keys[i]
    }

    /// Notes what one entry more tells of its key.
    pub fn note(&mut self, key: ChangedKey)
        requires room { length self.old < change_limit }
        requires low { key.first ≤ 2 ^ 62 }
        ensures keys { self.new ≡ keys_after (key_said key) self.old }
        ensures few { length self.new ≤ length self.old + 1 }
    {
        match find(&self.places, key.file, &key.key) {
            Some(i) => {
                let mut known = self.keys[i];
                known.absent = known.absent || key.absent;
                self.keys[i] = known;
            }
            None => {
                put(&mut self.places, key.file, &key.key);
                self.keys.push_reserved(key);
            }
        }
    }

    /// The lowest position of a sequential file at which there was no record before a change.
    pub fn lowest_absent(&self, file: u8) -> Option<u32>
        ensures { result ≡ lowest_in file self.now }
    {
        lowest_in(&self.keys, file)
    }

    /// The place of the key that is the least number of a file from one on, and the number.
    pub fn next_number(&self, file: u8, from: u64) -> Option<(usize, u32)>
        ensures found { IfSome result (λ least. IsLeast file from self.now least.0 least.1) }
        ensures none { IfNone result (NoneFrom file from self.now) }
    {
        let mut least = None;
        for (i, key) in self.keys.iter().enumerate() {
            if let Some(n) = number_for(key, file) {
                least = lesser(least, from, i, n);
            }
        }
        least
    }
}
