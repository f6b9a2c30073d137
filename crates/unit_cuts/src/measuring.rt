// How many bytes the entries of a truncation take, and where walks to its records begin.
ghost use Rattle.std.specs.List.{AllByRecursion};
ghost use Rattle.std.specs.Prelude.{◌≡◌, ◌⊎◌, ◌≤◌, ◌<◌, ◌+◌, ◌*◌, ◌++◌, ◌∷◌, [], ℕ, List, Option, None, Some, IfOk, IfErr, IfSome, OnOk, length};
ghost use Rattle.vms_model.specs.Limits.{change_limit};
ghost use Rattle.change_set.specs.Files.{IsPlaced, first_place, free_frames};
ghost use Rattle.change_set.specs.declared.walk.Place.{Place as PlaceSaid};
ghost use Rattle.change_set.specs.Maps.{empty_map};
ghost use Rattle.file_base.specs.declared.head.FileHead.{FileHead as HeadSaid};
ghost use Rattle.file_base.specs.declared.head.Organization.TheVariants as organization;
ghost use Rattle.volume_files.specs.record_files.Any.{Begins, IsFile, IsLaidOut};
ghost use Rattle.unit_journal.specs.Leaving.{FellIn};
ghost use Rattle.unit_journal.specs.Room.{entry_size as size_said};
ghost use Rattle.volume.specs.State.{SameVolume};
ghost use Rattle.vms_model.specs.Keys.{Number};
ghost use Rattle.vms_model.specs.Keys as model;
ghost use Rattle.unit_cuts.specs.Records.{OfRecords};
ghost use Rattle.unit_cuts.specs.Truncating.{AreBegun, IsPlaceOf, entry_sizes, keys_cut, removed_from};

use crate::cut::{Cut, record_if};
use block_disk::Disk;
use careful_write::Down;
use change_set::Place;
use file_base::FileHead;
use std::alloc::{AllocError, Global};
use std::marker::Model;
use unit_journal::entry_size;
use unit_table::MOST_CHANGES;
use vms_base::{Key, Record};
use volume::Volume;
use volume_files::find_record;

/// Room for a truncation: where its entries begin, and where a walk to each of its records begins.
#[derive(Drop)]
pub struct CutRoom {
    positions: Vec<u64>,
    places: Vec<Place>,
}

impl Model for CutRoom {
    ghost use Rattle.std.specs.Prelude.{◌≡◌, ◌≤◌, vec_capacity};
    ghost use Rattle.vms_model.specs.Limits.{change_limit};
    ghost use Rattle.unit_cuts.specs.Truncating.{CutRoomState};

    ghost Value = { CutRoomState };

    ghost view = { λ r. record { positions = r.positions.items; places = r.places.items } };

    ghost invariant = { λ r. (change_limit ≤ vec_capacity r.positions) × (change_limit ≤ vec_capacity r.places) };
}

impl CutRoom {
    /// Room for as many records as a unit may change.
    pub fn reserve(alloc: Global) -> Result<CutRoom, AllocError>
        ensures { IfOk result (λ r. r ≡ record { positions = []; places = [] }) }
    {
        Ok(CutRoom {
            positions: Vec::with_capacity(alloc, MOST_CHANGES)?,
            places: Vec::with_capacity(alloc, MOST_CHANGES)?,
        })
    }

    // Without a position or a place.
    fn clear(&mut self)
        ensures { self.new ≡ record { positions = []; places = [] } }
    {
        self.positions.clear();
        self.places.clear();
    }

    /// The place that was kept for the last record but so many; the front of the file, where none is kept.
    pub fn place_at(&self, behind: u32) -> Place
        ensures { (h : HeadSaid) (a : List (List ℕ)) → IsFile h → AllByRecursion (IsPlaceOf h a) self.now.places → IsPlaceOf h a result }
    {
        let kept = self.places.len();
        let behind = behind as usize;
        if kept <= behind {
            return Place::first();
        }
        match self.places.get(kept - 1 - behind) {
            Some(place) => *place,
            None => Place::first(),
        }
    }

    /// Without a position; the places stay.
    pub fn forget_positions(&mut self)
        ensures { self.new ≡ record self.old { positions = [] } }
    {
        self.positions.clear();
    }

    /// Where the entries begin.
    pub fn positions(&self) -> &[u64]
        ensures { result.now ≡ self.now.positions }
    {
        &self.positions
    }

    /// The place that was kept first; the front of the file, where none is left.
    pub fn first_place(&self) -> Place
        ensures { ((rest : List PlaceSaid) × (self.now.places ≡ result ∷ rest)) ⊎ (result ≡ first_place) }
    {
        match self.places.first() {
            Some(place) => *place,
            None => Place::first(),
        }
    }

    // Keeps a place for a walk that begins later.
    fn keep(&mut self, place: Place)
        requires { length self.old.places < change_limit }
        ensures { self.new ≡ record self.old { places = self.old.places ++ place ∷ [] } }
    {
        self.places.push_reserved(place);
    }

    /// Notes where an entry begins.
    pub fn note(&mut self, position: u64)
        requires { length self.old.positions < change_limit }
        ensures { self.new ≡ record self.old { positions = self.old.positions ++ position ∷ [] } }
    {
        self.positions.push_reserved(position);
    }
}

// A place for a walk that begins later. One behind the buckets that a file uses is none: that walk begins at the file's front.
fn kept(place: &Place, head: &FileHead) -> Place
    ensures used { result.bucket ≤ head.now.used }
    ensures either { (result ≡ place.now) ⊎ (result ≡ first_place) }
{
    if place.bucket <= head.used {
        *place
    } else {
        Place::first()
    }
}

// How many bytes the entry of one record takes that goes. A walk to it begins at a place, and leaves one for a later walk in `room`.
fn measure_record<D: Disk>(
    volume: &mut Volume<D>,
    cut: &Cut,
    n: u32,
    place: &mut Place,
    found: &mut Record,
    room: &mut CutRoom,
) -> Result<u64, Down>
    requires placed { IsPlaced cut.now.head volume.old.store.disk }
    requires frames { 32 ≤ free_frames volume.old.store.pool }
    requires sequential { cut.now.head.organization ≡ organization.Sequential }
    requires begins { IfSome volume.old.store.current (λ content. IsFile cut.now.head → IsLaidOut cut.now.head content → (key : Option model.Key) → Begins cut.now.head content key place.old) }
    requires few { length room.old.places < change_limit }
    requires places { AreBegun cut.now.head volume.old room.old.places }
    ensures size { IfOk result (λ size. OfRecords cut.now.head volume.old (λ m. size ≡ size_said (Number n) (m (Number n)))) }
    ensures most { IfOk result (λ size. size ≤ 8272) }
    ensures begins { OnOk result (IfSome volume.old.store.current (λ content. IsFile cut.now.head → IsLaidOut cut.now.head content → (key : Option model.Key) → Begins cut.now.head content key place.new)) }
    ensures more { OnOk result (length room.new.places ≡ length room.old.places + 1) }
    ensures places { OnOk result (AreBegun cut.now.head volume.old room.new.places) }
    ensures positions { room.new.positions ≡ room.old.positions }
    ensures same { OnOk result (SameVolume volume.old volume.new) }
    ensures down { IfErr result (λ down. FellIn down volume.old volume.new) }
{
    let key = Key::Number(n);
    let there = match find_record(volume, &cut.head, &key, place, found) {
        Ok(there) => there,
        Err(down) => return Err(down),
    };
    room.keep(kept(place, &cut.head));
    Ok(entry_size(&key, record_if(there, found)))
}

/// How many bytes the entries of a truncation take. Where a walk to each of its records may begin is in `room` then, for the last record last.
pub fn measure<D: Disk>(
    volume: &mut Volume<D>,
    cut: &Cut,
    found: &mut Record,
    room: &mut CutRoom,
) -> Result<u64, Down>
    requires placed { IsPlaced cut.now.head volume.old.store.disk }
    requires frames { 32 ≤ free_frames volume.old.store.pool }
    requires sequential { cut.now.head.organization ≡ organization.Sequential }
    requires few { removed_from cut.now.head.count cut.now.from ≤ change_limit }
    ensures size { IfOk result (λ size. OfRecords cut.now.head volume.old (λ m. size ≡ entry_sizes m (keys_cut cut.now.head cut.now.from))) }
    ensures most { IfOk result (λ size. size ≤ 8272 * change_limit) }
    ensures places { OnOk result (AreBegun cut.now.head volume.old room.new.places) }
    ensures positions { room.new.positions ≡ [] }
    ensures same { OnOk result (SameVolume volume.old volume.new) }
    ensures down { IfErr result (λ down. FellIn down volume.old volume.new) }
{
    room.clear();
    let mut place = Place::first();
    let mut size = 0;
    for i in 0..cut.removed() {
        match measure_record(volume, cut, cut.from + i, &mut place, found, room) {
            Ok(more) => size += more,
            Err(down) => return Err(down),
        }
    }
    Ok(size)
}

/// How many bytes the entries of a truncation take that tell that its records are gone.
pub fn gone_size(cut: &Cut) -> u64
    requires few { removed_from cut.now.head.count cut.now.from ≤ change_limit }
    ensures size { result ≡ entry_sizes empty_map (keys_cut cut.now.head cut.now.from) }
    ensures most { result ≤ 8272 * change_limit }
{
    let mut size = 0;
    for i in 0..cut.removed() {
        size += entry_size(&Key::Number(cut.from + i), None);
    }
    size
}
