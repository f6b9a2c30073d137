// A table of units.
ghost use Rattle.std.specs.Prelude.{◌≡◌, ◌++◌, ◌∷◌, [], ℕ, ◌≤◌, ◌<◌, ◌*◌, IfOk, IfSome, IfNone, IsSome, None, length, option_map, true};
ghost use Rattle.std.specs.List.{AllByRecursion};
ghost use Rattle.vms_base.specs.vms_model.Limits.{branch_limit, change_limit, file_limit};
ghost use Rattle.vms_base.specs.Ids.{serial_of, tid_of};
ghost use Rattle.unit_table.specs.declared.place.Branch.{Branch as BranchSaid};
ghost use Rattle.unit_table.specs.Places.{AreInOrder, IsFirstPlace};
ghost use Rattle.unit_table.specs.Units.{OpenUnit, IsFirst, Units, begun, changers, earliest, earlier, first_that, first_to_change, has_changed, is_active, is_of, no_units, owed, prepared_unit, unit_at, unit_back, units_of, with_begun, with_file, with_position, with_unit, without_place};

use crate::place::{Branch, Place, is_same};
use std::alloc::{AllocError, Global};
use std::marker::Model;
use vms_base::{Serial, Tid};

/// How many units may be unsettled.
pub const MOST_UNITS: usize = 64;

/// The units that are not settled, each at one of 64 places.
#[derive(Drop)]
pub struct UnitTable {
    places: Vec<Place>,
    // The places that are taken, in the order in which their units were begun.
    order: Vec<u8>,
}

impl Model for UnitTable {
    ghost use Rattle.std.specs.Prelude.{◌≤◌, vec_capacity};
    ghost use Rattle.vms_base.specs.vms_model.Limits.{branch_limit};
    ghost use Rattle.unit_table.specs.Units.{Units};
    ghost use Rattle.unit_table.specs.Places.{AreInOrder};

    ghost Value = { Units };

    ghost view = { λ t. record { places = t.places.items; order = t.order.items } };

    ghost invariant = { λ t. AreInOrder t.places.items t.order.items × (branch_limit ≤ vec_capacity t.order) };
}

// How many bytes the units at some places will still take.
fn owed_by(places: &[Place]) -> u64
    requires few { length places.now ≤ branch_limit }
    ensures value { result ≡ owed places.now }
    ensures few { result ≤ 96 * length places.now }
{
    match places {
        [] => 0,
        [place, rest @ ..] => place.owed() + owed_by(rest),
    }
}

// How many of the units at some places changed a file.
fn changers_of(places: &[Place], file: u8) -> u64
    requires few { length places.now ≤ branch_limit }
    ensures value { result ≡ changers file places.now }
    ensures few { result ≤ length places.now }
{
    match places {
        [] => 0,
        [place, rest @ ..] => place.changers(file) + changers_of(rest, file),
    }
}

// The lesser of two positions, where there are two.
fn earlier(a: Option<u64>, b: Option<u64>) -> Option<u64>
    ensures { result ≡ earlier a b }
{
    match (a, b) {
        (None, b) => b,
        (Some(m), None) => Some(m),
        (Some(m), Some(n)) => Some(m.min(n)),
    }
}

// Where the earliest change of the units at some places begins.
fn earliest_of(places: &[Place]) -> Option<u64>
    ensures { result ≡ earliest places.now }
{
    match places {
        [] => None,
        [place, rest @ ..] => earlier(place.first(), earliest_of(rest)),
    }
}

// The branch of a unit.
fn serial_at(place: &Place) -> Option<Serial>
    ensures { option_map serial_of result ≡ option_map (λ (u : OpenUnit). u.serial) place.now }
{
    match place.branch() {
        Some(branch) => Some(branch.serial),
        None => None,
    }
}

// The branch of the first of the units at some places that changed a file.
fn first_to_change(places: &[Place], order: &[u8], file: u8) -> Option<Serial>
    requires { AllByRecursion (λ p. IsSome (unit_at places.now p)) order.now }
    ensures { option_map serial_of result ≡ first_to_change file (units_of places.now order.now) }
{
    match order {
        [] => None,
        [p, rest @ ..] => {
            let place = &places[*p as usize];
            if place.has_changed(file) {
                serial_at(place)
            } else {
                first_to_change(places, rest, file)
            }
        }
    }
}

// Whether a place has a unit of a branch.
fn is_of(place: &Place, serial: &Serial) -> bool
    ensures { IfSome place.now (λ u. result ≡ is_of (serial_of serial.now) u) }
{
    match place.branch() {
        Some(branch) => is_same(&serial.0, &branch.serial.0),
        None => false,
    }
}

// The first of some places in an order that has a unit of a branch.
fn place_of(places: &[Place], order: &[u8], serial: &Serial) -> Option<u8>
    requires { AllByRecursion (λ p. IsSome (unit_at places.now p)) order.now }
    ensures found { IfSome result (IsFirstPlace (is_of (serial_of serial.now)) places.now order.now) }
    ensures none { IfNone result (first_that (is_of (serial_of serial.now)) (units_of places.now order.now) ≡ None) }
{
    match order {
        [] => None,
        [p, rest @ ..] => {
            if is_of(&places[*p as usize], serial) {
                Some(*p)
            } else {
                place_of(places, rest, serial)
            }
        }
    }
}

// The first of some places in an order that has a unit that is not prepared.
fn active_place(places: &[Place], order: &[u8]) -> Option<u8>
    requires { AllByRecursion (λ p. IsSome (unit_at places.now p)) order.now }
    ensures found { IfSome result (IsFirstPlace is_active places.now order.now) }
    ensures none { IfNone result (first_that is_active (units_of places.now order.now) ≡ None) }
{
    match order {
        [] => None,
        [p, rest @ ..] => {
            if !places[*p as usize].is_prepared() {
                Some(*p)
            } else {
                active_place(places, rest)
            }
        }
    }
}

impl UnitTable {
    /// Without units. Room for 64 with 1,024 changes each is taken; an error where there is no memory for it.
    pub fn reserve(alloc: Global) -> Result<UnitTable, AllocError>
        ensures { IfOk result (λ t. t ≡ no_units) }
    {
        let mut places = Vec::with_capacity(alloc, MOST_UNITS)?;
        for _ in 0..MOST_UNITS {
            places.push(Place::reserve(alloc)?)?;
        }
        Ok(UnitTable {
            places,
            order: Vec::with_capacity(alloc, MOST_UNITS)?,
        })
    }

    // The first place without a unit.
    fn free_place(&self) -> Option<usize>
        ensures found { IfSome result (λ p. (p < branch_limit) × (unit_at self.now.places p ≡ None)) }
        ensures none { IfNone result ((p : ℕ) → p < branch_limit → IsSome (unit_at self.now.places p)) }
    {
        for (i, place) in self.places.iter().enumerate() {
            if !place.is_taken() {
                return Some(i);
            }
        }
        None
    }

    /// A unit of a branch is begun, at the place that is answered. None exactly where 64 are unsettled.
    pub fn begin(&mut self, tid: Tid, serial: Serial) -> Option<u8>
        ensures begun { IfSome result (λ p. self.new ≡ with_begun p (tid_of tid) (serial_of serial) self.old) }
        ensures free { IfSome result (λ p. (p < branch_limit) × (unit_at self.old.places p ≡ None)) }
        ensures last { IfSome result (λ p. (w : OpenUnit) → begun (with_unit p w self.new) ≡ begun self.old ++ w ∷ []) }
        ensures full { IfNone result ((length (begun self.old) ≡ branch_limit) × (self.new ≡ self.old)) }
    {
        match self.free_place() {
            None => None,
            Some(place) => {
                self.places[place].begin(tid, serial);
                self.order.push_reserved(place as u8);
                Some(place as u8)
            }
        }
    }

    /// The unit at a place is no more.
    pub fn remove(&mut self, place: u8)
        requires { IsSome (unit_at self.old.places place) }
        ensures { self.new ≡ without_place place self.old }
    {
        self.places[place as usize].clear();
        self.order.retain(|p| *p != place);
    }

    /// All units are no more.
    pub fn clear(&mut self)
        ensures { self.new ≡ no_units }
    {
        for i in 0..MOST_UNITS {
            self.places[i].clear();
        }
        self.order.clear();
    }

    /// The places that have a unit are those that stand in the order, each once.
    pub fn stand_in_order(&self)
        ensures { AreInOrder self.now.places self.now.order }
    {
        let _ = self.order.len();
    }

    /// The branch of the unit at a place.
    pub fn branch(&self, place: u8) -> Option<Branch>
        ensures tid { option_map (λ (b : BranchSaid). tid_of b.tid) result ≡ option_map (λ (u : OpenUnit). u.tid) (unit_at self.now.places place) }
        ensures serial { option_map (λ (b : BranchSaid). serial_of b.serial) result ≡ option_map (λ (u : OpenUnit). u.serial) (unit_at self.now.places place) }
    {
        if place < 64 {
            self.places[place as usize].branch()
        } else {
            None
        }
    }

    /// The place of the earliest begun unit of a branch.
    pub fn find(&self, serial: &Serial) -> Option<u8>
        ensures found { IfSome result (λ p. (p < branch_limit) × IsFirst (is_of (serial_of serial.now)) self.now p) }
        ensures none { IfNone result (first_that (is_of (serial_of serial.now)) (begun self.now) ≡ None) }
    {
        place_of(&self.places, &self.order, serial)
    }

    /// The place of the earliest begun unit that is not prepared.
    pub fn first_active(&self) -> Option<u8>
        ensures found { IfSome result (λ p. (p < branch_limit) × IsFirst is_active self.now p) }
        ensures none { IfNone result (first_that is_active (begun self.now) ≡ None) }
    {
        active_place(&self.places, &self.order)
    }

    /// Where the changes of the unit at a place begin in the journal, the oldest first.
    pub fn positions(&self, place: u8) -> &[u64]
        requires { place < branch_limit }
        ensures value { IfSome (unit_at self.now.places place) (λ u. result.now ≡ u.positions) }
        ensures few { length result.now ≤ change_limit }
        ensures files { IfSome (unit_at self.now.places place) (λ u. length u.files ≡ file_limit) }
    {
        self.places[place as usize].positions()
    }

    /// Notes one change more of the unit at a place: where its entry begins, and its file.
    pub fn note(&mut self, place: u8, position: u64, file: u8)
        requires file { file < file_limit }
        requires there { IsSome (unit_at self.old.places place) }
        requires room { IfSome (unit_at self.old.places place) (λ u. length u.positions < change_limit) }
        ensures noted { IfSome (unit_at self.old.places place) (λ u. self.new ≡ with_unit place (with_position position file u) self.old) }
        ensures changed { IfSome (unit_at self.old.places place) (λ u. has_changed (with_position position file u) file ≡ true) }
    {
        self.places[place as usize].note(position, file);
    }

    /// The unit at a place is a prepared one whose changes begin at these positions, the oldest first, and are of these files.
    pub fn take_back(&mut self, place: u8, positions: &[u64], files: &[bool; 64])
        requires there { IsSome (unit_at self.old.places place) }
        requires room { length positions.now ≤ change_limit }
        ensures { IfSome (unit_at self.old.places place) (λ u. self.new ≡ with_unit place (unit_back positions.now files.now u) self.old) }
    {
        self.places[place as usize].take_back(positions, files);
    }

    /// The unit at a place changed a file. No file has a number from 64 on.
    pub fn mark(&mut self, place: u8, file: u8)
        requires { IsSome (unit_at self.old.places place) }
        ensures { IfSome (unit_at self.old.places place) (λ u. self.new ≡ with_unit place (with_file file u) self.old) }
    {
        self.places[place as usize].mark(file);
    }

    /// Whether the unit at a place is prepared.
    pub fn is_prepared(&self, place: u8) -> bool
        requires { place < branch_limit }
        ensures { IfSome (unit_at self.now.places place) (λ u. result ≡ u.prepared) }
    {
        self.places[place as usize].is_prepared()
    }

    /// The unit at a place is prepared from now on.
    pub fn prepare(&mut self, place: u8)
        requires { IsSome (unit_at self.old.places place) }
        ensures { IfSome (unit_at self.old.places place) (λ u. self.new ≡ with_unit place (prepared_unit u) self.old) }
    {
        self.places[place as usize].prepare();
    }

    /// The branch of the earliest begun unit that changed a file.
    pub fn changed_by(&self, file: u8) -> Option<Serial>
        ensures { option_map serial_of result ≡ first_to_change file (begun self.now) }
    {
        first_to_change(&self.places, &self.order, file)
    }

    /// How many bytes of the journal units that changed something will still take: 96 each, and 48 once it is prepared.
    pub fn owed(&self) -> u64
        ensures value { result ≡ owed self.now.places }
        ensures few { result ≤ 96 * branch_limit }
    {
        owed_by(&self.places)
    }

    /// How many units changed a file.
    pub fn changers(&self, file: u8) -> u64
        ensures value { result ≡ changers file self.now.places }
        ensures few { result ≤ branch_limit }
    {
        changers_of(&self.places, file)
    }

    /// Of each file whether the unit at a place changed it.
    pub fn files(&self, place: u8) -> &[bool; 64]
        requires { place < branch_limit }
        ensures { IfSome (unit_at self.now.places place) (λ u. result.now ≡ u.files) }
    {
        self.places[place as usize].files()
    }

    /// Whether the unit at a place changed a file.
    pub fn has_changed(&self, place: u8, file: u8) -> bool
        requires { place < branch_limit }
        ensures { IfSome (unit_at self.now.places place) (λ u. result ≡ has_changed u file) }
    {
        self.places[place as usize].has_changed(file)
    }

    /// Where the earliest change of a unit begins. None where no unit changed anything.
    pub fn earliest(&self) -> Option<u64>
        ensures { result ≡ earliest self.now.places }
    {
        earliest_of(&self.places)
    }
}
