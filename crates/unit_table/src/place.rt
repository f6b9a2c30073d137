// A place of a table, for one unit.
ghost use Rattle.std.specs.Prelude.{◌≡◌, ◌≤◌, ◌<◌, IfOk, IfSome, IsSome, None, Some, is_some, length, option_map, true, vec_capacity};
ghost use Rattle.std.specs.Option.{option_and_then};
ghost use Rattle.vms_base.specs.vms_model.Limits.{change_limit, file_limit};
ghost use Rattle.vms_base.specs.Ids.{id_of, serial_of, tid_of};
ghost use Rattle.records_model.specs.History.{same_id};
ghost use Rattle.unit_table.specs.declared.place.Branch.{Branch};
ghost use Rattle.unit_table.specs.Units.{OpenUnit, first_of, has_changed, new_unit, one_changer, owed_for, prepared_unit, unit_back, with_file, with_position};

use std::alloc::{AllocError, Global};
use std::marker::Model;
use vms_base::{Id, Serial, Tid};

/// How many changes a unit may have.
pub const MOST_CHANGES: usize = 1_024;

/// The branch of a unit.
#[derive(Clone, Copy, Debug, Drop)]
pub struct Branch {
    pub tid: Tid,
    pub serial: Serial,
}

// Whether two ids are one.
pub(crate) fn is_same(a: &Id, b: &Id) -> bool
    ensures { result ≡ same_id (id_of a.now) (id_of b.now) }
{
    a.node.bytes() == b.node.bytes() && a.boot == b.boot && a.seq == b.seq
}

/// Room for a unit.
#[derive(Drop)]
pub(crate) struct Place {
    branch: Option<Branch>,
    // Where its changes begin in the journal, the oldest first.
    positions: Vec<u64>,
    files: [bool; 64],
    is_prepared: bool,
}

impl Model for Place {
    ghost use Rattle.std.specs.Prelude.{◌≡◌, ◌≤◌, Option, length, option_map, vec_capacity};
    ghost use Rattle.vms_base.specs.vms_model.Limits.{change_limit, file_limit};
    ghost use Rattle.vms_base.specs.Ids.{serial_of, tid_of};
    ghost use Rattle.unit_table.specs.Units.{OpenUnit};
    ghost use Rattle.unit_table.specs.declared.place.Branch.{Branch};

    ghost Value = { Option OpenUnit };

    ghost view = { λ p. option_map (λ (b : Branch). record { tid = tid_of b.tid; serial = serial_of b.serial; positions = p.positions.items; files = p.files; prepared = p.is_prepared }) p.branch };

    ghost invariant = { λ p. (change_limit ≤ vec_capacity p.positions) × (length p.positions.items ≤ change_limit) × (length p.files ≡ file_limit) };
}

// Lists these positions in place of others.
fn fill(list: &mut Vec<u64>, positions: &[u64])
    requires few { length positions.now ≤ change_limit }
    requires room { change_limit ≤ vec_capacity list.old }
    ensures list { list.new.items ≡ positions.now }
    ensures room { change_limit ≤ vec_capacity list.new }
{
    list.clear();
    for i in 0..positions.len() {
        list.push_reserved(positions[i]);
    }
}

impl Place {
    /// Without a unit, and with room for its changes.
    pub fn reserve(alloc: Global) -> Result<Place, AllocError>
        ensures { IfOk result (λ p. p ≡ None) }
    {
        Ok(Place {
            branch: None,
            positions: Vec::with_capacity(alloc, MOST_CHANGES)?,
            files: [false; 64],
            is_prepared: false,
        })
    }

    /// Has a unit from now on, which has changed nothing.
    pub fn begin(&mut self, tid: Tid, serial: Serial)
        ensures { self.new ≡ Some (new_unit (tid_of tid) (serial_of serial)) }
    {
        self.branch = Some(Branch { tid, serial });
        self.positions.clear();
        self.files = [false; 64];
        self.is_prepared = false;
    }

    /// Has none any more.
    pub fn clear(&mut self)
        ensures { self.new ≡ None }
    {
        self.branch = None;
    }

    /// Whether it has a unit.
    pub fn is_taken(&self) -> bool
        ensures { result ≡ is_some self.now }
    {
        self.branch.is_some()
    }

    /// The branch of its unit.
    pub fn branch(&self) -> Option<Branch>
        ensures tid { option_map (λ (b : Branch). tid_of b.tid) result ≡ option_map (λ (u : OpenUnit). u.tid) self.now }
        ensures serial { option_map (λ (b : Branch). serial_of b.serial) result ≡ option_map (λ (u : OpenUnit). u.serial) self.now }
    {
        self.branch
    }

    /// Where the changes of its unit begin.
    pub fn positions(&self) -> &[u64]
        ensures value { IfSome self.now (λ u. result.now ≡ u.positions) }
        ensures few { length result.now ≤ change_limit }
        ensures files { IfSome self.now (λ u. length u.files ≡ file_limit) }
    {
        &self.positions
    }

    /// Whether its unit changed a file.
    pub fn has_changed(&self, file: u8) -> bool
        ensures { IfSome self.now (λ u. result ≡ has_changed u file) }
    {
        file < 64 && self.files[file as usize]
    }

    /// How many units it has that changed a file: one or none.
    pub fn changers(&self, file: u8) -> u64
        ensures value { result ≡ one_changer file self.now }
        ensures few { result ≤ 1 }
    {
        if self.is_taken() && self.has_changed(file) {
            1
        } else {
            0
        }
    }

    /// Of each file whether its unit changed it.
    pub fn files(&self) -> &[bool; 64]
        ensures { IfSome self.now (λ u. result.now ≡ u.files) }
    {
        &self.files
    }

    /// Where the first change of its unit begins.
    pub fn first(&self) -> Option<u64>
        ensures { result ≡ option_and_then (λ (u : OpenUnit). first_of u.positions) self.now }
    {
        if !self.is_taken() {
            return None;
        }
        self.positions.first().copied()
    }

    /// How many bytes of the journal its unit will still take.
    pub fn owed(&self) -> u64
        ensures value { result ≡ elim self.now [ None ↦ 0 | Some u ↦ owed_for u.prepared u.positions ] }
        ensures few { result ≤ 96 }
    {
        if self.first().is_none() {
            return 0;
        }
        if self.is_prepared { 48 } else { 96 }
    }

    /// Whether its unit is prepared.
    pub fn is_prepared(&self) -> bool
        ensures { IfSome self.now (λ u. result ≡ u.prepared) }
    {
        self.is_prepared
    }

    /// Its unit is prepared from now on.
    pub fn prepare(&mut self)
        ensures { self.new ≡ option_map prepared_unit self.old }
    {
        self.is_prepared = true;
    }

    /// Its unit is a prepared one whose changes begin at these positions, and are of these files.
    pub fn take_back(&mut self, positions: &[u64], files: &[bool; 64])
        requires room { length positions.now ≤ change_limit }
        ensures { self.new ≡ option_map (unit_back positions.now files.now) self.old }
    {
        fill(&mut self.positions, positions);
        self.files = *files;
        self.prepare();
    }

    /// Its unit changed a file.
    pub fn mark(&mut self, file: u8)
        ensures { self.new ≡ option_map (with_file file) self.old }
    {
        let number = file as usize;
        if number < 64 {
            self.files[number] = true;
        }
    }

    /// Notes one change more.
    pub fn note(&mut self, position: u64, file: u8)
        requires file { file < file_limit }
        requires there { IsSome self.old }
        requires room { IfSome self.old (λ u. length u.positions < change_limit) }
        ensures noted { self.new ≡ option_map (with_position position file) self.old }
        ensures changed { IfSome self.old (λ u. has_changed (with_position position file u) file ≡ true) }
    {
        self.positions.push_reserved(position);
        self.files[file as usize] = true;
    }
}
