//! The log of a node, as its slots.
ghost use Rattle.std.specs.Prelude.{◌≡◌, ◌≤◌, ◌<◌, ◌+◌, ◌↔◌, ℕ, true, false, [], length, map, Some, IsSome, IfOk, IfSome, IfNone, OnOk, OnErr, IsErr, option_copied, vec_capacity, vec_len};
ghost use Rattle.vms_base.specs.vms_model.Limits.{slot_limit};
ghost use Rattle.vms_base.specs.vms_model.Blocks.{log_start};
ghost use Rattle.vms_base.specs.Ids.{serial_of};
ghost use Rattle.block_disk.specs.Blocks.{block_at};
ghost use Rattle.careful_write.specs.Down.{Counts};
ghost use Rattle.log_laws.specs.commit_protocol.Messages.{LogRecord};
ghost use Rattle.log_laws.specs.commit_protocol.Table.{record_serials};
ghost use Rattle.log_laws.specs.commit_protocol.World.{In};
ghost use Rattle.log_laws.specs.commit_protocol.Agreement.{Distinct};
ghost use Rattle.log_laws.specs.Slots.{Slots, committed_of, prepared_of, records_in, has_slot, has_free, put_in, forgotten};
ghost use Rattle.tm_types.specs.Parts.{log_record_of};
ghost use Rattle.lmcp_log.specs.Slot.{slot_block, HasForm, IsRecord};
ghost use Rattle.lmcp_log.specs.Log.{slot_of, slot_at, is_of, is_free, record_with, with_few_prepared, IsFirst, IsReading, StagesSlot, OnlyRead};
ghost use Rattle.lmcp_log.specs.Keeping.{Keeps, AreApart};

use crate::listing::{list_records, pass_over};
use crate::slot::{begins_free, read_slot, write_slot};
use block_disk::Disk;
use careful_write::{Down, Store};
use std::alloc::{AllocError, Global};
use std::marker::Model;
use thiserror::Error;
use tm_types::same_id;
use vms_base::{LogRec, Serial};
use volume::Volume;

/// The number of the first slot's block.
const FIRST_SLOT: u32 = 584;

/// So many slots a log has at the most.
const MAX_SLOTS: usize = 512;

/// Why a record was not put into the log.
#[derive(Clone, Copy, Debug, PartialEq, Eq, Error)]
pub enum LogErr {
    /// No slot is free.
    #[error("no log slot is free")]
    Full,
}

/// The transaction log of a node. It keeps the records of its slots, so that only `load` reads the disk. That they are what the content tells is a
/// condition and a promise of the calls that take a store.
#[derive(Drop)]
pub struct Log {
    slots: Vec<Option<LogRec>>,
}

impl Model for Log {
    ghost use Rattle.std.specs.Prelude.{◌≤◌, length, map, vec_capacity};
    ghost use Rattle.vms_base.specs.vms_model.Limits.{slot_limit};
    ghost use Rattle.log_laws.specs.Slots.{Slots};
    ghost use Rattle.lmcp_log.specs.Log.{slot_of};

    ghost Value = { Slots };

    ghost view = { λ l. map slot_of l.slots.items };

    ghost invariant = { λ l. (slot_limit ≤ vec_capacity l.slots) × (length l.slots.items ≤ slot_limit) };
}

fn has_serial(slot: &Option<LogRec>, serial: &Serial) -> bool
    ensures { result ≡ is_of (serial_of serial.now) (slot_of slot.now) }
{
    match slot {
        Some(r) => same_id(&r.serial.0, &serial.0),
        None => false,
    }
}

// The slot of a serial.
fn place_of(slots: &[Option<LogRec>], serial: &Serial) -> Option<usize>
    ensures found { IfSome result (IsFirst (is_of (serial_of serial.now)) (map slot_of slots.now)) }
    ensures none { IfNone result (has_slot (serial_of serial.now) (map slot_of slots.now) ≡ false) }
{
    for (i, slot) in slots.iter().enumerate() {
        if has_serial(slot, serial) {
            return Some(i);
        }
    }
    None
}

// The lowest free slot.
fn free_place(slots: &[Option<LogRec>]) -> Option<usize>
    ensures found { IfSome result (IsFirst is_free (map slot_of slots.now)) }
    ensures none { IfNone result (has_free (map slot_of slots.now) ≡ false) }
{
    for (i, slot) in slots.iter().enumerate() {
        if slot.is_none() {
            return Some(i);
        }
    }
    None
}

// The record, unless one of these slots has its serial.
fn unless_there(slots: &[Option<LogRec>], r: LogRec) -> Option<LogRec>
    ensures { (q : LogRecord) → (slot_of result ≡ Some q) ↔ ((log_record_of r ≡ q) × (has_slot q.serial (map slot_of slots.now) ≡ false)) }
{
    match place_of(slots, &r.serial) {
        None => Some(r),
        Some(_) => None,
    }
}

// What a block that does not begin as a free slot's is read as, behind these slots.
fn entry_told(slots: &[Option<LogRec>], block: &[u8; 512]) -> Option<LogRec>
    ensures { (r : LogRecord) → (slot_of result ≡ Some r) ↔ (IsRecord r × (slot_block r ≡ block.now) × (has_slot r.serial (map slot_of slots.now) ≡ false)) }
{
    match read_slot(block) {
        Some(r) => unless_there(slots, r),
        None => None,
    }
}

// What a slot's block is read as, behind these slots. Most slots are free: these are told here, without the room that a record takes.
fn entry_in(slots: &[Option<LogRec>], block: &[u8; 512]) -> Option<LogRec>
    ensures { (r : LogRecord) → (slot_of result ≡ Some r) ↔ (IsRecord r × (slot_block r ≡ block.now) × (has_slot r.serial (map slot_of slots.now) ≡ false)) }
{
    if begins_free(block) {
        return None;
    }
    entry_told(slots, block)
}

// Reads so many slots behind none.
fn load_slots<D: Disk>(
    store: &mut Store<D>,
    count: u32,
    slots: &mut Vec<Option<LogRec>>,
) -> Result<(), Down>
    requires size { log_start + count ≤ store.old.disk.size }
    requires count { count ≤ slot_limit }
    requires room { slot_limit ≤ vec_capacity slots.old }
    ensures count { OnOk result (length slots.new.items ≡ count) }
    ensures few { length slots.new.items ≤ slot_limit }
    ensures room { slot_limit ≤ vec_capacity slots.new }
    ensures reading { OnOk result (IfSome store.old.current (IsReading (map slot_of slots.new.items))) }
    ensures records { (r : LogRecord) → In r (records_in (map slot_of slots.new.items)) → IsRecord r }
    ensures distinct { Distinct (record_serials (records_in (map slot_of slots.new.items))) }
    ensures kept { OnOk result (IfSome store.old.current (λ c. AreApart count c → Keeps (map slot_of slots.new.items) c)) }
    ensures again { (ss : Slots) → length ss ≡ count → OnOk result (IfSome store.old.current (λ c. Keeps ss c → map slot_of slots.new.items ≡ ss)) }
    ensures store { OnlyRead store.old store.new }
    ensures counts { Counts result store.old.disk store.new.disk }
{
    slots.clear();
    for i in 0..count {
        let mut block = [0; 512];
        store.read(FIRST_SLOT + i, &mut block)?;
        let entry = entry_in(slots, &block);
        slots.push_reserved(entry);
    }
    Ok(())
}

impl Log {
    /// A log without slots, with room for all that a volume may have.
    pub fn reserve(alloc: Global) -> Result<Log, AllocError>
        ensures { IfOk result (λ log. log ≡ []) }
    {
        Ok(Log {
            slots: Vec::with_capacity(alloc, MAX_SLOTS)?,
        })
    }

    /// Reads the slots of a volume. After an error the log has the first of them.
    pub fn load<D: Disk>(vol: &mut Volume<D>, log: &mut Log) -> Result<(), Down>
        requires slots { vol.old.catalog.home.slots ≤ slot_limit }
        requires size { log_start + vol.old.catalog.home.slots ≤ vol.old.store.disk.size }
        ensures count { OnOk result (length log.new ≡ vol.old.catalog.home.slots) }
        ensures reading { OnOk result (IfSome vol.old.store.current (IsReading log.new)) }
        ensures records { (r : LogRecord) → In r (records_in log.new) → IsRecord r }
        ensures distinct { Distinct (record_serials (records_in log.new)) }
        ensures kept { OnOk result (IfSome vol.old.store.current (λ c. AreApart vol.old.catalog.home.slots c → Keeps log.new c)) }
        ensures again { (ss : Slots) → length ss ≡ vol.old.catalog.home.slots → OnOk result (IfSome vol.old.store.current (λ c. Keeps ss c → log.new ≡ ss)) }
        ensures catalog { vol.new.catalog ≡ vol.old.catalog }
        ensures store { OnlyRead vol.old.store vol.new.store }
        ensures counts { Counts result vol.old.store.disk vol.new.store.disk }
    {
        let count = vol.home().slots;
        load_slots(vol.store(), count, &mut log.slots)
    }

    // The slot of a serial, else the lowest free one.
    fn place_for(&self, serial: &Serial) -> Option<usize>
        ensures there { has_slot (serial_of serial.now) self.now ≡ true → IfSome result (IsFirst (is_of (serial_of serial.now)) self.now) }
        ensures free { has_slot (serial_of serial.now) self.now ≡ false → IfSome result (IsFirst is_free self.now) }
        ensures none { IfNone result ((has_slot (serial_of serial.now) self.now ≡ false) × (has_free self.now ≡ false)) }
        ensures few { length self.now ≤ slot_limit }
    {
        match place_of(&self.slots, serial) {
            Some(i) => Some(i),
            None => free_place(&self.slots),
        }
    }

    /// Stages a record in the slot of its serial, else in the lowest free one. Full exactly where there is neither; then nothing is staged.
    pub fn put<D: Disk>(&mut self, store: &mut Store<D>, r: &LogRec) -> Result<(), LogErr>
        requires form { HasForm (log_record_of r.now).kind (log_record_of r.now).waiting (log_record_of r.now).rms }
        requires room { length store.old.touched ≤ 480 }
        requires size { log_start + length self.old ≤ store.old.disk.size }
        ensures slots { OnOk result (self.new ≡ put_in (log_record_of r.now) self.old) }
        ensures staged { OnOk result (StagesSlot self.old self.new store.old store.new (Some (log_record_of r.now))) }
        ensures keeps { OnOk result (IfSome store.old.current (Keeps self.old) → IfSome store.new.current (Keeps self.new)) }
        ensures full { IsErr result ↔ ((has_slot (log_record_of r.now).serial self.old ≡ false) × (has_free self.old ≡ false)) }
        ensures err { OnErr result ((self.new ≡ self.old) × (store.new ≡ store.old)) }
    {
        let Some(place) = self.place_for(&r.serial) else {
            return Err(LogErr::Full);
        };
        let mut block = [0; 512];
        write_slot(r, &mut block);
        let _ = store.stage(FIRST_SLOT + place as u32, &block);
        self.slots[place] = Some(r.copy());
        Ok(())
    }

    /// Stages zeros over the slot of a serial, which is free from then on. Where no slot has it nothing is staged.
    pub fn forget<D: Disk>(&mut self, store: &mut Store<D>, serial: Serial)
        requires room { length store.old.touched ≤ 480 }
        requires size { log_start + length self.old ≤ store.old.disk.size }
        ensures slots { self.new ≡ forgotten (serial_of serial) self.old }
        ensures staged { has_slot (serial_of serial) self.old ≡ true → StagesSlot self.old self.new store.old store.new None }
        ensures nothing { has_slot (serial_of serial) self.old ≡ false → store.new ≡ store.old }
        ensures keeps { IfSome store.old.current (Keeps self.old) → IfSome store.new.current (Keeps self.new) }
    {
        if let Some(place) = place_of(&self.slots, &serial) {
            let _ = store.stage(FIRST_SLOT + place as u32, &[0; 512]);
            self.slots[place] = None;
        }
    }

    /// The record of a serial.
    pub fn find(&self, serial: Serial) -> Option<&LogRec>
        ensures { slot_of (option_copied result) ≡ record_with (serial_of serial) self.now }
    {
        match place_of(&self.slots, &serial) {
            Some(i) => self.slots[i].as_ref(),
            None => None,
        }
    }

    /// The record in a slot, from 0 on. None exactly where that slot has none.
    pub fn at(&self, slot: u32) -> Option<&LogRec>
        ensures { slot_of (option_copied result) ≡ slot_at self.now slot }
    {
        if (slot as usize) < self.slots.len() {
            self.slots[slot as usize].as_ref()
        } else {
            None
        }
    }

    /// How many slots it has.
    pub fn slots(&self) -> usize
        ensures value { result ≡ length self.now }
        ensures few { result ≤ slot_limit }
    {
        let slots: &[Option<LogRec>] = &self.slots;
        slots.len()
    }

    /// How many records it has.
    pub fn live(&self) -> u32
        ensures { result ≡ length (records_in self.now) }
    {
        let mut live = 0;
        for slot in &self.slots {
            if slot.is_some() {
                live += 1;
            }
        }
        live
    }

    /// The slots that have a prepared record behind so many of them are read as free. Nothing is staged.
    pub fn pass_over(&mut self, most: usize)
        ensures slots { self.new ≡ with_few_prepared most self.old }
        ensures count { length self.new ≡ length self.old }
        ensures few { length (prepared_of (records_in self.new)) ≤ most }
        ensures records { (r : LogRecord) → In r (records_in self.new) → In r (records_in self.old) }
        ensures distinct { Distinct (record_serials (records_in self.old)) → Distinct (record_serials (records_in self.new)) }
        ensures same { length (prepared_of (records_in self.old)) ≤ most → self.new ≡ self.old }
    {
        pass_over(&mut self.slots, most);
    }

    /// Lists the prepared records and the committed ones, each in the order of the slots, in place of others.
    pub fn list(&self, prepared: &mut Vec<LogRec>, committed: &mut Vec<LogRec>)
        requires prepared { length (prepared_of (records_in self.now)) ≤ vec_capacity prepared.old }
        requires committed { slot_limit ≤ vec_capacity committed.old }
        ensures prepared { map log_record_of prepared.new.items ≡ prepared_of (records_in self.now) }
        ensures committed { map log_record_of committed.new.items ≡ committed_of (records_in self.now) }
        ensures prepared_room { vec_capacity prepared.old ≤ vec_capacity prepared.new }
        ensures committed_room { vec_capacity committed.old ≤ vec_capacity committed.new }
    {
        prepared.clear();
        committed.clear();
        list_records(&self.slots, prepared, committed);
    }
}
