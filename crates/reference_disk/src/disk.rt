// What a node's disk has, and what acts make of it.
ghost use Rattle.std.specs.Prelude.{◌≡◌, ◌+◌, ◌<◌, ◌≤◌, ◌^◌, ◌++◌, ℕ, List, [], ◌∷◌, Some, None, map, option_map, length, OnOk, IfOk};
ghost use Rattle.vms_model.specs.Limits.{slot_limit};
ghost use Rattle.script_lang.specs.Statements.{form_of, recovery_of, setting_of};
ghost use Rattle.reference_index.specs.script_model.Statements as said;
ghost use Rattle.reference_index.specs.transcript_model.Lines as model;
ghost use Rattle.reference_index.specs.unit_laws.Journal.{end_of};
ghost use Rattle.log_laws.specs.commit_protocol.Messages.{LogRecord};
ghost use Rattle.log_laws.specs.commit_protocol.Table.{Branch, Prepares, holding as managers_holding};
ghost use Rattle.log_laws.specs.Slots as log;
ghost use Rattle.reference_index.specs.run_model.Answers as answers;
ghost use Rattle.reference_index.specs.run_model.World as world;
ghost use Rattle.reference_index.specs.run_model.Rows.{zeros};
ghost use Rattle.reference_index.specs.run_model.Steps.{lines_of_rows, node_after_rows};
ghost use Rattle.vms_base.specs.Ids.{id_of};
ghost use Rattle.tm_types.specs.Parts.{log_record_of};
ghost use Rattle.reference_index.specs.Standing.{key_of, changes_of, locks_of};
ghost use Rattle.reference_index.specs.run_model.Locks.{is_locked};
ghost use Rattle.std.specs.FinMap.{entries};
ghost use Rattle.reference_world.specs.Standing.{branch_key_of, settlement_of, file_of, line_of, side_of};
ghost use Rattle.reference_world.specs.Directories.{file_change_of, IsFileChange};
ghost use Rattle.reference_units.specs.Entries.{journal_of};
ghost use Rattle.reference_records.specs.Operations.{asked_of};
ghost use Rattle.reference_disk.specs.Recovering.{IsGiven};
ghost use Rattle.reference_disk.specs.Disks.{durable_of, node_on, disk_node, after_creation, holding, logged_tid, slots_of};

use crate::files::{Told, blocks_marked, mark_for, new_file, show_records, told_of};
use crate::forms::blocks_for;
use crate::log::{empty_log, forgotten, tid_of, with_record};
use reference_index::{Change, Lock};
use reference_records::Asked;
use reference_recovery::{Load, images_shown, journal_at, recovered};
use reference_units::{
    Journal, empty_journal, journal_shown, with_changes, with_prepared, with_settled,
    without_settled,
};
use reference_world::{
    BranchKey, File, FileChange, Line, Settlement, Side, Volume, empty_places, find_file,
    free_place, one, settled_files, with_file, written,
};
use script_lang::{Form, Recovery, Setting};
use std::alloc::{AllocError, Global};
use std::mem::replace;
use vms_base::{FileName, Id, LogKind, LogRec, RmList, Serial, SerialList, Tid};

/// What a node's disk has, which outlasts the node's fall: the volume, its log and its journal's blocks; how often the node was booted, the greatest moment and
/// the last settlement; the journal of recovery units; and the directory, a place for each file number.
#[derive(Drop)]
pub struct Durable {
    pub volume: Volume,
    pub log: Vec<Option<LogRec>>,
    pub journal: u32,
    pub boot: u32,
    pub greatest: u64,
    pub last: Option<Settlement>,
    pub units: Journal,
    pub directory: Vec<Option<File>>,
}

impl Durable {
    /// A disk of zeros.
    pub fn zeros(alloc: Global) -> Durable
        ensures { durable_of result ≡ (zeros [] 0).durable }
    {
        Durable {
            volume: Volume::Faulty {
                condition: 1,
                block: 518,
            },
            log: Vec::new(alloc),
            journal: 0,
            boot: 0,
            greatest: 0,
            last: None,
            units: empty_journal(alloc),
            directory: Vec::new(alloc),
        }
    }

    /// INIT.
    pub fn make(&mut self, alloc: Global, slots: u32, journal: u32) -> Result<Vec<Line>, AllocError>
        ensures makes { OnOk result (durable_of self.new ≡ world.made_volume slots journal) }
        ensures shows { IfOk result (λ lines. map line_of lines.items ≡ model.Normal ∷ []) }
    {
        self.directory = empty_places(alloc, 64)?;
        self.volume = Volume::Sound;
        self.log = empty_log(alloc, slots)?;
        self.journal = journal;
        self.boot = 0;
        self.greatest = 0;
        self.last = None;
        self.units = empty_journal(alloc);
        one(alloc, Line::Normal)
    }

    /// CREATE.
    pub fn create(
        &mut self,
        alloc: Global,
        blocks: u32,
        name: FileName,
        bucket: u32,
        size: u32,
        form: Form,
    ) -> Result<Vec<Line>, AllocError>
        requires { length self.old.log.items ≤ slot_limit }
        ensures creates { OnOk result (durable_of self.new ≡ (after_creation name blocks bucket size (form_of form) (durable_of self.old)).durable) }
        ensures shows { IfOk result (λ lines. map line_of lines.items ≡ model.Normal ∷ []) }
    {
        let need = blocks_for(bucket, size, form);
        let lines = one(alloc, Line::Normal)?;
        let Some(place) = free_place(self.directory.as_slice()) else {
            return Ok(lines);
        };
        let Some(start) = self.lowest_free(blocks, need) else {
            return Ok(lines);
        };
        let file = new_file(alloc, name, bucket, size, form, start, self.greatest)?;
        self.place(place, file);
        Ok(lines)
    }

    // A new file takes a place of the directory.
    fn place(&mut self, place: usize, file: File)
        requires { place < length self.old.directory.items }
        ensures { durable_of self.new ≡ world.durable_after (world.Creates place (file_of file)) world.nothing_volatile (durable_of self.old) }
    {
        self.directory[place] = Some(file);
    }

    // A change of the file of this name.
    fn with_change(
        &mut self,
        alloc: Global,
        locks: &[Lock],
        name: &FileName,
        change: FileChange,
    ) -> Result<(), AllocError>
        requires { IsFileChange change }
        ensures { OnOk result (durable_of self.new ≡ record (durable_of self.old) { directory = world.with_file name.now (file_change_of (is_locked (locks_of locks.now) name.now) change) (durable_of self.old).directory }) }
    {
        let files = replace(&mut self.directory, Vec::new(alloc));
        self.directory = with_file(alloc, files, locks, name, change)?;
        Ok(())
    }

    // Where the lowest run of so many free blocks begins; where there is none, that is anywhere.
    fn start_for(&self, blocks: u32, need: u64) -> u64
        requires { length self.now.log.items ≤ slot_limit }
        ensures { result ≡ answers.start_of (world.lowest_free (node_on [] blocks (durable_of self.now)) need) }
    {
        match self.lowest_free(blocks, need) {
            Some(start) => start,
            None => 0,
        }
    }

    /// SET_FILE, on a disk of so many blocks.
    pub fn set_file(
        &mut self,
        alloc: Global,
        blocks: u32,
        locks: &[Lock],
        name: &FileName,
        setting: Setting,
    ) -> Result<Vec<Line>, AllocError>
        requires { length self.old.log.items ≤ slot_limit }
        ensures marks { OnOk result (durable_of self.new ≡ (node_after_rows (answers.sets (node_on [] blocks (durable_of self.old)) name.now (setting_of setting)) (node_on [] blocks (durable_of self.old))).durable) }
        ensures shows { IfOk result (λ lines. map line_of lines.items ≡ model.Normal ∷ []) }
    {
        let start = self.start_for(blocks, blocks_marked(setting));
        let mark = FileChange::Mark(mark_for(setting, start), self.greatest);
        self.with_change(alloc, locks, name, mark)?;
        one(alloc, Line::Normal)
    }

    /// BACKUP, on a disk of so many blocks.
    pub fn backup(
        &mut self,
        alloc: Global,
        blocks: u32,
        locks: &[Lock],
        name: &FileName,
    ) -> Result<Vec<Line>, AllocError>
        requires { length self.old.log.items ≤ slot_limit }
        ensures saves { let n = node_on [] blocks (durable_of self.old) in OnOk result (durable_of self.new ≡ (node_after_rows (answers.to_file n name.now (λ f. answers.on_free n (answers.blocks_of f) (world.Saves name.now))) n).durable) }
        ensures shows { let n = node_on [] blocks (durable_of self.old) in IfOk result (λ lines. map line_of lines.items ≡ answers.file_told n name.now (λ f. model.NormalSave f.carried.after.end n.durable.greatest) ∷ []) }
    {
        match self.blocks_taken(name)? {
            None => one(alloc, Line::Normal),
            Some(need) => self.save_in(alloc, blocks, locks, name, need),
        }
    }

    // The file of this name is saved in so many blocks, which are those of its buckets.
    fn save_in(
        &mut self,
        alloc: Global,
        blocks: u32,
        locks: &[Lock],
        name: &FileName,
        need: u64,
    ) -> Result<Vec<Line>, AllocError>
        requires slots { length self.old.log.items ≤ slot_limit }
        requires need { Some need ≡ option_map answers.blocks_of (world.find_file name.now (durable_of self.old).directory) }
        ensures saves { let n = node_on [] blocks (durable_of self.old) in OnOk result (durable_of self.new ≡ (node_after_rows (answers.to_file n name.now (λ f. answers.on_free n (answers.blocks_of f) (world.Saves name.now))) n).durable) }
        ensures shows { let n = node_on [] blocks (durable_of self.old) in IfOk result (λ lines. map line_of lines.items ≡ answers.file_told n name.now (λ f. model.NormalSave f.carried.after.end n.durable.greatest) ∷ []) }
    {
        let end = self.after_end(name);
        let start = self.start_for(blocks, need);
        let moment = written(self.greatest)?;
        let lines = one(alloc, Line::NormalSave(end, moment))?;
        let save = FileChange::Save(start, self.greatest);
        self.with_change(alloc, locks, name, save)?;
        Ok(lines)
    }

    /// What a recovery gives the file of this name, where there is one.
    pub fn recovered_at(
        &self,
        alloc: Global,
        name: &FileName,
        way: &Recovery,
    ) -> Result<Option<Load>, AllocError>
        ensures { IfOk result (λ given. IsGiven (recovery_of way.now) (world.find_file name.now (durable_of self.now).directory) given) }
    {
        match find_file(self.directory.as_slice(), name) {
            None => Ok(None),
            Some(f) => Ok(Some(recovered(alloc, f, way)?)),
        }
    }

    /// RECOVER, on a disk of so many blocks.
    pub fn recover(
        &mut self,
        alloc: Global,
        blocks: u32,
        locks: &[Lock],
        name: &FileName,
        way: &Recovery,
    ) -> Result<Vec<Line>, AllocError>
        requires { length self.old.log.items ≤ slot_limit }
        ensures recovers { let n = node_on [] blocks (durable_of self.old) in OnOk result (durable_of self.new ≡ (node_after_rows (answers.to_file n name.now (answers.recovers n name.now (recovery_of way.now))) n).durable) }
        ensures shows { let n = node_on [] blocks (durable_of self.old) in IfOk result (λ lines. map line_of lines.items ≡ answers.file_told n name.now (λ f. model.NormalCount (length (entries (answers.records_recovered (recovery_of way.now) f)))) ∷ []) }
    {
        match self.recovered_at(alloc, name, way)? {
            None => one(alloc, Line::Normal),
            Some(given) => self.load_in(alloc, blocks, locks, name, way, given),
        }
    }

    // The file of this name gets what a recovery gives it.
    fn load_in(
        &mut self,
        alloc: Global,
        blocks: u32,
        locks: &[Lock],
        name: &FileName,
        way: &Recovery,
        given: Load,
    ) -> Result<Vec<Line>, AllocError>
        requires slots { length self.old.log.items ≤ slot_limit }
        requires given { IsGiven (recovery_of way.now) (world.find_file name.now (durable_of self.old).directory) (Some given) }
        ensures recovers { let n = node_on [] blocks (durable_of self.old) in OnOk result (durable_of self.new ≡ (node_after_rows (answers.to_file n name.now (answers.recovers n name.now (recovery_of way.now))) n).durable) }
        ensures shows { let n = node_on [] blocks (durable_of self.old) in IfOk result (λ lines. map line_of lines.items ≡ answers.file_told n name.now (λ f. model.NormalCount (length (entries (answers.records_recovered (recovery_of way.now) f)))) ∷ []) }
    {
        let start = self.start_for(blocks, given.blocks);
        let lines = one(alloc, Line::NormalCount(given.rows.len() as u64))?;
        let change = FileChange::Recover(start, given.buckets, given.rows, self.greatest);
        self.with_change(alloc, locks, name, change)?;
        Ok(lines)
    }

    /// DUMP_JOURNAL of a file's journal of images.
    pub fn dump_images(
        &self,
        alloc: Global,
        name: &FileName,
        side: Side,
    ) -> Result<Vec<Line>, AllocError>
        ensures { let n = disk_node self.now in IfOk result (λ lines. map line_of lines.items ≡
            lines_of_rows (answers.to_file n name.now (λ f. map answers.shown_line (answers.image_lines name.now (answers.journal_at (side_of side) f).entries)))
            ++ answers.file_told n name.now (λ f. model.NormalSpan (answers.journal_at (side_of side) f).first (answers.journal_at (side_of side) f).end) ∷ []) }
    {
        match find_file(self.directory.as_slice(), name) {
            None => one(alloc, Line::Normal),
            Some(f) => images_shown(alloc, name, journal_at(f, side)),
        }
    }

    /// What an operation changes, and what it is answered.
    pub fn asked_told(
        &self,
        alloc: Global,
        name: &FileName,
        asked: Asked<'_>,
    ) -> Result<Told, AllocError>
        ensures changes { IfOk result (λ t. changes_of t.changes.items ≡ answers.changes_at (disk_node self.now) name.now (asked_of asked.entry)) }
        ensures keys { IfOk result (λ t. map key_of t.keys.items ≡ answers.keys_at (disk_node self.now) name.now (asked_of asked.entry)) }
        ensures line { IfOk result (λ t. line_of t.line ≡ answers.operation_told (disk_node self.now) name.now (asked_of asked.entry)) }
    {
        match find_file(self.directory.as_slice(), name) {
            None => Ok(Told {
                changes: Vec::new(alloc),
                keys: Vec::new(alloc),
                line: Line::RecordNormal,
            }),
            Some(f) => told_of(alloc, f, asked),
        }
    }

    /// DUMP.
    pub fn dump(&self, alloc: Global, name: &FileName) -> Result<Vec<Line>, AllocError>
        ensures { let es = answers.records_of (disk_node self.now) name.now in IfOk result (λ lines. map line_of lines.items ≡ lines_of_rows (map answers.shown_record es) ++ model.NormalCount (length es) ∷ []) }
    {
        match find_file(self.directory.as_slice(), name) {
            None => one(alloc, Line::NormalCount(0)),
            Some(f) => show_records(alloc, f),
        }
    }

    /// DUMP_JOURNAL RU.
    pub fn dump_journal(&self, alloc: Global) -> Result<Vec<Line>, AllocError>
        requires { end_of (journal_of self.now.units) < 2 ^ 64 }
        ensures { let j = (durable_of self.now).units in IfOk result (λ lines. map line_of lines.items ≡ answers.entry_lines j.first j.entries ++ model.NormalSpan j.first (end_of j) ∷ []) }
    {
        journal_shown(alloc, &self.units)
    }

    /// A branch makes changes of a file, where these locks are held.
    pub fn change(
        &mut self,
        alloc: Global,
        locks: &[Lock],
        branch: &BranchKey,
        name: &FileName,
        changes: Vec<Change>,
    ) -> Result<(), AllocError>
        ensures { OnOk result (durable_of self.new ≡ world.durable_after (world.Changes (id_of branch.now.tid) (id_of branch.now.serial) name.now (changes_of changes.items) []) (holding (locks_of locks.now)) (durable_of self.old)) }
    {
        let units = replace(&mut self.units, empty_journal(alloc));
        self.units = with_changes(alloc, units, branch, *name, changes.as_slice())?;
        self.with_change(alloc, locks, name, FileChange::Set(*branch, changes))
    }

    /// Changes of a branch of its own, which is committed at once.
    pub fn change_directly(
        &mut self,
        alloc: Global,
        locks: &[Lock],
        name: &FileName,
        changes: Vec<Change>,
        s: &Settlement,
    ) -> Result<(), AllocError>
        requires committed { s.now.reason ≡ None }
        requires end { end_of (journal_of self.old.units) < 2 ^ 64 }
        ensures { OnOk result (durable_of self.new ≡ world.durable_after (world.Directs name.now (changes_of changes.items) (settlement_of s.now)) (holding (locks_of locks.now)) (durable_of self.old)) }
    {
        let branch = BranchKey {
            tid: s.tid,
            serial: s.serial,
        };
        let direct = FileChange::Direct(branch, s.moment, changes);
        self.with_change(alloc, locks, name, direct)?;
        let units = replace(&mut self.units, empty_journal(alloc));
        self.units = without_settled(alloc, units)?;
        self.note(s);
        Ok(())
    }

    // A settlement is the last one.
    fn note(&mut self, s: &Settlement)
        ensures noted { durable_of self.new ≡ record (durable_of self.old) { greatest = (settlement_of s.now).moment; last = Some (settlement_of s.now) } }
    {
        self.last = Some(*s);
        self.greatest = s.moment.hundredths;
    }

    /// A branch is settled, in files and journal.
    pub fn settle(&mut self, alloc: Global, s: &Settlement) -> Result<(), AllocError>
        requires { end_of (journal_of self.old.units) + 48 < 2 ^ 64 }
        ensures { OnOk result (durable_of self.new ≡ world.with_settlement (Some (settlement_of s.now)) (durable_of self.old)) }
    {
        let files = replace(&mut self.directory, Vec::new(alloc));
        self.directory = settled_files(alloc, files, *s)?;
        let before = replace(&mut self.units, empty_journal(alloc));
        self.units = with_settled(alloc, before, *s)?;
        self.note(s);
        Ok(())
    }

    /// A record is written.
    pub fn keep(&mut self, alloc: Global, written: LogRec) -> Result<(), AllocError>
        ensures { OnOk result (durable_of self.new ≡ record (durable_of self.old) { log = log.put_in (log_record_of written) (slots_of self.old.log.items) }) }
    {
        let slots = replace(&mut self.log, Vec::new(alloc));
        self.log = with_record(alloc, slots, written)?;
        Ok(())
    }

    // The slot of this serial is free.
    fn drop_record(&mut self, alloc: Global, serial: &Id) -> Result<(), AllocError>
        ensures { OnOk result (durable_of self.new ≡ record (durable_of self.old) { log = log.forgotten (id_of serial.now) (slots_of self.old.log.items) }) }
    {
        let slots = replace(&mut self.log, Vec::new(alloc));
        self.log = forgotten(alloc, slots, serial)?;
        Ok(())
    }

    /// The log once a branch is settled, with its committed record where there is one.
    pub fn log_settled(
        &mut self,
        alloc: Global,
        serial: &Id,
        rec: &Option<LogRec>,
    ) -> Result<(), AllocError>
        ensures { OnOk result (durable_of self.new ≡ record (durable_of self.old) { log = log.settled_in (id_of serial.now) (option_map log_record_of rec.now) (slots_of self.old.log.items) }) }
    {
        match rec {
            Some(r) => self.keep(alloc, r.copy()),
            None => self.drop_record(alloc, serial),
        }
    }

    /// A branch is prepared, with these managers.
    pub fn prepare(
        &mut self,
        alloc: Global,
        branch: &BranchKey,
        rms: &RmList,
    ) -> Result<(), AllocError>
        ensures { (b : Branch) (moment : ℕ) (records : List LogRecord) → b.key ≡ branch_key_of branch.now → managers_holding b.managers ≡ rms.now →
            OnOk result (durable_of self.new ≡ world.tabled (Prepares b) moment records (durable_of self.old)) }
    {
        let written = LogRec {
            kind: LogKind::Prepared,
            tid: Tid(branch.tid),
            serial: Serial(branch.serial),
            waiting: SerialList::new(),
            rms: rms.copy(),
        };
        self.keep(alloc, written)?;
        let units = replace(&mut self.units, empty_journal(alloc));
        self.units = with_prepared(alloc, units, branch)?;
        Ok(())
    }

    /// The committed record of this serial goes; the branch that it was of.
    pub fn forget(&mut self, alloc: Global, serial: &Id) -> Result<BranchKey, AllocError>
        ensures log { OnOk result (durable_of self.new ≡ record (durable_of self.old) { log = log.forgotten (id_of serial.now) (slots_of self.old.log.items) }) }
        ensures branch { IfOk result (λ k. branch_key_of k ≡ record { tid = logged_tid (id_of serial.now) (slots_of self.old.log.items); serial = id_of serial.now }) }
    {
        let tid = tid_of(self.log.as_slice(), serial);
        self.drop_record(alloc, serial)?;
        Ok(BranchKey {
            tid,
            serial: *serial,
        })
    }
}
