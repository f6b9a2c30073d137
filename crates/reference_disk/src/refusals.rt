// What refuses requests by what the disk has.
ghost use Rattle.std.specs.Prelude.{◌≡◌, ◌+◌, ◌<◌, ◌≤◌, ◌^◌, ℕ, [], Some, map, option_map, length, IfOk};
ghost use Rattle.vms_model.specs.Limits.{slot_limit};
ghost use Rattle.reference_index.specs.unit_laws.Journal.{end_of as end_said};
ghost use Rattle.reference_index.specs.run_model.Answers as answers;
ghost use Rattle.reference_index.specs.run_model.Operations as operations;
ghost use Rattle.reference_index.specs.run_model.World as world;
ghost use Rattle.reference_index.specs.Standing.{changes_of};
ghost use Rattle.script_lang.specs.Statements.{recovery_of, setting_of};
ghost use Rattle.vms_base.specs.Ids.{id_of};
ghost use Rattle.reference_world.specs.Standing.{branch_key_of, is_unmade as is_unmade_of, serials_of, side_of, line_of};
ghost use Rattle.reference_units.specs.Entries.{entries_of, journal_of};
ghost use Rattle.reference_records.specs.Operations.{asked_of};
ghost use Rattle.reference_disk.specs.Disks.{durable_of, node_on, disk_node, branch_with, first_changed, need_of};

use crate::disk::Durable;
use crate::forms::{area_size, area_start};
use reference_index::Change;
use reference_records::{
    Asked, changes_asked, file_full, first_of, form_refused, is_change, refused_if,
};
use reference_recovery::{has_journal, images_full, recovery_refused};
use reference_units::{
    JournalEntry, changes_made, end_of, entries_for, entries_size, free_bytes, owed_first, units_in,
};
use reference_world::{
    BranchKey, Line, Quota, Runs, Side, Volume, find_file, first_to_change, free_place, free_runs,
    images_end, records_of,
};
use script_lang::{Recovery, Setting};
use std::alloc::{AllocError, Global};
use std::cmp::max;
use vms_base::{FileName, Id, NodeName};

// The bytes that these entries of a branch want of the journal, with what it is owed with the first of them.
fn bytes_needed(entries: &[JournalEntry], owed: u64) -> u128
    requires { owed ≤ 96 }
    ensures { result ≡ need_of (entries_of entries.now) owed }
{
    match entries {
        [] => 0,
        [_, ..] => entries_size(entries) + u128::from(owed),
    }
}

impl Durable {
    /// Whether the last INIT failed.
    pub fn is_unmade(&self) -> bool
        ensures { result ≡ is_unmade_of self.now.volume }
    {
        match self.volume {
            Volume::Sound => false,
            Volume::Faulty { .. } => false,
            Volume::Unknown => true,
        }
    }

    /// The refusal that no file has this name. None exactly where one has it.
    pub fn there_is_file(&self, name: &FileName) -> Option<Line>
        ensures { option_map line_of result ≡ answers.there_is_file (disk_node self.now) name.now }
    {
        match find_file(self.directory.as_slice(), name) {
            Some(_) => None,
            None => Some(Line::FileNotFound),
        }
    }

    /// The refusal that a file has this name already. None exactly where no file has it.
    pub fn new_file(&self, name: &FileName) -> Option<Line>
        ensures { option_map line_of result ≡ answers.new_file (disk_node self.now) name.now }
    {
        match find_file(self.directory.as_slice(), name) {
            Some(_) => Some(Line::FileExists),
            None => None,
        }
    }

    /// What refuses an operation by the form of the file of this name. None also where no file has it.
    pub fn fits_file(&self, name: &FileName, asked: Asked<'_>) -> Option<Line>
        ensures { option_map line_of result ≡ answers.of_file (disk_node self.now) name.now (λ f. operations.form_refused f (asked_of asked.entry)) }
    {
        let f = find_file(self.directory.as_slice(), name)?;
        form_refused(f, asked)
    }

    /// The refusal that an operation would change a file marked for the journal. None where it is no change, or no marked file has the name.
    pub fn needs_unit(&self, name: &FileName, asked: Asked<'_>) -> Option<Line>
        ensures { option_map line_of result ≡ answers.of_file (disk_node self.now) name.now (answers.needs_unit (asked_of asked.entry)) }
    {
        let f = find_file(self.directory.as_slice(), name)?;
        refused_if(is_change(asked) && f.recovery_units, Line::NeedsUnit)
    }

    /// The refusal that names the first of these branches that made changes of the file. None where none of them did, or no file has the name.
    pub fn unchanged_file(&self, branches: &[BranchKey], name: &FileName) -> Option<Line>
        ensures { option_map line_of result ≡ answers.of_file (disk_node self.now) name.now (first_changed (serials_of branches.now)) }
    {
        let f = find_file(self.directory.as_slice(), name)?;
        match first_to_change(f, branches) {
            Some(serial) => Some(Line::FileLocked(serial)),
            None => None,
        }
    }

    /// The refusal that the file of this name is not marked for the journal. None where it is marked, or no file has the name.
    pub fn is_marked(&self, name: &FileName) -> Option<Line>
        ensures { option_map line_of result ≡ answers.of_file (disk_node self.now) name.now answers.is_marked }
    {
        let f = find_file(self.directory.as_slice(), name)?;
        refused_if(!f.recovery_units, Line::NotForUnits)
    }

    /// The refusal that a file that is there has no such journal of images.
    pub fn has_journal(&self, name: &FileName, side: Side) -> Option<Line>
        ensures { option_map line_of result ≡ answers.of_file (disk_node self.now) name.now (answers.has_journal (side_of side)) }
    {
        let f = find_file(self.directory.as_slice(), name)?;
        has_journal(f, side)
    }

    /// What refuses a recovery of a file that is there, by its journals, its save, and the first of these branches that changed it.
    pub fn recovery_refused(
        &self,
        branches: &[BranchKey],
        name: &FileName,
        way: &Recovery,
    ) -> Result<Option<Line>, AllocError>
        ensures { (n : world.Node) → n.durable.directory ≡ (durable_of self.now).directory → serials_of branches.now ≡ world.serials_of n.volatile.branches →
            IfOk result (λ refusal. option_map line_of refusal ≡ answers.of_file n name.now (answers.recovery_refused n (recovery_of way.now))) }
    {
        match find_file(self.directory.as_slice(), name) {
            None => Ok(None),
            Some(f) => recovery_refused(f, branches, way),
        }
    }

    /// What refuses changes of a branch for want of room in a journal of images of a file that is there.
    pub fn images_full(&self, serial: &Id, name: &FileName, changes: &[Change]) -> Option<Line>
        ensures { option_map line_of result ≡ answers.of_file (disk_node self.now) name.now (answers.images_full (id_of serial.now) (changes_of changes.now)) }
    {
        let f = find_file(self.directory.as_slice(), name)?;
        images_full(serial, changes, f)
    }

    /// How many blocks the buckets of the file of this name take, where there is one. An error where that is no number of 64 bits.
    pub fn blocks_taken(&self, name: &FileName) -> Result<Option<u64>, AllocError>
        ensures { IfOk result (λ n. n ≡ option_map answers.blocks_of (world.find_file name.now (durable_of self.now).directory)) }
    {
        match find_file(self.directory.as_slice(), name) {
            None => Ok(None),
            Some(f) => match f.buckets.checked_mul(u64::from(f.bucket)) {
                Some(blocks) => Ok(Some(blocks)),
                None => Err(AllocError),
            },
        }
    }

    /// Where the journal of after images of the file of this name ends; 0 where there is no such file.
    pub fn after_end(&self, name: &FileName) -> u64
        ensures { (f : world.File) → world.find_file name.now (durable_of self.now).directory ≡ Some f → result ≡ f.carried.after.end }
    {
        match find_file(self.directory.as_slice(), name) {
            None => 0,
            Some(f) => f.carried.after.end,
        }
    }

    /// The refusal that no run of free blocks is so long, on a disk of so many blocks.
    pub fn volume_full(&self, blocks: u32, need: u64) -> Option<Line>
        requires { length self.now.log.items ≤ slot_limit }
        ensures { option_map line_of result ≡ answers.volume_full (node_on [] blocks (durable_of self.now)) need }
    {
        let longest = self.runs(blocks, need).longest;
        refused_if(longest < need, Line::VolumeFull(longest, need))
    }

    /// The refusal that no run of free blocks is as long as a file's buckets. None also where there is no such file.
    pub fn backup_full(&self, blocks: u32, name: &FileName) -> Result<Option<Line>, AllocError>
        requires { length self.now.log.items ≤ slot_limit }
        ensures { let n = node_on [] blocks (durable_of self.now) in IfOk result (λ refusal. option_map line_of refusal ≡ answers.of_file n name.now (λ f. answers.volume_full n (answers.blocks_of f))) }
    {
        match self.blocks_taken(name)? {
            Some(need) => Ok(self.volume_full(blocks, need)),
            None => Ok(None),
        }
    }

    /// The refusal that no run of free blocks is as long as the buckets that a recovery gives a file. None also where there is no such file.
    pub fn recovery_full(
        &self,
        alloc: Global,
        blocks: u32,
        name: &FileName,
        way: &Recovery,
    ) -> Result<Option<Line>, AllocError>
        requires { length self.now.log.items ≤ slot_limit }
        ensures { let n = node_on [] blocks (durable_of self.now) in IfOk result (λ refusal. option_map line_of refusal ≡ answers.of_file n name.now (λ f. answers.volume_full n (answers.blocks_recovered (recovery_of way.now) f))) }
    {
        match self.recovered_at(alloc, name, way)? {
            Some(given) => Ok(self.volume_full(blocks, given.blocks)),
            None => Ok(None),
        }
    }

    /// The refusal that no run of free blocks is as long as the journal of a setting. None where it wants none.
    pub fn setting_full(&self, blocks: u32, setting: Setting) -> Option<Line>
        requires { length self.now.log.items ≤ slot_limit }
        ensures { option_map line_of result ≡ answers.setting_full (node_on [] blocks (durable_of self.now)) (setting_of setting) }
    {
        match setting {
            Setting::RecoveryUnits => None,
            Setting::NoRecoveryUnits => None,
            Setting::Images(_, need) => self.volume_full(blocks, u64::from(need)),
            Setting::NoImages(_) => None,
        }
    }

    /// The changes of an operation.
    pub fn changes_at(
        &self,
        alloc: Global,
        name: &FileName,
        asked: Asked<'_>,
    ) -> Result<Vec<Change>, AllocError>
        ensures { IfOk result (λ v. changes_of v.items ≡ answers.changes_at (disk_node self.now) name.now (asked_of asked.entry)) }
    {
        let Some(f) = find_file(self.directory.as_slice(), name) else {
            return Ok(Vec::new(alloc));
        };
        let all = records_of(alloc, f)?;
        changes_asked(alloc, f, all.as_slice(), asked)
    }

    // With these changes a branch has made more than it may.
    fn more_changes(
        &self,
        alloc: Global,
        branch: &BranchKey,
        changes: &[Change],
    ) -> Result<Option<Line>, AllocError>
        ensures { IfOk result (λ refusal. option_map line_of refusal ≡ answers.more_changes (disk_node self.now) (changes_of changes.now) (branch_with (branch_key_of branch.now))) }
    {
        let units = units_in(alloc, self.units.entries.as_slice())?;
        let made = changes_made(units.as_slice(), &branch.serial);
        Ok(refused_if(
            1_024 < made + changes.len() as u64,
            Line::QuotaExceeded(Quota::Changes, 1_024),
        ))
    }

    /// Too few buckets of a file are free for an operation.
    pub fn file_is_full(
        &self,
        alloc: Global,
        name: &FileName,
        asked: Asked<'_>,
    ) -> Result<Option<Line>, AllocError>
        ensures { IfOk result (λ refusal. option_map line_of refusal ≡ answers.of_file (disk_node self.now) name.now (λ f. operations.file_full f (asked_of asked.entry))) }
    {
        let Some(f) = find_file(self.directory.as_slice(), name) else {
            return Ok(None);
        };
        let all = records_of(alloc, f)?;
        Ok(file_full(f, all.as_slice(), asked))
    }

    // Too few bytes of the journal are free for changes of a branch.
    fn journal_full(
        &self,
        alloc: Global,
        branch: &BranchKey,
        name: &FileName,
        changes: &[Change],
    ) -> Result<Option<Line>, AllocError>
        ensures { IfOk result (λ refusal. option_map line_of refusal ≡ answers.journal_full (disk_node self.now) name.now (changes_of changes.now) (branch_with (branch_key_of branch.now))) }
    {
        let units = units_in(alloc, self.units.entries.as_slice())?;
        let free = free_bytes(
            self.journal,
            self.units.entries.as_slice(),
            units.as_slice(),
        );
        let entries = entries_for(alloc, branch, *name, changes)?;
        let need = bytes_needed(
            entries.as_slice(),
            owed_first(units.as_slice(), &branch.serial),
        );
        Ok(refused_if(u128::from(free) < need, Line::JournalFull(free, need)))
    }

    /// What refuses an operation of a branch by the branch's own quotas, and with these other causes between them.
    pub fn branch_refused(
        &self,
        alloc: Global,
        branch: &BranchKey,
        name: &FileName,
        changes: &[Change],
        between: Option<Line>,
    ) -> Result<Option<Line>, AllocError>
        ensures { IfOk result (λ refusal. option_map line_of refusal ≡ operations.first_of (answers.more_changes (disk_node self.now) (changes_of changes.now) (branch_with (branch_key_of branch.now)))
            (operations.first_of (option_map line_of between) (answers.journal_full (disk_node self.now) name.now (changes_of changes.now) (branch_with (branch_key_of branch.now))))) }
    {
        let more = self.more_changes(alloc, branch, changes)?;
        let full = self.journal_full(alloc, branch, name, changes)?;
        Ok(first_of(more, first_of(between, full)))
    }

    // The runs of free blocks on the disk.
    fn runs(&self, blocks: u32, need: u64) -> Runs
        requires { length self.now.log.items ≤ slot_limit }
        ensures longest { result.longest ≡ world.longest_free (node_on [] blocks (durable_of self.now)) }
        ensures lowest { result.lowest ≡ world.lowest_free (node_on [] blocks (durable_of self.now)) need }
    {
        let start = area_start(self.log.len() as u32, self.journal);
        let count = area_size(blocks, start);
        free_runs(self.directory.as_slice(), need, start, count)
    }

    /// Where the lowest run of so many free blocks begins.
    pub fn lowest_free(&self, blocks: u32, need: u64) -> Option<u64>
        requires { length self.now.log.items ≤ slot_limit }
        ensures { result ≡ world.lowest_free (node_on [] blocks (durable_of self.now)) need }
    {
        self.runs(blocks, need).lowest
    }

    /// What refuses a file of so many blocks: no place for a file is free, or no run of free blocks is so long. None where there is room.
    pub fn room_for(&self, blocks: u32, need: u64) -> Option<Line>
        requires { length self.now.log.items ≤ slot_limit }
        ensures { option_map line_of result ≡ answers.room_for need (node_on [] blocks (durable_of self.now)) }
    {
        match free_place(self.directory.as_slice()) {
            None => Some(Line::QuotaExceeded(Quota::Files, 64)),
            Some(_) => { self.volume_full(blocks, need) }
        }
    }

    // The greatest position of a journal.
    fn last_position(&self) -> u64
        requires { end_said (journal_of self.now.units) < 2 ^ 64 }
        ensures { result ≡ answers.last_position (disk_node self.now) }
    {
        max(end_of(&self.units), images_end(self.directory.as_slice()))
    }

    /// What refuses a boot by what the disk has.
    pub fn bootable(&self, name: NodeName) -> Option<Line>
        requires { end_said (journal_of self.now.units) < 2 ^ 64 }
        ensures { option_map line_of result ≡ answers.bootable (node_on name 0 (durable_of self.now)) }
    {
        match self.volume {
            Volume::Sound => first_of(
                refused_if(
                    self.boot == 4_294_967_295,
                    Line::QuotaExceeded(Quota::Boots, 4_294_967_295),
                ),
                first_of(
                    refused_if(
                        24_000_000_000_000 < self.greatest,
                        Line::QuotaExceeded(Quota::Moments, 24_000_000_000_000),
                    ),
                    refused_if(
                        2_305_843_009_213_693_952 < self.last_position(),
                        Line::QuotaExceeded(Quota::Positions, 2_305_843_009_213_693_952),
                    ),
                ),
            ),
            Volume::Faulty { condition, block } => { Some(Line::NoVolume(name, condition, block)) }
            Volume::Unknown => None,
        }
    }
}
