// What refuses each request before it does anything.
ghost use Rattle.std.specs.Prelude.{◌≡◌, ◌+◌, ◌^◌, ◌<◌, ◌≤◌, ℕ, List, map, option_map, length, not, IfOk};
ghost use Rattle.vms_model.specs.Limits.{slot_limit};
ghost use Rattle.script_lang.specs.script_model.Statements as said;
ghost use Rattle.script_lang.specs.declared.literals.Literals.{Literals as LiteralsSaid};
ghost use Rattle.script_lang.specs.Statements.{form_of, named_of, recovery_of, request_of, setting_of, side_of};
ghost use Rattle.commit_protocol.specs.Table as table;
ghost use Rattle.commit_protocol.specs.Allowed as allowed;
ghost use Rattle.unit_laws.specs.Journal.{end_of};
ghost use Rattle.world_laws.specs.run_model.Answers as answers;
ghost use Rattle.world_laws.specs.run_model.Answers.{service};
ghost use Rattle.world_laws.specs.run_model.Operations as operations;
ghost use Rattle.world_laws.specs.run_model.World as world;
ghost use Rattle.vms_base.specs.Ids.{id_of};
ghost use Rattle.tm_types.specs.Branches.{branch_of as branch_said};
ghost use Rattle.reference_index.specs.Standing.{key_of as key_said};
ghost use Rattle.reference_world.specs.Standing.{serials_of, line_of};
ghost use Rattle.reference_units.specs.Entries.{journal_of};
ghost use Rattle.reference_records.specs.Operations.{asked_of};
ghost use Rattle.reference_node.specs.Nodes.{node_of, IsPlain};
ghost use Rattle.reference_branches.specs.Branches.{shared_of, is_wanted as is_wanted_said};

use crate::node::Node;
use reference_branches::{
    Shared, Wanted, held_against, key_of, more_managers, new_label, unsettled, wrong_state,
};
use reference_disk::{blocks_for, is_file_form, is_volume_form, is_within, setting_refused};
use reference_index::Key;
use reference_records::{
    Asked, asked_by, data_refused, first_of, keys_asked, keys_found, keys_held, refused_if,
};
use reference_recovery::side_for;
use reference_units::{holder, new_locks};
use reference_world::{BranchKey, Line, Quota, find_file, records_of};
use script_lang::{Form, Literals, Named, Recovery, Request, Setting, Side};
use std::alloc::{AllocError, Global};
use tm_types::BranchState;
use vms_base::{FileName, Id, Label, Serial};

// Seconds that a transaction is given: there are none, or too many.
fn seconds_refused(seconds: Option<u32>) -> Option<Line>
    ensures { option_map line_of result ≡ answers.seconds_refused seconds }
{
    match seconds {
        None => None,
        Some(count) => refused_if(
            !is_within(1, 1_000_000, u64::from(count)),
            Line::BadParameter,
        ),
    }
}

impl Node {
    /// The unsettled branch that a label names.
    pub fn branch_labelled(&self, shared: &Shared, name: &Label) -> Option<BranchState>
        ensures { option_map branch_said result ≡ answers.branch_labelled (shared_of shared.now) (node_of self.now) name.now }
    {
        match shared.serial_labelled(&self.name, name) {
            Some(serial) => self.branch_of(&serial),
            None => None,
        }
    }

    /// The unsettled branch of this serial.
    pub fn branch_of(&self, serial: &Id) -> Option<BranchState>
        ensures { option_map branch_said result ≡ world.find_branch (id_of serial.now) (node_of self.now).volatile.branches }
    {
        match self.table.branch(Serial(*serial)) {
            Some(b) => Some(b.copy()),
            None => None,
        }
    }

    /// The unsettled branch that a label names, or that has a serial.
    pub fn branch_named(&self, shared: &Shared, who: &Named) -> Option<BranchState>
        ensures { option_map branch_said result ≡ answers.branch_named (shared_of shared.now) (node_of self.now) (named_of who.now) }
    {
        match who {
            Named::Label(label) => self.branch_labelled(shared, label),
            Named::Serial(serial) => self.branch_of(&serial.0),
        }
    }

    /// No label of this name was made.
    pub fn made_label(&self, shared: &Shared, name: &Label) -> Option<Line>
        ensures { option_map line_of result ≡ answers.made_label (shared_of shared.now) (node_of self.now) name.now }
    {
        match shared.labelled(&self.name, name) {
            Some(_) => None,
            None => Some(Line::BadLabel),
        }
    }

    /// A name is a label that was not made.
    pub fn made_name(&self, shared: &Shared, who: &Named) -> Option<Line>
        ensures { option_map line_of result ≡ answers.made_name (shared_of shared.now) (node_of self.now) (named_of who.now) }
    {
        match who {
            Named::Label(label) => self.made_label(shared, label),
            Named::Serial(_) => None,
        }
    }

    /// The branch of a label is not unsettled.
    pub fn unsettled_label(&self, shared: &Shared, name: &Label) -> Option<Line>
        ensures { option_map line_of result ≡ answers.unsettled_label (shared_of shared.now) (node_of self.now) name.now }
    {
        unsettled(&self.branch_labelled(shared, name))
    }

    // A label by which a branch is to begin is that of a transaction.
    fn authorised(&self, shared: &Shared, name: &Label) -> Option<Line>
        ensures { option_map line_of result ≡ answers.of_label (shared_of shared.now) (node_of self.now) name.now answers.authorised }
    {
        match shared.labelled(&self.name, name) {
            Some(l) => match l.bid {
                Some(_) => None,
                None => Some(Line::NoSuchBranchId),
            },
            None => None,
        }
    }

    // As many branches are unsettled as may be, or as many of these and of committed records together as the log has slots.
    fn more_branches(&self) -> Option<Line>
        ensures { option_map line_of result ≡ answers.more_branches (node_of self.now) }
    {
        let unsettled = self.table.branch_count();
        let records = self.table.record_count();
        first_of(
            refused_if(64 <= unsettled, Line::QuotaExceeded(Quota::Branches, 64)),
            refused_if(
                self.durable.log.len() <= unsettled + records,
                Line::QuotaExceeded(Quota::Slots, self.durable.log.len() as u64),
            ),
        )
    }

    // The first of some keys that another branch holds.
    fn keys_refused(&self, asking: &Option<Id>, name: &FileName, keys: &[Key]) -> Option<Line>
        ensures { option_map line_of result ≡ answers.keys_refused (node_of self.now) (option_map id_of asking.now) name.now (map key_said keys.now) }
    {
        match keys {
            [] => None,
            [key, rest @ ..] => first_of(
                held_against(asking, holder(self.locks.as_slice(), name, key.lend())),
                self.keys_refused(asking, name, rest),
            ),
        }
    }

    // Another branch holds a key that an operation asks for.
    fn asked_refused(
        &self,
        alloc: Global,
        asking: &Option<Id>,
        name: &FileName,
        asked: Asked<'_>,
    ) -> Result<Option<Line>, AllocError>
        ensures { IfOk result (λ refusal. option_map line_of refusal ≡ answers.of_file (node_of self.now) name.now (λ f. answers.keys_refused (node_of self.now) (option_map id_of asking.now) name.now (operations.keys_asked f (asked_of asked.entry)))) }
    {
        let Some(f) = find_file(self.durable.directory.as_slice(), name) else {
            return Ok(None);
        };
        let all = records_of(alloc, f)?;
        let keys = keys_asked(alloc, f, all.as_slice(), asked)?;
        Ok(self.keys_refused(asking, name, keys.as_slice()))
    }

    // With the keys of an operation more are held at the node than may be.
    fn more_locks(
        &self,
        alloc: Global,
        name: &FileName,
        asked: Asked<'_>,
    ) -> Result<Option<Line>, AllocError>
        ensures { IfOk result (λ refusal. option_map line_of refusal ≡ answers.of_file (node_of self.now) name.now (λ f. answers.more_locks (node_of self.now) name.now (operations.keys_held f (asked_of asked.entry)))) }
    {
        let Some(f) = find_file(self.durable.directory.as_slice(), name) else {
            return Ok(None);
        };
        let all = records_of(alloc, f)?;
        let keys = keys_held(alloc, f, all.as_slice(), asked)?;
        let more = new_locks(self.locks.as_slice(), name, keys.as_slice());
        Ok(refused_if(
            4_096 < self.locks.len() + more,
            Line::QuotaExceeded(Quota::Locks, 4_096),
        ))
    }

    // The records that stand refuse an operation, or another branch holds the record that is found.
    fn found_refused(
        &self,
        alloc: Global,
        asking: &Option<Id>,
        name: &FileName,
        asked: Asked<'_>,
    ) -> Result<Option<Line>, AllocError>
        ensures { IfOk result (λ refusal. option_map line_of refusal ≡ answers.of_file (node_of self.now) name.now (answers.found_refused (node_of self.now) (option_map id_of asking.now) name.now (asked_of asked.entry))) }
    {
        let Some(f) = find_file(self.durable.directory.as_slice(), name) else {
            return Ok(None);
        };
        let all = records_of(alloc, f)?;
        let rows = all.as_slice();
        let keys = keys_found(alloc, f, rows, asked)?;
        Ok(first_of(
            data_refused(f, rows, asked),
            self.keys_refused(asking, name, keys.as_slice()),
        ))
    }

    // What refuses an operation of a branch by what is found, by a quota, or for want of room.
    fn operation_refused(
        &self,
        alloc: Global,
        shared: &Shared,
        label: &Label,
        name: &FileName,
        asked: Asked<'_>,
    ) -> Result<Option<Line>, AllocError>
        ensures { IfOk result (λ refusal. option_map line_of refusal ≡ answers.operation_refused (shared_of shared.now) (node_of self.now) label.now name.now (asked_of asked.entry)) }
    {
        let asking = shared.serial_labelled(&self.name, label);
        let found = self.found_refused(alloc, &asking, name, asked)?;
        let changes = self.durable.changes_at(alloc, name, asked)?;
        let locks = self.more_locks(alloc, name, asked)?;
        let full = self.durable.file_is_full(alloc, name, asked)?;
        let first_room = first_of(locks, full);
        match self.branch_labelled(shared, label) {
            None => Ok(first_of(found, first_room)),
            Some(b) => {
                let made = changes.as_slice();
                let quotas = self
                    .durable
                    .branch_refused(alloc, &key_of(&b), name, made, first_room)?;
                let images = self.durable.images_full(&b.serial.0, name, made);
                let room = first_of(quotas, images);
                Ok(first_of(found, room))
            }
        }
    }

    // What refuses an operation without a label so.
    fn direct_refused(
        &self,
        alloc: Global,
        name: &FileName,
        asked: Asked<'_>,
    ) -> Result<Option<Line>, AllocError>
        requires { self.now.drawn + 1 < 2 ^ 32 }
        ensures { IfOk result (λ refusal. option_map line_of refusal ≡ answers.direct_refused (node_of self.now) name.now (asked_of asked.entry)) }
    {
        let found = self.found_refused(alloc, &None, name, asked)?;
        let changes = self.durable.changes_at(alloc, name, asked)?;
        let full = self.durable.file_is_full(alloc, name, asked)?;
        let more = refused_if(
            1_024 < changes.len(),
            Line::QuotaExceeded(Quota::Changes, 1_024),
        );
        let images = self
            .durable
            .images_full(&self.next_id(), name, changes.as_slice());
        Ok(first_of(found, first_of(more, first_of(full, images))))
    }

    // What refuses a statement to a branch of a label, which has to be so.
    fn early_branch(&self, shared: &Shared, label: &Label, wanted: Wanted) -> Option<Line>
        ensures { let s = shared_of shared.now in let n = node_of self.now in option_map line_of result ≡ operations.first_of (answers.made_label s n label.now)
            (operations.first_of (answers.unsettled_label s n label.now) (answers.in_state (is_wanted_said wanted) (answers.branch_labelled s n label.now))) }
    {
        let found = self.branch_labelled(shared, label);
        first_of(
            self.made_label(shared, label),
            first_of(unsettled(&found), wrong_state(&found, wanted)),
        )
    }

    fn early_add(&self, shared: &Shared, label: &Label, new: &Label) -> Option<Line>
        ensures { (other : List ℕ) → option_map line_of result ≡ (service (said.AddBranch label.now other new.now)).refused_before_reading (shared_of shared.now) (node_of self.now) }
    {
        let found = self.branch_labelled(shared, label);
        first_of(
            self.made_label(shared, label),
            first_of(
                new_label(shared, new),
                first_of(unsettled(&found), wrong_state(&found, Wanted::FirstActive)),
            ),
        )
    }

    fn early_begin(&self, shared: &Shared, label: &Label) -> Option<Line>
        ensures { option_map line_of result ≡ (service (said.StartBranch label.now)).refused_before_reading (shared_of shared.now) (node_of self.now) }
    {
        let found = self.branch_labelled(shared, label);
        first_of(
            self.made_label(shared, label),
            first_of(
                self.authorised(shared, label),
                wrong_state(&found, Wanted::Nowhere),
            ),
        )
    }

    fn early_inquire(&self, shared: &Shared, who: &Named) -> Option<Line>
        ensures { option_map line_of result ≡ (service (said.Inquire (named_of who.now))).refused_before_reading (shared_of shared.now) (node_of self.now) }
    {
        let found = self.branch_named(shared, who);
        first_of(
            self.made_name(shared, who),
            first_of(unsettled(&found), wrong_state(&found, Wanted::InDoubt)),
        )
    }

    fn early_init(&self, shared: &Shared, slots: u32, blocks: u32) -> Option<Line>
        ensures { option_map line_of result ≡ (service (said.Init slots blocks)).refused_before_reading (shared_of shared.now) (node_of self.now) }
    {
        first_of(
            refused_if(shared.in_use, Line::VolumeInUse),
            refused_if(
                !is_volume_form(self.blocks, slots, blocks),
                Line::BadParameter,
            ),
        )
    }

    fn early_boot(&self) -> Option<Line>
        ensures { (s : world.Shared) → option_map line_of result ≡ (service said.Boot).refused_before_reading s (node_of self.now) }
    {
        first_of(
            refused_if(self.up, Line::NodeUp),
            refused_if(self.durable.is_unmade(), Line::NotInitialized),
        )
    }

    fn early_create(&self, file: &FileName, bucket: u32, size: u32, form: Form) -> Option<Line>
        ensures { (s : world.Shared) → option_map line_of result ≡ (service (said.Create file.now bucket size (form_of form))).refused_before_reading s (node_of self.now) }
    {
        first_of(
            self.durable.new_file(file),
            refused_if(!is_file_form(bucket, size, form), Line::BadParameter),
        )
    }

    // A file that is to be shown is not there, or one of these unsettled branches changed it.
    fn early_shown(&self, branches: &[BranchKey], file: &FileName) -> Option<Line>
        requires { serials_of branches.now ≡ world.serials_of (node_of self.now).volatile.branches }
        ensures { let n = node_of self.now in option_map line_of result ≡ operations.first_of (answers.there_is_file n file.now) (answers.of_file n file.now (answers.unchanged_file n)) }
    {
        first_of(
            self.durable.there_is_file(file),
            self.durable.unchanged_file(branches, file),
        )
    }

    fn early_set(&self, branches: &[BranchKey], file: &FileName, setting: Setting) -> Option<Line>
        requires { serials_of branches.now ≡ world.serials_of (node_of self.now).volatile.branches }
        ensures { (s : world.Shared) → option_map line_of result ≡ (service (said.SetFile file.now (setting_of setting))).refused_before_reading s (node_of self.now) }
    {
        first_of(
            self.durable.there_is_file(file),
            first_of(
                setting_refused(setting),
                self.durable.unchanged_file(branches, file),
            ),
        )
    }

    fn early_images(&self, file: &FileName, word: Side) -> Option<Line>
        ensures { (s : world.Shared) → option_map line_of result ≡ (service (said.DumpImages file.now (side_of word))).refused_before_reading s (node_of self.now) }
    {
        first_of(
            self.durable.there_is_file(file),
            self.durable.has_journal(file, side_for(word)),
        )
    }

    fn early_recover(
        &self,
        branches: &[BranchKey],
        file: &FileName,
        way: &Recovery,
    ) -> Result<Option<Line>, AllocError>
        requires { serials_of branches.now ≡ world.serials_of (node_of self.now).volatile.branches }
        ensures { (s : world.Shared) → IfOk result (λ refusal. option_map line_of refusal ≡ (service (said.Recover file.now (recovery_of way.now))).refused_before_reading s (node_of self.now)) }
    {
        let refused = self.durable.recovery_refused(branches, file, way)?;
        Ok(first_of(self.durable.there_is_file(file), refused))
    }

    // What refuses a request that is none of records and neither a save nor a recovery, at a node that serves it. These are the unsettled branches.
    fn early_plain(
        &self,
        shared: &Shared,
        branches: &[BranchKey],
        request: &Request,
    ) -> Option<Line>
        requires plain { IsPlain request.now }
        requires branches { serials_of branches.now ≡ world.serials_of (node_of self.now).volatile.branches }
        ensures { (lit : LiteralsSaid) → option_map line_of result ≡ (service (request_of lit request.now)).refused_before_reading (shared_of shared.now) (node_of self.now) }
    {
        match request {
            Request::Init { slots, blocks } => self.early_init(shared, *slots, *blocks),
            Request::Boot => self.early_boot(),
            Request::Create {
                file,
                bucket,
                size,
                form,
            } => self.early_create(file, *bucket, *size, *form),
            Request::SetFile(file, setting) => self.early_set(branches, file, *setting),
            Request::DumpImages(file, word) => self.early_images(file, *word),
            Request::Dump(file) => self.early_shown(branches, file),
            Request::StartTrans { label, seconds } => {
                first_of(new_label(shared, label), seconds_refused(*seconds))
            }
            Request::AddBranch { label, new, .. } => self.early_add(shared, label, new),
            Request::StartBranch(label) => self.early_begin(shared, label),
            Request::EndBranch(label) => self.early_branch(shared, label, Wanted::MayEnd),
            Request::EndTrans(label) => self.early_branch(shared, label, Wanted::FirstActive),
            Request::AbortTrans(label) => self.early_branch(shared, label, Wanted::Open),
            Request::Inquire(who) => self.early_inquire(shared, who),
            Request::DeclareRm(rm) => self.early_declare(rm),
            Request::JoinRm(label, rm) => self.early_join(shared, label, rm),
            Request::AckEvent(who, rm, reply) => self.early_reply(shared, who, rm, *reply),
            Request::ForgetRm(rm) => self.early_forget(rm),
            Request::GetDti(who) => self.made_name(shared, who),
            _ => None,
        }
    }

    /// What refuses a boot by what the disk has.
    pub fn boot_refused(&self) -> Option<Line>
        requires { end_of (journal_of self.now.durable.units) < 2 ^ 64 }
        ensures { option_map line_of result ≡ answers.bootable (node_of self.now) }
    {
        self.durable.bootable(self.name)
    }

    /// What refuses a boot in the course of a settling, before the disk is read.
    pub fn restart_refused(&self) -> Option<Line>
        ensures { (s : world.Shared) → option_map line_of result ≡ (answers.task_service answers.Restarts).refused_before_reading s (node_of self.now) }
    {
        first_of(
            refused_if(self.up, Line::NodeUp),
            refused_if(self.durable.is_unmade(), Line::NotInitializedAt(self.name)),
        )
    }

    fn early_records(
        &self,
        alloc: Global,
        shared: &Shared,
        label: &Label,
        file: &FileName,
        asked: Asked<'_>,
    ) -> Result<Option<Line>, AllocError>
        ensures { IfOk result (λ refusal. option_map line_of refusal ≡ (service (said.Records label.now file.now (asked_of asked.entry))).refused_before_reading (shared_of shared.now) (node_of self.now)) }
    {
        let asking = shared.serial_labelled(&self.name, label);
        let held = self.asked_refused(alloc, &asking, file, asked)?;
        let found = self.branch_labelled(shared, label);
        let unit = first_of(
            self.unsettled_label(shared, label),
            first_of(
                wrong_state(&found, Wanted::Working),
                first_of(self.durable.is_marked(file), held),
            ),
        );
        Ok(first_of(
            self.made_label(shared, label),
            first_of(
                self.durable.there_is_file(file),
                first_of(self.durable.fits_file(file, asked), unit),
            ),
        ))
    }

    fn early_direct(
        &self,
        alloc: Global,
        file: &FileName,
        asked: Asked<'_>,
    ) -> Result<Option<Line>, AllocError>
        ensures { (s : world.Shared) → IfOk result (λ refusal. option_map line_of refusal ≡ (service (said.Direct file.now (asked_of asked.entry))).refused_before_reading s (node_of self.now)) }
    {
        let held = self.asked_refused(alloc, &None, file, asked)?;
        Ok(first_of(
            self.durable.there_is_file(file),
            first_of(
                self.durable.fits_file(file, asked),
                first_of(self.durable.needs_unit(file, asked), held),
            ),
        ))
    }

    fn early_served(
        &self,
        alloc: Global,
        shared: &Shared,
        request: &Request,
        lit: &Literals,
    ) -> Result<Option<Line>, AllocError>
        ensures { IfOk result (λ refusal. option_map line_of refusal ≡ (service (request_of lit.now request.now)).refused_before_reading (shared_of shared.now) (node_of self.now)) }
    {
        match request {
            Request::Records(label, file, operation) => {
                self.early_records(alloc, shared, label, file, asked_by(operation, lit))
            }
            Request::Direct(file, operation) => {
                self.early_direct(alloc, file, asked_by(operation, lit))
            }
            Request::Backup(file) => {
                let branches = self.keys(alloc)?;
                Ok(self.early_shown(branches.as_slice(), file))
            }
            Request::Recover(file, way) => {
                let branches = self.keys(alloc)?;
                self.early_recover(branches.as_slice(), file, way)
            }
            _ => {
                let branches = self.keys(alloc)?;
                Ok(self.early_plain(shared, branches.as_slice(), request))
            }
        }
    }

    /// What refuses a request before the disk is read.
    pub fn early(
        &self,
        alloc: Global,
        shared: &Shared,
        request: &Request,
        lit: &Literals,
    ) -> Result<Option<Line>, AllocError>
        ensures { IfOk result (λ refusal. option_map line_of refusal ≡ answers.refused_before_reading (shared_of shared.now) (node_of self.now) (service (request_of lit.now request.now))) }
    {
        let served = self.up || is_served_down(request);
        let refusal = self.early_served(alloc, shared, request, lit)?;
        Ok(first_of(refused_if(!served, Line::NodeDown), refusal))
    }

    // What refuses a request that is none of records and neither a save nor a recovery, by what the disk has or by a quota.
    fn late_plain(&self, shared: &Shared, request: &Request) -> Option<Line>
        requires plain { IsPlain request.now }
        requires end { end_of (journal_of self.now.durable.units) < 2 ^ 64 }
        requires slots { length self.now.durable.log.items ≤ slot_limit }
        ensures { (lit : LiteralsSaid) → option_map line_of result ≡ (service (request_of lit request.now)).refused_after_reading (shared_of shared.now) (node_of self.now) }
    {
        match request {
            Request::Boot => self.durable.bootable(self.name),
            Request::Create {
                bucket,
                size,
                form,
                ..
            } => self
                .durable
                .room_for(self.blocks, blocks_for(*bucket, *size, *form)),
            Request::SetFile(_, setting) => self.durable.setting_full(self.blocks, *setting),
            Request::StartTrans { .. } => self.more_branches(),
            Request::StartBranch(_) => self.more_branches(),
            Request::DeclareRm(_) => self.more_declared(),
            Request::JoinRm(label, _) => more_managers(&self.branch_labelled(shared, label)),
            Request::AddBranch { label, .. } => match self.branch_labelled(shared, label) {
                Some(b) => refused_if(
                    15 <= b.bids.items().len(),
                    Line::QuotaExceeded(Quota::Bids, 15),
                ),
                None => None,
            },
            _ => None,
        }
    }

    /// What refuses a request by what the disk has, or by a quota.
    pub fn late(
        &self,
        alloc: Global,
        shared: &Shared,
        request: &Request,
        lit: &Literals,
    ) -> Result<Option<Line>, AllocError>
        requires end { end_of (journal_of self.now.durable.units) < 2 ^ 64 }
        requires slots { length self.now.durable.log.items ≤ slot_limit }
        requires drawn { self.now.drawn + 1 < 2 ^ 32 }
        ensures { IfOk result (λ refusal. option_map line_of refusal ≡ (service (request_of lit.now request.now)).refused_after_reading (shared_of shared.now) (node_of self.now)) }
    {
        match request {
            Request::Records(label, file, operation) => {
                self.operation_refused(alloc, shared, label, file, asked_by(operation, lit))
            }
            Request::Direct(file, operation) => {
                self.direct_refused(alloc, file, asked_by(operation, lit))
            }
            Request::Backup(file) => self.durable.backup_full(self.blocks, file),
            Request::Recover(file, way) => {
                self.durable.recovery_full(alloc, self.blocks, file, way)
            }
            _ => Ok(self.late_plain(shared, request)),
        }
    }
}

// Whether a node that is down serves the request.
fn is_served_down(request: &Request) -> bool
    ensures { (lit : LiteralsSaid) → result ≡ (service (request_of lit request.now)).while_down }
{
    match request {
        Request::Init { .. } => true,
        Request::Boot => true,
        Request::Fuse { .. } => true,
        Request::Clock(_) => true,
        _ => false,
    }
}
