//! A volume that is mounted.
ghost use Rattle.std.specs.Prelude.{◌≡◌, ◌≤◌, ◌<◌, ◌+◌, ◌-◌, ℕ, Option, Some, None, true, false, IfOk, IfErr, IfSome, IfNone, OnOk, OnErr, IsErr, length, slice_set};
ghost use Rattle.std.specs.Option.{option_copied};
ghost use Rattle.std.specs.Borrow.{Lends, sem};
ghost use Rattle.careful_write.specs.block_disk.Blocks.{has_number};
ghost use Rattle.careful_write.specs.block_disk.Sizes.{content_start, least_disk_size};
ghost use Rattle.file_base.specs.vms_model.Limits.{file_limit};
ghost use Rattle.file_base.specs.vms_model.Blocks.{directory_start, home_block, journal_block};
ghost use Rattle.careful_write.specs.Reads.{SameButReads};
ghost use Rattle.careful_write.specs.State.{EachWhole, IsReady};
ghost use Rattle.careful_write.specs.contracts.store.Store.{the_row as store_row};
ghost use Rattle.careful_write.specs.Sizes.{group_limit};
ghost use Rattle.file_base.specs.declared.head.FileHead.{FileHead as HeadSaid};
ghost use Rattle.volume_format.specs.Home.{home_block_of, ru_block_of, sizes_of};
ghost use Rattle.volume_format.specs.Head.{head_block_of};
ghost use Rattle.extents.specs.Extents.{IsFreeRun, all_extents as extents_said};
ghost use Rattle.volume.specs.contracts.volume.Volume.{the_row};
ghost use Rattle.volume.specs.Catalogs.{IsSound, NewName, TellsCatalog, TellsOnly, head_at};
ghost use Rattle.volume.specs.Conditions.{IsValid};
ghost use Rattle.volume.specs.Limits.{data_area as area_said};
ghost use Rattle.volume.specs.State.{Holds, with_block};
ghost use Rattle.volume.specs.Mount.{Finds};

use crate::catalog::{Catalog, data_area, find_name, free_number};
use crate::load::{Finding, LoadErr, load};
use careful_write::{Disk, Down, Full, Store};
use extents::{all_extents, free_run, longest_free};
use file_base::{FileHead, FileName, NodeName, Span};
use std::marker::Model;
use volume_format::{
    DirectoryEntry, Home, layouts_are_read_as_written, write_directory, write_home, write_ru,
};

/// A volume over a store. It keeps the home, the directory and the positions of the recovery unit journal, so that
/// looking up a file reads no disk. Since it lends the store, that they are what the content tells is a condition and a
/// promise of the calls that take a volume.
#[derive(Drop)]
pub struct Volume<D: Disk> {
    store: Store<D>,
    catalog: Catalog,
}

impl<D: Disk> Model for Volume<D> {
    ghost use Rattle.volume.specs.State.{VolumeState};

    ghost Value = { VolumeState };

    ghost view = { λ v. record { catalog = v.catalog; store = v.store } };

    ghost use Rattle.std.specs.Prelude.{◌≡◌, length};
    ghost use Rattle.file_base.specs.vms_model.Limits.{file_limit};

    ghost invariant = { λ v. length v.catalog.heads ≡ file_limit };
}

/// Why a store was not mounted, with the store.
#[derive(Drop)]
pub enum MountErr<D: Disk> {
    /// The lowest condition of a valid volume that fails, at the lowest block at which it does.
    Condition {
        number: u8,
        block: u32,
        store: Store<D>,
    },
    Down {
        down: Down,
        store: Store<D>,
    },
}

impl<D: Disk> Volume<D> {
    /// Mounts the volume of a node. It writes nothing.
    pub fn mount(mut store: Store<D>, node: NodeName) -> Result<Volume<D>, MountErr<D>>
        requires size { least_disk_size ≤ store.disk.size }
        ensures store { IfOk result (λ v. SameButReads store v.store) }
        ensures whole { IfSome store.current (λ c. length c + content_start ≡ store.disk.size) }
        ensures each { IfSome store.current EachWhole }
        ensures fits { OnOk result (store.fits ≡ true) }
        ensures holds { IfOk result Holds }
        ensures sound { IfOk result (λ v. IsSound node store.disk.size v.catalog) }
        ensures only { IfOk result (λ v. IfSome store.current (TellsOnly v.catalog)) }
        ensures valid { IfOk result (λ v. IfSome store.current (IsValid node store.fits)) }
        ensures err { IfErr result (Finds node store) }
    {
        match load(&mut store, &node) {
            Ok(catalog) => Ok(Volume { store, catalog }),
            Err(LoadErr::Finding(Finding { number, block })) => Err(MountErr::Condition {
                number,
                block,
                store,
            }),
            Err(LoadErr::Down(down)) => Err(MountErr::Down { down, store }),
        }
    }

    /// How many blocks the disk has.
    pub fn blocks(&self) -> u32
        ensures { result ≡ self.now.store.disk.size }
    {
        self.store.blocks()
    }

    /// The file of a file number. None exactly where it has none.
    pub fn head(&self, file: u8) -> Option<&FileHead>
        ensures value { option_copied result ≡ head_at self.now.catalog.heads file }
        ensures whole { length self.now.catalog.heads ≡ file_limit }
    {
        if file < 64 {
            self.catalog.heads[file as usize].as_ref()
        } else {
            None
        }
    }

    /// The lowest file number whose file has a name. None exactly where no file has it.
    pub fn find(&self, name: &FileName) -> Option<u8>
        ensures found { IfSome result (λ f. (h : HeadSaid) × (f < file_limit) × (head_at self.now.catalog.heads f ≡ Some h) × (h.name ≡ name.now)) }
        ensures lowest { IfSome result (λ f. NewName self.now.catalog.heads f name.now) }
        ensures none { IfNone result (NewName self.now.catalog.heads file_limit name.now) }
        ensures whole { length self.now.catalog.heads ≡ file_limit }
    {
        find_name(&self.catalog.heads, 64, name)
    }

    /// The fields of the home block.
    pub fn home(&self) -> &Home
        ensures { result.now ≡ self.now.catalog.home }
    {
        &self.catalog.home
    }

    /// The recovery unit journal.
    pub fn ru(&self) -> &Span
        ensures { result.now ≡ self.now.catalog.ru }
    {
        &self.catalog.ru
    }

    /// How many blocks the longest run of free blocks of the data area has.
    pub fn longest_free(&self) -> u32
        ensures found { 0 < result → (start : ℕ) × IsFreeRun (area_said (sizes_of self.now.catalog.home)) (extents_said self.now.catalog.heads) start result }
        ensures longest { (start blocks : ℕ) → IsFreeRun (area_said (sizes_of self.now.catalog.home)) (extents_said self.now.catalog.heads) start blocks → blocks ≤ result }
    {
        longest_free(
            &all_extents(&self.catalog.heads),
            data_area(&self.catalog.home.sizes()),
        ) as u32
    }

    /// The lowest block of the data area at which a run of so many free blocks begins.
    pub fn free_run(&self, blocks: u32) -> Option<u32>
        ensures found { IfSome result (λ start. IsFreeRun (area_said (sizes_of self.now.catalog.home)) (extents_said self.now.catalog.heads) start blocks) }
        ensures lowest { IfSome result (λ start. (lower : ℕ) → lower < start → IsFreeRun (area_said (sizes_of self.now.catalog.home)) (extents_said self.now.catalog.heads) lower blocks → ⊥) }
        ensures none { IfNone result ((start : ℕ) → IsFreeRun (area_said (sizes_of self.now.catalog.home)) (extents_said self.now.catalog.heads) start blocks → ⊥) }
    {
        let area = data_area(&self.catalog.home.sizes());
        match free_run(&all_extents(&self.catalog.heads), area, blocks) {
            Some(start) => Some(start as u32),
            None => None,
        }
    }

    /// The lowest file number without a file.
    pub fn free_file(&self) -> Option<u8>
        ensures found { IfSome result (λ f. (f < file_limit) × (head_at self.now.catalog.heads f ≡ None)) }
        ensures lowest { IfSome result (λ f. (g : ℕ) → g < f → head_at self.now.catalog.heads g ≡ None → ⊥) }
        ensures none { IfNone result ((g : ℕ) → g < file_limit → head_at self.now.catalog.heads g ≡ None → ⊥) }
    {
        free_number(&self.catalog.heads)
    }

    /// Stages the directory block of a file number, which has this file from now on. Full exactly where 512 other blocks
    /// are staged.
    pub fn stage_head(&mut self, file: u8, head: &FileHead) -> Result<(), Full>
        requires number { file < file_limit }
        requires size { least_disk_size ≤ self.old.store.disk.size }
        ensures store { OnOk result (self.new.store ≡ with_block (directory_start + file) (head_block_of head.now) self.old.store) }
        ensures heads { OnOk result (self.new.catalog ≡ record self.old.catalog { heads = slice_set self.old.catalog.heads file (Some head.now) }) }
        ensures full { IsErr result → (length self.old.store.touched ≡ group_limit) × (has_number (directory_start + file) self.old.store.touched ≡ false) }
        ensures err { OnErr result (self.new ≡ self.old) }
        ensures holds { Holds self.old → Holds self.new }
        ensures ready { IsReady self.old.store → IsReady self.new.store }
    {
        let entry = DirectoryEntry::File(*head);
        let mut block = [0; 512];
        write_directory(&entry, &mut block);
        self.store.stage(519 + u32::from(file), &block)?;
        self.catalog.heads[file as usize] = Some(*head);
        Ok(())
    }

    /// Stages the home block, with zeros where no field stands. Full exactly where 512 other blocks are staged.
    pub fn stage_home(&mut self, home: &Home) -> Result<(), Full>
        requires size { least_disk_size ≤ self.old.store.disk.size }
        ensures store { OnOk result (self.new.store ≡ with_block home_block (home_block_of home.now) self.old.store) }
        ensures home { OnOk result (self.new.catalog ≡ record self.old.catalog { home = home.now }) }
        ensures full { IsErr result → (length self.old.store.touched ≡ group_limit) × (has_number home_block self.old.store.touched ≡ false) }
        ensures err { OnErr result (self.new ≡ self.old) }
        ensures holds { Holds self.old → Holds self.new }
        ensures ready { IsReady self.old.store → IsReady self.new.store }
    {
        let mut block = [0; 512];
        write_home(home, &mut block);
        layouts_are_read_as_written();
        self.store.stage(518, &block)?;
        self.catalog.home = *home;
        Ok(())
    }

    /// Stages the positions of the recovery unit journal. Full exactly where 512 other blocks are staged.
    pub fn stage_ru(&mut self, span: &Span) -> Result<(), Full>
        requires size { least_disk_size ≤ self.old.store.disk.size }
        ensures store { OnOk result (self.new.store ≡ with_block journal_block (ru_block_of span.now) self.old.store) }
        ensures ru { OnOk result (self.new.catalog ≡ record self.old.catalog { ru = span.now }) }
        ensures full { IsErr result → (length self.old.store.touched ≡ group_limit) × (has_number journal_block self.old.store.touched ≡ false) }
        ensures err { OnErr result (self.new ≡ self.old) }
        ensures holds { Holds self.old → Holds self.new }
        ensures ready { IsReady self.old.store → IsReady self.new.store }
    {
        let mut block = [0; 512];
        write_ru(span, &mut block);
        self.store.stage(583, &block)?;
        self.catalog.ru = *span;
        Ok(())
    }

    /// The store, in which blocks are read and staged.
    pub fn store(&mut self) -> &mut Store<D>
        ensures* writes { sem 𝓛 (Lends (the_row D.row D.Disk) (store_row D.row D.Disk) self.entry result (λ store. record self.old { store = store })) }
        ensures value { result.now ≡ self.old.store }
    {
        &mut self.store
    }

    /// The store, and with it the disk; the volume is no longer mounted.
    pub fn into_store(self) -> Store<D>
        ensures { result ≡ self.store }
    {
        self.store
    }
}
