//! The journal of recovery units as it is shown.
ghost use Rattle.std.specs.Prelude.{◌≡◌, ◌<◌, ℕ, List, Some, IfOk, IfSome, OnOk, map, option_map};
ghost use Rattle.std.specs.Option.{option_copied};
ghost use Rattle.vms_model.specs.Limits.{moment_ceiling};
ghost use Rattle.careful_write.specs.Down.{answered};
ghost use Rattle.journal_format.specs.Heads.{entry_of};
ghost use Rattle.journal_format.specs.journal_model.Entries.{IsEntry};
ghost use Rattle.emitter_model.specs.Emitting.{Since};
ghost use Rattle.transcript.specs.Forms.{HasTime, line_of};
ghost use Rattle.file_images.specs.unit_laws.Journal.{Journal, JournalEntry};
ghost use Rattle.journal_store.specs.Rings.{IsRing};
ghost use Rattle.script_lang.specs.Statements.{side_of};
ghost use Rattle.vms_base.specs.Keys.{key_of};
ghost use Rattle.vms_base.specs.Ids.{serial_of};
ghost use Rattle.file_images.specs.run_model.Answers.{entry_line, service};
ghost use Rattle.script_lang.specs.script_model.Statements as said;
ghost use Rattle.recovery_units.specs.volume_model.Entries.{IsFileOf, entry_for};
ghost use Rattle.recovery_units.specs.State.{IsEarly, IsInOrder, IsShowable};
ghost use Rattle.node_standing.specs.node_table.Code.{stored_of};
ghost use Rattle.file_requests.specs.Listing.{HasShowable, ShowsEntry, ShowsJournal, change_shown, key_by, span_at};
ghost use Rattle.file_requests.specs.Replying.{IsQuiet, RepliesIf, ShowsQuietly};
ghost use Rattle.file_requests.specs.Serving.{SameStored, ServesFile};

use crate::finding::find_file;
use crate::law::the_laws;
use block_disk::Disk;
use careful_write::Down;
use file_base::{FileHead, Organization, Span};
use journal_format::{EntryHead, EntryKind, key_number};
use journal_store::entry_at;
use node_standing::Stored;
use recovery_units::RecoveryUnits;
use script_lang::Side;
use transcript::{Emit, Form};
use vms_base::{FileName, Key, KeyText, Record};

// The key that an entry has of a file so organized.
fn key_in(organization: Organization, key: &KeyText) -> Option<Key>
    ensures { option_map key_of result ≡ key_by organization key.now }
{
    match organization {
        Organization::Indexed => Some(Key::Text(*key)),
        Organization::Sequential | Organization::Relative => match key_number(key) {
            Some(number) => Some(Key::Number(number)),
            None => None,
        },
    }
}

// The line for an entry of a change of a file, which had this image before.
fn change_form<'a>(
    position: u64,
    entry: &EntryHead,
    head: Option<&FileHead>,
    image: &'a Record,
) -> Option<Form<'a>>
    ensures line { option_map line_of result ≡ change_shown position entry.now (option_copied head.entry) image.now }
    ensures time { IfSome result HasTime }
{
    let head = head?;
    let Some(bytes) = entry.key else {
        return None;
    };
    let key = key_in(head.organization, &bytes)?;
    let before = if entry.present { Some(image) } else { None };
    Some(Form::ChangeEntry(position, entry.tid, entry.serial, head.name, key, before))
}

// The line for an entry at a position, where it is one of this volume.
fn entry_form<'a, D: Disk, U: RecoveryUnits>(
    stored: &'a Stored<D, U>,
    position: u64,
    entry: &EntryHead,
) -> Option<Form<'a>>
    requires greatest { stored.now.volume.catalog.home.greatest_moment.0 < moment_ceiling }
    requires is { IsEntry (entry_of entry.now stored.now.room.found) }
    ensures shows { (e : JournalEntry) (f : ℕ) → IsFileOf stored.now.volume.catalog.heads e f → entry_of entry.now stored.now.room.found ≡ entry_for f e → IsShowable stored.now.volume.catalog.heads stored.now.volume.catalog.home.greatest_moment.0 e → option_map line_of result ≡ Some (entry_line position e) }
    ensures time { IfSome result HasTime }
    ensures quiet { IfSome result (λ form. IsQuiet (line_of form)) }
{
    match entry.kind {
        EntryKind::Change => change_form(
            position,
            entry,
            stored.volume.head(entry.file),
            &stored.room.found,
        ),
        EntryKind::Prepared => Some(Form::PreparedEntry(position, entry.tid, entry.serial)),
        EntryKind::Settled => {
            if entry.moment.0 > stored.volume.home().greatest_moment.0 {
                return None;
            }
            let outcome = entry.outcome?;
            Some(Form::SettledEntry(position, entry.tid, entry.serial, outcome, entry.moment))
        }
    }
}

/// DUMP_JOURNAL RU: the entries from the first to the end, read one after another, up to what is none of this volume.
pub fn dump_journal<D: Disk, U: RecoveryUnits, E: Emit>(
    stored: &mut Stored<D, U>,
    out: &mut E,
) -> Result<(), Down>
    requires order { IsInOrder (U.state stored.old.units) stored.old.volume }
    requires early { IsEarly stored.old.volume }
    ensures place { E.place out.new ≡ E.place out.old }
    ensures serves { ServesFile result (service said.DumpJournal) (stored_of U.state stored.old) (stored_of U.state stored.new) (E.shows out.old) (E.shows out.new) }
{
    the_laws();
    let span = *stored.volume.ru();
    show_entries(stored, &span, out)
}

// The journal of images of a side, where the file has one.
fn images_at(head: &FileHead, side: Side) -> Option<Span>
    ensures { result ≡ span_at (side_of side) head.now }
{
    match side {
        Side::AfterImages if head.marks.ai => Some(head.ai),
        Side::BeforeImages if head.marks.bi => Some(head.bi),
        _ => None,
    }
}

/// DUMP_JOURNAL of a file: the entries of its journal of after images, or of before images.
pub fn dump_images<D: Disk, U: RecoveryUnits, E: Emit>(
    stored: &mut Stored<D, U>,
    name: &FileName,
    side: Side,
    out: &mut E,
) -> Result<(), Down>
    requires order { IsInOrder (U.state stored.old.units) stored.old.volume }
    requires early { IsEarly stored.old.volume }
    ensures place { E.place out.new ≡ E.place out.old }
    ensures serves { ServesFile result (service (said.DumpImages name.now (side_of side))) (stored_of U.state stored.old) (stored_of U.state stored.new) (E.shows out.old) (E.shows out.new) }
{
    the_laws();
    let Some((_, head)) = find_file(stored, name) else {
        out.emit(&Form::FileNotFound);
        return Ok(());
    };
    let Some(span) = images_at(&head, side) else {
        out.emit(&Form::NoJournal);
        return Ok(());
    };
    show_entries(stored, &span, out)
}

// Shows the entries of a ring and between which positions they lie.
fn show_entries<D: Disk, U: RecoveryUnits, E: Emit>(
    stored: &mut Stored<D, U>,
    span: &Span,
    out: &mut E,
) -> Result<(), Down>
    requires order { IsInOrder (U.state stored.old.units) stored.old.volume }
    requires early { IsEarly stored.old.volume }
    requires ring { IsRing span.now stored.old.volume.store.disk }
    ensures same { OnOk result (SameStored (stored_of U.state stored.old) (stored_of U.state stored.new)) }
    ensures catalog { stored.new.volume.catalog ≡ stored.old.volume.catalog }
    ensures units { U.state stored.new.units ≡ U.state stored.old.units }
    ensures in_doubt { map serial_of stored.new.room.in_doubt.items ≡ map serial_of stored.old.room.in_doubt.items }
    ensures disk { stored.new.volume.store.disk ≡ answered result stored.old.volume.store.disk }
    ensures pool { stored.new.volume.store.pool ≡ stored.old.volume.store.pool }
    ensures place { E.place out.new ≡ E.place out.old }
    ensures since { Since (E.shows out.old) (E.shows out.new) }
    ensures replies { RepliesIf result (E.shows out.old) (E.shows out.new) }
    ensures shows { (content : List (List ℕ)) (j : Journal) → stored.old.volume.store.current ≡ Some content → HasShowable stored.old.volume span.now content j → ShowsJournal result j (E.shows out.old) (E.shows out.new) }
{
    the_laws();
    let mut position = span.first;
    while position < span.end {
        match show_entry(stored, span, position, out) {
            Err(down) => return Err(down),
            Ok(None) => {
                out.emit(&Form::NormalSpan(span.first, span.end));
                return Ok(());
            }
            Ok(Some(next)) => position = next,
        }
    }
    out.emit(&Form::NormalSpan(span.first, span.end));
    Ok(())
}

// Shows the entry at a position, and tells the position behind it; None where none stands there that is of this volume.
fn show_entry<D: Disk, U: RecoveryUnits, E: Emit>(
    stored: &mut Stored<D, U>,
    span: &Span,
    position: u64,
    out: &mut E,
) -> Result<Option<u64>, Down>
    requires order { IsInOrder (U.state stored.old.units) stored.old.volume }
    requires early { IsEarly stored.old.volume }
    requires ring { IsRing span.now stored.old.volume.store.disk }
    requires low { position < span.now.end }
    ensures same { OnOk result (SameStored (stored_of U.state stored.old) (stored_of U.state stored.new)) }
    ensures catalog { stored.new.volume.catalog ≡ stored.old.volume.catalog }
    ensures units { U.state stored.new.units ≡ U.state stored.old.units }
    ensures in_doubt { map serial_of stored.new.room.in_doubt.items ≡ map serial_of stored.old.room.in_doubt.items }
    ensures disk { stored.new.volume.store.disk ≡ answered result stored.old.volume.store.disk }
    ensures pool { stored.new.volume.store.pool ≡ stored.old.volume.store.pool }
    ensures place { E.place out.new ≡ E.place out.old }
    ensures since { Since (E.shows out.old) (E.shows out.new) }
    ensures quiet { ShowsQuietly (E.shows out.old) (E.shows out.new) }
    ensures on { IfOk result (λ next. IfSome next (λ behind. position < behind)) }
    ensures shows { ShowsEntry result position span.now stored.old.volume (E.shows out.old) (E.shows out.new) }
{
    match entry_at(
        stored.volume.store(),
        span,
        position,
        &mut stored.room.found,
    ) {
        Err(down) => Err(down),
        Ok(None) => Ok(None),
        Ok(Some((head, next))) => match entry_form(stored, position, &head) {
            None => Ok(None),
            Some(form) => {
                out.emit(&form);
                Ok(Some(next))
            }
        },
    }
}
