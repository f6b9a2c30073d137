// The lines of resource managers, of the transaction log, and of the state of a branch.
ghost use Rattle.std.specs.Prelude.{◌≡◌, ◌∷◌, ◌++◌, flat_map, map};
ghost use Rattle.vms_model.specs.Texts.{id_text};
ghost use Rattle.vms_base.specs.Ids.{tid_of, serial_of};
ghost use Rattle.tm_types.specs.Parts.{rm_event_of, log_record_of};
ghost use Rattle.emitter_model.specs.transcript_model.Lines as model;
ghost use Rattle.emitter_model.specs.transcript_model.Lines.{line_words, list_text, event_text as event_text_of, record_text, standing_text as standing_text_of};
ghost use Rattle.transcript.specs.Buffered.{Appends};
ghost use Rattle.transcript.specs.Emitters.{kept_by};
ghost use Rattle.transcript.specs.Forms.{standing_of};

use crate::emit::SinkEmit;
use crate::form::Standing;
use crate::outside::Sink;
use vms_base::{LogKind, LogRec, RmEvent, RmName, Serial, Tid};

// What a resource manager is told, as it is shown.
fn event_text(event: RmEvent) -> &'static [u8]
    ensures { result.now ≡ event_text_of (rm_event_of event) }
{
    match event {
        RmEvent::Prepare => b"PREPARE",
        RmEvent::Commit => b"COMMIT",
        RmEvent::Abort => b"ABORT",
        RmEvent::OnePhase => b"ONEPHASE",
    }
}

// How a branch stands, as it is shown.
fn standing_text(standing: Standing) -> &'static [u8]
    ensures { result.now ≡ standing_text_of (standing_of standing) }
{
    match standing {
        Standing::Active => b"ACTIVE",
        Standing::Ending => b"ENDING",
        Standing::Prepared => b"PREPARED",
        Standing::Committed => b"COMMITTED",
        Standing::Unknown => b"UNKNOWN",
    }
}

impl<'a, K: Sink> SinkEmit<'a, K> {
    // Resource managers, each with a comma before it.
    fn put_managers_behind(&mut self, rms: &[RmName])
        ensures same_sink { self.new.sink.ghost_name ≡ self.old.sink.ghost_name }
        ensures number { self.new.number ≡ self.old.number }
        ensures appends { Appends (kept_by K.shown K.faults self.old) (flat_map (λ rm. 44 ∷ rm) rms.now) (kept_by K.shown K.faults self.new) }
    {
        for rm in rms {
            self.put(b",");
            self.put(rm.bytes());
        }
    }

    // Resource managers with commas between them, or a dash where there is none.
    fn put_managers(&mut self, rms: &[RmName])
        ensures same_sink { self.new.sink.ghost_name ≡ self.old.sink.ghost_name }
        ensures number { self.new.number ≡ self.old.number }
        ensures appends { Appends (kept_by K.shown K.faults self.old) (list_text rms.now) (kept_by K.shown K.faults self.new) }
    {
        match rms {
            [first, rest @ ..] => {
                self.put(first.bytes());
                self.put_managers_behind(rest);
            }
            [] => self.put(b"-"),
        }
    }

    // Serials and then resource managers, with commas between them, or a dash where there is none of both.
    fn put_missing(&mut self, serials: &[Serial], rms: &[RmName])
        ensures same_sink { self.new.sink.ghost_name ≡ self.old.sink.ghost_name }
        ensures number { self.new.number ≡ self.old.number }
        ensures appends { Appends (kept_by K.shown K.faults self.old) (list_text (map id_text (map serial_of serials.now) ++ rms.now)) (kept_by K.shown K.faults self.new) }
    {
        match serials {
            [first, rest @ ..] => {
                self.put_id(&first.0);
                self.put_serials_behind(rest);
                self.put_managers_behind(rms);
            }
            [] => self.put_managers(rms),
        }
    }

    pub(crate) fn put_pending(&mut self, serials: &[Serial], rms: &[RmName])
        ensures same_sink { self.new.sink.ghost_name ≡ self.old.sink.ghost_name }
        ensures number { self.new.number ≡ self.old.number }
        ensures appends { Appends (kept_by K.shown K.faults self.old) (line_words (model.Pending (map serial_of serials.now) rms.now)) (kept_by K.shown K.faults self.new) }
    {
        self.put(b"PENDING ");
        self.put_missing(serials, rms);
    }

    pub(crate) fn put_manager_told(
        &mut self,
        event: RmEvent,
        tid: &Tid,
        serial: &Serial,
        rm: &RmName,
    )
        ensures same_sink { self.new.sink.ghost_name ≡ self.old.sink.ghost_name }
        ensures number { self.new.number ≡ self.old.number }
        ensures appends { Appends (kept_by K.shown K.faults self.old) (line_words (model.ManagerTold (rm_event_of event) (tid_of tid.now) (serial_of serial.now) rm.now)) (kept_by K.shown K.faults self.new) }
    {
        self.put(b"EVENT ");
        self.put(event_text(event));
        self.put(b" ");
        self.put_branch(tid, serial);
        self.put(b" ");
        self.put(rm.bytes());
    }

    // A record by its kind: its branch, the serials that a committed one waits for, and its managers.
    fn put_log_record(&mut self, rec: &LogRec)
        ensures same_sink { self.new.sink.ghost_name ≡ self.old.sink.ghost_name }
        ensures number { self.new.number ≡ self.old.number }
        ensures appends { Appends (kept_by K.shown K.faults self.old) (record_text (log_record_of rec.now).kind (log_record_of rec.now)) (kept_by K.shown K.faults self.new) }
    {
        match rec.kind {
            LogKind::Prepared => {
                self.put(b"PREPARED ");
                self.put_branch(&rec.tid, &rec.serial);
                self.put(b" ");
                self.put_managers(rec.rms.items());
            }
            LogKind::Committed => {
                self.put(b"COMMITTED ");
                self.put_branch(&rec.tid, &rec.serial);
                self.put(b" ");
                self.put_serials(rec.waiting.items());
                self.put(b" ");
                self.put_managers(rec.rms.items());
            }
        }
    }

    pub(crate) fn put_log_entry(&mut self, slot: u32, rec: &LogRec)
        ensures same_sink { self.new.sink.ghost_name ≡ self.old.sink.ghost_name }
        ensures number { self.new.number ≡ self.old.number }
        ensures appends { Appends (kept_by K.shown K.faults self.old) (line_words (model.LogEntry slot (log_record_of rec.now))) (kept_by K.shown K.faults self.new) }
    {
        self.put(b"LOG ");
        self.put_number(u64::from(slot));
        self.put(b" ");
        self.put_log_record(rec);
    }

    pub(crate) fn put_standing(&mut self, standing: Standing)
        ensures same_sink { self.new.sink.ghost_name ≡ self.old.sink.ghost_name }
        ensures number { self.new.number ≡ self.old.number }
        ensures appends { Appends (kept_by K.shown K.faults self.old) (line_words (model.NormalStanding (standing_of standing))) (kept_by K.shown K.faults self.new) }
    {
        self.put(b"SS$_NORMAL ");
        self.put(standing_text(standing));
    }

    pub(crate) fn put_log_counts(&mut self, committed: u32, prepared: u32, free: u32)
        ensures same_sink { self.new.sink.ghost_name ≡ self.old.sink.ghost_name }
        ensures number { self.new.number ≡ self.old.number }
        ensures appends { Appends (kept_by K.shown K.faults self.old) (line_words (model.NormalLog committed prepared free)) (kept_by K.shown K.faults self.new) }
    {
        self.put(b"SS$_NORMAL ");
        self.put_number(u64::from(committed));
        self.put(b" ");
        self.put_number(u64::from(prepared));
        self.put(b" ");
        self.put_number(u64::from(free));
    }
}
