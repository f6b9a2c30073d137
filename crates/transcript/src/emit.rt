//! Transcript lines, one after another, up to the first write that fails.
ghost use Rattle.std.specs.Prelude.{◌≡◌, ◌<◌, ◌≤◌, [], ◌∷◌, ◌++◌, ℕ, true, false, take, IfOk, decimal, flat_map, codes};
ghost use Rattle.std.specs.Bool.{OnTrue, OnFalse};
ghost use Rattle.std.specs.Borrow.{GName};
ghost use Rattle.std.specs.List.{list_all};
ghost use Rattle.vms_model.specs.Keys.{key_text};
ghost use Rattle.vms_model.specs.Texts.{id_text, is_plain as is_plain_byte, hex_digit as hex_digit_of, hex_byte, bytes_text};
ghost use Rattle.vms_model.specs.Times.{CanBeWritten};
ghost use Rattle.vms_base.specs.Ids.{id_of, tid_of, serial_of};
ghost use Rattle.vms_base.specs.Keys.{key_of};
ghost use Rattle.vms_base.specs.Outcomes.{outcome_of, reason_of};
ghost use Rattle.emitter_model.specs.transcript_model.Lines as model;
ghost use Rattle.emitter_model.specs.transcript_model.Lines.{line_words, quoted_time, cause_text, quota_text, image_text, outcome_text, usage_text};
ghost use Rattle.emitter_model.specs.Emitting.{Puts, Emits, EmittingComposes, Shown, Since};
ghost use Rattle.transcript.specs.Writes.{Writes};
ghost use Rattle.transcript.specs.Buffered.{Appends};
ghost use Rattle.transcript.specs.Emitters.{shown_by, kept_by};
ghost use Rattle.transcript.specs.Forms.{HasTime, line_of, cause_of, quota_of, image_of};

use crate::form::{Cause, Form, Quota};
use crate::outside::Sink;
use itoa::Buffer;
use std::alloc::{AllocError, Global};
use vms_base::{FileName, Id, Key, Moment, NodeName, Outcome, Reason, Record, Serial, Tid};
use vms_times::write_time;

const BUFFER_BYTES: usize = 16_384;

/// What writes the lines of a transcript.
pub trait Emit {
    /// What it shows.
    ghost shows: { Self → Shown };

    /// Where it writes to.
    ghost place: { Self → GName };

    /// Writes a line, with its number before it. A moment in it is at most 31-DEC-9999 23:59:59.99.
    fn emit(&mut self, form: &Form<'_>)
        requires { HasTime form.now }
        ensures same_place { place self.new ≡ place self.old }
        ensures emits { Emits (shows self.old) (line_of form.now ∷ []) (shows self.new) }
        ensures since { Since (shows self.old) (shows self.new) };
}

/// Lines that are emitted in two steps are emitted in one, also where a write fails between them.
pub fn emitting_composes()
    ensures { EmittingComposes }
{}

/// Room for the bytes of a line on their way to a sink. It takes memory once.
#[derive(Drop)]
pub struct LineBuffer {
    bytes: Vec<u8>,
}

impl LineBuffer {
    /// An empty buffer, or an error where there is no memory for it.
    pub fn reserve(alloc: Global) -> Result<LineBuffer, AllocError> {
        let bytes = Vec::with_capacity(alloc, BUFFER_BYTES)?;
        Ok(LineBuffer { bytes })
    }
}

/// Writes lines to a sink.
///
/// A line goes through a buffer, which takes memory once, and all of it is written before `emit` returns.
/// From the first write that fails on nothing is written.
#[derive(Drop)]
pub struct SinkEmit<'a, K> {
    sink: &'a mut K,
    buffer: Vec<u8>,
    number: u32,
    failed: bool,
}

impl<'a, K: Sink> SinkEmit<'a, K> {
    /// At line 0, before any write, with a buffer that is there.
    pub fn over(sink: &'a mut K, buffer: LineBuffer) -> SinkEmit<'a, K>
        ensures same_sink { result.sink.ghost_name ≡ sink.entry.ghost_name }
        ensures now { shown_by K.shown K.faults result ≡ record { number = 0; text = K.shown sink.old; faults = K.faults sink.old; failed = false; tally = None } }
    {
        SinkEmit {
            sink,
            buffer: buffer.bytes,
            number: 0,
            failed: false,
        }
    }

    /// At line 0, before any write.
    pub fn new(alloc: Global, sink: &'a mut K) -> Result<SinkEmit<'a, K>, AllocError>
        ensures same_sink { IfOk result (λ e. e.sink.ghost_name ≡ sink.entry.ghost_name) }
        ensures now { IfOk result (λ e. shown_by K.shown K.faults e ≡ record { number = 0; text = K.shown sink.old; faults = K.faults sink.old; failed = false; tally = None }) }
    {
        let buffer = Vec::with_capacity(alloc, BUFFER_BYTES)?;
        Ok(SinkEmit {
            sink,
            buffer,
            number: 0,
            failed: false,
        })
    }

    /// The sink, when nothing is to be written any more.
    pub fn into_sink(self) -> &'a mut K
        ensures same_sink { result.ghost_name ≡ self.entry.sink.ghost_name }
        ensures now { result.now ≡ self.entry.sink.now }
    {
        let SinkEmit {
            sink,
            buffer: _buffer,
            number: _,
            failed: _,
        } = self;
        sink
    }

    /// Sets the number of the lines from now on.
    pub fn at(&mut self, number: u32)
        ensures same_sink { self.new.sink.ghost_name ≡ self.old.sink.ghost_name }
        ensures at { shown_by K.shown K.faults self.new ≡ record (shown_by K.shown K.faults self.old) { number = number } }
    {
        self.number = number;
    }

    /// Whether a write failed.
    pub fn failed(&self) -> bool
        ensures { result ≡ (shown_by K.shown K.faults self.now).failed }
    {
        self.failed
    }

    /// Writes the line that answers words of a command which are no command. It has no number.
    pub fn usage(&mut self)
        ensures same_sink { self.new.sink.ghost_name ≡ self.old.sink.ghost_name }
        ensures puts { Puts (shown_by K.shown K.faults self.old) usage_text (shown_by K.shown K.faults self.new) }
    {
        self.buffer.clear();
        self.put(b"usage: dtm RUN NODE=IMAGE ... or dtm MAKE n start\n");
        self.flush();
    }

    /// Writes a line without a number: these words, and a count behind them.
    pub fn count(&mut self, words: &[u8], n: u64)
        ensures same_sink { self.new.sink.ghost_name ≡ self.old.sink.ghost_name }
        ensures puts { Puts (shown_by K.shown K.faults self.old) (words.now ++ (decimal n ++ (10 ∷ []))) (shown_by K.shown K.faults self.new) }
    {
        self.buffer.clear();
        self.put(words);
        self.put_number(n);
        self.put(b"\n");
        self.flush();
    }

    /// Writes what a line shows without a number. A moment in it is at most 31-DEC-9999 23:59:59.99.
    pub fn alone(&mut self, form: &Form<'_>)
        requires { HasTime form.now }
        ensures same_sink { self.new.sink.ghost_name ≡ self.old.sink.ghost_name }
        ensures puts { Puts (shown_by K.shown K.faults self.old) (line_words (line_of form.now) ++ (10 ∷ [])) (shown_by K.shown K.faults self.new) }
    {
        self.buffer.clear();
        self.put_words(form);
        self.put(b"\n");
        self.flush();
    }

    // Puts bytes behind those that wait, where there is room for them.
    fn hold(&mut self, bytes: &[u8]) -> bool
        ensures same_sink { self.new.sink.ghost_name ≡ self.old.sink.ghost_name }
        ensures shown { shown_by K.shown K.faults self.new ≡ shown_by K.shown K.faults self.old }
        ensures held { OnTrue result (self.new.buffer.items ≡ self.old.buffer.items ++ bytes.now) }
        ensures full { OnFalse result (self.new.buffer.items ≡ self.old.buffer.items) }
    {
        bytes.len() <= self.buffer.capacity() - self.buffer.len()
            && self.buffer.extend_from_slice(bytes).is_ok()
    }

    // Writes bytes, unless a write has failed.
    fn write_out(&mut self, bytes: &[u8])
        ensures same_sink { self.new.sink.ghost_name ≡ self.old.sink.ghost_name }
        ensures puts { Puts (shown_by K.shown K.faults self.old) bytes.now (shown_by K.shown K.faults self.new) }
        ensures buffer { self.new.buffer.items ≡ self.old.buffer.items }
    {
        if self.failed {
            return;
        }
        if !write_all_to(self.sink, bytes) {
            self.failed = true;
        }
    }

    // Writes what waits, unless a write has failed.
    fn flush(&mut self)
        ensures same_sink { self.new.sink.ghost_name ≡ self.old.sink.ghost_name }
        ensures puts { Puts (shown_by K.shown K.faults self.old) self.old.buffer.items (shown_by K.shown K.faults self.new) }
        ensures empty { self.new.buffer.items ≡ [] }
    {
        if !self.failed && !write_all_to(self.sink, self.buffer.as_slice()) {
            self.failed = true;
        }
        self.buffer.clear();
    }

    // Puts bytes behind what was put.
    pub(crate) fn put(&mut self, bytes: &[u8])
        ensures same_sink { self.new.sink.ghost_name ≡ self.old.sink.ghost_name }
        ensures number { self.new.number ≡ self.old.number }
        ensures appends { Appends (kept_by K.shown K.faults self.old) bytes.now (kept_by K.shown K.faults self.new) }
    {
        if self.hold(bytes) {
            return;
        }
        self.flush();
        if self.hold(bytes) {
            return;
        }
        self.write_out(bytes);
    }

    pub(crate) fn put_number(&mut self, n: u64)
        ensures same_sink { self.new.sink.ghost_name ≡ self.old.sink.ghost_name }
        ensures number { self.new.number ≡ self.old.number }
        ensures appends { Appends (kept_by K.shown K.faults self.old) (decimal n) (kept_by K.shown K.faults self.new) }
    {
        let mut buffer = Buffer::new();
        self.put(buffer.format(n).as_bytes());
    }

    // Bytes between quotes, or in hexadecimal digits.
    fn put_bytes(&mut self, bytes: &[u8])
        ensures same_sink { self.new.sink.ghost_name ≡ self.old.sink.ghost_name }
        ensures number { self.new.number ≡ self.old.number }
        ensures appends { Appends (kept_by K.shown K.faults self.old) (bytes_text bytes.now) (kept_by K.shown K.faults self.new) }
    {
        if are_plain(bytes) {
            self.put(b"\"");
            self.put(bytes);
            self.put(b"\"");
        } else {
            self.put(b"%X");
            self.put_hex(bytes);
        }
    }

    pub(crate) fn put_id(&mut self, id: &Id)
        ensures same_sink { self.new.sink.ghost_name ≡ self.old.sink.ghost_name }
        ensures number { self.new.number ≡ self.old.number }
        ensures appends { Appends (kept_by K.shown K.faults self.old) (id_text (id_of id.now)) (kept_by K.shown K.faults self.new) }
    {
        self.put(id.node.bytes());
        self.put(b".");
        self.put_number(u64::from(id.boot));
        self.put(b".");
        self.put_number(u64::from(id.seq));
    }

    fn put_key(&mut self, key: &Key)
        ensures same_sink { self.new.sink.ghost_name ≡ self.old.sink.ghost_name }
        ensures number { self.new.number ≡ self.old.number }
        ensures appends { Appends (kept_by K.shown K.faults self.old) (key_text (key_of key.now)) (kept_by K.shown K.faults self.new) }
    {
        match key {
            Key::Number(n) => self.put_number(u64::from(*n)),
            Key::Text(text) => self.put_bytes(text.bytes()),
            Key::End => {}
        }
    }

    pub(crate) fn put_time(&mut self, moment: Moment)
        requires { CanBeWritten moment.0 }
        ensures same_sink { self.new.sink.ghost_name ≡ self.old.sink.ghost_name }
        ensures number { self.new.number ≡ self.old.number }
        ensures appends { Appends (kept_by K.shown K.faults self.old) (quoted_time moment.0) (kept_by K.shown K.faults self.new) }
    {
        let text = write_time(moment);
        self.put(b"\"");
        self.put(text.bytes());
        self.put(b"\"");
    }

    fn put_cause(&mut self, cause: Cause)
        ensures same_sink { self.new.sink.ghost_name ≡ self.old.sink.ghost_name }
        ensures number { self.new.number ≡ self.old.number }
        ensures appends { Appends (kept_by K.shown K.faults self.old) (cause_text (cause_of cause)) (kept_by K.shown K.faults self.new) }
    {
        match cause {
            Cause::Failed => self.put(b"FAULT"),
            Cause::Stopped => self.put(b"STOPPED"),
        }
    }

    fn put_quota(&mut self, quota: Quota)
        ensures same_sink { self.new.sink.ghost_name ≡ self.old.sink.ghost_name }
        ensures number { self.new.number ≡ self.old.number }
        ensures appends { Appends (kept_by K.shown K.faults self.old) (quota_text (quota_of quota)) (kept_by K.shown K.faults self.new) }
    {
        match quota {
            Quota::Branches => self.put(b"BRANCHES"),
            Quota::Files => self.put(b"FILES"),
            Quota::Changes => self.put(b"CHANGES"),
            Quota::Boots => self.put(b"BOOTS"),
            Quota::Moments => self.put(b"MOMENTS"),
            Quota::Locks => self.put(b"LOCKS"),
            Quota::Positions => self.put(b"POSITIONS"),
            Quota::Slots => self.put(b"SLOTS"),
            Quota::Bids => self.put(b"BIDS"),
            Quota::Declared => self.put(b"DECLARED"),
            Quota::Managers => self.put(b"RMS"),
        }
    }

    // Words, and a number behind them.
    fn put_with_number(&mut self, words: &[u8], n: u64)
        ensures same_sink { self.new.sink.ghost_name ≡ self.old.sink.ghost_name }
        ensures number { self.new.number ≡ self.old.number }
        ensures appends { Appends (kept_by K.shown K.faults self.old) (words.now ++ decimal n) (kept_by K.shown K.faults self.new) }
    {
        self.put(words);
        self.put_number(n);
    }

    // Words, and an id behind them.
    fn put_with_id(&mut self, words: &[u8], id: &Id)
        ensures same_sink { self.new.sink.ghost_name ≡ self.old.sink.ghost_name }
        ensures number { self.new.number ≡ self.old.number }
        ensures appends { Appends (kept_by K.shown K.faults self.old) (words.now ++ id_text (id_of id.now)) (kept_by K.shown K.faults self.new) }
    {
        self.put(words);
        self.put_id(id);
    }

    // Words, and a record with its key behind them.
    fn put_keyed(&mut self, words: &[u8], key: &Key, shown: &Record)
        ensures same_sink { self.new.sink.ghost_name ≡ self.old.sink.ghost_name }
        ensures number { self.new.number ≡ self.old.number }
        ensures appends { Appends (kept_by K.shown K.faults self.old) (words.now ++ (key_text (key_of key.now) ++ (32 ∷ bytes_text shown.now))) (kept_by K.shown K.faults self.new) }
    {
        self.put(words);
        self.put_key(key);
        self.put(b" ");
        self.put_bytes(shown.bytes());
    }

    fn put_record(&mut self, key: &Key, shown: &Record)
        ensures same_sink { self.new.sink.ghost_name ≡ self.old.sink.ghost_name }
        ensures number { self.new.number ≡ self.old.number }
        ensures appends { Appends (kept_by K.shown K.faults self.old) (line_words (model.Record (key_of key.now) shown.now)) (kept_by K.shown K.faults self.new) }
    {
        self.put_keyed(b"RECORD ", key, shown);
    }

    fn put_next_found(&mut self, key: &Key, shown: &Record)
        ensures same_sink { self.new.sink.ghost_name ≡ self.old.sink.ghost_name }
        ensures number { self.new.number ≡ self.old.number }
        ensures appends { Appends (kept_by K.shown K.faults self.old) (line_words (model.NextFound (key_of key.now) shown.now)) (kept_by K.shown K.faults self.new) }
    {
        self.put_keyed(b"RMS$_NORMAL ", key, shown);
    }

    fn put_found(&mut self, shown: &Record)
        ensures same_sink { self.new.sink.ghost_name ≡ self.old.sink.ghost_name }
        ensures number { self.new.number ≡ self.old.number }
        ensures appends { Appends (kept_by K.shown K.faults self.old) (line_words (model.RecordFound shown.now)) (kept_by K.shown K.faults self.new) }
    {
        self.put(b"RMS$_NORMAL ");
        self.put_bytes(shown.bytes());
    }

    fn put_position(&mut self, position: u32)
        ensures same_sink { self.new.sink.ghost_name ≡ self.old.sink.ghost_name }
        ensures number { self.new.number ≡ self.old.number }
        ensures appends { Appends (kept_by K.shown K.faults self.old) (line_words (model.RecordPosition position)) (kept_by K.shown K.faults self.new) }
    {
        self.put(b"RMS$_NORMAL ");
        self.put_number(u64::from(position));
    }

    fn put_committed(&mut self, tid: &Tid, serial: &Serial, moment: Moment)
        requires { CanBeWritten moment.0 }
        ensures same_sink { self.new.sink.ghost_name ≡ self.old.sink.ghost_name }
        ensures number { self.new.number ≡ self.old.number }
        ensures appends { Appends (kept_by K.shown K.faults self.old) (line_words (model.Committed (tid_of tid.now) (serial_of serial.now) moment.0)) (kept_by K.shown K.faults self.new) }
    {
        self.put(b"COMMIT ");
        self.put_id(&tid.0);
        self.put(b" ");
        self.put_id(&serial.0);
        self.put(b" ");
        self.put_time(moment);
    }

    fn put_aborted(&mut self, tid: &Tid, serial: &Serial, reason: Reason, moment: Moment)
        requires { CanBeWritten moment.0 }
        ensures same_sink { self.new.sink.ghost_name ≡ self.old.sink.ghost_name }
        ensures number { self.new.number ≡ self.old.number }
        ensures appends { Appends (kept_by K.shown K.faults self.old) (line_words (model.Aborted (tid_of tid.now) (serial_of serial.now) (reason_of reason) moment.0)) (kept_by K.shown K.faults self.new) }
    {
        self.put(b"ABORT ");
        self.put_id(&tid.0);
        self.put(b" ");
        self.put_id(&serial.0);
        self.put(b" ");
        self.put(reason.text());
        self.put(b" ");
        self.put_time(moment);
    }

    fn put_last_committed(&mut self, tid: &Tid, serial: &Serial, moment: Moment)
        requires { CanBeWritten moment.0 }
        ensures same_sink { self.new.sink.ghost_name ≡ self.old.sink.ghost_name }
        ensures number { self.new.number ≡ self.old.number }
        ensures appends { Appends (kept_by K.shown K.faults self.old) (line_words (model.LastCommitted (tid_of tid.now) (serial_of serial.now) moment.0)) (kept_by K.shown K.faults self.new) }
    {
        self.put(b"LAST ");
        self.put_committed(tid, serial, moment);
    }

    fn put_last_aborted(&mut self, tid: &Tid, serial: &Serial, reason: Reason, moment: Moment)
        requires { CanBeWritten moment.0 }
        ensures same_sink { self.new.sink.ghost_name ≡ self.old.sink.ghost_name }
        ensures number { self.new.number ≡ self.old.number }
        ensures appends { Appends (kept_by K.shown K.faults self.old) (line_words (model.LastAborted (tid_of tid.now) (serial_of serial.now) (reason_of reason) moment.0)) (kept_by K.shown K.faults self.new) }
    {
        self.put(b"LAST ");
        self.put_aborted(tid, serial, reason, moment);
    }

    // An image, or a dash where there is none.
    fn put_image(&mut self, image: Option<&Record>)
        ensures same_sink { self.new.sink.ghost_name ≡ self.old.sink.ghost_name }
        ensures number { self.new.number ≡ self.old.number }
        ensures appends { Appends (kept_by K.shown K.faults self.old) (image_text (image_of image.entry)) (kept_by K.shown K.faults self.new) }
    {
        match image {
            Some(shown) => self.put_bytes(shown.bytes()),
            None => self.put(b"-"),
        }
    }

    pub(crate) fn put_outcome(&mut self, outcome: Outcome)
        ensures same_sink { self.new.sink.ghost_name ≡ self.old.sink.ghost_name }
        ensures number { self.new.number ≡ self.old.number }
        ensures appends { Appends (kept_by K.shown K.faults self.old) (outcome_text (outcome_of outcome)) (kept_by K.shown K.faults self.new) }
    {
        match outcome {
            Outcome::Commit => self.put(b"COMMIT"),
            Outcome::Abort => self.put(b"ABORT"),
        }
    }

    // What each entry of a journal begins with: its position, its kind and its branch.
    fn put_entry(&mut self, position: u64, kind: &[u8], tid: &Tid, serial: &Serial)
        ensures same_sink { self.new.sink.ghost_name ≡ self.old.sink.ghost_name }
        ensures number { self.new.number ≡ self.old.number }
        ensures appends { Appends (kept_by K.shown K.faults self.old) (codes "ENTRY " ++ (decimal position ++ (kind.now ++ (id_text (tid_of tid.now) ++ (32 ∷ id_text (serial_of serial.now)))))) (kept_by K.shown K.faults self.new) }
    {
        self.put(b"ENTRY ");
        self.put_number(position);
        self.put(kind);
        self.put_id(&tid.0);
        self.put(b" ");
        self.put_id(&serial.0);
    }

    fn put_change_entry(
        &mut self,
        position: u64,
        tid: &Tid,
        serial: &Serial,
        file: &FileName,
        key: &Key,
        image: Option<&Record>,
    )
        ensures same_sink { self.new.sink.ghost_name ≡ self.old.sink.ghost_name }
        ensures number { self.new.number ≡ self.old.number }
        ensures appends { Appends (kept_by K.shown K.faults self.old) (line_words (model.ChangeEntry position (tid_of tid.now) (serial_of serial.now) file.now (key_of key.now) (image_of image.entry))) (kept_by K.shown K.faults self.new) }
    {
        self.put_entry(position, b" CHANGE ", tid, serial);
        self.put(b" ");
        self.put(file.bytes());
        self.put(b" ");
        self.put_key(key);
        self.put(b" ");
        self.put_image(image);
    }

    fn put_prepared_entry(&mut self, position: u64, tid: &Tid, serial: &Serial)
        ensures same_sink { self.new.sink.ghost_name ≡ self.old.sink.ghost_name }
        ensures number { self.new.number ≡ self.old.number }
        ensures appends { Appends (kept_by K.shown K.faults self.old) (line_words (model.PreparedEntry position (tid_of tid.now) (serial_of serial.now))) (kept_by K.shown K.faults self.new) }
    {
        self.put_entry(position, b" PREPARED ", tid, serial);
    }

    fn put_settled_entry(
        &mut self,
        position: u64,
        tid: &Tid,
        serial: &Serial,
        outcome: Outcome,
        moment: Moment,
    )
        requires { CanBeWritten moment.0 }
        ensures same_sink { self.new.sink.ghost_name ≡ self.old.sink.ghost_name }
        ensures number { self.new.number ≡ self.old.number }
        ensures appends { Appends (kept_by K.shown K.faults self.old) (line_words (model.SettledEntry position (tid_of tid.now) (serial_of serial.now) (outcome_of outcome) moment.0)) (kept_by K.shown K.faults self.new) }
    {
        self.put_entry(position, b" SETTLED ", tid, serial);
        self.put(b" ");
        self.put_outcome(outcome);
        self.put(b" ");
        self.put_time(moment);
    }

    fn put_down(&mut self, node: &NodeName, cause: Cause)
        ensures same_sink { self.new.sink.ghost_name ≡ self.old.sink.ghost_name }
        ensures number { self.new.number ≡ self.old.number }
        ensures appends { Appends (kept_by K.shown K.faults self.old) (line_words (model.Down node.now (cause_of cause))) (kept_by K.shown K.faults self.new) }
    {
        self.put(b"DOWN ");
        self.put(node.bytes());
        self.put(b" ");
        self.put_cause(cause);
    }

    fn put_crashed(&mut self, node: &NodeName)
        ensures same_sink { self.new.sink.ghost_name ≡ self.old.sink.ghost_name }
        ensures number { self.new.number ≡ self.old.number }
        ensures appends { Appends (kept_by K.shown K.faults self.old) (line_words (model.Crashed node.now)) (kept_by K.shown K.faults self.new) }
    {
        self.put(b"DOWN ");
        self.put(node.bytes());
        self.put(b" CRASH");
    }

    // Words, and two numbers behind them.
    pub(crate) fn put_with_numbers(&mut self, words: &[u8], first: u64, second: u64)
        ensures same_sink { self.new.sink.ghost_name ≡ self.old.sink.ghost_name }
        ensures number { self.new.number ≡ self.old.number }
        ensures appends { Appends (kept_by K.shown K.faults self.old) (words.now ++ (decimal first ++ (32 ∷ decimal second))) (kept_by K.shown K.faults self.new) }
    {
        self.put(words);
        self.put_number(first);
        self.put(b" ");
        self.put_number(second);
    }

    fn put_no_volume(&mut self, node: &NodeName, condition: u32, block: u32)
        ensures same_sink { self.new.sink.ghost_name ≡ self.old.sink.ghost_name }
        ensures number { self.new.number ≡ self.old.number }
        ensures appends { Appends (kept_by K.shown K.faults self.old) (line_words (model.NoVolume node.now condition block)) (kept_by K.shown K.faults self.new) }
    {
        self.put(b"VOLUME ");
        self.put(node.bytes());
        self.put_with_numbers(b" ", u64::from(condition), u64::from(block));
    }

    fn put_volume_full(&mut self, free: u64, need: u64)
        ensures same_sink { self.new.sink.ghost_name ≡ self.old.sink.ghost_name }
        ensures number { self.new.number ≡ self.old.number }
        ensures appends { Appends (kept_by K.shown K.faults self.old) (line_words (model.VolumeFull free need)) (kept_by K.shown K.faults self.new) }
    {
        self.put_with_numbers(b"RMS$_FUL VOLUME ", free, need);
    }

    fn put_file_full(&mut self, free: u32, need: u32)
        ensures same_sink { self.new.sink.ghost_name ≡ self.old.sink.ghost_name }
        ensures number { self.new.number ≡ self.old.number }
        ensures appends { Appends (kept_by K.shown K.faults self.old) (line_words (model.FileFull free need)) (kept_by K.shown K.faults self.new) }
    {
        self.put_with_numbers(b"RMS$_FUL FILE ", u64::from(free), u64::from(need));
    }

    fn put_journal_full(&mut self, free: u64, need: u64)
        ensures same_sink { self.new.sink.ghost_name ≡ self.old.sink.ghost_name }
        ensures number { self.new.number ≡ self.old.number }
        ensures appends { Appends (kept_by K.shown K.faults self.old) (line_words (model.JournalFull free need)) (kept_by K.shown K.faults self.new) }
    {
        self.put_with_numbers(b"RMS$_FUL RU ", free, need);
    }

    fn put_quota_exceeded(&mut self, quota: Quota, limit: u64)
        ensures same_sink { self.new.sink.ghost_name ≡ self.old.sink.ghost_name }
        ensures number { self.new.number ≡ self.old.number }
        ensures appends { Appends (kept_by K.shown K.faults self.old) (line_words (model.QuotaExceeded (quota_of quota) limit)) (kept_by K.shown K.faults self.new) }
    {
        self.put(b"SS$_EXQUOTA ");
        self.put_quota(quota);
        self.put(b" ");
        self.put_number(limit);
    }

    // The words of a line.
    fn put_words(&mut self, form: &Form<'_>)
        requires { HasTime form.now }
        ensures same_sink { self.new.sink.ghost_name ≡ self.old.sink.ghost_name }
        ensures number { self.new.number ≡ self.old.number }
        ensures appends { Appends (kept_by K.shown K.faults self.old) (line_words (line_of form.now)) (kept_by K.shown K.faults self.new) }
    {
        match form {
            Form::Sent(number, message) => self.put_sent(*number, message),
            Form::Unsent(message) => self.put_unsent(message),
            Form::Joined(tid, serial) => self.put_with_branch(b"JOINED ", tid, serial),
            Form::Started(tid, serial) => self.put_with_branch(b"STARTED ", tid, serial),
            Form::Prepared(tid, serial) => self.put_with_branch(b"PREPARED ", tid, serial),
            Form::ReadOnly(tid, serial) => self.put_with_branch(b"READONLY ", tid, serial),
            Form::Ended(tid, reason) => self.put_ended(tid, *reason),
            Form::Forgot(tid, serial) => self.put_with_branch(b"FORGOT ", tid, serial),
            Form::ManagerTold(event, tid, serial, rm) => {
                self.put_manager_told(*event, tid, serial, rm);
            }
            Form::Asked(tid, serial, outcome) => self.put_asked(tid, serial, *outcome),
            Form::Booted(node, boot) => self.put_booted(node, *boot),
            Form::Record(key, record) => self.put_record(key, record),
            Form::Committed(tid, serial, moment) => self.put_committed(tid, serial, *moment),
            Form::Aborted(tid, serial, reason, moment) => {
                self.put_aborted(tid, serial, *reason, *moment);
            }
            Form::LastCommitted(tid, serial, moment) => {
                self.put_last_committed(tid, serial, *moment);
            }
            Form::LastAborted(tid, serial, reason, moment) => {
                self.put_last_aborted(tid, serial, *reason, *moment);
            }
            Form::ChangeEntry(position, tid, serial, file, key, image) => {
                self.put_change_entry(*position, tid, serial, file, key, *image);
            }
            Form::PreparedEntry(position, tid, serial) => {
                self.put_prepared_entry(*position, tid, serial);
            }
            Form::SettledEntry(position, tid, serial, outcome, moment) => {
                self.put_settled_entry(*position, tid, serial, *outcome, *moment);
            }
            Form::LogEntry(slot, rec) => self.put_log_entry(*slot, rec),
            Form::Down(node, cause) => self.put_down(node, *cause),
            Form::Crashed(node) => self.put_crashed(node),
            Form::Normal => self.put(b"SS$_NORMAL"),
            Form::NormalCount(n) => self.put_with_number(b"SS$_NORMAL ", *n),
            Form::NormalId(id) => self.put_with_id(b"SS$_NORMAL ", id),
            Form::NormalSpan(first, end) => self.put_with_numbers(b"SS$_NORMAL ", *first, *end),
            Form::NormalSave(position, moment) => self.put_save(*position, *moment),
            Form::NormalStanding(standing) => self.put_standing(*standing),
            Form::NormalLog(committed, prepared, free) => {
                self.put_log_counts(*committed, *prepared, *free);
            }
            Form::Pending(serials, rms) => self.put_pending(serials, rms),
            Form::TransactionAborted(reason) => self.put_transaction_aborted(*reason),
            Form::RecordNormal => self.put(b"RMS$_NORMAL"),
            Form::RecordPosition(position) => self.put_position(*position),
            Form::RecordFound(record) => self.put_found(record),
            Form::NextFound(key, record) => self.put_next_found(key, record),
            Form::NoSuchNode => self.put(b"NOSUCHNODE"),
            Form::NodeDown => self.put(b"NODEDOWN"),
            Form::NodeUp => self.put(b"NODEUP"),
            Form::VolumeInUse => self.put(b"VOLINUSE"),
            Form::NotInitialized => self.put(b"NOINIT"),
            Form::NotInitializedAt(node) => self.put_not_initialized_at(node),
            Form::NoSuchMessage => self.put(b"NOSUCHMSG"),
            Form::BadLabel => self.put(b"LABEL"),
            Form::FileNotFound => self.put(b"RMS$_FNF"),
            Form::FileExists => self.put(b"RMS$_FEX"),
            Form::BadParameter => self.put(b"SS$_BADPARAM"),
            Form::BadOperation => self.put(b"RMS$_IOP"),
            Form::BadRecordNumber => self.put(b"RMS$_MRN"),
            Form::BadRecordSize => self.put(b"RMS$_RSZ"),
            Form::NoSuchTransaction => self.put(b"SS$_NOSUCHTID"),
            Form::NoSuchBranchId => self.put(b"SS$_NOSUCHBID"),
            Form::NoSuchManager => self.put(b"SS$_NOSUCHRM"),
            Form::WrongState => self.put(b"SS$_WRONGSTATE"),
            Form::InDoubt(serial, node) => self.put_in_doubt(serial, node),
            Form::NotForUnits => self.put(b"NOTRU"),
            Form::NeedsUnit => self.put(b"RMS$_NRU"),
            Form::NoJournal => self.put(b"NOTMARKED"),
            Form::NoSave => self.put(b"NOSAVE"),
            Form::TooEarly(until, saved) => self.put_too_early(*until, *saved),
            Form::PositionsMissing(needed, first) => self.put_positions_missing(*needed, *first),
            Form::MomentsMissing(until, since) => self.put_moments_missing(*until, *since),
            Form::RecordLocked(serial) => self.put_with_id(b"RMS$_RLK ", &serial.0),
            Form::FileLocked(serial) => self.put_with_id(b"RMS$_FLK ", &serial.0),
            Form::NoVolume(node, condition, block) => self.put_no_volume(node, *condition, *block),
            Form::RecordExists => self.put(b"RMS$_REX"),
            Form::KeyExists => self.put(b"RMS$_DUP"),
            Form::RecordNotFound => self.put(b"RMS$_RNF"),
            Form::EndOfFile => self.put(b"RMS$_EOF"),
            Form::KeyChanged => self.put(b"RMS$_CHG"),
            Form::QuotaExceeded(quota, limit) => self.put_quota_exceeded(*quota, *limit),
            Form::VolumeFull(free, need) => self.put_volume_full(*free, *need),
            Form::FileFull(free, need) => self.put_file_full(*free, *need),
            Form::JournalFull(free, need) => self.put_journal_full(*free, *need),
            Form::AftersFull(free, need) => self.put_afters_full(*free, *need),
            Form::BeforesFull(free, need) => self.put_befores_full(*free, *need),
            Form::NoMemory => self.put(b"SS$_INSFMEM"),
            Form::Broken(cause) => self.put_cause(*cause),
            Form::BadLine(column) => self.put_with_number(b"BADLINE ", u64::from(*column)),
            Form::TooLong => self.put(b"TOOLONG"),
        }
    }

    fn put_hex(&mut self, bytes: &[u8])
        ensures same_sink { self.new.sink.ghost_name ≡ self.old.sink.ghost_name }
        ensures number { self.new.number ≡ self.old.number }
        ensures appends { Appends (kept_by K.shown K.faults self.old) (flat_map hex_byte bytes.now) (kept_by K.shown K.faults self.new) }
    {
        for b in bytes {
            self.put(&[hex_digit(*b / 16), hex_digit(*b % 16)]);
        }
    }
}

impl<K: Sink> Emit for SinkEmit<'_, K> {
    ghost shows = { shown_by K.shown K.faults };

    ghost place = { λ e. e.sink.ghost_name };

    fn emit(&mut self, form: &Form<'_>) {
        self.buffer.clear();
        let number = self.number;
        self.put_number(u64::from(number));
        self.put(b" ");
        self.put_words(form);
        self.put(b"\n");
        self.flush();
    }
}

// Writes all the bytes, up to a write that fails, and tells whether none did.
fn write_all_to<K: Sink>(sink: &mut K, bytes: &[u8]) -> bool
    ensures { Writes (K.shown sink.old) (K.faults sink.old) bytes.now result (K.shown sink.new) (K.faults sink.new) }
{
    let mut rest = bytes;
    while !rest.is_empty() {
        match sink.write(rest) {
            Ok(n) => rest = &rest[n..],
            Err(_) => return false,
        }
    }
    true
}

// Whether all may stand between quotes.
fn are_plain(bytes: &[u8]) -> bool
    ensures { result ≡ list_all is_plain_byte bytes.now }
{
    bytes.iter().all(|b| is_plain(*b))
}

// Whether a byte may stand between quotes.
fn is_plain(b: u8) -> bool
    ensures { result ≡ is_plain_byte b }
{
    b >= 32 && b <= 126 && b != b'"'
}

// A capital hexadecimal digit.
fn hex_digit(d: u8) -> u8
    requires { d < 16 }
    ensures { result ≡ hex_digit_of d }
{
    if d < 10 { b'0' + d } else { b'A' + (d - 10) }
}
