// The lines of files' journals of images, of their saves and of their recovery.
ghost use Rattle.std.specs.Prelude.{◌≡◌, ◌∷◌, ◌++◌};
ghost use Rattle.vms_model.specs.Times.{CanBeWritten};
ghost use Rattle.emitter_model.specs.transcript_model.Lines as model;
ghost use Rattle.emitter_model.specs.transcript_model.Lines.{line_words, quoted_time};
ghost use Rattle.transcript.specs.Buffered.{Appends};
ghost use Rattle.transcript.specs.Emitters.{kept_by};

use crate::emit::SinkEmit;
use crate::outside::Sink;
use vms_base::Moment;

impl<'a, K: Sink> SinkEmit<'a, K> {
    // Words, and two moments behind them.
    fn put_with_moments(&mut self, words: &[u8], first: Moment, second: Moment)
        requires earlier { CanBeWritten first.0 }
        requires later { CanBeWritten second.0 }
        ensures same_sink { self.new.sink.ghost_name ≡ self.old.sink.ghost_name }
        ensures number { self.new.number ≡ self.old.number }
        ensures appends { Appends (kept_by K.shown K.faults self.old) (words.now ++ (quoted_time first.0 ++ (32 ∷ quoted_time second.0))) (kept_by K.shown K.faults self.new) }
    {
        self.put(words);
        self.put_time(first);
        self.put(b" ");
        self.put_time(second);
    }

    pub(crate) fn put_save(&mut self, position: u64, moment: Moment)
        requires { CanBeWritten moment.0 }
        ensures same_sink { self.new.sink.ghost_name ≡ self.old.sink.ghost_name }
        ensures number { self.new.number ≡ self.old.number }
        ensures appends { Appends (kept_by K.shown K.faults self.old) (line_words (model.NormalSave position moment.0)) (kept_by K.shown K.faults self.new) }
    {
        self.put(b"SS$_NORMAL ");
        self.put_number(position);
        self.put(b" ");
        self.put_time(moment);
    }

    pub(crate) fn put_too_early(&mut self, until: Moment, saved: Moment)
        requires earlier { CanBeWritten until.0 }
        requires later { CanBeWritten saved.0 }
        ensures same_sink { self.new.sink.ghost_name ≡ self.old.sink.ghost_name }
        ensures number { self.new.number ≡ self.old.number }
        ensures appends { Appends (kept_by K.shown K.faults self.old) (line_words (model.TooEarly until.0 saved.0)) (kept_by K.shown K.faults self.new) }
    {
        self.put_with_moments(b"EARLY ", until, saved);
    }

    pub(crate) fn put_positions_missing(&mut self, needed: u64, first: u64)
        ensures same_sink { self.new.sink.ghost_name ≡ self.old.sink.ghost_name }
        ensures number { self.new.number ≡ self.old.number }
        ensures appends { Appends (kept_by K.shown K.faults self.old) (line_words (model.PositionsMissing needed first)) (kept_by K.shown K.faults self.new) }
    {
        self.put_with_numbers(b"SPAN ", needed, first);
    }

    pub(crate) fn put_moments_missing(&mut self, until: Moment, since: Moment)
        requires earlier { CanBeWritten until.0 }
        requires later { CanBeWritten since.0 }
        ensures same_sink { self.new.sink.ghost_name ≡ self.old.sink.ghost_name }
        ensures number { self.new.number ≡ self.old.number }
        ensures appends { Appends (kept_by K.shown K.faults self.old) (line_words (model.MomentsMissing until.0 since.0)) (kept_by K.shown K.faults self.new) }
    {
        self.put_with_moments(b"SPAN ", until, since);
    }

    pub(crate) fn put_afters_full(&mut self, free: u64, need: u64)
        ensures same_sink { self.new.sink.ghost_name ≡ self.old.sink.ghost_name }
        ensures number { self.new.number ≡ self.old.number }
        ensures appends { Appends (kept_by K.shown K.faults self.old) (line_words (model.AftersFull free need)) (kept_by K.shown K.faults self.new) }
    {
        self.put_with_numbers(b"RMS$_FUL AI ", free, need);
    }

    pub(crate) fn put_befores_full(&mut self, free: u64, need: u64)
        ensures same_sink { self.new.sink.ghost_name ≡ self.old.sink.ghost_name }
        ensures number { self.new.number ≡ self.old.number }
        ensures appends { Appends (kept_by K.shown K.faults self.old) (line_words (model.BeforesFull free need)) (kept_by K.shown K.faults self.new) }
    {
        self.put_with_numbers(b"RMS$_FUL BI ", free, need);
    }
}
