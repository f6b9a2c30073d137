// The lines of messages and of branches on several nodes.
ghost use Rattle.std.specs.Prelude.{◌≡◌, ◌∷◌, ◌++◌, codes, flat_map, map};
ghost use Rattle.std.specs.Option.{option_map};
ghost use Rattle.vms_model.specs.Texts.{id_text};
ghost use Rattle.vms_base.specs.Ids.{tid_of, serial_of, bid_of};
ghost use Rattle.vms_base.specs.Outcomes.{outcome_of, reason_of};
ghost use Rattle.net_wire.specs.Messages.{kind_of, message_of};
ghost use Rattle.emitter_model.specs.transcript_model.Lines as model;
ghost use Rattle.emitter_model.specs.transcript_model.Lines.{line_words, kind_text as kind_text_of, branch_text, bid_text, message_text, ending_text, ids_text};
ghost use Rattle.transcript.specs.Buffered.{Appends};
ghost use Rattle.transcript.specs.Emitters.{kept_by};

use crate::emit::SinkEmit;
use crate::outside::Sink;
use net_wire::Message;
use vms_base::{Bid, Kind, NodeName, Outcome, Reason, Serial, Tid};

// The kind of a message as it is shown.
fn kind_text(kind: Kind) -> &'static [u8]
    ensures { result.now ≡ kind_text_of (kind_of kind) }
{
    match kind {
        Kind::Join => b"JOIN",
        Kind::JoinOk => b"JOINOK",
        Kind::JoinNo => b"JOINNO",
        Kind::Prepare => b"PREPARE",
        Kind::Yes => b"YES",
        Kind::ReadOnly => b"READONLY",
        Kind::No => b"NO",
        Kind::Commit => b"COMMIT",
        Kind::Abort => b"ABORT",
        Kind::Ack => b"ACK",
        Kind::Inquire => b"INQUIRE",
    }
}

impl<'a, K: Sink> SinkEmit<'a, K> {
    // A transaction, and a branch of it.
    pub(crate) fn put_branch(&mut self, tid: &Tid, serial: &Serial)
        ensures same_sink { self.new.sink.ghost_name ≡ self.old.sink.ghost_name }
        ensures number { self.new.number ≡ self.old.number }
        ensures appends { Appends (kept_by K.shown K.faults self.old) (branch_text (tid_of tid.now) (serial_of serial.now)) (kept_by K.shown K.faults self.new) }
    {
        self.put_id(&tid.0);
        self.put(b" ");
        self.put_id(&serial.0);
    }

    // Words, and a branch behind them.
    pub(crate) fn put_with_branch(&mut self, words: &[u8], tid: &Tid, serial: &Serial)
        ensures same_sink { self.new.sink.ghost_name ≡ self.old.sink.ghost_name }
        ensures number { self.new.number ≡ self.old.number }
        ensures appends { Appends (kept_by K.shown K.faults self.old) (words.now ++ branch_text (tid_of tid.now) (serial_of serial.now)) (kept_by K.shown K.faults self.new) }
    {
        self.put(words);
        self.put_branch(tid, serial);
    }

    // The identifier of a branch, where there is one.
    fn put_bid(&mut self, bid: Option<Bid>)
        ensures same_sink { self.new.sink.ghost_name ≡ self.old.sink.ghost_name }
        ensures number { self.new.number ≡ self.old.number }
        ensures appends { Appends (kept_by K.shown K.faults self.old) (bid_text (option_map bid_of bid)) (kept_by K.shown K.faults self.new) }
    {
        match bid {
            Some(bid) => {
                self.put(b" ");
                self.put_id(&bid.0);
            }
            None => {}
        }
    }

    fn put_message(&mut self, message: &Message)
        ensures same_sink { self.new.sink.ghost_name ≡ self.old.sink.ghost_name }
        ensures number { self.new.number ≡ self.old.number }
        ensures appends { Appends (kept_by K.shown K.faults self.old) (message_text (message_of message.now)) (kept_by K.shown K.faults self.new) }
    {
        self.put(message.from.bytes());
        self.put(b" ");
        self.put(message.to.bytes());
        self.put(b" ");
        self.put(kind_text(message.kind));
        self.put(b" ");
        self.put_branch(&message.tid, &message.serial);
        self.put_bid(message.bid);
    }

    pub(crate) fn put_sent(&mut self, number: u32, message: &Message)
        ensures same_sink { self.new.sink.ghost_name ≡ self.old.sink.ghost_name }
        ensures number { self.new.number ≡ self.old.number }
        ensures appends { Appends (kept_by K.shown K.faults self.old) (line_words (model.Sent number (message_of message.now))) (kept_by K.shown K.faults self.new) }
    {
        self.put(b"SENT ");
        self.put_number(u64::from(number));
        self.put(b" ");
        self.put_message(message);
    }

    pub(crate) fn put_unsent(&mut self, message: &Message)
        ensures same_sink { self.new.sink.ghost_name ≡ self.old.sink.ghost_name }
        ensures number { self.new.number ≡ self.old.number }
        ensures appends { Appends (kept_by K.shown K.faults self.old) (line_words (model.Unsent (message_of message.now))) (kept_by K.shown K.faults self.new) }
    {
        self.put(b"UNSENT ");
        self.put_message(message);
    }

    pub(crate) fn put_transaction_aborted(&mut self, reason: Reason)
        ensures same_sink { self.new.sink.ghost_name ≡ self.old.sink.ghost_name }
        ensures number { self.new.number ≡ self.old.number }
        ensures appends { Appends (kept_by K.shown K.faults self.old) (line_words (model.TransactionAborted (reason_of reason))) (kept_by K.shown K.faults self.new) }
    {
        self.put(b"SS$_ABORT ");
        self.put(reason.text());
    }

    // How a transaction ended.
    fn put_ending(&mut self, reason: Option<Reason>)
        ensures same_sink { self.new.sink.ghost_name ≡ self.old.sink.ghost_name }
        ensures number { self.new.number ≡ self.old.number }
        ensures appends { Appends (kept_by K.shown K.faults self.old) (ending_text (option_map reason_of reason)) (kept_by K.shown K.faults self.new) }
    {
        match reason {
            Some(reason) => self.put_transaction_aborted(reason),
            None => self.put(b"SS$_NORMAL"),
        }
    }

    pub(crate) fn put_ended(&mut self, tid: &Tid, reason: Option<Reason>)
        ensures same_sink { self.new.sink.ghost_name ≡ self.old.sink.ghost_name }
        ensures number { self.new.number ≡ self.old.number }
        ensures appends { Appends (kept_by K.shown K.faults self.old) (line_words (model.Ended (tid_of tid.now) (option_map reason_of reason))) (kept_by K.shown K.faults self.new) }
    {
        self.put(b"ENDED ");
        self.put_id(&tid.0);
        self.put(b" ");
        self.put_ending(reason);
    }

    pub(crate) fn put_asked(&mut self, tid: &Tid, serial: &Serial, outcome: Outcome)
        ensures same_sink { self.new.sink.ghost_name ≡ self.old.sink.ghost_name }
        ensures number { self.new.number ≡ self.old.number }
        ensures appends { Appends (kept_by K.shown K.faults self.old) (line_words (model.Asked (tid_of tid.now) (serial_of serial.now) (outcome_of outcome))) (kept_by K.shown K.faults self.new) }
    {
        self.put(b"ASKED ");
        self.put_branch(tid, serial);
        self.put(b" ");
        self.put_outcome(outcome);
    }

    pub(crate) fn put_booted(&mut self, node: &NodeName, boot: u32)
        ensures same_sink { self.new.sink.ghost_name ≡ self.old.sink.ghost_name }
        ensures number { self.new.number ≡ self.old.number }
        ensures appends { Appends (kept_by K.shown K.faults self.old) (line_words (model.Booted node.now boot)) (kept_by K.shown K.faults self.new) }
    {
        self.put(b"BOOTED ");
        self.put(node.bytes());
        self.put(b" ");
        self.put_number(u64::from(boot));
    }

    // Serials, each with a comma before it.
    pub(crate) fn put_serials_behind(&mut self, serials: &[Serial])
        ensures same_sink { self.new.sink.ghost_name ≡ self.old.sink.ghost_name }
        ensures number { self.new.number ≡ self.old.number }
        ensures appends { Appends (kept_by K.shown K.faults self.old) (flat_map (λ serial. 44 ∷ id_text (serial_of serial)) serials.now) (kept_by K.shown K.faults self.new) }
    {
        for serial in serials {
            self.put(b",");
            self.put_id(&serial.0);
        }
    }

    // Serials with commas between them, or a dash where there is none.
    pub(crate) fn put_serials(&mut self, serials: &[Serial])
        ensures same_sink { self.new.sink.ghost_name ≡ self.old.sink.ghost_name }
        ensures number { self.new.number ≡ self.old.number }
        ensures appends { Appends (kept_by K.shown K.faults self.old) (ids_text (map serial_of serials.now)) (kept_by K.shown K.faults self.new) }
    {
        match serials {
            [first, rest @ ..] => {
                self.put_id(&first.0);
                self.put_serials_behind(rest);
            }
            [] => self.put(b"-"),
        }
    }

    pub(crate) fn put_in_doubt(&mut self, serial: &Serial, node: &NodeName)
        ensures same_sink { self.new.sink.ghost_name ≡ self.old.sink.ghost_name }
        ensures number { self.new.number ≡ self.old.number }
        ensures appends { Appends (kept_by K.shown K.faults self.old) (line_words (model.InDoubt (serial_of serial.now) node.now)) (kept_by K.shown K.faults self.new) }
    {
        self.put(b"INDOUBT ");
        self.put_id(&serial.0);
        self.put(b" ");
        self.put(node.bytes());
    }

    pub(crate) fn put_not_initialized_at(&mut self, node: &NodeName)
        ensures same_sink { self.new.sink.ghost_name ≡ self.old.sink.ghost_name }
        ensures number { self.new.number ≡ self.old.number }
        ensures appends { Appends (kept_by K.shown K.faults self.old) (line_words (model.NotInitializedAt node.now)) (kept_by K.shown K.faults self.new) }
    {
        self.put(b"NOINIT ");
        self.put(node.bytes());
    }
}
