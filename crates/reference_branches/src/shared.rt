// What the nodes of a rack share.
ghost use Rattle.std.specs.Prelude.{◌≡◌, ℕ, [], ◌∷◌, map, option_map, OnOk, IfOk};
ghost use Rattle.script_lang.specs.declared.literals.Literals.{Literals as LiteralsSaid};
ghost use Rattle.script_lang.specs.Statements.{request_of};
ghost use Rattle.reference_index.specs.run_model.Answers.{sent_line, service};
ghost use Rattle.reference_index.specs.run_model.Steps.{occupied};
ghost use Rattle.reference_index.specs.run_model.Statements.{message_at};
ghost use Rattle.reference_index.specs.run_model.World as world;
ghost use Rattle.net_wire.specs.Messages.{message_of};
ghost use Rattle.vms_base.specs.Ids.{id_of};
ghost use Rattle.reference_world.specs.Standing.{branch_key_of, label_of, line_of};
ghost use Rattle.reference_branches.specs.Branches.{shared_of, nothing_shared};

use net_wire::Message;
use reference_index::{push_back, push_front, take_first};
use reference_world::{BranchKey, LabelEntry, Line};
use script_lang::Request;
use std::alloc::{AllocError, Global};
use std::mem::replace;
use vms_base::{Id, Label, NodeName};

/// What nodes share. Labels and branches stand newest first, messages in the order of their numbers.
#[derive(Drop)]
pub struct Shared {
    pub labels: Vec<LabelEntry>,
    pub in_use: bool,
    pub wire: Vec<Message>,
    pub accepted: Vec<BranchKey>,
    pub read_only: Vec<BranchKey>,
}

// The label of this name.
fn find_label(labels: &[LabelEntry], name: &Label) -> Option<LabelEntry>
    ensures { option_map label_of result ≡ world.find_label name.now (map label_of labels.now) }
{
    match labels {
        [] => None,
        [l, rest @ ..] => {
            if name.bytes() == l.name.bytes() {
                Some(*l)
            } else {
                find_label(rest, name)
            }
        }
    }
}

// The labels, of which the one of this name has this serial as its latest.
fn with_serial(
    alloc: Global,
    labels: Vec<LabelEntry>,
    name: &Label,
    serial: &Id,
) -> Result<Vec<LabelEntry>, AllocError>
    ensures { IfOk result (λ v. map label_of v.items ≡ world.with_serial name.now (id_of serial.now) (map label_of labels.items)) }
{
    let mut rest = labels;
    match take_first(&mut rest) {
        None => Ok(Vec::new(alloc)),
        Some(first) => {
            if name.bytes() == first.name.bytes() {
                let named = LabelEntry {
                    name: first.name,
                    node: first.node,
                    tid: first.tid,
                    bid: first.bid,
                    serial: Some(*serial),
                };
                push_front(&mut rest, named)?;
                Ok(rest)
            } else {
                let mut all = with_serial(alloc, rest, name, serial)?;
                push_front(&mut all, first)?;
                Ok(all)
            }
        }
    }
}

// The labels with one more.
fn with_label(labels: Vec<LabelEntry>, label: &LabelEntry) -> Result<Vec<LabelEntry>, AllocError>
    ensures { IfOk result (λ v. map label_of v.items ≡ label_of label.now ∷ map label_of labels.items) }
{
    let mut all = labels;
    let entry = LabelEntry {
        name: label.name,
        node: label.node,
        tid: label.tid,
        bid: label.bid,
        serial: label.serial,
    };
    push_front(&mut all, entry)?;
    Ok(all)
}

impl Shared {
    /// Nothing is shared yet.
    pub fn new(alloc: Global) -> Shared
        ensures { shared_of result ≡ nothing_shared }
    {
        Shared {
            labels: Vec::new(alloc),
            in_use: false,
            wire: Vec::new(alloc),
            accepted: Vec::new(alloc),
            read_only: Vec::new(alloc),
        }
    }

    /// The label of this name, whatever its node.
    pub fn label(&self, name: &Label) -> Option<LabelEntry>
        ensures { option_map label_of result ≡ world.find_label name.now (shared_of self.now).labels }
    {
        find_label(self.labels.as_slice(), name)
    }

    /// The label of this name, where it was made for this node.
    pub fn labelled(&self, node: &NodeName, name: &Label) -> Option<LabelEntry>
        ensures { option_map label_of result ≡ world.labelled node.now name.now (shared_of self.now).labels }
    {
        match self.label(name) {
            Some(l) => {
                if node.bytes() == l.node.bytes() {
                    Some(l)
                } else {
                    None
                }
            }
            None => None,
        }
    }

    /// The serial of the branch that it names.
    pub fn serial_labelled(&self, node: &NodeName, name: &Label) -> Option<Id>
        ensures { option_map id_of result ≡ world.serial_labelled node.now name.now (shared_of self.now).labels }
    {
        match self.labelled(node, name) {
            Some(l) => l.serial,
            None => None,
        }
    }

    /// A label names this branch as its latest.
    pub fn number(&mut self, alloc: Global, name: &Label, serial: &Id) -> Result<(), AllocError>
        ensures { OnOk result (shared_of self.new ≡ world.shared_after (world.Numbers name.now (id_of serial.now)) (shared_of self.old)) }
    {
        let labels = replace(&mut self.labels, Vec::new(alloc));
        self.labels = with_serial(alloc, labels, name, serial)?;
        Ok(())
    }

    /// One more label.
    pub fn make(&mut self, alloc: Global, label: &LabelEntry) -> Result<(), AllocError>
        ensures { OnOk result (shared_of self.new ≡ world.shared_after (world.Labels (label_of label.now)) (shared_of self.old)) }
    {
        let labels = replace(&mut self.labels, Vec::new(alloc));
        self.labels = with_label(labels, label)?;
        Ok(())
    }

    /// A node may be in use from this request on.
    pub fn occupy(&mut self, request: &Request)
        ensures { (lit : LiteralsSaid) → shared_of self.new ≡ occupied (service (request_of lit request.now)) (shared_of self.old) }
    {
        if let Request::Boot = request {
            self.in_use = true;
        }
    }

    /// A message is sent, with the next number where one is left.
    pub fn send(&mut self, m: &Message) -> Result<Line, AllocError>
        ensures wire { OnOk result (shared_of self.new ≡ record (shared_of self.old) { wire = world.posted (message_of m.now) (shared_of self.old).wire }) }
        ensures line { IfOk result (λ l. line_of l ≡ sent_line (message_of m.now) (shared_of self.old).wire) }
    {
        let sent = self.wire.len() as u64;
        if sent < 1_000_000 {
            push_back(&mut self.wire, *m)?;
            Ok(Line::Sent(sent + 1, *m))
        } else {
            Ok(Line::Unsent(*m))
        }
    }

    /// The message of this number; the first has the number 1.
    pub fn message(&self, number: u32) -> Option<Message>
        ensures { option_map message_of result ≡ message_at number (shared_of self.now).wire }
    {
        if number == 0 || self.wire.len() < number as usize {
            return None;
        }
        Some(self.wire[number as usize - 1])
    }
}
