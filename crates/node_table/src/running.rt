//! A node that is up: its volume and its units, and its table.
ghost use Rattle.std.specs.Prelude.{◌≡◌, ◌<◌, ◌≤◌, ◌+◌, ℕ, [], map, true};
ghost use Rattle.std.specs.Option.{option_map};
ghost use Rattle.vms_model.specs.Limits.{branch_limit, moment_ceiling};
ghost use Rattle.net_wire.specs.commit_protocol.Allowed.{allowed};
ghost use Rattle.net_wire.specs.commit_protocol.Effects.{effects_of};
ghost use Rattle.net_wire.specs.commit_protocol.Rows.{Changed, row};
ghost use Rattle.net_wire.specs.commit_protocol.Table.{after, branches_of, record_serials};
ghost use Rattle.net_wire.specs.Messages.{message_of};
ghost use Rattle.row_laws.specs.run_model.World.{Node as NodeSaid, with_changed};
ghost use Rattle.tm_types.specs.Branches.{key_at};
ghost use Rattle.tm_types.specs.Effects.{effect_of};
ghost use Rattle.tm_types.specs.Events.{event_of};
ghost use Rattle.tm_types.specs.Parts.{log_record_of};
ghost use Rattle.vms_base.specs.Ids.{id_of, serial_of, tid_of};
ghost use Rattle.row_laws.specs.May.{IsOfMessage};
ghost use Rattle.recovery_units.specs.Calls.{MayBegin};
ghost use Rattle.recovery_units.specs.Laws.{KeepsNodes};
ghost use Rattle.recovery_units.specs.State.{AreOfBranches, IsInOrder};
ghost use Rattle.node_table.specs.Code.{stored_of, up_of};
ghost use Rattle.node_table.specs.Running.{IsBooted, IsEarlyFor, IsFreshFor, IsTold, KeepsUp, TellsRows, answer_to};
ghost use Rattle.node_table.specs.Standing.{IsUp, UpRepresents};

use crate::stored::Stored;
use block_disk::Disk;
use careful_write::Down;
use net_wire::Message;
use participants::Rms;
use recovery_units::RecoveryUnits;
use run_shared::Shared;
use tm_table::Tm;
use tm_types::{Effect, Effects, Event};
use transcript::Emit;
use vms_base::{Id, Kind, Moment, NodeName, Serial, Tid};

/// What a node keeps while it is up: its volume and its units, its table, the effects of the table's last step, how many ids it drew in this boot, and the
/// resource managers that are declared.
#[derive(Drop)]
pub struct Running<D: Disk, U: RecoveryUnits> {
    pub stored: Stored<D, U>,
    pub table: Tm,
    pub effects: Effects,
    pub drawn: u32,
    pub managers: Rms,
}

impl<D: Disk, U: RecoveryUnits> Running<D, U> {
    /// The node's name.
    pub fn name(&self) -> NodeName
        ensures { result ≡ self.now.stored.volume.catalog.home.node }
    {
        self.stored.volume.home().node
    }

    /// The id that is drawn next.
    pub fn next_id(&self) -> Id
        requires { self.now.drawn < 4294967295 }
        ensures { id_of result ≡ record { node = self.now.stored.volume.catalog.home.node; boot = self.now.stored.volume.catalog.home.boot; seq = self.now.drawn + 1 } }
    {
        let home = self.stored.volume.home();
        Id {
            node: home.node,
            boot: home.boot,
            seq: self.drawn + 1,
        }
    }

    /// Tells the table an event, and does its row, act after act, each shown, up to a failure of the disk. A branch that the event begins gets its
    /// unit first. The effects of the row stay readable.
    pub fn tell<E: Emit>(
        &mut self,
        event: &Event,
        clock: Moment,
        shared: &mut Shared,
        out: &mut E,
    ) -> Result<(), Down>
        requires laws { KeepsNodes }
        requires up { IsUp (up_of U.state self.old) }
        requires allowed { allowed self.old.table (event_of event.now) ≡ true }
        requires told { IsTold (event_of event.now) }
        requires fresh { IsFreshFor (up_of U.state self.old) (event_of event.now) }
        requires early { IsEarlyFor (event_of event.now) (up_of U.state self.old) }
        requires clock { clock.0 + branch_limit ≤ moment_ceiling }
        ensures place { E.place out.new ≡ E.place out.old }
        ensures keeps { KeepsUp result (event_of event.now) clock.0 (up_of U.state self.old) (up_of U.state self.new) shared.old shared.new (E.shows out.old) (E.shows out.new) }
        ensures table { self.new.table ≡ after (row self.old.table (event_of event.now)) self.old.table }
        ensures effects { map effect_of self.new.effects ≡ effects_of (row self.old.table (event_of event.now)) self.old.table.records }
        ensures does { TellsRows result (event_of event.now) clock.0 (up_of U.state self.old) (up_of U.state self.new) shared.old shared.new (E.shows out.old) (E.shows out.new) }
    {
        self.table.step(event, &mut self.effects);
        self.stored.begin(event);
        let tid = transaction(event);
        self.stored.tell_all(
            &self.managers,
            self.effects.items(),
            &tid,
            clock,
            shared,
            out,
        )
    }

    /// Begins with what a restart told: the records of prepared branches, which are in doubt in this order, and the committed ones. No id was drawn, and no
    /// resource manager is declared.
    pub fn boot(&mut self)
        requires order { IsInOrder (U.state self.old.stored.units) self.old.stored.volume }
        requires units { AreOfBranches (U.state self.old.stored.units).begun (branches_of (map log_record_of self.old.stored.room.told.prepared)) }
        requires begins { MayBegin self.old.stored.room.told (U.state self.old.stored.units).log }
        ensures up { IsUp (up_of U.state self.new) }
        ensures stored { stored_of U.state self.new.stored ≡ record (stored_of U.state self.old.stored) { in_doubt = record_serials (map log_record_of self.old.stored.room.told.prepared) } }
        ensures told { self.new.stored.room.told ≡ self.old.stored.room.told }
        ensures drawn { self.new.drawn ≡ 0 }
        ensures declared { self.new.managers ≡ [] }
        ensures stands { (clock : ℕ) (n : NodeSaid) → IsBooted clock self.old.stored.room.told (stored_of U.state self.old.stored) n → UpRepresents clock (up_of U.state self.new) n }
    {
        let node = self.name();
        self.stored.room.recall();
        self.drawn = 0;
        self.managers.clear();
        let room = &self.stored.room;
        self.table
            .boot(node, room.told.prepared(), room.told.committed());
    }

    /// The table notes that a branch has changed something. Nothing is shown.
    pub fn note_changed(&mut self, serial: Serial)
        requires allowed { allowed self.old.table (Changed (serial_of serial)) ≡ true }
        ensures { up_of U.state self.new ≡ record (up_of U.state self.old) { tm = record self.old.table { table = with_changed (serial_of serial) self.old.table.table } } }
    {
        self.table
            .step(&Event::Changed { serial }, &mut self.effects);
    }

    /// What this node answers the question of a branch whose coordinator it is, where it answers. Nothing changes by that.
    pub fn answer(&mut self, tid: &Tid, serial: &Serial) -> Option<Message>
        ensures answer { option_map message_of result ≡ answer_to self.old.table (key_at tid.now serial.now) }
        ensures same { up_of U.state self.new ≡ up_of U.state self.old }
    {
        let question = Message {
            kind: Kind::Inquire,
            from: serial.0.node,
            to: tid.0.node,
            tid: *tid,
            serial: *serial,
            bid: None,
        };
        self.table.step(&Event::Got(question), &mut self.effects);
        match self.effects.items() {
            [Effect::Send(message)] => Some(*message),
            _ => None,
        }
    }
}

// The transaction of an event that is a message.
fn transaction(event: &Event) -> Tid
    ensures { IsOfMessage (tid_of result) (event_of event.now) }
{
    match event {
        Event::Got(message) => message.tid,
        _ => Tid::default(),
    }
}
