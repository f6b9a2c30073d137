// The recovery units of a node, and its log.
ghost use Rattle.std.specs.Prelude.{◌≡◌};

use crate::begun::{BegunUnit, Token, begin_unit, have_ids, hold_prepared, place_of};
use crate::held::{abort_held, change_held, commit_held, has_changes_held, read_held};
use crate::logged::{have_logged, have_parts, have_vote};
use crate::settled::{tell_committed, tell_prepared, tell_undone, told_above};
use block_disk::Disk;
use careful_write::Down;
use lmcp_log::Log;
use record_operations::{ReadOp, RecErr, RecordOp};
use recovery_units::{RecoveryUnits, Reopened, SettledUnit};
use rms_units::{Restarted, Units, Vote, write_record};
use std::alloc::{AllocError, Global};
use std::marker::Model;
use std::mem::replace;
use vms_base::{Key, LogRec, Moment, Reason, Record, RmList, Serial, Tid};
use volume::Volume;
use volume_files::blocks_are_whole;

/// How many units may be unsettled.
const MOST_UNITS: usize = 64;

/// The recovery units of a node, by the serials of their branches, and its log. The memory that they take is taken once.
#[derive(Drop)]
pub struct NodeUnits {
    units: Units,
    log: Log,
    // The units that are not settled, in the order in which they were begun.
    begun: Vec<BegunUnit>,
    // What the last restart told.
    restarted: Restarted,
}

impl Model for NodeUnits {
    ghost use Rattle.std.specs.Prelude.{◌≤◌, vec_capacity};
    ghost use Rattle.vms_model.specs.Limits.{branch_limit};
    ghost use Rattle.recovery_units.specs.State.{UnitsState};

    ghost Value = { UnitsState };

    ghost use Rattle.node_units.specs.Seen.{seen};
    ghost use Rattle.node_units.specs.Tokens.{TokensRepresent};

    ghost view = { λ u. seen u.units u.log };

    ghost invariant = { λ u. TokensRepresent u.begun.items u.units × (branch_limit ≤ vec_capacity u.begun) };
}

impl RecoveryUnits for NodeUnits {
    ghost use Rattle.recovery_units.specs.State.{UnitsState};

    ghost state = { λ u. u };

    fn reserve(alloc: Global) -> Result<NodeUnits, AllocError> {
        Ok(NodeUnits {
            units: Units::reserve(alloc)?,
            log: Log::reserve(alloc)?,
            begun: Vec::with_capacity(alloc, MOST_UNITS)?,
            restarted: Restarted::reserve(alloc)?,
        })
    }

    fn has(&self, serial: &Serial) -> bool {
        place_of(&self.begun, serial).is_some()
    }

    fn is_full(&self) -> bool {
        self.begun.len() >= MOST_UNITS
    }

    fn slots(&self) -> usize {
        self.log.slots()
    }

    fn record_at(&self, slot: u32) -> Option<&LogRec> {
        self.log.at(slot)
    }

    fn has_changes(&self, serial: &Serial) -> bool {
        match place_of(&self.begun, serial) {
            None => false,
            Some(place) => {
                self.units.stand_in_order();
                has_changes_held(&self.units, &self.begun[place].token)
            }
        }
    }

    fn begin(&mut self, tid: Tid, serial: Serial) {
        self.units.stand_in_order();
        let token = begin_unit(&mut self.units, &tid, &serial);
        self.begun.push_reserved(BegunUnit { tid, serial, token });
    }

    fn change<D: Disk>(
        &mut self,
        serial: &Serial,
        volume: &mut Volume<D>,
        op: &RecordOp,
        bytes: &[u8],
    ) -> Result<u32, RecErr> {
        let Some(place) = place_of(&self.begun, serial) else {
            unreachable!()
        };
        self.units.stand_in_order();
        let begun = &mut self.begun[place];
        let done = change_held(&mut self.units, &mut begun.token, volume, op, bytes);
        self.units.stand_in_order();
        done
    }

    fn read<D: Disk>(
        &mut self,
        serial: &Serial,
        volume: &mut Volume<D>,
        op: &ReadOp,
        found: &mut Key,
        out: &mut Record,
    ) -> Result<(), RecErr> {
        let Some(place) = place_of(&self.begun, serial) else {
            unreachable!()
        };
        self.units.stand_in_order();
        let begun = &mut self.begun[place];
        let done = read_held(&mut self.units, &mut begun.token, volume, op, found, out);
        self.units.stand_in_order();
        done
    }

    fn look<D: Disk>(
        &self,
        volume: &mut Volume<D>,
        op: &ReadOp,
        found: &mut Key,
        out: &mut Record,
    ) -> Result<(), RecErr> {
        self.units.stand_in_order();
        self.units.look(volume, op, found, out)
    }

    fn direct<D: Disk>(
        &mut self,
        volume: &mut Volume<D>,
        tid: Tid,
        clock: Moment,
        op: &RecordOp,
        bytes: &[u8],
    ) -> Result<(u32, Moment), RecErr> {
        self.units.stand_in_order();
        have_ids(&tid, &Serial(tid.0));
        self.units.direct(volume, tid, clock, op, bytes)
    }

    fn prepare<D: Disk>(
        &mut self,
        serial: &Serial,
        volume: &mut Volume<D>,
        rms: &RmList,
    ) -> Result<Tid, Down> {
        let Some(place) = place_of(&self.begun, serial) else {
            unreachable!()
        };
        self.units.stand_in_order();
        let tid = self.begun[place].tid;
        have_vote(&tid, serial, rms);
        let Token::Active(unit) = replace(&mut self.begun[place].token, Token::Spent) else {
            unreachable!()
        };
        match self.units.prepare(unit, volume, &mut self.log, rms) {
            Err(down) => {
                self.begun.remove(place);
                Err(down)
            }
            Ok(Vote::Yes(unit)) => {
                self.units.stand_in_order();
                self.begun[place].token = Token::Prepared(unit);
                Ok(tid)
            }
            Ok(Vote::ReadOnly) => unreachable!(),
        }
    }

    fn leave(&mut self, serial: &Serial) -> Tid {
        let Some(place) = place_of(&self.begun, serial) else {
            unreachable!()
        };
        self.units.stand_in_order();
        let BegunUnit {
            tid,
            serial: _,
            token,
        } = self.begun.remove(place);
        let Token::Active(unit) = token else {
            unreachable!()
        };
        self.units.lose_active(unit);
        self.units.stand_in_order();
        tid
    }

    fn commit<D: Disk>(
        &mut self,
        serial: &Serial,
        volume: &mut Volume<D>,
        logged: Option<&LogRec>,
        clock: Moment,
    ) -> Result<SettledUnit, Down> {
        let Some(place) = place_of(&self.begun, serial) else {
            unreachable!()
        };
        self.units.stand_in_order();
        let BegunUnit {
            tid,
            serial: _,
            token,
        } = self.begun.remove(place);
        have_ids(&tid, serial);
        have_logged(logged);
        match commit_held(&mut self.units, token, volume, &mut self.log, logged, clock) {
            Err(down) => Err(down),
            Ok(settled) => {
                self.units.stand_in_order();
                Ok(told_above(&mut self.units, settled))
            }
        }
    }

    fn abort<D: Disk>(
        &mut self,
        serial: &Serial,
        volume: &mut Volume<D>,
        reason: Reason,
        clock: Moment,
    ) -> Result<SettledUnit, Down> {
        let Some(place) = place_of(&self.begun, serial) else {
            unreachable!()
        };
        self.units.stand_in_order();
        let BegunUnit {
            tid,
            serial: _,
            token,
        } = self.begun.remove(place);
        have_ids(&tid, serial);
        blocks_are_whole(volume);
        match abort_held(&mut self.units, token, volume, &mut self.log, reason, clock) {
            Err(down) => Err(down),
            Ok(settled) => {
                self.units.stand_in_order();
                Ok(told_above(&mut self.units, settled))
            }
        }
    }

    fn keep_record<D: Disk>(
        &mut self,
        volume: &mut Volume<D>,
        logged: &LogRec,
    ) -> Result<(), Down> {
        self.units.stand_in_order();
        have_parts(logged);
        write_record(volume, &mut self.log, logged.serial, Some(logged))
    }

    fn forget_record<D: Disk>(
        &mut self,
        volume: &mut Volume<D>,
        serial: &Serial,
    ) -> Result<Tid, Down> {
        self.units.stand_in_order();
        let Some(logged) = self.log.find(*serial) else {
            unreachable!()
        };
        let tid = logged.tid;
        match write_record(volume, &mut self.log, *serial, None) {
            Err(down) => Err(down),
            Ok(()) => Ok(tid),
        }
    }

    fn forget(&mut self) {
        self.begun.clear();
        self.units.forget();
    }

    fn changed_by(&self, file: u8) -> Option<Serial> {
        self.units.changed_by(file)
    }

    fn reopen<D: Disk>(
        &mut self,
        volume: &mut Volume<D>,
        clock: Moment,
        out: &mut Reopened,
    ) -> Result<(), Down> {
        self.units.stand_in_order();
        blocks_are_whole(volume);
        match Log::load(volume, &mut self.log) {
            Err(down) => return Err(down),
            Ok(()) => {}
        }
        let done = self
            .units
            .reopen(volume, &mut self.log, clock, &mut self.restarted);
        tell_undone(self.restarted.undone(), out);
        match done {
            Err(down) => return Err(down),
            Ok(()) => {}
        }
        self.units.stand_in_order();
        tell_prepared(self.restarted.prepared(), out);
        tell_committed(self.restarted.committed(), out);
        hold_prepared(out.prepared(), &mut self.restarted, &mut self.begun);
        Ok(())
    }
}
