// Units that are begun, with the branches that they are.
ghost use Rattle.std.specs.Prelude.{◌≡◌, ◌≤◌, ◌<◌, ◌+◌, ◌++◌, None, true, length, position, vec_capacity};
ghost use Rattle.vms_model.specs.Limits.{branch_limit};
ghost use Rattle.unit_table.specs.Units.{begun};
ghost use Rattle.vms_base.specs.Ids.{serial_of, tid_of};
ghost use Rattle.vms_model.specs.Ids.{IsId};
ghost use Rattle.rms_units.specs.State.{unit_of, with_begun};
ghost use Rattle.node_units.specs.Tokens.{is_active, is_of, place_in, tokens_for};

use rms_units::{ActiveUnit, PreparedUnit, Restarted, Units, is_same, next_prepared};
use vms_base::{LogRec, Serial, Tid, put_id};

/// What is held of a unit: it may be changed, it waits for its outcome, or it was spent.
#[derive(Drop)]
pub(crate) enum Token {
    Active(ActiveUnit),
    Prepared(PreparedUnit),
    Spent,
}

/// A unit that is not settled, and the branch that it is.
#[derive(Drop)]
pub(crate) struct BegunUnit {
    pub tid: Tid,
    pub serial: Serial,
    pub token: Token,
}

/// Where the first of some units stands that is of a branch.
pub(crate) fn place_of(begun: &[BegunUnit], serial: &Serial) -> Option<usize>
    ensures { result ≡ position (is_of (serial_of serial.now)) begun.now }
{
    begun.iter().position(|unit| is_same(serial, &unit.serial))
}

/// Begins a unit, where fewer than 64 are unsettled.
pub(crate) fn begin_unit(units: &mut Units, tid: &Tid, serial: &Serial) -> Token
    requires { length (begun units.old.units) < branch_limit }
    ensures active { is_active result ≡ true }
    ensures begun { units.new ≡ with_begun (place_in result) (tid_of tid.now) (serial_of serial.now) units.old }
    ensures below { place_in result < branch_limit }
    ensures free { unit_of (place_in result) units.old ≡ None }
{
    let Ok(unit) = units.begin(*tid, *serial) else {
        unreachable!()
    };
    Token::Active(unit)
}

/// The ids of a branch can be written.
pub(crate) fn have_ids(tid: &Tid, serial: &Serial)
    ensures tid { IsId (tid_of tid.now) }
    ensures serial { IsId (serial_of serial.now) }
{
    let mut bytes = [0; 16];
    put_id(&tid.0, &mut bytes);
    put_id(&serial.0, &mut bytes);
}

/// Holds the units that a restart hands out, in the order of the records of their branches.
pub(crate) fn hold_prepared(
    records: &[LogRec],
    restarted: &mut Restarted,
    begun: &mut Vec<BegunUnit>,
)
    requires units { length restarted.old.units ≡ length records.now }
    requires room { length begun.old.items + length records.now ≤ vec_capacity begun.old }
    ensures held { begun.new.items ≡ begun.old.items ++ tokens_for records.now restarted.old.units }
    ensures room { vec_capacity begun.old ≤ vec_capacity begun.new }
{
    match records {
        [] => {}
        [r, rest @ ..] => {
            let Some(unit) = next_prepared(restarted) else {
                unreachable!()
            };
            begun.push_reserved(BegunUnit {
                tid: r.tid,
                serial: r.serial,
                token: Token::Prepared(unit),
            });
            hold_prepared(rest, restarted, begun);
        }
    }
}
