// What a node serves of requests.
ghost use Rattle.std.specs.Prelude.{◌≡◌, ◌+◌, ◌<◌, ◌≤◌, ◌^◌, ℕ, true, false, None, length, OnOk, IfOk};
ghost use Rattle.vms_model.specs.Limits.{slot_limit};
ghost use Rattle.reference_index.specs.run_model.Steps.{ready_node};
ghost use Rattle.reference_index.specs.run_model.Answers.{powers, refused_before_reading, service, spoils};
ghost use Rattle.reference_index.specs.run_model.World as world;
ghost use Rattle.script_lang.specs.declared.literals.Literals.{Literals as LiteralsSaid};
ghost use Rattle.script_lang.specs.Statements.{request_of};
ghost use Rattle.reference_node.specs.world_laws.Nodes.{IsKeptDisk, IsKeptNode};
ghost use Rattle.reference_branches.specs.Branches.{shared_of};
ghost use Rattle.reference_node.specs.Nodes.{node_of, Does};
ghost use Rattle.reference_node.specs.Telling.{CanTell, HasTime};
ghost use Rattle.reference_tasks.specs.Serving.{HasUnits, IsSetEarly, RestsNot, Serves, TellsTable};

use reference_branches::Shared;
use reference_node::Node;
use reference_records::asked_by;
use reference_world::{Line, Volume, one};
use script_lang::{Literals, Request};
use std::alloc::{AllocError, Global};

// The disk is made to run again, where the request does that.
fn ready(node: &mut Node, request: &Request) -> Result<(), AllocError>
    ensures { (lit : LiteralsSaid) → OnOk result (node_of node.new ≡ ready_node world.Lost 0 (service (request_of lit request.now)) (node_of node.old)) }
{
    match request {
        Request::Init { .. } => {
            node.power()?;
            node.durable.volume = Volume::Unknown;
            Ok(())
        }
        Request::Boot => node.power(),
        _ => Ok(()),
    }
}

// What a request to its transactions does that nothing refuses.
fn act_on_branches(
    alloc: Global,
    node: &mut Node,
    shared: &mut Shared,
    request: &Request,
    lit: &Literals,
) -> Result<Vec<Line>, AllocError>
    requires tells { TellsTable request.now }
    requires early { (service (request_of lit.now request.now)).refused_before_reading (shared_of shared.old) (node_of node.old) ≡ None }
    requires late { (service (request_of lit.now request.now)).refused_after_reading (shared_of shared.old) (node_of node.old) ≡ None }
    requires slots { length (node_of node.old).durable.log ≤ slot_limit }
    requires drawn { node.old.drawn + 1 < 2 ^ 32 }
    requires can { CanTell (node_of node.old) }
    ensures does { IfOk result (λ lines. Does (shared_of shared.old) (node_of node.old) (service (request_of lit.now request.now)) lines.items (node_of node.new) (shared_of shared.new)) }
    ensures time { (count : ℕ) → HasTime (count + 2048) (node_of node.old) → OnOk result (HasTime count (node_of node.new)) }
{
    match request {
        Request::StartTrans { label, seconds } => node.start(alloc, shared, label, *seconds),
        Request::AddBranch { label, other, new } => {
            node.add_branch(alloc, shared, label, other, new)
        }
        Request::StartBranch(label) => node.start_branch(alloc, shared, label),
        Request::EndBranch(label) => node.end_branch(alloc, shared, label),
        Request::EndTrans(label) => node.end(alloc, shared, label),
        Request::AbortTrans(label) => node.abort(alloc, shared, label),
        Request::Inquire(who) => node.inquire(alloc, shared, who),
        Request::JoinRm(label, rm) => node.join(alloc, shared, label, rm),
        Request::AckEvent(who, rm, reply) => node.reply(alloc, shared, who, rm, *reply),
        _ => one(alloc, Line::Normal),
    }
}

// What a request does that nothing refuses.
fn act(
    alloc: Global,
    node: &mut Node,
    shared: &mut Shared,
    request: &Request,
    lit: &Literals,
) -> Result<Vec<Line>, AllocError>
    requires early { powers (service (request_of lit.now request.now)) ≡ false → refused_before_reading (shared_of shared.old) (node_of node.old) (service (request_of lit.now request.now)) ≡ None }
    requires late { (service (request_of lit.now request.now)).refused_after_reading (shared_of shared.old) (node_of node.old) ≡ None }
    requires units { HasUnits 1 (node_of node.old) }
    requires kept { spoils (service (request_of lit.now request.now)) ≡ false → IsKeptDisk (node_of node.old) }
    requires can { (node_of node.old).up ≡ true → CanTell (node_of node.old) }
    ensures does { IfOk result (λ lines. Does (shared_of shared.old) (node_of node.old) (service (request_of lit.now request.now)) lines.items (node_of node.new) (shared_of shared.new)) }
    ensures time { RestsNot request.now → (count : ℕ) → HasTime (count + 2048) (node_of node.old) → OnOk result (HasTime count (node_of node.new)) }
{
    match request {
        Request::Init { slots, blocks } => node.make(alloc, *slots, *blocks),
        Request::Boot => node.boot(alloc),
        Request::Create {
            file,
            bucket,
            size,
            form,
        } => node.create(alloc, *file, *bucket, *size, *form),
        Request::SetFile(file, setting) => node.set_file(alloc, file, *setting),
        Request::Records(label, file, operation) => {
            node.operate(alloc, shared, label, file, asked_by(operation, lit))
        }
        Request::Direct(file, operation) => { node.direct(alloc, file, asked_by(operation, lit)) }
        Request::Dump(file) => node.dump(alloc, file),
        Request::DumpJournal => node.dump_journal(alloc),
        Request::DumpImages(file, side) => node.dump_images(alloc, file, *side),
        Request::Backup(file) => node.backup(alloc, file),
        Request::Recover(file, way) => node.recover(alloc, file, way),
        Request::Fuse { writes, choice } => node.arm(alloc, *writes, *choice),
        Request::Crash => node.crash(alloc),
        Request::Clock(now) => node.set_clock(alloc, *now),
        Request::DeclareRm(rm) => node.declare(alloc, rm),
        Request::ForgetRm(rm) => node.forget_manager(alloc, rm),
        Request::GetDti(who) => node.get_dti(alloc, shared, who),
        Request::LmcpShow => node.show_log(alloc),
        Request::LmcpDump => node.dump_log(alloc),
        _ => act_on_branches(alloc, node, shared, request, lit),
    }
}

// A request that nothing refuses before the disk is read.
fn serve_allowed(
    alloc: Global,
    node: &mut Node,
    shared: &mut Shared,
    request: &Request,
    lit: &Literals,
) -> Result<Vec<Line>, AllocError>
    requires early { refused_before_reading (shared_of shared.old) (node_of node.old) (service (request_of lit.now request.now)) ≡ None }
    requires units { HasUnits 1 (node_of node.old) }
    requires kept { IsKeptNode (shared_of shared.old) (node_of node.old) }
    ensures serves { IfOk result (λ lines. Serves (shared_of shared.old) (node_of node.old) (service (request_of lit.now request.now)) lines.items (node_of node.new) (shared_of shared.new)) }
    ensures time { RestsNot request.now → (count : ℕ) → HasTime (count + 2048) (node_of node.old) → OnOk result (HasTime count (node_of node.new)) }
{
    ready(node, request)?;
    if let Some(refusal) = node.late(alloc, shared, request, lit)? {
        return one(alloc, refusal);
    }
    let lines = act(alloc, node, shared, request, lit)?;
    shared.occupy(request);
    Ok(lines)
}

/// Serves a request.
pub fn serve(
    alloc: Global,
    node: &mut Node,
    shared: &mut Shared,
    request: &Request,
    lit: &Literals,
) -> Result<Vec<Line>, AllocError>
    requires units { HasUnits 1 (node_of node.old) }
    requires kept { IsKeptNode (shared_of shared.old) (node_of node.old) }
    ensures serves { IfOk result (λ lines. Serves (shared_of shared.old) (node_of node.old) (service (request_of lit.now request.now)) lines.items (node_of node.new) (shared_of shared.new)) }
    ensures units { (units : ℕ) → IsSetEarly units (request_of lit.now request.now) → HasUnits (units + 64) (node_of node.old) → OnOk result (HasUnits units (node_of node.new)) }
{
    if let Some(refusal) = node.early(alloc, shared, request, lit)? {
        return one(alloc, refusal);
    }
    serve_allowed(alloc, node, shared, request, lit)
}
