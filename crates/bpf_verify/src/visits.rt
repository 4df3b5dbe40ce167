//! The pass over a program's instructions.

ghost use Rattle.std.specs.Prelude.{◌≡◌, ◌≢◌, ◌<◌, ◌≤◌, ◌+◌, ◌≤ℤ◌, pos, ℕ, Bool, IsTrue, OnOk, OnErr, IfOk, IfErr, length, vec_len, vec_capacity};
ghost use Rattle.std.specs.Box.{box_value};
ghost use Rattle.bpf_insn.specs.Code.{units_of, unit_count};
ghost use Rattle.bpf_insn.specs.Spelling.{HasSpelling, IsOperand};
ghost use Rattle.bpf_flow.specs.declared.state.State.{State as StateOf};
ghost use Rattle.bpf_flow.specs.Steps.{distance_of, edges_of, GoesNext, GoesJump, HasNext, HasJump, IsPlain, CanFlow};
ghost use Rattle.bpf_verify.specs.Flats.{StandsFor, AreFlats};
ghost use Rattle.bpf_verify.specs.Kinds.{AddsRow, AreRows};
ghost use Rattle.bpf_verify.specs.States.{state_at};
ghost use Rattle.bpf_verify.specs.Structure.{IsBuilt, IsMet};
ghost use Rattle.bpf_verify.specs.Stopped.{Halts, Stays, IsStopped};
ghost use Rattle.bpf_verify.specs.Verified.{IsVerified, Starts};
ghost use Rattle.bpf_verify.specs.Visits.{AreStates, Adds, ConsistentAt, Keeps, Ready, Settles, Visited, VisitedAt};

use crate::fault::VerifyFault;
use crate::ghost_states::GhostStates;
use crate::kinds::Kinds;
use crate::pass::Pass;
use crate::table::States;
use bpf_flat::{Flat, flat_of, flat_plain};
use bpf_flow::{FlowFault, State, Way, flow, flow_branch};
use bpf_insn::{Code, Insn, Operand, Test, Width};
use std::alloc::{AllocError, Allocator};

fn distance(insn: Insn) -> i64
    ensures value { result ≡ distance_of insn }
    ensures small { result ≤ℤ pos 0x8000_0000 }
{
    match insn {
        Insn::Branch { offset, .. } => offset as i64,
        Insn::Jump { offset } => offset as i64,
        Insn::JumpFar { offset } => offset as i64,
        _ => 0,
    }
}

/// Joins the state after an instruction into the unit at which the run continues, if any. `way` must not be `Both`.
fn settle<A: Allocator + Copy>(
    pass: &mut Pass<A>,
    way: Way,
    next: usize,
    to: usize,
    state: Box<State, A>,
)
    requires one { way ≢ Way.Both }
    requires next { GoesNext way → Ready pass.old.noted.states pass.old.kept next }
    requires jump { GoesJump way → Ready pass.old.noted.states pass.old.kept to }
    ensures settles { (t : StateOf) → Settles pass.old.noted.states pass.new.noted.states next to (edges_of way (box_value state) t) }
    ensures keeps { (all : Bool) (from : ℕ) → Keeps all from pass.old.noted.states pass.old.kept → Keeps all from pass.new.noted.states pass.new.kept }
{
    match way {
        Way::End => {}
        Way::Next => pass.add(next, state),
        Way::Jump => pass.add(to, state),
        Way::Both => unreachable!(),
    }
}

/// Visits an instruction other than a conditional jump: joins the state after it into the unit at which the run continues.
fn visit_plain<A: Allocator + Copy>(
    pass: &mut Pass<A>,
    insn: Insn,
    next: usize,
    to: usize,
    state: Box<State, A>,
) -> Result<(), FlowFault>
    requires has { HasSpelling insn }
    requires built { CanFlow insn }
    requires plain { IsPlain insn }
    requires next { HasNext insn → Ready pass.old.noted.states pass.old.kept next }
    requires jump { HasJump insn → Ready pass.old.noted.states pass.old.kept to }
    ensures taken { OnOk result (Visited insn (box_value state) pass.old.noted.states pass.new.noted.states next to) }
    ensures same { OnErr result (pass.new ≡ pass.old) }
    ensures keeps { (all : Bool) (from : ℕ) → Keeps all from pass.old.noted.states pass.old.kept → Keeps all from pass.new.noted.states pass.new.kept }
{
    let mut state = state;
    let way = flow(insn, &mut state)?;
    settle(pass, way, next, to, state);
    Ok(())
}

/// Visits a conditional jump: joins the states on its edges into their targets.
fn visit_branch<A: Allocator + Copy>(
    pass: &mut Pass<A>,
    test: Test,
    width: Width,
    dst: u8,
    src: Operand,
    next: usize,
    to: usize,
    state: Box<State, A>,
    target: Box<State, A>,
) -> Result<(), FlowFault>
    requires dst { dst ≤ 10 }
    requires src { IsOperand src }
    requires same { box_value target ≡ box_value state }
    requires next { Ready pass.old.noted.states pass.old.kept next }
    requires jump { Ready pass.old.noted.states pass.old.kept to }
    ensures taken { OnOk result ((offset : _) → pos 0 ≤ℤ offset → Visited (Insn.Branch test width dst src offset) (box_value state) pass.old.noted.states pass.new.noted.states next to) }
    ensures same { OnErr result (pass.new ≡ pass.old) }
    ensures keeps { (all : Bool) (from : ℕ) → Keeps all from pass.old.noted.states pass.old.kept → Keeps all from pass.new.noted.states pass.new.kept }
{
    let (mut state, mut target) = (state, target);
    let way = flow_branch(test, width, dst, src, &mut state, &mut target)?;
    if let Way::Both = way {
        pass.add(next, state);
        pass.add(to, target);
        return Ok(());
    }
    settle(pass, way, next, to, state);
    Ok(())
}

/// Visits the instruction at a unit with the state before it.
fn visit_insn<A: Allocator + Copy>(
    alloc: A,
    pass: &mut Pass<A>,
    at: usize,
    insn: Insn,
    state: Box<State, A>,
) -> Result<(), VerifyFault>
    requires short { at < 4096 }
    requires has { HasSpelling insn }
    requires built { CanFlow insn }
    requires next { HasNext insn → Ready pass.old.noted.states pass.old.kept (at + units_of insn) }
    requires jump { (k : ℕ) → HasJump insn → distance_of insn ≡ pos k → Ready pass.old.noted.states pass.old.kept (at + 1 + k) }
    ensures taken { OnOk result (VisitedAt insn (box_value state) pass.old.noted.states pass.new.noted.states at) }
    ensures halts { IfErr result (λ fault. Halts fault at pass.old.noted.states pass.new.noted.states) }
    ensures keeps { (all : Bool) (from : ℕ) → Keeps all from pass.old.noted.states pass.old.kept → Keeps all from pass.new.noted.states pass.new.kept }
{
    let next = at + insn.units();
    let to = at + 1 + distance(insn) as usize;
    if let Insn::Branch {
        test,
        width,
        dst,
        src,
        ..
    } = insn
    {
        let Ok(target) = Box::new(alloc, *state) else {
            return Err(VerifyFault::NoMemory);
        };
        return match visit_branch(pass, test, width, dst, src, next, to, state, target) {
            Ok(()) => Ok(()),
            Err(fault) => Err(VerifyFault::placed(fault, at)),
        };
    }
    match visit_plain(pass, insn, next, to, state) {
        Ok(()) => Ok(()),
        Err(fault) => Err(VerifyFault::placed(fault, at)),
    }
}

/// Visits the instruction at a unit if the unit has a state: joins the states on the edges into their targets. Adds the unit to `kinds`
/// and returns the executable form of the unit.
fn visit<A: Allocator + Copy>(
    alloc: A,
    code: &Code<A>,
    pass: &mut Pass<A>,
    kinds: &mut Kinds<A>,
    all: bool,
    at: usize,
) -> Result<Flat, VerifyFault>
    requires built { IsBuilt code.now }
    requires are { AreStates code.now pass.old.noted.states }
    requires keeps { Keeps all at pass.old.noted.states pass.old.kept }
    requires short { at < unit_count code.now }
    requires room { vec_len kinds.old.rows < vec_capacity kinds.old.rows }
    requires few { length kinds.old.pool.items + 11 ≤ 0x1_0000 }
    ensures adds { IfOk result (λ _. Adds code.now pass.old.noted.states pass.new.noted.states at) }
    ensures consistent { IfOk result (λ _. ConsistentAt code.now pass.new.noted.states at) }
    ensures flat { IfOk result (StandsFor code.now pass.new.noted.states at) }
    ensures kinds { OnOk result (AddsRow kinds.old.pool.items kinds.new.pool.items kinds.old.rows.items kinds.new.rows.items (state_at pass.old.noted.states at)) }
    ensures room { OnOk result (vec_capacity kinds.new.rows ≡ vec_capacity kinds.old.rows) }
    ensures keeps { Keeps all (at + 1) pass.new.noted.states pass.new.kept }
    ensures met { IfErr result (IsMet code.now) }
    ensures stays { IfErr result (Stays pass.old.noted.states pass.new.noted.states at) }
{
    let Some(insn) = code.insn_at(at) else {
        kinds.skip();
        return Ok(Flat::Other);
    };
    let Some(state) = pass.take(alloc, all, at)? else {
        kinds.skip();
        return Ok(flat_plain(insn));
    };
    kinds.add(&state)?;
    let flat = flat_of(&state, insn);
    visit_insn(alloc, pass, at, insn, state)?;
    Ok(flat)
}

/// The result of a pass over a program: all its states, for contracts only; the stored states; and the executable form and the kinds of
/// registers of each unit.
#[derive(Drop)]
pub(crate) struct PassResult<A: Allocator> {
    pub(crate) noted: GhostStates,
    pub(crate) kept: States<A>,
    pub(crate) flats: Vec<Flat, A>,
    pub(crate) kinds: Kinds<A>,
}

/// Begins the pass with the state at the start of a run.
fn begin<A: Allocator + Copy>(alloc: A, code: &Code<A>) -> Result<Pass<A>, AllocError>
    requires { IsBuilt code.now }
    ensures are { IfOk result (λ p. AreStates code.now p.noted.states) }
    ensures starts { IfOk result (λ p. Starts p.noted.states) }
    ensures keeps { IfOk result (λ p. (all : Bool) → Keeps all 0 p.noted.states p.kept) }
{
    let mut pass = Pass::new(alloc, code.units())?;
    let start = Box::new(alloc, State::at_start())?;
    pass.add(0, start);
    Ok(pass)
}

/// Visits each reached instruction once, in order. The structure must be valid. On error, returns the first fault and the states stored at
/// that time: all states if `all` is true, otherwise those of the units ahead.
pub(crate) fn pass_over<A: Allocator + Copy>(
    alloc: A,
    code: &Code<A>,
    all: bool,
) -> Result<PassResult<A>, (VerifyFault, States<A>)>
    requires { IsBuilt code.now }
    ensures verified { IfOk result (λ p. IsVerified code.now p.noted.states) }
    ensures flats { IfOk result (λ p. AreFlats code.now p.noted.states p.flats.items) }
    ensures kinds { IfOk result (λ p. AreRows p.kinds.pool.items p.kinds.rows.items p.noted.states) }
    ensures whole { IsTrue all → IfOk result (λ p. p.kept ≡ p.noted.states) }
    ensures met { IfErr result (λ e. IsMet code.now e.0) }
    ensures stopped { IsTrue all → IfErr result (λ e. IsStopped code.now e.1 e.0) }
{
    let units = code.units();
    let mut flats = Vec::new(alloc);
    let Ok(()) = flats.reserve(units) else {
        return Err((VerifyFault::NoMemory, States::empty(alloc)));
    };
    let Ok(mut kinds) = Kinds::new(alloc, units) else {
        return Err((VerifyFault::NoMemory, States::empty(alloc)));
    };
    let Ok(mut pass) = begin(alloc, code) else {
        return Err((VerifyFault::NoMemory, States::empty(alloc)));
    };
    for at in 0..units {
        match visit(alloc, code, &mut pass, &mut kinds, all, at) {
            Ok(flat) => flats.push_reserved(flat),
            Err(fault) => return Err((fault, pass.kept)),
        }
    }
    let Pass { noted, kept } = pass;
    kinds.shrink();
    Ok(PassResult {
        noted,
        kept,
        flats,
        kinds,
    })
}
