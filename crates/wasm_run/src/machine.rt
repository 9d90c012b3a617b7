// A machine that executes a module.

ghost use Rattle.std.specs.Prelude.{◌≡◌, ◌<◌, ◌≤◌, ◌^◌, true, length, Some, IfOk, OnErr, MatchResult, IfSome, IfNone, OnSome};
ghost use Rattle.wasm_rule.specs.Code.{own_code};
ghost use Rattle.wasm_rule.specs.Start.{main_of, are_placed, wasm_start as start_of, IsLinkable};
ghost use Rattle.wasm_rule.specs.Refusals.{IsRefusedFor};
ghost use Rattle.wasm_run.specs.Machine.{MayWant, next_act_of, state_of as state_at};

use crate::link::{check, first_frame, globals_of, in_turn, memory_of};
use crate::linked::Linked;
use crate::state::State;
use mach_core::{Feed, Machine, Moved, Put, Status};
use std::alloc::{AllocError, Global};
use wasm_bin::Module;
use wasm_parts::decide::act;
use wasm_rule::{Act, LinkFault, WasmConfig};
use wasm_valid::Valid;

/// Executes a module step by step.
#[derive(Drop)]
pub struct WasmMachine {
    alloc: Global,
    linked: Linked,
    state: State,
}

/// A machine that stands at the start of a module with this function `main`.
fn start(alloc: Global, m: Module, main: u32) -> Result<WasmMachine, AllocError>
    requires own { length m.imports ≤ main }
    requires entry { main_of m ≡ Some main }
    requires placed { are_placed m ≡ true }
    ensures code { IfOk result (λ machine. machine.linked ≡ m) }
    ensures config { IfOk result (λ machine. state_at machine ≡ start_of m) }
{
    let globals = globals_of(alloc, &m)?;
    let memory = memory_of(alloc, &m)?;
    let first = m.start;
    let own = main - m.imports.len() as u32;
    let linked = Linked::of(alloc, m)?;
    let first = first_frame(alloc, &linked, first)?;
    let entry = linked.frame(alloc, own, Vec::new(alloc))?;
    let (frame, later) = in_turn(first, entry);
    let state = State {
        frame,
        callers: Vec::new(alloc),
        later,
        globals,
        memory,
        status: Status::Going,
    };
    Ok(WasmMachine {
        alloc,
        linked,
        state,
    })
}

impl WasmMachine {
    /// A machine that stands at the start of a valid module: its start function runs first, if there is one, and then
    /// `main`. The faults come in the order in which `LinkFault` has them.
    pub fn new(alloc: Global, v: Valid) -> Result<WasmMachine, LinkFault>
        ensures code { IfOk result (λ machine. ⟦<WasmMachine as Machine>⟧.code machine ≡ v) }
        ensures config { IfOk result (λ machine. ⟦<WasmMachine as Machine>⟧.config machine ≡ start_of v) }
        ensures linkable { MatchResult result (λ machine. IsLinkable v) (IsRefusedFor v) }
    {
        WasmMachine::of(alloc, v.into_module())
    }

    /// A machine that stands at the start of a module.
    pub(crate) fn of(alloc: Global, m: Module) -> Result<WasmMachine, LinkFault>
        ensures code { IfOk result (λ machine. ⟦<WasmMachine as Machine>⟧.code machine ≡ m) }
        ensures config { IfOk result (λ machine. ⟦<WasmMachine as Machine>⟧.config machine ≡ start_of m) }
        ensures linkable { MatchResult result (λ machine. IsLinkable m) (IsRefusedFor m) }
    {
        let main = check(&m)?;
        match start(alloc, m, main) {
            Ok(machine) => Ok(machine),
            Err(AllocError) => Err(LinkFault::Memory),
        }
    }

    /// What the next step does, if an instruction comes next.
    fn next_act(&self) -> Option<Act>
        ensures act { IfSome result (λ act. act ≡ next_act_of self.now.linked self.now.state) }
        ensures none { IfNone result (next_act_of self.now.linked self.now.state ≡ Act.Leave) }
        ensures within { OnSome result (self.now.state.frame.place < length (own_code self.now.linked self.now.state.frame.body)) }
        ensures bound { OnSome result (self.now.state.frame.place < 2 ^ 63) }
    {
        let frame = &self.state.frame;
        match self.linked.instr(frame.body, frame.place) {
            Some(instr) => Some(act(
                self.linked.module(),
                self.state.callers.len() + 1,
                frame.locals.as_slice(),
                self.state.globals.as_slice(),
                &self.state.memory,
                &frame.values,
                instr,
            )),
            None => None,
        }
    }
}

impl Machine for WasmMachine {
    ghost use Rattle.mach_core.specs.declared.machine.Status.TheVariants.{Going};
    ghost use Rattle.mach_core.specs.Moved.{MovesBy};
    ghost use Rattle.wasm_rule.specs.Rule.{wasm_rule};
    ghost use Rattle.wasm_rule.specs.Start.{wasm_start};
    ghost use Rattle.wasm_run.specs.Machine.{module_of, state_of};

    type Code = Module;

    type Config = WasmConfig;

    ghost rule = { wasm_rule };

    ghost start = { wasm_start };

    ghost code = { module_of };

    ghost config = { state_of };

    fn status(&self) -> Status {
        self.state.status
    }

    fn wants(&self) -> bool {
        matches!(self.next_act(), Some(Act::Read))
    }

    /// Memory is never wanted for an instruction that sets a local or a global, and for a store only where a byte other
    /// than 0 goes into a page of zeros.
    fn step(&mut self, fed: u8) -> Result<Moved, AllocError>
        requires { (wasm_rule (module_of self.old)).standing (state_of self.old) ≡ Going }
        ensures moved { IfOk result (MovesBy (wasm_rule (module_of self.old)) (state_of self.old) fed (state_of self.new)) }
        ensures code { module_of self.new ≡ module_of self.old }
        ensures err { OnErr result (state_of self.new ≡ state_of self.old) }
        ensures cause { OnErr result (MayWant self.old.state.memory.bytes (next_act_of self.old.linked self.old.state)) }
    {
        match self.next_act() {
            Some(act) => self.state.perform(self.alloc, &self.linked, act, fed),
            None => {
                self.state.leave()?;
                Ok(Moved::Quiet)
            }
        }
    }

    fn run_buffered(&mut self, most: u64, feed: &mut Feed, put: &mut Put) -> u64 {
        self.state
            .run_buffered(self.alloc, &self.linked, most, feed, put)
    }
}
