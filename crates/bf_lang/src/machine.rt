// A machine that executes a program.

ghost use Rattle.std.specs.Prelude.{◌≡◌, ◌+◌, ◌<◌, ◌^◌, ℕ, List, Some, slice_get, IfOk, OnErr};
ghost use Rattle.mach_core.specs.Moved.{bytes_of as bytes_moved, is_took};
ghost use Rattle.bf_lang.specs.declared.command.Command.{Command};
ghost use Rattle.bf_lang.specs.declared.command.Command.TheVariants.{Right};
ghost use Rattle.bf_lang.specs.Fold.{target_of};
ghost use Rattle.bf_lang.specs.Step.{bf_rule, bf_start, after, takes, bytes_of};

use crate::command::Command;
use crate::plan::Plan;
use crate::program::BfProgram;
use crate::state::BfState;
use mach_core::{Machine, Moved, Status};
use std::alloc::{AllocError, Global};

/// Executes a program command by command.
#[derive(Drop)]
pub struct BfMachine {
    plan: Plan,
    state: BfState,
}

impl BfMachine {
    /// A machine that stands at the start of a program.
    pub fn new(alloc: Global, p: BfProgram) -> Result<BfMachine, AllocError>
        ensures code { IfOk result (λ m. ⟦<BfMachine as Machine>⟧.code m ≡ p) }
        ensures config { IfOk result (λ m. ⟦<BfMachine as Machine>⟧.config m ≡ bf_start p) }
    {
        let plan = Plan::of(alloc, p)?;
        let state = BfState::start(alloc)?;
        Ok(BfMachine { plan, state })
    }
}

// Executes one command, from which a jump leads to the target.
fn act(state: &mut BfState, command: Command, target: u32, fed: u8) -> Result<Moved, AllocError>
    requires { state.old.place + 1 < 2 ^ 32 }
    ensures moved { IfOk result (λ moved. (code : List Command) → target ≡ target_of code state.old.place (Some command) → state.new ≡ after code state.old (Some command) fed) }
    ensures bytes { IfOk result (λ moved. bytes_moved moved ≡ bytes_of (Some command) state.old) }
    ensures took { IfOk result (λ moved. is_took moved ≡ takes (Some command)) }
    ensures err { OnErr result (state.new ≡ state.old) }
    ensures cause { OnErr result (command ≡ Right) }
{
    match command {
        Command::Right => state.right()?,
        Command::Left => state.left(),
        Command::Plus => state.put(state.here().wrapping_add(1)),
        Command::Minus => state.put(state.here().wrapping_sub(1)),
        Command::Write => {
            let byte = state.here();
            state.go_to(state.place() + 1);
            return Ok(Moved::Wrote(byte));
        }
        Command::Read => {
            state.put(fed);
            return Ok(Moved::Took);
        }
        Command::Open => {
            let next = state.place() + 1;
            state.go_to(if state.here() == 0 { target } else { next });
        }
        Command::Close => {
            let next = state.place() + 1;
            state.go_to(if state.here() == 0 { next } else { target });
        }
    }
    Ok(Moved::Quiet)
}

impl Machine for BfMachine {
    ghost use Rattle.mach_core.specs.declared.machine.Status.TheVariants.{Going};
    ghost use Rattle.mach_core.specs.Moved.{MovesBy};
    ghost use Rattle.bf_lang.specs.Machine.{code_of, state_of};

    type Code = BfProgram;

    type Config = BfState;

    ghost rule = { bf_rule };

    ghost start = { bf_start };

    ghost code = { code_of };

    ghost config = { state_of };

    fn status(&self) -> Status {
        if self.state.fell() {
            Status::Fault(1)
        } else if (self.state.place() as usize) < self.plan.len() {
            Status::Going
        } else {
            Status::Ended
        }
    }

    fn wants(&self) -> bool {
        matches!(self.plan.command(self.state.place()), Some(Command::Read))
    }

    // Memory is wanted only where the head goes to the right.
    fn step(&mut self, fed: u8) -> Result<Moved, AllocError>
        requires { (bf_rule (code_of self.old)).standing (state_of self.old) ≡ Going }
        ensures moved { IfOk result (MovesBy (bf_rule (code_of self.old)) (state_of self.old) fed (state_of self.new)) }
        ensures code { code_of self.new ≡ code_of self.old }
        ensures err { OnErr result (state_of self.new ≡ state_of self.old) }
        ensures cause { OnErr result (slice_get (code_of self.old) (state_of self.old).place ≡ Some Right) }
    {
        let place = self.state.place();
        match self.plan.command(place) {
            Some(command) => {
                let target = self.plan.target(place);
                act(&mut self.state, command, target, fed)
            }
            None => Ok(Moved::Quiet),
        }
    }

    fn run_quietly(&mut self, most: u64) -> u64 {
        self.state.run_quietly(&self.plan, most)
    }
}
