// A machine that executes a program.

ghost use Rattle.std.specs.Prelude.{◌≡◌, IsOkAnd};
ghost use Rattle.sq_lang.specs.Step.{sq_rule, sq_start};

use crate::act::Act;
use crate::program::SqProgram;
use crate::state::SqState;
use mach_core::{Feed, Machine, Moved, Put, Status};
use std::alloc::{AllocError, Global};

/// Executes a program step by step. All programs go by one rule, and differ only in the cells that they begin with: so it
/// keeps no program beside the cells.
#[derive(Drop)]
pub struct SqMachine {
    state: SqState,
}

impl SqMachine {
    /// A machine that stands at the start of a program. It takes no memory of its own.
    pub fn new(_alloc: Global, p: SqProgram) -> Result<SqMachine, AllocError>
        ensures rule { IsOkAnd result (λ m. ⟦<SqMachine as Machine>⟧.rule (⟦<SqMachine as Machine>⟧.code m) ≡ sq_rule p) }
        ensures config { IsOkAnd result (λ m. ⟦<SqMachine as Machine>⟧.config m ≡ sq_start p) }
    {
        Ok(SqMachine {
            state: SqState::start(p),
        })
    }
}

impl Machine for SqMachine {
    type Code = SqProgram;

    type Config = SqState;

    ghost rule = { sq_rule };

    ghost start = { sq_start };

    ghost use Rattle.std.specs.Prelude.{IfOk, OnErr};
    ghost use Rattle.mach_core.specs.declared.machine.Status.TheVariants.{Going};
    ghost use Rattle.mach_core.specs.Moved.{MovesBy};
    ghost use Rattle.sq_lang.specs.Machine.{code_of, state_of};
    ghost use Rattle.sq_lang.specs.Step.{act_at};
    ghost use Rattle.sq_lang.specs.Want.{WantsPage};

    ghost code = { code_of };

    ghost config = { state_of };

    fn status(&self) -> Status {
        self.state.status()
    }

    fn wants(&self) -> bool {
        matches!(self.state.act(), Act::Take(_))
    }

    // Memory is wanted only where a value other than 0 is put into a cell whose page holds 0 alone.
    fn step(&mut self, fed: u8) -> Result<Moved, AllocError>
        requires { (sq_rule (code_of self.old)).standing (state_of self.old) ≡ Going }
        ensures moved { IfOk result (MovesBy (sq_rule (code_of self.old)) (state_of self.old) fed (state_of self.new)) }
        ensures code { code_of self.new ≡ code_of self.old }
        ensures err { OnErr result (state_of self.new ≡ state_of self.old) }
        ensures cause { OnErr result (WantsPage (state_of self.old).cells (act_at (state_of self.old)) fed) }
    {
        match self.state.act() {
            Act::Take(b) => {
                self.state.take(b, fed)?;
                Ok(Moved::Took)
            }
            Act::Write(a) => {
                let byte = self.state.byte(a);
                self.state.go_on();
                Ok(Moved::Wrote(byte))
            }
            Act::Subtract(a, b, target) => {
                self.state.subtract(a, b, target)?;
                Ok(Moved::Quiet)
            }
            Act::Stop(code) => {
                self.state.stop(code);
                Ok(Moved::Quiet)
            }
        }
    }

    fn run_buffered(&mut self, most: u64, feed: &mut Feed, put: &mut Put) -> u64 {
        self.state.run_buffered(most, feed, put)
    }
}
