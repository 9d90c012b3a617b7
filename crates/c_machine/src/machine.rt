// A machine that runs plain code.

ghost use Rattle.std.specs.Prelude.{◌≡◌, IfOk};
ghost use Rattle.c_plain.specs.Rule.{plain_start};

use crate::state::CState;
use c_plain::Plain;
use mach_core::{Machine, Moved, Status};
use std::alloc::{AllocError, Global};

/// A program, and the units of fuel that its run has.
#[derive(Clone, Copy)]
pub struct Funded<'p> {
    pub program: &'p Plain,
    pub fuel: u64,
}

/// Runs a program instruction by instruction.
#[derive(Drop)]
pub struct CMachine<'p> {
    funded: Funded<'p>,
    state: CState,
}

impl<'p> CMachine<'p> {
    /// A machine that stands at the start of a program, with so many units of fuel.
    pub fn new(alloc: Global, program: &'p Plain, fuel: u64) -> Result<CMachine<'p>, AllocError>
        ensures program { IfOk result (λ m. (⟦<CMachine<'p> as Machine>⟧.code m).program.now ≡ program.now) }
        ensures fuel { IfOk result (λ m. (⟦<CMachine<'p> as Machine>⟧.code m).fuel ≡ fuel) }
        ensures config { IfOk result (λ m. ⟦<CMachine<'p> as Machine>⟧.config m ≡ plain_start program.now fuel) }
    {
        let state = CState::start(alloc, program, fuel)?;
        Ok(CMachine {
            funded: Funded { program, fuel },
            state,
        })
    }
}

impl<'p> Machine for CMachine<'p> {
    ghost use Rattle.c_machine.specs.Machines.{code_of, state_of, rule_for, start_for};

    type Code = Funded<'p>;

    type Config = CState;

    ghost rule = { rule_for };

    ghost start = { start_for };

    ghost code = { code_of };

    ghost config = { state_of };

    fn status(&self) -> Status {
        self.state.status()
    }

    fn wants(&self) -> bool {
        self.state.wants(self.funded.program)
    }

    fn step(&mut self, fed: u8) -> Result<Moved, AllocError> {
        self.state.step(self.funded.program, fed)
    }

    fn run_quietly(&mut self, most: u64) -> u64 {
        self.state.run_quietly(self.funded.program, most)
    }
}
