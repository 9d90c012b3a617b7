// A machine that executes a program.
ghost use Rattle.std.specs.Prelude.{◌≡◌, IfOk};
ghost use Rattle.ws_lang.specs.Step.{ws_rule, ws_start};

use crate::program::WsProgram;
use crate::reading::Seen;
use crate::state::WsState;
use mach_core::{Feed, Machine, Moved, Put, Status};
use std::alloc::{AllocError, Global};

/// Executes a program step by step.
#[derive(Drop)]
pub struct WsMachine {
    program: WsProgram,
    state: WsState,
}

impl WsMachine {
    /// A machine that stands at the start of a program.
    pub fn new(alloc: Global, p: WsProgram) -> Result<WsMachine, AllocError>
        ensures code { IfOk result (λ m. ⟦<WsMachine as Machine>⟧.code m ≡ p) }
        ensures config { IfOk result (λ m. ⟦<WsMachine as Machine>⟧.config m ≡ ws_start p) }
    {
        let state = WsState::new(alloc)?;
        Ok(WsMachine { program: p, state })
    }
}

impl Machine for WsMachine {
    ghost use Rattle.ws_lang.specs.Machine.{code_of, state_of};

    type Code = WsProgram;

    type Config = WsState;

    ghost rule = { ws_rule };

    ghost start = { ws_start };

    ghost code = { code_of };

    ghost config = { state_of };

    fn status(&self) -> Status {
        match self.state.status() {
            Status::Going => {
                if (self.state.place() as usize) < self.program.len() {
                    Status::Going
                } else {
                    Status::Fault(4)
                }
            }
            Status::Ended => Status::Ended,
            Status::Fault(code) => Status::Fault(code),
        }
    }

    fn wants(&self) -> bool {
        if let Some(reading) = self.state.reading() {
            return match reading.seen {
                Seen::Blanks => true,
                Seen::Digits(_, _) => true,
                Seen::Outside => false,
            };
        }
        match self.program.step(self.state.place()) {
            Some(step) => self.state.takes(step),
            None => false,
        }
    }

    fn step(&mut self, fed: u8) -> Result<Moved, AllocError> {
        let Some(step) = self.program.step(self.state.place()) else {
            return Ok(Moved::Quiet);
        };
        match self.state.reading() {
            Some(reading) => self.state.read_on(reading, fed),
            None => {
                let effect = self.state.effect(step);
                self.state.perform(effect, fed)
            }
        }
    }

    fn run_buffered(&mut self, most: u64, feed: &mut Feed, put: &mut Put) -> u64 {
        self.state.run_buffered(&self.program, most, feed, put)
    }
}
