// The account of the stack while code is checked.
ghost use Rattle.std.specs.Prelude.{◌≡◌, ◌+◌, ◌≤◌, ◌^◌, IfOk};
ghost use Rattle.std.specs.Option.{option_map, option_and_then, ForSome};
ghost use Rattle.wasm_valid.specs.Context.{context_of, GivesFew};
ghost use Rattle.wasm_valid.specs.Effects.{gives_of};
ghost use Rattle.wasm_valid.specs.Levels.{level_after};
ghost use Rattle.wasm_valid.specs.Checking.{first_state, opened, outer_as, closed, parted, step, is_last, Leads, IsLow};

use crate::effect::Effect;
use crate::frames::{Frame, Frames, Kind};
use crate::instruction::effect_at;
use crate::level::{Level, START};
use crate::shape::Shape;
use std::alloc::{AllocError, Global};
use wasm_bin::{Instr, Module};

/// What is known of the stack, and the open blocks.
#[derive(Drop)]
pub struct State {
    level: Level,
    frames: Frames,
}

// What lies on the stack before a block opens, without what the block takes.
fn outer_of(kind: Kind, level: Level) -> Option<Level>
    ensures { result ≡ outer_as kind level }
{
    match kind {
        Kind::Block | Kind::Loop => Some(level),
        Kind::If => level.without(1),
        Kind::Else => None,
    }
}

impl State {
    /// No block is open, and nothing is on the stack.
    pub fn new(alloc: Global) -> State
        ensures { result ≡ first_state }
    {
        State {
            level: START,
            frames: Frames::new(alloc),
        }
    }

    /// Whether no block is open, and so many values may be on the stack.
    pub fn is_last(&self, results: u32) -> bool
        ensures { result ≡ is_last results self.now }
    {
        self.frames.len() == 0 && self.level.is_allowed(results as u64)
    }

    // Opens a block, unless its values are missing.
    fn open(&mut self, kind: Kind, gives: bool) -> Result<bool, AllocError>
        ensures { IfOk result (λ going. Leads (option_map (opened kind gives self.old.frames) (outer_as kind self.old.level)) going self.new) }
    {
        let Some(outer) = outer_of(kind, self.level) else {
            return Ok(false);
        };
        self.frames.push(Frame {
            kind,
            result: gives,
            outer,
        })?;
        self.level = START;
        Ok(true)
    }

    // Ends the first part of an `if`, unless there is none or its values are wrong.
    fn part(&mut self) -> Result<bool, AllocError>
        ensures { IfOk result (λ going. Leads (parted self.old.frames self.old.level) going self.new) }
    {
        let Some(frame) = self.frames.pop() else {
            return Ok(false);
        };
        if !(self.level.is_allowed(frame.arity()) && frame.is_if()) {
            return Ok(false);
        }
        self.frames.push(Frame {
            kind: Kind::Else,
            result: frame.result,
            outer: frame.outer,
        })?;
        self.level = START;
        Ok(true)
    }

    // Ends a block, unless there is none or its values are wrong.
    fn close(&mut self) -> bool
        requires { IsLow (2 ^ 63) self.old }
        ensures { Leads (closed self.old.frames self.old.level) result self.new }
    {
        let Some(frame) = self.frames.pop() else {
            return false;
        };
        if !(self.level.is_allowed(frame.arity()) && !(frame.is_if() && frame.result)) {
            return false;
        }
        self.level = frame.outer.with_more(frame.arity());
        true
    }

    // Takes and gives values, unless there are too few.
    fn apply(&mut self, effect: Option<Effect>) -> bool
        requires low { self.old.level.height ≤ 2 ^ 63 }
        requires few { ForSome effect (λ e. gives_of e ≤ 1) }
        ensures { Leads (option_map (λ l. record self.old { level = l }) (option_and_then (level_after self.old.level) effect)) result self.new }
    {
        let Some(effect) = effect else {
            return false;
        };
        let Some(level) = self.level.after(effect) else {
            return false;
        };
        self.level = level;
        true
    }

    /// Goes over an instruction. Where it is false, the instruction may not stand there.
    pub fn step(
        &mut self,
        m: &Module,
        locals: u64,
        results: u32,
        instruction: &Instr,
    ) -> Result<bool, AllocError>
        requires few { GivesFew (context_of m.now locals results) }
        requires low { IsLow (2 ^ 63) self.old }
        ensures { IfOk result (λ going. Leads (step (context_of m.now locals results) instruction.now self.old) going self.new) }
    {
        match Shape::of(instruction) {
            Shape::Opens(kind, gives) => self.open(kind, gives),
            Shape::Parts => self.part(),
            Shape::Closes => Ok(self.close()),
            Shape::Plain => {
                let effect = effect_at(m, &self.frames, locals, results, instruction);
                Ok(self.apply(effect))
            }
        }
    }
}
