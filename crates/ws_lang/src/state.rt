// What a program is at.
ghost use Rattle.std.specs.Prelude.{◌≡◌, ℕ, ◌<◌, ◌≤◌, ◌^◌, OnErr, IfOk, Some, List, slice_get};
ghost use Rattle.mach_core.specs.Held.{StepsHeld};
ghost use Rattle.ws_lang.specs.Instruction.{Instruction};
ghost use Rattle.ws_lang.specs.Step.{ws_start, ws_rule, act_reading};
ghost use Rattle.ws_lang.specs.Progress.{ProgressFits, reading_after};
ghost use Rattle.ws_lang.specs.Effect.{act_for, effect_of, takes_with};
ghost use Rattle.ws_lang.specs.Acts.{Acts};

use crate::effect::Effect;
use crate::heap::Heap;
use crate::program::WsProgram;
use crate::progress::{after_blank, after_digit};
use crate::reading::{Progress, Reading, Seen};
use crate::resolved::Resolved;
use crate::stack::Stack;
use mach_core::{Feed, Moved, Put, Status};
use std::alloc::{AllocError, Global};
use std::marker::Model;

/// A place in a program with the values that it has, which a clause sees as the configuration of the step rule.
#[derive(Drop)]
pub struct WsState {
    place: u32,
    stack: Stack,
    heap: Heap,
    /// The last call's place at the end.
    returns: Vec<u32>,
    reading: Option<Reading>,
    status: Status,
}

impl Model for WsState {
    ghost use Rattle.ws_lang.specs.Step.{Config};
    ghost use Rattle.ws_lang.specs.Codes.{config_code};

    ghost Value = { Config };

    ghost coded = { config_code };

    ghost use Rattle.ws_lang.specs.StateInside.{config_of, IsInside};

    ghost view = { config_of };

    ghost invariant = { IsInside };
}

impl WsState {
    /// At the first instruction, with nothing stored.
    pub fn new(alloc: Global) -> Result<WsState, AllocError>
        ensures { IfOk result (λ s. (code : List Instruction) → s ≡ ws_start code) }
    {
        let heap = Heap::new(alloc)?;
        Ok(WsState {
            place: 0,
            stack: Stack::new(alloc),
            heap,
            returns: Vec::new(alloc),
            reading: None,
            status: Status::Going,
        })
    }

    /// The place of the next instruction.
    pub fn place(&self) -> u32
        ensures { result ≡ self.now.place }
    {
        self.place
    }

    /// That it is not over, or how it is.
    pub fn status(&self) -> Status
        ensures { result ≡ self.now.status }
    {
        self.status
    }

    /// The number that is being read, if one is.
    pub fn reading(&self) -> Option<Reading>
        ensures { result ≡ self.now.reading }
    {
        self.reading
    }

    /// Whether an instruction takes a byte here.
    pub fn takes(&self, step: Resolved) -> bool
        ensures { result ≡ takes_with (slice_get self.now.stack 0) step }
    {
        matches!(step, Resolved::ReadCharacter) && !self.stack.is_empty()
    }

    /// Makes at most so many steps with what is held, and says how many. It stops before a step that takes where no byte is
    /// held, that writes where there is no room, that reads or writes a number, meets a fault, calls, returns, ends, or
    /// needs memory.
    pub fn run_buffered(
        &mut self,
        program: &WsProgram,
        most: u64,
        feed: &mut Feed,
        put: &mut Put,
    ) -> u64
        ensures few { result ≤ most }
        ensures held { StepsHeld (ws_rule program.now) self.old (record { held = feed.old; put = put.old }) result self.new (record { held = feed.new; put = put.new }) }
    {
        if self.reading.is_some() || self.status != Status::Going {
            return 0;
        }
        self.stack
            .run_buffered(program, &mut self.heap, &mut self.place, most, feed, put)
    }

    // Goes on with a value in the place of so many at the top.
    fn put(&mut self, count: usize, value: i64) -> Result<Moved, AllocError>
        requires { self.old.place < 2 ^ 30 }
        ensures ok { IfOk result (λ moved. (fed : ℕ) → Acts self.old (act_for self.old (Effect.Put count value)) fed self.new moved) }
        ensures err { OnErr result (self.new ≡ self.old) }
    {
        self.stack.put(count, value)?;
        self.place += 1;
        Ok(Moved::Quiet)
    }

    // Goes on without so many values at the top.
    fn discard(&mut self, count: usize) -> Moved
        requires { self.old.place < 2 ^ 30 }
        ensures { (fed : ℕ) → Acts self.old (act_for self.old (Effect.Discard count)) fed self.new result }
    {
        self.stack.drop_top(count);
        self.place += 1;
        Moved::Quiet
    }

    // Goes on with the two values at the top swapped.
    fn swap(&mut self) -> Moved
        requires { self.old.place < 2 ^ 30 }
        ensures { (fed : ℕ) → Acts self.old (act_for self.old Effect.Swap) fed self.new result }
    {
        self.stack.swap();
        self.place += 1;
        Moved::Quiet
    }

    // Goes to a place without so many values at the top.
    fn jump(&mut self, count: usize, place: u32) -> Moved
        ensures { (fed : ℕ) → Acts self.old (act_for self.old (Effect.Jump count place)) fed self.new result }
    {
        self.stack.drop_top(count);
        self.place = place;
        Moved::Quiet
    }

    // Goes to a place, from where a return leads behind this one.
    fn call(&mut self, place: u32) -> Result<Moved, AllocError>
        requires { self.old.place < 2 ^ 30 }
        ensures ok { IfOk result (λ moved. (fed : ℕ) → Acts self.old (act_for self.old (Effect.Call place)) fed self.new moved) }
        ensures err { OnErr result (self.new ≡ self.old) }
    {
        self.returns.push(self.place + 1)?;
        self.place = place;
        Ok(Moved::Quiet)
    }

    // Meets a fault.
    fn fail(&mut self, code: u8) -> Moved
        ensures { (fed : ℕ) → Acts self.old (act_for self.old (Effect.Fault code)) fed self.new result }
    {
        self.status = Status::Fault(code);
        Moved::Quiet
    }

    // Goes to where the last call returns to, if there is one.
    fn go_back(&mut self) -> Moved
        ensures { (fed : ℕ) → Acts self.old (act_for self.old Effect.Return) fed self.new result }
    {
        if self.returns.is_empty() {
            return self.fail(5);
        }
        let Some(place) = self.returns.pop() else {
            unreachable!();
        };
        self.place = place;
        Moved::Quiet
    }

    // Ends.
    fn end(&mut self) -> Moved
        ensures { (fed : ℕ) → Acts self.old (act_for self.old Effect.End) fed self.new result }
    {
        self.status = Status::Ended;
        Moved::Quiet
    }

    // Goes on without two values, and with a value at an address.
    fn store(&mut self, address: i64, value: i64) -> Result<Moved, AllocError>
        requires { self.old.place < 2 ^ 30 }
        ensures ok { IfOk result (λ moved. (fed : ℕ) → Acts self.old (act_for self.old (Effect.Store address value)) fed self.new moved) }
        ensures err { OnErr result (self.new ≡ self.old) }
    {
        self.heap.set(address, value)?;
        self.stack.drop_top(2);
        self.place += 1;
        Ok(Moved::Quiet)
    }

    // Goes on without a value, and with the byte that was taken at an address.
    fn take(&mut self, address: i64, byte: u8) -> Result<Moved, AllocError>
        requires { self.old.place < 2 ^ 30 }
        ensures ok { IfOk result (λ moved. Acts self.old (act_for self.old (Effect.Take address)) byte self.new moved) }
        ensures err { OnErr result (self.new ≡ self.old) }
    {
        self.heap.set(address, byte as i64)?;
        self.stack.drop_top(1);
        self.place += 1;
        Ok(Moved::Took)
    }

    // Begins to read a number to an address.
    fn begin_number(&mut self, address: i64) -> Moved
        ensures { (fed : ℕ) → Acts self.old (act_for self.old (Effect.Await address)) fed self.new result }
    {
        self.stack.drop_top(1);
        self.reading = Some(Reading {
            address,
            seen: Seen::Blanks,
        });
        Moved::Quiet
    }

    // Goes on without a value, and writes a byte.
    fn write(&mut self, byte: u8) -> Moved
        requires { self.old.place < 2 ^ 30 }
        ensures { (fed : ℕ) → Acts self.old (act_for self.old (Effect.Write byte)) fed self.new result }
    {
        self.stack.drop_top(1);
        self.place += 1;
        Moved::Wrote(byte)
    }

    // Goes on without a value, and writes a number.
    fn spell(&mut self, value: i64) -> Moved
        requires { self.old.place < 2 ^ 30 }
        ensures { (fed : ℕ) → Acts self.old (act_for self.old (Effect.Spell value)) fed self.new result }
    {
        self.stack.drop_top(1);
        self.place += 1;
        Moved::Spelled(value)
    }

    /// Does what an instruction does. An error leaves all as it was.
    pub fn perform(&mut self, effect: Effect, fed: u8) -> Result<Moved, AllocError>
        requires { self.old.place < 2 ^ 30 }
        ensures ok { IfOk result (λ moved. Acts self.old (act_for self.old effect) fed self.new moved) }
        ensures err { OnErr result (self.new ≡ self.old) }
    {
        match effect {
            Effect::Put(count, value) => self.put(count, value),
            Effect::Discard(count) => Ok(self.discard(count)),
            Effect::Swap => Ok(self.swap()),
            Effect::Jump(count, place) => Ok(self.jump(count, place)),
            Effect::Call(place) => self.call(place),
            Effect::Return => Ok(self.go_back()),
            Effect::End => Ok(self.end()),
            Effect::Store(address, value) => self.store(address, value),
            Effect::Write(byte) => Ok(self.write(byte)),
            Effect::Spell(value) => Ok(self.spell(value)),
            Effect::Take(address) => self.take(address, fed),
            Effect::Await(address) => Ok(self.begin_number(address)),
            Effect::Fault(code) => Ok(self.fail(code)),
        }
    }

    /// What an instruction does here.
    pub fn effect(&self, step: Resolved) -> Effect
        ensures { result ≡ effect_of self.now.stack self.now.heap step }
    {
        self.stack.effect(&self.heap, step)
    }

    // Goes on with a number, whose byte was taken.
    fn go_on_reading(&mut self, address: i64, progress: Progress) -> Result<Moved, AllocError>
        requires place { self.old.place < 2 ^ 30 }
        requires fits { ProgressFits progress }
        ensures ok { IfOk result (λ moved. (moved ≡ Moved.Took) × (self.new ≡ reading_after self.old address progress)) }
        ensures err { OnErr result (self.new ≡ self.old) }
    {
        match progress {
            Progress::On(seen) => self.reading = Some(Reading { address, seen }),
            Progress::Closed(value) => {
                self.heap.set(address, value)?;
                self.reading = None;
                self.place += 1;
            }
        }
        Ok(Moved::Took)
    }

    /// The next step of the number that is being read. An error leaves all as it was.
    pub fn read_on(&mut self, reading: Reading, fed: u8) -> Result<Moved, AllocError>
        requires place { self.old.place < 2 ^ 30 }
        requires same { self.old.reading ≡ Some reading }
        ensures ok { IfOk result (λ moved. Acts self.old (act_reading self.old reading.address reading.seen) fed self.new moved) }
        ensures err { OnErr result (self.new ≡ self.old) }
    {
        let _ = &self.place;
        match reading.seen {
            Seen::Blanks => self.go_on_reading(reading.address, after_blank(fed)),
            Seen::Digits(negative, size) => {
                self.go_on_reading(reading.address, after_digit(negative, size, fed))
            }
            Seen::Outside => Ok(self.fail(2)),
        }
    }
}
