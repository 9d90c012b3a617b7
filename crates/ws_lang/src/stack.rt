// The values of a program.
ghost use Rattle.std.specs.Prelude.{◌≡◌, ◌≤◌, ℕ, List, [], ◌∷◌, is_none, drop, slice_get, OnOk, OnErr};
ghost use Rattle.mach_core.specs.Held.{StepsHeld};
ghost use Rattle.ws_lang.specs.Stack.{swapped};
ghost use Rattle.ws_lang.specs.Step.{ws_rule};
ghost use Rattle.ws_lang.specs.Effect.{effect_of};
ghost use Rattle.ws_lang.specs.Quiet.{running};

use crate::buffered::run_buffered;
use crate::decide::effect_at;
use crate::effect::Effect;
use crate::heap::Heap;
use crate::program::WsProgram;
use crate::resolved::Resolved;
use crate::slots::{put_in_slot, swap_top, value_at};
use mach_core::{Feed, Put};
use std::alloc::{AllocError, Global};
use std::marker::Model;

/// Values, which a clause sees as a list with the top first. Those in the first `len` slots count, the top last.
#[derive(Drop)]
pub struct Stack {
    slots: Vec<i64>,
    len: usize,
}

impl Model for Stack {
    ghost use Rattle.std.specs.Prelude.{◌≤◌, List, ℤ, length};
    ghost use Rattle.ws_lang.specs.Stack.{values_of};

    ghost Value = { List ℤ };

    ghost view = { λ s. values_of s.slots.items s.len };

    ghost invariant = { λ s. s.len ≤ length s.slots.items };
}

impl Stack {
    /// No values.
    pub fn new(alloc: Global) -> Stack
        ensures { result ≡ [] }
    {
        Stack {
            slots: Vec::new(alloc),
            len: 0,
        }
    }

    /// Whether there is no value.
    pub fn is_empty(&self) -> bool
        ensures { result ≡ is_none (slice_get self.now 0) }
    {
        value_at(&self.slots, self.len, 0).is_none()
    }

    /// What an instruction does with these values and this heap.
    pub fn effect(&self, heap: &Heap, step: Resolved) -> Effect
        ensures { result ≡ effect_of self.now heap.now step }
    {
        effect_at(&self.slots, self.len, heap, step)
    }

    /// Drops so many values from the top, or all.
    pub fn drop_top(&mut self, count: usize)
        ensures { self.new ≡ drop count self.old }
    {
        self.len = self.len.saturating_sub(count);
    }

    /// Puts a value in the place of so many values at the top.
    pub fn put(&mut self, count: usize, value: i64) -> Result<(), AllocError>
        ensures ok { OnOk result (self.new ≡ value ∷ drop count self.old) }
        ensures err { OnErr result (self.new ≡ self.old) }
    {
        if put_in_slot(&mut self.slots, &mut self.len, count, value) {
            return Ok(());
        }
        self.slots.push(value)?;
        self.len = self.slots.len();
        Ok(())
    }

    /// Swaps the two values at the top, if there are two.
    pub fn swap(&mut self)
        ensures { self.new ≡ swapped self.old }
    {
        swap_top(&mut self.slots, self.len);
    }

    /// Makes at most so many steps with what is held, and says how many. It stops before a step that takes where no byte is
    /// held, that writes where there is no room, that reads or writes a number, meets a fault, calls, returns, ends, or
    /// needs memory.
    pub fn run_buffered(
        &mut self,
        program: &WsProgram,
        heap: &mut Heap,
        place: &mut u32,
        most: u64,
        feed: &mut Feed,
        put: &mut Put,
    ) -> u64
        ensures few { result ≤ most }
        ensures held { (returns : List ℕ) → StepsHeld (ws_rule program.now) (running returns place.old self.old heap.old) (record { held = feed.old; put = put.old }) result
            (running returns place.new self.new heap.new) (record { held = feed.new; put = put.new }) }
    {
        run_buffered(
            program,
            &mut self.slots,
            &mut self.len,
            heap,
            place,
            most,
            feed,
            put,
        )
    }
}
