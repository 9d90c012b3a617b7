// What a machine has, and what instructions do with values and places.

ghost use Rattle.std.specs.Prelude.{◌≡◌, ◌∷◌, ◌++◌, ◌<◌, ◌^◌, drop};

use crate::halt::Halt;
use crate::opened::Opened;
use crate::operate::{made, operated};
use crate::slots::Slots;
use crate::values::Values;
use c_plain::{Operation, Unary};
use c_store::{Act, Literal, Store, Value};
use std::alloc::AllocError;

/// What a machine has at a moment.
#[derive(Drop)]
pub struct Parts {
    /// The number of the next instruction.
    pub at: usize,
    pub values: Values,
    pub slots: Slots,
    pub opened: Opened,
    pub store: Store,
    /// The units of fuel that are left.
    pub left: u64,
    /// The charges of the live calls.
    pub charge: u32,
    /// Room for the arguments of a call.
    pub arguments: Vec<Value>,
}

impl Parts {
    ghost use Rattle.c_store.specs.Shown.{value_of};
    ghost use Rattle.c_plain.specs.Machine.{quiet, unless_act, onward, with_values, pushed, on_top, on_two};
    ghost use Rattle.c_plain.specs.Operators.{made, operated};
    ghost use Rattle.c_plain.specs.Calls.{arguments};
    ghost use Rattle.c_parts.specs.Parts.{machine_of, ComesQuietly};

    /// Pushes a value, and goes on.
    #[inline(always)]
    pub fn push(&mut self, v: Value) -> Result<(), Halt>
        requires { self.old.at < 2 ^ 32 }
        ensures { ComesQuietly (machine_of self.old) (machine_of self.new) result (quiet (pushed (machine_of self.old) (machine_of self.old).values.mine (value_of v))) }
    {
        match self.values.push(v) {
            Ok(()) => {
                self.at += 1;
                Ok(())
            }
            Err(AllocError) => Err(Halt::Memory),
        }
    }

    /// Drops the value on top.
    #[inline(always)]
    pub fn pop(&mut self) -> Result<(), Halt>
        requires { self.old.at < 2 ^ 32 }
        ensures { ComesQuietly (machine_of self.old) (machine_of self.new) result (on_top (machine_of self.old).values.mine (λ v rest. quiet (onward (with_values (machine_of self.old) rest)))) }
    {
        match self.values.pop() {
            Some(_) => {
                self.at += 1;
                Ok(())
            }
            None => Err(Halt::Act(Act::HelperLimit)),
        }
    }

    /// Makes another value of the one on top.
    #[inline(always)]
    pub fn make(&mut self, literals: &[Literal], unary: Unary) -> Result<(), Halt>
        requires { self.old.at < 2 ^ 32 }
        ensures { ComesQuietly (machine_of self.old) (machine_of self.new) result (on_top (machine_of self.old).values.mine (λ v rest. unless_act (made literals.now (machine_of self.old).memory unary v) (λ w. quiet (pushed (machine_of self.old) rest w)))) }
    {
        let Some(v) = self.values.top() else {
            return Err(Halt::Act(Act::HelperLimit));
        };
        match made(literals, &self.store, unary, v) {
            Ok(w) => {
                self.values.replace(w);
                self.at += 1;
                Ok(())
            }
            Err(act) => Err(Halt::Act(act)),
        }
    }

    /// Makes one value of the two on top.
    #[inline(always)]
    pub fn operate(&mut self, literals: &[Literal], operation: Operation) -> Result<(), Halt>
        requires { self.old.at < 2 ^ 32 }
        ensures { ComesQuietly (machine_of self.old) (machine_of self.new) result (on_two (machine_of self.old).values.mine (λ x y rest. unless_act (operated literals.now (machine_of self.old).memory operation x y) (λ w. quiet (pushed (machine_of self.old) rest w)))) }
    {
        let Some(y) = self.values.pop() else {
            return Err(Halt::Act(Act::HelperLimit));
        };
        let Some(x) = self.values.top() else {
            return Err(Halt::Act(Act::HelperLimit));
        };
        match operated(literals, &self.store, operation, x, y) {
            Ok(w) => {
                self.values.replace(w);
                self.at += 1;
                Ok(())
            }
            Err(act) => Err(Halt::Act(act)),
        }
    }

    /// Puts a value in place of so many, and goes on.
    #[inline(always)]
    pub fn put(&mut self, count: u32, v: Value) -> Result<(), Halt>
        requires { self.old.at < 2 ^ 32 }
        ensures { ComesQuietly (machine_of self.old) (machine_of self.new) result (quiet (pushed (machine_of self.old) (drop count (machine_of self.old).values.mine) (value_of v))) }
    {
        match self.values.put(count, v) {
            Ok(()) => {
                self.at += 1;
                Ok(())
            }
            Err(AllocError) => Err(Halt::Memory),
        }
    }

    /// So many values on top come to stand the other way round.
    pub fn turn(&mut self, count: u32)
        requires { self.old.at < 2 ^ 32 }
        ensures { machine_of self.new ≡ onward (with_values (machine_of self.old) (arguments count (machine_of self.old).values.mine ++ drop count (machine_of self.old).values.mine)) }
    {
        self.values.turn(count);
        self.at += 1;
    }
}
