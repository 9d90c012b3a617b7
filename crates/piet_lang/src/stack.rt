// The values of a run.
ghost use Rattle.std.specs.Prelude.{◌≡◌, ◌≤◌, ◌-◌, [], ◌∷◌, true, false, IsTrue, length, drop, slice_get, IfOk, OnOk, OnErr};
ghost use Rattle.piet_lang.specs.Stack.{pair_of, rolled_by};
ghost use Rattle.piet_lang.specs.Change.{change_of, changed, is_done, ChangeFits};

use crate::act::Act;
use crate::change::{Change, change_at};
use crate::slots::{put_in_slot, roll_slots, value_at};
use std::alloc::{AllocError, Global};
use std::marker::Model;

/// Values, which a clause sees as a list with the top first. Those in the first `len` slots count, the top last.
#[derive(Drop)]
pub struct Stack {
    slots: Vec<i64>,
    len: usize,
}

impl Model for Stack {
    ghost use Rattle.std.specs.Prelude.{◌≤◌, List, ℤ, length};
    ghost use Rattle.piet_lang.specs.Stack.{values_of};

    ghost Value = { List ℤ };

    ghost view = { λ s. values_of s.slots.items s.len };

    ghost invariant = { λ s. s.len ≤ length s.slots.items };
}

impl Stack {
    /// No values.
    pub fn new(alloc: Global) -> Stack
        ensures { result ≡ [] }
    {
        Stack {
            slots: Vec::new(alloc),
            len: 0,
        }
    }

    /// The value at the top, if there is one.
    #[inline(always)]
    pub fn top(&self) -> Option<i64>
        ensures { result ≡ slice_get self.now 0 }
    {
        value_at(&self.slots, self.len, 0)
    }

    /// Whether one more value needs no memory.
    #[inline(always)]
    pub fn has_room(&self) -> bool {
        self.len < self.slots.len()
    }

    /// What a command does with these values, by which the run leaves a block of this size, fed this byte.
    #[inline(always)]
    pub fn change(&self, act: Act, size: u32, fed: u8) -> Change
        ensures change { result ≡ change_of self.now act size fed }
        ensures fits { ChangeFits self.now result }
    {
        change_at(&self.slots, self.len, act, size, fed)
    }

    /// Drops so many values from the top, or all.
    pub fn drop_top(&mut self, count: usize)
        ensures { self.new ≡ drop count self.old }
    {
        self.len = self.len.saturating_sub(count);
    }

    /// Puts a value in the place of so many values at the top.
    pub fn put(&mut self, count: usize, value: i64) -> Result<(), AllocError>
        ensures ok { OnOk result (self.new ≡ value ∷ drop count self.old) }
        ensures err { OnErr result (self.new ≡ self.old) }
    {
        if put_in_slot(&mut self.slots, &mut self.len, count, value) {
            return Ok(());
        }
        self.slots.push(value)?;
        self.len = self.slots.len();
        Ok(())
    }

    // Turns so many values at the top by so many places towards the bottom.
    fn roll(&mut self, depth: usize, times: usize)
        requires deep { depth ≤ length self.old }
        requires few { times ≤ depth }
        ensures { self.new ≡ rolled_by self.old depth times }
    {
        roll_slots(&mut self.slots, self.len, depth, times);
    }

    /// Changes the values, and says whether it could be done.
    #[inline(always)]
    pub fn apply(&mut self, change: Change) -> Result<bool, AllocError>
        requires { ChangeFits self.old change }
        ensures done { IfOk result (λ done. done ≡ is_done change) }
        ensures ok { OnOk result (self.new ≡ changed change self.old) }
        ensures err { OnErr result (self.new ≡ self.old) }
    {
        match change {
            Change::Keep => Ok(true),
            Change::Put(count, value) => {
                self.put(count, value)?;
                Ok(true)
            }
            Change::Discard(count) => {
                self.drop_top(count);
                Ok(true)
            }
            Change::Roll(depth, times) => {
                self.drop_top(2);
                self.roll(depth, times);
                Ok(true)
            }
            Change::Fail => Ok(false),
        }
    }
}
