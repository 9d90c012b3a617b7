// The values on the stack: those of the function that runs, above those of its callers.

ghost use Rattle.std.specs.Prelude.{◌≡◌, ◌∷◌, ◌++◌, ◌<◌, ◌-◌, ◌+◌, [], length, map, take, drop, reverse, MatchOption, OnOk, OnErr};
ghost use Rattle.c_store.specs.Values.{Missing};
ghost use Rattle.c_store.specs.Shown.{value_of};
ghost use Rattle.c_plain.specs.Calls.{arguments};

use c_store::Value;
use std::alloc::{AllocError, Global};
use std::marker::Model;

/// The values on the stack, the last one on top: those of the function that runs, above those of its callers.
#[derive(Drop)]
pub struct Values {
    items: Vec<Value>,
    base: usize,
}

impl Model for Values {
    ghost use Rattle.std.specs.Prelude.{◌≤◌, vec_len};
    ghost use Rattle.c_plain.specs.Machine.{Piled};

    ghost Value = { Piled };

    ghost use Rattle.c_parts.specs.Piles.{values_of};

    ghost view = { λ s. values_of s.base s.items.items };

    ghost invariant = { λ s. s.base ≤ vec_len s.items };
}

impl Values {
    /// No values.
    pub fn new(alloc: Global) -> Values
        ensures mine { result.mine ≡ [] }
        ensures below { result.below ≡ [] }
    {
        Values {
            items: Vec::new(alloc),
            base: 0,
        }
    }

    /// The value on top.
    #[inline(always)]
    pub fn top(&self) -> Option<Value>
        ensures { MatchOption result (self.now.mine ≡ []) (λ v. self.now.mine ≡ value_of v ∷ drop 1 self.now.mine) }
    {
        if self.items.len() == self.base {
            return None;
        }
        Some(self.items[self.items.len() - 1])
    }

    /// Puts a value on top. An error changes nothing.
    #[inline(always)]
    pub fn push(&mut self, v: Value) -> Result<(), AllocError>
        ensures ok { OnOk result (self.new ≡ record self.old { mine = value_of v ∷ self.old.mine }) }
        ensures err { OnErr result (self.new ≡ self.old) }
    {
        self.items.push(v)?;
        Ok(())
    }

    /// Takes the value on top.
    #[inline(always)]
    pub fn pop(&mut self) -> Option<Value>
        ensures value { MatchOption result (self.old.mine ≡ []) (λ v. self.old.mine ≡ value_of v ∷ self.new.mine) }
        ensures below { self.new.below ≡ self.old.below }
    {
        if self.items.len() == self.base {
            return None;
        }
        self.items.pop()
    }

    /// Puts a value in place of the one on top.
    #[inline(always)]
    pub fn replace(&mut self, v: Value)
        requires { 0 < length self.old.mine }
        ensures { self.new ≡ record self.old { mine = value_of v ∷ drop 1 self.old.mine } }
    {
        let index = self.items.len() - 1;
        self.items[index] = v;
    }

    /// Drops so many values, or all that there are.
    #[inline(always)]
    pub fn drop_many(&mut self, count: usize)
        ensures { self.new ≡ record self.old { mine = drop count self.old.mine } }
    {
        let there = self.items.len() - self.base;
        let count = there.min(count);
        self.items.truncate(self.items.len() - count);
    }

    /// So many values from the top on, or all that there are, the first one being the one that was pushed first.
    #[inline(always)]
    pub fn arguments(&self, count: u32) -> &[Value]
        ensures { map value_of result.now ≡ arguments count self.now.mine }
    {
        let there = self.items.len() - self.base;
        let count = there.min(count as usize);
        &self.items[self.items.len() - count..]
    }

    /// So many values on top, or all that there are, come to stand the other way round.
    pub fn turn(&mut self, count: u32)
        ensures { self.new ≡ record self.old { mine = arguments count self.old.mine ++ drop count self.old.mine } }
    {
        let there = self.items.len() - self.base;
        let count = there.min(count as usize);
        let first = self.items.len() - count;
        self.items[first..].reverse();
    }

    /// A function begins, with no values. How many its caller's callers have.
    #[inline(always)]
    pub fn open(&mut self) -> usize
        ensures result { result ≡ length self.old.below }
        ensures values { self.new ≡ record { mine = []; below = self.old.mine ++ self.old.below } }
    {
        let base = self.base;
        self.base = self.items.len();
        base
    }

    /// A function ends: its values go, and its caller has a value on top, above as many of others.
    #[inline(always)]
    pub fn close(&mut self, base: usize, v: Value)
        requires { 0 < length self.old.mine }
        ensures { self.new ≡ record { mine = value_of v ∷ take (length self.old.below - base) self.old.below; below = drop (length self.old.below - base) self.old.below } }
    {
        let index = self.base;
        self.items[index] = v;
        self.items.truncate(index + 1);
        self.base = base.min(index);
    }

    /// The value below so many others.
    #[inline(always)]
    pub fn below(&self, count: u32) -> Option<Value>
        ensures { MatchOption result (drop count self.now.mine ≡ []) (λ v. drop count self.now.mine ≡ value_of v ∷ drop (count + 1) self.now.mine) }
    {
        let there = self.items.len() - self.base;
        if count as usize >= there {
            return None;
        }
        Some(self.items[self.items.len() - 1 - count as usize])
    }

    /// Puts a value in place of so many, or of all that there are. An error changes nothing.
    #[inline(always)]
    pub fn put(&mut self, count: u32, v: Value) -> Result<(), AllocError>
        ensures ok { OnOk result (self.new ≡ record self.old { mine = value_of v ∷ drop count self.old.mine }) }
        ensures err { OnErr result (self.new ≡ self.old) }
    {
        let there = self.items.len() - self.base;
        let count = there.min(count as usize);
        if count == 0 {
            self.items.push(v)?;
            return Ok(());
        }
        let first = self.items.len() - count;
        self.items[first] = v;
        self.items.truncate(first + 1);
        Ok(())
    }

    /// How many values the callers of the caller have.
    #[inline(always)]
    pub fn callers(&self) -> usize
        ensures { result ≡ length self.now.below }
    {
        self.base
    }

    /// Puts a mark in place of the value on top, and digits above it, the last one on top. An error changes nothing.
    pub fn put_digits(&mut self, digits: &[Value]) -> Result<(), AllocError>
        requires { 0 < length self.old.mine }
        ensures ok { OnOk result (self.new ≡ record self.old { mine = reverse (map value_of digits.now) ++ Missing ∷ drop 1 self.old.mine }) }
        ensures err { OnErr result (self.new ≡ self.old) }
    {
        let index = self.items.len() - 1;
        self.items.extend_from_slice(digits)?;
        self.items[index] = Value::Missing;
        Ok(())
    }
}
