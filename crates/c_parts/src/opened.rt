// What is open.

ghost use Rattle.std.specs.Prelude.{◌≡◌, ◌∷◌, [], List, drop, true, false, MatchOption, OnOk, OnErr};

use c_store::Kind;
use std::alloc::{AllocError, Global};
use std::marker::Model;

/// A block: its first object, and how many slots its function had before it.
#[derive(Clone, Copy)]
pub struct Block {
    pub first: u64,
    pub slots: usize,
}

/// A loop: where a `continue` goes, and where a `break` does.
#[derive(Clone, Copy)]
pub struct Turn {
    pub again: usize,
    pub past: usize,
}

/// A call: where the caller goes on, how many values and slots stand below the caller's own, the kind of the result, the first object
/// of the call, and the charge before it.
#[derive(Clone, Copy)]
pub struct Caller {
    pub back: usize,
    pub values: usize,
    pub slots: usize,
    pub result: Kind,
    pub first: u64,
    pub charge: u32,
}

/// What is open.
#[derive(Clone, Copy)]
pub enum Open {
    Block(Block),
    Loop(Turn),
    /// A `switch`: where a `break` goes.
    Switch(usize),
    Call(Caller),
}

/// What is open, the innermost on top.
#[derive(Drop)]
pub struct Opened {
    items: Vec<Open>,
}

impl Model for Opened {
    ghost use Rattle.std.specs.Prelude.{List, map, reverse};
    ghost use Rattle.c_plain.specs.Machine as machine;

    ghost Value = { List machine.Open };

    ghost use Rattle.c_parts.specs.Opens.{open_of};

    ghost view = { λ s. reverse (map open_of s.items.items) };
}

impl Opened {
    ghost use Rattle.c_plain.specs.Calls.{closed};
    ghost use Rattle.c_parts.specs.Opens.{open_of};

    /// Nothing is open.
    pub fn new(alloc: Global) -> Opened
        ensures { result ≡ [] }
    {
        Opened {
            items: Vec::new(alloc),
        }
    }

    /// Opens one more. An error changes nothing.
    #[inline(always)]
    pub fn push(&mut self, x: Open) -> Result<(), AllocError>
        ensures ok { OnOk result (self.new ≡ open_of x ∷ self.old) }
        ensures err { OnErr result (self.new ≡ self.old) }
    {
        self.items.push(x)?;
        Ok(())
    }

    /// Closes the innermost.
    #[inline(always)]
    pub fn pop(&mut self) -> Option<Open>
        ensures { MatchOption result ((self.old ≡ []) × (self.new ≡ [])) (λ x. self.old ≡ open_of x ∷ self.new) }
    {
        self.items.pop()
    }

    /// The innermost.
    #[inline(always)]
    pub fn top(&self) -> Option<Open>
        ensures { MatchOption result (self.now ≡ []) (λ x. self.now ≡ open_of x ∷ drop 1 self.now) }
    {
        if self.items.is_empty() {
            return None;
        }
        Some(self.items[self.items.len() - 1])
    }

    /// Drops the innermost.
    #[inline(always)]
    pub fn drop_top(&mut self)
        ensures { self.new ≡ drop 1 self.old }
    {
        let _ = self.pop();
    }

    /// Closes the innermost where it is a loop, a `switch` or a block.
    #[inline(always)]
    pub fn close(&mut self)
        ensures { self.new ≡ closed self.old }
    {
        let Some(x) = self.top() else {
            return;
        };
        if x.is_call() {
            return;
        }
        self.drop_top();
    }
}

impl Open {
    ghost use Rattle.c_plain.specs.Machine as machine;
    ghost use Rattle.c_plain.specs.Calls.{closed};
    ghost use Rattle.c_parts.specs.Opens.{open_of};

    // Whether it is a call.
    #[inline(always)]
    fn is_call(self) -> bool
        ensures yes { result ≡ true → (os : List machine.Open) → closed (open_of self ∷ os) ≡ open_of self ∷ os }
        ensures no { result ≡ false → (os : List machine.Open) → closed (open_of self ∷ os) ≡ os }
    {
        matches!(self, Open::Call(_))
    }
}
