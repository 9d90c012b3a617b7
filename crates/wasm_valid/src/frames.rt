// The blocks that are open.
ghost use Rattle.std.specs.Prelude.{◌≡◌, ◌≤◌, [], ◌∷◌, length, slice_get, OnOk, OnErr, IfSome, MatchOption};
ghost use Rattle.wasm_valid.specs.Typing.{arity};
ghost use Rattle.wasm_valid.specs.Checking.{label_of, labels_under, is_if};

use crate::level::Level;
use std::alloc::{AllocError, Global};
use std::marker::Model;

/// What opened a block.
#[derive(Clone, Copy)]
pub enum Kind {
    Block,
    Loop,
    If,
    Else,
}

/// An open block.
#[derive(Clone, Copy)]
pub struct Frame {
    pub kind: Kind,
    /// Whether it gives a value.
    pub result: bool,
    /// What lies on the stack outside of it.
    pub outer: Level,
}

impl Frame {
    /// How many values it gives.
    pub fn arity(self) -> u64
        ensures { result ≡ arity self.result }
    {
        if self.result { 1 } else { 0 }
    }

    /// How many values a branch to it takes.
    pub fn label(self) -> u64
        ensures label { result ≡ label_of self }
        ensures few { result ≤ 1 }
    {
        match self.kind {
            Kind::Loop => 0,
            Kind::Block | Kind::If | Kind::Else => self.arity(),
        }
    }

    /// Whether it is the first part of an `if`.
    pub fn is_if(self) -> bool
        ensures { result ≡ is_if self.kind }
    {
        matches!(self.kind, Kind::If)
    }
}

/// The open blocks, which a clause sees as a list with the innermost first.
#[derive(Drop)]
pub struct Frames {
    items: Vec<Frame>,
}

impl Model for Frames {
    ghost use Rattle.std.specs.Prelude.{List, reverse};
    ghost use Rattle.wasm_valid.specs.declared.frames.Frame.{Frame};

    ghost Value = { List Frame };

    ghost view = { λ f. reverse f.items.items };
}

impl Frames {
    pub fn new(alloc: Global) -> Frames
        ensures { result ≡ [] }
    {
        Frames {
            items: Vec::new(alloc),
        }
    }

    pub fn len(&self) -> usize
        ensures { result ≡ length self.now }
    {
        self.items.len()
    }

    /// Opens a block.
    pub fn push(&mut self, frame: Frame) -> Result<(), AllocError>
        ensures ok { OnOk result (self.new ≡ frame ∷ self.old) }
        ensures err { OnErr result (self.new ≡ self.old) }
    {
        self.items.push(frame)?;
        Ok(())
    }

    /// Closes the innermost block.
    pub fn pop(&mut self) -> Option<Frame>
        ensures { MatchOption result ((self.old ≡ []) × (self.new ≡ [])) (λ f. self.old ≡ f ∷ self.new) }
    {
        self.items.pop()
    }

    // The block so many places outside of the innermost one.
    fn get(&self, depth: usize) -> Option<Frame>
        ensures { result ≡ slice_get self.now depth }
    {
        if depth < self.items.len() {
            Some(self.items[self.items.len() - 1 - depth])
        } else {
            None
        }
    }

    /// How many values a branch takes, where it may go so many labels out. The outermost is the function's.
    pub fn label(&self, depth: u32, results: u32) -> Option<u64>
        ensures label { result ≡ slice_get (labels_under self.now results) depth }
        ensures few { results ≤ 1 → IfSome result (λ n. n ≤ 1) }
    {
        match self.get(depth as usize) {
            Some(frame) => Some(frame.label()),
            None if depth as usize == self.len() => Some(results as u64),
            None => None,
        }
    }
}
