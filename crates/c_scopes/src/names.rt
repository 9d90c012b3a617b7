// The names in scope.

ghost use Rattle.std.specs.Prelude.{◌≡◌, ◌≤◌, ℕ, Bool, List, [], ◌∷◌, ◌++◌, length, drop, IfOk, OnOk, is_some};

use crate::entity::Entity;
use crate::stack::{Declared, Place, keep, place_of, pop, push};
use ordered::OrderedMap;
use std::alloc::{AllocError, Global};
use std::marker::Model;

/// The names in scope: those of the innermost block, and those of the blocks around it. What a name stands for is
/// found without going through the names.
pub struct Names<'t> {
    declared: Vec<Declared<'t>>,
    latest: OrderedMap<&'t [u8], Option<Place>>,
    start: usize,
}

impl<'t> Drop for Names<'t> {
    fn drop(self) {
        let Names {
            declared,
            latest,
            start: _,
        } = self;
        drop(declared);
        drop(latest);
    }
}

impl<'t> Model for Names<'t> {
    ghost use Rattle.std.specs.Prelude.{◌≤◌, vec_len};
    ghost use Rattle.c_scopes.specs.Blocks.{Blocks, blocks_of};
    ghost use Rattle.c_scopes.specs.Stack.{Stands};

    ghost Value = { Blocks };

    ghost view = { λ n. blocks_of n.declared.items n.start };

    ghost invariant = { λ n. (n.start ≤ vec_len n.declared) × Stands n.declared.items n.latest.entries };
}

impl<'t> Names<'t> {
    ghost use Rattle.c_syntax.specs.Words.{meaning};

    /// No names, in one block.
    pub fn new(alloc: Global) -> Names<'t>
        ensures block { result.block ≡ [] }
        ensures outer { result.outer ≡ [] }
    {
        Names {
            declared: Vec::new(alloc),
            latest: OrderedMap::new(alloc),
            start: 0,
        }
    }

    /// What a name stands for: the innermost declaration counts.
    pub fn get(&self, name: &[u8]) -> Option<Entity>
        ensures { result ≡ meaning (self.now.block ++ self.now.outer) name.now }
    {
        match place_of(&self.latest, name) {
            Some(place) => Some(place.entity),
            None => None,
        }
    }

    /// Whether a name has a declaration in the innermost block.
    pub fn is_declared_here(&self, name: &[u8]) -> bool
        ensures { result ≡ is_some (meaning self.now.block name.now) }
    {
        match place_of(&self.latest, name) {
            Some(place) => place.index >= self.start,
            None => false,
        }
    }

    /// A name stands for something from now on, until its block ends.
    pub fn declare(&mut self, name: &'t [u8], entity: Entity) -> Result<(), AllocError>
        ensures block { OnOk result (self.new.block ≡ (name.now, entity) ∷ self.old.block) }
        ensures outer { OnOk result (self.new.outer ≡ self.old.outer) }
    {
        push(&mut self.declared, &mut self.latest, name, entity)
    }

    /// The last declaration of the innermost block goes, if the block has one.
    pub fn withdraw(&mut self) -> Result<(), AllocError>
        ensures block { OnOk result (self.new.block ≡ drop 1 self.old.block) }
        ensures outer { OnOk result (self.new.outer ≡ self.old.outer) }
    {
        if self.declared.len() > self.start {
            pop(&mut self.declared, &mut self.latest)?;
        }
        Ok(())
    }

    /// A block begins. The answer ends it again.
    pub fn enter(&mut self) -> usize
        ensures block { self.new.block ≡ [] }
        ensures outer { self.new.outer ≡ self.old.block ++ self.old.outer }
        ensures mark { result ≡ length self.old.outer }
    {
        let mark = self.start;
        self.start = self.declared.len();
        mark
    }

    /// A block ends, which began with this answer of `enter`: the names of its own go.
    pub fn leave(&mut self, mark: usize) -> Result<(), AllocError>
        requires { mark ≤ length self.old.outer }
        ensures names { OnOk result (self.new.block ++ self.new.outer ≡ self.old.outer) }
        ensures outer { OnOk result (length self.new.outer ≡ mark) }
    {
        keep(&mut self.declared, &mut self.latest, self.start)?;
        self.start = mark;
        Ok(())
    }
}
