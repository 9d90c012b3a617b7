// A module that is ready to run.

ghost use Rattle.std.specs.Prelude.{◌≡◌, ◌+◌, ◌<◌, ◌≤◌, ◌^◌, drop, length, slice_get, slice_index_or, IfOk, OnSome};
ghost use Rattle.std.specs.Option.{option_copied};
ghost use Rattle.wasm_rule.specs.Code.{own_code, type_of, own_locals, most_pages as most_of};
ghost use Rattle.wasm_parts.specs.Jumps.{Leads, IsTable};
ghost use Rattle.wasm_run.specs.Linking.{AreTables, table_at};
ghost use Rattle.wasm_rule.specs.Rule.{new_call, params_of};
ghost use Rattle.wasm_parts.specs.Frames.{call_of};

use std::alloc::{AllocError, Global};
use std::marker::Model;
use wasm_bin::{FuncType, Instr, Module};
use wasm_parts::frame::{CallFrame, Mark};
use wasm_parts::jumps::{Jump, jumps_of};
use wasm_parts::stack::Stack;

/// For how many values and blocks a call has room at its start, if its code is so long.
const ROOM: usize = 16;

/// A module with the places where its blocks go on. A clause sees the module.
#[derive(Drop)]
pub struct Linked {
    module: Module,
    tables: Vec<Vec<Jump>>,
}

impl Model for Linked {
    ghost use Rattle.wasm_bin.specs.declared.module.Module.{Module};
    ghost use Rattle.wasm_run.specs.Linking.{AreTables};

    ghost Value = { Module };

    ghost view = { λ a. a.module };

    ghost invariant = { λ a. AreTables a.module a.tables.items };
}

/// The places where the blocks of each function go on.
fn tables_of(alloc: Global, m: &Module) -> Result<Vec<Vec<Jump>>, AllocError>
    ensures { IfOk result (λ tables. AreTables m.now tables.items) }
{
    let mut tables = Vec::new(alloc);
    for body in m.bodies.as_slice() {
        let table = jumps_of(alloc, body.code.as_slice())?;
        tables.push(table)?;
    }
    Ok(tables)
}

/// The jump at a place of the table of a function.
fn jump_in(tables: &[Vec<Jump>], own: u32, place: usize) -> Jump
    ensures { result ≡ slice_index_or (table_at tables.now own) place (record { past = 0; other = 0 }) }
{
    let none = Jump { past: 0, other: 0 };
    match tables.get(own as usize) {
        Some(table) => match table.get(place) {
            Some(jump) => *jump,
            None => none,
        },
        None => none,
    }
}

impl Linked {
    /// Makes a module ready.
    pub fn of(alloc: Global, m: Module) -> Result<Linked, AllocError>
        ensures { IfOk result (λ linked. linked ≡ m) }
    {
        let tables = tables_of(alloc, &m)?;
        Ok(Linked { module: m, tables })
    }

    /// The module.
    pub fn module(&self) -> &Module
        ensures { result.now ≡ self.now }
    {
        &self.module
    }

    /// The instruction at a place of a function.
    pub fn instr(&self, own: u32, place: usize) -> Option<&Instr>
        ensures instr { option_copied result ≡ slice_get (own_code self.now own) place }
        ensures bound { OnSome result (place < 2 ^ 63) }
    {
        match self.module.bodies.as_slice().get(own as usize) {
            Some(body) => body.code.as_slice().get(place),
            None => None,
        }
    }

    /// The code of a function.
    pub fn code(&self, own: u32) -> &[Instr]
        ensures { result.now ≡ own_code self.now own }
    {
        match self.module.bodies.as_slice().get(own as usize) {
            Some(body) => body.code.as_slice(),
            None => &[],
        }
    }

    /// The places where the blocks of a function go on.
    pub fn jumps(&self, own: u32) -> &[Jump]
        ensures { IsTable (own_code self.now own) result.now }
    {
        match self.tables.get(own as usize) {
            Some(table) => table.as_slice(),
            None => &[],
        }
    }

    /// The places where the block goes on that begins at a place of a function.
    pub fn jump(&self, own: u32, place: usize) -> Jump
        requires { place < length (own_code self.now own) }
        ensures { Leads (own_code self.now own) 0 (drop (place + 1) (own_code self.now own)) result }
    {
        jump_in(&self.tables, own, place)
    }

    /// The type of a function.
    fn kind(&self, own: u32) -> FuncType
        ensures { result ≡ type_of self.now own }
    {
        let plain = FuncType {
            params: 0,
            results: 0,
        };
        match self.module.funcs.as_slice().get(own as usize) {
            Some(kind) => match self.module.types.as_slice().get(*kind as usize) {
                Some(func_type) => *func_type,
                None => plain,
            },
            None => plain,
        }
    }

    /// How many parameters a function takes.
    pub fn params(&self, own: u32) -> u32
        ensures { result ≡ params_of self.now own }
    {
        self.kind(own).params
    }

    /// How many locals a function has besides its parameters.
    fn locals(&self, own: u32) -> u32
        ensures { result ≡ own_locals self.now own }
    {
        match self.module.bodies.as_slice().get(own as usize) {
            Some(body) => body.locals,
            None => 0,
        }
    }

    /// The most pages that the memory may have.
    pub fn most_pages(&self) -> u32
        ensures most { result ≡ most_of self.now }
        ensures bound { result ≤ 1024 }
    {
        match &self.module.memory {
            Some(limits) => limits.max.unwrap_or(1024).min(1024),
            None => 0,
        }
    }

    /// A call of a function with these arguments.
    pub fn frame(
        &self,
        alloc: Global,
        own: u32,
        arguments: Vec<u32>,
    ) -> Result<CallFrame, AllocError>
        ensures { IfOk result (λ frame. call_of self.now frame ≡ new_call self.now own arguments.items) }
    {
        let kind = self.kind(own);
        let count = kind.params as usize + self.locals(own) as usize;
        let mut locals = arguments;
        if locals.len() < count {
            locals.resize(count, 0)?;
        }
        let room = self.code(own).len().min(ROOM);
        let mark = Mark {
            takes: false,
            beneath: 0,
            target: 0,
        };
        Ok(CallFrame {
            body: own,
            place: 0,
            gives: kind.results > 0,
            locals,
            values: Stack::with_room(alloc, room, 0)?,
            marks: Stack::with_room(alloc, room, mark)?,
        })
    }
}
