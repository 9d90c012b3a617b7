// The reader of modules.
ghost use Rattle.std.specs.Prelude.{MatchResult, ◌≡◌, ◌≤◌, ◌^◌, map, length};
ghost use Rattle.wasm_bytes.specs.Piece.{piece};
ghost use Rattle.wasm_bin.specs.Parts.{parts_of};
ghost use Rattle.wasm_bin.specs.Whole.{view_front};
ghost use Rattle.wasm_bin.specs.Section.{front_at, module_at, module_in};
ghost use Rattle.wasm_bin.specs.Module.{module_spells, IsRefusedFor};
ghost use Rattle.wasm_bytes.specs.Outcome.{Gives};

use crate::module::{Export, FuncType, GlobalVar, Import, Limits, Module};
use crate::section::{code_section, end, header, other, section};
use std::alloc::Global;
use wasm_bytes::cursor::Cursor;
use wasm_bytes::fault::ModFault;
use wasm_bytes::items::Items;

/// What stands before the code.
#[derive(Drop)]
pub struct Front {
    pub types: Vec<FuncType>,
    pub imports: Vec<Import>,
    pub funcs: Vec<u32>,
    pub memory: Option<Limits>,
    pub globals: Vec<GlobalVar>,
    pub exports: Vec<Export>,
    pub start: Option<u32>,
}

// Takes the header and the sections before the code.
#[tactic(auto, unfolding(crate::specs::Section::front_at))]
fn opening(alloc: Global, c: Cursor<'_>) -> Result<(Front, Cursor<'_>), ModFault>
    ensures { Gives (λ x. (view_front x.0, piece x.1)) result (front_at (piece c.entry)) }
{
    let c = header(c)?;
    let (types, c) = section(alloc, 1, Vec::new(alloc), c)?;
    let (imports, c) = section(alloc, 2, Vec::new(alloc), c)?;
    let (funcs, c) = section(alloc, 3, Vec::new(alloc), c)?;
    let c = other(alloc, 4, c)?;
    let (memory, c) = section(alloc, 5, None, c)?;
    let (globals, c) = section(alloc, 6, Vec::new(alloc), c)?;
    let (exports, c) = section(alloc, 7, Vec::new(alloc), c)?;
    let (start, c) = section(alloc, 8, None, c)?;
    let front = Front {
        types,
        imports,
        funcs,
        memory,
        globals,
        exports,
        start,
    };
    Ok((front, c))
}

// Takes a whole module.
#[tactic(auto, unfolding(crate::specs::Section::module_at))]
fn whole(alloc: Global, c: Cursor<'_>) -> Result<Module, ModFault>
    ensures { Gives parts_of result (module_at (piece c.entry)) }
{
    let (front, c) = opening(alloc, c)?;
    let c = other(alloc, 9, c)?;
    let (bodies, c) = code_section(alloc, &front.types, &front.funcs, c)?;
    let (segments, c) = section(alloc, 11, Vec::new(alloc), c)?;
    let _end = end(alloc, c)?;
    let Front {
        types,
        imports,
        funcs,
        memory,
        globals,
        exports,
        start,
    } = front;
    Ok(Module {
        types: Items::of(types),
        imports: Items::of(imports),
        funcs: Items::of(funcs),
        memory,
        globals: Items::of(globals),
        exports: Items::of(exports),
        start,
        bodies: Items::of(bodies),
        segments: Items::of(segments),
    })
}

/// Reads a module of WebAssembly 1.0 in its binary form, all of whose values are 32-bit integers.
///
/// The lowest place of a byte that can't be taken gives the fault; at one place `Malformed` comes before
/// `Unsupported`, and `Unsupported` before `TooLarge`. A list has at most 2^20 entries, blocks are at most 2^20 deep,
/// a function has at most 2^16 parameters and locals, and a memory has at most 1024 pages at the start.
pub fn read_module(alloc: Global, bytes: &[u8]) -> Result<Module, ModFault>
    requires { length bytes.now ≤ 2 ^ 29 }
    ensures { MatchResult result (module_spells bytes.now) (IsRefusedFor bytes.now) }
{
    let end = bytes.len() as u32;
    whole(alloc, Cursor { left: bytes, end })
}
