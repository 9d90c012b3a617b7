// From a module to a machine.

ghost use Rattle.std.specs.Prelude.{◌≡◌, ◌≤◌, ◌<◌, ◌+◌, ◌*◌, ◌++◌, [], ◌∷◌, true, false, length, map, slice_get, Some, IfOk, MatchResult};
ghost use Rattle.std.specs.FinMap as fin;
ghost use Rattle.std.specs.Bool.{MatchBool};
ghost use Rattle.wasm_bin.specs.declared.module.Module.{Module as ModuleValue};
ghost use Rattle.wasm_rule.specs.Number.{word_of};
ghost use Rattle.wasm_rule.specs.Start.{env_name, is_type as is_type_of, is_known as is_known_in, are_known as are_known_in, is_main as is_main_in, main_of as main_index_of, least_in, is_placed as is_placed_in, are_placed as are_placed_in, with_segments, first_value, first_call, IsLinkable};
ghost use Rattle.wasm_rule.specs.Refusals.{IsRefusedFor};
ghost use Rattle.wasm_parts.specs.Frames.{call_of};
ghost use Rattle.wasm_run.specs.States.{later_of};

use crate::linked::Linked;
use std::alloc::{AllocError, Global};
use wasm_bin::{Export, GlobalVar, Import, Limits, Module, Segment};
use wasm_parts::frame::CallFrame;
use wasm_parts::memory::Pages;
use wasm_rule::LinkFault;
use wasm_valid::function_type;

/// The type of an index takes and gives so many values.
fn is_type(m: &Module, kind: u32, params: u32, results: u32) -> bool
    ensures { result ≡ is_type_of params results (slice_get m.now.types kind) }
{
    match m.types.as_slice().get(kind as usize) {
        Some(func_type) => func_type.params == params && func_type.results == results,
        None => false,
    }
}

/// The import is one of the two functions of the host, with its type.
fn is_known(m: &Module, import: &Import) -> bool
    ensures { result ≡ is_known_in m.now import.now }
{
    let name = import.name.as_slice();
    import.module.as_slice() == b"env".as_slice()
        && ((name == b"getchar".as_slice() && is_type(m, import.kind, 0, 1))
            || (name == b"putchar".as_slice() && is_type(m, import.kind, 1, 0)))
}

/// Each import is one of those.
fn are_known(m: &Module) -> bool
    ensures { result ≡ are_known_in m.now }
{
    m.imports
        .as_slice()
        .iter()
        .all(|import| is_known(m, import))
}

/// The export is a function of the name `main`, without parameters and results.
fn is_main(m: &Module, export: &Export) -> bool
    ensures { result ≡ is_main_in m.now export.now }
{
    if export.name.as_slice() != b"main".as_slice() || export.sort != 0 {
        return false;
    }
    match function_type(m, export.index) {
        Some(kind) => kind.params == 0 && kind.results == 0,
        None => false,
    }
}

/// The index of the first such export.
fn main_of(m: &Module) -> Option<u32>
    ensures { result ≡ main_index_of m.now }
{
    for export in m.exports.as_slice() {
        if is_main(m, export) {
            return Some(export.index);
        }
    }
    None
}

/// How many pages the memory has at the start.
fn least_pages(memory: &Option<Limits>) -> u32
    ensures { result ≡ least_in memory.now }
{
    match memory {
        Some(limits) => limits.min,
        None => 0,
    }
}

/// The segment lies in the memory as it is at the start.
fn is_placed(m: &Module, segment: &Segment) -> bool
    ensures { result ≡ is_placed_in m.now segment.now }
{
    let offset = segment.offset.cast_unsigned() as usize;
    let room = least_pages(&m.memory) as usize * 65536;
    offset <= room && segment.bytes.len() <= room - offset
}

/// Each segment does.
fn are_placed(m: &Module) -> bool
    ensures { result ≡ are_placed_in m.now }
{
    m.segments
        .as_slice()
        .iter()
        .all(|segment| is_placed(m, segment))
}

/// Whether the module can be run here, and the index of its function `main`.
pub fn check(m: &Module) -> Result<u32, LinkFault>
    ensures linkable { MatchResult result (λ main. IsLinkable m.now) (IsRefusedFor m.now) }
    ensures main { IfOk result (λ main. main_index_of m.now ≡ Some main) }
    ensures own { IfOk result (λ main. length m.now.imports ≤ main) }
{
    if !are_known(m) {
        return Err(LinkFault::WrongImport);
    }
    let Some(main) = main_of(m) else {
        return Err(LinkFault::NoMain);
    };
    if !are_placed(m) {
        return Err(LinkFault::BadData);
    }
    Ok(main)
}

/// The memory as it is at the start.
pub fn memory_of(alloc: Global, m: &Module) -> Result<Pages, AllocError>
    requires { are_placed_in m.now ≡ true }
    ensures { IfOk result (λ memory. memory ≡ record { pages = least_in m.now.memory; bytes = with_segments fin.empty m.now.segments }) }
{
    let mut memory = Pages::new(alloc);
    memory.grow(least_pages(&m.memory))?;
    for segment in m.segments.as_slice() {
        let offset = segment.offset.cast_unsigned() as usize;
        memory.write(offset, segment.bytes.as_slice())?;
    }
    Ok(memory)
}

/// The word of a global at the start.
fn first_word(variable: &GlobalVar) -> u32
    ensures { result ≡ first_value variable.now }
{
    variable.first.cast_unsigned()
}

/// The globals as they are at the start.
pub fn globals_of(alloc: Global, m: &Module) -> Result<Vec<u32>, AllocError>
    ensures { IfOk result (λ globals. globals.items ≡ map first_value m.now.globals) }
{
    let mut globals = Vec::new(alloc);
    for variable in m.globals.as_slice() {
        globals.push(first_word(variable))?;
    }
    Ok(globals)
}

/// The call of a function without arguments, if there is an index and it names no import.
pub fn first_frame(
    alloc: Global,
    linked: &Linked,
    index: Option<u32>,
) -> Result<Option<CallFrame>, AllocError>
    ensures { IfOk result (λ frame. later_of linked.now frame ≡ first_call linked.now index) }
{
    let Some(index) = index else {
        return Ok(None);
    };
    let imports = linked.module().imports.len();
    if (index as usize) < imports {
        return Ok(None);
    }
    let frame = linked.frame(alloc, index - imports as u32, Vec::new(alloc))?;
    Ok(Some(frame))
}

/// The first of the calls at the start, and the other one.
pub fn in_turn(first: Option<CallFrame>, main: CallFrame) -> (CallFrame, Option<CallFrame>)
    ensures { (m : ModuleValue) → call_of m result.0 ∷ later_of m result.1 ≡ later_of m first ++ (call_of m main ∷ []) }
{
    match first {
        Some(frame) => (frame, Some(main)),
        None => (main, None),
    }
}
