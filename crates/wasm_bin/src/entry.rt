// The entries of the sections.
ghost use Rattle.std.specs.Prelude.{◌≡◌};
ghost use Rattle.wasm_bytes.specs.Piece.{piece};
ghost use Rattle.wasm_bin.specs.Entry.{value_type_at, value_types_at, import_sort_at, flag_at, largest_at, limits_at, only_at, initial_at, export_sort_at, memory_index_at};
ghost use Rattle.wasm_bytes.specs.Outcome.{Gives};

use crate::decode::Decode;
use crate::module::{Export, FuncType, GlobalVar, Import, Limits, Segment};
use crate::opcode::is_known;
use std::alloc::Global;
use wasm_bytes::cursor::{Cursor, byte, expected, offset};
use wasm_bytes::fault::ModFault;
use wasm_bytes::number::{integer, limited, unsigned};
use wasm_bytes::text::{bytes, name};

/// Takes the type of a value: i32 alone.
#[tactic(auto, unfolding(crate::specs::Entry::value_type_at))]
pub fn value_type(c: Cursor<'_>) -> Result<Cursor<'_>, ModFault>
    ensures { Gives piece result (value_type_at (piece c.entry)) }
{
    let (found, rest) = byte(c)?;
    if found == 0x7F {
        Ok(rest)
    } else if 0x7C <= found && found <= 0x7E {
        Err(ModFault::Unsupported(offset(c)))
    } else {
        Err(ModFault::Malformed(offset(c)))
    }
}

// Takes the types of so many values.
fn value_types(count: u32, c: Cursor<'_>) -> Result<Cursor<'_>, ModFault>
    ensures { Gives piece result (value_types_at count (piece c.entry)) }
{
    let mut rest = c;
    for _ in 0..count {
        rest = value_type(rest)?;
    }
    Ok(rest)
}

impl Decode for FuncType {
    ghost use Rattle.wasm_bin.specs.declared.module.FuncType.{FuncType};
    ghost use Rattle.wasm_bin.specs.Entry.{func_type_at};

    ghost Seen = { FuncType };

    ghost seen = { λ t. t };

    ghost reading = { func_type_at };

    #[tactic(auto, unfolding(crate::specs::Entry::func_type_at))]
    fn decode(_alloc: Global, c: Cursor<'_>) -> Result<(FuncType, Cursor<'_>), ModFault> {
        let front = expected(0x60, c)?;
        let (params, middle) = limited(65_536, front)?;
        let middle = value_types(params, middle)?;
        let (results, rest) = unsigned(middle)?;
        let rest = value_types(results, rest)?;
        Ok((FuncType { params, results }, rest))
    }
}

// Takes the sort of an import: a function's alone.
#[tactic(auto, unfolding(crate::specs::Entry::import_sort_at))]
fn import_sort(c: Cursor<'_>) -> Result<Cursor<'_>, ModFault>
    ensures { Gives piece result (import_sort_at (piece c.entry)) }
{
    let (found, rest) = byte(c)?;
    if found == 0 {
        Ok(rest)
    } else if found <= 3 {
        Err(ModFault::Unsupported(offset(c)))
    } else {
        Err(ModFault::Malformed(offset(c)))
    }
}

impl Decode for Import {
    ghost use Rattle.wasm_bin.specs.Parts.{Foreign, foreign};
    ghost use Rattle.wasm_bin.specs.Entry.{import_at};

    ghost Seen = { Foreign };

    ghost seen = { foreign };

    ghost reading = { import_at };

    #[tactic(auto, unfolding(crate::specs::Entry::import_at))]
    fn decode(alloc: Global, c: Cursor<'_>) -> Result<(Import, Cursor<'_>), ModFault> {
        let (module, rest) = name(alloc, c)?;
        let (name, rest) = name(alloc, rest)?;
        let rest = import_sort(rest)?;
        let (kind, rest) = unsigned(rest)?;
        Ok((Import { module, name, kind }, rest))
    }
}

// Takes a flag of 0 or 1.
#[tactic(auto, unfolding(crate::specs::Entry::flag_at))]
fn flag(c: Cursor<'_>) -> Result<(bool, Cursor<'_>), ModFault>
    ensures { Gives (λ x. (x.0, piece x.1)) result (flag_at (piece c.entry)) }
{
    let (found, rest) = byte(c)?;
    if found <= 1 {
        Ok((found == 1, rest))
    } else {
        Err(ModFault::Malformed(offset(c)))
    }
}

// Takes the largest size, where the flag says that there is one.
#[tactic(auto, unfolding(crate::specs::Entry::largest_at))]
fn largest(flag: bool, c: Cursor<'_>) -> Result<(Option<u32>, Cursor<'_>), ModFault>
    ensures { Gives (λ x. (x.0, piece x.1)) result (largest_at flag (piece c.entry)) }
{
    if flag {
        let (size, rest) = unsigned(c)?;
        Ok((Some(size), rest))
    } else {
        Ok((None, c))
    }
}

// Takes the size of a memory.
#[tactic(auto, unfolding(crate::specs::Entry::limits_at))]
fn limits(c: Cursor<'_>) -> Result<(Limits, Cursor<'_>), ModFault>
    ensures { Gives (λ x. (x.0, piece x.1)) result (limits_at (piece c.entry)) }
{
    let (flag, rest) = flag(c)?;
    let (min, rest) = limited(1024, rest)?;
    let (max, rest) = largest(flag, rest)?;
    Ok((Limits { min, max }, rest))
}

/// The memories: one at most.
impl Decode for Option<Limits> {
    ghost use Rattle.std.specs.Prelude.{Option};
    ghost use Rattle.wasm_bin.specs.declared.module.Limits.{Limits};
    ghost use Rattle.wasm_bin.specs.Entry.{memories_at};

    ghost Seen = { Option Limits };

    ghost seen = { λ l. l };

    ghost reading = { memories_at };

    #[tactic(auto, unfolding(crate::specs::Entry::memories_at))]
    fn decode(_alloc: Global, c: Cursor<'_>) -> Result<(Option<Limits>, Cursor<'_>), ModFault> {
        let (count, rest) = unsigned(c)?;
        if count == 0 {
            Ok((None, rest))
        } else if count == 1 {
            let (limits, rest) = limits(rest)?;
            Ok((Some(limits), rest))
        } else {
            Err(ModFault::Unsupported(offset(c)))
        }
    }
}

// Takes this opcode, where no other instruction may stand.
#[tactic(auto, unfolding(crate::specs::Entry::only_at))]
fn only(opcode: u8, c: Cursor<'_>) -> Result<Cursor<'_>, ModFault>
    ensures { Gives piece result (only_at opcode (piece c.entry)) }
{
    let (found, rest) = byte(c)?;
    if found == opcode {
        Ok(rest)
    } else if is_known(found) {
        Err(ModFault::Unsupported(offset(c)))
    } else {
        Err(ModFault::Malformed(offset(c)))
    }
}

// Takes an initial expression, and gives its value.
#[tactic(auto, unfolding(crate::specs::Entry::initial_at))]
fn initial(c: Cursor<'_>) -> Result<(i32, Cursor<'_>), ModFault>
    ensures { Gives (λ x. (x.0, piece x.1)) result (initial_at (piece c.entry)) }
{
    let front = only(0x41, c)?;
    let (value, rest) = integer(front)?;
    Ok((value, only(0x0B, rest)?))
}

impl Decode for GlobalVar {
    ghost use Rattle.wasm_bin.specs.declared.module.GlobalVar.{GlobalVar};
    ghost use Rattle.wasm_bin.specs.Entry.{global_at};

    ghost Seen = { GlobalVar };

    ghost seen = { λ g. g };

    ghost reading = { global_at };

    #[tactic(auto, unfolding(crate::specs::Entry::global_at))]
    fn decode(_alloc: Global, c: Cursor<'_>) -> Result<(GlobalVar, Cursor<'_>), ModFault> {
        let rest = value_type(c)?;
        let (mutable, rest) = flag(rest)?;
        let (first, rest) = initial(rest)?;
        Ok((GlobalVar { mutable, first }, rest))
    }
}

// Takes the sort of an export.
#[tactic(auto, unfolding(crate::specs::Entry::export_sort_at))]
fn export_sort(c: Cursor<'_>) -> Result<(u8, Cursor<'_>), ModFault>
    ensures { Gives (λ x. (x.0, piece x.1)) result (export_sort_at (piece c.entry)) }
{
    let (found, rest) = byte(c)?;
    if found == 0 || found == 2 || found == 3 {
        Ok((found, rest))
    } else if found == 1 {
        Err(ModFault::Unsupported(offset(c)))
    } else {
        Err(ModFault::Malformed(offset(c)))
    }
}

impl Decode for Export {
    ghost use Rattle.wasm_bin.specs.Parts.{Shown, shown};
    ghost use Rattle.wasm_bin.specs.Entry.{export_at};

    ghost Seen = { Shown };

    ghost seen = { shown };

    ghost reading = { export_at };

    #[tactic(auto, unfolding(crate::specs::Entry::export_at))]
    fn decode(alloc: Global, c: Cursor<'_>) -> Result<(Export, Cursor<'_>), ModFault> {
        let (name, rest) = name(alloc, c)?;
        let (sort, rest) = export_sort(rest)?;
        let (index, rest) = unsigned(rest)?;
        Ok((Export { name, sort, index }, rest))
    }
}

// Takes the index of the one memory.
#[tactic(auto, unfolding(crate::specs::Entry::memory_index_at))]
fn memory_index(c: Cursor<'_>) -> Result<Cursor<'_>, ModFault>
    ensures { Gives piece result (memory_index_at (piece c.entry)) }
{
    let (index, rest) = unsigned(c)?;
    if index == 0 {
        Ok(rest)
    } else {
        Err(ModFault::Unsupported(offset(c)))
    }
}

impl Decode for Segment {
    ghost use Rattle.wasm_bin.specs.Parts.{Stretch, stretch};
    ghost use Rattle.wasm_bin.specs.Entry.{segment_at};

    ghost Seen = { Stretch };

    ghost seen = { stretch };

    ghost reading = { segment_at };

    #[tactic(auto, unfolding(crate::specs::Entry::segment_at))]
    fn decode(alloc: Global, c: Cursor<'_>) -> Result<(Segment, Cursor<'_>), ModFault> {
        let rest = memory_index(c)?;
        let (offset, rest) = initial(rest)?;
        let (bytes, rest) = bytes(alloc, rest)?;
        Ok((Segment { offset, bytes }, rest))
    }
}
