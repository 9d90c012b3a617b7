// From a typed text to its program.

ghost use Rattle.std.specs.Prelude.{◌≡◌, ◌≤◌, ◌<◌, ◌^◌, Ok, Err, IfOk};
ghost use Rattle.c_syntax.specs.View.{unit_of};
ghost use Rattle.c_types.specs.Scope.{Scope};
ghost use Rattle.c_types.specs.Units.{all_items, start_scope};
ghost use Rattle.c_fitting.specs.Blocks.{UnitDeclaresInBlocks};
ghost use Rattle.eir_core.specs.Eir.{Eir, size_of};
ghost use Rattle.c_lowered.specs.Whole.{lowered};
ghost use Rattle.c_lower_sizes.specs.Sized.{IsSized};
ghost use Rattle.c_lower.specs.declared.whole.LowerFault.TheVariants.{TooLarge};

use crate::bodies::bodies_of;
use crate::scope::file_scope;
use crate::text_code::whole_code;
use c_lower_sizes::sized;
use c_lowered::code_is_closed;
use c_syntax::tree::Unit;
use eir_core::Program;
use std::alloc::{AllocError, Global};

/// Why a text has no program within a room.
#[derive(Clone, Copy, PartialEq, Eq, Debug)]
pub enum LowerFault {
    /// The program's size is above the room.
    TooLarge,
    Memory,
}

// The program of a typed text, if its size is at most a room; none if it is larger.
fn within(alloc: Global, unit: &Unit, room: usize) -> Result<Option<Program>, AllocError>
    requires typed { (end : Scope) × (all_items (start_scope (unit_of unit.now)) (unit_of unit.now).items ≡ Ok end) }
    requires blocks { UnitDeclaresInBlocks (unit_of unit.now) }
    requires room { room ≤ 2 ^ 21 }
    ensures { IfOk result (λ p. IsSized room (lowered (unit_of unit.now)) p) }
{
    code_is_closed();
    let functions = bodies_of(alloc, unit)?;
    let literals = functions.literals.as_slice();
    let scope = file_scope(alloc, unit, literals)?;
    let first = scope.first;
    let frames = scope.frames;
    let words = scope.words;
    let slots = scope.slots;
    let bases = scope.bases;
    let entries = scope.entries;
    let code = whole_code(
        alloc, unit, &functions, first, frames, slots, bases, entries,
    )?;
    let ops = code.as_slice();
    sized(alloc, ops, words, room)
}

// The program that there may be.
fn fitting(made: Option<Program>, room: usize) -> Result<Program, LowerFault>
    ensures program { (p : Eir) → IsSized room p made → IfOk result (λ r. r ≡ p) }
    ensures small { (p : Eir) → IsSized room p made → IfOk result (λ r. size_of p ≤ room) }
    ensures too_large { (p : Eir) → IsSized room p made → result ≡ Err TooLarge → room < size_of p }
{
    let _room = room;
    match made {
        Some(program) => Ok(program),
        None => Err(LowerFault::TooLarge),
    }
}

/// The program to which a typed text is lowered, in which declarations stand in blocks, if its size is at most a room.
pub fn lower(alloc: Global, unit: &Unit, room: u32) -> Result<Program, LowerFault>
    requires typed { (end : Scope) × (all_items (start_scope (unit_of unit.now)) (unit_of unit.now).items ≡ Ok end) }
    requires blocks { UnitDeclaresInBlocks (unit_of unit.now) }
    requires room { room ≤ 2 ^ 21 }
    ensures program { IfOk result (λ p. p ≡ lowered (unit_of unit.now)) }
    ensures small { IfOk result (λ p. size_of (lowered (unit_of unit.now)) ≤ room) }
    ensures too_large { result ≡ Err TooLarge → room < size_of (lowered (unit_of unit.now)) }
{
    let most = room as usize;
    match within(alloc, unit, most) {
        Ok(made) => fitting(made, most),
        Err(_fault) => Err(LowerFault::Memory),
    }
}
