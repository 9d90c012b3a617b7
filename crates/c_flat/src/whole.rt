// The code of a whole text.

ghost use Rattle.std.specs.Prelude.{◌≡◌, true, Ok, ℕ, List, [], ◌∷◌, Option, IfOk, OnOk};
ghost use Rattle.c_syntax.specs.View.{unit_of};
ghost use Rattle.c_types.specs.Scope.{Scope};
ghost use Rattle.c_types.specs.Limits.{is_small};
ghost use Rattle.c_types.specs.Typed.{plain_of};
ghost use Rattle.c_types.specs.Units.{all_items, start_scope};
ghost use Rattle.c_code.specs.Code as code;
ghost use Rattle.c_eval.specs.Meaning.{Rules};
ghost use Rattle.c_eval.specs.Text.{definitions};
ghost use Rattle.c_emitted.specs.Emits.{AreFiles, Emits};
ghost use Rattle.c_plain.specs.Program.{program_of};
ghost use Rattle.c_fitting.specs.Blocks.{UnitDeclaresInBlocks};
ghost use Rattle.c_fitting.specs.Whole.{ItemsAreFit};
ghost use Rattle.c_tracks.specs.Starts.{IsOfText};
ghost use Rattle.c_flat.specs.Walk.{AddsFunctions, AddsWhole, KnowsCharges, HasObjects};

use crate::items::take_items;
use c_cells::StructKinds;
use c_emitted::Emitter;
use c_fitting::typed_texts_are_fit;
use c_here::Here;
use c_linked::{Compiled, link};
use c_objects::file_objects;
use c_opening::open;
use c_plain::{Instruction, Plain};
use c_scopes::Names;
use c_syntax::tree::Unit;
use c_types::{Typed, Types};
use std::alloc::{AllocError, Global};

/// The entries of the functions that got their code, and the number of `main`.
#[derive(Drop)]
pub struct Added {
    pub compiled: Vec<Compiled>,
    pub main: u32,
}

// The objects of file scope of a unit, with their first values.
fn add_objects<'t>(alloc: Global, unit: &'t Unit) -> Result<Emitter<'t>, AllocError>
    ensures { (end : Scope) → all_items (start_scope (unit_of unit.now)) (unit_of unit.now).items ≡ Ok end → IfOk result (λ out. HasObjects out (unit_of unit.now)) }
{
    let opening = open(alloc, unit)?;
    let mut types = opening.types;
    let mut declared = opening.declared;
    let mut structs = StructKinds::new(alloc);
    let mut out = Emitter::new(alloc);
    let items = unit.items.items.as_slice();
    file_objects(&mut types, &mut declared, &mut structs, &mut out, items)?;
    Ok(out)
}

// What stands before the functions: where no object is, and the end of a run.
fn add_end(out: &mut Emitter<'_>) -> Result<(), AllocError>
    ensures { OnOk result (Emits out.old out.new (code.Nowhere ∷ code.End ∷ []) []) }
{
    out.add(Instruction::Nowhere)?;
    out.add(Instruction::End)
}

// The code of a unit's functions, and their entries.
fn add_functions<'t>(
    alloc: Global,
    out: &mut Emitter<'t>,
    unit: &'t Unit,
) -> Result<Vec<Compiled>, AllocError>
    ensures { (rules : Rules) (names : List (List ℕ × Option ℕ)) → AreFiles out.old names → ItemsAreFit (start_scope (unit_of unit.now)) (unit_of unit.now).items → KnowsCharges rules (start_scope (unit_of unit.now)) (unit_of unit.now).items
        → IfOk result (λ compiled. AddsFunctions rules out.old out.new names [] compiled.items (definitions (start_scope (unit_of unit.now)) (unit_of unit.now).items)) }
{
    let opening = open(alloc, unit)?;
    let mut types = opening.types;
    let slots = Names::new(alloc);
    let mut here = Here {
        declared: opening.declared,
        slots,
    };
    let mut structs = StructKinds::new(alloc);
    let mut compiled = Vec::new(alloc);
    let items = unit.items.items.as_slice();
    take_items(
        &mut types,
        &mut structs,
        out,
        &mut here,
        items,
        &mut compiled,
    )?;
    Ok(compiled)
}

// What stands before the functions, their code, and the number of `main`.
fn add_code<'t>(alloc: Global, out: &mut Emitter<'t>, unit: &'t Unit) -> Result<Added, AllocError>
    ensures { (rules : Rules) (names : List (List ℕ × Option ℕ)) → AreFiles out.old names → ItemsAreFit (start_scope (unit_of unit.now)) (unit_of unit.now).items → KnowsCharges rules (start_scope (unit_of unit.now)) (unit_of unit.now).items
        → IfOk result (λ added. AddsWhole rules out.old out.new names added.compiled.items added.main (definitions (start_scope (unit_of unit.now)) (unit_of unit.now).items)) }
{
    add_end(out)?;
    let compiled = add_functions(alloc, out, unit)?;
    let main = out.name_number(b"main")?;
    Ok(Added { compiled, main })
}

/// The plain code of a typed text within the limits, in which declarations stand in blocks.
pub fn compile(alloc: Global, typed: &Typed) -> Result<Plain, AllocError>
    requires small { is_small (plain_of typed.now) ≡ true }
    requires blocks { UnitDeclaresInBlocks (plain_of typed.now) }
    ensures { IfOk result (λ plain. (names : List (List ℕ)) × IsOfText names (program_of plain) (plain_of typed.now)) }
{
    typed_texts_are_fit();
    let unit = typed.unit();
    let mut out = add_objects(alloc, unit)?;
    let added = add_code(alloc, &mut out, unit)?;
    link(out, added.compiled.as_slice(), added.main)
}
