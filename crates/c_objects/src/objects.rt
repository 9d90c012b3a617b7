// Objects of file scope.

ghost use Rattle.std.specs.Prelude.{◌≡◌, ◌<◌, [], length, IfOk, OnOk};
ghost use Rattle.c_syntax.specs.View.{maybe_value};
ghost use Rattle.c_types.specs.Types.{CType, Tags};
ghost use Rattle.c_types.specs.Table.{known, HasType, IsType};
ghost use Rattle.c_types.specs.Known.{Grows};
ghost use Rattle.c_declared.specs.Held.{Holds, HoldsSome};
ghost use Rattle.c_cells.specs.Structs.{AreStructKinds};
ghost use Rattle.c_eval.specs.Environment.{Environment, cell_kinds};
ghost use Rattle.c_eval.specs.LiteralsIn.{first_literals};
ghost use Rattle.c_eval.specs.Text.{first_cells, zero_cells};
ghost use Rattle.c_static.specs.Cells.{AddsShown, AddsCells};
ghost use Rattle.c_static.specs.File.{IsAtFile};
ghost use Rattle.c_objects.specs.Made.{IsQuietFirst, IsBehindName, StandsAtFile, AddsObject};

use crate::files::{add_file, set_last};
use c_cells::{StructKinds, add_kinds};
use c_emitted::{Emitter, number_of};
use c_operands::Declarations;
use c_static::{add_cells, add_zeros};
use c_store::Cell;
use c_syntax::tree::Value;
use c_types::Types;
use std::alloc::{AllocError, Global};

// The cells of an object of a type that has no first value, behind others.
fn add_cleared(
    types: &Types<'_>,
    structs: &StructKinds,
    alloc: Global,
    ty: usize,
    cells: &mut Vec<Cell>,
) -> Result<(), AllocError>
    requires { ty < length (known types.now) }
    ensures { (t : CType) (tags : Tags) → HasType types.now ty t → AreStructKinds types.now structs.now tags → OnOk result (AddsShown cells.old.items cells.new.items (zero_cells (cell_kinds tags t))) }
{
    let mut kinds = Vec::new(alloc);
    add_kinds(types, structs, ty, &mut kinds)?;
    add_zeros(kinds.as_slice(), cells)
}

// The cells of an object of a type: those of its first value, or else 0 and null.
fn first_cells<'t>(
    types: &mut Types<'_>,
    declared: &Declarations<'_>,
    structs: &StructKinds,
    out: &mut Emitter<'t>,
    ty: usize,
    first: &'t Option<Value>,
) -> Result<Vec<Cell>, AllocError>
    requires holds { HoldsSome types.old declared.now }
    requires ty { IsType types.old ty }
    ensures cells { (t : CType) (env : Environment) → HasType types.old ty t → IsAtFile types.old declared.now out.old env → AreStructKinds types.old structs.now env.scope.tags → IsQuietFirst env.scope (maybe_value first.now) → IfOk result (λ v. AddsCells out.old out.new [] v.items (first_cells t (maybe_value first.now) env) (first_literals env.scope (maybe_value first.now))) }
    ensures grows { OnOk result (Grows (known types.old) (known types.new)) }
    ensures tags { OnOk result (types.new.tags ≡ types.old.tags) }
{
    let mut cells = Vec::new(declared.alloc);
    match first {
        Some(value) => {
            add_cells(types, declared, structs, out, ty, value, &mut cells)?;
            Ok(cells)
        }
        None => {
            add_cleared(types, structs, declared.alloc, ty, &mut cells)?;
            Ok(cells)
        }
    }
}

// How many cells an object of a type has: they are made once where no object is known.
fn cell_count(
    types: &mut Types<'_>,
    declared: &Declarations<'_>,
    structs: &StructKinds,
    ty: usize,
    first: &Option<Value>,
) -> Result<u32, AllocError>
    requires holds { HoldsSome types.old declared.now }
    requires ty { IsType types.old ty }
    ensures count { (t : CType) (env : Environment) → HasType types.old ty t → Holds types.old declared.now env.scope → AreStructKinds types.old structs.now env.scope.tags → IsQuietFirst env.scope (maybe_value first.now) → IfOk result (λ n. n ≡ length (first_cells t (maybe_value first.now) env)) }
    ensures grows { OnOk result (Grows (known types.old) (known types.new)) }
    ensures tags { OnOk result (types.new.tags ≡ types.old.tags) }
{
    let mut scratch = Emitter::new(declared.alloc);
    let cells = first_cells(types, declared, structs, &mut scratch, ty, first)?;
    number_of(cells.len())
}

/// An object of file scope more: its first value knows it.
pub fn add_object<'t>(
    types: &mut Types<'_>,
    declared: &Declarations<'_>,
    structs: &StructKinds,
    out: &mut Emitter<'t>,
    name: &'t [u8],
    ty: usize,
    first: &'t Option<Value>,
) -> Result<(), AllocError>
    requires holds { HoldsSome types.old declared.now }
    requires ty { IsType types.old ty }
    ensures object { (t : CType) (here inner : Environment) → HasType types.old ty t → IsBehindName here inner name.now → Holds types.old declared.now inner.scope → StandsAtFile out.old here → AreStructKinds types.old structs.now inner.scope.tags → IsQuietFirst inner.scope (maybe_value first.now) → OnOk result (AddsObject out.old out.new inner (first_cells t (maybe_value first.now) inner) (first_literals inner.scope (maybe_value first.now))) }
    ensures grows { OnOk result (Grows (known types.old) (known types.new)) }
    ensures tags { OnOk result (types.new.tags ≡ types.old.tags) }
{
    let count = cell_count(types, declared, structs, ty, first)?;
    add_file(out, name, count)?;
    let cells = first_cells(types, declared, structs, out, ty, first)?;
    set_last(out, cells)
}
