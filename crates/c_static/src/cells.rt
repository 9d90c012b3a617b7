// The cells of first values at file scope.

ghost use Rattle.std.specs.Prelude.{◌≡◌, map, IfOk, OnOk};
ghost use Rattle.c_syntax.specs.Plain as tree;
ghost use Rattle.c_syntax.specs.View.{expr_of, value_of};
ghost use Rattle.c_types.specs.Types.{CType, Tags};
ghost use Rattle.c_types.specs.Declarations as plain;
ghost use Rattle.c_types.specs.Declarations.{first_slot};
ghost use Rattle.c_types.specs.Table.{known, HasType, IsType};
ghost use Rattle.c_types.specs.Known.{Grows};
ghost use Rattle.c_declared.specs.Held.{Holds, HoldsSome};
ghost use Rattle.c_declared.specs.Slots.{AreSlots, behind};
ghost use Rattle.c_declarations.specs.Sites.{values_of, AreSomeSlots};
ghost use Rattle.c_cells.specs.Structs.{AreStructKinds};
ghost use Rattle.c_eval.specs.State as run;
ghost use Rattle.c_eval.specs.Environment.{Environment, slot_kinds, type_or_nothing};
ghost use Rattle.c_eval.specs.LiteralsIn.{literals_in, value_literals, values_literals};
ghost use Rattle.c_eval.specs.Text.{static_cells, all_static_cells, zero_cells};
ghost use Rattle.c_static.specs.Cells.{AddsShown, AddsCells};
ghost use Rattle.c_static.specs.File.{IsAtFile};
ghost use Rattle.c_static.specs.Forms.{IsQuiet, IsQuietValue, AreQuietValues};

use crate::strings::{pass_literal, spelled};
use crate::values::first_worth;
use crate::zeros::add_zeros;
use c_cells::{StructKinds, add_left};
use c_declared::{Slots, slots_of};
use c_emitted::Emitter;
use c_operands::Declarations;
use c_store::{Cell, Value as Worth};
use c_syntax::tree::{Expr, Value, Values};
use c_types::{Shape, Types};
use std::alloc::AllocError;
use word24::Word;

// A cell for each byte, behind others.
fn add_bytes(bytes: &[u8], cells: &mut Vec<Cell>) -> Result<(), AllocError>
    ensures { OnOk result (AddsShown cells.old.items cells.new.items (map (λ c. run.Holds (run.Word c)) bytes.now)) }
{
    for byte in bytes {
        cells.push(Cell::Holds(Worth::Word(Word::wrap(u64::from(*byte)))))?;
    }
    Ok(())
}

// The cells of a first value that is one expression, behind others.
fn add_one<'t>(
    types: &mut Types<'_>,
    declared: &Declarations<'_>,
    out: &mut Emitter<'t>,
    ty: usize,
    e: &'t Expr,
    cells: &mut Vec<Cell>,
) -> Result<(), AllocError>
    requires holds { HoldsSome types.old declared.now }
    requires ty { IsType types.old ty }
    ensures cells { (t : CType) (env : Environment) → HasType types.old ty t → IsAtFile types.old declared.now out.old env → IsQuiet env.scope (expr_of e.now) → OnOk result (AddsCells out.old out.new cells.old.items cells.new.items (static_cells (tree.One (expr_of e.now)) t env) (literals_in env.scope (expr_of e.now))) }
    ensures grows { OnOk result (Grows (known types.old) (known types.new)) }
    ensures tags { OnOk result (types.new.tags ≡ types.old.tags) }
{
    let text = spelled(types, declared.alloc, ty, e)?;
    match text {
        Some(bytes) => {
            add_bytes(bytes.as_slice(), cells)?;
            pass_literal(out)
        }
        None => {
            let v = first_worth(types, declared, out, ty, e)?;
            cells.push(Cell::Holds(v))?;
            Ok(())
        }
    }
}

/// The number of the type of the object that a value stands for, or that of void.
pub fn type_at(
    types: &mut Types<'_>,
    declared: &Declarations<'_>,
    slots: Slots,
    k: usize,
) -> Result<usize, AllocError>
    requires { AreSomeSlots types.old declared.now.layouts.items slots }
    ensures ty { (s : plain.Slots) → AreSlots types.old declared.now.layouts.items slots s → IfOk result (λ n. HasType types.new n (type_or_nothing (first_slot (behind k s)))) }
    ensures grows { OnOk result (Grows (known types.old) (known types.new)) }
    ensures tags { OnOk result (types.new.tags ≡ types.old.tags) }
{
    match slots.at(declared.layouts.as_slice(), k) {
        Some(ty) => Ok(ty),
        None => types.number(Shape::Void),
    }
}

// The cells that so many values of a braced list leave, which are 0 or null, behind others.
fn add_rest(
    types: &Types<'_>,
    declared: &Declarations<'_>,
    structs: &StructKinds,
    slots: Slots,
    from: usize,
    cells: &mut Vec<Cell>,
) -> Result<(), AllocError>
    requires { AreSomeSlots types.now declared.now.layouts.items slots }
    ensures { (s : plain.Slots) (tags : Tags) → AreSlots types.now declared.now.layouts.items slots s → AreStructKinds types.now structs.now tags → OnOk result (AddsShown cells.old.items cells.new.items (zero_cells (slot_kinds tags (behind from s)))) }
{
    let mut kinds = Vec::new(declared.alloc);
    add_left(
        types,
        declared.layouts.as_slice(),
        structs,
        slots,
        from,
        &mut kinds,
    )?;
    add_zeros(kinds.as_slice(), cells)
}

/// The cells of a first value of an object of a type, behind others.
#[cycle(cells)]
pub fn add_cells<'t>(
    types: &mut Types<'_>,
    declared: &Declarations<'_>,
    structs: &StructKinds,
    out: &mut Emitter<'t>,
    ty: usize,
    value: &'t Value,
    cells: &mut Vec<Cell>,
) -> Result<(), AllocError>
    requires holds { HoldsSome types.old declared.now }
    requires ty { IsType types.old ty }
    ensures cells { (t : CType) (env : Environment) → HasType types.old ty t → IsAtFile types.old declared.now out.old env → AreStructKinds types.old structs.now env.scope.tags → IsQuietValue env.scope (value_of value.now) → OnOk result (AddsCells out.old out.new cells.old.items cells.new.items (static_cells (value_of value.now) t env) (value_literals env.scope (value_of value.now))) }
    ensures grows { OnOk result (Grows (known types.old) (known types.new)) }
    ensures tags { OnOk result (types.new.tags ≡ types.old.tags) }
{
    match value {
        Value::One(e) => add_one(types, declared, out, ty, e, cells),
        Value::Many(values) => {
            let slots = slots_of(types, declared.layouts.as_slice(), Some(ty));
            add_all(types, declared, structs, out, slots, values, cells)
        }
    }
}

// The cells of the values of a braced list, and of what they leave, behind others.
#[cycle(cells)]
fn add_all<'t>(
    types: &mut Types<'_>,
    declared: &Declarations<'_>,
    structs: &StructKinds,
    out: &mut Emitter<'t>,
    slots: Slots,
    values: &'t Values,
    cells: &mut Vec<Cell>,
) -> Result<(), AllocError>
    requires holds { HoldsSome types.old declared.now }
    requires slots { AreSomeSlots types.old declared.now.layouts.items slots }
    ensures cells { (s : plain.Slots) (env : Environment) → AreSlots types.old declared.now.layouts.items slots s → IsAtFile types.old declared.now out.old env → AreStructKinds types.old structs.now env.scope.tags → AreQuietValues env.scope (values_of values.now) → OnOk result (AddsCells out.old out.new cells.old.items cells.new.items (all_static_cells (values_of values.now) s env) (values_literals env.scope (values_of values.now))) }
    ensures grows { OnOk result (Grows (known types.old) (known types.new)) }
    ensures tags { OnOk result (types.new.tags ≡ types.old.tags) }
{
    let count = values.items.len();
    for k in 0..count {
        let value = &values.items[k];
        let ty = type_at(types, declared, slots, k)?;
        add_cells(types, declared, structs, out, ty, value, cells)?;
    }
    add_rest(types, declared, structs, slots, count, cells)
}
