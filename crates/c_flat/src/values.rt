// First values.

ghost use Rattle.std.specs.Prelude.{◌≡◌, OnOk};
ghost use Rattle.c_syntax.specs.Plain as tree;
ghost use Rattle.c_syntax.specs.View.{expr_of, value_of, maybe_value};
ghost use Rattle.c_types.specs.Types.{CType};
ghost use Rattle.c_types.specs.Declarations as plain;
ghost use Rattle.c_types.specs.Table.{known, HasType, IsType};
ghost use Rattle.c_types.specs.Known.{Grows};
ghost use Rattle.c_declared.specs.Held.{Holds, HoldsSome};
ghost use Rattle.c_declared.specs.Slots.{AreSlots};
ghost use Rattle.c_declarations.specs.Sites.{values_of, AreSomeSlots};
ghost use Rattle.c_cells.specs.Structs.{AreStructKinds};
ghost use Rattle.c_eval.specs.Environment.{Environment};
ghost use Rattle.c_eval.specs.LiteralsIn.{literals_in, value_literals, values_literals, first_literals};
ghost use Rattle.c_code.specs.Code.{Site, first_code, firsts_code};
ghost use Rattle.c_emitted.specs.Emits.{Emits};
ghost use Rattle.c_fitting.specs.Fit.{IsFit};
ghost use Rattle.c_fitting.specs.Whole.{ValueIsFit, ValuesAreFit, FirstIsFit};
ghost use Rattle.c_here.specs.Here.{IsHere};
ghost use Rattle.c_flat.specs.First.{maybe_first_code};

use crate::pieces::{clear, first_cell, further, spell};
use c_cells::StructKinds;
use c_declared::{Slots, slots_of};
use c_emitted::Emitter;
use c_flat_expressions::used;
use c_here::Here;
use c_kinds::word_count;
use c_static::{pass_literal, spelled, type_at};
use c_syntax::tree::{Expr, Value, Values};
use c_types::Types;
use std::alloc::AllocError;

// Code of a first value that is one expression, for an object of a type or a part of one.
fn fill_one<'t>(
    types: &mut Types<'_>,
    out: &mut Emitter<'t>,
    here: &Here<'_>,
    ty: usize,
    slot: u32,
    offset: u32,
    e: &'t Expr,
) -> Result<(), AllocError>
    requires holds { HoldsSome types.old here.now.declared }
    requires ty { IsType types.old ty }
    ensures emits { (t : CType) (site : Site) (env : Environment) → HasType types.old ty t → IsHere types.old here.now out.old site env → IsFit env.scope (expr_of e.now) → OnOk result (Emits out.old out.new (first_code (tree.One (expr_of e.now)) t slot offset site env) (literals_in env.scope (expr_of e.now))) }
    ensures grows { OnOk result (Grows (known types.old) (known types.new)) }
    ensures tags { OnOk result (types.new.tags ≡ types.old.tags) }
{
    let text = spelled(types, here.declared.alloc, ty, e)?;
    match text {
        Some(bytes) => {
            spell(out, bytes.as_slice(), slot, offset)?;
            pass_literal(out)
        }
        None => {
            let _judged = used(types, out, here, e)?;
            first_cell(types, out, ty, slot, offset)
        }
    }
}

// Code of a first value, for an object of a type or a part of one, from an offset on.
#[cycle(fills)]
fn fill<'t>(
    types: &mut Types<'_>,
    structs: &StructKinds,
    out: &mut Emitter<'t>,
    here: &Here<'_>,
    ty: usize,
    slot: u32,
    offset: u32,
    value: &'t Value,
) -> Result<(), AllocError>
    requires holds { HoldsSome types.old here.now.declared }
    requires ty { IsType types.old ty }
    ensures emits { (t : CType) (site : Site) (env : Environment) → HasType types.old ty t → IsHere types.old here.now out.old site env → AreStructKinds types.old structs.now env.scope.tags → ValueIsFit env.scope t (value_of value.now) → OnOk result (Emits out.old out.new (first_code (value_of value.now) t slot offset site env) (value_literals env.scope (value_of value.now))) }
    ensures grows { OnOk result (Grows (known types.old) (known types.new)) }
    ensures tags { OnOk result (types.new.tags ≡ types.old.tags) }
{
    match value {
        Value::One(e) => fill_one(types, out, here, ty, slot, offset, e),
        Value::Many(values) => {
            let slots = slots_of(types, here.declared.layouts.as_slice(), Some(ty));
            fill_all(types, structs, out, here, slots, slot, offset, values)
        }
    }
}

// Code of the values of a braced list, and of what they leave.
#[cycle(fills)]
fn fill_all<'t>(
    types: &mut Types<'_>,
    structs: &StructKinds,
    out: &mut Emitter<'t>,
    here: &Here<'_>,
    slots: Slots,
    slot: u32,
    offset: u32,
    values: &'t Values,
) -> Result<(), AllocError>
    requires holds { HoldsSome types.old here.now.declared }
    requires slots { AreSomeSlots types.old here.now.declared.layouts.items slots }
    ensures emits { (s : plain.Slots) (site : Site) (env : Environment) → AreSlots types.old here.now.declared.layouts.items slots s → IsHere types.old here.now out.old site env → AreStructKinds types.old structs.now env.scope.tags → ValuesAreFit env.scope s (values_of values.now) → OnOk result (Emits out.old out.new (firsts_code (values_of values.now) s slot offset site env) (values_literals env.scope (values_of values.now))) }
    ensures grows { OnOk result (Grows (known types.old) (known types.new)) }
    ensures tags { OnOk result (types.new.tags ≡ types.old.tags) }
{
    let count = values.items.len();
    let mut place = offset;
    for k in 0..count {
        let value = &values.items[k];
        let ty = type_at(types, &here.declared, slots, k)?;
        fill(types, structs, out, here, ty, slot, place, value)?;
        let words = word_count(types, here.declared.layouts.as_slice(), ty);
        place = further(place, words)?;
    }
    clear(
        types,
        &here.declared,
        structs,
        out,
        slots,
        count,
        slot,
        place,
    )
}

/// Code of the first value of the object in a slot, if it has one.
pub fn first_value<'t>(
    types: &mut Types<'_>,
    kinds: &StructKinds,
    out: &mut Emitter<'t>,
    here: &Here<'_>,
    ty: usize,
    slot: u32,
    first: &'t Option<Value>,
) -> Result<(), AllocError>
    requires holds { HoldsSome types.old here.now.declared }
    requires ty { IsType types.old ty }
    ensures emits { (site : Site) (env : Environment) (t : CType) → IsHere types.old here.now out.old site env → AreStructKinds types.old kinds.now env.scope.tags → HasType types.old ty t → FirstIsFit env.scope t (maybe_value first.now) → OnOk result (Emits out.old out.new (maybe_first_code site env t slot (maybe_value first.now)) (first_literals env.scope (maybe_value first.now))) }
    ensures grows { OnOk result (Grows (known types.old) (known types.new)) }
    ensures tags { OnOk result (types.new.tags ≡ types.old.tags) }
{
    match first {
        Some(value) => fill(types, kinds, out, here, ty, slot, 0, value),
        None => Ok(()),
    }
}
