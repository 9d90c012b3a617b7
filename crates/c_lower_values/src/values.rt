// First values: code begins in the block `k`, may use the frame from the word `d` on, and the block in which it ends is the
// answer.

ghost use Rattle.std.specs.Prelude.{◌≡◌, ℕ, length, OnOk};
ghost use Rattle.c_syntax.specs.Plain as tree;
ghost use Rattle.c_syntax.specs.View.{expr_of, value_of};
ghost use Rattle.c_types.specs.Types.{CType};
ghost use Rattle.c_types.specs.Declarations as plain;
ghost use Rattle.c_types.specs.Table.{HasType, IsType};
ghost use Rattle.c_declared.specs.Held.{HoldsSome};
ghost use Rattle.c_declared.specs.Slots.{AreSlots};
ghost use Rattle.c_declarations.specs.Sites.{values_of, AreSomeSlots};
ghost use Rattle.c_eval.specs.LiteralsIn.{value_literals, values_literals};
ghost use Rattle.c_lowered.specs.Counts.{expr_jumps, first_jumps, firsts_jumps};
ghost use Rattle.c_lowered.specs.Statements.{first_code, firsts_code};
ghost use Rattle.c_counted.specs.Numbers.{IsNumber};
ghost use Rattle.c_applied.specs.Leads.{Keeps, literal_count};
ghost use Rattle.c_lower_expressions.specs.Adds.{Adds};
ghost use Rattle.c_lower_values.specs.Adds.{AddsKnowing};

use crate::pieces::{clear, slot_type, spell};
use c_addressing::{Here, Output, store};
use c_applied::pass;
use c_cells::StructKinds;
use c_counted::plus;
use c_declared::{Slots, slots_of};
use c_emission::Location;
use c_layouts::words;
use c_lower_expressions::value;
use c_static::spelled;
use c_syntax::tree::{Expr, Value, Values};
use std::alloc::AllocError;

// Code of a first value that is one expression, for an object of a type at a word of the frame.
fn fill_one(
    out: &mut Output<'_>,
    here: &Here<'_>,
    ty: usize,
    at: u32,
    e: &Expr,
    k: u32,
    d: u32,
) -> Result<u32, AllocError>
    requires holds { HoldsSome out.old.types here.now.declared }
    requires ty { IsType out.old.types ty }
    ensures code { (t : CType) (place : ℕ) → HasType out.old.types ty t → IsNumber at place → Adds here.now out.old out.new k d result (first_code (tree.One (expr_of e.now)) t place) (λ s. literal_count s (expr_of e.now)) (expr_jumps (expr_of e.now)) }
    ensures keeps { OnOk result (Keeps out.old out.new) }
{
    let text = spelled(&out.types, here.declared.alloc, ty, e)?;
    match text {
        Some(bytes) => {
            spell(out, bytes.as_slice(), at)?;
            let left = out.literals.behind();
            pass(out, left);
            Ok(k)
        }
        None => {
            let behind = value(out, here, e, k, d)?;
            store(out, Location::Framed(at))?;
            Ok(behind)
        }
    }
}

/// Code of a first value, for an object of a type at a word of the frame.
#[cycle(fills)]
pub fn first_value(
    out: &mut Output<'_>,
    structs: &StructKinds,
    here: &Here<'_>,
    ty: usize,
    at: u32,
    first: &Value,
    k: u32,
    d: u32,
) -> Result<u32, AllocError>
    requires holds { HoldsSome out.old.types here.now.declared }
    requires ty { IsType out.old.types ty }
    ensures code { (t : CType) (place : ℕ) → HasType out.old.types ty t → IsNumber at place → AddsKnowing structs.now here.now out.old out.new k d result (first_code (value_of first.now) t place) (λ s. length (value_literals s (value_of first.now))) (first_jumps (value_of first.now)) }
    ensures keeps { OnOk result (Keeps out.old out.new) }
{
    match first {
        Value::One(e) => fill_one(out, here, ty, at, e, k, d),
        Value::Many(values) => {
            let slots = slots_of(&out.types, here.declared.layouts.as_slice(), Some(ty));
            fill_all(out, structs, here, slots, at, values, k, d)
        }
    }
}

// Code of the values of a braced list, and of what they leave.
#[cycle(fills)]
fn fill_all(
    out: &mut Output<'_>,
    structs: &StructKinds,
    here: &Here<'_>,
    slots: Slots,
    at: u32,
    values: &Values,
    k: u32,
    d: u32,
) -> Result<u32, AllocError>
    requires holds { HoldsSome out.old.types here.now.declared }
    requires slots { AreSomeSlots out.old.types here.now.declared.layouts.items slots }
    ensures code { (s : plain.Slots) (place : ℕ) → AreSlots out.old.types here.now.declared.layouts.items slots s → IsNumber at place → AddsKnowing structs.now here.now out.old out.new k d result (firsts_code (values_of values.now) s place) (λ s. length (values_literals s (values_of values.now))) (firsts_jumps (values_of values.now)) }
    ensures keeps { OnOk result (Keeps out.old out.new) }
{
    let count = values.items.len();
    let mut place = at;
    let mut block = k;
    for i in 0..count {
        let value = &values.items[i];
        let ty = slot_type(out, here, slots, i)?;
        block = first_value(out, structs, here, ty, place, value, block, d)?;
        let size = words(&out.types, here.declared.layouts.as_slice(), ty);
        place = plus(place, size.low().get());
    }
    clear(out, structs, here, slots, count, place)?;
    Ok(block)
}
