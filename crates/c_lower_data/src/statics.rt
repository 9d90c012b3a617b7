// The words of first values at file scope.

ghost use Rattle.std.specs.Prelude.{◌≡◌, ◌++◌, [], length, replicate, IfOk, OnOk};
ghost use Rattle.c_syntax.specs.Plain as tree;
ghost use Rattle.c_syntax.specs.View.{expr_of, value_of};
ghost use Rattle.c_types.specs.Types.{CType};
ghost use Rattle.c_types.specs.Declarations as plain;
ghost use Rattle.c_types.specs.Table.{HasType, IsType};
ghost use Rattle.c_declared.specs.Held.{HoldsSome};
ghost use Rattle.c_declared.specs.Slots.{AreSlots, behind};
ghost use Rattle.c_declarations.specs.Sites.{values_of, AreSomeSlots};
ghost use Rattle.c_cells.specs.Structs.{AreStructKinds};
ghost use Rattle.c_eval.specs.Environment.{Environment, slot_kinds};
ghost use Rattle.c_eval.specs.LiteralsIn.{literals_in, value_literals, values_literals};
ghost use Rattle.c_eval.specs.Text.{static_named, static_value, static_cells, all_static_cells};
ghost use Rattle.c_static.specs.Forms.{is_object, IsQuiet, IsQuietValue, AreQuietValues};
ghost use Rattle.c_lowered.specs.Locations as location;
ghost use Rattle.c_lowered.specs.Locations.{Linking};
ghost use Rattle.c_lowered.specs.Whole as definition;
ghost use Rattle.c_lowered.specs.Whole.{word_of, words_from};
ghost use Rattle.c_counted.specs.Numbers.{IsNumber};
ghost use Rattle.c_addressing.specs.Here.{IsHere, Emits};
ghost use Rattle.c_addressing.specs.Places.{IsLocation};
ghost use Rattle.c_applied.specs.Leads.{Keeps};
ghost use Rattle.c_lower_data.specs.Statics.{IsAtFile, AddsWords, names_object};

use crate::words::{add_bytes, add_number, add_zeros};
use c_addressing::{Here, Output, constant_in, entry_of, located};
use c_applied::pass;
use c_cells::{StructKinds, add_left};
use c_declared::{Slots, slots_of};
use c_emission::Location;
use c_lower_values::slot_type;
use c_static::{StaticForm, is_object, spelled, static_form};
use c_syntax::tree::{Expr, Value, Values};
use std::alloc::AllocError;
use word24::Word;

// The address of a location at file scope.
fn address_in(place: Location) -> u32
    ensures { (l : location.Location) → IsLocation place l → IsNumber result (definition.address_in l) }
{
    match place {
        Location::Fixed(address) => address,
        Location::Framed(offset) => offset,
    }
}

// Whether a name stands for an object that has a number.
fn names_object(here: &Here<'_>, name: &[u8]) -> bool
    ensures { result ≡ names_object here.now name.now }
{
    is_object(here.declared.names.get(name)) && is_object(here.slots.get(name))
}

// The word of a name: the address of its object, or the first block of its function.
fn named_word(here: &Here<'_>, name: &[u8]) -> u32
    ensures { (out : _) (w : Linking) (env : Environment) → IsHere here.now out w env → IsNumber result (word_of w (static_named env name.now)) }
{
    if names_object(here, name) {
        address_in(located(here, name))
    } else {
        entry_of(here, name)
    }
}

// The word of a first value.
fn static_word(out: &mut Output<'_>, here: &Here<'_>, e: &Expr) -> Result<u32, AllocError>
    requires { HoldsSome out.old.types here.now.declared }
    ensures word { (w : Linking) (env : Environment) → IsAtFile here.now out.old w env → IsQuiet env.scope (expr_of e.now) → IfOk result (λ n. IsNumber n (word_of w (static_value env (expr_of e.now)))) }
    ensures emits { (w : Linking) (env : Environment) → IsAtFile here.now out.old w env → IsQuiet env.scope (expr_of e.now) → OnOk result (Emits out.old out.new [] (length (literals_in env.scope (expr_of e.now)))) }
    ensures keeps { OnOk result (Keeps out.old out.new) }
{
    match static_form(e) {
        StaticForm::Text(_text) => {
            let address = out.literals.first();
            let left = out.literals.behind();
            pass(out, left);
            Ok(address)
        }
        StaticForm::Null => Ok(0),
        StaticForm::Name(name) => Ok(named_word(here, name)),
        StaticForm::Constant => constant_in(out, here, e),
    }
}

// The words of a first value that is one expression, behind others.
fn add_one(
    out: &mut Output<'_>,
    here: &Here<'_>,
    ty: usize,
    e: &Expr,
    words: &mut Vec<Word>,
) -> Result<(), AllocError>
    requires holds { HoldsSome out.old.types here.now.declared }
    requires ty { IsType out.old.types ty }
    ensures words { (t : CType) (w : Linking) (env : Environment) → HasType out.old.types ty t → IsAtFile here.now out.old w env → IsQuiet env.scope (expr_of e.now) → OnOk result (AddsWords out.old out.new words.old.items words.new.items w (static_cells (tree.One (expr_of e.now)) t env) (literals_in env.scope (expr_of e.now))) }
    ensures keeps { OnOk result (Keeps out.old out.new) }
{
    let text = spelled(&out.types, here.declared.alloc, ty, e)?;
    match text {
        Some(bytes) => {
            add_bytes(bytes.as_slice(), words)?;
            let left = out.literals.behind();
            pass(out, left);
            Ok(())
        }
        None => {
            let number = static_word(out, here, e)?;
            add_number(number, words)
        }
    }
}

// The words that so many values of a braced list leave, which are 0, behind others.
fn add_rest(
    out: &Output<'_>,
    structs: &StructKinds,
    here: &Here<'_>,
    slots: Slots,
    from: usize,
    words: &mut Vec<Word>,
) -> Result<(), AllocError>
    requires { AreSomeSlots out.now.types here.now.declared.layouts.items slots }
    ensures { (s : plain.Slots) (tags : _) → AreSlots out.now.types here.now.declared.layouts.items slots s → AreStructKinds out.now.types structs.now tags → OnOk result (words.new.items ≡ words.old.items ++ words_from (replicate (length (slot_kinds tags (behind from s))) 0)) }
{
    let mut kinds = Vec::new(here.declared.alloc);
    let layouts = here.declared.layouts.as_slice();
    add_left(&out.types, layouts, structs, slots, from, &mut kinds)?;
    let count = kinds.len();
    add_zeros(count, words)
}

/// The words of a first value of an object of a type, behind others.
#[cycle(words)]
pub fn add_first_words(
    out: &mut Output<'_>,
    structs: &StructKinds,
    here: &Here<'_>,
    ty: usize,
    first: &Value,
    words: &mut Vec<Word>,
) -> Result<(), AllocError>
    requires holds { HoldsSome out.old.types here.now.declared }
    requires ty { IsType out.old.types ty }
    ensures words { (t : CType) (w : Linking) (env : Environment) → HasType out.old.types ty t → IsAtFile here.now out.old w env → AreStructKinds out.old.types structs.now env.scope.tags → IsQuietValue env.scope (value_of first.now) → OnOk result (AddsWords out.old out.new words.old.items words.new.items w (static_cells (value_of first.now) t env) (value_literals env.scope (value_of first.now))) }
    ensures keeps { OnOk result (Keeps out.old out.new) }
{
    match first {
        Value::One(e) => add_one(out, here, ty, e, words),
        Value::Many(values) => {
            let slots = slots_of(&out.types, here.declared.layouts.as_slice(), Some(ty));
            add_all(out, structs, here, slots, values, words)
        }
    }
}

// The words of the values of a braced list, and of what they leave, behind others.
#[cycle(words)]
fn add_all(
    out: &mut Output<'_>,
    structs: &StructKinds,
    here: &Here<'_>,
    slots: Slots,
    values: &Values,
    words: &mut Vec<Word>,
) -> Result<(), AllocError>
    requires holds { HoldsSome out.old.types here.now.declared }
    requires slots { AreSomeSlots out.old.types here.now.declared.layouts.items slots }
    ensures words { (s : plain.Slots) (w : Linking) (env : Environment) → AreSlots out.old.types here.now.declared.layouts.items slots s → IsAtFile here.now out.old w env → AreStructKinds out.old.types structs.now env.scope.tags → AreQuietValues env.scope (values_of values.now) → OnOk result (AddsWords out.old out.new words.old.items words.new.items w (all_static_cells (values_of values.now) s env) (values_literals env.scope (values_of values.now))) }
    ensures keeps { OnOk result (Keeps out.old out.new) }
{
    let count = values.items.len();
    for i in 0..count {
        let value = &values.items[i];
        let ty = slot_type(out, here, slots, i)?;
        add_first_words(out, structs, here, ty, value, words)?;
    }
    add_rest(out, structs, here, slots, count, words)
}
