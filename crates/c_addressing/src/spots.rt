// Places that are known, and values that need no evaluation.

ghost use Rattle.std.specs.Prelude.{◌≡◌, ℕ, [], length, IfOk, OnOk, Option, Some, option_map, option_and_then};
ghost use Rattle.c_syntax.specs.Plain as tree;
ghost use Rattle.c_syntax.specs.View.{expr_of};
ghost use Rattle.c_types.specs.Scope.{Scope};
ghost use Rattle.c_types.specs.Expressions.{names_function};
ghost use Rattle.c_eval.specs.Environment.{Environment, type_in, constant_in};
ghost use Rattle.c_eval.specs.LiteralsIn.{literals_in};
ghost use Rattle.c_declared.specs.Held.{Holds, HoldsSome};
ghost use Rattle.c_lowered.specs.Locations as plain;
ghost use Rattle.c_lowered.specs.Locations.{Linking};
ghost use Rattle.c_addressing.specs.Here.{IsHere, Emits, IsBehind, IsSpot, IsKnown};
ghost use Rattle.c_addressing.specs.Places.{IsDirectOrNone};

use crate::here::{Here, Literals, Output};
use crate::locations::{address_of, held, opposite, shifted};
use crate::names::{located, named};
use crate::typed::{class_in, constant_in, offset_in};
use c_emission::{Direct, Location};
use c_expressions::is_function_name;
use c_syntax::tree::{Expr, Form, UnOp};
use std::alloc::AllocError;

/// A place that is known, and the literals behind its expression.
#[derive(Clone, Copy)]
pub struct Spot<'t> {
    pub place: Location,
    pub literals: Literals<'t>,
}

/// A value that needs no evaluation, and the literals behind its expression.
#[derive(Clone, Copy)]
pub struct Known<'t> {
    pub value: Direct,
    pub literals: Literals<'t>,
}

/// The place that an expression is, if it is known.
#[cycle(places)]
pub fn known_place<'t>(
    out: &mut Output<'t>,
    here: &Here<'_>,
    e: &Expr,
) -> Result<Option<Spot<'t>>, AllocError>
    requires { HoldsSome out.old.types here.now.declared }
    ensures place { (w : Linking) (env : Environment) → IsHere here.now out.old w env → IfOk result (λ r. IsSpot out.old.literals (length (literals_in env.scope (expr_of e.now))) r (plain.known_place (expr_of e.now) w env)) }
    ensures still { OnOk result (Emits out.old out.new [] 0) }
{
    match &e.form {
        Form::Str(_text) => Ok(Some(Spot {
            place: Location::Fixed(out.literals.first()),
            literals: out.literals.behind(),
        })),
        Form::Name(name) => Ok(Some(Spot {
            place: located(here, name.as_bytes()),
            literals: out.literals,
        })),
        Form::Member(a, m) => member_place(out, here, e.pos, a, m.as_bytes()),
        Form::Number(_value, _unsigned) => Ok(None),
        Form::Null => Ok(None),
        Form::Unary(_op, _a) => Ok(None),
        Form::Step(_op, _a) => Ok(None),
        Form::Binary(_op, _a, _b) => Ok(None),
        Form::Assign(_op, _a, _b) => Ok(None),
        Form::Cond(_a, _b, _c) => Ok(None),
        Form::Comma(_a, _b) => Ok(None),
        Form::Cast(_t, _a) => Ok(None),
        Form::SizeTy(_t) => Ok(None),
        Form::SizeOf(_a) => Ok(None),
        Form::Index(_a, _b) => Ok(None),
        Form::Call(_f, _es) => Ok(None),
        Form::Arrow(_a, _m) => Ok(None),
    }
}

// The place of a member of a place that is known.
#[cycle(places)]
fn member_place<'t>(
    out: &mut Output<'t>,
    here: &Here<'_>,
    at: u32,
    a: &Expr,
    m: &[u8],
) -> Result<Option<Spot<'t>>, AllocError>
    requires { HoldsSome out.old.types here.now.declared }
    ensures place { (w : Linking) (env : Environment) → IsHere here.now out.old w env → IfOk result (λ r. IsSpot out.old.literals (length (literals_in env.scope (expr_of a.now))) r (plain.known_place (tree.Member at (expr_of a.now) m.now) w env)) }
    ensures still { OnOk result (Emits out.old out.new [] 0) }
{
    let spot = known_place(out, here, a)?;
    match spot {
        Some(found) => {
            let words = offset_in(out, here, a, m)?;
            Ok(Some(Spot {
                place: shifted(found.place, words.low().get()),
                literals: found.literals,
            }))
        }
        None => Ok(None),
    }
}

// What a known place is worth, by the type of its expression.
fn place_value<'t>(
    out: &mut Output<'t>,
    here: &Here<'_>,
    e: &Expr,
    spot: Option<Spot<'t>>,
) -> Result<Option<Known<'t>>, AllocError>
    requires { HoldsSome out.old.types here.now.declared }
    ensures value { (s : Scope) (l : Literals) (count : ℕ) (p : Option plain.Location) → Holds out.old.types here.now.declared s → IsSpot l count spot.entry p → IfOk result (λ r. IsKnown l count r (option_and_then (λ q. plain.held (type_in s (expr_of e.now)) q) p)) }
    ensures still { OnOk result (Emits out.old out.new [] 0) }
{
    let class = class_in(out, here, e)?;
    match spot {
        Some(found) => Ok(with_literals(held(class, found.place), found.literals)),
        None => Ok(None),
    }
}

// A value, if there is one, and the literals behind it.
fn with_literals<'t>(value: Option<Direct>, literals: Literals<'t>) -> Option<Known<'t>>
    ensures { (l : Literals) (count : ℕ) (d : Option plain.Direct) → IsDirectOrNone value d → IsBehind l literals.entry count → IsKnown l count result d }
{
    match value {
        Some(value) => Some(Known { value, literals }),
        None => None,
    }
}

// The address of a known place.
fn spot_address<'t>(spot: Option<Spot<'t>>) -> Option<Known<'t>>
    ensures { (l : Literals) (count : ℕ) (p : Option plain.Location) → IsSpot l count spot.entry p → IsKnown l count result (option_map plain.address_of p) }
{
    match spot {
        Some(found) => Some(Known {
            value: address_of(found.place),
            literals: found.literals,
        }),
        None => None,
    }
}

// 0 less a known word.
fn negated<'t>(value: Option<Known<'t>>) -> Option<Known<'t>>
    ensures { (l : Literals) (count : ℕ) (d : Option plain.Direct) → IsKnown l count value.entry d → IsKnown l count result (option_and_then plain.negated d) }
{
    match value {
        Some(found) => match found.value {
            Direct::Exactly(word) => Some(Known {
                value: Direct::Exactly(opposite(word)),
                literals: found.literals,
            }),
            Direct::Address(_offset) => None,
            Direct::Stored(_place) => None,
        },
        None => None,
    }
}

// The word that a constant expression is, which has no literals.
fn constant<'t>(
    out: &mut Output<'t>,
    here: &Here<'_>,
    e: &Expr,
) -> Result<Option<Known<'t>>, AllocError>
    requires { HoldsSome out.old.types here.now.declared }
    ensures value { (s : Scope) → Holds out.old.types here.now.declared s → IfOk result (λ r. IsKnown out.old.literals 0 r (Some (plain.Exactly (constant_in s (expr_of e.now))))) }
    ensures still { OnOk result (Emits out.old out.new [] 0) }
{
    let literals = out.literals;
    let word = constant_in(out, here, e)?;
    Ok(Some(Known {
        value: Direct::Exactly(word),
        literals,
    }))
}

/// An expression's value, if it needs no evaluation.
#[cycle(values)]
pub fn direct<'t>(
    out: &mut Output<'t>,
    here: &Here<'_>,
    e: &Expr,
) -> Result<Option<Known<'t>>, AllocError>
    requires { HoldsSome out.old.types here.now.declared }
    ensures value { (w : Linking) (env : Environment) → IsHere here.now out.old w env → IfOk result (λ r. IsKnown out.old.literals (length (literals_in env.scope (expr_of e.now))) r (plain.direct (expr_of e.now) w env)) }
    ensures still { OnOk result (Emits out.old out.new [] 0) }
{
    match &e.form {
        Form::Number(value, _unsigned) => Ok(Some(Known {
            value: Direct::Exactly(*value),
            literals: out.literals,
        })),
        Form::Str(_text) => Ok(Some(Known {
            value: Direct::Exactly(out.literals.first()),
            literals: out.literals.behind(),
        })),
        Form::Null => Ok(Some(Known {
            value: Direct::Exactly(0),
            literals: out.literals,
        })),
        Form::Name(name) => Ok(with_literals(named(out, here, name.as_bytes()), out.literals)),
        Form::Unary(op, a) => unary_direct(out, here, e.pos, *op, a),
        Form::Cast(_t, a) => direct(out, here, a),
        Form::SizeTy(_t) => constant(out, here, e),
        Form::SizeOf(_a) => constant(out, here, e),
        Form::Member(_a, _m) => {
            let spot = known_place(out, here, e)?;
            let value = place_value(out, here, e, spot)?;
            Ok(value)
        }
        Form::Step(_op, _a) => Ok(None),
        Form::Binary(_op, _a, _b) => Ok(None),
        Form::Assign(_op, _a, _b) => Ok(None),
        Form::Cond(_a, _b, _c) => Ok(None),
        Form::Comma(_a, _b) => Ok(None),
        Form::Index(_a, _b) => Ok(None),
        Form::Call(_f, _es) => Ok(None),
        Form::Arrow(_a, _m) => Ok(None),
    }
}

// The value of an operator on one side, if it needs no evaluation.
#[cycle(values)]
fn unary_direct<'t>(
    out: &mut Output<'t>,
    here: &Here<'_>,
    at: u32,
    op: UnOp,
    a: &Expr,
) -> Result<Option<Known<'t>>, AllocError>
    requires { HoldsSome out.old.types here.now.declared }
    ensures value { (w : Linking) (env : Environment) → IsHere here.now out.old w env → IfOk result (λ r. IsKnown out.old.literals (length (literals_in env.scope (expr_of a.now))) r (plain.direct (tree.Unary at op (expr_of a.now)) w env)) }
    ensures still { OnOk result (Emits out.old out.new [] 0) }
{
    match op {
        UnOp::Address => address_direct(out, here, a),
        UnOp::Minus => {
            let value = direct(out, here, a)?;
            Ok(negated(value))
        }
        UnOp::Deref => Ok(None),
        UnOp::Plus => Ok(None),
        UnOp::Invert => Ok(None),
        UnOp::Not => Ok(None),
    }
}

// The address of what an expression names, if it needs no evaluation.
#[cycle(values)]
fn address_direct<'t>(
    out: &mut Output<'t>,
    here: &Here<'_>,
    a: &Expr,
) -> Result<Option<Known<'t>>, AllocError>
    requires { HoldsSome out.old.types here.now.declared }
    ensures value { (w : Linking) (env : Environment) → IsHere here.now out.old w env → IfOk result (λ r. IsKnown out.old.literals (length (literals_in env.scope (expr_of a.now))) r (plain.address_direct (names_function env.scope (expr_of a.now)) (plain.direct (expr_of a.now) w env) (plain.known_place (expr_of a.now) w env))) }
    ensures still { OnOk result (Emits out.old out.new [] 0) }
{
    if is_function_name(&out.types, &here.declared, a) {
        direct(out, here, a)
    } else {
        let spot = known_place(out, here, a)?;
        Ok(spot_address(spot))
    }
}
