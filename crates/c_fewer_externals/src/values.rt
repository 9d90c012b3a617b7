// First values at file scope.

ghost use Rattle.std.specs.Prelude.{◌≡◌, ℕ, map, option_map, IfOk, OnOk};
ghost use Rattle.c_syntax.specs.Plain as plain;
ghost use Rattle.c_syntax.specs.Plain.{CExpr};
ghost use Rattle.c_syntax.specs.View.{expr_of, value_of, maybe_value};
ghost use Rattle.c_types.specs.Scope.{Scope};
ghost use Rattle.c_types.specs.Table.{known};
ghost use Rattle.c_types.specs.Known.{Grows};
ghost use Rattle.c_helpers.specs.Fewer as fewer;
ghost use Rattle.c_helpers.specs.Fewer.{with_values, with_all_values};
ghost use Rattle.c_fewer_operators.specs.Here.{Stands, StandsSome};
ghost use Rattle.c_fewer_declarations.specs.Trees.{values_of};
ghost use Rattle.c_fewer_externals.specs.Static as fixed;

use c_copied_terms::copied;
use c_fewer_declarations::many;
use c_fewer_operators::Here;
use c_fewer_trees::constant_tree;
use c_syntax::tree::{Expr, Form, UnOp, Value, Values};
use c_types::Types;
use std::alloc::AllocError;

// Whether an operator on one side is the address of its operand.
fn is_address(op: UnOp) -> bool
    ensures { (at : ℕ) (a : CExpr) → result ≡ fixed.stays (plain.Unary at op a) }
{
    match op {
        UnOp::Address => true,
        _ => false,
    }
}

// Whether an expression stays as it is at file scope.
fn stays(e: &Expr) -> bool
    ensures { result ≡ fixed.stays (expr_of e.now) }
{
    match &e.form {
        Form::Str(_text) => true,
        Form::Null => true,
        Form::Name(_name) => true,
        Form::Unary(op, _of) => is_address(*op),
        _ => false,
    }
}

// An expression at file scope.
fn static_tree(types: &mut Types<'_>, here: &Here<'_>, e: &Expr) -> Result<Expr, AllocError>
    requires { StandsSome types.old here.now }
    ensures tree { (s : Scope) → Stands types.old here.now s → IfOk result (λ r. expr_of r ≡ fewer.static_tree s (expr_of e.now)) }
    ensures grows { OnOk result (Grows (known types.old) (known types.new)) }
    ensures tags { OnOk result (types.new.tags ≡ types.old.tags) }
{
    if stays(e) {
        copied(here.declared.alloc, e)
    } else {
        let made = constant_tree(types, here, e)?;
        Ok(made.tree)
    }
}

// A first value at file scope.
#[cycle(static_value)]
fn static_value(types: &mut Types<'_>, here: &Here<'_>, value: &Value) -> Result<Value, AllocError>
    requires { StandsSome types.old here.now }
    ensures tree { (s : Scope) → Stands types.old here.now s → IfOk result (λ r. value_of r ≡ with_values (fewer.static_tree s) (value_of value.now)) }
    ensures grows { OnOk result (Grows (known types.old) (known types.new)) }
    ensures tags { OnOk result (types.new.tags ≡ types.old.tags) }
{
    match value {
        Value::One(e) => {
            let tree = static_tree(types, here, e)?;
            Ok(Value::One(tree))
        }
        Value::Many(all) => {
            let trees = static_values(types, here, all)?;
            Ok(many(trees))
        }
    }
}

// The values of a braced list.
#[cycle(static_value)]
fn static_values(
    types: &mut Types<'_>,
    here: &Here<'_>,
    all: &Values,
) -> Result<Vec<Value>, AllocError>
    requires { StandsSome types.old here.now }
    ensures trees { (s : Scope) → Stands types.old here.now s → IfOk result (λ r. plain.values (map value_of r.items) ≡ with_all_values (fewer.static_tree s) (values_of all.now)) }
    ensures grows { OnOk result (Grows (known types.old) (known types.new)) }
    ensures tags { OnOk result (types.new.tags ≡ types.old.tags) }
{
    let mut trees = Vec::new(here.declared.alloc);
    for value in &all.items {
        let tree = static_value(types, here, value)?;
        trees.push(tree)?;
    }
    Ok(trees)
}

/// The first value of an object of file scope, if there is one.
pub fn static_first(
    types: &mut Types<'_>,
    here: &Here<'_>,
    first: &Option<Value>,
) -> Result<Option<Value>, AllocError>
    requires { StandsSome types.old here.now }
    ensures tree { (s : Scope) → Stands types.old here.now s → IfOk result (λ r. maybe_value r ≡ option_map (with_values (fewer.static_tree s)) (maybe_value first.now)) }
    ensures grows { OnOk result (Grows (known types.old) (known types.new)) }
    ensures tags { OnOk result (types.new.tags ≡ types.old.tags) }
{
    match first {
        Some(value) => {
            let tree = static_value(types, here, value)?;
            Ok(Some(tree))
        }
        None => Ok(None),
    }
}
