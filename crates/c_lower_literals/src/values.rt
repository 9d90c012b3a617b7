// The string literals of first values.

ghost use Rattle.std.specs.Prelude.{◌≡◌, OnOk};
ghost use Rattle.c_syntax.specs.View.{value_of, maybe_value};
ghost use Rattle.c_types.specs.Scope.{Scope};
ghost use Rattle.c_types.specs.Table.{Table};
ghost use Rattle.c_operands.specs.Scoped.{Fits};
ghost use Rattle.c_declarations.specs.Sites.{values_of};
ghost use Rattle.c_eval.specs.LiteralsIn as definition;
ghost use Rattle.c_lower_literals.specs.Gathered.{Adds};

use crate::expressions::expression_literals;
use c_operands::Declarations;
use c_syntax::tree::{Value, Values};
use std::alloc::AllocError;

// The texts of a first value's string literals, behind others.
#[cycle(values)]
fn value_literals<'t>(
    declared: &Declarations<'_>,
    value: &'t Value,
    texts: &mut Vec<&'t [u8]>,
) -> Result<(), AllocError>
    ensures { (table : Table) (s : Scope) → Fits table declared.now s → OnOk result (Adds texts.old.items texts.new.items (definition.value_literals s (value_of value.now))) }
{
    match value {
        Value::One(e) => expression_literals(declared, e, texts),
        Value::Many(values) => values_literals(declared, values, texts),
    }
}

// Those of the values of a braced list.
#[cycle(values)]
fn values_literals<'t>(
    declared: &Declarations<'_>,
    all: &'t Values,
    texts: &mut Vec<&'t [u8]>,
) -> Result<(), AllocError>
    ensures { (table : Table) (s : Scope) → Fits table declared.now s → OnOk result (Adds texts.old.items texts.new.items (definition.values_literals s (values_of all.now))) }
{
    for value in &all.items {
        value_literals(declared, value, texts)?;
    }
    Ok(())
}

/// The texts of the string literals of a first value that may be missing, behind others.
pub fn first_literals<'t>(
    declared: &Declarations<'_>,
    first: &'t Option<Value>,
    texts: &mut Vec<&'t [u8]>,
) -> Result<(), AllocError>
    ensures { (table : Table) (s : Scope) → Fits table declared.now s → OnOk result (Adds texts.old.items texts.new.items (definition.first_literals s (maybe_value first.now))) }
{
    match first {
        Some(value) => value_literals(declared, value, texts),
        None => Ok(()),
    }
}
