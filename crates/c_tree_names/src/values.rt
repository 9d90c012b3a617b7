// The names in first values.

ghost use Rattle.std.specs.Prelude.{OnOk};
ghost use Rattle.c_syntax.specs.View.{value_of, maybe_value};
ghost use Rattle.c_helpers.specs.Names.{value_names, values_names, first_names};
ghost use Rattle.c_tree_names.specs.Added.{Added};
ghost use Rattle.c_tree_names.specs.Rows.{values_of};

use crate::expressions::add_expression;
use c_syntax::tree::{Value, Values};
use std::alloc::AllocError;

// The names in a first value, behind others.
#[cycle(values)]
fn add_value<'t>(names: &mut Vec<&'t [u8]>, value: &'t Value) -> Result<(), AllocError>
    ensures { OnOk result (Added names.old.items names.new.items (value_names (value_of value.now))) }
{
    match value {
        Value::One(e) => add_expression(names, e),
        Value::Many(all) => add_values(names, all),
    }
}

// Those in the values of a braced list.
#[cycle(values)]
fn add_values<'t>(names: &mut Vec<&'t [u8]>, all: &'t Values) -> Result<(), AllocError>
    ensures { OnOk result (Added names.old.items names.new.items (values_names (values_of all.now))) }
{
    for value in &all.items {
        add_value(names, value)?;
    }
    Ok(())
}

/// The names in a first value that may be missing, behind others.
pub fn add_first<'t>(names: &mut Vec<&'t [u8]>, first: &'t Option<Value>) -> Result<(), AllocError>
    ensures { OnOk result (Added names.old.items names.new.items (first_names (maybe_value first.now))) }
{
    match first {
        Some(value) => add_value(names, value),
        None => Ok(()),
    }
}
