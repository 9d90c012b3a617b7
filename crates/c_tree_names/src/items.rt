// The names in externals.

ghost use Rattle.std.specs.Prelude.{map, OnOk};
ghost use Rattle.c_syntax.specs.View.{item_of, maybe_stmt};
ghost use Rattle.c_helpers.specs.Fewer.{names_in_bodies, names_at_file_scope};
ghost use Rattle.c_tree_names.specs.Added.{Added};
ghost use Rattle.c_tree_names.specs.Items.{names_of_body, names_in_body, names_of_object};

use crate::statements::add_statement;
use crate::values::add_first;
use c_syntax::tree::{Item, Stmt};
use std::alloc::AllocError;

// The names in a body that may be missing, behind others.
fn add_maybe_body<'t>(names: &mut Vec<&'t [u8]>, body: &'t Option<Stmt>) -> Result<(), AllocError>
    ensures { OnOk result (Added names.old.items names.new.items (names_of_body (maybe_stmt body.now))) }
{
    match body {
        Some(there) => add_statement(names, there),
        None => Ok(()),
    }
}

/// The names in the body of an external, behind others.
pub fn add_body<'t>(names: &mut Vec<&'t [u8]>, item: &'t Item) -> Result<(), AllocError>
    ensures { OnOk result (Added names.old.items names.new.items (names_in_body (item_of item.now))) }
{
    match item {
        Item::Struct(_tag) => Ok(()),
        Item::Object(_d) => Ok(()),
        Item::Function { body, .. } => add_maybe_body(names, body),
    }
}

/// The names in the bodies of externals, behind others.
pub fn add_bodies<'t>(names: &mut Vec<&'t [u8]>, items: &'t [Item]) -> Result<(), AllocError>
    ensures { OnOk result (Added names.old.items names.new.items (names_in_bodies (map item_of items.now))) }
{
    for item in items {
        add_body(names, item)?;
    }
    Ok(())
}

// Those in the first value of an external.
fn add_object<'t>(names: &mut Vec<&'t [u8]>, item: &'t Item) -> Result<(), AllocError>
    ensures { OnOk result (Added names.old.items names.new.items (names_of_object (item_of item.now))) }
{
    match item {
        Item::Struct(_tag) => Ok(()),
        Item::Object(d) => add_first(names, &d.first),
        Item::Function { .. } => Ok(()),
    }
}

/// Those in first values at file scope.
pub fn add_first_values<'t>(names: &mut Vec<&'t [u8]>, items: &'t [Item]) -> Result<(), AllocError>
    ensures { OnOk result (Added names.old.items names.new.items (names_at_file_scope (map item_of items.now))) }
{
    for item in items {
        add_object(names, item)?;
    }
    Ok(())
}
