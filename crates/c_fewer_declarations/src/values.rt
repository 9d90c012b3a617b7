// First values.

ghost use Rattle.std.specs.Prelude.{◌≡◌, map, option_map, IfOk, OnOk};
ghost use Rattle.c_syntax.specs.Plain as plain;
ghost use Rattle.c_syntax.specs.View.{value_of, maybe_value};
ghost use Rattle.c_types.specs.Scope.{Scope};
ghost use Rattle.c_types.specs.Table.{known};
ghost use Rattle.c_types.specs.Known.{Grows};
ghost use Rattle.c_helpers.specs.Fewer.{fewer, with_values, with_all_values};
ghost use Rattle.c_fewer_operators.specs.Here.{Stands, StandsSome};
ghost use Rattle.c_fewer_declarations.specs.Trees.{values_of};

use c_fewer_expressions::fewer;
use c_fewer_operators::Here;
use c_syntax::tree::{Value, Values};
use c_types::Types;
use std::alloc::AllocError;

/// A braced list.
pub fn many(items: Vec<Value>) -> Value
    ensures { value_of result ≡ plain.Many (plain.values (map value_of items.items)) }
{
    Value::Many(Values { items })
}

/// A first value inside a function.
#[cycle(fewer_in_value)]
pub fn fewer_in_value(
    types: &mut Types<'_>,
    here: &Here<'_>,
    value: &Value,
) -> Result<Value, AllocError>
    requires { StandsSome types.old here.now }
    ensures tree { (s : Scope) → Stands types.old here.now s → IfOk result (λ r. value_of r ≡ with_values (fewer s) (value_of value.now)) }
    ensures grows { OnOk result (Grows (known types.old) (known types.new)) }
    ensures tags { OnOk result (types.new.tags ≡ types.old.tags) }
{
    match value {
        Value::One(e) => {
            let made = fewer(types, here, e)?;
            Ok(Value::One(made.tree))
        }
        Value::Many(all) => {
            let trees = fewer_in_values(types, here, all)?;
            Ok(many(trees))
        }
    }
}

// The values of a braced list.
#[cycle(fewer_in_value)]
fn fewer_in_values(
    types: &mut Types<'_>,
    here: &Here<'_>,
    all: &Values,
) -> Result<Vec<Value>, AllocError>
    requires { StandsSome types.old here.now }
    ensures trees { (s : Scope) → Stands types.old here.now s → IfOk result (λ r. plain.values (map value_of r.items) ≡ with_all_values (fewer s) (values_of all.now)) }
    ensures grows { OnOk result (Grows (known types.old) (known types.new)) }
    ensures tags { OnOk result (types.new.tags ≡ types.old.tags) }
{
    let mut trees = Vec::new(here.declared.alloc);
    for value in &all.items {
        let tree = fewer_in_value(types, here, value)?;
        trees.push(tree)?;
    }
    Ok(trees)
}

/// A first value, if there is one.
pub fn fewer_in_first(
    types: &mut Types<'_>,
    here: &Here<'_>,
    first: &Option<Value>,
) -> Result<Option<Value>, AllocError>
    requires { StandsSome types.old here.now }
    ensures tree { (s : Scope) → Stands types.old here.now s → IfOk result (λ r. maybe_value r ≡ option_map (with_values (fewer s)) (maybe_value first.now)) }
    ensures grows { OnOk result (Grows (known types.old) (known types.new)) }
    ensures tags { OnOk result (types.new.tags ≡ types.old.tags) }
{
    match first {
        Some(value) => {
            let tree = fewer_in_value(types, here, value)?;
            Ok(Some(tree))
        }
        None => Ok(None),
    }
}
