// Copies of first values.

ghost use Rattle.std.specs.Prelude.{◌≡◌, map, IfOk};
ghost use Rattle.c_syntax.specs.Plain as plain;
ghost use Rattle.c_syntax.specs.View.{value_of, maybe_value};

use crate::copies::copied;
use c_syntax::tree::{Value, Values};
use std::alloc::{AllocError, Global};

// A braced list.
fn many(items: Vec<Value>) -> Value
    ensures { value_of result ≡ plain.Many (plain.values (map value_of items.items)) }
{
    Value::Many(Values { items })
}

// A copy of a first value.
#[cycle(copied_value)]
fn copied_value(alloc: Global, value: &Value) -> Result<Value, AllocError>
    ensures { IfOk result (λ r. value_of r ≡ value_of value.now) }
{
    match value {
        Value::One(e) => {
            let copy = copied(alloc, e)?;
            Ok(Value::One(copy))
        }
        Value::Many(all) => {
            let copies = copied_values(alloc, all)?;
            Ok(many(copies))
        }
    }
}

// The values of a braced list.
#[cycle(copied_value)]
fn copied_values(alloc: Global, all: &Values) -> Result<Vec<Value>, AllocError>
    ensures { IfOk result (λ r. map value_of r.items ≡ map value_of all.now.items.items) }
{
    let mut copies = Vec::new(alloc);
    for value in &all.items {
        let copy = copied_value(alloc, value)?;
        copies.push(copy)?;
    }
    Ok(copies)
}

/// A copy of a first value, if there is one.
pub fn copied_first(alloc: Global, first: &Option<Value>) -> Result<Option<Value>, AllocError>
    ensures { IfOk result (λ r. maybe_value r ≡ maybe_value first.now) }
{
    match first {
        Some(value) => {
            let copy = copied_value(alloc, value)?;
            Ok(Some(copy))
        }
        None => Ok(None),
    }
}
