// How many jumps the code of a first value has.

ghost use Rattle.c_syntax.specs.View.{value_of, maybe_value};
ghost use Rattle.c_lowered.specs.Counts.{first_jumps, firsts_jumps, maybe_first_jumps};
ghost use Rattle.c_counted.specs.Numbers.{IsNumber};
ghost use Rattle.c_counted.specs.Rows.{values_of};

use crate::expressions::jumps_of;
use crate::numbers::plus;
use c_syntax::tree::{Value, Values};

/// Those of a first value.
#[cycle(values)]
pub fn first_jumps_of(value: &Value) -> u32
    ensures { IsNumber result (first_jumps (value_of value.now)) }
{
    match value {
        Value::One(e) => jumps_of(e),
        Value::Many(values) => firsts_jumps_of(values),
    }
}

// Those of a braced list.
#[cycle(values)]
fn firsts_jumps_of(all: &Values) -> u32
    ensures { IsNumber result (firsts_jumps (values_of all.now)) }
{
    let mut sum = 0;
    for value in &all.items {
        sum = plus(sum, first_jumps_of(value));
    }
    sum
}

/// Those of a first value that may be missing.
pub fn maybe_first_jumps_of(first: &Option<Value>) -> u32
    ensures { IsNumber result (maybe_first_jumps (maybe_value first.now)) }
{
    match first {
        Some(value) => first_jumps_of(value),
        None => 0,
    }
}
