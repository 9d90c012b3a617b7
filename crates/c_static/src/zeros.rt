// Cells that are 0 or null.

ghost use Rattle.std.specs.Prelude.{◌≡◌, ◌++◌, map, OnOk};
ghost use Rattle.c_resolved.specs.Same.{kind_in};
ghost use Rattle.c_eval.specs.Text.{zero_cells};
ghost use Rattle.c_store.specs.Shown.{value_of};
ghost use Rattle.c_static.specs.Cells.{AddsShown};
ghost use Rattle.c_plain.specs.Rule.{zero_of};

use c_store::{Cell, Kind, Value};
use std::alloc::AllocError;
use word24::Word;

// 0, or null.
fn zero_of(kind: Kind) -> Value
    ensures { value_of result ≡ zero_of kind }
{
    match kind {
        Kind::Number => Value::Word(Word::wrap(0)),
        Kind::ObjectPointer | Kind::FunctionPointer => Value::Null,
    }
}

/// Cells of these kinds that are 0 or null, behind others.
pub fn add_zeros(kinds: &[Kind], cells: &mut Vec<Cell>) -> Result<(), AllocError>
    ensures { OnOk result (AddsShown cells.old.items cells.new.items (zero_cells (map kind_in kinds.now))) }
{
    for kind in kinds {
        cells.push(Cell::Holds(zero_of(*kind)))?;
    }
    Ok(())
}
