// Objects of file scope among the others.

ghost use Rattle.std.specs.Prelude.{◌≡◌, ◌∷◌, ◌++◌, length, replicate, IfOk, OnOk};
ghost use Rattle.c_store.specs.declared.value.Cell.TheVariants.{Unset};
ghost use Rattle.c_objects.specs.Made.{AddsFile, SetsLast};

use c_emitted::{Emitter, File, number_of};
use c_store::Cell;
use std::alloc::{AllocError, Global};

// So many unset cells.
fn unset_cells(alloc: Global, count: u32) -> Result<Vec<Cell>, AllocError>
    ensures { IfOk result (λ v. v.items ≡ replicate count Unset) }
{
    let mut cells = Vec::new(alloc);
    for _index in 0..count {
        cells.push(Cell::Unset)?;
    }
    Ok(cells)
}

/// An object of file scope more, of so many cells, which are unset yet.
pub fn add_file<'t>(out: &mut Emitter<'t>, name: &'t [u8], count: u32) -> Result<(), AllocError>
    ensures { OnOk result (AddsFile out.old out.new name.entry count) }
{
    let object = number_of(out.objects.len())?;
    let cells = unset_cells(out.alloc, count)?;
    out.objects.push(cells)?;
    out.files.insert(
        name,
        File {
            object,
            length: count,
        },
    )?;
    Ok(())
}

/// The last object has these cells.
pub fn set_last(out: &mut Emitter<'_>, cells: Vec<Cell>) -> Result<(), AllocError>
    ensures { OnOk result (SetsLast out.old out.new cells.items) }
{
    out.objects.pop();
    out.objects.push(cells)?;
    Ok(())
}
