// New objects.

ghost use Rattle.std.specs.Prelude.{◌≡◌, ◌≤◌, ◌+◌, ◌-◌, take, vec_len, OnOk, OnErr};
ghost use Rattle.c_store.specs.Live.{IsAdded};

use crate::live::Live;
use crate::value::Cell;
use std::alloc::AllocError;

/// So many of the last cells become an object, which gets the next number. An error drops them.
#[inline(always)]
pub fn add_object(
    objects: &mut Vec<Live>,
    cells: &mut Vec<Cell>,
    next: &mut u64,
    length: u32,
) -> Result<(), AllocError>
    requires { length ≤ vec_len cells.old }
    ensures objects { OnOk result (IsAdded objects.old.items objects.new.items next.old (vec_len cells.old - length) length) }
    ensures next { OnOk result (next.new ≡ next.old + 1) }
    ensures cells { OnOk result (cells.new.items ≡ cells.old.items) }
    ensures err_objects { OnErr result (objects.new.items ≡ objects.old.items) }
    ensures err_next { OnErr result (next.new ≡ next.old) }
    ensures err_cells { OnErr result (cells.new.items ≡ take (vec_len cells.old - length) cells.old.items) }
{
    let number = *next;
    let first = cells.len() - length as usize;
    if number < u64::MAX {
        let object = Live {
            number,
            first,
            length,
        };
        if objects.push(object).is_ok() {
            *next = number + 1;
            return Ok(());
        }
    }
    cells.truncate(first);
    Err(AllocError)
}
