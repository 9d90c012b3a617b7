// The sections of a module.
ghost use Rattle.std.specs.Prelude.{◌≡◌, ◌<◌, ◌^◌, length};
ghost use Rattle.mach_core.specs.Puts.{Puts};
ghost use Rattle.wasm_write.specs.Written.{range_bytes, vector_section, memory_section, start_section};

use crate::encode::{Encode, items_size, put_items};
use crate::number::{number, number_size};
use mach_core::{Failed, Put, Sink};
use wasm_bin::Limits;

/// Puts the section of this number, where it has a value.
pub fn put_vector_section<T: Encode, O: Sink>(
    id: u8,
    items: &[T],
    put: &mut Put,
    out: &mut O,
) -> Result<(), Failed>
    requires count { length items.now < 2 ^ 32 }
    requires size { length (vector_section id T.bytes items.now) < 2 ^ 32 }
    ensures { Puts (record { got = O.got out.old; faults = O.faults out.old; held = put.old })
        (record { got = O.got out.new; faults = O.faults out.new; held = put.new }) (vector_section id T.bytes items.now) result }
{
    if items.is_empty() {
        return Ok(());
    }
    let count = number(items.len() as u32);
    let size = number(count.len() as u32 + items_size(items));
    put.pieces(&[&[id], size.as_slice(), count.as_slice()], out)?;
    put_items(items, put, out)
}

// How many bytes the size of a memory has.
fn limits_size(limits: Limits) -> u32
    ensures { result ≡ length (range_bytes limits.min limits.max) }
{
    match limits.max {
        None => 1 + number_size(limits.min),
        Some(max) => 1 + number_size(limits.min) + number_size(max),
    }
}

// Puts the size of a memory.
fn put_limits<O: Sink>(limits: Limits, put: &mut Put, out: &mut O) -> Result<(), Failed>
    ensures { Puts (record { got = O.got out.old; faults = O.faults out.old; held = put.old })
        (record { got = O.got out.new; faults = O.faults out.new; held = put.new }) (range_bytes limits.min limits.max) result }
{
    let min = number(limits.min);
    match limits.max {
        None => put.pieces(&[&[0x00], min.as_slice()], out),
        Some(max) => {
            let max = number(max);
            put.pieces(&[&[0x01], min.as_slice(), max.as_slice()], out)
        }
    }
}

/// Puts section 5, where there is a memory.
pub fn put_memory_section<O: Sink>(
    memory: Option<Limits>,
    put: &mut Put,
    out: &mut O,
) -> Result<(), Failed>
    ensures { Puts (record { got = O.got out.old; faults = O.faults out.old; held = put.old })
        (record { got = O.got out.new; faults = O.faults out.new; held = put.new }) (memory_section memory) result }
{
    let Some(limits) = memory else {
        return Ok(());
    };
    let size = number(1 + limits_size(limits));
    put.pieces(&[&[5], size.as_slice(), &[1]], out)?;
    put_limits(limits, put, out)
}

/// Puts section 8, where a function runs first.
pub fn put_start_section<O: Sink>(
    start: Option<u32>,
    put: &mut Put,
    out: &mut O,
) -> Result<(), Failed>
    ensures { Puts (record { got = O.got out.old; faults = O.faults out.old; held = put.old })
        (record { got = O.got out.new; faults = O.faults out.new; held = put.new }) (start_section start) result }
{
    let Some(func) = start else {
        return Ok(());
    };
    let func = number(func);
    let size = number(func.len() as u32);
    put.pieces(&[&[8], size.as_slice(), func.as_slice()], out)
}
