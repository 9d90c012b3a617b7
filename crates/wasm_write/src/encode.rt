// What has a binary form.
ghost use Rattle.std.specs.Prelude.{◌≡◌, ◌+◌, ◌<◌, ◌^◌, ◌++◌, ℕ, List, length, replicate};
ghost use Rattle.std.specs.List.{flat_map};
ghost use Rattle.mach_core.specs.Puts.{Puts};
ghost use Rattle.wasm_write.specs.Leb.{number_bytes};
ghost use Rattle.wasm_write.specs.Written.{counted};

use crate::number::{number, number_size};
use mach_core::{Failed, Put, Sink};

/// What has a binary form.
pub trait Encode {
    /// The bytes of its form.
    ghost bytes: { Self → List ℕ };

    /// How many bytes it has.
    fn size(&self) -> u32
        requires { length (bytes self.now) < 2 ^ 32 }
        ensures { result ≡ length (bytes self.now) };

    /// Puts its bytes.
    fn put<O: Sink>(&self, put: &mut Put, out: &mut O) -> Result<(), Failed>
        requires { length (bytes self.now) < 2 ^ 32 }
        ensures { Puts (record { got = O.got out.old; faults = O.faults out.old; held = put.old })
            (record { got = O.got out.new; faults = O.faults out.new; held = put.new }) (bytes self.now) result };
}

/// How many bytes a row has behind its number.
pub fn counted_size(row: &[u8]) -> u32
    requires { length (counted row.now) < 2 ^ 32 }
    ensures { result ≡ length (counted row.now) }
{
    let len = row.len() as u32;
    number_size(len) + len
}

/// How many bytes these have, one after the other.
pub fn items_size<T: Encode>(items: &[T]) -> u32
    requires { length (flat_map T.bytes items.now) < 2 ^ 32 }
    ensures { result ≡ length (flat_map T.bytes items.now) }
{
    let mut size = 0;
    for item in items {
        size += item.size();
    }
    size
}

/// Puts the bytes of these, one after the other.
pub fn put_items<T: Encode, O: Sink>(items: &[T], put: &mut Put, out: &mut O) -> Result<(), Failed>
    requires { length (flat_map T.bytes items.now) < 2 ^ 32 }
    ensures { Puts (record { got = O.got out.old; faults = O.faults out.old; held = put.old })
        (record { got = O.got out.new; faults = O.faults out.new; held = put.new }) (flat_map T.bytes items.now) result }
{
    for item in items {
        item.put(put, out)?;
    }
    Ok(())
}

/// Puts the same byte so many times.
pub fn put_times<O: Sink>(count: u32, byte: u8, put: &mut Put, out: &mut O) -> Result<(), Failed>
    ensures { Puts (record { got = O.got out.old; faults = O.faults out.old; held = put.old })
        (record { got = O.got out.new; faults = O.faults out.new; held = put.new }) (replicate count byte) result }
{
    for _ in 0..count {
        put.pieces(&[&[byte]], out)?;
    }
    Ok(())
}

impl Encode for u32 {
    ghost use Rattle.wasm_write.specs.Leb.{number_bytes};

    ghost bytes = { number_bytes };

    fn size(&self) -> u32 {
        number_size(*self)
    }

    fn put<O: Sink>(&self, put: &mut Put, out: &mut O) -> Result<(), Failed> {
        put.pieces(&[number(*self).as_slice()], out)
    }
}
