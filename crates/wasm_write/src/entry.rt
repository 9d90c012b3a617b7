// The entries of the sections but code.
ghost use Rattle.std.specs.Prelude.{◌≡◌, ◌<◌, ◌^◌, ◌++◌, length};
ghost use Rattle.mach_core.specs.Puts.{Puts};
ghost use Rattle.wasm_write.specs.Written.{value_types_bytes, flag_byte};

use crate::encode::{Encode, counted_size, put_times};
use crate::number::{integer, integer_size, number, number_size};
use mach_core::{Failed, Put, Sink};
use wasm_bin::{Export, FuncType, GlobalVar, Import, Segment};

// How many bytes so many types of values have.
fn value_types_size(count: u32) -> u32
    requires { length (value_types_bytes count) < 2 ^ 32 }
    ensures { result ≡ length (value_types_bytes count) }
{
    number_size(count) + count
}

// Puts so many types of values.
fn put_value_types<O: Sink>(count: u32, put: &mut Put, out: &mut O) -> Result<(), Failed>
    ensures { Puts (record { got = O.got out.old; faults = O.faults out.old; held = put.old })
        (record { got = O.got out.new; faults = O.faults out.new; held = put.new }) (value_types_bytes count) result }
{
    put.pieces(&[number(count).as_slice()], out)?;
    put_times(count, 0x7F, put, out)
}

impl Encode for FuncType {
    ghost use Rattle.wasm_write.specs.Written.{func_type_bytes};

    ghost bytes = { func_type_bytes };

    fn size(&self) -> u32 {
        1 + value_types_size(self.params) + value_types_size(self.results)
    }

    fn put<O: Sink>(&self, put: &mut Put, out: &mut O) -> Result<(), Failed> {
        put.pieces(&[&[0x60]], out)?;
        put_value_types(self.params, put, out)?;
        put_value_types(self.results, put, out)
    }
}

impl Encode for Import {
    ghost use Rattle.wasm_bin.specs.Parts.{foreign};
    ghost use Rattle.wasm_write.specs.Written.{import_bytes};

    ghost bytes = { λ i. import_bytes (foreign i) };

    fn size(&self) -> u32 {
        counted_size(self.module.as_slice())
            + counted_size(self.name.as_slice())
            + 1
            + number_size(self.kind)
    }

    fn put<O: Sink>(&self, put: &mut Put, out: &mut O) -> Result<(), Failed> {
        let module = self.module.as_slice();
        let name = self.name.as_slice();
        let module_len = number(module.len() as u32);
        let name_len = number(name.len() as u32);
        let kind = number(self.kind);
        let pieces: [&[u8]; 6] = [
            module_len.as_slice(),
            module,
            name_len.as_slice(),
            name,
            &[0x00],
            kind.as_slice(),
        ];
        put.pieces(&pieces, out)
    }
}

// The byte of a flag.
fn flag(is_set: bool) -> u8
    ensures { result ≡ flag_byte is_set }
{
    if is_set { 0x01 } else { 0x00 }
}

impl Encode for GlobalVar {
    ghost use Rattle.wasm_write.specs.Written.{global_bytes};

    ghost bytes = { global_bytes };

    fn size(&self) -> u32 {
        4 + integer_size(self.first)
    }

    fn put<O: Sink>(&self, put: &mut Put, out: &mut O) -> Result<(), Failed> {
        let first = integer(self.first);
        let pieces: [&[u8]; 3] = [&[0x7F, flag(self.mutable), 0x41], first.as_slice(), &[0x0B]];
        put.pieces(&pieces, out)
    }
}

impl Encode for Export {
    ghost use Rattle.wasm_bin.specs.Parts.{shown};
    ghost use Rattle.wasm_write.specs.Written.{export_bytes};

    ghost bytes = { λ e. export_bytes (shown e) };

    fn size(&self) -> u32 {
        counted_size(self.name.as_slice()) + 1 + number_size(self.index)
    }

    fn put<O: Sink>(&self, put: &mut Put, out: &mut O) -> Result<(), Failed> {
        let name = self.name.as_slice();
        let name_len = number(name.len() as u32);
        let index = number(self.index);
        let pieces: [&[u8]; 4] = [name_len.as_slice(), name, &[self.sort], index.as_slice()];
        put.pieces(&pieces, out)
    }
}

impl Encode for Segment {
    ghost use Rattle.wasm_bin.specs.Parts.{stretch};
    ghost use Rattle.wasm_write.specs.Written.{segment_bytes};

    ghost bytes = { λ s. segment_bytes (stretch s) };

    fn size(&self) -> u32 {
        3 + integer_size(self.offset) + counted_size(self.bytes.as_slice())
    }

    fn put<O: Sink>(&self, put: &mut Put, out: &mut O) -> Result<(), Failed> {
        let bytes = self.bytes.as_slice();
        let bytes_len = number(bytes.len() as u32);
        let offset = integer(self.offset);
        let pieces: [&[u8]; 5] = [
            &[0x00, 0x41],
            offset.as_slice(),
            &[0x0B],
            bytes_len.as_slice(),
            bytes,
        ];
        put.pieces(&pieces, out)
    }
}
