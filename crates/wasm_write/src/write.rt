// Modules on their way to a sink.
ghost use Rattle.std.specs.Prelude.{◌≡◌, ◌≤◌, ◌<◌, ◌^◌, length, OnOk, OnErr};
ghost use Rattle.std.specs.Io.KnownBytes.{Appends};
ghost use Rattle.mach_core.specs.Outside.{HasCause};
ghost use Rattle.mach_core.specs.Put.{GotPrefix};
ghost use Rattle.mach_core.specs.Puts.{Puts};
ghost use Rattle.wasm_write.specs.Written.{declarations_bytes, definitions_bytes, module_bytes};
ghost use Rattle.wasm_bin.specs.Parts.{parts_of};

use crate::section::{put_memory_section, put_start_section, put_vector_section};
use mach_core::{Failed, Put, Sink};
use wasm_bin::Module;

/// `\0asm` and the version 1.
const HEADER: [u8; 8] = [0x00, 0x61, 0x73, 0x6D, 0x01, 0x00, 0x00, 0x00];

// Puts the sections 1, 2, 3 and 5.
fn put_declarations<O: Sink>(m: &Module, put: &mut Put, out: &mut O) -> Result<(), Failed>
    requires { length (declarations_bytes (parts_of m.now)) < 2 ^ 32 }
    ensures { Puts (record { got = O.got out.old; faults = O.faults out.old; held = put.old })
        (record { got = O.got out.new; faults = O.faults out.new; held = put.new }) (declarations_bytes (parts_of m.now)) result }
{
    put_vector_section(1, m.types.as_slice(), put, out)?;
    put_vector_section(2, m.imports.as_slice(), put, out)?;
    put_vector_section(3, m.funcs.as_slice(), put, out)?;
    put_memory_section(m.memory, put, out)
}

// Puts the sections 6, 7, 8, 10 and 11.
fn put_definitions<O: Sink>(m: &Module, put: &mut Put, out: &mut O) -> Result<(), Failed>
    requires { length (definitions_bytes (parts_of m.now)) < 2 ^ 32 }
    ensures { Puts (record { got = O.got out.old; faults = O.faults out.old; held = put.old })
        (record { got = O.got out.new; faults = O.faults out.new; held = put.new }) (definitions_bytes (parts_of m.now)) result }
{
    put_vector_section(6, m.globals.as_slice(), put, out)?;
    put_vector_section(7, m.exports.as_slice(), put, out)?;
    put_start_section(m.start, put, out)?;
    put_vector_section(10, m.bodies.as_slice(), put, out)?;
    put_vector_section(11, m.segments.as_slice(), put, out)
}

// Puts a whole module.
fn put_module<O: Sink>(m: &Module, put: &mut Put, out: &mut O) -> Result<(), Failed>
    requires { length (module_bytes m.now) < 2 ^ 32 }
    ensures { Puts (record { got = O.got out.old; faults = O.faults out.old; held = put.old })
        (record { got = O.got out.new; faults = O.faults out.new; held = put.new }) (module_bytes m.now) result }
{
    put.pieces(&[&HEADER], out)?;
    put_declarations(m, put, out)?;
    put_definitions(m, put, out)
}

/// Writes a module in its binary form: numbers in as few bytes as they take, locals in one run, and neither empty nor
/// custom sections. It takes no memory. The form of a module that some bytes spell is their shortest.
///
/// `Failed` comes only from out, which then got a prefix of the form.
pub fn write_module<O: Sink>(m: &Module, out: &mut O) -> Result<(), Failed>
    requires { length (module_bytes m.now) ≤ 2 ^ 29 }
    ensures bytes { OnOk result (Appends (O.got out.old) (O.got out.new) (module_bytes m.now)) }
    ensures prefix { OnErr result (GotPrefix (O.got out.old) (O.got out.new) (module_bytes m.now)) }
    ensures cause { HasCause (O.faults out.old) (O.faults out.new) result }
{
    let mut put = Put::new();
    put_module(m, &mut put, out)?;
    put.flush(out)
}
