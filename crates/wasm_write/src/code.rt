// The code of functions.
ghost use Rattle.std.specs.Prelude.{◌≡◌, ◌<◌, ◌^◌, ◌++◌, length};
ghost use Rattle.std.specs.List.{flat_map};
ghost use Rattle.mach_core.specs.Puts.{Puts};
ghost use Rattle.wasm_bin.specs.Opcode.{coded};
ghost use Rattle.wasm_bin.specs.Parts.{function_of};
ghost use Rattle.wasm_write.specs.Leb.{number_bytes};
ghost use Rattle.wasm_write.specs.Written.{block_type_byte, vector_bytes, operands_bytes, locals_bytes, instruction_bytes};

use crate::encode::{Encode, items_size, put_items};
use crate::number::{integer, integer_size, number, number_size};
use mach_core::{Failed, Put, Sink};
use wasm_bin::{Body, Instr};

// The opcode of an instruction.
fn opcode(instr: &Instr) -> u8
    ensures { result ≡ (coded instr.now).0 }
{
    match instr {
        Instr::Unreachable => 0x00,
        Instr::Nop => 0x01,
        Instr::Block(_) => 0x02,
        Instr::Loop(_) => 0x03,
        Instr::If(_) => 0x04,
        Instr::Else => 0x05,
        Instr::End => 0x0B,
        Instr::Br(_) => 0x0C,
        Instr::BrIf(_) => 0x0D,
        Instr::BrTable(_, _) => 0x0E,
        Instr::Return => 0x0F,
        Instr::Call(_) => 0x10,
        Instr::Drop => 0x1A,
        Instr::Select => 0x1B,
        Instr::LocalGet(_) => 0x20,
        Instr::LocalSet(_) => 0x21,
        Instr::LocalTee(_) => 0x22,
        Instr::GlobalGet(_) => 0x23,
        Instr::GlobalSet(_) => 0x24,
        Instr::Load(_) => 0x28,
        Instr::Load8S(_) => 0x2C,
        Instr::Load8U(_) => 0x2D,
        Instr::Load16S(_) => 0x2E,
        Instr::Load16U(_) => 0x2F,
        Instr::Store(_) => 0x36,
        Instr::Store8(_) => 0x3A,
        Instr::Store16(_) => 0x3B,
        Instr::MemorySize => 0x3F,
        Instr::MemoryGrow => 0x40,
        Instr::Const(_) => 0x41,
        Instr::Eqz => 0x45,
        Instr::Eq => 0x46,
        Instr::Ne => 0x47,
        Instr::LtS => 0x48,
        Instr::LtU => 0x49,
        Instr::GtS => 0x4A,
        Instr::GtU => 0x4B,
        Instr::LeS => 0x4C,
        Instr::LeU => 0x4D,
        Instr::GeS => 0x4E,
        Instr::GeU => 0x4F,
        Instr::Clz => 0x67,
        Instr::Ctz => 0x68,
        Instr::Popcnt => 0x69,
        Instr::Add => 0x6A,
        Instr::Sub => 0x6B,
        Instr::Mul => 0x6C,
        Instr::DivS => 0x6D,
        Instr::DivU => 0x6E,
        Instr::RemS => 0x6F,
        Instr::RemU => 0x70,
        Instr::And => 0x71,
        Instr::Or => 0x72,
        Instr::Xor => 0x73,
        Instr::Shl => 0x74,
        Instr::ShrS => 0x75,
        Instr::ShrU => 0x76,
        Instr::Rotl => 0x77,
        Instr::Rotr => 0x78,
    }
}

// The byte of a block's type.
fn block_type(gives: bool) -> u8
    ensures { result ≡ block_type_byte gives }
{
    if gives { 0x7F } else { 0x40 }
}

// How many bytes a table of labels has.
fn table_size(labels: &[u32], label: u32) -> u32
    requires { length (vector_bytes number_bytes labels.now ++ number_bytes label) < 2 ^ 32 }
    ensures { result ≡ length (vector_bytes number_bytes labels.now ++ number_bytes label) }
{
    let count = labels.len() as u32;
    number_size(count) + items_size(labels) + number_size(label)
}

// Puts a table of labels.
fn put_table<O: Sink>(labels: &[u32], label: u32, put: &mut Put, out: &mut O) -> Result<(), Failed>
    requires { length (vector_bytes number_bytes labels.now ++ number_bytes label) < 2 ^ 32 }
    ensures { Puts (record { got = O.got out.old; faults = O.faults out.old; held = put.old })
        (record { got = O.got out.new; faults = O.faults out.new; held = put.new }) (vector_bytes number_bytes labels.now ++ number_bytes label) result }
{
    let count = labels.len() as u32;
    put.pieces(&[number(count).as_slice()], out)?;
    put_items(labels, put, out)?;
    label.put(put, out)
}

// How many bytes the operands of an instruction have.
fn operands_size(instr: &Instr) -> u32
    requires { length (operands_bytes (coded instr.now).1) < 2 ^ 32 }
    ensures { result ≡ length (operands_bytes (coded instr.now).1) }
{
    match instr {
        Instr::Block(_) | Instr::Loop(_) | Instr::If(_) => 1,
        Instr::Br(n)
        | Instr::BrIf(n)
        | Instr::Call(n)
        | Instr::LocalGet(n)
        | Instr::LocalSet(n)
        | Instr::LocalTee(n)
        | Instr::GlobalGet(n)
        | Instr::GlobalSet(n) => number_size(*n),
        Instr::BrTable(labels, label) => table_size(labels.as_slice(), *label),
        Instr::Load(m)
        | Instr::Load8S(m)
        | Instr::Load8U(m)
        | Instr::Load16S(m)
        | Instr::Load16U(m)
        | Instr::Store(m)
        | Instr::Store8(m)
        | Instr::Store16(m) => number_size(m.align) + number_size(m.offset),
        Instr::MemorySize | Instr::MemoryGrow => 1,
        Instr::Const(z) => integer_size(*z),
        _ => 0,
    }
}

// Puts the operands of an instruction.
fn put_operands<O: Sink>(instr: &Instr, put: &mut Put, out: &mut O) -> Result<(), Failed>
    requires { length (operands_bytes (coded instr.now).1) < 2 ^ 32 }
    ensures { Puts (record { got = O.got out.old; faults = O.faults out.old; held = put.old })
        (record { got = O.got out.new; faults = O.faults out.new; held = put.new }) (operands_bytes (coded instr.now).1) result }
{
    match instr {
        Instr::Block(gives) | Instr::Loop(gives) | Instr::If(gives) => {
            put.pieces(&[&[block_type(*gives)]], out)
        }
        Instr::Br(n)
        | Instr::BrIf(n)
        | Instr::Call(n)
        | Instr::LocalGet(n)
        | Instr::LocalSet(n)
        | Instr::LocalTee(n)
        | Instr::GlobalGet(n)
        | Instr::GlobalSet(n) => n.put(put, out),
        Instr::BrTable(labels, label) => put_table(labels.as_slice(), *label, put, out),
        Instr::Load(m)
        | Instr::Load8S(m)
        | Instr::Load8U(m)
        | Instr::Load16S(m)
        | Instr::Load16U(m)
        | Instr::Store(m)
        | Instr::Store8(m)
        | Instr::Store16(m) => {
            let align = number(m.align);
            let offset = number(m.offset);
            put.pieces(&[align.as_slice(), offset.as_slice()], out)
        }
        Instr::MemorySize | Instr::MemoryGrow => put.pieces(&[&[0x00]], out),
        Instr::Const(z) => put.pieces(&[integer(*z).as_slice()], out),
        _ => Ok(()),
    }
}

impl Encode for Instr {
    ghost use Rattle.wasm_bin.specs.Opcode.{coded};
    ghost use Rattle.wasm_write.specs.Written.{instruction_bytes};

    ghost bytes = { λ i. instruction_bytes (coded i) };

    fn size(&self) -> u32 {
        1 + operands_size(self)
    }

    fn put<O: Sink>(&self, put: &mut Put, out: &mut O) -> Result<(), Failed> {
        put.pieces(&[&[opcode(self)]], out)?;
        put_operands(self, put, out)
    }
}

// How many bytes so many locals have.
fn locals_size(count: u32) -> u32
    ensures { result ≡ length (locals_bytes count) }
{
    if count == 0 {
        1
    } else {
        2 + number_size(count)
    }
}

// Puts so many locals.
fn put_locals<O: Sink>(count: u32, put: &mut Put, out: &mut O) -> Result<(), Failed>
    ensures { Puts (record { got = O.got out.old; faults = O.faults out.old; held = put.old })
        (record { got = O.got out.new; faults = O.faults out.new; held = put.new }) (locals_bytes count) result }
{
    if count == 0 {
        put.pieces(&[&[0x00]], out)
    } else {
        put.pieces(&[&[0x01], number(count).as_slice(), &[0x7F]], out)
    }
}

// How many bytes the locals and the instructions of a function have.
fn function_size(body: &Body) -> u32
    requires { length (locals_bytes body.now.locals ++ flat_map instruction_bytes (function_of body.now).instructions) < 2 ^ 32 }
    ensures { result ≡ length (locals_bytes body.now.locals ++ flat_map instruction_bytes (function_of body.now).instructions) }
{
    locals_size(body.locals) + items_size(body.code.as_slice())
}

impl Encode for Body {
    ghost use Rattle.wasm_bin.specs.Parts.{function_of};
    ghost use Rattle.wasm_write.specs.Written.{body_bytes};

    ghost bytes = { λ b. body_bytes (function_of b) };

    fn size(&self) -> u32 {
        let size = function_size(self);
        number_size(size) + size
    }

    fn put<O: Sink>(&self, put: &mut Put, out: &mut O) -> Result<(), Failed> {
        put.pieces(&[number(function_size(self)).as_slice()], out)?;
        put_locals(self.locals, put, out)?;
        put_items(self.code.as_slice(), put, out)
    }
}
