//! The lines of operations.

ghost use Rattle.std.specs.Prelude.{◌≡◌, ◌++◌, ◌∷◌, [], codes};
ghost use Rattle.eir_print.specs.Printed.{comparison_name, register_name, operand_text, with_operand, with_two, with_three, op_line, text_of};
ghost use Rattle.mach_core.specs.Puts.{Puts};

use crate::words::{comparison_name, operand_text, register_name};
use eir_core::{Cond, Op, Operand, Reg};
use itoa::Buffer;
use mach_core::{Failed, Put, Sink};

// Puts the line of an operation on one operand.
fn put_one<O: Sink>(name: &[u8], v: Operand, put: &mut Put, out: &mut O) -> Result<(), Failed>
    ensures { Puts (record { got = O.got out.old; faults = O.faults out.old; held = put.old })
        (record { got = O.got out.new; faults = O.faults out.new; held = put.new })
        (text_of ((codes "\t" ++ with_operand name.now (operand_text v)) ∷ [])) result }
{
    let mut buffer = Buffer::new();
    let operand = operand_text(v, &mut buffer);
    put.pieces(&[b"\t", name, b" ", operand, b"\n"], out)
}

// Puts the line of an operation on a register and a value.
fn put_two<O: Sink>(
    name: &'static [u8],
    r: Reg,
    v: Operand,
    put: &mut Put,
    out: &mut O,
) -> Result<(), Failed>
    ensures { Puts (record { got = O.got out.old; faults = O.faults out.old; held = put.old })
        (record { got = O.got out.new; faults = O.faults out.new; held = put.new })
        (text_of ((codes "\t" ++ with_two name.now (register_name r) (operand_text v)) ∷ [])) result }
{
    let mut buffer = Buffer::new();
    let operand = operand_text(v, &mut buffer);
    let register = register_name(r);
    put.pieces(&[b"\t", name, b" ", register, b", ", operand, b"\n"], out)
}

// Puts the line of a jump that compares.
fn put_jump_if<O: Sink>(
    test: Cond,
    target: Operand,
    r: Reg,
    v: Operand,
    put: &mut Put,
    out: &mut O,
) -> Result<(), Failed>
    ensures { Puts (record { got = O.got out.old; faults = O.faults out.old; held = put.old })
        (record { got = O.got out.new; faults = O.faults out.new; held = put.new })
        (text_of ((codes "\t" ++ with_three (codes "j" ++ comparison_name test) (operand_text target) (register_name r) (operand_text v)) ∷ [])) result }
{
    let mut first = Buffer::new();
    let mut last = Buffer::new();
    let target = operand_text(target, &mut first);
    let operand = operand_text(v, &mut last);
    let name = comparison_name(test);
    let register = register_name(r);
    let pieces: [&[u8]; 9] = [
        b"\tj", name, b" ", target, b", ", register, b", ", operand, b"\n",
    ];
    put.pieces(&pieces, out)
}

/// Puts the line of an operation.
pub fn put_op<O: Sink>(op: Op, put: &mut Put, out: &mut O) -> Result<(), Failed>
    ensures { Puts (record { got = O.got out.old; faults = O.faults out.old; held = put.old })
        (record { got = O.got out.new; faults = O.faults out.new; held = put.new })
        (text_of (op_line op ∷ [])) result }
{
    match op {
        Op::Mov(r, v) => put_two(b"mov", r, v, put, out),
        Op::Add(r, v) => put_two(b"add", r, v, put, out),
        Op::Sub(r, v) => put_two(b"sub", r, v, put, out),
        Op::Load(r, v) => put_two(b"load", r, v, put, out),
        Op::Store(r, v) => put_two(b"store", r, v, put, out),
        Op::Putc(v) => put_one(b"putc", v, put, out),
        Op::Getc(r) => put_one(b"getc", Operand::Reg(r), put, out),
        Op::Exit => put.pieces(&[b"\texit\n"], out),
        Op::Set(test, r, v) => put_two(comparison_name(test), r, v, put, out),
        Op::Jump(target) => put_one(b"jmp", target, put, out),
        Op::JumpIf(test, target, r, v) => put_jump_if(test, target, r, v, put, out),
    }
}
