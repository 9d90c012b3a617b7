// Operations.

ghost use Rattle.std.specs.Prelude.{◌≡◌, OnOk, OnErr};
ghost use Rattle.bf_tape.specs.Piece.{joined};
ghost use Rattle.bf_ops.specs.OpsCode.{operation_code, operation_cell};
ghost use Rattle.bf_ops.specs.Perform.{Performs};

use crate::arithmetic::{add, mov, sub};
use crate::telling::set_if;
use crate::transfer::{getc, load, putc, store};
use bf_tape::Frag;
use eir_core::Op;
use std::alloc::AllocError;

/// An operation's effect on the registers, the memory, the input and the output, up to what it asks of the memory, which `serve`
/// does. Where the program goes is no part of it, so for a jump or an exit nothing comes.
pub fn perform(f: &mut Frag, op: Op) -> Result<(), AllocError>
    ensures code { OnOk result (f.new ≡ joined f.old (operation_code f.old.cell op) (operation_cell f.old.cell op)) }
    ensures effect { OnOk result (Performs f.old f.new op) }
    ensures err { OnErr result (f.new ≡ f.old) }
{
    match op {
        Op::Mov(reg, operand) => mov(f, reg, operand),
        Op::Add(reg, operand) => add(f, reg, operand),
        Op::Sub(reg, operand) => sub(f, reg, operand),
        Op::Load(reg, operand) => load(f, reg, operand),
        Op::Store(reg, operand) => store(f, reg, operand),
        Op::Putc(operand) => putc(f, operand),
        Op::Getc(reg) => getc(f, reg),
        Op::Set(test, reg, operand) => set_if(f, test, reg, operand),
        Op::Exit => Ok(()),
        Op::Jump(_) => Ok(()),
        Op::JumpIf(_, _, _, _) => Ok(()),
    }
}
