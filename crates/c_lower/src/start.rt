// The opening call of `main`.

ghost use Rattle.std.specs.Prelude.{ℕ, OnOk};
ghost use Rattle.c_lowered.specs.Whole.{opening_code};
ghost use Rattle.c_counted.specs.Numbers.{IsNumber};
ghost use Rattle.c_addressing.specs.Here.{Emits};

use c_addressing::{Output, jump, operation};
use c_emission::constant;
use eir_core::{Op, Operand, Reg};
use std::alloc::AllocError;

/// The opening call of `main`, whose first block this is: its frame begins at an address, and it returns to the end of the
/// run.
pub fn opening(out: &mut Output<'_>, base: u32, main: u32) -> Result<(), AllocError>
    ensures { (a k : ℕ) → IsNumber base a → IsNumber main k → OnOk result (Emits out.old out.new (opening_code a k) 0) }
{
    operation(out, Op::Mov(Reg::BP, constant(base)))?;
    operation(out, Op::Mov(Reg::A, constant(1)))?;
    operation(out, Op::Store(Reg::A, Operand::Reg(Reg::BP)))?;
    jump(out, main)?;
    operation(out, Op::Exit)?;
    jump(out, 0)
}
