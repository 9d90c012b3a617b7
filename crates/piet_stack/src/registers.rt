// Registers, values and comparisons.
#![tactic(auto, using(crate::proofs::Codes::codes))]

ghost use Rattle.std.specs.Prelude.{◌≡◌, ◌<◌, ◌≤◌, ◌++◌, ◌∷◌, OnOk};
ghost use Rattle.eir_core.specs.declared.ops.Operand.TheVariants.{Reg as register};
ghost use Rattle.piet_stack.specs.Code.{reg_index as reg_index_of, value_code, put_reg_code, flag_code};

use crate::number::{put, put_number, put_pick, put_put};
use eir_core::{Cond, Operand, Reg};
use piet_lane::Command;
use std::alloc::AllocError;

/// How many registers lie above this one.
pub fn reg_index(r: Reg) -> u32
    ensures index { result ≡ reg_index_of r }
    ensures few { result ≤ 5 }
{
    match r {
        Reg::A => 0,
        Reg::B => 1,
        Reg::C => 2,
        Reg::D => 3,
        Reg::SP => 4,
        Reg::BP => 5,
    }
}

/// Pushes the word of an operand, with so many values above the number of pairs.
pub fn put_value(code: &mut Vec<Command>, above: u32, v: Operand) -> Result<(), AllocError>
    requires { above < 10 }
    ensures { OnOk result (code.new.items ≡ code.old.items ++ value_code above v) }
{
    match v {
        Operand::Reg(r) => put_pick(code, above + 1 + reg_index(r)),
        Operand::Imm(w) => put_number(code, w.get()),
    }
}

/// Takes the one value above the number of pairs, and puts it into a register.
pub fn put_reg(code: &mut Vec<Command>, r: Reg) -> Result<(), AllocError>
    ensures { OnOk result (code.new.items ≡ code.old.items ++ put_reg_code r) }
{
    put_put(code, 1 + reg_index(r))
}

// Pushes two values.
fn put_two(code: &mut Vec<Command>, x: Operand, y: Operand) -> Result<(), AllocError>
    ensures { OnOk result (code.new.items ≡ code.old.items ++ (value_code 0 x ++ value_code 1 y)) }
{
    put_value(code, 0, x)?;
    put_value(code, 1, y)
}

/// Pushes 1 where the comparison of a register with a value holds, else 0.
pub fn put_flag(code: &mut Vec<Command>, test: Cond, r: Reg, v: Operand) -> Result<(), AllocError>
    ensures { OnOk result (code.new.items ≡ code.old.items ++ flag_code test r v) }
{
    let x = Operand::Reg(r);
    match test {
        Cond::Eq => {
            put_two(code, x, v)?;
            code.extend_from_slice(&[Command::Subtract, Command::Not])
        }
        Cond::Ne => {
            put_two(code, x, v)?;
            code.extend_from_slice(&[Command::Subtract, Command::Not, Command::Not])
        }
        Cond::Gt => {
            put_two(code, x, v)?;
            put(code, Command::Greater)
        }
        Cond::Le => {
            put_two(code, x, v)?;
            code.extend_from_slice(&[Command::Greater, Command::Not])
        }
        Cond::Lt => {
            put_two(code, v, x)?;
            put(code, Command::Greater)
        }
        Cond::Ge => {
            put_two(code, v, x)?;
            code.extend_from_slice(&[Command::Greater, Command::Not])
        }
    }
}
