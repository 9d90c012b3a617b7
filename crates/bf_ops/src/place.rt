// Where registers and operands stand.

ghost use Rattle.std.specs.Prelude.{◌≡◌, ◌+◌, ◌*◌, ◌^◌, ◌<◌, ◌≤◌, OnOk, OnErr};
ghost use Rattle.bf_tape.specs.Piece.{joined, Adds};
ghost use Rattle.bf_word.specs.Word.{with_word};
ghost use Rattle.bf_ops.specs.OpsCode.{bring_code, bring_cell};
ghost use Rattle.bf_ops.specs.Frame.{cell_of, value_in, bring_most, IsAside, IsVacant};

use bf_tape::Frag;
use bf_word::{dup_word, set};
use eir_core::{Operand, Reg};
use std::alloc::AllocError;

/// The first cell of a register's counter.
pub fn cell_of(reg: Reg) -> u32
    ensures cell { result ≡ cell_of reg }
    ensures low { 50 ≤ result }
    ensures high { result ≤ 100 }
{
    match reg {
        Reg::A => 100,
        Reg::B => 90,
        Reg::C => 80,
        Reg::D => 70,
        Reg::SP => 60,
        Reg::BP => 50,
    }
}

/// The operand's word in three cells beside the registers', which are 0.
pub(crate) fn bring(f: &mut Frag, operand: Operand, to: u32) -> Result<(), AllocError>
    requires aside { IsAside to }
    requires high { to < 172 }
    ensures code { OnOk result (f.new ≡ joined f.old (bring_code f.old.cell operand to) (bring_cell operand to)) }
    ensures effect { OnOk result (Adds f.old f.new (IsVacant to) (λ input s. with_word s to (value_in s operand)) (bring_most operand) (3 * 2 ^ 11)) }
    ensures err { OnErr result (f.new ≡ f.old) }
{
    match operand {
        Operand::Reg(reg) => {
            let cell = cell_of(reg);
            dup_word(f, cell, to, cell + 3)
        }
        Operand::Imm(word) => set(f, to, word),
    }
}
