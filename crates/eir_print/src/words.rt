//! The words of a text.

ghost use Rattle.std.specs.Prelude.{◌≡◌};
ghost use Rattle.eir_print.specs.Printed.{register_name, operand_text, comparison_name, start_lines, text_of};

use eir_core::{Cond, Operand, Reg};
use itoa::Buffer;

pub fn register_name(r: Reg) -> &'static [u8]
    ensures { result.now ≡ register_name r }
{
    match r {
        Reg::A => b"A",
        Reg::B => b"B",
        Reg::C => b"C",
        Reg::D => b"D",
        Reg::SP => b"SP",
        Reg::BP => b"BP",
    }
}

pub fn comparison_name(test: Cond) -> &'static [u8]
    ensures { result.now ≡ comparison_name test }
{
    match test {
        Cond::Eq => b"eq",
        Cond::Ne => b"ne",
        Cond::Lt => b"lt",
        Cond::Gt => b"gt",
        Cond::Le => b"le",
        Cond::Ge => b"ge",
    }
}

/// The text of an operand; a number's stands in the buffer.
pub fn operand_text(v: Operand, buffer: &mut Buffer) -> &[u8]
    ensures { result.now ≡ operand_text v }
{
    match v {
        Operand::Reg(r) => register_name(r),
        Operand::Imm(word) => buffer.format(word.get()).as_bytes(),
    }
}

/// The line of the label `main`, if the block of this number comes first.
pub fn start_label(start: u32, k: u32) -> &'static [u8]
    ensures { result.now ≡ text_of (start_lines start k) }
{
    if k == start { b"main:\n" } else { b"" }
}
