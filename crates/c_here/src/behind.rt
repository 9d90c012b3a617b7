// What operators do behind the code of their parts.

ghost use Rattle.std.specs.Prelude.{◌≡◌, [], OnOk};
ghost use Rattle.c_types.specs.Types.{Tags, decayed};
ghost use Rattle.c_types.specs.Refusals as refusals;
ghost use Rattle.c_types.specs.Operands as plain;
ghost use Rattle.c_eval.specs.Environment.{operand_type};
ghost use Rattle.c_types.specs.Table.{known};
ghost use Rattle.c_types.specs.Known.{Grows};
ghost use Rattle.c_layouts.specs.Layouts.{AreLayouts};
ghost use Rattle.c_operands.specs.Seen.{IsOperand, IsJudged};
ghost use Rattle.c_forms.specs.Forms.{IsSomeOperand};
ghost use Rattle.c_emitted.specs.Emits.{Emits};
ghost use Rattle.c_here.specs.Behind.{behind_one, behind_both, IsCountedBy};

use c_emitted::Emitter;
use c_layouts::Layout;
use c_operands::{Judged, Operand};
use c_pieces::{assigned, followed, updated};
use c_plain::{Instruction, Unary};
use c_syntax::tree::{BinOp, UnOp};
use c_types::Types;
use std::alloc::AllocError;

/// An operator on one side, behind the code of its operand.
pub fn one_behind(
    types: &mut Types<'_>,
    out: &mut Emitter<'_>,
    op: UnOp,
    a: Judged<Operand>,
) -> Result<(), AllocError>
    requires { IsSomeOperand types.old a }
    ensures emits { (p : refusals.Judged plain.Operand) → IsJudged (IsOperand types.old) a p → OnOk result (Emits out.old out.new (behind_one op (decayed (operand_type p))) []) }
    ensures grows { OnOk result (Grows (known types.old) (known types.new)) }
    ensures tags { OnOk result (types.new.tags ≡ types.old.tags) }
{
    match op {
        UnOp::Address => Ok(()),
        UnOp::Deref => followed(types, out, a),
        UnOp::Not => out.add(Instruction::Unary(Unary::Negate)),
        UnOp::Plus => out.add(Instruction::Unary(Unary::OneWord(UnOp::Plus))),
        UnOp::Minus => out.add(Instruction::Unary(Unary::OneWord(UnOp::Minus))),
        UnOp::Invert => out.add(Instruction::Unary(Unary::OneWord(UnOp::Invert))),
    }
}

/// An assignment, perhaps by an operator, behind the code of both sides.
pub fn sides_behind(
    types: &mut Types<'_>,
    layouts: &[Layout<'_>],
    out: &mut Emitter<'_>,
    op: Option<BinOp>,
    a: Judged<Operand>,
    b: Judged<Operand>,
) -> Result<(), AllocError>
    requires left { IsSomeOperand types.old a }
    requires right { IsSomeOperand types.old b }
    ensures emits { (p q : refusals.Judged plain.Operand) (tags : Tags) → IsJudged (IsOperand types.old) a p → IsJudged (IsOperand types.old) b q → AreLayouts types.old layouts.now tags → IsCountedBy tags op (operand_type p) (decayed (operand_type q)) → OnOk result (Emits out.old out.new (behind_both tags op (operand_type p) (decayed (operand_type q))) []) }
    ensures grows { OnOk result (Grows (known types.old) (known types.new)) }
    ensures tags { OnOk result (types.new.tags ≡ types.old.tags) }
{
    match op {
        None => assigned(types, out, a),
        Some(by) => updated(types, layouts, out, by, a, b),
    }
}
