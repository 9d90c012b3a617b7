// Types of expressions that are judged.

ghost use Rattle.std.specs.Prelude.{◌≡◌, ◌<◌, ◌^◌, IfOk, OnOk};
ghost use Rattle.c_types.specs.Types.{CType, Tags, decayed};
ghost use Rattle.c_types.specs.Refusals as refusals;
ghost use Rattle.c_types.specs.Operands as plain;
ghost use Rattle.c_eval.specs.Environment as environment;
ghost use Rattle.c_eval.specs.Environment.{operand_type};
ghost use Rattle.c_eval.specs.Operators.{element_words};
ghost use Rattle.c_types.specs.Table.{known, HasType};
ghost use Rattle.c_types.specs.Known.{Grows};
ghost use Rattle.c_layouts.specs.Layouts.{AreLayouts};
ghost use Rattle.c_operands.specs.Seen.{IsOperand, IsJudged};
ghost use Rattle.c_forms.specs.Forms.{IsSomeOperand};
ghost use Rattle.c_kinds.specs.Sides.{IsSide};

use c_kinds::{Side, side_of};
use c_layouts::Layout;
use c_operands::{Judged, Operand, pointee, used_type};
use c_types::{Shape, Types};
use std::alloc::AllocError;

/// The type of an expression, void where it is refused.
pub fn type_of(types: &mut Types<'_>, a: Judged<Operand>) -> Result<usize, AllocError>
    requires { IsSomeOperand types.old a }
    ensures ty { (p : refusals.Judged plain.Operand) → IsJudged (IsOperand types.old) a p → IfOk result (λ n. HasType types.new n (operand_type p)) }
    ensures grows { OnOk result (Grows (known types.old) (known types.new)) }
    ensures tags { OnOk result (types.new.tags ≡ types.old.tags) }
{
    match a {
        Ok(x) => Ok(x.ty),
        Err(_) => types.number(Shape::Void),
    }
}

/// The type with which its value is used.
pub fn value_type(types: &mut Types<'_>, a: Judged<Operand>) -> Result<usize, AllocError>
    requires { IsSomeOperand types.old a }
    ensures ty { (p : refusals.Judged plain.Operand) → IsJudged (IsOperand types.old) a p → IfOk result (λ n. HasType types.new n (decayed (operand_type p))) }
    ensures grows { OnOk result (Grows (known types.old) (known types.new)) }
    ensures tags { OnOk result (types.new.tags ≡ types.old.tags) }
{
    let ty = type_of(types, a)?;
    used_type(types, ty)
}

/// The type of what its value points to, void where it is no pointer.
pub fn pointed_type(types: &mut Types<'_>, a: Judged<Operand>) -> Result<usize, AllocError>
    requires { IsSomeOperand types.old a }
    ensures ty { (p : refusals.Judged plain.Operand) → IsJudged (IsOperand types.old) a p → IfOk result (λ n. HasType types.new n (environment.pointee (decayed (operand_type p)))) }
    ensures grows { OnOk result (Grows (known types.old) (known types.new)) }
    ensures tags { OnOk result (types.new.tags ≡ types.old.tags) }
{
    let ty = value_type(types, a)?;
    match pointee(types.shape(ty)) {
        Some(to) => Ok(to),
        None => types.number(Shape::Void),
    }
}

/// Its type as the side of an operator.
pub fn side(
    types: &mut Types<'_>,
    layouts: &[Layout<'_>],
    a: Judged<Operand>,
) -> Result<Side, AllocError>
    requires { IsSomeOperand types.old a }
    ensures side { (p : refusals.Judged plain.Operand) (tags : Tags) → IsJudged (IsOperand types.old) a p → AreLayouts types.old layouts.now tags → element_words tags (operand_type p) < 2 ^ 24 → IfOk result (λ s. IsSide tags s (operand_type p)) }
    ensures grows { OnOk result (Grows (known types.old) (known types.new)) }
    ensures tags { OnOk result (types.new.tags ≡ types.old.tags) }
{
    let ty = type_of(types, a)?;
    Ok(side_of(types, layouts, ty))
}

/// The type with which its value is used as the side of an operator.
pub fn value_side(
    types: &mut Types<'_>,
    layouts: &[Layout<'_>],
    a: Judged<Operand>,
) -> Result<Side, AllocError>
    requires { IsSomeOperand types.old a }
    ensures side { (p : refusals.Judged plain.Operand) (tags : Tags) → IsJudged (IsOperand types.old) a p → AreLayouts types.old layouts.now tags → element_words tags (decayed (operand_type p)) < 2 ^ 24 → IfOk result (λ s. IsSide tags s (decayed (operand_type p))) }
    ensures grows { OnOk result (Grows (known types.old) (known types.new)) }
    ensures tags { OnOk result (types.new.tags ≡ types.old.tags) }
{
    let ty = value_type(types, a)?;
    Ok(side_of(types, layouts, ty))
}
