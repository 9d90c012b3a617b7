// Instructions by judged parts.

ghost use Rattle.std.specs.Prelude.{◌≡◌, ◌∷◌, [], OnOk};
ghost use Rattle.c_types.specs.Types.{Tags, Int, decayed};
ghost use Rattle.c_types.specs.Refusals as refusals;
ghost use Rattle.c_types.specs.Operands as plain;
ghost use Rattle.c_eval.specs.Environment.{operand_type};
ghost use Rattle.c_eval.specs.Eval.{step_op};
ghost use Rattle.c_code.specs.Code as code;
ghost use Rattle.c_types.specs.Table.{known};
ghost use Rattle.c_types.specs.Known.{Grows};
ghost use Rattle.c_layouts.specs.Layouts.{AreLayouts};
ghost use Rattle.c_operands.specs.Seen.{IsOperand, IsJudged};
ghost use Rattle.c_forms.specs.Forms.{IsSomeOperand};
ghost use Rattle.c_emitted.specs.Emits.{Emits};
ghost use Rattle.c_pieces.specs.Counted.{AreCounted};
ghost use Rattle.c_syntax.specs.declared.tree.BinOp as tree;
ghost use Rattle.c_resolved.specs.Means.{gives_old};

use crate::types::{side, type_of, value_side, value_type};
use c_emitted::Emitter;
use c_kinds::{Side, fetch, follow, kind, operation};
use c_layouts::Layout;
use c_operands::{Class, Judged, Operand};
use c_plain::{Instruction, Step, Unary};
use c_syntax::tree::{BinOp, StepOp};
use c_types::Types;
use std::alloc::AllocError;

/// A place becomes its value.
pub fn fetched(
    types: &mut Types<'_>,
    out: &mut Emitter<'_>,
    a: Judged<Operand>,
) -> Result<(), AllocError>
    requires { IsSomeOperand types.old a }
    ensures emits { (p : refusals.Judged plain.Operand) → IsJudged (IsOperand types.old) a p → OnOk result (Emits out.old out.new (code.Fetch (operand_type p) ∷ []) []) }
    ensures grows { OnOk result (Grows (known types.old) (known types.new)) }
    ensures tags { OnOk result (types.new.tags ≡ types.old.tags) }
{
    let ty = type_of(types, a)?;
    out.add(Instruction::Unary(Unary::Fetch(fetch(types, ty))))
}

/// A pointer becomes the value of what it points to.
pub fn followed(
    types: &mut Types<'_>,
    out: &mut Emitter<'_>,
    a: Judged<Operand>,
) -> Result<(), AllocError>
    requires { IsSomeOperand types.old a }
    ensures emits { (p : refusals.Judged plain.Operand) → IsJudged (IsOperand types.old) a p → OnOk result (Emits out.old out.new (code.Follow (decayed (operand_type p)) ∷ []) []) }
    ensures grows { OnOk result (Grows (known types.old) (known types.new)) }
    ensures tags { OnOk result (types.new.tags ≡ types.old.tags) }
{
    let ty = value_type(types, a)?;
    out.add(Instruction::Unary(Unary::Fetch(follow(types, ty))))
}

/// A value converts to the type of an expression.
pub fn converted(
    types: &mut Types<'_>,
    out: &mut Emitter<'_>,
    a: Judged<Operand>,
) -> Result<(), AllocError>
    requires { IsSomeOperand types.old a }
    ensures emits { (p : refusals.Judged plain.Operand) → IsJudged (IsOperand types.old) a p → OnOk result (Emits out.old out.new (code.Convert (operand_type p) ∷ []) []) }
    ensures grows { OnOk result (Grows (known types.old) (known types.new)) }
    ensures tags { OnOk result (types.new.tags ≡ types.old.tags) }
{
    let ty = type_of(types, a)?;
    out.add(Instruction::Unary(Unary::Convert(kind(types, ty))))
}

/// A value is written to a place.
pub fn assigned(
    types: &mut Types<'_>,
    out: &mut Emitter<'_>,
    a: Judged<Operand>,
) -> Result<(), AllocError>
    requires { IsSomeOperand types.old a }
    ensures emits { (p : refusals.Judged plain.Operand) → IsJudged (IsOperand types.old) a p → OnOk result (Emits out.old out.new (code.Assign (operand_type p) ∷ []) []) }
    ensures grows { OnOk result (Grows (known types.old) (known types.new)) }
    ensures tags { OnOk result (types.new.tags ≡ types.old.tags) }
{
    let ty = type_of(types, a)?;
    out.add(Instruction::Assign(kind(types, ty)))
}

/// Two values become what an operator gives.
pub fn operated(
    types: &mut Types<'_>,
    layouts: &[Layout<'_>],
    out: &mut Emitter<'_>,
    op: BinOp,
    a: Judged<Operand>,
    b: Judged<Operand>,
) -> Result<(), AllocError>
    requires left { IsSomeOperand types.old a }
    requires right { IsSomeOperand types.old b }
    ensures emits { (p q : refusals.Judged plain.Operand) (tags : Tags) → IsJudged (IsOperand types.old) a p → IsJudged (IsOperand types.old) b q → AreLayouts types.old layouts.now tags → AreCounted tags op (decayed (operand_type p)) (decayed (operand_type q)) → OnOk result (Emits out.old out.new (code.Operate tags op (decayed (operand_type p)) (decayed (operand_type q)) ∷ []) []) }
    ensures grows { OnOk result (Grows (known types.old) (known types.new)) }
    ensures tags { OnOk result (types.new.tags ≡ types.old.tags) }
{
    let left = value_side(types, layouts, a)?;
    let right = value_side(types, layouts, b)?;
    out.add(Instruction::Operate(operation(op, left, right)))
}

/// A place gets what an operator gives of its value and another one.
pub fn updated(
    types: &mut Types<'_>,
    layouts: &[Layout<'_>],
    out: &mut Emitter<'_>,
    op: BinOp,
    a: Judged<Operand>,
    b: Judged<Operand>,
) -> Result<(), AllocError>
    requires left { IsSomeOperand types.old a }
    requires right { IsSomeOperand types.old b }
    ensures emits { (p q : refusals.Judged plain.Operand) (tags : Tags) → IsJudged (IsOperand types.old) a p → IsJudged (IsOperand types.old) b q → AreLayouts types.old layouts.now tags → AreCounted tags op (operand_type p) (decayed (operand_type q)) → OnOk result (Emits out.old out.new (code.Update tags op (operand_type p) (decayed (operand_type q)) ∷ []) []) }
    ensures grows { OnOk result (Grows (known types.old) (known types.new)) }
    ensures tags { OnOk result (types.new.tags ≡ types.old.tags) }
{
    let left = side(types, layouts, a)?;
    let right = value_side(types, layouts, b)?;
    let ty = type_of(types, a)?;
    out.add(Instruction::Update(kind(types, ty), operation(op, left, right)))
}

// The operator of a step.
fn step_op(op: StepOp) -> BinOp
    ensures { result ≡ step_op op }
{
    match op {
        StepOp::PreInc | StepOp::PostInc => BinOp::Add,
        StepOp::PreDec | StepOp::PostDec => BinOp::Sub,
    }
}

// Whether a step gives the value before.
fn gives_old(op: StepOp) -> bool
    ensures { result ≡ gives_old op }
{
    matches!(op, StepOp::PostInc | StepOp::PostDec)
}

/// A place is stepped.
pub fn stepped(
    types: &mut Types<'_>,
    layouts: &[Layout<'_>],
    out: &mut Emitter<'_>,
    op: StepOp,
    a: Judged<Operand>,
) -> Result<(), AllocError>
    requires { IsSomeOperand types.old a }
    ensures emits { (p : refusals.Judged plain.Operand) (tags : Tags) → IsJudged (IsOperand types.old) a p → AreLayouts types.old layouts.now tags → AreCounted tags (step_op op) (operand_type p) Int → OnOk result (Emits out.old out.new (code.Step tags op (operand_type p) ∷ []) []) }
    ensures grows { OnOk result (Grows (known types.old) (known types.new)) }
    ensures tags { OnOk result (types.new.tags ≡ types.old.tags) }
{
    let left = side(types, layouts, a)?;
    let ty = type_of(types, a)?;
    let one = Side {
        class: Class::Signed,
        words: 1,
    };
    out.add(Instruction::Step(Step {
        kind: kind(types, ty),
        operation: operation(step_op(op), left, one),
        gives_old: gives_old(op),
    }))
}
