// What expressions of a form are, by their parts.

ghost use Rattle.std.specs.Prelude.{◌≡◌, IfOk, OnOk};
ghost use Rattle.c_types.specs.Types.{Tags};
ghost use Rattle.c_types.specs.Operands as plain;
ghost use Rattle.c_types.specs.Table.{known, IsType};
ghost use Rattle.c_types.specs.Known.{Grows};
ghost use Rattle.c_layouts.specs.Layouts.{AreLayouts};
ghost use Rattle.c_operands.specs.Seen.{IsOperand, IsJudged};
ghost use Rattle.c_forms.specs.Given.{HaveLayouts};
ghost use Rattle.c_forms.specs.Forms.{one_operand, two_operand};

use crate::elements::index;
use crate::form::{One, Two};
use crate::members::{arrow, member};
use crate::operation::binary;
use crate::places::target;
use crate::sizes::size;
use crate::steps::{step, update};
use c_layouts::Layout;
use c_operands::{Judged, Operand, address, assign, comma, negation, number};
use c_syntax::tree::{BinOp, UnOp};
use c_types::Types;
use std::alloc::AllocError;

// An operator on one side.
fn unary(
    types: &mut Types<'_>,
    layouts: &[Layout<'_>],
    at: u32,
    op: UnOp,
    a: Operand,
) -> Result<Judged<Operand>, AllocError>
    requires { IsType types.old a.ty }
    ensures judged { (x : plain.Operand) (tags : Tags) → IsOperand types.old a x → AreLayouts types.old layouts.now tags → IfOk result (λ j. IsJudged (IsOperand types.new) j (plain.unary_operand tags at op x)) }
    ensures grows { OnOk result (Grows (known types.old) (known types.new)) }
    ensures tags { OnOk result (types.new.tags ≡ types.old.tags) }
{
    match op {
        UnOp::Address => address(types, at, a),
        UnOp::Deref => target(types, layouts, at, a),
        UnOp::Not => negation(types, at, a),
        UnOp::Plus => number(types, at, UnOp::Plus, a),
        UnOp::Minus => number(types, at, UnOp::Minus, a),
        UnOp::Invert => number(types, at, UnOp::Invert, a),
    }
}

/// What an expression is that has one part.
pub fn one(
    types: &mut Types<'_>,
    layouts: &[Layout<'_>],
    at: u32,
    form: One<'_>,
    a: Operand,
) -> Result<Judged<Operand>, AllocError>
    requires { IsType types.old a.ty }
    ensures judged { (x : plain.Operand) (tags : Tags) → IsOperand types.old a x → AreLayouts types.old layouts.now tags → IfOk result (λ j. IsJudged (IsOperand types.new) j (one_operand tags at form.entry x)) }
    ensures grows { OnOk result (Grows (known types.old) (known types.new)) }
    ensures tags { OnOk result (types.new.tags ≡ types.old.tags) }
{
    match form {
        One::Unary(op) => unary(types, layouts, at, op, a),
        One::Step => step(types, layouts, at, a),
        One::SizeOf => size(types, layouts, at, a.ty),
        One::Member(name) => Ok(member(types, layouts, at, name, a.ty)),
        One::Arrow(name) => arrow(types, layouts, at, name, a),
    }
}

// An assignment, perhaps by an operator.
fn assigned(
    types: &mut Types<'_>,
    layouts: &[Layout<'_>],
    at: u32,
    op: Option<BinOp>,
    a: Operand,
    b: Operand,
) -> Result<Judged<Operand>, AllocError>
    requires left { IsType types.old a.ty }
    requires right { IsType types.old b.ty }
    requires layouts { HaveLayouts types.old layouts.now }
    ensures judged { (x y : plain.Operand) (tags : Tags) → IsOperand types.old a x → IsOperand types.old b y → AreLayouts types.old layouts.now tags → IfOk result (λ j. IsJudged (IsOperand types.new) j (plain.assign_operand tags at op x y)) }
    ensures grows { OnOk result (Grows (known types.old) (known types.new)) }
    ensures tags { OnOk result (types.new.tags ≡ types.old.tags) }
{
    match op {
        None => assign(types, at, a, b),
        Some(by) => update(types, layouts, at, by, a, b),
    }
}

/// What an expression is that has two parts.
pub fn two(
    types: &mut Types<'_>,
    layouts: &[Layout<'_>],
    at: u32,
    form: Two,
    a: Operand,
    b: Operand,
) -> Result<Judged<Operand>, AllocError>
    requires left { IsType types.old a.ty }
    requires right { IsType types.old b.ty }
    requires layouts { HaveLayouts types.old layouts.now }
    ensures judged { (x y : plain.Operand) (tags : Tags) → IsOperand types.old a x → IsOperand types.old b y → AreLayouts types.old layouts.now tags → IfOk result (λ j. IsJudged (IsOperand types.new) j (two_operand tags at form x y)) }
    ensures grows { OnOk result (Grows (known types.old) (known types.new)) }
    ensures tags { OnOk result (types.new.tags ≡ types.old.tags) }
{
    match form {
        Two::Binary(op) => binary(types, layouts, at, op, a, b),
        Two::Assign(op) => assigned(types, layouts, at, op, a, b),
        Two::Comma => comma(types, at, a, b),
        Two::Index => index(types, layouts, at, a, b),
    }
}
