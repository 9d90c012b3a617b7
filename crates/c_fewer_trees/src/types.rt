// Types of expressions that are judged.

ghost use Rattle.std.specs.Prelude.{◌≡◌, IfOk, OnOk};
ghost use Rattle.c_syntax.specs.Plain as plain;
ghost use Rattle.c_syntax.specs.View.{expr_of};
ghost use Rattle.c_types.specs.Types.{decayed, is_unsigned};
ghost use Rattle.c_types.specs.Refusals as refusals;
ghost use Rattle.c_types.specs.Operands as operands;
ghost use Rattle.c_eval.specs.Environment.{operand_type, word_in, constant_word};
ghost use Rattle.c_types.specs.Seen.{constant_of};
ghost use Rattle.c_types.specs.Table.{known, HasType};
ghost use Rattle.c_types.specs.Known.{Grows};
ghost use Rattle.c_operands.specs.Seen.{IsOperand, IsJudged};
ghost use Rattle.c_forms.specs.Forms.{IsSomeOperand};

use c_fewer_operators::is_unsigned;
use c_operands::{Judged, Operand, used_type};
use c_syntax::tree::Expr;
use c_terms::number;
use c_types::{Constant, Shape, Types};
use std::alloc::AllocError;

/// The type of an expression, void where it is refused.
pub fn type_of(types: &mut Types<'_>, a: Judged<Operand>) -> Result<usize, AllocError>
    requires { IsSomeOperand types.old a }
    ensures ty { (p : refusals.Judged operands.Operand) → IsJudged (IsOperand types.old) a p → IfOk result (λ n. HasType types.new n (operand_type p)) }
    ensures grows { OnOk result (Grows (known types.old) (known types.new)) }
    ensures tags { OnOk result (types.new.tags ≡ types.old.tags) }
{
    match a {
        Ok(x) => Ok(x.ty),
        Err(_) => types.number(Shape::Void),
    }
}

/// The type with which its value is used.
pub fn value_type(types: &mut Types<'_>, a: Judged<Operand>) -> Result<usize, AllocError>
    requires { IsSomeOperand types.old a }
    ensures ty { (p : refusals.Judged operands.Operand) → IsJudged (IsOperand types.old) a p → IfOk result (λ n. HasType types.new n (decayed (operand_type p))) }
    ensures grows { OnOk result (Grows (known types.old) (known types.new)) }
    ensures tags { OnOk result (types.new.tags ≡ types.old.tags) }
{
    let ty = type_of(types, a)?;
    used_type(types, ty)
}

// The word of a constant, 0 where it has none.
fn word_of(constant: Constant) -> u32
    ensures { result ≡ constant_word (constant_of constant) }
{
    match constant {
        Constant::NotConstant => 0,
        Constant::Undefined(_) => 0,
        Constant::Value(word) => word.get(),
    }
}

/// The value of a constant expression, as a number at no place of the text.
pub fn value_tree(types: &Types<'_>, a: Judged<Operand>) -> Expr
    requires { IsSomeOperand types.now a }
    ensures { (p : refusals.Judged operands.Operand) → IsJudged (IsOperand types.now) a p → expr_of result ≡ plain.Number 0 (word_in p) (is_unsigned (operand_type p)) }
{
    match a {
        Ok(x) => number(0, word_of(x.constant), is_unsigned(types, x.ty)),
        Err(_) => number(0, 0, false),
    }
}
