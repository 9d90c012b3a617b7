// Expressions without parts that are evaluated.

ghost use Rattle.std.specs.Prelude.{◌≡◌, ◌∷◌, [], IfOk, OnOk};
ghost use Rattle.c_syntax.specs.View.{expr_of};
ghost use Rattle.c_types.specs.Scope.{Scope};
ghost use Rattle.c_types.specs.Expressions.{judged};
ghost use Rattle.c_eval.specs.State as run;
ghost use Rattle.c_eval.specs.Environment.{constant_in};
ghost use Rattle.c_code.specs.Code as code;
ghost use Rattle.c_types.specs.Table.{known};
ghost use Rattle.c_types.specs.Known.{Grows};
ghost use Rattle.c_operands.specs.Seen.{IsOperand, IsJudged};
ghost use Rattle.c_operands.specs.Scoped.{Fits, FitsSome};
ghost use Rattle.c_emitted.specs.Emits.{Emits};

use c_emitted::Emitter;
use c_expressions::judge;
use c_operands::{Declarations, Judged, Operand};
use c_pieces::constant_word;
use c_syntax::tree::Expr;
use c_types::Types;
use std::alloc::AllocError;

/// The word of a constant expression, as `sizeof` is one.
pub fn size(
    types: &mut Types<'_>,
    out: &mut Emitter<'_>,
    declared: &Declarations<'_>,
    e: &Expr,
) -> Result<Judged<Operand>, AllocError>
    requires { FitsSome types.old declared.now }
    ensures judged { (s : Scope) → Fits types.old declared.now s → IfOk result (λ j. IsJudged (IsOperand types.new) j (judged s (expr_of e.now))) }
    ensures emits { (s : Scope) → Fits types.old declared.now s → OnOk result (Emits out.old out.new (code.Push (run.Word (constant_in s (expr_of e.now))) ∷ []) []) }
    ensures grows { OnOk result (Grows (known types.old) (known types.new)) }
    ensures tags { OnOk result (types.new.tags ≡ types.old.tags) }
{
    let j = judge(types, declared, e)?;
    constant_word(out, j)?;
    Ok(j)
}
