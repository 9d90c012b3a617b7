// Calls whose parts are judged.

ghost use Rattle.std.specs.Prelude.{◌≡◌, Ok, Option, List, IfOk, OnOk, option_map};
ghost use Rattle.c_types.specs.Refusals as refusals;
ghost use Rattle.c_types.specs.Operands as plain;
ghost use Rattle.c_types.specs.Operands.{call_operand};
ghost use Rattle.c_types.specs.Expressions.{through};
ghost use Rattle.c_types.specs.Table.{known};
ghost use Rattle.c_types.specs.Known.{Grows};
ghost use Rattle.c_operands.specs.Seen.{IsOperand, IsJudged};
ghost use Rattle.c_operands.specs.Arguments.{IsCallee};
ghost use Rattle.c_forms.specs.Forms.{IsSomeOperand};
ghost use Rattle.c_expressions.specs.Told.{IsSomeCallee, AreGiven};

use c_operands::{Argument, Callee, Judged, Operand, call, least_of, used_type};
use c_types::Types;
use std::alloc::AllocError;

/// What is called through an expression that is judged.
pub fn through(types: &mut Types<'_>, a: Judged<Operand>) -> Result<Judged<Callee>, AllocError>
    requires { IsSomeOperand types.old a }
    ensures judged { (p : refusals.Judged plain.Operand) → IsJudged (IsOperand types.old) a p → IfOk result (λ j. IsJudged (IsCallee types.new) j (through p)) }
    ensures grows { OnOk result (Grows (known types.old) (known types.new)) }
    ensures tags { OnOk result (types.new.tags ≡ types.old.tags) }
{
    match a {
        Ok(x) => {
            let ty = used_type(types, x.ty)?;
            Ok(Ok(Callee::Through(ty)))
        }
        Err(fault) => Ok(Err(fault)),
    }
}

/// A call whose callee and arguments are judged.
pub fn after_call(
    types: &mut Types<'_>,
    at: u32,
    callee: Judged<Callee>,
    format: Option<&[u8]>,
    arguments: Judged<Vec<Argument>>,
) -> Result<Judged<Operand>, AllocError>
    requires { IsSomeCallee types.old callee }
    ensures judged { (p : refusals.Judged plain.Callee) (q : refusals.Judged (List plain.Operand)) → IsJudged (IsCallee types.old) callee p → IsJudged (AreGiven types.old) arguments q → IfOk result (λ j. IsJudged (IsOperand types.new) j (refusals.both p q (λ c xs. call_operand at c (option_map (λ f. f.now) format.entry) xs))) }
    ensures grows { OnOk result (Grows (known types.old) (known types.new)) }
    ensures tags { OnOk result (types.new.tags ≡ types.old.tags) }
{
    match callee {
        Ok(called) => match arguments {
            Ok(given) => call(types, at, called, format, given.as_slice()),
            Err(fault) => Ok(Err(fault)),
        },
        Err(fault) => Ok(Err(least_of(fault, arguments.err()))),
    }
}
