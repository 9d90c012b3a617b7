// The beginning and the end of a function's code.

ghost use Rattle.std.specs.Prelude.{◌∷◌, [], IfOk, OnOk};
ghost use Rattle.c_eval.specs.State as run;
ghost use Rattle.c_code.specs.Code as code;
ghost use Rattle.c_emitted.specs.Emits.{Emits};
ghost use Rattle.c_linked.specs.Begun.{BeginsFunction};

use c_emitted::{Emitter, number_of};
use c_plain::Instruction;
use std::alloc::AllocError;

/// The code of a function begins that has a name, whose number is the answer.
pub fn begin_function<'t>(out: &mut Emitter<'t>, name: &'t [u8]) -> Result<u32, AllocError>
    ensures { IfOk result (λ f. BeginsFunction out.old out.new name.now f) }
{
    let function = out.name_number(name)?;
    let owner = number_of(function as usize + 1)?;
    out.owner = owner;
    out.before = 0;
    Ok(function)
}

/// The code of a function ends: where it is reached, the call gives no value.
pub fn end_function(out: &mut Emitter<'_>) -> Result<(), AllocError>
    ensures { OnOk result (Emits out.old out.new (code.Push run.Missing ∷ code.Return ∷ []) []) }
{
    out.missing()?;
    out.add(Instruction::Return)
}
