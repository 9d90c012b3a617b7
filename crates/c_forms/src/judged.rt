// Types by judged types.

ghost use Rattle.std.specs.Prelude.{◌≡◌, Ok, [], ◌∷◌, IfOk, OnOk};
ghost use Rattle.c_types.specs.Types.{CType, Pointer};
ghost use Rattle.c_types.specs.Refusals as refusals;
ghost use Rattle.c_types.specs.Refusals.{after, keeping};
ghost use Rattle.c_types.specs.Table.{Table, known, HasType};
ghost use Rattle.c_types.specs.Known.{Grows};
ghost use Rattle.c_operands.specs.Seen.{IsJudged};
ghost use Rattle.c_forms.specs.Forms.{IsSomeType};

use c_operands::Judged;
use c_types::{Shape, TypeFault, Types};
use std::alloc::AllocError;

// A type, if a rule is kept.
pub fn type_rule(kept: bool, fault: TypeFault, ty: usize) -> Judged<usize>
    ensures { (table : Table) (t : CType) → HasType table ty t → IsJudged (HasType table) result (keeping ((kept, fault) ∷ []) t) }
{
    if kept { Ok(ty) } else { Err(fault) }
}

/// A pointer to a type that is judged.
pub fn pointer_type(types: &mut Types<'_>, ty: Judged<usize>) -> Result<Judged<usize>, AllocError>
    requires { IsSomeType types.old ty }
    ensures judged { (p : refusals.Judged CType) → IsJudged (HasType types.old) ty p → IfOk result (λ j. IsJudged (HasType types.new) j (after p (λ t. Ok (Pointer t)))) }
    ensures grows { OnOk result (Grows (known types.old) (known types.new)) }
    ensures tags { OnOk result (types.new.tags ≡ types.old.tags) }
{
    match ty {
        Ok(to) => {
            let pointer = types.number(Shape::Pointer(to))?;
            Ok(Ok(pointer))
        }
        Err(fault) => Ok(Err(fault)),
    }
}
