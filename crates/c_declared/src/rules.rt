// Rules of what is declared.

ghost use Rattle.std.specs.Prelude.{◌≡◌, ◌<◌, [], ◌∷◌, length};
ghost use Rattle.c_types.specs.Types.{CType};
ghost use Rattle.c_types.specs.Refusals.{broken};
ghost use Rattle.c_types.specs.Scope.{Scope};
ghost use Rattle.c_types.specs.Declarations.{object_type};
ghost use Rattle.c_types.specs.Table.{known, HasType};
ghost use Rattle.c_layouts.specs.Layouts.{AreLayouts};
ghost use Rattle.c_operands.specs.Seen.{IsJudged};
ghost use Rattle.c_declared.specs.Told.{first_told};

use c_layouts::{Layout, is_object_type};
use c_operands::Judged;
use c_types::{TypeFault, Types};

/// The refusal of a rule, if it is broken.
pub fn broken_rule(kept: bool, fault: TypeFault) -> Option<TypeFault>
    ensures { result ≡ broken ((kept, fault) ∷ []) }
{
    if kept { None } else { Some(fault) }
}

/// The refusal of a tree's parts, or else its own.
pub fn merged_behind(parts: Option<TypeFault>, own: Option<TypeFault>) -> Option<TypeFault>
    ensures { result ≡ first_told parts own }
{
    match parts {
        Some(fault) => Some(fault),
        None => own,
    }
}

/// A type as that of an object, which has a type of objects.
pub fn as_object(types: &Types<'_>, layouts: &[Layout<'_>], at: u32, ty: usize) -> Judged<usize>
    requires { ty < length (known types.now) }
    ensures { (s : Scope) (t : CType) → HasType types.now ty t → AreLayouts types.now layouts.now s.tags → IsJudged (HasType types.now) result (object_type s at t) }
{
    if is_object_type(types, layouts, ty) {
        Ok(ty)
    } else {
        Err(TypeFault::Mismatch(at))
    }
}
