// Types of declared objects.

ghost use Rattle.std.specs.Prelude.{◌≡◌, IfOk, OnOk};
ghost use Rattle.c_syntax.specs.View.{decl_of};
ghost use Rattle.c_types.specs.Scope.{Scope};
ghost use Rattle.c_types.specs.Declarations as plain;
ghost use Rattle.c_types.specs.Table.{known, HasType};
ghost use Rattle.c_types.specs.Known.{Grows};
ghost use Rattle.c_operands.specs.Seen.{IsJudged};
ghost use Rattle.c_declared.specs.Held.{Holds, HoldsSome};

use c_declared::{as_object, completed};
use c_expressions::written;
use c_operands::{Declarations, Judged};
use c_syntax::tree::Decl;
use c_types::Types;
use std::alloc::AllocError;

/// The type of a declared object.
pub fn declared_type(
    types: &mut Types<'_>,
    declared: &Declarations<'_>,
    d: &Decl,
) -> Result<Judged<usize>, AllocError>
    requires { HoldsSome types.old declared.now }
    ensures judged { (s : Scope) → Holds types.old declared.now s → IfOk result (λ j. IsJudged (HasType types.new) j (plain.declared_type s (decl_of d.now))) }
    ensures grows { OnOk result (Grows (known types.old) (known types.new)) }
    ensures tags { OnOk result (types.new.tags ≡ types.old.tags) }
{
    let ty = written(types, declared, d.pos, &d.ty)?;
    match ty {
        Ok(number) => {
            let whole = completed(types, number, &d.first)?;
            let layouts = declared.layouts.as_slice();
            Ok(as_object(types, layouts, d.pos, whole))
        }
        Err(fault) => Ok(Err(fault)),
    }
}
