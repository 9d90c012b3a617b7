// Declarations whose names aren't in scope behind them.

ghost use Rattle.std.specs.Prelude.{◌≡◌, false, IfOk, OnOk};
ghost use Rattle.std.specs.Result.{result_err};
ghost use Rattle.c_syntax.specs.View.{decl_of};
ghost use Rattle.c_types.specs.Scope.{Scope};
ghost use Rattle.c_types.specs.Declarations as plain;
ghost use Rattle.c_types.specs.Table.{known};
ghost use Rattle.c_types.specs.Known.{Grows};
ghost use Rattle.c_declared.specs.Held.{Holds, HoldsSome, IsAround};

use c_declarations::declare_object;
use c_operands::Declarations;
use c_syntax::tree::Decl;
use c_types::{TypeFault, Types};
use std::alloc::AllocError;

/// The refusal of a declaration that is a statement of its own, outside a block: its name is in scope in its first
/// value alone.
pub fn forgotten<'t>(
    types: &mut Types<'_>,
    declared: &mut Declarations<'t>,
    d: &'t Decl,
) -> Result<Option<TypeFault>, AllocError>
    requires { HoldsSome types.old declared.old }
    ensures judged { (s : Scope) → Holds types.old declared.old s → IfOk result (λ r. r ≡ result_err (plain.declared s false (decl_of d.now))) }
    ensures holds { (s : Scope) → Holds types.old declared.old s → OnOk result (Holds types.new declared.new s) }
    ensures grows { OnOk result (Grows (known types.old) (known types.new)) }
    ensures tags { OnOk result (types.new.tags ≡ types.old.tags) }
    ensures around { OnOk result (IsAround declared.old declared.new) }
{
    let refusal = declare_object(types, declared, false, d)?;
    match refusal {
        Some(fault) => Ok(Some(fault)),
        None => {
            declared.names.withdraw()?;
            Ok(None)
        }
    }
}
