// The string literals of declarations.

ghost use Rattle.std.specs.Prelude.{◌≡◌, false, IfOk, OnOk};
ghost use Rattle.std.specs.Result.{result_err};
ghost use Rattle.c_syntax.specs.View.{decl_of};
ghost use Rattle.c_types.specs.Scope.{Scope};
ghost use Rattle.c_types.specs.Declarations as plain;
ghost use Rattle.c_types.specs.Declarations.{scope_or};
ghost use Rattle.c_declared.specs.Held.{Holds, HoldsSome};
ghost use Rattle.c_lower_literals.specs.Gathered.{Gathers, local_literals};

use crate::values::first_literals;
use c_census::forget;
use c_declarations::declare_object;
use c_operands::Declarations;
use c_syntax::tree::Decl;
use c_types::{TypeFault, Types};
use std::alloc::AllocError;

/// The texts of a declaration's string literals, behind others, and its refusal: its name is declared from then on if it
/// isn't refused.
pub fn local_literals<'t>(
    types: &mut Types<'_>,
    declared: &mut Declarations<'t>,
    d: &'t Decl,
    texts: &mut Vec<&'t [u8]>,
) -> Result<Option<TypeFault>, AllocError>
    requires { HoldsSome types.old declared.old }
    ensures gathers { OnOk result (Gathers types.old types.new declared.old declared.new texts.old.items texts.new.items (λ s. local_literals s (decl_of d.now)) (λ s. scope_or s (plain.declared s false (decl_of d.now)))) }
    ensures refusal { (s : Scope) → Holds types.old declared.old s → IfOk result (λ r. r ≡ result_err (plain.declared s false (decl_of d.now))) }
{
    let refusal = declare_object(types, declared, false, d)?;
    first_literals(declared, &d.first, texts)?;
    Ok(refusal)
}

/// The texts of a declaration whose name isn't in scope behind it, behind others.
pub fn forgotten_literals<'t>(
    types: &mut Types<'_>,
    declared: &mut Declarations<'t>,
    d: &'t Decl,
    texts: &mut Vec<&'t [u8]>,
) -> Result<(), AllocError>
    requires { HoldsSome types.old declared.old }
    ensures { OnOk result (Gathers types.old types.new declared.old declared.new texts.old.items texts.new.items (λ s. local_literals s (decl_of d.now)) (λ s. s)) }
{
    let refusal = local_literals(types, declared, d, texts)?;
    forget(types, declared, refusal)
}
