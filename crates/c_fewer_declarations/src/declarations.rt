// Declarations of locals.

ghost use Rattle.std.specs.Prelude.{◌≡◌, IfOk, OnOk};
ghost use Rattle.c_syntax.specs.Plain as plain;
ghost use Rattle.c_syntax.specs.View.{decl_of};
ghost use Rattle.c_types.specs.Scope.{Scope};
ghost use Rattle.c_types.specs.Census.{scope_behind};
ghost use Rattle.c_types.specs.Table.{known};
ghost use Rattle.c_types.specs.Known.{Grows};
ghost use Rattle.c_declared.specs.Held.{IsAround};
ghost use Rattle.c_helpers.specs.Fewer.{fewer, fewer_in_declaration};
ghost use Rattle.c_fewer_declarations.specs.Standing.{StandsIn, StandsInSome};

use crate::values::fewer_in_first;
use c_declarations::declare_object;
use c_fewer_operators::Here;
use c_fewer_trees::fewer_in_type;
use c_syntax::tree::Decl;
use c_types::Types;
use std::alloc::AllocError;

/// A declaration inside a function, whose name is in scope from its first value on.
pub fn fewer_in_local<'t>(
    types: &mut Types<'_>,
    here: &mut Here<'t>,
    d: &'t Decl,
) -> Result<Decl, AllocError>
    requires { StandsInSome types.old here.old }
    ensures tree { (s : Scope) → StandsIn types.old here.old s → IfOk result (λ r. decl_of r ≡ fewer_in_declaration s (fewer (scope_behind s (plain.Local (decl_of d.now)))) (decl_of d.now)) }
    ensures behind { (s : Scope) → StandsIn types.old here.old s → OnOk result (StandsIn types.new here.new (scope_behind s (plain.Local (decl_of d.now)))) }
    ensures grows { OnOk result (Grows (known types.old) (known types.new)) }
    ensures tags { OnOk result (types.new.tags ≡ types.old.tags) }
    ensures around { OnOk result (IsAround here.old.declared here.new.declared) }
{
    let ty = fewer_in_type(types, here, &d.ty)?;
    declare_object(types, &mut here.declared, false, d)?;
    let first = fewer_in_first(types, here, &d.first)?;
    let name = d.name.copied(here.declared.alloc)?;
    Ok(Decl {
        name,
        pos: d.pos,
        ty,
        first,
    })
}
