// Objects of file scope.

ghost use Rattle.std.specs.Prelude.{◌≡◌, IfOk, OnOk};
ghost use Rattle.c_syntax.specs.Plain as plain;
ghost use Rattle.c_syntax.specs.View.{decl_of};
ghost use Rattle.c_types.specs.Scope.{Scope};
ghost use Rattle.c_types.specs.Declarations.{scope_or};
ghost use Rattle.c_types.specs.Units.{item_judged};
ghost use Rattle.c_types.specs.Table.{known};
ghost use Rattle.c_types.specs.Known.{Grows};
ghost use Rattle.c_helpers.specs.Fewer.{static_tree, fewer_in_declaration};
ghost use Rattle.c_fewer_declarations.specs.Standing.{StandsIn, StandsInSome};

use crate::values::static_first;
use c_declarations::declare_object;
use c_fewer_operators::Here;
use c_fewer_trees::fewer_in_type;
use c_syntax::tree::Decl;
use c_types::Types;
use std::alloc::AllocError;

/// An object of file scope, whose name is in scope from its first value on.
pub fn fewer_in_object<'t>(
    types: &mut Types<'_>,
    here: &mut Here<'t>,
    d: &'t Decl,
) -> Result<Decl, AllocError>
    requires { StandsInSome types.old here.old }
    ensures tree { (s : Scope) → StandsIn types.old here.old s → IfOk result (λ r. decl_of r ≡ fewer_in_declaration s (static_tree (scope_or s (item_judged s (plain.Object (decl_of d.now))))) (decl_of d.now)) }
    ensures stands { (s : Scope) → StandsIn types.old here.old s → OnOk result (StandsIn types.new here.new (scope_or s (item_judged s (plain.Object (decl_of d.now))))) }
    ensures grows { OnOk result (Grows (known types.old) (known types.new)) }
    ensures tags { OnOk result (types.new.tags ≡ types.old.tags) }
{
    let ty = fewer_in_type(types, here, &d.ty)?;
    declare_object(types, &mut here.declared, true, d)?;
    let first = static_first(types, here, &d.first)?;
    let name = d.name.copied(here.declared.alloc)?;
    Ok(Decl {
        name,
        pos: d.pos,
        ty,
        first,
    })
}
