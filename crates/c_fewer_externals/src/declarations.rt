// Declarations whose first values, if they have some, stay as they are.

ghost use Rattle.std.specs.Prelude.{◌≡◌, map, IfOk, OnOk};
ghost use Rattle.c_syntax.specs.View.{decl_of, decls_of};
ghost use Rattle.c_types.specs.Scope.{Scope};
ghost use Rattle.c_types.specs.Table.{known};
ghost use Rattle.c_types.specs.Known.{Grows};
ghost use Rattle.c_helpers.specs.Fewer.{fewer_in_declaration};
ghost use Rattle.c_fewer_operators.specs.Here.{Stands, StandsSome};

use c_copied_terms::copied_first;
use c_fewer_operators::Here;
use c_fewer_trees::fewer_in_type;
use c_syntax::tree::{Decl, Decls};
use c_types::Types;
use std::alloc::AllocError;

/// A member or a parameter.
pub fn fewer_in_plain(types: &mut Types<'_>, here: &Here<'_>, d: &Decl) -> Result<Decl, AllocError>
    requires { StandsSome types.old here.now }
    ensures tree { (s : Scope) → Stands types.old here.now s → IfOk result (λ r. decl_of r ≡ fewer_in_declaration s (λ e. e) (decl_of d.now)) }
    ensures grows { OnOk result (Grows (known types.old) (known types.new)) }
    ensures tags { OnOk result (types.new.tags ≡ types.old.tags) }
{
    let ty = fewer_in_type(types, here, &d.ty)?;
    let first = copied_first(here.declared.alloc, &d.first)?;
    let name = d.name.copied(here.declared.alloc)?;
    Ok(Decl {
        name,
        pos: d.pos,
        ty,
        first,
    })
}

/// The members of a tag.
pub fn fewer_in_members(
    types: &mut Types<'_>,
    here: &Here<'_>,
    all: &Decls,
) -> Result<Vec<Decl>, AllocError>
    requires { StandsSome types.old here.now }
    ensures trees { (s : Scope) → Stands types.old here.now s → IfOk result (λ r. decls_of r.items ≡ map (fewer_in_declaration s (λ e. e)) (decls_of all.now.items.items)) }
    ensures grows { OnOk result (Grows (known types.old) (known types.new)) }
    ensures tags { OnOk result (types.new.tags ≡ types.old.tags) }
{
    let mut trees = Vec::new(here.declared.alloc);
    for d in &all.items {
        let tree = fewer_in_plain(types, here, d)?;
        trees.push(tree)?;
    }
    Ok(trees)
}
