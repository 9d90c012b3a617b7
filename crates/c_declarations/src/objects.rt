// Objects that are declared.

ghost use Rattle.std.specs.Prelude.{◌≡◌, IfOk, OnOk};
ghost use Rattle.std.specs.Result.{result_err};
ghost use Rattle.c_syntax.specs.View.{decl_of, maybe_value};
ghost use Rattle.c_types.specs.Types.{CType};
ghost use Rattle.c_types.specs.Scope.{Scope};
ghost use Rattle.c_types.specs.Declarations as plain;
ghost use Rattle.c_types.specs.Declarations.{scope_or};
ghost use Rattle.c_types.specs.Table.{known, HasType, IsType};
ghost use Rattle.c_types.specs.Known.{Grows};
ghost use Rattle.c_declared.specs.Held.{Holds, HoldsSome, IsAround};
ghost use Rattle.c_declarations.specs.Sites.{site_of};

use crate::types::declared_type;
use crate::values::{Site, fit};
use c_declared::{broken_rule, declare, merged_behind, settle};
use c_operands::Declarations;
use c_scopes::Entity;
use c_syntax::tree::{Decl, Value};
use c_types::{TypeFault, Types};
use std::alloc::AllocError;

// The refusal of an object's first value, if it has one.
fn fit_first(
    types: &mut Types<'_>,
    declared: &Declarations<'_>,
    site: Site,
    ty: usize,
    first: &Option<Value>,
) -> Result<Option<TypeFault>, AllocError>
    requires holds { HoldsSome types.old declared.now }
    requires ty { IsType types.old ty }
    ensures told { (s : Scope) (t : CType) → Holds types.old declared.now s → HasType types.old ty t → IfOk result (λ r. r ≡ result_err (plain.first_fitting s (site_of site) t (maybe_value first.now))) }
    ensures grows { OnOk result (Grows (known types.old) (known types.new)) }
    ensures tags { OnOk result (types.new.tags ≡ types.old.tags) }
{
    match first {
        Some(value) => fit(types, declared, site, Some(ty), value),
        None => Ok(None),
    }
}

// The refusal of an object of a type, if it is refused. It is declared where it isn't, and known in its own first
// value.
fn declare_as<'t>(
    types: &mut Types<'_>,
    declared: &mut Declarations<'t>,
    file: bool,
    d: &'t Decl,
    ty: usize,
) -> Result<Option<TypeFault>, AllocError>
    requires holds { HoldsSome types.old declared.old }
    requires ty { IsType types.old ty }
    ensures told { (s : Scope) (t : CType) → Holds types.old declared.old s → HasType types.old ty t → IfOk result (λ r. r ≡ result_err (plain.declared_object s file (decl_of d.now) t)) }
    ensures holds { (s : Scope) (t : CType) → Holds types.old declared.old s → HasType types.old ty t → OnOk result (Holds types.new declared.new (scope_or s (plain.declared_object s file (decl_of d.now) t))) }
    ensures grows { OnOk result (Grows (known types.old) (known types.new)) }
    ensures tags { OnOk result (types.new.tags ≡ types.old.tags) }
    ensures around { OnOk result (IsAround declared.old declared.new) }
{
    let name = d.name.as_bytes();
    let is_new = !declared.names.is_declared_here(name);
    declare(types, declared, name, Entity::Object(ty))?;
    let site = Site { file, at: d.pos };
    let parts = fit_first(types, declared, site, ty, &d.first)?;
    let refusal = merged_behind(parts, broken_rule(is_new, TypeFault::Twice(d.pos)));
    settle(types, declared, refusal)?;
    Ok(refusal)
}

/// The refusal of an object's declaration, at file scope or within a function, if it is refused. Where it isn't, the
/// object is declared.
pub fn declare_object<'t>(
    types: &mut Types<'_>,
    declared: &mut Declarations<'t>,
    file: bool,
    d: &'t Decl,
) -> Result<Option<TypeFault>, AllocError>
    requires { HoldsSome types.old declared.old }
    ensures judged { (s : Scope) → Holds types.old declared.old s → IfOk result (λ r. r ≡ result_err (plain.declared s file (decl_of d.now))) }
    ensures holds { (s : Scope) → Holds types.old declared.old s → OnOk result (Holds types.new declared.new (scope_or s (plain.declared s file (decl_of d.now)))) }
    ensures grows { OnOk result (Grows (known types.old) (known types.new)) }
    ensures tags { OnOk result (types.new.tags ≡ types.old.tags) }
    ensures around { OnOk result (IsAround declared.old declared.new) }
{
    let ty = declared_type(types, declared, d)?;
    match ty {
        Ok(number) => declare_as(types, declared, file, d, number),
        Err(fault) => Ok(Some(fault)),
    }
}
