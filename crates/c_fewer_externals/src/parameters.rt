// Parameters of functions.

ghost use Rattle.std.specs.Prelude.{◌≡◌, IfOk, OnOk};
ghost use Rattle.c_syntax.specs.View.{decl_of, decls_of};
ghost use Rattle.c_types.specs.Scope.{Scope, entered};
ghost use Rattle.c_types.specs.Units.{parameter, parameter_scope_or};
ghost use Rattle.c_types.specs.Table.{known};
ghost use Rattle.c_types.specs.Known.{Grows};
ghost use Rattle.c_declared.specs.Held.{IsAround};
ghost use Rattle.c_helpers.specs.Fewer.{fewer_in_declaration};
ghost use Rattle.c_helpers.specs.Fewer as plain;
ghost use Rattle.c_fewer_declarations.specs.Standing.{StandsIn, StandsInSome};

use crate::declarations::fewer_in_plain;
use c_fewer_operators::Here;
use c_signatures::{add, begin_block, end_block};
use c_syntax::tree::{Decl, Decls};
use c_types::Types;
use std::alloc::AllocError;

// A parameter, which is declared if it isn't refused.
fn fewer_in_parameter<'t>(
    types: &mut Types<'_>,
    here: &mut Here<'t>,
    p: &'t Decl,
) -> Result<Decl, AllocError>
    requires { StandsInSome types.old here.old }
    ensures tree { (s : Scope) → StandsIn types.old here.old s → IfOk result (λ r. decl_of r ≡ fewer_in_declaration s (λ e. e) (decl_of p.now)) }
    ensures behind { (s : Scope) → StandsIn types.old here.old s → OnOk result (StandsIn types.new here.new (parameter_scope_or s (parameter s (decl_of p.now)))) }
    ensures grows { OnOk result (Grows (known types.old) (known types.new)) }
    ensures tags { OnOk result (types.new.tags ≡ types.old.tags) }
    ensures around { OnOk result (IsAround here.old.declared here.new.declared) }
{
    let tree = fewer_in_plain(types, here, p)?;
    let mut parameters = Vec::new(here.declared.alloc);
    add(types, &mut here.declared, &mut parameters, p)?;
    Ok(tree)
}

// Parameters, each known in the types of those behind it.
fn fewer_in_all<'t>(
    types: &mut Types<'_>,
    here: &mut Here<'t>,
    all: &'t Decls,
) -> Result<Vec<Decl>, AllocError>
    requires { StandsInSome types.old here.old }
    ensures trees { (s : Scope) → StandsIn types.old here.old s → IfOk result (λ r. decls_of r.items ≡ plain.fewer_in_parameters s (decls_of all.now.items.items)) }
    ensures stands { OnOk result (StandsInSome types.new here.new) }
    ensures grows { OnOk result (Grows (known types.old) (known types.new)) }
    ensures tags { OnOk result (types.new.tags ≡ types.old.tags) }
    ensures around { OnOk result (IsAround here.old.declared here.new.declared) }
{
    let mut trees = Vec::new(here.declared.alloc);
    for p in &all.items {
        let tree = fewer_in_parameter(types, here, p)?;
        trees.push(tree)?;
    }
    Ok(trees)
}

/// The parameters of a function, in a block of their own, which ends.
pub fn fewer_in_parameters<'t>(
    types: &mut Types<'_>,
    here: &mut Here<'t>,
    parameters: &'t Decls,
) -> Result<Decls, AllocError>
    requires { StandsInSome types.old here.old }
    ensures tree { (s : Scope) → StandsIn types.old here.old s → IfOk result (λ r. decls_of r.items.items ≡ plain.fewer_in_parameters (entered s) (decls_of parameters.now.items.items)) }
    ensures stands { (s : Scope) → StandsIn types.old here.old s → OnOk result (StandsIn types.new here.new s) }
    ensures grows { OnOk result (Grows (known types.old) (known types.new)) }
    ensures tags { OnOk result (types.new.tags ≡ types.old.tags) }
{
    let mark = begin_block(&mut here.declared);
    let items = fewer_in_all(types, here, parameters)?;
    end_block(&mut here.declared, mark)?;
    Ok(Decls { items })
}
