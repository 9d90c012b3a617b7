// Functions.

ghost use Rattle.std.specs.Prelude.{◌≡◌, option_map, is_some, IsOk, IfOk, OnOk};
ghost use Rattle.c_syntax.specs.Plain as tree;
ghost use Rattle.c_syntax.specs.View.{ty_of, decls_of, maybe_stmt, item_of};
ghost use Rattle.c_types.specs.Scope.{Scope};
ghost use Rattle.c_types.specs.Units.{signature, item_judged};
ghost use Rattle.c_types.specs.Table.{known};
ghost use Rattle.c_types.specs.Known.{Grows};
ghost use Rattle.c_objects.specs.Passed.{behind_function};
ghost use Rattle.c_helpers.specs.Fewer as fewer;
ghost use Rattle.c_fewer_declarations.specs.Standing.{StandsIn, StandsInSome};
ghost use Rattle.c_desugar.specs.Heads.{IsHead};

use c_fewer_externals::fewer_in_parameters;
use c_fewer_functions::fewer_in_function;
use c_fewer_operators::Here;
use c_fewer_trees::fewer_in_type;
use c_objects::declare_function;
use c_syntax::text::Text;
use c_syntax::tree::{Decls, Item, Stmt, Ty};
use c_types::Types;
use std::alloc::AllocError;

// The body of a function whose signature isn't refused, if it has one.
fn fewer_in_body<'t>(
    types: &mut Types<'_>,
    here: &mut Here<'t>,
    name: &'t [u8],
    at: u32,
    gives: &Ty,
    parameters: &'t Decls,
    body: &'t Option<Stmt>,
) -> Result<Option<Stmt>, AllocError>
    requires { StandsInSome types.old here.old }
    ensures tree { (s : Scope) → StandsIn types.old here.old s → IsOk (signature s at (ty_of gives.now) (decls_of parameters.now.items.items)) → IfOk result (λ r. maybe_stmt r ≡ option_map (fewer.fewer_in_function s name.now (signature s at (ty_of gives.now) (decls_of parameters.now.items.items))) (maybe_stmt body.now)) }
    ensures stands { (s : Scope) → StandsIn types.old here.old s → OnOk result (StandsIn types.new here.new s) }
    ensures grows { OnOk result (Grows (known types.old) (known types.new)) }
    ensures tags { OnOk result (types.new.tags ≡ types.old.tags) }
{
    match body {
        Some(there) => {
            let tree = fewer_in_function(types, here, name, at, gives, parameters, there)?;
            Ok(Some(tree))
        }
        None => Ok(None),
    }
}

// The body of a function whose signature isn't refused, which is declared behind it.
fn pass_body<'t>(
    types: &mut Types<'_>,
    here: &mut Here<'t>,
    name: &'t [u8],
    at: u32,
    gives: &Ty,
    parameters: &'t Decls,
    body: &'t Option<Stmt>,
) -> Result<Option<Stmt>, AllocError>
    requires { StandsInSome types.old here.old }
    ensures tree { (s : Scope) → StandsIn types.old here.old s → IsOk (signature s at (ty_of gives.now) (decls_of parameters.now.items.items)) → IfOk result (λ r. maybe_stmt r ≡ option_map (fewer.fewer_in_function s name.now (signature s at (ty_of gives.now) (decls_of parameters.now.items.items))) (maybe_stmt body.now)) }
    ensures stands { (s : Scope) → StandsIn types.old here.old s → OnOk result (StandsIn types.new here.new (behind_function s name.now at (ty_of gives.now) (decls_of parameters.now.items.items) (is_some (maybe_stmt body.now)))) }
    ensures grows { OnOk result (Grows (known types.old) (known types.new)) }
    ensures tags { OnOk result (types.new.tags ≡ types.old.tags) }
{
    let inner = fewer_in_body(types, here, name, at, gives, parameters, body)?;
    let defines = body.is_some();
    declare_function(
        types,
        &mut here.declared,
        name,
        at,
        gives,
        parameters,
        defines,
    )?;
    Ok(inner)
}

/// A function without its body.
#[derive(Drop)]
pub struct Head {
    pub name: Text,
    pub result: Ty,
    pub params: Decls,
}

// A function without its body. What is declared stays.
fn fewer_in_head<'t>(
    types: &mut Types<'_>,
    here: &mut Here<'t>,
    name: &Text,
    gives: &Ty,
    parameters: &'t Decls,
) -> Result<Head, AllocError>
    requires { StandsInSome types.old here.old }
    ensures head { (s : Scope) → StandsIn types.old here.old s → IfOk result (λ r. IsHead r s name.now (ty_of gives.now) (decls_of parameters.now.items.items)) }
    ensures stands { (s : Scope) → StandsIn types.old here.old s → OnOk result (StandsIn types.new here.new s) }
    ensures grows { OnOk result (Grows (known types.old) (known types.new)) }
    ensures tags { OnOk result (types.new.tags ≡ types.old.tags) }
{
    let copy = name.copied(here.declared.alloc)?;
    let result = fewer_in_type(types, here, gives)?;
    let params = fewer_in_parameters(types, here, parameters)?;
    Ok(Head {
        name: copy,
        result,
        params,
    })
}

/// A function that isn't refused, which is declared.
pub fn take_function<'t>(
    types: &mut Types<'_>,
    here: &mut Here<'t>,
    name: &'t Text,
    at: u32,
    gives: &Ty,
    parameters: &'t Decls,
    body: &'t Option<Stmt>,
) -> Result<Item, AllocError>
    requires { StandsInSome types.old here.old }
    ensures tree { (s : Scope) → StandsIn types.old here.old s → IsOk (item_judged s (tree.Function name.now at (ty_of gives.now) (decls_of parameters.now.items.items) (maybe_stmt body.now))) → IfOk result (λ r. item_of r ≡ fewer.fewer_in_item s (tree.Function name.now at (ty_of gives.now) (decls_of parameters.now.items.items) (maybe_stmt body.now))) }
    ensures stands { (s : Scope) → StandsIn types.old here.old s → OnOk result (StandsIn types.new here.new (behind_function s name.now at (ty_of gives.now) (decls_of parameters.now.items.items) (is_some (maybe_stmt body.now)))) }
    ensures tags { OnOk result (types.new.tags ≡ types.old.tags) }
{
    let head = fewer_in_head(types, here, name, gives, parameters)?;
    let bytes = name.as_bytes();
    let inner = pass_body(types, here, bytes, at, gives, parameters, body)?;
    Ok(Item::Function {
        name: head.name,
        pos: at,
        result: head.result,
        params: head.params,
        body: inner,
    })
}
