// Bodies of functions.

ghost use Rattle.std.specs.Prelude.{◌≡◌, IfOk, IsOk, OnOk};
ghost use Rattle.c_syntax.specs.View.{ty_of, decls_of, stmt_of};
ghost use Rattle.c_types.specs.Scope.{Scope};
ghost use Rattle.c_types.specs.Units as plain;
ghost use Rattle.c_types.specs.Table.{known};
ghost use Rattle.c_types.specs.Known.{Grows};
ghost use Rattle.c_signatures.specs.Signatures.{IsSignature};
ghost use Rattle.c_helpers.specs.Fewer as fewer;
ghost use Rattle.c_fewer_declarations.specs.Standing.{StandsIn, StandsInSome};
ghost use Rattle.c_fewer_parts.specs.Going.{Goes, Stays};
ghost use Rattle.c_fewer_functions.specs.Standing.{StandsWith};

use crate::statements::{fewer_in, fewer_in_all};
use c_fewer_operators::Here;
use c_signatures::{Signature, enter_body, judge_signature, leave_body};
use c_syntax::tree::{Decls, Stmt, Ty};
use c_terms::block;
use c_types::Types;
use std::alloc::AllocError;

// A body, whose outer block shares its scope with the parameters.
fn fewer_in_body<'t>(
    types: &mut Types<'_>,
    here: &mut Here<'t>,
    body: &'t Stmt,
) -> Result<Stmt, AllocError>
    requires { StandsInSome types.old here.old }
    ensures tree { (s : Scope) → StandsIn types.old here.old s → IfOk result (λ r. stmt_of r ≡ fewer.fewer_in_body s (stmt_of body.now)) }
    ensures goes { OnOk result (Goes types.old types.new here.old here.new) }
{
    match body {
        Stmt::Block(all) => {
            let trees = fewer_in_all(types, here, all)?;
            Ok(block(trees))
        }
        _ => fewer_in(types, here, body),
    }
}

// The body of a function whose signature is known, in the scope of its parameters.
fn fewer_in_signed<'t>(
    types: &mut Types<'_>,
    here: &mut Here<'t>,
    name: &'t [u8],
    f: &Signature<'t>,
    body: &'t Stmt,
) -> Result<Stmt, AllocError>
    requires { StandsWith types.old here.old f.now }
    ensures tree { (s : Scope) (g : plain.Signature) → StandsIn types.old here.old s → IsSignature types.old s f.now g → IfOk result (λ r. stmt_of r ≡ fewer.fewer_in_body (plain.body_scope s name.now g) (stmt_of body.now)) }
    ensures stays { OnOk result (Stays types.old types.new here.old here.new) }
{
    let mark = enter_body(types, &mut here.declared, name, f)?;
    let tree = fewer_in_body(types, here, body)?;
    leave_body(&mut here.declared, mark)?;
    Ok(tree)
}

/// The body of a function, with calls of helper functions in place of operators. Where the function's signature is
/// refused, it has no body.
pub fn fewer_in_function<'t>(
    types: &mut Types<'_>,
    here: &mut Here<'t>,
    name: &'t [u8],
    at: u32,
    gives: &Ty,
    parameters: &'t Decls,
    body: &'t Stmt,
) -> Result<Stmt, AllocError>
    requires { StandsInSome types.old here.old }
    ensures tree { (s : Scope) → StandsIn types.old here.old s → IsOk (plain.signature s at (ty_of gives.now) (decls_of parameters.now.items.items)) → IfOk result (λ r. stmt_of r ≡ fewer.fewer_in_function s name.now (plain.signature s at (ty_of gives.now) (decls_of parameters.now.items.items)) (stmt_of body.now)) }
    ensures stands { (s : Scope) → StandsIn types.old here.old s → OnOk result (StandsIn types.new here.new s) }
    ensures grows { OnOk result (Grows (known types.old) (known types.new)) }
    ensures tags { OnOk result (types.new.tags ≡ types.old.tags) }
{
    let signature = judge_signature(types, &mut here.declared, at, gives, parameters)?;
    match signature {
        Ok(f) => {
            let made = fewer_in_signed(types, here, name, &f, body)?;
            Ok(made)
        }
        Err(_fault) => Ok(Stmt::Empty),
    }
}
