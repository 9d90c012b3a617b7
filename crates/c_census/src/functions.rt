// Sums over functions.

ghost use Rattle.std.specs.Prelude.{◌≡◌, ◌+◌, IfOk, OnOk};
ghost use Rattle.c_syntax.specs.Plain as tree;
ghost use Rattle.c_syntax.specs.View.{ty_of, decls_of, stmt_of, maybe_stmt};
ghost use Rattle.c_types.specs.Refusals as refusals;
ghost use Rattle.c_types.specs.Scope.{Scope, entered};
ghost use Rattle.c_types.specs.Units as plain;
ghost use Rattle.c_types.specs.Units.{body_scope};
ghost use Rattle.c_types.specs.Census.{parameters_sum, body_sum, maybe_body_sum, item_sum};
ghost use Rattle.c_types.specs.Table.{known};
ghost use Rattle.c_types.specs.Known.{Grows};
ghost use Rattle.c_operands.specs.Seen.{IsJudged};
ghost use Rattle.c_declared.specs.Held.{Holds, HoldsSome, IsAround};
ghost use Rattle.c_signatures.specs.Blocks.{IsSame};
ghost use Rattle.c_signatures.specs.Signatures.{IsSignature};
ghost use Rattle.c_weights.specs.Sums.{Sums, AreCounted};
ghost use Rattle.c_census.specs.Sums.{AreMoved, HoldsWith};

use crate::members::{count_parameters, declared_sum};
use crate::statements::{count_list, count_statement};
use c_expressions::written;
use c_operands::{Declarations, Judged};
use c_signatures::{Signature, begin_block, end_block, enter_body, judge_signature, leave_body};
use c_syntax::tree::{Decls, Stmt, Ty};
use c_types::Types;
use c_weights::{Sum, count_type};
use std::alloc::AllocError;

// The sum over a body, whose outer block shares its scope with the parameters.
fn count_outer<'t>(
    types: &mut Types<'_>,
    declared: &mut Declarations<'t>,
    body: &'t Stmt,
) -> Result<Sum, AllocError>
    requires { HoldsSome types.old declared.old }
    ensures counted { IfOk result (λ r. AreCounted types.old types.new declared.old r (λ s k. body_sum k s (stmt_of body.now))) }
    ensures around { OnOk result (IsAround declared.old declared.new) }
{
    match body {
        Stmt::Block(all) => {
            let parts = count_list(types, declared, all)?;
            Ok(Sum::node().plus(parts))
        }
        _ => count_statement(types, declared, body),
    }
}

/// The sum over a body in the scope of its function's parameters.
pub fn count_inner<'t>(
    types: &mut Types<'_>,
    declared: &mut Declarations<'t>,
    name: &'t [u8],
    f: &Signature<'t>,
    body: &'t Stmt,
) -> Result<Sum, AllocError>
    requires { HoldsWith types.old declared.old f.now }
    ensures counted { (s : Scope) (g : plain.Signature) → Holds types.old declared.old s → IsSignature types.old s f.now g → IfOk result (λ r. Sums r (λ k. body_sum k (body_scope s name.now g) (stmt_of body.now))) }
    ensures same { OnOk result (IsSame declared.old declared.new) }
    ensures grows { OnOk result (Grows (known types.old) (known types.new)) }
    ensures tags { OnOk result (types.new.tags ≡ types.old.tags) }
{
    let mark = enter_body(types, declared, name, f)?;
    let sum = count_outer(types, declared, body)?;
    leave_body(declared, mark)?;
    Ok(sum)
}

// The sum over the body of a function, if it has one and its signature isn't refused.
fn count_definition<'t>(
    types: &mut Types<'_>,
    declared: &mut Declarations<'t>,
    name: &'t [u8],
    signature: Judged<Signature<'t>>,
    body: &'t Option<Stmt>,
) -> Result<Sum, AllocError>
    requires { (s : Scope) × (p : refusals.Judged plain.Signature) × Holds types.old declared.old s × IsJudged (IsSignature types.old s) signature p }
    ensures counted { (s : Scope) (p : refusals.Judged plain.Signature) → Holds types.old declared.old s → IsJudged (IsSignature types.old s) signature.entry p → IfOk result (λ r. Sums r (λ k. maybe_body_sum k s name.now (maybe_stmt body.now) p)) }
    ensures same { OnOk result (IsSame declared.old declared.new) }
    ensures grows { OnOk result (Grows (known types.old) (known types.new)) }
    ensures tags { OnOk result (types.new.tags ≡ types.old.tags) }
{
    match body {
        Some(there) => match signature {
            Ok(f) => count_inner(types, declared, name, &f, there),
            Err(_) => Ok(Sum::nothing()),
        },
        None => Ok(Sum::nothing()),
    }
}

// The sum over the parameters of a function, in a block of their own.
fn count_signature<'t>(
    types: &mut Types<'_>,
    declared: &mut Declarations<'t>,
    parameters: &'t Decls,
) -> Result<Sum, AllocError>
    requires { HoldsSome types.old declared.old }
    ensures { IfOk result (λ r. AreMoved types.old types.new declared.old declared.new r (λ s k. parameters_sum k (entered s) (decls_of parameters.now.items.items)) (λ s. s)) }
{
    let mark = begin_block(declared);
    let sum = count_parameters(types, declared, parameters)?;
    end_block(declared, mark)?;
    Ok(sum)
}

/// The sum over a function.
pub fn count_function<'t>(
    types: &mut Types<'_>,
    declared: &mut Declarations<'t>,
    name: &'t [u8],
    at: u32,
    gives: &Ty,
    parameters: &'t Decls,
    body: &'t Option<Stmt>,
) -> Result<Sum, AllocError>
    requires { HoldsSome types.old declared.old }
    ensures counted { IfOk result (λ r. AreCounted types.old types.new declared.old r (λ s k. item_sum k s (tree.Function name.now at (ty_of gives.now) (decls_of parameters.now.items.items) (maybe_stmt body.now)))) }
    ensures holds { (s : Scope) → Holds types.old declared.old s → OnOk result (Holds types.new declared.new s) }
{
    let ty = written(types, declared, at, gives)?;
    let own = declared_sum(types, declared.layouts.as_slice(), ty);
    let first = count_type(types, declared, gives)?;
    let all = count_signature(types, declared, parameters)?;
    let signature = judge_signature(types, declared, at, gives, parameters)?;
    let rest = count_definition(types, declared, name, signature, body)?;
    Ok(Sum::node().plus(first).plus(own).plus(all).plus(rest))
}
