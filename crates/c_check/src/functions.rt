// Functions that are declared and defined.

ghost use Rattle.std.specs.Prelude.{◌≡◌, Some, option_map, is_some, if◌then◌else◌, IfOk, OnOk};
ghost use Rattle.std.specs.Result.{result_err};
ghost use Rattle.c_syntax.specs.Plain as tree;
ghost use Rattle.c_syntax.specs.View.{ty_of, decls_of, stmt_of, maybe_stmt};
ghost use Rattle.c_types.specs.Declarations.{scope_or};
ghost use Rattle.c_types.specs.Scope as scope;
ghost use Rattle.c_types.specs.Scope.{Scope, with_name};
ghost use Rattle.c_types.specs.Statements as statements;
ghost use Rattle.c_types.specs.Units as plain;
ghost use Rattle.c_types.specs.Units.{body_judged, body_scope, around_body, declared_function, item_judged};
ghost use Rattle.c_types.specs.Table.{known, IsType};
ghost use Rattle.c_types.specs.Known.{Grows};
ghost use Rattle.c_operands.specs.Scoped.{IsEntity};
ghost use Rattle.c_conditions.specs.Standing.{StandsIn};
ghost use Rattle.c_declared.specs.Held.{Holds, HoldsSome, IsAround};
ghost use Rattle.c_signatures.specs.Blocks.{IsSame};
ghost use Rattle.c_signatures.specs.Signatures.{IsSignature};
ghost use Rattle.c_statements.specs.Trees.{stmts_of};
ghost use Rattle.c_census.specs.Sums.{HoldsWith};
ghost use Rattle.c_check.specs.Bodies.{block_in};

use c_conditions::Around;
use c_declared::{broken_rule, declare, entity_behind, found_here, may_declare, merged_behind};
use c_operands::Declarations;
use c_scopes::Entity;
use c_signatures::{Signature, enter_body, judge_signature, leave_body};
use c_statements::{state, state_all};
use c_syntax::tree::{Decls, Stmt, Stmts, Ty};
use c_types::{TypeFault, Types};
use std::alloc::AllocError;

// The statements of a block, if a statement is one.
fn block_in(body: &Stmt) -> Option<&Stmts>
    ensures { option_map (λ all. stmts_of all.now) result ≡ block_in (stmt_of body.now) }
{
    match body {
        Stmt::Block(all) => Some(all),
        _ => None,
    }
}

// The refusal of a body, whose outer block shares its scope with the parameters.
fn judge_outer<'t>(
    types: &mut Types<'_>,
    declared: &mut Declarations<'t>,
    around: Around,
    body: &'t Stmt,
) -> Result<Option<TypeFault>, AllocError>
    requires holds { HoldsSome types.old declared.old }
    requires result { IsType types.old around.result }
    ensures judged { (s : Scope) (w : statements.Around) → Holds types.old declared.old s → StandsIn types.old around w → IfOk result (λ r. r ≡ result_err (body_judged s w (Some (stmt_of body.now)))) }
    ensures grows { OnOk result (Grows (known types.old) (known types.new)) }
    ensures tags { OnOk result (types.new.tags ≡ types.old.tags) }
    ensures around { OnOk result (IsAround declared.old declared.new) }
{
    match block_in(body) {
        Some(all) => state_all(types, declared, around, all),
        None => state(types, declared, around, body),
    }
}

// The refusal of a function's body, in the scope of its parameters.
fn judge_inner<'t>(
    types: &mut Types<'_>,
    declared: &mut Declarations<'t>,
    name: &'t [u8],
    f: &Signature<'t>,
    body: &'t Stmt,
) -> Result<Option<TypeFault>, AllocError>
    requires { HoldsWith types.old declared.old f.now }
    ensures judged { (s : Scope) (g : plain.Signature) → Holds types.old declared.old s → IsSignature types.old s f.now g → IfOk result (λ r. r ≡ result_err (body_judged (body_scope s name.now g) (around_body g) (Some (stmt_of body.now)))) }
    ensures same { OnOk result (IsSame declared.old declared.new) }
    ensures grows { OnOk result (Grows (known types.old) (known types.new)) }
    ensures tags { OnOk result (types.new.tags ≡ types.old.tags) }
{
    let mark = enter_body(types, declared, name, f)?;
    let around = Around {
        result: f.result,
        continues: false,
        breaks: false,
    };
    let refusal = judge_outer(types, declared, around, body)?;
    leave_body(declared, mark)?;
    Ok(refusal)
}

// The refusal of a function's body, if it has one that is refused.
fn judge_body<'t>(
    types: &mut Types<'_>,
    declared: &mut Declarations<'t>,
    name: &'t [u8],
    f: &Signature<'t>,
    body: &'t Option<Stmt>,
) -> Result<Option<TypeFault>, AllocError>
    requires { HoldsWith types.old declared.old f.now }
    ensures judged { (s : Scope) (g : plain.Signature) → Holds types.old declared.old s → IsSignature types.old s f.now g → IfOk result (λ r. r ≡ result_err (body_judged (body_scope s name.now g) (around_body g) (maybe_stmt body.now))) }
    ensures same { OnOk result (IsSame declared.old declared.new) }
    ensures grows { OnOk result (Grows (known types.old) (known types.new)) }
    ensures tags { OnOk result (types.new.tags ≡ types.old.tags) }
{
    match body {
        Some(there) => judge_inner(types, declared, name, f, there),
        None => Ok(None),
    }
}

// A name stands for something from now on, if nothing is refused.
fn declare_unless<'t>(
    types: &Types<'_>,
    declared: &mut Declarations<'t>,
    name: &'t [u8],
    entity: Entity,
    refusal: Option<TypeFault>,
) -> Result<(), AllocError>
    ensures { (s : Scope) (e : scope.Entity) → Holds types.now declared.old s → IsEntity types.now entity e → OnOk result (Holds types.now declared.new (if is_some refusal then s else with_name s name.now e)) }
{
    match refusal {
        Some(_) => Ok(()),
        None => declare(types, declared, name, entity),
    }
}

// The refusal of a function whose signature is known, if it is refused. Where it isn't, its name is declared.
fn declare_function<'t>(
    types: &mut Types<'_>,
    declared: &mut Declarations<'t>,
    name: &'t [u8],
    at: u32,
    f: &Signature<'t>,
    body: &'t Option<Stmt>,
) -> Result<Option<TypeFault>, AllocError>
    requires { HoldsWith types.old declared.old f.now }
    ensures judged { (s : Scope) (g : plain.Signature) → Holds types.old declared.old s → IsSignature types.old s f.now g → IfOk result (λ r. r ≡ result_err (declared_function s name.now at (maybe_stmt body.now) g)) }
    ensures holds { (s : Scope) (g : plain.Signature) → Holds types.old declared.old s → IsSignature types.old s f.now g → OnOk result (Holds types.new declared.new (scope_or s (declared_function s name.now at (maybe_stmt body.now) g))) }
    ensures grows { OnOk result (Grows (known types.old) (known types.new)) }
    ensures tags { OnOk result (types.new.tags ≡ types.old.tags) }
{
    let parts = judge_body(types, declared, name, f, body)?;
    let found = found_here(types, declared, name);
    let defines = body.is_some();
    let kept = may_declare(types, found, f.ty, defines);
    let refusal = merged_behind(parts, broken_rule(kept, TypeFault::Twice(at)));
    let entity = entity_behind(found, f.ty, defines);
    declare_unless(types, declared, name, entity, refusal)?;
    Ok(refusal)
}

/// The refusal of a function, if it is refused. Where it isn't, its name is declared.
pub fn judge_function<'t>(
    types: &mut Types<'_>,
    declared: &mut Declarations<'t>,
    name: &'t [u8],
    at: u32,
    gives: &Ty,
    parameters: &'t Decls,
    body: &'t Option<Stmt>,
) -> Result<Option<TypeFault>, AllocError>
    requires { HoldsSome types.old declared.old }
    ensures judged { (s : Scope) → Holds types.old declared.old s → IfOk result (λ r. r ≡ result_err (item_judged s (tree.Function name.now at (ty_of gives.now) (decls_of parameters.now.items.items) (maybe_stmt body.now)))) }
    ensures holds { (s : Scope) → Holds types.old declared.old s → OnOk result (Holds types.new declared.new (scope_or s (item_judged s (tree.Function name.now at (ty_of gives.now) (decls_of parameters.now.items.items) (maybe_stmt body.now))))) }
    ensures grows { OnOk result (Grows (known types.old) (known types.new)) }
    ensures tags { OnOk result (types.new.tags ≡ types.old.tags) }
{
    let signature = judge_signature(types, declared, at, gives, parameters)?;
    match signature {
        Ok(f) => declare_function(types, declared, name, at, &f, body),
        Err(fault) => Ok(Some(fault)),
    }
}
