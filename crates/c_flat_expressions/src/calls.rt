// What calls take beside their arguments.

ghost use Rattle.std.specs.Prelude.{◌≡◌, ◌++◌, ◌∷◌, [], IfOk, OnOk};
ghost use Rattle.c_syntax.specs.View.{expr_of, exprs_of};
ghost use Rattle.c_types.specs.Types.{CTypes};
ghost use Rattle.c_types.specs.Refusals as refusals;
ghost use Rattle.c_types.specs.Operands as plain;
ghost use Rattle.c_types.specs.Scope.{Scope, entity_of};
ghost use Rattle.c_types.specs.Expressions.{format_of};
ghost use Rattle.c_eval.specs.Environment.{Environment, callee_in, named_callee};
ghost use Rattle.c_eval.specs.LiteralsIn.{names_printf};
ghost use Rattle.c_code.specs.Code as code;
ghost use Rattle.c_code.specs.Code.{Site, name_code, count_of, count_behind};
ghost use Rattle.c_types.specs.Table.{known};
ghost use Rattle.c_types.specs.Known.{Grows};
ghost use Rattle.c_operands.specs.Seen.{IsJudged};
ghost use Rattle.c_operands.specs.Arguments.{IsCallee, HasList, IsList};
ghost use Rattle.c_operands.specs.Scoped.{Fits};
ghost use Rattle.c_declared.specs.Held.{HoldsSome};
ghost use Rattle.c_expressions.specs.Told.{IsSomeCallee};
ghost use Rattle.c_emitted.specs.Emits.{Emits};
ghost use Rattle.c_here.specs.Here.{IsHere};
ghost use Rattle.c_flat_expressions.specs.Parts.{is_format, pointer_code, ending_code, parameters_told, parameters_in};

use c_emitted::Emitter;
use c_expressions::{format_of, name_in};
use c_here::{Here, named_value};
use c_operands::{Callee, Declarations, Judged, names_function};
use c_pieces::{direct, parameter_list, pointed_list, print, through};
use c_plain::{Instruction, Unary};
use c_scopes::Entity;
use c_syntax::tree::{Expr, Exprs};
use c_types::{Shape, Types};
use std::alloc::AllocError;

// Whether a name stands for `printf`.
fn is_format(entity: Option<Entity>) -> bool
    ensures { result ≡ is_format entity }
{
    match entity {
        Some(found) => match found {
            Entity::Object(_) => false,
            Entity::Routine(_, _) => false,
            Entity::BuiltIn(_) => false,
            Entity::Printf => true,
        },
        None => false,
    }
}

/// Whether an expression is the name of `printf`.
pub fn is_printf_name(types: &Types<'_>, declared: &Declarations<'_>, f: &Expr) -> bool
    ensures { (s : Scope) → Fits types.now declared.now s → result ≡ names_printf s (expr_of f.now) }
{
    let _types = types;
    match name_in(f) {
        Some(name) => is_format(declared.names.get(name)),
        None => false,
    }
}

/// The value of a name that is called, unless it is a function's.
pub fn named_pointer<'t>(
    types: &Types<'_>,
    out: &mut Emitter<'t>,
    here: &Here<'_>,
    name: &'t [u8],
) -> Result<(), AllocError>
    requires { HoldsSome types.now here.now.declared }
    ensures { (site : Site) (env : Environment) → IsHere types.now here.now out.old site env → OnOk result (Emits out.old out.new (pointer_code (named_callee name.now (entity_of env.scope name.now)) (name_code site env name.now (entity_of env.scope name.now) ++ code.Use ∷ [])) []) }
{
    if names_function(types, &here.declared, name) {
        return Ok(());
    }
    named_value(types, out, here, name)?;
    out.add(Instruction::Unary(Unary::Use))
}

// The parameters of what is called, none where it is refused.
fn parameters(types: &mut Types<'_>, callee: Judged<Callee>) -> Result<usize, AllocError>
    requires { IsSomeCallee types.old callee }
    ensures list { (p : refusals.Judged plain.Callee) → IsJudged (IsCallee types.old) callee p → IfOk result (λ n. HasList types.new n (parameters_told p)) }
    ensures grows { OnOk result (Grows (known types.old) (known types.new)) }
    ensures tags { OnOk result (types.new.tags ≡ types.old.tags) }
{
    match callee {
        Ok(what) => match what {
            Callee::Direct(ty, _defined) => parameter_list(types, ty),
            Callee::Format => types.number(Shape::NoType),
            Callee::Through(ty) => pointed_list(types, ty),
        },
        Err(_fault) => types.number(Shape::NoType),
    }
}

// What the call of a name does behind its arguments.
fn named_ending<'t>(
    types: &Types<'_>,
    out: &mut Emitter<'t>,
    declared: &Declarations<'_>,
    name: &'t [u8],
    arguments: &Exprs,
    list: usize,
) -> Result<(), AllocError>
    requires { IsList types.now list }
    ensures { (s : Scope) → Fits types.now declared.now s → HasList types.now list (parameters_in (named_callee name.now (entity_of s name.now))) → OnOk result (Emits out.old out.new (ending_code (named_callee name.now (entity_of s name.now)) (format_of (exprs_of arguments.now)) (count_of (exprs_of arguments.now)) (count_behind (exprs_of arguments.now))) []) }
{
    let count = arguments.items.len();
    match declared.names.get(name) {
        Some(Entity::Routine(_ty, _begun)) => direct(types, out, name, list, count),
        Some(Entity::BuiltIn(_ty)) => {
            out.add(Instruction::Pay)?;
            c_pieces::known(types, out, name, list, count)
        }
        Some(Entity::Printf) => {
            out.add(Instruction::Pay)?;
            print(out, format_of(arguments), count.saturating_sub(1))
        }
        Some(Entity::Object(_ty)) => through(types, out, list, count),
        None => through(types, out, list, count),
    }
}

/// What a call does behind its arguments.
pub fn ending<'t>(
    types: &mut Types<'_>,
    out: &mut Emitter<'t>,
    declared: &Declarations<'_>,
    f: &'t Expr,
    arguments: &Exprs,
    callee: Judged<Callee>,
) -> Result<(), AllocError>
    requires { IsSomeCallee types.old callee }
    ensures emits { (s : Scope) (p : refusals.Judged plain.Callee) → Fits types.old declared.now s → IsJudged (IsCallee types.old) callee p → parameters_told p ≡ parameters_in (callee_in s (expr_of f.now)) → OnOk result (Emits out.old out.new (ending_code (callee_in s (expr_of f.now)) (format_of (exprs_of arguments.now)) (count_of (exprs_of arguments.now)) (count_behind (exprs_of arguments.now))) []) }
    ensures grows { OnOk result (Grows (known types.old) (known types.new)) }
    ensures tags { OnOk result (types.new.tags ≡ types.old.tags) }
{
    let list = parameters(types, callee)?;
    match name_in(f) {
        Some(name) => named_ending(types, out, declared, name, arguments, list),
        None => through(types, out, list, arguments.items.len()),
    }
}
