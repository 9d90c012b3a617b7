// Statements and parts of statements that are expressions.

ghost use Rattle.std.specs.Prelude.{◌≡◌, ◌++◌, ◌∷◌, [], OnOk, option_map};
ghost use Rattle.c_syntax.specs.View.{expr_of, maybe};
ghost use Rattle.c_eval.specs.Environment.{Environment};
ghost use Rattle.c_eval.specs.LiteralsIn.{literals_in, maybe_literals};
ghost use Rattle.c_code.specs.Code as code;
ghost use Rattle.c_code.specs.Code.{Site, value_code, maybe_test_code, maybe_effect_code, return_code};
ghost use Rattle.c_types.specs.Table.{known};
ghost use Rattle.c_types.specs.Known.{Grows};
ghost use Rattle.c_declared.specs.Held.{HoldsSome};
ghost use Rattle.c_emitted.specs.Emits.{Emits};
ghost use Rattle.c_here.specs.Here.{IsHere};
ghost use Rattle.c_fitting.specs.Fit.{IsFit};
ghost use Rattle.c_fitting.specs.Whole.{MaybeIsFit};

use c_emitted::Emitter;
use c_flat_expressions::{used, value};
use c_here::Here;
use c_plain::Instruction;
use c_syntax::tree::Expr;
use c_types::Types;
use std::alloc::AllocError;
use word24::Word;

/// Code of an expression whose value isn't used.
pub fn effect<'t>(
    types: &mut Types<'_>,
    out: &mut Emitter<'t>,
    here: &Here<'_>,
    e: &'t Expr,
) -> Result<(), AllocError>
    requires { HoldsSome types.old here.now.declared }
    ensures emits { (site : Site) (env : Environment) → IsHere types.old here.now out.old site env → IsFit env.scope (expr_of e.now) → OnOk result (Emits out.old out.new (value_code (expr_of e.now) site env ++ code.Drop ∷ []) (literals_in env.scope (expr_of e.now))) }
    ensures grows { OnOk result (Grows (known types.old) (known types.new)) }
    ensures tags { OnOk result (types.new.tags ≡ types.old.tags) }
{
    let judged = value(types, out, here, e)?;
    out.add(Instruction::Pop)
}

/// Code of a test, which is true where there is no expression.
pub fn tested<'t>(
    types: &mut Types<'_>,
    out: &mut Emitter<'t>,
    here: &Here<'_>,
    e: Option<&'t Expr>,
) -> Result<(), AllocError>
    requires { HoldsSome types.old here.now.declared }
    ensures emits { (site : Site) (env : Environment) → IsHere types.old here.now out.old site env → MaybeIsFit env.scope (option_map (λ x. expr_of x.now) e.entry) → OnOk result (Emits out.old out.new (maybe_test_code (option_map (λ x. expr_of x.now) e.entry) site env) (maybe_literals env.scope (option_map (λ x. expr_of x.now) e.entry))) }
    ensures grows { OnOk result (Grows (known types.old) (known types.new)) }
    ensures tags { OnOk result (types.new.tags ≡ types.old.tags) }
{
    match e {
        Some(there) => {
            let judged = used(types, out, here, there)?;
            Ok(())
        }
        None => out.add(Instruction::PushWord(Word::wrap(1))),
    }
}

/// Code of an expression that may be missing, whose value isn't used.
pub fn stepped<'t>(
    types: &mut Types<'_>,
    out: &mut Emitter<'t>,
    here: &Here<'_>,
    e: Option<&'t Expr>,
) -> Result<(), AllocError>
    requires { HoldsSome types.old here.now.declared }
    ensures emits { (site : Site) (env : Environment) → IsHere types.old here.now out.old site env → MaybeIsFit env.scope (option_map (λ x. expr_of x.now) e.entry) → OnOk result (Emits out.old out.new (maybe_effect_code (option_map (λ x. expr_of x.now) e.entry) site env) (maybe_literals env.scope (option_map (λ x. expr_of x.now) e.entry))) }
    ensures grows { OnOk result (Grows (known types.old) (known types.new)) }
    ensures tags { OnOk result (types.new.tags ≡ types.old.tags) }
{
    match e {
        Some(there) => effect(types, out, here, there),
        None => Ok(()),
    }
}

/// Code of a `return`.
pub fn returned<'t>(
    types: &mut Types<'_>,
    out: &mut Emitter<'t>,
    here: &Here<'_>,
    e: &'t Option<Expr>,
) -> Result<(), AllocError>
    requires { HoldsSome types.old here.now.declared }
    ensures emits { (site : Site) (env : Environment) → IsHere types.old here.now out.old site env → MaybeIsFit env.scope (maybe e.now) → OnOk result (Emits out.old out.new (return_code (maybe e.now) site env) (maybe_literals env.scope (maybe e.now))) }
    ensures grows { OnOk result (Grows (known types.old) (known types.new)) }
    ensures tags { OnOk result (types.new.tags ≡ types.old.tags) }
{
    match e {
        Some(there) => {
            let judged = used(types, out, here, there)?;
            out.add(Instruction::Return)
        }
        None => {
            out.missing()?;
            out.add(Instruction::Return)
        }
    }
}

/// An expression that may be missing.
pub fn there(e: &Option<Expr>) -> Option<&Expr>
    ensures { option_map (λ x. expr_of x.now) result ≡ maybe e.now }
{
    match e {
        Some(expression) => Some(expression),
        None => None,
    }
}
