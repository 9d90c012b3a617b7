// Literals that are passed without code.

ghost use Rattle.std.specs.Prelude.{◌++◌, length};
ghost use Rattle.c_syntax.specs.View.{expr_of, exprs_of};
ghost use Rattle.c_types.specs.Scope.{Scope};
ghost use Rattle.c_types.specs.Table.{Table};
ghost use Rattle.c_operands.specs.Scoped.{Fits};
ghost use Rattle.c_addressing.specs.Here.{IsBehind};
ghost use Rattle.c_eval.specs.LiteralsIn.{literals_in};
ghost use Rattle.c_applied.specs.Calls.{argument_literals, given_literals};

use crate::calls::is_format_name;
use c_addressing::{Here, Literals};
use c_syntax::tree::{Expr, Exprs, Form};

// The literals behind those of an expression.
#[cycle(passed)]
fn passed<'t>(here: &Here<'_>, e: &Expr, literals: Literals<'t>) -> Literals<'t>
    ensures { (table : Table) (s : Scope) → Fits table here.now.declared s → IsBehind literals.entry result (length (literals_in s (expr_of e.now))) }
{
    match &e.form {
        Form::Number(_value, _unsigned) => literals,
        Form::Str(_text) => literals.behind(),
        Form::Null => literals,
        Form::Name(_name) => literals,
        Form::Unary(_op, a) => passed(here, a, literals),
        Form::Step(_op, a) => passed(here, a, literals),
        Form::Binary(_op, a, b) => both_passed(here, a, b, literals),
        Form::Assign(_op, a, b) => both_passed(here, a, b, literals),
        Form::Cond(a, b, c) => all_passed(here, a, b, c, literals),
        Form::Comma(a, b) => both_passed(here, a, b, literals),
        Form::Cast(_t, a) => passed(here, a, literals),
        Form::SizeTy(_t) => literals,
        Form::SizeOf(_a) => literals,
        Form::Index(a, b) => both_passed(here, a, b, literals),
        Form::Call(f, es) => {
            let given = passed(here, f, literals);
            arguments_passed(here, es, is_format_name(here, f), given)
        }
        Form::Member(a, _m) => passed(here, a, literals),
        Form::Arrow(a, _m) => passed(here, a, literals),
    }
}

// Those behind two expressions.
#[cycle(passed)]
fn both_passed<'t>(here: &Here<'_>, a: &Expr, b: &Expr, literals: Literals<'t>) -> Literals<'t>
    ensures { (table : Table) (s : Scope) → Fits table here.now.declared s → IsBehind literals.entry result (length (literals_in s (expr_of a.now) ++ literals_in s (expr_of b.now))) }
{
    let between = passed(here, a, literals);
    passed(here, b, between)
}

// Those behind three.
#[cycle(passed)]
fn all_passed<'t>(
    here: &Here<'_>,
    a: &Expr,
    b: &Expr,
    c: &Expr,
    literals: Literals<'t>,
) -> Literals<'t>
    ensures { (table : Table) (s : Scope) → Fits table here.now.declared s → IsBehind literals.entry result (length (literals_in s (expr_of a.now) ++ (literals_in s (expr_of b.now) ++ literals_in s (expr_of c.now)))) }
{
    let between = passed(here, a, literals);
    both_passed(here, b, c, between)
}

// Those behind an argument, but for one that is skipped.
#[cycle(passed)]
fn argument_passed<'t>(
    here: &Here<'_>,
    e: &Expr,
    skips: bool,
    literals: Literals<'t>,
) -> Literals<'t>
    ensures { (table : Table) (s : Scope) → Fits table here.now.declared s → IsBehind literals.entry result (length (argument_literals skips s (expr_of e.now))) }
{
    if skips {
        literals
    } else {
        passed(here, e, literals)
    }
}

/// Those behind arguments; a format has none.
#[cycle(passed)]
pub fn arguments_passed<'t>(
    here: &Here<'_>,
    es: &Exprs,
    printed: bool,
    literals: Literals<'t>,
) -> Literals<'t>
    ensures { (table : Table) (s : Scope) → Fits table here.now.declared s → IsBehind literals.entry result (length (given_literals printed s (exprs_of es.now))) }
{
    let mut left = literals;
    let mut skips = printed;
    for e in &es.items {
        left = argument_passed(here, e, skips, left);
        skips = false;
    }
    left
}
