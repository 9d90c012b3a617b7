// The string literals of expressions.

ghost use Rattle.std.specs.Prelude.{◌≡◌, ◌++◌, [], ◌∷◌, OnOk};
ghost use Rattle.c_syntax.specs.View.{expr_of, exprs_of, maybe};
ghost use Rattle.c_types.specs.Scope.{Scope};
ghost use Rattle.c_types.specs.Table.{Table};
ghost use Rattle.c_operands.specs.Scoped.{Fits};
ghost use Rattle.c_eval.specs.LiteralsIn.{literals_in, names_printf};
ghost use Rattle.c_eval.specs.LiteralsIn as definition;
ghost use Rattle.c_applied.specs.Calls.{is_format, argument_literals, given_literals};
ghost use Rattle.c_lower_literals.specs.Gathered.{Adds};

use c_expressions::name_in;
use c_operands::Declarations;
use c_scopes::Entity;
use c_syntax::tree::{Expr, Exprs, Form};
use std::alloc::AllocError;

// A text more.
fn add_text<'t>(text: &'t [u8], texts: &mut Vec<&'t [u8]>) -> Result<(), AllocError>
    ensures { OnOk result (Adds texts.old.items texts.new.items (text.now ∷ [])) }
{
    texts.push(text)?;
    Ok(())
}

// Whether an entity is `printf`.
fn is_format(entity: Option<Entity>) -> bool
    ensures { result ≡ is_format entity }
{
    matches!(entity, Some(Entity::Printf))
}

// Whether an expression is the name of `printf`.
fn names_printf(declared: &Declarations<'_>, f: &Expr) -> bool
    ensures { (table : Table) (s : Scope) → Fits table declared.now s → result ≡ names_printf s (expr_of f.now) }
{
    match name_in(f) {
        Some(name) => is_format(declared.names.get(name)),
        None => false,
    }
}

/// The texts of an expression's string literals, behind others.
#[cycle(gathers)]
pub fn expression_literals<'t>(
    declared: &Declarations<'_>,
    e: &'t Expr,
    texts: &mut Vec<&'t [u8]>,
) -> Result<(), AllocError>
    ensures { (table : Table) (s : Scope) → Fits table declared.now s → OnOk result (Adds texts.old.items texts.new.items (literals_in s (expr_of e.now))) }
{
    match &e.form {
        Form::Number(_value, _unsigned) => Ok(()),
        Form::Str(text) => add_text(text.as_bytes(), texts),
        Form::Null => Ok(()),
        Form::Name(_name) => Ok(()),
        Form::Unary(_op, a) => expression_literals(declared, a, texts),
        Form::Step(_op, a) => expression_literals(declared, a, texts),
        Form::Binary(_op, a, b) => both_literals(declared, a, b, texts),
        Form::Assign(_op, a, b) => both_literals(declared, a, b, texts),
        Form::Cond(a, b, c) => choice_literals(declared, a, b, c, texts),
        Form::Comma(a, b) => both_literals(declared, a, b, texts),
        Form::Cast(_t, a) => expression_literals(declared, a, texts),
        Form::SizeTy(_t) => Ok(()),
        Form::SizeOf(_a) => Ok(()),
        Form::Index(a, b) => both_literals(declared, a, b, texts),
        Form::Call(f, es) => call_literals(declared, f, es, texts),
        Form::Member(a, _m) => expression_literals(declared, a, texts),
        Form::Arrow(a, _m) => expression_literals(declared, a, texts),
    }
}

// Those of two expressions.
#[cycle(gathers)]
fn both_literals<'t>(
    declared: &Declarations<'_>,
    a: &'t Expr,
    b: &'t Expr,
    texts: &mut Vec<&'t [u8]>,
) -> Result<(), AllocError>
    ensures { (table : Table) (s : Scope) → Fits table declared.now s → OnOk result (Adds texts.old.items texts.new.items (literals_in s (expr_of a.now) ++ literals_in s (expr_of b.now))) }
{
    expression_literals(declared, a, texts)?;
    expression_literals(declared, b, texts)
}

// Those of three.
#[cycle(gathers)]
fn choice_literals<'t>(
    declared: &Declarations<'_>,
    a: &'t Expr,
    b: &'t Expr,
    c: &'t Expr,
    texts: &mut Vec<&'t [u8]>,
) -> Result<(), AllocError>
    ensures { (table : Table) (s : Scope) → Fits table declared.now s → OnOk result (Adds texts.old.items texts.new.items (literals_in s (expr_of a.now) ++ (literals_in s (expr_of b.now) ++ literals_in s (expr_of c.now)))) }
{
    expression_literals(declared, a, texts)?;
    both_literals(declared, b, c, texts)
}

// Those of a call: a format is no object.
#[cycle(gathers)]
fn call_literals<'t>(
    declared: &Declarations<'_>,
    f: &'t Expr,
    es: &'t Exprs,
    texts: &mut Vec<&'t [u8]>,
) -> Result<(), AllocError>
    ensures { (table : Table) (s : Scope) → Fits table declared.now s → OnOk result (Adds texts.old.items texts.new.items (literals_in s (expr_of f.now) ++ given_literals (names_printf s (expr_of f.now)) s (exprs_of es.now))) }
{
    expression_literals(declared, f, texts)?;
    arguments_literals(declared, es, names_printf(declared, f), texts)
}

// Those of an argument, but for a format.
#[cycle(gathers)]
fn argument_literals<'t>(
    declared: &Declarations<'_>,
    e: &'t Expr,
    skips: bool,
    texts: &mut Vec<&'t [u8]>,
) -> Result<(), AllocError>
    ensures { (table : Table) (s : Scope) → Fits table declared.now s → OnOk result (Adds texts.old.items texts.new.items (argument_literals skips s (expr_of e.now))) }
{
    if skips {
        Ok(())
    } else {
        expression_literals(declared, e, texts)
    }
}

// Those of arguments, of which the first may be a format.
#[cycle(gathers)]
fn arguments_literals<'t>(
    declared: &Declarations<'_>,
    es: &'t Exprs,
    printed: bool,
    texts: &mut Vec<&'t [u8]>,
) -> Result<(), AllocError>
    ensures { (table : Table) (s : Scope) → Fits table declared.now s → OnOk result (Adds texts.old.items texts.new.items (given_literals printed s (exprs_of es.now))) }
{
    let mut skips = printed;
    for e in &es.items {
        argument_literals(declared, e, skips, texts)?;
        skips = false;
    }
    Ok(())
}

/// The texts of the string literals of an expression that may be missing, behind others.
pub fn maybe_literals<'t>(
    declared: &Declarations<'_>,
    e: &'t Option<Expr>,
    texts: &mut Vec<&'t [u8]>,
) -> Result<(), AllocError>
    ensures { (table : Table) (s : Scope) → Fits table declared.now s → OnOk result (Adds texts.old.items texts.new.items (definition.maybe_literals s (maybe e.now))) }
{
    match e {
        Some(there) => expression_literals(declared, there, texts),
        None => Ok(()),
    }
}
