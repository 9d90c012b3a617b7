// Statements with fewer operators.

ghost use Rattle.std.specs.Prelude.{◌≡◌, map, IfOk, OnOk};
ghost use Rattle.c_syntax.specs.Plain as plain;
ghost use Rattle.c_syntax.specs.Plain.{stmts, parts};
ghost use Rattle.c_syntax.specs.View.{expr_of, maybe, decl_of, stmt_of, part_of};
ghost use Rattle.c_types.specs.Scope.{Scope, entered};
ghost use Rattle.c_types.specs.Census.{scope_behind, scope_behind_all, scope_behind_part};
ghost use Rattle.c_statements.specs.Trees.{stmts_of, parts_of};
ghost use Rattle.c_helpers.specs.Fewer as fewer;
ghost use Rattle.c_fewer_declarations.specs.Standing.{StandsIn, StandsInSome};
ghost use Rattle.c_fewer_parts.specs.Going.{Goes, Stays, TurnsFrom};

use c_fewer_declarations::fewer_in_local;
use c_fewer_expressions::fewer;
use c_fewer_operators::Here;
use c_fewer_parts::locals::{announce, forgotten, withdraw};
use c_fewer_parts::parts::{
    Turns, choice, counted, maybe_constant, maybe_fewer, repeated, selection,
};
use c_signatures::{begin_block, end_block};
use c_syntax::tree::{Decl, Expr, Part, Parts, Stmt, Stmts};
use c_terms::{block, looped, when};
use c_types::Types;
use std::alloc::AllocError;

/// A statement, with calls of helper functions in place of operators.
#[cycle(fewer_in)]
pub fn fewer_in<'t>(
    types: &mut Types<'_>,
    here: &mut Here<'t>,
    statement: &'t Stmt,
) -> Result<Stmt, AllocError>
    requires { StandsInSome types.old here.old }
    ensures tree { (s : Scope) → StandsIn types.old here.old s → IfOk result (λ r. stmt_of r ≡ fewer.fewer_in s (stmt_of statement.now)) }
    ensures behind { (s : Scope) → StandsIn types.old here.old s → OnOk result (StandsIn types.new here.new (scope_behind s (stmt_of statement.now))) }
    ensures goes { OnOk result (Goes types.old types.new here.old here.new) }
{
    match statement {
        Stmt::Block(all) => enclosed(types, here, all),
        Stmt::Local(d) => {
            let local = fewer_in_local(types, here, d)?;
            Ok(Stmt::Local(local))
        }
        Stmt::Expr(e) => {
            let part = fewer(types, here, e)?;
            Ok(Stmt::Expr(part.tree))
        }
        Stmt::Empty => Ok(Stmt::Empty),
        Stmt::If(e, t, other) => match other {
            None => guarded(types, here, e, t),
            Some(second) => chosen(types, here, e, t, second),
        },
        Stmt::While(e, t) => again(types, here, e, t),
        Stmt::Do(t, e) => once_more(types, here, t, e),
        Stmt::For(first, test, step, t) => counting(types, here, first, test, step, t),
        Stmt::Return(at, e) => {
            let value = maybe_fewer(types, here, e)?;
            Ok(Stmt::Return(*at, value))
        }
        Stmt::Break(at) => Ok(Stmt::Break(*at)),
        Stmt::Continue(at) => Ok(Stmt::Continue(*at)),
        Stmt::Switch(e, all) => switch(types, here, e, all),
    }
}

// A statement whose names are no longer in scope behind it.
#[cycle(fewer_in)]
fn alone<'t>(
    types: &mut Types<'_>,
    here: &mut Here<'t>,
    statement: &'t Stmt,
) -> Result<Stmt, AllocError>
    requires { StandsInSome types.old here.old }
    ensures tree { (s : Scope) → StandsIn types.old here.old s → IfOk result (λ r. stmt_of r ≡ fewer.fewer_in s (stmt_of statement.now)) }
    ensures stays { OnOk result (Stays types.old types.new here.old here.new) }
{
    match statement {
        Stmt::Local(d) => forgotten(types, here, d),
        _ => fewer_in(types, here, statement),
    }
}

// A block.
#[cycle(fewer_in)]
fn enclosed<'t>(
    types: &mut Types<'_>,
    here: &mut Here<'t>,
    all: &'t Stmts,
) -> Result<Stmt, AllocError>
    requires { StandsInSome types.old here.old }
    ensures tree { (s : Scope) → StandsIn types.old here.old s → IfOk result (λ r. stmt_of r ≡ plain.Block (fewer.fewer_in_all (entered s) (stmts_of all.now))) }
    ensures stays { OnOk result (Stays types.old types.new here.old here.new) }
{
    let mark = begin_block(&mut here.declared);
    let trees = fewer_in_all(types, here, all)?;
    end_block(&mut here.declared, mark)?;
    Ok(block(trees))
}

/// Statements, one after the other.
#[cycle(fewer_in)]
pub fn fewer_in_all<'t>(
    types: &mut Types<'_>,
    here: &mut Here<'t>,
    all: &'t Stmts,
) -> Result<Vec<Stmt>, AllocError>
    requires { StandsInSome types.old here.old }
    ensures tree { (s : Scope) → StandsIn types.old here.old s → IfOk result (λ r. stmts (map stmt_of r.items) ≡ fewer.fewer_in_all s (stmts_of all.now)) }
    ensures behind { (s : Scope) → StandsIn types.old here.old s → OnOk result (StandsIn types.new here.new (scope_behind_all s (stmts_of all.now))) }
    ensures goes { OnOk result (Goes types.old types.new here.old here.new) }
{
    let mut trees = Vec::new(here.declared.alloc);
    for statement in &all.items {
        let tree = fewer_in(types, here, statement)?;
        trees.push(tree)?;
    }
    Ok(trees)
}

// A statement where a condition holds.
#[cycle(fewer_in)]
fn guarded<'t>(
    types: &mut Types<'_>,
    here: &mut Here<'t>,
    test: &Expr,
    body: &'t Stmt,
) -> Result<Stmt, AllocError>
    requires { StandsInSome types.old here.old }
    ensures tree { (s : Scope) → StandsIn types.old here.old s → IfOk result (λ r. stmt_of r ≡ plain.If (fewer.fewer s (expr_of test.now)) (fewer.fewer_in s (stmt_of body.now))) }
    ensures stays { OnOk result (Stays types.old types.new here.old here.new) }
{
    let e = fewer(types, here, test)?;
    let t = alone(types, here, body)?;
    when(here.declared.alloc, e.tree, t)
}

// One of two statements.
#[cycle(fewer_in)]
fn chosen<'t>(
    types: &mut Types<'_>,
    here: &mut Here<'t>,
    test: &Expr,
    body: &'t Stmt,
    other: &'t Stmt,
) -> Result<Stmt, AllocError>
    requires { StandsInSome types.old here.old }
    ensures tree { (s : Scope) → StandsIn types.old here.old s → IfOk result (λ r. stmt_of r ≡ plain.IfElse (fewer.fewer s (expr_of test.now)) (fewer.fewer_in s (stmt_of body.now)) (fewer.fewer_in s (stmt_of other.now))) }
    ensures stays { OnOk result (Stays types.old types.new here.old here.new) }
{
    let e = fewer(types, here, test)?;
    let t = alone(types, here, body)?;
    let u = alone(types, here, other)?;
    choice(here.declared.alloc, e.tree, t, u)
}

// A statement again and again, while a condition holds.
#[cycle(fewer_in)]
fn again<'t>(
    types: &mut Types<'_>,
    here: &mut Here<'t>,
    test: &Expr,
    body: &'t Stmt,
) -> Result<Stmt, AllocError>
    requires { StandsInSome types.old here.old }
    ensures tree { (s : Scope) → StandsIn types.old here.old s → IfOk result (λ r. stmt_of r ≡ plain.While (fewer.fewer s (expr_of test.now)) (fewer.fewer_in s (stmt_of body.now))) }
    ensures stays { OnOk result (Stays types.old types.new here.old here.new) }
{
    let e = fewer(types, here, test)?;
    let t = alone(types, here, body)?;
    looped(here.declared.alloc, e.tree, t)
}

// A statement, and again while a condition holds.
#[cycle(fewer_in)]
fn once_more<'t>(
    types: &mut Types<'_>,
    here: &mut Here<'t>,
    body: &'t Stmt,
    test: &Expr,
) -> Result<Stmt, AllocError>
    requires { StandsInSome types.old here.old }
    ensures tree { (s : Scope) → StandsIn types.old here.old s → IfOk result (λ r. stmt_of r ≡ plain.Do (fewer.fewer_in s (stmt_of body.now)) (fewer.fewer s (expr_of test.now))) }
    ensures stays { OnOk result (Stays types.old types.new here.old here.new) }
{
    let t = alone(types, here, body)?;
    let e = fewer(types, here, test)?;
    repeated(here.declared.alloc, t, e.tree)
}

// What stands behind the head of a `for`: the test, the step and the body.
#[cycle(fewer_in)]
fn turns<'t>(
    types: &mut Types<'_>,
    here: &mut Here<'t>,
    test: &Option<Expr>,
    step: &Option<Expr>,
    body: &'t Stmt,
) -> Result<Turns, AllocError>
    requires { StandsInSome types.old here.old }
    ensures tree { (s : Scope) → StandsIn types.old here.old s → IfOk result (λ r. TurnsFrom r s (maybe test.now) (maybe step.now) (stmt_of body.now)) }
    ensures stays { OnOk result (Stays types.old types.new here.old here.new) }
{
    let first = maybe_fewer(types, here, test)?;
    let second = maybe_fewer(types, here, step)?;
    let t = alone(types, here, body)?;
    Ok(Turns {
        test: first,
        step: second,
        body: t,
    })
}

// A `for` whose head is a block: its declarations count in the whole `for`.
#[cycle(fewer_in)]
fn counting_in_block<'t>(
    types: &mut Types<'_>,
    here: &mut Here<'t>,
    head: &'t Stmts,
    test: &Option<Expr>,
    step: &Option<Expr>,
    body: &'t Stmt,
) -> Result<Stmt, AllocError>
    requires { StandsInSome types.old here.old }
    ensures tree { (s : Scope) → StandsIn types.old here.old s → IfOk result (λ r. stmt_of r ≡ fewer.fewer_in s (plain.For (plain.Block (stmts_of head.now)) (maybe test.now) (maybe step.now) (stmt_of body.now))) }
    ensures stays { OnOk result (Stays types.old types.new here.old here.new) }
{
    let mark = begin_block(&mut here.declared);
    let trees = fewer_in_all(types, here, head)?;
    let rest = turns(types, here, test, step, body)?;
    end_block(&mut here.declared, mark)?;
    counted(here.declared.alloc, block(trees), rest)
}

// A `for` whose head is a declaration: its name counts in the whole `for`.
#[cycle(fewer_in)]
fn counting_behind<'t>(
    types: &mut Types<'_>,
    here: &mut Here<'t>,
    d: &'t Decl,
    test: &Option<Expr>,
    step: &Option<Expr>,
    body: &'t Stmt,
) -> Result<Stmt, AllocError>
    requires { StandsInSome types.old here.old }
    ensures tree { (s : Scope) → StandsIn types.old here.old s → IfOk result (λ r. stmt_of r ≡ fewer.fewer_in s (plain.For (plain.Local (decl_of d.now)) (maybe test.now) (maybe step.now) (stmt_of body.now))) }
    ensures stays { OnOk result (Stays types.old types.new here.old here.new) }
{
    let local = announce(types, here, d)?;
    let rest = turns(types, here, test, step, body)?;
    withdraw(&mut here.declared, local.refusal)?;
    counted(here.declared.alloc, Stmt::Local(local.tree), rest)
}

// A `for`.
#[cycle(fewer_in)]
fn counting<'t>(
    types: &mut Types<'_>,
    here: &mut Here<'t>,
    head: &'t Stmt,
    test: &Option<Expr>,
    step: &Option<Expr>,
    body: &'t Stmt,
) -> Result<Stmt, AllocError>
    requires { StandsInSome types.old here.old }
    ensures tree { (s : Scope) → StandsIn types.old here.old s → IfOk result (λ r. stmt_of r ≡ fewer.fewer_in s (plain.For (stmt_of head.now) (maybe test.now) (maybe step.now) (stmt_of body.now))) }
    ensures stays { OnOk result (Stays types.old types.new here.old here.new) }
{
    match head {
        Stmt::Block(all) => counting_in_block(types, here, all, test, step, body),
        Stmt::Local(d) => counting_behind(types, here, d, test, step, body),
        _ => {
            let first = alone(types, here, head)?;
            let rest = turns(types, here, test, step, body)?;
            counted(here.declared.alloc, first, rest)
        }
    }
}

// A `switch`.
#[cycle(fewer_in)]
fn switch<'t>(
    types: &mut Types<'_>,
    here: &mut Here<'t>,
    e: &Expr,
    all: &'t Parts,
) -> Result<Stmt, AllocError>
    requires { StandsInSome types.old here.old }
    ensures tree { (s : Scope) → StandsIn types.old here.old s → IfOk result (λ r. stmt_of r ≡ plain.Switch (fewer.fewer s (expr_of e.now)) (fewer.fewer_in_parts (entered s) (parts_of all.now))) }
    ensures stays { OnOk result (Stays types.old types.new here.old here.new) }
{
    let value = fewer(types, here, e)?;
    let mark = begin_block(&mut here.declared);
    let trees = fewer_in_parts(types, here, all)?;
    end_block(&mut here.declared, mark)?;
    Ok(selection(value.tree, trees))
}

// The parts of a `switch`, one after the other.
#[cycle(fewer_in)]
fn fewer_in_parts<'t>(
    types: &mut Types<'_>,
    here: &mut Here<'t>,
    all: &'t Parts,
) -> Result<Vec<Part>, AllocError>
    requires { StandsInSome types.old here.old }
    ensures tree { (s : Scope) → StandsIn types.old here.old s → IfOk result (λ r. parts (map part_of r.items) ≡ fewer.fewer_in_parts s (parts_of all.now)) }
    ensures goes { OnOk result (Goes types.old types.new here.old here.new) }
{
    let mut trees = Vec::new(here.declared.alloc);
    for part in &all.items {
        let tree = fewer_in_part(types, here, part)?;
        trees.push(tree)?;
    }
    Ok(trees)
}

// A part of a `switch`.
#[cycle(fewer_in)]
fn fewer_in_part<'t>(
    types: &mut Types<'_>,
    here: &mut Here<'t>,
    part: &'t Part,
) -> Result<Part, AllocError>
    requires { StandsInSome types.old here.old }
    ensures tree { (s : Scope) → StandsIn types.old here.old s → IfOk result (λ r. part_of r ≡ fewer.fewer_in_part s (part_of part.now)) }
    ensures behind { (s : Scope) → StandsIn types.old here.old s → OnOk result (StandsIn types.new here.new (scope_behind_part s (part_of part.now))) }
    ensures goes { OnOk result (Goes types.old types.new here.old here.new) }
{
    match part {
        Part::Label(at, e) => {
            let value = maybe_constant(types, here, e)?;
            Ok(Part::Label(*at, value))
        }
        Part::Item(statement) => {
            let tree = fewer_in(types, here, statement)?;
            Ok(Part::Item(tree))
        }
    }
}
