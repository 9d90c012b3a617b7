// How many jumps the code of a statement has.

ghost use Rattle.std.specs.Prelude.{◌+◌};
ghost use Rattle.c_syntax.specs.View.{expr_of, maybe, stmt_of, part_of};
ghost use Rattle.c_lowered.specs.Counts.{expr_jumps, truth_jumps, maybe_jumps, maybe_truth_jumps, case_jumps, stmt_jumps, stmts_jumps, part_jumps, parts_jumps};
ghost use Rattle.c_counted.specs.Numbers.{IsNumber};
ghost use Rattle.c_counted.specs.Rows.{stmts_of, parts_of, label_jumps};

use crate::expressions::{jumps_of, maybe_jumps_of, maybe_truth_jumps_of, truth_jumps_of};
use crate::numbers::{next, plus};
use crate::values::maybe_first_jumps_of;
use c_syntax::tree::{Expr, Part, Parts, Stmt, Stmts};

/// Those of a statement.
#[cycle(statements)]
pub fn statement_jumps_of(statement: &Stmt) -> u32
    ensures { IsNumber result (stmt_jumps (stmt_of statement.now)) }
{
    match statement {
        Stmt::Block(all) => statements_jumps_of(all),
        Stmt::Local(d) => maybe_first_jumps_of(&d.first),
        Stmt::Expr(e) => jumps_of(e),
        Stmt::Empty => 0,
        Stmt::If(e, t, other) => match other {
            None => next(guarded(e, t)),
            Some(u) => chosen(e, t, u),
        },
        Stmt::While(e, t) => plus(guarded(e, t), 2),
        Stmt::Do(t, e) => repeated(t, e),
        Stmt::For(first, test, step, t) => looped(first, test, step, t),
        Stmt::Return(_at, e) => next(maybe_jumps_of(e)),
        Stmt::Break(_at) => 1,
        Stmt::Continue(_at) => 1,
        Stmt::Switch(e, parts) => switched(e, parts),
    }
}

// Those of a condition and of a statement.
#[cycle(statements)]
fn guarded(e: &Expr, t: &Stmt) -> u32
    ensures { IsNumber result (truth_jumps (expr_of e.now) + stmt_jumps (stmt_of t.now)) }
{
    plus(truth_jumps_of(e), statement_jumps_of(t))
}

// Those of an `if` with an `else`.
#[cycle(statements)]
fn chosen(e: &Expr, t: &Stmt, u: &Stmt) -> u32
    ensures { IsNumber result (truth_jumps (expr_of e.now) + stmt_jumps (stmt_of t.now) + stmt_jumps (stmt_of u.now) + 2) }
{
    plus(plus(guarded(e, t), statement_jumps_of(u)), 2)
}

// Those of a `do`.
#[cycle(statements)]
fn repeated(t: &Stmt, e: &Expr) -> u32
    ensures { IsNumber result (stmt_jumps (stmt_of t.now) + truth_jumps (expr_of e.now) + 2) }
{
    plus(plus(statement_jumps_of(t), truth_jumps_of(e)), 2)
}

// Those of a `for`.
#[cycle(statements)]
fn looped(first: &Stmt, test: &Option<Expr>, step: &Option<Expr>, t: &Stmt) -> u32
    ensures { IsNumber result (stmt_jumps (stmt_of first.now) + maybe_truth_jumps (maybe test.now) + stmt_jumps (stmt_of t.now) + maybe_jumps (maybe step.now) + 3) }
{
    let head = plus(statement_jumps_of(first), maybe_truth_jumps_of(test));
    let turn = plus(plus(head, statement_jumps_of(t)), maybe_jumps_of(step));
    plus(turn, 3)
}

// Those of a `switch`.
#[cycle(statements)]
fn switched(e: &Expr, parts: &Parts) -> u32
    ensures { IsNumber result (expr_jumps (expr_of e.now) + case_jumps (parts_of parts.now) + parts_jumps (parts_of parts.now) + 2) }
{
    let cases = plus(jumps_of(e), case_jumps_of(parts));
    plus(plus(cases, parts_jumps_of(parts)), 2)
}

/// Those of statements, one after the other.
#[cycle(statements)]
pub fn statements_jumps_of(all: &Stmts) -> u32
    ensures { IsNumber result (stmts_jumps (stmts_of all.now)) }
{
    let mut sum = 0;
    for statement in &all.items {
        sum = plus(sum, statement_jumps_of(statement));
    }
    sum
}

/// Those of a part of a `switch`.
#[cycle(statements)]
pub fn part_jumps_of(part: &Part) -> u32
    ensures { IsNumber result (part_jumps (part_of part.now)) }
{
    match part {
        Part::Label(_at, _e) => 1,
        Part::Item(statement) => statement_jumps_of(statement),
    }
}

/// Those of the parts of a `switch`, one after the other.
#[cycle(statements)]
pub fn parts_jumps_of(all: &Parts) -> u32
    ensures { IsNumber result (parts_jumps (parts_of all.now)) }
{
    let mut sum = 0;
    for part in &all.items {
        sum = plus(sum, part_jumps_of(part));
    }
    sum
}

// That of the comparison for a part of a `switch`: each `case` has one.
fn label_jumps_of(part: &Part) -> u32
    ensures { IsNumber result (label_jumps (part_of part.now)) }
{
    match part {
        Part::Label(_at, e) => match e {
            Some(_word) => 1,
            None => 0,
        },
        Part::Item(_statement) => 0,
    }
}

/// Those of the comparisons of a `switch`.
pub fn case_jumps_of(all: &Parts) -> u32
    ensures { IsNumber result (case_jumps (parts_of all.now)) }
{
    let mut sum = 0;
    for part in &all.items {
        sum = plus(sum, label_jumps_of(part));
    }
    sum
}
