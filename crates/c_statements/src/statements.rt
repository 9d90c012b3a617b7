// Statements, and the names in scope behind them.

ghost use Rattle.std.specs.Prelude.{◌≡◌, ◌++◌, [], List, Option, Ok, IfOk, OnOk};
ghost use Rattle.std.specs.Result.{result_err};
ghost use Rattle.c_syntax.specs.Plain as tree;
ghost use Rattle.c_syntax.specs.View.{expr_of, maybe, stmt_of, part_of};
ghost use Rattle.c_types.specs.Refusals.{Judged, after, both, all_three, keeping};
ghost use Rattle.c_types.specs.Scope.{Scope, entered};
ghost use Rattle.c_types.specs.Declarations.{scope_or};
ghost use Rattle.c_types.specs.Operands.{Operand};
ghost use Rattle.c_types.specs.Expressions.{judged};
ghost use Rattle.c_types.specs.Statements as plain;
ghost use Rattle.c_types.specs.Statements.{CaseLabel, condition_rules, switch_rules, test_rules, maybe_judged, stated, all_stated, part_judged, all_parts, part_scope_or, labels_rules};
ghost use Rattle.c_types.specs.Table.{known, IsType};
ghost use Rattle.c_types.specs.Known.{Grows};
ghost use Rattle.c_declared.specs.Held.{Holds, HoldsSome, IsAround};
ghost use Rattle.c_conditions.specs.Cases.{AreLabels, labels_in};
ghost use Rattle.c_conditions.specs.Standing.{StandsIn};
ghost use Rattle.c_conditions.specs.Told.{IsTested};
ghost use Rattle.c_statements.specs.Trees.{stmts_of, parts_of};

use crate::blocks::{begin_block, end_block};
use crate::locals::forgotten;
use c_conditions::{
    Around, Labels, Tested, add_label, behind, beside, broken, judge_condition, judge_effect,
    judge_number, judge_return, judge_step, judge_test, labelled, settled, together,
};
use c_declarations::declare_object;
use c_operands::{Declarations, merged};
use c_syntax::tree::{Expr, Part, Parts, Stmt, Stmts};
use c_types::{TypeFault, Types};
use std::alloc::AllocError;

/// A statement.
#[cycle(statements)]
pub fn state<'t>(
    types: &mut Types<'_>,
    declared: &mut Declarations<'t>,
    around: Around,
    statement: &'t Stmt,
) -> Result<Option<TypeFault>, AllocError>
    requires holds { HoldsSome types.old declared.old }
    requires result { IsType types.old around.result }
    ensures judged { (s : Scope) (w : plain.Around) → Holds types.old declared.old s → StandsIn types.old around w → IfOk result (λ r. r ≡ result_err (stated s w (stmt_of statement.now))) }
    ensures holds { (s : Scope) (w : plain.Around) → Holds types.old declared.old s → StandsIn types.old around w → OnOk result (Holds types.new declared.new (scope_or s (stated s w (stmt_of statement.now)))) }
    ensures grows { OnOk result (Grows (known types.old) (known types.new)) }
    ensures tags { OnOk result (types.new.tags ≡ types.old.tags) }
    ensures around { OnOk result (IsAround declared.old declared.new) }
{
    match statement {
        Stmt::Block(all) => state_block(types, declared, around, all),
        Stmt::Local(d) => declare_object(types, declared, false, d),
        Stmt::Expr(e) => judge_effect(types, declared, e),
        Stmt::Empty => Ok(None),
        Stmt::If(e, t, other) => match other {
            None => state_one(types, declared, around, t, e),
            Some(second) => state_choice(types, declared, around, t, second, e),
        },
        Stmt::While(e, t) => state_one(types, declared, around.in_loop(), t, e),
        Stmt::Do(t, e) => state_one(types, declared, around.in_loop(), t, e),
        Stmt::For(first, test, step, t) => state_for(types, declared, around, first, t, test, step),
        Stmt::Return(at, e) => judge_return(types, declared, *at, around.result, e),
        Stmt::Break(at) => Ok(broken(around.breaks, TypeFault::Mismatch(*at))),
        Stmt::Continue(at) => Ok(broken(around.continues, TypeFault::Mismatch(*at))),
        Stmt::Switch(e, parts) => state_switch(types, declared, around.in_switch(), parts, e),
    }
}

// A statement whose names are no longer in scope behind it.
#[cycle(statements)]
fn state_body<'t>(
    types: &mut Types<'_>,
    declared: &mut Declarations<'t>,
    around: Around,
    statement: &'t Stmt,
) -> Result<Option<TypeFault>, AllocError>
    requires holds { HoldsSome types.old declared.old }
    requires result { IsType types.old around.result }
    ensures judged { (s : Scope) (w : plain.Around) → Holds types.old declared.old s → StandsIn types.old around w → IfOk result (λ r. r ≡ result_err (stated s w (stmt_of statement.now))) }
    ensures holds { (s : Scope) (w : plain.Around) → Holds types.old declared.old s → StandsIn types.old around w → OnOk result (Holds types.new declared.new s) }
    ensures grows { OnOk result (Grows (known types.old) (known types.new)) }
    ensures tags { OnOk result (types.new.tags ≡ types.old.tags) }
    ensures around { OnOk result (IsAround declared.old declared.new) }
{
    match statement {
        Stmt::Local(d) => forgotten(types, declared, d),
        _ => state(types, declared, around, statement),
    }
}

// A block.
#[cycle(statements)]
fn state_block<'t>(
    types: &mut Types<'_>,
    declared: &mut Declarations<'t>,
    around: Around,
    all: &'t Stmts,
) -> Result<Option<TypeFault>, AllocError>
    requires holds { HoldsSome types.old declared.old }
    requires result { IsType types.old around.result }
    ensures judged { (s : Scope) (w : plain.Around) → Holds types.old declared.old s → StandsIn types.old around w → IfOk result (λ r. r ≡ result_err (all_stated (entered s) w (stmts_of all.now))) }
    ensures holds { (s : Scope) (w : plain.Around) → Holds types.old declared.old s → StandsIn types.old around w → OnOk result (Holds types.new declared.new s) }
    ensures grows { OnOk result (Grows (known types.old) (known types.new)) }
    ensures tags { OnOk result (types.new.tags ≡ types.old.tags) }
    ensures around { OnOk result (IsAround declared.old declared.new) }
{
    let mark = begin_block(declared);
    let told = state_all(types, declared, around, all)?;
    end_block(declared, mark)?;
    Ok(told)
}

/// Statements, one after the other.
#[cycle(statements)]
pub fn state_all<'t>(
    types: &mut Types<'_>,
    declared: &mut Declarations<'t>,
    around: Around,
    all: &'t Stmts,
) -> Result<Option<TypeFault>, AllocError>
    requires holds { HoldsSome types.old declared.old }
    requires result { IsType types.old around.result }
    ensures judged { (s : Scope) (w : plain.Around) → Holds types.old declared.old s → StandsIn types.old around w → IfOk result (λ r. r ≡ result_err (all_stated s w (stmts_of all.now))) }
    ensures holds { (s inner : Scope) (w : plain.Around) → Holds types.old declared.old s → StandsIn types.old around w → all_stated s w (stmts_of all.now) ≡ Ok inner → OnOk result (Holds types.new declared.new inner) }
    ensures grows { OnOk result (Grows (known types.old) (known types.new)) }
    ensures tags { OnOk result (types.new.tags ≡ types.old.tags) }
    ensures around { OnOk result (IsAround declared.old declared.new) }
{
    let mut told = None;
    for statement in &all.items {
        let fault = state(types, declared, around, statement)?;
        told = merged(told, fault);
    }
    Ok(told)
}

// A statement with a condition and one body.
#[cycle(statements)]
fn state_one<'t>(
    types: &mut Types<'_>,
    declared: &mut Declarations<'t>,
    around: Around,
    body: &'t Stmt,
    test: &Expr,
) -> Result<Option<TypeFault>, AllocError>
    requires holds { HoldsSome types.old declared.old }
    requires result { IsType types.old around.result }
    ensures judged { (s : Scope) (w : plain.Around) → Holds types.old declared.old s → StandsIn types.old around w → IfOk result (λ r. r ≡ result_err (both (judged s (expr_of test.now)) (stated s w (stmt_of body.now)) (λ a _. keeping (condition_rules a) s))) }
    ensures holds { (s : Scope) (w : plain.Around) → Holds types.old declared.old s → StandsIn types.old around w → OnOk result (Holds types.new declared.new s) }
    ensures grows { OnOk result (Grows (known types.old) (known types.new)) }
    ensures tags { OnOk result (types.new.tags ≡ types.old.tags) }
    ensures around { OnOk result (IsAround declared.old declared.new) }
{
    let tested = judge_condition(types, declared, test)?;
    let told = state_body(types, declared, around, body)?;
    Ok(settled(beside(tested, told)))
}

// A statement with a condition and two bodies.
#[cycle(statements)]
fn state_choice<'t>(
    types: &mut Types<'_>,
    declared: &mut Declarations<'t>,
    around: Around,
    body: &'t Stmt,
    other: &'t Stmt,
    test: &Expr,
) -> Result<Option<TypeFault>, AllocError>
    requires holds { HoldsSome types.old declared.old }
    requires result { IsType types.old around.result }
    ensures judged { (s : Scope) (w : plain.Around) → Holds types.old declared.old s → StandsIn types.old around w → IfOk result (λ r. r ≡ result_err (all_three (judged s (expr_of test.now)) (stated s w (stmt_of body.now)) (stated s w (stmt_of other.now)) (λ a _ _. keeping (condition_rules a) s))) }
    ensures holds { (s : Scope) (w : plain.Around) → Holds types.old declared.old s → StandsIn types.old around w → OnOk result (Holds types.new declared.new s) }
    ensures grows { OnOk result (Grows (known types.old) (known types.new)) }
    ensures tags { OnOk result (types.new.tags ≡ types.old.tags) }
    ensures around { OnOk result (IsAround declared.old declared.new) }
{
    let tested = judge_condition(types, declared, test)?;
    let first = state_body(types, declared, around, body)?;
    let second = state_body(types, declared, around, other)?;
    Ok(settled(beside(tested, merged(first, second))))
}

// What stands behind the head of a `for`: the test, the step and the body.
#[cycle(statements)]
fn state_rest<'t>(
    types: &mut Types<'_>,
    declared: &mut Declarations<'t>,
    around: Around,
    body: &'t Stmt,
    test: &Option<Expr>,
    step: &Option<Expr>,
) -> Result<Tested, AllocError>
    requires holds { HoldsSome types.old declared.old }
    requires result { IsType types.old around.result }
    ensures judged { (s : Scope) (w : plain.Around) → Holds types.old declared.old s → StandsIn types.old around w → IfOk result (λ j. IsTested (λ (parts : Option Operand × Scope). test_rules parts.0) j (both (both (maybe_judged s (maybe test.now)) (maybe_judged s (maybe step.now)) (λ a _. Ok a)) (stated s w (stmt_of body.now)) (λ a b. Ok (a, b)))) }
    ensures holds { (s : Scope) (w : plain.Around) → Holds types.old declared.old s → StandsIn types.old around w → OnOk result (Holds types.new declared.new s) }
    ensures grows { OnOk result (Grows (known types.old) (known types.new)) }
    ensures tags { OnOk result (types.new.tags ≡ types.old.tags) }
    ensures around { OnOk result (IsAround declared.old declared.new) }
{
    let tested = judge_test(types, declared, test)?;
    let stepped = judge_step(types, declared, step)?;
    let told = state_body(types, declared, around, body)?;
    Ok(beside(beside(tested, stepped), told))
}

// A `for` whose head is a block: its declarations count in the whole `for`.
#[cycle(statements)]
fn state_for_block<'t>(
    types: &mut Types<'_>,
    declared: &mut Declarations<'t>,
    around: Around,
    head: &'t Stmts,
    body: &'t Stmt,
    test: &Option<Expr>,
    step: &Option<Expr>,
) -> Result<Option<TypeFault>, AllocError>
    requires holds { HoldsSome types.old declared.old }
    requires result { IsType types.old around.result }
    ensures judged { (s : Scope) (w : plain.Around) → Holds types.old declared.old s → StandsIn types.old around w → IfOk result (λ r. r ≡ result_err (stated s w (tree.For (tree.Block (stmts_of head.now)) (maybe test.now) (maybe step.now) (stmt_of body.now)))) }
    ensures holds { (s : Scope) (w : plain.Around) → Holds types.old declared.old s → StandsIn types.old around w → OnOk result (Holds types.new declared.new s) }
    ensures grows { OnOk result (Grows (known types.old) (known types.new)) }
    ensures tags { OnOk result (types.new.tags ≡ types.old.tags) }
    ensures around { OnOk result (IsAround declared.old declared.new) }
{
    let mark = begin_block(declared);
    let told = state_all(types, declared, around, head)?;
    match told {
        None => {
            let rest = state_rest(types, declared, around.in_loop(), body, test, step)?;
            end_block(declared, mark)?;
            Ok(settled(rest))
        }
        Some(fault) => {
            end_block(declared, mark)?;
            let rest = state_rest(types, declared, around.in_loop(), body, test, step)?;
            Ok(behind(Some(fault), rest))
        }
    }
}

// A `for`.
#[cycle(statements)]
fn state_for<'t>(
    types: &mut Types<'_>,
    declared: &mut Declarations<'t>,
    around: Around,
    head: &'t Stmt,
    body: &'t Stmt,
    test: &Option<Expr>,
    step: &Option<Expr>,
) -> Result<Option<TypeFault>, AllocError>
    requires holds { HoldsSome types.old declared.old }
    requires result { IsType types.old around.result }
    ensures judged { (s : Scope) (w : plain.Around) → Holds types.old declared.old s → StandsIn types.old around w → IfOk result (λ r. r ≡ result_err (stated s w (tree.For (stmt_of head.now) (maybe test.now) (maybe step.now) (stmt_of body.now)))) }
    ensures holds { (s : Scope) (w : plain.Around) → Holds types.old declared.old s → StandsIn types.old around w → OnOk result (Holds types.new declared.new s) }
    ensures grows { OnOk result (Grows (known types.old) (known types.new)) }
    ensures tags { OnOk result (types.new.tags ≡ types.old.tags) }
    ensures around { OnOk result (IsAround declared.old declared.new) }
{
    match head {
        Stmt::Block(all) => state_for_block(types, declared, around, all, body, test, step),
        _ => {
            let first = state_body(types, declared, around, head)?;
            let rest = state_rest(types, declared, around.in_loop(), body, test, step)?;
            Ok(behind(first, rest))
        }
    }
}

// A `switch`.
#[cycle(statements)]
fn state_switch<'t>(
    types: &mut Types<'_>,
    declared: &mut Declarations<'t>,
    around: Around,
    parts: &'t Parts,
    e: &Expr,
) -> Result<Option<TypeFault>, AllocError>
    requires holds { HoldsSome types.old declared.old }
    requires result { IsType types.old around.result }
    ensures judged { (s : Scope) (w : plain.Around) → Holds types.old declared.old s → StandsIn types.old around w → IfOk result (λ r. r ≡ result_err (both (judged s (expr_of e.now)) (all_parts (entered s) w (parts_of parts.now)) (λ a labels. keeping (switch_rules a labels) s))) }
    ensures holds { (s : Scope) (w : plain.Around) → Holds types.old declared.old s → StandsIn types.old around w → OnOk result (Holds types.new declared.new s) }
    ensures grows { OnOk result (Grows (known types.old) (known types.new)) }
    ensures tags { OnOk result (types.new.tags ≡ types.old.tags) }
    ensures around { OnOk result (IsAround declared.old declared.new) }
{
    let number = judge_number(types, declared, e)?;
    let mark = begin_block(declared);
    let labels = state_parts(types, declared, around, parts)?;
    end_block(declared, mark)?;
    Ok(together(number, labels))
}

// The parts of a `switch`, one after the other: the refusal of the rules of their labels, or the one that is told of the parts.
#[cycle(statements)]
fn state_parts<'t>(
    types: &mut Types<'_>,
    declared: &mut Declarations<'t>,
    around: Around,
    parts: &'t Parts,
) -> Result<Tested, AllocError>
    requires holds { HoldsSome types.old declared.old }
    requires result { IsType types.old around.result }
    ensures judged { (s : Scope) (w : plain.Around) → Holds types.old declared.old s → StandsIn types.old around w → IfOk result (λ j. IsTested (labels_rules []) j (all_parts s w (parts_of parts.now))) }
    ensures grows { OnOk result (Grows (known types.old) (known types.new)) }
    ensures tags { OnOk result (types.new.tags ≡ types.old.tags) }
    ensures around { OnOk result (IsAround declared.old declared.new) }
{
    let mut labels = Labels::new(declared.alloc);
    let mut told = None;
    for part in &parts.items {
        let fault = state_part(types, declared, around, &mut labels, part)?;
        told = merged(told, fault);
    }
    Ok(labelled(told, &labels))
}

// A part of a `switch`.
#[cycle(statements)]
fn state_part<'t>(
    types: &mut Types<'_>,
    declared: &mut Declarations<'t>,
    around: Around,
    labels: &mut Labels,
    part: &'t Part,
) -> Result<Option<TypeFault>, AllocError>
    requires holds { HoldsSome types.old declared.old }
    requires result { IsType types.old around.result }
    ensures judged { (s : Scope) (w : plain.Around) → Holds types.old declared.old s → StandsIn types.old around w → IfOk result (λ r. r ≡ result_err (part_judged s w (part_of part.now))) }
    ensures labels { (s : Scope) (w : plain.Around) (ls : List CaseLabel) → Holds types.old declared.old s → StandsIn types.old around w → AreLabels labels.old ls → OnOk result (AreLabels labels.new (ls ++ labels_in (part_judged s w (part_of part.now)))) }
    ensures holds { (s : Scope) (w : plain.Around) → Holds types.old declared.old s → StandsIn types.old around w → OnOk result (Holds types.new declared.new (part_scope_or s (part_judged s w (part_of part.now)))) }
    ensures grows { OnOk result (Grows (known types.old) (known types.new)) }
    ensures tags { OnOk result (types.new.tags ≡ types.old.tags) }
    ensures around { OnOk result (IsAround declared.old declared.new) }
{
    match part {
        Part::Label(at, e) => add_label(types, declared, labels, *at, e),
        Part::Item(statement) => state(types, declared, around, statement),
    }
}
