//! Statements.

ghost use Rattle.std.specs.Prelude.{◌≡◌, map, IfOk, OnOk, Some, None};
ghost use Rattle.c_syntax.specs.Plain as plain;
ghost use Rattle.c_syntax.specs.Plain.{stmts, parts};
ghost use Rattle.c_syntax.specs.View.{expr_of, decls_of, stmt_of, part_of};
ghost use Rattle.c_grammar.specs.Tree as grammar;
ghost use Rattle.c_grammar.specs.Tree.{Meanings, more, none, act};
ghost use Rattle.c_grammar.specs.declared.names.Production.TheVariants as production;
ghost use Rattle.c_held.specs.View.{meaning_of, means};

use c_held::parts::{expression, key, maybe_expression, place, statement, take_statement, token};
use c_held::value::{Meaning, Value};
use c_held_rows::rows::{push_block_items, push_locals, push_switch_parts};
use c_syntax::Key;
use c_syntax::tree::{Decl, Expr, Part, Parts, Stmt, Stmts};
use std::alloc::{AllocError, Global};
use std::mem;

/// A block of statements.
fn block_of(items: Vec<Stmt>) -> Stmt
    ensures { stmt_of result ≡ plain.Block (stmts (map stmt_of items.items)) }
{
    Stmt::Block(Stmts { items })
}

/// A block.
#[tactic(auto, unfolding(c_grammar::specs::Tree::act))]
pub fn block(alloc: Global, ms: &mut Value) -> Result<Meaning, AllocError>
    ensures { (l r : grammar.Meaning) → IfOk result (λ m. meaning_of m ≡ act production.Block (more l (more (means ms.old) (more r none)))) }
{
    let mut items = Vec::new(alloc);
    push_block_items(alloc, &mut items, ms)?;
    Ok(Meaning::Statement(block_of(items)))
}

/// The empty statement.
#[tactic(auto, unfolding(c_grammar::specs::Tree::act))]
pub fn empty() -> Meaning
    ensures { (ms : Meanings) → meaning_of result ≡ act production.Empty ms }
{
    Meaning::Statement(Stmt::Empty)
}

/// An expression as a statement.
#[tactic(auto, unfolding(c_grammar::specs::Tree::act))]
pub fn expression_statement(a: &mut Value) -> Meaning
    ensures { (semi : grammar.Meaning) → meaning_of result ≡ act production.ExprStatement (more (means a.old) (more semi none)) }
{
    Meaning::Statement(Stmt::Expr(expression(a)))
}

/// An `if` without `else`: its condition and its statement.
#[tactic(auto, unfolding(c_grammar::specs::Tree::act))]
pub fn if_without_else(alloc: Global, a: &mut Value, s: &mut Value) -> Result<Meaning, AllocError>
    ensures { (w l r : grammar.Meaning) → IfOk result (λ m. meaning_of m ≡ act production.If (more w (more l (more (means a.old) (more r (more (means s.old) none)))))) }
{
    let s = Box::new(alloc, statement(s))?;
    Ok(Meaning::Statement(Stmt::If(expression(a), s, None)))
}

/// Gives an `if` without `else` the statement behind its `else`; another statement stays as it is.
fn with_else(alloc: Global, s: &mut Stmt, t: Stmt) -> Result<(), AllocError>
    ensures { OnOk result (stmt_of s.new ≡ grammar.with_else (stmt_of s.old) (stmt_of t)) }
{
    match s {
        Stmt::If(_, _, other) => match other {
            Some(_) => Ok(()),
            None => {
                *other = Some(Box::new(alloc, t)?);
                Ok(())
            }
        },
        _ => Ok(()),
    }
}

/// An `if` without `else`, and what stands behind its `else`.
#[tactic(auto, unfolding(c_grammar::specs::Tree::act))]
pub fn if_else(alloc: Global, i: &mut Value, t: &mut Value) -> Result<Meaning, AllocError>
    ensures { (w : grammar.Meaning) → IfOk result (λ m. meaning_of m ≡ act production.IfElse (more (means i.old) (more w (more (means t.old) none)))) }
{
    let mut stmt = statement(i);
    with_else(alloc, &mut stmt, statement(t))?;
    Ok(Meaning::Statement(stmt))
}

/// A `while`: its condition and its statement.
#[tactic(auto, unfolding(c_grammar::specs::Tree::act))]
pub fn while_loop(alloc: Global, a: &mut Value, s: &mut Value) -> Result<Meaning, AllocError>
    ensures { (w l r : grammar.Meaning) → IfOk result (λ m. meaning_of m ≡ act production.While (more w (more l (more (means a.old) (more r (more (means s.old) none)))))) }
{
    let s = Box::new(alloc, statement(s))?;
    Ok(Meaning::Statement(Stmt::While(expression(a), s)))
}

/// A `do`: its statement and its condition.
#[tactic(auto, unfolding(c_grammar::specs::Tree::act))]
pub fn do_loop(alloc: Global, s: &mut Value, a: &mut Value) -> Result<Meaning, AllocError>
    ensures { (w w2 l r semi : grammar.Meaning) → IfOk result (λ m. meaning_of m ≡ act production.Do (more w (more (means s.old) (more w2 (more l (more (means a.old) (more r (more semi none)))))))) }
{
    let s = Box::new(alloc, statement(s))?;
    Ok(Meaning::Statement(Stmt::Do(s, expression(a))))
}

/// A block of a local for each declaration. An `Err` is want of memory.
fn locals(alloc: Global, decls: Vec<Decl>) -> Result<Stmt, AllocError>
    ensures { IfOk result (λ s. stmt_of s ≡ plain.Block (stmts (map plain.Local (decls_of decls.items)))) }
{
    let mut items = Vec::new(alloc);
    push_locals(&mut items, decls)?;
    Ok(block_of(items))
}

/// What stands first in a `for`, taken out of a meaning: its declarations, or else a statement. An `Err` is want of memory.
fn first_in(alloc: Global, part: &mut Meaning) -> Result<Stmt, AllocError>
    ensures { IfOk result (λ s. stmt_of s ≡ grammar.for_first (meaning_of part.old)) }
{
    match part {
        Meaning::Declarations(decls) => locals(alloc, mem::replace(decls, Vec::new(alloc))),
        other => Ok(take_statement(other)),
    }
}

/// What stands first in a `for`, taken out of a value. An `Err` is want of memory.
fn for_first(alloc: Global, value: &mut Value) -> Result<Stmt, AllocError>
    ensures { IfOk result (λ s. stmt_of s ≡ grammar.for_first (means value.old)) }
{
    match value {
        Value::Part(made) => first_in(alloc, &mut made.meaning),
        _ => Ok(Stmt::Empty),
    }
}

/// A `for`: what stands first, the test, the step and the statement.
#[tactic(auto, unfolding(c_grammar::specs::Tree::act))]
pub fn for_loop(
    alloc: Global,
    first: &mut Value,
    test: &mut Value,
    step: &mut Value,
    s: &mut Value,
) -> Result<Meaning, AllocError>
    ensures { (w l semi r : grammar.Meaning) → IfOk result (λ m. meaning_of m ≡ act production.For (more w (more l (more (means first.old) (more (means test.old) (more semi (more (means step.old) (more r (more (means s.old) none))))))))) }
{
    let first = Box::new(alloc, for_first(alloc, first)?)?;
    let s = Box::new(alloc, statement(s))?;
    Ok(Meaning::Statement(Stmt::For(first, maybe_expression(test), maybe_expression(step), s)))
}

/// A `switch` on an expression, of its parts.
fn switch_of(a: Expr, items: Vec<Part>) -> Stmt
    ensures { stmt_of result ≡ plain.Switch (expr_of a) (parts (map part_of items.items)) }
{
    Stmt::Switch(a, Parts { items })
}

/// A `switch`: its expression and what stands in it.
#[tactic(auto, unfolding(c_grammar::specs::Tree::act))]
pub fn switch(alloc: Global, a: &mut Value, ms: &mut Value) -> Result<Meaning, AllocError>
    ensures { (w l r l2 r2 : grammar.Meaning) → IfOk result (λ m. meaning_of m ≡ act production.Switch (more w (more l (more (means a.old) (more r (more l2 (more (means ms.old) (more r2 none)))))))) }
{
    let mut items = Vec::new(alloc);
    push_switch_parts(alloc, &mut items, ms)?;
    Ok(Meaning::Statement(switch_of(expression(a), items)))
}

/// A `return`, with its expression or without.
#[tactic(auto, unfolding(c_grammar::specs::Tree::act))]
pub fn return_statement(w: &Value, a: &mut Value) -> Meaning
    ensures { (semi : grammar.Meaning) → meaning_of result ≡ act production.Return (more (means w.now) (more (means a.old) (more semi none))) }
{
    Meaning::Statement(Stmt::Return(place(w), maybe_expression(a)))
}

/// The jump that a keyword says, at a place.
fn jump_of(key: Key, pos: u32) -> Stmt
    ensures { stmt_of result ≡ grammar.jump key pos }
{
    match key {
        Key::Break => Stmt::Break(pos),
        _ => Stmt::Continue(pos),
    }
}

/// A `break` or a `continue`.
#[tactic(auto, unfolding(c_grammar::specs::Tree::act))]
pub fn jump(w: &mut Value) -> Meaning
    ensures { (semi : grammar.Meaning) → meaning_of result ≡ act production.Jump (more (means w.old) (more semi none)) }
{
    let w = token(w);
    Meaning::Statement(jump_of(key(&w.kind), w.pos))
}

/// A `case` label.
#[tactic(auto, unfolding(c_grammar::specs::Tree::act))]
pub fn case_label(w: &Value, a: &mut Value) -> Meaning
    ensures { (colon : grammar.Meaning) → meaning_of result ≡ act production.CaseLabel (more (means w.now) (more (means a.old) (more colon none))) }
{
    Meaning::Label(Part::Label(place(w), Some(expression(a))))
}

/// A `default` label.
#[tactic(auto, unfolding(c_grammar::specs::Tree::act))]
pub fn default_label(w: &Value) -> Meaning
    ensures { (colon : grammar.Meaning) → meaning_of result ≡ act production.DefaultLabel (more (means w.now) (more colon none)) }
{
    Meaning::Label(Part::Label(place(w), None))
}
