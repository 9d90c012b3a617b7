// Code of statements.

ghost use Rattle.std.specs.Prelude.{OnOk, IfOk, option_map};
ghost use Rattle.c_syntax.specs.Plain as tree;
ghost use Rattle.c_syntax.specs.View.{expr_of, maybe, stmt_of, part_of};
ghost use Rattle.c_declared.specs.Held.{HoldsSome};
ghost use Rattle.c_statements.specs.Trees.{stmts_of, parts_of};
ghost use Rattle.c_flat.specs.Compiled.{Compiles, CompilesAll, CompilesPart, CompilesParts, Loops};

use crate::labels::add_label;
use crate::locals::local;
use crate::simple::{effect, returned, stepped, tested, there};
use crate::switches::switch_parts;
use c_aside::{
    Label, append, both_sides, end_do, end_loop, one_side, other_side, put_back, set_aside,
};
use c_blocks::{Block, end_block, enter, leave, local_count, local_part_count};
use c_cells::StructKinds;
use c_emitted::Emitter;
use c_here::Here;
use c_jumps::begin_turn;
use c_plain::{Instruction, Unary};
use c_syntax::tree::{Expr, Part, Parts, Stmt, Stmts};
use c_types::Types;
use std::alloc::AllocError;

/// Code of a statement of a block.
#[cycle(statements)]
pub fn statement<'t>(
    types: &mut Types<'_>,
    kinds: &StructKinds,
    out: &mut Emitter<'t>,
    here: &mut Here<'t>,
    block: &mut Block,
    t: &'t Stmt,
) -> Result<(), AllocError>
    requires { HoldsSome types.old here.old.declared }
    ensures { OnOk result (Compiles types.old types.new here.old here.new kinds.now out.old out.new block.old block.new (stmt_of t.now)) }
{
    match t {
        Stmt::Block(all) => inner_block(types, kinds, out, here, block, all),
        Stmt::Local(d) => local(types, kinds, out, here, block, d),
        Stmt::Expr(e) => effect(types, out, here, e),
        Stmt::Empty => Ok(()),
        Stmt::If(e, body, other) => match other {
            None => one_choice(types, kinds, out, here, block, body, e),
            Some(second) => two_choices(types, kinds, out, here, block, body, second, e),
        },
        Stmt::While(e, body) => looped(types, kinds, out, here, block, body, Some(e), None),
        Stmt::Do(body, e) => do_loop(types, kinds, out, here, block, body, e),
        Stmt::For(first, test, step, body) => {
            for_loop(types, kinds, out, here, block, first, body, test, step)
        }
        Stmt::Return(_, e) => returned(types, out, here, e),
        Stmt::Break(_) => out.add(Instruction::Break),
        Stmt::Continue(_) => out.add(Instruction::Continue),
        Stmt::Switch(e, parts) => switch(types, kinds, out, here, block, parts, e),
    }
}

/// Code of the statements of a block, one after the other.
#[cycle(statements)]
pub fn all_statements<'t>(
    types: &mut Types<'_>,
    kinds: &StructKinds,
    out: &mut Emitter<'t>,
    here: &mut Here<'t>,
    block: &mut Block,
    all: &'t Stmts,
) -> Result<(), AllocError>
    requires { HoldsSome types.old here.old.declared }
    ensures { OnOk result (CompilesAll types.old types.new here.old here.new kinds.now out.old out.new block.old block.new (stmts_of all.now)) }
{
    for t in &all.items {
        statement(types, kinds, out, here, block, t)?;
    }
    Ok(())
}

// A block within another one: its objects get the slots that are free.
#[cycle(statements)]
fn inner_block<'t>(
    types: &mut Types<'_>,
    kinds: &StructKinds,
    out: &mut Emitter<'t>,
    here: &mut Here<'t>,
    block: &Block,
    all: &'t Stmts,
) -> Result<(), AllocError>
    requires { HoldsSome types.old here.old.declared }
    ensures { OnOk result (Compiles types.old types.new here.old here.new kinds.now out.old out.new block.now block.now (tree.Block (stmts_of all.now))) }
{
    let count = local_count(all.items.as_slice())?;
    let mut inner = Block::begin(here.declared.alloc, block.free, count)?;
    let start = out.reserve()?;
    let marks = enter(here);
    all_statements(types, kinds, out, here, &mut inner, all)?;
    leave(here, marks)?;
    end_block(out, start, inner.lengths.as_slice())
}

// An `if` without an `else`.
#[cycle(statements)]
fn one_choice<'t>(
    types: &mut Types<'_>,
    kinds: &StructKinds,
    out: &mut Emitter<'t>,
    here: &mut Here<'t>,
    block: &mut Block,
    body: &'t Stmt,
    e: &'t Expr,
) -> Result<(), AllocError>
    requires { HoldsSome types.old here.old.declared }
    ensures { OnOk result (Compiles types.old types.new here.old here.new kinds.now out.old out.new block.old block.new (tree.If (expr_of e.now) (stmt_of body.now))) }
{
    tested(types, out, here, Some(e))?;
    let test = out.reserve()?;
    statement(types, kinds, out, here, block, body)?;
    one_side(out, test)
}

// An `if` with an `else`.
#[cycle(statements)]
fn two_choices<'t>(
    types: &mut Types<'_>,
    kinds: &StructKinds,
    out: &mut Emitter<'t>,
    here: &mut Here<'t>,
    block: &mut Block,
    body: &'t Stmt,
    other: &'t Stmt,
    e: &'t Expr,
) -> Result<(), AllocError>
    requires { HoldsSome types.old here.old.declared }
    ensures { OnOk result (Compiles types.old types.new here.old here.new kinds.now out.old out.new block.old block.new (tree.IfElse (expr_of e.now) (stmt_of body.now) (stmt_of other.now))) }
{
    tested(types, out, here, Some(e))?;
    let test = out.reserve()?;
    statement(types, kinds, out, here, block, body)?;
    let jump = other_side(out, test)?;
    statement(types, kinds, out, here, block, other)?;
    both_sides(out, jump)
}

// A loop behind its head. Its step stands behind the body, and its string literals come before those of the body.
#[cycle(statements)]
fn looped<'t>(
    types: &mut Types<'_>,
    kinds: &StructKinds,
    out: &mut Emitter<'t>,
    here: &mut Here<'t>,
    block: &mut Block,
    body: &'t Stmt,
    test: Option<&'t Expr>,
    step: Option<&'t Expr>,
) -> Result<(), AllocError>
    requires { HoldsSome types.old here.old.declared }
    ensures { OnOk result (Loops types.old types.new here.old here.new kinds.now out.old out.new block.old block.new (option_map (λ x. expr_of x.now) test.entry) (option_map (λ x. expr_of x.now) step.entry) (stmt_of body.now)) }
{
    let start = out.reserve()?;
    tested(types, out, here, test)?;
    let turn = begin_turn(out)?;
    let front = set_aside(out);
    stepped(types, out, here, step)?;
    let code = put_back(out, front);
    statement(types, kinds, out, here, block, body)?;
    let again = out.code.count();
    append(out, code)?;
    end_loop(out, start, turn, again)
}

// A `do`.
#[cycle(statements)]
fn do_loop<'t>(
    types: &mut Types<'_>,
    kinds: &StructKinds,
    out: &mut Emitter<'t>,
    here: &mut Here<'t>,
    block: &mut Block,
    body: &'t Stmt,
    e: &'t Expr,
) -> Result<(), AllocError>
    requires { HoldsSome types.old here.old.declared }
    ensures { OnOk result (Compiles types.old types.new here.old here.new kinds.now out.old out.new block.old block.new (tree.Do (stmt_of body.now) (expr_of e.now))) }
{
    let start = out.reserve()?;
    out.add(Instruction::Pay)?;
    statement(types, kinds, out, here, block, body)?;
    let again = out.code.count();
    tested(types, out, here, Some(e))?;
    end_do(out, start, again)
}

// A `for` whose head is a block: its objects count in the whole `for`.
#[cycle(statements)]
fn for_block<'t>(
    types: &mut Types<'_>,
    kinds: &StructKinds,
    out: &mut Emitter<'t>,
    here: &mut Here<'t>,
    block: &Block,
    head: &'t Stmts,
    body: &'t Stmt,
    test: Option<&'t Expr>,
    step: Option<&'t Expr>,
) -> Result<(), AllocError>
    requires { HoldsSome types.old here.old.declared }
    ensures { OnOk result (Compiles types.old types.new here.old here.new kinds.now out.old out.new block.now block.now (tree.For (tree.Block (stmts_of head.now)) (option_map (λ x. expr_of x.now) test.entry) (option_map (λ x. expr_of x.now) step.entry) (stmt_of body.now))) }
{
    let count = local_count(head.items.as_slice())?;
    let mut inner = Block::begin(here.declared.alloc, block.free, count)?;
    let start = out.reserve()?;
    let marks = enter(here);
    all_statements(types, kinds, out, here, &mut inner, head)?;
    looped(types, kinds, out, here, &mut inner, body, test, step)?;
    leave(here, marks)?;
    end_block(out, start, inner.lengths.as_slice())
}

// A `for`.
#[cycle(statements)]
fn for_loop<'t>(
    types: &mut Types<'_>,
    kinds: &StructKinds,
    out: &mut Emitter<'t>,
    here: &mut Here<'t>,
    block: &mut Block,
    head: &'t Stmt,
    body: &'t Stmt,
    test: &'t Option<Expr>,
    step: &'t Option<Expr>,
) -> Result<(), AllocError>
    requires { HoldsSome types.old here.old.declared }
    ensures { OnOk result (Compiles types.old types.new here.old here.new kinds.now out.old out.new block.old block.new (tree.For (stmt_of head.now) (maybe test.now) (maybe step.now) (stmt_of body.now))) }
{
    let some_test = there(test);
    let some_step = there(step);
    match head {
        Stmt::Block(all) => {
            for_block(
                types, kinds, out, here, block, all, body, some_test, some_step,
            )
        }
        _ => {
            statement(types, kinds, out, here, block, head)?;
            looped(types, kinds, out, here, block, body, some_test, some_step)
        }
    }
}

// A `switch`: its parts are emitted apart, since the jumps to their labels stand before them.
#[cycle(statements)]
fn switch<'t>(
    types: &mut Types<'_>,
    kinds: &StructKinds,
    out: &mut Emitter<'t>,
    here: &mut Here<'t>,
    block: &Block,
    parts: &'t Parts,
    e: &'t Expr,
) -> Result<(), AllocError>
    requires { HoldsSome types.old here.old.declared }
    ensures { OnOk result (Compiles types.old types.new here.old here.new kinds.now out.old out.new block.now block.now (tree.Switch (expr_of e.now) (parts_of parts.now))) }
{
    tested(types, out, here, Some(e))?;
    out.add(Instruction::Unary(Unary::CheckWord))?;
    let count = local_part_count(parts.items.as_slice())?;
    let mut inner = Block::begin(here.declared.alloc, block.free, count)?;
    let front = set_aside(out);
    let marks = enter(here);
    let labels = all_parts(types, kinds, out, here, &mut inner, parts)?;
    leave(here, marks)?;
    let code = put_back(out, front);
    switch_parts(out, labels.as_slice(), inner.lengths.as_slice(), code)
}

// The parts of a `switch`, one after the other. The answer are their labels.
#[cycle(statements)]
fn all_parts<'t>(
    types: &mut Types<'_>,
    kinds: &StructKinds,
    out: &mut Emitter<'t>,
    here: &mut Here<'t>,
    block: &mut Block,
    parts: &'t Parts,
) -> Result<Vec<Label>, AllocError>
    requires { HoldsSome types.old here.old.declared }
    ensures { IfOk result (λ labels. CompilesParts types.old types.new here.old here.new kinds.now out.old out.new block.old block.new labels.items (parts_of parts.now)) }
{
    let mut labels = Vec::new(here.declared.alloc);
    for part in &parts.items {
        one_part(types, kinds, out, here, block, &mut labels, part)?;
    }
    Ok(labels)
}

// A part of a `switch`.
#[cycle(statements)]
fn one_part<'t>(
    types: &mut Types<'_>,
    kinds: &StructKinds,
    out: &mut Emitter<'t>,
    here: &mut Here<'t>,
    block: &mut Block,
    labels: &mut Vec<Label>,
    part: &'t Part,
) -> Result<(), AllocError>
    requires { HoldsSome types.old here.old.declared }
    ensures { OnOk result (CompilesPart types.old types.new here.old here.new kinds.now out.old out.new block.old block.new labels.old.items labels.new.items (part_of part.now)) }
{
    match part {
        Part::Label(_, e) => {
            let at = out.code.count();
            add_label(types, &here.declared, labels, at, e)
        }
        Part::Item(t) => statement(types, kinds, out, here, block, t),
    }
}
