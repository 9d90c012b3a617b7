// Code of statements. It begins in the block `k`, and the block in which it ends is the answer.

ghost use Rattle.std.specs.Prelude.{IfOk};
ghost use Rattle.c_syntax.specs.Plain as tree;
ghost use Rattle.c_syntax.specs.View.{expr_of, maybe, stmt_of, part_of};
ghost use Rattle.c_declared.specs.Held.{HoldsSome};
ghost use Rattle.c_counted.specs.Rows.{stmts_of, parts_of};
ghost use Rattle.c_lower_statements.specs.declared.targets.Targets as aim;
ghost use Rattle.c_lower_statements.specs.Lowered.{Lowers, LowersAll, LowersPart, LowersParts, Turns};

use crate::asides::{append, step_aside};
use crate::locals::local;
use crate::switches::{begin_switch, default_block};
use crate::targets::Targets;
use c_addressing::{Here, Output, jump};
use c_cells::StructKinds;
use c_counted::{
    case_jumps_of, jumps_of, maybe_jumps_of, maybe_truth_jumps_of, next, parts_jumps_of, plus,
    statement_jumps_of, truth_jumps_of,
};
use c_lower_blocks::{Block, begin_block, leave};
use c_lower_expressions::value;
use c_lower_simple::{effect, jump_out, maybe_unless, returns, unless, where_true};
use c_syntax::tree::{Expr, Part, Parts, Stmt, Stmts};
use std::alloc::AllocError;

/// Code of a statement of a block.
#[cycle(statements)]
pub fn statement<'t>(
    out: &mut Output<'_>,
    structs: &StructKinds,
    here: &mut Here<'t>,
    block: &mut Block,
    t: &'t Stmt,
    to: Targets,
    k: u32,
) -> Result<u32, AllocError>
    requires { HoldsSome out.old.types here.old.declared }
    ensures { IfOk result (λ r. Lowers out.old out.new here.old here.new structs.now block.old block.new (stmt_of t.now) to k r) }
{
    match t {
        Stmt::Block(all) => inner_block(out, structs, here, block, all, to, k),
        Stmt::Local(d) => local(out, structs, here, block, d, k),
        Stmt::Expr(e) => effect(out, here, e, k, block.free),
        Stmt::Empty => Ok(k),
        Stmt::If(e, body, other) => match other {
            None => one_choice(out, structs, here, block, e, body, to, k),
            Some(second) => two_choices(out, structs, here, block, e, body, second, to, k),
        },
        Stmt::While(e, body) => while_loop(out, structs, here, block, e, body, k),
        Stmt::Do(body, e) => do_loop(out, structs, here, block, body, e, k),
        Stmt::For(first, test, step, body) => {
            for_loop(out, structs, here, block, first, test, step, body, to, k)
        }
        Stmt::Return(_at, e) => returns(out, here, e, k, block.free),
        Stmt::Break(_at) => jump_out(out, here, to.broke, k, block.free),
        Stmt::Continue(_at) => jump_out(out, here, to.continued, k, block.free),
        Stmt::Switch(e, parts) => switch(out, structs, here, block, e, parts, to, k),
    }
}

/// Code of the statements of a block, one after the other.
#[cycle(statements)]
pub fn all_statements<'t>(
    out: &mut Output<'_>,
    structs: &StructKinds,
    here: &mut Here<'t>,
    block: &mut Block,
    all: &'t Stmts,
    to: Targets,
    k: u32,
) -> Result<u32, AllocError>
    requires { HoldsSome out.old.types here.old.declared }
    ensures { IfOk result (λ r. LowersAll out.old out.new here.old here.new structs.now block.old block.new (stmts_of all.now) to k r) }
{
    let mut behind = k;
    for t in &all.items {
        behind = statement(out, structs, here, block, t, to, behind)?;
    }
    Ok(behind)
}

// A block within another one: its objects lie where the frame is free.
#[cycle(statements)]
fn inner_block<'t>(
    out: &mut Output<'_>,
    structs: &StructKinds,
    here: &mut Here<'t>,
    block: &Block,
    all: &'t Stmts,
    to: Targets,
    k: u32,
) -> Result<u32, AllocError>
    requires { HoldsSome out.old.types here.old.declared }
    ensures { IfOk result (λ r. Lowers out.old out.new here.old here.new structs.now block.now block.now (tree.Block (stmts_of all.now)) to k r) }
{
    let begun = begin_block(out, here, all, block.free)?;
    let mut inner = begun.block;
    let end = all_statements(out, structs, here, &mut inner, all, to, k)?;
    leave(here, begun.marks)?;
    Ok(end)
}

// An `if` without an `else`.
#[cycle(statements)]
fn one_choice<'t>(
    out: &mut Output<'_>,
    structs: &StructKinds,
    here: &mut Here<'t>,
    block: &mut Block,
    e: &Expr,
    body: &'t Stmt,
    to: Targets,
    k: u32,
) -> Result<u32, AllocError>
    requires { HoldsSome out.old.types here.old.declared }
    ensures { IfOk result (λ r. Lowers out.old out.new here.old here.new structs.now block.old block.new (tree.If (expr_of e.now) (stmt_of body.now)) to k r) }
{
    let inside = plus(k, truth_jumps_of(e));
    let end = next(plus(inside, statement_jumps_of(body)));
    unless(out, here, e, end, k, block.free)?;
    statement(out, structs, here, block, body, to, inside)?;
    jump(out, end)?;
    Ok(end)
}

// An `if` with an `else`.
#[cycle(statements)]
fn two_choices<'t>(
    out: &mut Output<'_>,
    structs: &StructKinds,
    here: &mut Here<'t>,
    block: &mut Block,
    e: &Expr,
    body: &'t Stmt,
    second: &'t Stmt,
    to: Targets,
    k: u32,
) -> Result<u32, AllocError>
    requires { HoldsSome out.old.types here.old.declared }
    ensures { IfOk result (λ r. Lowers out.old out.new here.old here.new structs.now block.old block.new (tree.IfElse (expr_of e.now) (stmt_of body.now) (stmt_of second.now)) to k r) }
{
    let inside = plus(k, truth_jumps_of(e));
    let other = next(plus(inside, statement_jumps_of(body)));
    let end = next(plus(other, statement_jumps_of(second)));
    unless(out, here, e, other, k, block.free)?;
    statement(out, structs, here, block, body, to, inside)?;
    jump(out, end)?;
    statement(out, structs, here, block, second, to, other)?;
    jump(out, end)?;
    Ok(end)
}

// A `while`. A `continue` leads to its test.
#[cycle(statements)]
fn while_loop<'t>(
    out: &mut Output<'_>,
    structs: &StructKinds,
    here: &mut Here<'t>,
    block: &mut Block,
    e: &Expr,
    body: &'t Stmt,
    k: u32,
) -> Result<u32, AllocError>
    requires { HoldsSome out.old.types here.old.declared }
    ensures { (to : aim.Targets) → IfOk result (λ r. Lowers out.old out.new here.old here.new structs.now block.old block.new (tree.While (expr_of e.now) (stmt_of body.now)) to k r) }
{
    let again = next(k);
    let inside = plus(again, truth_jumps_of(e));
    let end = next(plus(inside, statement_jumps_of(body)));
    jump(out, again)?;
    unless(out, here, e, end, again, block.free)?;
    let around = Targets {
        broke: end,
        continued: again,
    };
    statement(out, structs, here, block, body, around, inside)?;
    jump(out, again)?;
    Ok(end)
}

// A `do`. A `continue` leads to its test.
#[cycle(statements)]
fn do_loop<'t>(
    out: &mut Output<'_>,
    structs: &StructKinds,
    here: &mut Here<'t>,
    block: &mut Block,
    body: &'t Stmt,
    e: &Expr,
    k: u32,
) -> Result<u32, AllocError>
    requires { HoldsSome out.old.types here.old.declared }
    ensures { (to : aim.Targets) → IfOk result (λ r. Lowers out.old out.new here.old here.new structs.now block.old block.new (tree.Do (stmt_of body.now) (expr_of e.now)) to k r) }
{
    let first = next(k);
    let test = next(plus(first, statement_jumps_of(body)));
    let end = plus(test, truth_jumps_of(e));
    jump(out, first)?;
    let around = Targets {
        broke: end,
        continued: test,
    };
    statement(out, structs, here, block, body, around, first)?;
    jump(out, test)?;
    where_true(out, here, e, first, test, block.free)?;
    Ok(end)
}

// The loop of a `for` behind its head. Its step stands behind the body, and its string literals come before those of the
// body.
#[cycle(statements)]
fn turns<'t>(
    out: &mut Output<'_>,
    structs: &StructKinds,
    here: &mut Here<'t>,
    block: &mut Block,
    test: &Option<Expr>,
    step: &Option<Expr>,
    body: &'t Stmt,
    k: u32,
) -> Result<u32, AllocError>
    requires { HoldsSome out.old.types here.old.declared }
    ensures { IfOk result (λ r. Turns out.old out.new here.old here.new structs.now block.old block.new (maybe test.now) (maybe step.now) (stmt_of body.now) k r) }
{
    let again = next(k);
    let inside = plus(again, maybe_truth_jumps_of(test));
    let stepping = next(plus(inside, statement_jumps_of(body)));
    let end = next(plus(stepping, maybe_jumps_of(step)));
    jump(out, again)?;
    maybe_unless(out, here, test, end, again, block.free)?;
    let ahead = step_aside(out, here, step, stepping, block.free)?;
    let around = Targets {
        broke: end,
        continued: stepping,
    };
    statement(out, structs, here, block, body, around, inside)?;
    jump(out, stepping)?;
    append(out, ahead.as_slice())?;
    jump(out, again)?;
    Ok(end)
}

// A `for` whose head is a block: its objects live in the whole `for`.
#[cycle(statements)]
fn for_block<'t>(
    out: &mut Output<'_>,
    structs: &StructKinds,
    here: &mut Here<'t>,
    block: &Block,
    head: &'t Stmts,
    test: &Option<Expr>,
    step: &Option<Expr>,
    body: &'t Stmt,
    to: Targets,
    k: u32,
) -> Result<u32, AllocError>
    requires { HoldsSome out.old.types here.old.declared }
    ensures { IfOk result (λ r. Lowers out.old out.new here.old here.new structs.now block.now block.now (tree.For (tree.Block (stmts_of head.now)) (maybe test.now) (maybe step.now) (stmt_of body.now)) to k r) }
{
    let begun = begin_block(out, here, head, block.free)?;
    let mut inner = begun.block;
    let start = all_statements(out, structs, here, &mut inner, head, to, k)?;
    let end = turns(out, structs, here, &mut inner, test, step, body, start)?;
    leave(here, begun.marks)?;
    Ok(end)
}

// A `for`.
#[cycle(statements)]
fn for_loop<'t>(
    out: &mut Output<'_>,
    structs: &StructKinds,
    here: &mut Here<'t>,
    block: &mut Block,
    head: &'t Stmt,
    test: &Option<Expr>,
    step: &Option<Expr>,
    body: &'t Stmt,
    to: Targets,
    k: u32,
) -> Result<u32, AllocError>
    requires { HoldsSome out.old.types here.old.declared }
    ensures { IfOk result (λ r. Lowers out.old out.new here.old here.new structs.now block.old block.new (tree.For (stmt_of head.now) (maybe test.now) (maybe step.now) (stmt_of body.now)) to k r) }
{
    match head {
        Stmt::Block(all) => for_block(out, structs, here, block, all, test, step, body, to, k),
        _ => {
            let start = statement(out, structs, here, block, head, to, k)?;
            turns(out, structs, here, block, test, step, body, start)
        }
    }
}

// A `switch`. A `break` leads behind it, and a `continue` out of it.
#[cycle(statements)]
fn switch<'t>(
    out: &mut Output<'_>,
    structs: &StructKinds,
    here: &mut Here<'t>,
    block: &Block,
    e: &Expr,
    parts: &'t Parts,
    to: Targets,
    k: u32,
) -> Result<u32, AllocError>
    requires { HoldsSome out.old.types here.old.declared }
    ensures { IfOk result (λ r. Lowers out.old out.new here.old here.new structs.now block.now block.now (tree.Switch (expr_of e.now) (parts_of parts.now)) to k r) }
{
    let compared = plus(plus(k, jumps_of(e)), case_jumps_of(parts));
    let first = next(compared);
    let end = next(plus(first, parts_jumps_of(parts)));
    value(out, here, e, k, block.free)?;
    let begun = begin_switch(out, here, parts, block.free, first)?;
    let mut inner = begun.block;
    jump(out, default_block(parts, first, end))?;
    let around = Targets {
        broke: end,
        continued: to.continued,
    };
    all_parts(out, structs, here, &mut inner, parts, around, first)?;
    leave(here, begun.marks)?;
    jump(out, end)?;
    Ok(end)
}

// The parts of a `switch`, one after the other.
#[cycle(statements)]
fn all_parts<'t>(
    out: &mut Output<'_>,
    structs: &StructKinds,
    here: &mut Here<'t>,
    block: &mut Block,
    parts: &'t Parts,
    to: Targets,
    k: u32,
) -> Result<u32, AllocError>
    requires { HoldsSome out.old.types here.old.declared }
    ensures { IfOk result (λ r. LowersParts out.old out.new here.old here.new structs.now block.old block.new (parts_of parts.now) to k r) }
{
    let mut behind = k;
    for part in &parts.items {
        behind = one_part(out, structs, here, block, part, to, behind)?;
    }
    Ok(behind)
}

// A part of a `switch`. A label is jumped to, so what stands before it ends with a jump.
#[cycle(statements)]
fn one_part<'t>(
    out: &mut Output<'_>,
    structs: &StructKinds,
    here: &mut Here<'t>,
    block: &mut Block,
    part: &'t Part,
    to: Targets,
    k: u32,
) -> Result<u32, AllocError>
    requires { HoldsSome out.old.types here.old.declared }
    ensures { IfOk result (λ r. LowersPart out.old out.new here.old here.new structs.now block.old block.new (part_of part.now) to k r) }
{
    match part {
        Part::Label(_at, _e) => jump_out(out, here, next(k), k, block.free),
        Part::Item(t) => statement(out, structs, here, block, t, to, k),
    }
}
