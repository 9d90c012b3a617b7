// The lines of operations on their way to a sink.
ghost use Rattle.std.specs.Prelude.{◌≡◌, ◌+◌, ◌≤◌, ◌^◌};
ghost use Rattle.eir_core.specs.declared.ops.Op.TheVariants.{Add, Sub, Load, Store, Set, Jump, JumpIf};
ghost use Rattle.sq_back.specs.Code.{op_lines};
ghost use Rattle.sq_back.specs.Putting.{PutsAct, PutsLines};

use crate::cells::{
    LOAD_NEXT, LOAD_START, NOWHERE, OTHER, STORE_NEXT, STORE_START, WORK, goal, register_cell,
    value_cell,
};
use crate::line::{go, numbers, subtract};
use crate::op::own_numbers;
use crate::parts::{
    branches_of, difference_lines, flag_lines, goto_lines, move_lines, sign_lines, sum_lines,
    wrap_difference_lines, wrap_sum_lines,
};
use crate::put::{put_groups, put_line, put_lines};
use eir_core::{Cond, Op, Operand, Reg};
use mach_core::{Failed, Put, Sink};

/// Where an operation stands.
#[derive(Clone, Copy)]
pub(crate) struct Site {
    /// How many blocks the program has.
    pub count: u32,
    /// The address of the operation's own numbers; behind them stands what it does.
    pub own: u32,
    /// Where it goes on.
    pub place: i64,
}

// Adds a value to a register.
fn put_add<O: Sink>(
    site: Site,
    r: Reg,
    v: Operand,
    put: &mut Put,
    out: &mut O,
) -> Result<(), Failed>
    requires { site.own ≤ 2 ^ 22 }
    ensures { PutsAct O.got O.faults out.old out.new put.old put.new site (Add r v) result }
{
    let at = site.own + 3;
    let cell = register_cell(r);
    let sum = sum_lines(at, value_cell(site.own, v), cell);
    let wrap = wrap_sum_lines(at + 9, cell, site.place);
    put_groups(&[&sum, &wrap], put, out)
}

// Subtracts a value from a register.
fn put_sub<O: Sink>(
    site: Site,
    r: Reg,
    v: Operand,
    put: &mut Put,
    out: &mut O,
) -> Result<(), Failed>
    requires { site.own ≤ 2 ^ 22 }
    ensures { PutsAct O.got O.faults out.old out.new put.old put.new site (Sub r v) result }
{
    let at = site.own + 3;
    let cell = register_cell(r);
    let first = [subtract(value_cell(site.own, v), cell, i64::from(at + 3))];
    let wrap = wrap_difference_lines(at + 3, cell, site.place);
    put_groups(&[&first, &wrap], put, out)
}

// Brings a word of memory into a register.
fn put_load<O: Sink>(
    site: Site,
    r: Reg,
    v: Operand,
    put: &mut Put,
    out: &mut O,
) -> Result<(), Failed>
    requires { site.own ≤ 2 ^ 22 }
    ensures { PutsAct O.got O.faults out.old out.new put.old put.new site (Load r v) result }
{
    let at = site.own + 3;
    let address = move_lines(at, value_cell(site.own, v), WORK, i64::from(at + 12));
    let call = move_lines(at + 12, site.own + 1, LOAD_NEXT, i64::from(LOAD_START));
    let word = move_lines(at + 24, WORK, register_cell(r), site.place);
    put_groups(&[&address, &call, &word], put, out)
}

// Brings a register into a word of memory.
fn put_store<O: Sink>(
    site: Site,
    r: Reg,
    v: Operand,
    put: &mut Put,
    out: &mut O,
) -> Result<(), Failed>
    requires { site.own ≤ 2 ^ 22 }
    ensures { PutsAct O.got O.faults out.old out.new put.old put.new site (Store r v) result }
{
    let at = site.own + 3;
    let address = move_lines(at, value_cell(site.own, v), WORK, i64::from(at + 12));
    let word = move_lines(at + 12, register_cell(r), OTHER, i64::from(at + 24));
    let call = move_lines(at + 24, site.own + 1, STORE_NEXT, i64::from(STORE_START));
    put_groups(&[&address, &word, &call], put, out)
}

// Makes a register 1 where a comparison holds, else 0.
fn put_set<O: Sink>(
    site: Site,
    test: Cond,
    r: Reg,
    v: Operand,
    put: &mut Put,
    out: &mut O,
) -> Result<(), Failed>
    requires { site.own ≤ 2 ^ 22 }
    ensures { PutsAct O.got O.faults out.old out.new put.old put.new site (Set test r v) result }
{
    let at = site.own + 3;
    let branches = branches_of(test, i64::from(at + 30), i64::from(at + 27));
    let difference = difference_lines(at, register_cell(r), value_cell(site.own, v));
    let sign = sign_lines(at + 15, branches);
    let flag = flag_lines(at + 27, r, site.place);
    put_groups(&[&difference, &sign, &flag], put, out)
}

// Goes to a block.
fn put_jump<O: Sink>(site: Site, target: Operand, put: &mut Put, out: &mut O) -> Result<(), Failed>
    requires { site.own ≤ 2 ^ 22 }
    ensures { PutsAct O.got O.faults out.old out.new put.old put.new site (Jump target) result }
{
    match target {
        Operand::Reg(r) => put_lines(&goto_lines(site.own + 3, r), put, out),
        Operand::Imm(word) => put_lines(&[go(goal(site.count, word.get()))], put, out),
    }
}

// Goes to a block where a comparison holds.
fn put_jump_if<O: Sink>(
    site: Site,
    test: Cond,
    target: Operand,
    r: Reg,
    v: Operand,
    put: &mut Put,
    out: &mut O,
) -> Result<(), Failed>
    requires { site.own ≤ 2 ^ 22 }
    ensures { PutsAct O.got O.faults out.old out.new put.old put.new site (JumpIf test target r v) result }
{
    let at = site.own + 3;
    let difference = difference_lines(at, register_cell(r), value_cell(site.own, v));
    match target {
        Operand::Reg(t) => {
            let sign = sign_lines(at + 15, branches_of(test, i64::from(at + 27), site.place));
            put_groups(&[&difference, &sign, &goto_lines(at + 27, t)], put, out)
        }
        Operand::Imm(word) => {
            let sign = sign_lines(
                at + 15,
                branches_of(test, goal(site.count, word.get()), site.place),
            );
            put_groups(&[&difference, &sign], put, out)
        }
    }
}

// What an operation does.
fn put_act<O: Sink>(site: Site, op: Op, put: &mut Put, out: &mut O) -> Result<(), Failed>
    requires { site.own ≤ 2 ^ 22 }
    ensures { PutsAct O.got O.faults out.old out.new put.old put.new site op result }
{
    let at = site.own + 3;
    match op {
        Op::Mov(r, v) => {
            let lines = move_lines(at, value_cell(site.own, v), register_cell(r), site.place);
            put_lines(&lines, put, out)
        }
        Op::Add(r, v) => put_add(site, r, v, put, out),
        Op::Sub(r, v) => put_sub(site, r, v, put, out),
        Op::Load(r, v) => put_load(site, r, v, put, out),
        Op::Store(r, v) => put_store(site, r, v, put, out),
        Op::Putc(v) => {
            let write = numbers(i64::from(value_cell(site.own, v)), -1, i64::from(at + 3));
            put_lines(&[write, go(site.place)], put, out)
        }
        Op::Getc(r) => {
            let read = numbers(-1, i64::from(register_cell(r)), i64::from(at + 3));
            put_lines(&[read, go(site.place)], put, out)
        }
        Op::Exit => put_lines(&[go(NOWHERE)], put, out),
        Op::Set(test, r, v) => put_set(site, test, r, v, put, out),
        Op::Jump(target) => put_jump(site, target, put, out),
        Op::JumpIf(test, target, r, v) => { put_jump_if(site, test, target, r, v, put, out) }
    }
}

/// An operation: its numbers, and behind them what it does.
pub(crate) fn put_op<O: Sink>(site: Site, op: Op, put: &mut Put, out: &mut O) -> Result<(), Failed>
    requires { site.own ≤ 2 ^ 22 }
    ensures { PutsLines O.got O.faults out.old out.new put.old put.new (op_lines site.count site.own site.place op) result }
{
    put_line(own_numbers(site.own, site.place, op), put, out)?;
    put_act(site, op, put, out)
}
