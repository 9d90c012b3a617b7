// The commands of operations, each from home to home.

ghost use Rattle.std.specs.Prelude.{◌≡◌, ◌<◌, ◌≤◌, ◌++◌, ◌∷◌, [], OnOk};
ghost use Rattle.bf_columns.specs.Columns.{homewards_code};
ghost use Rattle.bf_columns.specs.Worked.{body_of, onwards_code};
ghost use Rattle.bf_columns.specs.Board.{sweep_code};
ghost use Rattle.bf_columns.specs.Text.{spelled};
ghost use Rattle.bf_columns.specs.Told.{away_code, homewards_by, equal_code, order_code, pass_text, answer_cells, none_text, some_text};
ghost use Rattle.bf_columns.specs.Number.{digits_code, put_number_code, mov_number_code, add_number_code, sub_number_code};
ghost use Rattle.bf_columns.specs.Noted.{sweep_text, question_text, question_code};

use crate::noted::put_text;
use crate::sweep::{Question, Sweep};
use bf_lang::Command;
use bf_tape::code::{put_goto, put_loop, put_many};
use std::alloc::{AllocError, Global};

// The text of a sweep at one column.
fn put_sweep_body(
    code: &mut Vec<Command>,
    sweep: Sweep,
    register: u32,
    other: u32,
) -> Result<(), AllocError>
    requires register { register < 10 }
    requires other { other < 10 }
    ensures { OnOk result (code.new.items ≡ code.old.items ++ body_of register other (sweep_text sweep)) }
{
    let cells = [10 + register, 10 + other, 13, 16, 19, 9, 15];
    put_text(code, &cells, 6, sweep.text())
}

// The text of a question at one column.
fn put_question_body(
    code: &mut Vec<Command>,
    question: Question,
    register: u32,
    other: u32,
) -> Result<(), AllocError>
    requires register { register < 10 }
    requires other { other < 10 }
    ensures { OnOk result (code.new.items ≡ code.old.items ++ body_of register other (question_text question)) }
{
    let cells = [10 + register, 10 + other, 13, 16, 19, 9, 15];
    put_text(code, &cells, 6, question.text())
}

// A body at each column, from the one under the head on.
fn put_onwards(code: &mut Vec<Command>, body: &mut Vec<Command>) -> Result<(), AllocError>
    ensures { OnOk result (code.new.items ≡ code.old.items ++ onwards_code body.old.items) }
{
    body.extend_from_slice(&[Command::Left; 10])?;
    put_loop(code, body)
}

// From left of all columns to home, along the guides.
fn put_homewards(code: &mut Vec<Command>) -> Result<(), AllocError>
    ensures { OnOk result (code.new.items ≡ code.old.items ++ homewards_code) }
{
    put_many(code, 10, Command::Right)?;
    put_loop(code, &[Command::Right; 10])
}

// From home to the place left of all columns.
fn put_away(code: &mut Vec<Command>) -> Result<(), AllocError>
    ensures { OnOk result (code.new.items ≡ code.old.items ++ away_code) }
{
    put_many(code, 10, Command::Left)?;
    put_loop(code, &[Command::Left; 10])
}

// A body at each column from the left, to home.
fn put_homewards_by(code: &mut Vec<Command>, body: &mut Vec<Command>) -> Result<(), AllocError>
    ensures { OnOk result (code.new.items ≡ code.old.items ++ homewards_by body.old.items) }
{
    body.extend_from_slice(&[Command::Right; 10])?;
    put_many(code, 10, Command::Right)?;
    put_loop(code, body)
}

/// One way along the columns and back, written after other commands: what `sweep` does with a register and another one, by
/// their lanes.
///
/// # Errors
///
/// There is no memory.
pub fn put_sweep(
    alloc: Global,
    code: &mut Vec<Command>,
    sweep: Sweep,
    register: u32,
    other: u32,
) -> Result<(), AllocError>
    requires register { register < 10 }
    requires other { other < 10 }
    ensures { OnOk result (code.new.items ≡ code.old.items ++ sweep_code (body_of register other (sweep_text sweep))) }
{
    let mut body = Vec::new(alloc);
    put_sweep_body(&mut body, sweep, register, other)?;
    put_many(code, 10, Command::Left)?;
    put_onwards(code, &mut body)?;
    put_goto(code, 5, 9)?;
    put_loop(code, &[Command::Minus])?;
    put_goto(code, 9, 5)?;
    put_homewards(code)
}

// Equality of a register and what `question` asks of, by a body at each column from the left.
fn put_equal(code: &mut Vec<Command>, body: &mut Vec<Command>) -> Result<(), AllocError>
    ensures { OnOk result (code.new.items ≡ code.old.items ++ equal_code body.old.items) }
{
    put_away(code)?;
    put_homewards_by(code, body)?;
    put_none(code)
}

// Order, by a body at each column from the right; its last borrow comes back.
fn put_order(
    alloc: Global,
    code: &mut Vec<Command>,
    body: &mut Vec<Command>,
) -> Result<(), AllocError>
    ensures { OnOk result (code.new.items ≡ code.old.items ++ order_code body.old.items) }
{
    let mut pass = Vec::new(alloc);
    put_pass(&mut pass)?;
    put_many(code, 10, Command::Left)?;
    put_onwards(code, body)?;
    put_homewards_by(code, &mut pass)?;
    put_some(code)
}

// A borrow goes from the left column to this one.
fn put_pass(code: &mut Vec<Command>) -> Result<(), AllocError>
    ensures { OnOk result (code.new.items ≡ code.old.items ++ spelled (10 ∷ 10 ∷ 13 ∷ 16 ∷ 19 ∷ 9 ∷ 15 ∷ []) 6 pass_text) }
{
    put_text(code, &[10, 10, 13, 16, 19, 9, 15], 6, b"5[-4+5]6")
}

// The flag becomes 1 where z of column 0 is 0.
fn put_none(code: &mut Vec<Command>) -> Result<(), AllocError>
    ensures { OnOk result (code.new.items ≡ code.old.items ++ spelled answer_cells 2 none_text) }
{
    put_text(code, &[129, 136, 135], 2, b"1+0[[-]1-0]2")
}

// z of column 0 goes to the flag.
fn put_some(code: &mut Vec<Command>) -> Result<(), AllocError>
    ensures { OnOk result (code.new.items ≡ code.old.items ++ spelled answer_cells 2 some_text) }
{
    put_text(code, &[129, 136, 135], 2, b"0[-1+0]2")
}

/// A comparison, written after other commands: the flag becomes 1 where the answer is yes. A register and another one go by
/// their lanes.
///
/// # Errors
///
/// There is no memory.
pub fn put_question(
    alloc: Global,
    code: &mut Vec<Command>,
    question: Question,
    register: u32,
    other: u32,
) -> Result<(), AllocError>
    requires register { register < 10 }
    requires other { other < 10 }
    ensures { OnOk result (code.new.items ≡ code.old.items ++ question_code question register other) }
{
    let mut body = Vec::new(alloc);
    put_question_body(&mut body, question, register, other)?;
    if question.asks_equality() {
        return put_equal(code, &mut body);
    }
    put_order(alloc, code, &mut body)
}

// So many digits of a number, the lowest first.
fn put_digits(code: &mut Vec<Command>, number: u32, digits: u32) -> Result<(), AllocError>
    ensures { OnOk result (code.new.items ≡ code.old.items ++ digits_code number digits) }
{
    let mut rest = number;
    for _ in 0..digits {
        put_many(code, 10, Command::Left)?;
        put_many(code, rest % 4, Command::Plus)?;
        rest /= 4;
    }
    Ok(())
}

/// A number of so many digits for a lane that has 0, written after other commands.
///
/// # Errors
///
/// There is no memory.
pub fn put_number(
    code: &mut Vec<Command>,
    lane: u32,
    number: u32,
    digits: u32,
) -> Result<(), AllocError>
    requires lane { lane < 10 }
    requires digits { digits ≤ 12 }
    ensures { OnOk result (code.new.items ≡ code.old.items ++ put_number_code lane number digits) }
{
    put_goto(code, 135, 130 + lane)?;
    put_digits(code, number, digits)?;
    put_goto(code, 130 + lane - 10 * digits, 135 - 10 * digits)?;
    put_loop(code, &[Command::Right; 10])
}

/// `mov r, k`, written after other commands.
///
/// # Errors
///
/// There is no memory.
pub fn put_mov_number(
    alloc: Global,
    code: &mut Vec<Command>,
    register: u32,
    number: u32,
    digits: u32,
) -> Result<(), AllocError>
    requires register { register < 10 }
    requires digits { digits ≤ 12 }
    ensures { OnOk result (code.new.items ≡ code.old.items ++ mov_number_code register number digits) }
{
    put_sweep(alloc, code, Sweep::Clear, register, register)?;
    put_number(code, register, number, digits)
}

/// `add r, k`, written after other commands.
///
/// # Errors
///
/// There is no memory.
pub fn put_add_number(
    alloc: Global,
    code: &mut Vec<Command>,
    register: u32,
    number: u32,
    digits: u32,
) -> Result<(), AllocError>
    requires register { register < 10 }
    requires digits { digits ≤ 12 }
    ensures { OnOk result (code.new.items ≡ code.old.items ++ add_number_code register number digits) }
{
    put_number(code, 6, number, digits)?;
    put_sweep(alloc, code, Sweep::LaneSum, register, register)
}

/// `sub r, k`, written after other commands.
///
/// # Errors
///
/// There is no memory.
pub fn put_sub_number(
    alloc: Global,
    code: &mut Vec<Command>,
    register: u32,
    number: u32,
    digits: u32,
) -> Result<(), AllocError>
    requires register { register < 10 }
    requires digits { digits ≤ 12 }
    ensures { OnOk result (code.new.items ≡ code.old.items ++ sub_number_code register number digits) }
{
    put_number(code, 6, number, digits)?;
    put_sweep(alloc, code, Sweep::LaneDifference, register, register)
}
