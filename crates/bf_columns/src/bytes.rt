// The commands that write and read a byte, each from home to home.

ghost use Rattle.std.specs.Prelude.{◌≡◌, ◌<◌, ◌≤◌, ◌*◌, ◌++◌, ◌∷◌, [], OnOk};
ghost use Rattle.bf_lang.specs.declared.command.Command.TheVariants.{Plus, Minus};
ghost use Rattle.bf_tape.specs.Does.{loop};
ghost use Rattle.bf_tape.specs.Code.{goto_code};
ghost use Rattle.bf_columns.specs.Lanes.{lane_cell};
ghost use Rattle.bf_columns.specs.Text.{spelled};
ghost use Rattle.bf_columns.specs.Deal.{split_level, split_last, split_turn, split_code, quarter_code, part_code, units_code, deal_code};
ghost use Rattle.bf_columns.specs.Bytes.{high_code, low_text, putc_code, unit_start, getc_unit, getc_code};

use crate::noted::put_text;
use crate::operation::put_sweep;
use crate::sweep::Sweep;
use bf_lang::Command;
use bf_tape::code::{put_goto, put_loop, put_many};
use std::alloc::{AllocError, Global};

// The digit of a column to x, then x to the right, each unit as four.
fn put_high(code: &mut Vec<Command>, register: u32, column: u32) -> Result<(), AllocError>
    requires register { register < 10 }
    requires some { 1 ≤ column }
    requires column { column < 4 }
    ensures { OnOk result (code.new.items ≡ code.old.items ++ high_code register column) }
{
    let cells = [
        120 + register - 10 * column,
        123 - 10 * column,
        126 - 10 * column,
        133 - 10 * column,
    ];
    put_text(code, &cells, 1, b"0[-1+2+0]2[-0+2]1[-3++++1]1")?;
    put_many(code, 10, Command::Right)
}

// The lowest digit to x.
fn put_low(code: &mut Vec<Command>, register: u32) -> Result<(), AllocError>
    requires { register < 10 }
    ensures { OnOk result (code.new.items ≡ code.old.items ++ spelled (lane_cell register 0 ∷ lane_cell 3 0 ∷ lane_cell 6 0 ∷ []) 1 low_text) }
{
    put_text(code, &[120 + register, 123, 126], 1, b"0[-1+2+0]2[-0+2]1")
}

/// `putc r`, written after other commands. The register goes by its lane.
///
/// # Errors
///
/// There is no memory.
pub fn put_putc(code: &mut Vec<Command>, register: u32) -> Result<(), AllocError>
    requires { register < 10 }
    ensures { OnOk result (code.new.items ≡ code.old.items ++ putc_code register) }
{
    put_goto(code, 135, 93)?;
    put_high(code, register, 3)?;
    put_high(code, register, 2)?;
    put_high(code, register, 1)?;
    put_low(code, register)?;
    code.push(Command::Write)?;
    put_loop(code, &[Command::Minus])?;
    put_goto(code, 123, 135)
}

// A unit of a byte for what is over, and then more.
fn put_level(code: &mut Vec<Command>, by: u32, inner: &[Command]) -> Result<(), AllocError>
    ensures { OnOk result (code.new.items ≡ code.old.items ++ split_level by inner.now) }
{
    code.push(Command::Minus)?;
    put_many(code, by, Command::Right)?;
    code.push(Command::Plus)?;
    put_many(code, by, Command::Left)?;
    put_loop(code, inner)
}

// The fourth unit.
fn put_fourth(code: &mut Vec<Command>, by: u32) -> Result<(), AllocError>
    requires { by < 1024 }
    ensures { OnOk result (code.new.items ≡ code.old.items ++ split_last by) }
{
    code.push(Command::Minus)?;
    put_many(code, by, Command::Right)?;
    put_many(code, 3, Command::Minus)?;
    put_many(code, 2 * by, Command::Right)?;
    code.push(Command::Plus)?;
    put_many(code, 2 * by, Command::Left)
}

/// A byte divided by four, written after other commands: cells `by` apart are a guard, the byte, what is over, a free one and
/// the quarter.
///
/// # Errors
///
/// There is no memory.
pub fn put_split(alloc: Global, code: &mut Vec<Command>, by: u32) -> Result<(), AllocError>
    requires { by < 1024 }
    ensures { OnOk result (code.new.items ≡ code.old.items ++ split_code by) }
{
    let mut fourth = Vec::new(alloc);
    put_fourth(&mut fourth, by)?;
    let mut third = Vec::new(alloc);
    put_level(&mut third, by, &fourth)?;
    let mut second = Vec::new(alloc);
    put_level(&mut second, by, &third)?;
    let mut first = Vec::new(alloc);
    put_level(&mut first, by, &second)?;
    put_many(&mut first, by, Command::Left)?;
    put_loop(code, &first)?;
    put_many(code, 2 * by, Command::Right)
}

// The quarter becomes the byte.
fn put_quarter(alloc: Global, code: &mut Vec<Command>, by: u32) -> Result<(), AllocError>
    requires { by < 1024 }
    ensures { OnOk result (code.new.items ≡ code.old.items ++ quarter_code by) }
{
    let mut unit = Vec::new(alloc);
    unit.push(Command::Minus)?;
    put_many(&mut unit, 3 * by, Command::Left)?;
    unit.push(Command::Plus)?;
    put_many(&mut unit, 3 * by, Command::Right)?;
    put_many(code, by, Command::Right)?;
    put_loop(code, &unit)?;
    put_many(code, 3 * by, Command::Left)
}

// One more in a cell, from another one and back.
fn put_unit(code: &mut Vec<Command>, start: u32, cell: u32) -> Result<(), AllocError>
    ensures { OnOk result (code.new.items ≡ code.old.items ++ (goto_code start cell ++ (Plus ∷ []) ++ goto_code cell start)) }
{
    put_goto(code, start, cell)?;
    code.push(Command::Plus)?;
    put_goto(code, cell, start)
}

// As many more in a cell as a cell under the head says, which becomes 0.
fn put_units(
    alloc: Global,
    code: &mut Vec<Command>,
    start: u32,
    cell: u32,
) -> Result<(), AllocError>
    ensures { OnOk result (code.new.items ≡ code.old.items ++ loop (Minus ∷ (goto_code start cell ++ (Plus ∷ []) ++ goto_code cell start))) }
{
    let mut unit = Vec::new(alloc);
    unit.push(Command::Minus)?;
    put_unit(&mut unit, start, cell)?;
    put_loop(code, &unit)
}

// One digit of the byte in cell 136 to a cell.
fn put_part(alloc: Global, code: &mut Vec<Command>, cell: u32) -> Result<(), AllocError>
    ensures { OnOk result (code.new.items ≡ code.old.items ++ part_code 1 (units_code 1 (goto_code 137 cell ++ (Plus ∷ []) ++ goto_code cell 137))) }
{
    let mut body = Vec::new(alloc);
    put_units(alloc, &mut body, 137, cell)?;
    put_many(&mut body, 1, Command::Right)?;
    put_split(alloc, code, 1)?;
    put_loop(code, &body)?;
    put_quarter(alloc, code, 1)
}

/// `getc r`, written after other commands. The register goes by its lane.
///
/// # Errors
///
/// There is no memory.
pub fn put_getc(alloc: Global, code: &mut Vec<Command>, register: u32) -> Result<(), AllocError>
    requires { register < 10 }
    ensures { OnOk result (code.new.items ≡ code.old.items ++ getc_code register) }
{
    put_sweep(alloc, code, Sweep::Clear, register, register)?;
    put_goto(code, 135, 136)?;
    code.push(Command::Read)?;
    put_deal(alloc, code, register)?;
    put_goto(code, 136, 135)
}

// The byte in cell 136 to the digits of a register.
fn put_deal(alloc: Global, code: &mut Vec<Command>, register: u32) -> Result<(), AllocError>
    requires { register < 10 }
    ensures { OnOk result (code.new.items ≡ code.old.items ++ deal_code 1 (λ j. units_code 1 (getc_unit register j)) (loop (Minus ∷ getc_unit register 3))) }
{
    put_part(alloc, code, 120 + register)?;
    put_part(alloc, code, 120 + register - 10)?;
    put_part(alloc, code, 120 + register - 20)?;
    put_units(alloc, code, 136, 120 + register - 30)
}
