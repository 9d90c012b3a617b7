// Commands, written behind others.

ghost use Rattle.std.specs.Prelude.{◌≡◌, ℕ, ◌+◌, ◌-◌, ◌≤◌, ◌++◌, ◌∷◌, [], List, length, OnOk};
ghost use Rattle.bf_tape.specs.Does.{loop};
ghost use Rattle.bf_lang.specs.declared.command.Command.TheVariants.{Minus};
ghost use Rattle.bf_tape.specs.Code.{many, goto_code, clear_code, more_code, add_code, read_code, write_code, carry_body, carry_code, copy_body, copy_loop, dup_code, copy_code, while_code, times_code, slide_code, shift_code, walk_code, if_code, then_body, then_loop, else_loop, probe_code};

use bf_lang::Command;
use std::alloc::AllocError;

/// So many of a command.
pub fn put_many(code: &mut Vec<Command>, count: u32, command: Command) -> Result<(), AllocError>
    ensures { OnOk result (code.new.items ≡ code.old.items ++ many count command) }
{
    for _ in 0..count {
        code.push(command)?;
    }
    Ok(())
}

/// From one cell to another.
pub fn put_goto(code: &mut Vec<Command>, from: u32, to: u32) -> Result<(), AllocError>
    ensures { OnOk result (code.new.items ≡ code.old.items ++ goto_code from to) }
{
    put_many(code, to.saturating_sub(from), Command::Right)?;
    put_many(code, from.saturating_sub(to), Command::Left)
}

/// A loop round commands.
pub fn put_loop(code: &mut Vec<Command>, body: &[Command]) -> Result<(), AllocError>
    ensures { OnOk result (code.new.items ≡ code.old.items ++ loop body.now) }
{
    code.push(Command::Open)?;
    code.extend_from_slice(body)?;
    code.push(Command::Close)?;
    Ok(())
}

/// The test of a cell, which raises the third one after it where the cell is 0.
pub fn put_probe(code: &mut Vec<Command>) -> Result<(), AllocError>
    ensures { OnOk result (code.new.items ≡ code.old.items ++ probe_code) }
{
    code.extend_from_slice(&[
        Command::Right,
        Command::Right,
        Command::Right,
        Command::Plus,
        Command::Left,
        Command::Left,
        Command::Left,
        Command::Open,
        Command::Right,
        Command::Right,
        Command::Right,
        Command::Minus,
        Command::Close,
        Command::Right,
        Command::Right,
        Command::Right,
        Command::Open,
        Command::Right,
        Command::Right,
        Command::Right,
        Command::Close,
        Command::Left,
        Command::Left,
        Command::Left,
    ])
}

/// A cell becomes 0.
pub(crate) fn put_clear(code: &mut Vec<Command>, from: u32, cell: u32) -> Result<(), AllocError>
    ensures { OnOk result (code.new.items ≡ code.old.items ++ clear_code from cell) }
{
    put_goto(code, from, cell)?;
    put_loop(code, &[Command::Minus])
}

// So much more in the cell under the head, by `+` or by `-`, whichever are fewer.
fn put_more(code: &mut Vec<Command>, v: u8) -> Result<(), AllocError>
    ensures { OnOk result (code.new.items ≡ code.old.items ++ more_code v) }
{
    if v > 128 {
        return put_many(code, 256 - v as u32, Command::Minus);
    }
    put_many(code, v as u32, Command::Plus)
}

/// Adds to a cell.
pub(crate) fn put_add(
    code: &mut Vec<Command>,
    from: u32,
    cell: u32,
    v: u8,
) -> Result<(), AllocError>
    ensures { OnOk result (code.new.items ≡ code.old.items ++ add_code from cell v) }
{
    put_goto(code, from, cell)?;
    put_more(code, v)
}

/// The next byte of the input into a cell.
pub(crate) fn put_read(code: &mut Vec<Command>, from: u32, cell: u32) -> Result<(), AllocError>
    ensures { OnOk result (code.new.items ≡ code.old.items ++ read_code from cell) }
{
    put_goto(code, from, cell)?;
    put_many(code, 1, Command::Read)
}

/// Writes a cell.
pub(crate) fn put_write(code: &mut Vec<Command>, from: u32, cell: u32) -> Result<(), AllocError>
    ensures { OnOk result (code.new.items ≡ code.old.items ++ write_code from cell) }
{
    put_goto(code, from, cell)?;
    put_many(code, 1, Command::Write)
}

// One less in a cell, and a command on another.
fn put_carry_body(
    code: &mut Vec<Command>,
    sign: Command,
    from: u32,
    to: u32,
) -> Result<(), AllocError>
    ensures { OnOk result (code.new.items ≡ code.old.items ++ carry_body sign from to) }
{
    code.push(Command::Minus)?;
    put_goto(code, from, to)?;
    code.push(sign)?;
    put_goto(code, to, from)
}

/// Takes a cell down to 0, and changes another by a command as often.
pub(crate) fn put_carry(
    code: &mut Vec<Command>,
    sign: Command,
    at: u32,
    from: u32,
    to: u32,
) -> Result<(), AllocError>
    ensures { OnOk result (code.new.items ≡ code.old.items ++ carry_code sign at from to) }
{
    put_goto(code, at, from)?;
    code.push(Command::Open)?;
    put_carry_body(code, sign, from, to)?;
    code.push(Command::Close)?;
    Ok(())
}

// One less in a cell, and one more in two others.
fn put_copy_body(code: &mut Vec<Command>, from: u32, to: u32, spare: u32) -> Result<(), AllocError>
    ensures { OnOk result (code.new.items ≡ code.old.items ++ copy_body from to spare) }
{
    code.push(Command::Minus)?;
    put_goto(code, from, to)?;
    code.push(Command::Plus)?;
    put_goto(code, to, spare)?;
    code.push(Command::Plus)?;
    put_goto(code, spare, from)
}

// Takes a cell down to 0, and raises two others as often.
fn put_copy_loop(code: &mut Vec<Command>, from: u32, to: u32, spare: u32) -> Result<(), AllocError>
    ensures { OnOk result (code.new.items ≡ code.old.items ++ copy_loop from to spare) }
{
    code.push(Command::Open)?;
    put_copy_body(code, from, to, spare)?;
    code.push(Command::Close)?;
    Ok(())
}

/// Adds a cell to another and keeps it.
pub(crate) fn put_dup(
    code: &mut Vec<Command>,
    at: u32,
    from: u32,
    to: u32,
    spare: u32,
) -> Result<(), AllocError>
    ensures { OnOk result (code.new.items ≡ code.old.items ++ dup_code at from to spare) }
{
    put_goto(code, at, from)?;
    put_copy_loop(code, from, to, spare)?;
    put_carry(code, Command::Plus, from, spare, from)
}

/// Sets a cell to another.
pub(crate) fn put_copy(
    code: &mut Vec<Command>,
    at: u32,
    from: u32,
    to: u32,
    spare: u32,
) -> Result<(), AllocError>
    ensures { OnOk result (code.new.items ≡ code.old.items ++ copy_code at from to spare) }
{
    put_clear(code, at, to)?;
    put_clear(code, to, spare)?;
    put_dup(code, spare, from, to, spare)
}

// A body where a cell is not 0, with the cell to spare taken down and the cell cleared behind it.
fn put_then_body(
    code: &mut Vec<Command>,
    cell: u32,
    spare: u32,
    yes: &[Command],
) -> Result<(), AllocError>
    ensures { OnOk result (code.new.items ≡ code.old.items ++ then_body cell spare yes.now) }
{
    put_goto(code, cell, 0)?;
    code.extend_from_slice(yes)?;
    put_goto(code, 0, spare)?;
    code.push(Command::Minus)?;
    put_goto(code, spare, cell)?;
    put_loop(code, &[Command::Minus])
}

// The first half of a choice.
fn put_then(
    code: &mut Vec<Command>,
    cell: u32,
    spare: u32,
    yes: &[Command],
) -> Result<(), AllocError>
    ensures { OnOk result (code.new.items ≡ code.old.items ++ then_loop cell spare yes.now) }
{
    code.push(Command::Open)?;
    put_then_body(code, cell, spare, yes)?;
    code.push(Command::Close)?;
    Ok(())
}

// The second half of a choice.
fn put_else(code: &mut Vec<Command>, spare: u32, other: &[Command]) -> Result<(), AllocError>
    ensures { OnOk result (code.new.items ≡ code.old.items ++ else_loop spare other.now) }
{
    code.push(Command::Open)?;
    put_goto(code, spare, 0)?;
    code.extend_from_slice(other)?;
    put_goto(code, 0, spare)?;
    code.push(Command::Minus)?;
    code.push(Command::Close)?;
    Ok(())
}

/// One piece where a cell is not 0, another where it is.
pub(crate) fn put_if(
    code: &mut Vec<Command>,
    from: u32,
    cell: u32,
    spare: u32,
    yes: &[Command],
    other: &[Command],
) -> Result<(), AllocError>
    ensures { OnOk result (code.new.items ≡ code.old.items ++ if_code from cell spare yes.now other.now) }
{
    put_clear(code, from, spare)?;
    code.push(Command::Plus)?;
    put_goto(code, spare, cell)?;
    put_then(code, cell, spare, yes)?;
    put_goto(code, cell, spare)?;
    put_else(code, spare, other)
}

/// A body and what brings the head to it and back.
pub(crate) fn put_while(
    code: &mut Vec<Command>,
    from: u32,
    cell: u32,
    body: &[Command],
) -> Result<(), AllocError>
    ensures { OnOk result (code.new.items ≡ code.old.items ++ while_code from cell body.now) }
{
    put_goto(code, from, cell)?;
    code.push(Command::Open)?;
    put_goto(code, cell, 0)?;
    code.extend_from_slice(body)?;
    put_goto(code, 0, cell)?;
    code.push(Command::Close)?;
    Ok(())
}

/// A body as often as a cell says.
pub(crate) fn put_times(
    code: &mut Vec<Command>,
    from: u32,
    cell: u32,
    body: &[Command],
) -> Result<(), AllocError>
    ensures { OnOk result (code.new.items ≡ code.old.items ++ times_code from cell body.now) }
{
    put_goto(code, from, cell)?;
    code.push(Command::Open)?;
    code.push(Command::Minus)?;
    code.extend_from_slice(body)?;
    code.push(Command::Close)?;
    Ok(())
}

/// The head goes so many cells to one side.
pub(crate) fn put_slide(code: &mut Vec<Command>, by: u32, right: bool) -> Result<(), AllocError>
    ensures { OnOk result (code.new.items ≡ code.old.items ++ slide_code by right) }
{
    put_many(code, by, if right { Command::Right } else { Command::Left })
}

/// The frame moves.
pub(crate) fn put_shift(
    code: &mut Vec<Command>,
    from: u32,
    by: u32,
    right: bool,
) -> Result<(), AllocError>
    ensures { OnOk result (code.new.items ≡ code.old.items ++ shift_code from by right) }
{
    put_goto(code, from, 0)?;
    put_slide(code, by, right)
}
