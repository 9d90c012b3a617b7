// Commands of noted texts.

ghost use Rattle.std.specs.Prelude.{◌≡◌, ◌++◌, OnOk, IfOk};
ghost use Rattle.bf_tape.specs.Slots.{nth};
ghost use Rattle.bf_columns.specs.Noted.{noted, noted_sign, noted_head};

use bf_lang::Command;
use bf_tape::code::put_goto;
use std::alloc::AllocError;

/// The commands of a text over a row of cells, written after others: `+`, `-` and brackets as they are, and a figure where the head
/// goes to that cell of the row. `head` is the cell where it begins.
pub(crate) fn put_text(
    code: &mut Vec<Command>,
    cells: &[u32],
    head: usize,
    text: &[u8],
) -> Result<(), AllocError>
    ensures { OnOk result (code.new.items ≡ code.old.items ++ noted cells.now head text.now) }
{
    let mut at = head;
    for sign in text {
        at = put_sign(code, cells, at, *sign)?;
    }
    Ok(())
}

// One sign, and the cell of the row at which the head is after it.
fn put_sign(
    code: &mut Vec<Command>,
    cells: &[u32],
    head: usize,
    sign: u8,
) -> Result<usize, AllocError>
    ensures code { OnOk result (code.new.items ≡ code.old.items ++ noted_sign cells.now head sign) }
    ensures head { IfOk result (λ at. at ≡ noted_head head sign) }
{
    if sign == b'+' {
        code.push(Command::Plus)?;
        return Ok(head);
    }
    if sign == b'-' {
        code.push(Command::Minus)?;
        return Ok(head);
    }
    if sign == b'[' {
        code.push(Command::Open)?;
        return Ok(head);
    }
    if sign == b']' {
        code.push(Command::Close)?;
        return Ok(head);
    }
    let to = usize::from(sign.saturating_sub(b'0'));
    put_goto(code, cell_at(cells, head), cell_at(cells, to))?;
    Ok(to)
}

// A cell of a row.
fn cell_at(cells: &[u32], at: usize) -> u32
    ensures { result ≡ nth cells.now at }
{
    match cells.get(at) {
        Some(cell) => *cell,
        None => 0,
    }
}
