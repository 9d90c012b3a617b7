// The commands of one step of a counter.

ghost use Rattle.std.specs.Prelude.{◌≡◌, ◌++◌, IfOk, OnOk};
ghost use Rattle.bf_word.specs.Steps.{if_zero_code, next_code, lower_2, lower_past, lift_2, lift_past};

use bf_lang::Command;
use bf_tape::code::{put_many, put_probe};
use std::alloc::{AllocError, Global};

// Where the cell under the head is 0, something from the third cell after it and back there.
fn put_if_zero(code: &mut Vec<Command>, more: &[Command]) -> Result<(), AllocError>
    ensures { OnOk result (code.new.items ≡ code.old.items ++ if_zero_code more.now) }
{
    put_probe(code)?;
    code.push(Command::Open)?;
    code.push(Command::Minus)?;
    code.extend_from_slice(more)?;
    code.push(Command::Close)?;
    put_many(code, 3, Command::Left)
}

// To the next byte, a step there, and back.
fn next(alloc: Global, inner: &[Command]) -> Result<Vec<Command>, AllocError>
    ensures { IfOk result (λ code. code.items ≡ next_code inner.now) }
{
    let mut code = Vec::new(alloc);
    put_many(&mut code, 2, Command::Left)?;
    code.extend_from_slice(inner)?;
    put_many(&mut code, 2, Command::Right)?;
    Ok(code)
}

/// The highest byte less.
pub(crate) fn lower_high(alloc: Global) -> Result<Vec<Command>, AllocError>
    ensures { IfOk result (λ code. code.items ≡ lower_2) }
{
    let mut more = Vec::new(alloc);
    put_many(&mut more, 4, Command::Right)?;
    more.push(Command::Plus)?;
    put_many(&mut more, 4, Command::Left)?;
    let mut code = Vec::new(alloc);
    put_if_zero(&mut code, &more)?;
    code.push(Command::Minus)?;
    Ok(code)
}

/// A byte less, by the step of the next one.
pub(crate) fn lower_past(alloc: Global, inner: &[Command]) -> Result<Vec<Command>, AllocError>
    ensures { IfOk result (λ code. code.items ≡ lower_past inner.now) }
{
    let more = next(alloc, inner)?;
    let mut code = Vec::new(alloc);
    put_if_zero(&mut code, &more)?;
    code.push(Command::Minus)?;
    Ok(code)
}

/// The highest byte more.
pub(crate) fn lift_high(alloc: Global) -> Result<Vec<Command>, AllocError>
    ensures { IfOk result (λ code. code.items ≡ lift_2) }
{
    let mut code = Vec::new(alloc);
    code.push(Command::Plus)?;
    Ok(code)
}

/// A byte more, by the step of the next one.
pub(crate) fn lift_past(alloc: Global, inner: &[Command]) -> Result<Vec<Command>, AllocError>
    ensures { IfOk result (λ code. code.items ≡ lift_past inner.now) }
{
    let more = next(alloc, inner)?;
    let mut code = Vec::new(alloc);
    code.push(Command::Plus)?;
    put_if_zero(&mut code, &more)?;
    Ok(code)
}
