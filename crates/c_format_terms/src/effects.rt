// Calls for their effect, behind other statements.

ghost use Rattle.std.specs.Prelude.{◌≡◌, ◌∷◌, ◌++◌, [], map, codes, IfOk, OnOk, ◌==◌};
ghost use Rattle.c_syntax.specs.View.{expr_of, stmt_of};
ghost use Rattle.c_helpers.specs.Terms as terms;
ghost use Rattle.c_helpers.specs.Functions.{argument_name, call_of, conversion, put_piece, refill, spend_unit};
ghost use Rattle.c_format_terms.specs.Written.{written};

use c_syntax::tree::{Expr, Stmt};
use c_terms::{call, number, variable};
use itoa::Buffer;
use std::alloc::{AllocError, Global};

// A call of a helper function, behind other statements.
fn add_effect(
    alloc: Global,
    row: &mut Vec<Stmt>,
    name: &[u8],
    arguments: Vec<Expr>,
) -> Result<(), AllocError>
    ensures { OnOk result (map stmt_of row.new.items ≡ map stmt_of row.old.items ++ call_of name.now (map expr_of arguments.items) ∷ []) }
{
    let callee = variable(alloc, 0, name)?;
    let e = call(alloc, 0, callee, arguments)?;
    row.push(Stmt::Expr(e))?;
    Ok(())
}

// One without arguments.
fn add_plain_effect(alloc: Global, row: &mut Vec<Stmt>, name: &[u8]) -> Result<(), AllocError>
    ensures { OnOk result (map stmt_of row.new.items ≡ map stmt_of row.old.items ++ call_of name.now [] ∷ []) }
{
    let arguments = Vec::new(alloc);
    add_effect(alloc, row, name, arguments)
}

// One with an argument.
fn add_effect_of(alloc: Global, row: &mut Vec<Stmt>, name: &[u8], e: Expr) -> Result<(), AllocError>
    ensures { OnOk result (map stmt_of row.new.items ≡ map stmt_of row.old.items ++ call_of name.now (expr_of e ∷ []) ∷ []) }
{
    let mut arguments = Vec::new(alloc);
    arguments.push(e)?;
    add_effect(alloc, row, name, arguments)
}

/// The unit of a call, behind other statements.
pub fn add_unit(alloc: Global, row: &mut Vec<Stmt>) -> Result<(), AllocError>
    ensures { OnOk result (map stmt_of row.new.items ≡ map stmt_of row.old.items ++ spend_unit ∷ []) }
{
    add_plain_effect(alloc, row, b"unit of fuel")
}

// The second fuel begins anew.
fn add_refill(alloc: Global, row: &mut Vec<Stmt>) -> Result<(), AllocError>
    ensures { OnOk result (map stmt_of row.new.items ≡ map stmt_of row.old.items ++ refill ∷ []) }
{
    add_plain_effect(alloc, row, b"second fuel")
}

// A character is written.
fn add_character(alloc: Global, row: &mut Vec<Stmt>, e: Expr) -> Result<(), AllocError>
    ensures { OnOk result (map stmt_of row.new.items ≡ map stmt_of row.old.items ++ put_piece (expr_of e) ∷ []) }
{
    add_effect_of(alloc, row, b"piece of text", e)
}

/// A byte is written as it stands, behind other statements.
pub fn add_byte(alloc: Global, row: &mut Vec<Stmt>, byte: u8) -> Result<(), AllocError>
    ensures { OnOk result (map stmt_of row.new.items ≡ map stmt_of row.old.items ++ put_piece (terms.number byte) ∷ []) }
{
    let e = number(0, byte as u32, false);
    add_character(alloc, row, e)
}

// The argument behind so many others.
fn argument(alloc: Global, index: usize) -> Result<Expr, AllocError>
    ensures { IfOk result (λ e. expr_of e ≡ terms.variable (argument_name index)) }
{
    let mut buffer = Buffer::new();
    let name = buffer.format(index).as_bytes();
    variable(alloc, 0, name)
}

// What a conversion but that of a character writes of an argument.
fn add_printed(alloc: Global, row: &mut Vec<Stmt>, letter: u8, e: Expr) -> Result<(), AllocError>
    ensures { OnOk result (map stmt_of row.new.items ≡ map stmt_of row.old.items ++ refill ∷ call_of (codes "%" ++ letter ∷ []) (expr_of e ∷ []) ∷ []) }
{
    add_refill(alloc, row)?;
    let name = [b'%', letter];
    add_effect_of(alloc, row, &name, e)
}

// The conversion that writes a character.
fn is_character(letter: u8) -> bool
    ensures { result ≡ (letter == 99) }
{
    letter == b'c'
}

// What a conversion writes of an expression.
fn add_written(alloc: Global, row: &mut Vec<Stmt>, letter: u8, e: Expr) -> Result<(), AllocError>
    ensures { OnOk result (map stmt_of row.new.items ≡ map stmt_of row.old.items ++ written letter (expr_of e)) }
{
    if is_character(letter) {
        add_character(alloc, row, e)
    } else {
        add_printed(alloc, row, letter, e)
    }
}

/// What a conversion writes of the argument behind so many others, behind other statements.
pub fn add_conversion(
    alloc: Global,
    row: &mut Vec<Stmt>,
    letter: u8,
    index: usize,
) -> Result<(), AllocError>
    ensures { OnOk result (map stmt_of row.new.items ≡ map stmt_of row.old.items ++ conversion letter index) }
{
    let e = argument(alloc, index)?;
    add_written(alloc, row, letter, e)
}
