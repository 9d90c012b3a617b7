// What the function of a format does, byte by byte.

ghost use Rattle.std.specs.Prelude.{◌≡◌, ◌∷◌, ◌++◌, ℕ, suc, Bool, List, map, true, false, length, IfOk};
ghost use Rattle.c_syntax.specs.Plain.{CStmt};
ghost use Rattle.c_syntax.specs.View.{stmt_of};
ghost use Rattle.c_helpers.specs.Terms as terms;
ghost use Rattle.c_helpers.specs.Functions.{conversion, pieces, put_piece, spend_unit};

use crate::conversions::is_percent;
use crate::effects::{add_byte, add_conversion, add_unit};
use c_syntax::tree::Stmt;
use c_terms::block;
use std::alloc::{AllocError, Global};

// A byte is written as it stands, and no conversion begins behind it.
fn add_plain(alloc: Global, row: &mut Vec<Stmt>, byte: u8) -> Result<bool, AllocError>
    ensures { (rest : Bool → List CStmt) → IfOk result (λ next. map stmt_of row.new.items ++ rest next ≡ map stmt_of row.old.items ++ put_piece (terms.number byte) ∷ rest false) }
{
    add_byte(alloc, row, byte)?;
    Ok(false)
}

// What a byte in the text of a format writes, behind other statements, and whether it begins a conversion.
fn add_text(alloc: Global, row: &mut Vec<Stmt>, byte: u8) -> Result<bool, AllocError>
    ensures { (format : List ℕ) (i : ℕ) → IfOk result (λ next. map stmt_of row.new.items ++ pieces next format i ≡ map stmt_of row.old.items ++ pieces false (byte ∷ format) i) }
{
    if is_percent(byte) {
        Ok(true)
    } else {
        add_plain(alloc, row, byte)
    }
}

// What a conversion writes, behind other statements. Its letter is kept.
fn add_kept(
    alloc: Global,
    row: &mut Vec<Stmt>,
    letters: &mut Vec<u8>,
    letter: u8,
) -> Result<bool, AllocError>
    ensures { (format : List ℕ) → IfOk result (λ next. map stmt_of row.new.items ++ pieces next format (length letters.new.items) ≡ map stmt_of row.old.items ++ (conversion letter (length letters.old.items) ++ pieces false format (suc (length letters.old.items)))) }
{
    let index = letters.len();
    add_conversion(alloc, row, letter, index)?;
    letters.push(letter)?;
    Ok(false)
}

// What a byte behind a percent writes, behind other statements. Its letter is kept where it is a conversion.
fn add_behind_percent(
    alloc: Global,
    row: &mut Vec<Stmt>,
    letters: &mut Vec<u8>,
    byte: u8,
) -> Result<bool, AllocError>
    ensures { (format : List ℕ) → IfOk result (λ next. map stmt_of row.new.items ++ pieces next format (length letters.new.items) ≡ map stmt_of row.old.items ++ pieces true (byte ∷ format) (length letters.old.items)) }
{
    if is_percent(byte) {
        add_plain(alloc, row, byte)
    } else {
        add_kept(alloc, row, letters, byte)
    }
}

// What a byte of a format writes, and whether a conversion begins behind it. The letters are those of the conversions so far.
fn add_piece(
    alloc: Global,
    row: &mut Vec<Stmt>,
    letters: &mut Vec<u8>,
    behind: bool,
    byte: u8,
) -> Result<bool, AllocError>
    ensures { (format : List ℕ) → IfOk result (λ next. map stmt_of row.new.items ++ pieces next format (length letters.new.items) ≡ map stmt_of row.old.items ++ pieces behind (byte ∷ format) (length letters.old.items)) }
{
    if behind {
        add_behind_percent(alloc, row, letters, byte)
    } else {
        add_text(alloc, row, byte)
    }
}

/// The body of the function of a format: the unit of the call comes before all.
pub fn body(alloc: Global, format: &[u8]) -> Result<Stmt, AllocError>
    ensures { IfOk result (λ s. stmt_of s ≡ terms.block (spend_unit ∷ pieces false format.now 0)) }
{
    let mut row = Vec::new(alloc);
    add_unit(alloc, &mut row)?;
    let mut letters = Vec::new(alloc);
    let mut behind = false;
    for byte in format {
        let next = add_piece(alloc, &mut row, &mut letters, behind, *byte)?;
        behind = next;
    }
    Ok(block(row))
}
